//! Collecting repeated texts of fields as abbreviations.

ghost use Rattle.std.specs.Prelude.{◌≡◌, ◌++◌, ◌∷◌, [], ◌<◌, ℕ, List, IfOk, OnOk, cond, is_some, length, map};
ghost use Rattle.std.specs.List.{AllByRecursion};
ghost use Rattle.std.specs.String.{string_bytes};
ghost use Rattle.bib_syntax.specs.Grammar.{IsRawReading};
ghost use Rattle.bib_syntax.specs.Reading.{FileReading};
ghost use Rattle.bib_syntax.specs.Views.{entry_reading_of, field_of, file_of};
ghost use Rattle.edit_entries.specs.LineEnds.{line_end_of};
ghost use Rattle.edit_strings.specs.Collected as spec;
ghost use Rattle.edit_strings.specs.Collected.{AreNames, AreMadeAbbreviations, definition_lines, known_name, string_line, text_index, with_lines};
ghost use Rattle.edit_strings.specs.Collecting.{collection_by, known_in, string_texts};
ghost use Rattle.edit_strings.specs.Views.{lent_texts};
ghost use Rattle.edit_strings.specs.Exchanged.{exchanges};
ghost use Rattle.edit_entries.specs.Changes.{text_changed};
ghost use Rattle.edit_strings.specs.Tables.{entry_edits, field_edits, value_edits, AreAllFieldsCut, IsBelow, IsFieldCut, index_in};
ghost use Rattle.edit_entries.specs.EditList.{edit_of};

use crate::collected::collected_texts;
use crate::known::{first_entry_start, known_names};
use crate::naming::names;
use crate::taken::Taken;
use crate::texts::{counts, named_text, named_texts};
use bib_syntax::raw::{Pair, RawBibliography, RawEntry};
use bib_text::spanned::Spanned;
use edit_entries::document::RawDocument;
use edit_entries::editing::{Edit, edited_all};
use edit_entries::line_ends::line_end;
use edit_entries::values::value_end;
use std::alloc::{AllocError, Global};
use std::collections::BTreeMap;

// Collected texts: the index of each, the names that the file defines for texts, and the name at each index.
#[derive(Drop)]
struct Collection<'s> {
    indices: BTreeMap<&'s str, usize>,
    known: BTreeMap<&'s str, &'s str>,
    names: Vec<String>,
}

// Returns a map from each text to its last index.
fn indices<'s>(alloc: Global, texts: &[&'s str]) -> Result<BTreeMap<&'s str, usize>, AllocError>
    ensures { IfOk result (λ indices. index_in indices ≡ text_index (lent_texts texts.now)) }
{
    let mut indices = BTreeMap::new(alloc);
    'texts: for (index, text) in texts.iter().enumerate() {
        indices.insert(*text, index)?;
    }
    Ok(indices)
}

// Appends the edit that replaces the value of `field` by the name of its text. Does nothing unless the field has one of the names `fields`
// and its text is collected.
fn push_edit(
    edits: &mut Vec<Edit>,
    alloc: Global,
    text: &str,
    fields: &[&str],
    collection: &Collection<'_>,
    field: &Pair<'_>,
) -> Result<(), AllocError>
    requires below { IsBelow (length collection.now.names.items) (index_in collection.now.indices) }
    requires cut { IsFieldCut text.now (field_of field.now) }
    ensures { OnOk result (map edit_of edits.new.items ≡ map edit_of edits.old.items ++
        value_edits text.now (field_of field.now)
        ((collection_by (lent_texts fields.now) (index_in collection.now.indices) (string_texts collection.now.names.items))
        (field_of field.now))) }
{
    let Some(value) = named_text(fields, field) else {
        return Ok(());
    };
    let Some(index) = collection.indices.get(value) else {
        return Ok(());
    };
    edits.push(Edit {
        start: field.value.span.start,
        end: value_end(text, field),
        text: String::from_str(alloc, collection.names[*index].as_str())?,
    })?;
    Ok(())
}

// Appends an edit for each field of `among` that has one of the names `fields`, and whose text is collected.
fn push_edits(
    edits: &mut Vec<Edit>,
    alloc: Global,
    text: &str,
    fields: &[&str],
    collection: &Collection<'_>,
    among: &[Pair<'_>],
) -> Result<(), AllocError>
    requires below { IsBelow (length collection.now.names.items) (index_in collection.now.indices) }
    requires cut { AllByRecursion (IsFieldCut text.now) (map field_of among.now) }
    ensures { OnOk result (map edit_of edits.new.items ≡ map edit_of edits.old.items ++
        field_edits (collection_by (lent_texts fields.now) (index_in collection.now.indices)
        (string_texts collection.now.names.items)) text.now (map field_of among.now)) }
{
    'fields: for field in among {
        push_edit(edits, alloc, text, fields, collection, field)?;
    }
    Ok(())
}

// Returns `first` and the edits for all fields of `entries` that have one of the names `fields`, and whose text is collected.
fn edits(
    alloc: Global,
    text: &str,
    fields: &[&str],
    collection: &Collection<'_>,
    first: Edit,
    entries: &[Spanned<RawEntry<'_>>],
) -> Result<Vec<Edit>, AllocError>
    requires below { IsBelow (length collection.now.names.items) (index_in collection.now.indices) }
    requires cut { AreAllFieldsCut text.now (map entry_reading_of entries.now) }
    ensures { IfOk result (λ made. map edit_of made.items ≡ edit_of first ∷
        entry_edits (collection_by (lent_texts fields.now) (index_in collection.now.indices)
        (string_texts collection.now.names.items)) text.now (map entry_reading_of entries.now)) }
{
    let mut edits = Vec::new(alloc);
    edits.push(first)?;
    'entries: for entry in entries {
        push_edits(&mut edits, alloc, text, fields, collection, &entry.v.fields)?;
    }
    Ok(edits)
}

// Appends the `@string` line that defines `name` as `text`.
fn push_line(new: &mut String, line_end: &str, name: &str, text: &str) -> Result<(), AllocError>
    ensures { OnOk result (string_bytes new.new ≡ string_bytes new.old ++ string_line line_end.now name.now text.now) }
{
    new.push_str("@string{")?;
    new.push_str(name)?;
    new.push_str(" = {")?;
    new.push_str(text)?;
    new.push_str("}}")?;
    new.push_str(line_end)?;
    Ok(())
}

// Appends the `@string` line that defines `name` as `text`, unless the text has a known name.
fn push_definition(
    new: &mut String,
    line_end: &str,
    known: &BTreeMap<&str, &str>,
    name: &str,
    text: &str,
) -> Result<(), AllocError>
    ensures { OnOk result (string_bytes new.new ≡ string_bytes new.old ++
        cond (is_some (known_in known.now text.now)) [] (string_line line_end.now name.now text.now)) }
{
    if known.contains_key(text) {
        return Ok(());
    }
    push_line(new, line_end, name, text)
}

// Returns the `@string` lines that define each name as the text at the same index, except for texts with a known name.
fn definitions(
    alloc: Global,
    line_end: &str,
    known: &BTreeMap<&str, &str>,
    names: &[String],
    texts: &[&str],
) -> Result<String, AllocError>
    requires { length names.now ≡ length texts.now }
    ensures { IfOk result (λ new. (says : FileReading) → ((text : List ℕ) → known_in known.now text ≡ known_name says text) →
        string_bytes new ≡ definition_lines says line_end.now (string_texts names.now) (lent_texts texts.now)) }
{
    let mut new = String::new(alloc);
    'names: for (index, name) in names.iter().enumerate() {
        push_definition(&mut new, line_end, known, name.as_str(), texts[index])?;
    }
    Ok(new)
}

// Returns the collection of `texts`: the index of each, the names that the file defines for texts, and a name for each of `texts`.
fn collection_of<'s>(
    alloc: Global,
    raw: &RawBibliography<'s>,
    known: BTreeMap<&'s str, &'s str>,
    texts: &[&'s str],
) -> Result<Collection<'s>, AllocError>
    requires { (text : List ℕ) → known_in known text ≡ known_name (file_of raw.now) text }
    ensures index { IfOk result (λ made. index_in made.indices ≡ text_index (lent_texts texts.now)) }
    ensures known { IfOk result (λ made. (text : List ℕ) → known_in made.known text ≡ known_name (file_of raw.now) text) }
    ensures named { IfOk result (λ made. AreNames (file_of raw.now) (lent_texts texts.now) (string_texts made.names.items)) }
{
    let mut taken = Taken::of_file(alloc, raw)?;
    let names = names(alloc, &mut taken, &known, texts)?;
    let indices = indices(alloc, texts)?;
    Ok(Collection {
        indices,
        known,
        names,
    })
}

// Returns `text` with each collected value of a field with one of the names `fields` replaced by the name of its text. The definitions of
// the new names are before the first entry.
fn with_collection(
    alloc: Global,
    text: &str,
    raw: &RawBibliography<'_>,
    fields: &[&str],
    texts: &[&str],
    collection: &Collection<'_>,
) -> Result<String, AllocError>
    requires read { IsRawReading text.now (file_of raw.now) }
    requires index { index_in collection.now.indices ≡ text_index (lent_texts texts.now) }
    requires known { (text : List ℕ) → known_in collection.now.known text ≡ known_name (file_of raw.now) text }
    requires count { length collection.now.names.items ≡ length texts.now }
    ensures { IfOk result (λ new. string_bytes new ≡
        with_lines (record { text = text.now; says = file_of raw.now })
        (definition_lines (file_of raw.now) (line_end_of text.now) (string_texts collection.now.names.items) (lent_texts texts.now))
        (text_changed (exchanges (spec.collection (lent_texts fields.now) (lent_texts texts.now)
        (string_texts collection.now.names.items))) (record { text = text.now; says = file_of raw.now }))) }
{
    let lines = definitions(
        alloc,
        line_end(text),
        &collection.known,
        &collection.names,
        texts,
    )?;
    let start = first_entry_start(&raw.entries);
    let first = Edit {
        start,
        end: start,
        text: lines,
    };
    let made = edits(alloc, text, fields, collection, first, &raw.entries)?;
    edited_all(alloc, text, &made)
}

/// Returns the text of `document` with repeated values replaced by abbreviations. A text is collected if it is the value of at
/// least `at_least` fields of entries, as one literal. It must be possible to write it between braces, also for BibTeX, which
/// counts a brace after a backslash. An `at_least` of 0 or 1 counts as 2. Only fields with one of the names `fields` count, in
/// any ASCII case. A text is only collected if a definition can be reused for it, or if it has more characters than its new name
/// without a number.
///
/// A text gets the name of the first definition that can be reused for it, as the name is written there. Such a definition is
/// before the first entry, and its value is the text as one literal. Its name has no other definition in any ASCII case and no
/// leading digit, and isn't a month's abbreviation. Each other text gets a new name in lowercase: the first ASCII letter of each
/// word, or the first 8 ASCII letters of a single word. If there are none, it is `s`. Unless this name is new, the least number
/// from 2 on that makes it new is added. A new name isn't a month's abbreviation, isn't defined or used in the file in any ASCII
/// case, and isn't the name of an earlier text.
///
/// The definitions of new names are directly before the first entry, in the order of the first occurrences of the texts. Each is
/// `@string{name = {text}}` and a line end. Their line ends are CR LF if the first line of the text ends so, and LF otherwise. Everything
/// else is unchanged. Returns an error only if memory runs out.
pub fn collect(
    alloc: Global,
    document: &RawDocument<'_>,
    fields: &[&str],
    at_least: usize,
) -> Result<String, AllocError>
    ensures { IfOk result (λ new. AreMadeAbbreviations document.now (lent_texts fields.now) at_least (string_bytes new)) }
{
    let raw = document.raw();
    let all = named_texts(alloc, fields, &raw.entries)?;
    let counts = counts(alloc, &all)?;
    let known = known_names(alloc, raw)?;
    let texts = collected_texts(alloc, &known, &counts, at_least.max(2), &all)?;
    let collection = collection_of(alloc, raw, known, &texts)?;
    with_collection(alloc, document.text(), raw, fields, &texts, &collection)
}
