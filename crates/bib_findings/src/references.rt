//! Findings of keys that entries refer to and no kept entry has.

ghost use Rattle.std.specs.Prelude.{◌≡◌, ◌++◌, ◌<◌, All, length, map, IfOk, OnOk, filter};
ghost use Rattle.std.specs.List.{flat_map, list_any};
ghost use Rattle.std.specs.String.{string_bytes};
ghost use Rattle.bib_chunks.specs.Styled.{styled};
ghost use Rattle.bib_tables.specs.Requirements.{texts};
ghost use Rattle.bib_entry.specs.declared.entry.Entry.{Entry as AnEntry};
ghost use Rattle.bib_queries.specs.Names.{comma_parts, name_if_filled};
ghost use Rattle.bib_syntax.specs.Views.{entry_reading_of};
ghost use Rattle.bib_findings.specs.Adding.{Adds};
ghost use Rattle.bib_findings.specs.Entries.{AreOfEach};
ghost use Rattle.bib_findings.specs.References.{AreReferences, entry_references, field_references, is_unknown, keys_in, keys_of, reference_finding, reference_message, tested_keys, written_keys};

use crate::codes::Code;
use crate::entry_names::entry_name;
use crate::finding::Finding;
use crate::identities::own_literal;
use crate::places::field_place;
use bib_chunks::chunk::{ChunksRef, format_styled};
use bib_chunks::lists::comma_texts;
use bib_collections::names::Names;
use bib_entry::entry::Entry;
use bib_syntax::raw::RawEntry;
use bib_text::spanned::Spanned;
use bib_text::text::Text;
use std::alloc::{AllocError, Global};

// The field that contains one key, its whole text.
const CROSSREF: &str = "crossref";

// The fields that refer to other entries: each except the first contains a comma list of keys.
static REFERENCE_FIELDS: [&str; 5] = [CROSSREF, "xdata", "xref", "related", "entryset"];

// Returns the keys in these chunks, as the value of the field of this name.
fn keys_of(alloc: Global, field: &str, chunks: ChunksRef<'_>) -> Result<Vec<Text>, AllocError>
    ensures { IfOk result (λ keys. keys.items ≡ keys_of field.now (styled chunks.now)) }
{
    if field != CROSSREF {
        return comma_texts(alloc, chunks);
    }
    let mut keys = Vec::new(alloc);
    keys.push(Text::from_string(format_styled(alloc, chunks)?))?;
    Ok(keys)
}

// Returns the keys in this field of an entry, or none if the entry lacks the field.
fn keys_in(alloc: Global, entry: &Entry, field: &str) -> Result<Vec<Text>, AllocError>
    ensures { IfOk result (λ keys. keys.items ≡ keys_in entry.now field.now) }
{
    match entry.get(field) {
        Some(chunks) => keys_of(alloc, field, chunks),
        None => Ok(Vec::new(alloc)),
    }
}

// Appends a key unless it is empty.
fn push_key(alloc: Global, keys: &mut Vec<Text>, key: &str) -> Result<(), AllocError>
    ensures { OnOk result (keys.new.items ≡ keys.old.items ++ name_if_filled key.now) }
{
    if key.is_empty() {
        return Ok(());
    }
    keys.push(Text::from_string(String::from_str(alloc, key)?))?;
    Ok(())
}

// Returns the parts of a comma list, without the white space around them and without empty parts.
fn comma_parts(alloc: Global, list: &str) -> Result<Vec<Text>, AllocError>
    ensures { IfOk result (λ parts. parts.items ≡ comma_parts list.now) }
{
    let mut parts = Vec::new(alloc);
    'parts: for part in list.split(',') {
        push_key(alloc, &mut parts, part.trim())?;
    }
    Ok(parts)
}

// Returns the keys in the text of a field, as they are in the file: the text of `crossref` without the white space around it, and the parts
// of the comma list of any other field.
fn written_keys(alloc: Global, field: &str, text: &str) -> Result<Vec<Text>, AllocError>
    ensures { IfOk result (λ keys. keys.items ≡ written_keys field.now text.now) }
{
    if field == CROSSREF {
        let mut keys = Vec::new(alloc);
        keys.push(Text::from_string(String::from_str(alloc, text.trim())?))?;
        return Ok(keys);
    }
    comma_parts(alloc, text)
}

// Returns the keys in a field of an entry as they are in the file, if its value is one literal; otherwise `keys`.
fn tested_keys(
    alloc: Global,
    said: &Spanned<RawEntry<'_>>,
    field: &str,
    keys: Vec<Text>,
) -> Result<Vec<Text>, AllocError>
    ensures { IfOk result (λ tested. (entry : AnEntry) → keys.items ≡ keys_in entry field.now
        → tested.items ≡ tested_keys (entry_reading_of said.now) entry field.now) }
{
    let text = own_literal(said, field);
    if text.is_empty() {
        return Ok(keys);
    }
    written_keys(alloc, field, text)
}

// Returns whether one of these keys isn't empty, and no kept entry has it.
fn has_unknown(names: &Names, keys: &[Text]) -> bool
    ensures { result ≡ list_any (is_unknown names.now) keys.now }
{
    keys.iter().any(|key| is_unknown(names, key.as_str()))
}

// Returns whether a key isn't empty, and no kept entry has it as its key or in its field `ids`.
fn is_unknown(names: &Names, key: &str) -> bool
    ensures { result ≡ is_unknown names.now key.now }
{
    !key.is_empty() && names.get(key).is_none()
}

// Returns the message for `named`, a key that no kept entry has and that a field of the entry with the key `key` refers to.
fn reference_message(
    alloc: Global,
    key: &str,
    field: &str,
    named: &str,
) -> Result<String, AllocError>
    ensures { IfOk result (λ text. string_bytes text ≡ reference_message key.now field.now named.now) }
{
    let entry = entry_name(key);
    format!(in alloc; "{entry}: no entry \"{named}\" ({field})")
}

// Returns the finding of a key that a field refers to and no kept entry has.
fn reference_finding(
    alloc: Global,
    said: &Spanned<RawEntry<'_>>,
    field: &str,
    named: &str,
) -> Result<Finding, AllocError>
    ensures { IfOk result (λ finding. finding ≡
        reference_finding (entry_reading_of said.now) field.now named.now) }
{
    let message = Text::from_string(reference_message(alloc, said.v.key.v, field, named)?);
    Ok(Finding {
        code: Code::UnknownReference,
        span: field_place(said, field),
        message,
    })
}

// Appends a finding for each key of `keys` that isn't empty and that no kept entry has. `field` is the field that refers to these keys.
fn add_unknown(
    alloc: Global,
    found: &mut Vec<Finding>,
    names: &Names,
    said: &Spanned<RawEntry<'_>>,
    field: &str,
    keys: &[Text],
) -> Result<(), AllocError>
    ensures { OnOk result (found.new.items ≡ found.old.items ++
        map (reference_finding (entry_reading_of said.now) field.now) (filter (is_unknown names.now) keys.now)) }
{
    'keys: for key in keys {
        if is_unknown(names, key.as_str()) {
            found.push(reference_finding(alloc, said, field, key.as_str())?)?;
        }
    }
    Ok(())
}

// Appends a finding for each key that this field of an entry refers to and no kept entry has.
fn add_field_references(
    alloc: Global,
    found: &mut Vec<Finding>,
    names: &Names,
    said: &Spanned<RawEntry<'_>>,
    entry: &Entry,
    field: &str,
) -> Result<(), AllocError>
    ensures { OnOk result (found.new.items ≡ found.old.items ++
        field_references names.now (entry_reading_of said.now) entry.now field.now) }
{
    let keys = keys_in(alloc, entry, field)?;
    if !has_unknown(names, &keys) {
        return Ok(());
    }
    let keys = tested_keys(alloc, said, field, keys)?;
    add_unknown(alloc, found, names, said, field, &keys)
}

// Appends a finding for each key that these fields of an entry refer to and no kept entry has.
fn add_entry_references(
    alloc: Global,
    found: &mut Vec<Finding>,
    names: &Names,
    said: &Spanned<RawEntry<'_>>,
    entry: &Entry,
    fields: &[&'static str],
) -> Result<(), AllocError>
    ensures { OnOk result (found.new.items ≡ found.old.items ++
        flat_map (field_references names.now (entry_reading_of said.now) entry.now) (texts fields.now)) }
{
    'fields: for field in fields {
        add_field_references(alloc, found, names, said, entry, field)?;
    }
    Ok(())
}

// Appends a finding for each key that an entry refers to and no kept entry has. `own` contains the entries with only the
// fields that each has itself, and `origins` the index of each in `said`.
pub(crate) fn add_references(
    alloc: Global,
    found: &mut Vec<Finding>,
    names: &Names,
    said: &[Spanned<RawEntry<'_>>],
    origins: &[usize],
    own: &[Entry],
) -> Result<(), AllocError>
    requires same_length { length origins.now ≡ length own.now }
    requires there { All (λ index. index < length said.now) origins.now }
    ensures { OnOk result (Adds (AreOfEach (AreReferences names.now) (map entry_reading_of said.now) origins.now own.now)
        found.old.items found.new.items) }
{
    'entries: for index in 0..own.len() {
        let one = &said[origins[index]];
        let entry = &own[index];
        add_entry_references(alloc, found, names, one, entry, &REFERENCE_FIELDS)?;
    }
    Ok(())
}
