//! The messages of refused edits.

ghost use Rattle.std.specs.Prelude.{◌≡◌, IfOk, string_bytes};
ghost use Rattle.bib_source.specs.Positions.{position_at};
ghost use Rattle.bibkit_commands.specs.Messages as spec;
ghost use Rattle.bibkit_commands.specs.Messages.{cycle_text, early_use_text};

use crate::edits::after_mark;
use crate::removing::removal_line;
use crate::stops::{Stop, error_line, syntax_line};
use crate::unsetting::unset_line;
use bib_queries::names::entry_names;
use bib_queries::quotes::is_unbalanced_quote;
use bib_syntax::raw::{Pair, ParseError, RawBibliography, RawChunk, RawEntry};
use bib_text::spanned::Spanned;
use bibkit_edits::edit::{Edit, Refusal};
use bibkit_edits::printing::Unprinted;
use edit_entries::document::RawDocument;
use edit_entries::errors::EditError;
use edit_entries::field_edits::FieldEdit;
use edit_entries::line_ends::with_line_ends_of;
use std::alloc::{AllocError, Global};
use std::collections::{BTreeMap, BTreeSet};
use std::str::from_utf8;

// Returns the first of these names that the set contains, in ASCII lowercase.
fn first_in<'s>(
    alloc: Global,
    set: &BTreeSet<String>,
    names: &[&'s str],
) -> Result<Option<&'s str>, AllocError> {
    'names: for name in names {
        if set.contains(name.to_ascii_lowercase(alloc)?.as_str()) {
            return Ok(Some(*name));
        }
    }
    Ok(None)
}

// Inserts names into a set, in ASCII lowercase.
fn insert_names(
    alloc: Global,
    set: &mut BTreeSet<String>,
    names: &[&str],
) -> Result<(), AllocError> {
    'names: for name in names {
        set.insert(name.to_ascii_lowercase(alloc)?)?;
    }
    Ok(())
}

// Inserts the names of entries into a set, in ASCII lowercase. Returns the first name of an entry that was in the set before this entry.
fn insert_entries<'s>(
    alloc: Global,
    set: &mut BTreeSet<String>,
    entries: &[Spanned<RawEntry<'s>>],
) -> Result<Option<&'s str>, AllocError> {
    let mut taken = None;
    'entries: for entry in entries {
        let names = entry_names(alloc, entry)?;
        if taken.is_none() {
            taken = first_in(alloc, set, &names)?;
        }
        insert_names(alloc, set, &names)?;
    }
    Ok(taken)
}

// Returns the first name of an added entry that an entry of the file or an earlier added entry has, in any ASCII case.
fn taken_name<'s>(
    alloc: Global,
    file: &RawBibliography<'_>,
    added: &RawBibliography<'s>,
) -> Result<Option<&'s str>, AllocError> {
    let mut set = BTreeSet::new(alloc);
    let _in_file = insert_entries(alloc, &mut set, &file.entries)?;
    insert_entries(alloc, &mut set, &added.entries)
}

// Returns whether two pieces have the same text and are both literals or both abbreviations.
fn is_same_piece(one: &Spanned<RawChunk<'_>>, other: &Spanned<RawChunk<'_>>) -> bool {
    match (&one.v, &other.v) {
        (RawChunk::Normal(first), RawChunk::Normal(second)) => first == second,
        (RawChunk::Abbreviation(first), RawChunk::Abbreviation(second)) => first == second,
        _ => false,
    }
}

// Returns whether the values of two definitions consist of the same pieces.
fn have_same_value(one: &Pair<'_>, other: &Pair<'_>) -> bool {
    one.value.v.len() == other.value.v.len()
        && one
            .value
            .v
            .iter()
            .zip(&other.value.v)
            .all(|(piece, second)| is_same_piece(piece, second))
}

// Returns, for each name that these definitions define in any ASCII case, its last definition, and whether the values of all its
// definitions consist of the same pieces.
fn definitions_by_name<'d, 's>(
    alloc: Global,
    definitions: &'d [Pair<'s>],
) -> Result<BTreeMap<String, (&'d Pair<'s>, bool)>, AllocError> {
    let mut by_name: BTreeMap<String, (&'d Pair<'s>, bool)> = BTreeMap::new(alloc);
    'definitions: for definition in definitions {
        let name = definition.key.v.to_ascii_lowercase(alloc)?;
        let agree = match by_name.get(name.as_str()) {
            Some((last, agree)) => *agree && have_same_value(definition, *last),
            None => true,
        };
        by_name.insert(name, (definition, agree))?;
    }
    Ok(by_name)
}

// Returns the name of the first added definition whose value doesn't consist of the same pieces as each definition of the name in the file.
fn other_definition<'s>(
    alloc: Global,
    file: &RawBibliography<'_>,
    added: &RawBibliography<'s>,
) -> Result<Option<&'s str>, AllocError> {
    let by_name = definitions_by_name(alloc, &file.abbreviations)?;
    'added: for definition in &added.abbreviations {
        let name = definition.key.v.to_ascii_lowercase(alloc)?;
        if let Some((last, agree)) = by_name.get(name.as_str()) {
            if !*agree || !have_same_value(definition, *last) {
                return Ok(Some(definition.key.v));
            }
        }
    }
    Ok(None)
}

// Returns the message for the error `why` of adding a text to a file. `key` is the key or the name to which it applies, if there is one.
fn named_line(
    alloc: Global,
    name: &str,
    key: Option<&str>,
    why: EditError,
) -> Result<String, AllocError> {
    match key {
        Some(key) => format!(in alloc; "bibkit: {name}: `{key}`: {why}\n"),
        None => format!(in alloc; "bibkit: {name}: {why}\n"),
    }
}

// Returns the message for the error `why` of adding a text to a file. `src` is the text of the file.
fn added_line(
    alloc: Global,
    name: &str,
    src: &str,
    text: &str,
    why: EditError,
) -> Result<String, AllocError> {
    let Ok(added) = RawDocument::parse(alloc, text) else {
        return named_line(alloc, name, None, why);
    };
    let Ok(file) = RawBibliography::parse(alloc, src) else {
        return named_line(alloc, name, None, why);
    };
    match why {
        EditError::NotAKey => named_line(alloc, name, added.first_unsafe_key(), why),
        EditError::KeyIsThere => {
            let taken = taken_name(alloc, &file, added.raw())?;
            named_line(alloc, name, taken, why)
        }
        EditError::DefinitionIsThere => {
            let other = other_definition(alloc, &file, added.raw())?;
            named_line(alloc, name, other, why)
        }
        _ => named_line(alloc, name, None, why),
    }
}

// Gives a name, in ASCII lowercase, the key of its entry, unless it has one.
fn keep_name<'s>(
    alloc: Global,
    kept: &mut BTreeMap<String, &'s str>,
    key: &'s str,
    name: &str,
) -> Result<(), AllocError> {
    let lower = name.to_ascii_lowercase(alloc)?;
    if !kept.contains_key(lower.as_str()) {
        kept.insert(lower, key)?;
    }
    Ok(())
}

// Gives the names that an entry keeps, in ASCII lowercase, the key of the entry: those in its fields `ids`, and its key unless it gets a
// new one.
fn keep_names<'s>(
    alloc: Global,
    kept: &mut BTreeMap<String, &'s str>,
    entry: &Spanned<RawEntry<'s>>,
    gets_key: bool,
) -> Result<(), AllocError> {
    let names = entry_names(alloc, entry)?;
    'names: for (index, name) in names.iter().enumerate() {
        if index > 0 || !gets_key {
            keep_name(alloc, kept, entry.v.key.v, *name)?;
        }
    }
    Ok(())
}

// Returns the names that entries keep if they get these keys, in ASCII lowercase, each with the key of the first entry that keeps it.
fn kept_names<'s>(
    alloc: Global,
    entries: &[Spanned<RawEntry<'s>>],
    keys: &[Option<&str>],
) -> Result<BTreeMap<String, &'s str>, AllocError> {
    let mut kept = BTreeMap::new(alloc);
    'entries: for (entry, key) in entries.iter().zip(keys) {
        keep_names(alloc, &mut kept, entry, key.is_some())?;
    }
    Ok(kept)
}

// Returns the message for the error `KeyIsThere`, if entries can't get these keys. If an entry keeps one of the new keys as a name, in any
// ASCII case, the message contains the first such key.
fn taken_key_line(
    alloc: Global,
    name: &str,
    src: &str,
    keys: &[Option<&str>],
) -> Result<String, AllocError> {
    if let Ok(raw) = RawBibliography::parse(alloc, src) {
        let kept = kept_names(alloc, &raw.entries, keys)?;
        'entries: for (entry, key) in raw.entries.iter().zip(keys) {
            let new = key.unwrap_or("");
            let lower = new.to_ascii_lowercase(alloc)?;
            if let (Some(_), Some(owner)) = (key, kept.get(lower.as_str())) {
                let old = entry.v.key.v;
                return format!(in alloc;
                    "bibkit: {name}: `{old}` to `{new}`: entry `{owner}` has the name already, as its key or in its field `ids`\n"
                );
            }
        }
    }
    format!(in alloc; "bibkit: {name}: {}\n", EditError::KeyIsThere)
}

// Returns the message for the error `why` of the last of these edits of a file's bytes.
fn refused_line(
    alloc: Global,
    name: &str,
    bytes: &[u8],
    edits: &[Edit<'_>],
    why: EditError,
) -> Result<String, AllocError> {
    match edits.last() {
        Some(
            Edit::Set {
                key,
                name: field,
                ..
            }
            | Edit::Unset { key, name: field },
        ) => { format!(in alloc; "bibkit: {name}: `{key}`: `{field}`: {why}\n") }
        Some(Edit::Rename { old, new }) => {
            format!(in alloc; "bibkit: {name}: `{old}` to `{new}`: {why}\n")
        }
        Some(Edit::RenameAll { keys }) if why == EditError::KeyIsThere => {
            let src = from_utf8(after_mark(bytes)).unwrap_or("");
            taken_key_line(alloc, name, src, keys)
        }
        Some(
            Edit::Fields {
                edit: FieldEdit::Set { name: field, .. }
                | FieldEdit::Add { name: field, .. }
                | FieldEdit::Rename { new: field, .. },
                ..
            },
        ) => format!(in alloc; "bibkit: {name}: `{field}`: {why}\n"),
        Some(Edit::Remove { key }) => format!(in alloc; "bibkit: {name}: `{key}`: {why}\n"),
        Some(Edit::RemoveEach { keys }) => {
            let src = from_utf8(after_mark(bytes)).unwrap_or("");
            removal_line(alloc, name, src, keys, why)
        }
        Some(Edit::UnsetAll { keys, name: field }) => {
            let src = from_utf8(after_mark(bytes)).unwrap_or("");
            unset_line(alloc, name, src, keys, field, edits, why)
        }
        Some(Edit::Add { text }) => {
            let src = from_utf8(after_mark(bytes)).unwrap_or("");
            added_line(alloc, name, src, text, why)
        }
        _ => format!(in alloc; "bibkit: {name}: {why}\n"),
    }
}

// Returns the message for a definition with an early use, with its position.
fn definition_line(
    alloc: Global,
    name: &str,
    text: &[u8],
    definition: &Pair<'_>,
) -> Result<String, AllocError>
    ensures { IfOk result (λ line. string_bytes line ≡ spec.line_of_error name.now
        (position_at text.now definition.now.key.span.start) (early_use_text definition.now.key.v.now)) }
{
    let said = format!(in alloc;
        "the definition of `{}` uses its own name, or one that is defined later",
        definition.key.v
    )?;
    error_line(alloc, name, text, definition.key.span.start, &said)
}

// Returns the message for the definition with the index `definition`, which uses its own name, or a name before the name's first
// definition. The message has no position if `text` has no definition with this index.
fn early_use_line(
    alloc: Global,
    name: &str,
    text: &[u8],
    definition: usize,
) -> Result<String, AllocError> {
    if let Ok(src) = from_utf8(text) {
        if let Ok(raw) = RawBibliography::parse(alloc, src) {
            if let Some(pair) = raw.abbreviations.get(definition) {
                return definition_line(alloc, name, text, pair);
            }
        }
    }
    format!(in alloc;
        "bibkit: {name}: a definition uses its own name, or one that is defined later\n"
    )
}

// Returns the message for the entry with this key, which inherits from itself, with the position of the key.
fn cycle_line(
    alloc: Global,
    name: &str,
    text: &[u8],
    key: &Spanned<&str>,
) -> Result<String, AllocError>
    ensures { IfOk result (λ line. string_bytes line
        ≡ spec.line_of_error name.now (position_at text.now key.now.span.start) (cycle_text key.now.v.now)) }
{
    let said = format!(in alloc;
        "entry `{}` inherits from itself [circular-reference]",
        key.v
    )?;
    error_line(alloc, name, text, key.span.start, &said)
}

// Returns the message for an entry that inherits from itself, with the position of its key. The message has no position if `text` has no
// entry with the index `entry`.
fn reference_cycle_line(
    alloc: Global,
    name: &str,
    text: &[u8],
    entry: usize,
) -> Result<String, AllocError> {
    if let Ok(src) = from_utf8(text) {
        if let Ok(raw) = RawBibliography::parse(alloc, src) {
            if let Some(entry) = raw.entries.get(entry) {
                return cycle_line(alloc, name, text, &entry.v.key);
            }
        }
    }
    format!(in alloc; "bibkit: {name}: an entry inherits from itself\n")
}

// Returns the byte offset of the first text in quotes of a field whose braces don't balance.
fn unbalanced_piece(src: &str, field: &Pair<'_>) -> Option<usize> {
    'pieces: for piece in &field.value.v {
        if is_unbalanced_quote(src, piece) {
            return Some(piece.span.start);
        }
    }
    None
}

// Returns the byte offset of the first text in quotes of these fields whose braces don't balance.
fn unbalanced_field(src: &str, fields: &[Pair<'_>]) -> Option<usize> {
    'fields: for field in fields {
        if let Some(at) = unbalanced_piece(src, field) {
            return Some(at);
        }
    }
    None
}

// Returns the byte offset of the first text in quotes of entries, or else of definitions, whose braces don't balance.
fn unbalanced_quote(src: &str, raw: &RawBibliography<'_>) -> Option<usize> {
    'entries: for entry in &raw.entries {
        if let Some(at) = unbalanced_field(src, &entry.v.fields) {
            return Some(at);
        }
    }
    unbalanced_field(src, &raw.abbreviations)
}

/// Returns the message for a text in quotes whose braces don't balance, with its position, if `text` has one.
pub fn unbalanced_quotes_line(
    alloc: Global,
    name: &str,
    text: &[u8],
) -> Result<String, AllocError> {
    let said =
        "the braces of this text in quotes don't balance, so BibTeX and Biber end it elsewhere; write it in braces first";
    if let Ok(src) = from_utf8(text) {
        if let Ok(raw) = RawBibliography::parse(alloc, src) {
            if let Some(at) = unbalanced_quote(src, &raw) {
                return error_line(alloc, name, text, at, said);
            }
        }
    }
    format!(in alloc; "bibkit: {name}: {said}\n")
}

// Returns the text that the first edit adds, or an empty text if it adds none.
fn added_text<'a>(edits: &[Edit<'a>]) -> &'a str {
    match edits.first() {
        Some(Edit::Add { text }) => *text,
        _ => "",
    }
}

// Returns the message for an error of the text that the first edit adds to a file of these bytes.
fn added_error_line(
    alloc: Global,
    bytes: &[u8],
    edits: &[Edit<'_>],
    error: &ParseError,
) -> Result<String, AllocError> {
    let file = from_utf8(after_mark(bytes)).unwrap_or("");
    let text = with_line_ends_of(alloc, file, added_text(edits))?;
    syntax_line(alloc, "-", text.as_bytes(), error)
}

// Returns the edits up to the one with this index.
fn edits_up_to<'e, 'a>(edits: &'e [Edit<'a>], index: usize) -> &'e [Edit<'a>] {
    match index.checked_add(1) {
        Some(count) => edits.get(..count).unwrap_or(edits),
        None => edits,
    }
}

// Returns the message for a refusal.
fn refusal_message(
    alloc: Global,
    name: &str,
    bytes: &[u8],
    edits: &[Edit<'_>],
    refusal: &Refusal,
) -> Result<String, AllocError> {
    match refusal {
        Refusal::NotUtf8 { at } => {
            let said = "not UTF-8 from here on, so the file can't be edited [unread-bytes]";
            error_line(alloc, name, bytes, *at, said)
        }
        Refusal::File(error) => syntax_line(alloc, name, after_mark(bytes), error),
        Refusal::Added(error) => added_error_line(alloc, bytes, edits, error),
        Refusal::Edit { index, why } => {
            refused_line(alloc, name, bytes, edits_up_to(edits, *index), *why)
        }
        Refusal::EarlyUse { definition, .. } => early_use_line(
            alloc,
            name,
            after_mark(bytes),
            *definition,
        ),
        Refusal::ReferenceCycle { entry, .. } => reference_cycle_line(
            alloc,
            name,
            after_mark(bytes),
            *entry,
        ),
        Refusal::UnbalancedQuotes { .. } => unbalanced_quotes_line(alloc, name, after_mark(bytes)),
        Refusal::OutOfMemory => String::from_str(alloc, "bibkit: out of memory\n"),
    }
}

/// Returns the message and the status for an error of printing edits.
pub fn printing_stop(
    alloc: Global,
    name: &str,
    bytes: &[u8],
    edits: &[Edit<'_>],
    why: &Unprinted,
) -> Result<Stop, AllocError> {
    match why {
        Unprinted::Refused(refusal) => {
            let said = refusal_message(alloc, name, bytes, edits, refusal)?;
            Ok(Stop::Said(said, why.status()))
        }
        Unprinted::NotTaken => {
            let said = String::from_str(alloc, "bibkit: the output can't be written\n")?;
            Ok(Stop::Said(said, why.status()))
        }
    }
}
