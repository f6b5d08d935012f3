//! Applies edits to the text of a file, in turn.

ghost use Rattle.std.specs.Prelude.{◌≡◌, ◌≢◌, ℕ, List, IfErr, IfOk, OnErr, OnOk, map, true};
ghost use Rattle.std.specs.String.{string_bytes};
ghost use Rattle.bib_queries.specs.Needed.{is_listed};
ghost use Rattle.bib_queries.specs.Sets.{is_in_set};
ghost use Rattle.edit_entries.specs.Documents.{IsEdited};
ghost use Rattle.edit_entries.specs.FieldEdits.{FieldEditIsRefused};
ghost use Rattle.edit_entries.specs.LineEnds as line_ends;
ghost use Rattle.edit_entries.specs.Selected.{UnsettingIsRefused};
ghost use Rattle.edit_entries.specs.declared.errors.EditError.TheVariants.{OutOfMemory};
ghost use Rattle.bibkit_edits.specs.Edited.{AreEntriesRemoved, AreFieldsEdited, AreFieldsUnset, AreMade, AreRefused, AreTextsCollected, EditOutcome, IsDocumentConverted, IsFileMade, IsFileRefused, IsInOrder, IsInStyle, IsMade, IsResolvedDocument, IsWrittenOut, is_safe};
ghost use Rattle.edit_strings.specs.Expanded.{ExpandIsRefused};
ghost use Rattle.bibkit_edits.specs.declared.editing.Step.TheVariants.{Added, Refused};
ghost use Rattle.bibkit_edits.specs.Steps.{IsTextRefused, StepIsRefused, added_refusal, edit_refusal, expansion_step, file_refusal, latest, refusal_at, resolution_step};
ghost use Rattle.edit_resolve.specs.Resolved.{ResolveIsRefused};

use crate::edit::{Edit, Refusal};
use crate::reading::{text_after_mark, with_mark};
use bib_syntax::raw::ParseError;
use bib_tables::dialects::Dialect;
use edit_convert::converting::convert;
use edit_entries::document::RawDocument;
use edit_entries::errors::EditError;
use edit_entries::field_edits::FieldEdit;
use edit_entries::line_ends::with_line_ends_of;
use edit_format::formatting::{format, format_text};
use edit_format::style::Style;
use edit_orders::order::Order;
use edit_orders::places::order_places;
use edit_resolve::errors::ResolveError;
use edit_resolve::resolving::resolve;
use edit_sort::sorting::sort_entries;
use edit_strings::collecting::collect;
use edit_strings::errors::ExpandError;
use edit_strings::expanding::expand;
use std::alloc::{AllocError, Global};
use std::collections::BTreeSet;
use std::mem;

// The reason for refusing one edit of a document.
#[derive(Debug, Drop)]
enum Step {
    // Parsing the text to be added failed.
    Added(ParseError),
    // The edit is refused.
    Refused(EditError),
    // The definition at this index is the first that uses its own name, or a name before the name's first definition.
    EarlyUse(usize),
    // The entry at this index is the first that inherits from itself.
    ReferenceCycle(usize),
    // The braces of a text in quotes aren't balanced.
    UnbalancedQuotes,
}

impl From<ParseError> for Step {
    ghost from_gives = { λ error step. step ≡ Added error };

    fn from(error: ParseError) -> Self {
        Step::Added(error)
    }
}

impl From<EditError> for Step {
    ghost from_gives = { λ error step. step ≡ Refused error };

    fn from(error: EditError) -> Self {
        Step::Refused(error)
    }
}

impl From<ExpandError> for Step {
    ghost from_gives = { λ error step. step ≡ expansion_step error };

    fn from(error: ExpandError) -> Self {
        match error.unless_out_of_memory() {
            Ok(definition) => Step::EarlyUse(definition),
            Err(no_memory) => Step::from(EditError::from(no_memory)),
        }
    }
}

impl From<ResolveError> for Step {
    ghost from_gives = { λ error step. step ≡ resolution_step error };

    fn from(error: ResolveError) -> Self {
        match error.unless_out_of_memory() {
            Ok(entry) => Step::ReferenceCycle(entry),
            Err(no_memory) => Step::from(EditError::from(no_memory)),
        }
    }
}

// Returns the text of a document with its entries sorted. Fails only if out of memory.
fn sort_document(
    alloc: Global,
    document: &RawDocument<'_>,
    order: Order,
) -> Result<String, EditError>
    ensures made { IfOk result (λ new. IsEdited (IsInOrder order document.now) (string_bytes new)) }
    ensures refused { IfErr result (λ why. why ≡ OutOfMemory) }
{
    let places = order_places(alloc, order, document.raw())?;
    Ok(sort_entries(alloc, document, &places)?)
}

// Returns the text of a document with its abbreviations expanded. Each name in a field of an entry is replaced by the expansion of its last
// definition before the entry, if it has one. Fails if a definition uses its own name or a name before the name's first definition, or if
// out of memory.
fn expand_document(alloc: Global, document: &RawDocument<'_>) -> Result<String, ExpandError>
    ensures made { IfOk result (λ new. IsEdited (IsWrittenOut document.now) (string_bytes new)) }
    ensures refused { IfErr result (ExpandIsRefused document.now) }
{
    expand(alloc, document)
}

// Returns the text of a document with abbreviations for texts that occur in at least `at_least` fields with these names. A number below 2
// counts as 2. Fails only if out of memory.
fn collect_texts(
    alloc: Global,
    document: &RawDocument<'_>,
    fields: &[&str],
    at_least: usize,
) -> Result<String, EditError>
    ensures made { IfOk result (λ new. IsEdited (AreTextsCollected (map (λ name. name.now) fields.now) at_least document.now)
        (string_bytes new)) }
    ensures refused { IfErr result (λ why. why ≡ OutOfMemory) }
{
    Ok(collect(alloc, document, fields, at_least)?)
}

// Returns the text of a document with the types and fields of a dialect. Fails only if out of memory.
fn convert_document(
    alloc: Global,
    document: &RawDocument<'_>,
    dialect: Dialect,
) -> Result<String, EditError>
    ensures made { IfOk result (λ new. IsEdited (IsDocumentConverted dialect document.now) (string_bytes new)) }
    ensures refused { IfErr result (λ why. why ≡ OutOfMemory) }
{
    Ok(convert(alloc, document, dialect)?)
}

// Returns the set of these keys.
fn key_set<'k>(alloc: Global, keys: &[&'k str]) -> Result<BTreeSet<&'k str>, AllocError>
    ensures { IfOk result (λ set. (key : List ℕ) → is_in_set set key ≡ is_listed (map (λ k. k.now) keys.now) key) }
{
    let mut set = BTreeSet::new(alloc);
    'keys: for key in keys {
        set.insert(*key)?;
    }
    Ok(set)
}

// Returns the text of a document with an edit of a field of each entry with one of these keys.
fn edit_fields(
    alloc: Global,
    document: &RawDocument<'_>,
    keys: &[&str],
    edit: &FieldEdit<'_>,
) -> Result<String, EditError>
    ensures made { IfOk result (λ new. IsEdited (AreFieldsEdited (map (λ k. k.now) keys.now) edit.now document.now) (string_bytes new)) }
    ensures refused { IfErr result (FieldEditIsRefused document.now (is_listed (map (λ k. k.now) keys.now)) edit.now) }
{
    let set = key_set(alloc, keys)?;
    document.edit_fields(alloc, &set, edit)
}

// Returns the text of a document without a field of each entry with one of these keys.
fn unset_fields(
    alloc: Global,
    document: &RawDocument<'_>,
    keys: &[&str],
    name: &str,
) -> Result<String, EditError>
    ensures made { IfOk result (λ new. IsEdited (AreFieldsUnset (map (λ k. k.now) keys.now) name.now document.now) (string_bytes new)) }
    ensures refused { IfErr result (UnsettingIsRefused document.now (is_listed (map (λ k. k.now) keys.now)) name.now) }
{
    let set = key_set(alloc, keys)?;
    document.unset_fields(alloc, &set, name)
}

// Returns the text of a document without the entries with these keys. Fails only if out of memory.
fn remove_entries(
    alloc: Global,
    document: &RawDocument<'_>,
    keys: &[&str],
) -> Result<String, EditError>
    ensures made { IfOk result (λ new. IsEdited (AreEntriesRemoved (map (λ k. k.now) keys.now) document.now) (string_bytes new)) }
    ensures refused { IfErr result (λ why. why ≡ OutOfMemory) }
{
    let set = key_set(alloc, keys)?;
    Ok(document.remove_entries(alloc, &set)?)
}

// Returns the text of a document with inherited fields written out. Fails if an entry inherits from itself, or if out of memory.
fn resolve_document(alloc: Global, document: &RawDocument<'_>) -> Result<String, ResolveError>
    ensures made { IfOk result (λ new. IsEdited (IsResolvedDocument document.now) (string_bytes new)) }
    ensures refused { IfErr result (ResolveIsRefused document.now) }
{
    resolve(alloc, document)
}

// Returns the text of a document in a style. Fails only if out of memory.
fn format_document(
    alloc: Global,
    document: &RawDocument<'_>,
    style: &Style<'_>,
) -> Result<String, EditError>
    ensures made { IfOk result (λ new. IsEdited (IsInStyle style.now document.now) (string_bytes new)) }
    ensures refused { IfErr result (λ why. why ≡ OutOfMemory) }
{
    Ok(format(alloc, document, style)?)
}

// Returns a text with line ends by `with_line_ends_of` for a document. Fails only if out of memory.
fn text_to_add(alloc: Global, document: &RawDocument<'_>, text: &str) -> Result<String, EditError>
    ensures same { IfOk result (λ new. string_bytes new ≡ line_ends.with_line_ends_of document.now.text text.now) }
    ensures refused { IfErr result (λ why. why ≡ OutOfMemory) }
{
    Ok(with_line_ends_of(alloc, document.text(), text)?)
}

// Applies an edit to a document, and returns the new text.
fn edit_document(alloc: Global, document: &RawDocument<'_>, edit: &Edit<'_>) -> Result<String, Step>
    ensures made { IfOk result (λ new. IsEdited (EditOutcome edit.now document.now) (string_bytes new)) }
    ensures refused { IfErr result (StepIsRefused edit.now document.now) }
{
    match *edit {
        Edit::Set { key, name, value } => Ok(document.set_field(alloc, key, name, value)?),
        Edit::Unset { key, name } => Ok(document.unset_field(alloc, key, name)?),
        Edit::Rename { old, new } => Ok(document.rename_key(alloc, old, new)?),
        Edit::RenameAll { keys } => Ok(document.rename_keys(alloc, keys)?),
        Edit::Fields { keys, edit } => Ok(edit_fields(alloc, document, keys, &edit)?),
        Edit::UnsetAll { keys, name } => Ok(unset_fields(alloc, document, keys, name)?),
        Edit::Remove { key } => Ok(document.remove_entry(alloc, key)?),
        Edit::RemoveEach { keys } => Ok(document.remove_first_entries(alloc, keys)?),
        Edit::RemoveAll { keys } => Ok(remove_entries(alloc, document, keys)?),
        Edit::Add { text } => {
            let text = text_to_add(alloc, document, text)?;
            let more = RawDocument::parse(alloc, text.as_str())?;
            Ok(document.add_entries(alloc, &more)?)
        }
        Edit::Sort { order } => Ok(sort_document(alloc, document, order)?),
        Edit::Expand => Ok(expand_document(alloc, document)?),
        Edit::Collect { fields, at_least } => Ok(collect_texts(alloc, document, fields, at_least)?),
        Edit::ToBiblatex => Ok(convert_document(alloc, document, Dialect::Biblatex)?),
        Edit::ToBibtex => Ok(convert_document(alloc, document, Dialect::Bibtex)?),
        Edit::Resolve => Ok(resolve_document(alloc, document)?),
        Edit::Format { style } => Ok(format_document(alloc, document, &style)?),
    }
}

// Returns whether an edit can't break a text in quotes of a document. No such text has unbalanced braces, or the edit is a format, which
// copies an entry with such a text.
fn is_safe(document: &RawDocument<'_>, edit: &Edit<'_>) -> bool
    ensures { result ≡ is_safe edit.now document.now }
{
    match edit {
        Edit::Format { .. } => true,
        _ => !document.has_unbalanced_quotes(),
    }
}

// Applies an edit to a document, and returns the new text, unless the edit can break a text in quotes.
fn edit_safely(alloc: Global, document: &RawDocument<'_>, edit: &Edit<'_>) -> Result<String, Step>
    ensures made { IfOk result (λ new. IsEdited (EditOutcome edit.now document.now) (string_bytes new)) }
    ensures safe { OnOk result (is_safe edit.now document.now ≡ true) }
    ensures refused { IfErr result (StepIsRefused edit.now document.now) }
{
    let safe = is_safe(document, edit);
    if !safe {
        return Err(Step::UnbalancedQuotes);
    }
    edit_document(alloc, document, edit)
}

// Returns the refusal for an error of parsing the text to be added.
fn added_refusal(error: ParseError) -> Refusal
    ensures { result ≡ added_refusal error }
{
    match error.unless_out_of_memory() {
        Ok(()) => Refusal::Added(error),
        Err(no_memory) => Refusal::from(no_memory),
    }
}

// Returns the refusal for an error of parsing the text of the file.
fn file_refusal(error: ParseError) -> Refusal
    ensures { result ≡ file_refusal error }
{
    match error.unless_out_of_memory() {
        Ok(()) => Refusal::File(error),
        Err(no_memory) => Refusal::from(no_memory),
    }
}

// Returns `AllocError` for out of memory, and `Ok` with any other error.
fn unless_out_of_memory(why: EditError) -> Result<EditError, AllocError>
    ensures other { IfOk result (λ other. (other ≡ why) × (why ≢ OutOfMemory)) }
    ensures no_memory { OnErr result (why ≡ OutOfMemory) }
{
    match why {
        EditError::OutOfMemory => Err(AllocError),
        _ => Ok(why),
    }
}

// Returns the refusal for an error of the edit at this index.
fn edit_refusal(why: EditError, index: usize) -> Refusal
    ensures { result ≡ edit_refusal why index }
{
    match unless_out_of_memory(why) {
        Ok(why) => Refusal::Edit { index, why },
        Err(no_memory) => Refusal::from(no_memory),
    }
}

// Returns the refusal for the edit at this index, which failed with `step`.
fn refusal(step: Step, index: usize) -> Refusal
    ensures { result ≡ refusal_at step index }
{
    match step {
        Step::Added(error) => added_refusal(error),
        Step::Refused(why) => edit_refusal(why, index),
        Step::EarlyUse(definition) => Refusal::EarlyUse { index, definition },
        Step::ReferenceCycle(entry) => Refusal::ReferenceCycle { index, entry },
        Step::UnbalancedQuotes => Refusal::UnbalancedQuotes { index },
    }
}

// Applies an edit to the document of a text, and returns the new text. `index` is the index of the edit, for its refusal. `is_last` says
// whether the process ends after this edit. If so, the document isn't freed, unless the edit is refused.
fn edit_parsed(
    alloc: Global,
    text: &str,
    edit: &Edit<'_>,
    index: usize,
    is_last: bool,
) -> Result<String, Refusal>
    ensures made { IfOk result (λ new. IsMade edit.now text.now (string_bytes new)) }
    ensures refused { IfErr result (IsTextRefused edit.now text.now index) }
{
    match RawDocument::parse(alloc, text) {
        Ok(document) => match edit_safely(alloc, &document, edit) {
            Ok(new) => {
                if is_last {
                    mem::forget(document);
                }
                Ok(new)
            }
            Err(step) => Err(refusal(step, index)),
        },
        Err(error) => Err(file_refusal(error)),
    }
}

// Applies an edit to a text, and returns the new text. `index` is the index of the edit, for its refusal. `is_last` says whether the
// process ends after this edit, so that memory needn't be freed. A format makes no document of the text, which would need more memory.
fn edit_once(
    alloc: Global,
    text: &str,
    edit: &Edit<'_>,
    index: usize,
    is_last: bool,
) -> Result<String, Refusal>
    ensures made { IfOk result (λ new. IsMade edit.now text.now (string_bytes new)) }
    ensures refused { IfErr result (IsTextRefused edit.now text.now index) }
{
    match *edit {
        Edit::Format { style } => match format_text(alloc, text, &style) {
            Ok(new) => Ok(new),
            Err(error) => Err(file_refusal(error)),
        },
        _ => edit_parsed(alloc, text, edit, index, is_last),
    }
}

// Returns the text for the next edit: the text after the last edit, or `first` before any edit.
fn latest<'a>(new: &'a Option<String>, first: &'a str) -> &'a str
    ensures { result.now ≡ latest new.now first.now }
{
    match new {
        Some(new) => new,
        None => first,
    }
}

/// Applies edits to a text, each to the text after the previous one, and returns the new text. Without edits, returns `text`. If an edit
/// is refused, returns its refusal. `is_last` says whether the process ends after this text, so that memory needn't be freed.
pub fn edit_text(
    alloc: Global,
    text: &str,
    edits: &[Edit<'_>],
    is_last: bool,
) -> Result<String, Refusal>
    ensures made { IfOk result (λ new. AreMade edits.now text.now (string_bytes new)) }
    ensures refused { IfErr result (AreRefused edits.now text.now) }
{
    let mut new = None;
    'edits: for (index, edit) in edits.iter().enumerate() {
        let is_end = is_last && index + 1 == edits.len();
        new = Some(edit_once(alloc, latest(&new, text), edit, index, is_end)?);
    }
    match new {
        Some(new) => Ok(new),
        None => Ok(String::from_str(alloc, text)?),
    }
}

/// Applies edits to the bytes of a file as [`edit_text`] does, and returns the new text. A byte order mark at their start is kept, and the
/// text after it is edited. Returns `NotUtf8` if the bytes aren't UTF-8, or the refusal of the first refused edit. `is_last` says whether
/// the process ends after this file, so that memory needn't be freed.
pub fn edit_file(
    alloc: Global,
    bytes: &[u8],
    edits: &[Edit<'_>],
    is_last: bool,
) -> Result<String, Refusal>
    ensures made { IfOk result (λ new. IsFileMade edits.now bytes.now (string_bytes new)) }
    ensures refused { IfErr result (IsFileRefused edits.now bytes.now) }
{
    match text_after_mark(bytes) {
        Ok(text) => {
            let new = edit_text(alloc, text, edits, is_last)?;
            Ok(with_mark(alloc, bytes, new)?)
        }
        Err(at) => Err(Refusal::NotUtf8 { at }),
    }
}
