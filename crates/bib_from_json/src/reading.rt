//! Parses the entries of a JSON value.

ghost use Rattle.std.specs.Prelude.{◌≡◌, IfOk, map};
ghost use Rattle.json.specs.Value.{value_view};
ghost use Rattle.bib_from_json.specs.GivenEntries as spec;

use crate::chunks::{field_chunks, one_under};
use crate::given::{GivenEntry, GivenField};
use bib_collections::text_map::TextMap;
use bib_from_csl::objects::{elements, members, size, string_under};
use bib_text::items::Items;
use bib_text::text::Text;
use json::Value;
use std::alloc::{AllocError, Global};

/// The reason why the entries of a text can't be converted.
#[derive(Debug, Clone, Copy, PartialEq, Eq)]
pub enum Fault {
    /// The text isn't JSON, or its nesting is too deep.
    NotJson,
    /// The text is JSON, but neither an array nor an object.
    NotEntries,
    /// An element is no object.
    NotAnObject,
    /// An entry has no `key` that is a text.
    NoKey,
    /// An entry has no `type` that is a text.
    NoType,
    /// An entry has no `fields` that is an object.
    NoFields,
    /// An entry has another member than `type`, `key`, `fields` and `date`, or one of them twice.
    EntryMember,
    /// Two fields of an entry have one name.
    FieldTwice,
    /// A field is no object, or has no `chunks` that is an array.
    NoChunks,
    /// A field has another member than `chunks` and `value`, or one of them twice.
    FieldMember,
    /// A chunk is no object, or its `kind` or its `text` is missing or isn't a text.
    NotAChunk,
    /// A chunk has another member than `kind`, `text`, `start` and `end`, or one of them twice.
    ChunkMember,
    /// The `kind` of a chunk is none of `normal`, `verbatim` and `math`.
    WrongKind,
    /// Two entries have one key, or the `ids` of an earlier entry contain the key of a later one.
    KeyTwice,
    /// If the entry is written, it can't be parsed, or not as one entry with its type and its key. For example, its type, its key or the
    /// name of a field can't be written, or the entry refers to itself.
    NotWritable,
    /// If the entry is written, it isn't parsed as one with the same fields. For example, it inherits other ones, it has the field `xdata`,
    /// or the name of a field can't be written.
    OtherFields,
    /// If the field is written, it isn't parsed as one with the same styled text.
    OtherText,
}

/// The reason why a JSON value isn't an entry.
#[derive(Debug, Drop)]
pub struct UnfitEntry {
    /// The reason.
    pub fault: Fault,
    /// The key of the entry; empty if it has none.
    pub key: Text,
    /// The name of the field at fault; empty if the fault isn't in a single field.
    pub field: Text,
}

// Returns a fault that isn't in a single field.
fn unfit_whole(alloc: Global, fault: Fault, key: &str) -> Result<UnfitEntry, AllocError>
    ensures { IfOk result (λ unfit. unfit ≡ spec.unfit_whole fault key.now) }
{
    Ok(UnfitEntry {
        fault,
        key: Text::from_str(alloc, key)?,
        field: Text::new(alloc),
    })
}

/// Returns a fault in the field with this name; the name is empty for a fault that isn't in a single field.
pub(crate) fn unfit_in(
    alloc: Global,
    fault: Fault,
    key: &str,
    field: &str,
) -> Result<UnfitEntry, AllocError>
    ensures { IfOk result (λ unfit. unfit ≡ spec.unfit_in fault key.now field.now) }
{
    Ok(UnfitEntry {
        fault,
        key: Text::from_str(alloc, key)?,
        field: Text::from_str(alloc, field)?,
    })
}

// Returns the fields of an entry with this key, or the first fault.
fn fields_from(
    alloc: Global,
    key: &str,
    members: &[(&str, Value<'_>)],
) -> Result<Result<Items<GivenField>, UnfitEntry>, AllocError>
    ensures { IfOk result (λ fields. fields
        ≡ spec.fields_from key.now (map (λ m. (m.0.now, value_view m.1)) members.now)) }
{
    let mut fields = Items::new(alloc);
    'fields: for member in members {
        match field_chunks(alloc, &member.1)? {
            Ok(chunks) => {
                let name = Text::from_str(alloc, member.0)?;
                fields.push(GivenField { name, chunks })?;
            }
            Err(fault) => return Ok(Err(unfit_in(alloc, fault, key, member.0)?)),
        }
    }
    Ok(Ok(fields))
}

// Returns the name of each field, paired with nothing.
fn name_pairs(alloc: Global, fields: &[GivenField]) -> Result<Vec<(Text, ())>, AllocError>
    ensures { IfOk result (λ pairs. pairs.items ≡ map spec.name_pair fields.now) }
{
    let mut pairs = Vec::new(alloc);
    'names: for field in fields {
        pairs.push((field.name.clone()?, ()))?;
    }
    Ok(pairs)
}

// Returns whether no two fields have one name: a map with their names has as many names as there are fields.
fn are_distinct(alloc: Global, fields: &[GivenField]) -> Result<bool, AllocError>
    ensures { IfOk result (λ distinct. distinct ≡ spec.are_distinct fields.now) }
{
    let names = TextMap::from_pairs(name_pairs(alloc, fields)?)?;
    Ok(names.len() == fields.len())
}

// Returns the entry with these fields, or the fault `FieldTwice`.
fn entry_with(
    alloc: Global,
    kind: &str,
    key: &str,
    fields: Items<GivenField>,
) -> Result<Result<GivenEntry, UnfitEntry>, AllocError>
    ensures { IfOk result (λ entry. entry ≡ spec.entry_with kind.now key.now fields) }
{
    if !are_distinct(alloc, fields.as_slice())? {
        return Ok(Err(unfit_whole(alloc, Fault::FieldTwice, key)?));
    }
    Ok(Ok(GivenEntry {
        kind: Text::from_str(alloc, kind)?,
        key: Text::from_str(alloc, key)?,
        fields,
    }))
}

// Returns whether an object with the members `type`, `key` and `fields` has no others, except `date`. Each may occur only once.
fn has_entry_members(value: &Value<'_>) -> bool
    ensures { result ≡ spec.has_entry_members (value_view value.now) }
{
    size(value) == 3 + one_under(value, "date")
}

// Returns the entry of an object with this key, or the fault. The member `date` is ignored.
fn entry_with_key(
    alloc: Global,
    value: &Value<'_>,
    key: &str,
) -> Result<Result<GivenEntry, UnfitEntry>, AllocError>
    ensures { IfOk result (λ entry. entry ≡ spec.entry_with_key (value_view value.now) key.now) }
{
    let Some(kind) = string_under(value, "type") else {
        return Ok(Err(unfit_whole(alloc, Fault::NoType, key)?));
    };
    let Some(member) = value.get("fields") else {
        return Ok(Err(unfit_whole(alloc, Fault::NoFields, key)?));
    };
    let Some(members) = members(member) else {
        return Ok(Err(unfit_whole(alloc, Fault::NoFields, key)?));
    };
    if !has_entry_members(value) {
        return Ok(Err(unfit_whole(alloc, Fault::EntryMember, key)?));
    }
    match fields_from(alloc, key, members)? {
        Ok(fields) => entry_with(alloc, kind, key, fields),
        Err(unfit) => Ok(Err(unfit)),
    }
}

// Returns the entry of a JSON value, or the fault.
fn entry_of_element(
    alloc: Global,
    value: &Value<'_>,
) -> Result<Result<GivenEntry, UnfitEntry>, AllocError>
    ensures { IfOk result (λ entry. entry ≡ spec.entry_of_element (value_view value.now)) }
{
    if members(value).is_none() {
        return Ok(Err(unfit_whole(alloc, Fault::NotAnObject, "")?));
    }
    match string_under(value, "key") {
        Some(key) => entry_with_key(alloc, value, key),
        None => Ok(Err(unfit_whole(alloc, Fault::NoKey, "")?)),
    }
}

// Returns the entries of JSON values, or the index of the first value at fault, with the fault.
fn entries_of_elements(
    alloc: Global,
    values: &[Value<'_>],
) -> Result<Result<Items<GivenEntry>, (usize, UnfitEntry)>, AllocError>
    ensures { IfOk result (λ entries. entries ≡ spec.entries_of_elements 0 (map value_view values.now)) }
{
    let mut entries = Items::new(alloc);
    let mut index = 0;
    'entries: for value in values {
        match entry_of_element(alloc, value)? {
            Ok(entry) => entries.push(entry)?,
            Err(unfit) => return Ok(Err((index, unfit))),
        }
        index += 1;
    }
    Ok(Ok(entries))
}

// Returns the entry of an object as the only one, or the fault.
fn only_entry(
    alloc: Global,
    value: &Value<'_>,
) -> Result<Result<Items<GivenEntry>, (usize, UnfitEntry)>, AllocError>
    ensures { IfOk result (λ entries. entries ≡ spec.only_entry (value_view value.now)) }
{
    if members(value).is_none() {
        return Ok(Err((0, unfit_whole(alloc, Fault::NotEntries, "")?)));
    }
    match entry_of_element(alloc, value)? {
        Ok(entry) => {
            let mut entries = Items::new(alloc);
            entries.push(entry)?;
            Ok(Ok(entries))
        }
        Err(unfit) => Ok(Err((0, unfit))),
    }
}

/// Returns the entries of a JSON value, or the index of the first element at fault, with the fault. The value is an array of entries, or
/// one entry.
pub(crate) fn entries_in(
    alloc: Global,
    value: &Value<'_>,
) -> Result<Result<Items<GivenEntry>, (usize, UnfitEntry)>, AllocError>
    ensures { IfOk result (λ entries. entries ≡ spec.entries_in (value_view value.now)) }
{
    match elements(value) {
        Some(values) => entries_of_elements(alloc, values),
        None => only_entry(alloc, value),
    }
}

/// Returns the index 0 and the fault `NotJson`.
pub(crate) fn no_json(alloc: Global) -> Result<(usize, UnfitEntry), AllocError>
    ensures { IfOk result (λ refused. refused ≡ spec.no_json) }
{
    Ok((0, unfit_whole(alloc, Fault::NotJson, "")?))
}
