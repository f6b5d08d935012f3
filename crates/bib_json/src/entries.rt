//! Entries as JSON.

ghost use Rattle.std.specs.Prelude.{◌≡◌, ◌≢◌, IfOk};
ghost use Rattle.std.specs.Option.{option_map};
ghost use Rattle.std.specs.String.{string_bytes};
ghost use Rattle.serde_json.specs.View.{view};
ghost use Rattle.bib_typed.specs.declared.retrieval.RetrievalError.TheVariants.{OutOfMemory};
ghost use Rattle.bib_json.specs.Dates.{date_json};
ghost use Rattle.bib_json.specs.Entries as spec;
ghost use Rattle.bib_json.specs.Entries.{IsReadBack};

use crate::dates::date_value;
use crate::fields::fields_object;
use crate::members::{put_given, put_text};
use bib_entry::entry::Entry;
use bib_tables::mechanics::EntryType;
use bib_typed::retrieval::RetrievalError;
use bib_typed::typed::PermissiveType;
use serde_json::{Map, Value};
use std::alloc::{AllocError, Global};

/// Returns the name of an entry type. For an unknown type, this is its name in the source, with ASCII letters in lowercase.
pub fn type_name(entry_type: &EntryType) -> &str
    ensures { result.now ≡ spec.type_text entry_type.now }
{
    match entry_type {
        EntryType::Unknown(name) => name.as_str(),
        _ => entry_type.name(),
    }
}

// Returns the error itself, or an `AllocError` if it is out of memory.
fn unless_out_of_memory(error: RetrievalError) -> Result<RetrievalError, AllocError>
    ensures { IfOk result (λ same. (same ≡ error) × (error ≢ OutOfMemory)) }
{
    match error {
        RetrievalError::OutOfMemory => Err(AllocError),
        _ => Ok(error),
    }
}

// Returns the date of an entry, or `None` if it has none that can be parsed.
fn entry_date(alloc: Global, entry: &Entry) -> Result<Option<Value>, AllocError>
    ensures { IfOk result (λ value. option_map view value ≡ option_map date_json (spec.entry_date entry.now)) }
{
    match entry.date(alloc) {
        Ok(PermissiveType::Typed(date)) => Ok(Some(date_value(alloc, date)?)),
        Ok(PermissiveType::Chunks(_)) => Ok(None),
        Err(error) => {
            let _unread = unless_out_of_memory(error)?;
            Ok(None)
        }
    }
}

/// Returns an entry as a JSON object: its type, its key, its fields by their names, and its date. Each field has its chunks, and its value
/// if the field has a type and can be parsed. The date is that of `Entry::date`; there is none if the entry has no date that can be parsed.
pub fn entry_json(alloc: Global, entry: &Entry) -> Result<Value, AllocError>
    ensures { IfOk result (λ value. view value ≡ spec.entry_object entry.now) }
{
    let fields = fields_object(alloc, &entry.fields)?;
    let date = entry_date(alloc, entry)?;
    let mut members = Map::new(alloc);
    put_text(&mut members, alloc, "type", type_name(&entry.entry_type))?;
    put_text(&mut members, alloc, "key", entry.key.as_str())?;
    serde_json::put(&mut members, alloc, "fields", fields)?;
    put_given(&mut members, alloc, "date", date)?;
    Ok(Value::from(members))
}

/// Returns the JSON object of an entry as a text, on one line. A JSON parser returns the same object for it.
pub fn entry_text(alloc: Global, entry: &Entry) -> Result<String, AllocError>
    ensures text { IfOk result (λ text. string_bytes text ≡ spec.json_text_of entry.now) }
    ensures reads_back { IfOk result (λ _. IsReadBack entry.now) }
{
    let value = entry_json(alloc, entry)?;
    value.to_string(alloc)
}
