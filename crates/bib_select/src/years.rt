//! The year of an entry.

ghost use Rattle.std.specs.Prelude.{◌≡◌, ◌≢◌, IfOk};
ghost use Rattle.bib_typed.specs.declared.retrieval.RetrievalError.TheVariants.{OutOfMemory};
ghost use Rattle.bib_select.specs.Selected.{publication_year, value_year};

use bib_dates::date::{Date, DateValue};
use bib_entry::entry::Entry;
use bib_typed::retrieval::RetrievalError;
use bib_typed::typed::PermissiveType;
use std::alloc::{AllocError, Global};

// Returns the year of a date, or of the first known date of a range.
fn first_year(date: &Date) -> i32
    ensures { result ≡ value_year date.now.value }
{
    match date.value {
        DateValue::At(first)
        | DateValue::After(first)
        | DateValue::Before(first)
        | DateValue::Between(first, _) => first.year,
    }
}

// Returns the error itself, or an `AllocError` if it is out of memory.
fn unless_out_of_memory(error: RetrievalError) -> Result<RetrievalError, AllocError>
    ensures { IfOk result (λ same. (same ≡ error) × (error ≢ OutOfMemory)) }
{
    match error {
        RetrievalError::OutOfMemory => Err(AllocError),
        _ => Ok(error),
    }
}

/// Returns the year of the date of an entry, or `None` if it has no date that can be parsed. The only error is out of memory.
pub(crate) fn year(alloc: Global, entry: &Entry) -> Result<Option<i32>, AllocError>
    ensures { IfOk result (λ year. year ≡ publication_year entry.now) }
{
    match entry.date(alloc) {
        Ok(PermissiveType::Typed(date)) => Ok(Some(first_year(&date))),
        Ok(PermissiveType::Chunks(_)) => Ok(None),
        Err(error) => {
            let _unread = unless_out_of_memory(error)?;
            Ok(None)
        }
    }
}
