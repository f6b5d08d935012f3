//! Dates as typed values.

ghost use Rattle.bib_dates.specs.Kept.{IsKeptDate};
ghost use Rattle.bib_dates.specs.Chunks.{date_read, DateMayRefuse, date_written};
ghost use Rattle.bib_dates.specs.declared.date.Date.{Date as ADate};
ghost use Rattle.bib_dates.proofs.DatesReread.{date_survives};

use crate::typed::Type;
use bib_chunks::chunk::{Chunks, ChunksRef};
use bib_dates::chunks::date_chunks;
use bib_dates::date::Date;
use bib_tables::type_error::TypeError;
use std::alloc::{AllocError, Global};

/// Parses the plain text of the chunks as a date or a range, by `Date::parse`. A date is written as one normal chunk,
/// without times.
impl Type for Date {
    ghost Meaning = { ADate };

    ghost meaning = { λ date. date };

    ghost reads = { date_read };

    ghost may_refuse = { DateMayRefuse };

    ghost writes = { date_written };

    ghost kept = { IsKeptDate };

    ghost survives = { date_survives };

    fn from_chunks(alloc: Global, chunks: ChunksRef<'_>) -> Result<Date, TypeError> {
        Date::parse(alloc, chunks)
    }

    fn to_chunks(&self, alloc: Global) -> Result<Chunks, AllocError> {
        date_chunks(alloc, self)
    }
}
