//! Ranges of numbers as typed values.

ghost use Rattle.std.specs.Prelude.{◌≡◌, ℕ, List};
ghost use Rattle.std.specs.declared.ops.Range.{Range as ARange};
ghost use Rattle.bib_tables.specs.declared.type_error.TypeErrorKind.TheVariants.{InvalidNumber};
ghost use Rattle.bib_values.specs.Ranges.{range_read, range_written, RangeKept, ranges_read, ranges_written, RangesKept};
ghost use Rattle.bib_values.proofs.RangeLaws.{range_survives, ranges_survive};

use crate::typed::{Type, value_or_error};
use bib_chunks::chunk::{Chunks, ChunksRef};
use bib_tables::type_error::{TypeError, TypeErrorKind};
use bib_values::ranges::{read_range, read_ranges, write_range, write_ranges};
use std::alloc::{AllocError, Global};
use std::ops::Range;

/// Parses the first range of a comma-separated list of ranges. One number is a range from itself to itself. The error is
/// `InvalidNumber` if an item is no range. Written with a hyphen, as one normal chunk.
impl Type for Range<u32> {
    ghost Meaning = { ARange ℕ };

    ghost meaning = { λ range. range };

    ghost reads = { range_read };

    ghost may_refuse = { λ _ kind. kind ≡ InvalidNumber };

    ghost writes = { range_written };

    ghost kept = { RangeKept };

    ghost survives = { range_survives };

    fn from_chunks(alloc: Global, chunks: ChunksRef<'_>) -> Result<Range<u32>, TypeError> {
        let range = read_range(alloc, chunks)?;
        value_or_error(range, chunks, TypeErrorKind::InvalidNumber)
    }

    fn to_chunks(&self, alloc: Global) -> Result<Chunks, AllocError> {
        write_range(alloc, self)
    }
}

/// Parses a comma-separated list of ranges. The error is `InvalidNumber` if an item is no range. Written as normal chunks
/// with commas between them.
impl Type for Vec<Range<u32>> {
    ghost Meaning = { List (ARange ℕ) };

    ghost meaning = { λ v. v.items };

    ghost reads = { ranges_read };

    ghost may_refuse = { λ _ kind. kind ≡ InvalidNumber };

    ghost writes = { ranges_written };

    ghost kept = { RangesKept };

    ghost survives = { ranges_survive };

    fn from_chunks(alloc: Global, chunks: ChunksRef<'_>) -> Result<Vec<Range<u32>>, TypeError> {
        let ranges = read_ranges(alloc, chunks)?;
        value_or_error(ranges, chunks, TypeErrorKind::InvalidNumber)
    }

    fn to_chunks(&self, alloc: Global) -> Result<Chunks, AllocError> {
        write_ranges(alloc, self.as_slice())
    }
}
