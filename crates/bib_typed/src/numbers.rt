//! Numbers as typed values.

ghost use Rattle.std.specs.Prelude.{◌≡◌, ℤ, FitsSigned};
ghost use Rattle.std.specs.Int.{w64};
ghost use Rattle.bib_values.specs.Numbers.{number_read, number_written};
ghost use Rattle.bib_values.proofs.NumberFacts.{number_survives};
ghost use Rattle.bib_typed.specs.Typed.{number_error};

use crate::typed::{Type, value_or_error};
use bib_chunks::chunk::{Chunks, ChunksRef, whole_span};
use bib_tables::type_error::{TypeError, TypeErrorKind};
use bib_values::numbers::{read_number, write_number};
use std::alloc::{AllocError, Global};

// Returns the kind of the error of chunks that are no number.
fn number_error(chunks: ChunksRef<'_>) -> TypeErrorKind
    ensures { result ≡ number_error chunks.now }
{
    let span = whole_span(chunks);
    if span.start < span.end {
        return TypeErrorKind::InvalidNumber;
    }
    TypeErrorKind::MissingNumber
}

/// Parses digits with an optional sign if the number fits in 64 bits. Also parses a roman numeral from 1 to 3,999, all in
/// uppercase or all in lowercase. White space around them is ignored. The error is `MissingNumber` if the span of the chunks
/// is empty or reversed, and `InvalidNumber` otherwise. Written in digits, as one normal chunk.
impl Type for i64 {
    ghost Meaning = { ℤ };

    ghost meaning = { λ number. number };

    ghost reads = { number_read };

    ghost may_refuse = { λ chunks kind. kind ≡ number_error chunks };

    ghost writes = { number_written };

    ghost kept = { FitsSigned w64 };

    ghost survives = { number_survives };

    fn from_chunks(alloc: Global, chunks: ChunksRef<'_>) -> Result<i64, TypeError> {
        let number = read_number(alloc, chunks)?;
        value_or_error(number, chunks, number_error(chunks))
    }

    fn to_chunks(&self, alloc: Global) -> Result<Chunks, AllocError> {
        write_number(alloc, *self)
    }
}
