//! The trait of typed values, texts as typed values, and permissive values.

ghost use Rattle.std.specs.Prelude.{◌≡◌, ◌≢◌, List, ℕ, Option, Some, IfOk, string_bytes};
ghost use Rattle.std.specs.Str.{IsUtf8};
ghost use Rattle.bib_chunks.specs.declared.chunk.Chunk.{Chunk as AChunk};
ghost use Rattle.bib_chunks.specs.declared.chunk.Chunk.TheVariants.{Verbatim};
ghost use Rattle.bib_tables.specs.declared.type_error.TypeErrorKind.{TypeErrorKind as AKind};
ghost use Rattle.bib_tables.specs.declared.type_error.TypeErrorKind.TheVariants.{OutOfMemory};
ghost use Rattle.bib_text.specs.declared.spanned.Spanned.{Spanned as APlaced};
ghost use Rattle.bib_values.specs.Permissive.{Permissive, permissive, permissive_written, PermissiveKept};
ghost use Rattle.bib_chunks.specs.Values.{text, alone};
ghost use Rattle.bib_values.proofs.PermissiveFacts.{permissive_survives};
ghost use Rattle.bib_chunks.proofs.ValueFacts.{string_survives};
ghost use Rattle.bib_chunks.specs.Styled;
ghost use Rattle.bib_tables.specs.ReadAs.{IsReadAs, LiesAt};
ghost use Rattle.bib_typed.specs.Typed.{permissive_meaning};

use bib_chunks::chunk::making::{copy_of, verbatim};
use bib_chunks::chunk::{Chunks, ChunksRef, format_verbatim, whole_span};
use bib_tables::type_error::{TypeError, TypeErrorKind};
use std::alloc::{AllocError, Global};

/// A type whose values are parsed from the chunks of a field, and written as chunks.
pub trait Type: Sized {
    // The meaning of a value: its contents, without representation details.
    ghost Meaning: { Type 0 };

    ghost meaning: { Self → Meaning };

    // The value that chunks are parsed as, if they can be parsed.
    ghost reads: { List (APlaced AChunk) → Option Meaning };

    // The kinds of errors that parsing these chunks may return, except for out of memory.
    ghost may_refuse: { List (APlaced AChunk) → AKind → Type 0 };

    // The chunks that a value is written as.
    ghost writes: { Meaning → List (APlaced AChunk) };

    // The values for which the type guarantees that they parse back from the chunks written for them.
    ghost kept: { Meaning → Type 0 };

    /// Parses chunks as a value. The error is out of memory, with the span `0..0`, or states that the chunks can't be parsed, with
    /// the span of all chunks in bytes of the file.
    fn from_chunks(alloc: Global, chunks: ChunksRef<'_>) -> Result<Self, TypeError>
        ensures reads { IsReadAs meaning (reads chunks.now) (may_refuse chunks.now) result }
        ensures place { LiesAt (Styled.whole_span chunks.now) result };

    /// Returns the chunks that a value is written as.
    fn to_chunks(&self, alloc: Global) -> Result<Chunks, AllocError>
        ensures { IfOk result (λ chunks. chunks ≡ writes (meaning self.now)) };

    // A kept value parses back from the chunks written for it.
    ghost survives: { (m : Meaning) → kept m → reads (writes m) ≡ Some m };
}

// Returns the parsed value, or an error of this kind at the span of all chunks.
pub(crate) fn value_or_error<T: Drop>(
    read: Option<T>,
    chunks: ChunksRef<'_>,
    kind: TypeErrorKind,
) -> Result<T, TypeError>
    requires { kind ≢ OutOfMemory }
    ensures reads { IsReadAs (λ value. value) read (λ reported. reported ≡ kind) result }
    ensures place { LiesAt (Styled.whole_span chunks.now) result }
{
    match read {
        Some(value) => Ok(value),
        None => Err(TypeError {
            span: whole_span(chunks),
            kind,
        }),
    }
}

/// Parses any chunks as their plain text. A text is written as one verbatim chunk.
impl Type for String {
    ghost Meaning = { List ℕ };

    ghost meaning = { λ s. string_bytes s };

    ghost reads = { λ chunks. Some (text chunks) };

    ghost may_refuse = { λ _ _. ⊥ };

    ghost writes = { λ written. alone (Verbatim written) };

    ghost kept = { IsUtf8 };

    ghost survives = { string_survives };

    fn from_chunks(alloc: Global, chunks: ChunksRef<'_>) -> Result<String, TypeError> {
        Ok(format_verbatim(alloc, chunks)?)
    }

    fn to_chunks(&self, alloc: Global) -> Result<Chunks, AllocError> {
        verbatim(alloc, self.as_str())
    }
}

/// A value of a type, or the chunks that can't be parsed as one.
#[derive(Debug, Clone, PartialEq, Eq, Drop)]
pub enum PermissiveType<T> {
    /// A value of the type.
    Typed(T),
    /// The unchanged chunks.
    Chunks(Chunks),
}

/// Parses any chunks: as a `T` if possible, and otherwise as the unchanged chunks.
impl<T: Type + Drop> Type for PermissiveType<T> {
    ghost Meaning = { Permissive T.Meaning };

    ghost meaning = { permissive_meaning T.meaning };

    ghost reads = { λ chunks. Some (permissive (T.reads chunks) chunks) };

    ghost may_refuse = { λ _ _. ⊥ };

    ghost writes = { permissive_written T.writes };

    ghost kept = { PermissiveKept T.kept T.reads };

    ghost survives = { permissive_survives T.reads T.writes T.kept T.survives };

    fn from_chunks(alloc: Global, chunks: ChunksRef<'_>) -> Result<Self, TypeError> {
        match T::from_chunks(alloc, chunks) {
            Ok(value) => Ok(PermissiveType::Typed(value)),
            Err(e) => {
                let _unread = e.unless_out_of_memory()?;
                Ok(PermissiveType::Chunks(copy_of(alloc, chunks)?))
            }
        }
    }

    fn to_chunks(&self, alloc: Global) -> Result<Chunks, AllocError> {
        match self {
            PermissiveType::Typed(value) => value.to_chunks(alloc),
            PermissiveType::Chunks(chunks) => copy_of(alloc, chunks.as_slice()),
        }
    }
}
