//! Enumerations as typed values, each with a table of names.

ghost use Rattle.std.specs.Prelude.{◌≡◌, Some, ⊤};
ghost use Rattle.bib_tables.specs.declared.type_error.TypeErrorKind.TheVariants.{UnknownPagination, UnknownGender, UnknownLangId};
ghost use Rattle.bib_values.specs.Enumerations.{pagination_read, pagination_written, gender_read, gender_written, editor_type_read, editor_type_written, language_read, language_written, IsNamed};
ghost use Rattle.bib_values.proofs.EnumFacts.{pagination_survives, gender_survives, editor_type_survives, language_survives};

use crate::typed::{Type, value_or_error};
use bib_chunks::chunk::{Chunks, ChunksRef};
use bib_tables::type_error::{TypeError, TypeErrorKind};
use bib_tables::types::lang::Language;
use bib_tables::types::{EditorType, Gender, Pagination};
use bib_values::enums::{
    read_editor_type, read_gender, read_language, read_pagination, write_editor_type, write_gender,
    write_language, write_pagination,
};
use std::alloc::{AllocError, Global};

/// Parses a name, in any ASCII case. The error for any other text is `UnknownPagination`. Written as one normal chunk.
impl Type for Pagination {
    ghost use Rattle.bib_tables.specs.declared.types.Pagination.{Pagination as Scheme};

    ghost Meaning = { Scheme };

    ghost meaning = { λ scheme. scheme };

    ghost reads = { pagination_read };

    ghost may_refuse = { λ _ kind. kind ≡ UnknownPagination };

    ghost writes = { pagination_written };

    ghost kept = { λ scheme. ⊤ };

    ghost survives = { λ scheme _. pagination_survives scheme };

    fn from_chunks(alloc: Global, chunks: ChunksRef<'_>) -> Result<Pagination, TypeError> {
        let read = read_pagination(alloc, chunks)?;
        value_or_error(read, chunks, TypeErrorKind::UnknownPagination)
    }

    fn to_chunks(&self, alloc: Global) -> Result<Chunks, AllocError> {
        write_pagination(alloc, *self)
    }
}

/// Parses a code such as `sf`, in any ASCII case. The error for any other text is `UnknownGender`. Written as one normal
/// chunk.
impl Type for Gender {
    ghost use Rattle.bib_tables.specs.declared.types.Gender.{Gender as Named};

    ghost Meaning = { Named };

    ghost meaning = { λ gender. gender };

    ghost reads = { gender_read };

    ghost may_refuse = { λ _ kind. kind ≡ UnknownGender };

    ghost writes = { gender_written };

    ghost kept = { λ gender. ⊤ };

    ghost survives = { λ gender _. gender_survives gender };

    fn from_chunks(alloc: Global, chunks: ChunksRef<'_>) -> Result<Gender, TypeError> {
        let read = read_gender(alloc, chunks)?;
        value_or_error(read, chunks, TypeErrorKind::UnknownGender)
    }

    fn to_chunks(&self, alloc: Global) -> Result<Chunks, AllocError> {
        write_gender(alloc, *self)
    }
}

/// Parses one of the names of a language; the case of letters matters. The error for any other text is `UnknownLangId`.
/// Written as one verbatim chunk.
impl Type for Language {
    ghost use Rattle.bib_tables.specs.declared.types.lang.Language.{Language as Named};

    ghost Meaning = { Named };

    ghost meaning = { λ language. language };

    ghost reads = { language_read };

    ghost may_refuse = { λ _ kind. kind ≡ UnknownLangId };

    ghost writes = { language_written };

    ghost kept = { λ language. ⊤ };

    ghost survives = { λ language _. language_survives language };

    fn from_chunks(alloc: Global, chunks: ChunksRef<'_>) -> Result<Language, TypeError> {
        let read = read_language(alloc, chunks)?;
        value_or_error(read, chunks, TypeErrorKind::UnknownLangId)
    }

    fn to_chunks(&self, alloc: Global) -> Result<Chunks, AllocError> {
        write_language(alloc, *self)
    }
}

/// Parses a name, in any ASCII case. Any other text is an unknown editor type, with its ASCII letters in lowercase. Written as
/// one normal chunk.
impl Type for EditorType {
    ghost use Rattle.bib_tables.specs.declared.types.EditorType.{EditorType as Role};

    ghost Meaning = { Role };

    ghost meaning = { λ role. role };

    ghost reads = { λ chunks. Some (editor_type_read chunks) };

    ghost may_refuse = { λ _ _. ⊥ };

    ghost writes = { editor_type_written };

    ghost kept = { IsNamed };

    ghost survives = { editor_type_survives };

    fn from_chunks(alloc: Global, chunks: ChunksRef<'_>) -> Result<EditorType, TypeError> {
        Ok(read_editor_type(alloc, chunks)?)
    }

    fn to_chunks(&self, alloc: Global) -> Result<Chunks, AllocError> {
        write_editor_type(alloc, self)
    }
}
