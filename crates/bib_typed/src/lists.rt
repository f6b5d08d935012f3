//! Lists as typed values.

ghost use Rattle.std.specs.Prelude.{◌≡◌, ℕ, List, Some, IfOk, map, string_bytes};
ghost use Rattle.bib_chunks.specs.Cuts.{and_list};
ghost use Rattle.bib_tables.specs.declared.types.lang.Language.{Language as ALanguage};
ghost use Rattle.bib_values.specs.Enumerations.{language_read};
ghost use Rattle.bib_values.specs.Lists.{strings_read, strings_written, StringsKept};
ghost use Rattle.bib_chunks.specs.Separated.{parts_written};
ghost use Rattle.bib_values.specs.Permissive.{Permissive, permissive, languages_read, languages_written, LanguagesKept};
ghost use Rattle.bib_chunks.specs.Values.{Value};
ghost use Rattle.bib_values.proofs.CommaFacts.{strings_survive};
ghost use Rattle.bib_values.proofs.PermissiveFacts.{languages_survive};
ghost use Rattle.bib_typed.specs.Typed.{permissive_meaning};

use crate::typed::{PermissiveType, Type};
use bib_chunks::chunk::cuts::and_list;
use bib_chunks::chunk::making::copy_of;
use bib_chunks::chunk::{Chunks, ChunksRef};
use bib_tables::type_error::TypeError;
use bib_tables::types::lang::Language;
use bib_values::enums::read_language;
use bib_values::lists::{read_strings, write_parts, write_strings};
use std::alloc::{AllocError, Global};

/// Parses any chunks as the plain texts of a comma-separated list. Texts are written as normal chunks with commas between
/// them.
impl Type for Vec<String> {
    ghost Meaning = { List (List ℕ) };

    ghost meaning = { λ v. map (λ s. string_bytes s) v.items };

    ghost reads = { λ chunks. Some (strings_read chunks) };

    ghost may_refuse = { λ _ _. ⊥ };

    ghost writes = { strings_written };

    ghost kept = { StringsKept };

    ghost survives = { strings_survive };

    fn from_chunks(alloc: Global, chunks: ChunksRef<'_>) -> Result<Vec<String>, TypeError> {
        Ok(read_strings(alloc, chunks)?)
    }

    fn to_chunks(&self, alloc: Global) -> Result<Chunks, AllocError> {
        write_strings(alloc, self.as_slice())
    }
}

/// Parses any chunks as the items of an `and` list. Items are written unchanged, with `and` between them. No contract covers
/// the result of parsing them back.
impl Type for Vec<Chunks> {
    ghost Meaning = { List Value };

    ghost meaning = { λ v. v.items };

    ghost reads = { λ chunks. Some (and_list chunks) };

    ghost may_refuse = { λ _ _. ⊥ };

    ghost writes = { parts_written };

    ghost kept = { λ _. ⊥ };

    ghost survives = { λ _ none. absurd none };

    fn from_chunks(alloc: Global, chunks: ChunksRef<'_>) -> Result<Vec<Chunks>, TypeError> {
        let parts = and_list(alloc, chunks)?;
        Ok(parts.into_vec())
    }

    fn to_chunks(&self, alloc: Global) -> Result<Chunks, AllocError> {
        write_parts(alloc, self.as_slice())
    }
}

// Returns the language that the chunks name, or else the chunks.
fn read_permissively(
    alloc: Global,
    chunks: ChunksRef<'_>,
) -> Result<PermissiveType<Language>, AllocError>
    ensures { IfOk result (λ value. permissive_meaning (λ language. language) value ≡
        permissive (language_read chunks.now) chunks.now) }
{
    match read_language(alloc, chunks)? {
        Some(language) => Ok(PermissiveType::Typed(language)),
        None => Ok(PermissiveType::Chunks(copy_of(alloc, chunks)?)),
    }
}

/// Parses any chunks as the items of an `and` list, each a language or else its chunks. Written with `and` between them.
impl Type for Vec<PermissiveType<Language>> {
    ghost Meaning = { List (Permissive ALanguage) };

    ghost meaning = { λ v. map (permissive_meaning (λ language. language)) v.items };

    ghost reads = { λ chunks. Some (languages_read chunks) };

    ghost may_refuse = { λ _ _. ⊥ };

    ghost writes = { languages_written };

    ghost kept = { LanguagesKept };

    ghost survives = { languages_survive };

    #[tactic(auto, unfolding(bib_values::specs::Permissive::languages_read))]
    fn from_chunks(
        alloc: Global,
        chunks: ChunksRef<'_>,
    ) -> Result<Vec<PermissiveType<Language>>, TypeError> {
        let list = and_list(alloc, chunks)?;
        let mut languages = Vec::new(alloc);
        'parts: for part in list.as_slice() {
            let language = read_permissively(alloc, part.as_slice())?;
            languages.push(language)?;
        }
        Ok(languages)
    }

    fn to_chunks(&self, alloc: Global) -> Result<Chunks, AllocError> {
        let mut parts = Vec::new(alloc);
        'languages: for language in self {
            let part = language.to_chunks(alloc)?;
            parts.push(part)?;
        }
        write_parts(alloc, parts.as_slice())
    }
}
