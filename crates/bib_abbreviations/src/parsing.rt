//! Parses the contents of fields and expands the abbreviations in them.

ghost use Rattle.std.specs.Prelude.{◌≡◌, ◌⊎◌, map, OnOk, IfOk, IfErr};
ghost use Rattle.bib_abbreviations.specs.Abbreviations.{AreContents, IsContentsError, IsReadable, defined_in};
ghost use Rattle.bib_syntax.specs.Errors.{out_of_memory};
ghost use Rattle.bib_syntax.specs.Views.{piece_of};
ghost use Rattle.bib_tables.specs.VerbatimFields as names;

use crate::abbreviations::field_contents;
use bib_chunks::chunk::Chunks;
use bib_syntax::raw::{Field, ParseError};
use bib_tables::fields::is_verbatim_field;
use std::alloc::Global;
use std::collections::HashMap;

/// Parses the contents of a field with the name `key`. Each literal is parsed by itself. An abbreviation is replaced by
/// its definition. If it has none, it is replaced by the English name of the month whose first three letters it is, in
/// any ASCII case. Two neighbouring chunks are merged if both are normal or both verbatim.
///
/// The error is the first one from left to right; those of a definition come where its name occurs. A literal that can't
/// be parsed has the error of `contents`: `Unexpected` or `UnexpectedEof`. A name that is neither defined nor such a month
/// has `UnknownAbbreviation`. A name that occurs in its own expansion has `AbbreviationCycle`. The last two have the
/// span of the name, in bytes of its file. The only other error is out of memory.
pub fn parse_field(
    alloc: Global,
    key: &str,
    field: &Field<'_>,
    abbreviations: &HashMap<&str, &Field<'_>>,
) -> Result<Chunks, ParseError>
    ensures contents { IfOk result (AreContents (defined_in abbreviations.now)
        (names.is_verbatim_field key.now) (map piece_of field.now.items)) }
    ensures readable { OnOk result (IsReadable (defined_in abbreviations.now)
        (names.is_verbatim_field key.now) (map piece_of field.now.items)) }
    ensures refused { IfErr result (λ e. (e ≡ out_of_memory) ⊎
        IsContentsError (defined_in abbreviations.now) (names.is_verbatim_field key.now)
        (map piece_of field.now.items) e) }
{
    field_contents(alloc, is_verbatim_field(key), field, abbreviations)
}
