//! Loads the entries of a file and the names that they claim.

ghost use Rattle.std.specs.Prelude.{◌≡◌, ◌⊎◌, [], map, length, IfOk, IfErr};
ghost use Rattle.bib_abbreviations.specs.Abbreviations.{sorted_in};
ghost use Rattle.bib_syntax.specs.Errors.{out_of_memory};
ghost use Rattle.bib_syntax.specs.Views.{entry_reading_of, file_of};
ghost use Rattle.bib_syntax.specs.declared.raw.ParseErrorKind.TheVariants.{DuplicateKey};
ghost use Rattle.bib_file_entries.specs.Claiming.{IsLoadedSoFar};
ghost use Rattle.bib_file_entries.specs.Loaded.{IsFirstErrorOfEntries, definition_in};
ghost use Rattle.bib_collections.specs.Names.{AreIndicesBelow};

use crate::claiming::aliases;
use crate::loading::read_entry;
use bib_abbreviations::definitions::definitions;
use bib_abbreviations::reader::FieldReader;
use bib_chunks::chunk::{Span, Spanned};
use bib_collections::claims::Claims;
use bib_collections::names::Names;
use bib_entry::entry::Entry;
use bib_syntax::raw::{Field, ParseError, ParseErrorKind, RawBibliography, RawEntry};
use bib_text::text::Text;
use std::alloc::{AllocError, Global};
use std::collections::BTreeMap;

// Returns the error of an entry whose key an earlier entry claimed.
pub(crate) fn duplicate(
    alloc: Global,
    raw: &Spanned<RawEntry<'_>>,
) -> Result<ParseError, AllocError>
    ensures { IfOk result (λ e. e ≡
        record { span = raw.now.span; kind = DuplicateKey raw.now.v.key.v.now }) }
{
    let key = Text::from_str(alloc, raw.v.key.v)?;
    Ok(ParseError {
        span: raw.span.start..raw.span.end,
        kind: ParseErrorKind::DuplicateKey(key),
    })
}

// Loads the entries of a file with these definitions of abbreviations. Returns the entries and the names that they claim.
// Frees each raw entry after its conversion.
fn load_entries<'f, 's>(
    alloc: Global,
    raw: Vec<Spanned<RawEntry<'s>>>,
    definitions: BTreeMap<&'s str, &'f Field<'s>>,
) -> Result<(Vec<Entry>, Names), ParseError>
    ensures loaded { IfOk result (λ all. IsLoadedSoFar (sorted_in definitions.entry)
        (map entry_reading_of raw.entry.items) all.0.items all.1) }
    ensures below { IfOk result (λ all. AreIndicesBelow (length all.0.items) all.1) }
    ensures refused { IfErr result (λ e. (e ≡ out_of_memory) ⊎
        IsFirstErrorOfEntries (sorted_in definitions.entry) [] (map entry_reading_of raw.entry.items) e) }
{
    let mut reader = FieldReader::new(alloc, definitions);
    let mut entries = Vec::with_capacity(alloc, raw.len())?;
    let mut names = Claims::new(alloc);
    'entries: for said in raw {
        let key = Text::from_str(alloc, said.v.key.v)?;
        if !names.claim_new(key, entries.len())? {
            return Err(duplicate(alloc, &said)?);
        }
        let entry = read_entry(alloc, &said.v, &mut reader)?;
        names.claim_all(aliases(alloc, &entry)?, entries.len())?;
        entries.push(entry)?;
    }
    Ok((entries, names.into_names(alloc)?))
}

/// Returns the span of each entry in the file. The only error is out of memory.
pub fn spans(alloc: Global, raw: &[Spanned<RawEntry<'_>>]) -> Result<Vec<Span>, AllocError>
    ensures { IfOk result (λ spans. spans.items ≡ map (λ said. said.span) raw.now) }
{
    raw.iter()
        .map(|said| said.span.start..said.span.end)
        .collect(alloc)
}

/// Loads the entries of a raw bibliography. Returns the entries with their own fields, and the names that they claim. Each
/// name points to the last entry that claims it.
///
/// The error is the first in the order of the file. It is a key that an earlier entry claimed (`DuplicateKey`, at the
/// entry), or a field that can't be parsed. The only other error is out of memory.
pub fn load(alloc: Global, raw: RawBibliography<'_>) -> Result<(Vec<Entry>, Names), ParseError>
    ensures loaded { IfOk result (λ all. IsLoadedSoFar
        (definition_in (file_of raw.entry).abbreviations)
        (file_of raw.entry).entries all.0.items all.1) }
    ensures below { IfOk result (λ all. AreIndicesBelow (length all.0.items) all.1) }
    ensures refused { IfErr result (λ e. (e ≡ out_of_memory) ⊎ IsFirstErrorOfEntries
        (definition_in (file_of raw.entry).abbreviations) [] (file_of raw.entry).entries e) }
{
    let RawBibliography {
        preamble: _,
        entries,
        abbreviations,
    } = raw;
    let definitions = definitions(alloc, abbreviations.as_slice())?;
    load_entries(alloc, entries, definitions)
}
