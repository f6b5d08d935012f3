//! Converts raw entries to entries of a bibliography.

ghost use Rattle.std.specs.Prelude.{◌≡◌, ◌⊎◌, OnOk, IfOk, IfErr, reverse};
ghost use Rattle.std.specs.FinMap as by_name;
ghost use Rattle.bib_abbreviations.specs.Abbreviations.{given_by};
ghost use Rattle.bib_tables.specs.EntryType.{entry_type_of};
ghost use Rattle.bib_collections.specs.Sorted.{by_bytes};
ghost use Rattle.bib_syntax.specs.Errors.{out_of_memory};
ghost use Rattle.bib_file_entries.specs.Loading.{IsEntryOf, IsFieldOf, IsFieldReadable, IsFieldsError, field_name};
ghost use Rattle.bib_file_entries.specs.Reading.{IsFieldError};

use bib_abbreviations::reader::FieldReader;
use bib_chunks::chunk::Chunks;
use bib_collections::text_map::TextMap;
use bib_entry::entry::Entry;
use bib_syntax::raw::{Pair, ParseError, RawEntry};
use bib_tables::mechanics::EntryType;
use bib_text::items::Items;
use bib_text::text::Text;
use std::alloc::{AllocError, Global};

// Converts a raw entry to an entry, parsing its fields in order. ASCII letters in field names are converted to lowercase. If
// two fields then have the same name, the last one counts.
pub(crate) fn read_entry<'f, 's>(
    alloc: Global,
    raw: &RawEntry<'s>,
    reader: &mut FieldReader<'f, 's>,
) -> Result<Entry, ParseError>
    ensures same { reader.new ≡ reader.old }
    ensures read { IfOk result (λ entry. IsEntryOf (given_by reader.old) raw.now entry) }
    ensures refused { IfErr result (λ e. (e ≡ out_of_memory) ⊎
        IsFieldsError (given_by reader.old) raw.now.fields.items e) }
{
    let mut pairs = Vec::with_capacity(alloc, raw.fields.len())?;
    'fields: for field in &raw.fields {
        pairs.push(read_field(alloc, field, reader)?)?;
    }
    Ok(entry_with(alloc, raw.key.v, raw.kind.v, pairs)?)
}

// Returns the entry with this key, type and fields. If two fields have the same name, the last one counts.
pub(crate) fn entry_with(
    alloc: Global,
    key: &str,
    kind: &str,
    pairs: Vec<(Text, Chunks)>,
) -> Result<Entry, AllocError>
    ensures key { IfOk result (λ entry. entry.key ≡ key.now) }
    ensures kind { IfOk result (λ entry. entry.entry_type ≡ entry_type_of kind.now) }
    ensures fields { IfOk result (λ entry. entry.fields ≡
        by_name.from_entries {R = by_bytes} (reverse pairs.items)) }
{
    let key = Text::from_str(alloc, key)?;
    let entry_type = EntryType::new(alloc, kind)?;
    let fields = TextMap::from_pairs(pairs)?;
    Ok(Entry {
        key,
        entry_type,
        fields,
    })
}

// Parses a field: returns its name with ASCII letters in lowercase, and the chunks of its value.
pub(crate) fn read_field<'f, 's>(
    alloc: Global,
    field: &Pair<'s>,
    reader: &mut FieldReader<'f, 's>,
) -> Result<(Text, Chunks), ParseError>
    ensures same { reader.new ≡ reader.old }
    ensures name { IfOk result (λ read. read.0 ≡ field_name field.now) }
    ensures value { IfOk result (λ read. IsFieldOf (given_by reader.old) field.now read.1) }
    ensures readable { OnOk result (IsFieldReadable (given_by reader.old) field.now) }
    ensures refused { IfErr result (λ e. (e ≡ out_of_memory) ⊎
        IsFieldError (given_by reader.old) field.now e) }
{
    let name = field.key.v.to_ascii_lowercase(alloc)?;
    let chunks = reader.read(name.as_str(), &field.value.v)?;
    Ok((Text::from_string(name), shrink_chunks(chunks)))
}

// Returns the same chunks without spare capacity. Most fields have one chunk, and a list that has grown has capacity for at
// least four.
fn shrink_chunks(chunks: Chunks) -> Chunks
    ensures { result ≡ chunks }
{
    let mut list = chunks.into_vec();
    list.shrink_to_fit();
    Items::from_vec(list)
}
