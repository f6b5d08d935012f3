//! Compares given entries with parsed ones.

ghost use Rattle.std.specs.Prelude.{◌≡◌, ◌↔◌, ◌++◌, IsTrue, OnOk, IfOk, IfSome, IsNone, length, map};
ghost use Rattle.std.specs.List.{AllByRecursion};
ghost use Rattle.std.specs.Option.{option_copied};
ghost use Rattle.std.specs.Str.{chars};
ghost use Rattle.bib_chunks.specs.Styled.{atoms_of, styled};
ghost use Rattle.bib_tables.specs.EntryType.{entry_type_of};
ghost use Rattle.bib_from_json.specs.Atoms as spec;
ghost use Rattle.bib_from_json.specs.SameEntries.{AreSameEntries, AreSameFields, IsSameEntry, IsSameField};

use crate::given::{GivenEntry, GivenField};
use crate::reading::{Fault, UnfitEntry, unfit_in};
use bib_chunks::chunk::{Chunk, Chunks, ChunksRef};
use bib_collections::text_map::TextMap;
use bib_entry::entry::Entry;
use bib_json::entries::type_name;
use bib_tables::mechanics::EntryType;
use std::alloc::{AllocError, Global};

// An element of styled text.
#[derive(Debug, Drop)]
enum Atom<'t> {
    // A character, and whether it is verbatim.
    Character(bool, char),
    // A math text.
    Math(&'t str),
}

// Appends the characters of a text.
fn push_characters(
    atoms: &mut Vec<Atom<'_>>,
    is_verbatim: bool,
    text: &str,
) -> Result<(), AllocError>
    ensures { OnOk result (map spec.atom_of atoms.new.items
        ≡ map spec.atom_of atoms.old.items ++ map (spec.styled_character is_verbatim) (chars text.now)) }
{
    'text: for c in text.chars() {
        atoms.push(Atom::Character(is_verbatim, c))?;
    }
    Ok(())
}

// Appends the atoms of a chunk.
fn push_atoms<'t>(atoms: &mut Vec<Atom<'t>>, chunk: &'t Chunk) -> Result<(), AllocError>
    ensures { OnOk result (map spec.atom_of atoms.new.items ≡ map spec.atom_of atoms.old.items ++ atoms_of chunk.now) }
{
    match chunk {
        Chunk::Normal(text) => push_characters(atoms, false, text.as_str()),
        Chunk::Verbatim(text) => push_characters(atoms, true, text.as_str()),
        Chunk::Math(text) => {
            atoms.push(Atom::Math(text.as_str()))?;
            Ok(())
        }
    }
}

// Returns the styled text of chunks.
fn styled_text<'t>(alloc: Global, chunks: ChunksRef<'t>) -> Result<Vec<Atom<'t>>, AllocError>
    ensures { IfOk result (λ atoms. map spec.atom_of atoms.items ≡ styled chunks.now) }
{
    let mut atoms = Vec::new(alloc);
    'chunks: for chunk in chunks {
        push_atoms(&mut atoms, &chunk.v)?;
    }
    Ok(atoms)
}

// Returns whether two math texts have the same characters.
fn is_same_math(a: &str, b: &str) -> bool
    ensures { IsTrue result ↔ chars a.now ≡ chars b.now }
{
    a == b
}

// Returns whether two atoms are the same.
fn is_same_atom(a: &Atom<'_>, b: &Atom<'_>) -> bool
    ensures { IsTrue result ↔ spec.atom_of a.now ≡ spec.atom_of b.now }
{
    match (a, b) {
        (Atom::Character(in_verbatim, c), Atom::Character(is_verbatim, d)) => {
            in_verbatim == is_verbatim && c == d
        }
        (Atom::Math(text), Atom::Math(other)) => is_same_math(text, other),
        _ => false,
    }
}

// Returns whether two lists of atoms are the same.
fn are_same_atoms(a: &[Atom<'_>], b: &[Atom<'_>]) -> bool
    ensures { IsTrue result ↔ map spec.atom_of a.now ≡ map spec.atom_of b.now }
{
    if a.len() != b.len() {
        return false;
    }
    'atoms: for index in 0..a.len() {
        if !is_same_atom(&a[index], &b[index]) {
            return false;
        }
    }
    true
}

// Returns whether two values have the same styled text.
fn have_same_text(
    alloc: Global,
    given: ChunksRef<'_>,
    chunks: ChunksRef<'_>,
) -> Result<bool, AllocError>
    ensures { IfOk result (λ same. IsTrue same ↔ styled chunks.now ≡ styled given.now) }
{
    let given = styled_text(alloc, given)?;
    let atoms = styled_text(alloc, chunks)?;
    Ok(are_same_atoms(atoms.as_slice(), given.as_slice()))
}

// Returns the fault of a given field, or `None` if the fields have one with its name and its styled text.
fn field_fault(
    alloc: Global,
    fields: &TextMap<Chunks>,
    given: &GivenField,
) -> Result<Option<Fault>, AllocError>
    ensures { IfOk result (λ fault. IsNone fault ↔ IsSameField fields.now given.now) }
{
    let Some(chunks) = fields.get(given.name.as_str()) else {
        return Ok(Some(Fault::OtherFields));
    };
    if have_same_text(alloc, given.chunks.as_slice(), chunks.as_slice())? {
        return Ok(None);
    }
    Ok(Some(Fault::OtherText))
}

// Returns the fault of the first given field that an entry lacks or has with another styled text, or `None` if there is none.
fn first_fault(
    alloc: Global,
    key: &str,
    given: &[GivenField],
    fields: &TextMap<Chunks>,
) -> Result<Option<UnfitEntry>, AllocError>
    ensures { IfOk result (λ unfit. IsNone unfit ↔ AllByRecursion (IsSameField fields.now) given.now) }
{
    'fields: for field in given {
        if let Some(fault) = field_fault(alloc, fields, field)? {
            return Ok(Some(unfit_in(alloc, fault, key, field.name.as_str())?));
        }
    }
    Ok(None)
}

// Returns the fault of a given entry, or `None` if the parsed entry is the same.
pub(crate) fn entry_fault(
    alloc: Global,
    given: &GivenEntry,
    entry: &Entry,
) -> Result<Option<UnfitEntry>, AllocError>
    ensures { IfOk result (λ unfit. IsNone unfit ↔ IsSameEntry given.now entry.now) }
{
    let key = given.key.as_str();
    let kind = EntryType::new(alloc, given.kind.as_str())?;
    if entry.key.as_str() != key || type_name(&entry.entry_type) != type_name(&kind) {
        return Ok(Some(unfit_in(alloc, Fault::NotWritable, key, "")?));
    }
    if entry.fields.len() != given.fields.len() {
        return Ok(Some(unfit_in(alloc, Fault::OtherFields, key, "")?));
    }
    first_fault(alloc, key, given.fields.as_slice(), &entry.fields)
}

// Returns the index of the first given entry that isn't the same as the parsed one, with the fault, or `None` if all are the same. The
// index is 0 if all given entries are the same, but more entries were parsed.
pub(crate) fn entries_fault(
    alloc: Global,
    given: &[GivenEntry],
    entries: &[Entry],
) -> Result<Option<(usize, UnfitEntry)>, AllocError>
    ensures { IfOk result (λ fault. IsNone fault ↔ AreSameEntries given.now entries.now) }
{
    let mut index = 0;
    'entries: for entry in given {
        let Some(read) = entries.get(index) else {
            let unfit = unfit_in(alloc, Fault::NotWritable, entry.key.as_str(), "")?;
            return Ok(Some((index, unfit)));
        };
        if let Some(unfit) = entry_fault(alloc, entry, read)? {
            return Ok(Some((index, unfit)));
        }
        index += 1;
    }
    if index < entries.len() {
        return Ok(Some((0, unfit_in(alloc, Fault::NotWritable, "", "")?)));
    }
    Ok(None)
}
