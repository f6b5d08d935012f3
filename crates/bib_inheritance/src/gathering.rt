//! Collects the fields that the references of an entry offer, and copies those that the entry inherits.

ghost use Rattle.std.specs.Prelude.{◌≡◌, ℕ, List, OnOk, IfOk, map, if◌then◌else◌, is_some, option_map, None};
ghost use Rattle.std.specs.FinMap as by_name;
ghost use Rattle.std.specs.List.{flat_map};
ghost use Rattle.bib_chunks.specs.Styled.{styled};
ghost use Rattle.bib_tables.specs.Requirements.{texts, inheritable, is_container, is_one_of, never_inherited};
ghost use Rattle.bib_inheritance.specs.Inherited.{offered_field, inherited_field};
ghost use Rattle.bib_inheritance.specs.Gathering.{gathered_text, offer_among};
ghost use Rattle.bib_inheritance.specs.EntryTexts.{fields_of, first_named, first_some, texts_of_reference, texts_of_references};

use crate::offers::{Reference, offer};
use bib_chunks::chunk::Chunks;
use bib_collections::text_map::TextMap;
use bib_tables::mechanics::EntryType;
use bib_text::text::Text;
use std::alloc::{AllocError, Global};
use std::collections::BTreeMap;

// Offered fields by name. A field that is inserted later replaces an earlier one of the same name.
type GatheredFields<'a> = BTreeMap<&'a str, &'a Chunks>;

// Returns whether the rules forbid inheriting a field of this name.
fn is_kept_back(name: &str) -> bool
    ensures { result ≡ is_one_of never_inherited name.now }
{
    matches!(name, "title" | "addendum" | "note")
}

// Returns whether entries of this type are only containers of fields.
fn is_container(entry_type: &EntryType) -> bool
    ensures { result ≡ is_container entry_type.now }
{
    matches!(entry_type, EntryType::XData)
}

// Inserts the fields that `reference` offers for `names`, except for names that are never inherited.
fn gather_offers<'a>(
    reference: &Reference<'a>,
    names: &[&'a str],
    gathered: &mut GatheredFields<'a>,
) -> Result<(), AllocError>
    ensures { OnOk result ((name : List ℕ) → gathered_text gathered.new name ≡
        first_some (offer_among (texts names.now) (texts_of_reference reference.now) name)
        (gathered_text gathered.old name)) }
{
    'names: for name in names {
        if is_kept_back(name) {
            continue 'names;
        }
        if let Some(chunks) = offer(reference, name) {
            gathered.insert(*name, chunks)?;
        }
    }
    Ok(())
}

// Inserts the fields that `reference` offers for the names in `groups`, except for names that are never inherited.
fn gather_groups<'a>(
    reference: &Reference<'a>,
    groups: &[&'static [&'static str]],
    gathered: &mut GatheredFields<'a>,
) -> Result<(), AllocError>
    ensures { OnOk result ((name : List ℕ) → gathered_text gathered.new name ≡
        first_some (offer_among (flat_map (λ group. texts group.now) groups.now)
        (texts_of_reference reference.now) name) (gathered_text gathered.old name)) }
{
    'groups: for group in groups {
        gather_offers(reference, group, gathered)?;
    }
    Ok(())
}

// Inserts the fields that `reference` offers for the names that the rules of `entry_type` require or allow. Names that are never
// inherited and the rule for dates are left out.
fn gather_inheritable<'a>(
    entry_type: &EntryType,
    reference: &Reference<'a>,
    gathered: &mut GatheredFields<'a>,
) -> Result<(), AllocError>
    ensures { OnOk result ((name : List ℕ) → gathered_text gathered.new name ≡
        first_some (offer_among (inheritable entry_type.now) (texts_of_reference reference.now) name)
        (gathered_text gathered.old name)) }
{
    let row = entry_type.row();
    gather_offers(reference, row.required, gathered)?;
    gather_groups(reference, row.optional, gathered)?;
    gather_offers(reference, row.pages.possible(), gathered)?;
    gather_offers(reference, row.author.possible(), gathered)?;
    Ok(())
}

// Returns the names of all fields.
fn names_of<'a>(alloc: Global, fields: &'a TextMap<Chunks>) -> Result<Vec<&'a str>, AllocError>
    ensures { IfOk result (λ names. texts names.items ≡ map (λ e. e.0) (by_name.entries fields.now)) }
{
    let mut names = Vec::with_capacity(alloc, fields.len())?;
    'fields: for field in fields.iter().as_slice() {
        names.push(field.0.as_str())?;
    }
    Ok(names)
}

// Inserts the fields that an entry of type `entry_type` inherits from `reference`. An `xdata` entry inherits under each name
// that the reference has, except for names that are never inherited.
fn gather_reference<'a>(
    alloc: Global,
    entry_type: &EntryType,
    reference: &Reference<'a>,
    gathered: &mut GatheredFields<'a>,
) -> Result<(), AllocError>
    ensures { OnOk result ((name : List ℕ) → gathered_text gathered.new name ≡
        first_some (offered_field entry_type.now (texts_of_reference reference.now) name) (gathered_text gathered.old name)) }
{
    if is_container(entry_type) {
        let names = names_of(alloc, reference.fields)?;
        gather_offers(reference, &names, gathered)?;
        return Ok(());
    }
    gather_inheritable(entry_type, reference, gathered)?;
    Ok(())
}

// Returns the fields that an entry of type `entry_type` inherits from its references. For each name the first reference that
// offers a field counts, so it is inserted last.
fn gather_references<'a>(
    alloc: Global,
    entry_type: &EntryType,
    references: &[Reference<'a>],
) -> Result<GatheredFields<'a>, AllocError>
    ensures { IfOk result (λ gathered. (name : List ℕ) →
        gathered_text gathered name ≡ inherited_field entry_type.now name (texts_of_references references.now)) }
{
    let mut gathered = BTreeMap::new(alloc);
    let count = references.len();
    'references: for done in 0..count {
        gather_reference(
            alloc,
            entry_type,
            &references[count - 1 - done],
            &mut gathered,
        )?;
    }
    Ok(gathered)
}

// Copies the fields in `gathered` that the entry lacks.
fn copies(
    alloc: Global,
    own: &TextMap<Chunks>,
    gathered: GatheredFields<'_>,
) -> Result<Vec<(Text, Chunks)>, AllocError>
    ensures { IfOk result (λ copies. (name : List ℕ) → option_map styled (first_named copies.items name) ≡
        (if is_some (fields_of own.now name) then None else gathered_text gathered.entry name)) }
{
    let mut copies = Vec::with_capacity(alloc, gathered.len())?;
    'gathered: for (name, chunks) in gathered {
        if own.get(name).is_some() {
            continue 'gathered;
        }
        copies.push((Text::from_str(alloc, name)?, chunks.clone()?))?;
    }
    Ok(copies)
}

/// Copies the fields that an entry of type `entry_type` with the fields `own` lacks and inherits from `references`. For each
/// name the first reference that offers a field counts.
pub fn gather_fields(
    alloc: Global,
    entry_type: &EntryType,
    own: &TextMap<Chunks>,
    references: &[Reference<'_>],
) -> Result<Vec<(Text, Chunks)>, AllocError>
    ensures { IfOk result (λ copies. (name : List ℕ) → option_map styled (first_named copies.items name) ≡
        (if is_some (fields_of own.now name) then None
        else inherited_field entry_type.now name (texts_of_references references.now))) }
{
    let gathered = gather_references(alloc, entry_type, references)?;
    copies(alloc, own, gathered)
}
