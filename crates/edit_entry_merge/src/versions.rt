//! The versions of an entry that are merged, and their fields by name.

ghost use Rattle.std.specs.Prelude.{◌≡◌, false, true, IfOk, IfSome, MatchOption, OnOk, map, option_map};
ghost use Rattle.bib_syntax.specs.Views.{field_of};
ghost use Rattle.edit_entry_merge.specs.Choices as choices;
ghost use Rattle.edit_entry_merge.specs.Versions as spec;
ghost use Rattle.edit_entry_merge.specs.Working.{AddsFirst, AreIndexed, IsIndexed, HasFirst, field_by_name, is_new, lent_field, version_reading, versions_reading};

use crate::choices::Side;
use bib_syntax::raw::{Pair, RawEntry};
use bib_text::spanned::Spanned;
use edit_entries::document::RawDocument;
use std::alloc::{AllocError, Global};
use std::collections::BTreeMap;

// A version of an entry: the text that it is in, the entry, and its fields by their names in ASCII lowercase.
#[derive(Drop)]
pub(crate) struct Version<'a, 's> {
    // The text.
    pub(crate) text: &'s str,
    // The entry.
    pub(crate) entry: &'a Spanned<RawEntry<'s>>,
    fields: BTreeMap<String, &'a Pair<'s>>,
}

// The versions that are merged.
#[derive(Drop)]
pub(crate) struct Versions<'a, 's> {
    // The common base, if there is one.
    pub(crate) base: Option<Version<'a, 's>>,
    // Our side.
    pub(crate) ours: Version<'a, 's>,
    // Their side.
    pub(crate) theirs: Version<'a, 's>,
}

// Adds a field under its name in ASCII lowercase. Returns whether there was none with this name yet; otherwise nothing is added.
fn insert_field<'a, 's>(
    fields: &mut BTreeMap<String, &'a Pair<'s>>,
    alloc: Global,
    field: &'a Pair<'s>,
) -> Result<bool, AllocError>
    ensures new { IfOk result (λ new. new ≡ is_new (field_by_name fields.old (field_of field.now).name.text)) }
    ensures added { OnOk result (AddsFirst fields.old (field_of field.now) fields.new) }
{
    let name = field.key.v.to_ascii_lowercase(alloc)?;
    if fields.contains_key(&name) {
        return Ok(false);
    }
    fields.insert(name, field)?;
    Ok(true)
}

// Returns the fields by their names in ASCII lowercase, or none if two of them have the same name.
fn fields_by_name<'a, 's>(
    alloc: Global,
    fields: &'a [Pair<'s>],
) -> Result<Option<BTreeMap<String, &'a Pair<'s>>>, AllocError>
    ensures { IfOk result (λ found. MatchOption found (spec.have_distinct_names (map field_of fields.now) ≡ false)
        (λ names. HasFirst names (map field_of fields.now) × (spec.have_distinct_names (map field_of fields.now) ≡ true))) }
{
    let mut names = BTreeMap::new(alloc);
    let mut are_distinct = true;
    'fields: for field in fields {
        let is_new = insert_field(&mut names, alloc, field)?;
        are_distinct = are_distinct && is_new;
    }
    if are_distinct {
        Ok(Some(names))
    } else {
        Ok(None)
    }
}

impl<'a, 's> Version<'a, 's> {
    // Returns the version that a document is, if it has one entry, whose fields can be found by their names.
    fn of(alloc: Global, document: &'a RawDocument<'s>) -> Result<Option<Self>, AllocError>
        ensures version { IfOk result (λ found. option_map version_reading found ≡ spec.version_of document.now) }
        ensures indexed { IfOk result (λ found. IfSome found IsIndexed) }
    {
        let [entry] = document.raw().entries.as_slice() else {
            return Ok(None);
        };
        if entry.v.fields.is_empty() {
            return Ok(None);
        }
        let Some(fields) = fields_by_name(alloc, &entry.v.fields)? else {
            return Ok(None);
        };
        Ok(Some(Version {
            text: document.text(),
            entry,
            fields,
        }))
    }

    // Returns the field with a name, in any ASCII case.
    pub(crate) fn field(
        &self,
        alloc: Global,
        name: &str,
    ) -> Result<Option<&'a Pair<'s>>, AllocError>
        requires { IsIndexed self.now }
        ensures { IfOk result (λ found. lent_field found ≡ spec.named name.now (version_reading self.now)) }
    {
        let name = name.to_ascii_lowercase(alloc)?;
        Ok(self.fields.get(&name).copied())
    }
}

impl<'a, 's> Versions<'a, 's> {
    // Returns the versions that documents are, if each is one. The base may be absent.
    pub(crate) fn of(
        alloc: Global,
        base: Option<&'a RawDocument<'s>>,
        ours: &'a RawDocument<'s>,
        theirs: &'a RawDocument<'s>,
    ) -> Result<Option<Self>, AllocError>
        ensures versions { IfOk result (λ found. option_map versions_reading found
            ≡ spec.entry_versions (option_map (λ d. d.now) base.entry) ours.now theirs.now) }
        ensures indexed { IfOk result (λ found. IfSome found AreIndexed) }
    {
        let base = match base {
            Some(document) => {
                let Some(version) = Version::of(alloc, document)? else {
                    return Ok(None);
                };
                Some(version)
            }
            None => None,
        };
        let Some(ours) = Version::of(alloc, ours)? else {
            return Ok(None);
        };
        let Some(theirs) = Version::of(alloc, theirs)? else {
            return Ok(None);
        };
        Ok(Some(Versions { base, ours, theirs }))
    }

    // Returns the version of a side.
    pub(crate) fn at(&self, side: Side) -> &Version<'a, 's>
        requires { AreIndexed self.now }
        ensures version { version_reading result.now ≡ choices.version_at (versions_reading self.now) side }
        ensures indexed { IsIndexed result.now }
    {
        match side {
            Side::Ours => &self.ours,
            Side::Theirs => &self.theirs,
        }
    }

    // Returns the field of the base with a name, in any ASCII case. An absent base has no field.
    pub(crate) fn base_field(
        &self,
        alloc: Global,
        name: &str,
    ) -> Result<Option<&'a Pair<'s>>, AllocError>
        requires { AreIndexed self.now }
        ensures { IfOk result (λ found. lent_field found ≡ spec.base_named name.now (versions_reading self.now).base) }
    {
        match &self.base {
            Some(version) => version.field(alloc, name),
            None => Ok(None),
        }
    }
}
