//! Bibliographies: entries in order, and the names that point to them.

ghost use Rattle.std.specs.Prelude.{◌≡◌, ◌⊎◌, ◌==◌, ◌<◌, ◌++◌, ◌∷◌, [], length, vec_len, vec_capacity, codes, map, List, Some, IsSome, IsNone, IsOk, OnOk, OnErr, IfOk, IfErr};
ghost use Rattle.std.specs.Borrow.{sem};
ghost use Rattle.std.specs.Option.{option_copied, option_copied_mut};
ghost use Rattle.std.specs.Slice.Iter.{iter_rest, iter_mut_rest};
ghost use Rattle.std.specs.Vec.Iter.{into_iter_items};
ghost use Rattle.std.specs.Iterator.{YieldsFirstRef, item_count};
ghost use Rattle.bib_contents.specs.Contents.{LiesBetween};
ghost use Rattle.bib_entry.specs.declared.entry.Entry.{Entry as AnEntry};
ghost use Rattle.bib_collections.specs.Graph.{IsTopologicalOrder};
ghost use Rattle.bib_syntax.specs.Errors.{out_of_memory};
ghost use Rattle.bib_syntax.specs.Views.{file_of};
ghost use Rattle.biblatex.specs.Headline.{IsAcceptedText, IsBibliographyOf, IsErrorOf};
ghost use Rattle.biblatex.specs.Keys.{keys_left};
ghost use Rattle.biblatex.specs.Resolved.{AreOwn, IsAccepted, IsFirstErrorOf, IsLoaded, IsOfDate, graph_of};
ghost use Rattle.biblatex.specs.Lending.{LendsEntry, LendsEntries};
ghost use Rattle.bib_collections.specs.Names.{AreIndicesBelow, with_claims, claims_for};
ghost use Rattle.bib_file_entries.specs.Bibliography.{aliases, claims, entry_of, empty_bibliography, index_of, with_alias, with_entry_by_key, without_entry_by_name};
ghost use Rattle.biblatex.specs.SameBibliography.{same_bibliography, same_bibliography_per, same_bibliography_equiv};

use bib_collections::names::Names;
use bib_entry::entry::Entry;
use bib_file_entries::claiming::claims;
use bib_file_entries::reading::{load, spans};
use bib_inheritance::resolving::resolve;
use bib_syntax::raw::{ParseError, RawBibliography};
use bib_text::text::Text;
use std::alloc::{AllocError, Global};
use std::error::Error;
use std::marker::Model;
use std::slice::{Iter, IterMut};
use std::vec::IntoIter;
use std::{fmt, mem};

/// Entries in order, and names that point to them.
#[derive(Debug, Drop)]
pub struct Bibliography {
    entries: Vec<Entry>,
    names: Names,
}

impl Model for Bibliography {
    ghost use Rattle.bib_file_entries.specs.Bibliography.{Bibliography, bibliography_code};
    ghost use Rattle.bib_collections.specs.Names.{AreIndicesBelow};
    ghost use Rattle.std.specs.Prelude.{length};

    ghost Value = { Bibliography };

    ghost coded = { bibliography_code };

    ghost view = { λ a. record { entries = a.entries.items; names = a.names } };

    ghost invariant = { λ a. AreIndicesBelow (length a.entries.items) a.names };
}

/// The error of [`Bibliography::insert`]: out of memory. It contains the entry that was not added.
#[derive(Debug, Drop)]
pub struct InsertError {
    /// The entry that was not added.
    pub entry: Entry,
}

impl fmt::Display for InsertError {
    ghost output = { λ _. Some (codes "out of memory") };

    fn fmt<W: fmt::Write>(&self, f: &mut fmt::Formatter<W>) -> fmt::Result {
        f.write_str("out of memory")
    }
}

impl Error for InsertError {}

impl InsertError {
    // Returns the error for an entry that was not added.
    fn for_entry(_error: AllocError, entry: Entry) -> InsertError
        ensures { result.entry ≡ entry }
    {
        InsertError { entry }
    }
}

// Reserves room for one more entry, and makes the names that `entry` claims point to the next index.
fn claim_next(entries: &mut Vec<Entry>, names: &mut Names, entry: &Entry) -> Result<(), AllocError>
    ensures same_entries { entries.new.items ≡ entries.old.items }
    ensures room { OnOk result (vec_len entries.new < vec_capacity entries.new) }
    ensures claimed { OnOk result (names.new ≡ with_claims names.old
        (claims_for (claims entry.now) (length entries.old.items))) }
    ensures refused { OnErr result (names.new ≡ names.old) }
{
    let claims = claims(*entries.allocator(), entry)?;
    entries.reserve(1)?;
    names.claim_all(claims, entries.len())
}

impl Bibliography {
    /// Returns a bibliography without entries. Does not allocate.
    pub fn new(alloc: Global) -> Self
        ensures { result ≡ empty_bibliography }
    {
        Bibliography {
            entries: Vec::new(alloc),
            names: Names::new(alloc),
        }
    }

    /// Parses a bibliography file. Returns a bibliography if the text is accepted and memory suffices, and an error
    /// otherwise.
    ///
    /// Each entry has its own fields except `xdata`, and the fields that it inherits from the entries that it refers to. If it
    /// inherits a date, its own `month` and `day` are removed.
    ///
    /// If the file grammar doesn't accept the text, the error is a syntax error or out of memory; otherwise the errors are
    /// those of `from_raw`. Spans are in bytes of the text, except for some errors of dates (see `from_raw`). The span of any
    /// other error lies in the text.
    pub fn parse(alloc: Global, src: &str) -> Result<Self, ParseError>
        ensures loaded { IfOk result (IsBibliographyOf src.now) }
        ensures accepted { OnOk result (IsAcceptedText src.now) }
        ensures refused { IfErr result (λ e. (e ≡ out_of_memory) ⊎
            (IsErrorOf src.now e × (IsAcceptedText src.now → ⊥))) }
        ensures inside { IfErr result (λ e. (e ≡ out_of_memory) ⊎
            IsOfDate e ⊎ LiesBetween 0 (length src.now) e) }
    {
        let raw = RawBibliography::parse(alloc, src)?;
        Self::from_raw(alloc, raw)
    }

    /// Builds the bibliography of a raw bibliography. The texts and spans of `raw` are trusted: a span needn't lie in any
    /// text.
    ///
    /// Inheriting doesn't change the chunks of an own field that an entry keeps. For an inherited field, only the styled text is
    /// guaranteed: the borders and the spans of its chunks are not.
    ///
    /// The error is that of the first case that applies, at its first place in the order of the file:
    ///
    /// 1. An entry has a key that an earlier entry claimed (`DuplicateKey`, at the entry), or a field can't be parsed.
    /// 2. An entry refers to itself by `crossref` or `xdata`, directly or through others (`ReferenceCycle`, at the entry).
    /// 3. An entry lacks a required date, and refers by these fields to an entry that has `year` but no `date`, and whose `year`,
    /// `month` and `day` can't be parsed (`ResolutionError`). The span of the error is that of the first of these three fields that can't
    /// be parsed. For a day in the field `month`, it is in bytes of that field's text. An entry lacks a required date if its
    /// type requires one, and it has neither `date` nor `year`.
    ///
    /// The only other error is out of memory.
    pub fn from_raw(alloc: Global, raw: RawBibliography<'_>) -> Result<Self, ParseError>
        ensures loaded { IfOk result (IsLoaded (file_of raw.entry)) }
        ensures refused { IfErr result (λ e. (e ≡ out_of_memory) ⊎
            (IsFirstErrorOf (file_of raw.entry) e × (IsAccepted (file_of raw.entry) → ⊥))) }
    {
        let (bibliography, _turns) = Self::from_raw_counted(alloc, raw)?;
        Ok(bibliography)
    }

    /// Builds the bibliography like `from_raw`, and also returns the order in which entries inherited. The order contains the
    /// index of each entry once, after the indices of all entries that it refers to by `crossref` or `xdata`.
    pub fn from_raw_counted(
        alloc: Global,
        raw: RawBibliography<'_>,
    ) -> Result<(Self, Vec<usize>), ParseError>
        ensures loaded { IfOk result (λ counted. IsLoaded (file_of raw.entry) counted.0) }
        ensures turns { IfOk result (λ counted. (own : List AnEntry) × AreOwn (file_of raw.entry) own ×
            IsTopologicalOrder (graph_of own) counted.1.items) }
        ensures refused { IfErr result (λ e. (e ≡ out_of_memory) ⊎
            (IsFirstErrorOf (file_of raw.entry) e × (IsAccepted (file_of raw.entry) → ⊥))) }
    {
        let spans = spans(alloc, &raw.entries)?;
        let (mut entries, names) = load(alloc, raw)?;
        let turns = resolve(alloc, &spans, &names, &mut entries)?;
        Ok((Self::from_names(entries, names), turns))
    }

    // Returns the bibliography of these entries and names. Does not allocate.
    pub(crate) fn from_names(entries: Vec<Entry>, names: Names) -> Self
        requires { AreIndicesBelow (length entries.items) names }
        ensures { result ≡ record { entries = entries.items; names = names } }
    {
        Bibliography { entries, names }
    }

    // Returns the entries in order.
    pub(crate) fn as_slice(&self) -> &[Entry]
        ensures { result.now ≡ self.now.entries }
    {
        self.entries.as_slice()
    }

    // Returns the names of the entries.
    pub(crate) fn names(&self) -> &Names
        ensures { result.now ≡ self.now.names }
    {
        &self.names
    }

    /// Returns the number of entries. Each name points to an index below this number.
    pub fn len(&self) -> usize
        ensures count { result ≡ length self.now.entries }
        ensures indices { AreIndicesBelow result self.now.names }
    {
        self.entries.len()
    }

    /// Returns `true` if the bibliography has no entries.
    pub fn is_empty(&self) -> bool
        ensures { result ≡ (length self.now.entries == 0) }
    {
        self.entries.is_empty()
    }

    /// Returns the entry that the name `key` points to. A name is a key, an item of a field `ids`, or an alias.
    pub fn get(&self, key: &str) -> Option<&Entry>
        ensures value { option_copied result ≡ entry_of self.now key.now }
        ensures named { IsSome (index_of self.now key.now) → IsSome result }
    {
        let index = self.names.get(key)?;
        Some(&self.entries[index])
    }

    /// Returns a mutable reference to the entry that the name `key` points to. Changes to the entry leave the names
    /// unchanged.
    pub fn get_mut(&mut self, key: &str) -> Option<&mut Entry>
        ensures* writes_back { sem 𝓛 (LendsEntry self.entry key.now result) }
        ensures value { option_copied_mut result ≡ entry_of self.old key.now }
        ensures named { IsSome (index_of self.old key.now) → IsSome result }
    {
        let index = self.names.get(key)?;
        self.entries.get_mut(index)
    }

    /// Adds an entry. If its key is already a name, the entry replaces the one that the name points to. The replaced entry is
    /// returned, and all names stay unchanged. Otherwise the entry is added at the end. Its key and the names in its field
    /// `ids` then point to it. If memory runs out, the bibliography stays unchanged, and the error contains the entry.
    pub fn insert(&mut self, entry: Entry) -> Result<Option<Entry>, InsertError>
        ensures had { IfOk result (λ had. had ≡ entry_of self.old entry.key) }
        ensures inserted { OnOk result (self.new ≡ with_entry_by_key self.old entry) }
        ensures refused { OnErr result (self.new ≡ self.old) }
        ensures returned { IfErr result (λ e. e.entry ≡ entry) }
        ensures present { IsSome (index_of self.old entry.key) → IsOk result }
    {
        if let Some(index) = self.names.get(entry.key.as_str()) {
            let had = mem::replace(&mut self.entries[index], entry);
            return Ok(Some(had));
        }
        if let Err(error) = claim_next(&mut self.entries, &mut self.names, &entry) {
            return Err(InsertError::for_entry(error, entry));
        }
        self.entries.push_reserved(entry);
        Ok(None)
    }

    /// Removes and returns the entry that the name `key` points to, and removes all names that point to it. The indices of
    /// the entries after it decrease by one. Does not allocate.
    pub fn remove(&mut self, key: &str) -> Option<Entry>
        ensures had { result ≡ entry_of self.old key.now }
        ensures removed { self.new ≡ without_entry_by_name self.old key.now }
    {
        let index = self.names.get(key)?;
        self.names.close_gap(index);
        Some(self.entries.remove(index))
    }

    /// Makes the name `alias` point to the entry that the name `key` points to. Does nothing if `key` points to no entry. If
    /// memory runs out, the bibliography stays unchanged.
    pub fn alias(&mut self, key: &str, alias: &str) -> Result<(), AllocError>
        ensures aliased { OnOk result (self.new ≡ with_alias self.old key.now alias.now) }
        ensures refused { OnErr result (self.new ≡ self.old) }
        ensures unknown { IsNone (index_of self.old key.now) → IsOk result }
    {
        let Some(index) = self.names.get(key) else {
            return Ok(());
        };
        let name = Text::from_str(*self.entries.allocator(), alias)?;
        self.names.claim(name, index)?;
        Ok(())
    }

    /// Returns an iterator over the entries in order.
    pub fn iter(&self) -> Iter<'_, Entry>
        ensures { iter_rest result ≡ self.now.entries }
    {
        self.entries.iter()
    }

    /// Returns an iterator over mutable references to the entries in order. Changes to the entries leave the names unchanged.
    pub fn iter_mut(&mut self) -> IterMut<'_, Entry>
        ensures* writes_back { sem 𝓛 (LendsEntries self.entry result) }
        ensures entries { iter_mut_rest result ≡ self.old.entries }
    {
        self.entries.iter_mut()
    }

    /// Returns an iterator over the key of each entry, in order.
    pub fn keys(&self) -> Keys<'_>
        ensures { keys_left result ≡ map (λ e. e.key) self.now.entries }
    {
        Keys {
            entries: self.entries.iter(),
        }
    }

    /// Returns the vector of the entries in order. Does not allocate.
    pub fn into_vec(self) -> Vec<Entry>
        ensures { result.items ≡ self.entries }
    {
        let Bibliography { entries, names: _ } = self;
        entries
    }
}

impl Clone for Bibliography {
    ghost is_clone = { λ bibliography copy. copy ≡ bibliography };

    fn clone(&self) -> Result<Self, AllocError> {
        let entries = self.entries.clone()?;
        let names = self.names.clone()?;
        Ok(Bibliography { entries, names })
    }
}

impl PartialEq for Bibliography {
    ghost eq = { same_bibliography };

    ghost laws = { same_bibliography_per };

    fn eq(&self, other: &Self) -> bool {
        self.entries == other.entries && self.names == other.names
    }
}

impl Eq for Bibliography {
    ghost laws = { same_bibliography_equiv };
}

/// An iterator over the keys of entries, in order.
#[derive(Debug, Drop)]
pub struct Keys<'a> {
    entries: Iter<'a, Entry>,
}

impl<'a> Iterator for Keys<'a> {
    type Item = &'a str;

    ghost next_gives = { YieldsFirstRef keys_left };

    ghost remaining = { item_count keys_left };

    fn next(&mut self) -> Option<&'a str> {
        let entry = self.entries.next()?;
        Some(entry.key.as_str())
    }
}

impl IntoIterator for Bibliography {
    type Item = Entry;

    type IntoIter = IntoIter<Entry>;

    ghost into_iter_gives = { λ bibliography it. into_iter_items it ≡ bibliography.entries };

    fn into_iter(self) -> Self::IntoIter {
        self.into_vec().into_iter()
    }
}

impl<'a> IntoIterator for &'a mut Bibliography {
    type Item = &'a mut Entry;

    type IntoIter = IterMut<'a, Entry>;

    ghost into_iter_gives = { λ bibliography it. iter_mut_rest it ≡ bibliography.now.entries };

    fn into_iter(self) -> Self::IntoIter
        ensures* writes_back { sem 𝓛 (LendsEntries self.entry result) }
        ensures into_iter_gives { iter_mut_rest result ≡ self.old.entries }
    {
        self.iter_mut()
    }
}

impl<'a> IntoIterator for &'a Bibliography {
    type Item = &'a Entry;

    type IntoIter = Iter<'a, Entry>;

    ghost into_iter_gives = { λ bibliography it. iter_rest it ≡ bibliography.now.entries };

    fn into_iter(self) -> Self::IntoIter {
        self.iter()
    }
}
