//! Maps with texts as keys, which are called names here.

ghost use Rattle.std.specs.Prelude.{◌≡◌, ◌==◌, ◌++◌, OnOk, OnErr, IfOk, IfErr, IsSome, IsOk, reverse};
ghost use Rattle.std.specs.Option.{option_copied, option_copied_mut};
ghost use Rattle.std.specs.Borrow.{sem};
ghost use Rattle.std.specs.FinMap as map;
ghost use Rattle.std.specs.Map.Calls.{CalledAtPair, RetainsPairs};
ghost use Rattle.std.specs.Slice.Iter.{iter_rest};
ghost use Rattle.std.specs.Iterator.{YieldsFirstRef, item_count};
ghost use Rattle.std.specs.Vec.Iter.{into_iter_items};
ghost use Rattle.bib_collections.specs.TextMapIterators.{names_left, values_left};
ghost use Rattle.bib_collections.specs.TextMapLending.{LendsValue};
ghost use Rattle.bib_collections.specs.TextMap.{AreClones, same_pairs, same_pairs_per, same_pairs_equiv};

use crate::sorted::{find_binary, find_linear, sort_by_name};
use bib_text::text::Text;
use std::alloc::{AllocError, AllocFailed, Global};
use std::marker::Model;
use std::mem;
use std::slice::Iter;
use std::vec::IntoIter;

// Up to this number, comparing the names one by one is faster than a binary search: most differ in length.
const FEW: usize = 16;

/// A map from names to values. Contracts see it as a finite map from the bytes of names, sorted by these bytes.
#[derive(Debug, Drop)]
pub struct TextMap<V> {
    pairs: Vec<(Text, V)>,
}

impl<V> Model for TextMap<V> {
    ghost use Rattle.std.specs.FinMap as map;
    ghost use Rattle.std.specs.Coded.{coded_list, coded_ℕ};
    ghost use Rattle.bib_collections.specs.Sorted.{ByText, IsSorted, map_of};

    ghost Value = { ByText V };

    ghost coded = { map.code (coded_list coded_ℕ) V.code };

    ghost view = { λ a. map_of a.pairs.items };

    ghost invariant = { λ a. IsSorted a.pairs.items };
}

impl<V> TextMap<V> {
    /// Returns an empty map. Doesn't allocate.
    pub fn new(alloc: Global) -> Self
        ensures { result ≡ map.empty }
    {
        TextMap {
            pairs: Vec::new(alloc),
        }
    }

    /// Returns the pairs of a name and its value, sorted by the bytes of the names. Doesn't allocate.
    pub fn into_pairs(self) -> Vec<(Text, V)>
        ensures { result.items ≡ map.entries self }
    {
        let TextMap { pairs } = self;
        pairs
    }

    /// Returns the allocator of the map. There is only one value of the type `Global`.
    pub fn allocator(&self) -> Global
        ensures { (one : Global) → result ≡ one }
    {
        *self.pairs.allocator()
    }

    /// Returns the number of names.
    pub fn len(&self) -> usize
        ensures { result ≡ map.len self.now }
    {
        self.pairs.len()
    }

    /// Returns whether the map is empty.
    pub fn is_empty(&self) -> bool
        ensures { result ≡ (map.len self.now == 0) }
    {
        self.pairs.is_empty()
    }

    /// Returns the value of `name`, or `None` if the map lacks it. Does a binary search if the map has more than 16 names.
    pub fn get(&self, name: &str) -> Option<&V>
        ensures { option_copied result ≡ map.get self.now name.now }
    {
        if self.pairs.len() <= FEW {
            return find_linear(self.pairs.as_slice(), name);
        }
        match find_binary(self.pairs.as_slice(), name) {
            Ok(index) => Some(&self.pairs[index].1),
            Err(_) => None,
        }
    }

    /// Returns whether the map has `name`.
    pub fn contains_key(&self, name: &str) -> bool
        ensures { result ≡ map.contains_key self.now name.now }
    {
        self.get(name).is_some()
    }

    /// Returns an iterator over the names, sorted by their bytes.
    pub fn keys(&self) -> Keys<'_, V>
        ensures { names_left result ≡ map.keys self.now }
    {
        Keys { pairs: self.iter() }
    }

    /// Returns an iterator over the values, sorted by the bytes of their names.
    pub fn values(&self) -> Values<'_, V>
        ensures { values_left result ≡ map.values self.now }
    {
        Values { pairs: self.iter() }
    }

    /// Returns a mutable reference to the value of `name`, or `None` if the map lacks it.
    pub fn get_mut(&mut self, name: &str) -> Option<&mut V>
        ensures* writes_back { sem 𝓛 (LendsValue V.row self.entry name.now result) }
        ensures value { option_copied_mut result ≡ map.get self.old name.now }
    {
        match find_binary(self.pairs.as_slice(), name) {
            Ok(index) => Some(&mut self.pairs[index].1),
            Err(_) => None,
        }
    }

    /// Returns an iterator over the pairs of a name and its value, sorted by the bytes of the names.
    pub fn iter(&self) -> Iter<'_, (Text, V)>
        ensures { iter_rest result ≡ map.entries self.now }
    {
        self.pairs.iter()
    }

    /// Sets the value of `name` and returns its old value, or `None` if the map lacked it. If out of memory, returns an
    /// error that contains both arguments, and leaves the map unchanged. Can't fail if the map has `name`.
    pub fn insert(&mut self, name: Text, value: V) -> Result<Option<V>, AllocFailed<(Text, V)>>
        ensures had { IfOk result (λ had. had ≡ map.get self.old name) }
        ensures inserted { OnOk result (self.new ≡ map.insert self.old name value) }
        ensures refused { OnErr result (self.new ≡ self.old) }
        ensures returned { IfErr result (λ e. e.value ≡ (name, value)) }
        ensures present { IsSome (map.get self.old name) → IsOk result }
    {
        match find_binary(self.pairs.as_slice(), name.as_str()) {
            Ok(index) => Ok(Some(mem::replace(&mut self.pairs[index].1, value))),
            Err(index) => {
                self.pairs.insert(index, (name, value))?;
                Ok(None)
            }
        }
    }

    /// Removes `name` and returns its value, or `None` if the map lacks it. Doesn't allocate.
    pub fn remove(&mut self, name: &str) -> Option<V>
        ensures had { result ≡ map.get self.old name.now }
        ensures removed { self.new ≡ map.remove self.old name.now }
    {
        // The map lacks most names that are removed, and `get` finds that out faster in a small map.
        self.get(name)?;
        match find_binary(self.pairs.as_slice(), name) {
            Ok(index) => {
                let (_, value) = self.pairs.remove(index);
                Some(value)
            }
            Err(_) => None,
        }
    }

    /// Frees the unused capacity of the map. Keeps it if that isn't possible.
    pub fn shrink_to_fit(&mut self)
        ensures { self.new ≡ self.old }
    {
        self.pairs.shrink_to_fit();
    }
}

impl<V: Drop> TextMap<V> {
    /// Returns a map of `pairs`. If a name occurs more than once, the map has its last value. Sorts once. Returns an error
    /// if out of memory.
    pub fn from_pairs(pairs: Vec<(Text, V)>) -> Result<Self, AllocError>
        ensures { IfOk result (λ m. m ≡ map.from_entries (reverse pairs.items)) }
    {
        let pairs = sort_by_name(pairs)?;
        Ok(TextMap { pairs })
    }

    /// Keeps the pairs that `test` accepts and drops the others. Calls `test` for each pair, sorted by the bytes of the
    /// names. `test` may change the value. Doesn't allocate.
    pub fn retain<F: FnMut(&str, &mut V) -> bool>(&mut self, mut test: F)
        requires { F.IsAlwaysCallable test }
        ensures { RetainsPairs (CalledAtPair F.FnMut) test (map.entries self.old) (map.entries self.new) }
    {
        self.pairs.retain_mut(
            |pair: &mut (Text, V)| -> bool
                requires { F.IsAlwaysCallable test }
                ensures callable { F.IsAlwaysCallable test.exit }
                ensures called { CalledAtPair F.FnMut test.entry pair.old.0 pair.old.1 result pair.new.1 test.exit }
                ensures name { pair.new.0 ≡ pair.old.0 }
            { test(pair.0.as_str(), &mut pair.1) },
        );
    }
}

/// Inserts pairs one after another. If out of memory, returns an error, and the pairs before stay inserted. For many pairs,
/// `from_pairs` is faster.
impl<V: Drop> Extend<(Text, V)> for TextMap<V> {
    ghost extend_gives = { λ m pairs n. n ≡ map.from_entries (reverse pairs ++ map.entries m) };

    fn extend<U: IntoIterator<Item = (Text, V)>>(&mut self, iter: U) -> Result<(), AllocError> {
        'pairs: for (name, value) in iter {
            self.insert(name, value)?;
        }
        Ok(())
    }
}

/// Returns a map of the pairs of an iterator. If a name occurs more than once, the map has its last value. Sorts once.
impl<V: Drop> FromIterator<(Text, V)> for TextMap<V> {
    type Alloc = Global;

    ghost from_iter_gives = { λ pairs m. m ≡ map.from_entries (reverse pairs) };

    fn from_iter<U: IntoIterator<Item = (Text, V)>>(
        alloc: Global,
        iter: U,
    ) -> Result<TextMap<V>, AllocError> {
        TextMap::from_pairs(Vec::from_iter(alloc, iter)?)
    }
}

impl<V: Drop> IntoIterator for TextMap<V> {
    type Item = (Text, V);

    type IntoIter = IntoIter<(Text, V)>;

    ghost into_iter_gives = { λ m it. into_iter_items it ≡ map.entries m };

    fn into_iter(self) -> Self::IntoIter {
        self.into_pairs().into_iter()
    }
}

/// An iterator over the names of a map, sorted by their bytes.
#[derive(Debug, Drop)]
pub struct Keys<'a, V> {
    pairs: Iter<'a, (Text, V)>,
}

impl<'a, V> Iterator for Keys<'a, V> {
    type Item = &'a str;

    ghost next_gives = { YieldsFirstRef names_left };

    ghost remaining = { item_count names_left };

    fn next(&mut self) -> Option<&'a str> {
        let pair = self.pairs.next()?;
        Some(pair.0.as_str())
    }
}

/// An iterator over the values of a map, sorted by the bytes of their names.
#[derive(Debug, Drop)]
pub struct Values<'a, V> {
    pairs: Iter<'a, (Text, V)>,
}

impl<'a, V> Iterator for Values<'a, V> {
    type Item = &'a V;

    ghost next_gives = { YieldsFirstRef values_left };

    ghost remaining = { item_count values_left };

    fn next(&mut self) -> Option<&'a V> {
        let pair = self.pairs.next()?;
        Some(&pair.1)
    }
}

impl<'a, V> IntoIterator for &'a TextMap<V> {
    type Item = &'a (Text, V);

    type IntoIter = Iter<'a, (Text, V)>;

    ghost into_iter_gives = { λ m it. iter_rest it ≡ map.entries m.now };

    fn into_iter(self) -> Self::IntoIter {
        self.iter()
    }
}

impl<V: Clone> Clone for TextMap<V> {
    ghost is_clone = { λ m copy. AreClones V.is_clone m copy };

    fn clone(&self) -> Result<Self, AllocError> {
        let pairs = self.pairs.clone()?;
        Ok(TextMap { pairs })
    }
}

impl<V: PartialEq> PartialEq for TextMap<V> {
    ghost eq = { λ m n. same_pairs V.eq m n };

    ghost laws = { same_pairs_per V.laws };

    fn eq(&self, other: &Self) -> bool {
        self.pairs == other.pairs
    }
}

impl<V: Eq> Eq for TextMap<V> {
    ghost laws = { same_pairs_equiv V.Eq.laws };
}
