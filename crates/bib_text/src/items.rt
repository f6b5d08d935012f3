//! Owned lists: a `Vec` that contracts see as the list of its elements.

ghost use Rattle.std.specs.Prelude.{◌≡◌, ◌==◌, ◌<◌, ◌≤◌, ◌-◌, List, [], ◌∷◌, ◌++◌, length, take, is_ok, if◌then◌else◌, IfOk, IfErr, OnOk, OnErr, IsSome, ◌↔◌, option_to_list, slice_get, slice_index_or};
ghost use Rattle.std.specs.Fn.{CalledAt};
ghost use Rattle.std.specs.List.{AllZip, insert, remove};
ghost use Rattle.std.specs.List.Retain.{IsFiltered};
ghost use Rattle.std.specs.Option.{option_copied};
ghost use Rattle.std.specs.Vec.Iter.{into_iter_items};
ghost use Rattle.std.specs.Borrow.{sem};
ghost use Rattle.std.specs.Slice.Iter.{iter_rest, iter_mut_rest};
ghost use Rattle.std.specs.Cmp.Lexicographic.{pointwise, lists_per, lists_equiv};

use std::alloc::{AllocError, AllocFailed, Global};
use std::marker::Model;
use std::ops::Index;
use std::slice::{Iter, IterMut};
use std::vec::IntoIter;

/// A list of values. Contracts see it as the list of its elements.
#[derive(Debug, Drop)]
pub struct Items<T> {
    vec: Vec<T>,
}

impl<T> Model for Items<T> {
    ghost use Rattle.std.specs.Prelude.{List};
    ghost use Rattle.std.specs.Coded.{coded_list};

    ghost Value = { List T };

    ghost coded = { coded_list T.code };

    ghost view = { λ a. a.vec.items };
}

impl<T> Items<T> {
    ghost use Rattle.bib_text.specs.Lending.{LendsElements, LendsSlice};

    /// Returns an empty list. Doesn't allocate.
    pub fn new(alloc: Global) -> Self
        ensures { result ≡ [] }
    {
        Items {
            vec: Vec::new(alloc),
        }
    }

    /// Wraps `elements`. Doesn't allocate.
    pub fn from_vec(elements: Vec<T>) -> Self
        ensures { result ≡ elements.items }
    {
        Items { vec: elements }
    }

    /// Returns the wrapped vector. Doesn't allocate.
    pub fn into_vec(self) -> Vec<T>
        ensures { result.items ≡ self }
    {
        let Items { vec: list } = self;
        list
    }

    /// Returns the number of elements.
    pub fn len(&self) -> usize
        ensures { result ≡ length self.now }
    {
        self.vec.len()
    }

    /// Returns whether the list is empty.
    pub fn is_empty(&self) -> bool
        ensures { result ≡ (length self.now == 0) }
    {
        self.vec.is_empty()
    }

    /// Borrows the elements.
    pub fn as_slice(&self) -> &[T]
        ensures { result.now ≡ self.now }
    {
        self.vec.as_slice()
    }

    /// Borrows the elements mutably.
    pub fn as_mut_slice(&mut self) -> &mut [T]
        ensures* writes_back { sem 𝓛 (LendsSlice T.row self.entry result) }
        ensures value { result.now ≡ self.old }
    {
        self.vec.as_mut_slice()
    }

    /// Returns an iterator over the elements, in order.
    pub fn iter(&self) -> Iter<'_, T>
        ensures { iter_rest result ≡ self.now }
    {
        self.vec.iter()
    }

    /// Returns an iterator over mutable references to the elements, in order.
    pub fn iter_mut(&mut self) -> IterMut<'_, T>
        ensures* writes_back { sem 𝓛 (LendsElements T.row self.entry result) }
        ensures elements { iter_mut_rest result ≡ self.old }
    {
        self.vec.iter_mut()
    }

    /// Appends `value`. If out of memory, returns an error that contains `value`, and leaves the list unchanged.
    pub fn push(&mut self, value: T) -> Result<(), AllocFailed<T>>
        ensures items { self.new ≡ (if is_ok result then self.old ++ value ∷ [] else self.old) }
        ensures returned { IfErr result (λ e. e.value ≡ value) }
    {
        self.vec.push(value)
    }

    /// Removes the last element and returns it. Returns `None` if the list is empty.
    pub fn pop(&mut self) -> Option<T>
        ensures items { self.old ≡ self.new ++ option_to_list result }
        ensures found { IsSome result ↔ (0 < length self.old) }
    {
        self.vec.pop()
    }

    /// Returns the element at `index`, counted from 0, or `None` if there is none.
    pub fn get(&self, index: usize) -> Option<&T>
        ensures { option_copied result ≡ slice_get self.now index }
    {
        self.as_slice().get(index)
    }

    /// Returns the first element, or `None` if the list is empty.
    pub fn first(&self) -> Option<&T>
        ensures { option_copied result ≡ slice_get self.now 0 }
    {
        self.as_slice().first()
    }

    /// Returns the last element, or `None` if the list is empty.
    pub fn last(&self) -> Option<&T>
        ensures { option_copied result ≡ slice_get self.now (length self.now - 1) }
    {
        self.as_slice().last()
    }

    /// Inserts `value` before the element at `index`, or appends it if `index` is the number of elements. If out of
    /// memory, returns an error that contains `value`, and leaves the list unchanged.
    pub fn insert(&mut self, index: usize, value: T) -> Result<(), AllocFailed<T>>
        requires { index ≤ length self.old }
        ensures items { self.new ≡ (if is_ok result then insert self.old index value else self.old) }
        ensures returned { IfErr result (λ e. e.value ≡ value) }
    {
        self.vec.insert(index, value)
    }

    /// Removes the element at `index` and returns it. The index of each element after it decreases by one.
    pub fn remove(&mut self, index: usize) -> T
        requires { index < length self.old }
        ensures value { result ≡ slice_index_or self.old index result }
        ensures items { self.new ≡ remove self.old index }
    {
        self.vec.remove(index)
    }
}

impl<T: Drop> Items<T> {
    /// Drops all elements. Keeps the allocated memory.
    pub fn clear(&mut self)
        ensures { self.new ≡ [] }
    {
        self.vec.clear();
    }

    /// Keeps the first `count` elements, or all if there are fewer, and drops the others.
    pub fn truncate(&mut self, count: usize)
        ensures { self.new ≡ take count self.old }
    {
        self.vec.truncate(count);
    }

    /// Keeps the elements that `test` accepts and drops the others. Calls `test` for each element, in order.
    pub fn retain<F: FnMut(&T) -> bool>(&mut self, test: F)
        requires { F.IsAlwaysCallable test }
        ensures { IsFiltered (CalledAt F.FnMut) test self.old self.new }
    {
        self.vec.retain(test);
    }
}

// Returns clones of `elements`, in order. Returns an error if out of memory.
fn clones<T: Clone + Drop>(alloc: Global, elements: &[T]) -> Result<Vec<T>, AllocError>
    ensures { IfOk result (λ copies. AllZip T.is_clone elements.now copies.items) }
{
    let mut copies = Vec::with_capacity(alloc, elements.len())?;
    'elements: for element in elements {
        copies.push(element.clone()?)?;
    }
    Ok(copies)
}

impl<T: Clone + Drop> Items<T> {
    /// Appends clones of `elements`, in order. If out of memory, returns an error and leaves the list unchanged.
    pub fn extend_from_slice(&mut self, elements: &[T]) -> Result<(), AllocError>
        ensures appended { OnOk result ((copies : List T) × (self.new ≡ self.old ++ copies) ×
            AllZip T.is_clone elements.now copies) }
        ensures refused { OnErr result (self.new ≡ self.old) }
    {
        let mut copies = clones(*self.vec.allocator(), elements)?;
        self.vec.append(&mut copies)
    }
}

/// Returns the element at an index, which must be less than the number of elements.
impl<T> Index<usize> for Items<T> {
    type Output = T;

    ghost can_index = { λ items index. index < length items };

    ghost index_gives = { λ items index value. value ≡ slice_index_or items index value };

    fn index(&self, index: usize) -> &T {
        &self.vec[index]
    }
}

impl<T: Drop> IntoIterator for Items<T> {
    type Item = T;

    type IntoIter = IntoIter<T>;

    ghost into_iter_gives = { λ items it. into_iter_items it ≡ items };

    fn into_iter(self) -> Self::IntoIter {
        self.into_vec().into_iter()
    }
}

impl<T: Clone> Clone for Items<T> {
    ghost is_clone = { AllZip T.is_clone };

    fn clone(&self) -> Result<Self, AllocError> {
        let vec = self.vec.clone()?;
        Ok(Items { vec })
    }
}

impl<T: PartialEq> PartialEq for Items<T> {
    ghost eq = { pointwise T.eq };

    ghost laws = { lists_per T.laws };

    fn eq(&self, other: &Self) -> bool {
        self.vec == other.vec
    }
}

impl<T: Eq> Eq for Items<T> {
    ghost laws = { lists_equiv T.Eq.laws };
}

impl<'a, T> IntoIterator for &'a Items<T> {
    type Item = &'a T;

    type IntoIter = Iter<'a, T>;

    ghost into_iter_gives = { λ items it. iter_rest it ≡ items.now };

    fn into_iter(self) -> Self::IntoIter {
        self.iter()
    }
}

impl<'a, T> IntoIterator for &'a mut Items<T> {
    ghost use Rattle.bib_text.specs.Lending.{LendsElements};

    type Item = &'a mut T;

    type IntoIter = IterMut<'a, T>;

    ghost into_iter_gives = { λ items it. iter_mut_rest it ≡ items.now };

    fn into_iter(self) -> Self::IntoIter
        ensures* writes_back { sem 𝓛 (LendsElements T.row self.entry result) }
        ensures into_iter_gives { iter_mut_rest result ≡ self.old }
    {
        self.iter_mut()
    }
}
