//! A vector of a fixed length.

ghost use Rattle.std.specs.Prelude.{◌≡◌, length};
ghost use Rattle.std.specs.Borrow.{sem};

use crate::home::Home;
use std::fmt;
use std::marker::Model;
use std::ops::{DerefSlice, DerefSliceMut};
use std_alloc::vec::Lodged;

/// A vector of a fixed length, on the heap or in words that a caller lent.
///
/// A drop frees memory of the heap, and leaves lent words to their owner.
#[derive(Drop)]
pub struct FixedVec<T> {
    home: Home<T>,
}

impl<T> Model for FixedVec<T> {
    ghost use Rattle.fixed_vec.specs.Fixed.{Fixed, fixed_code};
    ghost use Rattle.fixed_vec.specs.Inner.Home.{items_at};

    ghost Value = { Fixed T };

    ghost coded = { fixed_code T.code };

    ghost view = { λ v. record { items = items_at v.home } };
}

impl<T> FixedVec<T> {
    ghost use Rattle.fixed_vec.specs.Lends.{lends_slice};

    // Makes a vector on the heap.
    pub(crate) fn on_heap(values: Vec<T>) -> Self
        ensures { result.items ≡ values.items }
    {
        FixedVec {
            home: Home::Heap(values),
        }
    }

    // Makes a vector in lent words.
    pub(crate) fn in_words(values: Vec<T, Lodged>) -> Self
        ensures { result.items ≡ values.items }
    {
        FixedVec {
            home: Home::Words(values),
        }
    }

    /// Returns how many values there are.
    pub fn len(&self) -> usize
        ensures { result ≡ length self.now.items }
    {
        self.as_slice().len()
    }

    /// Returns the values.
    #[inline]
    pub fn as_slice(&self) -> &[T]
        ensures { result.now ≡ self.now.items }
    {
        match &self.home {
            Home::Heap(heap) => heap.as_slice(),
            Home::Words(words) => words.as_slice(),
        }
    }

    /// Returns the values, for writing.
    #[inline]
    pub fn as_mut_slice(&mut self) -> &mut [T]
        ensures* writes_back { sem 𝓛 (lends_slice T.row self.entry result) }
        ensures value { result.now ≡ self.old.items }
    {
        self.home.as_mut_slice()
    }
}

impl<T> DerefSlice for FixedVec<T> {
    type Elem = T;

    ghost deref_gives = { λ v xs. xs ≡ v.items };

    #[inline]
    fn deref(&self) -> &[T]
        ensures value { result.now ≡ self.now.items }
    {
        self.as_slice()
    }
}

impl<T> DerefSliceMut for FixedVec<T> {
    ghost use Rattle.fixed_vec.specs.Lends.{lends_slice};

    #[inline]
    fn deref_mut(&mut self) -> &mut [T]
        ensures* writes_back { sem 𝓛 (lends_slice T.row self.entry result) }
        ensures value { result.now ≡ self.old.items }
    {
        self.as_mut_slice()
    }
}

impl<T: fmt::Debug> fmt::Debug for FixedVec<T> {
    fn fmt<W: fmt::Write>(&self, f: &mut fmt::Formatter<W>) -> fmt::Result {
        self.as_slice().fmt(f)
    }
}
