//! Where the values of a vector lie.

ghost use Rattle.std.specs.Prelude.{◌≡◌};
ghost use Rattle.std.specs.Borrow.{sem};

use std_alloc::vec::Lodged;

/// The heap, or words that a caller lent.
#[derive(Drop)]
pub(crate) enum Home<T> {
    Heap(Vec<T>),
    Words(Vec<T, Lodged>),
}

impl<T> Home<T> {
    ghost use Rattle.fixed_vec.specs.Inner.Home.{items_at};
    ghost use Rattle.fixed_vec.specs.Inner.HomeLends.{home_lends_slice};

    #[inline]
    pub(crate) fn as_mut_slice(&mut self) -> &mut [T]
        ensures* writes_back { sem 𝓛 (home_lends_slice T.row self.entry result) }
        ensures value { result.now ≡ items_at self.old }
    {
        match self {
            Home::Heap(heap) => heap.as_mut_slice(),
            Home::Words(words) => words.as_mut_slice(),
        }
    }
}
