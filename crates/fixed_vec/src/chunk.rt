//! Words of memory that a caller lends.

ghost use Rattle.std.specs.Prelude.{◌≡◌, ◌+◌, ◌^◌, ◌<◌, ◌≤◌, [], vec_capacity};
ghost use Rattle.fixed_vec.specs.Words.{FitsWords, chunk_owns};

use std::marker::Model;
use std_alloc::vec::{Lodged, lodge};

/// Words of 8 bytes that a caller lends. No value lies in them.
#[repr(C)]
#[derive(Drop)]
pub struct Chunk {
    /// The first word. It is anything if there are none.
    pub at: *mut u8,
    /// How many words there are.
    pub words: usize,
    ghost small: { words < 2 ^ 60 },
}

impl Model for Chunk {
    ghost also_owns = { λ c. chunk_owns c.at c.words };
}

impl Chunk {
    /// Returns how many words there are, and the chunk again.
    pub fn measured(self) -> (usize, Chunk)
        ensures words { result.0 ≡ self.words }
        ensures chunk { result.1 ≡ self }
    {
        let Chunk { at, words } = self;
        (words, Chunk { at, words })
    }

    /// Cuts the first words off. Returns them, and the words after them.
    pub fn split(self, words: usize) -> (Chunk, Chunk)
        requires some { 0 < words }
        requires inside { words ≤ self.words }
        ensures first { result.0.words ≡ words }
        ensures rest { words + result.1.words ≡ self.words }
    {
        let Chunk { at, words: all } = self;
        let rest = unsafe { at.add(8 * words) };
        (
            Chunk { at, words },
            Chunk {
                at: rest,
                words: all - words,
            },
        )
    }

    /// Makes an empty vector with room for this many values of the words.
    pub fn lodge<T>(self, count: usize) -> Vec<T, Lodged>
        requires some { 0 < count }
        requires small { count < 2 ^ 63 }
        requires words { 0 < self.words }
        requires fits { FitsWords T.row count self.words }
        ensures items { result.items ≡ [] }
        ensures capacity { vec_capacity result ≡ count }
    {
        let Chunk { at, words: _ } = self;
        unsafe { lodge(at as *mut T, 0, count) }
    }
}
