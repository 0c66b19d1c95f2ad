//! Where new vectors go.

ghost use Rattle.std.specs.Prelude.{◌≡◌, ◌^◌, ◌<◌, ◌≤◌, None, Some, IsOk, IfOk, OnOk, [], length, replicate, vec_capacity};
ghost use Rattle.fixed_vec.specs.Spending.{HasWords, Spends};
ghost use Rattle.fixed_vec.specs.Words.{FitsWords};

use crate::chunk::Chunk;
use crate::fixed::FixedVec;
use std::alloc::{AllocError, Allocator, Global};
use std::marker::Model;
use std::mem::replace;

/// Where new vectors go: the heap, or words that a caller lends.
#[derive(Drop)]
pub struct Store {
    alloc: Global,
    lent: Option<Chunk>,
}

impl Model for Store {
    ghost use Rattle.std.specs.Prelude.{ℕ, Option};
    ghost use Rattle.std.specs.Coded.{coded_option, coded_ℕ};
    ghost use Rattle.fixed_vec.specs.Inner.Left.{words_left};

    ghost Value = { Option ℕ };

    ghost coded = { coded_option coded_ℕ };

    ghost view = { λ s. words_left s.lent };
}

impl Store {
    /// Creates the store of the heap.
    pub fn heap(alloc: Global) -> Self
        ensures { result ≡ None }
    {
        Store { alloc, lent: None }
    }

    /// Creates a store of words that a caller lends.
    pub fn lent(alloc: Global, words: Chunk) -> Self
        ensures { result ≡ Some words.words }
    {
        Store {
            alloc,
            lent: Some(words),
        }
    }

    /// Makes a vector of equal values. `words` is how many lent words it takes.
    pub fn filled<T: Copy + Drop>(
        &mut self,
        value: T,
        count: usize,
        words: usize,
    ) -> Result<FixedVec<T>, AllocError>
        requires some { 0 < count → 0 < words }
        requires none { count ≡ 0 → words ≡ 0 }
        requires small { count < 2 ^ 63 }
        requires fits { FitsWords T.row count words }
        ensures items { IfOk result (λ v. v.items ≡ replicate count value) }
        ensures count { IfOk result (λ v. length v.items ≡ count) }
        ensures spends { OnOk result (Spends words self.old self.new) }
        ensures enough { HasWords words self.old → IsOk result }
    {
        if count == 0 {
            return Ok(FixedVec::on_heap(Vec::new(self.alloc)));
        }
        let Some(chunk) = replace(&mut self.lent, None) else {
            let values = Vec::with_capacity(self.alloc, count)?;
            return Ok(FixedVec::on_heap(repeated(values, value, count)?));
        };
        let (there, chunk) = chunk.measured();
        if there < words {
            self.lent = Some(chunk);
            return Err(AllocError);
        }
        let (first, rest) = chunk.split(words);
        self.lent = Some(rest);
        Ok(FixedVec::in_words(repeated(first.lodge(count), value, count)?))
    }
}

// Puts equal values into an empty vector.
fn repeated<T: Copy, A: Allocator>(
    mut values: Vec<T, A>,
    value: T,
    count: usize,
) -> Result<Vec<T, A>, AllocError>
    requires { values.items ≡ [] }
    ensures items { IfOk result (λ v. v.items ≡ replicate count value) }
    ensures enough { count ≤ vec_capacity values → IsOk result }
{
    values.resize(count, value)?;
    Ok(values)
}
