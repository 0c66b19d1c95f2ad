//! A machine as a value.

ghost use Rattle.std.specs.Prelude.{◌≡◌, ℕ, ◌+◌, ◌-◌, ◌^◌, ◌<◌, ◌≤◌, ◌↔◌, Some, None, IsOk, IsTrue, IfErr, IfOk, IfSome, IfNone, OnOk, OnErr};
ghost use Rattle.cube_shape.specs.declared.region.Region.{Region as HeldRegion};
ghost use Rattle.cube_shape.specs.Region.{Covers, IsAligned, block};
ghost use Rattle.cube_shape.specs.Node.{IsNodeOf};
ghost use Rattle.cube_shape.specs.Falling.{HoldsNoNarrower, IsFull, IsHeld};
ghost use Rattle.cube_shape.specs.Machine.{Gives, HasNoFit, IsFirstFit, IsFree, IsLawful, TakesBack};
ghost use Rattle.alloc_bits.specs.Count.{IsCount};
ghost use Rattle.fixed_vec.specs.Spending.{HasWords, Spends};
ghost use Rattle.fit_tree.specs.FirstApart.{HasNoneApart, IsFirstApart};
ghost use Rattle.fit_tree.specs.Fit.{HoldsBlock, fit_words, held_in};
ghost use Rattle.fit_tree.specs.Parts.{HasFitIn, IsHalfOf};
ghost use Rattle.fit_tree.specs.Halves.{HoldsHalves, Joins, Splits};

use crate::errors::{JoinError, NoFitError, NotFreeError, NotHeldError, SplitError};
use crate::head::{COUNT_PLACES, Head};
use crate::image;
use cube_shape::{MAX_BITMAP_DIM, Region};
use fixed_vec::{FixedVec, Store};
use std::alloc::{AllocError, Global};
use std::marker::Model;

/// A machine for one thread: which aligned blocks are held.
///
/// Only `new` and `new_in` take memory, `2^(n + 1)` bytes. Each other call takes at most about
/// `2 * n` steps.
#[derive(Debug, Drop)]
pub struct FitTree {
    dim: u32,
    head: Head,
    rooms: FixedVec<u8>,
}

impl Model for FitTree {
    ghost use Rattle.fit_tree.specs.Fit.{Fit};
    ghost use Rattle.fit_tree.specs.Image.{IsImage, fit_in};
    ghost use Rattle.fit_tree.specs.InnerFit.{fit_code};

    ghost Value = { Fit };

    ghost coded = { fit_code };

    ghost view = { λ a. fit_in a.dim a.rooms.items };

    ghost invariant = { λ a. IsImage a.dim a.head a.rooms.items };
}

impl FitTree {
    /// Creates a machine of dimension `n` in which nothing is held.
    pub fn new(alloc: Global, n: u32) -> Result<Self, AllocError>
        requires { n ≤ MAX_BITMAP_DIM }
        ensures dim { IfOk result (λ made. made.dim ≡ n) }
        ensures free { IfOk result (λ made. (s : ℕ) → held_in made s ≡ None) }
    {
        FitTree::new_in(&mut Store::heap(alloc), n)
    }

    /// Creates such a machine in memory of a store.
    pub fn new_in(store: &mut Store, n: u32) -> Result<Self, AllocError>
        requires { n ≤ MAX_BITMAP_DIM }
        ensures dim { IfOk result (λ made. made.dim ≡ n) }
        ensures free { IfOk result (λ made. (s : ℕ) → held_in made s ≡ None) }
        ensures spends { OnOk result (Spends (fit_words n) store.old store.new) }
        ensures enough { HasWords (fit_words n) store.old → IsOk result }
    {
        let mut rooms = store.filled(0u8, 2 << n, (1 << n) / 4 + 1)?;
        let mut head = Head {
            mark: 0,
            dim: n,
            maximal: [0; COUNT_PLACES],
            unused: 0,
        };
        image::open(&mut head, &mut rooms, n);
        Ok(FitTree {
            dim: n,
            head,
            rooms,
        })
    }

    /// Returns the dimension of the machine.
    pub fn dim(&self) -> u32
        ensures dim { result ≡ self.now.dim }
        ensures lawful { IsLawful self.now.dim (held_in self.now) }
        ensures limit { result ≤ MAX_BITMAP_DIM }
    {
        self.dim
    }

    /// Returns whether a block overlaps no held block.
    pub fn is_free(&self, region: Region) -> bool
        requires { IsAligned self.now.dim region }
        ensures { IsTrue result ↔ IsFree (held_in self.now) region }
    {
        image::is_free(&self.rooms, self.dim, region)
    }

    /// Returns whether a half of a block has a free block of dimension `k`. The half is that of a
    /// node. It is right only if the block has one, and takes one step.
    pub fn has_fit_at(&self, k: u32, node: usize) -> bool
        requires dim { k ≤ self.now.dim }
        requires node { node < 2 ^ (self.now.dim + 1) }
        ensures { (whole half : HeldRegion) → IsNodeOf self.now.dim node half → k ≤ half.dim
            → IsAligned self.now.dim whole → IsHalfOf whole half
            → HasFitIn self.now.dim k (held_in self.now) whole
            → IsTrue result ↔ HasFitIn self.now.dim k (held_in self.now) half }
    {
        image::has_fit_at(&self.rooms, self.dim, k, node)
    }

    /// Returns whether a block is held as one block.
    pub fn is_held(&self, region: Region) -> bool
        requires { IsAligned self.now.dim region }
        ensures { IsTrue result ↔ HoldsBlock self.now region }
    {
        image::is_held(&self.rooms, self.dim, region)
    }

    /// Returns the largest dimension of a free block, or `None` if all processors are held.
    pub fn largest_free(&self) -> Option<u32>
        ensures dim { IfSome result (λ k. k ≤ self.now.dim) }
        ensures fits { IfSome result (λ k. HasNoFit self.now.dim k (held_in self.now) → ⊥) }
        ensures larger { IfSome result (λ k. (j : ℕ) → k < j → j ≤ self.now.dim
            → HasNoFit self.now.dim j (held_in self.now)) }
        ensures none { IfNone result ((k : ℕ) → k ≤ self.now.dim
            → HasNoFit self.now.dim k (held_in self.now)) }
    {
        image::largest_free(&self.rooms, self.dim)
    }

    /// Returns the number of free blocks of dimension `k`, those within larger free blocks too.
    pub fn free_blocks(&self, k: u32) -> u32
        requires { k ≤ self.now.dim }
        ensures { IsCount (λ m. IsFree (held_in self.now) (block k m)) (2 ^ (self.now.dim - k))
            result }
    {
        image::free_blocks(&self.head, self.dim, k)
    }

    /// Returns the number of processors in held blocks.
    pub fn held_processors(&self) -> u32
        ensures { IsCount (IsHeld (held_in self.now)) (2 ^ self.now.dim) result }
    {
        image::held_processors(&self.head, self.dim)
    }

    /// Returns the held block that has a processor, if there is one.
    pub fn block_with(&self, processor: u64) -> Option<Region>
        requires { processor < 2 ^ self.now.dim }
        ensures covers { IfSome result (λ r. Covers r processor) }
        ensures held { IfSome result (λ r. HoldsBlock self.now r) }
        ensures free { IfNone result ((s : ℕ) (a : HeldRegion) → held_in self.now s ≡ Some a
            → Covers a processor → ⊥) }
    {
        image::block_with(&self.rooms, self.dim, processor)
    }

    /// Returns the first fit of dimension `k`, and takes nothing: block `(m, k)` for the least `m`
    /// such that it overlaps no held block.
    ///
    /// Returns `None` only if there is no such `m`.
    pub fn first(&self, k: u32) -> Option<Region>
        requires { k ≤ self.now.dim }
        ensures aligned { IfSome result (λ r. IsAligned self.now.dim r) }
        ensures first { IfSome result (λ r. (m : ℕ) × (r ≡ block k m)
            × IsFirstFit self.now.dim k (held_in self.now) m) }
        ensures none { IfNone result (HasNoFit self.now.dim k (held_in self.now)) }
    {
        image::first(&self.rooms, self.dim, k)
    }

    /// Returns the first fit apart from a block that is to be avoided, and takes nothing. This is
    /// block `(m, k)` for the least `m` such that it overlaps neither this block nor a held one.
    ///
    /// Returns `None` only if there is no such `m`.
    pub fn first_apart(&self, k: u32, avoid: Region) -> Option<Region>
        requires dim { k ≤ self.now.dim }
        requires avoid { IsAligned self.now.dim avoid }
        ensures aligned { IfSome result (λ r. IsAligned self.now.dim r) }
        ensures first { IfSome result (λ r. (m : ℕ) × (r ≡ block k m)
            × IsFirstApart self.now.dim k (held_in self.now) avoid m) }
        ensures none { IfNone result (HasNoneApart self.now.dim k (held_in self.now) avoid) }
    {
        image::first_apart(&self.rooms, self.dim, k, avoid)
    }

    /// Returns the largest dimension of a free block apart from one that is to be avoided, or
    /// `None` if there is none.
    pub fn largest_apart(&self, avoid: Region) -> Option<u32>
        requires avoid { IsAligned self.now.dim avoid }
        ensures dim { IfSome result (λ k. k ≤ self.now.dim) }
        ensures fits { IfSome result (λ k.
            HasNoneApart self.now.dim k (held_in self.now) avoid → ⊥) }
        ensures larger { IfSome result (λ k. (j : ℕ) → k < j → j ≤ self.now.dim
            → HasNoneApart self.now.dim j (held_in self.now) avoid) }
        ensures none { IfNone result ((k : ℕ) → k ≤ self.now.dim
            → HasNoneApart self.now.dim k (held_in self.now) avoid) }
    {
        image::largest_apart(&self.rooms, self.dim, avoid)
    }

    /// Takes the first fit: block `(m, k)` for the least `m` such that it overlaps no held block.
    ///
    /// Returns `NoFitError` only if there is no such `m`; then nothing changes. If no held block is
    /// narrower, all processors are held then.
    pub fn take(&mut self, k: u32) -> Result<Region, NoFitError>
        requires { k ≤ self.old.dim }
        ensures first { IfOk result (λ r. (m : ℕ) × (r ≡ block k m)
            × IsFirstFit self.old.dim k (held_in self.old) m) }
        ensures given { IfOk result (λ r.
            Gives self.old.dim r.base k (held_in self.old) (held_in self.new) r) }
        ensures refused { OnErr result (HasNoFit self.old.dim k (held_in self.old)) }
        ensures full { OnErr result (HoldsNoNarrower k (held_in self.old)
            → IsFull self.old.dim (held_in self.old)) }
        ensures unchanged { OnErr result (self.new ≡ self.old) }
        ensures dim_stays { self.new.dim ≡ self.old.dim }
    {
        let Some(region) = image::take(&mut self.head, &mut self.rooms, self.dim, k) else {
            return Err(NoFitError);
        };
        Ok(region)
    }

    /// Takes this block.
    ///
    /// Returns `NotFreeError` only if it overlaps a held block; then nothing changes.
    pub fn take_at(&mut self, region: Region) -> Result<(), NotFreeError>
        requires { IsAligned self.old.dim region }
        ensures given { OnOk result (Gives self.old.dim region.base region.dim
            (held_in self.old) (held_in self.new) region) }
        ensures refused { OnErr result (IsFree (held_in self.old) region → ⊥) }
        ensures unchanged { OnErr result (self.new ≡ self.old) }
        ensures dim_stays { self.new.dim ≡ self.old.dim }
    {
        if !image::take_at(&mut self.head, &mut self.rooms, self.dim, region) {
            return Err(NotFreeError);
        }
        Ok(())
    }

    /// Releases this block, which was taken as one block.
    ///
    /// Returns `NotHeldError` only if it is not held; then nothing changes. No part of a held block
    /// is held, nor are two held blocks together.
    pub fn release(&mut self, region: Region) -> Result<(), NotHeldError>
        ensures released { OnOk result (TakesBack region.base (held_in self.old)
            (held_in self.new) region) }
        ensures refused { OnErr result (HoldsBlock self.old region → ⊥) }
        ensures unchanged { OnErr result (self.new ≡ self.old) }
        ensures dim_stays { self.new.dim ≡ self.old.dim }
    {
        if !image::is_aligned(self.dim, region) {
            return Err(NotHeldError);
        }
        if !image::release(&mut self.head, &mut self.rooms, self.dim, region) {
            return Err(NotHeldError);
        }
        Ok(())
    }

    /// Replaces this held block by its two halves, which are both held then.
    ///
    /// Returns `OneProcessor` for a block of one processor, and `NotHeld` only if the block is not
    /// held. Then nothing changes.
    pub fn split(&mut self, region: Region) -> Result<(), SplitError>
        ensures split { OnOk result (Splits (held_in self.old) (held_in self.new) region) }
        ensures not_held { IfErr result (λ error. error ≡ SplitError.NotHeld
            → HoldsBlock self.old region → ⊥) }
        ensures one_processor { IfErr result (λ error. error ≡ SplitError.OneProcessor
            → region.dim ≡ 0) }
        ensures more { OnOk result (0 < region.dim) }
        ensures unchanged { OnErr result (self.new ≡ self.old) }
        ensures dim_stays { self.new.dim ≡ self.old.dim }
    {
        if !image::is_aligned(self.dim, region) {
            return Err(SplitError::NotHeld);
        }
        image::split(&mut self.head, &mut self.rooms, self.dim, region)
    }

    /// Replaces the two halves of a block, which are both held, by the block.
    ///
    /// Returns `OneProcessor` for a block of one processor, and `NotHeld` only if a half is not
    /// held, or the block is not aligned. Then nothing changes.
    pub fn join(&mut self, region: Region) -> Result<(), JoinError>
        ensures joined { OnOk result (Joins (held_in self.old) (held_in self.new) region) }
        ensures not_held { IfErr result (λ error. error ≡ JoinError.NotHeld
            → IsAligned self.old.dim region → HoldsHalves (held_in self.old) region → ⊥) }
        ensures one_processor { IfErr result (λ error. error ≡ JoinError.OneProcessor
            → region.dim ≡ 0) }
        ensures more { OnOk result (0 < region.dim) }
        ensures unchanged { OnErr result (self.new ≡ self.old) }
        ensures dim_stays { self.new.dim ≡ self.old.dim }
    {
        if !image::is_aligned(self.dim, region) {
            return Err(JoinError::NotHeld);
        }
        image::join(&mut self.head, &mut self.rooms, self.dim, region)
    }
}
