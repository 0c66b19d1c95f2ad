ghost use Rattle.std.specs.Prelude.{◌≡◌, ◌≢◌, ℕ, ◌<◌, ◌≤◌, ◌↔◌, Some, None, IsTrue, IsSome, IfOk, IfSome, IfNone, OnErr};
ghost use Rattle.std.specs.FinMap as map;
ghost use Rattle.cube_shape.specs.declared.region.Region.{Region as HeldRegion};
ghost use Rattle.cube_shape.specs.Region.{Covers, block};
ghost use Rattle.cube_shape.specs.Machine.{Gives, HasNoFit, IsFirstFit, IsLawful, TakesBack};
ghost use Rattle.alloc_bits.specs.Allocation.{held_in};

use crate::regions::{clear_region, first_fit, set_region};
use crate::slots;
use cube_shape::{MAX_DIM, MAX_STATIONS, Region};
use std::alloc::{AllocError, Global};
use std::marker::Model;
use thiserror::Error;

/// No aligned block of this dimension is free: each overlaps a held block.
#[derive(Clone, Copy, Debug, PartialEq, Eq, Error)]
#[error("no free subcube of this dimension")]
pub struct NoSubcube;

/// The station holds no block.
#[derive(Clone, Copy, Debug, PartialEq, Eq, Error)]
#[error("the station holds nothing")]
pub struct NothingHeld;

/// A machine for one thread: which station holds which aligned block.
///
/// A station is a number below `MAX_STATIONS` and holds at most one block. Only `new` allocates
/// memory.
#[derive(Debug, Drop)]
pub struct AllocBits {
    dim: u32,
    bits: Vec<bool>,
    slots: Vec<Option<Region>>,
}

impl Model for AllocBits {
    ghost use Rattle.alloc_bits.specs.Allocation.{Allocation};
    ghost use Rattle.alloc_bits.specs.Inner.{IsConsistent, allocation_code, pairs_of};

    ghost Value = { Allocation };

    ghost coded = { allocation_code };

    ghost view = { λ a. record { dim = a.dim; pairs = pairs_of a.slots.items } };

    ghost invariant = { λ a. IsConsistent a.dim a.slots.items a.bits.items };
}

impl AllocBits {
    /// Creates a machine of dimension `n` whose stations hold nothing.
    pub fn new(alloc: Global, n: u32) -> Result<Self, AllocError>
        requires { n ≤ MAX_DIM }
        ensures dim { IfOk result (λ made. made.dim ≡ n) }
        ensures free { IfOk result (λ made. (s : ℕ) → held_in made s ≡ None) }
    {
        Ok(AllocBits {
            dim: n,
            bits: vec![in alloc; false; 1 << n]?,
            slots: vec![in alloc; None; MAX_STATIONS as usize]?,
        })
    }

    /// Returns the dimension of the machine.
    pub fn dim(&self) -> u32
        ensures { result ≡ self.now.dim }
    {
        self.dim
    }

    /// Returns whether a station holds a block.
    pub fn holds(&self, station: u32) -> bool
        ensures held { IsTrue result ↔ IsSome (held_in self.now station) }
        ensures lawful { IsLawful self.now.dim (held_in self.now) }
    {
        slots::region_of(&self.slots, station).is_some()
    }

    /// Returns the block that a station holds, if it holds one.
    pub fn region(&self, station: u32) -> Option<Region>
        ensures { result ≡ held_in self.now station }
    {
        slots::region_of(&self.slots, station)
    }

    /// Returns the station whose block has the processor, if there is one.
    ///
    /// A number that is no processor of the machine is in no block.
    pub fn holder(&self, processor: u64) -> Option<u32>
        ensures held { IfSome result (λ s. (a : HeldRegion) × (held_in self.now s ≡ Some a)
            × Covers a processor) }
        ensures free { IfNone result ((s : ℕ) (a : HeldRegion) → held_in self.now s ≡ Some a
            → Covers a processor → ⊥) }
    {
        slots::holder_of(&self.slots, processor)
    }

    /// Returns whether no station holds a block.
    pub fn is_wholly_free(&self) -> bool
        ensures { IsTrue result ↔ ((s : ℕ) → held_in self.now s ≡ None) }
    {
        slots::all_empty(&self.slots)
    }

    /// Gives a station that holds nothing the first fit: block `(m, k)` for the least `m` such that
    /// it overlaps no held block.
    ///
    /// Returns `NoSubcube` only if there is no such `m`; then nothing changes.
    pub fn take(&mut self, station: u32, k: u32) -> Result<Region, NoSubcube>
        requires station { station < MAX_STATIONS }
        requires idle { held_in self.old station ≡ None }
        requires dim { k ≤ self.old.dim }
        ensures first { IfOk result (λ r. (m : ℕ) × (r ≡ block k m)
            × IsFirstFit self.old.dim k (held_in self.old) m) }
        ensures given { IfOk result (λ r.
            Gives self.old.dim station k (held_in self.old) (held_in self.new) r) }
        ensures refused { OnErr result (HasNoFit self.old.dim k (held_in self.old)) }
        ensures unchanged { OnErr result (self.new ≡ self.old) }
        ensures dim_stays { self.new.dim ≡ self.old.dim }
    {
        let Some(region) = first_fit(&self.bits, self.dim, k) else {
            return Err(NoSubcube);
        };
        set_region(&mut self.bits, self.dim, region);
        slots::set_slot(&mut self.slots, station, Some(region));
        Ok(region)
    }

    /// Releases the block of a station.
    ///
    /// Returns `NothingHeld` only if the station holds nothing; then nothing changes.
    pub fn release(&mut self, station: u32) -> Result<Region, NothingHeld>
        ensures released { IfOk result (λ r.
            TakesBack station (held_in self.old) (held_in self.new) r) }
        ensures refused { OnErr result (held_in self.old station ≡ None) }
        ensures unchanged { OnErr result (self.new ≡ self.old) }
        ensures dim_stays { self.new.dim ≡ self.old.dim }
    {
        let Some(region) = slots::region_of(&self.slots, station) else {
            return Err(NothingHeld);
        };
        clear_region(&mut self.bits, self.dim, region);
        slots::set_slot(&mut self.slots, station, None);
        Ok(region)
    }
}
