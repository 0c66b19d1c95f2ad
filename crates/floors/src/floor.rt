// The contract of an allocator.
ghost use Rattle.std.specs.Prelude.{◌≡◌, ℕ, ◌<◌, ◌≤◌, ◌++◌, [], ◌∷◌, IfOk, length};
ghost use Rattle.std.specs.List.{All};
ghost use Rattle.cube_shape.specs.Region.{AreApart, IsAligned};
ghost use Rattle.floors.specs.Floor.{IsWhollyFree};

use cube_shape::{MAX_DIM, MAX_STATIONS, Region};
use std::alloc::{AllocError, Global};
use std::sync::Wait;

/// An allocator: a machine whose stations take and release blocks, from many threads at once.
///
/// A station holds at most one block. A take turns it into a held block, and a release turns that
/// back. Both carry the station's grants: the blocks that it was given, in order. Only its own
/// takes add to them. Stations and held blocks are passed only to calls of the allocator that made
/// them.
///
/// `is_closed` is what an allocator says in addition of the machine to which this number of
/// stations came back. Each allocator has its own, and callers of any allocator pass it on.
pub trait Floor {
    ghost use Rattle.std.specs.Prelude.{List};
    ghost use Rattle.cube_shape.specs.declared.region.Region.{Region as HeldRegion};
    ghost use Rattle.floors.specs.Floor.{FloorId};

    /// A station (allocator handle) that holds nothing at the moment.
    type Station;
    /// A station with the block that it holds.
    type Held;
    /// The words of a machine in which every block is free.
    type Machine;

    // The allocator's identity, its dimension and its number of stations.
    ghost id: { Self → FloorId };

    // The station is one of this allocator.
    ghost is_station: { FloorId → Self.Station → Type 0 };

    // The held block is one of this allocator.
    ghost is_held: { FloorId → Self.Held → Type 0 };

    // The blocks that the station was granted, in order.
    ghost grants: { Self.Station → List HeldRegion };

    // The blocks that the station of a held block was granted, in order.
    ghost held_grants: { Self.Held → List HeldRegion };

    // The block that is held.
    ghost held_region: { Self.Held → HeldRegion };

    // The dimension of a machine that was closed.
    ghost machine_dim: { Self.Machine → ℕ };

    // The words of a machine that was closed. `IsWhollyFree` reads them.
    ghost machine_words: { Self.Machine → List ℕ };

    // What this allocator says in addition of a closed machine, with its number of stations.
    ghost is_closed: { ℕ → Self.Machine → Type 0 };

    /// Opens a machine of dimension `n` with this many stations, in which every block is free.
    /// Reserves the words of the machine too, so no other call needs memory.
    fn open(alloc: Global, n: u32, stations: u32) -> Result<(Self, Vec<Self::Station>), AllocError>
        requires dim { n ≤ MAX_DIM }
        requires some { 0 < stations }
        requires few { stations ≤ MAX_STATIONS }
        ensures dim { IfOk result (λ made. (id made.0).dim ≡ n) }
        ensures stations { IfOk result (λ made. (id made.0).stations ≡ stations) }
        ensures count { IfOk result (λ made. length made.1.items ≡ stations) }
        ensures of_floor { IfOk result (λ made. All (is_station (id made.0)) made.1.items) }
        ensures fresh { IfOk result (λ made. All (λ s. grants s ≡ []) made.1.items) };

    /// Takes a block of dimension `k`. Tries until one is given, with a pause between tries.
    fn take<R: Wait>(&self, rt: &R, station: Self::Station, k: u32) -> Self::Held
        requires of_floor { is_station (id self.now) station }
        requires dim { k ≤ (id self.now).dim }
        ensures of_floor { is_held (id self.now) result }
        ensures aligned { IsAligned (id self.now).dim (held_region result) }
        ensures dimension { (held_region result).dim ≡ k }
        ensures granted { held_grants result ≡ grants station ++ held_region result ∷ [] };

    /// Returns the block that is held.
    fn region(held: &Self::Held) -> Region
        ensures { result ≡ held_region held.now };

    /// Shows that two held blocks have no processor in common. Returns both with the same blocks
    /// and grants.
    fn apart(&self, a: Self::Held, b: Self::Held) -> (Self::Held, Self::Held)
        requires first { is_held (id self.now) a }
        requires second { is_held (id self.now) b }
        ensures of_floor { is_held (id self.now) result.0 × is_held (id self.now) result.1 }
        ensures apart { AreApart (held_region result.0) (held_region result.1) }
        ensures first_region { held_region result.0 ≡ held_region a }
        ensures second_region { held_region result.1 ≡ held_region b }
        ensures first_grants { held_grants result.0 ≡ held_grants a }
        ensures second_grants { held_grants result.1 ≡ held_grants b };

    /// Releases the block.
    fn release<R: Wait>(&self, rt: &R, held: Self::Held) -> Self::Station
        requires { is_held (id self.now) held }
        ensures of_floor { is_station (id self.now) result }
        ensures grants { grants result ≡ held_grants held };

    /// Closes the allocator. It is given as many of its stations as it has, so these are all of
    /// them, and no block is held. Each block that one of them was ever given is aligned.
    fn close(self, stations: Vec<Self::Station>) -> Self::Machine
        requires of_floor { All (is_station (id self)) stations.items }
        requires all { length stations.items ≡ (id self).stations }
        ensures granted { All (λ s. All (IsAligned (id self).dim) (grants s)) stations.items }
        ensures closed { is_closed (id self).stations result }
        ensures dim { machine_dim result ≡ (id self).dim }
        ensures free { IsWhollyFree (id self).dim (machine_words result) };

    /// Returns the dimension of a machine.
    fn dim(machine: &Self::Machine) -> u32
        ensures { result ≡ machine_dim machine.now };

    /// Returns the words of a machine, as the allocator reports them. Word `v` is that of node `v`,
    /// and word `0` belongs to no node.
    fn words(machine: &Self::Machine) -> &[u64]
        ensures { result.now ≡ machine_words machine.now };
}
