// The lock of an allocator. Its allocation bits are in a cell. A call takes them and gives them
// back, and by that step the record of its station gains what the call did.
ghost use Rattle.std.specs.Prelude.{◌≡◌, ℕ, ◌<◌, ◌≤◌, [], ◌∷◌, None, IfOk};
ghost use Rattle.cube_shape.specs.declared.region.Region.{Region as HeldRegion};
ghost use Rattle.cube_shape.specs.Machine.{Gives, TakesBack};
ghost use Rattle.alloc_bits.specs.Allocation.{Allocation, held_in};
ghost use Rattle.locked_peers.specs.declared.floor_view.StationRecord.{StationRecord};
ghost use Rattle.locked_peers.specs.InnerFloor.View.{Allots, Withdraws, HoldsSome, first_view, without_station, station_alone, joined};
ghost use Rattle.locked_peers.specs.InnerFloor.Step.{IsIdle, IsPair, AreHeldApart, Took, IsOut, after_grant, after_free, after_nothing};
ghost use Rattle.locked_peers.specs.InnerFloor.End.{IsWhole};

use crate::cell::LockedCell;
use crate::floor_bits::{allot, withdraw};
use crate::floor_plays::{Compare, Deal, FloorRule, Free, Gather, Grant, Leave};
use crate::floor_view::{Size, View};
use alloc_bits::AllocBits;
use cube_shape::{MAX_DIM, MAX_STATIONS, Region};
use std::alloc::{AllocError, Global};
use std::sync::Wait;

pub(crate) type Seat = atomic_table::Seat<AllocBits, View>;

/// The lock of an allocator, with its allocation bits.
#[derive(Drop)]
pub(crate) struct BitsLock {
    cell: LockedCell<AllocBits, View, Size, FloorRule>,
}

impl BitsLock {
    ghost use Rattle.locked_peers.specs.InnerFloor.Handle.{table_of, size_of};

    // Makes a lock with a wholly free machine, and the seat that has the records of all stations.
    pub fn new(alloc: Global, size: Size) -> Result<(BitsLock, Seat), AllocError>
        requires { size.dim ≤ MAX_DIM }
        ensures size { IfOk result (λ made. size_of made.0 ≡ size) }
        ensures table { IfOk result (λ made. made.1.table_id ≡ table_of made.0) }
        ensures seat { IfOk result (λ made. made.1.me ≡ (first_view size, [])) }
    {
        let bits = AllocBits::new(alloc, size.dim)?;
        let (cell, seat) = LockedCell::<AllocBits, View, Size, FloorRule>::new(alloc, bits, &size)?;
        Ok((BitsLock { cell }, seat))
    }

    // Splits off a seat with the record of the first station that `seat` has.
    pub fn deal(&self, seat: &mut Seat) -> Seat
        requires table { seat.old.table_id ≡ table_of self.now }
        requires idle { IsIdle seat.old.me }
        ensures tables { (seat.new.table_id ≡ table_of self.now)
            × (result.table_id ≡ table_of self.now) }
        ensures left { seat.new.me ≡ (without_station seat.old.me.0, []) }
        ensures dealt { result.me ≡ (station_alone seat.old.me.0, []) }
    {
        self.cell.deal::<Deal>(seat)
    }

    // Joins the records of another seat to those of `seat`.
    pub fn gather(&self, seat: &mut Seat, other: Seat)
        requires tables { (seat.old.table_id ≡ table_of self.now)
            × (other.table_id ≡ table_of self.now) }
        requires idle { IsIdle seat.old.me × IsIdle other.me }
        ensures table { seat.new.table_id ≡ table_of self.now }
        ensures both { seat.new.me ≡ (joined seat.old.me.0 other.me.0, []) }
    {
        self.cell.gather::<Gather>(seat, other);
    }

    // Reads the word with the records of two stations. The seat learns that their blocks are apart.
    pub fn compare(&self, seat: &mut Seat)
        requires table { seat.old.table_id ≡ table_of self.now }
        requires pair { (a : StationRecord) × (b : StationRecord) × IsPair seat.old.me a b }
        ensures table { seat.new.table_id ≡ table_of self.now }
        ensures same { seat.new.me ≡ seat.old.me }
        ensures apart { (a b : StationRecord) → IsPair seat.old.me a b → AreHeldApart a b }
    {
        self.cell.look::<Compare>(seat);
    }

    // Takes the bits. Waits while another seat has them.
    pub fn enter<R: Wait>(&self, rt: &R, seat: &mut Seat)
        requires table { seat.old.table_id ≡ table_of self.now }
        requires idle { IsIdle seat.old.me }
        ensures table { seat.new.table_id ≡ table_of self.now }
        ensures took { Took seat.old.me seat.new.me }
    {
        self.cell.enter(rt, seat);
    }

    // Gives the station a block of dimension `k` in the bits that the seat has taken, if one is
    // free.
    pub fn allot(&self, seat: &mut Seat, station: u32, k: u32) -> Option<Region>
        requires table { seat.old.table_id ≡ table_of self.now }
        requires station { station < MAX_STATIONS }
        requires held { (x : Allocation) × (seat.old.me.1 ≡ (0, x) ∷ [])
            × (held_in x station ≡ None) × (k ≤ x.dim) }
        ensures table { seat.new.table_id ≡ table_of self.now }
        ensures allotted { (x : Allocation) → seat.old.me.1 ≡ (0, x) ∷ [] → (y : Allocation)
            × (seat.new.me ≡ (seat.old.me.0, (0, y) ∷ [])) × Allots x station k result y }
    {
        allot(seat.slot_mut(&self.cell.table.shared, 0), station, k)
    }

    // Releases the station's block in the bits that the seat has taken.
    pub fn withdraw(&self, seat: &mut Seat, station: u32)
        requires table { seat.old.table_id ≡ table_of self.now }
        requires held { (x : Allocation) × (seat.old.me.1 ≡ (0, x) ∷ []) × HoldsSome x station }
        ensures table { seat.new.table_id ≡ table_of self.now }
        ensures withdrawn { (x : Allocation) → seat.old.me.1 ≡ (0, x) ∷ [] → (y : Allocation)
            × (seat.new.me ≡ (seat.old.me.0, (0, y) ∷ [])) × Withdraws x station y }
    {
        withdraw(seat.slot_mut(&self.cell.table.shared, 0), station)
    }

    // Gives the bits back. The station's record gains the block that it got.
    pub fn grant(&self, seat: &mut Seat)
        requires table { seat.old.table_id ≡ table_of self.now }
        requires ready { (r : StationRecord) × (x : Allocation) × (y : Allocation)
            × (region : HeldRegion) × IsOut seat.old.me r x y
            × Gives x.dim r.number region.dim (held_in x) (held_in y) region × (y.dim ≡ x.dim) }
        ensures table { seat.new.table_id ≡ table_of self.now }
        ensures gained { seat.new.me ≡ after_grant seat.old.me }
    {
        self.cell.give_back::<Grant>(seat);
    }

    // Gives the bits back. The station's record holds no block.
    pub fn free(&self, seat: &mut Seat)
        requires table { seat.old.table_id ≡ table_of self.now }
        requires ready { (r : StationRecord) × (x : Allocation) × (y : Allocation)
            × (region : HeldRegion) × IsOut seat.old.me r x y
            × TakesBack r.number (held_in x) (held_in y) region × (y.dim ≡ x.dim) }
        ensures table { seat.new.table_id ≡ table_of self.now }
        ensures gained { seat.new.me ≡ after_free seat.old.me }
    {
        self.cell.give_back::<Free>(seat);
    }

    // Gives the bits back unchanged.
    pub fn leave(&self, seat: &mut Seat)
        requires table { seat.old.table_id ≡ table_of self.now }
        requires ready { (r : StationRecord) × (x : Allocation) × IsOut seat.old.me r x x }
        ensures table { seat.new.table_id ≡ table_of self.now }
        ensures same { seat.new.me ≡ after_nothing seat.old.me }
    {
        self.cell.give_back::<Leave>(seat);
    }

    // Returns the bits. The seat must have the records of all stations, and none may hold a block.
    pub fn end(self, seat: Seat) -> AllocBits
        requires table { seat.table_id ≡ table_of self }
        requires whole { IsWhole (size_of self) seat.me }
        ensures dim { result.dim ≡ (size_of self).dim }
        ensures free { (s : ℕ) → held_in result s ≡ None }
    {
        let BitsLock { cell } = self;
        cell.end(seat)
    }
}
