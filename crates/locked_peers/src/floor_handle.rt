// The handles of a `LockedFloor`. A station and what it holds cannot be dropped: they are consumed
// by the allocator's end.
ghost use Rattle.std.specs.Prelude.{◌≡◌, ℕ, None, Some};
ghost use Rattle.alloc_bits.specs.Allocation.{held_in};
ghost use Rattle.floors.specs.Floor.{IsWhollyFree};
ghost use Rattle.locked_peers.specs.InnerFloor.Step.{IsStationSeat};

use crate::floor_lock::Seat;
use alloc_bits::AllocBits;
use cube_shape::Region;

/// A station of a `LockedFloor` that holds no block. It cannot be dropped.
pub struct LockedStation {
    pub(crate) number: u32,
    pub(crate) seat: Seat,
    ghost known: { IsStationSeat seat.me number None },
}

/// A station of a `LockedFloor` with the block that it holds. It cannot be dropped.
pub struct Held {
    pub(crate) number: u32,
    pub(crate) region: Region,
    pub(crate) seat: Seat,
    ghost known: { IsStationSeat seat.me number (Some region) },
}

/// The machine of a `LockedFloor` at its end: its allocation bits, in which no station holds a
/// block, and a word for each node.
#[derive(Drop)]
pub struct FreeMachine {
    pub(crate) bits: AllocBits,
    pub(crate) words: Vec<u64>,
    ghost free: { (s : ℕ) → held_in bits s ≡ None },
    ghost wholly: { IsWhollyFree bits.dim words.items },
}

impl FreeMachine {
    ghost use Rattle.locked_peers.specs.InnerFloor.Handle.{machine_dim, machine_words};

    /// Returns the allocation bits at the end. No station holds a block, and the words of the
    /// machine are those of a wholly free machine of their dimension.
    pub fn bits(&self) -> &AllocBits
        ensures dim { result.now.dim ≡ machine_dim self.now }
        ensures free { (s : ℕ) → held_in result.now s ≡ None }
        ensures words { IsWhollyFree result.now.dim (machine_words self.now) }
    {
        &self.bits
    }
}
