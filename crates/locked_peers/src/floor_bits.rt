// What the calls of a `LockedFloor` change in the allocation bits.
ghost use Rattle.std.specs.Prelude.{◌≡◌, ◌<◌, ◌≤◌, None};
ghost use Rattle.alloc_bits.specs.Allocation.{held_in};
ghost use Rattle.locked_peers.specs.InnerFloor.View.{Allots, Withdraws, HoldsSome};

use alloc_bits::AllocBits;
use cube_shape::{MAX_STATIONS, Region};

// Gives a station that holds nothing a block of dimension `k`, if one is free.
pub(crate) fn allot(bits: &mut AllocBits, station: u32, k: u32) -> Option<Region>
    requires station { station < MAX_STATIONS }
    requires idle { held_in bits.old station ≡ None }
    requires dim { k ≤ bits.old.dim }
    ensures { Allots bits.old station k result bits.new }
{
    bits.take(station, k).ok()
}

// Releases the block of a station.
pub(crate) fn withdraw(bits: &mut AllocBits, station: u32)
    requires { HoldsSome bits.old station }
    ensures { Withdraws bits.old station bits.new }
{
    match bits.release(station) {
        Ok(_) => {}
        Err(_) => unreachable!(),
    }
}
