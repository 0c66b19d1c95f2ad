//! The handle of a block, which C keeps.
ghost use Rattle.std.specs.Prelude.{◌≡◌, true, false, length};
ghost use Rattle.bitmap_tree.specs.Parts.{IsHeldBy};
ghost use Rattle.bitmap_tree.specs.HiddenSeats.{seat_in};
ghost use Rattle.bitmap_tree.specs.Seats.{HasNoBit};
ghost use Rattle.cubejobs_regions.specs.Tags.{is_held, tag_dim, tag_region};

use bitmap_tree::HiddenSeat;

/// A block that is held, or nothing, in memory that the caller keeps. It cannot be dropped.
#[repr(C)]
pub struct BlockHandle {
    pub(crate) tag: u64,
    // The number of the machine of the block.
    pub(crate) machine: u64,
    pub(crate) seat: HiddenSeat,
    ghost one: { is_held tag ≡ true → length seat.views ≡ 1 },
    ghost held: { is_held tag ≡ true → IsHeldBy (tag_dim tag) (tag_region tag) (seat_in seat) },
    ghost no_bit: { is_held tag ≡ false → HasNoBit (seat_in seat).me },
}
