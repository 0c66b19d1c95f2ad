//! The parts of what the calls return, for a caller that keeps them.
ghost use Rattle.std.specs.Prelude.{◌≡◌};
ghost use Rattle.bitmap_tree.specs.Handles.{held_dim, held_region, held_seat, refused_trail, released_trail};
ghost use Rattle.bitmap_tree.specs.Parts.{IsHeldBy};

use crate::handles::{HeldBlock, Refused, Released};
use crate::steps::{BlankSeat, BlockSeat};
use crate::view::View;
use cube_shape::Region;

/// What a seat knows: the bits that it has, and what its steps found and left.
pub type BlockView = View;

impl HeldBlock {
    /// Takes a held block apart: the block, the dimension of its machine, and its seat,
    /// which cannot be dropped.
    pub fn into_parts(self) -> (Region, u32, BlockSeat)
        ensures region { result.0 ≡ held_region self }
        ensures dim { result.1 ≡ held_dim self }
        ensures seat { result.2 ≡ held_seat self }
        ensures held { IsHeldBy result.1 result.0 result.2 }
    {
        let HeldBlock { region, dim, seat } = self;
        (region, dim, seat)
    }

    /// Puts a held block together again.
    pub fn of_parts(region: Region, dim: u32, seat: BlockSeat) -> HeldBlock
        requires held { IsHeldBy dim region seat }
        ensures region { held_region result ≡ region }
        ensures dim { held_dim result ≡ dim }
        ensures seat { held_seat result ≡ seat }
    {
        HeldBlock { region, dim, seat }
    }
}

impl Refused {
    /// Returns the seat of the take, which knows what its steps found.
    pub fn into_seat(self) -> BlankSeat
        ensures trail { result.me.0.trail ≡ refused_trail self }
    {
        let Refused { disturbed: _, seat } = self;
        seat
    }
}

impl Released {
    /// Returns the seat of the release, which knows what its steps changed.
    pub fn into_seat(self) -> BlankSeat
        ensures trail { result.me.0.trail ≡ released_trail self }
    {
        let Released { seat } = self;
        seat
    }
}
