//! A machine, and what its callers hold.
ghost use Rattle.std.specs.Prelude.{◌≡◌, ◌+◌, ◌/◌, ◌%◌, ◌^◌, ◌≤◌, [], vec_len};
ghost use Rattle.cube_shape.specs.declared.limits.TheConstants.{MAX_BITMAP_DIM};
ghost use Rattle.bitmap_tree.specs.Rule.{word_count};
ghost use Rattle.bitmap_tree.specs.Layout.{HasNone, HasRun, run_of};

use crate::marks::Marks;
use crate::spares::Spares;
use crate::steps::{BlankSeat, BlockSeat, Words};
use crate::view::Size;
use cube_shape::Region;

/// The bitmaps of a machine, which threads share by `&`.
#[derive(Drop)]
pub struct BitmapTree {
    pub(crate) bits: Words,
    pub(crate) size: Size,
    // Where a search need not look, for each level below the top, and which words stay open.
    pub(crate) marks: Vec<Marks>,
    pub(crate) spares: Spares,
    // Where the words go at the end.
    pub(crate) room: Vec<u64>,
    ghost has_room: { vec_len room ≡ word_count size.dim },
    ghost marked: { vec_len marks ≡ size.dim / 6 },
    ghost keyed: { bits.table.shared.key ≡ size },
    ghost words: { bits.table.shared.table_id.words ≡ word_count size.dim },
    ghost no_slots: { bits.table.shared.table_id.slots ≡ 0 },
    ghost dim_in_limits: { size.dim ≤ MAX_BITMAP_DIM },
}

/// A block that is held. It cannot be dropped.
pub struct HeldBlock {
    pub(crate) region: Region,
    pub(crate) dim: u32,
    pub(crate) seat: BlockSeat,
    ghost claimed: { HasRun (run_of dim region) seat.me },
    ghost begins: { region.base % 2 ^ region.dim ≡ 0 },
    ghost within: { region.base + 2 ^ region.dim ≤ 2 ^ dim },
    ghost fits: { region.dim ≤ dim },
    ghost words: { seat.table_id.words ≡ word_count dim },
    ghost dim_in_limits: { dim ≤ MAX_BITMAP_DIM },
}

/// A take that was refused, and what its steps found.
#[derive(Drop)]
pub struct Refused {
    /// Whether it gave up a word, in which it lost several exchanges to other calls.
    pub disturbed: bool,
    pub(crate) seat: BlankSeat,
}

/// A block that was released, and what the steps of the release changed.
#[derive(Drop)]
pub struct Released {
    pub(crate) seat: BlankSeat,
}

/// The right to hold one block at a time, in a machine that has permits. It cannot be dropped.
pub struct Permit {
    pub(crate) seat: BlockSeat,
    ghost blank: { HasNone seat.me },
    ghost one: { seat.me.0.permits ≡ 1 },
}
