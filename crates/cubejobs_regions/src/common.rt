//! What the handles of a machine have in common.
ghost use Rattle.std.specs.Prelude.{◌≡◌};
ghost use Rattle.bitmap_tree.specs.Handles.{permits_of};

use bitmap_tree::BitmapTree;

/// The bitmaps of a machine, and its number.
#[derive(Drop)]
pub(crate) struct Common {
    pub(crate) tree: BitmapTree,
    pub(crate) number: u64,
    ghost anyone: { permits_of tree ≡ 0 },
}
