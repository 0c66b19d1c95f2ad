//! Lists of blocks that a caller keeps.
ghost use Rattle.std.specs.Prelude.{◌≡◌, ◌+◌, ◌<◌, length, vec_capacity, vec_len};
ghost use Rattle.std.specs.List.{All};
ghost use Rattle.bitmap_tree.specs.Handles.{IsHeldOf};

use bitmap_tree::{BitmapTree, HeldBlock};

/// Takes a block out of a list, and puts the last one in its place.
pub fn take_out(tree: &BitmapTree, kept: &mut Vec<HeldBlock>, at: usize) -> HeldBlock
    requires held { All (IsHeldOf tree.now) kept.old.items }
    requires at { at < length kept.old.items }
    ensures block { IsHeldOf tree.now result }
    ensures held { All (IsHeldOf tree.now) kept.new.items }
    ensures fewer { vec_len kept.new + 1 ≡ vec_len kept.old }
    ensures room { vec_capacity kept.new ≡ vec_capacity kept.old }
{
    kept.swap_remove(at)
}

/// Releases all blocks of a list, the last one first.
pub fn release_all(tree: &BitmapTree, mut kept: Vec<HeldBlock>)
    requires { All (IsHeldOf tree.now) kept.items }
{
    while let Some(held) = kept.pop() {
        tree.release(held);
    }
    kept.destroy_empty();
}
