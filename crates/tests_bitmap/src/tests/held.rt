//! A machine, and a block that there has to be.
ghost use Rattle.std.specs.Prelude.{◌≡◌, ◌≤◌};
ghost use Rattle.bitmap_tree.specs.Handles.{dim_of, permits_of, IsHeldOf};

use bitmap_tree::{BitmapTree, HeldBlock, MAX_BITMAP_DIM, Region};
use std::alloc::Global;
use std::process::Abort;
use tests_kit::is_fresh;

/// Opens a machine, for which there has to be memory.
pub(crate) fn opened(rt: &impl Abort, alloc: Global, n: u32) -> BitmapTree
    requires { n ≤ MAX_BITMAP_DIM }
    ensures dim { dim_of result ≡ n }
    ensures anyone { permits_of result ≡ 0 }
{
    match BitmapTree::open(alloc, n) {
        Ok(tree) => tree,
        Err(_) => panic!(rt; "no memory"),
    }
}

/// Takes a block of a dimension, which has to begin at this processor.
pub(crate) fn taken(rt: &impl Abort, tree: &BitmapTree, k: u32, base: u64) -> HeldBlock
    requires anyone { permits_of tree.now ≡ 0 }
    requires fits { k ≤ dim_of tree.now }
    ensures { IsHeldOf tree.now result }
{
    match tree.take(k, 0) {
        Ok(held) => {
            assert!(rt; held.region() == Region { base, dim: k });
            held
        }
        Err(_) => panic!(rt; "no block"),
    }
}

/// Expects the words of a machine in which nothing was ever taken.
pub(crate) fn expect_fresh(rt: &impl Abort, words: &[u64]) {
    assert!(rt; is_fresh(words));
}
