//! What a handle shows of its machine.
ghost use Rattle.std.specs.Prelude.{◌≡◌, ◌<◌, ◌^◌};
ghost use Rattle.bitmap_tree.specs.Handles.{dim_of, permits_of};
ghost use Rattle.cubejobs_regions.specs.Ownership.{common_of};
ghost use Rattle.cubejobs_regions.specs.Machine.{number_of, tree_of};

use crate::common::Common;
use crate::machine::Machine;
use bitmap_tree::BitmapTree;

impl Machine {
    // Returns what its handles have in common.
    #[inline(always)]
    pub(crate) fn common(&self) -> &Common
        ensures common { result.now ≡ common_of self.now.owner }
        ensures anyone { permits_of result.now.tree ≡ 0 }
        ensures start { self.now.start < 2 ^ dim_of result.now.tree }
    {
        self.owner.get()
    }

    // Returns its bitmaps.
    #[inline(always)]
    pub(crate) fn tree(&self) -> &BitmapTree
        ensures tree { result.now ≡ tree_of self.now }
        ensures anyone { permits_of result.now ≡ 0 }
        ensures start { self.now.start < 2 ^ dim_of result.now }
    {
        &self.owner.get().tree
    }

    // Returns its number.
    #[inline(always)]
    pub(crate) fn number(&self) -> u64
        ensures { result ≡ number_of self.now }
    {
        self.owner.get().number
    }
}
