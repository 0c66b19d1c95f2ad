//! Two held blocks, compared.
ghost use Rattle.std.specs.Prelude.{◌≡◌, ◌<◌};
ghost use Rattle.cube_shape.specs.Region.{AreApart};
ghost use Rattle.bitmap_tree.specs.Handles.{held_region, IsHeldOf, IsHeldByPermit};

use crate::handles::{BitmapTree, HeldBlock};
use cube_shape::Region;

impl BitmapTree {
    /// Returns two held blocks as they were, and promises that they have no processor in common.
    pub fn apart(&self, a: HeldBlock, b: HeldBlock) -> (HeldBlock, HeldBlock)
        requires first { IsHeldOf self.now a }
        requires second { IsHeldOf self.now b }
        ensures of_machine { IsHeldOf self.now result.0 × IsHeldOf self.now result.1 }
        ensures apart { AreApart (held_region result.0) (held_region result.1) }
        ensures first_region { held_region result.0 ≡ held_region a }
        ensures second_region { held_region result.1 ≡ held_region b }
        ensures by_permits { IsHeldByPermit self.now a → IsHeldByPermit self.now b
            → IsHeldByPermit self.now result.0 × IsHeldByPermit self.now result.1 }
    {
        let HeldBlock {
            region,
            dim,
            mut seat,
        } = a;
        let HeldBlock {
            region: other_region,
            dim: other_dim,
            seat: other_seat,
        } = b;
        self.merge(&mut seat, other_seat);
        self.compare(&mut seat);
        let own = self.cut(&mut seat);
        let first = HeldBlock {
            region,
            dim,
            seat: own,
        };
        let second = HeldBlock {
            region: other_region,
            dim: other_dim,
            seat,
        };
        (first, second)
    }
}

impl HeldBlock {
    /// Returns the block.
    pub fn region(&self) -> Region
        ensures { result ≡ held_region self.now }
    {
        self.region
    }
}
