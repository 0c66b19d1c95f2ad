//! A caller of `collectives`, with a monoid of its own.

ghost use Rattle.std.specs.Prelude.{◌≡◌, ◌^◌, ◌<◌, All, length};
ghost use Rattle.collectives.specs.Places.{Holds, total};
ghost use Rattle.uses.specs.Extent.{IsExtentValue, extent_join, extent_unit};
ghost use Rattle.uses.specs.InnerLaws.{extent_laws};

use collectives::{DIM_LIMIT, Monoid, all_reduce};

/// The least and the greatest of some numbers.
#[derive(Clone, Copy, Debug, PartialEq, Eq)]
pub struct Extent {
    /// The least number.
    pub least: u64,
    /// The greatest number.
    pub greatest: u64,
}

impl Monoid for Extent {
    ghost unit = { extent_unit };

    ghost join = { extent_join };

    ghost is_value = { IsExtentValue };

    fn unit() -> Extent {
        Extent {
            least: u64::MAX,
            greatest: 0,
        }
    }

    fn join(self, right: Extent) -> Extent {
        Extent {
            least: self.least.min(right.least),
            greatest: self.greatest.max(right.greatest),
        }
    }

    fn is_value(self) -> bool {
        true
    }

    ghost laws = { extent_laws };
}

/// Gives every rank of a block of dimension `k` the extent of all its ranks.
pub fn share_extent(extents: &mut [Extent], k: u32)
    requires dim { k < DIM_LIMIT }
    requires places { length extents.old ≡ 2 ^ k }
    requires values { All IsExtentValue extents.old }
    ensures { Holds extents.new k (λ rank. total extent_join extent_unit extents.old) }
{
    let _tally = all_reduce(extents, k);
}
