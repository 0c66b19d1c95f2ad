ghost use Rattle.std.specs.Prelude.{◌≡◌, ◌≤◌, IfNone, IfSome};
ghost use Rattle.cube_shape.specs.Machine.{Gives};
ghost use Rattle.cube_shape.specs.Region.{AreApart, IsAligned};
ghost use Rattle.fit_tree.specs.Fit.{held_in};
ghost use Rattle.fit_tree.specs.FirstApart.{HasNoneApart};

use fit_tree::{FitTree, Region};

/// Takes the first free block of dimension `k` apart from a block that is reserved, if there is
/// one. So a job may start before another one that waits for this block, and does not delay it.
pub fn take_apart(fit: &mut FitTree, k: u32, reserved: Region) -> Option<Region>
    requires dim { k ≤ fit.old.dim }
    requires reserved { IsAligned fit.old.dim reserved }
    ensures apart { IfSome result (λ r. AreApart reserved r) }
    ensures given { IfSome result (λ r.
        Gives fit.old.dim r.base r.dim (held_in fit.old) (held_in fit.new) r) }
    ensures none { IfNone result (HasNoneApart fit.old.dim k (held_in fit.old) reserved) }
{
    let region = fit.first_apart(k, reserved)?;
    let Ok(()) = fit.take_at(region) else {
        unreachable!();
    };
    Some(region)
}
