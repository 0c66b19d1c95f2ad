//! A caller of `cube_tree`.

ghost use Rattle.std.specs.Prelude.{◌≡◌, ◌≤◌, IfSome, IfOk};
ghost use Rattle.cube_shape.specs.Region.{AreApart, IsAligned};
ghost use Rattle.cube_tree.specs.Ends.{IsWhollyFree};
ghost use Rattle.cube_tree.specs.Handles.{cube_dim, IsStationOf};

use cube_shape::Region;
use cube_tree::{Cube, FreeMachine, StillOut, TreeStation, apart};

/// Holds two blocks at the same moment, of dimensions `k` and `l`, on two stations. Then releases
/// them and retires the stations. Returns the blocks, which are aligned and apart, or `None` if a
/// take was refused.
pub fn hold_two(
    cube: &Cube,
    first: TreeStation,
    second: TreeStation,
    k: u32,
    l: u32,
) -> Option<(Region, Region)>
    requires first { IsStationOf cube.now first }
    requires second { IsStationOf cube.now second }
    requires dim { k ≤ cube_dim cube.now }
    requires other_dim { l ≤ cube_dim cube.now }
    ensures apart { IfSome result (λ held. AreApart held.0 held.1) }
    ensures aligned { IfSome result (λ held.
        IsAligned (cube_dim cube.now) held.0 × IsAligned (cube_dim cube.now) held.1) }
    ensures dimensions { IfSome result (λ held. (held.0.dim ≡ k) × (held.1.dim ≡ l)) }
{
    let subcube = match first.search(cube, k) {
        Ok(subcube) => subcube,
        Err((first, _)) => {
            first.retire(cube);
            second.retire(cube);
            return None;
        }
    };
    let other = match second.search(cube, l) {
        Ok(other) => other,
        Err((second, _)) => {
            subcube.release(cube).retire(cube);
            second.retire(cube);
            return None;
        }
    };
    let (subcube, other) = apart(subcube, other, cube);
    let held = (subcube.region(), other.region());
    subcube.release(cube).retire(cube);
    other.release(cube).retire(cube);
    Some(held)
}

/// Holds two blocks as `hold_two` does, on a tree of its own, and closes that tree. If no other
/// station is out, the machine is wholly free.
pub fn hold_two_and_close(
    cube: Cube,
    first: TreeStation,
    second: TreeStation,
    k: u32,
    l: u32,
) -> (Option<(Region, Region)>, Result<FreeMachine, StillOut>)
    requires first { IsStationOf cube first }
    requires second { IsStationOf cube second }
    requires dim { k ≤ cube_dim cube }
    requires other_dim { l ≤ cube_dim cube }
    ensures apart { IfSome result.0 (λ held. AreApart held.0 held.1) }
    ensures free { IfOk result.1 (IsWhollyFree (cube_dim cube)) }
{
    let held = hold_two(&cube, first, second, k, l);
    (held, cube.close())
}
