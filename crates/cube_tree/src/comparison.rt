//! Two blocks that are held at one moment do not overlap.
ghost use Rattle.cube_shape.specs.Region.{AreApart};
ghost use Rattle.cube_tree.specs.Handles.{held_region, IsSameSubcube, IsSubcubeOf};

use crate::handles::{Cube, Subcube};

/// Shows that the blocks of two subcubes of one cube do not overlap. Returns both subcubes
/// unchanged.
pub fn apart(a: Subcube, b: Subcube, cube: &Cube) -> (Subcube, Subcube)
    requires first { IsSubcubeOf cube.now a }
    requires second { IsSubcubeOf cube.now b }
    ensures apart { AreApart (held_region result.0) (held_region result.1) }
    ensures first { IsSameSubcube a result.0 }
    ensures second { IsSameSubcube b result.1 }
{
    let Subcube {
        number,
        node,
        region,
        dim,
        hint,
        mut seat,
    } = a;
    let Subcube {
        number: other_number,
        node: other_node,
        region: other_region,
        dim: other_dim,
        hint: other_hint,
        seat: other_seat,
    } = b;
    cube.tree.merge(&mut seat, other_seat);
    cube.tree.compare(&mut seat);
    let own = cube.tree.cut_first(&mut seat);
    let first = Subcube {
        number,
        node,
        region,
        dim,
        hint,
        seat: own,
    };
    let second = Subcube {
        number: other_number,
        node: other_node,
        region: other_region,
        dim: other_dim,
        hint: other_hint,
        seat,
    };
    (first, second)
}
