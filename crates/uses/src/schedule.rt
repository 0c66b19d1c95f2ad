//! A caller of `cube_core`.

ghost use Rattle.std.specs.Prelude.{◌≡◌, ◌≤◌, IfOk, reverse};
ghost use Rattle.cube_shape.specs.Machine.{IsLawful};
ghost use Rattle.cube_core.specs.Held.{held_of};
ghost use Rattle.cube_core.specs.Schedule.{apply_all, initial};
ghost use Rattle.cube_core.specs.World.{HasShapeOf, without_trails};

use cube_core::{Act, World};
use cube_shape::{MAX_DIM, MAX_STATIONS};
use std::alloc::{AllocError, Global};

/// Returns the tree after these acts, from the first to the last, on a machine where nothing is
/// held. Whatever the acts are, the blocks that stations hold are aligned, and those of two
/// stations are apart.
pub fn play(alloc: Global, n: u32, stations: u32, acts: &[Act]) -> Result<World, AllocError>
    requires dim { n ≤ MAX_DIM }
    requires stations { stations ≤ MAX_STATIONS }
    ensures played { IfOk result (λ world.
        world ≡ without_trails (apply_all (reverse acts.now) (initial n stations))) }
    ensures shape { IfOk result (HasShapeOf (initial n stations)) }
    ensures lawful { IfOk result (λ world. IsLawful world.dim (held_of world)) }
{
    let mut world = World::new(alloc, n, stations)?;
    world.run(acts);
    Ok(world)
}
