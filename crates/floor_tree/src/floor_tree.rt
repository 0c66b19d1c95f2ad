// The tree as an allocator.
ghost use Rattle.std.specs.Prelude.{◌≡◌, ℕ, ◌<◌, ◌≤◌, ◌++◌, [], ◌∷◌, IfOk, length};
ghost use Rattle.std.specs.List.{All};
ghost use Rattle.cube_shape.specs.Region.{AreApart, IsAligned};
ghost use Rattle.floors.specs.Floor.{IsWhollyFree};

use backoff::Pause;
use cube_shape::{MAX_DIM, MAX_STATIONS, Region};
use cube_tree::{Cube, FreeMachine, Subcube, TreeStation, apart};
use floors::Floor;
use std::alloc::{AllocError, Global};
use std::sync::Wait;

/// An allocator that is the tree of status words of a machine. It cannot be dropped, and `close`
/// consumes it.
pub struct TreeFloor {
    cube: Cube,
}

impl Floor for TreeFloor {
    type Station = TreeStation;

    type Held = Subcube;

    type Machine = FreeMachine;

    ghost use Rattle.cube_tree.specs.Handles.{held_region as region_of_held};
    ghost use Rattle.cube_tree.specs.Ends.{machine_dim as dim_of_machine, machine_words as words_of_machine};
    ghost use Rattle.floor_tree.specs.Grants.{station_grants, subcube_grants};
    ghost use Rattle.floor_tree.specs.Roll.{IsRollWhole};
    ghost use Rattle.floor_tree.specs.Inner.Handle.{floor_id, IsStation, IsHeld};

    ghost id = { λ floor. floor_id floor.cube };

    ghost is_station = { IsStation };

    ghost is_held = { IsHeld };

    ghost grants = { station_grants };

    ghost held_grants = { subcube_grants };

    ghost held_region = { region_of_held };

    ghost machine_dim = { dim_of_machine };

    ghost machine_words = { words_of_machine };

    ghost is_closed = { IsRollWhole };

    fn open(
        alloc: Global,
        n: u32,
        stations: u32,
    ) -> Result<(TreeFloor, Vec<TreeStation>), AllocError>
        requires dim { n ≤ MAX_DIM }
        requires some { 0 < stations }
        requires few { stations ≤ MAX_STATIONS }
        ensures dim { IfOk result (λ made. (floor_id made.0.cube).dim ≡ n) }
        ensures stations { IfOk result (λ made. (floor_id made.0.cube).stations ≡ stations) }
        ensures count { IfOk result (λ made. length made.1.items ≡ stations) }
        ensures of_floor { IfOk result (λ made.
            All (IsStation (floor_id made.0.cube)) made.1.items) }
        ensures fresh { IfOk result (λ made. All (λ s. station_grants s ≡ []) made.1.items) }
    {
        match Cube::open(alloc, n, stations) {
            Ok((cube, list)) => Ok((TreeFloor { cube }, list)),
            Err(_) => Err(AllocError),
        }
    }

    fn take<R: Wait>(&self, rt: &R, station: TreeStation, k: u32) -> Subcube {
        let mut station = station;
        let mut pause = Pause::new();
        for _ in rt.forever() {
            match station.search(&self.cube, k) {
                Ok(subcube) => return subcube,
                Err((back, _)) => station = back,
            }
            pause.wait(rt);
        }
        unreachable!()
    }

    fn region(held: &Subcube) -> Region {
        held.region()
    }

    fn apart(&self, a: Subcube, b: Subcube) -> (Subcube, Subcube) {
        apart(a, b, &self.cube)
    }

    fn release<R: Wait>(&self, _rt: &R, held: Subcube) -> TreeStation {
        held.release(&self.cube)
    }

    fn close(self, stations: Vec<TreeStation>) -> FreeMachine
        requires of_floor { All (IsStation (floor_id self.cube)) stations.items }
        requires all { length stations.items ≡ (floor_id self.cube).stations }
        ensures granted { All (λ s. All (IsAligned (floor_id self.cube).dim) (station_grants s))
            stations.items }
        ensures closed { IsRollWhole (floor_id self.cube).stations result }
        ensures dim { dim_of_machine result ≡ (floor_id self.cube).dim }
        ensures free { IsWhollyFree (floor_id self.cube).dim (words_of_machine result) }
    {
        let TreeFloor { cube } = self;
        cube.close_all(stations)
    }

    fn dim(machine: &FreeMachine) -> u32 {
        machine.dim()
    }

    fn words(machine: &FreeMachine) -> &[u64] {
        machine.words()
    }
}
