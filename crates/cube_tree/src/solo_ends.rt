//! Making a `Solo` of a cube and all its stations, and closing it.
ghost use Rattle.std.specs.Prelude.{◌≡◌, ℕ, ◌<◌, List, [], None, All, vec_len, IfOk, IfErr};
ghost use Rattle.tree_steps.specs.Rule.{times};
ghost use Rattle.tree_steps.specs.Alone.{AreAllAtRest};
ghost use Rattle.tree_steps.specs.Tree.{id_of, station_count};
ghost use Rattle.cube_tree.specs.Ends.{ClosedByRoll, HasAll, IsWhollyFree};
ghost use Rattle.cube_tree.specs.Handles.{cube_size, HasTable, IsStationOf};
ghost use Rattle.cube_tree.specs.Seats.{IsBare};
ghost use Rattle.cube_tree.specs.InnerSolo.{IsGoneBelow, IsMoved, HasPhase};
ghost use Rattle.cube_tree.specs.Solo.{solo_size, solo_dim, held_by};

use crate::ends::finish;
use crate::handles::{Cube, FreeMachine, TreeStation};
use crate::solo::Solo;
use cube_core::Phase;
use std::alloc::{AllocError, Global};
use tree_steps::{Seat, Tree};

impl Solo {
    /// Makes a `Solo` of a cube and all its stations, none of which holds a block. If memory runs
    /// out, both are returned.
    pub fn new(
        alloc: Global,
        cube: Cube,
        mut stations: Vec<TreeStation>,
    ) -> Result<Solo, (Cube, Vec<TreeStation>, AllocError)>
        requires cube { All (IsStationOf cube) stations.items }
        requires all { HasAll (cube_size cube).stations stations.items }
        ensures size { IfOk result (λ solo. solo_size solo ≡ cube_size cube) }
        ensures idle { IfOk result (λ solo. (s : ℕ) → held_by solo s ≡ None) }
        ensures back { IfErr result (λ refused. (refused.0 ≡ cube) × (refused.1 ≡ stations)) }
    {
        let count = cube.tree.size().stations as usize;
        match vec![in alloc; None; count] {
            Err(error) => Err((cube, stations, error)),
            Ok(nodes) => {
                let Cube { tree, mut seat } = cube;
                gather(&tree, &mut seat, &mut stations);
                stations.destroy_empty();
                Ok(Solo { tree, seat, nodes })
            }
        }
    }

    /// Releases all blocks and retires all stations. In the machine that is returned every block is
    /// free.
    pub fn close(self) -> FreeMachine
        ensures free { IsWhollyFree (solo_dim self) result }
        ensures roll { (before : List ℕ) × ClosedByRoll (solo_size self).stations before result }
    {
        let mut solo = self;
        solo.release_all();
        let Solo {
            tree,
            mut seat,
            nodes: _,
        } = solo;
        retire_all(&tree, &mut seat);
        tree.load_roll(&mut seat);
        finish(tree, seat)
    }

    // Releases all blocks.
    fn release_all(&mut self)
        ensures size { solo_size self.new ≡ solo_size self.old }
        ensures idle { (s : ℕ) → held_by self.new s ≡ None }
    {
        for station in 0..self.nodes.len() {
            if self.holds(station) {
                self.release(station);
            }
        }
    }
}

// Joins the seats of the stations of the list to this one.
fn gather(tree: &Tree, seat: &mut Seat, list: &mut Vec<TreeStation>)
    requires table { seat.old.table_id ≡ id_of tree.now }
    requires bare { IsBare seat.old.me }
    requires of_tree { All (HasTable (id_of tree.now)) list.old.items }
    requires all { HasAll (station_count tree.now) list.old.items }
    ensures table { seat.new.table_id ≡ seat.old.table_id }
    ensures slots { seat.new.me.1 ≡ [] }
    ensures empty { vec_len list.new ≡ 0 }
    ensures idle { All (λ e. e.phase ≡ Phase.Idle) seat.new.me.0.stations }
    ensures present { (s : ℕ) → s < station_count tree.now → 0 < times s seat.new.me.0.stations }
{
    while let Some(station) = list.pop() {
        let TreeStation {
            number: _,
            hint: _,
            seat: own,
        } = station;
        tree.merge(seat, own);
    }
}

// Retires all stations, which are idle.
fn retire_all(tree: &Tree, seat: &mut Seat)
    requires table { seat.old.table_id ≡ id_of tree.now }
    requires all { AreAllAtRest (station_count tree.now) seat.old.me }
    requires idle { All (λ e. e.phase ≡ Phase.Idle) seat.old.me.0.stations }
    ensures table { seat.new.table_id ≡ seat.old.table_id }
    ensures slots { seat.new.me.1 ≡ seat.old.me.1 }
    ensures all { AreAllAtRest (station_count tree.now) seat.new.me }
    ensures gone { All (IsGoneBelow (station_count tree.now)) seat.new.me.0.stations }
{
    for station in 0..tree.size().stations {
        retire_one(tree, seat, station);
    }
}

// Retires a station, which is idle.
fn retire_one(tree: &Tree, seat: &mut Seat, station: u32)
    requires table { seat.old.table_id ≡ id_of tree.now }
    requires all { AreAllAtRest (station_count tree.now) seat.old.me }
    requires there { station < station_count tree.now }
    requires idle { HasPhase station Phase.Idle seat.old.me }
    ensures table { seat.new.table_id ≡ seat.old.table_id }
    ensures moved { IsMoved station Phase.Retired seat.old.me seat.new.me }
{
    tree.turn(seat, station);
    tree.retire(seat, station);
}
