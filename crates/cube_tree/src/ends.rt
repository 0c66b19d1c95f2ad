//! Retiring stations, and closing a cube.
ghost use Rattle.std.specs.Prelude.{◌≡◌, ◌≢◌, ℕ, ◌<◌, ◌≤◌, List, [], ◌∷◌, All, IfOk, IfErr, length, slice_index};
ghost use Rattle.tree_steps.specs.Steps.{HasWholeRoll, retire_at};
ghost use Rattle.tree_steps.specs.Tree.{id_of, size_of, station_count};
ghost use Rattle.cube_tree.specs.Handles.{cube_dim, cube_size, loads_of, station_entry, HasTable, IsSameCube, IsStationOf, Retires};
ghost use Rattle.cube_tree.specs.Seats.{IsBare};
ghost use Rattle.cube_tree.specs.InnerEnds.{AreThere, IsGone};
ghost use Rattle.cube_tree.specs.Ends.{ClosedByRoll, HasAll, HasNumberBelow, IsMissing, IsWhollyFree, machine_dim, machine_loads, machine_words};

use crate::handles::{Cube, FreeMachine, RetiredStation, StillOut, TreeStation};
use cube_shape::MAX_STATIONS;
use tree_steps::{Seat, Tree};

impl TreeStation {
    /// Retires the station by one event, which sets its bit in the roll. It makes no further event.
    pub fn retire(self, cube: &Cube) -> RetiredStation
        requires { IsStationOf cube.now self }
        ensures { Retires cube.now (station_entry self) result }
    {
        RetiredStation {
            seat: self.into_retired(&cube.tree),
        }
    }

    // Retires the station, and returns its seat.
    fn into_retired(self, tree: &Tree) -> Seat
        requires { self.seat.table_id ≡ id_of tree.now }
        ensures table { result.table_id ≡ self.seat.table_id }
        ensures retires { (found : ℕ) × (result.me ≡ retire_at found self.seat.me) }
    {
        let TreeStation {
            number,
            hint: _,
            mut seat,
        } = self;
        tree.retire(&mut seat, number);
        seat
    }
}

// Returns the stations below the count whose bit is clear.
fn missing_in(roll: u64, stations: u32) -> u64
    requires { stations ≤ MAX_STATIONS }
    ensures { IsMissing stations roll result }
{
    let all = (1u64 << stations) - 1;
    all & !roll
}

impl Cube {
    /// Closes the cube if its load of the roll finds the bit of each station. Else returns the cube
    /// with the stations whose bit was clear. There is at least one.
    pub fn close(self) -> Result<FreeMachine, StillOut>
        ensures free { IfOk result (IsWhollyFree (cube_dim self)) }
        ensures roll { IfOk result (ClosedByRoll (cube_size self).stations (loads_of self)) }
        ensures missing { IfErr result (λ out. (roll : ℕ)
            × (loads_of out.cube ≡ roll ∷ loads_of self)
            × IsMissing (cube_size self).stations roll out.missing) }
        ensures some { IfErr result (λ out. out.missing ≢ 0) }
        ensures back { IfErr result (λ out. IsSameCube self out.cube) }
    {
        let Cube { tree, mut seat } = self;
        let roll = tree.load_roll(&mut seat);
        let missing = missing_in(roll, tree.size().stations);
        if missing == 0 {
            Ok(finish(tree, seat))
        } else {
            Err(StillOut {
                cube: Cube { tree, seat },
                missing,
            })
        }
    }
}

// Retires stations, and joins their seats to this one.
fn retire_each(tree: &Tree, seat: &mut Seat, mut stations: Vec<TreeStation>)
    requires seat { seat.old.table_id ≡ id_of tree.now }
    requires bare { IsBare seat.old.me }
    requires of_tree { All (HasTable (id_of tree.now)) stations.items }
    ensures seat { seat.new.table_id ≡ seat.old.table_id }
    ensures slots { seat.new.me.1 ≡ [] }
    ensures loads { seat.new.me.0.loads ≡ seat.old.me.0.loads }
    ensures gone { All IsGone seat.new.me.0.stations }
    ensures there { AreThere stations.items seat.new.me }
{
    while let Some(station) = stations.pop() {
        let retired = station.into_retired(tree);
        tree.merge(seat, retired);
    }
    stations.destroy_empty();
}

impl Cube {
    /// Retires all stations, which are given, and closes the cube.
    pub fn close_with(self, stations: Vec<TreeStation>) -> FreeMachine
        requires cube { All (IsStationOf self) stations.items }
        requires all { HasAll (cube_size self).stations stations.items }
        ensures free { IsWhollyFree (cube_dim self) result }
        ensures roll { ClosedByRoll (cube_size self).stations (loads_of self) result }
    {
        let Cube { tree, mut seat } = self;
        retire_each(&tree, &mut seat, stations);
        tree.load_roll(&mut seat);
        finish(tree, seat)
    }

    /// Retires all stations, which are given, and closes the cube. There are as many as the cube
    /// has, so these are all of them.
    pub fn close_all(self, stations: Vec<TreeStation>) -> FreeMachine
        requires cube { All (IsStationOf self) stations.items }
        requires below { All (HasNumberBelow (cube_size self).stations) stations.items }
        requires all { length stations.items ≡ (cube_size self).stations }
        ensures free { IsWhollyFree (cube_dim self) result }
        ensures roll { ClosedByRoll (cube_size self).stations (loads_of self) result }
    {
        let Cube { tree, mut seat } = self;
        retire_each(&tree, &mut seat, stations);
        tree.recount(&mut seat);
        tree.load_roll(&mut seat);
        finish(tree, seat)
    }
}

// Ends a tree of which all stations have retired.
pub(crate) fn finish(tree: Tree, mut seat: Seat) -> FreeMachine
    requires seat { seat.table_id ≡ id_of tree }
    requires slots { seat.me.1 ≡ [] }
    requires retired { HasWholeRoll (station_count tree) seat.me }
    ensures free { IsWhollyFree (size_of tree).dim result }
    ensures loads { machine_loads result ≡ seat.me.0.loads }
    ensures roll { (roll : ℕ) (earlier : List ℕ) → seat.me.0.loads ≡ roll ∷ earlier
        → slice_index (machine_words result) 0 ≡ roll }
{
    let dim = tree.size().dim;
    let loads = tree.copy_loads(&mut seat);
    FreeMachine {
        dim,
        words: tree.close(seat),
        seat: loads,
    }
}

impl FreeMachine {
    /// Returns the dimension of the machine.
    pub fn dim(&self) -> u32
        ensures { result ≡ machine_dim self.now }
    {
        self.dim
    }

    /// Returns its words at the end. Word `0` is the roll as it was last loaded, and word `v` that
    /// of node `v`.
    pub fn words(&self) -> &[u64]
        ensures { result.now ≡ machine_words self.now }
    {
        &self.words
    }
}
