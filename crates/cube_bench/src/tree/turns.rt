//! The turns of one station.
ghost use Rattle.std.specs.Prelude.{◌≡◌, ◌≤◌};
ghost use Rattle.cube_tree.specs.Handles.{cube_dim, IsStationOf};
ghost use Rattle.cube_bench.specs.declared.tree.lanes.TheConstants.{DIM};

use cube_tree::{Cube, TreeStation};

/// The dimensions that takes ask for.
#[derive(Clone, Copy)]
pub(crate) enum Sizes {
    /// 0.
    Leaf,
    /// 0 to 5 in turn.
    Mixed,
    /// 0 to 9 in turn.
    Wide,
}

/// Returns the dimension that a station asks for in a turn.
pub(crate) fn dim_of(sizes: Sizes, number: u32, turn: u64) -> u32
    ensures { result ≤ 9 }
{
    match sizes {
        Sizes::Leaf => 0,
        Sizes::Mixed => (number % 6 + (turn % 6) as u32) % 6,
        Sizes::Wide => (number % 10 + (turn % 10) as u32) % 10,
    }
}

// Makes one take with its release. Returns the station, and whether the take succeeded.
fn turn(cube: &Cube, station: TreeStation, k: u32) -> (TreeStation, bool)
    requires cube { IsStationOf cube.now station }
    requires dim { k ≤ cube_dim cube.now }
    ensures { IsStationOf cube.now result.0 }
{
    match station.search(cube, k) {
        Ok(subcube) => (subcube.release(cube), true),
        Err((station, _)) => (station, false),
    }
}

/// Makes this many turns of a station. Returns it, and how many takes succeeded.
pub(crate) fn turns(
    cube: &Cube,
    station: TreeStation,
    sizes: Sizes,
    count: u64,
) -> (TreeStation, u64)
    requires cube { IsStationOf cube.now station }
    requires dim { cube_dim cube.now ≡ DIM }
    ensures { IsStationOf cube.now result.0 }
{
    let number = station.number();
    let mut station = station;
    let mut given = 0u64;
    for index in 0..count {
        let (back, is_given) = turn(cube, station, dim_of(sizes, number, index));
        station = back;
        given = given.wrapping_add(u64::from(is_given));
    }
    (station, given)
}
