//! Opening a tree, and making one machine of it with all its stations.
ghost use Rattle.std.specs.Prelude.{All};
ghost use Rattle.cube_tree.specs.Ends.{HasAll};
ghost use Rattle.cube_tree.specs.Handles.{cube_size, IsStationOf};

use crate::memory::told::{counted, tell_given, tell_refused};
use cube_tree::{Cube, CubeRefused, Solo, TreeStation};
use std::alloc::Global;
use std::io;

const DIM: u32 = 2;

// Returns the numbers of three stations, or of as many as there are.
fn numbers(stations: &[TreeStation]) -> [u64; 3] {
    let mut numbers = [u64::MAX; 3];
    for (place, station) in stations.iter().enumerate() {
        if let Some(number) = numbers.get_mut(place) {
            *number = station.number() as u64;
        }
    }
    numbers
}

// Takes the first free block of a new machine, and closes the machine.
fn hold_and_close<R: Print>(rt: &R, solo: Solo) -> io::Result<()> {
    let mut solo = solo;
    let told = match solo.take(0) {
        Ok(station) => tell_given(rt, "Solo::new", &[station as u64]),
        Err(_) => rt.println("Solo::new no region"),
    };
    let _machine = solo.close();
    told
}

// Makes one machine of a tree, whose opening was printed before. Returns how many calls had memory.
fn call_new<R: Print>(
    rt: &R,
    alloc: Global,
    told: io::Result<()>,
    cube: Cube,
    stations: Vec<TreeStation>,
) -> io::Result<u64>
    requires cube { All (IsStationOf cube) stations.items }
    requires all { HasAll (cube_size cube).stations stations.items }
{
    match Solo::new(alloc, cube, stations) {
        Ok(solo) => counted(hold_and_close(rt, solo).and(told), 2),
        Err((cube, stations, _)) => {
            let refused = tell_refused(rt, "Solo::new", &numbers(&stations));
            let _machine = cube.close_with(stations);
            counted(told.and(refused), 1)
        }
    }
}

/// Opens a tree of three stations and makes one machine of it.
pub(crate) fn call_all<R: Print>(rt: &R, alloc: Global) -> io::Result<u64> {
    match Cube::open(alloc, DIM, 3) {
        Ok((cube, stations)) => {
            let opened = tell_given(rt, "Cube::open", &numbers(&stations));
            call_new(rt, alloc, opened, cube, stations)
        }
        Err(CubeRefused::OutOfMemory) => counted(tell_refused(rt, "Cube::open", &[]), 0),
        Err(_) => Ok(0),
    }
}
