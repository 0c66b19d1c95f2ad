//! A station on each thread.
ghost use Rattle.std.specs.Prelude.{◌≡◌, ◌+◌, ◌<◌, ◌≤◌, [], All, MatchResult, vec_len, vec_capacity};
ghost use Rattle.cube_shape.specs.declared.limits.TheConstants.{MAX_STATIONS};
ghost use Rattle.cube_tree.specs.Handles.{cube_dim, IsStationOf, IsSubcubeOf};
ghost use Rattle.cube_bench.specs.TreeLanes.{HasStation};

use crate::tree::turns::turns;
use crate::tree::words::Workload;
use cube_tree::{Cube, CubeRefused, StillOut, Subcube, TreeStation};
use std::alloc::Global;
use std::sync::Wait;
use std::thread::Threads;
use std::{mem, thread};

/// The dimension of the machine.
pub(crate) const DIM: u32 = 10;

// A station that one thread steps with, and the result of its turns.
struct Lane {
    station: Option<TreeStation>,
    // The number of takes that succeeded.
    given: u64,
}

// Makes the turns of the station of a lane. The lane has a station before and after.
fn run(cube: &Cube, workload: Workload, lane: &mut Lane)
    requires station { HasStation cube.now lane.old }
    requires dim { cube_dim cube.now ≡ DIM }
    ensures { HasStation cube.now lane.new }
{
    let station = lane.station.take().unwrap();
    let (station, given) = turns(cube, station, workload.sizes, workload.turns);
    lane.given = given;
    match mem::replace(&mut lane.station, Some(station)) {
        None => (),
        Some(_) => unreachable!(),
    }
}

// Makes the turns of all lanes, each on a thread of its own.
fn run_all<R: Threads + Sync>(rt: &R, cube: &Cube, workload: Workload, lanes: &mut [Lane])
    requires stations { All (HasStation cube.now) lanes.old }
    requires dim { cube_dim cube.now ≡ DIM }
    ensures { All (HasStation cube.now) lanes.new }
{
    let count = lanes.len().max(1);
    thread::for_each_mut(
        rt,
        lanes,
        count,
        &|_, lane|
            requires { HasStation cube.now lane.now × (cube_dim cube.now ≡ DIM) }
            ensures { HasStation cube.entry.now lane.exit.now }
        { run(cube, workload, lane) },
    );
}

// Gives each station of the list a lane.
fn seat_all(cube: &Cube, list: &mut Vec<TreeStation>, lanes: &mut Vec<Lane>)
    requires stations { All (IsStationOf cube.now) list.old.items }
    requires empty { lanes.old.items ≡ [] }
    requires enough { vec_len list.old ≤ vec_capacity lanes.old }
    ensures none { vec_len list.new ≡ 0 }
    ensures seated { All (HasStation cube.now) lanes.new.items }
{
    while let Some(station) = list.pop() {
        lanes.push_reserved(Lane {
            station: Some(station),
            given: 0,
        });
    }
}

// Retires all stations. Returns how many of their takes succeeded.
fn retire_all(cube: &Cube, lanes: &mut Vec<Lane>) -> u64
    requires { All (HasStation cube.now) lanes.old.items }
    ensures { vec_len lanes.new ≡ 0 }
{
    let mut sum = 0u64;
    while let Some(Lane { station, given }) = lanes.pop() {
        match station {
            Some(station) => {
                station.retire(cube);
            }
            None => (),
        }
        sum = sum.wrapping_add(given);
    }
    sum
}

// Returns the last station of the list.
fn last(cube: &Cube, list: &mut Vec<TreeStation>) -> TreeStation
    requires of_cube { All (IsStationOf cube.now) list.old.items }
    requires some { 0 < vec_len list.old }
    ensures station { IsStationOf cube.now result }
    ensures rest { All (IsStationOf cube.now) list.new.items }
    ensures len { vec_len list.new + 1 ≡ vec_len list.old }
{
    list.pop().unwrap()
}

// Takes half of the machine for the station without a thread, if the run is to have one.
fn hold_half(cube: &Cube, station: TreeStation, beside_half: bool) -> Result<Subcube, TreeStation>
    requires cube { IsStationOf cube.now station }
    requires dim { cube_dim cube.now ≡ DIM }
    ensures { MatchResult result (IsSubcubeOf cube.now) (IsStationOf cube.now) }
{
    if !beside_half {
        return Err(station);
    }
    match station.search(cube, DIM - 1) {
        Ok(subcube) => Ok(subcube),
        Err((station, _)) => Err(station),
    }
}

// Releases the half and retires the station.
fn leave(cube: &Cube, holder: Result<Subcube, TreeStation>)
    requires { MatchResult holder (IsSubcubeOf cube.now) (IsStationOf cube.now) }
{
    let station = match holder {
        Ok(subcube) => subcube.release(cube),
        Err(station) => station,
    };
    station.retire(cube);
}

// Closes a tree whose stations have all retired.
fn close(rt: &impl Wait, cube: Cube) {
    let mut cube = cube;
    for _ in rt.forever() {
        match cube.close() {
            Ok(_) => return,
            Err(
                StillOut {
                    cube: back,
                    missing: _,
                },
            ) => cube = back,
        }
    }
    unreachable!()
}

/// Returns how many takes succeed in the run that is asked for.
pub(crate) fn given_in<R: Threads + Wait + Sync>(
    rt: &R,
    alloc: Global,
    threads: u32,
    workload: Workload,
) -> Result<u64, CubeRefused>
    requires some { 0 < threads }
    requires few { threads < MAX_STATIONS }
{
    let Ok(mut lanes) = Vec::with_capacity(alloc, threads as usize) else {
        return Err(CubeRefused::OutOfMemory);
    };
    match Cube::open(alloc, DIM, threads + 1) {
        Ok((cube, mut list)) => {
            let holder = last(&cube, &mut list);
            let holder = hold_half(&cube, holder, workload.beside_half);
            seat_all(&cube, &mut list, &mut lanes);
            list.destroy_empty();
            run_all(rt, &cube, workload, lanes.as_mut_slice());
            let given = retire_all(&cube, &mut lanes);
            leave(&cube, holder);
            lanes.destroy_empty();
            close(rt, cube);
            Ok(given)
        }
        Err(why) => {
            lanes.destroy_empty();
            Err(why)
        }
    }
}
