//! Calls that allocate memory, one after the other, so that it can be refused to them. The
//! arguments are `cube`, `items`, `files` or `shop SHOP JOBS`.
//!
//! Nothing is timed. After each call the program prints its name and what came back. After the last
//! one it prints how many calls had the memory that they needed.

mod cube;
mod files;
mod items;
mod shop;
mod single;
mod told;

use crate::outcome::{MeasureError, Measured};
use floor_tree::TreeFloor;
use line_ruled::RuledLine;
use locked_peers::{LockedFloor, LockedLine};
use std::alloc::Global;
use std::io;
use std::sync::Wait;

// The calls that can be made.
#[derive(Clone, Copy)]
enum Calls {
    Cube,
    Items,
    Files,
    // On the lock-free dispatcher, with this many jobs.
    Free(usize),
    // On the dispatcher under locks, with this many jobs.
    Locked(usize),
}

// Returns the calls on a dispatcher that these arguments ask for. The first argument is `shop`.
fn calls_of_shop(words: &[String]) -> Option<Calls> {
    let [_, shop, jobs, ..] = words else {
        return None;
    };
    let Ok(jobs) = jobs.parse::<usize>() else {
        return None;
    };
    match shop.as_str() {
        "free" => Some(Calls::Free(jobs)),
        "locked" => Some(Calls::Locked(jobs)),
        _ => None,
    }
}

// Returns the calls that these arguments ask for, if they ask for some.
fn calls_of(words: &[String]) -> Option<Calls> {
    match words.first()?.as_str() {
        "cube" => Some(Calls::Cube),
        "items" => Some(Calls::Items),
        "files" => Some(Calls::Files),
        "shop" => calls_of_shop(words),
        _ => None,
    }
}

// Makes these calls. Returns how many had memory.
fn call_all<R: Wait + Print>(rt: &R, alloc: Global, calls: Calls) -> io::Result<u64> {
    rt.println("begin")?;
    match calls {
        Calls::Cube => cube::call_all(rt, alloc),
        Calls::Items => items::call_all(rt, alloc),
        Calls::Files => files::call_all(rt, alloc),
        Calls::Free(jobs) => shop::call_all::<R, RuledLine, TreeFloor>(rt, alloc, jobs),
        Calls::Locked(jobs) => shop::call_all::<R, LockedLine, LockedFloor>(rt, alloc, jobs),
    }
}

/// Makes the calls that the arguments ask for, and counts those that had the memory that they
/// needed.
pub(crate) fn measure<R: Wait + Print>(
    rt: &R,
    alloc: Global,
    words: &[String],
) -> Result<Measured, MeasureError> {
    let Some(calls) = calls_of(words) else {
        return Err(MeasureError::BadWords);
    };
    let Ok(count) = call_all(rt, alloc, calls) else {
        return Err(MeasureError::Failed);
    };
    Ok(Measured::counted(alloc, count))
}
