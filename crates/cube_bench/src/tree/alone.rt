//! The turns of one station that no other thread disturbs. They run on a tree whose stations are
//! all with one caller, and on the allocation bits.
ghost use Rattle.std.specs.Prelude.{◌≡◌, ◌≤◌};
ghost use Rattle.cube_tree.specs.Solo.{solo_dim};

use crate::tree::lanes::DIM;
use crate::tree::turns::dim_of;
use crate::tree::words::Workload;
use alloc_bits::AllocBits;
use cube_tree::{Cube, CubeRefused, Solo};
use std::alloc::{AllocError, Global};

// Makes one take with its release. Returns whether it succeeded.
fn solo_turn(solo: &mut Solo, k: u32) -> bool
    requires { k ≤ solo_dim solo.old }
    ensures { solo_dim solo.new ≡ solo_dim solo.old }
{
    let Ok(station) = solo.take(k) else {
        return false;
    };
    solo.release(station);
    true
}

// Makes takes, each with its release. Returns how many succeeded.
fn solo_turns(solo: &mut Solo, workload: Workload) -> u64
    requires { solo_dim solo.old ≡ DIM }
{
    let mut given = 0u64;
    for index in 0..workload.turns {
        let is_given = solo_turn(solo, dim_of(workload.sizes, 0, index));
        given = given.wrapping_add(u64::from(is_given));
    }
    given
}

/// Returns how many takes succeed on a tree whose stations are all with one caller.
pub(crate) fn given_by_solo(alloc: Global, workload: Workload) -> Result<u64, CubeRefused> {
    let stations = if workload.beside_half { 2 } else { 1 };
    match Cube::open(alloc, DIM, stations) {
        Err(why) => Err(why),
        Ok((cube, stations)) => match Solo::new(alloc, cube, stations) {
            Ok(mut solo) => {
                if workload.beside_half {
                    let _half = solo.take(DIM - 1);
                }
                let given = solo_turns(&mut solo, workload);
                solo.close();
                Ok(given)
            }
            Err((cube, stations, _)) => {
                cube.close_with(stations);
                Err(CubeRefused::OutOfMemory)
            }
        },
    }
}

/// Returns how many takes succeed on the allocation bits.
pub(crate) fn given_by_bits(alloc: Global, workload: Workload) -> Result<u64, AllocError> {
    let mut bits = AllocBits::new(alloc, DIM)?;
    if workload.beside_half {
        let _half = bits.take(1, DIM - 1);
    }
    Ok(bit_turns(&mut bits, workload))
}

// Makes takes, each with its release. Returns how many succeeded.
fn bit_turns(bits: &mut AllocBits, workload: Workload) -> u64
    requires { bits.old.dim ≡ DIM }
{
    let mut given = 0u64;
    for index in 0..workload.turns {
        if bits.holds(0) {
            return given;
        }
        if bits.take(0, dim_of(workload.sizes, 0, index)).is_ok() && bits.release(0).is_ok() {
            given = given.wrapping_add(1);
        }
    }
    given
}
