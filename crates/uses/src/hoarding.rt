//! A caller of `floors` that is an allocator itself, and shows what the contract `Floor` allows.
ghost use Rattle.std.specs.Prelude.{◌≡◌, ◌<◌, ◌≤◌, [], IfOk, length};
ghost use Rattle.std.specs.List.{All};
ghost use Rattle.cube_shape.specs.Region.{IsAligned};
ghost use Rattle.floors.specs.Floor.{IsWhollyFree};

use cube_shape::{MAX_DIM, MAX_STATIONS, Region};
use floors::Floor;
use std::alloc::{AllocError, Global};
use std::sync::Wait;
use std::sync::atomic::{AtomicBool, Ordering};
use std::thread::yield_now;

/// An allocator over another one that hoards: after one block was released, every take waits for
/// ever. It meets the contract `Floor`, which promises only what a take returns.
///
/// The contract does bind a hoarder. It returns only aligned blocks of the dimension asked, and two
/// blocks held at one moment have no processor in common. At the end each word of the machine is 0.
pub struct Hoarding<F> {
    floor: F,
    has_released: AtomicBool,
}

impl<F: Floor> Floor for Hoarding<F> {
    type Station = F::Station;

    type Held = F::Held;

    type Machine = F::Machine;

    ghost id = { λ hoarding. F.id hoarding.floor };

    ghost is_station = { F.is_station };

    ghost is_held = { F.is_held };

    ghost grants = { F.grants };

    ghost held_grants = { F.held_grants };

    ghost held_region = { F.held_region };

    ghost machine_dim = { F.machine_dim };

    ghost machine_words = { F.machine_words };

    ghost is_closed = { F.is_closed };

    fn open(
        alloc: Global,
        n: u32,
        stations: u32,
    ) -> Result<(Hoarding<F>, Vec<F::Station>), AllocError>
        requires dim { n ≤ MAX_DIM }
        requires some { 0 < stations }
        requires few { stations ≤ MAX_STATIONS }
        ensures dim { IfOk result (λ made. (F.id made.0.floor).dim ≡ n) }
        ensures stations { IfOk result (λ made. (F.id made.0.floor).stations ≡ stations) }
        ensures count { IfOk result (λ made. length made.1.items ≡ stations) }
        ensures of_floor { IfOk result (λ made.
            All (F.is_station (F.id made.0.floor)) made.1.items) }
        ensures fresh { IfOk result (λ made. All (λ s. F.grants s ≡ []) made.1.items) }
    {
        let (floor, stations) = F::open(alloc, n, stations)?;
        let has_released = AtomicBool::new(false);
        Ok((
            Hoarding {
                floor,
                has_released,
            },
            stations,
        ))
    }

    fn take<R: Wait>(&self, rt: &R, station: F::Station, k: u32) -> F::Held {
        for _ in rt.forever() {
            if !self.has_released.load(Ordering::SeqCst) {
                return self.floor.take(rt, station, k);
            }
            yield_now();
        }
        unreachable!()
    }

    fn region(held: &F::Held) -> Region {
        F::region(held)
    }

    fn apart(&self, a: F::Held, b: F::Held) -> (F::Held, F::Held) {
        self.floor.apart(a, b)
    }

    fn release<R: Wait>(&self, rt: &R, held: F::Held) -> F::Station {
        let station = self.floor.release(rt, held);
        self.has_released.store(true, Ordering::SeqCst);
        station
    }

    fn close(self, stations: Vec<F::Station>) -> F::Machine
        requires of_floor { All (F.is_station (F.id self.floor)) stations.items }
        requires all { length stations.items ≡ (F.id self.floor).stations }
        ensures granted { All (λ s. All (IsAligned (F.id self.floor).dim) (F.grants s))
            stations.items }
        ensures closed { F.is_closed (F.id self.floor).stations result }
        ensures dim { F.machine_dim result ≡ (F.id self.floor).dim }
        ensures free { IsWhollyFree (F.id self.floor).dim (F.machine_words result) }
    {
        let Hoarding {
            floor,
            has_released: _,
        } = self;
        floor.close(stations)
    }

    fn dim(machine: &F::Machine) -> u32 {
        F::dim(machine)
    }

    fn words(machine: &F::Machine) -> &[u64] {
        F::words(machine)
    }
}
