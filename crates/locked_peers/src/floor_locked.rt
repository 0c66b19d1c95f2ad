// `LockedFloor`, and its calls, which meet the contract `Floor`.
ghost use Rattle.std.specs.Prelude.{◌≡◌, ℕ, ◌+◌, ◌^◌, ◌<◌, ◌≤◌, ◌++◌, [], ◌∷◌, Some, None, IfOk, MatchOption, length, replicate};
ghost use Rattle.std.specs.List.{All};
ghost use Rattle.cube_shape.specs.Region.{AreApart, IsAligned};
ghost use Rattle.floors.specs.Floor.{IsWhollyFree};
ghost use Rattle.locked_peers.specs.InnerFloor.Step.{IsStationSeat};
ghost use Rattle.locked_peers.specs.InnerFloor.Handle.{floor_id, size_of, IsOf, grants_in};

use crate::floor_handle::{FreeMachine, Held, LockedStation};
use crate::floor_lock::{BitsLock, Seat};
use crate::floor_members::{deal_stations, gather_stations};
use crate::floor_view::Size;
use backoff::Pause;
use cube_shape::{MAX_DIM, MAX_STATIONS, Region};
use floors::Floor;
use std::alloc::{AllocError, Global};
use std::sync::Wait;

/// An allocator whose allocation bits, an `AllocBits`, are under one lock. It cannot be dropped:
/// `close` consumes it.
pub struct LockedFloor {
    lock: BitsLock,
    // The words of the machine at the end, reserved when the allocator opens.
    words: Vec<u64>,
    ghost zero: { words.items ≡ replicate (2 ^ ((size_of lock).dim + 1)) 0 },
    ghost some: { 0 < (size_of lock).stations },
}

impl LockedFloor {
    // Tries once to take a block of dimension `k`.
    fn try_take<R: Wait>(&self, rt: &R, seat: &mut Seat, number: u32, k: u32) -> Option<Region>
        requires of_floor { IsOf (floor_id self.now.lock) seat.old.table_id seat.old.me.0.about }
        requires station { IsStationSeat seat.old.me number None }
        requires dim { k ≤ (size_of self.now.lock).dim }
        ensures of_floor { IsOf (floor_id self.now.lock) seat.new.table_id seat.new.me.0.about }
        ensures station { IsStationSeat seat.new.me number result }
        ensures given { MatchOption result (grants_in seat.new.me ≡ grants_in seat.old.me) (λ r.
            IsAligned (size_of self.now.lock).dim r × (r.dim ≡ k)
            × (grants_in seat.new.me ≡ grants_in seat.old.me ++ r ∷ [])) }
    {
        self.lock.enter(rt, seat);
        match self.lock.allot(seat, number, k) {
            Some(region) => {
                self.lock.grant(seat);
                Some(region)
            }
            None => {
                self.lock.leave(seat);
                None
            }
        }
    }
}

impl Floor for LockedFloor {
    type Station = LockedStation;

    type Held = Held;

    type Machine = FreeMachine;

    ghost use Rattle.locked_peers.specs.InnerFloor.Handle.{floor_id, is_station as IsStation, is_held as IsHeld, grants_of, held_grants as grants_of_held, held_region as region_of_held, machine_dim as dim_of_machine, machine_words as words_of_machine, AreBitsFree};

    ghost id = { λ floor. floor_id floor.lock };

    ghost is_station = { IsStation };

    ghost is_held = { IsHeld };

    ghost grants = { grants_of };

    ghost held_grants = { grants_of_held };

    ghost held_region = { region_of_held };

    ghost machine_dim = { dim_of_machine };

    ghost machine_words = { words_of_machine };

    ghost is_closed = { AreBitsFree };

    fn open(
        alloc: Global,
        n: u32,
        stations: u32,
    ) -> Result<(LockedFloor, Vec<LockedStation>), AllocError>
        requires dim { n ≤ MAX_DIM }
        requires some { 0 < stations }
        requires few { stations ≤ MAX_STATIONS }
        ensures dim { IfOk result (λ made. (floor_id made.0.lock).dim ≡ n) }
        ensures stations { IfOk result (λ made. (floor_id made.0.lock).stations ≡ stations) }
        ensures count { IfOk result (λ made. length made.1.items ≡ stations) }
        ensures of_floor { IfOk result (λ made.
            All (IsStation (floor_id made.0.lock)) made.1.items) }
        ensures fresh { IfOk result (λ made. All (λ s. grants_of s ≡ []) made.1.items) }
    {
        let words = vec![in alloc; 0; 1 << (n + 1)]?;
        let list = Vec::with_capacity(alloc, stations as usize)?;
        let Ok((lock, seat)) = BitsLock::new(alloc, Size { dim: n, stations }) else {
            list.destroy_empty();
            return Err(AllocError);
        };
        let list = deal_stations(&lock, seat, list, stations);
        Ok((LockedFloor { lock, words }, list))
    }

    fn take<R: Wait>(&self, rt: &R, station: LockedStation, k: u32) -> Held {
        let LockedStation { number, mut seat } = station;
        let mut pause = Pause::new();
        for _ in rt.forever() {
            if let Some(region) = self.try_take(rt, &mut seat, number, k) {
                return Held {
                    number,
                    region,
                    seat,
                };
            }
            pause.wait(rt);
        }
        unreachable!()
    }

    fn region(held: &Held) -> Region {
        held.region
    }

    fn apart(&self, a: Held, b: Held) -> (Held, Held) {
        let Held {
            number,
            region,
            mut seat,
        } = a;
        let Held {
            number: other_number,
            region: other_region,
            seat: other_seat,
        } = b;
        self.lock.gather(&mut seat, other_seat);
        self.lock.compare(&mut seat);
        let own = self.lock.deal(&mut seat);
        let first = Held {
            number,
            region,
            seat: own,
        };
        let second = Held {
            number: other_number,
            region: other_region,
            seat,
        };
        (first, second)
    }

    fn release<R: Wait>(&self, rt: &R, held: Held) -> LockedStation {
        let Held {
            number,
            region: _,
            mut seat,
        } = held;
        self.lock.enter(rt, &mut seat);
        self.lock.withdraw(&mut seat, number);
        self.lock.free(&mut seat);
        LockedStation { number, seat }
    }

    fn close(self, stations: Vec<LockedStation>) -> FreeMachine
        requires of_floor { All (IsStation (floor_id self.lock)) stations.items }
        requires all { length stations.items ≡ (floor_id self.lock).stations }
        ensures granted { All (λ s. All (IsAligned (floor_id self.lock).dim) (grants_of s))
            stations.items }
        ensures closed { AreBitsFree (floor_id self.lock).stations result }
        ensures dim { dim_of_machine result ≡ (floor_id self.lock).dim }
        ensures free { IsWhollyFree (floor_id self.lock).dim (words_of_machine result) }
    {
        let LockedFloor { lock, words } = self;
        let seat = gather_stations(&lock, stations);
        let bits = lock.end(seat);
        FreeMachine { bits, words }
    }

    fn dim(machine: &FreeMachine) -> u32 {
        machine.bits.dim()
    }

    fn words(machine: &FreeMachine) -> &[u64] {
        &machine.words
    }
}
