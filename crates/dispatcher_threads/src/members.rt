// The slots of all members of a run, and what its threads do with them.
use crate::feeding::Feeding;
use crate::member::{CloserSlot, LaneSlot, Naming, Offer, WorkerSlot};
use crate::pace::Pace;
use crate::threads::ThreadWork;
use dispatcher::{Runner, Shop};
use floors::Floor;
use job_queue::JobLine;
use std::alloc::Global;
use std::sync::{Mutex, Wait};

// A borrowed dispatcher, the runner of its workers, and a slot for each of its members.
pub(crate) struct ShopMembers<'a, J: Naming, L: JobLine, F: Floor, T> {
    pub shop: &'a Shop<L, F>,
    pub runner: &'a T,
    pub alloc: Global,
    pub worker_slots: Vec<Mutex<WorkerSlot<J, L, F>>>,
    pub lane_slots: Vec<Mutex<LaneSlot<J, L>>>,
    pub closer_slot: Mutex<CloserSlot<J, L, F>>,
    pub pace: Pace,
}

// The slots of the workers, of the lanes and of the closer.
type Slots<J, L, F> = (
    Vec<Mutex<WorkerSlot<J, L, F>>>,
    Vec<Mutex<LaneSlot<J, L>>>,
    Mutex<CloserSlot<J, L, F>>,
);

impl<'a, J: Naming, L: JobLine, F: Floor, T: Runner> ShopMembers<'a, J, L, F, T> {
    ghost use Rattle.std.specs.Prelude.{◌≡◌, length};

    // Submits some jobs of each lane in turn, from lane `next` on, until the queue is full. Leaves
    // out a lane that another worker feeds. Returns how many jobs were accepted, at most, and
    // whether a lane may have more.
    pub(crate) fn feed_lanes<R: Wait>(&self, rt: &R, next: &mut usize) -> (u64, bool)
        requires { self.now.shop.now ≡ J.shop }
    {
        let mut accepted = 0u64;
        let mut has_more = false;
        for _ in 0..self.lane_slots.len() {
            if *next >= self.lane_slots.len() {
                *next = 0;
            }
            let slot = &self.lane_slots[*next];
            *next = next.saturating_add(1);
            let Some(mut lane) = slot.try_lock() else {
                has_more = true;
                continue;
            };
            let turn = lane.turn(rt, self.shop);
            accepted = accepted.saturating_add(u64::from(turn.accepted));
            has_more |= turn.last != Offer::Stopped;
            if turn.last == Offer::Full {
                break;
            }
        }
        (accepted, has_more)
    }

    // Returns all slots after their threads have ended.
    pub(crate) fn into_slots(self) -> Slots<J, L, F>
        ensures workers { length result.0.items ≡ length self.entry.worker_slots.items }
        ensures lanes { length result.1.items ≡ length self.entry.lane_slots.items }
    {
        let ShopMembers {
            shop: _,
            runner: _,
            alloc: _,
            worker_slots,
            lane_slots,
            closer_slot,
            pace: _,
        } = self;
        (worker_slots, lane_slots, closer_slot)
    }
}

impl<'a, J: Naming, L: JobLine, F: Floor, T: Runner> ThreadWork for ShopMembers<'a, J, L, F, T> {
    ghost use Rattle.std.specs.Prelude.{◌≡◌};

    ghost is_ready = { λ g. g.shop.now ≡ J.shop };

    fn worker_count(&self) -> usize {
        self.worker_slots.len()
    }

    fn work<R: Wait>(&self, rt: &R, index: usize) {
        if let Some(slot) = self.worker_slots.get(index) {
            let feeding = Feeding::begin(rt, self, index);
            let spent = slot
                .lock(rt)
                .dispatch(rt, self.alloc, self.shop, self.runner, feeding);
            if spent {
                self.close(rt);
            }
        }
    }

    fn close<R: Wait>(&self, rt: &R) {
        self.closer_slot.lock(rt).close(rt, self.shop);
        self.pace.end();
    }
}
