// What a worker of a run does where it finds the queue empty: it feeds the lanes itself.
ghost use Rattle.std.specs.Prelude.{◌≡◌};

use crate::member::Naming;
use crate::members::ShopMembers;
use crate::threads::ThreadWork;
use dispatcher::{Idle, Runner};
use floors::Floor;
use job_queue::JobLine;
use std::sync::Wait;

// How often a worker that has joined feeds the lanes before it looks whether it is still of use.
const FIRST_STAY: u32 = 32;

// The largest number of times, which doubles with each stay that was of use.
const LONGEST_STAY: u32 = 1 << 14;

/// The feeding of the lanes by one worker.
///
/// The first worker always takes part. Each other one looks from time to time. It takes part if few
/// jobs were submitted, since then the jobs are long, and several end earlier at the same time.
#[derive(Drop)]
pub(crate) struct Feeding<'a, J: Naming, L: JobLine, F: Floor, T: Runner> {
    members: &'a ShopMembers<'a, J, L, F, T>,
    is_first: bool,
    // The lane that is fed next.
    next: usize,
    // How often this worker feeds in this stay, and how often it still does.
    stay: u32,
    left: u32,
    ghost ready: { members.now.shop.now ≡ J.shop },
}

impl<'a, J: Naming, L: JobLine, F: Floor, T: Runner> Feeding<'a, J, L, F, T> {
    /// Begins the feeding of a worker. If it is not the first one, sleeps until it is of use.
    pub fn begin<R: Wait>(rt: &R, members: &'a ShopMembers<'a, J, L, F, T>, worker: usize) -> Self
        requires { members.now.shop.now ≡ J.shop }
    {
        if worker > 0 {
            members.pace.join_in(rt);
        }
        Feeding {
            members,
            is_first: worker == 0,
            next: worker,
            stay: FIRST_STAY,
            left: FIRST_STAY,
        }
    }

    // Counts one more feeding of a stay. At the end of a stay, sleeps until the worker is of use.
    fn stay_on<R: Wait>(&mut self, rt: &R) {
        if self.left > 0 {
            self.left -= 1;
            return;
        }
        self.members.pace.leave();
        let was_of_use = self.members.pace.join_in(rt);
        self.stay = if was_of_use {
            self.stay.saturating_mul(2).min(LONGEST_STAY)
        } else {
            FIRST_STAY
        };
        self.left = self.stay;
    }
}

impl<'a, J: Naming, L: JobLine, F: Floor, T: Runner> Idle for Feeding<'a, J, L, F, T> {
    fn find_jobs<R: Wait>(&mut self, rt: &R) -> bool {
        if !self.is_first {
            self.stay_on(rt);
        }
        let (accepted, has_more) = self.members.feed_lanes(rt, &mut self.next);
        if !has_more {
            self.members.close(rt);
            return true;
        }
        self.members.pace.add(accepted);
        accepted > 0
    }
}
