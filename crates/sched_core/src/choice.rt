//! The head, and the first job that may pass it.

ghost use Rattle.std.specs.Prelude.{◌≡◌, ℕ, ◌<◌, ◌≤◌, ◌⊎◌, Some, None, IfSome, IfNone};
ghost use Rattle.cube_shape.specs.Region.{IsAligned, block as block_at};
ghost use Rattle.sched_law.specs.declared.job.SchedWait.{SchedWait as WaitData};
ghost use Rattle.sched_law.specs.declared.job.Reservation.{Reservation as ReservationData};
ghost use Rattle.sched_law.specs.State.{Sched, IsVacant};
ghost use Rattle.sched_law.specs.Policy.{HasNone, IsFirst, IsHead, IsVacantBeside};
ghost use Rattle.sched_blocks.specs.Shows.{Shows};
ghost use Rattle.sched_core.specs.Shows.{ShowsCore, dim_of};
ghost use Rattle.sched_core.specs.Inner.{HasNonePassing, IsBriefLimit, IsHeadSlot, IsLargestVacant, IsPassing};

use crate::assigned::Assigned;
use crate::scheduler::Core;
use crate::small::slack;
use cube_shape::Region;
use sched_law::Place;

impl Core {
    /// Returns the slot of the head: that of the reserved job, else of the first waiting job with a
    /// usable block.
    pub(crate) fn head(&self) -> Option<u32>
        requires { (w : Sched) × ShowsCore w self.now }
        ensures head { (w : Sched) → ShowsCore w self.now
            → IfSome result (IsHeadSlot w self.now.jobs) }
        ensures none { (w : Sched) → ShowsCore w self.now
            → IfNone result ((j : ℕ) (wait : WaitData) → IsHead w j wait → ⊥) }
    {
        if let Some(kept) = self.reserved {
            return Some(kept.slot);
        }
        let Some(largest) = self.blocks.largest_usable() else {
            return None;
        };
        self.jobs.first(largest)
    }

    // Returns the first vacant block of dimension `k` apart from one that is to be avoided, else
    // the first vacant one.
    fn first_around(&self, k: u32, avoid: Region) -> Option<Region>
        requires dim { k ≤ dim_of self.now }
        requires avoid { IsAligned (dim_of self.now) avoid }
        ensures first { (w : Sched) → ShowsCore w self.now → IfSome result (λ r. (m : ℕ)
            × (r ≡ block_at k m) × (IsFirst w.dim k (IsVacantBeside w avoid) m
            ⊎ (HasNone w.dim k (IsVacantBeside w avoid) × IsFirst w.dim k (IsVacant w) m))) }
        ensures none { (w : Sched) → ShowsCore w self.now
            → IfNone result (HasNone w.dim k (IsVacant w)) }
    {
        if let Some(region) = self.blocks.first_beside(k, avoid) {
            return Some(region);
        }
        self.blocks.first(k)
    }

    // Returns the first waiting job with a vacant block, and this block.
    fn passing_any(&self, most: u32) -> Option<Assigned>
        requires shows { (w : Sched) × ShowsCore w self.now }
        requires most { (w : Sched) → ShowsCore w self.now → IsLargestVacant w most }
        ensures first { (w : Sched) → ShowsCore w self.now
            → IfSome result (IsPassing None w self.now.jobs) }
        ensures none { (w : Sched) → ShowsCore w self.now
            → IfNone result (HasNonePassing None w) }
    {
        let Some(slot) = self.jobs.first_passing(Some(most), None, 0) else {
            return None;
        };
        let Place::Waiting(wait) = self.jobs.place(slot) else {
            return None;
        };
        let Some(block) = self.blocks.first(wait.job.dim as u32) else {
            return None;
        };
        Some(Assigned { slot, block })
    }

    // Returns the longest estimate with which a job may start in a reserved block, or 0. With a
    // block of dimension `most` beside the reserved one it returns 0, since no job then has to.
    fn limit_beside(&self, any: Option<u32>, most: u32, avoid: Region) -> u64
        requires { IsAligned (dim_of self.now) avoid }
        ensures same { any ≡ Some most → result ≡ 0 }
        ensures brief { (w : Sched) → ShowsCore w self.now
            → (any ≡ Some most) ⊎ IsBriefLimit w avoid result }
    {
        if any == Some(most) {
            return 0;
        }
        slack(self.blocks.latest(avoid), self.time)
    }

    // Returns the first waiting job that may start beside a reserved block, and its block.
    fn passing_around(&self, most: u32, avoid: Region) -> Option<Assigned>
        requires shows { (w : Sched) × ShowsCore w self.now }
        requires most { (w : Sched) → ShowsCore w self.now → IsLargestVacant w most }
        requires avoid { IsAligned (dim_of self.now) avoid }
        ensures first { (w : Sched) (kept : ReservationData) → ShowsCore w self.now
            → kept.block ≡ avoid → IfSome result (IsPassing (Some kept) w self.now.jobs) }
        ensures none { (w : Sched) (kept : ReservationData) → ShowsCore w self.now
            → kept.block ≡ avoid → IfNone result (HasNonePassing (Some kept) w) }
    {
        let any = self.blocks.largest_beside(avoid);
        let limit = self.limit_beside(any, most, avoid);
        let Some(slot) = self.jobs.first_passing(any, Some(most), limit) else {
            return None;
        };
        let Place::Waiting(wait) = self.jobs.place(slot) else {
            return None;
        };
        let Some(block) = self.first_around(wait.job.dim as u32, avoid) else {
            return None;
        };
        Some(Assigned { slot, block })
    }

    /// Returns the first waiting job that may start beside the reservation, and its block.
    pub(crate) fn passing(&self) -> Option<Assigned>
        requires { (w : Sched) × ShowsCore w self.now }
        ensures first { (w : Sched) → ShowsCore w self.now
            → IfSome result (IsPassing w.reserved w self.now.jobs) }
        ensures none { (w : Sched) → ShowsCore w self.now
            → IfNone result (HasNonePassing w.reserved w) }
    {
        let Some(most) = self.blocks.largest_vacant() else {
            return None;
        };
        let Some(kept) = self.reserved else {
            return self.passing_any(most);
        };
        self.passing_around(most, kept.block)
    }
}
