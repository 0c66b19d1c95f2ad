//! The dispatcher: a queue of jobs and the allocator of their machine.
ghost use Rattle.std.specs.Prelude.{◌≡◌, ◌≤◌, Some, Err, IfOk, IfErr, length};
ghost use Rattle.job_queue.specs.Record.{queued, IsSettled};
ghost use Rattle.job_queue.specs.Line.{next_id, GainsEntry, GainsRefusal};
ghost use Rattle.dispatcher.specs.Members.{IsCloserOf, IsNoteOf};

use crate::closing::{CloseNote, Closer};
use cube_shape::MAX_ENTRIES;
use floors::Floor;
use job_queue::{JobLine, Receipt, Refused};
use job_types::Job;
use std::marker::Model;
use std::sync::Wait;

/// A dispatcher: a queue of jobs, and the allocator of the machine that they are for. The allocator
/// has a station for each pass of the queue.
pub struct Shop<L: JobLine, F: Floor> {
    pub(crate) line: L,
    pub(crate) floor: F,
}

impl<L: JobLine, F: Floor> Model for Shop<L, F> {
    ghost use Rattle.dispatcher.specs.Shop.{ShopId};
    ghost use Rattle.dispatcher.specs.InnerShop.{IsOneMachine};

    ghost Value = { ShopId };

    ghost view = { λ s. record { line = L.id s.line; floor = F.id s.floor } };

    ghost invariant = { λ s. IsOneMachine (L.id s.line) (F.id s.floor) };
}

impl<L: JobLine, F: Floor> Shop<L, F> {
    /// Submits a job that was made for the dispatcher's machine and for this lane. It is the call
    /// of the queue.
    pub fn submit<R: Wait>(
        &self,
        rt: &R,
        lane: &mut L::Lane,
        job: Job,
    ) -> Result<Receipt, (Job, Refused)>
        requires lane { L.is_lane self.now.line lane.old }
        requires machine { job.machine ≡ self.now.line.sizes.machine }
        requires made_for_lane { job.lane ≡ (L.lane_record lane.old).number }
        ensures lane { L.is_lane self.now.line lane.new }
        ensures settled { IsSettled (L.lane_record lane.new) }
        ensures accepted { IfOk result (λ receipt. GainsEntry (L.lane_record lane.old)
            receipt.number (Some (queued receipt.id job)) (L.lane_record lane.new)) }
        ensures id { IfOk result (λ receipt. receipt.id ≡ next_id (L.lane_record lane.old)) }
        ensures gives_back { IfErr result (λ r. r.0 ≡ job) }
        ensures refused { IfErr result (λ r.
            GainsRefusal (L.lane_record lane.old) r.1 (L.lane_record lane.new)) }
        ensures spent_first { MAX_ENTRIES ≤ length (L.lane_record lane.old).entries →
            result ≡ Err (job, Refused.LaneSpent) }
        ensures spent_only { IfErr result (λ r. r.1 ≡ Refused.LaneSpent →
            MAX_ENTRIES ≤ length (L.lane_record lane.old).entries) }
    {
        self.line.submit(rt, lane, job)
    }

    /// Closes the dispatcher. No job enters its queue after this.
    pub fn close<R: Wait>(&self, rt: &R, closer: Closer<L, F>) -> CloseNote<L, F>
        requires { IsCloserOf L.JobLine self.now closer }
        ensures { IsNoteOf L.JobLine self.now result }
    {
        let Closer { line, room } = closer;
        CloseNote {
            line: self.line.close(rt, line),
            room,
        }
    }
}
