// A producer: submitting the jobs of one lane.
ghost use Rattle.std.specs.Prelude.{◌≡◌, ◌++◌};
ghost use Rattle.std.specs.List.{All};
ghost use Rattle.job_queue.specs.Record.{accepted_jobs};
ghost use Rattle.job_queue.specs.Line.{IsFor};

use job_queue::{JobLine, Refused};
use job_types::Job;
use std::collections::VecDeque;
use std::sync::Wait;
use std::thread::yield_now;

/// Submits the jobs from the front, and tries again if the queue is full. Jobs are left only if the
/// queue was closed or the lane was spent. They were not accepted.
pub fn feed<R: Wait, L: JobLine>(rt: &R, line: &L, lane: &mut L::Lane, jobs: &mut VecDeque<Job>)
    requires lane { L.is_lane (L.id line.now) lane.old }
    requires jobs { All (IsFor (L.id line.now).sizes.machine (L.lane_record lane.old).number)
        jobs.old.items }
    ensures lane { L.is_lane (L.id line.now) lane.new }
    ensures number { (L.lane_record lane.new).number ≡ (L.lane_record lane.old).number }
    ensures jobs { All (IsFor (L.id line.now).sizes.machine (L.lane_record lane.new).number)
        jobs.new.items }
    ensures fed { accepted_jobs (L.lane_record lane.new) ++ jobs.new.items
        ≡ accepted_jobs (L.lane_record lane.old) ++ jobs.old.items }
{
    for _ in rt.forever() {
        let Some(job) = jobs.pop_front() else {
            return;
        };
        match line.submit(rt, lane, job) {
            Ok(_) => {}
            Err((job, Refused::Full)) => {
                jobs.push_front_reserved(job);
                yield_now();
            }
            Err((job, Refused::Closed { .. } | Refused::LaneSpent)) => {
                jobs.push_front_reserved(job);
                return;
            }
        }
    }
    unreachable!()
}
