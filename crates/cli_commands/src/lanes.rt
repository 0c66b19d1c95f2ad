// The lanes that a run opens.
ghost use Rattle.std.specs.Prelude.{◌≡◌, ◌≢◌, ◌⊎◌, ℕ, ◌-◌, ◌<◌, ◌≤◌, [], List, length, map, slice_index_or};
ghost use Rattle.std.specs.Global.{Global};
ghost use Rattle.std.specs.declared.collections.VecDeque.{VecDeque};
ghost use Rattle.job_types.specs.Job.{JobData};
ghost use Rattle.jobs_csv.specs.Lanes.{AreLanes};
ghost use Rattle.cli_commands.specs.OpenLanes.{AreOpenLanes};

use job_types::Job;
use std::collections::VecDeque;

// Returns how many lanes are open: lane 0, and all others up to the last one that has a job.
fn open_count(lanes: &[VecDeque<Job>]) -> usize
    requires { 0 < length lanes.now }
    ensures range { (1 ≤ result) × (result ≤ length lanes.now) }
    ensures past { (lane : ℕ) (none : VecDeque JobData Global) → result ≤ lane →
        lane < length lanes.now → (slice_index_or lanes.now lane none).items ≡ [] }
    ensures last { (result ≡ 1) ⊎ ((none : VecDeque JobData Global) →
        (slice_index_or lanes.now (result - 1) none).items ≢ []) }
{
    let mut count = 1;
    for lane in 1..lanes.len() {
        if !lanes[lane].is_empty() {
            count = lane + 1;
        }
    }
    count
}

// Returns the queues of the open lanes.
pub(crate) fn open_lanes(mut lanes: Vec<VecDeque<Job>>) -> Vec<VecDeque<Job>>
    requires { 0 < length lanes.items }
    ensures { (jobs : List JobData) → AreLanes lanes.items jobs →
        AreOpenLanes (map (λ list. list.items) result.items) jobs }
{
    let count = open_count(&lanes);
    lanes.truncate(count);
    lanes
}
