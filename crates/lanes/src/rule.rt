// The rule of the table, and the names of its steps.
ghost use Rattle.lanes.specs.Inner.Pool.{KeepsBoth, first_both, threads_in, goes, noted, stills, accepts_both, looks_on_both, finds_both, without_lane_both, lane_alone_both, without_worker_both, worker_alone_both, joined_both, spent_both};
ghost use Rattle.lanes.specs.Inner.PoolLaw.{pool_law as lanes_pool_law};
ghost use Rattle.lanes.specs.Inner.Step.{reads_count_at, looks_at, puts_payload_at, puts_dim_at, closes_at, reads_head_at, reads_tail_at, reads_payload_at, reads_dim_at, takes_at};

use crate::sizes::Plan;
use crate::view::Both;
use atomic_table::{Join, Play, Split, TableRule};
use wake_calls::WakeRule;

pub struct LanesRule;

impl TableRule<(), Both, Plan> for LanesRule {
    ghost holds = { KeepsBoth };

    ghost first = { first_both };
}

impl WakeRule<Both, Plan> for LanesRule {
    ghost workers = { λ plan. plan.sleepers };

    ghost lanes = { λ plan. plan.sizes.lanes };

    ghost threads = { threads_in };

    ghost goes = { goes };

    ghost noted = { noted };

    ghost pool_law = { lanes_pool_law };
}

// The producer reads how many jobs its lane has accepted, and the closed mark.
pub struct ReadCount;

impl Play<(), Both> for ReadCount {
    ghost then = { stills reads_count_at };
}

// The producer reads how many jobs were taken.
pub struct Look;

impl Play<(), Both> for Look {
    ghost then = { stills looks_at };
}

// The producer puts a payload in its next cell.
pub struct PutPayload;

impl Play<(), Both> for PutPayload {
    ghost then = { stills puts_payload_at };
}

// The producer puts a dimension in the cell after it.
pub struct PutDim;

impl Play<(), Both> for PutDim {
    ghost then = { stills puts_dim_at };
}

// The producer counts the job.
pub struct Accept;

impl Play<(), Both> for Accept {
    ghost then = { accepts_both };
}

// The closer sets the closed mark of a lane.
pub struct Close;

impl Play<(), Both> for Close {
    ghost then = { stills closes_at };
}

// A worker reads how many jobs were taken in a lane.
pub struct ReadHead;

impl Play<(), Both> for ReadHead {
    ghost then = { stills reads_head_at };
}

// A worker reads how many jobs were accepted, and the closed mark.
pub struct ReadTail;

impl Play<(), Both> for ReadTail {
    ghost then = { stills reads_tail_at };
}

// A worker that has rested, or was the searcher, looks whether a lane is empty.
pub struct LookOn;

impl Play<(), Both> for LookOn {
    ghost then = { looks_on_both };
}

// A worker reads the payload of the job at the head.
pub struct ReadPayload;

impl Play<(), Both> for ReadPayload {
    ghost then = { stills reads_payload_at };
}

// A worker reads the dimension of the job at the head.
pub struct ReadDim;

impl Play<(), Both> for ReadDim {
    ghost then = { stills reads_dim_at };
}

// A worker counts the job as taken.
pub struct Take;

impl Play<(), Both> for Take {
    ghost then = { stills takes_at };
}

// The searcher counts the job as taken.
pub struct FindJob;

impl Play<(), Both> for FindJob {
    ghost then = { finds_both };
}

// The record of one producer is dealt out.
pub struct DealLane;

impl Split<Both> for DealLane {
    ghost left = { without_lane_both };

    ghost right = { lane_alone_both };
}

// The record of one worker is dealt out.
pub struct DealWorker;

impl Split<Both> for DealWorker {
    ghost left = { without_worker_both };

    ghost right = { worker_alone_both };
}

// The records of two seats are joined.
pub struct Gather;

impl Join<Both> for Gather {
    ghost both = { joined_both };

    ghost spent = { spent_both };
}
