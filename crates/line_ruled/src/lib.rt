//! A bounded lock-free queue of jobs for many producers and many consumers that can be closed
//! (`RuledLine`).
//!
//! It is a ring buffer (`line_ring`) with a sequencer (`line_gate`), and it meets the contract
//! `JobLine`. A call makes its steps at the gate and in the ring one after the other. Each step
//! consumes a value that the step before it made, so their order is fixed by types. A push or pop
//! may wait for another one in progress, as `crossbeam_queue` documents. `close` never waits.
#![tactic(auto)]

mod handle;
mod job_line;
mod line;
mod members;

pub use line::RuledLine;
