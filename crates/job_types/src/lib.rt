//! Jobs and replies: a collective operation over a list of numbers, and its result.
//!
//! A job asks for one collective over its items, from 1 to as many as its machine has processors.
//! It runs on a block of dimension `k`, the least that holds them, with one item on each of the
//! first processors. The other processors of the block are idle. They have the unit of the
//! operation, which changes nothing. The reply names the block and holds the collective's result at
//! the places of the items.
//!
//! A job runs by the rounds of `collectives`, which work on the stack. The memory for its result is
//! reserved when the job is made. Only running a job makes a `Reply`, so its result is always that
//! of the plain definition of the collective.
#![tactic(auto)]

mod arrays;
mod items;
mod job;
mod kind;
mod packed_kind;
mod reply;
mod request;
mod rounds;
mod work;

pub use collectives::{Shape, Tally};
pub use cube_shape::{MAX_DIM, Region};
pub use job::Job;
pub use kind::{Kind, Op};
pub use reply::{JobId, Reply};
pub use request::{JobRefused, Request};
