//! A job dispatcher: producers submit jobs to a queue, and workers run each on a block of
//! processors of its own.
//!
//! A dispatcher (`Shop`) is a queue of jobs and the allocator of one machine. Producers submit jobs
//! by its lanes. Workers take them, run them on blocks, and keep their replies. When the dispatcher
//! has finished, each accepted job has exactly one right reply. All of this is proved for every
//! queue, allocator and runner that meet their traits.
#![tactic(auto)]

mod closing;
mod dispatching;
mod feeding;
mod finishing;
mod limit;
mod opening;
mod room;
mod runner;
mod serving;
mod shop;
mod sorting;
mod stop;
mod worker;

pub use closing::{CloseNote, Closer};
pub use dispatching::{Idle, Waiting, dispatch, dispatch_some, dispatch_with};
pub use feeding::{FeedEnd, FeedStop, feed, feed_for, wait_for_room};
pub use finishing::Finished;
pub use floors::Floor;
pub use opening::{Opened, ShopRefused, ShopSizes, refusal};
pub use runner::{Plain, Runner};
pub use shop::Shop;
pub use sorting::sorted_replies;
pub use stop::Stop;
pub use worker::{Worker, WorkerEnd};
