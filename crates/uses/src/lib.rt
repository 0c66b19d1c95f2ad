//! Proved examples: small callers of this repository's crates, one or more for each.
//!
//! The `CALLING.md` of a crate quotes callers from here.
#![tactic(auto)]

mod answering;
mod any_floor;
mod batch;
mod count;
mod counting;
mod extent;
mod hoarding;
pub mod line_run;
mod room;
mod schedule;
mod subcubes;
mod tallied;
mod two_files;
mod two_regions;
mod whole;

pub use answering::answer_and_count;
pub use any_floor::hold_pair;
pub use batch::answer_all;
pub use count::count_jobs;
pub use counting::Counting;
pub use extent::{Extent, share_extent};
pub use hoarding::Hoarding;
pub use room::has_room;
pub use schedule::play;
pub use subcubes::{hold_two, hold_two_and_close};
pub use tallied::{Tallied, Tally};
pub use two_files::TwoFiles;
pub use two_regions::take_two;
pub use whole::answer_in_order;
