//! Helpers that tests and measurements share.
//!
//! These are lists of jobs, lists of one member or two, and the members of a small dispatcher. A
//! table shows which processors are in use, and runners see what is inside them at one moment. A
//! crowd of threads takes blocks of the tree of bitmaps (`run_trial`).
#![tactic(auto)]

mod crowd_lane;
mod job_lists;
mod kept;
mod meeting;
mod members;
mod owners;
mod shop_members;
mod table;
mod trial;
mod waiting;

pub use crowd_lane::{CROWD_DIM, CrowdLane, run_lanes};
pub use job_lists::{Plan, Row, SUM, job, jobs, listed, lists};
pub use kept::{release_all, take_out};
pub use meeting::{Keeper, Meeting};
pub use members::{Pair, both, only, sole};
pub use owners::Owners;
pub use shop_members::{only_lane, only_worker};
pub use table::{Table, Tabled};
pub use trial::{Outcome, is_fresh, run_trial};
pub use waiting::wait_for;
