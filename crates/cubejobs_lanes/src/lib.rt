//! Job lanes for callers in C and C++, as a static library.
#![tactic(auto)]

mod answers;
mod closing;
mod codes;
mod common;
mod dealing;
mod end_exports;
mod ending;
mod find_answer;
mod handle;
mod handles;
mod job_exports;
mod kept;
mod kinds;
mod left;
mod left_exports;
mod name;
mod opaque_ptr;
mod opening;
mod owner;
mod owner_exports;
mod places;
mod returning;
mod returns;
mod seeking;
mod sides;
mod sizes;
mod sleep_exports;
mod sleeper_side;
mod stage;
mod state;
mod tries;
mod version;
mod waking;

pub use answers::{CloseAnswer, FinishAnswer, JobAnswer, LookAnswer, SubmitAnswer};
pub use codes::{DONE, NO_WORKER, OPEN, VERSION};
pub use end_exports::{
    cubejobs_lanes_close, cubejobs_lanes_finish, cubejobs_lanes_free_lane,
    cubejobs_lanes_free_worker,
};
pub use find_answer::{FindAnswer, NumberAnswer, WakeAnswer};
pub use handle::Handle;
pub use job_exports::{
    cubejobs_lanes_look, cubejobs_lanes_submit, cubejobs_lanes_take, cubejobs_lanes_take_any,
};
pub use left_exports::{cubejobs_lanes_free, cubejobs_lanes_rest};
pub use owner_exports::{cubejobs_lanes_lane, cubejobs_lanes_open_version, cubejobs_lanes_worker};
pub use sizes::LaneSizes;
pub use sleep_exports::{
    cubejobs_lanes_awake, cubejobs_lanes_find, cubejobs_lanes_wake, cubejobs_lanes_worker_number,
};
pub use version::cubejobs_lanes_version_number;
