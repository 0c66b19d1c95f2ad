//! The commands of the program `cubejobs`, from the bytes that each reads to the bytes that it
//! writes.
//!
//! The whole program is `program::run`, over any words, files and streams.
#![tactic(auto)]

mod answering;
mod event_sink;
mod file_run;
mod files;
mod lanes;
mod names;
mod output;
mod place;
mod play;
pub mod program;
mod progress;
mod refusal;
mod replay;
mod report;
mod run;
mod shop;
mod stations;
mod writing;

pub use answering::{Task, answer};
pub use event_sink::{EventSink, EventsFile, NoEvents};
pub use file_run::{FileRun, run_file};
pub use output::{Output, Replies, Report, Values};
pub use place::place_on;
pub use replay::replay_on;
pub use report::report_rows;
pub use run::{report_on, run_on};
pub use shop::AnswerError;
