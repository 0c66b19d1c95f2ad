//! The commands `check` and `messages` for the program `cubejobs`, from their words to their exit
//! status.
//!
//! `check` lists the refused records of an input, and `messages` the messages of a collective.
//! Neither runs a job or changes a file. `write_messages` writes a row for each message of a
//! collective on `2^k` places, in the order in which `collectives` numbers them.
#![tactic(auto)]

mod check_command;
mod ending;
mod listing;
mod messages_command;
mod reports;
mod rows;

pub use check_command::{ToolConsole, check};
pub use cli_args::tool_words;
pub use collectives::{Message, Shape};
pub use ending::{ToolEnding, exit_code};
pub use listing::{is_root, write_messages};
pub use messages_command::messages;
pub use rows::MessageRow;
