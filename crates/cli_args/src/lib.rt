//! The command-line parser of `cubejobs`: words in, a checked request out.
//!
//! `parse_args` reads the words of a command that runs jobs or a tree. `parse_check` and
//! `parse_messages` read those of the two tools, which begin with the name of the command. All are
//! read exactly as `clap` reads them.
#![tactic(auto)]

mod check_line;
mod command_line;
mod invocation;
mod messages_line;
mod tool_line;

pub use check_line::{CheckOptions, Checked, parse_check};
pub use command_line::parse_args;
pub use invocation::{FileNames, Invocation, Request, ShopOptions};
pub use messages_line::{MessagesOptions, parse_messages};
pub use tool_line::tool_words;
