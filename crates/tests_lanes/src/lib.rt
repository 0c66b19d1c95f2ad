//! Tests of the lanes of jobs (`lanes`) that are worked out by hand, and of the steps of sleep and
//! wake (`wake_calls`).
//!
//! The steps run on a small table of sleepers and lanes (`Board`), in which a lane is a count of
//! jobs. It shows what a table owes the calls of `wake_calls`.
#![tactic(auto)]

mod board;
#[cfg(test)]
mod board_tests;
mod rule;
#[cfg(test)]
mod tests;

pub use board::{Board, BoardSizes, Member, every_board_is_served};
pub use rule::{BoardRule, BoardView};
