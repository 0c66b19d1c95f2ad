//! A back-off for callers that try again (`Pause`): first snoozes, then bursts of yields that grow,
//! then sleeps. Producers, workers, allocators and locks all wait by it.
#![tactic(auto)]

mod pause;

pub use pause::{LONGEST_BURST, Pause};
