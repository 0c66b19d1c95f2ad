//! The tests. Expected values are worked out by hand.

mod any_number;
mod commands;
mod facts;
mod failing_devices;
mod faults;
mod jobs;
mod meetings;
mod progress;
mod readings;
mod recordings;
mod refusals;
mod rounds;
mod rows;
mod totals;
mod two_files;
mod words;
