//! Readers and writers that count their failed calls.
//!
//! A caller passes a `Device` to a function. If the function fails, the count of failed calls says
//! whether the device failed. `Counted` makes a device of any reader or writer.
#![tactic(auto)]

mod device;

pub use device::{Counted, Device};
