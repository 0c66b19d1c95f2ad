//! The desk with a clock.

use crate::desk::Desk;

// A desk, and the time of the last turn that had one. It never goes back.
#[derive(Drop)]
pub(crate) struct ClockedDesk {
    pub desk: Desk,
    pub clock: u64,
}
