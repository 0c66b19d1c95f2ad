//! The ring buffer of a lock-free queue (`Ring`): a bounded first-in first-out queue for many
//! producers and many consumers.
//!
//! Lanes put in elements (pieces), and passes take them. Each lane and each pass has a record of
//! what it put in or took, which only its own calls change. The ring ends when all of them have
//! come back. Then the records show where each piece went: it was taken once, or it is left.
//!
//! Each piece comes with an entry, a value of its maker. A push consumes the entry and returns it
//! in a token, which shows that the piece is in or that the ring was full.
#![tactic(auto)]

mod dealing;
mod ending;
mod handle;
mod piece;
mod record;
mod ring;
mod rule;

pub use handle::{RingEnd, RingLane, RingPass};
pub use piece::Piece;
pub use record::{LaneRecord, PassRecord, RestRecord};
pub use ring::{DidPut, Ring, SawEmpty, SawFull, WasEmpty};
