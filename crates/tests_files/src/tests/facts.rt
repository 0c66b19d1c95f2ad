//! Facts that must hold.

use std::process::Abort;

// Expects that this holds.
pub(crate) fn expect_true(rt: &impl Abort, fact: bool) {
    assert!(rt; fact);
}

// Expects that all of these hold.
pub(crate) fn expect_all(rt: &impl Abort, facts: &[bool]) {
    assert!(rt; !facts.contains(&false));
}
