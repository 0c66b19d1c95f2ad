//! Whether lanes are closed.

use crate::kept::KeptNote;
use lanes::Members;

/// Whether lanes are closed.
#[derive(Drop)]
pub(crate) enum Stage {
    /// They are open. All lanes and workers are dealt out.
    Open(Members),
    /// They are closed.
    Closed(KeptNote),
}
