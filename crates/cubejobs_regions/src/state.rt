//! The content of a machine's handle.

use crate::machine::Machine;

/// The content of a handle.
#[derive(Drop)]
pub(crate) enum State {
    /// A machine.
    Machine(Machine),
    /// None: a call has borrowed the machine.
    Taken,
}
