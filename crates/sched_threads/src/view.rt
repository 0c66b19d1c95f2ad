// What a seat of the table knows. No program makes a value of it.

use crate::clocked::ClockedDesk;
use std::collections::LinkedList;

// A turn: how many there were before it, and the desk before it and after it.
pub(crate) struct Turn {
    pub at: u64,
    pub from: ClockedDesk,
    pub to: ClockedDesk,
}

// The turns that the seat made, the newest first, and the desk that the seat found if it has the
// turn. It is barred if it found that another seat has the turn.
pub(crate) struct View {
    pub notes: LinkedList<Turn>,
    pub found: Option<ClockedDesk>,
    pub barred: bool,
}
