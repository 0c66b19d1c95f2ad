//! The rule of the table, what its steps show, and how its seats are split and joined.
ghost use Rattle.tree_steps.specs.Rule.{IsRuled, first_view};
ghost use Rattle.tree_steps.specs.Steps.{makes_next, makes_zero, makes_retirement, keeps_load, notes_peek, tells_apart, without_first, only_first, without_stations, joined, blank};
ghost use Rattle.tree_steps.specs.Alone.{makes_look, learns_next, makes_turn, tells_word};

use crate::view::{Size, View};
use atomic_table::{Join, Play, Split, TableRule};

/// What holds between any two steps, of the words and of all views. Some schedule of the pure
/// machine leads to these words and phases, and each station's trail is its events in that
/// schedule.
pub struct TreeRule;

impl TableRule<(), View, Size> for TreeRule {
    ghost holds = { IsRuled };

    ghost first = { first_view };
}

/// A step by which the first station makes the event of its phase.
pub(crate) struct Next;

impl Play<(), View> for Next {
    ghost then = { makes_next };
}

/// The same as `Next`. A seat that has all stations also learns what the word found means.
pub(crate) struct Learn;

impl Play<(), View> for Learn {
    ghost then = { learns_next };
}

/// A step by which the first station, which is idle, begins a take and looks at the node. A seat
/// that has all stations also learns what the word found means.
pub(crate) struct Look;

impl Play<(), View> for Look {
    ghost then = { makes_look };
}

/// A step by which the first station, which holds a block, begins a release and gives its node
/// back.
pub(crate) struct Zero;

impl Play<(), View> for Zero {
    ghost then = { makes_zero };
}

/// A step by which the first station, which is idle, retires.
pub(crate) struct Retire;

impl Play<(), View> for Retire {
    ghost then = { makes_retirement };
}

/// A load of the roll, by which no station makes an event.
pub(crate) struct LoadRoll;

impl Play<(), View> for LoadRoll {
    ghost then = { keeps_load };
}

/// A load of a node's word, which the first station notes. No station makes an event.
pub(crate) struct LoadPeek;

impl Play<(), View> for LoadPeek {
    ghost then = { notes_peek };
}

/// A load that shows that the block of the first station overlaps that of no other one of the seat.
pub(crate) struct Compare;

impl Play<(), View> for Compare {
    ghost then = { tells_apart };
}

/// A load that shows what a word says of the stations, for a seat that has all of them, at rest.
pub(crate) struct Tell;

impl Play<(), View> for Tell {
    ghost then = { tells_word };
}

/// A step that moves a station's record to the front, in a seat that has all stations, at rest.
pub(crate) struct Turn;

impl Play<(), View> for Turn {
    ghost then = { makes_turn };
}

/// A step that gives the first station a seat of its own.
pub(crate) struct CutFirst;

impl Split<View> for CutFirst {
    ghost left = { without_first };

    ghost right = { only_first };
}

/// A step that makes a second seat, which knows what was loaded.
pub(crate) struct CopyLoads;

impl Split<View> for CopyLoads {
    ghost left = { λ v. v };

    ghost right = { without_stations };
}

/// A step that joins the stations of two seats into one.
pub(crate) struct Merge;

impl Join<View> for Merge {
    ghost both = { joined };

    ghost spent = { blank };
}
