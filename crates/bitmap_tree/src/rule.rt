//! The rule of the table, what its steps say, and how its seats are cut and joined.
ghost use Rattle.bitmap_tree.specs.InnerRule.{IsKept, first_view};
ghost use Rattle.bitmap_tree.specs.InnerSteps.{enters, begins, loads, claims, opens_word, clears, tells_apart, opens_whole, shuts_whole, without_first, only_first, without_permit, one_permit, with_lower, only_upper, joined, glued, spent};

use crate::view::{Run, Size, View};
use atomic_table::{Join, Play, Split, TableRule};

/// The rule that holds between any two steps.
pub struct BitmapRule;

impl TableRule<Run, View, Size> for BitmapRule {
    ghost holds = { IsKept };

    ghost first = { first_view };
}

// The load by which a new seat is made.
pub struct Enter;

impl Play<Run, View> for Enter {
    ghost then = { enters };
}

// The load with which a call begins.
pub struct Begin;

impl Play<Run, View> for Begin {
    ghost then = { begins };
}

// Another load.
pub struct Load;

impl Play<Run, View> for Load {
    ghost then = { loads };
}

// The exchange that claims a run, or shuts a word.
pub struct Claim;

impl Play<Run, View> for Claim {
    ghost then = { claims };
}

// The exchange that opens a word.
pub struct OpenWord;

impl Play<Run, View> for OpenWord {
    ghost then = { opens_word };
}

// The subtraction that clears the bits of a run.
pub struct ClearRun;

impl Play<Run, View> for ClearRun {
    ghost then = { clears };
}

// The load after which the runs of a seat are known to be apart.
pub struct Compare;

impl Play<Run, View> for Compare {
    ghost then = { tells_apart };
}

// The first run gets a seat of its own.
pub struct CutFirst;

impl Split<View> for CutFirst {
    ghost left = { without_first };

    ghost right = { only_first };
}

// One permit gets a seat of its own.
pub struct Deal;

impl Split<View> for Deal {
    ghost left = { without_permit };

    ghost right = { one_permit };
}

// The runs of two seats become those of one.
pub struct Merge;

impl Join<View> for Merge {
    ghost both = { joined };

    ghost spent = { spent };
}

// A load of a word under a unit, whose bits the seat then has.
pub struct OpenWhole;

impl Play<Run, View> for OpenWhole {
    ghost then = { opens_whole };
}

// A load of a word of which the seat has all bits, for which it then has the unit.
pub struct ShutWhole;

impl Play<Run, View> for ShutWhole {
    ghost then = { shuts_whole };
}

// The upper half of the first run gets a seat of its own.
pub struct CutHalf;

impl Split<View> for CutHalf {
    ghost left = { with_lower };

    ghost right = { only_upper };
}

// Two runs that are next to each other become one.
pub struct Glue;

impl Join<View> for Glue {
    ghost both = { glued };

    ghost spent = { spent };
}
