// The rule of a locked allocator's table, and the names of its steps.
ghost use Rattle.std.specs.Prelude.{◌≡◌};
ghost use Rattle.locked_peers.specs.InnerFloor.View.{holding, first_view, without_station, station_alone, joined, spent_view};
ghost use Rattle.locked_peers.specs.InnerFloor.Rule.{Keeps};
ghost use Rattle.locked_peers.specs.InnerFloor.Step.{Knows, after_grant, after_free, after_nothing, AreFirstTwoApart};

use crate::floor_view::{Size, View};
use crate::rule::CellRule;
use alloc_bits::AllocBits;
use atomic_table::{Join, Play, Split, TableRule};

pub(crate) struct FloorRule;

impl TableRule<AllocBits, View, Size> for FloorRule {
    ghost holds = { Keeps };

    ghost first = { first_view };
}

impl CellRule<AllocBits, View, Size> for FloorRule {
    ghost holding = { holding };

    ghost learns = { Knows };
}

pub(crate) struct Grant;

impl Play<AllocBits, View> for Grant {
    ghost then = { λ st before found after. after ≡ after_grant before };
}

pub(crate) struct Free;

impl Play<AllocBits, View> for Free {
    ghost then = { λ st before found after. after ≡ after_free before };
}

pub(crate) struct Leave;

impl Play<AllocBits, View> for Leave {
    ghost then = { λ st before found after. after ≡ after_nothing before };
}

pub(crate) struct Compare;

impl Play<AllocBits, View> for Compare {
    ghost then = { λ st before found after.
        (after ≡ before) × AreFirstTwoApart before.0.stations };
}

// The step that gives out the record of one station.
pub(crate) struct Deal;

impl Split<View> for Deal {
    ghost left = { without_station };

    ghost right = { station_alone };
}

// The step that joins the records of two seats.
pub(crate) struct Gather;

impl Join<View> for Gather {
    ghost both = { joined };

    ghost spent = { spent_view };
}
