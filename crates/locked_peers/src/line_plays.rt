// The rule of a locked queue's table, and the names of its steps.
ghost use Rattle.std.specs.Prelude.{◌≡◌};
ghost use Rattle.locked_peers.specs.InnerLine.View.{holding, first_view, without_lane, lane_alone, without_pass, pass_alone, joined, spent_view};
ghost use Rattle.locked_peers.specs.InnerLine.Rule.{Keeps};
ghost use Rattle.locked_peers.specs.InnerLine.Step.{Knows, after_entry, after_full_entry, after_seen, after_taken, after_reading, after_close};

use crate::line_view::View;
use crate::rule::CellRule;
use crate::store::Store;
use atomic_table::{Join, Play, Split, TableRule};
use job_queue::Sizes;

pub(crate) struct LineRule;

impl TableRule<Store, View, Sizes> for LineRule {
    ghost holds = { Keeps };

    ghost first = { first_view };
}

impl CellRule<Store, View, Sizes> for LineRule {
    ghost holding = { holding };

    ghost learns = { Knows };
}

pub(crate) struct Accept;

impl Play<Store, View> for Accept {
    ghost then = { λ st before found after. after ≡ after_entry before };
}

pub(crate) struct Fill;

impl Play<Store, View> for Fill {
    ghost then = { λ st before found after. after ≡ after_full_entry before };
}

pub(crate) struct Refuse;

impl Play<Store, View> for Refuse {
    ghost then = { λ st before found after. after ≡ after_seen before };
}

pub(crate) struct Hand;

impl Play<Store, View> for Hand {
    ghost then = { λ st before found after. after ≡ after_taken before };
}

pub(crate) struct Read;

impl Play<Store, View> for Read {
    ghost then = { λ st before found after. after ≡ after_reading before };
}

pub(crate) struct Shut;

impl Play<Store, View> for Shut {
    ghost then = { λ st before found after. after ≡ after_close before };
}

// The step that gives out the record of one lane.
pub(crate) struct DealLane;

impl Split<View> for DealLane {
    ghost left = { without_lane };

    ghost right = { lane_alone };
}

// The step that gives out the record of one pass.
pub(crate) struct DealPass;

impl Split<View> for DealPass {
    ghost left = { without_pass };

    ghost right = { pass_alone };
}

// The step that joins the records of two seats.
pub(crate) struct Gather;

impl Join<View> for Gather {
    ghost both = { joined };

    ghost spent = { spent_view };
}
