// The rule of a gate's table, and the names of its steps.
ghost use Rattle.std.specs.Prelude.{true, false};
ghost use Rattle.line_gate.specs.Inner.View.{first_view, without_lane, lane_alone, without_pass, pass_alone, joined, spent_view};
ghost use Rattle.line_gate.specs.Inner.Rule.{Keeps};
ghost use Rattle.line_gate.specs.Inner.Step.{looks_at, enters_at, undoes_at, settles_at, closes_at, reads_settled_at, reads_gate_at};

use crate::gate::Counts;
use crate::view::View;
use atomic_table::{Join, Play, Split, TableRule};

pub(crate) struct GateRule;

impl TableRule<(), View, Counts> for GateRule {
    ghost holds = { Keeps };

    ghost first = { first_view };
}

pub(crate) struct Look;

impl Play<(), View> for Look {
    ghost then = { looks_at };
}

pub(crate) struct Enter;

impl Play<(), View> for Enter {
    ghost then = { enters_at };
}

pub(crate) struct Undo;

impl Play<(), View> for Undo {
    ghost then = { undoes_at };
}

// The step that settles an entry whose job was accepted.
pub(crate) struct SettleAccepted;

impl Play<(), View> for SettleAccepted {
    ghost then = { settles_at true };
}

// The step that settles an entry that found the queue full.
pub(crate) struct SettleFull;

impl Play<(), View> for SettleFull {
    ghost then = { settles_at false };
}

pub(crate) struct Close;

impl Play<(), View> for Close {
    ghost then = { closes_at };
}

pub(crate) struct ReadSettled;

impl Play<(), View> for ReadSettled {
    ghost then = { reads_settled_at };
}

pub(crate) struct ReadGate;

impl Play<(), View> for ReadGate {
    ghost then = { reads_gate_at };
}

// The step that gives out the record of one lane.
pub(crate) struct DealLane;

impl Split<View> for DealLane {
    ghost left = { without_lane };

    ghost right = { lane_alone };
}

// The step that gives out the record of one pass.
pub(crate) struct DealPass;

impl Split<View> for DealPass {
    ghost left = { without_pass };

    ghost right = { pass_alone };
}

// The step that joins the records of two seats.
pub(crate) struct Gather;

impl Join<View> for Gather {
    ghost both = { joined };

    ghost spent = { spent_view };
}
