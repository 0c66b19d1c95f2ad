// The rule of the table, and the names of its steps.
ghost use Rattle.sched_threads.specs.Rule.{Keeps};
ghost use Rattle.sched_threads.specs.Step.{arrives, enters, leaves};
ghost use Rattle.sched_threads.specs.View.{blank_view};

use crate::clocked::ClockedDesk;
use crate::view::View;
use atomic_table::{Play, TableRule};
use sched_board::ThreadSizes;

pub(crate) struct ThreadRule;

impl TableRule<ClockedDesk, View, ThreadSizes> for ThreadRule {
    ghost holds = { Keeps };

    ghost first = { λ sizes. blank_view };
}

// The step that makes a seat.
pub(crate) struct Arrive;

impl Play<ClockedDesk, View> for Arrive {
    ghost then = { arrives };
}

// The step by which a seat tries to get the turn.
pub(crate) struct Enter;

impl Play<ClockedDesk, View> for Enter {
    ghost then = { enters };
}

// The step by which a seat ends its turn.
pub(crate) struct Leave;

impl Play<ClockedDesk, View> for Leave {
    ghost then = { leaves };
}
