// The rule of a board's table, and the names of its steps.
ghost use Rattle.tests_lanes.specs.Inner.Rule.{Keeps, first_view, without_thread, thread_alone};
ghost use Rattle.tests_lanes.specs.Inner.Law.{board_law};
ghost use Rattle.tests_lanes.specs.Inner.Steps.{goes, noted, puts_at, takes_at, finds_at, looks_at, looks_again_at};

use crate::board::BoardSizes;
use atomic_table::{Play, Split, TableRule};
use std::collections::LinkedList;
use wake_calls::{ThreadRecord, WakeRule};

/// What a seat of a board knows. No value of it is made.
pub struct BoardView {
    pub threads: LinkedList<ThreadRecord>,
}

/// The rule of a board's table.
pub struct BoardRule;

impl TableRule<(), BoardView, BoardSizes> for BoardRule {
    ghost holds = { Keeps };

    ghost first = { first_view };
}

impl WakeRule<BoardView, BoardSizes> for BoardRule {
    ghost workers = { λ sizes. sizes.workers };

    ghost lanes = { λ sizes. sizes.lanes };

    ghost threads = { λ v. v.threads };

    ghost goes = { goes };

    ghost noted = { noted };

    ghost pool_law = { board_law };
}

// An idle thread puts a job.
pub(crate) struct Puts;

impl Play<(), BoardView> for Puts {
    ghost then = { puts_at };
}

// An idle thread takes a job.
pub(crate) struct Takes;

impl Play<(), BoardView> for Takes {
    ghost then = { takes_at };
}

// The searcher takes a job.
pub(crate) struct Finds;

impl Play<(), BoardView> for Finds {
    ghost then = { finds_at };
}

// A worker that has rested looks at a lane.
pub(crate) struct Looks;

impl Play<(), BoardView> for Looks {
    ghost then = { looks_at };
}

// A worker that was the searcher looks at a lane.
pub(crate) struct LooksAgain;

impl Play<(), BoardView> for LooksAgain {
    ghost then = { looks_again_at };
}

// The record of one thread is dealt out.
pub(crate) struct Deals;

impl Split<BoardView> for Deals {
    ghost left = { without_thread };

    ghost right = { thread_alone };
}
