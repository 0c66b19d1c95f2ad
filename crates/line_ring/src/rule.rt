// The rule of a ring, and the names of its steps.
ghost use Rattle.std.specs.Prelude.{◌≡◌};
ghost use Rattle.line_ring.specs.Inner.View.{for_next_machine, empty_view, without_lane, lane_alone, without_pass, pass_alone, joined};
ghost use Rattle.line_ring.specs.Inner.Step.{after_push, LaneLearns, PassLearns, Takes, Drains, RunsTo};

use crate::piece::Piece;
use crate::record::{LaneRecord, PassRecord, RestRecord};
use crossbeam_queue::protocol::{Join, Lesson, Outcome, Protocol, Split};
use std::collections::LinkedList;
use std::marker::PhantomData;

// What a seat of a ring knows. No program makes a value of it.
pub(crate) struct View<T> {
    // The dimension of the machine that the pieces are for.
    pub machine: u32,
    // The records of lanes that were not given out, and of those that were.
    pub spare_lanes: LinkedList<LaneRecord<T>>,
    pub lanes: LinkedList<LaneRecord<T>>,
    // The records of passes that were not given out, and of those that were.
    pub spare_passes: LinkedList<PassRecord<T>>,
    pub passes: LinkedList<PassRecord<T>>,
    // The record of the end.
    pub rests: LinkedList<RestRecord<T>>,
}

pub(crate) struct RingRule<T> {
    piece: PhantomData<T>,
}

impl<T: Piece> Protocol<T, View<T>> for RingRule<T> {
    ghost use Rattle.line_ring.specs.Inner.View.{first_view};
    ghost use Rattle.line_ring.specs.Inner.Rule.{Keeps};

    ghost holds = { Keeps T.lane T.seq T.is_for };

    ghost first = { first_view };
}

// A lane's step: it puts a piece in, or learns that the ring is full.
pub(crate) struct Put;

impl<T: Piece> Outcome<T, View<T>> for Put {
    ghost then = { λ before piece after. after ≡ after_push before piece };
}

impl<T: Piece> Lesson<T, View<T>> for Put {
    ghost fact = { LaneLearns T.lane T.seq };
}

// A pass's step: it takes a piece, or learns that there is none.
pub(crate) struct Take;

impl<T: Piece> Outcome<T, View<T>> for Take {
    ghost then = { Takes T.is_for };
}

impl<T: Piece> Lesson<T, View<T>> for Take {
    ghost fact = { PassLearns T.lane T.seq };
}

// A step of the end: it takes a piece out, or learns that none is left.
pub(crate) struct Drain;

impl<T: Piece> Outcome<T, View<T>> for Drain {
    ghost then = { Drains T.lane T.seq T.is_for };
}

impl<T: Piece> Lesson<T, View<T>> for Drain {
    ghost fact = { RunsTo T.lane T.seq };
}

// The step that raises the dimension of the pieces' machine by one.
pub(crate) struct NextMachine;

impl<T> Split<View<T>> for NextMachine {
    ghost left = { for_next_machine };

    ghost right = { λ _. empty_view };
}

// The step that gives out the record of one lane.
pub(crate) struct DealLane;

impl<T> Split<View<T>> for DealLane {
    ghost left = { without_lane };

    ghost right = { lane_alone };
}

// The step that gives out the record of one pass.
pub(crate) struct DealPass;

impl<T> Split<View<T>> for DealPass {
    ghost left = { without_pass };

    ghost right = { pass_alone };
}

// The step that joins the records of two seats.
pub(crate) struct Gather;

impl<T> Join<View<T>> for Gather {
    ghost both = { joined };

    ghost spent = { empty_view };
}
