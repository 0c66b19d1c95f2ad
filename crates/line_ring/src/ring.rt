// The ring and its calls.
ghost use Rattle.std.specs.Prelude.{◌≡◌, ◌+◌, ◌<◌, ◌≤◌, ◌^◌, [], ◌∷◌, ◌++◌, IfOk, IfErr, length};
ghost use Rattle.line_ring.specs.History.{HeldBesideLane, HeldBesidePass};

use crate::handle::{RingEnd, RingLane, RingPass};
use crate::piece::Piece;
use crate::rule::{NextMachine, Put, RingRule, Take, View};
use crossbeam_queue::RuledArrayQueue;
use cube_shape::MAX_DIM;
use std::alloc::{AllocError, Global};
use std::collections::VecDeque;
use std::marker::Model;
use std::sync::Wait;

/// A ring buffer of pieces, which threads share by reference.
pub struct Ring<T: Piece> {
    pub(crate) queue: RuledArrayQueue<T, View<T>, RingRule<T>>,
    pub(crate) machine: u32,
    pub(crate) room: VecDeque<T>,
}

impl<T: Piece> Model for Ring<T> {
    ghost use Rattle.std.specs.Prelude.{◌≡◌, ◌≤◌, []};
    ghost use Rattle.std.specs.VecDeque.{deque_capacity};
    ghost use Rattle.crossbeam_queue.specs.Passes.{ruled_capacity};
    ghost use Rattle.line_ring.specs.Ring.{RingOf};
    ghost use Rattle.line_ring.specs.Inner.Seat.{ring_id};

    ghost Value = { RingOf };

    ghost view = { λ r. record {
      id = ring_id r.queue.table.shared.table_id r.machine;
      capacity = ruled_capacity r.queue;
    } };

    ghost invariant = { λ r. (r.room.items ≡ [])
        × (ruled_capacity r.queue ≤ deque_capacity r.room) };
}

/// A token of a push that put a piece in. It has the entry that the piece came with, which is what
/// contracts see. Only `Ring::push` makes it, and it cannot be dropped.
pub struct DidPut<E> {
    entry: E,
}

impl<E> Model for DidPut<E> {
    ghost Value = { E };

    ghost view = { λ put. put.entry };
}

/// A token of a push that found the ring full. It has the entry of that push, which is what
/// contracts see. Only `Ring::push` makes it, and it cannot be dropped.
pub struct SawFull<E> {
    entry: E,
}

impl<E> Model for SawFull<E> {
    ghost Value = { E };

    ghost view = { λ saw. saw.entry };
}

/// A token of a pop that found the ring empty. Only `Ring::pop` makes it, and it cannot be dropped.
pub struct SawEmpty(());

/// A token of a pop that found the ring empty, once it was consumed. Only `SawEmpty::spend` makes
/// it, and it may be dropped.
#[derive(Debug, Drop)]
pub struct WasEmpty(());

impl<E> DidPut<E> {
    /// Returns the entry that the piece came with.
    pub fn into_entry(self) -> E
        ensures { result ≡ self }
    {
        let DidPut { entry } = self;
        entry
    }
}

impl<E> SawFull<E> {
    /// Returns the entry of the push that found the ring full.
    pub fn into_entry(self) -> E
        ensures { result ≡ self }
    {
        let SawFull { entry } = self;
        entry
    }
}

impl SawEmpty {
    /// Consumes the token. Returns one that may be dropped.
    pub fn spend(self) -> WasEmpty {
        let SawEmpty(()) = self;
        WasEmpty(())
    }
}

impl<T: Piece> Ring<T> {
    /// Opens a ring of at most `capacity` pieces for the machine of dimension `machine`. It counts
    /// up to the dimension, in as many steps. No other call allocates memory.
    pub fn open(
        alloc: Global,
        machine: u32,
        capacity: usize,
    ) -> Result<(Ring<T>, RingEnd<T>), AllocError>
        requires machine { machine ≤ MAX_DIM }
        requires capacity { 0 < capacity }
        ensures machine { IfOk result (λ made. made.0.id.machine ≡ machine) }
        ensures capacity { IfOk result (λ made. made.0.capacity ≡ capacity) }
        ensures end { IfOk result (λ made. made.1.ring ≡ made.0.id) }
        ensures none_dealt { IfOk result (λ made.
            (made.1.dealt_lanes ≡ 0) × (made.1.dealt_passes ≡ 0)) }
        ensures none_back { IfOk result (λ made.
            (made.1.back_lanes ≡ []) × (made.1.back_passes ≡ [])) }
    {
        let room = VecDeque::with_capacity(alloc, capacity)?;
        let (queue, mut seat) = RuledArrayQueue::<T, View<T>, RingRule<T>>::ruled(alloc, capacity)?;
        for _ in 0..machine {
            queue.another::<NextMachine>(&mut seat);
        }
        let end = RingEnd {
            seat,
            lanes: 0,
            passes: 0,
        };
        let ring = Ring {
            queue,
            machine,
            room,
        };
        Ok((ring, end))
    }

    /// Puts a piece in at the back, unless the ring is full. The piece is the lane's next one. Its
    /// entry comes back in a token, which shows that the piece is in or that the ring was full.
    pub fn push<R: Wait>(
        &self,
        rt: &R,
        lane: &mut RingLane<T>,
        piece: T,
        entry: T::Entry,
    ) -> Result<DidPut<T::Entry>, (T, SawFull<T::Entry>)>
        requires lane { lane.old.ring ≡ self.now.id }
        requires machine { T.is_for self.now.id.machine piece }
        requires from_lane { T.lane piece ≡ lane.old.known.number }
        requires seq { T.seq piece ≡ length lane.old.known.accepted }
        requires count { length lane.old.known.accepted + 1 < 2 ^ 64 }
        ensures lane { lane.new.ring ≡ self.now.id }
        ensures number { lane.new.known.number ≡ lane.old.known.number }
        ensures accepted { IfOk result (λ _. lane.new.known.accepted
            ≡ lane.old.known.accepted ++ piece ∷ []) }
        ensures entry { IfOk result (λ put. put ≡ entry) }
        ensures gives_back { IfErr result (λ refused. (refused.0 ≡ piece) × (refused.1 ≡ entry)) }
        ensures unchanged { IfErr result (λ _. lane.new.known ≡ lane.old.known) }
        ensures full { IfErr result (λ _. HeldBesideLane T.lane T.seq lane.old.known
            self.now.capacity) }
    {
        match self.queue.push_as::<Put, R>(rt, &mut lane.seat, piece) {
            Ok(()) => {
                lane.accepted += 1;
                Ok(DidPut { entry })
            }
            Err(piece) => Err((piece, SawFull { entry })),
        }
    }

    /// Takes the piece at the front, if there is one.
    pub fn pop<R: Wait>(&self, rt: &R, pass: &mut RingPass<T>) -> Result<T, SawEmpty>
        requires { pass.old.ring ≡ self.now.id }
        ensures pass { pass.new.ring ≡ self.now.id }
        ensures number { pass.new.known.number ≡ pass.old.known.number }
        ensures taken { IfOk result (λ piece. pass.new.known.taken
            ≡ pass.old.known.taken ++ piece ∷ []) }
        ensures machine { IfOk result (λ piece. T.is_for self.now.id.machine piece) }
        ensures unchanged { IfErr result (λ _. pass.new.known ≡ pass.old.known) }
        ensures empty { IfErr result (λ _. HeldBesidePass T.lane T.seq pass.old.known 0) }
    {
        match self.queue.pop_as::<Take, R>(rt, &mut pass.seat) {
            Some(piece) => Ok(piece),
            None => Err(SawEmpty(())),
        }
    }

    /// Returns the largest number of pieces that the ring holds at once.
    pub fn capacity(&self) -> usize
        ensures { result ≡ self.now.capacity }
    {
        self.queue.capacity()
    }

    /// Returns how many pieces the ring holds at one moment of the call, as a lane finds it.
    pub fn len_by_lane<R: Wait>(&self, rt: &R, lane: &mut RingLane<T>) -> usize
        requires { lane.old.ring ≡ self.now.id }
        ensures lane { lane.new.ring ≡ self.now.id }
        ensures unchanged { lane.new.known ≡ lane.old.known }
        ensures few { result ≤ self.now.capacity }
        ensures held { HeldBesideLane T.lane T.seq lane.old.known result }
    {
        self.queue.len_as::<Put, R>(rt, &mut lane.seat)
    }

    /// Returns how many pieces the ring holds at one moment of the call, as a pass finds it.
    pub fn len<R: Wait>(&self, rt: &R, pass: &mut RingPass<T>) -> usize
        requires { pass.old.ring ≡ self.now.id }
        ensures pass { pass.new.ring ≡ self.now.id }
        ensures unchanged { pass.new.known ≡ pass.old.known }
        ensures few { result ≤ self.now.capacity }
        ensures held { HeldBesidePass T.lane T.seq pass.old.known result }
    {
        self.queue.len_as::<Take, R>(rt, &mut pass.seat)
    }
}
