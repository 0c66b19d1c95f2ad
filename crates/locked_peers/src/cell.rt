// The cell and its calls.
ghost use Rattle.std.specs.Prelude.{◌≡◌, ℕ, [], ◌∷◌, true, false, IfOk};
ghost use mathlib.Core.Option.{none};
ghost use Rattle.atomic_table.specs.Table.{step, opening, Allows, Splits, Joins};
ghost use Rattle.locked_peers.specs.Cell.{Took, MayTry, Leaves};

use crate::rule::{CellRule, Enter};
use atomic_table::{Join, Play, Refused, Seat, Split, Table};
use backoff::Pause;
use std::alloc::{AllocError, Global};
use std::hint::spin_loop;
use std::sync::{Mutex, Wait};

// The number of tries before a call queues at the door. Most calls hold the value for a shorter
// time.
const TRIES: u32 = 30;

// The number of tries at the door between two pauses. The first pauses spin too, and are short.
const TRIES_AT_DOOR: u32 = 8;

/// A value that threads take and give back. Threads share the cell by reference, and each has a
/// seat of its own.
#[derive(Drop)]
pub struct LockedCell<S: Drop, V, K, R: CellRule<S, V, K>> {
    /// The table with the value in its slot 0.
    pub table: Table<S, V, K, R, Global>,
    door: Mutex<()>,
    ghost sized: { (table.shared.table_id.words ≡ 1) × (table.shared.table_id.slots ≡ 1) },
}

impl<S: Drop, V, K, R: CellRule<S, V, K>> LockedCell<S, V, K, R> {
    ghost use Rattle.locked_peers.specs.Handle.{table_of, key_of};

    /// Makes a cell with this value, and the seat that has all records. No other call allocates
    /// memory.
    pub fn new(
        alloc: Global,
        value: S,
        key: &K,
    ) -> Result<(LockedCell<S, V, K, R>, Seat<S, V>), AllocError>
        requires { R.holds key.now (opening (0 ∷ []) (value ∷ []) (R.first key.now)) }
        ensures key { IfOk result (λ made. key_of made.0 ≡ key.now) }
        ensures table { IfOk result (λ made. made.1.table_id ≡ table_of made.0) }
        ensures seat { IfOk result (λ made. made.1.me ≡ (R.first key.now, [])) }
    {
        let mut slots = Vec::new(alloc);
        slots.push(value)?;
        let (table, seat) = match Table::<S, V, K, R, Global>::new(alloc, &[0], slots, key) {
            Ok(made) => made,
            Err(Refused { slots: _ }) => return Err(AllocError),
        };
        let door = Mutex::new(());
        Ok((LockedCell { table, door }, seat))
    }

    /// Splits off a seat with some of the records that `seat` has.
    pub fn deal<D: Split<V>>(&self, seat: &mut Seat<S, V>) -> Seat<S, V>
        requires table { seat.old.table_id ≡ table_of self.now }
        requires cut { Splits (R.holds (key_of self.now)) seat.old.id seat.old.me.0
            (D.left seat.old.me.0) (D.right seat.old.me.0) }
        ensures tables { (seat.new.table_id ≡ table_of self.now)
            × (result.table_id ≡ table_of self.now) }
        ensures left { seat.new.me ≡ (D.left seat.old.me.0, seat.old.me.1) }
        ensures dealt { result.me ≡ (D.right seat.old.me.0, []) }
    {
        self.table.shared.split_seat::<D>(seat)
    }

    /// Joins the records of another seat to those of `seat`.
    pub fn gather<J: Join<V>>(&self, seat: &mut Seat<S, V>, other: Seat<S, V>)
        requires tables { (seat.old.table_id ≡ table_of self.now)
            × (other.table_id ≡ table_of self.now) }
        requires no_value { other.me.1 ≡ [] }
        requires joins { Joins (R.holds (key_of self.now)) seat.old.id seat.old.me.0 other.id
            other.me.0 (J.both seat.old.me.0 other.me.0) J.spent }
        ensures table { seat.new.table_id ≡ table_of self.now }
        ensures both { seat.new.me ≡ (J.both seat.old.me.0 other.me.0, seat.old.me.1) }
    {
        self.table.shared.join_seat::<J>(seat, other);
    }

    /// Reads the word. The seat learns from it what the rule says.
    pub fn look<P: Play<S, V>>(&self, seat: &mut Seat<S, V>) -> u64
        requires table { seat.old.table_id ≡ table_of self.now }
        requires allows { Allows (R.holds (key_of self.now)) 1 seat.old.id seat.old.me 0 (λ n. n)
            (P.then (step 1 0 0 0 none) seat.old.me) }
        ensures table { seat.new.table_id ≡ table_of self.now }
        ensures learned { P.then (step 1 0 0 0 none) seat.old.me result seat.new.me }
    {
        self.table.shared.load::<P>(seat, 0)
    }

    // Takes the value if no other seat has it. Returns whether it did.
    fn try_enter(&self, seat: &mut Seat<S, V>) -> bool
        requires table { seat.old.table_id ≡ table_of self.now }
        requires may { MayTry R.holding R.learns (R.holds (key_of self.now)) 1 seat.old.id
            seat.old.me }
        ensures table { seat.new.table_id ≡ table_of self.now }
        ensures id { seat.new.id ≡ seat.old.id }
        ensures took { result ≡ true → Took R.holding R.learns seat.old.me seat.new.me }
        ensures kept { result ≡ false → seat.new.me ≡ seat.old.me }
    {
        self.table
            .shared
            .compare_exchange::<Enter<K, R>>(seat, 0, 0, 1)
            == 0
    }

    // Takes the value if it comes back within this number of tries. Returns whether it did.
    fn try_some(&self, seat: &mut Seat<S, V>, tries: u32) -> bool
        requires table { seat.old.table_id ≡ table_of self.now }
        requires may { MayTry R.holding R.learns (R.holds (key_of self.now)) 1 seat.old.id
            seat.old.me }
        ensures table { seat.new.table_id ≡ table_of self.now }
        ensures id { seat.new.id ≡ seat.old.id }
        ensures took { result ≡ true → Took R.holding R.learns seat.old.me seat.new.me }
        ensures kept { result ≡ false → seat.new.me ≡ seat.old.me }
    {
        for _ in 0..tries {
            if self.try_enter(seat) {
                return true;
            }
            spin_loop();
        }
        false
    }

    /// Takes the value. After some tries a thread waits at a door, a mutex, and only the first one
    /// there tries again.
    pub fn enter<W: Wait>(&self, rt: &W, seat: &mut Seat<S, V>)
        requires table { seat.old.table_id ≡ table_of self.now }
        requires may { MayTry R.holding R.learns (R.holds (key_of self.now)) 1 seat.old.id
            seat.old.me }
        ensures table { seat.new.table_id ≡ table_of self.now }
        ensures took { Took R.holding R.learns seat.old.me seat.new.me }
    {
        if self.try_some(seat, TRIES) {
            return;
        }
        let _door = self.door.lock(rt);
        let mut pause = Pause::new();
        for _ in rt.forever() {
            if self.try_some(seat, TRIES_AT_DOOR) {
                return;
            }
            pause.wait(rt);
        }
        unreachable!()
    }

    /// Gives the value back, in the step `P`.
    pub fn give_back<P: Play<S, V>>(&self, seat: &mut Seat<S, V>)
        requires table { seat.old.table_id ≡ table_of self.now }
        requires allows { Allows (R.holds (key_of self.now)) 1 seat.old.id seat.old.me 0 (λ _. 0)
            (λ _. P.then (step 1 0 0 0 none) seat.old.me 0) }
        ensures table { seat.new.table_id ≡ table_of self.now }
        ensures gave { P.then (step 1 0 0 0 none) seat.old.me 0 seat.new.me }
    {
        self.table.shared.store::<P>(seat, 0, 0);
    }

    /// Ends the cell and returns the value, of which the rule says what holds at the end.
    pub fn end(self, seat: Seat<S, V>) -> S
        requires { seat.table_id ≡ table_of self }
        ensures { Leaves (R.holds (key_of self)) seat.id seat.me.0 result }
    {
        let LockedCell { table, door: _ } = self;
        let mut closed = table.close_with(seat);
        let value = closed.take(0);
        closed.free();
        value
    }
}
