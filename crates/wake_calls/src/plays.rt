// The names of the steps.
ghost use Rattle.wake_calls.specs.Inner.Steps.{claims_at, rests_at, leaves_at, notices_at, wakes_at, gives_at, stays_at, returns_at, reads_at, rises_at, checks_at, waits_at, calls_at, rings_at, takes_call_at, finds_call_at};

use crate::rule::WakeRule;
use atomic_table::Play;
use std::marker::PhantomData;

// An idle worker becomes the searcher of its word.
pub(crate) struct Claims<K, R> {
    rule: PhantomData<(K, R)>,
}

impl<V, K, R: WakeRule<V, K>> Play<(), V> for Claims<K, R> {
    ghost then = { claims_at R.threads R.goes };
}

// A worker sets its bit.
pub(crate) struct Rests<K, R> {
    rule: PhantomData<(K, R)>,
}

impl<V, K, R: WakeRule<V, K>> Play<(), V> for Rests<K, R> {
    ghost then = { rests_at R.threads R.goes };
}

// The searcher has work and is none any more.
pub(crate) struct Leaves<K, R> {
    rule: PhantomData<(K, R)>,
}

impl<V, K, R: WakeRule<V, K>> Play<(), V> for Leaves<K, R> {
    ghost then = { leaves_at R.threads R.goes };
}

// A waking thread looks at a word.
pub(crate) struct Notices<K, R> {
    rule: PhantomData<(K, R)>,
}

impl<V, K, R: WakeRule<V, K>> Play<(), V> for Notices<K, R> {
    ghost then = { notices_at R.threads R.goes };
}

// A waking thread clears the bit of a sleeper.
pub(crate) struct Wakes<K, R> {
    rule: PhantomData<(K, R)>,
}

impl<V, K, R: WakeRule<V, K>> Play<(), V> for Wakes<K, R> {
    ghost then = { wakes_at R.threads R.goes };
}

// A thread gives another its token.
pub(crate) struct Gives<K, R> {
    rule: PhantomData<(K, R)>,
}

impl<V, K, R: WakeRule<V, K>> Play<(), V> for Gives<K, R> {
    ghost then = { gives_at R.threads R.goes R.noted };
}

// A worker that has seen a job looks at its word.
pub(crate) struct Stays<K, R> {
    rule: PhantomData<(K, R)>,
}

impl<V, K, R: WakeRule<V, K>> Play<(), V> for Stays<K, R> {
    ghost then = { stays_at R.threads R.goes };
}

// It takes its bit back.
pub(crate) struct Returns<K, R> {
    rule: PhantomData<(K, R)>,
}

impl<V, K, R: WakeRule<V, K>> Play<(), V> for Returns<K, R> {
    ghost then = { returns_at R.threads R.goes };
}

// A worker looks at its mailbox.
pub(crate) struct Reads<K, R> {
    rule: PhantomData<(K, R)>,
}

impl<V, K, R: WakeRule<V, K>> Play<(), V> for Reads<K, R> {
    ghost then = { reads_at R.threads R.goes };
}

// A worker that has a call takes its bit back.
pub(crate) struct Rises<K, R> {
    rule: PhantomData<(K, R)>,
}

impl<V, K, R: WakeRule<V, K>> Play<(), V> for Rises<K, R> {
    ghost then = { rises_at R.threads R.goes R.noted };
}

// A worker looks at its bit.
pub(crate) struct Checks<K, R> {
    rule: PhantomData<(K, R)>,
}

impl<V, K, R: WakeRule<V, K>> Play<(), V> for Checks<K, R> {
    ghost then = { checks_at R.threads R.goes };
}

// A worker tries to take its token.
pub(crate) struct Waits<K, R> {
    rule: PhantomData<(K, R)>,
}

impl<V, K, R: WakeRule<V, K>> Play<(), V> for Waits<K, R> {
    ghost then = { waits_at R.threads R.goes };
}

// A thread puts a call into a mailbox.
pub(crate) struct Calls<K, R> {
    rule: PhantomData<(K, R)>,
}

impl<V, K, R: WakeRule<V, K>> Play<(), V> for Calls<K, R> {
    ghost then = { calls_at R.threads R.goes };
}

// It looks at the bit of the thread that it called.
pub(crate) struct Rings<K, R> {
    rule: PhantomData<(K, R)>,
}

impl<V, K, R: WakeRule<V, K>> Play<(), V> for Rings<K, R> {
    ghost then = { rings_at R.threads R.goes };
}

// An idle worker takes its call.
pub(crate) struct TakesCall<K, R> {
    rule: PhantomData<(K, R)>,
}

impl<V, K, R: WakeRule<V, K>> Play<(), V> for TakesCall<K, R> {
    ghost then = { takes_call_at R.threads R.goes R.noted };
}

// The searcher takes its call.
pub(crate) struct FindsCall<K, R> {
    rule: PhantomData<(K, R)>,
}

impl<V, K, R: WakeRule<V, K>> Play<(), V> for FindsCall<K, R> {
    ghost then = { finds_call_at R.threads R.goes R.noted };
}
