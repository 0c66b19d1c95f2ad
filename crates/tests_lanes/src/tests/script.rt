//! Schedules of one thread, worked out by hand.
ghost use Rattle.std.specs.Prelude.{◌≡◌};

use super::calls::{job, look, put, take, take_any};
use super::made;
use lanes::{Lane, Lanes, Looked, MAX_CAPACITY, Sizes, Submitted, Taken, TakenAny, Worker};
use std::alloc::Global;
use std::process::Abort;

// Two lanes are filled, looked at and taken from.
fn fills(
    lanes: &Lanes,
    zero: &mut Lane,
    one: &mut Lane,
    first: &mut Worker,
    second: &mut Worker,
) -> bool
    requires sizes { lanes.now.plan.sizes.lanes ≡ 2 }
    requires zero { zero.old.id ≡ lanes.now }
    requires one { one.old.id ≡ lanes.now }
    requires first { first.old.id ≡ lanes.now }
    requires second { second.old.id ≡ lanes.now }
    ensures zero { zero.new.id ≡ lanes.now }
    ensures one { one.new.id ≡ lanes.now }
    ensures first { first.new.id ≡ lanes.now }
    ensures second { second.new.id ≡ lanes.now }
{
    let facts = [
        take(lanes, first, 0) == Taken::Empty,
        look(lanes, first, 0) == Looked::NoneLeft,
        take_any(lanes, first, 1) == TakenAny::NoJob,
        put(lanes, zero, 10, 3) == Submitted::Accepted(0),
        put(lanes, zero, 11, 4) == Submitted::Accepted(1),
        put(lanes, zero, 12, 5) == Submitted::Full,
        put(lanes, one, 20, 4_294_967_295) == Submitted::Accepted(0),
        look(lanes, second, 0) == Looked::Jobs(2),
        take(lanes, second, 0) == Taken::Job(job(0, 10, 3), 1),
        take_any(lanes, first, 1) == TakenAny::AnyJob(1, job(0, 20, 4_294_967_295), 0),
        take_any(lanes, first, 1) == TakenAny::AnyJob(0, job(1, 11, 4), 0),
        put(lanes, zero, 13, 6) == Submitted::Accepted(2),
        put(lanes, zero, 14, 7) == Submitted::Accepted(3),
        put(lanes, zero, 15, 8) == Submitted::Full,
    ];
    facts.iter().all(|it| *it)
}

// Both lanes are closed, and the first has two jobs.
fn is_closed(
    lanes: &Lanes,
    zero: &mut Lane,
    one: &mut Lane,
    first: &mut Worker,
    second: &mut Worker,
) -> bool
    requires sizes { lanes.now.plan.sizes.lanes ≡ 2 }
    requires zero { zero.old.id ≡ lanes.now }
    requires one { one.old.id ≡ lanes.now }
    requires first { first.old.id ≡ lanes.now }
    requires second { second.old.id ≡ lanes.now }
    ensures zero { zero.new.id ≡ lanes.now }
    ensures one { one.new.id ≡ lanes.now }
    ensures first { first.new.id ≡ lanes.now }
    ensures second { second.new.id ≡ lanes.now }
{
    let facts = [
        put(lanes, zero, 16, 9) == Submitted::Closed,
        put(lanes, one, 21, 0) == Submitted::Closed,
        take(lanes, second, 1) == Taken::Ended,
        look(lanes, second, 1) == Looked::AllTaken,
        take_any(lanes, second, 1) == TakenAny::AnyJob(0, job(2, 13, 6), 1),
        look(lanes, first, 0) == Looked::Jobs(1),
        zero.number() == 0,
        one.number() == 1,
        first.number() == 0,
        second.number() == 1,
    ];
    facts.iter().all(|it| *it)
}

#[test]
fn two_lanes_and_two_workers(rt: HostRuntime) {
    let sizes = Sizes {
        lanes: 2,
        workers: 2,
        capacity: 2,
    };
    let (lanes, mut members) = made(&rt, Lanes::open(rt.alloc(), sizes));
    let mut zero = lanes.deal_lane(&mut members);
    let mut one = lanes.deal_lane(&mut members);
    let mut first = made(&rt, lanes.deal_worker(rt.alloc(), &mut members));
    let mut second = made(&rt, lanes.deal_worker(rt.alloc(), &mut members));
    let closer = members.into_closer();
    assert!(rt; fills(&lanes, &mut zero, &mut one, &mut first, &mut second));
    let note = lanes.close(closer);
    assert!(rt; note.number() == 5);
    assert!(rt; is_closed(&lanes, &mut zero, &mut one, &mut first, &mut second));
    let mut end = note.into_end();
    lanes.gather_lane(&mut end, one);
    lanes.gather_lane(&mut end, zero);
    lanes.gather_worker(&mut end, second);
    lanes.gather_worker(&mut end, first);
    let mut rest = lanes.into_rest(end);
    assert!(rt; rest.pop_front() == Some((0, job(3, 14, 7))));
    assert!(rt; rest.is_empty());
}

// Three lanes are closed with jobs in two of them, which come back in the order of the lanes.
fn three_lanes_and_what_is_left(rt: &impl Abort, alloc: Global) {
    let sizes = Sizes {
        lanes: 3,
        workers: 1,
        capacity: 4,
    };
    let (lanes, mut members) = made(rt, Lanes::open(alloc, sizes));
    let mut zero = lanes.deal_lane(&mut members);
    let one = lanes.deal_lane(&mut members);
    let mut two = lanes.deal_lane(&mut members);
    let mut worker = made(rt, lanes.deal_worker(alloc, &mut members));
    let closer = members.into_closer();
    let puts = [
        put(&lanes, &mut two, 20, 1) == Submitted::Accepted(0),
        put(&lanes, &mut two, 21, 2) == Submitted::Accepted(1),
        put(&lanes, &mut two, 22, 3) == Submitted::Accepted(2),
        put(&lanes, &mut zero, 5, 0) == Submitted::Accepted(0),
    ];
    assert!(rt; puts.iter().all(|it| *it));
    assert!(rt; take_any(&lanes, &mut worker, 1) == TakenAny::AnyJob(2, job(0, 20, 1), 2));
    let note = lanes.close(closer);
    assert!(rt; note.number() == 4);
    let mut end = note.into_end();
    lanes.gather_lane(&mut end, zero);
    lanes.gather_lane(&mut end, one);
    lanes.gather_lane(&mut end, two);
    lanes.gather_worker(&mut end, worker);
    let mut rest = lanes.into_rest(end);
    assert!(rt; rest.pop_front() == Some((0, job(0, 5, 0))));
    assert!(rt; rest.pop_front() == Some((2, job(1, 21, 2))));
    assert!(rt; rest.pop_front() == Some((2, job(2, 22, 3))));
    assert!(rt; rest.is_empty());
}

#[test]
fn what_is_left_is_in_the_order_of_the_lanes(rt: HostRuntime) {
    three_lanes_and_what_is_left(&rt, rt.alloc());
}

// A round of closed lanes without a job says that all have ended.
#[test]
fn all_lanes_end(rt: HostRuntime) {
    let sizes = Sizes {
        lanes: 2,
        workers: 1,
        capacity: MAX_CAPACITY,
    };
    let (lanes, mut members) = made(&rt, Lanes::open(rt.alloc(), sizes));
    let zero = lanes.deal_lane(&mut members);
    let one = lanes.deal_lane(&mut members);
    let mut worker = made(&rt, lanes.deal_worker(rt.alloc(), &mut members));
    let closer = members.into_closer();
    assert!(rt; take_any(&lanes, &mut worker, 0) == TakenAny::NoJob);
    let note = lanes.close(closer);
    assert!(rt; note.number() == 0);
    assert!(rt; take_any(&lanes, &mut worker, 1) == TakenAny::AllEnded);
    zero.abandon();
    one.abandon();
    worker.abandon();
    note.abandon();
}
