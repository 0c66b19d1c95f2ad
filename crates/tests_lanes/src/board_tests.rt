//! Worked schedules of a board, and each call once. Each schedule is one that loses a wake if one
//! step of the protocol is left out.
ghost use Rattle.std.specs.Prelude.{◌≡◌, ◌+◌, ◌<◌, ◌≤◌, [], drop};
ghost use Rattle.wake_pool.specs.declared.phase.WakePhase.TheVariants.{Idle, Found, Parked};
ghost use Rattle.wake_pool.specs.Schedule.{waking};
ghost use Rattle.wake_pool.specs.Words.{word_count};
ghost use Rattle.wake_calls.specs.Thread.{IsIn, thread};
ghost use Rattle.tests_lanes.specs.Board.{all_words};
ghost use Rattle.tests_lanes.specs.Inner.Rule.{first_view, threads_in};

use crate::board::{Board, BoardSizes, Member};
use std::alloc::Global;
use std::process::Abort;
use wake_calls::{
    Asleep, Back, Wake, before_park, call, claim, find_call, give, leave, lie_down, rest, ring,
    take_call, try_back, wait, wake_check,
};

// The tries of a call, of which a test needs one.
const TRIES: u32 = 4;

// Returns a board, with the records of all its threads.
fn opened(rt: &impl Abort, alloc: Global, sizes: BoardSizes) -> (Board, Member)
    ensures sizes { result.0.sizes ≡ sizes }
    ensures table { result.1.table_id ≡ result.0.table.shared.table_id }
    ensures seat { result.1.me ≡ (first_view sizes, []) }
{
    Board::open(alloc, sizes).expect(rt, "no memory")
}

// Deals out this number of threads, which make no step.
fn skips(board: &Board, seats: &mut Member, count: u32)
    requires table { seats.old.table_id ≡ board.now.table.shared.table_id }
    requires some_word { 0 < all_words board.now.sizes }
    ensures table { seats.new.table_id ≡ seats.old.table_id }
    ensures left { threads_in seats.new.me.0 ≡ drop count (threads_in seats.old.me.0) }
{
    for _ in 0..count {
        let _seat = board.deal(seats);
    }
}

// An idle worker goes to sleep: it sets its bit, sees no job and no call, and has no token.
fn sleeps(rt: &impl Abort, board: &Board, seat: &mut Member, worker: u32)
    requires table { seat.old.table_id ≡ board.now.table.shared.table_id }
    requires idle { threads_in seat.old.me.0
        ≡ thread worker board.now.sizes.workers board.now.sizes.lanes Idle }
    requires worker { worker < board.now.sizes.workers }
    ensures table { seat.new.table_id ≡ seat.old.table_id }
    ensures parked { threads_in seat.new.me.0
        ≡ thread worker board.now.sizes.workers board.now.sizes.lanes Parked }
{
    let shared = &board.table.shared;
    let workers = board.sizes.workers;
    rest(shared, workers, seat, worker);
    assert!(rt; board.look_at_all(seat));
    assert!(rt; before_park(shared, workers, seat, worker) == Asleep::Park);
    assert!(rt; !wait(shared, workers, seat, worker));
}

// A thread that has put or seen a job wakes this worker.
fn wakes(rt: &impl Abort, board: &Board, seat: &mut Member, sleeper: u32)
    requires table { seat.old.table_id ≡ board.now.table.shared.table_id }
    requires waking { IsIn (threads_in seat.old.me.0) board.now.sizes.workers
        board.now.sizes.lanes (waking (word_count board.now.sizes.workers) 0) }
    ensures table { seat.new.table_id ≡ seat.old.table_id }
    ensures idle { IsIn (threads_in seat.new.me.0) board.now.sizes.workers
        board.now.sizes.lanes Idle }
{
    let shared = &board.table.shared;
    let workers = board.sizes.workers;
    let Wake::Worker(woken) = wake_check(shared, workers, seat, 0, TRIES) else {
        panic!(rt; "nobody was woken");
    };
    give(shared, workers, seat, woken);
    assert!(rt; woken == sleeper);
}

// A thread puts a job into lane 0, which has this number of jobs, and wakes this worker.
fn puts(rt: &impl Abort, board: &Board, seat: &mut Member, count: u64, sleeper: u32)
    requires table { seat.old.table_id ≡ board.now.table.shared.table_id }
    requires idle { IsIn (threads_in seat.old.me.0) board.now.sizes.workers
        board.now.sizes.lanes Idle }
    requires lane { 0 < board.now.sizes.lanes }
    requires room { count < 100 }
    ensures table { seat.new.table_id ≡ seat.old.table_id }
    ensures idle { IsIn (threads_in seat.new.me.0) board.now.sizes.workers
        board.now.sizes.lanes Idle }
{
    assert!(rt; board.put(seat, 0, count));
    wakes(rt, board, seat, sleeper);
}

// A thread puts a job into lane 0, which has this number of jobs, and has nobody to wake.
fn puts_alone(rt: &impl Abort, board: &Board, seat: &mut Member, count: u64)
    requires table { seat.old.table_id ≡ board.now.table.shared.table_id }
    requires idle { IsIn (threads_in seat.old.me.0) board.now.sizes.workers
        board.now.sizes.lanes Idle }
    requires lane { 0 < board.now.sizes.lanes }
    requires room { count < 100 }
    ensures table { seat.new.table_id ≡ seat.old.table_id }
    ensures idle { IsIn (threads_in seat.new.me.0) board.now.sizes.workers
        board.now.sizes.lanes Idle }
{
    let shared = &board.table.shared;
    assert!(rt; board.put(seat, 0, count));
    assert!(rt; wake_check(shared, board.sizes.workers, seat, 0, TRIES) == Wake::Nobody);
}

// A parked worker takes its token, is the searcher and takes a job from lane 0, which has this
// number of jobs.
fn finds(rt: &impl Abort, board: &Board, seat: &mut Member, worker: u32, count: u64)
    requires table { seat.old.table_id ≡ board.now.table.shared.table_id }
    requires parked { threads_in seat.old.me.0
        ≡ thread worker board.now.sizes.workers board.now.sizes.lanes Parked }
    requires worker { worker < board.now.sizes.workers }
    requires lane { 0 < board.now.sizes.lanes }
    requires some { 0 < count }
    ensures table { seat.new.table_id ≡ seat.old.table_id }
    ensures found { threads_in seat.new.me.0
        ≡ thread worker board.now.sizes.workers board.now.sizes.lanes Found }
{
    let shared = &board.table.shared;
    let workers = board.sizes.workers;
    assert!(rt; wait(shared, workers, seat, worker));
    assert!(rt; before_park(shared, workers, seat, worker) == Asleep::Woken);
    assert!(rt; board.find(seat, 0, count));
}

// A sleeper is woken for a job, takes it, and has nobody to wake for more.
#[test]
fn a_sleeper_is_woken_for_a_job(rt: HostRuntime) {
    let sizes = BoardSizes {
        workers: 1,
        producers: 1,
        lanes: 1,
    };
    let (board, mut seats) = opened(&rt, rt.alloc(), sizes);
    let mut worker = board.deal(&mut seats);
    let mut producer = board.deal(&mut seats);
    sleeps(&rt, &board, &mut worker, 0);
    puts(&rt, &board, &mut producer, 0, 0);
    finds(&rt, &board, &mut worker, 0, 1);
    leave(&board.table.shared, 1, &mut worker, 0);
    assert!(&rt; board.look_again_at_all(&mut worker));
}

// A job that comes after the last take and before the bit is seen after it.
#[test]
fn a_job_before_the_bit_is_seen(rt: HostRuntime) {
    let sizes = BoardSizes {
        workers: 1,
        producers: 1,
        lanes: 2,
    };
    let (board, mut seats) = opened(&rt, rt.alloc(), sizes);
    let mut worker = board.deal(&mut seats);
    let mut producer = board.deal(&mut seats);
    assert!(&rt; claim(&board.table.shared, 1, &mut worker, 0));
    puts_alone(&rt, &board, &mut producer, 0);
    lie_down(&board.table.shared, 1, &mut worker, 0);
    assert!(&rt; !board.look_at_all(&mut worker));
    assert!(&rt; try_back(&board.table.shared, 1, &mut worker, 0, TRIES) == Back::Searches);
    assert!(&rt; board.find(&mut worker, 0, 1));
}

// The searcher that has found a job looks at the lanes again, and wakes another for the second.
#[test]
fn a_finder_wakes_another_for_the_second_job(rt: HostRuntime) {
    let sizes = BoardSizes {
        workers: 2,
        producers: 1,
        lanes: 1,
    };
    let (board, mut seats) = opened(&rt, rt.alloc(), sizes);
    let mut first = board.deal(&mut seats);
    let mut second = board.deal(&mut seats);
    let mut producer = board.deal(&mut seats);
    sleeps(&rt, &board, &mut second, 1);
    assert!(&rt; claim(&board.table.shared, 2, &mut first, 0));
    puts_alone(&rt, &board, &mut producer, 0);
    assert!(&rt; board.find(&mut first, 0, 1));
    puts_alone(&rt, &board, &mut producer, 0);
    leave(&board.table.shared, 2, &mut first, 0);
    assert!(&rt; !board.look_again_at_all(&mut first));
    wakes(&rt, &board, &mut first, 1);
    finds(&rt, &board, &mut second, 1, 1);
}

// A call reaches a sleeper by its token, and one that is awake without.
#[test]
fn a_call_wakes_a_sleeper(rt: HostRuntime) {
    let sizes = BoardSizes {
        workers: 1,
        producers: 1,
        lanes: 1,
    };
    let (board, mut seats) = opened(&rt, rt.alloc(), sizes);
    let mut worker = board.deal(&mut seats);
    let mut producer = board.deal(&mut seats);
    let shared = &board.table.shared;
    sleeps(&rt, &board, &mut worker, 0);
    call(shared, 1, &mut producer, 0);
    assert!(&rt; ring(shared, 1, &mut producer, 0));
    give(shared, 1, &mut producer, 0);
    assert!(&rt; wait(shared, 1, &mut worker, 0));
    assert!(&rt; before_park(shared, 1, &mut worker, 0) == Asleep::Call);
    take_call(shared, 1, &mut worker, 0);
    call(shared, 1, &mut producer, 0);
    assert!(&rt; !ring(shared, 1, &mut producer, 0));
    assert!(&rt; claim(shared, 1, &mut worker, 0));
    find_call(shared, 1, &mut worker, 0);
    leave(shared, 1, &mut worker, 0);
    assert!(&rt; board.look_again_at_all(&mut worker));
    sleeps(&rt, &board, &mut worker, 0);
}

// A worker that is woken and called takes its call as the searcher.
#[test]
fn a_woken_worker_takes_its_call(rt: HostRuntime) {
    let sizes = BoardSizes {
        workers: 1,
        producers: 1,
        lanes: 1,
    };
    let (board, mut seats) = opened(&rt, rt.alloc(), sizes);
    let mut worker = board.deal(&mut seats);
    let mut producer = board.deal(&mut seats);
    let shared = &board.table.shared;
    sleeps(&rt, &board, &mut worker, 0);
    puts(&rt, &board, &mut producer, 0, 0);
    call(shared, 1, &mut producer, 0);
    assert!(&rt; !ring(shared, 1, &mut producer, 0));
    assert!(&rt; wait(shared, 1, &mut worker, 0));
    assert!(&rt; before_park(shared, 1, &mut worker, 0) == Asleep::CallOfSearcher);
    leave(shared, 1, &mut worker, 0);
    assert!(&rt; !board.look_again_at_all(&mut worker));
    assert!(&rt; wake_check(shared, 1, &mut worker, 0, TRIES) == Wake::Nobody);
    assert!(&rt; board.take(&mut worker, 0, 1));
}

// Worker 63 is the first of the second word.
#[test]
fn a_sleeper_of_the_second_word_is_woken(rt: HostRuntime) {
    let sizes = BoardSizes {
        workers: 64,
        producers: 0,
        lanes: 1,
    };
    let (board, mut seats) = opened(&rt, rt.alloc(), sizes);
    let mut first = board.deal(&mut seats);
    skips(&board, &mut seats, 62);
    let mut last = board.deal(&mut seats);
    sleeps(&rt, &board, &mut last, 63);
    puts(&rt, &board, &mut first, 0, 63);
    finds(&rt, &board, &mut last, 63, 1);
}

// With no workers there are no words of sleepers, and a put has nobody to wake.
#[test]
fn lanes_alone_wake_nobody(rt: HostRuntime) {
    let sizes = BoardSizes {
        workers: 0,
        producers: 1,
        lanes: 1,
    };
    let (board, mut seats) = opened(&rt, rt.alloc(), sizes);
    let mut producer = board.deal(&mut seats);
    puts_alone(&rt, &board, &mut producer, 0);
    puts_alone(&rt, &board, &mut producer, 1);
    assert!(&rt; board.take(&mut producer, 0, 2));
}
