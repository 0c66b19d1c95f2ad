//! Rounds of a board with two workers.

ghost use Rattle.std.specs.Prelude.{◌≡◌, ℕ, ◌<◌};
ghost use Rattle.sched_board.specs.declared.workers.PoolWorker.TheVariants.{Away};
ghost use Rattle.sched_board.specs.Pool.{worker_in, workers_of};

use crate::board::{BoardPhase, BoardRefusal, JobBoard};
use crate::sizes::ThreadSizes;
use crate::woken::Woken;
use crate::workers::PoolWorker;
use fixed_vec::Store;
use sched_core::{Place, SchedJob};
use std::alloc::Global;
use std::process::Abort;

// A job of one processor.
const SMALL: SchedJob = SchedJob {
    payload: 5,
    processors: 1,
    dim: 0,
    class: 0,
    estimate: 10,
};

// Returns a board of two workers, for at most two jobs.
fn opened(rt: &impl Abort, alloc: Global) -> JobBoard
    ensures workers { workers_of result.pool ≡ 2 }
    ensures away { (u : ℕ) → worker_in result.pool u ≡ Away }
{
    let mut store = Store::heap(alloc);
    let sizes = ThreadSizes {
        dim: 3,
        jobs: 2,
        patience: 1,
        workers: 2,
    };
    JobBoard::new(&mut store, sizes).expect(rt, "no memory")
}

// Ends the job of a worker, and returns its slot.
fn ends(rt: &impl Abort, board: &mut JobBoard, worker: u32) -> u32
    requires { worker < workers_of board.old.pool }
    ensures { workers_of board.new.pool ≡ workers_of board.old.pool }
{
    let PoolWorker::Busy(slot) = board.worker(worker) else {
        panic!(rt; "no job");
    };
    board.finish(worker);
    slot
}

// Removes the waiting job of a slot.
fn cancels(rt: &impl Abort, board: &mut JobBoard, slot: u32) {
    assert!(rt; (slot as usize) < board.scheduler().capacity());
    let Place::Waiting(_) = board.scheduler().place(slot) else {
        panic!(rt; "no waiting job");
    };
    board.cancel(slot);
}

// Two jobs come, each of two workers gets one, and both jobs end.
#[test]
fn two_workers_run_two_jobs(rt: HostRuntime) {
    let mut board = opened(&rt, rt.alloc());
    assert_eq!(&rt; board.submit(SMALL), Ok(0));
    assert_eq!(&rt; board.submit(SMALL), Ok(1));
    assert_eq!(&rt; board.submit(SMALL), Err(BoardRefusal::Full));
    board.ask(1);
    board.ask(0);
    let (woken, more) = board.decide(7);
    let both = Woken {
        count: 2,
        first: 0,
        second: 1,
        ..Woken::NONE
    };
    assert_eq!(&rt; woken, both);
    assert!(&rt; !more);
    assert_eq!(&rt; board.scheduler().held(), 2);
    assert_eq!(&rt; ends(&rt, &mut board, 0), 0);
    assert_eq!(&rt; ends(&rt, &mut board, 1), 1);
    assert_eq!(&rt; board.scheduler().held(), 0);
}

// On a closed board the job that waits starts, and no job comes.
#[test]
fn a_closed_board_takes_no_job(rt: HostRuntime) {
    let mut board = opened(&rt, rt.alloc());
    assert_eq!(&rt; board.submit(SMALL), Ok(0));
    board.close(true);
    assert_eq!(&rt; board.phase(), BoardPhase::Closing);
    assert_eq!(&rt; board.submit(SMALL), Err(BoardRefusal::Closed));
    board.ask(1);
    let (woken, _) = board.decide(0);
    assert_eq!(&rt; woken.count, 1);
}

// No job starts on a board that was stopped.
#[test]
fn a_stopped_board_starts_no_job(rt: HostRuntime) {
    let mut board = opened(&rt, rt.alloc());
    assert_eq!(&rt; board.submit(SMALL), Ok(0));
    board.close(false);
    board.ask(1);
    let (woken, more) = board.decide(0);
    assert_eq!(&rt; woken, Woken::NONE);
    assert!(&rt; !more);
    board.leave(1);
    cancels(&rt, &mut board, 0);
    assert_eq!(&rt; board.scheduler().waiting(), 0);
}
