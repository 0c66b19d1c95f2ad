//! A scheduler with two workers, by one thread.

use crate::counts::SchedCounts;
use crate::desk::WrongState;
use crate::receipt::{NotNow, TurnReceipt};
use crate::threads::Threads;
use cube_shape::Region;
use sched_board::{
    BlockError, CancelError, Forecast, JobRequest, Served, SubmitError, ThreadSizes,
};
use std::alloc::Global;
use std::fmt::Debug;
use std::process::Abort;

// A job of one processor.
const SMALL: JobRequest = JobRequest {
    payload: 5,
    estimate: 10,
    processors: 1,
    job_class: 0,
};

// Returns a scheduler of two workers, for at most two jobs.
fn opened(rt: &impl Abort, alloc: Global) -> Threads {
    let sizes = ThreadSizes {
        dim: 3,
        jobs: 2,
        patience: 1,
        workers: 2,
    };
    Threads::new(alloc, sizes).expect(rt, "no memory")
}

// Takes a scheduler that threads may share.
fn takes_shared<T: Sync>(_: &T) {}

// Returns what a call answered. No other thread has the turn.
fn answered<T>(rt: &impl Abort, done: Result<(T, TurnReceipt), NotNow>) -> T {
    let (answer, _) = done.ok().expect(rt, "another thread has the turn");
    answer
}

// Returns what a call did.
fn agreed<T, E: Debug>(rt: &impl Abort, done: Result<(Result<T, E>, TurnReceipt), NotNow>) -> T {
    answered(rt, done).expect(rt, "the call is refused")
}

// Returns the ticket of the worker's job.
fn ticket_of(rt: &impl Abort, served: Served) -> u64 {
    served.start.expect(rt, "no job").ticket
}

// Ends a scheduler, whose turns all ended.
fn ends(rt: &impl Abort, threads: Threads) {
    threads.end().expect(rt, "a turn never ended");
}

// A worker waits, gets a job, and ends it.
#[test]
fn a_worker_runs_a_job(rt: HostRuntime) {
    let threads = opened(&rt, rt.alloc());
    takes_shared(&threads);
    assert_eq!(&rt; answered(&rt, threads.sit()), Some(0));
    assert_eq!(&rt; answered(&rt, threads.sit()), Some(1));
    assert_eq!(&rt; answered(&rt, threads.sit()), None);
    assert!(&rt; agreed(&rt, threads.next(1, 7)).start.is_none());
    let (ticket, effect) = agreed(&rt, threads.submit(SMALL, 8));
    assert_eq!(&rt; effect.woken.count, 1);
    assert_eq!(&rt; effect.woken.first, 1);
    assert_eq!(&rt; ticket_of(&rt, agreed(&rt, threads.next(1, 9))), ticket);
    assert_eq!(&rt;
        answered(&rt, threads.cancel(ticket, 9)),
        Err(CancelError::Runs)
    );
    assert!(&rt; agreed(&rt, threads.done(1, 10)).start.is_none());
    assert_eq!(&rt; answered(&rt, threads.done(1, 10)), Err(WrongState));
    assert_eq!(&rt;
        answered(&rt, threads.cancel(ticket, 11)),
        Err(CancelError::NoJob)
    );
    ends(&rt, threads);
}

// A job waits, is looked for and counted, and is removed.
#[test]
fn a_job_waits(rt: HostRuntime) {
    let threads = opened(&rt, rt.alloc());
    let (ticket, effect) = agreed(&rt, threads.submit(SMALL, 1));
    assert_eq!(&rt; effect.woken.count, 0);
    assert!(&rt; answered(&rt, threads.look(ticket)) == Some(Forecast::Queued));
    let counts = SchedCounts {
        waiting: 1,
        running: 0,
        asked: 0,
        held: 0,
        occupied: 0,
    };
    assert_eq!(&rt; answered(&rt, threads.counts()), counts);
    let (payload, _) = agreed(&rt, threads.cancel(ticket, 2));
    assert_eq!(&rt; payload, 5);
    assert!(&rt; answered(&rt, threads.look(ticket)).is_none());
    ends(&rt, threads);
}

// A worker gets a job that its thread does not see.
#[test]
fn a_worker_has_an_unseen_job(rt: HostRuntime) {
    let threads = opened(&rt, rt.alloc());
    assert_eq!(&rt; answered(&rt, threads.rise(0, 0)), Err(WrongState));
    assert_eq!(&rt; answered(&rt, threads.sit()), Some(0));
    agreed(&rt, threads.next(0, 1));
    let (first, _) = agreed(&rt, threads.submit(SMALL, 2));
    assert_eq!(&rt; answered(&rt, threads.rise(0, 3)), Err(WrongState));
    assert_eq!(&rt; ticket_of(&rt, agreed(&rt, threads.give_up(0, 3))), first);
    agreed(&rt, threads.rise(0, 4));
    assert_eq!(&rt; answered(&rt, threads.counts()).running, 0);
    assert_eq!(&rt; answered(&rt, threads.sit()), Some(0));
    agreed(&rt, threads.next(0, 5));
    agreed(&rt, threads.submit(SMALL, 6));
    assert_eq!(&rt; answered(&rt, threads.counts()).running, 1);
    agreed(&rt, threads.lose(0, 7));
    assert_eq!(&rt; answered(&rt, threads.counts()).running, 0);
    assert_eq!(&rt; answered(&rt, threads.lose(0, 8)), Err(WrongState));
    ends(&rt, threads);
}

// No job starts in a block that is out of service.
#[test]
fn a_block_is_out_of_service(rt: HostRuntime) {
    let threads = opened(&rt, rt.alloc());
    assert_eq!(&rt; answered(&rt, threads.sit()), Some(0));
    agreed(&rt, threads.next(0, 1));
    agreed(&rt, threads.take_out(0, 3, 2));
    assert_eq!(&rt;
        answered(&rt, threads.take_out(0, 4, 2)),
        Err(BlockError::OutOfRange)
    );
    let (_, effect) = agreed(&rt, threads.submit(SMALL, 3));
    assert_eq!(&rt; effect.woken.count, 0);
    assert_eq!(&rt; answered(&rt, threads.settle(4)).woken.count, 0);
    assert_eq!(&rt; agreed(&rt, threads.put_back(0, 3, 5)).woken.count, 1);
    assert_eq!(&rt;
        answered(&rt, threads.put_back(0, 3, 5)),
        Err(BlockError::WrongState)
    );
    ends(&rt, threads);
}

// A stopped scheduler gives the job that waits back.
#[test]
fn a_stopped_scheduler_gives_jobs_back(rt: HostRuntime) {
    let threads = opened(&rt, rt.alloc());
    let (ticket, _) = agreed(&rt, threads.submit(SMALL, 1));
    assert_eq!(&rt; answered(&rt, threads.give_back(0)), Err(WrongState));
    let effect = answered(&rt, threads.close(false, 2)).expect(&rt, "closed before");
    assert!(&rt; effect.over);
    assert!(&rt; answered(&rt, threads.close(true, 2)).is_none());
    let refused = answered(&rt, threads.submit(SMALL, 3));
    assert_eq!(&rt; refused, Err(SubmitError::Closed));
    let rest = agreed(&rt, threads.give_back(0)).expect(&rt, "no job");
    assert_eq!(&rt; rest.ticket, ticket);
    assert_eq!(&rt; rest.payload, 5);
    assert!(&rt; agreed(&rt, threads.give_back(0)).is_none());
    ends(&rt, threads);
}

// A scheduler is used while a thread is a worker or a job waits.
#[test]
fn a_used_scheduler_says_so(rt: HostRuntime) {
    let threads = opened(&rt, rt.alloc());
    assert!(&rt; !answered(&rt, threads.is_used()));
    assert_eq!(&rt; answered(&rt, threads.sit()), Some(0));
    assert!(&rt; answered(&rt, threads.is_used()));
    agreed(&rt, threads.rise(0, 0));
    let (ticket, _) = agreed(&rt, threads.submit(SMALL, 1));
    assert!(&rt; answered(&rt, threads.is_used()));
    agreed(&rt, threads.cancel(ticket, 2));
    assert!(&rt; !answered(&rt, threads.is_used()));
    ends(&rt, threads);
}

// A turn has the latest time so far.
#[test]
fn the_time_never_goes_back(rt: HostRuntime) {
    let threads = opened(&rt, rt.alloc());
    assert_eq!(&rt; answered(&rt, threads.sit()), Some(0));
    let (ticket, _) = agreed(&rt, threads.submit(SMALL, 100));
    agreed(&rt, threads.next(0, 50));
    let block = Region { base: 0, dim: 0 };
    let started = Forecast::Started(block, 110);
    assert!(&rt; answered(&rt, threads.look(ticket)) == Some(started));
    ends(&rt, threads);
}
