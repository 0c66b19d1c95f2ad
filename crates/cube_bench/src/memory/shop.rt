//! A dispatcher of one lane and one worker, which runs the jobs of the lane after its queue was
//! closed.
ghost use Rattle.std.specs.Prelude.{◌≡◌};
ghost use Rattle.std.specs.List.{All};
ghost use Rattle.job_queue.specs.Line.{IsFor};
ghost use Rattle.dispatcher.specs.Members.{IsWorkerOf, IsEndOf};

use crate::jobs::jobs_of;
use crate::memory::single::{Single, finish};
use crate::memory::told::{counted, tell_given, tell_refused};
use cube_ledger::Ledger;
use cube_shape::MAX_CAPACITY;
use dispatcher::{
    FeedStop, Finished, Plain, Shop, ShopRefused, Stop, Worker, WorkerEnd, dispatch, feed,
};
use floors::Floor;
use job_queue::JobLine;
use job_types::{Job, Reply};
use std::alloc::Global;
use std::collections::VecDeque;
use std::io;
use std::sync::Wait;

const MACHINE: u32 = 2;

// Prints how many of the jobs a feed left.
fn tell_feed<R: Print>(rt: &R, stop: FeedStop, left: usize) -> io::Result<()> {
    match stop {
        FeedStop::Done => tell_given(rt, "feed Done", &[left as u64]),
        _ => tell_given(rt, "feed stopped", &[left as u64]),
    }
}

// Prints why a worker stopped, and how many replies it has. Returns how many calls had memory so
// far.
fn tell_dispatch<R: Print>(rt: &R, stop: Stop, replies: usize) -> io::Result<u64> {
    match stop {
        Stop::Ended => counted(tell_given(rt, "dispatch", &[replies as u64]), 3),
        Stop::OutOfMemory => counted(tell_refused(rt, "dispatch", &[replies as u64]), 2),
        _ => counted(tell_given(rt, "dispatch stopped", &[replies as u64]), 2),
    }
}

// Prints the numbers (seqs) of replies.
fn print_seqs<R: Print>(rt: &R, replies: &[Reply]) -> io::Result<()> {
    for reply in replies {
        let seq = reply.id().seq;
        print!(rt; " {seq}")?;
    }
    Ok(())
}

// Prints the numbers (seqs) of the replies of all workers, followed by those of the rest.
fn tell_replies<R: Print, M>(rt: &R, finished: &Finished<M>) -> io::Result<()> {
    rt.print("finish")?;
    for replies in &finished.by_worker {
        print_seqs(rt, replies)?;
    }
    print_seqs(rt, &finished.rest)?;
    rt.println("")
}

// Makes the ledger of a finished dispatcher. Returns how many calls had memory.
fn call_ledger<R: Print, M>(rt: &R, alloc: Global, finished: &Finished<M>) -> io::Result<u64> {
    match Ledger::of(alloc, finished) {
        Ok(ledger) => counted(tell_given(rt, "Ledger::of", &[ledger.total().jobs]), 1),
        Err(_) => counted(tell_refused(rt, "Ledger::of", &[]), 0),
    }
}

// Feeds the jobs by the lane, and prints how many are left.
fn call_feed<R: Wait + Print, L: JobLine, F: Floor>(
    rt: &R,
    shop: &Shop<L, F>,
    lane: &mut L::Lane,
    jobs: VecDeque<Job>,
) -> io::Result<()>
    requires lane { L.is_lane shop.now.line lane.old }
    requires number { (L.lane_record lane.old).number ≡ 0 }
    requires machine { shop.now.line.sizes.machine ≡ MACHINE }
    requires jobs { All (IsFor MACHINE 0) jobs.items }
    ensures { L.is_lane shop.now.line lane.new }
{
    let fed = feed(rt, shop, lane, jobs);
    tell_feed(rt, fed.stop, fed.left.len())
}

// Runs the worker to its end, and prints why it stopped. Returns how many calls had memory so far.
fn call_dispatch<R: Wait + Print, L: JobLine, F: Floor>(
    rt: &R,
    alloc: Global,
    shop: &Shop<L, F>,
    worker: Worker<L, F>,
) -> (io::Result<u64>, WorkerEnd<L, F>)
    requires { IsWorkerOf shop.now worker }
    ensures { IsEndOf shop.now result.1 }
{
    let end = dispatch(rt, alloc, shop, worker, &Plain);
    let told = tell_dispatch(rt, end.stop(), end.replies().len());
    (told, end)
}

// Feeds the jobs, closes the dispatcher, runs the worker to its end, and finishes the dispatcher.
// Returns how many calls had memory, if all could be printed.
fn run_out<R: Wait + Print, L: JobLine, F: Floor>(
    rt: &R,
    alloc: Global,
    single: Single<L, F>,
    jobs: VecDeque<Job>,
) -> (io::Result<u64>, Finished<F::Machine>)
    requires machine { single.line.sizes.machine ≡ MACHINE }
    requires jobs { All (IsFor MACHINE 0) jobs.items }
{
    let Single {
        shop,
        mut lane,
        lanes,
        worker,
        ends,
        closer,
    } = single;
    let fed = call_feed(rt, &shop, &mut lane, jobs);
    let note = shop.close(rt, closer);
    let (told, end) = call_dispatch(rt, alloc, &shop, worker);
    let finished = finish(rt, shop, (lane, lanes), (end, ends), note);
    (fed.and(told), finished)
}

// Prints that the dispatcher was not opened. Returns how many calls had memory.
fn tell_unopened<R: Print>(rt: &R, why: ShopRefused) -> io::Result<u64> {
    match why {
        ShopRefused::OutOfMemory => counted(tell_refused(rt, "Shop::open", &[]), 1),
        _ => Ok(1),
    }
}

// Prints the replies and the ledger of a finished dispatcher, if all before could be printed.
// Returns how many calls had memory.
fn tell_finished<R: Print, M>(
    rt: &R,
    alloc: Global,
    told: io::Result<u64>,
    finished: &Finished<M>,
) -> io::Result<u64> {
    let before = told?;
    tell_replies(rt, finished)?;
    let ledger = call_ledger(rt, alloc, finished)?;
    Ok(ledger.wrapping_add(before))
}

// Makes the calls on a dispatcher that has room for all the jobs.
fn call_open<R: Wait + Print, L: JobLine, F: Floor>(
    rt: &R,
    alloc: Global,
    jobs: VecDeque<Job>,
) -> io::Result<u64>
where
    F::Machine: Drop,
    requires jobs { All (IsFor MACHINE 0) jobs.items }
{
    match Single::<L, F>::open(alloc, MACHINE, MAX_CAPACITY) {
        Ok(single) => {
            let opened = rt.println("Shop::open");
            let (told, finished) = run_out(rt, alloc, single, jobs);
            tell_finished(rt, alloc, opened.and(told), &finished)
        }
        Err(why) => tell_unopened(rt, why),
    }
}

/// Makes `count` jobs, and a dispatcher of this kind that runs them, one call after the other.
pub(crate) fn call_all<R: Wait + Print, L: JobLine, F: Floor>(
    rt: &R,
    alloc: Global,
    count: usize,
) -> io::Result<u64>
where
    F::Machine: Drop,
{
    let Some(jobs) = jobs_of(alloc, MACHINE, 0, 2, count) else {
        return counted(tell_refused(rt, "jobs", &[]), 0);
    };
    tell_given(rt, "jobs", &[jobs.len() as u64])?;
    call_open::<R, L, F>(rt, alloc, jobs)
}
