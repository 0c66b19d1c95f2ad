//! The calls of a worker.
ghost use Rattle.std.specs.Prelude.{◌≡◌, ◌≢◌, ℕ, ◌+◌, ◌<◌, ◌≤◌, ◌⊎◌, [], Some, None, IfSome, IsSome, length};
ghost use Rattle.std.specs.Vec.{vec_capacity};
ghost use Rattle.dispatcher.specs.Members.{IsWorkerOf, IsEndOf, worker_record, stop_of, replies_of, end_record};
ghost use Rattle.dispatcher.specs.Stop.{FindsTheEnd};
ghost use Rattle.dispatcher.specs.InnerShop.{IsOneMachine, HasServed, shop_of};

use crate::limit::is_reached;
use crate::runner::Runner;
use crate::serving::serve;
use crate::shop::Shop;
use crate::stop::Stop;
use crate::worker::{Worker, WorkerEnd};
use backoff::Pause;
use floors::Floor;
use job_queue::{JobLine, Taken};
use job_types::Reply;
use std::alloc::Global;
use std::sync::Wait;
use std::thread::yield_now;

// Reserves room for one more reply. Returns why the worker must stop: it has as many replies as the
// limit, or memory ran out.
fn make_room(replies: &mut Vec<Reply>, limit: Option<u32>) -> Option<Stop>
    ensures items { replies.new.items ≡ replies.old.items }
    ensures room { result ≡ None → length replies.new.items < vec_capacity replies.new }
    ensures stop { IfSome result (λ stop. (stop ≡ Stop.Enough) ⊎ (stop ≡ Stop.OutOfMemory)) }
    ensures enough { result ≡ Some Stop.Enough → limit ≡ Some (length replies.new.items) }
    ensures no_room { result ≡ Some Stop.OutOfMemory →
        vec_capacity replies.new ≤ length replies.new.items }
    ensures fewer { result ≢ Some Stop.Enough → limit ≢ Some (length replies.new.items) }
{
    if is_reached(limit, replies.len()) {
        return Some(Stop::Enough);
    }
    let Ok(()) = replies.reserve(1) else {
        return Some(Stop::OutOfMemory);
    };
    None
}

/// What a worker does where it finds the queue empty.
pub trait Idle: Drop {
    /// Looks for jobs elsewhere. Returns whether the worker tries the queue again at once. If not,
    /// it waits first.
    fn find_jobs<R: Wait>(&mut self, rt: &R) -> bool;
}

/// Finds no jobs, so the worker waits.
#[derive(Clone, Copy, Debug, Drop)]
pub struct Waiting;

impl Idle for Waiting {
    fn find_jobs<R: Wait>(&mut self, _rt: &R) -> bool {
        false
    }
}

// Looks for jobs elsewhere. If there are none, waits for one back-off step, or until a job looks
// waiting.
fn wait_for_job<R: Wait, L: JobLine, I: Idle>(
    rt: &R,
    line: &L,
    pass: &mut L::Pass,
    pause: &mut Pause,
    idle: &mut I,
)
    requires { L.is_pass (L.id line.now) pass.old }
    ensures pass { L.is_pass (L.id line.now) pass.new }
    ensures unchanged { L.pass_record pass.new ≡ L.pass_record pass.old }
{
    if idle.find_jobs(rt) {
        return;
    }
    for _ in 0..pause.next_burst(rt) {
        yield_now();
        if line.job_hint(rt, pass) {
            return;
        }
    }
}

// A worker at work.
struct Shift<L: JobLine, F: Floor, I: Idle> {
    pass: L::Pass,
    station: F::Station,
    // The replies so far.
    replies: Vec<Reply>,
    // The back-off between two takes that find no job.
    pause: Pause,
    // What the worker does before it waits.
    idle: I,
}

impl<L: JobLine, F: Floor, I: Idle> Shift<L, F, I> {
    // Begins the work of a worker.
    fn begin(alloc: Global, worker: Worker<L, F>, idle: I) -> Self
        ensures pass { result.pass ≡ worker.pass }
        ensures station { result.station ≡ worker.station }
        ensures replies { result.replies.items ≡ [] }
    {
        let Worker { pass, station } = worker;
        Shift {
            pass,
            station,
            replies: Vec::new(alloc),
            pause: Pause::new(),
            idle,
        }
    }

    // Takes a job and runs it. If the queue is empty, finds jobs or waits for one back-off step.
    // Returns a stop if the queue has ended.
    fn serve_next<R: Wait, T: Runner>(
        self,
        rt: &R,
        line: &L,
        floor: &F,
        runner: &T,
    ) -> (Self, Option<Stop>)
        requires one_machine { IsOneMachine (L.id line.now) (F.id floor.now) }
        requires pass { L.is_pass (L.id line.now) self.pass }
        requires station { F.is_station (F.id floor.now) self.station }
        requires room { length self.replies.items < vec_capacity self.replies }
        ensures pass { L.is_pass (L.id line.now) result.0.pass }
        ensures station { F.is_station (F.id floor.now) result.0.station }
        ensures served { HasServed (F.id floor.now).dim (L.pass_record self.pass).taken
            (F.grants self.station) self.replies.items
            → HasServed (F.id floor.now).dim (L.pass_record result.0.pass).taken
            (F.grants result.0.station) result.0.replies.items }
        ensures one_more { length result.0.replies.items ≤ length self.replies.items + 1 }
        ensures stop { IfSome result.1 (λ stop. stop ≡ Stop.Ended) }
        ensures ended { IsSome result.1 →
            FindsTheEnd (L.pass_record self.pass) (L.pass_record result.0.pass) }
        ensures stays { IsSome result.1 → result.0.replies.items ≡ self.replies.items }
    {
        let Shift {
            mut pass,
            station,
            mut replies,
            mut pause,
            mut idle,
        } = self;
        match line.take(rt, &mut pass) {
            Taken::Job(id, job) => {
                let (back, reply) = serve(rt, floor, runner, station, id, job);
                replies.push_reserved(reply);
                pause.reset();
                let shift = Shift {
                    pass,
                    station: back,
                    replies,
                    pause,
                    idle,
                };
                return (shift, None);
            }
            Taken::EmptyNow => wait_for_job(rt, line, &mut pass, &mut pause, &mut idle),
            Taken::Ended(_) => {
                let shift = Shift {
                    pass,
                    station,
                    replies,
                    pause,
                    idle,
                };
                return (shift, Some(Stop::Ended));
            }
        }
        let shift = Shift {
            pass,
            station,
            replies,
            pause,
            idle,
        };
        (shift, None)
    }

    // Takes and runs jobs until the queue has ended, or there are as many replies as the limit
    // says.
    fn work<R: Wait, T: Runner>(
        self,
        rt: &R,
        line: &L,
        floor: &F,
        runner: &T,
        limit: Option<u32>,
    ) -> WorkerEnd<L, F>
        requires one_machine { IsOneMachine (L.id line.now) (F.id floor.now) }
        requires pass { L.is_pass (L.id line.now) self.pass }
        requires station { F.is_station (F.id floor.now) self.station }
        requires served { HasServed (F.id floor.now).dim (L.pass_record self.pass).taken
            (F.grants self.station) self.replies.items }
        requires no_replies { self.replies.items ≡ [] }
        ensures of_shop { IsEndOf (shop_of (L.id line.now) (F.id floor.now)) result }
        ensures ended { stop_of result ≡ Stop.Ended → (before : L.Pass) ×
            L.is_pass (L.id line.now) before
            × FindsTheEnd (L.pass_record before) (end_record result) }
        ensures has_run { stop_of result ≢ Stop.NotRun }
        ensures enough { stop_of result ≡ Stop.Enough →
            limit ≡ Some (length (replies_of result)) }
        ensures fewer { (most : ℕ) → limit ≡ Some most → stop_of result ≢ Stop.Enough →
            length (replies_of result) < most }
        ensures at_once { limit ≡ Some 0 → end_record result ≡ L.pass_record self.pass }
    {
        let mut shift = self;
        for _ in rt.forever() {
            if let Some(stop) = make_room(&mut shift.replies, limit) {
                let Shift {
                    pass,
                    station,
                    replies,
                    pause: _,
                    idle: _,
                } = shift;
                return WorkerEnd {
                    pass,
                    station,
                    replies,
                    stop,
                };
            }
            let (next, stop) = shift.serve_next(rt, line, floor, runner);
            shift = next;
            if let Some(stop) = stop {
                let Shift {
                    pass,
                    station,
                    replies,
                    pause: _,
                    idle: _,
                } = shift;
                return WorkerEnd {
                    pass,
                    station,
                    replies,
                    stop,
                };
            }
        }
        unreachable!()
    }
}

/// Takes and runs jobs until the queue has ended. Each job runs on a block of its own.
///
/// Memory for a reply is reserved before its job is taken, so no taken job is lost. If the
/// reservation fails, the worker stops with `OutOfMemory`. It stops with `Ended` if its last take
/// found the queue ended. The type `WorkerEnd` says which replies it has.
pub fn dispatch<R: Wait, L: JobLine, F: Floor, T: Runner>(
    rt: &R,
    alloc: Global,
    shop: &Shop<L, F>,
    worker: Worker<L, F>,
    runner: &T,
) -> WorkerEnd<L, F>
    requires { IsWorkerOf shop.now worker }
    ensures of_shop { IsEndOf shop.now result }
    ensures ended { stop_of result ≡ Stop.Ended → (before : L.Pass) ×
        L.is_pass shop.now.line before × FindsTheEnd (L.pass_record before) (end_record result) }
    ensures has_run { stop_of result ≢ Stop.NotRun }
    ensures no_limit { stop_of result ≢ Stop.Enough }
{
    dispatch_with(rt, alloc, shop, worker, runner, Waiting)
}

/// Takes and runs jobs as `dispatch` does. Where it finds the queue empty, it calls `idle`.
pub fn dispatch_with<R: Wait, L: JobLine, F: Floor, T: Runner, I: Idle>(
    rt: &R,
    alloc: Global,
    shop: &Shop<L, F>,
    worker: Worker<L, F>,
    runner: &T,
    idle: I,
) -> WorkerEnd<L, F>
    requires { IsWorkerOf shop.now worker }
    ensures of_shop { IsEndOf shop.now result }
    ensures ended { stop_of result ≡ Stop.Ended → (before : L.Pass) ×
        L.is_pass shop.now.line before × FindsTheEnd (L.pass_record before) (end_record result) }
    ensures has_run { stop_of result ≢ Stop.NotRun }
    ensures no_limit { stop_of result ≢ Stop.Enough }
{
    let Shop { line, floor } = shop;
    Shift::begin(alloc, worker, idle).work(rt, line, floor, runner, None)
}

/// Takes and runs jobs as `dispatch` does. Stops with `Enough` when there are `most` replies.
///
/// With `most` 0 it takes no job. If it stops for another reason, it has fewer replies.
pub fn dispatch_some<R: Wait, L: JobLine, F: Floor, T: Runner>(
    rt: &R,
    alloc: Global,
    shop: &Shop<L, F>,
    worker: Worker<L, F>,
    runner: &T,
    most: u32,
) -> WorkerEnd<L, F>
    requires { IsWorkerOf shop.now worker }
    ensures of_shop { IsEndOf shop.now result }
    ensures ended { stop_of result ≡ Stop.Ended → (before : L.Pass) ×
        L.is_pass shop.now.line before × FindsTheEnd (L.pass_record before) (end_record result) }
    ensures has_run { stop_of result ≢ Stop.NotRun }
    ensures enough { stop_of result ≡ Stop.Enough → length (replies_of result) ≡ most }
    ensures fewer { stop_of result ≢ Stop.Enough → length (replies_of result) < most }
    ensures at_once { most ≡ 0 → end_record result ≡ worker_record worker }
{
    let Shop { line, floor } = shop;
    Shift::begin(alloc, worker, Waiting).work(rt, line, floor, runner, Some(most))
}
