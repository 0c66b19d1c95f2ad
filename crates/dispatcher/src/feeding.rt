//! The calls of a producer.
ghost use Rattle.std.specs.Prelude.{◌≡◌, ◌≢◌, ℕ, ◌+◌, ◌-◌, ◌^◌, ◌<◌, ◌≤◌, min, ◌++◌, [], ◌∷◌, List, None, Some, IfSome, length};
ghost use Rattle.std.specs.Option.{IsSome};
ghost use Rattle.std.specs.List.{All};
ghost use Rattle.job_queue.specs.Record.{accepted_jobs};
ghost use Rattle.job_queue.specs.Line.{IsFor};
ghost use Rattle.dispatcher.specs.Stop.{given_back};
ghost use Rattle.dispatcher.specs.Feed.{HandsIn, IsStopFor, full_since};
ghost use Rattle.dispatcher.specs.InnerFeed.{stop_at};

use crate::limit::is_reached;
use crate::shop::Shop;
use backoff::Pause;
use floors::Floor;
use job_queue::{JobLine, Refused};
use job_types::Job;
use std::collections::VecDeque;
use std::sync::Wait;
use std::thread::yield_now;

/// The reason why a feed has stopped.
#[derive(Clone, Copy, Debug, PartialEq, Eq, Hash)]
pub enum FeedStop {
    /// All jobs were accepted.
    Done,
    /// The queue is closed.
    Closed {
        /// The count of entries that was read together with the closed mark.
        seen: u64,
    },
    /// The lane has made as many entries as a lane may.
    LaneSpent,
    /// The queue was full as often as the feed was allowed to try. Only `feed_for` stops so.
    Turns,
}

/// A feed that has stopped, with the jobs that were not accepted.
#[derive(Debug, Drop)]
pub struct FeedEnd {
    /// The job that the last try returned, if it returned one.
    pub back: Option<Job>,
    /// The jobs after it, in order.
    pub left: VecDeque<Job>,
    /// The reason why the feed has stopped.
    pub stop: FeedStop,
}

// Waits for one back-off step, or until half of the queue looks free.
fn wait_at_line<R: Wait, L: JobLine>(rt: &R, line: &L, lane: &mut L::Lane, pause: &mut Pause)
    requires { L.is_lane (L.id line.now) lane.old }
    ensures lane { L.is_lane (L.id line.now) lane.new }
    ensures unchanged { L.lane_record lane.new ≡ L.lane_record lane.old }
{
    for _ in 0..pause.next_burst(rt) {
        yield_now();
        if line.room_hint(rt, lane) {
            return;
        }
    }
}

/// Waits for one back-off step, or until half of the queue looks free. A producer calls it after a
/// submit that found the queue full.
pub fn wait_for_room<R: Wait, L: JobLine, F: Floor>(
    rt: &R,
    shop: &Shop<L, F>,
    lane: &mut L::Lane,
    pause: &mut Pause,
)
    requires { L.is_lane shop.now.line lane.old }
    ensures lane { L.is_lane shop.now.line lane.new }
    ensures unchanged { L.lane_record lane.new ≡ L.lane_record lane.old }
{
    wait_at_line(rt, &shop.line, lane, pause);
}

// Counts the tries that found the queue full. Returns why the feed stops at this refusal, if it
// does.
fn stop_for(refused: Refused, limit: Option<u32>, full: &mut usize) -> Option<FeedStop>
    ensures stop { IfSome result (λ stop. stop ≡ stop_at refused) }
    ensures last { result ≡ Some FeedStop.Turns → limit ≡ Some full.new }
    ensures goes_on { result ≡ None → (refused ≡ Refused.Full) × (limit ≢ Some full.new) }
    ensures count { refused ≡ Refused.Full → full.new ≡ min (full.old + 1) (2 ^ 64 - 1) }
    ensures word { IfSome limit (λ most. most < 2 ^ 32) }
{
    match refused {
        Refused::Full => {
            *full = full.saturating_add(1);
            if is_reached(limit, *full) {
                Some(FeedStop::Turns)
            } else {
                None
            }
        }
        Refused::Closed { seen } => Some(FeedStop::Closed { seen }),
        Refused::LaneSpent => Some(FeedStop::LaneSpent),
    }
}

// Submits the jobs until one is refused for good, or the queue was full as often as the limit says.
fn hand_in<R: Wait, L: JobLine>(
    rt: &R,
    line: &L,
    lane: &mut L::Lane,
    jobs: VecDeque<Job>,
    limit: Option<u32>,
) -> FeedEnd
    requires lane { L.is_lane (L.id line.now) lane.old }
    requires jobs { All (IsFor (L.id line.now).sizes.machine (L.lane_record lane.old).number)
        jobs.items }
    requires limit { limit ≢ Some 0 }
    ensures lane { L.is_lane (L.id line.now) lane.new }
    ensures number { (L.lane_record lane.new).number ≡ (L.lane_record lane.old).number }
    ensures jobs { All (IsFor (L.id line.now).sizes.machine (L.lane_record lane.new).number)
        (given_back result.back ++ result.left.items) }
    ensures entries { HandsIn jobs.items (given_back result.back ++ result.left.items)
        result.stop (L.lane_record lane.old) (L.lane_record lane.new) }
    ensures stopped { IsStopFor (L.lane_record lane.new) result }
    ensures refused { result.stop ≢ FeedStop.Done → IsSome result.back }
    ensures turns { result.stop ≡ FeedStop.Turns →
        limit ≡ Some (full_since (L.lane_record lane.old) (L.lane_record lane.new)) }
    ensures fewer { (turns : ℕ) → limit ≡ Some turns → result.stop ≢ FeedStop.Turns →
        full_since (L.lane_record lane.old) (L.lane_record lane.new) < turns }
{
    let mut left = jobs;
    let mut full = 0usize;
    let mut pause = Pause::new();
    for _ in rt.forever() {
        let Some(job) = left.pop_front() else {
            return FeedEnd {
                back: None,
                left,
                stop: FeedStop::Done,
            };
        };
        let Err((job, refused)) = line.submit(rt, lane, job) else {
            pause.reset();
            continue;
        };
        if let Some(stop) = stop_for(refused, limit, &mut full) {
            return FeedEnd {
                back: Some(job),
                left,
                stop,
            };
        }
        left.push_front_reserved(job);
        wait_at_line(rt, line, lane, &mut pause);
    }
    unreachable!()
}

/// Submits the jobs of one lane, from the front, and tries again if the queue is full.
///
/// The jobs accepted in this call, then the job that came back, then those left are all jobs passed
/// in. Each accepted job costs the lane one entry, and so does each try that found the queue full.
/// The call makes no other entry.
pub fn feed<R: Wait, L: JobLine, F: Floor>(
    rt: &R,
    shop: &Shop<L, F>,
    lane: &mut L::Lane,
    jobs: VecDeque<Job>,
) -> FeedEnd
    requires lane { L.is_lane shop.now.line lane.old }
    requires jobs { All (IsFor shop.now.line.sizes.machine (L.lane_record lane.old).number)
        jobs.items }
    ensures lane { L.is_lane shop.now.line lane.new }
    ensures number { (L.lane_record lane.new).number ≡ (L.lane_record lane.old).number }
    ensures fed { accepted_jobs (L.lane_record lane.new) ++ given_back result.back
        ++ result.left.items ≡ accepted_jobs (L.lane_record lane.old) ++ jobs.items }
    ensures jobs { All (IsFor shop.now.line.sizes.machine (L.lane_record lane.new).number)
        (given_back result.back ++ result.left.items) }
    ensures entries { HandsIn jobs.items (given_back result.back ++ result.left.items)
        result.stop (L.lane_record lane.old) (L.lane_record lane.new) }
    ensures stopped { IsStopFor (L.lane_record lane.new) result }
    ensures refused { result.stop ≢ FeedStop.Done → IsSome result.back }
    ensures no_limit { result.stop ≢ FeedStop.Turns }
{
    hand_in(rt, &shop.line, lane, jobs, None)
}

/// Submits the jobs of one lane as `feed` does. Stops with `Turns` when `turns` tries of this call
/// have found the queue full. Then the job of the last try came back.
///
/// With `turns` 0 it makes no try, and all jobs are left.
pub fn feed_for<R: Wait, L: JobLine, F: Floor>(
    rt: &R,
    shop: &Shop<L, F>,
    lane: &mut L::Lane,
    jobs: VecDeque<Job>,
    turns: u32,
) -> FeedEnd
    requires lane { L.is_lane shop.now.line lane.old }
    requires jobs { All (IsFor shop.now.line.sizes.machine (L.lane_record lane.old).number)
        jobs.items }
    ensures lane { L.is_lane shop.now.line lane.new }
    ensures number { (L.lane_record lane.new).number ≡ (L.lane_record lane.old).number }
    ensures fed { accepted_jobs (L.lane_record lane.new) ++ given_back result.back
        ++ result.left.items ≡ accepted_jobs (L.lane_record lane.old) ++ jobs.items }
    ensures jobs { All (IsFor shop.now.line.sizes.machine (L.lane_record lane.new).number)
        (given_back result.back ++ result.left.items) }
    ensures entries { HandsIn jobs.items (given_back result.back ++ result.left.items)
        result.stop (L.lane_record lane.old) (L.lane_record lane.new) }
    ensures turns { result.stop ≡ FeedStop.Turns →
        full_since (L.lane_record lane.old) (L.lane_record lane.new) ≡ turns }
    ensures fewer { result.stop ≢ FeedStop.Turns →
        full_since (L.lane_record lane.old) (L.lane_record lane.new) < turns }
    ensures stopped { IsStopFor (L.lane_record lane.new) result }
    ensures refused { result.stop ≢ FeedStop.Done → result.stop ≢ FeedStop.Turns →
        IsSome result.back }
    ensures last_try { result.stop ≡ FeedStop.Turns → 0 < turns → IsSome result.back }
    ensures at_once { turns ≡ 0 →
        result ≡ record { back = None; left = jobs; stop = FeedStop.Turns } }
    ensures untouched { turns ≡ 0 → lane.new ≡ lane.old }
{
    if turns == 0 {
        return FeedEnd {
            back: None,
            left: jobs,
            stop: FeedStop::Turns,
        };
    }
    hand_in(rt, &shop.line, lane, jobs, Some(turns))
}
