// The events of a finished run.
ghost use Rattle.std.specs.Prelude.{◌≡◌, ◌≤◌, ◌++◌, [], List, IfOk, OnOk, IsPermutation, map};
ghost use Rattle.dispatcher.specs.Answers.{all_replies};
ghost use Rattle.cube_shape.specs.Region.{IsAligned};
ghost use Rattle.cube_shape.specs.declared.limits.TheConstants.{MAX_DIM};
ghost use Rattle.job_types.specs.Reply.{ReplyData};
ghost use Rattle.job_events.specs.Events.{AreEvents};
ghost use Rattle.job_events.specs.Inner.{ArePairs, IsPair};
ghost use Rattle.std.specs.List.Sorted.{IsNonDecreasingBy};

use crate::event::{JobEvent, Step};
use crate::numbers::EventNumbers;
use cube_shape::Region;
use dispatcher::Finished;
use job_types::{Job, Reply};
use std::alloc::{AllocError, Global};
use std::collections::VecDeque;

// Returns the base and the dimension of a block of a machine of dimension `n`. The largest machine
// is so small that they fit.
fn small(n: u32, region: Region) -> (u16, u8)
    requires machine { n ≤ MAX_DIM }
    requires aligned { IsAligned n region }
    ensures base { result.0 ≡ region.base }
    ensures dim { result.1 ≡ region.dim }
{
    let _machine = n;
    (region.base as u16, region.dim as u8)
}

// Returns the two events of a reply's job.
fn pair_of(numbers: &EventNumbers, reply: &Reply) -> (JobEvent, JobEvent)
    ensures { IsPair reply.now result.0 result.1 }
{
    let id = reply.id();
    let (base, dim) = small(reply.job().machine(), reply.region());
    let (take, free) = numbers.pair(id);
    let taken = JobEvent {
        number: take,
        seq: id.seq,
        lane: id.lane,
        base,
        dim,
        step: Step::Take,
    };
    let freed = JobEvent {
        number: free,
        step: Step::Free,
        ..taken
    };
    (taken, freed)
}

// Adds the events of these replies, two for each.
fn push_pairs(
    events: &mut Vec<JobEvent>,
    numbers: &EventNumbers,
    replies: &[Reply],
) -> Result<(), AllocError>
    ensures { OnOk result ((before : List ReplyData) → ArePairs before events.old.items
        → ArePairs (before ++ replies.now) events.new.items) }
{
    for reply in replies {
        let (taken, freed) = pair_of(numbers, reply);
        events.push(taken)?;
        events.push(freed)?;
    }
    Ok(())
}

// Sorts the events by their numbers. Those of a worker are in order, and `sort_by_key` merges lists
// that are. It needs a second list: if there is no memory for it, sorts them in place.
fn sort(events: &mut Vec<JobEvent>)
    ensures same { IsPermutation events.old.items events.new.items }
    ensures sorted { IsNonDecreasingBy (λ event. event.number) events.new.items }
{
    let Ok(()) = events.sort_by_key(|event| event.number) else {
        events.sort_unstable_by_key(|event| event.number);
        return;
    };
}

/// Returns room for the events of these jobs, two for each.
pub fn room_for(alloc: Global, jobs: &[VecDeque<Job>]) -> Result<Vec<JobEvent>, AllocError>
    ensures { IfOk result (λ room. room.items ≡ []) }
{
    let mut events: usize = 0;
    for list in jobs {
        events = events.saturating_add(list.len()).saturating_add(list.len());
    }
    Vec::with_capacity(alloc, events)
}

/// Returns the events of a finished run in the order of their numbers: a take and a later free of
/// the block of each reply. It puts them into `room`, whose own events are dropped.
///
/// # Errors
///
/// Memory ran out. Room for two events of each reply is enough.
pub fn events_of<M>(
    numbers: &EventNumbers,
    room: Vec<JobEvent>,
    finished: &Finished<M>,
) -> Result<Vec<JobEvent>, AllocError>
    ensures { IfOk result (λ events. AreEvents
        (all_replies (map (λ replies. replies.items) finished.now.by_worker.items)
        finished.now.rest.items) events.items) }
{
    let mut events = room;
    events.clear();
    for replies in &finished.by_worker {
        push_pairs(&mut events, numbers, replies)?;
    }
    push_pairs(&mut events, numbers, &finished.rest)?;
    sort(&mut events);
    Ok(events)
}
