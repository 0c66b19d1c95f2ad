//! The replies of a finished dispatcher, sorted by id.
ghost use Rattle.std.specs.Prelude.{◌≡◌, ℕ, List, ◌+◌, ◌≤◌, ◌++◌, IfOk, IfErr, IfSome, IsTrue, MatchOption, map, length, slice_get, IsPermutation};
ghost use Rattle.std.specs.Vec.{vec_capacity};
ghost use Rattle.job_types.specs.Job.{JobData};
ghost use Rattle.dispatcher.specs.Answers.{all_replies, AnswersAll};
ghost use Rattle.dispatcher.specs.Order.{AreSorted, AreInOrder};

use crate::finishing::Finished;
use cube_shape::MAX_LANES;
use job_types::{JobId, Reply};
use std::alloc::{AllocError, Global};
use std::collections::VecDeque;

// The number of lanes whose replies have known places.
const LANES: usize = MAX_LANES as usize;

// Returns how many replies there are, if a `usize` can count them.
fn reply_count(by_worker: &[Vec<Reply>], rest: &[Reply]) -> Option<usize>
    ensures { IfSome result (λ count.
        count ≡ length (all_replies (map (λ rs. rs.items) by_worker.now) rest.now)) }
{
    let mut count = rest.len();
    for replies in by_worker {
        count = count.checked_add(replies.len())?;
    }
    Some(count)
}

// Moves the replies to the end of the others, which have room for them.
fn move_all(replies: Vec<Reply>, all: &mut Vec<Reply>)
    requires { length all.old.items + length replies.items ≤ vec_capacity all.old }
    ensures items { all.new.items ≡ all.old.items ++ replies.items }
    ensures capacity { vec_capacity all.new ≡ vec_capacity all.old }
{
    let mut left = VecDeque::from_vec(replies);
    while let Some(reply) = left.pop_front() {
        all.push_reserved(reply);
    }
}

// Moves the replies of each worker and then the rest to the end of the others.
fn gather(by_worker: VecDeque<Vec<Reply>>, rest: Vec<Reply>, others: Vec<Reply>) -> Vec<Reply>
    requires { length others.items
        + length (all_replies (map (λ rs. rs.items) by_worker.items) rest.items)
        ≤ vec_capacity others }
    ensures { result.items
        ≡ others.items ++ all_replies (map (λ rs. rs.items) by_worker.items) rest.items }
{
    let mut all = others;
    let mut left = by_worker;
    while let Some(replies) = left.pop_front() {
        move_all(replies, &mut all);
    }
    move_all(rest, &mut all);
    all
}

// Returns where the replies of each lane begin, if all accepted jobs are answered lane by lane.
fn starts_of(accepted: &[u64]) -> [usize; LANES] {
    let mut starts = [0; LANES];
    let mut start: usize = 0;
    for (place, count) in starts.iter_mut().zip(accepted) {
        *place = start;
        start = start.saturating_add(*count as usize);
    }
    starts
}

// Returns the place of a reply in the sorted list: that of its number, after all lanes before it.
fn place_of(starts: &[usize; LANES], id: JobId) -> u32 {
    match starts.get(id.lane as usize) {
        Some(start) => start.saturating_add(id.seq as usize).min(u32::MAX as usize) as u32,
        None => u32::MAX,
    }
}

// Returns the place of each reply.
fn places_of(
    alloc: Global,
    starts: &[usize; LANES],
    replies: &[Reply],
) -> Result<Vec<u32>, AllocError> {
    let mut places = Vec::with_capacity(alloc, replies.len())?;
    for reply in replies {
        places.push(place_of(starts, reply.id()))?;
    }
    Ok(places)
}

// Moves each reply to its place. Where a reply goes matters for speed alone, since the replies are
// sorted afterwards.
fn place(places: &mut [u32], replies: &mut [Reply])
    ensures { IsPermutation replies.old replies.new }
{
    let mut at = 0;
    // Each step puts a reply in its place, or goes on to the next one.
    for _ in 0..replies.len().saturating_mul(2) {
        let Some(place) = places.get(at) else {
            return;
        };
        let place = *place as usize;
        if place <= at || place >= replies.len() || place >= places.len() {
            at += 1;
            continue;
        }
        places.swap(at, place);
        replies.swap(at, place);
    }
}

// Moves the replies to their places, if there is memory for the list of these.
fn place_all(alloc: Global, starts: &[usize; LANES], replies: &mut [Reply])
    ensures { IsPermutation replies.old replies.new }
{
    let Ok(mut places) = places_of(alloc, starts, replies) else {
        return;
    };
    place(&mut places, replies);
}

// Returns whether the replies are sorted by lane, and within a lane by number.
fn are_sorted(replies: &[Reply]) -> bool
    ensures { IsTrue result → AreSorted replies.now }
{
    replies.is_sorted_by_key(|reply| reply.id())
}

// Sorts the replies by lane, and within a lane by number. A sort of replies in their places takes
// one pass.
fn sort(alloc: Global, starts: &[usize; LANES], replies: &mut Vec<Reply>)
    ensures same { IsPermutation replies.old.items replies.new.items }
    ensures sorted { AreSorted replies.new.items }
{
    if are_sorted(replies) {
        return;
    }
    place_all(alloc, starts, replies);
    replies.sort_unstable_by_key(|reply| reply.id());
}

// Returns whether the first worker's list has room for this number of replies.
fn first_has_room(by_worker: &[Vec<Reply>], count: usize) -> bool
    ensures { IsTrue result →
        MatchOption (slice_get by_worker.now 0) ⊥ (λ first. count ≤ vec_capacity first) }
{
    match by_worker.first() {
        Some(first) => count <= first.capacity(),
        None => false,
    }
}

// Returns all replies in one list: each worker's list after the one before, then the rest. The
// first list takes the others, if it has room.
fn all_in_one<M: Drop>(
    alloc: Global,
    finished: Finished<M>,
) -> Result<Vec<Reply>, (AllocError, Finished<M>)>
    ensures all { IfOk result (λ replies. replies.items
        ≡ all_replies (map (λ rs. rs.items) finished.by_worker.items) finished.rest.items) }
    ensures gives_back { IfErr result (λ r. r.1 ≡ finished) }
{
    let Some(count) = reply_count(&finished.by_worker, &finished.rest) else {
        return Err((AllocError, finished));
    };
    if first_has_room(&finished.by_worker, count) {
        let Finished {
            by_worker,
            rest,
            ..
        } = finished;
        let mut by_worker = VecDeque::from_vec(by_worker);
        let Some(first) = by_worker.pop_front() else {
            unreachable!()
        };
        return Ok(gather(by_worker, rest, first));
    }
    let Ok(room) = Vec::with_capacity(alloc, count) else {
        return Err((AllocError, finished));
    };
    let Finished {
        by_worker,
        rest,
        ..
    } = finished;
    Ok(gather(VecDeque::from_vec(by_worker), rest, room))
}

/// Sorts all replies by lane, and within a lane by number. If they answer lists of jobs, one for
/// each lane, they are then the answers to these jobs, lane by lane.
///
/// The first worker's list takes all replies, if it has room. Else it allocates one list. It frees
/// each worker's list when its replies have moved. If memory runs out, the replies and the machine
/// come back unchanged. It takes four bytes more for each reply while it sorts, or without them
/// more time.
pub fn sorted_replies<M: Drop>(
    alloc: Global,
    finished: Finished<M>,
) -> Result<Vec<Reply>, (AllocError, Finished<M>)>
    ensures same { IfOk result (λ replies. IsPermutation
        (all_replies (map (λ rs. rs.items) finished.by_worker.items) finished.rest.items)
        replies.items) }
    ensures sorted { IfOk result (λ replies. AreSorted replies.items) }
    ensures in_order { IfOk result (λ replies. (n : ℕ) (jobs : List (List JobData)) →
        AnswersAll n jobs (map (λ rs. rs.items) finished.by_worker.items) finished.rest.items →
        AreInOrder n jobs replies.items) }
    ensures gives_back { IfErr result (λ r. r.1 ≡ finished) }
{
    let starts = starts_of(&finished.accepted);
    let mut replies = match all_in_one(alloc, finished) {
        Ok(replies) => replies,
        Err(refused) => return Err(refused),
    };
    sort(alloc, &starts, &mut replies);
    Ok(replies)
}
