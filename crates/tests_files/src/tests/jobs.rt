//! Jobs that run, and jobs that are refused.

ghost use Rattle.std.specs.Prelude.{◌≡◌, ◌<◌, ◌≤◌, length};
ghost use Rattle.cube_shape.specs.Region.{IsAligned};
ghost use Rattle.job_types.specs.Dim.{dim_of};

use crate::tests::facts::{expect_all, expect_true};
use crate::tests::failing_devices::{push, says};
use collectives::Tally;
use cube_shape::{MAX_DIM, MAX_LANES, Region};
use job_types::{Job, JobId, JobRefused, Kind, Op, Reply, Request};
use std::alloc::Global;
use std::process::Abort;

const SUM: Kind = Kind::AllReduce { op: Op::Add };

const SUMS: Kind = Kind::Scan { op: Op::Add };

const GREATEST: Kind = Kind::Scan { op: Op::Max };

const SUMS_BEFORE: Kind = Kind::ExScan { op: Op::Add };

const ID: JobId = JobId { lane: 3, seq: 40 };

// Returns the first block that has a processor for each item of the job.
fn first_region(job: &Job) -> Region
    ensures aligned { IsAligned job.now.machine result }
    ensures dimension { result.dim ≡ dim_of (length job.now.items) }
{
    Region {
        base: 0,
        dim: job.dim(),
    }
}

// Returns the reply to a job on the first block that has a processor for each of its items.
pub(crate) fn answered(job: Job, id: JobId) -> Reply {
    let region = first_region(&job);
    job.answer(id, region)
}

// Expects that this is the dimension of a machine, and this one of its lanes.
pub(crate) fn expect_lane(rt: &impl Abort, n: u32, lane: u32)
    ensures machine { n ≤ MAX_DIM }
    ensures lane { lane < MAX_LANES }
{
    assert!(rt; n <= MAX_DIM && lane < MAX_LANES);
}

// Returns what is made of a request for a job of this kind on these items.
pub(crate) fn asked(
    rt: &impl Abort,
    alloc: Global,
    n: u32,
    lane: u32,
    kind: Kind,
    items: &[u64],
) -> Result<Job, (Vec<u64>, JobRefused)> {
    expect_lane(rt, n, lane);
    let items = Vec::from_slice(alloc, items).expect(rt, "no memory");
    Job::new(alloc, n, lane, kind, items)
}

// Returns the job of a request that is not refused.
pub(crate) fn made(
    rt: &impl Abort,
    alloc: Global,
    n: u32,
    lane: u32,
    kind: Kind,
    items: &[u64],
) -> Job {
    asked(rt, alloc, n, lane, kind, items).expect(rt, "a job")
}

// Returns the reply with this id to a job of this kind on these items.
pub(crate) fn reply_to(
    rt: &impl Abort,
    alloc: Global,
    n: u32,
    id: JobId,
    kind: Kind,
    items: &[u64],
) -> Reply {
    answered(made(rt, alloc, n, id.lane, kind, items), id)
}

// Returns the replies to jobs of this kind, for the machine of dimension 3. Each row is the lane
// and the number of a job, and its items.
pub(crate) fn replies_to(
    rt: &(impl AllocGlobal + Abort),
    kind: Kind,
    rows: &[(u32, u64, &[u64])],
) -> Vec<Reply> {
    let mut replies = Vec::new(rt.alloc());
    for (lane, seq, items) in rows {
        let id = JobId {
            lane: *lane,
            seq: *seq,
        };
        let reply = reply_to(rt, rt.alloc(), 3, id, kind, items);
        push(rt, &mut replies, reply);
    }
    replies
}

// Returns whether a job is one of this kind on these items, with this machine, lane and dimension.
pub(crate) fn is_job(
    job: &Job,
    machine: u32,
    lane: u32,
    dim: u32,
    kind: Kind,
    items: &[u64],
) -> bool {
    (job.machine() == machine)
        & (job.lane() == lane)
        & (job.dim() == dim)
        & (job.kind() == kind)
        & (job.items() == items)
}

// Returns whether the place of this rank holds this.
fn holds(reply: &Reply, rank: u64, held: Option<u64>) -> bool {
    reply.at(rank) == held
}

// Returns whether a reply took these rounds and messages.
fn took(reply: &Reply, rounds: u32, messages: u64) -> bool {
    reply.tally() == Tally { rounds, messages }
}

// Returns whether a reply holds nothing at this rank and at the last one.
fn ends_at(reply: &Reply, rank: u64) -> bool {
    holds(reply, rank, None) & holds(reply, u64::MAX, None)
}

// Expects that a reply holds these places.
fn expect_places(rt: &impl Abort, reply: &Reply, places: &[Option<u64>]) {
    for (rank, held) in places.iter().enumerate() {
        expect_true(rt, holds(reply, rank as u64, *held));
    }
}

// Expects that the reply to a job of this kind on these items holds these places, and nothing past
// them. It took these rounds and messages.
fn expect_reply(
    rt: &impl Abort,
    alloc: Global,
    n: u32,
    kind: Kind,
    items: &[u64],
    places: &[Option<u64>],
    rounds: u32,
    messages: u64,
) {
    let reply = reply_to(rt, alloc, n, ID, kind, items);
    expect_places(rt, &reply, places);
    expect_true(
        rt,
        took(&reply, rounds, messages) & ends_at(&reply, places.len() as u64),
    );
}

// Expects what each row says. A row is the dimension of a machine, and the kind and the items of a
// job for it. Then follow the places of its reply, its rounds and its messages.
fn expect_replies(
    rt: &impl Abort,
    alloc: Global,
    rows: &[(u32, Kind, &[u64], &[Option<u64>], u32, u64)],
) {
    for (n, kind, items, places, rounds, messages) in rows {
        expect_reply(rt, alloc, *n, *kind, items, places, *rounds, *messages);
    }
}

const LEAST_BEFORE: Kind = Kind::ExScan { op: Op::Min };

const SMALLEST: Kind = Kind::Reduce {
    op: Op::Min,
    root: 2,
};

const EITHER: Kind = Kind::Reduce {
    op: Op::Or,
    root: 1,
};

const BOTH: Kind = Kind::Reduce {
    op: Op::And,
    root: 0,
};

const SECOND: Kind = Kind::Broadcast { root: 1 };

const FIRST: Kind = Kind::Broadcast { root: 0 };

// Jobs on the smallest arrays. The rows are those of `expect_replies`.
static SMALL_JOBS: [(u32, Kind, &[u64], &[Option<u64>], u32, u64); 18] = [
    (3, SUM, &[1, 2, 3, 4], &[Some(10); 4], 2, 8),
    (1, SUM, &[u64::MAX, 1], &[Some(0); 2], 1, 2),
    (0, SUM, &[7], &[Some(7)], 0, 0),
    (3, SUM, &[5, 6], &[Some(11); 2], 1, 2),
    (3, SUM, &[1; 8], &[Some(8); 8], 3, 24),
    (
        3,
        Kind::AllReduce { op: Op::Xor },
        &[5, 6],
        &[Some(3); 2],
        1,
        2,
    ),
    (
        3,
        SUMS,
        &[1, 2, 3, 4, 5, 6, 7, 8],
        &[
            Some(1),
            Some(3),
            Some(6),
            Some(10),
            Some(15),
            Some(21),
            Some(28),
            Some(36),
        ],
        3,
        24,
    ),
    (0, SUMS, &[7], &[Some(7)], 0, 0),
    (1, SUMS, &[1, 2], &[Some(1), Some(3)], 1, 2),
    (
        3,
        GREATEST,
        &[2, 9, 4, 7],
        &[Some(2), Some(9), Some(9), Some(9)],
        2,
        8,
    ),
    (
        3,
        SUMS_BEFORE,
        &[1, 2, 3, 4, 5, 6, 7, 8],
        &[
            Some(0),
            Some(1),
            Some(3),
            Some(6),
            Some(10),
            Some(15),
            Some(21),
            Some(28),
        ],
        3,
        24,
    ),
    (0, SUMS_BEFORE, &[7], &[Some(0)], 0, 0),
    (
        3,
        LEAST_BEFORE,
        &[9, 4, 7],
        &[Some(18446744073709551615), Some(9), Some(4)],
        2,
        8,
    ),
    (
        2,
        SMALLEST,
        &[5, 3, 9, 4],
        &[None, None, Some(3), None],
        2,
        3,
    ),
    (3, EITHER, &[8, 1], &[None, Some(9)], 1, 1),
    (1, BOTH, &[6, 3], &[Some(2), None], 1, 1),
    (2, SECOND, &[4, 9], &[Some(9); 2], 1, 1),
    (2, FIRST, &[4, 9, 1, 2], &[Some(4); 4], 2, 3),
];

#[test]
fn answers_small_jobs(rt: HostRuntime) {
    expect_replies(&rt, rt.alloc(), &SMALL_JOBS);
}

// Jobs around the ends of the two smallest sizes of arrays, and of the items that lie in a job. The
// rows are those of `expect_replies`.
static JOBS_AT_ENDS: [(u32, Kind, &[u64], &[Option<u64>], u32, u64); 8] = [
    (2, SUM, &[1, 2, 3], &[Some(6); 3], 2, 8),
    (2, SUMS, &[1, 2, 3], &[Some(1), Some(3), Some(6)], 2, 8),
    (
        2,
        SUMS,
        &[1, 2, 3, 4],
        &[Some(1), Some(3), Some(6), Some(10)],
        2,
        8,
    ),
    (
        3,
        SUMS,
        &[1, 2, 3, 4, 5],
        &[Some(1), Some(3), Some(6), Some(10), Some(15)],
        3,
        24,
    ),
    (6, SUM, &[1; 64], &[Some(64); 64], 6, 384),
    (7, SUM, &[1; 65], &[Some(65); 65], 7, 896),
    (6, GREATEST, &[3; 64], &[Some(3); 64], 6, 384),
    (7, GREATEST, &[3; 65], &[Some(3); 65], 7, 896),
];

// Jobs that just fit a size of arrays, and jobs that are one item too large for it.
#[test]
fn answers_jobs_at_the_end_of_the_smallest_arrays(rt: HostRuntime) {
    expect_replies(&rt, rt.alloc(), &JOBS_AT_ENDS);
}

// Returns the numbers 0 to 4095.
fn numbers(rt: &impl Abort, alloc: Global) -> Vec<u64> {
    let mut items = Vec::new(alloc);
    for item in 0..4096 {
        push(rt, &mut items, item);
    }
    items
}

// Expects that a job of this kind on these items, on the largest machine, holds these numbers at
// these places and took these messages.
fn expect_largest(
    rt: &impl Abort,
    alloc: Global,
    kind: Kind,
    items: &[u64],
    places: &[(u64, Option<u64>)],
    messages: u64,
) {
    let reply = reply_to(rt, alloc, MAX_DIM, ID, kind, items);
    for (rank, held) in places {
        expect_true(rt, holds(&reply, *rank, *held));
    }
    expect_true(rt, took(&reply, 12, messages));
}

// Expects what each row says of a job on the items 0 to 4095, on the largest machine. A row is its
// kind, the numbers that its reply holds at some places, and the messages.
fn expect_all_largest(rt: &impl Abort, alloc: Global, rows: &[(Kind, &[(u64, Option<u64>)], u64)]) {
    let items = numbers(rt, alloc);
    for (kind, places, messages) in rows {
        expect_largest(rt, alloc, *kind, &items, places, *messages);
    }
}

// Jobs on the largest machine. The rows are those of `expect_all_largest`. The sum of the items 0
// to r is r * (r + 1) / 2.
static LARGEST_JOBS: [(Kind, &[(u64, Option<u64>)], u64); 5] = [
    (
        Kind::Broadcast { root: 700 },
        &[(0, Some(700)), (4095, Some(700)), (4096, None)],
        4095,
    ),
    (
        Kind::Reduce {
            op: Op::Add,
            root: 4095,
        },
        &[(0, None), (4095, Some(8_386_560)), (4096, None)],
        4095,
    ),
    (
        SUM,
        &[(0, Some(8_386_560)), (4095, Some(8_386_560)), (4096, None)],
        49_152,
    ),
    (
        SUMS,
        &[
            (0, Some(0)),
            (2047, Some(2_096_128)),
            (2048, Some(2_098_176)),
            (4095, Some(8_386_560)),
            (4096, None),
        ],
        49_152,
    ),
    (
        SUMS_BEFORE,
        &[
            (0, Some(0)),
            (1, Some(0)),
            (2048, Some(2_096_128)),
            (2049, Some(2_098_176)),
            (4095, Some(8_382_465)),
            (4096, None),
        ],
        49_152,
    ),
];

#[test]
fn answers_the_largest_jobs(rt: HostRuntime) {
    expect_all_largest(&rt, rt.alloc(), &LARGEST_JOBS);
}

// Returns whether a reply has this id and this block.
fn is_reply(reply: &Reply, id: JobId, region: Region) -> bool {
    (reply.id() == id) & (reply.region() == region)
}

// Returns whether this kind on these items was asked for, with this machine, lane and dimension.
fn is_request(
    request: &Request<'_>,
    machine: u32,
    lane: u32,
    dim: u32,
    kind: Kind,
    items: &[u64],
) -> bool {
    (request.machine() == machine)
        & (request.lane() == lane)
        & (request.dim() == dim)
        & (request.kind() == kind)
        & (request.items() == items)
}

#[test]
fn a_reply_names_its_job_and_region(rt: HostRuntime) {
    let reply = answered(made(&rt, rt.alloc(), 3, 15, SUM, &[5, 6]), ID);
    let names = is_reply(&reply, ID, Region { base: 0, dim: 1 });
    expect_true(
        &rt,
        names & is_request(&reply.job(), 3, 15, 1, SUM, &[5, 6]),
    );
}

#[test]
fn a_job_keeps_what_was_asked(rt: HostRuntime) {
    let job = made(&rt, rt.alloc(), 5, 12, SUM, &[9, 8, 7, 6]);
    expect_true(&rt, is_job(&job, 5, 12, 2, SUM, &[9, 8, 7, 6]));
}

// Expects that this request is refused for this reason, and its items are returned.
fn expect_refusal(
    rt: &impl Abort,
    alloc: Global,
    n: u32,
    kind: Kind,
    items: &[u64],
    wanted: JobRefused,
) {
    let refused = asked(rt, alloc, n, 0, kind, items).err();
    let (back, why) = refused.expect(rt, "a refusal");
    expect_true(rt, (why == wanted) & (back.as_slice() == items));
}

// Expects that each of these requests is refused for its reason, and its items are returned.
fn expect_refusals(rt: &impl Abort, alloc: Global, rows: &[(u32, Kind, &[u64], JobRefused)]) {
    for (n, kind, items, wanted) in rows {
        expect_refusal(rt, alloc, *n, *kind, items, *wanted);
    }
}

const THIRD: Kind = Kind::Broadcast { root: 2 };

const FOURTH: Kind = Kind::Broadcast { root: 3 };

const EIGHTH: Kind = Kind::Reduce {
    op: Op::Add,
    root: 7,
};

const LAST: Kind = Kind::Reduce {
    op: Op::Add,
    root: u64::MAX,
};

// Requests that are refused, and why.
static REFUSED: [(u32, Kind, &[u64], JobRefused); 21] = [
    (3, SUM, &[], JobRefused::Empty),
    (1, SUM, &[1, 2, 3], JobRefused::TooLarge),
    (3, SUM, &[4; 9], JobRefused::TooLarge),
    (3, SUM, &[4; 16], JobRefused::TooLarge),
    (0, SUM, &[1, 2], JobRefused::TooLarge),
    (0, SUMS, &[1, 2, 3], JobRefused::TooLarge),
    (0, SUMS_BEFORE, &[1, 2, 3], JobRefused::TooLarge),
    (3, SUMS_BEFORE, &[], JobRefused::Empty),
    (12, SUMS, &[1; 4097], JobRefused::TooLarge),
    (12, LAST, &[1; 4097], JobRefused::TooLarge),
    (12, THIRD, &[1; 4097], JobRefused::TooLarge),
    (12, SUM, &[1; 4097], JobRefused::TooLarge),
    (0, SUM, &[], JobRefused::Empty),
    (3, THIRD, &[4, 9], JobRefused::BadRoot),
    (3, LAST, &[4, 9], JobRefused::BadRoot),
    (0, THIRD, &[4, 9], JobRefused::TooLarge),
    (3, THIRD, &[], JobRefused::Empty),
    (3, LAST, &[4, 9, 1], JobRefused::BadRoot),
    (3, FOURTH, &[4, 9, 6], JobRefused::BadRoot),
    (3, EIGHTH, &[4; 5], JobRefused::BadRoot),
    (3, LAST, &[4; 9], JobRefused::TooLarge),
];

#[test]
fn a_refusal_gives_the_items_back(rt: HostRuntime) {
    expect_refusals(&rt, rt.alloc(), &REFUSED);
}

#[test]
fn says_why_it_refuses(rt: HostRuntime) {
    let bad_root = "the root is not the place of an item";
    expect_all(
        &rt,
        &[
            says(&rt, &JobRefused::Empty, "no items"),
            says(&rt, &JobRefused::TooLarge, "more items than processors"),
            says(&rt, &JobRefused::BadRoot, bad_root),
            says(&rt, &JobRefused::OutOfMemory, "out of memory"),
        ],
    );
}
