//! Jobs of any number of items: their replies beside plain folds, and a file of mixed sizes.

use crate::tests::commands::{sizes_of, writes_all};
use crate::tests::facts::expect_true;
use crate::tests::failing_devices::push;
use crate::tests::jobs::{answered, is_job, made};
use dispatcher::Plain;
use job_types::{JobId, Kind, Op, Reply};
use std::alloc::Global;
use std::process::Abort;
use std::sync::Wait;
use std::thread::Threads;

const OPS: [Op; 6] = [Op::Add, Op::Min, Op::Max, Op::Xor, Op::And, Op::Or];

// Returns two numbers, joined.
fn joined(op: Op, left: u64, right: u64) -> u64 {
    match op {
        Op::Add => left.wrapping_add(right),
        Op::Min => left.min(right),
        Op::Max => left.max(right),
        Op::Xor => left ^ right,
        Op::And => left & right,
        Op::Or => left | right,
    }
}

// Returns the first `count` of these numbers, one or more, joined with no unit. Returns nothing if
// there are fewer.
fn fold(op: Op, numbers: &[u64], count: usize) -> Option<u64> {
    let mut total = *numbers.first()?;
    for place in 1..count {
        total = joined(op, total, *numbers.get(place)?);
    }
    Some(total)
}

// Returns the number that, joined with another one, leaves it as it was.
fn unit(op: Op) -> u64 {
    match op {
        Op::Add | Op::Max | Op::Xor | Op::Or => 0,
        Op::Min | Op::And => 18446744073709551615,
    }
}

// Returns what the place of this rank must hold at the end.
fn wanted(kind: Kind, items: &[u64], rank: usize) -> Option<u64> {
    if rank >= items.len() {
        return None;
    }
    match kind {
        Kind::Broadcast { root } => items.get(root as usize).copied(),
        Kind::Reduce { root, .. } if rank as u64 != root => None,
        Kind::Reduce { op, .. } | Kind::AllReduce { op } => fold(op, items, items.len()),
        Kind::Scan { op } => fold(op, items, rank.saturating_add(1)),
        Kind::ExScan { op } if rank == 0 => Some(unit(op)),
        Kind::ExScan { op } => fold(op, items, rank),
    }
}

// Returns numbers that are far apart.
fn numbers(rt: &impl Abort, alloc: Global, count: u64) -> Vec<u64> {
    let mut numbers = Vec::new(alloc);
    for number in 0..count {
        let far = number.wrapping_mul(11400714819323198485) ^ 85;
        push(rt, &mut numbers, far);
    }
    numbers
}

// Returns whether a reply has at this rank what a plain fold gives.
fn is_plain(reply: &Reply, kind: Kind, items: &[u64], rank: usize) -> bool {
    reply.at(rank as u64) == wanted(kind, items, rank)
}

// Expects that a reply has at each rank what a plain fold gives. It has nothing past the items, as
// far as three times their number.
fn expect_plain(rt: &impl Abort, reply: &Reply, kind: Kind, items: &[u64]) {
    for rank in 0..items.len().saturating_mul(3) {
        expect_true(rt, is_plain(reply, kind, items, rank));
    }
}

// Expects that a job of this kind on these items, for a machine of dimension `n`, has the plain
// fold as its reply. The reply is on a block of dimension `dim`.
fn expect_kind(rt: &impl Abort, alloc: Global, n: u32, dim: u32, kind: Kind, items: &[u64]) {
    let job = made(rt, alloc, n, 0, kind, items);
    let is_asked = is_job(&job, n, 0, dim, kind, items);
    let reply = answered(job, JobId { lane: 0, seq: 0 });
    expect_true(rt, is_asked & (reply.region().dim == dim));
    expect_plain(rt, &reply, kind, items);
}

// Expects the same of jobs of these kinds.
fn expect_each(rt: &impl Abort, alloc: Global, n: u32, dim: u32, kinds: &[Kind], items: &[u64]) {
    for kind in kinds {
        expect_kind(rt, alloc, n, dim, *kind, items);
    }
}

// Expects the same of jobs of all kinds, with this operation and this root.
fn expect_kinds(
    rt: &impl Abort,
    alloc: Global,
    n: u32,
    dim: u32,
    op: Op,
    root: u64,
    items: &[u64],
) {
    let kinds = &[
        Kind::Broadcast { root },
        Kind::Reduce { op, root },
        Kind::AllReduce { op },
        Kind::Scan { op },
        Kind::ExScan { op },
    ];
    expect_each(rt, alloc, n, dim, kinds, items);
}

// Expects the same of all kinds for each row. A row is the dimension of a machine, a number of
// items, and the dimension of the least block that has a processor for each.
fn expect_rows(rt: &impl Abort, alloc: Global, rows: &[(u32, u64, u32)]) {
    for (n, count, dim) in rows {
        let items = numbers(rt, alloc, *count);
        for op in OPS {
            expect_kinds(rt, alloc, *n, *dim, op, *count / 2, &items);
        }
    }
}

// Rows of `expect_rows`.
static SIZES: [(u32, u64, u32); 21] = [
    (0, 1, 0),
    (3, 1, 0),
    (3, 2, 1),
    (3, 3, 2),
    (3, 5, 3),
    (3, 7, 3),
    (3, 8, 3),
    (10, 1, 0),
    (10, 2, 1),
    (10, 3, 2),
    (10, 5, 3),
    (10, 64, 6),
    (10, 65, 7),
    (10, 256, 8),
    (10, 257, 9),
    (10, 1000, 10),
    (10, 1023, 10),
    (10, 1024, 10),
    (12, 1025, 11),
    (12, 4095, 12),
    (12, 4096, 12),
];

// Some of these jobs fill each size of the arrays that rounds work on, and some have one item more.
#[test]
fn replies_are_plain_folds(rt: HostRuntime) {
    expect_rows(&rt, rt.alloc(), &SIZES);
}

const MIXED: &[u8] = b"lane,kind,op,root,items\n\
    2,scan,add,0,1 1 1\n0,allreduce,max,0,4 8 6 2 5\n2,reduce,xor,0,7\n0,broadcast,-,5,1 2 3 4 5 6 7\n\
    2,scan,or,0,1 2\n1,reduce,min,2,5 9 3\n0,allreduce,add,0,1 2 3\n1,scan,min,0,9 4 7 3 8\n\
    1,reduce,max,2,5 3 9\n0,broadcast,-,1,4 9 6\n2,allreduce,and,0,12 10 14 8 9\n\
    3,exscan,add,0,1 2 3 4 5 6 7 8\n3,exscan,min,0,9 4 7\n";

const MIXED_REPLIES: &str = "lane,seq,kind,dim,result,rounds,messages\n\
    0,0,allreduce,3,8 8 8 8 8,3,24\n0,1,broadcast,3,6 6 6 6 6 6 6,3,7\n0,2,allreduce,2,6 6 6,2,8\n\
    0,3,broadcast,2,9 9 9,2,3\n1,0,reduce,2,- - 3,2,3\n1,1,scan,3,9 4 4 3 3,3,24\n\
    1,2,reduce,2,- - 9,2,3\n2,0,scan,2,1 2 3,2,8\n2,1,reduce,0,7,0,0\n2,2,scan,1,1 3,1,2\n\
    2,3,allreduce,3,8 8 8 8 8,3,24\n3,0,exscan,3,0 1 3 6 10 15 21 28,3,24\n\
    3,1,exscan,2,18446744073709551615 9 4,2,8\n";

// Returns whether a run by these dispatchers gives these replies to a file, on a machine of
// dimension 3.
fn gives(
    rt: &(impl AllocGlobal + Abort + Threads + Wait + Clone + Send + Sync + 'static),
    dispatchers: u32,
    file: &[u8],
    wanted: &[u8],
) -> bool {
    let sizes = sizes_of(3, dispatchers, 2);
    writes_all(rt, false, sizes, &Plain, file, wanted)
}

#[test]
fn mixed_sizes_over_dispatchers(rt: HostRuntime) {
    for dispatchers in [1, 2, 4, 16] {
        expect_true(
            &rt,
            gives(&rt, dispatchers, MIXED, MIXED_REPLIES.as_bytes()),
        );
    }
}
