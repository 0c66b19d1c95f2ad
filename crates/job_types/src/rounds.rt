//! The rounds of a job. They work on the stack, on a place for each rank of its block.

ghost use Rattle.std.specs.Prelude.{◌≡◌, ◌^◌, ◌<◌, ◌≤◌, true, false, length, replicate, take, All};
ghost use Rattle.collectives.specs.Operations.{IsU64};
ghost use Rattle.collectives.specs.Places.{padded};
ghost use Rattle.job_types.specs.Collective.{join, unit_of};
ghost use Rattle.job_types.specs.Job.{has_bad_root};
ghost use Rattle.job_types.specs.Inner.Collective.{IsResult, MakesResult, operation_of};
ghost use Rattle.job_types.specs.Inner.Kept.{CanRun, HasRoomFor, IsShown, is_scan};

use crate::arrays::{
    LARGE_DIM, LARGE_PLACES, MIDDLE_DIM, MIDDLE_PLACES, MOST_PLACES, SMALL_DIM, SMALL_PLACES,
    TINY_DIM, TINY_PLACES, answer_on,
};
use crate::kind::Kind;
use collectives::{Monoid, Operand, Operator, all_reduce, broadcast, exscan, reduce, scan};
use cube_shape::MAX_DIM;

// Runs the collective on `2^k` places, which hold the items and then the unit, and keeps its
// result. Uses the stack only.
#[tactic(auto, using(crate::proofs::PlaceLemmas::tiny_fit, crate::proofs::PlaceLemmas::small_fit, crate::proofs::PlaceLemmas::middle_fit, crate::proofs::PlaceLemmas::large_fit, crate::proofs::PlaceLemmas::all_fit))]
pub(crate) fn answer(items: &[u64], kind: Kind, k: u32, kept: &mut [u64])
    requires job { CanRun kind k items.now kept.old }
    ensures shown { IsShown kind items.now kept.new }
    ensures length { length kept.new ≡ length kept.old }
{
    if k <= TINY_DIM {
        answer_on::<TINY_PLACES>(items, kind, k, kept);
    } else if k <= SMALL_DIM {
        answer_on::<SMALL_PLACES>(items, kind, k, kept);
    } else if k <= MIDDLE_DIM {
        answer_on::<MIDDLE_PLACES>(items, kind, k, kept);
    } else if k <= LARGE_DIM {
        answer_on::<LARGE_PLACES>(items, kind, k, kept);
    } else {
        answer_on::<MOST_PLACES>(items, kind, k, kept);
    }
}

// Runs a collective that is no scan on the first `2^k` of these places, which hold the unit.
pub(crate) fn on_front<O: Operator>(
    items: &[u64],
    kind: Kind,
    k: u32,
    places: &mut [Operand<O>],
    kept: &mut [u64],
)
    requires units { places.old ≡ replicate (length places.old) O.unit }
    requires places { 2 ^ k ≤ length places.old }
    requires unit { O.unit ≡ unit_of (operation_of kind) }
    requires join { O.join ≡ join (operation_of kind) }
    requires job { CanRun kind k items.now kept.old }
    requires no_scan { is_scan kind ≡ false }
    ensures shown { IsShown kind items.now kept.new }
    ensures length { length kept.new ≡ length kept.old }
{
    let mut no_scratch = [Operand::<O>::unit(); 0];
    on_places(items, kind, k, &mut places[..1 << k], &mut no_scratch, kept);
}

// Runs a scan on the first `2^k` of these places, which hold the unit. Uses as many places of
// `scratch`.
pub(crate) fn scan_on_front<O: Operator>(
    items: &[u64],
    kind: Kind,
    k: u32,
    places: &mut [Operand<O>],
    scratch: &mut [Operand<O>],
    kept: &mut [u64],
)
    requires units { places.old ≡ replicate (length places.old) O.unit }
    requires places { 2 ^ k ≤ length places.old }
    requires scratch { 2 ^ k ≤ length scratch.old }
    requires unit { O.unit ≡ unit_of (operation_of kind) }
    requires join { O.join ≡ join (operation_of kind) }
    requires job { CanRun kind k items.now kept.old }
    ensures shown { IsShown kind items.now kept.new }
    ensures length { length kept.new ≡ length kept.old }
{
    on_places(
        items,
        kind,
        k,
        &mut places[..1 << k],
        &mut scratch[..1 << k],
        kept,
    );
}

// Runs it on these places, which hold the unit. A scan uses as many places of `scratch`.
fn on_places<O: Operator>(
    items: &[u64],
    kind: Kind,
    k: u32,
    places: &mut [Operand<O>],
    scratch: &mut [Operand<O>],
    kept: &mut [u64],
)
    requires units { places.old ≡ replicate (2 ^ k) O.unit }
    requires scratch { is_scan kind ≡ true → length scratch.old ≡ 2 ^ k }
    requires unit { O.unit ≡ unit_of (operation_of kind) }
    requires join { O.join ≡ join (operation_of kind) }
    requires job { CanRun kind k items.now kept.old }
    ensures shown { IsShown kind items.now kept.new }
    ensures length { length kept.new ≡ length kept.old }
{
    put_items(items, k, places);
    run_rounds(places, scratch, kind, k);
    show(items, kind, places, kept);
}

// Puts the items at the first of `2^k` places that hold the unit.
fn put_items<O: Operator>(items: &[u64], k: u32, places: &mut [Operand<O>])
    requires units { places.old ≡ replicate (2 ^ k) O.unit }
    requires fits { length items.now ≤ 2 ^ k }
    ensures numbers { places.new ≡ padded O.unit k items.now }
    ensures values { All IsU64 places.new }
{
    for rank in 0..items.len() {
        places[rank] = Operand::new(items[rank]);
    }
}

// Runs the rounds of the collective on its `2^k` places. They may hold the items of a job, and then
// the unit.
fn run_rounds<O: Operator>(
    places: &mut [Operand<O>],
    scratch: &mut [Operand<O>],
    kind: Kind,
    k: u32,
)
    requires dim { k ≤ MAX_DIM }
    requires unit { O.unit ≡ unit_of (operation_of kind) }
    requires join { O.join ≡ join (operation_of kind) }
    requires places { length places.old ≡ 2 ^ k }
    requires scratch { is_scan kind ≡ true → length scratch.old ≡ 2 ^ k }
    requires root { has_bad_root kind (2 ^ k) ≡ false }
    requires values { All IsU64 places.old }
    ensures result { MakesResult kind k places.old places.new }
    ensures length { length places.new ≡ length places.old }
{
    let _tally = match kind {
        Kind::Broadcast { root } => broadcast(places, k, root as usize),
        Kind::Reduce { root, .. } => reduce(places, k, root as usize),
        Kind::AllReduce { .. } => all_reduce(places, k),
        Kind::Scan { .. } => scan(places, scratch, k),
        Kind::ExScan { .. } => exscan(places, scratch, k),
    };
}

// Keeps what a reply shows of the collective's result.
fn show<O: Operator>(items: &[u64], kind: Kind, places: &[Operand<O>], kept: &mut [u64])
    requires rooted { has_bad_root kind (length items.now) ≡ false }
    requires some { 0 < length items.now }
    requires room { HasRoomFor kind (length items.now) kept.old }
    requires fits { length items.now ≤ length places.now }
    requires result { IsResult kind items.now places.now }
    ensures shown { IsShown kind items.now kept.new }
    ensures length { length kept.new ≡ length kept.old }
{
    if kind.is_scan() {
        copy_numbers(places, kept);
    } else {
        kept[0] = places[kind.shown_place() as usize].number();
    }
}

// Copies the numbers of the first places.
fn copy_numbers<O: Operator>(places: &[Operand<O>], numbers: &mut [u64])
    requires { length numbers.old ≤ length places.now }
    ensures { numbers.new ≡ take (length numbers.old) places.now }
{
    for place in 0..numbers.len() {
        numbers[place] = places[place].number();
    }
}
