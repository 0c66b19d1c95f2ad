//! The public functions of `collectives` once each on small cubes.

ghost use Rattle.std.specs.Prelude.{◌≡◌, ◌^◌, ◌<◌, ◌≤◌, All, length};
ghost use Rattle.collectives.specs.Operations.{IsAffineValue, IsU64};
ghost use Rattle.collectives.specs.Shape.{message_count};

use crate::tests::facts::expect_all;
use collectives::{
    Add, Affine, And, DIM_LIMIT, Max, Message, Min, Monoid, Or, Shape, Tally, Xor, all_reduce,
    broadcast, exscan, message_at, pad, reduce, scan,
};
use std::process::Abort;

// The map that changes nothing.
const UNIT: Affine = Affine { a: 1, b: 0 };

// All of the maps of `maps`, joined.
const ALL_MAPS: Affine = Affine { a: 12, b: 23 };

// Returns four maps that do not commute.
fn maps() -> [Affine; 4]
    ensures { All IsAffineValue result }
{
    [
        Affine { a: 2, b: 1 },
        Affine { a: 3, b: 0 },
        Affine { a: 1, b: 5 },
        Affine { a: 2, b: 7 },
    ]
}

// Returns whether a collective took these rounds and messages.
fn took(tally: Tally, rounds: u32, messages: u64) -> bool {
    tally == Tally { rounds, messages }
}

// Returns whether these are values, and the first two joined are the third.
fn joins<M: Monoid + PartialEq>(left: M, right: M, joined: M) -> bool {
    left.is_value() && right.is_value() && left.join(right) == joined
}

#[test]
fn joined(rt: HostRuntime) {
    let (first, second) = (Affine { a: 2, b: 1 }, Affine { a: 3, b: 4 });
    expect_all(
        &rt,
        &[
            joins(Add::new(u64::MAX), Add::new(3), Add::new(2)),
            joins(Min::new(4), Min::new(9), Min::new(4)),
            joins(Max::new(4), Max::new(9), Max::new(9)),
            joins(Xor::new(6), Xor::new(3), Xor::new(5)),
            joins(And::new(6), And::new(3), And::new(2)),
            joins(Or::new(6), Or::new(3), Or::new(7)),
            joins(first, second, Affine { a: 6, b: 7 }),
            joins(second, first, Affine { a: 6, b: 9 }),
        ],
    );
}

// Returns whether this is the unit.
fn is_unit<M: Monoid + PartialEq>(unit: M) -> bool {
    M::unit() == unit
}

#[test]
fn units(rt: HostRuntime) {
    expect_all(
        &rt,
        &[
            is_unit(Add::new(0)),
            is_unit(Min::new(18446744073709551615)),
            is_unit(Max::new(0)),
            is_unit(Xor::new(0)),
            is_unit(And::new(18446744073709551615)),
            is_unit(Or::new(0)),
            is_unit(Affine { a: 1, b: 0 }),
        ],
    );
}

#[test]
fn values(rt: HostRuntime) {
    let most = 4294967295;
    expect_all(
        &rt,
        &[
            Add::new(u64::MAX).is_value(),
            Affine { a: most, b: most }.is_value(),
            !Affine { a: most + 1, b: 0 }.is_value(),
            !Affine { a: 1, b: most + 1 }.is_value(),
        ],
    );
}

// Returns whether a broadcast of these items leaves them so, with these rounds and messages.
fn broadcasts<M: Copy + PartialEq>(
    items: &mut [M],
    k: u32,
    root: usize,
    after: &[M],
    rounds: u32,
    messages: u64,
) -> bool
    requires dim { k < DIM_LIMIT }
    requires places { length items.old ≡ 2 ^ k }
    requires root { root < 2 ^ k }
{
    took(broadcast(items, k, root), rounds, messages) & (*items == *after)
}

#[test]
fn broadcast_from_one(rt: HostRuntime) {
    expect_all(
        &rt,
        &[
            broadcasts(
                &mut [Add::new(4), Add::new(9)],
                1,
                1,
                &[Add::new(9); 2],
                1,
                1,
            ),
            broadcasts(&mut maps(), 2, 2, &[Affine { a: 1, b: 5 }; 4], 2, 3),
        ],
    );
}

// Returns whether a reduction of these items leaves them so, with these rounds and messages.
fn reduces<M: Monoid + PartialEq>(
    items: &mut [M],
    k: u32,
    root: usize,
    after: &[M],
    rounds: u32,
    messages: u64,
) -> bool
    requires dim { k < DIM_LIMIT }
    requires places { length items.old ≡ 2 ^ k }
    requires root { root < 2 ^ k }
    requires values { All M.is_value items.old }
{
    took(reduce(items, k, root), rounds, messages) & (*items == *after)
}

#[test]
fn reduce_to_one(rt: HostRuntime) {
    let unit = Min::new(u64::MAX);
    let items = &mut [Min::new(5), Min::new(3), Min::new(9), Min::new(4)];
    expect_all(
        &rt,
        &[
            reduces(items, 2, 2, &[unit, unit, Min::new(3), unit], 2, 3),
            reduces(&mut maps(), 2, 1, &[UNIT, ALL_MAPS, UNIT, UNIT], 2, 3),
        ],
    );
}

// Returns whether an all-reduce of these items leaves them so, with these rounds and messages.
fn all_reduces<M: Monoid + PartialEq>(
    items: &mut [M],
    k: u32,
    after: &[M],
    rounds: u32,
    messages: u64,
) -> bool
    requires dim { k < DIM_LIMIT }
    requires places { length items.old ≡ 2 ^ k }
    requires values { All M.is_value items.old }
{
    took(all_reduce(items, k), rounds, messages) & (*items == *after)
}

#[test]
fn all_reduce_to_all(rt: HostRuntime) {
    let items = &mut [Add::new(1), Add::new(2), Add::new(3), Add::new(4)];
    expect_all(
        &rt,
        &[
            all_reduces(items, 2, &[Add::new(10); 4], 2, 8),
            all_reduces(&mut maps(), 2, &[ALL_MAPS; 4], 2, 8),
        ],
    );
}

// Returns whether a scan of these items leaves them so, and their total at each place of the
// scratch, with these rounds and messages.
fn scans<M: Monoid + PartialEq>(
    items: &mut [M],
    scratch: &mut [M],
    k: u32,
    after: &[M],
    totals: &[M],
    rounds: u32,
    messages: u64,
) -> bool
    requires dim { k < DIM_LIMIT }
    requires places { length items.old ≡ 2 ^ k }
    requires scratch { length scratch.old ≡ 2 ^ k }
    requires values { All M.is_value items.old }
{
    took(scan(items, scratch, k), rounds, messages) & (*items == *after) & (*scratch == *totals)
}

// Returns the numbers from 1 to 8.
fn one_to_eight() -> [Add; 8]
    ensures { All IsU64 result }
{
    [
        Add::new(1),
        Add::new(2),
        Add::new(3),
        Add::new(4),
        Add::new(5),
        Add::new(6),
        Add::new(7),
        Add::new(8),
    ]
}

// Returns the sums of the first numbers, up to and with each place.
fn sums() -> [Add; 8] {
    [
        Add::new(1),
        Add::new(3),
        Add::new(6),
        Add::new(10),
        Add::new(15),
        Add::new(21),
        Add::new(28),
        Add::new(36),
    ]
}

// Each of the maps after those before it.
const MAPS_SO_FAR: &[Affine] = &[
    Affine { a: 2, b: 1 },
    Affine { a: 6, b: 3 },
    Affine { a: 6, b: 8 },
    ALL_MAPS,
];

#[test]
fn scan_of_all(rt: HostRuntime) {
    let items = &mut one_to_eight();
    let (zeros, totals) = (&mut [Add::new(0); 8], &[Add::new(36); 8]);
    let (maps_of, scratch) = (&mut maps(), &mut maps());
    expect_all(
        &rt,
        &[
            scans(items, zeros, 3, &sums(), totals, 3, 24),
            scans(maps_of, scratch, 2, MAPS_SO_FAR, &[ALL_MAPS; 4], 2, 8),
        ],
    );
}

// Returns whether an exclusive scan of these items leaves them so, and their total at each place of
// the scratch, with these rounds and messages.
fn exscans<M: Monoid + PartialEq>(
    items: &mut [M],
    scratch: &mut [M],
    k: u32,
    after: &[M],
    totals: &[M],
    rounds: u32,
    messages: u64,
) -> bool
    requires dim { k < DIM_LIMIT }
    requires places { length items.old ≡ 2 ^ k }
    requires scratch { length scratch.old ≡ 2 ^ k }
    requires values { All M.is_value items.old }
{
    took(exscan(items, scratch, k), rounds, messages) & (*items == *after) & (*scratch == *totals)
}

// Returns the sums of the numbers before each place.
fn sums_before() -> [Add; 8] {
    [
        Add::new(0),
        Add::new(1),
        Add::new(3),
        Add::new(6),
        Add::new(10),
        Add::new(15),
        Add::new(21),
        Add::new(28),
    ]
}

// The maps before each of the maps, joined.
const MAPS_BEFORE: &[Affine] = &[
    UNIT,
    Affine { a: 2, b: 1 },
    Affine { a: 6, b: 3 },
    Affine { a: 6, b: 8 },
];

#[test]
fn scan_of_those_before(rt: HostRuntime) {
    let items = &mut one_to_eight();
    let (zeros, totals) = (&mut [Add::new(0); 8], &[Add::new(36); 8]);
    let (maps_of, scratch) = (&mut maps(), &mut maps());
    expect_all(
        &rt,
        &[
            exscans(items, zeros, 3, &sums_before(), totals, 3, 24),
            exscans(maps_of, scratch, 2, MAPS_BEFORE, &[ALL_MAPS; 4], 2, 8),
        ],
    );
}

#[test]
fn one_place(rt: HostRuntime) {
    let seven = &[Max::new(7)];
    expect_all(
        &rt,
        &[
            broadcasts(&mut [Max::new(7)], 0, 0, seven, 0, 0),
            reduces(&mut [Max::new(7)], 0, 0, seven, 0, 0),
            all_reduces(&mut [Max::new(7)], 0, seven, 0, 0),
            scans(
                &mut [Max::new(7)],
                &mut [Max::new(0)],
                0,
                seven,
                seven,
                0,
                0,
            ),
            exscans(
                &mut [Max::new(7)],
                &mut [Max::new(7)],
                0,
                &[Max::new(0)],
                seven,
                0,
                0,
            ),
        ],
    );
}

// Returns whether these items, padded for a machine of this dimension, are the wanted ones.
fn pads<M: Monoid + PartialEq>(
    rt: &(impl AllocGlobal + Abort),
    items: &[M],
    k: u32,
    wanted: &[M],
) -> bool
    requires dim { k < DIM_LIMIT }
    requires fits { length items.now ≤ 2 ^ k }
    requires values { All M.is_value items.now }
{
    let mut padded = Vec::from_slice(rt.alloc(), items).expect(rt, "no memory");
    pad(&mut padded, k).is_ok() & (padded.as_slice() == wanted)
}

#[test]
fn units_past_the_items(rt: HostRuntime) {
    let padded = &[
        Min::new(9),
        Min::new(4),
        Min::new(7),
        Min::new(18446744073709551615),
    ];
    expect_all(
        &rt,
        &[
            pads(&rt, &[Min::new(9), Min::new(4), Min::new(7)], 2, padded),
            pads(&rt, padded, 2, padded),
            pads(&rt, &[], 1, &[UNIT; 2]),
        ],
    );
}

// Returns whether the message of this number goes in this round between these ranks.
fn sends(shape: Shape, k: u32, root: u64, number: u64, round: u32, from: u64, to: u64) -> bool
    requires dim { k < DIM_LIMIT }
    requires root { root < 2 ^ k }
    requires number { number < message_count shape k }
{
    message_at(shape, k, root, number) == Message { round, from, to }
}

#[test]
fn messages(rt: HostRuntime) {
    expect_all(
        &rt,
        &[
            sends(Shape::Broadcast, 2, 1, 0, 0, 1, 0),
            sends(Shape::Broadcast, 2, 1, 1, 1, 1, 3),
            sends(Shape::Broadcast, 2, 1, 2, 1, 0, 2),
            sends(Shape::Reduce, 2, 2, 0, 0, 1, 0),
            sends(Shape::Reduce, 2, 2, 1, 0, 3, 2),
            sends(Shape::Reduce, 2, 2, 2, 1, 0, 2),
            sends(Shape::AllReduce, 1, 0, 0, 0, 0, 1),
            sends(Shape::AllReduce, 1, 0, 1, 0, 1, 0),
            sends(Shape::Scan, 2, 0, 6, 1, 2, 0),
        ],
    );
}
