//! The arrays on the stack that the rounds of a job work on.

ghost use Rattle.std.specs.Prelude.{◌≡◌, ◌^◌, ◌≤◌, length};
ghost use Rattle.job_types.specs.Collective.{join, unit_of};
ghost use Rattle.job_types.specs.Inner.Collective.{operation_of};
ghost use Rattle.job_types.specs.Inner.Kept.{CanRun, IsShown};

use crate::kind::{Kind, Op};
use crate::rounds::{on_front, scan_on_front};
use collectives::{
    Addition, BitwiseAnd, BitwiseOr, BitwiseXor, Maximum, Minimum, Monoid, Operand, Operator,
};
use cube_shape::MAX_DIM;

// The largest dimension of a job that works on the smallest arrays: that of jobs whose items lie in
// the job.
pub(crate) const TINY_DIM: u32 = 2;

// The largest dimension of a job that works on the second size of arrays. The next sizes are four
// times as large as the one below, so that a job fills few places that it does not need.
pub(crate) const SMALL_DIM: u32 = MAX_DIM - 6;

// The largest dimension of a job that works on the third size of arrays.
pub(crate) const MIDDLE_DIM: u32 = MAX_DIM - 4;

// The largest dimension of a job that works on the fourth size of arrays.
pub(crate) const LARGE_DIM: u32 = MAX_DIM - 2;

pub(crate) const TINY_PLACES: usize = 1 << TINY_DIM;

pub(crate) const SMALL_PLACES: usize = 1 << SMALL_DIM;

pub(crate) const MIDDLE_PLACES: usize = 1 << MIDDLE_DIM;

pub(crate) const LARGE_PLACES: usize = 1 << LARGE_DIM;

pub(crate) const MOST_PLACES: usize = 1 << MAX_DIM;

// Runs the collective on arrays of `N` places, and keeps its result.
pub(crate) fn answer_on<const N: usize>(items: &[u64], kind: Kind, k: u32, kept: &mut [u64])
    requires job { CanRun kind k items.now kept.old }
    requires enough { 2 ^ k ≤ N }
    requires stack { N ≤ MOST_PLACES }
    ensures shown { IsShown kind items.now kept.new }
    ensures length { length kept.new ≡ length kept.old }
{
    match kind.operation() {
        Op::Add => answer_by::<Addition, N>(items, kind, k, kept),
        Op::Min => answer_by::<Minimum, N>(items, kind, k, kept),
        Op::Max => answer_by::<Maximum, N>(items, kind, k, kept),
        Op::Xor => answer_by::<BitwiseXor, N>(items, kind, k, kept),
        Op::And => answer_by::<BitwiseAnd, N>(items, kind, k, kept),
        Op::Or => answer_by::<BitwiseOr, N>(items, kind, k, kept),
    }
}

// Runs it by the operator `O`, which joins as the job's operation does.
fn answer_by<O: Operator, const N: usize>(items: &[u64], kind: Kind, k: u32, kept: &mut [u64])
    requires unit { O.unit ≡ unit_of (operation_of kind) }
    requires join { O.join ≡ join (operation_of kind) }
    requires job { CanRun kind k items.now kept.old }
    requires enough { 2 ^ k ≤ N }
    requires stack { N ≤ MOST_PLACES }
    ensures shown { IsShown kind items.now kept.new }
    ensures length { length kept.new ≡ length kept.old }
{
    let mut places = [Operand::<O>::unit(); N];
    if kind.is_scan() {
        let mut scratch = [Operand::<O>::unit(); N];
        scan_on_front(items, kind, k, &mut places, &mut scratch, kept);
    } else {
        on_front(items, kind, k, &mut places, kept);
    }
}
