// The fields of a job's record.
ghost use Rattle.std.specs.Prelude.{◌≡◌, ◌-◌, ◌<◌, [], ◌∷◌, Ok, IfOk};
ghost use Rattle.jobs_csv.specs.JobFields.{collective_of, has_superfluous_root, items_of, op_of};
ghost use Rattle.jobs_csv.specs.Fields.{number_within};
ghost use Rattle.jobs_csv.specs.Inner.Parse.{ReturnsParse};

use crate::fault::FaultKind;
use crate::fields;
use cube_shape::{MAX_DIM, MAX_LANES};
use job_types::{Kind, Op};
use std::alloc::Global;

/// Reads the lane of a field: a number below `MAX_LANES`.
pub(crate) fn lane(field: &[u8]) -> Result<u32, FaultKind>
    ensures parse { ReturnsParse (λ lane. lane) (number_within 0 (MAX_LANES - 1) field.now) result }
    ensures below { IfOk result (λ lane. lane < MAX_LANES) }
{
    let lane = fields::number_within(field, 0, u64::from(MAX_LANES - 1))?;
    Ok(lane as u32)
}

#[tactic(auto, unfolding(crate::specs::JobFields::op_of, crate::specs::Fields::among))]
fn read_op(field: &[u8]) -> Result<Op, FaultKind>
    ensures { ReturnsParse (λ op. op) (op_of field.now) result }
{
    if field == b"add".as_slice() {
        Ok(Op::Add)
    } else if field == b"min".as_slice() {
        Ok(Op::Min)
    } else if field == b"max".as_slice() {
        Ok(Op::Max)
    } else if field == b"xor".as_slice() {
        Ok(Op::Xor)
    } else if field == b"and".as_slice() {
        Ok(Op::And)
    } else if field == b"or".as_slice() {
        Ok(Op::Or)
    } else {
        Err(FaultKind::Word)
    }
}

/// Reads the collective of three fields, `kind`, `op` and `root`.
///
/// The root must be a number in every record. A collective with no root does not keep it.
#[tactic(auto, unfolding(crate::specs::JobFields::collective_of))]
pub(crate) fn read_collective(kind: &[u8], op: &[u8], root: &[u8]) -> Result<Kind, FaultKind>
    ensures { ReturnsParse (λ kind. kind) (collective_of kind.now op.now root.now) result }
{
    if kind == b"broadcast".as_slice() {
        fields::dash(op)?;
        let root = fields::any_number(root)?;
        return Ok(Kind::Broadcast { root });
    }
    if kind == b"reduce".as_slice() {
        let op = read_op(op)?;
        let root = fields::any_number(root)?;
        return Ok(Kind::Reduce { op, root });
    }
    if kind == b"allreduce".as_slice() {
        let op = read_op(op)?;
        fields::any_number(root)?;
        return Ok(Kind::AllReduce { op });
    }
    if kind == b"scan".as_slice() {
        let op = read_op(op)?;
        fields::any_number(root)?;
        return Ok(Kind::Scan { op });
    }
    if kind == b"exscan".as_slice() {
        let op = read_op(op)?;
        fields::any_number(root)?;
        return Ok(Kind::ExScan { op });
    }
    Err(FaultKind::Word)
}

/// Returns whether a collective has no root, and the field of its root is not `0`.
pub(crate) fn has_superfluous_root(kind: Kind, root: &[u8]) -> bool
    ensures { result ≡ has_superfluous_root kind root.now }
{
    match kind {
        Kind::Broadcast { .. } | Kind::Reduce { .. } => false,
        Kind::AllReduce { .. } | Kind::Scan { .. } | Kind::ExScan { .. } => root != b"0".as_slice(),
    }
}

// Returns how many pieces the spaces of a field part it into. No result depends on it, only memory.
fn piece_count(field: &[u8]) -> usize {
    let mut count = 1usize;
    for byte in field {
        count = count.saturating_add(usize::from(*byte == b' '));
    }
    count
}

// Returns a list of one item.
fn one_item(alloc: Global, item: u64) -> Result<Vec<u64>, FaultKind>
    ensures { ReturnsParse (λ items. items.items) (Ok (item ∷ [])) result }
{
    let Ok(items) = vec![in alloc; item; 1] else {
        return Err(FaultKind::OutOfMemory);
    };
    Ok(items)
}

/// Reads the items of a field: numbers with one space between each two. An empty field has none.
pub(crate) fn items(alloc: Global, field: &[u8]) -> Result<Vec<u64>, FaultKind>
    ensures { ReturnsParse (λ items. items.items) (items_of field.now) result }
{
    if field.is_empty() {
        return Ok(Vec::new(alloc));
    }
    if let Some(item) = fields::number(field) {
        return one_item(alloc, item);
    }
    // No job has more items than the largest machine has processors.
    let room = piece_count(field).min(1 << MAX_DIM);
    let Ok(mut items) = Vec::with_capacity(alloc, room) else {
        return Err(FaultKind::OutOfMemory);
    };
    for piece in field.split(|byte| *byte == b' ') {
        let item = match fields::number(piece) {
            Some(item) => item,
            None => return Err(FaultKind::Number),
        };
        if items.push(item).is_err() {
            return Err(FaultKind::OutOfMemory);
        }
    }
    Ok(items)
}
