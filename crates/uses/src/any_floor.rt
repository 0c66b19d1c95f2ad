//! A caller of any allocator.

ghost use Rattle.std.specs.Prelude.{◌≡◌, ◌<◌, ◌≤◌, IfOk};
ghost use Rattle.cube_shape.specs.Region.{AreApart, IsAligned};
ghost use Rattle.floors.specs.Floor.{IsWhollyFree};

use cube_shape::{MAX_DIM, Region};
use floors::Floor;
use std::alloc::{AllocError, Global};
use std::sync::Wait;

/// Opens a machine of dimension `n` with two stations. Each holds a block of dimension `k` at the
/// same moment and releases it. Returns both blocks, which have no processor in common, and the
/// machine, which is wholly free.
pub fn hold_pair<R: Wait, F: Floor>(
    rt: &R,
    alloc: Global,
    n: u32,
    k: u32,
) -> Result<(Region, Region, F::Machine), AllocError>
    requires dim { n ≤ MAX_DIM }
    requires room { k < n }
    ensures aligned { IfOk result (λ held. IsAligned n held.0 × IsAligned n held.1) }
    ensures asked { IfOk result (λ held. (held.0.dim ≡ k) × (held.1.dim ≡ k)) }
    ensures apart { IfOk result (λ held. AreApart held.0 held.1) }
    ensures free { IfOk result (λ held. IsWhollyFree n (F.machine_words held.2)) }
{
    let (floor, mut stations) = F::open(alloc, n, 2)?;
    let Some(second) = stations.pop() else {
        unreachable!()
    };
    let Some(first) = stations.pop() else {
        unreachable!()
    };
    let first = floor.take(rt, first, k);
    let second = floor.take(rt, second, k);
    let (first, second) = floor.apart(first, second);
    let regions = (F::region(&first), F::region(&second));
    stations.push_reserved(floor.release(rt, first));
    stations.push_reserved(floor.release(rt, second));
    Ok((regions.0, regions.1, floor.close(stations)))
}
