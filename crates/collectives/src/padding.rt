//! Padding: fewer items than places.

ghost use Rattle.std.specs.Prelude.{◌≡◌, ℕ, ◌^◌, ◌<◌, ◌≤◌, All, OnErr, OnOk, length, vec_capacity};
ghost use Rattle.collectives.specs.Places.{padded, prefix_total, total};

use crate::monoid::Monoid;
use crate::shape::DIM_LIMIT;
use std::alloc::AllocError;

/// Puts the unit at each of the `2^k` places past the last item. So the collectives can run on any
/// number of items from 0 to `2^k`.
///
/// The total of all items does not change, nor does the total of the items up to each of them. A
/// list with a capacity of at least `2^k` items needs no memory.
///
/// # Errors
///
/// Returns an error only if the capacity is below `2^k` and memory ran out. Then the items are
/// unchanged.
pub fn pad<M: Monoid>(items: &mut Vec<M>, k: u32) -> Result<(), AllocError>
    requires dim { k < DIM_LIMIT }
    requires fits { length items.old.items ≤ 2 ^ k }
    requires values { All M.is_value items.old.items }
    ensures padded { OnOk result (items.new.items ≡ padded M.unit k items.old.items) }
    ensures total { OnOk result (total M.join M.unit items.new.items
        ≡ total M.join M.unit items.old.items) }
    ensures prefixes { OnOk result ((count : ℕ) → count ≤ length items.old.items →
        prefix_total M.join M.unit items.new.items count
        ≡ prefix_total M.join M.unit items.old.items count) }
    ensures values { All M.is_value items.new.items }
    ensures memory { OnErr result (vec_capacity items.old < 2 ^ k) }
    ensures unchanged { OnErr result (items.new.items ≡ items.old.items) }
{
    items.reserve_exact((1 << k) - items.len())?;
    for _ in items.len()..1 << k {
        items.push_reserved(M::unit());
    }
    Ok(())
}
