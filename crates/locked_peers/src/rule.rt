// The rule of a cell, and the step that takes its value.
ghost use Rattle.locked_peers.specs.Cell.{takes_at_0};

use atomic_table::{Play, TableRule};
use std::marker::PhantomData;

/// The rule of a cell with a value of type `S`. `V` is what a seat knows, and `K` is the key that
/// the cell gets when it is made.
pub trait CellRule<S, V, K>: TableRule<S, V, K> {
    ghost holding: { V → S → V };

    ghost learns: { V → S → Type 0 };
}

// The step by which a seat tries to take the value.
pub(crate) struct Enter<K, R> {
    rule: PhantomData<(K, R)>,
}

impl<S, V, K, R: CellRule<S, V, K>> Play<S, V> for Enter<K, R> {
    ghost then = { takes_at_0 R.holding R.learns };
}
