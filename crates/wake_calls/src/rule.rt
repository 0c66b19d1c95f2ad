// The rule of a table that has words of sleepers.
ghost use Rattle.std.specs.Prelude.{ℕ, List};
ghost use Rattle.wake_calls.specs.Pool.{PoolLaw};
ghost use Rattle.wake_calls.specs.declared.deed.WakeDeed.{WakeDeed as TheDeed};
ghost use Rattle.wake_calls.specs.declared.rule.ThreadRecord.{ThreadRecord as Thread};
ghost use Rattle.wake_pool.specs.declared.phase.WakePhase.{WakePhase as ThePhase};

use crate::deed::WakeDeed;
use atomic_table::TableRule;
use wake_pool::WakePhase;

/// What a thread's seat knows of it.
pub struct ThreadRecord {
    /// Its number. Threads below `workers` may sleep.
    pub number: u32,
    /// What it does at the moment.
    pub phase: WakePhase,
    /// The number of workers.
    pub workers: u32,
    /// The number of lanes.
    pub lanes: u32,
}

/// The rule of a table whose first words are those of sleepers, tokens and mailboxes. `V` is what a
/// seat knows, and `K` is the key that the table gets when it is made.
pub trait WakeRule<V, K>: TableRule<(), V, K> {
    // The number of workers that may sleep, and of lanes.
    ghost workers: { K → ℕ };

    ghost lanes: { K → ℕ };

    // The threads of a view, and the view once they have gone on to another phase.
    ghost threads: { V → List Thread };

    ghost goes: { ThePhase → V → V };

    // The view with one deed more.
    ghost noted: { TheDeed → V → V };

    // The words and the views are a world of threads, and a step on its words needs only keep that.
    ghost pool_law: { PoolLaw threads goes noted Self.holds workers lanes };
}
