//! What workers do.

ghost use Rattle.std.specs.Prelude.{◌≡◌, ◌≢◌, ℕ, ◌<◌, ◌≤◌, IfSome, IfNone, length};
ghost use Rattle.sched_board.specs.declared.workers.PoolWorker.TheVariants.{Waiting};
ghost use Rattle.sched_board.specs.Workers.{does, none_waits_in};

/// The most workers that a pool may have.
pub const MAX_WORKERS: u32 = 1 << 16;

/// What a worker does.
#[derive(Clone, Copy, Debug, PartialEq, Eq, Hash)]
pub enum PoolWorker {
    /// It has no job, and waits for none.
    Away,
    /// It waits for a job.
    Waiting,
    /// It has the job of this slot.
    Busy(u32),
}

/// Returns what a worker does.
pub(crate) fn state_at(workers: &[PoolWorker], number: u32) -> PoolWorker
    requires { number < length workers.now }
    ensures { result ≡ does workers.now number }
{
    workers[number as usize]
}

/// Writes what a worker does.
pub(crate) fn put_state(workers: &mut [PoolWorker], number: u32, state: PoolWorker)
    requires { number < length workers.old }
    ensures count { length workers.new ≡ length workers.old }
    ensures here { does workers.new number ≡ state }
    ensures others { (u : ℕ) → u ≢ number → does workers.new u ≡ does workers.old u }
{
    workers[number as usize] = state;
}

/// Returns the first worker from one on that waits.
pub(crate) fn first_waiting(workers: &[PoolWorker], from: u32) -> Option<u32>
    requires { length workers.now ≤ MAX_WORKERS }
    ensures inside { IfSome result (λ u. u < length workers.now) }
    ensures from { IfSome result (λ u. from ≤ u) }
    ensures waits { IfSome result (λ u. does workers.now u ≡ Waiting) }
    ensures first { IfSome result (none_waits_in workers.now from) }
    ensures none { IfNone result (none_waits_in workers.now from (length workers.now)) }
{
    for number in from..workers.len() as u32 {
        if state_at(workers, number) == PoolWorker::Waiting {
            return Some(number);
        }
    }
    None
}
