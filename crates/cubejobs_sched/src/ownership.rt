//! The ownership of what the handles of a scheduler share.
ghost use Rattle.std.specs.Prelude.{◌≡◌, IfNone, IfSome};
ghost use Rattle.cubejobs_sched.specs.Ownership.{threads_owned, IsSoleOwner};

use sched_threads::Threads;
use std::alloc::Global;
use std::ops::Deref;
use std::sync::Arc;

/// What the handles of a scheduler share, and whether other handles own it too.
#[derive(Drop)]
pub(crate) enum Ownership {
    /// Other handles may own it too.
    Shared(Arc<Threads>),
    /// No other handle owns it.
    Sole(Threads),
}

impl Ownership {
    // Returns the scheduler.
    #[inline(always)]
    pub(crate) fn get(&self) -> &Threads
        ensures { result.now ≡ threads_owned self.now }
    {
        match self {
            Ownership::Shared(threads) => threads.deref(),
            Ownership::Sole(threads) => threads,
        }
    }

    // Returns an owner that others can join, and another one. Where memory runs out, the first
    // alone.
    pub(crate) fn share(self, alloc: Global) -> (Ownership, Option<Ownership>)
        ensures same { threads_owned result.0 ≡ threads_owned self }
        ensures other { IfSome result.1 (λ other. threads_owned other ≡ threads_owned self) }
    {
        let shared = match self {
            Ownership::Shared(threads) => threads,
            Ownership::Sole(threads) => match Arc::new(alloc, threads) {
                Ok(threads) => threads,
                Err(failed) => return (Ownership::Sole(failed.value), None),
            },
        };
        match Arc::try_clone(&shared) {
            Ok(other) => (Ownership::Shared(shared), Some(Ownership::Shared(other))),
            Err(_) => (Ownership::Shared(shared), None),
        }
    }

    // Lets the owner go. The last one returns the scheduler.
    pub(crate) fn into_last(self) -> Option<Threads>
        ensures last { IfSome result (λ threads. threads ≡ threads_owned self) }
        ensures others { IfNone result (IsSoleOwner self → ⊥) }
    {
        match self {
            Ownership::Shared(threads) => Arc::into_inner(threads),
            Ownership::Sole(threads) => Some(threads),
        }
    }
}
