//! The ownership of what the handles of a machine have in common.
ghost use Rattle.std.specs.Prelude.{◌≡◌, IfNone, IfSome};
ghost use Rattle.cubejobs_regions.specs.Ownership.{common_of, IsSoleOwner};

use crate::common::Common;
use std::alloc::Global;
use std::ops::Deref;
use std::sync::Arc;

/// What the handles of a machine have in common, and whether other handles own it too.
#[derive(Drop)]
pub(crate) enum Ownership {
    /// Other handles may own it too.
    Shared(Arc<Common>),
    /// No other handle owns it.
    Sole(Common),
}

impl Ownership {
    // Returns what the handles have in common.
    #[inline(always)]
    pub(crate) fn get(&self) -> &Common
        ensures { result.now ≡ common_of self.now }
    {
        match self {
            Ownership::Shared(common) => common.deref(),
            Ownership::Sole(common) => common,
        }
    }

    // Returns an owner that others can join, and another one. Where memory runs out, the first
    // alone.
    pub(crate) fn share(self, alloc: Global) -> (Ownership, Option<Ownership>)
        ensures same { common_of result.0 ≡ common_of self }
        ensures other { IfSome result.1 (λ other. common_of other ≡ common_of self) }
    {
        let shared = match self {
            Ownership::Shared(common) => common,
            Ownership::Sole(common) => match Arc::new(alloc, common) {
                Ok(common) => common,
                Err(failed) => return (Ownership::Sole(failed.value), None),
            },
        };
        match Arc::try_clone(&shared) {
            Ok(other) => (Ownership::Shared(shared), Some(Ownership::Shared(other))),
            Err(_) => (Ownership::Shared(shared), None),
        }
    }

    // Lets the owner go. The last one returns what the handles had in common.
    pub(crate) fn into_last(self) -> Option<Common>
        ensures last { IfSome result (λ common. common ≡ common_of self) }
        ensures others { IfNone result (IsSoleOwner self → ⊥) }
    {
        match self {
            Ownership::Shared(common) => Arc::into_inner(common),
            Ownership::Sole(common) => Some(common),
        }
    }
}
