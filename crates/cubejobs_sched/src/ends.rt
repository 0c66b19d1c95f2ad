//! How a scheduler begins and ends, by the place of a handle's content.
ghost use Rattle.std.specs.Prelude.{Some, IfErr, IfOk, IfSome, IsFalse, IsSome, IsTrue};
ghost use Rattle.cubejobs_sched.specs.Ends.{IsNew, IsSameOwned, IsSole, SawUnused, SawUse};
ghost use Rattle.cubejobs_sched.specs.Handle.{OnThreads};
ghost use Rattle.cubejobs_sched.specs.Options.{IsInRange};
ghost use Rattle.cubejobs_sched.specs.OwnerIn.{owner_in};

use crate::options::SchedOptions;
use crate::ownership::Ownership;
use crate::state::State;
use sched_board::ThreadSizes;
use sched_threads::{NotNow, Threads, TurnReceipt};
use std::alloc::Global;

// Opens a scheduler in a place of its own. Returns `None` if memory ran out.
pub(crate) fn opened(alloc: Global, options: SchedOptions) -> Option<Box<State>>
    requires { IsInRange options }
    ensures { IfSome result (λ place. IsNew options (owner_in (Some place.value))) }
{
    let sizes = ThreadSizes {
        dim: options.dim,
        jobs: options.jobs as usize,
        patience: options.patience,
        workers: options.workers,
    };
    let Ok(threads) = Threads::new(alloc, sizes) else {
        return None;
    };
    match Box::new(alloc, State::Threads(Ownership::Sole(threads))) {
        Ok(place) => Some(place),
        Err(failed) => {
            drop(failed);
            None
        }
    }
}

// Makes another handle of the scheduler of a place. Where memory runs out, the first place alone.
pub(crate) fn share(alloc: Global, place: Box<State>) -> (Box<State>, Option<Box<State>>)
    requires { IsSome (owner_in (Some place.value)) }
    ensures same { IsSameOwned (owner_in (Some place.value)) (owner_in (Some result.0.value)) }
    ensures other { IfSome result.1 (λ other. IsSameOwned (owner_in (Some place.value))
        (owner_in (Some other.value))) }
{
    let mut place = place;
    let mut other = match Box::new(alloc, State::Taken) {
        Ok(other) => other,
        Err(failed) => {
            drop(failed);
            return (place, None);
        }
    };
    let State::Threads(owner) = Box::replace(&mut place, State::Taken) else {
        unreachable!()
    };
    let (owner, another) = owner.share(alloc);
    let _taken = Box::replace(&mut place, State::Threads(owner));
    match another {
        None => (place, None),
        Some(another) => {
            let _none = Box::replace(&mut other, State::Threads(another));
            (place, Some(other))
        }
    }
}

// Returns whether the scheduler is in use: a thread is a worker, a job waits or runs, or a thread
// has the turn.
fn look_for_use(threads: &Threads) -> (bool, TurnReceipt)
    ensures used { IsTrue result.0 → SawUse threads.now result.1 }
    ensures unused { IsFalse result.0 → SawUnused threads.now result.1 }
{
    match threads.is_used() {
        Ok((used, receipt)) => (used, receipt),
        Err(NotNow { receipt }) => (true, receipt),
    }
}

// Lets the handle of a place go. The last one frees the scheduler, unless it is in use: then it
// returns the place. Returns the receipt of the turn that looked for use, if there was one.
pub(crate) fn freed(place: Box<State>) -> Result<Option<TurnReceipt>, (Box<State>, TurnReceipt)>
    requires { IsSome (owner_in (Some place.value)) }
    ensures unused { IfOk result (λ seen. IfSome seen (λ receipt. OnThreads (λ threads.
        SawUnused threads receipt) (owner_in (Some place.value)))) }
    ensures shared { IfOk result (λ seen. IsSole (owner_in (Some place.value)) → IsSome seen) }
    ensures used { IfErr result (λ kept. OnThreads (λ threads. SawUse threads kept.1)
        (owner_in (Some kept.0.value))) }
    ensures kept { IfErr result (λ kept. IsSameOwned (owner_in (Some place.value))
        (owner_in (Some kept.0.value))) }
    ensures sole { IfErr result (λ kept. IsSole (owner_in (Some kept.0.value))) }
{
    let mut place = place;
    let State::Threads(owner) = Box::replace(&mut place, State::Taken) else {
        unreachable!()
    };
    let Some(threads) = owner.into_last() else {
        return Ok(None);
    };
    let (used, receipt) = look_for_use(&threads);
    if !used {
        return Ok(Some(receipt));
    }
    let _taken = Box::replace(&mut place, State::Threads(Ownership::Sole(threads)));
    Err((place, receipt))
}
