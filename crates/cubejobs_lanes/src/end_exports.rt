//! The calls that close lanes and bring their handles back, under the names that C declares.
ghost use Rattle.std.specs.Prelude.{◌≡◌, ◌≢◌, ◌⊎◌, None};
ghost use Rattle.cubejobs_lanes.specs.Closing.{HasClosed};
ghost use Rattle.cubejobs_lanes.specs.Contents.{lane_refusal, owner_in, owner_refusal, worker_refusal, On};
ghost use Rattle.cubejobs_lanes.specs.Finish.{TriesToFinish};
ghost use Rattle.cubejobs_lanes.specs.Handle.{content_of};
ghost use Rattle.cubejobs_lanes.specs.Stages.{IsClosed, IsOpen};

use crate::answers::{CloseAnswer, FinishAnswer};
use crate::codes::{CLOSED, DONE, STILL_SHARED};
use crate::dealing::filled;
use crate::handle::Handle;
use crate::handles::lift;
use crate::state::State;
use std::alloc::Global;

/// Closes all lanes, one after another. Returns how many jobs they have accepted.
#[unsafe(no_mangle)]
pub extern "C" fn cubejobs_lanes_close(alloc: Global, owner: &mut Handle) -> CloseAnswer
    ensures barred { owner_refusal (content_of owner.old) ≢ DONE
        → result ≡ record { code = owner_refusal (content_of owner.old); accepted = 0 } }
    ensures was_closed { owner_refusal (content_of owner.old) ≡ DONE → On (λ old.
        IsClosed old.stage → result ≡ record { code = CLOSED; accepted = 0 })
        (owner_in (content_of owner.old)) }
    ensures done { owner_refusal (content_of owner.old) ≡ DONE → On (λ old.
        IsOpen old.stage → result.code ≡ DONE) (owner_in (content_of owner.old)) }
    ensures closed { result.code ≡ DONE → On (λ old. On (HasClosed result.accepted old)
        (owner_in (content_of owner.new))) (owner_in (content_of owner.old)) }
    ensures unchanged { result.code ≢ DONE → content_of owner.new ≡ content_of owner.old }
{
    let code = owner.owner_code();
    if code != DONE {
        return CloseAnswer::refused(code);
    }
    let Some(content) = lift(owner, alloc) else {
        unreachable!()
    };
    let mut content = content;
    let State::Owner(lanes) = Box::replace(&mut content, State::Away) else {
        unreachable!()
    };
    let (lanes, total) = lanes.close();
    *owner = Handle::of(filled(content, State::Owner(lanes)));
    match total {
        None => CloseAnswer::refused(CLOSED),
        Some(accepted) => CloseAnswer {
            code: DONE,
            accepted,
        },
    }
}

/// Leaves the lane of a producer to its owner, and shuts the handle.
#[unsafe(no_mangle)]
pub extern "C" fn cubejobs_lanes_free_lane(alloc: Global, lane: &mut Handle) -> u32
    ensures barred { lane_refusal (content_of lane.old) ≢ DONE
        → result ≡ lane_refusal (content_of lane.old) }
    ensures code { lane_refusal (content_of lane.old) ≡ DONE
        → (result ≡ DONE) ⊎ (result ≡ STILL_SHARED) }
    ensures shut { result ≡ DONE → content_of lane.new ≡ None }
    ensures unchanged { result ≢ DONE → content_of lane.new ≡ content_of lane.old }
{
    let code = lane.lane_code();
    if code != DONE {
        return code;
    }
    let Some(content) = lift(lane, alloc) else {
        unreachable!()
    };
    let mut content = content;
    let State::Lane(side) = Box::replace(&mut content, State::Away) else {
        unreachable!()
    };
    match side.leave() {
        Ok(()) => DONE,
        Err(side) => {
            *lane = Handle::of(filled(content, State::Lane(side)));
            STILL_SHARED
        }
    }
}

/// Leaves a worker to its owner, and shuts the handle.
#[unsafe(no_mangle)]
pub extern "C" fn cubejobs_lanes_free_worker(alloc: Global, worker: &mut Handle) -> u32
    ensures barred { worker_refusal (content_of worker.old) ≢ DONE
        → result ≡ worker_refusal (content_of worker.old) }
    ensures code { worker_refusal (content_of worker.old) ≡ DONE
        → (result ≡ DONE) ⊎ (result ≡ STILL_SHARED) }
    ensures shut { result ≡ DONE → content_of worker.new ≡ None }
    ensures unchanged { result ≢ DONE → content_of worker.new ≡ content_of worker.old }
{
    let code = worker.worker_code();
    if code != DONE {
        return code;
    }
    let Some(content) = lift(worker, alloc) else {
        unreachable!()
    };
    let mut content = content;
    let State::Worker(side) = Box::replace(&mut content, State::Away) else {
        unreachable!()
    };
    match side.leave() {
        Ok(()) => DONE,
        Err(side) => {
            *worker = Handle::of(filled(content, State::Worker(side)));
            STILL_SHARED
        }
    }
}

/// Ends closed lanes, once each lane and each worker is back. Then the handle has the jobs that are
/// left.
#[unsafe(no_mangle)]
pub extern "C" fn cubejobs_lanes_finish(alloc: Global, owner: &mut Handle) -> FinishAnswer
    ensures barred { owner_refusal (content_of owner.old) ≢ DONE
        → result ≡ record { code = owner_refusal (content_of owner.old); number = 0 } }
    ensures tried { owner_refusal (content_of owner.old) ≡ DONE
        → On (λ old. TriesToFinish result old (content_of owner.new))
        (owner_in (content_of owner.old)) }
    ensures unchanged { owner_refusal (content_of owner.old) ≢ DONE → owner.new ≡ owner.old }
{
    let code = owner.owner_code();
    if code != DONE {
        return FinishAnswer::of(code);
    }
    let Some(content) = lift(owner, alloc) else {
        unreachable!()
    };
    let mut content = content;
    let State::Owner(lanes) = Box::replace(&mut content, State::Away) else {
        unreachable!()
    };
    let (state, answer) = lanes.finish();
    *owner = Handle::of(filled(content, state));
    answer
}
