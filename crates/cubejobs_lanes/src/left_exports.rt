//! The calls after the end of lanes, under the names that C declares.
ghost use Rattle.std.specs.Prelude.{◌≡◌, ◌≢◌, ◌⊎◌, None, []};
ghost use Rattle.cubejobs_lanes.specs.Answers.{no_job};
ghost use Rattle.cubejobs_lanes.specs.Contents.{left_in, left_refusal, On};
ghost use Rattle.cubejobs_lanes.specs.Handle.{content_of};
ghost use Rattle.cubejobs_lanes.specs.Lefts.{GivesJob};

use crate::answers::JobAnswer;
use crate::codes::{DONE, JOB_LEFT};
use crate::handle::Handle;
use crate::handles::lift;
use crate::state::State;
use std::alloc::Global;

/// Returns the first job that is left, and removes it.
#[unsafe(no_mangle)]
pub extern "C" fn cubejobs_lanes_rest(owner: &mut Handle) -> JobAnswer
    ensures barred { left_refusal (content_of owner.old) ≢ DONE
        → result ≡ no_job (left_refusal (content_of owner.old)) }
    ensures given { left_refusal (content_of owner.old) ≡ DONE → On (λ old. On (λ new.
        GivesJob result old new) (left_in (content_of owner.new)))
        (left_in (content_of owner.old)) }
    ensures unchanged { left_refusal (content_of owner.old) ≢ DONE → owner.new ≡ owner.old }
{
    let code = owner.left_code();
    if code != DONE {
        return JobAnswer::none(code);
    }
    let State::Left(left) = owner.ptr.get_mut() else {
        unreachable!()
    };
    left.give()
}

/// Frees a handle of ended lanes, of which no job is left.
#[unsafe(no_mangle)]
pub extern "C" fn cubejobs_lanes_free(alloc: Global, owner: &mut Handle) -> u32
    ensures barred { left_refusal (content_of owner.old) ≢ DONE
        → result ≡ left_refusal (content_of owner.old) }
    ensures tried { left_refusal (content_of owner.old) ≡ DONE → On (λ old.
        ((old.jobs.items ≡ []) × (result ≡ DONE))
        ⊎ ((old.jobs.items ≢ []) × (result ≡ JOB_LEFT))) (left_in (content_of owner.old)) }
    ensures shut { result ≡ DONE → content_of owner.new ≡ None }
    ensures unchanged { result ≢ DONE → owner.new ≡ owner.old }
{
    let code = owner.left_code();
    if code != DONE {
        return code;
    }
    let State::Left(left) = owner.ptr.get_mut() else {
        unreachable!()
    };
    if !left.jobs.is_empty() {
        return JOB_LEFT;
    }
    drop(lift(owner, alloc));
    DONE
}
