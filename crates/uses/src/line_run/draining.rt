// A consumer: taking jobs by one pass.
ghost use Rattle.std.specs.Prelude.{◌≡◌, ◌++◌, List};
ghost use Rattle.job_queue.specs.declared.record.QueuedJob.{QueuedJob};

use job_queue::{JobLine, QueuedJob, Taken};
use std::sync::Wait;
use std::thread::yield_now;

/// Takes jobs until the queue has ended, or until memory runs out for one more, and adds them to
/// the list. Whatever the pass took before and is not in the list stays so.
pub fn drain<R: Wait, L: JobLine>(rt: &R, line: &L, pass: &mut L::Pass, taken: &mut Vec<QueuedJob>)
    requires pass { L.is_pass (L.id line.now) pass.old }
    ensures pass { L.is_pass (L.id line.now) pass.new }
    ensures taken { (before : List QueuedJob) →
        (L.pass_record pass.old).taken ≡ before ++ taken.old.items →
        (L.pass_record pass.new).taken ≡ before ++ taken.new.items }
{
    for _ in rt.forever() {
        if taken.reserve(1).is_err() {
            return;
        }
        match line.take(rt, pass) {
            Taken::Job(id, job) => taken.push_reserved(QueuedJob { id, job }),
            Taken::EmptyNow => yield_now(),
            Taken::Ended(_) => return,
        }
    }
    unreachable!()
}
