// The threads of a run. Nothing else in this crate starts a thread.
use std::sync::Wait;
use std::thread;
use std::thread::{Builder, Threads};

// The size of each thread's stack in bytes, whatever the limit of the process is. A run was seen to
// need some 104 KB.
const STACK_BYTES: usize = 1 << 21;

// Members that wait for threads, and what a thread does for them.
pub(crate) trait ThreadWork {
    ghost is_ready: { Self → Type 0 };

    // Returns the number of workers.
    fn worker_count(&self) -> usize;

    // Does the work of a worker, unless it is done already.
    fn work<R: Wait>(&self, rt: &R, index: usize)
        requires { is_ready self.now };

    // Closes the dispatcher, unless it is closed already.
    fn close<R: Wait>(&self, rt: &R)
        requires { is_ready self.now };
}

// Describes a thread with a stack of this size.
fn with_stack() -> Builder {
    Builder::new().stack_size(STACK_BYTES)
}

// Does the work of the first worker on this thread, and that of each other one on a thread of its
// own. If a thread cannot be started, no other one is, and this thread does what is left.
pub(crate) fn run_threads<R: Threads + Wait + Sync, C: ThreadWork + Sync>(rt: &R, members: &C)
    requires { C.is_ready members.now }
{
    thread::scope(
        thread::scope_env(),
        rt,
        |others|
            requires { C.is_ready members.now }
        {
            let mut started = true;
            for index in 1..members.worker_count() {
                if started {
                    started = with_stack()
                        .spawn_scoped(
                            others,
                            move ||
                                requires { C.is_ready members.now }
                            { members.work(rt, index) },
                        )
                        .is_ok();
                }
            }
            members.work(rt, 0);
        },
    );
    for index in 1..members.worker_count() {
        members.work(rt, index);
    }
}
