//! Jobs that are inside the runner at one moment: two, or three.

use crate::tests::commands::{sizes_of, writes_all};
use crate::tests::facts::expect_true;
use cli_args::{Invocation, ShopOptions};
use cli_commands::{NoEvents, Task, answer};
use dispatcher::{Runner, ShopSizes};
use job_types::{Job, JobId, Region, Reply};
use jobs_csv::Counted;
use std::process::Abort;
use std::sync::Wait;
use std::sync::atomic::{AtomicU64, Ordering};
use std::thread::{Threads, yield_now};

// How often a runner looks for another job before it goes on alone.
const TURNS: u32 = 1_000_000;

const TWO_JOBS: &[u8] = b"lane,kind,op,root,items\n0,allreduce,add,0,1 2\n0,allreduce,add,0,3 4\n";

const TWO_REPLIES: &str = "lane,seq,kind,dim,result,rounds,messages\n\
    0,0,allreduce,1,3 3,1,2\n0,1,allreduce,1,7 7,1,2\n";

const TWO_TOTALS: &str = "group,key,count,processors,idle\nlane,0,2,4,0\ndim,0,0,0,0\n\
    dim,1,2,4,0\ndim,2,0,0,0\nfree,0,4,4,0\nfree,1,2,4,0\nfree,2,1,4,0\ntotal,-,2,4,0\n";

const THREE_JOBS: &[u8] = b"lane,kind,op,root,items\n0,allreduce,add,0,1 2\n0,allreduce,add,0,3 4\n\
    0,allreduce,add,0,5 6\n";

const THREE_REPLIES: &str = "lane,seq,kind,dim,result,rounds,messages\n\
    0,0,allreduce,1,3 3,1,2\n0,1,allreduce,1,7 7,1,2\n0,2,allreduce,1,11 11,1,2\n";

const THREE_TOTALS: &str =
    "group,key,count,processors,idle\nlane,0,3,6,0\ndim,0,0,0,0\ndim,1,3,6,0\ndim,2,0,0,0\n\
    dim,3,0,0,0\nfree,0,8,8,0\nfree,1,4,8,0\nfree,2,2,8,0\nfree,3,1,8,0\ntotal,-,3,6,0\n";

// A runner that keeps each job until this number have entered, or it has looked `TURNS` times.
#[derive(Drop)]
struct Meeting {
    wanted: u64,
    inside: AtomicU64,
    alone: AtomicU64,
}

impl Meeting {
    fn of(wanted: u64) -> Self {
        Meeting {
            wanted,
            inside: AtomicU64::new(0),
            alone: AtomicU64::new(0),
        }
    }

    fn meet(&self) -> bool {
        for _ in 0..TURNS {
            if self.inside.load(Ordering::SeqCst) >= self.wanted {
                return true;
            }
            yield_now();
        }
        false
    }

    // Returns whether as many jobs entered as were wanted, and none of them went on alone.
    fn has_met(&self) -> bool {
        (self.inside.load(Ordering::SeqCst) == self.wanted)
            & (self.alone.load(Ordering::SeqCst) == 0)
    }
}

impl Runner for Meeting {
    fn run<R: Wait>(&self, _rt: &R, id: JobId, region: Region, job: Job) -> Reply {
        self.inside.fetch_add(1, Ordering::SeqCst);
        if !self.meet() {
            self.alone.fetch_add(1, Ordering::SeqCst);
        }
        job.answer(id, region)
    }
}

// Expects that all jobs of a file are inside at once if as many dispatchers run them. The run or
// the report writes this.
fn expect_meeting(
    rt: &(impl AllocGlobal + Abort + Threads + Wait + Clone + Send + Sync + 'static),
    is_report: bool,
    sizes: ShopSizes,
    jobs: &[u8],
    wanted: &str,
) {
    let meeting = Meeting::of(sizes.dispatchers as u64);
    let is_written = writes_all(rt, is_report, sizes, &meeting, jobs, wanted.as_bytes());
    expect_true(rt, is_written & meeting.has_met());
}

#[test]
fn two_jobs_of_a_run_are_inside_at_once(rt: HostRuntime) {
    expect_meeting(&rt, false, sizes_of(2, 2, 2), TWO_JOBS, TWO_REPLIES);
}

#[test]
fn two_jobs_of_a_report_are_inside_at_once(rt: HostRuntime) {
    expect_meeting(&rt, true, sizes_of(2, 2, 2), TWO_JOBS, TWO_TOTALS);
}

#[test]
fn three_jobs_of_a_run_are_inside_at_once(rt: HostRuntime) {
    expect_meeting(&rt, false, sizes_of(3, 3, 3), THREE_JOBS, THREE_REPLIES);
}

#[test]
fn three_jobs_of_a_report_are_inside_at_once(rt: HostRuntime) {
    expect_meeting(&rt, true, sizes_of(3, 3, 3), THREE_JOBS, THREE_TOTALS);
}

// The same of a run that shows its progress. It has the dispatchers that were asked, and its jobs
// run by the runner that was passed in.
#[test]
fn three_jobs_of_a_shown_run_are_inside_at_once(rt: HostRuntime) {
    let meeting = Meeting::of(3);
    let mut reader = Counted::new(THREE_JOBS);
    let mut writer = Counted::new(Vec::new(rt.alloc()));
    let options = ShopOptions {
        sizes: sizes_of(3, 3, 3),
        is_quiet: false,
    };
    let task = Task {
        invocation: Invocation::Run(options),
        runner: &meeting,
        is_last: false,
    };
    let mut terminal = Some(Vec::new(rt.alloc()));
    let mut sink = NoEvents { alloc: rt.alloc() };
    let answer = answer(
        &rt,
        task,
        &mut reader,
        &mut writer,
        &mut terminal,
        &mut sink,
    );
    let is_written = writer.get_ref().as_slice() == THREE_REPLIES.as_bytes();
    expect_true(
        &rt,
        (answer == Ok(())) & is_written & meeting.has_met() & terminal.is_some(),
    );
}
