// Running the jobs of a file, and listing their events if they are asked for.
ghost use Rattle.std.specs.Prelude.{◌≡◌, ◌⊎◌, false, true, None, Ok, Some, All, IfErr, IfOk, IfSome, List, Result};
ghost use Rattle.job_events.specs.Events.{AreEvents};
ghost use Rattle.job_types.specs.Job.{JobData};
ghost use Rattle.jobs_csv.specs.Fault.{IsInputFault};
ghost use Rattle.jobs_csv.specs.Jobs.{parse_jobs};
ghost use Rattle.jobs_csv.specs.Lanes.{AreLanes, ReturnsLanes};
ghost use Rattle.jobs_csv.specs.declared.fault.Fault.{Fault as TheFault};
ghost use Rattle.cli_args.specs.CommandLine.{AreShopSizes};
ghost use Rattle.cli_commands.specs.Answer.{IsShopFault};
ghost use Rattle.cli_commands.specs.Events.{run_in};
ghost use Rattle.cli_commands.specs.FileRun.{HasSpentLane, IsShopRun, ReturnsRun};
ghost use Rattle.cli_commands.specs.Replies.{replies_in};

use crate::event_sink::EventSink;
use crate::progress::{RecordProgress, ReplyProgress, begin_progress, counts_of, end_progress};
use crate::shop::{AnswerError, answer_lanes};
use cli_args::ShopOptions;
use dispatcher::{Runner, ShopSizes};
use dispatcher_threads::{RunEnd, SharedFloor, SharedLine};
use floors::Floor;
use job_events::{EventNumbers, JobEvent, Numbered, events_of, room_for};
use job_queue::JobLine;
use job_types::Job;
use jobs_csv::{Device, Fault, FaultKind};
use std::alloc::Global;
use std::collections::VecDeque;
use std::io::{Read, Write};
use std::sync::Wait;
use std::thread::Threads;

/// The finished run of a file, and the events of its jobs if they were asked for.
#[derive(Drop)]
pub struct FileRun<M> {
    /// The run.
    pub end: RunEnd<M>,
    /// A take and a later free of the block of each job, or nothing.
    pub events: Vec<JobEvent>,
}

// Runs the jobs of these lanes as `answer_lanes` does, and lists their events if there is a file
// for them. Then it reserves the memory for the events before the first job runs.
fn run_lanes<H, L, F, T>(
    rt: &H,
    alloc: Global,
    sizes: ShopSizes,
    runner: &T,
    lanes: Vec<VecDeque<Job>>,
    has_file: bool,
) -> Result<FileRun<F::Machine>, AnswerError<F::Machine>>
where
    H: Threads + Wait + Sync,
    L: JobLine + SharedLine,
    F: Floor + SharedFloor,
    T: Runner + Sync,
    requires lanes { (jobs : List JobData) × AreLanes lanes.items jobs
        × All (λ job. job.machine ≡ sizes.dim) jobs }
    ensures answered { (parse : Result (List JobData) TheFault) → ReturnsLanes parse (Ok lanes) →
        ReturnsRun F.machine_words sizes.dim parse (run_in result) }
    ensures events { has_file ≡ true → IfOk result (λ run.
        AreEvents (replies_in run.end.finished) run.events.items) }
    ensures run { IfOk result (λ run. IsShopRun L.JobLine F.Floor sizes run.end) }
    ensures failed { IfErr result (λ error. IsShopFault error.fault) }
    ensures spent { IfErr result (λ error.
        error.fault.what ≡ FaultKind.Spent → HasSpentLane error.end) }
{
    if !has_file {
        let end = answer_lanes::<H, L, F, T>(rt, alloc, sizes, runner, lanes)?;
        let events = Vec::new(alloc);
        return Ok(FileRun { end, events });
    }
    let fault = Fault::no_memory();
    let Ok(numbers) = EventNumbers::new(alloc, &lanes) else {
        return Err(AnswerError { fault, end: None });
    };
    let Ok(room) = room_for(alloc, &lanes) else {
        return Err(AnswerError { fault, end: None });
    };
    let runner = Numbered {
        runner,
        numbers: &numbers,
    };
    let end = answer_lanes::<H, L, F, Numbered<T>>(rt, alloc, sizes, &runner, lanes)?;
    let Ok(events) = events_of(&numbers, room, &end.finished) else {
        let end = Some(end);
        return Err(AnswerError { fault, end });
    };
    Ok(FileRun { end, events })
}

/// Reads a file of jobs and runs all of them on threads. The workers submit the jobs of each open
/// lane to the queue `L`. They run each job by the runner, on a block of the allocator `F`.
///
/// All jobs are read before the first one runs. The open lanes are 0 to the largest one of a job,
/// or lane 0 alone. Returns the finished run. It has one right reply to each job under its id, the
/// end of each lane and of each worker, and the machine. The machine is wholly free and closed.
///
/// If the sink has a file, the events of the jobs are listed too: a take and a later free of the
/// block of each. A free has a smaller number than each later take of one of its processors, so the
/// events are in an order of time. No contract says so.
///
/// The terminal, if there is one, shows how many records are read and how many replies are done,
/// unless the options are quiet. A thread of its own writes that line, and has wiped it when this
/// function returns. If a write to the terminal still waits after a second, the waiting thread
/// keeps the terminal.
///
/// # Errors
///
/// The fault is the first one of the file, and then nothing ran. It is `Read` only if the reader's
/// count of failed calls rose in this call, or was `u64::MAX` before it. Then nothing ran either.
/// It is `Spent` if a lane has made as many entries as a lane may. It is `OutOfMemory` if memory
/// ran out; no job runs if there is none for the events. The error has the run as far as it got, if
/// there was one.
pub fn run_file<H, L, F, T, R, P, K>(
    rt: &H,
    options: ShopOptions,
    runner: &T,
    reader: &mut R,
    terminal: &mut Option<P>,
    sink: &K,
) -> Result<FileRun<F::Machine>, AnswerError<F::Machine>>
where
    H: Threads + Wait + Clone + Send + Sync + 'static,
    L: JobLine + SharedLine,
    F: Floor + SharedFloor,
    T: Runner + Sync,
    R: Read + Device,
    P: Write + Send + Drop + 'static,
    K: EventSink,
    requires sizes { AreShopSizes options.sizes }
    ensures answered { IfSome (R.remaining reader.old) (λ bytes. ReturnsRun F.machine_words
        options.sizes.dim (parse_jobs options.sizes.dim bytes) (run_in result)) }
    ensures events { K.has_file ≡ true → IfOk result (λ run.
        AreEvents (replies_in run.end.finished) run.events.items) }
    ensures run { IfOk result (λ run. IsShopRun L.JobLine F.Floor options.sizes run.end) }
    ensures failed { IfErr result (λ error.
        (IsInputFault (R.failures reader.old) (R.failures reader.new) error.fault
        × (error.end ≡ None))
        ⊎ IsShopFault error.fault) }
    ensures spent { IfErr result (λ error.
        error.fault.what ≡ FaultKind.Spent → HasSpentLane error.end) }
    ensures shown { (terminal.new ≡ terminal.old) ⊎ (options.is_quiet ≡ false) }
{
    let ShopOptions { sizes, is_quiet } = options;
    let alloc = sink.alloc();
    let progress = begin_progress(rt, alloc, is_quiet, terminal);
    let observer = RecordProgress::new(counts_of(&progress));
    let ran = match jobs_csv::read_lanes_with(alloc, sizes.dim, observer, reader) {
        Ok((lanes, _observer)) => {
            let runner = ReplyProgress {
                runner,
                counts: counts_of(&progress),
            };
            let has_file = sink.has_file();
            run_lanes::<H, L, F, ReplyProgress<T>>(rt, alloc, sizes, &runner, lanes, has_file)
        }
        Err(fault) => Err(AnswerError { fault, end: None }),
    };
    end_progress(rt, progress, terminal);
    ran
}
