// Writing the rows and the events of a command.
ghost use Rattle.std.specs.Prelude.{◌≡◌, ◌⊎◌, ◌≤◌, ℕ, [], true, Err, Some, IfErr, IfOk, IfSome, OnOk, List, length};
ghost use Rattle.std.specs.Io.KnownBytes.{Appends};
ghost use Rattle.cube_shape.specs.declared.limits.TheConstants.{MAX_LANES};
ghost use Rattle.floors.specs.Floor.{IsWhollyFree};
ghost use Rattle.job_types.specs.Job.{JobData};
ghost use Rattle.jobs_csv.specs.Fault.{attribute};
ghost use Rattle.jobs_csv.specs.Jobs.{parse_jobs};
ghost use Rattle.cli_commands.specs.Answer.{IsAnswer, IsMetBeforeWriting};
ghost use Rattle.cli_commands.specs.Events.{run_in};
ghost use Rattle.cli_commands.specs.FileRun.{ReturnsRun};
ghost use Rattle.cli_commands.specs.Inner.Recording.{IfRan, fault_of_run};
ghost use Rattle.cli_commands.specs.Replies.{AnswersJobs};

use crate::event_sink::EventSink;
use crate::file_run::FileRun;
use crate::output::Output;
use crate::shop::AnswerError;
use cube_shape::MAX_DIM;
use dispatcher::Finished;
use dispatcher_threads::RunEnd;
use floors::Floor;
use jobs_csv::{Device, Fault, FaultKind};
use std::alloc::Global;
use std::io::Write;
use std::mem::{forget, replace};
use std::thread::{Threads, join_mut};

// Frees the rows, unless the process ends after the command: to free each takes a tenth of a run.
fn let_go<R: Drop>(rows: Vec<R>, is_last: bool) {
    if is_last {
        forget(rows);
    } else {
        drop(rows);
    }
}

// Writes the rows that are made of a finished run.
fn write_finished<O: Output, F: Floor, W: Write + Device>(
    alloc: Global,
    n: u32,
    finished: Finished<F::Machine>,
    writer: &mut W,
    is_last: bool,
) -> Result<(), Fault>
where
    F::Machine: Drop,
    requires limit { n ≤ MAX_DIM }
    requires lanes { length finished.accepted.items ≤ MAX_LANES }
    requires free { IsWhollyFree n (F.machine_words finished.machine) }
    ensures written { (jobs : List JobData) → AnswersJobs n jobs finished → OnOk result
        ((rows : List O.Row) × O.are_rows n jobs rows
        × Appends (W.contents writer.old) (W.contents writer.new)
        (O.text rows)) }
    ensures failed { IfErr result (λ fault.
        (fault ≡ attribute FaultKind.Write (W.failures writer.old) (W.failures writer.new))
        ⊎ (fault ≡ record { row = 0; what = FaultKind.OutOfMemory })) }
{
    let Ok(rows) = O::rows::<F>(alloc, n, finished) else {
        return Err(Fault::no_memory());
    };
    let answer = O::write(alloc, &rows, writer);
    let_go(rows, is_last);
    answer
}

// Writes the rows of a finished run, which is taken out.
fn write_taken<O: Output, F: Floor, W: Write + Device>(
    alloc: Global,
    n: u32,
    finished: &mut Option<Finished<F::Machine>>,
    writer: &mut W,
    is_last: bool,
) -> Result<(), Fault>
where
    F::Machine: Drop,
    requires limit { n ≤ MAX_DIM }
    requires lanes { IfSome finished.old (λ run. length run.accepted.items ≤ MAX_LANES) }
    requires free { IfSome finished.old (λ run. IsWhollyFree n (F.machine_words run.machine)) }
    ensures written { IfSome finished.old (λ run. (jobs : List JobData) → AnswersJobs n jobs run →
        OnOk result ((rows : List O.Row) × O.are_rows n jobs rows
        × Appends (W.contents writer.old) (W.contents writer.new)
        (O.text rows))) }
    ensures failed { IfErr result (λ fault.
        (fault ≡ attribute FaultKind.Write (W.failures writer.old) (W.failures writer.new))
        ⊎ (fault ≡ record { row = 0; what = FaultKind.OutOfMemory })) }
{
    match finished.take() {
        Some(finished) => write_finished::<O, F, W>(alloc, n, finished, writer, is_last),
        None => Err(Fault::no_memory()),
    }
}

// Writes the rows of a run. If there is a file for its events, another thread writes them at the
// same time.
fn write_both<H: Threads, O: Output, F: Floor, W: Write + Device, K: EventSink + Send>(
    rt: &H,
    n: u32,
    run: FileRun<F::Machine>,
    writer: &mut W,
    sink: &mut K,
    is_last: bool,
) -> Result<(), Fault>
where
    F::Machine: Drop,
    requires limit { n ≤ MAX_DIM }
    requires lanes { length run.end.finished.accepted.items ≤ MAX_LANES }
    requires free { IsWhollyFree n (F.machine_words run.end.finished.machine) }
    ensures written { (jobs : List JobData) → AnswersJobs n jobs run.end.finished → OnOk result
        ((rows : List O.Row) × O.are_rows n jobs rows
        × Appends (W.contents writer.old) (W.contents writer.new)
        (O.text rows)) }
    ensures events { K.has_file ≡ true →
        OnOk result (K.writes sink.old sink.new run.events.items) }
    ensures failed { IfErr result (λ fault.
        (fault ≡ attribute FaultKind.Write (W.failures writer.old) (W.failures writer.new))
        ⊎ (K.has_file ≡ true
        × (fault ≡ attribute FaultKind.Write (K.failures sink.old) (K.failures sink.new)))
        ⊎ (fault ≡ record { row = 0; what = FaultKind.OutOfMemory })) }
{
    let alloc = sink.alloc();
    let FileRun { end, mut events } = run;
    let RunEnd { finished, .. } = end;
    if !sink.has_file() {
        return write_finished::<O, F, W>(alloc, n, finished, writer, is_last);
    }
    let mut finished = Some(finished);
    let (listed, done) = join_mut(
        rt,
        &mut || sink.write(replace(&mut events, Vec::new(alloc))),
        &mut || -> Result<(), Fault>
            requires limit { n ≤ MAX_DIM }
            requires lanes { IfSome finished (λ run. length run.accepted.items ≤ MAX_LANES) }
            requires free { IfSome finished (λ run.
                IsWhollyFree n (F.machine_words run.machine)) }
        { write_taken::<O, F, W>(alloc, n, &mut finished, writer, is_last) },
    );
    match done {
        Ok(()) => listed,
        Err(fault) => Err(fault),
    }
}

// Writes the rows of a run, and its events if there is a file for them. Returns the fault of a run
// that failed.
pub(crate) fn write_run<H, O, F, W, K>(
    rt: &H,
    n: u32,
    ran: Result<FileRun<F::Machine>, AnswerError<F::Machine>>,
    writer: &mut W,
    sink: &mut K,
    is_last: bool,
) -> Result<(), Fault>
where
    H: Threads,
    O: Output,
    F: Floor,
    W: Write + Device,
    K: EventSink + Send,
    F::Machine: Drop,
    requires limit { n ≤ MAX_DIM }
    requires lanes { IfOk ran (λ run. length run.end.finished.accepted.items ≤ MAX_LANES) }
    requires free { IfOk ran (λ run.
        IsWhollyFree n (F.machine_words run.end.finished.machine)) }
    ensures answered { (bytes : List ℕ) →
        ReturnsRun F.machine_words n (parse_jobs n bytes) (run_in ran) →
        IsAnswer (parse_jobs n bytes) (O.are_rows n) O.text
        (W.contents writer.old) (W.contents writer.new) result }
    ensures events { K.has_file ≡ true → OnOk result (IfRan ran (λ run.
        K.writes sink.old sink.new run.events.items)) }
    ensures failed { IfErr result (λ fault. (fault_of_run ran ≡ Some fault)
        ⊎ (fault ≡ attribute FaultKind.Write (W.failures writer.old) (W.failures writer.new))
        ⊎ (K.has_file ≡ true
        × (fault ≡ attribute FaultKind.Write (K.failures sink.old) (K.failures sink.new)))
        ⊎ (fault ≡ record { row = 0; what = FaultKind.OutOfMemory })) }
    ensures untouched { IfErr result (λ fault.
        IsMetBeforeWriting fault → writer.new ≡ writer.old) }
{
    match ran {
        Ok(run) => write_both::<H, O, F, W, K>(rt, n, run, writer, sink, is_last),
        Err(error) => Err(error.fault),
    }
}

// Writes the events of a command that runs no jobs, if there is a file for them: none.
pub(crate) fn write_none<K: EventSink>(answer: Result<(), Fault>, sink: &mut K) -> Result<(), Fault>
    ensures passed { IfErr answer (λ fault. result ≡ Err fault) }
    ensures events { K.has_file ≡ true → OnOk result (K.writes sink.old sink.new []) }
    ensures failed { OnOk answer (IfErr result (λ fault. K.has_file ≡ true
        × (fault ≡ attribute FaultKind.Write (K.failures sink.old) (K.failures sink.new)))) }
{
    if answer.is_err() || !sink.has_file() {
        return answer;
    }
    sink.write(Vec::new(sink.alloc()))
}
