// A command, from the bytes that it reads to the bytes that it writes.
ghost use Rattle.std.specs.Prelude.{◌≡◌, ◌⊎◌, true, IfErr, IfSome, OnOk};
ghost use Rattle.cli_args.specs.CommandLine.{IsWithinLimits};
ghost use Rattle.cli_commands.specs.Answer.{IsMetBeforeWriting};
ghost use Rattle.cli_commands.specs.Events.{IsSunk};
ghost use Rattle.cli_commands.specs.Program.{IsAnswerTo, IsFaultOf, ShowsProgress};

use crate::event_sink::EventSink;
use crate::file_run::run_file;
use crate::output::{Replies, Report, Values};
use crate::place::place_on;
use crate::replay::replay_on;
use crate::writing::{write_none, write_run};
use cli_args::Invocation;
use dispatcher::Runner;
use floor_tree::TreeFloor;
use jobs_csv::{Device, Fault};
use line_ruled::RuledLine;
use std::io::{Read, Write};
use std::sync::Wait;
use std::thread::Threads;

// The queue and the allocator of the program.
type Queue = RuledLine;

type Allocator = TreeFloor;

/// A command, and the runner of its jobs.
#[derive(Drop)]
pub struct Task<'a, T> {
    /// The command.
    pub invocation: Invocation,
    /// The runner of the jobs of `run` and `report`.
    pub runner: &'a T,
    /// Whether the process ends after the command. Then the rows of a run are not freed.
    pub is_last: bool,
}

/// Reads the input of a command, carries it out, and writes its rows.
///
/// The jobs of `run` and `report` run on threads of the runtime. All are read before the first one
/// runs, and all have run before the first row is written. The terminal, if there is one, shows the
/// progress of such a run, unless its options are quiet. If the sink has a file, another thread
/// writes the events of the jobs to it, at the same time as the rows. `place` and `replay` have
/// none.
///
/// # Errors
///
/// A fault of the input is the first one in it. Returns `Read` or `Write` only if that device's
/// count of failed calls rose in this call, or was `u64::MAX` before it. A `Write` may also be by
/// the count of the sink's file. Returns `Spent` if a lane has no number left. Any other failure is
/// `OutOfMemory`. If there is no memory for the events, no job runs.
///
/// After `Write` the first rows may have been written; after `OutOfMemory` too, if writing needed
/// memory. After any other fault nothing is written.
pub fn answer<H, T, R, W, P, K>(
    rt: &H,
    task: Task<'_, T>,
    reader: &mut R,
    writer: &mut W,
    terminal: &mut Option<P>,
    sink: &mut K,
) -> Result<(), Fault>
where
    H: Threads + Wait + Clone + Send + Sync + 'static,
    T: Runner + Sync,
    R: Read + Device,
    W: Write + Device,
    P: Write + Send + Drop + 'static,
    K: EventSink + Send,
    requires { IsWithinLimits task.invocation }
    ensures answered { IfSome (R.remaining reader.old) (λ bytes.
        IsAnswerTo task.entry.invocation bytes
        (W.contents writer.old) (W.contents writer.new) result) }
    ensures written { OnOk result (IfSome (R.remaining reader.old)
        (IsSunk K.has_file (K.writes sink.old sink.new) task.entry.invocation)) }
    ensures failed { IfErr result (λ fault.
        IsFaultOf (R.failures reader.old) (R.failures reader.new)
        (W.failures writer.old) (W.failures writer.new) task.entry.invocation fault
        ⊎ (K.has_file ≡ true × IsFaultOf (R.failures reader.old) (R.failures reader.new)
        (K.failures sink.old) (K.failures sink.new) task.entry.invocation fault)) }
    ensures untouched { IfErr result (λ fault. IsMetBeforeWriting fault → writer.new ≡ writer.old) }
    ensures shown { (terminal.new ≡ terminal.old) ⊎ ShowsProgress task.entry.invocation }
{
    let Task {
        invocation,
        runner,
        is_last,
    } = task;
    let alloc = sink.alloc();
    match invocation {
        Invocation::Run(options) => {
            let dim = options.sizes.dim;
            let ran = run_file::<H, Queue, Allocator, T, R, P, K>(
                rt, options, runner, reader, terminal, sink,
            );
            write_run::<H, Replies, Allocator, W, K>(rt, dim, ran, writer, sink, is_last)
        }
        Invocation::RunLong(options) => {
            let dim = options.sizes.dim;
            let ran = run_file::<H, Queue, Allocator, T, R, P, K>(
                rt, options, runner, reader, terminal, sink,
            );
            write_run::<H, Values, Allocator, W, K>(rt, dim, ran, writer, sink, is_last)
        }
        Invocation::Report(options) => {
            let dim = options.sizes.dim;
            let ran = run_file::<H, Queue, Allocator, T, R, P, K>(
                rt, options, runner, reader, terminal, sink,
            );
            write_run::<H, Report, Allocator, W, K>(rt, dim, ran, writer, sink, is_last)
        }
        Invocation::Place { n } => write_none(place_on(alloc, n, reader, writer), sink),
        Invocation::Replay { n, stations } => {
            write_none(replay_on(alloc, n, stations, reader, writer), sink)
        }
    }
}
