// The commands `run` and `report` without a terminal, with the sizes as separate arguments.
ghost use Rattle.std.specs.Prelude.{◌≡◌, true, IfErr, IfSome};
ghost use Rattle.cli_args.specs.CommandLine.{AreShopSizes};
ghost use Rattle.cli_args.specs.declared.invocation.Invocation.TheVariants.{Run, Report as TheReport};
ghost use Rattle.cli_commands.specs.Answer.{IsMetBeforeWriting, IsRunFault};
ghost use Rattle.cli_commands.specs.Program.{IsAnswerTo};

use crate::answering::{Task, answer};
use crate::event_sink::NoEvents;
use cli_args::{Invocation, ShopOptions};
use dispatcher::{Runner, ShopSizes};
use jobs_csv::{Device, Fault};
use std::alloc::Global;
use std::io::{Read, Write};
use std::sync::Wait;
use std::thread::Threads;

// The type of the terminal of a run that has none.
type NoTerminal = Vec<u8>;

// Returns the options of a run that shows no progress.
fn quiet_options(dim: u32, dispatchers: u32, capacity: usize) -> ShopOptions
    ensures { result ≡ record {
      sizes = record { dim = dim; dispatchers = dispatchers; capacity = capacity };
      is_quiet = true;
    } }
{
    let sizes = ShopSizes {
        dim,
        dispatchers,
        capacity,
    };
    ShopOptions {
        sizes,
        is_quiet: true,
    }
}

/// Runs a file of jobs and writes a reply to each, sorted by id: the command `run`, without a
/// terminal.
///
/// All jobs are read before the first one runs, and all have run before the first row is written.
///
/// # Errors
///
/// A fault of the input is the first one in it. Returns `Read` or `Write` only if that device's
/// count of failed calls rose in this call, or was `u64::MAX` before it. Returns `Spent` if a lane
/// has no number left. Any other failure is `OutOfMemory`.
///
/// After `Write` the first rows may have been written; after `OutOfMemory` too, if writing needed
/// memory. After any other fault nothing is written.
pub fn run_on<H, T, R, W>(
    rt: &H,
    alloc: Global,
    n: u32,
    dispatchers: u32,
    capacity: usize,
    runner: &T,
    reader: &mut R,
    writer: &mut W,
) -> Result<(), Fault>
where
    H: Threads + Wait + Clone + Send + Sync + 'static,
    T: Runner + Sync,
    R: Read + Device,
    W: Write + Device,
    requires sizes { AreShopSizes
        (record { dim = n; dispatchers = dispatchers; capacity = capacity }) }
    ensures answered { IfSome (R.remaining reader.old) (λ bytes.
        IsAnswerTo (Run (record {
          sizes = record { dim = n; dispatchers = dispatchers; capacity = capacity };
          is_quiet = true;
        }))
        bytes (W.contents writer.old) (W.contents writer.new) result) }
    ensures failed { IfErr result (IsRunFault (R.failures reader.old) (R.failures reader.new)
        (W.failures writer.old) (W.failures writer.new)) }
    ensures untouched { IfErr result (λ fault.
        IsMetBeforeWriting fault → writer.new ≡ writer.old) }
{
    let invocation = Invocation::Run(quiet_options(n, dispatchers, capacity));
    let task = Task {
        invocation,
        runner,
        is_last: false,
    };
    let (terminal, sink) = (&mut None::<NoTerminal>, &mut NoEvents { alloc });
    answer(rt, task, reader, writer, terminal, sink)
}

/// Runs a file of jobs and writes totals: the command `report`, without a terminal. There is a row
/// for each open lane, for each dimension, for the free blocks of each dimension, and for all jobs.
///
/// The open lanes are 0 to the largest one of a job, or lane 0 alone. The machine is wholly free
/// once all jobs have run. The errors are those of [`run_on`].
pub fn report_on<H, T, R, W>(
    rt: &H,
    alloc: Global,
    n: u32,
    dispatchers: u32,
    capacity: usize,
    runner: &T,
    reader: &mut R,
    writer: &mut W,
) -> Result<(), Fault>
where
    H: Threads + Wait + Clone + Send + Sync + 'static,
    T: Runner + Sync,
    R: Read + Device,
    W: Write + Device,
    requires sizes { AreShopSizes
        (record { dim = n; dispatchers = dispatchers; capacity = capacity }) }
    ensures answered { IfSome (R.remaining reader.old) (λ bytes.
        IsAnswerTo (TheReport (record {
          sizes = record { dim = n; dispatchers = dispatchers; capacity = capacity };
          is_quiet = true;
        }))
        bytes (W.contents writer.old) (W.contents writer.new) result) }
    ensures failed { IfErr result (IsRunFault (R.failures reader.old) (R.failures reader.new)
        (W.failures writer.old) (W.failures writer.new)) }
    ensures untouched { IfErr result (λ fault.
        IsMetBeforeWriting fault → writer.new ≡ writer.old) }
{
    let invocation = Invocation::Report(quiet_options(n, dispatchers, capacity));
    let task = Task {
        invocation,
        runner,
        is_last: false,
    };
    let (terminal, sink) = (&mut None::<NoTerminal>, &mut NoEvents { alloc });
    answer(rt, task, reader, writer, terminal, sink)
}
