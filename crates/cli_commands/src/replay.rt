// The command `replay`: a schedule of stations, event by event.
ghost use Rattle.std.specs.Prelude.{◌≡◌, ◌≤◌, ◌++◌, IfErr, IfOk, IfSome, List, OnOk};
ghost use Rattle.std.specs.Io.KnownBytes.{Appends};
ghost use Rattle.std.specs.List.{flat_map};
ghost use Rattle.jobs_csv.specs.ReplayRows.{replay_columns, replay_fields};
ghost use Rattle.jobs_csv.specs.Text.{file_text, line_of};
ghost use Rattle.jobs_csv.specs.declared.replay_rows.ReplayRow.{ReplayRow as Row};
ghost use Rattle.cli_args.specs.declared.invocation.Invocation.TheVariants.{Replay};
ghost use Rattle.cli_commands.specs.Answer.{IsCommandFault, IsMetBeforeWriting};
ghost use Rattle.cli_commands.specs.Program.{IsAnswerTo};
ghost use Rattle.cli_commands.specs.Replay.{AreReplayed, final_rows};

use crate::play;
use cube_core::World;
use cube_shape::{MAX_DIM, MAX_STATIONS};
use jobs_csv::{Device, Fault, FaultKind, Line, LineBuffer, ReplayRow, WriteError};
use std::alloc::{AllocError, Global};
use std::io::{Read, Write};

// Buffers the lines of these rows.
fn push_rows(lines: LineBuffer, rows: Vec<ReplayRow>) -> Result<LineBuffer, AllocError>
    ensures { IfOk result (λ more. more ≡ lines
        ++ flat_map (λ row. line_of (replay_fields row)) rows.items) }
{
    let mut lines = lines;
    for row in rows {
        lines = lines.push(&row)?;
    }
    Ok(lines)
}

// Buffers the lines of the rows of the end, and writes all that is buffered.
fn write_end<W: Write>(
    alloc: Global,
    n: u32,
    world: &World,
    lines: LineBuffer,
    writer: &mut W,
) -> Result<(), WriteError>
    requires limit { n ≤ MAX_DIM }
    requires dim { world.now.dim ≡ n }
    ensures { OnOk result (Appends (W.contents writer.old) (W.contents writer.new)
        (lines ++ flat_map (λ row. line_of (replay_fields row)) (final_rows world.now))) }
{
    let rows = play::final_rows(alloc, n, world)?;
    push_rows(lines, rows)?.finish(writer)
}

// Plays the lines of a schedule one after the other. Writes the rows of each under the header as
// they are made, and then the rows of the end.
fn play_all<W: Write>(
    alloc: Global,
    n: u32,
    stations: u32,
    schedule: Vec<Line>,
    writer: &mut W,
) -> Result<(), WriteError>
    requires dim { n ≤ MAX_DIM }
    requires stations { stations ≤ MAX_STATIONS }
    ensures { OnOk result ((rows : List Row) × AreReplayed n stations schedule.items rows
        × Appends (W.contents writer.old) (W.contents writer.new)
        (file_text replay_columns replay_fields rows)) }
{
    let mut world = World::new(alloc, n, stations)?;
    let mut lines = LineBuffer::new(alloc)?.push_header::<ReplayRow>()?;
    for line in schedule {
        let rows = play::play(alloc, stations, &mut world, line)?;
        lines = push_rows(lines, rows)?.flush_if_full(writer)?;
    }
    write_end(alloc, n, &world, lines, writer)
}

/// Reads a schedule for a machine of dimension `n` with this many stations, and plays it. Writes
/// its events, the calls that were refused, and the words that are not 0 at the end.
///
/// The whole schedule is read before any of it is played.
///
/// # Errors
///
/// A fault of the input is the first one in it, and then nothing is written. Returns `Read` or
/// `Write` only if that device's count of failed calls rose in this call, or was `u64::MAX` before
/// it. Any other failure is `OutOfMemory`. After `Write` or `OutOfMemory` the first rows may have
/// been written.
pub fn replay_on<R: Read + Device, W: Write + Device>(
    alloc: Global,
    n: u32,
    stations: u32,
    reader: &mut R,
    writer: &mut W,
) -> Result<(), Fault>
    requires dim { n ≤ MAX_DIM }
    requires stations { stations ≤ MAX_STATIONS }
    ensures answered { IfSome (R.remaining reader.old) (λ bytes. IsAnswerTo (Replay n stations)
        bytes (W.contents writer.old) (W.contents writer.new) result) }
    ensures failed { IfErr result
        (IsCommandFault (R.failures reader.old) (R.failures reader.new)
        (W.failures writer.old) (W.failures writer.new)) }
    ensures untouched { IfErr result (λ fault. IsMetBeforeWriting fault → writer.new ≡ writer.old) }
{
    let schedule = jobs_csv::read_schedule(alloc, reader)?;
    let failures_before = writer.failures();
    match play_all(alloc, n, stations, schedule, writer) {
        Ok(()) => Ok(()),
        Err(WriteError) => Err(Fault::attribute(
            FaultKind::Write,
            failures_before,
            writer.failures(),
        )),
    }
}
