// The command `place`: an allocator of blocks over names.
ghost use Rattle.std.specs.Prelude.{◌≡◌, ◌≤◌, ◌++◌, ℕ, All, IfErr, IfOk, IfSome, OnOk, List};
ghost use Rattle.jobs_csv.specs.Place.{Fits};
ghost use Rattle.jobs_csv.specs.PlaceRows.{place_columns, place_fields};
ghost use Rattle.jobs_csv.specs.Text.{file_text};
ghost use Rattle.jobs_csv.specs.declared.place_rows.PlaceRow.{PlaceRow as Row};
ghost use Rattle.std.specs.Io.KnownBytes.{Appends};
ghost use Rattle.cli_args.specs.declared.invocation.Invocation.TheVariants.{Place};
ghost use Rattle.cli_commands.specs.Answer.{IsCommandFault, IsMetBeforeWriting};
ghost use Rattle.cli_commands.specs.Place.{ArePlaced};
ghost use Rattle.cli_commands.specs.Inner.Stations.{AreStations, IsAnswerLine, dim_of, named_holdings};
ghost use Rattle.cli_commands.specs.Program.{IsAnswerTo};

use crate::stations::Stations;
use cube_shape::MAX_DIM;
use jobs_csv::{Command, Device, Fault, FaultKind, LineBuffer, PlaceRow, WriteError};
use std::alloc::{AllocError, Global};
use std::io::{Read, Write};

// Carries out a command, and buffers the line of its row.
fn answer_next(
    stations: &mut Stations,
    command: Command,
    lines: LineBuffer,
) -> Result<LineBuffer, AllocError>
    requires made { AreStations stations.old }
    requires fits { Fits (dim_of stations.old) command }
    ensures made { AreStations stations.new }
    ensures dim { dim_of stations.new ≡ dim_of stations.old }
    ensures line { IfOk result (λ more. (line : List ℕ) × (more ≡ lines ++ line)
        × IsAnswerLine (dim_of stations.old) command (named_holdings stations.old)
        (named_holdings stations.new) line) }
{
    let row = stations.answer(command);
    lines.push(&row)
}

// Carries out the commands one after the other. Writes the row of each under the header as it is
// made.
fn answer_all<W: Write>(
    alloc: Global,
    n: u32,
    commands: Vec<Command>,
    writer: &mut W,
) -> Result<(), WriteError>
    requires limit { n ≤ MAX_DIM }
    requires fits { All (λ command. Fits n command) commands.items }
    ensures { OnOk result ((rows : List Row) × ArePlaced n commands.items rows
        × Appends (W.contents writer.old) (W.contents writer.new)
        (file_text place_columns place_fields rows)) }
{
    let mut stations = Stations::new(alloc, n)?;
    let mut lines = LineBuffer::new(alloc)?.push_header::<PlaceRow>()?;
    for command in commands {
        lines = answer_next(&mut stations, command, lines)?.flush_if_full(writer)?;
    }
    lines.finish(writer)
}

/// Reads a file of commands for a machine of dimension `n`, carries them out one after the other,
/// and writes a row for each.
///
/// A name that holds a block has a station of its own, the first that had none. The block that is
/// taken is the first fit: the one with the least base that overlaps no held block.
///
/// All commands are read before the first one is carried out.
///
/// # Errors
///
/// A fault of the input is the first one in it, and then nothing is written. Returns `Read` or
/// `Write` only if that device's count of failed calls rose in this call, or was `u64::MAX` before
/// it. Any other failure is `OutOfMemory`. After `Write` or `OutOfMemory` the first rows may have
/// been written.
pub fn place_on<R: Read + Device, W: Write + Device>(
    alloc: Global,
    n: u32,
    reader: &mut R,
    writer: &mut W,
) -> Result<(), Fault>
    requires { n ≤ MAX_DIM }
    ensures answered { IfSome (R.remaining reader.old) (λ bytes.
        IsAnswerTo (Place n) bytes (W.contents writer.old) (W.contents writer.new) result) }
    ensures failed { IfErr result
        (IsCommandFault (R.failures reader.old) (R.failures reader.new)
        (W.failures writer.old) (W.failures writer.new)) }
    ensures untouched { IfErr result (λ fault. IsMetBeforeWriting fault → writer.new ≡ writer.old) }
{
    let commands = jobs_csv::read_place(alloc, n, reader)?;
    let failures_before = writer.failures();
    match answer_all(alloc, n, commands, writer) {
        Ok(()) => Ok(()),
        Err(WriteError) => Err(Fault::attribute(
            FaultKind::Write,
            failures_before,
            writer.failures(),
        )),
    }
}
