// The command line of `check`, and the text of its help.
ghost use Rattle.std.specs.Prelude.{◌≡◌, ◌≤◌, false, IfOk, IfSome, List, Some, codes, map, option_map, string_bytes};
ghost use Rattle.clap.specs.Words.{FailsBy, Row, app_of, fault_of, first_of, found_of, rows_of, rule_of, subcommand_rows_of, with_rule};
ghost use Rattle.clap.specs.declared.builder.command.Command.TheViews.{out-Command};
ghost use Rattle.cli_args.specs.CommandLine.{HasOptionValue, dim_rule, file_named, file_rule, versioned_app};
ghost use Rattle.cli_args.specs.CheckLine.{AsksForCheck, HasDim, IsWithin, bare_check, check_app, name_of, sized_app};

use clap::{Arg, ArgMatches, Command, Error, value_parser};
use cube_shape::{Dim, MAX_DIM};
use release_version::VERSION;
use std::alloc::{AllocError, Global};

const ABOUT: &str = "Lists all faults of an input";

const LONG_ABOUT: &str =
    "Reads the input of another command, and lists each record that this command
would refuse. It reads FILE or standard input, and writes to standard output. It
runs no job and changes no file.";

const ABOUT_RUN: &str = "Lists the faults of a file of jobs";

const ABOUT_PLACE: &str = "Lists the faults of a file of commands";

const ABOUT_REPLAY: &str = "Lists the faults of a schedule";

const AFTER_HELP: &str =
    "The output is CSV with the header record,line,field,text,fault,wanted. It has a
line for each refused record, in the order of the file. If there is none, the
command accepts the file.
  record  the number of the record; the header is record 0, and a blank line is
          no record
  line    the line on which the record begins, from 1 on; a line end within
          quotes counts as a line and does not end the record
  field   the column of the first field that is wrong, or nothing if the record
          is refused as a whole
  text    the first 40 bytes of this field; what is no UTF-8 is replaced
  fault   the fault, as the command's own help names it
  wanted  what the field may be, or what the record should be

A refused header is the only fault that is listed. After the fault TooMany no
record is read.

Exit status:
  0  no record is refused
  1  a record is refused
  2  bad command line
  3  the input or output failed, the file could not be opened, or memory was
     refused; rows that were found before are written

Example: cubejobs check run --dim 3 jobs.csv";

/// A command whose input is checked.
#[derive(Clone, Copy, Debug, PartialEq, Eq)]
pub enum Checked {
    /// `run` or `report`, on a machine of dimension `n`.
    Run { n: u32 },
    /// `place`, on a machine of dimension `n`.
    Place { n: u32 },
    /// `replay`.
    Replay,
}

/// What a command line of `check` asks for.
#[derive(Debug, Drop, PartialEq, Eq)]
pub struct CheckOptions {
    /// The command whose input is checked.
    pub checked: Checked,
    /// The file to read, or `None` for standard input.
    pub input: Option<String>,
}

// Returns the option for the dimension of the machine.
fn dim_option<'a>(alloc: Global, help: &'a str) -> Arg<'a>
    ensures rule { rule_of result ≡ dim_rule }
    ensures local { result.global ≡ false }
{
    Arg::new(alloc, "dim")
        .short('n')
        .long("dim")
        .value_name("N")
        .help(help)
        .required(true)
        .value_parser(value_parser!(u32).range(0..=i64::from(MAX_DIM)))
}

// Returns the operand for the file to read.
fn file_argument<'a>(alloc: Global) -> Arg<'a>
    ensures rule { rule_of result ≡ file_rule }
    ensures local { result.global ≡ false }
{
    Arg::new(alloc, "file").value_name("FILE").help(
        "File to read instead of standard input; - is standard input",
    )
}

// Returns the command for a kind of input.
fn kind<'a>(alloc: Global, name: &'a str, about: &'a str) -> Result<Command<'a>, AllocError>
    ensures app { IfOk result (λ command. app_of command ≡ versioned_app name.entry.now) }
    ensures local { IfOk result (λ command. (out-Command command).has_globals ≡ false) }
{
    let kind = Command::new(alloc, name)
        .version(VERSION)
        .display_name("cubejobs")?;
    Ok(kind.about(about).after_help(AFTER_HELP))
}

// Returns the command for an input that depends on the dimension of the machine.
fn sized<'a>(
    alloc: Global,
    name: &'a str,
    about: &'a str,
    dim_help: &'a str,
) -> Result<Command<'a>, AllocError>
    ensures app { IfOk result (λ command. app_of command ≡ sized_app name.entry.now) }
    ensures local { IfOk result (λ command. (out-Command command).has_globals ≡ false) }
{
    kind(alloc, name, about)?
        .arg(dim_option(alloc, dim_help))?
        .arg(file_argument(alloc))
}

// Returns the command for a schedule.
fn replay<'a>(alloc: Global) -> Result<Command<'a>, AllocError>
    ensures app { IfOk result (λ command.
        app_of command ≡ with_rule (versioned_app (codes "replay")) file_rule) }
    ensures local { IfOk result (λ command. (out-Command command).has_globals ≡ false) }
{
    kind(alloc, "replay", ABOUT_REPLAY)?.arg(file_argument(alloc))
}

// Returns the command with no kind of input.
fn bare<'a>(alloc: Global) -> Result<Command<'a>, AllocError>
    ensures { IfOk result (λ command. app_of command ≡ bare_check) }
{
    Command::new(alloc, "check")
        .version(VERSION)
        .subcommand_required(true)
        .about(ABOUT)
        .long_about(LONG_ABOUT)
        .after_help(AFTER_HELP)
        .display_name("cubejobs")?
        .bin_name("cubejobs check")
}

// Returns the command with all kinds of input.
fn command<'a>(alloc: Global, dim_help: &'a str) -> Result<Command<'a>, AllocError>
    ensures { IfOk result (λ command. app_of command ≡ check_app) }
{
    let run = sized(alloc, "run", ABOUT_RUN, dim_help)?;
    let with_run = bare(alloc)?.subcommand(run)?;
    let place = sized(alloc, "place", ABOUT_PLACE, dim_help)?;
    let with_place = with_run.subcommand(place)?;
    let replay = replay(alloc)?;
    with_place.subcommand(replay)
}

// Returns the dimension that was given.
fn dim_in(matches: &ArgMatches<'_>) -> Option<u32>
    ensures limit { IfSome result (λ n. n ≤ MAX_DIM) }
    ensures value { IfSome result (λ n.
        HasOptionValue (rows_of (found_of matches.now)) (codes "dim") n) }
{
    let n = matches.get_one::<u32>("dim")?;
    if Dim(n).fits(MAX_DIM) { Some(n) } else { None }
}

// Returns the name of the file that was given, if it is one.
fn file_in(alloc: Global, matches: &ArgMatches<'_>) -> Result<Option<String>, AllocError>
    ensures { IfOk result (λ file. option_map string_bytes file
        ≡ file_named (first_of (codes "file") (rows_of (found_of matches.now)))) }
{
    let Some(text) = matches.get_str("file") else {
        return Ok(None);
    };
    if text == "-" {
        return Ok(None);
    }
    let name = String::from_str(alloc, text)?;
    Ok(Some(name))
}

// Returns what a parsed command line asks for, if there is memory for it.
fn options_in(alloc: Global, matches: &ArgMatches<'_>) -> Option<CheckOptions>
    ensures limit { IfSome result (λ asked. IsWithin asked.checked) }
    ensures asked { IfSome result (λ asked. (options : List Row)
        × (subcommand_rows_of matches.now ≡ Some (name_of asked.checked, options))
        × HasDim options asked.checked
        × (option_map string_bytes asked.input ≡ file_named (first_of (codes "file") options))) }
{
    if let Some(run) = matches.subcommand_matches("run") {
        let n = dim_in(run)?;
        let Ok(input) = file_in(alloc, run) else {
            return None;
        };
        let checked = Checked::Run { n };
        return Some(CheckOptions { checked, input });
    }
    if let Some(place) = matches.subcommand_matches("place") {
        let n = dim_in(place)?;
        let Ok(input) = file_in(alloc, place) else {
            return None;
        };
        let checked = Checked::Place { n };
        return Some(CheckOptions { checked, input });
    }
    let replay = matches.subcommand_matches("replay")?;
    let Ok(input) = file_in(alloc, replay) else {
        return None;
    };
    let checked = Checked::Replay;
    Some(CheckOptions { checked, input })
}

/// Returns what a command line asks for. The first word is the command's name.
///
/// # Errors
///
/// The help or the version was asked for, the command line is bad, or memory ran out.
pub fn parse_check(alloc: Global, words: &[String]) -> Result<CheckOptions, Error>
    ensures limit { IfOk result (λ asked. IsWithin asked.checked) }
    ensures asked { IfOk result (AsksForCheck (map string_bytes words.now)) }
    ensures fails { FailsBy (fault_of check_app (map string_bytes words.now)) result }
{
    let dim_help = format!(in alloc;
        "Dimension of the machine, of 2^N processors: 0 to {MAX_DIM}"
    )?;
    let command = command(alloc, &dim_help)?;
    let matches = match command.try_get_matches_from(words) {
        Ok(matches) => matches,
        Err(error) => return Err(error),
    };
    // A good command line names a kind of input with all its options.
    let Some(options) = options_in(alloc, &matches) else {
        return Err(Error::from(AllocError));
    };
    Ok(options)
}
