// The command line of `messages`, and the text of its help.
ghost use Rattle.std.specs.Prelude.{◌≡◌, ◌≤◌, false, true, IfOk, IfSome, None, Some, codes, map, string_bytes};
ghost use Rattle.clap.specs.Words.{FailsBy, app_of, fault_of, found_of, rows_of, rule_of};
ghost use Rattle.clap.specs.declared.builder.command.Command.TheViews.{out-Command};
ghost use Rattle.cli_args.specs.CommandLine.{HasOptionValue, dim_rule};
ghost use Rattle.cli_args.specs.MessagesLine.{AsksForMessages, HasOptions, messages_app, root_rule, shape_of, shape_rule};

use clap::{Arg, ArgMatches, Command, Error, value_parser};
use collectives::Shape;
use cube_shape::{Dim, MAX_DIM};
use release_version::VERSION;
use std::alloc::{AllocError, Global};

const ABOUT: &str = "Lists the messages of a collective";

const LONG_ABOUT: &str =
    "Writes the messages of a collective on 2^K processors to standard output. It
reads no input.

The output is CSV with the header round,from,to. It has a line for each message,
round after round: the round from 0 on, the rank that sends it, and the rank
that receives it. In a round, the messages of a broadcast are in the order of
their senders as seen from the root, where rank x is seen as x xor R. Those of a
reduce are in the order of their receivers, all others in the order of their
senders.

Each message goes between ranks that differ in the bit of its round only. So on
an aligned block it goes between neighbours of the hypercube.

Example: cubejobs messages --shape broadcast --dim 2 --root 1";

const AFTER_HELP: &str = "Exit status:
  0  done
  2  bad command line
  3  the output failed, or memory was refused";

/// The options of a command line of `messages`.
#[derive(Clone, Copy, Debug, PartialEq, Eq)]
pub struct MessagesOptions {
    /// The shape of the collective, or `None` if its word is the name of no collective.
    pub shape: Option<Shape>,
    /// The dimension of the block.
    pub dim: u32,
    /// The root. It may be past the last rank.
    pub root: u64,
}

// Returns the shape of the collective of this name.
fn shape_of(name: &str) -> Option<Shape>
    ensures { result ≡ shape_of name.now }
{
    if name == "broadcast" {
        Some(Shape::Broadcast)
    } else if name == "reduce" {
        Some(Shape::Reduce)
    } else if name == "allreduce" {
        Some(Shape::AllReduce)
    } else if name == "scan" || name == "exscan" {
        Some(Shape::Scan)
    } else {
        None
    }
}

// Returns the option for the shape.
fn shape_option<'a>(alloc: Global) -> Arg<'a>
    ensures rule { rule_of result ≡ shape_rule }
    ensures local { result.global ≡ false }
{
    Arg::new(alloc, "shape")
        .long("shape")
        .value_name("S")
        .help("Collective: broadcast, reduce, allreduce, scan or exscan")
        .required(true)
}

// Returns the option for the dimension of the block.
fn dim_option<'a>(alloc: Global, help: &'a str) -> Arg<'a>
    ensures rule { rule_of result ≡ dim_rule }
    ensures local { result.global ≡ false }
{
    Arg::new(alloc, "dim")
        .short('n')
        .long("dim")
        .value_name("K")
        .help(help)
        .required(true)
        .value_parser(value_parser!(u32).range(0..=i64::from(MAX_DIM)))
}

// Returns the option for the root.
fn root_option<'a>(alloc: Global) -> Arg<'a>
    ensures rule { rule_of result ≡ root_rule }
    ensures local { result.global ≡ false }
{
    Arg::new(alloc, "root")
        .long("root")
        .value_name("R")
        .help("Rank of the root; 0 if there is none")
        .default_value("0")
        .value_parser(value_parser!(u64))
}

// Returns the command.
fn command<'a>(alloc: Global, dim_help: &'a str) -> Result<Command<'a>, AllocError>
    ensures { IfOk result (λ command. app_of command ≡ messages_app) }
{
    Command::new(alloc, "messages")
        .version(VERSION)
        .display_name("cubejobs")?
        .bin_name("cubejobs messages")?
        .about(ABOUT)
        .long_about(LONG_ABOUT)
        .after_help(AFTER_HELP)
        .arg(shape_option(alloc))?
        .arg(dim_option(alloc, dim_help))?
        .arg(root_option(alloc))
}

// Returns the options that the command was given, or their defaults.
fn options_in(matches: &ArgMatches<'_>) -> Option<MessagesOptions>
    ensures limit { IfSome result (λ options. options.dim ≤ MAX_DIM) }
    ensures options { IfSome result (HasOptions (rows_of (found_of matches.now))) }
{
    let shape = shape_of(matches.get_str("shape")?);
    let dim = matches.get_one::<u32>("dim")?;
    let root = matches.get_one::<u64>("root")?;
    if !Dim(dim).fits(MAX_DIM) {
        return None;
    }
    Some(MessagesOptions { shape, dim, root })
}

/// Returns the options of a command line, whose first word is the command's name.
///
/// # Errors
///
/// The help or the version was asked for, the command line is bad, or memory ran out.
pub fn parse_messages(alloc: Global, words: &[String]) -> Result<MessagesOptions, Error>
    ensures limit { IfOk result (λ options. options.dim ≤ MAX_DIM) }
    ensures asked { IfOk result (AsksForMessages (map string_bytes words.now)) }
    ensures fails { FailsBy (fault_of messages_app (map string_bytes words.now)) result }
{
    let dim_help = format!(in alloc; "Dimension of the block, of 2^K processors: 0 to {MAX_DIM}")?;
    let command = command(alloc, &dim_help)?;
    let matches = match command.try_get_matches_from(words) {
        Ok(matches) => matches,
        Err(error) => return Err(error),
    };
    // A good command line has all options.
    let Some(options) = options_in(&matches) else {
        return Err(Error::from(AllocError));
    };
    Ok(options)
}
