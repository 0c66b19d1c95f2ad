// The command `messages`: the messages of a collective.
ghost use Rattle.std.specs.Prelude.{◌≡◌, map, string_bytes};
ghost use Rattle.jobs_csv.specs.Fault.{attribute};
ghost use Rattle.cli_tools.specs.Messages.{EndsMessages};

use crate::ending::ToolEnding;
use crate::listing::{is_root, write_messages};
use crate::reports::{explain, report};
use cli_args::{MessagesOptions, parse_messages};
use collectives::Shape;
use jobs_csv::{Device, FaultKind};
use std::alloc::Global;
use std::io::Write;

// What is wrong with a shape that is the name of no collective.
const NO_SHAPE: &str = "error: invalid value for '--shape <S>'
  [possible values: broadcast, reduce, allreduce, scan, exscan]

For more information, try '--help'.
";

// What is wrong with a root that the collective cannot have.
const NO_ROOT: &str = "error: invalid value for '--root <R>'
  [possible values: 0 to 2^K - 1 for broadcast and reduce, 0 for the others]

For more information, try '--help'.
";

// Reports what is wrong with the options. Ignores a failed write.
fn reject<E: Write>(text: &str, errors: &mut E) -> ToolEnding
    ensures { result ≡ ToolEnding.Rejected }
{
    let _written = write!(errors, "{text}");
    ToolEnding::Rejected
}

/// Carries out the command `messages`, on the words from the command's name on.
///
/// Writes a row for each message of the collective, and reports each fault in one line.
pub fn messages<W: Write + Device, E: Write>(
    alloc: Global,
    words: &[String],
    writer: &mut W,
    errors: &mut E,
) -> ToolEnding
    ensures ends { EndsMessages (map string_bytes words.now)
        (W.contents writer.old) (W.contents writer.new)
        (attribute FaultKind.Write (W.failures writer.old) (W.failures writer.new)) result }
    ensures rejected { result ≡ ToolEnding.Rejected → writer.new ≡ writer.old }
{
    let MessagesOptions { shape, dim, root } = match parse_messages(alloc, words) {
        Ok(options) => options,
        Err(error) => return explain(&error, writer, errors),
    };
    let Some(shape) = shape else {
        return reject(NO_SHAPE, errors);
    };
    if !is_root(shape, dim, root) {
        return reject(NO_ROOT, errors);
    }
    match write_messages(alloc, shape, dim, root, writer) {
        Ok(()) => ToolEnding::Done,
        Err(fault) => report(fault, errors),
    }
}
