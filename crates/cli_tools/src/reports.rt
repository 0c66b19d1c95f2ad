// The lines of standard error, and the help.
ghost use Rattle.std.specs.Prelude.{◌≡◌, ◌⊎◌, ◌++◌, ◌∷◌, [], IfOk};
ghost use Rattle.clap.specs.Words.{kind_of};
ghost use Rattle.jobs_csv.specs.Fault.{attribute};
ghost use Rattle.cli_tools.specs.Inner.{IsExplained};

use crate::ending::ToolEnding;
use clap::error::ErrorKind;
use jobs_csv::{Device, Fault, FaultKind};
use std::io::Write;

/// Reports a fault in one line. Ignores a failed write.
pub(crate) fn report<E: Write>(fault: Fault, errors: &mut E) -> ToolEnding
    ensures { result ≡ ToolEnding.Failed fault }
{
    let _written = errors.writeln(fault);
    ToolEnding::Failed(fault)
}

// Writes the help or the version, which was asked for.
fn show<W: Write + Device, E: Write>(
    error: &clap::Error,
    writer: &mut W,
    errors: &mut E,
) -> ToolEnding
    ensures { (result ≡ ToolEnding.Done) ⊎ (result ≡ ToolEnding.Failed
        (attribute FaultKind.Write (W.failures writer.old) (W.failures writer.new))) }
{
    let failures_before = writer.failures();
    if write!(writer, "{error}").is_ok() && writer.flush().is_ok() {
        return ToolEnding::Done;
    }
    let failures = writer.failures();
    report(
        Fault::attribute(FaultKind::Write, failures_before, failures),
        errors,
    )
}

/// Shows the help or the version if it was asked for, or reports what is wrong with the words.
pub(crate) fn explain<W: Write + Device, E: Write>(
    error: &clap::Error,
    writer: &mut W,
    errors: &mut E,
) -> ToolEnding
    ensures ends { IsExplained (kind_of error.now)
        (attribute FaultKind.Write (W.failures writer.old) (W.failures writer.new)) result }
    ensures rejected { result ≡ ToolEnding.Rejected → writer.new ≡ writer.old }
{
    match error.kind() {
        ErrorKind::OutOfMemory => return report(Fault::no_memory(), errors),
        ErrorKind::DisplayHelp | ErrorKind::DisplayVersion => return show(error, writer, errors),
        _ => {
            let _written = write!(errors, "{error}");
            return ToolEnding::Rejected;
        }
    }
}
