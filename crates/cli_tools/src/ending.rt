// How a call of a command ends.
ghost use Rattle.std.specs.Prelude.{◌≡◌};
ghost use Rattle.std.specs.Process.{exit_status as status_of_process};
ghost use Rattle.cli_tools.specs.Ending.{exit_status};

use atomic_file::FileFault;
use jobs_csv::Fault;
use std::process::ExitCode;

/// How a call of a command ends.
#[derive(Clone, Copy, Debug, PartialEq, Eq)]
pub enum ToolEnding {
    /// The rows are written, or the help or the version is shown. No record is refused.
    Done,
    /// The rows are written. A record is refused.
    Refused,
    /// The command line is bad.
    Rejected,
    /// A device failed, or memory ran out.
    Failed(Fault),
    /// The file could not be opened.
    FileFailed(FileFault),
}

impl ToolEnding {
    /// Returns the exit status.
    pub fn status(self) -> u8
        ensures { result ≡ exit_status self }
    {
        match self {
            ToolEnding::Done => 0,
            ToolEnding::Refused => 1,
            ToolEnding::Rejected => 2,
            ToolEnding::Failed(_) | ToolEnding::FileFailed(_) => 3,
        }
    }
}

/// Returns the exit status for the process.
pub fn exit_code(ending: ToolEnding) -> ExitCode
    ensures { status_of_process result ≡ exit_status ending }
{
    ExitCode::from(ending.status())
}
