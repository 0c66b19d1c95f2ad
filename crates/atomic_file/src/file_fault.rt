// Why a file could not be opened or replaced, and how that is reported.
ghost use Rattle.std.specs.Prelude.{◌≡◌};
ghost use Rattle.atomic_file.specs.FileFault.{reason_of, reason_text, side_text};

use std::fmt;
use std::io::ErrorKind;

/// Why a file could not be opened or replaced.
#[derive(Clone, Copy, Debug, PartialEq, Eq)]
pub enum FileReason {
    /// There is no such file to read, or no such folder to write to.
    Missing,
    /// The name is that of a folder.
    Folder,
    /// The file may not be read, or not be written.
    Denied,
    /// The output is neither a file nor a folder, or it is itself a mount.
    Special,
    /// Memory ran out.
    OutOfMemory,
    /// Any other reason.
    Other,
}

/// Which of its files a command reads or writes.
#[derive(Clone, Copy, Debug, PartialEq, Eq)]
pub enum FileSide {
    /// The file that is read.
    Input,
    /// The file that is written.
    Output,
    /// The file of the events of a run, which is also written.
    Events,
}

/// A file of a command that could not be opened or replaced, and why.
#[derive(Clone, Copy, Debug, PartialEq, Eq)]
pub struct FileFault {
    pub side: FileSide,
    pub reason: FileReason,
}

impl FileReason {
    /// Returns the reason for an error of the system.
    pub fn of(kind: ErrorKind) -> Self
        ensures { result ≡ reason_of kind }
    {
        match kind {
            ErrorKind::NotFound | ErrorKind::NotADirectory => FileReason::Missing,
            ErrorKind::IsADirectory => FileReason::Folder,
            ErrorKind::PermissionDenied | ErrorKind::ReadOnlyFilesystem => FileReason::Denied,
            ErrorKind::OutOfMemory => FileReason::OutOfMemory,
            _ => FileReason::Other,
        }
    }

    // Returns the name of the reason, as in an error message.
    fn text(&self) -> &'static str
        ensures { result.now ≡ reason_text self.now }
    {
        match *self {
            FileReason::Missing => "Missing",
            FileReason::Folder => "Folder",
            FileReason::Denied => "Denied",
            FileReason::Special => "Special",
            FileReason::OutOfMemory => "OutOfMemory",
            FileReason::Other => "Other",
        }
    }
}

impl FileSide {
    // Returns the name of the side, as in an error message.
    fn text(&self) -> &'static str
        ensures { result.now ≡ side_text self.now }
    {
        match *self {
            FileSide::Input => "input",
            FileSide::Output => "output",
            FileSide::Events => "events",
        }
    }
}

impl fmt::Display for FileFault {
    ghost use Rattle.std.specs.Prelude.{Some};
    ghost use Rattle.atomic_file.specs.FileFault.{file_fault_text};

    ghost output = { λ fault. Some (file_fault_text fault) };

    fn fmt<W: fmt::Write>(&self, f: &mut fmt::Formatter<W>) -> fmt::Result {
        let side = self.side.text();
        let reason = self.reason.text();
        write!(f, "failed: {side}: {reason}")
    }
}
