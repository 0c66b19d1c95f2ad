// The files that a request names.
ghost use Rattle.std.specs.Prelude.{◌≡◌, Some, IfErr, IfOk, OnOk, Err, Ok};
ghost use Rattle.cli_commands.specs.Inner.Files.{AreEventsSettled, IsSettled};
ghost use Rattle.cli_commands.specs.declared.files.CommandError.TheVariants.{Fault as OfFault, File as OfFile};
ghost use Rattle.atomic_file.specs.Store.{KeepsFiles};
ghost use Rattle.atomic_file.specs.declared.file_fault.FileFault.{FileFault as TheFileFault};
ghost use Rattle.atomic_file.specs.declared.file_fault.FileSide.TheVariants.{Input};

use atomic_file::{FileFault, FileSide, FileStore};
use jobs_csv::Fault;

/// The reason why a request failed.
#[derive(Clone, Copy, Debug, PartialEq, Eq)]
pub(crate) enum CommandError {
    /// A fault of the input, of a device, of memory or of a lane.
    Fault(Fault),
    /// A file could not be opened or replaced.
    File(FileFault),
}

// Returns the result of a command as that of its request.
pub(crate) fn answered(answer: Result<(), Fault>) -> Result<(), CommandError>
    ensures done { OnOk answer (result ≡ Ok tt) }
    ensures failed { IfErr answer (λ fault. result ≡ Err (OfFault fault)) }
{
    match answer {
        Ok(()) => Ok(()),
        Err(fault) => Err(CommandError::Fault(fault)),
    }
}

// Opens the input file.
pub(crate) fn open_input<S: FileStore>(store: &S, name: &str) -> Result<S::Reader, CommandError>
    ensures opened { IfOk result (λ file. S.Reader.remaining file ≡ S.bytes store.now name.now) }
    ensures failed { IfErr result (λ error. (fault : TheFileFault)
        × (error ≡ OfFile fault) × (fault.side ≡ Input)) }
{
    let side = FileSide::Input;
    match store.open(name) {
        Ok(file) => Ok(file),
        Err(reason) => Err(CommandError::File(FileFault { side, reason })),
    }
}

// Begins a temporary file for the file that is written on this side.
pub(crate) fn begin_file<S: FileStore>(
    store: &mut S,
    side: FileSide,
    name: &str,
) -> Result<S::TempFile, CommandError>
    ensures fresh { IfOk result (λ temp_file. S.TempFile.contents temp_file ≡ S.fresh) }
    ensures kept { KeepsFiles (S.bytes store.old) (S.bytes store.new) }
    ensures failed { IfErr result (λ error. (fault : TheFileFault)
        × (error ≡ OfFile fault) × (fault.side ≡ side)) }
{
    match store.temp_file(name) {
        Ok(temp_file) => Ok(temp_file),
        Err(reason) => Err(CommandError::File(FileFault { side, reason })),
    }
}

// Persists the temporary file of the output if the command is done, and otherwise discards it.
pub(crate) fn settle_output<S: FileStore>(
    store: &mut S,
    temp_file: S::TempFile,
    name: &str,
    answer: Result<(), Fault>,
) -> Result<(), CommandError>
    ensures { IsSettled (S.TempFile.contents temp_file) (S.bytes store.old) (S.bytes store.new)
        name.now answer result }
{
    match answer {
        Ok(()) => {}
        Err(fault) => {
            store.discard(temp_file);
            return Err(CommandError::Fault(fault));
        }
    }
    match store.persist(temp_file, name) {
        Ok(()) => Ok(()),
        Err(reason) => Err(CommandError::File(FileFault {
            side: FileSide::Output,
            reason,
        })),
    }
}

// Persists the temporary file of the events if all else is done, and otherwise discards it.
pub(crate) fn settle_events<S: FileStore>(
    store: &mut S,
    events: S::TempFile,
    name: &str,
    done: Result<(), CommandError>,
) -> Result<(), CommandError>
    ensures { AreEventsSettled (S.TempFile.contents events) (S.bytes store.old)
        (S.bytes store.new) name.now done result }
{
    match done {
        Ok(()) => {}
        Err(error) => {
            store.discard(events);
            return Err(error);
        }
    }
    match store.persist(events, name) {
        Ok(()) => Ok(()),
        Err(reason) => Err(CommandError::File(FileFault {
            side: FileSide::Events,
            reason,
        })),
    }
}
