// What can be wrong with an input or a device, and how it is reported.
ghost use Rattle.std.specs.Prelude.{◌≡◌};
ghost use Rattle.jobs_csv.specs.Fault.{attribute, is_refusal, kind_text, outcome_text, status_of};

use job_types::JobRefused;
use std::alloc::AllocError;
use std::fmt;

/// The kind of a fault.
#[derive(Clone, Copy, Debug, PartialEq, Eq)]
pub enum FaultKind {
    /// A record has too few or too many fields, or there is no header.
    Fields,
    /// A field is not the number, or the numbers, that it should be.
    Number,
    /// A field is none of the keywords that it may be.
    Word,
    /// The fields are good, but no job can be made of them.
    Job(JobRefused),
    /// The input could not be read.
    Read,
    /// The output could not be written.
    Write,
    /// Memory ran out.
    OutOfMemory,
    /// There are more records than a file may have.
    TooMany,
    /// A lane has no number left for another job.
    Spent,
}

/// Why a file was not read, or not answered, to its end.
#[derive(Clone, Copy, Debug, PartialEq, Eq)]
pub struct Fault {
    /// The number of the refused record. The header is record 0 and the next one record 1.
    /// It is 0 for a fault of a device or of memory, and for a lane that is spent.
    pub row: u64,
    pub what: FaultKind,
}

/// The writer failed, or memory ran out.
#[derive(Clone, Copy, Debug, PartialEq, Eq)]
pub struct WriteError;

impl FaultKind {
    /// Returns whether the input is at fault, and not a device, memory or a spent lane.
    pub fn is_refusal(&self) -> bool
        ensures { result ≡ is_refusal self.now }
    {
        match *self {
            FaultKind::Fields
            | FaultKind::Number
            | FaultKind::Word
            | FaultKind::Job(_)
            | FaultKind::TooMany => true,
            FaultKind::Read | FaultKind::Write | FaultKind::OutOfMemory | FaultKind::Spent => false,
        }
    }

    // Returns the first word of the error message.
    fn outcome(&self) -> &'static str
        ensures { result.now ≡ outcome_text self.now }
    {
        if self.is_refusal() {
            "refused"
        } else {
            "failed"
        }
    }

    /// Returns the name of the kind, and for a job the reason.
    pub(crate) fn text(&self) -> &'static str
        ensures { result.now ≡ kind_text self.now }
    {
        match *self {
            FaultKind::Fields => "Fields",
            FaultKind::Number => "Number",
            FaultKind::Word => "Word",
            FaultKind::Job(JobRefused::Empty) => "Job Empty",
            FaultKind::Job(JobRefused::TooLarge) => "Job TooLarge",
            FaultKind::Job(JobRefused::BadRoot) => "Job BadRoot",
            FaultKind::Job(JobRefused::OutOfMemory) => "Job OutOfMemory",
            FaultKind::Read => "Read",
            FaultKind::Write => "Write",
            FaultKind::OutOfMemory => "OutOfMemory",
            FaultKind::TooMany => "TooMany",
            FaultKind::Spent => "Spent",
        }
    }
}

impl fmt::Display for FaultKind {
    ghost use Rattle.std.specs.Prelude.{Some};
    ghost use Rattle.jobs_csv.specs.Fault.{kind_text};

    ghost output = { λ kind. Some (kind_text kind) };

    fn fmt<W: fmt::Write>(&self, f: &mut fmt::Formatter<W>) -> fmt::Result {
        f.write_str(self.text())
    }
}

impl Fault {
    /// Returns the fault for memory that ran out.
    pub fn no_memory() -> Self
        ensures { result ≡ record { row = 0; what = FaultKind.OutOfMemory } }
    {
        Fault {
            row: 0,
            what: FaultKind::OutOfMemory,
        }
    }

    /// Returns the fault of a call that failed, from the device's counts of failed calls before and
    /// after it.
    ///
    /// The device is at fault exactly if its count rose, or was `u64::MAX` before the call.
    /// Otherwise memory ran out.
    pub fn attribute(device: FaultKind, before: u64, after: u64) -> Self
        ensures { result ≡ attribute device before after }
    {
        let has_failed = before < after || before == u64::MAX;
        let what = if has_failed {
            device
        } else {
            FaultKind::OutOfMemory
        };
        Fault { row: 0, what }
    }

    /// Returns the exit status of a program that reports it: 1 if the input was refused, else 3.
    pub fn status(&self) -> u8
        ensures { result ≡ status_of self.now.what }
    {
        if self.what.is_refusal() { 1 } else { 3 }
    }
}

impl fmt::Display for Fault {
    ghost use Rattle.std.specs.Prelude.{Some};
    ghost use Rattle.jobs_csv.specs.Fault.{fault_text};

    ghost output = { λ fault. Some (fault_text fault) };

    fn fmt<W: fmt::Write>(&self, f: &mut fmt::Formatter<W>) -> fmt::Result {
        let outcome = self.what.outcome();
        let row = self.row;
        let kind = self.what.text();
        write!(f, "{outcome}: record {row}: {kind}")
    }
}

impl std::error::Error for Fault {}

impl From<AllocError> for Fault {
    ghost use Rattle.jobs_csv.specs.declared.fault.FaultKind.{FaultKind};

    ghost from_gives = { λ _ fault. fault ≡ record { row = 0; what = FaultKind.OutOfMemory } };

    fn from(_error: AllocError) -> Fault {
        Fault::no_memory()
    }
}

impl From<AllocError> for WriteError {
    fn from(_error: AllocError) -> WriteError {
        WriteError
    }
}
