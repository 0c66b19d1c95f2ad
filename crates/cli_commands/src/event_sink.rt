// Where the events of a command go.
ghost use Rattle.std.specs.Prelude.{◌≡◌, IfErr, OnOk};
ghost use Rattle.jobs_csv.specs.Fault.{attribute};

use job_events::JobEvent;
use jobs_csv::{Device, Fault, FaultKind};
use std::alloc::Global;
use std::io::Write;

/// Where the events of a command go, if they are written.
pub trait EventSink {
    ghost use Rattle.std.specs.Prelude.{ℕ, Bool, List};
    ghost use Rattle.job_events.specs.declared.event.JobEvent.{JobEvent as TheEvent};

    // Whether the events are written to a file.
    ghost has_file: { Bool };

    // The rows of these events are written, from one state of the sink to the next.
    ghost writes: { Self → Self → List TheEvent → Type 0 };

    // How many calls of the file have failed, as its device counts them.
    ghost failures: { Self → ℕ };

    /// Returns the allocator of the command.
    fn alloc(&self) -> Global;

    /// Returns whether the events are written to a file.
    fn has_file(&self) -> bool
        ensures { result ≡ has_file };

    /// Writes the rows of the events, if there is a file.
    ///
    /// # Errors
    ///
    /// Returns `Write` if a call of the file failed. Otherwise memory ran out.
    fn write(&mut self, events: Vec<JobEvent>) -> Result<(), Fault>
        ensures written { OnOk result (writes self.old self.new events.items) }
        ensures failed { IfErr result (λ fault.
            fault ≡ attribute FaultKind.Write (failures self.old) (failures self.new)) };
}

/// The sink of a command whose events are not written.
#[derive(Drop)]
pub struct NoEvents {
    /// Where the memory of the command comes from.
    pub alloc: Global,
}

impl EventSink for NoEvents {
    ghost use Rattle.std.specs.Prelude.{false, ⊤};

    ghost has_file = { false };

    ghost writes = { λ before after events. ⊤ };

    ghost failures = { λ sink. 0 };

    fn alloc(&self) -> Global {
        self.alloc
    }

    fn has_file(&self) -> bool {
        false
    }

    fn write(&mut self, _events: Vec<JobEvent>) -> Result<(), Fault> {
        Ok(())
    }
}

/// The file that the events of a command are written to.
pub struct EventsFile<V> {
    /// Where the memory for the events comes from.
    pub alloc: Global,
    /// The file.
    pub file: V,
}

impl<V: Write + Device> EventSink for EventsFile<V> {
    ghost use Rattle.std.specs.Prelude.{true};
    ghost use Rattle.std.specs.Io.KnownBytes.{Appends};
    ghost use Rattle.job_events.specs.Events.{event_fields};
    ghost use Rattle.jobs_csv.specs.PlaceRows.{place_columns};
    ghost use Rattle.jobs_csv.specs.Text.{file_text};

    ghost has_file = { true };

    ghost writes = { λ before after events. Appends (V.contents before.file)
        (V.contents after.file) (file_text place_columns event_fields events) };

    ghost failures = { λ sink. V.failures sink.file };

    fn alloc(&self) -> Global {
        self.alloc
    }

    fn has_file(&self) -> bool {
        true
    }

    fn write(&mut self, events: Vec<JobEvent>) -> Result<(), Fault> {
        jobs_csv::write_rows(self.alloc, &events, &mut self.file)
    }
}
