// An entry that is not settled: from the step that makes it to the step that settles or undoes it.
ghost use Rattle.std.specs.Prelude.{◌≡◌};

use std::marker::Model;

/// An entry that its lane has made and not settled. Only `Gate::enter` makes one. It cannot be
/// dropped. Contracts see its number.
pub struct Entered {
    pub(crate) number: u64,
}

impl Model for Entered {
    ghost use Rattle.std.specs.Prelude.{ℕ};

    ghost Value = { ℕ };

    ghost view = { λ entered. entered.number };
}

/// An entry that its lane made after the close and has not undone. Only `Gate::enter` makes one. It
/// cannot be dropped. Contracts see the count of entries that it found.
pub struct EnteredLate {
    pub(crate) seen: u64,
}

impl Model for EnteredLate {
    ghost use Rattle.std.specs.Prelude.{ℕ};

    ghost Value = { ℕ };

    ghost view = { λ late. late.seen };
}

impl Entered {
    /// Returns the number of entries that all lanes made before this one.
    pub fn number(&self) -> u64
        ensures { result ≡ self.now }
    {
        self.number
    }
}

/// The outcome of a push outside the gate. It contains the entry, and a settle consumes both.
pub trait Pushed {
    ghost use Rattle.std.specs.Prelude.{ℕ};

    // The number of the entry.
    ghost entry: { Self → ℕ };

    /// Returns the entry.
    fn into_entry(self) -> Entered
        ensures { result ≡ entry self };
}
