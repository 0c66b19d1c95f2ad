// Observers of the records of a file while they are read.
ghost use Rattle.std.specs.Prelude.{◌≡◌, ◌+◌, ◌-◌, ◌^◌, ℕ, min};

use crate::format::RowSink;
use std::alloc::AllocError;

/// An observer of the records of a file. It sees one after the other while they are read.
pub trait Observer: Drop {
    // The number of records that it has seen.
    ghost seen: { Self → ℕ };

    /// Sees one more record. The count saturates at `u64::MAX`.
    fn see(&mut self)
        ensures { seen self.new ≡ min (seen self.old + 1) (2 ^ 64 - 1) };
}

/// An observer that counts the records, and does nothing else.
#[derive(Drop)]
pub struct RecordCount {
    pub seen: u64,
}

impl RecordCount {
    /// Creates an observer that has seen no record.
    pub fn new() -> Self
        ensures { result.seen ≡ 0 }
    {
        RecordCount { seen: 0 }
    }
}

impl Observer for RecordCount {
    ghost seen = { λ count. count.seen };

    fn see(&mut self) {
        self.seen = self.seen.saturating_add(1);
    }
}

/// A collection of rows, and an observer that sees each row that is pushed.
#[derive(Drop)]
pub(crate) struct Observed<G, O> {
    pub rows: G,
    pub observer: O,
}

impl<Row: Drop, G: RowSink<Row>, O: Observer> RowSink<Row> for Observed<G, O> {
    ghost use Rattle.std.specs.Prelude.{◌≡◌, ◌-◌, ◌^◌, length, min};

    ghost contents = { λ observed rows. G.contents observed.rows rows
        × (O.seen observed.observer ≡ min (length rows) (2 ^ 64 - 1)) };

    fn push(&mut self, row: Row) -> Result<(), AllocError> {
        self.rows.push(row)?;
        self.observer.see();
        Ok(())
    }
}
