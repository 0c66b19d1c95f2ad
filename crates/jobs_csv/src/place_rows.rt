// The rows that answer commands.
ghost use Rattle.std.specs.Prelude.{◌≡◌};
ghost use Rattle.jobs_csv.specs.Inner.Rows.{base_in, command_text, dim_in, name_in, outcome_text};
ghost use Rattle.jobs_csv.specs.Text.{IsPlainField};

use crate::name::Name;
use crate::row::{Row, RowFields};
use std::alloc::{AllocError, Global};

/// A row that answers a command.
#[derive(Clone, Copy, Debug, PartialEq, Eq)]
pub enum PlaceRow {
    /// The name now holds the block of dimension `dim` that begins at `base`.
    Given { name: Name, dim: u32, base: u64 },
    /// The name already holds a block.
    Held { name: Name, dim: u32 },
    /// Each station holds a block.
    NoStation { name: Name, dim: u32 },
    /// No block of this dimension is free.
    NoSubcube { name: Name, dim: u32 },
    /// The block of dimension `dim` that begins at `base` is free again.
    Freed { name: Name, dim: u32, base: u64 },
    /// The name holds nothing.
    NothingHeld { name: Name },
}

impl PlaceRow {
    // Returns the keyword of the command.
    #[tactic(auto, using(crate::proofs::PlainLemmas::plain_command))]
    fn command(&self) -> &'static str
        ensures text { result.now ≡ command_text self.now }
        ensures plain { IsPlainField (command_text self.now) }
    {
        match self {
            PlaceRow::Given { .. }
            | PlaceRow::Held { .. }
            | PlaceRow::NoStation { .. }
            | PlaceRow::NoSubcube { .. } => "take",
            PlaceRow::Freed { .. } | PlaceRow::NothingHeld { .. } => "free",
        }
    }

    fn name(&self) -> Name
        ensures { result ≡ name_in self.now }
    {
        match *self {
            PlaceRow::Given { name, .. }
            | PlaceRow::Held { name, .. }
            | PlaceRow::NoStation { name, .. }
            | PlaceRow::NoSubcube { name, .. }
            | PlaceRow::Freed { name, .. }
            | PlaceRow::NothingHeld { name } => name,
        }
    }

    // Returns the dimension of the block, if the row has one.
    fn dim(&self) -> Option<u64>
        ensures { result ≡ dim_in self.now }
    {
        match *self {
            PlaceRow::Given { dim, .. }
            | PlaceRow::Held { dim, .. }
            | PlaceRow::NoStation { dim, .. }
            | PlaceRow::NoSubcube { dim, .. }
            | PlaceRow::Freed { dim, .. } => Some(u64::from(dim)),
            PlaceRow::NothingHeld { .. } => None,
        }
    }

    // Returns the base of the block that was given or freed, if one was.
    fn base(&self) -> Option<u64>
        ensures { result ≡ base_in self.now }
    {
        match *self {
            PlaceRow::Given { base, .. } | PlaceRow::Freed { base, .. } => Some(base),
            _ => None,
        }
    }

    // Returns the keyword of the outcome.
    #[tactic(auto, using(crate::proofs::PlainLemmas::plain_outcome))]
    fn outcome(&self) -> &'static str
        ensures text { result.now ≡ outcome_text self.now }
        ensures plain { IsPlainField (outcome_text self.now) }
    {
        match self {
            PlaceRow::Given { .. } => "given",
            PlaceRow::Held { .. } => "held",
            PlaceRow::NoStation { .. } => "nostation",
            PlaceRow::NoSubcube { .. } => "nosubcube",
            PlaceRow::Freed { .. } => "freed",
            PlaceRow::NothingHeld { .. } => "nothingheld",
        }
    }
}

impl Row for PlaceRow {
    ghost use Rattle.jobs_csv.specs.PlaceRows.{place_columns, place_fields};

    ghost columns = { place_columns };

    ghost fields = { place_fields };

    #[tactic(auto, using(crate::proofs::PlainLemmas::plain_text))]
    fn push_columns(line: &mut RowFields) -> Result<(), AllocError> {
        line.push_text(b"command".as_slice())?;
        line.push_text(b"name".as_slice())?;
        line.push_text(b"dim".as_slice())?;
        line.push_text(b"base".as_slice())?;
        line.push_text(b"outcome".as_slice())
    }

    #[tactic(auto, using(crate::proofs::PlainLemmas::plain_name))]
    fn push_fields(&self, _alloc: Global, line: &mut RowFields) -> Result<(), AllocError> {
        line.push_text(self.command().as_bytes())?;
        line.push_text(self.name().text())?;
        line.push_number_or_dash(self.dim())?;
        line.push_number_or_dash(self.base())?;
        line.push_text(self.outcome().as_bytes())
    }
}
