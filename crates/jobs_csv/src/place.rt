// Reading a file of commands over names.
ghost use Rattle.std.specs.Prelude.{◌≡◌, [], ◌∷◌, ◌≤◌, All, IfOk, IfErr, IfSome};
ghost use Rattle.csv.specs.Records.{fields_of};
ghost use Rattle.jobs_csv.specs.Columns.{header_of};
ghost use Rattle.jobs_csv.specs.Fault.{IsInputFault};
ghost use Rattle.jobs_csv.specs.Inner.Columns.{command_columns};
ghost use Rattle.jobs_csv.specs.Inner.Parse.{ReturnsParse};
ghost use Rattle.jobs_csv.specs.Outcome.{ReturnsFile};
ghost use Rattle.jobs_csv.specs.Place.{Fits, command_of, parse_commands, name_of};

use crate::columns::{self, ThreeFields};
use crate::fault::{Fault, FaultKind};
use crate::fields;
use crate::format::{self, Format};
use crate::name::Name;
use csv::ByteRecord;
use devices::Device;
use std::alloc::Global;
use std::io::Read;

/// A command over a name.
#[derive(Clone, Copy, Debug, PartialEq, Eq)]
pub enum Command {
    /// Take a block of dimension `dim` and hold it under a name.
    Take { name: Name, dim: u32 },
    /// Release the block of a name.
    Free { name: Name },
}

// The format of commands, for a machine of this dimension.
#[derive(Clone, Copy)]
pub(crate) struct Commands {
    pub n: u32,
}

#[tactic(auto, unfolding(crate::specs::Place::name_of))]
fn read_name(field: &[u8]) -> Result<Name, FaultKind>
    ensures { ReturnsParse (λ name. name) (name_of field.now) result }
{
    Name::new(field).ok_or(FaultKind::Word)
}

// Reads the command of three fields.
#[tactic(auto, unfolding(crate::specs::Place::command_of))]
fn read_fields(n: u32, three: &ThreeFields<'_>) -> Result<Command, FaultKind>
    ensures parse { ReturnsParse (λ command. command) (command_of n (three.now.first.now
        ∷ three.now.second.now ∷ three.now.third.now ∷ [])) result }
    ensures fits { IfOk result (λ command. Fits n command) }
{
    if three.first == b"take".as_slice() {
        let name = read_name(three.second)?;
        let dim = fields::number_within(three.third, 0, u64::from(n))? as u32;
        return Ok(Command::Take { name, dim });
    }
    if three.first == b"free".as_slice() {
        let name = read_name(three.second)?;
        fields::dash(three.third)?;
        return Ok(Command::Free { name });
    }
    Err(FaultKind::Word)
}

impl Format for Commands {
    type Row = Command;

    ghost header_of = { header_of command_columns };

    ghost row_of = { λ commands. command_of commands.n };

    ghost is_row = { λ commands. Fits commands.n };

    fn header(&self, row: &ByteRecord) -> Result<(), FaultKind> {
        columns::three_header(
            row,
            b"command".as_slice(),
            b"name".as_slice(),
            b"dim".as_slice(),
        )
    }

    fn row(&self, _alloc: Global, row: &ByteRecord) -> Result<Command, FaultKind> {
        match columns::three_fields(row) {
            Some(three) => read_fields(self.n, &three),
            None => return Err(FaultKind::Fields),
        }
    }
}

/// Reads the commands of a whole file, for a machine of dimension `n`.
///
/// Reads at most `MAX_RECORDS + 1` records after the header.
///
/// # Errors
///
/// A refusal is the first fault of the file. Returns `Read` only if the reader's count of failed
/// calls rose in this call, or was `u64::MAX` before it. Any other failure is `OutOfMemory`.
pub fn read_place<R: Read + Device>(
    alloc: Global,
    n: u32,
    reader: &mut R,
) -> Result<Vec<Command>, Fault>
    ensures parse { IfSome (R.remaining reader.old) (λ bytes.
        ReturnsFile (parse_commands n bytes) result) }
    ensures fits { IfOk result (λ commands. All (λ command. Fits n command) commands.items) }
    ensures failed { IfErr result (IsInputFault (R.failures reader.old) (R.failures reader.new)) }
{
    format::read_list(alloc, &Commands { n }, reader)
}
