// Reading a file of a schedule: calls and steps of stations.
ghost use Rattle.std.specs.Prelude.{◌≡◌, [], ◌∷◌, All, IfOk, IfErr, IfSome};
ghost use Rattle.csv.specs.Records.{fields_of};
ghost use Rattle.jobs_csv.specs.Columns.{header_of};
ghost use Rattle.jobs_csv.specs.Fault.{IsInputFault};
ghost use Rattle.jobs_csv.specs.Inner.Columns.{schedule_columns};
ghost use Rattle.jobs_csv.specs.Inner.Parse.{ReturnsParse};
ghost use Rattle.jobs_csv.specs.Outcome.{ReturnsFile};
ghost use Rattle.jobs_csv.specs.Schedule.{HasValidCount, keyword_line, parse_schedule, schedule_line};

use crate::columns::{self, ThreeFields};
use crate::fault::{Fault, FaultKind};
use crate::fields;
use crate::format::{self, Format};
use csv::ByteRecord;
use devices::Device;
use std::alloc::Global;
use std::io::Read;

/// The most steps of one line of a schedule.
pub const MAX_STEPS: u64 = 100;

/// One line of a schedule: a call of a station, or steps of it.
#[derive(Clone, Copy, Debug, PartialEq, Eq)]
pub enum Line {
    /// The station begins to take the block of a node.
    Take { station: u64, node: u64 },
    /// The station begins to release its block.
    Release { station: u64 },
    /// The station makes `times` steps, from 1 to `MAX_STEPS`.
    Step { station: u64, times: u64 },
    /// The station makes steps until it is at rest.
    Run { station: u64 },
    /// The station retires.
    Retire { station: u64 },
}

// The format of schedules.
#[derive(Clone, Copy)]
pub(crate) struct Schedule;

// Reads the line of a station with this keyword and this last field.
#[tactic(auto, unfolding(crate::specs::Schedule::keyword_line))]
fn read_call(station: u64, keyword: &[u8], arg: &[u8]) -> Result<Line, FaultKind>
    ensures parse { ReturnsParse (λ line. line) (keyword_line station keyword.now arg.now) result }
    ensures times { IfOk result (λ line. HasValidCount line) }
{
    if keyword == b"take".as_slice() {
        let node = fields::any_number(arg)?;
        return Ok(Line::Take { station, node });
    }
    if keyword == b"release".as_slice() {
        fields::dash(arg)?;
        return Ok(Line::Release { station });
    }
    if keyword == b"step".as_slice() {
        let times = fields::number_within(arg, 1, MAX_STEPS)?;
        return Ok(Line::Step { station, times });
    }
    if keyword == b"run".as_slice() {
        fields::dash(arg)?;
        return Ok(Line::Run { station });
    }
    if keyword == b"retire".as_slice() {
        fields::dash(arg)?;
        return Ok(Line::Retire { station });
    }
    Err(FaultKind::Word)
}

// Reads the line of three fields.
#[tactic(auto, unfolding(crate::specs::Schedule::schedule_line))]
fn read_fields(three: &ThreeFields<'_>) -> Result<Line, FaultKind>
    ensures parse { ReturnsParse (λ line. line) (schedule_line (three.now.first.now
        ∷ three.now.second.now ∷ three.now.third.now ∷ [])) result }
    ensures times { IfOk result (λ line. HasValidCount line) }
{
    let station = fields::any_number(three.first)?;
    read_call(station, three.second, three.third)
}

impl Format for Schedule {
    type Row = Line;

    ghost header_of = { header_of schedule_columns };

    ghost row_of = { λ _. schedule_line };

    ghost is_row = { λ _. HasValidCount };

    fn header(&self, row: &ByteRecord) -> Result<(), FaultKind> {
        columns::three_header(
            row,
            b"station".as_slice(),
            b"call".as_slice(),
            b"arg".as_slice(),
        )
    }

    fn row(&self, _alloc: Global, row: &ByteRecord) -> Result<Line, FaultKind> {
        match columns::three_fields(row) {
            Some(three) => read_fields(&three),
            None => return Err(FaultKind::Fields),
        }
    }
}

/// Reads the lines of a whole schedule.
///
/// Reads at most `MAX_RECORDS + 1` records after the header.
///
/// # Errors
///
/// A refusal is the first fault of the file. Returns `Read` only if the reader's count of failed
/// calls rose in this call, or was `u64::MAX` before it. Any other failure is `OutOfMemory`.
pub fn read_schedule<R: Read + Device>(alloc: Global, reader: &mut R) -> Result<Vec<Line>, Fault>
    ensures parse { IfSome (R.remaining reader.old) (λ bytes.
        ReturnsFile (parse_schedule bytes) result) }
    ensures times { IfOk result (λ lines. All (λ line. HasValidCount line) lines.items) }
    ensures failed { IfErr result (IsInputFault (R.failures reader.old) (R.failures reader.new)) }
{
    format::read_list(alloc, &Schedule, reader)
}
