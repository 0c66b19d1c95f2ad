// An event of a run, and its row.
ghost use Rattle.std.specs.Prelude.{◌≡◌, ◌++◌, [], IfOk, OnOk, string_bytes};
ghost use Rattle.std.specs.Fmt.{decimal};
ghost use Rattle.job_events.specs.Events.{job_name};
ghost use Rattle.job_events.specs.Inner.{command_text, outcome_text};
ghost use Rattle.jobs_csv.specs.Text.{IsPlainField};

use itoa::Buffer;
use job_types::JobId;
use jobs_csv::{Row, RowFields};
use std::alloc::{AllocError, Global};

/// What a job does with its block.
#[derive(Clone, Copy, Debug, PartialEq, Eq)]
pub enum Step {
    /// The job takes the block.
    Take,
    /// The job frees the block.
    Free,
}

/// An event of a run: a job takes its block, or frees it.
///
/// It has 24 bytes, since a run has two events for each job.
#[derive(Clone, Copy, Debug, PartialEq, Eq)]
pub struct JobEvent {
    /// The event's number. An earlier event has a smaller one.
    pub number: u64,
    /// The job's number among those of its lane, from 0 on.
    pub seq: u64,
    /// The lane of the job's id.
    pub lane: u32,
    /// The least processor of the block.
    pub base: u16,
    /// The dimension of the block.
    pub dim: u8,
    /// What the job does.
    pub step: Step,
}

const _: () = prove!(size_of::<JobEvent>() == 24);

// Appends a number in decimal digits.
fn push_number(text: &mut String, number: u64) -> Result<(), AllocError>
    ensures { OnOk result (string_bytes text.new ≡ string_bytes text.old ++ decimal number) }
{
    let mut digits = Buffer::new();
    text.push_str(digits.format(number))
}

// Appends the name of a job to an empty text.
fn job_name(mut name: String, id: JobId) -> Result<String, AllocError>
    requires { string_bytes name ≡ [] }
    ensures name { IfOk result (λ name. string_bytes name ≡ job_name id) }
    ensures plain { OnOk result (IsPlainField (job_name id)) }
{
    name.push_str("l")?;
    push_number(&mut name, u64::from(id.lane))?;
    name.push_str("s")?;
    push_number(&mut name, id.seq)?;
    Ok(name)
}

impl JobEvent {
    // Returns the id of the job.
    fn id(&self) -> JobId
        ensures lane { result.lane ≡ self.now.lane }
        ensures seq { result.seq ≡ self.now.seq }
    {
        JobId {
            lane: self.lane,
            seq: self.seq,
        }
    }

    // Returns the keyword of the command.
    #[tactic(auto, using(crate::proofs::EventLemmas::plain_command))]
    fn command(&self) -> &'static str
        ensures text { result.now ≡ command_text self.now.step }
        ensures plain { IsPlainField (command_text self.now.step) }
    {
        match self.step {
            Step::Take => "take",
            Step::Free => "free",
        }
    }

    // Returns the keyword of the outcome.
    #[tactic(auto, using(crate::proofs::EventLemmas::plain_outcome))]
    fn outcome(&self) -> &'static str
        ensures text { result.now ≡ outcome_text self.now.step }
        ensures plain { IsPlainField (outcome_text self.now.step) }
    {
        match self.step {
            Step::Take => "given",
            Step::Free => "freed",
        }
    }
}

impl Row for JobEvent {
    ghost use Rattle.jobs_csv.specs.PlaceRows.{place_columns};
    ghost use Rattle.job_events.specs.Events.{event_fields};

    ghost columns = { place_columns };

    ghost fields = { event_fields };

    #[tactic(auto, using(jobs_csv::proofs::PlainLemmas::plain_text))]
    fn push_columns(line: &mut RowFields) -> Result<(), AllocError> {
        line.push_text(b"command".as_slice())?;
        line.push_text(b"name".as_slice())?;
        line.push_text(b"dim".as_slice())?;
        line.push_text(b"base".as_slice())?;
        line.push_text(b"outcome".as_slice())
    }

    fn push_fields(&self, alloc: Global, line: &mut RowFields) -> Result<(), AllocError> {
        let name = job_name(line.take_room(alloc), self.id())?;
        line.push_text(self.command().as_bytes())?;
        line.push_text(name.as_bytes())?;
        line.put_room(name);
        line.push_number(u64::from(self.dim))?;
        line.push_number(u64::from(self.base))?;
        line.push_text(self.outcome().as_bytes())
    }
}
