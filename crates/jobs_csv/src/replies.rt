// The rows of the replies.
ghost use Rattle.std.specs.Prelude.{◌≡◌, ◌∷◌, [], ◌++◌, ◌==◌, length, IfOk, OnOk, string_bytes, if◌then◌else◌};
ghost use Rattle.jobs_csv.specs.Replies.{collective_keyword, places_text};
ghost use Rattle.jobs_csv.specs.Text.{IsPlainField, number_text};

use crate::row::{Row, RowFields};
use itoa::Buffer;
use job_types::{Kind, Reply};
use std::alloc::{AllocError, Global};

// Returns the keyword of a collective.
#[tactic(auto, using(crate::proofs::PlainLemmas::plain_collective))]
fn kind_keyword(kind: Kind) -> &'static str
    ensures text { result.now ≡ collective_keyword kind }
    ensures plain { IsPlainField (collective_keyword kind) }
{
    match kind {
        Kind::Broadcast { .. } => "broadcast",
        Kind::Reduce { .. } => "reduce",
        Kind::AllReduce { .. } => "allreduce",
        Kind::Scan { .. } => "scan",
        Kind::ExScan { .. } => "exscan",
    }
}

// Appends a number, or a dash for nothing.
fn push_item(text: &mut String, item: Option<u64>) -> Result<(), AllocError>
    ensures text { OnOk result (string_bytes text.new ≡ string_bytes text.old ++ number_text item) }
    ensures plain { IsPlainField (number_text item) }
{
    match item {
        Some(item) => {
            let mut digits = Buffer::new();
            return text.push_str(digits.format(item));
        }
        None => return text.push_str("-"),
    }
}

// Appends the item at the place of a rank, with a space before it if it is not the first.
fn push_place(text: &mut String, rank: u64, item: Option<u64>) -> Result<(), AllocError>
    ensures text { OnOk result (string_bytes text.new ≡ string_bytes text.old
        ++ ((if rank == 0 then [] else 32 ∷ []) ++ number_text item)) }
    ensures plain { OnOk result (IsPlainField (number_text item)) }
{
    if rank > 0 {
        text.push_str(" ")?;
    }
    push_item(text, item)?;
    Ok(())
}

// Appends what the places hold at the end to an empty text, by rank, with a space between each two.
fn places(mut text: String, reply: &Reply) -> Result<String, AllocError>
    requires empty { string_bytes text ≡ [] }
    ensures text { IfOk result (λ text. string_bytes text
        ≡ places_text (length reply.now.job.items) reply.now.job) }
    ensures plain { IfOk result (λ text. IsPlainField (string_bytes text)) }
{
    let ranks = reply.job().items().len() as u64;
    for rank in 0..ranks {
        push_place(&mut text, rank, reply.at(rank))?;
    }
    Ok(text)
}

impl Row for Reply {
    ghost use Rattle.jobs_csv.specs.Replies.{reply_columns, reply_fields};

    ghost columns = { reply_columns };

    ghost fields = { reply_fields };

    #[tactic(auto, using(crate::proofs::PlainLemmas::plain_text))]
    fn push_columns(line: &mut RowFields) -> Result<(), AllocError> {
        line.push_text(b"lane".as_slice())?;
        line.push_text(b"seq".as_slice())?;
        line.push_text(b"kind".as_slice())?;
        line.push_text(b"dim".as_slice())?;
        line.push_text(b"result".as_slice())?;
        line.push_text(b"rounds".as_slice())?;
        line.push_text(b"messages".as_slice())
    }

    fn push_fields(&self, alloc: Global, line: &mut RowFields) -> Result<(), AllocError> {
        let id = self.id();
        let tally = self.tally();
        let items = places(line.take_room(alloc), self)?;
        line.push_number(u64::from(id.lane))?;
        line.push_number(id.seq)?;
        line.push_text(kind_keyword(self.job().kind()).as_bytes())?;
        line.push_number(u64::from(self.job().dim()))?;
        line.push_text(items.as_bytes())?;
        line.put_room(items);
        line.push_number(u64::from(tally.rounds))?;
        line.push_number(tally.messages)
    }
}
