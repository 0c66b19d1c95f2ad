// The rows of the replay of a schedule.
ghost use Rattle.std.specs.Prelude.{◌≡◌, ◌∷◌, [], ◌++◌, IfOk, OnOk, string_bytes};
ghost use Rattle.jobs_csv.specs.Inner.Rows.{end_text, event_text, node_in, station_in, word_in};
ghost use Rattle.jobs_csv.specs.ReplayRows.{event_keyword, node_word_text, note_keyword, reason_keyword};
ghost use Rattle.jobs_csv.specs.Text.{IsPlainField};

use crate::row::{Row, RowFields};
use cube_core::{Event, Kind, Note, Refused};
use status_word::Word;
use std::alloc::{AllocError, Global};

/// A row of the replay of a schedule.
#[derive(Clone, Copy, Debug, PartialEq, Eq)]
pub enum ReplayRow {
    /// A station made an event.
    Made {
        event: Event,
    },
    /// A call of a station was refused. `node` is the node of a take.
    Refused {
        station: u64,
        node: Option<u64>,
        why: Refused,
    },
    /// The word of a node at the end.
    Word {
        node: u64,
        word: u64,
    },
    /// The number of nodes whose word is not 0 at the end.
    End {
        count: u64,
    },
}

// Returns the keyword of an event.
#[tactic(auto, using(crate::proofs::PlainLemmas::plain_event))]
fn event_keyword(kind: Kind) -> &'static str
    ensures text { result.now ≡ event_keyword kind }
    ensures plain { IsPlainField (event_keyword kind) }
{
    match kind {
        Kind::Look => "look",
        Kind::Claim => "claim",
        Kind::Sweep => "sweep",
        Kind::Raise => "raise",
        Kind::Zero => "zero",
        Kind::Unmark => "unmark",
        Kind::Mark => "mark",
        Kind::Child => "child",
        Kind::Clear => "clear",
        Kind::Retire => "retire",
    }
}

// Returns the keyword of how an event ended.
#[tactic(auto, using(crate::proofs::PlainLemmas::plain_note))]
fn note_keyword(note: Note) -> &'static str
    ensures text { result.now ≡ note_keyword note }
    ensures plain { IsPlainField (note_keyword note) }
{
    match note {
        Note::Free => "free",
        Note::InUse => "inuse",
        Note::Lost => "lost",
        Note::Climb => "climb",
        Note::Held => "held",
        Note::Ok => "ok",
        Note::Under => "under",
        Note::Done => "done",
        Note::Stop => "stop",
        Note::Used => "used",
        Note::Keep => "keep",
        Note::Retired => "retired",
    }
}

// Returns the keyword of a refusal.
#[tactic(auto, using(crate::proofs::PlainLemmas::plain_why))]
fn reason_keyword(why: Refused) -> &'static str
    ensures text { result.now ≡ reason_keyword why }
    ensures plain { IsPlainField (reason_keyword why) }
{
    match why {
        Refused::NotIdle => "notidle",
        Refused::NotHolding => "notholding",
        Refused::NoStation => "nostation",
        Refused::NotInCube => "notincube",
        Refused::Resting => "resting",
    }
}

// Returns the text of a node's word, or a dash for the roll, which is no node.
#[tactic(auto, using(crate::proofs::PlainLemmas::plain_node_word))]
fn node_word(alloc: Global, node: u64, word: u64) -> Result<String, AllocError>
    ensures text { IfOk result (λ text. string_bytes text ≡ node_word_text node word) }
    ensures plain { IsPlainField (node_word_text node word) }
{
    if node == 0 {
        String::from_str(alloc, "-")
    } else {
        Word(word).show(alloc)
    }
}

impl ReplayRow {
    // Returns the station of the row, if it has one.
    fn station(&self) -> Option<u64>
        ensures { result ≡ station_in self.now }
    {
        match *self {
            ReplayRow::Made { event } => Some(event.station),
            ReplayRow::Refused { station, .. } => Some(station),
            ReplayRow::Word { .. } | ReplayRow::End { .. } => None,
        }
    }

    // Returns the keyword of what happened.
    fn event(&self) -> &'static str
        ensures text { result.now ≡ event_text self.now }
        ensures plain { IsPlainField (event_text self.now) }
    {
        match *self {
            ReplayRow::Made { event } => event_keyword(event.kind),
            ReplayRow::Refused { .. } => "refused",
            ReplayRow::Word { .. } | ReplayRow::End { .. } => "end",
        }
    }

    // Returns the node of the row, if it has one.
    fn node(&self) -> Option<u64>
        ensures { result ≡ node_in self.now }
    {
        match *self {
            ReplayRow::Made { event } => Some(event.node),
            ReplayRow::Refused { node, .. } => node,
            ReplayRow::Word { node, .. } => Some(node),
            ReplayRow::End { .. } => None,
        }
    }

    // Returns the text of the node's word, or a dash.
    fn word(&self, alloc: Global) -> Result<String, AllocError>
        ensures text { IfOk result (λ text. string_bytes text ≡ word_in self.now) }
        ensures plain { IsPlainField (word_in self.now) }
    {
        match *self {
            ReplayRow::Made { event } => node_word(alloc, event.node, event.word),
            ReplayRow::Word { node, word } => node_word(alloc, node, word),
            ReplayRow::Refused { .. } | ReplayRow::End { .. } => String::from_str(alloc, "-"),
        }
    }

    // Pushes the last field: how the event ended, why the call was refused, or the count.
    fn push_note(&self, line: &mut RowFields) -> Result<(), AllocError>
        ensures { OnOk result (line.new ≡ line.old ++ end_text self.now ∷ []) }
    {
        match *self {
            ReplayRow::Made { event } => {
                return line.push_text(note_keyword(event.note).as_bytes());
            }
            ReplayRow::Refused { why, .. } => {
                return line.push_text(reason_keyword(why).as_bytes());
            }
            ReplayRow::Word { .. } => return line.push_number_or_dash(None),
            ReplayRow::End { count } => return line.push_number(count),
        }
    }
}

impl Row for ReplayRow {
    ghost use Rattle.jobs_csv.specs.ReplayRows.{replay_columns, replay_fields};

    ghost columns = { replay_columns };

    ghost fields = { replay_fields };

    #[tactic(auto, using(crate::proofs::PlainLemmas::plain_text))]
    fn push_columns(line: &mut RowFields) -> Result<(), AllocError> {
        line.push_text(b"station".as_slice())?;
        line.push_text(b"event".as_slice())?;
        line.push_text(b"node".as_slice())?;
        line.push_text(b"word".as_slice())?;
        line.push_text(b"note".as_slice())
    }

    fn push_fields(&self, alloc: Global, line: &mut RowFields) -> Result<(), AllocError> {
        let word = self.word(alloc)?;
        line.push_number_or_dash(self.station())?;
        line.push_text(self.event().as_bytes())?;
        line.push_number_or_dash(self.node())?;
        line.push_text(word.as_bytes())?;
        self.push_note(line)
    }
}
