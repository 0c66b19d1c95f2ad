ghost use Rattle.std.specs.Prelude.{◌≡◌, ◌≢◌, ℕ, ◌^◌, ◌<◌};
ghost use Rattle.cube_shape.specs.Node.{OnPath};
ghost use Rattle.cube_core.specs.Event.{transition, phase_after_raise, note_after_raise, phase_after_zero, note_after_zero, seen_at, seen_note, zero_event, clear_event, cleared_as_seen, retirement};
ghost use Rattle.cube_core.specs.InnerEffect.{IsEffect};

use crate::event::{Event, Kind, Note};
use crate::phase::{Phase, Seen};
use cube_shape::{MAX_DIM, MAX_STATIONS, Node, child_towards, parent, side};
use status_word::Word;

/// The effect of one event: the word that it writes, the next phase of its station, and the event.
#[derive(Clone, Copy)]
pub(crate) struct Effect {
    pub word: u64,
    pub next: Phase,
    pub event: Event,
}

// Returns the phase of the station that takes `node` once it has passed `at`, and the note.
fn rise(node: u64, at: u64) -> (Phase, Note)
    requires { 0 < at }
    ensures phase { result.0 ≡ phase_after_raise node at }
    ensures note { result.1 ≡ note_after_raise at }
{
    if at == 1 {
        (Phase::Holding { node }, Note::Held)
    } else {
        let up = parent(Node(at));
        (Phase::Climbing { node, at: up.0 }, Note::Climb)
    }
}

// Returns the phase of a station on its way up after a Zero that has finished at `at`, and the
// note.
fn leave(at: u64) -> (Phase, Note)
    requires { 0 < at }
    ensures phase { result.0 ≡ phase_after_zero at }
    ensures note { result.1 ≡ note_after_zero at }
{
    if at == 1 {
        (Phase::Idle, Note::Done)
    } else {
        let up = parent(Node(at));
        (Phase::Arriving { at: up.0 }, Note::Climb)
    }
}

// Returns what a station sees of a child with this word, and the note.
fn see(word: u64) -> (Seen, Note)
    ensures seen { result.0 ≡ seen_at word }
    ensures note { result.1 ≡ seen_note word }
{
    let note = if Word(word).is_free() {
        Note::Free
    } else {
        Note::Used
    };
    (Seen::of(Word(word)), note)
}

/// Computes a Look: a load of the node that a take names.
pub(crate) fn look(station: u64, node: u64, word: u64) -> Effect
    ensures { IsEffect (transition station (Phase.Looking node)) word result }
{
    let (next, note) = if Word(word).is_free() {
        (Phase::Looked { node, word }, Note::Free)
    } else {
        (Phase::Idle, Note::InUse)
    };
    let event = Event {
        station,
        kind: Kind::Look,
        node,
        word,
        note,
    };
    Effect { word, next, event }
}

/// Computes a Claim: one compare-exchange of the word that the Look found for that of a claimed
/// node.
pub(crate) fn claim(station: u64, node: u64, seen: u64, word: u64) -> Effect
    requires { 0 < node }
    ensures { IsEffect (transition station (Phase.Looked node seen)) word result }
{
    let (written, next, note) = if word == seen {
        let (next, note) = rise(node, node);
        (Word::BUSY.0, next, note)
    } else {
        (word, Phase::Idle, Note::Lost)
    };
    let event = Event {
        station,
        kind: Kind::Claim,
        node,
        word: written,
        note,
    };
    Effect {
        word: written,
        next,
        event,
    }
}

/// Computes a Sweep: removes all marks of an ancestor.
pub(crate) fn sweep(station: u64, node: u64, at: u64, word: u64) -> Effect
    ensures { IsEffect (transition station (Phase.Climbing node at)) word result }
{
    let written = Word(word).without_marks().0;
    let next = Phase::Swept { node, at };
    let event = Event {
        station,
        kind: Kind::Sweep,
        node: at,
        word: written,
        note: Note::Ok,
    };
    Effect {
        word: written,
        next,
        event,
    }
}

/// Computes a Raise: sets the side of the child towards the node at an ancestor. If the ancestor is
/// occupied, the station rolls back.
pub(crate) fn raise(station: u64, node: u64, at: u64, word: u64) -> Effect
    requires above { at < node }
    requires on_path { OnPath at node }
    ensures { IsEffect (transition station (Phase.Swept node at)) word result }
{
    let child = child_towards(Node(at), Node(node));
    let written = Word(word).with_side(side(child)).0;
    let (next, note) = if Word(word).is_occupied() {
        (Phase::Backing { node, at }, Note::Under)
    } else {
        rise(node, at)
    };
    let event = Event {
        station,
        kind: Kind::Raise,
        node: at,
        word: written,
        note,
    };
    Effect {
        word: written,
        next,
        event,
    }
}

/// Computes a Zero: gives the node back by writing 0.
pub(crate) fn zero(station: u64, node: u64) -> Effect
    requires { 0 < node }
    ensures { (found : ℕ) → IsEffect (zero_event station node) found result }
{
    let written = 0;
    let (next, note) = leave(node);
    let event = Event {
        station,
        kind: Kind::Zero,
        node,
        word: written,
        note,
    };
    Effect {
        word: written,
        next,
        event,
    }
}

/// Computes an Unmark: removes all marks of a node on the way up after a release.
pub(crate) fn unmark(station: u64, at: u64, word: u64) -> Effect
    ensures { IsEffect (transition station (Phase.Arriving at)) word result }
{
    let written = Word(word).without_marks().0;
    let next = Phase::Unmarked { at };
    let event = Event {
        station,
        kind: Kind::Unmark,
        node: at,
        word: written,
        note: Note::Ok,
    };
    Effect {
        word: written,
        next,
        event,
    }
}

/// Computes a Mark: sets the station's mark. If the node is occupied, the station has nothing more
/// to do.
pub(crate) fn mark(station: u64, at: u64, word: u64) -> Effect
    requires { station < MAX_STATIONS }
    ensures { IsEffect (transition station (Phase.Unmarked at)) word result }
{
    let written = Word(word).mark(station as u32).0;
    let (next, note) = if Word(word).is_occupied() {
        (Phase::Idle, Note::Stop)
    } else {
        let next = Phase::Marked {
            at,
            word: written,
            left: Seen::NotYet,
            right: Seen::NotYet,
        };
        (next, Note::Ok)
    };
    let event = Event {
        station,
        kind: Kind::Mark,
        node: at,
        word: written,
        note,
    };
    Effect {
        word: written,
        next,
        event,
    }
}

/// Computes a Child: a load of the left child of the node where the station is marked.
pub(crate) fn look_left(station: u64, at: u64, marked: u64, right: Seen, word: u64) -> Effect
    requires { at < 2 ^ MAX_DIM }
    ensures { IsEffect (transition station (Phase.Marked at marked Seen.NotYet right)) word result }
{
    let (left, note) = see(word);
    let next = Phase::Marked {
        at,
        word: marked,
        left,
        right,
    };
    let event = Event {
        station,
        kind: Kind::Child,
        node: 2 * at,
        word,
        note,
    };
    Effect { word, next, event }
}

/// Computes a Child: a load of the right child, once the left one was seen.
pub(crate) fn look_right(station: u64, at: u64, marked: u64, left: Seen, word: u64) -> Effect
    requires node { at < 2 ^ MAX_DIM }
    requires seen { left ≢ Seen.NotYet }
    ensures { IsEffect (transition station (Phase.Marked at marked left Seen.NotYet)) word result }
{
    let (right, note) = see(word);
    let next = Phase::Marked {
        at,
        word: marked,
        left,
        right,
    };
    let event = Event {
        station,
        kind: Kind::Child,
        node: 2 * at + 1,
        word,
        note,
    };
    Effect { word, next, event }
}

/// Computes a Clear: one compare-exchange of the word that the station's mark made. The new word
/// has no marks, and no side whose child was seen free.
pub(crate) fn clear(
    station: u64,
    at: u64,
    marked: u64,
    left: Seen,
    right: Seen,
    word: u64,
) -> Effect
    requires { 0 < at }
    ensures { IsEffect (clear_event station at marked (cleared_as_seen marked left right)) word
        result }
{
    let cleared = Word(marked).cleared(left.is_free(), right.is_free());
    let (written, next, note) = if word != marked {
        (word, Phase::Idle, Note::Lost)
    } else if cleared.is_free() {
        let (next, note) = leave(at);
        (cleared.0, next, note)
    } else {
        (cleared.0, Phase::Idle, Note::Keep)
    };
    let event = Event {
        station,
        kind: Kind::Clear,
        node: at,
        word: written,
        note,
    };
    Effect {
        word: written,
        next,
        event,
    }
}

/// Computes a Retire: sets the station's bit in the roll.
pub(crate) fn retire(station: u64, word: u64) -> Effect
    requires { station < MAX_STATIONS }
    ensures { IsEffect (retirement station) word result }
{
    let written = word | 1 << station;
    let event = Event {
        station,
        kind: Kind::Retire,
        node: 0,
        word: written,
        note: Note::Retired,
    };
    Effect {
        word: written,
        next: Phase::Retired,
        event,
    }
}
