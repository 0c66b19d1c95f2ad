//! The events of a station, one atomic step each.
ghost use Rattle.std.specs.Prelude.{◌≡◌, ◌≢◌, ℕ, ◌+◌, ◌*◌, ◌^◌, ◌<◌, MatchOption, MatchBool, IfNone};
ghost use Rattle.std.specs.Bool.{OnFalse};
ghost use Rattle.cube_shape.specs.Node.{IsInCube, OnPath};
ghost use Rattle.cube_core.specs.Event.{phase_after_raise, phase_after_zero};
ghost use Rattle.tree_steps.specs.Steps.{IsAt, Walks, Answered, begin, first_of, retire_at};
ghost use Rattle.tree_steps.specs.Rule.{others};
ghost use Rattle.tree_steps.specs.Alone.{IsAlone, IsBlocked, HasHolder};
ghost use Rattle.tree_steps.specs.Tree.{id_of, dim_of};

use crate::rule::{Learn, Look, Next, Retire, Zero};
use crate::tree::{Seat, Tree};
use cube_core::{Kind, Note, Phase, Seen};
use cube_shape::{MAX_STATIONS, Node, child_towards, side};
use status_word::Word;

// The bits of use: what remains of a word whose marks are removed.
const USE_BITS: u64 = Word::BUSY.0;

// Returns the bit of a station in the roll, which is no status word.
fn bit_of_retirement(station: u32) -> u64
    requires { station < MAX_STATIONS }
    ensures { result ≡ 2 ^ station }
{
    1 << station
}

impl Tree {
    /// Loads the word of the node to take (event Look). Returns the word if it is free.
    pub fn look(&self, seat: &mut Seat, node: Node) -> Option<u64>
        requires seat { seat.old.table_id ≡ id_of self.now }
        requires phase { IsAt seat.old.me Phase.Idle }
        requires node { IsInCube (dim_of self.now) node.0 }
        ensures seat { seat.new.table_id ≡ seat.old.table_id }
        ensures walks { Walks (begin (Phase.Looking node.0) seat.old.me) seat.new.me }
        ensures phase { MatchOption result (IsAt seat.new.me Phase.Idle)
            (λ word. IsAt seat.new.me (Phase.Looked node.0 word)) }
        ensures refused { IfNone result (Answered Kind.Look node.0 Note.InUse (first_of seat.old.me)
            (first_of seat.new.me)) }
        ensures exact { IsAlone seat.old.me → MatchOption result
            (IsBlocked node.0 (others seat.old.me.0.stations)) (λ word. word ≡ 0) }
    {
        let word = self.table.shared.load::<Look>(seat, node.0 as usize);
        if Word(word).is_free() {
            Some(word)
        } else {
            None
        }
    }

    /// Claims a node: replaces the word that the look found, by one compare-exchange (event Claim).
    /// Returns whether it succeeded.
    pub fn claim(&self, seat: &mut Seat, node: Node, word: u64) -> bool
        requires seat { seat.old.table_id ≡ id_of self.now }
        requires phase { IsAt seat.old.me (Phase.Looked node.0 word) }
        requires node { IsInCube (dim_of self.now) node.0 }
        ensures seat { seat.new.table_id ≡ seat.old.table_id }
        ensures walks { Walks seat.old.me seat.new.me }
        ensures phase { MatchBool result (IsAt seat.new.me (phase_after_raise node.0 node.0))
            (IsAt seat.new.me Phase.Idle) }
        ensures refused { OnFalse result (
            Answered Kind.Claim node.0 Note.Lost (first_of seat.old.me) (first_of seat.new.me)) }
        ensures exact { IsAlone seat.old.me → word ≡ 0
            → OnFalse result (IsBlocked node.0 (others seat.old.me.0.stations)) }
    {
        self.table
            .shared
            .compare_exchange::<Learn>(seat, node.0 as usize, word, Word::BUSY.0)
            == word
    }

    /// Removes all marks of an ancestor, before the side is set there (event Sweep).
    pub fn sweep(&self, seat: &mut Seat, _node: Node, at: Node)
        requires seat { seat.old.table_id ≡ id_of self.now }
        requires phase { IsAt seat.old.me (Phase.Climbing _node.0 at.0) }
        requires node { IsInCube (dim_of self.now) at.0 }
        ensures seat { seat.new.table_id ≡ seat.old.table_id }
        ensures walks { Walks seat.old.me seat.new.me }
        ensures phase { IsAt seat.new.me (Phase.Swept _node.0 at.0) }
    {
        self.table
            .shared
            .fetch_and::<Next>(seat, at.0 as usize, USE_BITS);
    }

    /// Sets the side towards the node at an ancestor (event Raise). Returns whether the ancestor
    /// was not occupied.
    pub fn raise(&self, seat: &mut Seat, node: Node, at: Node) -> bool
        requires seat { seat.old.table_id ≡ id_of self.now }
        requires phase { IsAt seat.old.me (Phase.Swept node.0 at.0) }
        requires node { IsInCube (dim_of self.now) at.0 }
        requires above { at.0 < node.0 }
        requires on_path { OnPath at.0 node.0 }
        ensures seat { seat.new.table_id ≡ seat.old.table_id }
        ensures walks { Walks seat.old.me seat.new.me }
        ensures phase { MatchBool result (IsAt seat.new.me (phase_after_raise node.0 at.0))
            (IsAt seat.new.me (Phase.Backing node.0 at.0)) }
        ensures refused { OnFalse result (Answered Kind.Raise at.0 Note.Under (first_of seat.old.me)
            (first_of seat.new.me)) }
        ensures holder { IsAlone seat.old.me
            → OnFalse result (HasHolder at.0 (others seat.old.me.0.stations)) }
    {
        let bit = Word::side_mask(side(child_towards(at, node)));
        let found = self
            .table
            .shared
            .fetch_or::<Learn>(seat, at.0 as usize, bit.0);
        !Word(found).is_occupied()
    }

    /// Gives back the node of a held block by writing 0 (event Zero).
    pub fn zero_held(&self, seat: &mut Seat, node: Node)
        requires seat { seat.old.table_id ≡ id_of self.now }
        requires phase { IsAt seat.old.me (Phase.Holding node.0) }
        requires node { IsInCube (dim_of self.now) node.0 }
        ensures seat { seat.new.table_id ≡ seat.old.table_id }
        ensures walks { Walks (begin (Phase.Leaving node.0) seat.old.me) seat.new.me }
        ensures phase { IsAt seat.new.me (phase_after_zero node.0) }
    {
        self.table.shared.store::<Zero>(seat, node.0 as usize, 0);
    }

    /// Gives back a node under an occupied ancestor by writing 0 (event Zero).
    pub fn zero_back(&self, seat: &mut Seat, node: Node, _at: Node)
        requires seat { seat.old.table_id ≡ id_of self.now }
        requires phase { IsAt seat.old.me (Phase.Backing node.0 _at.0) }
        requires node { IsInCube (dim_of self.now) node.0 }
        ensures seat { seat.new.table_id ≡ seat.old.table_id }
        ensures walks { Walks seat.old.me seat.new.me }
        ensures phase { IsAt seat.new.me (phase_after_zero node.0) }
    {
        self.table.shared.store::<Next>(seat, node.0 as usize, 0);
    }

    /// Removes all marks of a node on the way up after a release or roll-back (event Unmark).
    pub fn unmark(&self, seat: &mut Seat, at: Node)
        requires seat { seat.old.table_id ≡ id_of self.now }
        requires phase { IsAt seat.old.me (Phase.Arriving at.0) }
        requires node { IsInCube (dim_of self.now) at.0 }
        ensures seat { seat.new.table_id ≡ seat.old.table_id }
        ensures walks { Walks seat.old.me seat.new.me }
        ensures phase { IsAt seat.new.me (Phase.Unmarked at.0) }
    {
        let kept = USE_BITS;
        self.table
            .shared
            .fetch_and::<Next>(seat, at.0 as usize, kept);
    }

    /// Sets the station's mark (event Mark). Returns the word that it made, or `None` if the node
    /// is occupied.
    pub fn mark(&self, seat: &mut Seat, station: u32, at: Node) -> Option<u64>
        requires seat { seat.old.table_id ≡ id_of self.now }
        requires phase { IsAt seat.old.me (Phase.Unmarked at.0) }
        requires station { (first_of seat.old.me).station ≡ station }
        requires limit { station < MAX_STATIONS }
        requires node { IsInCube (dim_of self.now) at.0 }
        ensures seat { seat.new.table_id ≡ seat.old.table_id }
        ensures walks { Walks seat.old.me seat.new.me }
        ensures phase { MatchOption result (IsAt seat.new.me Phase.Idle)
            (λ word. IsAt seat.new.me (Phase.Marked at.0 word Seen.NotYet Seen.NotYet)) }
    {
        let bit = Word::mark_mask(station);
        let found = self
            .table
            .shared
            .fetch_or::<Next>(seat, at.0 as usize, bit.0);
        if Word(found).is_occupied() {
            None
        } else {
            Some(found | bit.0)
        }
    }

    /// Loads the left child of the node where the station is marked (event Child).
    pub fn look_left(&self, seat: &mut Seat, at: Node, _word: u64) -> Seen
        requires seat { seat.old.table_id ≡ id_of self.now }
        requires phase { IsAt seat.old.me (Phase.Marked at.0 _word Seen.NotYet Seen.NotYet) }
        requires node { 2 * at.0 + 1 < 2 ^ (dim_of self.now + 1) }
        ensures seat { seat.new.table_id ≡ seat.old.table_id }
        ensures walks { Walks seat.old.me seat.new.me }
        ensures phase { IsAt seat.new.me (Phase.Marked at.0 _word result Seen.NotYet) }
        ensures seen { result ≢ Seen.NotYet }
    {
        Seen::of(Word(self.table.shared.load::<Next>(seat, 2 * at.0 as usize)))
    }

    /// Loads the right child, once the left one was seen (event Child).
    pub fn look_right(&self, seat: &mut Seat, at: Node, _word: u64, _left: Seen) -> Seen
        requires seat { seat.old.table_id ≡ id_of self.now }
        requires phase { IsAt seat.old.me (Phase.Marked at.0 _word _left Seen.NotYet) }
        requires left { _left ≢ Seen.NotYet }
        requires node { 2 * at.0 + 1 < 2 ^ (dim_of self.now + 1) }
        ensures seat { seat.new.table_id ≡ seat.old.table_id }
        ensures walks { Walks seat.old.me seat.new.me }
        ensures phase { IsAt seat.new.me (Phase.Marked at.0 _word _left result) }
        ensures seen { result ≢ Seen.NotYet }
    {
        Seen::of(Word(self.table.shared.load::<Next>(seat, 2 * at.0 as usize + 1)))
    }

    /// Replaces the word that the mark made, by one compare-exchange (event Clear). The new word
    /// has no marks, and no side whose child was seen free. Returns whether the node became free by
    /// this.
    pub fn clear(&self, seat: &mut Seat, at: Node, word: u64, left: Seen, right: Seen) -> bool
        requires seat { seat.old.table_id ≡ id_of self.now }
        requires phase { IsAt seat.old.me (Phase.Marked at.0 word left right) }
        requires left { left ≢ Seen.NotYet }
        requires right { right ≢ Seen.NotYet }
        requires node { IsInCube (dim_of self.now) at.0 }
        ensures seat { seat.new.table_id ≡ seat.old.table_id }
        ensures walks { Walks seat.old.me seat.new.me }
        ensures phase { MatchBool result (IsAt seat.new.me (phase_after_zero at.0))
            (IsAt seat.new.me Phase.Idle) }
    {
        let cleared = Word(word).cleared(left.is_free(), right.is_free());
        let found = self
            .table
            .shared
            .compare_exchange::<Next>(seat, at.0 as usize, word, cleared.0);
        let won = found == word;
        let free = cleared.is_free();
        won & free
    }

    /// Sets the bit of an idle station in the roll (event Retire). The station makes no further
    /// event.
    pub fn retire(&self, seat: &mut Seat, station: u32)
        requires seat { seat.old.table_id ≡ id_of self.now }
        requires phase { IsAt seat.old.me Phase.Idle }
        requires station { (first_of seat.old.me).station ≡ station }
        requires limit { station < MAX_STATIONS }
        ensures seat { seat.new.table_id ≡ seat.old.table_id }
        ensures retires { (found : ℕ) × (seat.new.me ≡ retire_at found seat.old.me) }
    {
        let bit = bit_of_retirement(station);
        self.table.shared.fetch_or::<Retire>(seat, 0, bit);
    }
}
