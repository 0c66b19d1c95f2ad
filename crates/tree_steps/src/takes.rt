//! Takes and releases, event by event.
ghost use Rattle.std.specs.Prelude.{◌≡◌, ◌+◌, ◌*◌, ◌^◌, ◌<◌, MatchBool, MatchOption, MatchResult, IfSome, IfErr, OnErr};
ghost use Rattle.std.specs.Bool.{OnFalse};
ghost use Rattle.cube_shape.specs.Node.{IsInCube, OnPath};
ghost use Rattle.cube_core.specs.Event.{phase_after_raise, phase_after_zero};
ghost use Rattle.tree_steps.specs.Steps.{IsAt, Walks, Answered, begin, first_of};
ghost use Rattle.tree_steps.specs.Answer.{IsAnswered, ancestor_of};
ghost use Rattle.tree_steps.specs.Rule.{others};
ghost use Rattle.tree_steps.specs.Alone.{IsAlone, IsBlocked, HasHolder};
ghost use Rattle.tree_steps.specs.Tree.{id_of, dim_of};

use crate::tree::{Seat, Tree};
use crate::why::Why;
use cube_core::{Kind, Note, Phase};
use cube_shape::{MAX_STATIONS, Node, parent};

impl Tree {
    /// Makes one take of a node. If an ancestor is occupied, the node is given back at once.
    ///
    /// With a seat that has all stations, it is refused only if another station holds a node above
    /// it, at it or under it. If the refusal names an ancestor, another station holds this
    /// ancestor.
    pub fn take(&self, seat: &mut Seat, station: u32, node: Node) -> Result<(), Why>
        requires seat { seat.old.table_id ≡ id_of self.now }
        requires phase { IsAt seat.old.me Phase.Idle }
        requires station { (first_of seat.old.me).station ≡ station }
        requires limit { station < MAX_STATIONS }
        requires node { IsInCube (dim_of self.now) node.0 }
        ensures seat { seat.new.table_id ≡ seat.old.table_id }
        ensures walks { Walks (begin (Phase.Looking node.0) seat.old.me) seat.new.me }
        ensures phase { MatchResult result (λ _. IsAt seat.new.me (Phase.Holding node.0)) (λ _.
            IsAt seat.new.me Phase.Idle) }
        ensures refused { IfErr result (λ why.
            IsAnswered why node.0 (first_of seat.old.me) (first_of seat.new.me)) }
        ensures names { IfErr result (λ why.
            IfSome (ancestor_of why) (λ at. OnPath at node.0 × (at < node.0))) }
        ensures exact { IsAlone seat.old.me
            → OnErr result (IsBlocked node.0 (others seat.old.me.0.stations)) }
        ensures holder { IsAlone seat.old.me → IfErr result (λ why.
            IfSome (ancestor_of why) (λ at. HasHolder at (others seat.old.me.0.stations))) }
    {
        let Some(word) = self.look(seat, node) else {
            return Err(Why::InUse);
        };
        if !self.claim(seat, node, word) {
            return Err(Why::Lost);
        }
        let Some(at) = self.mark_path(seat, node) else {
            return Ok(());
        };
        self.roll_back(seat, station, node, at);
        Err(Why::Under(at))
    }

    /// Releases the block of a node that is held.
    pub fn give_back(&self, seat: &mut Seat, station: u32, node: Node)
        requires seat { seat.old.table_id ≡ id_of self.now }
        requires phase { IsAt seat.old.me (Phase.Holding node.0) }
        requires station { (first_of seat.old.me).station ≡ station }
        requires limit { station < MAX_STATIONS }
        requires node { IsInCube (dim_of self.now) node.0 }
        ensures seat { seat.new.table_id ≡ seat.old.table_id }
        ensures walks { Walks (begin (Phase.Leaving node.0) seat.old.me) seat.new.me }
        ensures phase { IsAt seat.new.me Phase.Idle }
    {
        self.zero_held(seat, node);
        self.clear_path(seat, station, node);
    }

    // Marks the path from a claimed node to the root. Returns the occupied ancestor, or `None` if
    // the station now holds the node.
    fn mark_path(&self, seat: &mut Seat, node: Node) -> Option<Node>
        requires seat { seat.old.table_id ≡ id_of self.now }
        requires phase { IsAt seat.old.me (phase_after_raise node.0 node.0) }
        requires node { IsInCube (dim_of self.now) node.0 }
        ensures seat { seat.new.table_id ≡ seat.old.table_id }
        ensures walks { Walks seat.old.me seat.new.me }
        ensures phase { MatchOption result (IsAt seat.new.me (Phase.Holding node.0)) (λ at.
            IsAt seat.new.me (Phase.Backing node.0 at.0)) }
        ensures refused { IfSome result (λ at.
            Answered Kind.Raise at.0 Note.Under (first_of seat.old.me) (first_of seat.new.me)) }
        ensures names { IfSome result (λ at. OnPath at.0 node.0 × (at.0 < node.0)) }
        ensures holder { IsAlone seat.old.me → IfSome result (λ at.
            HasHolder at.0 (others seat.old.me.0.stations)) }
    {
        let mut at = node;
        while at.0 > 1 {
            at = parent(at);
            if !self.mark_ancestor(seat, node, at) {
                return Some(at);
            }
        }
        None
    }

    // Makes a sweep and a raise at one ancestor. Returns whether it was not occupied.
    fn mark_ancestor(&self, seat: &mut Seat, node: Node, at: Node) -> bool
        requires seat { seat.old.table_id ≡ id_of self.now }
        requires phase { IsAt seat.old.me (Phase.Climbing node.0 at.0) }
        requires node { IsInCube (dim_of self.now) at.0 }
        requires above { at.0 < node.0 }
        requires on_path { OnPath at.0 node.0 }
        ensures seat { seat.new.table_id ≡ seat.old.table_id }
        ensures walks { Walks seat.old.me seat.new.me }
        ensures phase { MatchBool result (IsAt seat.new.me (phase_after_raise node.0 at.0))
            (IsAt seat.new.me (Phase.Backing node.0 at.0)) }
        ensures refused { OnFalse result (Answered Kind.Raise at.0 Note.Under (first_of seat.old.me)
            (first_of seat.new.me)) }
        ensures holder { IsAlone seat.old.me
            → OnFalse result (HasHolder at.0 (others seat.old.me.0.stations)) }
    {
        self.sweep(seat, node, at);
        self.raise(seat, node, at)
    }

    // Gives back a node because an ancestor of it is occupied.
    fn roll_back(&self, seat: &mut Seat, station: u32, node: Node, at: Node)
        requires seat { seat.old.table_id ≡ id_of self.now }
        requires phase { IsAt seat.old.me (Phase.Backing node.0 at.0) }
        requires station { (first_of seat.old.me).station ≡ station }
        requires limit { station < MAX_STATIONS }
        requires node { IsInCube (dim_of self.now) node.0 }
        ensures seat { seat.new.table_id ≡ seat.old.table_id }
        ensures walks { Walks seat.old.me seat.new.me }
        ensures phase { IsAt seat.new.me Phase.Idle }
    {
        self.zero_back(seat, node, at);
        self.clear_path(seat, station, node);
    }

    // Clears the path above a node that was given back, as long as the ancestors become free.
    fn clear_path(&self, seat: &mut Seat, station: u32, node: Node)
        requires seat { seat.old.table_id ≡ id_of self.now }
        requires phase { IsAt seat.old.me (phase_after_zero node.0) }
        requires station { (first_of seat.old.me).station ≡ station }
        requires limit { station < MAX_STATIONS }
        requires node { IsInCube (dim_of self.now) node.0 }
        ensures seat { seat.new.table_id ≡ seat.old.table_id }
        ensures walks { Walks seat.old.me seat.new.me }
        ensures phase { IsAt seat.new.me Phase.Idle }
    {
        let mut at = node;
        while at.0 > 1 {
            at = parent(at);
            if !self.clear_ancestor(seat, station, at) {
                return;
            }
        }
    }

    // Clears one ancestor. Returns whether it became free by this.
    fn clear_ancestor(&self, seat: &mut Seat, station: u32, at: Node) -> bool
        requires seat { seat.old.table_id ≡ id_of self.now }
        requires phase { IsAt seat.old.me (Phase.Arriving at.0) }
        requires station { (first_of seat.old.me).station ≡ station }
        requires limit { station < MAX_STATIONS }
        requires positive { 0 < at.0 }
        requires node { 2 * at.0 + 1 < 2 ^ (dim_of self.now + 1) }
        ensures seat { seat.new.table_id ≡ seat.old.table_id }
        ensures walks { Walks seat.old.me seat.new.me }
        ensures phase { MatchBool result (IsAt seat.new.me (phase_after_zero at.0))
            (IsAt seat.new.me Phase.Idle) }
    {
        self.unmark(seat, at);
        let Some(word) = self.mark(seat, station, at) else {
            return false;
        };
        let left = self.look_left(seat, at, word);
        let right = self.look_right(seat, at, word, left);
        self.clear(seat, at, word, left, right)
    }
}
