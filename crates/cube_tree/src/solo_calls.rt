//! What a `Solo` says of its stations, and its takes and releases.
ghost use Rattle.std.specs.Prelude.{◌≡◌, ℕ, ◌+◌, ◌-◌, ◌^◌, ◌<◌, ◌≤◌, ◌↔◌, length, slice_index, None, IsTrue, IsSome, IfOk, IfErr, IfSome, IfNone, IsErrOf, OnOk, OnErr, MatchOption, MatchResult};
ghost use Rattle.cube_shape.specs.declared.region.Region.{Region as HeldRegion};
ghost use Rattle.cube_shape.specs.Node.{IsInCube};
ghost use Rattle.cube_shape.specs.Region.{block};
ghost use Rattle.cube_shape.specs.Machine.{Gives, HasNoFit, IsFirstFit, IsLawful, TakesBack};
ghost use Rattle.tree_steps.specs.Rule.{others};
ghost use Rattle.tree_steps.specs.Steps.{IsAt, IsOffAll, Walks, begin, first_of};
ghost use Rattle.tree_steps.specs.Alone.{AreAllAtRest, HasHolder, IsAlone, IsBlocked, unpicked};
ghost use Rattle.tree_steps.specs.Answer.{ancestor_of};
ghost use Rattle.tree_steps.specs.Tree.{id_of, dim_of, read_words, size_of, station_count};
ghost use Rattle.cube_tree.specs.Slots.{IsTold, node_of_station};
ghost use Rattle.cube_tree.specs.InnerSolo.{AreBlocked, HasPhase, IsFirstIdle, IsMoved, TakesFirst};
ghost use Rattle.cube_tree.specs.InnerSearch.{NamesAncestor};
ghost use Rattle.cube_tree.specs.Solo.{solo_size, solo_dim, held_by, AllHold, IsLowestIdle, TellsHeld};

use crate::refused::SoloRefused;
use crate::search::node_after;
use crate::solo::Solo;
use crate::takes::region_at_node;
use crate::tries::region_count;
use cube_core::Phase;
use cube_shape::{Node, Region};
use tree_steps::{Seat, Tree, Why};

impl Solo {
    /// Returns the dimension of the machine.
    pub fn dim(&self) -> u32
        ensures { result ≡ solo_dim self.now }
    {
        self.tree.size().dim
    }

    /// Returns whether a station holds a block.
    pub fn holds(&self, station: usize) -> bool
        ensures held { IsTrue result ↔ IsSome (held_by self.now station) }
        ensures lawful { IsLawful (solo_dim self.now) (held_by self.now) }
    {
        node_at(&self.nodes, station).is_some()
    }

    /// Returns the block that a station holds, if it holds one.
    pub fn region(&self, station: usize) -> Option<Region>
        ensures { result ≡ held_by self.now station }
    {
        let node = node_at(&self.nodes, station)?;
        Some(region_at_node(self.tree.size().dim, node))
    }

    /// Returns the words of the tree. Word `0` is the roll, and word `v` that of node `v`. They say
    /// what is held now: only the nodes of held blocks and their ancestors have another word than
    /// `0`.
    ///
    /// No clause says that such a word has no further bit. It may have the side of a half in which
    /// nothing is held, or a mark.
    pub fn words(&self) -> &[u64]
        ensures len { length result.now ≡ 2 ^ (solo_dim self.now + 1) }
        ensures roll { slice_index result.now 0 ≡ 0 }
        ensures told { (v : ℕ) → IsInCube (solo_dim self.now) v
            → TellsHeld (solo_dim self.now) (held_by self.now) v (slice_index result.now v) }
    {
        self.tree.words()
    }

    /// Gives the lowest idle station the first fit: block `(m, k)` for the least `m` such that it
    /// overlaps no held block. Returns the station's number.
    ///
    /// Returns `NoStation` only if each station holds a block. Else returns `NoSubcube` only if
    /// there is no such `m`. A refusal changes nothing that a station holds.
    pub fn take(&mut self, k: u32) -> Result<usize, SoloRefused>
        requires { k ≤ solo_dim self.old }
        ensures lowest { IfOk result (IsLowestIdle self.old) }
        ensures given { IfOk result (λ s. (m : ℕ)
            × IsFirstFit (solo_dim self.old) k (held_by self.old) m
            × Gives (solo_dim self.old) s k (held_by self.old) (held_by self.new) (block k m)) }
        ensures no_station { IsErrOf result SoloRefused.NoStation ↔ AllHold self.old }
        ensures no_subcube { IsErrOf result SoloRefused.NoSubcube ↔ ((AllHold self.old → ⊥)
            × HasNoFit (solo_dim self.old) k (held_by self.old)) }
        ensures unchanged { OnErr result ((s : ℕ) → held_by self.new s ≡ held_by self.old s) }
        ensures size { solo_size self.new ≡ solo_size self.old }
    {
        let Some(station) = first_idle(&self.nodes) else {
            return Err(SoloRefused::NoStation);
        };
        let Some(node) = take_first(&mut self.tree, &mut self.seat, station as u32, k) else {
            return Err(SoloRefused::NoSubcube);
        };
        self.nodes[station] = Some(node);
        Ok(station)
    }

    /// Releases the block of a station that holds one.
    pub fn release(&mut self, station: usize)
        requires { IsSome (held_by self.old station) }
        ensures released { (r : HeldRegion)
            × TakesBack station (held_by self.old) (held_by self.new) r }
        ensures size { solo_size self.new ≡ solo_size self.old }
    {
        if let Some(node) = self.nodes[station] {
            give_back(&mut self.tree, &mut self.seat, station as u32, node);
            self.nodes[station] = None;
        }
    }
}

// Returns the node that a station holds.
fn node_at(nodes: &[Option<Node>], station: usize) -> Option<Node>
    ensures { result ≡ node_of_station nodes.now station }
{
    nodes.get(station).copied().flatten()
}

// Returns the first station that holds nothing.
fn first_idle(nodes: &[Option<Node>]) -> Option<usize>
    ensures found { IfSome result (IsFirstIdle nodes.now) }
    ensures none { IfNone result ((s : ℕ) → s < length nodes.now
        → IsSome (node_of_station nodes.now s)) }
{
    nodes.iter().position(|node| node.is_none())
}

// Takes the first node of the level of dimension `k` that is not blocked, by an idle station.
fn take_first(tree: &mut Tree, seat: &mut Seat, station: u32, k: u32) -> Option<Node>
    requires table { seat.old.table_id ≡ id_of tree.old }
    requires all { AreAllAtRest (station_count tree.old) seat.old.me }
    requires there { station < station_count tree.old }
    requires idle { HasPhase station Phase.Idle seat.old.me }
    requires dim { k ≤ dim_of tree.old }
    requires told { IsTold (dim_of tree.old) (read_words tree.old) seat.old.me.0.stations }
    ensures same { (id_of tree.new ≡ id_of tree.old) × (size_of tree.new ≡ size_of tree.old) }
    ensures table { seat.new.table_id ≡ seat.old.table_id }
    ensures moved { MatchOption result (IsMoved station Phase.Idle seat.old.me seat.new.me)
        (λ node. IsMoved station (Phase.Holding node.0) seat.old.me seat.new.me) }
    ensures first { IfSome result (λ node.
        TakesFirst station (dim_of tree.old - k) node.0 seat.old.me seat.new.me) }
    ensures none { IfNone result (AreBlocked (dim_of tree.old - k) (2 ^ (dim_of tree.old - k))
        (unpicked station seat.old.me.0.stations)) }
    ensures told { IsTold (dim_of tree.new) (read_words tree.new) seat.new.me.0.stations }
{
    tree.turn(seat, station);
    let first = region_count(tree, k);
    let mut node = Node(first);
    while node.0 < 2 * first {
        match take_alone(tree, seat, station, node) {
            Ok(()) => return Some(node),
            Err(why) => node = node_after(node, why),
        }
    }
    None
}

// Makes one take of a node by the first station of a seat that has all stations. Then reads the
// words on its path.
fn take_alone(tree: &mut Tree, seat: &mut Seat, station: u32, node: Node) -> Result<(), Why>
    requires table { seat.old.table_id ≡ id_of tree.old }
    requires phase { IsAt seat.old.me Phase.Idle }
    requires station { (first_of seat.old.me).station ≡ station }
    requires there { station < station_count tree.old }
    requires alone { IsAlone seat.old.me }
    requires node { IsInCube (dim_of tree.old) node.0 }
    requires told { IsTold (dim_of tree.old) (read_words tree.old) seat.old.me.0.stations }
    ensures same { (id_of tree.new ≡ id_of tree.old) × (size_of tree.new ≡ size_of tree.old) }
    ensures table { seat.new.table_id ≡ seat.old.table_id }
    ensures walks { Walks (begin (Phase.Looking node.0) seat.old.me) seat.new.me }
    ensures phase { MatchResult result (λ _. IsAt seat.new.me (Phase.Holding node.0)) (λ _.
        IsAt seat.new.me Phase.Idle) }
    ensures names { IfErr result (λ why. NamesAncestor why node.0) }
    ensures off { OnOk result (IsOffAll seat.new.me.0.stations) }
    ensures exact { OnErr result (IsBlocked node.0 (others seat.old.me.0.stations)) }
    ensures holder { IfErr result (λ why.
        IfSome (ancestor_of why) (λ at. HasHolder at (others seat.old.me.0.stations))) }
    ensures told { IsTold (dim_of tree.new) (read_words tree.new) seat.new.me.0.stations }
{
    match tree.take(seat, station, node) {
        Ok(()) => {
            tree.compare(seat);
            tree.read_path(seat, node);
            Ok(())
        }
        Err(Why::InUse) => Err(Why::InUse),
        Err(why) => {
            tree.read_path(seat, node);
            Err(why)
        }
    }
}

// Gives back the node that a station holds.
fn give_back(tree: &mut Tree, seat: &mut Seat, station: u32, node: Node)
    requires table { seat.old.table_id ≡ id_of tree.old }
    requires all { AreAllAtRest (station_count tree.old) seat.old.me }
    requires there { station < station_count tree.old }
    requires holds { HasPhase station (Phase.Holding node.0) seat.old.me }
    requires node { IsInCube (dim_of tree.old) node.0 }
    requires told { IsTold (dim_of tree.old) (read_words tree.old) seat.old.me.0.stations }
    ensures same { (id_of tree.new ≡ id_of tree.old) × (size_of tree.new ≡ size_of tree.old) }
    ensures table { seat.new.table_id ≡ seat.old.table_id }
    ensures moved { IsMoved station Phase.Idle seat.old.me seat.new.me }
    ensures told { IsTold (dim_of tree.new) (read_words tree.new) seat.new.me.0.stations }
{
    tree.turn(seat, station);
    tree.give_back(seat, station, node);
    tree.read_path(seat, node);
}
