ghost use Rattle.std.specs.Prelude.{◌≡◌, ◌≢◌, ℕ, ◌+◌, ◌*◌, ◌^◌, ◌<◌, ◌≤◌, ◌∷◌, [], List, Some, None, length, reverse, IfSome, IfNone, IfOk, IfErr, OnOk, OnErr};
ghost use Rattle.cube_shape.specs.Node.{IsInCube};
ghost use Rattle.cube_core.specs.Schedule.{AreOneEvent, Record, apply, apply_all, initial, phase_of, record_of, refusal, step_refusal, word_of};
ghost use Rattle.cube_core.specs.World.{HasShapeOf, without_trails};
ghost use Rattle.cube_core.specs.Event.{transition, retirement};
ghost use Rattle.cube_core.specs.InnerEffect.{IsEffect};
ghost use Rattle.cube_core.specs.Count.{depth, events_due};
ghost use Rattle.cube_core.specs.Phase.{node_held};
ghost use Rattle.cube_core.specs.Cause.{HasCause};
ghost use Rattle.cube_core.specs.Law.{IsTreeLawful};

use crate::act::{Act, Refused};
use crate::effect::{self, Effect};
use crate::event::Event;
use crate::phase::{Phase, Seen};
use cube_shape::{MAX_DIM, MAX_STATIONS, Node};
use std::alloc::{AllocError, Global};
use std::marker::Model;

/// The words of the nodes and the phases of the stations of one machine.
///
/// Stations are numbered from `0`. The nodes of a machine of dimension `n` are `1` to
/// `2^(n + 1) - 1`. Each call is made by one station. A refused call changes nothing.
#[derive(Debug, Drop)]
pub struct World {
    dim: u32,
    words: Vec<u64>,
    phases: Vec<Phase>,
}

impl Model for World {
    ghost use Rattle.cube_core.specs.Schedule.{State};
    ghost use Rattle.cube_core.specs.InnerWorld.{state_of, IsWorld};

    ghost Value = { State };

    ghost view = { λ a. state_of a.dim a.words.items a.phases.items };

    ghost invariant = { λ a. IsWorld (state_of a.dim a.words.items a.phases.items) };
}

impl World {
    /// Creates a machine of dimension `n` with this many stations. All words are 0, and all
    /// stations are idle.
    pub fn new(alloc: Global, n: u32, stations: u32) -> Result<Self, AllocError>
        requires dim { n ≤ MAX_DIM }
        requires stations { stations ≤ MAX_STATIONS }
        ensures opened { IfOk result (λ made. made ≡ initial n stations) }
        ensures lawful { IfOk result (λ made. IsTreeLawful made) }
    {
        Ok(World {
            dim: n,
            words: vec![in alloc; 0; 1 << (n + 1)]?,
            phases: vec![in alloc; Phase::Idle; stations as usize]?,
        })
    }

    /// Returns the word of a node. Word `0` is the roll.
    pub fn word(&self, node: u64) -> u64
        requires { node < 2 ^ (self.now.dim + 1) }
        ensures { result ≡ word_of self.now node }
    {
        self.words[node as usize]
    }

    /// Returns the phase of a station.
    pub fn phase(&self, station: u64) -> Phase
        requires { station < length self.now.records }
        ensures { result ≡ phase_of self.now station }
    {
        let index = station as usize;
        self.phases[index]
    }

    /// Begins a take of the block of a node, by an idle station. If the node is `j` levels below
    /// the root, the take makes at most `3 + 7 * j` events, including its roll-back. Clause
    /// `lawful` says this of every list of acts that follows.
    pub fn begin_take(&mut self, station: u64, node: u64) -> Result<(), Refused>
        ensures refused { IfErr result (λ why.
            refusal (Act.Take station node) self.old ≡ Some why) }
        ensures accepted { IfOk result (λ _. refusal (Act.Take station node) self.old ≡ None) }
        ensures unchanged { OnErr result (self.new ≡ self.old) }
        ensures world { OnOk result (self.new
            ≡ without_trails (apply (Act.Take station node) self.old)) }
        ensures shape { HasShapeOf self.old self.new }
        ensures lawful { IsTreeLawful self.new }
        ensures count { OnOk result (events_due self.old.dim (phase_of self.new station)
            ≡ 3 + 7 * depth self.old.dim node) }
    {
        match self.find(station)? {
            Phase::Idle if Node(node).is_in(self.dim) => {
                self.phases[station as usize] = Phase::Looking { node };
                Ok(())
            }
            Phase::Idle => Err(Refused::NotInCube),
            _ => Err(Refused::NotIdle),
        }
    }

    /// Begins a release, by a station that holds a block. If the node is `j` levels below the root,
    /// the release makes at most `1 + 5 * j` events.
    pub fn begin_release(&mut self, station: u64) -> Result<(), Refused>
        ensures refused { IfErr result (λ why. refusal (Act.Release station) self.old ≡ Some why) }
        ensures accepted { IfOk result (λ _. refusal (Act.Release station) self.old ≡ None) }
        ensures unchanged { OnErr result (self.new ≡ self.old) }
        ensures world { OnOk result (self.new
            ≡ without_trails (apply (Act.Release station) self.old)) }
        ensures shape { HasShapeOf self.old self.new }
        ensures lawful { IsTreeLawful self.new }
        ensures count { OnOk result (events_due self.old.dim (phase_of self.new station)
            ≡ 1 + 5 * depth self.old.dim (node_held (phase_of self.old station))) }
    {
        let Phase::Holding { node } = self.find(station)? else {
            return Err(Refused::NotHolding);
        };
        self.phases[station as usize] = Phase::Leaving { node };
        Ok(())
    }

    /// Makes the next event of a station: one atomic step on one word. This lowers the bound on the
    /// events that the station still has to make. The phases of other stations do not change.
    ///
    /// If the event refuses the station's try, another station is in the way, as clause `cause`
    /// says.
    pub fn step(&mut self, station: u64) -> Result<Event, Refused>
        ensures refused { IfErr result (λ why. refusal (Act.Step station) self.old ≡ Some why) }
        ensures accepted { IfOk result (λ _. refusal (Act.Step station) self.old ≡ None) }
        ensures unchanged { OnErr result (self.new ≡ self.old) }
        ensures world { OnOk result (self.new
            ≡ without_trails (apply (Act.Step station) self.old)) }
        ensures shape { HasShapeOf self.old self.new }
        ensures lawful { IsTreeLawful self.new }
        ensures count { OnOk result (events_due self.old.dim (phase_of self.new station)
            < events_due self.old.dim (phase_of self.old station)) }
        ensures others { (t : ℕ) → t ≢ station → phase_of self.new t ≡ phase_of self.old t }
        ensures event { IfOk result (λ event.
            (record_of (apply (Act.Step station) self.old) station).trail
            ≡ event ∷ (record_of self.old station).trail) }
        ensures cause { IfOk result (λ event. HasCause self.old station event) }
    {
        let phase = self.find(station)?;
        let Some(effect) = self.effect(station, phase) else {
            return Err(Refused::Resting);
        };
        self.words[effect.event.node as usize] = effect.word;
        self.phases[station as usize] = effect.next;
        Ok(effect.event)
    }

    /// Retires an idle station: sets its bit in the roll. It makes no further event.
    pub fn retire(&mut self, station: u64) -> Result<Event, Refused>
        ensures refused { IfErr result (λ why. refusal (Act.Retire station) self.old ≡ Some why) }
        ensures accepted { IfOk result (λ _. refusal (Act.Retire station) self.old ≡ None) }
        ensures unchanged { OnErr result (self.new ≡ self.old) }
        ensures world { OnOk result (self.new
            ≡ without_trails (apply (Act.Retire station) self.old)) }
        ensures shape { HasShapeOf self.old self.new }
        ensures lawful { IsTreeLawful self.new }
        ensures event { IfOk result (λ event.
            (record_of (apply (Act.Retire station) self.old) station).trail
            ≡ event ∷ (record_of self.old station).trail) }
    {
        let Phase::Idle = self.find(station)? else {
            return Err(Refused::NotIdle);
        };
        let effect = effect::retire(station, self.word(0));
        self.words[0] = effect.word;
        self.phases[station as usize] = effect.next;
        Ok(effect.event)
    }

    /// Makes these acts one after another. A refused act changes nothing, and the next one follows.
    pub fn run(&mut self, acts: &[Act])
        ensures world { self.new ≡ without_trails (apply_all (reverse acts.now) self.old) }
        ensures shape { HasShapeOf self.old self.new }
        ensures lawful { IsTreeLawful self.new }
    {
        let _ = &self.dim;
        for act in acts {
            self.make(*act);
        }
    }

    // Makes one act. Does not report whether it was refused.
    fn make(&mut self, act: Act)
        ensures world { self.new ≡ without_trails (apply act self.old) }
        ensures shape { HasShapeOf self.old self.new }
        ensures lawful { IsTreeLawful self.new }
    {
        let _ = &self.dim;
        let _refused = match act {
            Act::Take { station, node } => self.begin_take(station, node).is_err(),
            Act::Release { station } => self.begin_release(station).is_err(),
            Act::Step { station } => self.step(station).is_err(),
            Act::Retire { station } => self.retire(station).is_err(),
        };
    }

    // Computes the next event of a station in this phase, unless it is at rest.
    fn effect(&self, station: u64, phase: Phase) -> Option<Effect>
        requires phase { phase ≡ phase_of self.now station }
        requires there { station < length self.now.records }
        ensures rests { IfNone result (step_refusal phase ≡ Some Refused.Resting) }
        ensures moves { IfSome result (λ made. step_refusal phase ≡ None) }
        ensures effect { IfSome result (λ made. IsEffect (transition station phase)
            (word_of self.now (transition station phase).node) made) }
    {
        let _ = &self.dim;
        let effect = match phase {
            Phase::Looking { node } => effect::look(station, node, self.word(node)),
            Phase::Looked { node, word } => effect::claim(station, node, word, self.word(node)),
            Phase::Climbing { node, at } => effect::sweep(station, node, at, self.word(at)),
            Phase::Swept { node, at } => effect::raise(station, node, at, self.word(at)),
            Phase::Leaving { node } => effect::zero(station, node),
            Phase::Backing { node, .. } => effect::zero(station, node),
            Phase::Arriving { at } => effect::unmark(station, at, self.word(at)),
            Phase::Unmarked { at } => effect::mark(station, at, self.word(at)),
            Phase::Marked {
                at,
                word,
                left,
                right,
            } => self.marked(station, at, word, left, right),
            Phase::Idle | Phase::Holding { .. } | Phase::Retired => return None,
        };
        Some(effect)
    }

    // Computes the next event of a station that is marked at a node. It is a look at a child that
    // is not seen yet, or a Clear.
    fn marked(&self, station: u64, at: u64, word: u64, left: Seen, right: Seen) -> Effect
        requires node { 0 < at }
        requires limit { at < 2 ^ MAX_DIM }
        requires inner { 2 * at + 1 < 2 ^ (self.now.dim + 1) }
        ensures { IsEffect (transition station (Phase.Marked at word left right))
            (word_of self.now (transition station (Phase.Marked at word left right)).node) result }
    {
        match (left, right) {
            (Seen::NotYet, _) => effect::look_left(station, at, word, right, self.word(2 * at)),
            (_, Seen::NotYet) => effect::look_right(station, at, word, left, self.word(2 * at + 1)),
            _ => effect::clear(station, at, word, left, right, self.word(at)),
        }
    }

    // Returns the phase of a station, if there is one with this number.
    fn find(&self, station: u64) -> Result<Phase, Refused>
        ensures found { IfOk result (λ phase. (phase ≡ phase_of self.now station)
            × (station < length self.now.records)) }
        ensures none { IfErr result (λ why. (why ≡ Refused.NoStation)
            × (length self.now.records ≤ station)) }
    {
        if station < self.phases.len() as u64 {
            Ok(self.phase(station))
        } else {
            Err(Refused::NoStation)
        }
    }
}

/// Proves the law of the tree after every list of acts from an opened machine. It holds for every
/// dimension and every number of stations.
///
/// - If a station has passed a node through a child, the node's word has the side of this child.
/// - A word is occupied exactly if some station owns its node. Then no other station owns the node,
///   and none has passed it.
/// - While the mark of a station that is marked at a node is set, the node's word has every bit of
///   the marked one. If the station saw a child free, no station has swept or passed the node
///   through this child.
/// - A word that is in use and not occupied has a child in use, or a station that is to clear its
///   node. Such a station is arriving or unmarked there. Or it is marked there by the word that is
///   still there, and has seen no child in use.
/// - A free word with a mark is the one that some station's mark made there. No two stations are
///   marked at one node by the same word.
/// - Held blocks are aligned, and those of two stations do not overlap.
/// - Each further act is a step of its station on the machine of blocks, or changes no holding.
///   Either the station gets the block of the node that its take named, which overlaps no held
///   block. Or its own block is taken away.
/// - If a word is in use, some station owns a node at or under its node, or is to clear one. So
///   when all stations are at rest, a word is free exactly if no held block is at or under its
///   node. When all have retired, every node's word is `0`.
/// - No try is refused without a cause. If a Look finds its node in use, another station owns a
///   node at or under it, or is to clear one. If a Raise finds an ancestor occupied, another
///   station owns the ancestor. A Claim may find another word than the one that was read. Then it
///   is as at a Look, or the word read had another station's mark and no mark is left.
/// - The bit of a station is set in the roll exactly if it has retired.
/// - Each accepted step adds one event to its own station's trail and to no other. A take of a node
///   `j` levels below the root makes at most `3 + 7 * j` events, and a release at most `1 + 5 * j`.
///   This holds for every list of acts in which the station's own acts are steps.
pub fn every_schedule_is_lawful()
    ensures { (n stations : ℕ) (acts : List Act)
        → IsTreeLawful (apply_all acts (initial n stations)) }
{}

/// Proves that what a station of the running tree does in one atomic step is one event. Such a step
/// is a step, a take or a release with the step after it, or a retirement.
///
/// This holds in every state in which the station has this phase, whatever the words are.
pub fn calls_are_single_events()
    ensures step { (n s : ℕ) (p : Phase) (r : Record) → r.phase ≡ p → step_refusal p ≡ None
        → AreOneEvent n (Act.Step s ∷ []) s r (transition s p) }
    ensures take { (n s v : ℕ) (r : Record) → r.phase ≡ Phase.Idle → IsInCube n v
        → AreOneEvent n (Act.Step s ∷ Act.Take s v ∷ []) s r (transition s (Phase.Looking v)) }
    ensures release { (n s h : ℕ) (r : Record) → r.phase ≡ Phase.Holding h
        → AreOneEvent n (Act.Step s ∷ Act.Release s ∷ []) s r (transition s (Phase.Leaving h)) }
    ensures retire { (n s : ℕ) (r : Record) → r.phase ≡ Phase.Idle
        → AreOneEvent n (Act.Retire s ∷ []) s r (retirement s) }
{}
