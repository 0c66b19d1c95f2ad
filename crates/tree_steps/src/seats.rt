//! Making, splitting and joining seats, loads that are no events, and closing the tree.
ghost use Rattle.std.specs.Prelude.{◌≡◌, ℕ, ◌+◌, ◌^◌, ◌<◌, ◌≤◌, List, [], ◌∷◌, length, slice_index, vec_len, IfOk};
ghost use Rattle.tree_steps.specs.Rule.{first_view};
ghost use Rattle.tree_steps.specs.Steps.{KeepsLoad, IsOffAll, first_of, peek_at, HasWholeRoll, joined, only_first, without_first, without_stations};
ghost use Rattle.cube_core.specs.Phase.{IsAtRest};
ghost use Rattle.tree_steps.specs.Alone.{AreAllAtRest, IsAlone, TellsWord, Turns};
ghost use Rattle.tree_steps.specs.Tree.{id_of, dim_of, size_of, read_words, station_count};
ghost use Rattle.cube_shape.specs.Node.{IsInCube, OnPath};

use crate::rule::{Compare, CopyLoads, CutFirst, LoadPeek, LoadRoll, Merge, Tell, Turn};
use crate::tree::{Seat, Tree};
use crate::view::Size;
use atomic_table::Table;
use cube_shape::{MAX_DIM, MAX_STATIONS, Node};
use std::alloc::{AllocError, Global};

impl Tree {
    /// Opens a tree of this size whose words are all 0. Returns it with a seat that has all its
    /// stations, which are idle.
    pub fn open(alloc: Global, size: Size) -> Result<(Tree, Seat), AllocError>
        requires dim { size.dim ≤ MAX_DIM }
        requires stations { size.stations ≤ MAX_STATIONS }
        ensures size { IfOk result (λ made. size_of made.0 ≡ size) }
        ensures seat { IfOk result (λ made. made.1.table_id ≡ id_of made.0) }
        ensures view { IfOk result (λ made. made.1.me ≡ (first_view size, [])) }
        ensures unread { IfOk result (λ made. (v : ℕ) → slice_index (read_words made.0) v ≡ 0) }
    {
        let room = vec![in alloc; 0; 1 << (size.dim + 1)]?;
        let (table, seat) = Table::of_words(alloc, &room, &size)?;
        Ok((Tree { table, size, room }, seat))
    }

    /// Returns the dimension of the machine and the number of its stations.
    pub fn size(&self) -> Size
        ensures { result ≡ size_of self.now }
    {
        self.size
    }

    /// Gives the first station a seat of its own.
    pub fn cut_first(&self, seat: &mut Seat) -> Seat
        requires { seat.old.table_id ≡ id_of self.now }
        ensures seat { seat.new.table_id ≡ seat.old.table_id }
        ensures kept { seat.new.me ≡ (without_first seat.old.me.0, seat.old.me.1) }
        ensures other { result.table_id ≡ seat.old.table_id }
        ensures cut { result.me ≡ (only_first seat.old.me.0, []) }
    {
        self.table.shared.split_seat::<CutFirst>(seat)
    }

    /// Makes a second seat, which knows what was loaded.
    pub fn copy_loads(&self, seat: &mut Seat) -> Seat
        requires { seat.old.table_id ≡ id_of self.now }
        ensures seat { seat.new.table_id ≡ seat.old.table_id }
        ensures kept { seat.new.me ≡ seat.old.me }
        ensures other { result.table_id ≡ seat.old.table_id }
        ensures copy { result.me ≡ (without_stations seat.old.me.0, []) }
    {
        self.table.shared.split_seat::<CopyLoads>(seat)
    }

    /// Adds the stations of the other seat to this one, after its own.
    pub fn merge(&self, seat: &mut Seat, other: Seat)
        requires seat { seat.old.table_id ≡ id_of self.now }
        requires other { other.table_id ≡ id_of self.now }
        requires slots { other.me.1 ≡ [] }
        ensures seat { seat.new.table_id ≡ seat.old.table_id }
        ensures merged { seat.new.me ≡ (joined seat.old.me.0 other.me.0, seat.old.me.1) }
    {
        self.table.shared.join_seat::<Merge>(seat, other);
    }

    /// Loads a word, which changes nothing. If the first station of this seat and another one both
    /// hold blocks, the node of neither is on the path to the other's.
    pub fn compare(&self, seat: &mut Seat)
        requires { seat.old.table_id ≡ id_of self.now }
        ensures seat { seat.new.table_id ≡ seat.old.table_id }
        ensures same { seat.new.me ≡ seat.old.me }
        ensures apart { IsOffAll seat.old.me.0.stations }
    {
        self.table.shared.load::<Compare>(seat, 0);
    }

    /// Moves the record of a station to the front, in a seat that has all stations, each of them at
    /// rest.
    pub fn turn(&self, seat: &mut Seat, station: u32)
        requires seat { seat.old.table_id ≡ id_of self.now }
        requires all { AreAllAtRest (station_count self.now) seat.old.me }
        ensures seat { seat.new.table_id ≡ seat.old.table_id }
        ensures turns { Turns station seat.old.me seat.new.me }
    {
        // Exchanging a number for itself changes nothing. The number says which station is meant.
        let number = station as u64;
        self.table
            .shared
            .compare_exchange::<Turn>(seat, 0, number, number);
    }

    /// Returns the words as they were last read. Word `v` is that of node `v`.
    pub fn words(&self) -> &[u64]
        ensures words { result.now ≡ read_words self.now }
        ensures len { length result.now ≡ 2 ^ (dim_of self.now + 1) }
    {
        &self.room
    }

    // Loads a node's word, which changes nothing. A seat that has all stations, all of them at
    // rest, learns what the word says of them.
    fn read(&self, seat: &mut Seat, node: u64) -> u64
        requires seat { seat.old.table_id ≡ id_of self.now }
        requires node { IsInCube (dim_of self.now) node }
        ensures seat { seat.new.table_id ≡ seat.old.table_id }
        ensures same { seat.new.me ≡ seat.old.me }
        ensures word { IsAlone seat.old.me → IsAtRest (first_of seat.old.me).phase
            → TellsWord node result seat.old.me.0.stations }
    {
        self.table.shared.load::<Tell>(seat, node as usize)
    }

    /// Reads the words of a node and of its ancestors, and no others. A seat that has all stations,
    /// all of them at rest, learns what these words say of them.
    pub fn read_path(&mut self, seat: &mut Seat, node: Node)
        requires seat { seat.old.table_id ≡ id_of self.old }
        requires node { IsInCube (dim_of self.old) node.0 }
        ensures table { id_of self.new ≡ id_of self.old }
        ensures size { size_of self.new ≡ size_of self.old }
        ensures seat { seat.new.table_id ≡ seat.old.table_id }
        ensures same { seat.new.me ≡ seat.old.me }
        ensures path { IsAlone seat.old.me → IsAtRest (first_of seat.old.me).phase
            → (v : ℕ) → OnPath v node.0
            → TellsWord v (slice_index (read_words self.new) v) seat.old.me.0.stations }
        ensures others { (v : ℕ) → (OnPath v node.0 → ⊥)
            → slice_index (read_words self.new) v ≡ slice_index (read_words self.old) v }
    {
        let mut at = node.0;
        while at > 0 {
            let word = self.read(seat, at);
            self.room[at as usize] = word;
            at /= 2;
        }
    }

    /// Loads the roll. The seat keeps what was found.
    pub fn load_roll(&self, seat: &mut Seat) -> u64
        requires { seat.old.table_id ≡ id_of self.now }
        ensures seat { seat.new.table_id ≡ seat.old.table_id }
        ensures loads { KeepsLoad seat.old.me result seat.new.me }
    {
        self.table.shared.load::<LoadRoll>(seat, 0)
    }

    /// Peeks at a node: loads its word, which is no event and changes no word. The first station of
    /// the seat notes the word.
    pub fn peek(&self, seat: &mut Seat, node: Node) -> u64
        requires seat { seat.old.table_id ≡ id_of self.now }
        requires node { IsInCube (dim_of self.now) node.0 }
        ensures seat { seat.new.table_id ≡ seat.old.table_id }
        ensures notes { seat.new.me ≡ peek_at node.0 result seat.old.me }
    {
        self.table.shared.load::<LoadPeek>(seat, node.0 as usize)
    }

    /// Closes the tree and returns its words, once a load of the roll has found the bit of each
    /// station. No word has changed since that load.
    pub fn close(self, seat: Seat) -> Vec<u64>
        requires seat { seat.table_id ≡ id_of self }
        requires retired { HasWholeRoll (station_count self) seat.me }
        ensures len { vec_len result ≡ 2 ^ (dim_of self + 1) }
        ensures nodes { (node : ℕ) → 0 < node → slice_index result.items node ≡ 0 }
        ensures roll { (roll : ℕ) (earlier : List ℕ) → seat.me.0.loads ≡ roll ∷ earlier
            → slice_index result.items 0 ≡ roll }
    {
        let Tree {
            table,
            size: _,
            mut room,
        } = self;
        let closed = table.close_with(seat);
        for node in 0..room.len() {
            room[node] = closed.word(node);
        }
        closed.free();
        room
    }
}
