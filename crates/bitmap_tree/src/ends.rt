//! The end of a machine.
ghost use Rattle.std.specs.Prelude.{◌≡◌, ℕ, ◌+◌, ◌<◌, ◌≤◌, length};
ghost use Rattle.std.specs.List.{All};
ghost use Rattle.bitmap_tree.specs.Ends.{times_held, AreEnded, IsClosed, IsLeft};
ghost use Rattle.bitmap_tree.specs.InnerEnds.{AreClosedBy, IsShutFrom};
ghost use Rattle.bitmap_tree.specs.Handles.{dim_of, held_region, id_of, IsHeldOf};
ghost use Rattle.bitmap_tree.specs.InnerRule.{times};
ghost use Rattle.bitmap_tree.specs.Layout.{run_of};
ghost use Rattle.bitmap_tree.specs.Rule.{has, word_count};

use crate::handles::{BitmapTree, HeldBlock};
use crate::mask::mask_of;
use crate::steps::BlockSeat;
use cube_shape::MAX_BITMAP_DIM;

// Shuts a word where it is 0, and clears the bit of its unit.
fn shut_word(n: u32, words: &mut Vec<u64>, word: usize)
    requires dim { n ≤ MAX_BITMAP_DIM }
    requires word { (0 < word) × (word < length words.old.items) }
    ensures shut { (held : ℕ → ℕ) → IsShutFrom n held (word + 1) words.old.items
        → IsShutFrom n held word words.new.items }
    ensures count { length words.new.items ≡ length words.old.items }
{
    if words[word] != 0 {
        return;
    }
    let above = (word - 1) / 64;
    let mask = mask_of(((word - 1) % 64) as u32, 0);
    words[word] = u64::MAX;
    let kept = words[above] & !mask;
    words[above] = kept;
}

// Shuts each word that is 0 except the first, the last one first.
fn shut_all(n: u32, words: &mut Vec<u64>)
    requires dim { n ≤ MAX_BITMAP_DIM }
    requires count { length words.old.items ≡ word_count n }
    ensures { (held : ℕ → ℕ) → IsLeft n held words.old.items
        → IsClosed n held words.new.items }
{
    let count = words.len();
    for past in 1..count {
        shut_word(n, words, count - past);
    }
}

impl BitmapTree {
    /// Ends the machine, with these blocks held in it. Returns its words, once those that are 0 are
    /// shut.
    ///
    /// They are the words of a state that meets the rule, in which each block that comes in is
    /// held. Where no bit is held, they are the words of a machine in which nothing was ever taken.
    pub fn close(self, held: Vec<HeldBlock>) -> Vec<u64>
        requires { All (IsHeldOf self) held.items }
        ensures { AreEnded (dim_of self) held.items result.items }
    {
        let seat = self.gather_blocks(held);
        self.close_by(seat)
    }

    // Ends the machine by a seat. Its words are those of a state in which the runs of the seat are
    // held, and perhaps others.
    pub(crate) fn close_by(self, seat: BlockSeat) -> Vec<u64>
        requires table { seat.table_id ≡ id_of self }
        ensures { AreClosedBy self.size seat.me.0 result.items }
    {
        let BitmapTree {
            bits,
            size,
            marks: _,
            spares: _,
            room,
        } = self;
        let mut words = bits.end(seat, room);
        shut_all(size.dim, &mut words);
        words
    }

    // Makes one seat of those of held blocks.
    fn gather_blocks(&self, mut held: Vec<HeldBlock>) -> BlockSeat
        requires { All (IsHeldOf self.now) held.items }
        ensures table { result.table_id ≡ id_of self.now }
        ensures runs { (q : ℕ) → times q result.me.0.runs
            ≡ times_held (dim_of self.now) q held.items }
    {
        let mut seat = self.enter(0);
        while let Some(block) = held.pop() {
            self.gather_block(&mut seat, block);
        }
        held.destroy_empty();
        seat
    }

    // Adds the run of a held block to those of a seat.
    fn gather_block(&self, seat: &mut BlockSeat, block: HeldBlock)
        requires table { seat.old.table_id ≡ id_of self.now }
        requires held { IsHeldOf self.now block }
        ensures table { seat.new.table_id ≡ id_of self.now }
        ensures runs { (q : ℕ) → times q seat.new.me.0.runs ≡ times q seat.old.me.0.runs
            + has q (run_of (dim_of self.now) (held_region block)) }
    {
        let HeldBlock {
            region: _,
            dim: _,
            seat: other,
        } = block;
        self.merge(seat, other);
    }
}
