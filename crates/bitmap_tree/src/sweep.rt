//! The words that are open and empty are shut, so that their units are whole again.
ghost use Rattle.std.specs.Prelude.{◌≡◌, ℕ, ◌+◌, ◌*◌, ◌/◌, ◌%◌, ◌^◌, ◌<◌, ◌≤◌, ◌-◌, ◌≢◌, IfSome, IfNone};
ghost use Rattle.bitmap_tree.specs.Rule.{first_word, word_count};
ghost use Rattle.bitmap_tree.specs.InnerLayout.{IsBlank, IsIn, Grows};
ghost use Rattle.bitmap_tree.specs.InnerSeats.{MayTake, StaysSeat};
ghost use Rattle.bitmap_tree.specs.InnerTrail.{HasBit, left_by};
ghost use Rattle.bitmap_tree.specs.Handles.{dim_of};

use crate::handles::BitmapTree;
use crate::layout::{first_word, words_in};
use crate::steps::BlockSeat;
use cube_shape::Region;

impl BitmapTree {
    // Shuts a word of a level where it is empty, and releases its unit.
    fn shut_empty(&self, seat: &mut BlockSeat, level: u32, number: u32)
        requires may { MayTake self.now seat.old }
        requires level { level < dim_of self.now / 6 }
        requires number { number < 2 ^ (dim_of self.now - 6 * level - 6) }
        ensures stays { StaysSeat self.now seat.old seat.new }
        ensures blank { IsBlank seat.new.me }
        ensures used { HasBit (left_by seat.new.me.0.trail
            (first_word (dim_of self.now / 6 - level) + number)) 0 64 }
        ensures below { (w : ℕ) → first_word (dim_of self.now / 6 - level) ≤ w
            → w ≢ first_word (dim_of self.now / 6 - level) + number
            → left_by seat.new.me.0.trail w ≡ left_by seat.old.me.0.trail w }
        ensures grows { Grows 10 seat.old.me seat.new.me }
    {
        let word = first_word(self.size.dim / 6 - level) + number;
        if self.load_word(seat, word) != 0 {
            return;
        }
        match self.shut_unit(seat, level, number) {
            Some(unit) => self.release_region(seat, unit),
            None => {}
        }
    }

    // Shuts the empty ones of these words of a level.
    fn sweep_level(&self, seat: &mut BlockSeat, level: u32, first: u32, count: u32)
        requires may { MayTake self.now seat.old }
        requires level { level < dim_of self.now / 6 }
        requires words { first + count ≤ 2 ^ (dim_of self.now - 6 * level - 6) }
        ensures stays { StaysSeat self.now seat.old seat.new }
        ensures blank { IsBlank seat.new.me }
        ensures used { (w : ℕ) → first ≤ w → w < first + count
            → HasBit (left_by seat.new.me.0.trail
            (first_word (dim_of self.now / 6 - level) + w)) 0 64 }
        ensures below { (w : ℕ) → first_word (dim_of self.now / 6 + 1 - level) ≤ w
            → left_by seat.new.me.0.trail w ≡ left_by seat.old.me.0.trail w }
        ensures grows { Grows (10 * count) seat.old.me seat.new.me }
    {
        for number in first..first + count {
            self.shut_empty(seat, level, number);
        }
    }

    // Shuts the empty words under a block, of the levels below one: the lowest level first.
    pub(crate) fn sweep(&self, seat: &mut BlockSeat, block: Region, limit: u32)
        requires may { MayTake self.now seat.old }
        requires block { IsIn (dim_of self.now) block.dim block }
        requires limit { limit ≤ block.dim / 6 }
        ensures stays { StaysSeat self.now seat.old seat.new }
        ensures blank { IsBlank seat.new.me }
        ensures used { (s w : ℕ) → s < limit → block.base / 2 ^ (6 * s + 6) ≤ w
            → w < block.base / 2 ^ (6 * s + 6) + 2 ^ (block.dim - 6 * s - 6)
            → HasBit (left_by seat.new.me.0.trail
            (first_word (dim_of self.now / 6 - s) + w)) 0 64 }
        ensures grows { Grows (10 * (limit * 2 ^ (dim_of self.now - 6))) seat.old.me seat.new.me }
    {
        for level in 0..limit {
            let first = (block.base >> (6 * level + 6)) as u32;
            let count = words_in(block.dim - 6 * level);
            self.sweep_level(seat, level, first, count);
        }
    }
}
