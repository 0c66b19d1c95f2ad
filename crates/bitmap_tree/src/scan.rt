//! The search that looks at each word, so that a refusal has evidence.
ghost use Rattle.std.specs.Prelude.{◌≡◌, ℕ, ◌+◌, ◌*◌, ◌/◌, ◌%◌, ◌^◌, ◌<◌, ◌≤◌, ◌-◌, ◌≢◌, min, max, IfOk, IfErr};
ghost use Rattle.bitmap_tree.specs.declared.no_block.NoBlock.TheVariants.{Disturbed, Full};
ghost use Rattle.bitmap_tree.specs.Rule.{first_word, word_count};
ghost use Rattle.bitmap_tree.specs.Layout.{HasRun, run_of};
ghost use Rattle.bitmap_tree.specs.InnerLayout.{HasTaken, IsBlank, IsIn, Grows};
ghost use Rattle.bitmap_tree.specs.InnerSeats.{MayTake, StaysSeat};
ghost use Rattle.bitmap_tree.specs.InnerTrail.{IsFullWord, StepsOn, left_by};
ghost use Rattle.bitmap_tree.specs.Trail.{WasClaimed, WasDisturbed, WasEachTaken, WasRefused};
ghost use Rattle.bitmap_tree.specs.Handles.{dim_of};

use crate::handles::BitmapTree;
use crate::layout::words_in;
use crate::no_block::NoBlock;
use crate::search::TRIES;
use crate::steps::BlockSeat;
use cube_shape::Region;

impl BitmapTree {
    // Takes a block of dimension `k` in the words of its level, one after another.
    fn take_words(&self, seat: &mut BlockSeat, k: u32) -> Result<Region, NoBlock>
        requires may { MayTake self.now seat.old }
        requires fits { k ≤ dim_of self.now }
        ensures stays { StaysSeat self.now seat.old seat.new }
        ensures taken { IfOk result (HasTaken (dim_of self.now) k seat.new.me) }
        ensures blank { IfErr result (λ _. IsBlank seat.new.me) }
        ensures refused { IfErr result (λ why. why ≡ Full
            → WasEachTaken (dim_of self.now) k seat.new.me.0.trail) }
        ensures full { IfErr result (λ why. why ≡ Full → (w : ℕ)
            → w < 2 ^ (dim_of self.now - 6 * (k / 6) - 6)
            → IsFullWord (2 ^ min (dim_of self.now - 6 * (k / 6)) 6) (k % 6)
            (left_by seat.new.me.0.trail (first_word (dim_of self.now / 6 - k / 6) + w))) }
        ensures disturbed { IfErr result (λ why. why ≡ Disturbed
            → WasDisturbed seat.new.me.0.trail) }
        ensures steps { StepsOn (first_word (dim_of self.now / 6 - k / 6))
            (first_word (dim_of self.now / 6 - k / 6) + 2 ^ (dim_of self.now - 6 * (k / 6) - 6))
            seat.old.me seat.new.me }
        ensures grows { Grows (9 * 2 ^ (dim_of self.now - 6 * (k / 6) - 6)) seat.old.me
            seat.new.me }
    {
        let mut why = NoBlock::Full;
        for number in 0..words_in(self.size.dim - 6 * (k / 6)) {
            match self.take_in(seat, number, k, TRIES) {
                Ok(region) => return Ok(region),
                Err(more) => why = why.and(more),
            }
        }
        Err(why)
    }

    // Takes a block of dimension `k`, and looks at each word of its level and of those above.
    pub(crate) fn take_scanned(&self, seat: &mut BlockSeat, k: u32) -> Result<Region, NoBlock>
        requires may { MayTake self.now seat.old }
        requires fits { k ≤ dim_of self.now }
        ensures stays { StaysSeat self.now seat.old seat.new }
        ensures taken { IfOk result (HasTaken (dim_of self.now) k seat.new.me) }
        ensures blank { IfErr result (λ _. IsBlank seat.new.me) }
        ensures refused { IfErr result (λ why. why ≡ Full
            → WasRefused (dim_of self.now) k seat.new.me.0.trail) }
        ensures full { IfErr result (λ why. why ≡ Full → (s w : ℕ)
            → k / 6 ≤ s → s ≤ dim_of self.now / 6 → w < 2 ^ (dim_of self.now - 6 * s - 6)
            → IsFullWord (2 ^ min (dim_of self.now - 6 * s) 6) (max k (6 * s) % 6)
            (left_by seat.new.me.0.trail (first_word (dim_of self.now / 6 - s) + w))) }
        ensures disturbed { IfErr result (λ why. why ≡ Disturbed
            → WasDisturbed seat.new.me.0.trail) }
        ensures kept { IfErr result (λ _.
            StepsOn 0 (first_word (dim_of self.now / 6 + 1 - k / 6)) seat.old.me seat.new.me) }
        ensures grows { Grows (4 + 36 * 2 ^ (dim_of self.now - 6)) seat.old.me seat.new.me }
    {
        let mut why = NoBlock::Full;
        for level in k / 6..self.size.dim / 6 + 1 {
            match self.take_words(seat, k.max(6 * level)) {
                Ok(unit) => {
                    if level == k / 6 {
                        return Ok(unit);
                    }
                    return Ok(self.descend_first(seat, unit, k));
                }
                Err(more) => why = why.and(more),
            }
        }
        Err(why)
    }
}
