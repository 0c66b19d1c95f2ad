//! Takes of one block that is named, and of the blocks on the way down to it.
ghost use Rattle.std.specs.Prelude.{◌≡◌, ℕ, ◌+◌, ◌*◌, ◌/◌, ◌%◌, ◌^◌, ◌<◌, ◌≤◌, [], ◌∷◌, min, bit_and, ◌-◌, ◌≢◌, true, false, max, IfSome, IfNone, IfOk, IfErr, length};
ghost use Rattle.bitmap_tree.specs.declared.no_block.NoBlock.TheVariants.{Disturbed, Full};
ghost use Rattle.bitmap_tree.specs.Rule.{first_word, word_count};
ghost use Rattle.bitmap_tree.specs.Layout.{HasRun, run_of, unit_around};
ghost use Rattle.bitmap_tree.specs.InnerLayout.{HasTaken, IsBlank, IsIn, Grows};
ghost use Rattle.bitmap_tree.specs.InnerSeats.{MayTake, StaysSeat};
ghost use Rattle.bitmap_tree.specs.InnerTrail.{IsSetIn, StepsOn, left_by};
ghost use Rattle.bitmap_tree.specs.Trail.{WasClaimed, WasDisturbed, WasTaken};
ghost use Rattle.bitmap_tree.specs.Handles.{id_of, dim_of};

use crate::handles::BitmapTree;
use crate::layout::{block_at, first_word};
use crate::mask::mask_of;
use crate::no_block::NoBlock;
use crate::search::TRIES;
use crate::steps::BlockSeat;
use crate::view::Run;
use cube_shape::Region;

impl BitmapTree {
    // Takes one block in its word, which it gives up after `tries` lost exchanges.
    pub(crate) fn take_block(
        &self,
        seat: &mut BlockSeat,
        block: Region,
        tries: u32,
    ) -> Result<(), NoBlock>
        requires may { MayTake self.now seat.old }
        requires block { IsIn (dim_of self.now) block.dim block }
        requires some { 0 < tries }
        requires tries { tries ≤ TRIES }
        ensures stays { StaysSeat self.now seat.old seat.new }
        ensures taken { IfOk result (λ _.
            HasTaken (dim_of self.now) block.dim seat.new.me block) }
        ensures blank { IfErr result (λ _. IsBlank seat.new.me) }
        ensures refused { IfErr result (λ why. why ≡ Full
            → WasTaken (dim_of self.now) seat.new.me.0.trail block) }
        ensures set { IfErr result (λ why. why ≡ Full
            → IsSetIn (left_by seat.new.me.0.trail) (run_of (dim_of self.now) block)) }
        ensures disturbed { IfErr result (λ why. why ≡ Disturbed
            → WasDisturbed seat.new.me.0.trail) }
        ensures steps { StepsOn
            (first_word (dim_of self.now / 6 - block.dim / 6)
            + block.base / 2 ^ (6 * (block.dim / 6)) / 64)
            (first_word (dim_of self.now / 6 - block.dim / 6)
            + block.base / 2 ^ (6 * (block.dim / 6)) / 64 + 1) seat.old.me seat.new.me }
        ensures grows { Grows (1 + TRIES) seat.old.me seat.new.me }
    {
        let level = block.dim / 6;
        let place = block.base >> (6 * level);
        let word = first_word(self.size.dim / 6 - level) + (place / 64) as u32;
        let offset = (place % 64) as u32;
        let mask = mask_of(offset, block.dim % 6);
        let mut found = self.load_word(seat, word);
        for _ in 0..tries {
            if found & mask != 0 {
                return Err(NoBlock::Full);
            }
            let now = self.claim_in(seat, word, found, offset, block.dim % 6);
            if now == found {
                return Ok(());
            }
            found = now;
        }
        Err(NoBlock::Disturbed)
    }

    // Opens the word under a unit that the seat has, and keeps one block of it.
    fn open_under(&self, seat: &mut BlockSeat, unit: Region, block: Region)
        requires table { seat.old.table_id ≡ id_of self.now }
        requires dim { unit.dim ≡ 6 * (block.dim / 6) + 6 }
        requires unit { HasRun (run_of (dim_of self.now) unit) seat.old.me
            × IsIn (dim_of self.now) unit.dim unit }
        requires block { IsIn (dim_of self.now) block.dim block }
        requires inside { block.base / 2 ^ unit.dim ≡ unit.base / 2 ^ unit.dim }
        ensures stays { StaysSeat self.now seat.old seat.new }
        ensures taken { HasRun (run_of (dim_of self.now) block) seat.new.me }
        ensures claimed { WasClaimed (run_of (dim_of self.now) block) seat.new.me.0.trail }
        ensures grows { Grows 1 seat.old.me seat.new.me }
    {
        let level = block.dim / 6;
        let place = block.base >> (6 * level);
        let number = (place / 64) as u32;
        let word = first_word(self.size.dim / 6 - level) + number;
        let said = Run {
            base: 64 * word as u64 + place % 64,
            len: 1 << (block.dim % 6),
        };
        let mask = mask_of((place % 64) as u32, block.dim % 6);
        self.open_word(seat, word, mask, &said);
        self.unmark(level, number, mask);
    }

    // Opens the words from a unit down to a block of it, which the seat then has.
    pub(crate) fn descend(&self, seat: &mut BlockSeat, unit: Region, block: Region)
        requires table { seat.old.table_id ≡ id_of self.now }
        requires dim { unit.dim % 6 ≡ 0 }
        requires above { block.dim / 6 < unit.dim / 6 }
        requires unit { HasRun (run_of (dim_of self.now) unit) seat.old.me
            × IsIn (dim_of self.now) unit.dim unit }
        requires block { IsIn (dim_of self.now) block.dim block }
        requires inside { block.base / 2 ^ unit.dim ≡ unit.base / 2 ^ unit.dim }
        ensures stays { StaysSeat self.now seat.old seat.new }
        ensures taken { HasTaken (dim_of self.now) block.dim seat.new.me block }
        ensures grows { Grows (unit.dim / 6 - block.dim / 6) seat.old.me seat.new.me }
    {
        let top = unit.dim / 6;
        let mut upper = unit;
        for down in 1..top - block.dim / 6 {
            let next = block_at(block.base, 6 * (top - down));
            self.open_under(seat, upper, next);
            upper = next;
        }
        self.open_under(seat, upper, block);
    }

    // Opens the words from a unit down to its first block of dimension `k`, which the seat then
    // has.
    pub(crate) fn descend_first(&self, seat: &mut BlockSeat, unit: Region, k: u32) -> Region
        requires table { seat.old.table_id ≡ id_of self.now }
        requires dim { unit.dim % 6 ≡ 0 }
        requires above { k / 6 < unit.dim / 6 }
        requires unit { HasRun (run_of (dim_of self.now) unit) seat.old.me
            × IsIn (dim_of self.now) unit.dim unit }
        ensures stays { StaysSeat self.now seat.old seat.new }
        ensures taken { HasTaken (dim_of self.now) k seat.new.me result }
        ensures grows { Grows (unit.dim / 6 - k / 6) seat.old.me seat.new.me }
    {
        let block = Region {
            base: unit.base,
            dim: k,
        };
        self.descend(seat, unit, block);
        block
    }

    // Takes one block: in its word, and else from the unit around it in a level above, the lowest
    // first.
    pub(crate) fn take_path(&self, seat: &mut BlockSeat, block: Region) -> Result<(), NoBlock>
        requires may { MayTake self.now seat.old }
        requires block { IsIn (dim_of self.now) block.dim block }
        ensures stays { StaysSeat self.now seat.old seat.new }
        ensures taken { IfOk result (λ _.
            HasTaken (dim_of self.now) block.dim seat.new.me block) }
        ensures blank { IfErr result (λ _. IsBlank seat.new.me) }
        ensures refused { IfErr result (λ why. why ≡ Full → (s : ℕ)
            → block.dim / 6 ≤ s → s ≤ dim_of self.now / 6
            → WasTaken (dim_of self.now) seat.new.me.0.trail (unit_around s block)) }
        ensures set { IfErr result (λ why. why ≡ Full → (s : ℕ)
            → block.dim / 6 ≤ s → s ≤ dim_of self.now / 6
            → IsSetIn (left_by seat.new.me.0.trail)
            (run_of (dim_of self.now) (unit_around s block))) }
        ensures disturbed { IfErr result (λ why. why ≡ Disturbed
            → WasDisturbed seat.new.me.0.trail) }
        ensures kept { IfErr result (λ _.
            StepsOn 0 (first_word (dim_of self.now / 6 + 1 - block.dim / 6)) seat.old.me
            seat.new.me) }
        ensures grows { Grows (4 + 9 * (dim_of self.now / 6 + 1 - block.dim / 6)) seat.old.me
            seat.new.me }
    {
        let mut why = NoBlock::Full;
        for level in block.dim / 6..self.size.dim / 6 + 1 {
            let unit = block_at(block.base, block.dim.max(6 * level));
            match self.take_block(seat, unit, TRIES) {
                Ok(()) => {
                    self.descend_to(seat, unit, block, level);
                    return Ok(());
                }
                Err(more) => why = why.and(more),
            }
        }
        Err(why)
    }

    // Opens the words from a unit down to a block of it, unless the unit is the block.
    fn descend_to(&self, seat: &mut BlockSeat, unit: Region, block: Region, level: u32)
        requires table { seat.old.table_id ≡ id_of self.now }
        requires unit { HasTaken (dim_of self.now) unit.dim seat.old.me unit }
        requires block { IsIn (dim_of self.now) block.dim block }
        requires low { block.dim / 6 ≤ level }
        requires around { unit ≡ unit_around level block }
        ensures stays { StaysSeat self.now seat.old seat.new }
        ensures taken { HasTaken (dim_of self.now) block.dim seat.new.me block }
        ensures grows { Grows (unit.dim / 6 - block.dim / 6) seat.old.me seat.new.me }
    {
        if block.dim / 6 >= unit.dim / 6 {
            return;
        }
        self.descend(seat, unit, block);
    }
}
