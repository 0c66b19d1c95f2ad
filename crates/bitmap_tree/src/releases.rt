//! Releases of blocks, and the units that become whole by them.
ghost use Rattle.std.specs.Prelude.{◌≡◌, ℕ, ◌+◌, ◌*◌, ◌/◌, ◌%◌, ◌^◌, ◌<◌, ◌≤◌, ◌-◌, ◌≢◌, true, false, length, IfSome, IfNone};
ghost use Rattle.bitmap_tree.specs.Bounds.{release_steps};
ghost use Rattle.bitmap_tree.specs.Rule.{first_word, word_count};
ghost use Rattle.bitmap_tree.specs.Layout.{HasRun, run_of};
ghost use Rattle.bitmap_tree.specs.InnerLayout.{IsBlank, IsIn, Grows};
ghost use Rattle.bitmap_tree.specs.InnerSeats.{MayTake, StaysSeat};
ghost use Rattle.bitmap_tree.specs.InnerTrail.{HasBit, KeepsReleases, StepsOn, left_by};
ghost use Rattle.bitmap_tree.specs.Trail.{AreRightSteps, WasReleased};
ghost use Rattle.bitmap_tree.specs.Handles.{id_of, dim_of, held_region, held_trail, released_trail, IsHeldOf, MayClaim};

use crate::handles::{BitmapTree, HeldBlock, Released};
use crate::layout::{first_word, words_in};
use crate::marks::has_half;
use crate::mask::mask_of;
use crate::spares::SPARES;
use crate::steps::BlockSeat;
use crate::takes::rest;
use crate::view::Run;
use cube_shape::Region;

impl BitmapTree {
    // Clears the bits of a block: whether its word is then empty.
    fn clear_region(&self, seat: &mut BlockSeat, region: Region) -> bool
        requires table { seat.old.table_id ≡ id_of self.now }
        requires may { MayClaim self.now seat.old.me }
        requires region { HasRun (run_of (dim_of self.now) region) seat.old.me
            × IsIn (dim_of self.now) region.dim region }
        ensures stays { StaysSeat self.now seat.old seat.new }
        ensures blank { IsBlank seat.new.me }
        ensures cleared { WasReleased (run_of (dim_of self.now) region) seat.old.me.0.trail
            seat.new.me.0.trail }
        ensures kept { KeepsReleases seat.old.me seat.new.me }
        ensures below { (w : ℕ) → first_word (dim_of self.now / 6 + 1 - region.dim / 6) ≤ w
            → left_by seat.new.me.0.trail w ≡ left_by seat.old.me.0.trail w }
        ensures grows { Grows 1 seat.old.me seat.new.me }
    {
        let level = region.dim / 6;
        let place = region.base >> (6 * level);
        let word = first_word(self.size.dim / 6 - level) + (place / 64) as u32;
        let mask = mask_of((place % 64) as u32, region.dim % 6);
        let found = self.clear_run(seat, word, mask);
        if !has_half(found) {
            self.unmark(level, (place / 64) as u32, found & !mask);
        }
        found == mask
    }

    // Shuts a word of a level where it is empty: the unit over it, which the seat then has.
    pub(crate) fn shut_unit(&self, seat: &mut BlockSeat, level: u32, number: u32) -> Option<Region>
        requires may { MayTake self.now seat.old }
        requires level { level < dim_of self.now / 6 }
        requires number { number < 2 ^ (dim_of self.now - 6 * level - 6) }
        ensures stays { StaysSeat self.now seat.old seat.new }
        ensures taken { IfSome result (λ r. HasRun (run_of (dim_of self.now) r) seat.new.me
            × IsIn (dim_of self.now) (6 * level + 6) r) }
        ensures blank { IfNone result (IsBlank seat.new.me) }
        ensures used { HasBit (left_by seat.new.me.0.trail
            (first_word (dim_of self.now / 6 - level) + number)) 0 64 }
        ensures steps { StepsOn (first_word (dim_of self.now / 6 - level) + number)
            (first_word (dim_of self.now / 6 - level) + number + 1) seat.old.me seat.new.me }
        ensures grows { Grows 1 seat.old.me seat.new.me }
    {
        let word = first_word(self.size.dim / 6 - level) + number;
        let said = Run {
            base: word as u64 - 1,
            len: 1,
        };
        if self.shut(seat, word, &said) != 0 {
            return None;
        }
        Some(Region {
            base: (number as u64) << (6 * level + 6),
            dim: 6 * level + 6,
        })
    }

    // Clears the bits of a block. A word that becomes empty stays open as the spare of its level,
    // and the spare before it is shut, if it is still empty. Returns the unit of that one, which
    // the seat then has.
    fn release_once(&self, seat: &mut BlockSeat, region: Region) -> Option<Region>
        requires table { seat.old.table_id ≡ id_of self.now }
        requires may { MayClaim self.now seat.old.me }
        requires region { HasRun (run_of (dim_of self.now) region) seat.old.me
            × IsIn (dim_of self.now) region.dim region }
        ensures stays { StaysSeat self.now seat.old seat.new }
        ensures taken { IfSome result (λ r. HasRun (run_of (dim_of self.now) r) seat.new.me
            × IsIn (dim_of self.now) (6 * (region.dim / 6) + 6) r) }
        ensures blank { IfNone result (IsBlank seat.new.me) }
        ensures cleared { WasReleased (run_of (dim_of self.now) region) seat.old.me.0.trail
            seat.new.me.0.trail }
        ensures kept { KeepsReleases seat.old.me seat.new.me }
        ensures below { (w : ℕ) → first_word (dim_of self.now / 6 + 1 - region.dim / 6) ≤ w
            → left_by seat.new.me.0.trail w ≡ left_by seat.old.me.0.trail w }
        ensures grows { Grows 2 seat.old.me seat.new.me }
    {
        let level = region.dim / 6;
        let empty = self.clear_region(seat, region);
        if !empty || level >= self.size.dim / 6 {
            return None;
        }
        let number = (region.base >> (6 * level + 6)) as u32;
        let Some(other) = self.spares.keep(level, number) else {
            return None;
        };
        if other >= words_in(self.size.dim - 6 * level) {
            return None;
        }
        self.shut_unit(seat, level, other)
    }

    // Releases a block, and each unit that becomes whole by it.
    pub(crate) fn release_region(&self, seat: &mut BlockSeat, region: Region)
        requires table { seat.old.table_id ≡ id_of self.now }
        requires may { MayClaim self.now seat.old.me }
        requires region { HasRun (run_of (dim_of self.now) region) seat.old.me
            × IsIn (dim_of self.now) region.dim region }
        ensures stays { StaysSeat self.now seat.old seat.new }
        ensures blank { IsBlank seat.new.me }
        ensures cleared { WasReleased (run_of (dim_of self.now) region) seat.old.me.0.trail
            seat.new.me.0.trail }
        ensures below { (w : ℕ) → first_word (dim_of self.now / 6 + 1 - region.dim / 6) ≤ w
            → left_by seat.new.me.0.trail w ≡ left_by seat.old.me.0.trail w }
        ensures grows { Grows 8 seat.old.me seat.new.me }
    {
        let Some(unit) = self.release_once(seat, region) else {
            return;
        };
        let mut given = unit;
        for level in region.dim / 6 + 1..self.size.dim / 6 + 1 {
            match self.release_once(seat, given) {
                Some(unit) => given = unit,
                None => return,
            }
        }
    }

    // Shuts the spare at a place of a level: whether it did.
    fn shut_spare(&self, seat: &mut BlockSeat, level: u32, place: u32) -> bool
        requires may { MayTake self.now seat.old }
        requires level { level < dim_of self.now / 6 }
        requires place { place < SPARES }
        ensures stays { StaysSeat self.now seat.old seat.new }
        ensures blank { IsBlank seat.new.me }
        ensures grows { Grows 9 seat.old.me seat.new.me }
    {
        let Some(number) = self.spares.drain(level, place) else {
            return false;
        };
        if number >= words_in(self.size.dim - 6 * level) {
            return false;
        }
        match self.shut_unit(seat, level, number) {
            Some(unit) => {
                self.release_region(seat, unit);
                true
            }
            None => false,
        }
    }

    // Shuts the spares of the levels below one, the lowest first: whether it shut any.
    #[inline(never)]
    pub(crate) fn shut_spares(&self, seat: &mut BlockSeat, level: u32) -> bool
        requires may { MayTake self.now seat.old }
        requires level { level ≤ dim_of self.now / 6 }
        ensures stays { StaysSeat self.now seat.old seat.new }
        ensures blank { IsBlank seat.new.me }
        ensures grows { Grows (3 * (9 * SPARES)) seat.old.me seat.new.me }
    {
        let mut shut = false;
        for spare in 0..SPARES * level {
            shut |= self.shut_spare(seat, spare / SPARES, spare % SPARES);
        }
        shut
    }

    /// Releases a block. Any thread may call it. What it returns says what its steps changed, and
    /// may be dropped.
    pub fn release(&self, held: HeldBlock) -> Released
        requires { IsHeldOf self.now held }
        ensures released { WasReleased (run_of (dim_of self.now) (held_region held))
            (held_trail held) (released_trail result) }
        ensures steps { AreRightSteps (dim_of self.now) (held_trail held)
            → AreRightSteps (dim_of self.now) (released_trail result) }
        ensures few { length (released_trail result) ≤ length (held_trail held) + release_steps }
    {
        let HeldBlock {
            region,
            dim: _,
            mut seat,
        } = held;
        self.release_region(&mut seat, region);
        Released { seat: rest(seat) }
    }
}
