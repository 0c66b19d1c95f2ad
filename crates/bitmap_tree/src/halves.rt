//! A held block is split into its halves, and two halves are joined. No bit changes.
ghost use Rattle.std.specs.Prelude.{◌≡◌, ◌≢◌, ℕ, ◌+◌, ◌-◌, ◌*◌, ◌/◌, ◌%◌, ◌^◌, ◌<◌, ◌≤◌, min, [], ◌∷◌};
ghost use Rattle.bitmap_tree.specs.Rule.{run, word_count};
ghost use Rattle.bitmap_tree.specs.Layout.{HasRun, lower_half, run_of, upper_half, whole_of, AreHalves};
ghost use Rattle.bitmap_tree.specs.InnerLayout.{IsIn, both_halves};
ghost use Rattle.bitmap_tree.specs.Trail.{OnlyLooked};
ghost use Rattle.bitmap_tree.specs.Handles.{id_of, dim_of, held_region, held_trail, permits_of, IsHeldOf, MayClaim};

use crate::handles::{BitmapTree, HeldBlock};
use crate::layout::first_word;
use crate::steps::BlockSeat;
use cube_shape::Region;

impl BitmapTree {
    // Opens the word under a unit that is to be split. All bits of the word are the seat's, so none
    // changes.
    fn open_whole_unit(&self, seat: &mut BlockSeat, region: Region)
        requires table { seat.old.table_id ≡ id_of self.now }
        requires region { HasRun (run_of (dim_of self.now) region) seat.old.me
            × IsIn (dim_of self.now) region.dim region }
        requires some { 0 < region.dim }
        ensures table { seat.new.table_id ≡ id_of self.now }
        ensures permits { seat.new.me.0.permits ≡ seat.old.me.0.permits }
        ensures looked { OnlyLooked seat.old.me.0.trail seat.new.me.0.trail }
        ensures both { HasRun (both_halves (dim_of self.now) region) seat.new.me }
    {
        if region.dim % 6 != 0 {
            return;
        }
        let level = region.dim / 6 - 1;
        let number = (region.base >> region.dim) as u32;
        let word = first_word(self.size.dim / 6 - level) + number;
        self.open_whole(seat, word);
    }

    // Splits a held block into its halves, where its seat has a permit for each, if there are
    // permits.
    pub(crate) fn halve(&self, held: HeldBlock) -> (HeldBlock, HeldBlock)
        requires held { IsHeldOf self.now held }
        requires enough { 0 < permits_of self.now → 1 < held.seat.me.0.permits }
        requires some { 0 < (held_region held).dim }
        ensures of_machine { IsHeldOf self.now result.0 × IsHeldOf self.now result.1 }
        ensures lower { held_region result.0 ≡ lower_half (held_region held) }
        ensures upper { held_region result.1 ≡ upper_half (held_region held) }
        ensures unchanged { OnlyLooked (held_trail held) (held_trail result.0) }
        ensures no_step { held_trail result.1 ≡ [] }
        ensures permits { result.0.seat.me.0.permits ≡ held.seat.me.0.permits - 1 }
        ensures upper_permits { result.1.seat.me.0.permits ≡ min held.seat.me.0.permits 1 }
    {
        let HeldBlock {
            region,
            dim,
            mut seat,
        } = held;
        self.open_whole_unit(&mut seat, region);
        let half = region.dim - 1;
        let upper = self.cut_half(&mut seat);
        (
            HeldBlock {
                region: Region {
                    base: region.base,
                    dim: half,
                },
                dim,
                seat,
            },
            HeldBlock {
                region: Region {
                    base: region.base + (1 << half),
                    dim: half,
                },
                dim,
                seat: upper,
            },
        )
    }

    /// Splits a held block into its lower and its upper half. It makes loads alone, so no bit
    /// changes.
    pub fn split(&self, held: HeldBlock) -> (HeldBlock, HeldBlock)
        requires held { IsHeldOf self.now held }
        requires anyone { permits_of self.now ≡ 0 }
        requires some { 0 < (held_region held).dim }
        ensures of_machine { IsHeldOf self.now result.0 × IsHeldOf self.now result.1 }
        ensures lower { held_region result.0 ≡ lower_half (held_region held) }
        ensures upper { held_region result.1 ≡ upper_half (held_region held) }
        ensures unchanged { OnlyLooked (held_trail held) (held_trail result.0) }
        ensures no_step { held_trail result.1 ≡ [] }
    {
        self.halve(held)
    }

    // Shuts the word of a unit of which the seat has all bits, so that none changes.
    fn shut_whole_unit(&self, seat: &mut BlockSeat, region: Region)
        requires table { seat.old.table_id ≡ id_of self.now }
        requires may { MayClaim self.now seat.old.me }
        requires both { HasRun (both_halves (dim_of self.now) region) seat.old.me }
        requires inside { IsIn (dim_of self.now) region.dim region }
        requires some { 0 < region.dim }
        ensures table { seat.new.table_id ≡ id_of self.now }
        ensures permits { seat.new.me.0.permits ≡ seat.old.me.0.permits }
        ensures looked { OnlyLooked seat.old.me.0.trail seat.new.me.0.trail }
        ensures whole { HasRun (run_of (dim_of self.now) region) seat.new.me }
    {
        if region.dim % 6 != 0 {
            return;
        }
        let level = region.dim / 6 - 1;
        let number = (region.base >> region.dim) as u32;
        let word = first_word(self.size.dim / 6 - level) + number;
        self.shut_whole(seat, word);
    }

    // Joins the halves of a block. The seat has the permits of both.
    pub(crate) fn unite(&self, lower: HeldBlock, upper: HeldBlock) -> HeldBlock
        requires lower { IsHeldOf self.now lower }
        requires upper { IsHeldOf self.now upper }
        requires halves { AreHalves (held_region lower) (held_region upper) }
        ensures of_machine { IsHeldOf self.now result }
        ensures whole { held_region result ≡ whole_of (held_region lower) }
        ensures unchanged { OnlyLooked (held_trail lower) (held_trail result) }
        ensures permits { result.seat.me.0.permits
            ≡ lower.seat.me.0.permits + upper.seat.me.0.permits }
    {
        let HeldBlock {
            region,
            dim,
            mut seat,
        } = lower;
        let HeldBlock {
            region: _,
            dim: _,
            seat: other,
        } = upper;
        self.glue(&mut seat, other);
        let whole = Region {
            base: region.base,
            dim: region.dim + 1,
        };
        self.shut_whole_unit(&mut seat, whole);
        HeldBlock {
            region: whole,
            dim,
            seat,
        }
    }

    /// Joins the lower and the upper half of a block. It makes loads alone, so no bit changes.
    pub fn join(&self, lower: HeldBlock, upper: HeldBlock) -> HeldBlock
        requires lower { IsHeldOf self.now lower }
        requires upper { IsHeldOf self.now upper }
        requires anyone { permits_of self.now ≡ 0 }
        requires halves { AreHalves (held_region lower) (held_region upper) }
        ensures of_machine { IsHeldOf self.now result }
        ensures whole { held_region result ≡ whole_of (held_region lower) }
        ensures unchanged { OnlyLooked (held_trail lower) (held_trail result) }
    {
        self.unite(lower, upper)
    }
}
