//! Takes: by the marks, with evidence where they refuse, and of one block that is named.
ghost use Rattle.std.specs.Prelude.{◌≡◌, ℕ, ◌+◌, ◌*◌, ◌/◌, ◌%◌, ◌^◌, ◌<◌, ◌≤◌, ◌-◌, ◌≢◌, IfSome, IfNone, IfOk, IfErr, length, slice_index, List, true, false};
ghost use Rattle.cube_shape.specs.Region.{IsAligned};
ghost use Rattle.bitmap_tree.specs.Alone.{HasNoBlock, IsInUse};
ghost use Rattle.bitmap_tree.specs.Bounds.{block_steps, exact_steps, take_steps};
ghost use Rattle.bitmap_tree.specs.declared.no_block.NoBlock.TheVariants.{Disturbed, Full};
ghost use Rattle.bitmap_tree.specs.Rule.{first_word};
ghost use Rattle.bitmap_tree.specs.Layout.{HasRun, run_of};
ghost use Rattle.bitmap_tree.specs.InnerLayout.{HasTaken, IsBlank, IsIn, Grows};
ghost use Rattle.bitmap_tree.specs.InnerSeats.{MayTake, StaysSeat};
ghost use Rattle.bitmap_tree.specs.Trail.{AreRightSteps, IsAlone, WasBlockTaken, WasClaimed, WasDisturbed, WasRefused};
ghost use Rattle.bitmap_tree.specs.Handles.{id_of, dim_of, held_region, held_trail, refused_trail, permits_of, IsHeldOf, MayClaim};

use crate::handles::{BitmapTree, HeldBlock, Refused};
use crate::no_block::NoBlock;
use crate::steps::{BlankSeat, BlockSeat};
use cube_shape::Region;

// Lets a seat with an empty run go.
pub(crate) fn rest(seat: BlockSeat) -> BlankSeat
    requires { IsBlank seat.me }
    ensures { result ≡ seat }
{
    seat.leave()
}

// Makes a refusal of a seat with an empty run.
fn refuse(seat: BlockSeat, why: NoBlock) -> Refused
    requires { IsBlank seat.me }
    ensures trail { refused_trail result ≡ seat.me.0.trail }
    ensures quiet { result.disturbed ≡ false → why ≡ Full }
    ensures disturbed { result.disturbed ≡ true → why ≡ Disturbed }
{
    Refused {
        disturbed: why.is_disturbed(),
        seat: rest(seat),
    }
}

impl BitmapTree {
    // Takes a block by the marks, by a seat with an empty run.
    #[inline(always)]
    fn search_by_marks(&self, seat: &mut BlockSeat, k: u32, processor: u64) -> Option<Region>
        requires may { MayTake self.now seat.old }
        requires fits { k ≤ dim_of self.now }
        requires processor { processor < 2 ^ dim_of self.now }
        ensures stays { StaysSeat self.now seat.old seat.new }
        ensures taken { IfSome result (HasTaken (dim_of self.now) k seat.new.me) }
        ensures blank { IfNone result (IsBlank seat.new.me) }
        ensures grows { Grows (252 + 216 * 2 ^ (dim_of self.now - 6)) seat.old.me seat.new.me }
    {
        if let Some(region) = self.take_region(seat, k, processor) {
            return Some(region);
        }
        if !self.shut_spares(seat, k / 6) {
            return None;
        }
        self.take_region(seat, k, processor)
    }

    /// Takes an aligned block of dimension `k`, by a search that begins near a processor.
    ///
    /// It passes words with a mark by, so a refusal says only what its steps found and left.
    pub fn take(&self, k: u32, processor: u64) -> Result<HeldBlock, BlankSeat>
        requires anyone { permits_of self.now ≡ 0 }
        requires fits { k ≤ dim_of self.now }
        requires processor { processor < 2 ^ dim_of self.now }
        ensures of_machine { IfOk result (IsHeldOf self.now) }
        ensures aligned { IfOk result (λ held. IsAligned (dim_of self.now) (held_region held)) }
        ensures dimension { IfOk result (λ held. (held_region held).dim ≡ k) }
        ensures claimed { IfOk result (λ held.
            WasClaimed (run_of (dim_of self.now) (held_region held)) (held_trail held)) }
        ensures steps { IfOk result (λ held.
            AreRightSteps (dim_of self.now) (held_trail held)) }
        ensures few { IfOk result (λ held.
            length (held_trail held) ≤ take_steps (dim_of self.now)) }
        ensures few_refused { IfErr result (λ seat.
            length seat.me.0.trail ≤ take_steps (dim_of self.now)) }
    {
        let mut seat = self.enter(self.word_near(processor));
        match self.search_by_marks(&mut seat, k, processor) {
            Some(region) => Ok(self.hold(seat, region)),
            None => Err(rest(seat)),
        }
    }

    // Takes a block after the marks gave none. It shuts the empty words below the level of the
    // dimension. Then it looks at each word of this level and of those above.
    #[cold]
    fn search_each_word(&self, seat: &mut BlockSeat, k: u32) -> Result<Region, NoBlock>
        requires may { MayTake self.now seat.old }
        requires fits { k ≤ dim_of self.now }
        ensures stays { StaysSeat self.now seat.old seat.new }
        ensures taken { IfOk result (HasTaken (dim_of self.now) k seat.new.me) }
        ensures blank { IfErr result (λ _. IsBlank seat.new.me) }
        ensures refused { IfErr result (λ why. why ≡ Full
            → WasRefused (dim_of self.now) k seat.new.me.0.trail) }
        ensures disturbed { IfErr result (λ why. why ≡ Disturbed
            → WasDisturbed seat.new.me.0.trail) }
        ensures alone { IfErr result (λ _. (words : List ℕ)
            → IsAlone (slice_index words) seat.new.me.0.trail
            → HasNoBlock (dim_of self.now) k words) }
        ensures grows { Grows (4 + 66 * 2 ^ (dim_of self.now - 6)) seat.old.me seat.new.me }
    {
        let whole = Region {
            base: 0,
            dim: self.size.dim,
        };
        self.sweep(seat, whole, k / 6);
        match self.take_scanned(seat, k) {
            Ok(region) => Ok(region),
            Err(why) => Err(why),
        }
    }

    // Takes a block: by the marks, and else by a look at each word.
    #[inline(always)]
    pub(crate) fn take_by(
        &self,
        seat: &mut BlockSeat,
        k: u32,
        processor: u64,
    ) -> Result<Region, NoBlock>
        requires may { MayTake self.now seat.old }
        requires fits { k ≤ dim_of self.now }
        requires processor { processor < 2 ^ dim_of self.now }
        ensures stays { StaysSeat self.now seat.old seat.new }
        ensures taken { IfOk result (HasTaken (dim_of self.now) k seat.new.me) }
        ensures blank { IfErr result (λ _. IsBlank seat.new.me) }
        ensures refused { IfErr result (λ why. why ≡ Full
            → WasRefused (dim_of self.now) k seat.new.me.0.trail) }
        ensures disturbed { IfErr result (λ why. why ≡ Disturbed
            → WasDisturbed seat.new.me.0.trail) }
        ensures alone { IfErr result (λ _. (words : List ℕ)
            → IsAlone (slice_index words) seat.new.me.0.trail
            → HasNoBlock (dim_of self.now) k words) }
        ensures grows { Grows (256 + 282 * 2 ^ (dim_of self.now - 6)) seat.old.me seat.new.me }
    {
        match self.search_by_marks(seat, k, processor) {
            Some(region) => Ok(region),
            None => self.search_each_word(seat, k),
        }
    }

    // Makes a held block of a block that a seat has taken.
    #[inline(always)]
    pub(crate) fn hold(&self, seat: BlockSeat, region: Region) -> HeldBlock
        requires table { seat.table_id ≡ id_of self.now }
        requires may { MayClaim self.now seat.me }
        requires taken { HasTaken (dim_of self.now) region.dim seat.me region }
        ensures of_machine { IsHeldOf self.now result }
        ensures region { held_region result ≡ region }
        ensures aligned { IsAligned (dim_of self.now) region }
        ensures trail { held_trail result ≡ seat.me.0.trail }
        ensures permits { result.seat.me.0.permits ≡ seat.me.0.permits }
    {
        HeldBlock {
            region,
            dim: self.size.dim,
            seat,
        }
    }

    /// Takes an aligned block of dimension `k` as `take` does, and looks at each word before it
    /// refuses.
    ///
    /// Where no word was given up after lost exchanges, a refusal has evidence. Of each block of
    /// the dimension a step of this call found a bit set, and so of each unit of each level above.
    /// And if no other call made a step, no block of the dimension is free.
    pub fn take_exact(&self, k: u32, processor: u64) -> Result<HeldBlock, Refused>
        requires anyone { permits_of self.now ≡ 0 }
        requires fits { k ≤ dim_of self.now }
        requires processor { processor < 2 ^ dim_of self.now }
        ensures of_machine { IfOk result (IsHeldOf self.now) }
        ensures aligned { IfOk result (λ held. IsAligned (dim_of self.now) (held_region held)) }
        ensures dimension { IfOk result (λ held. (held_region held).dim ≡ k) }
        ensures claimed { IfOk result (λ held.
            WasClaimed (run_of (dim_of self.now) (held_region held)) (held_trail held)) }
        ensures refused { IfErr result (λ refused. refused.disturbed ≡ false
            → WasRefused (dim_of self.now) k (refused_trail refused)) }
        ensures disturbed { IfErr result (λ refused. refused.disturbed ≡ true
            → WasDisturbed (refused_trail refused)) }
        ensures alone { IfErr result (λ refused. (words : List ℕ)
            → IsAlone (slice_index words) (refused_trail refused)
            → HasNoBlock (dim_of self.now) k words) }
        ensures steps { IfOk result (λ held.
            AreRightSteps (dim_of self.now) (held_trail held)) }
        ensures few { IfOk result (λ held.
            length (held_trail held) ≤ exact_steps (dim_of self.now)) }
        ensures few_refused { IfErr result (λ refused.
            length (refused_trail refused) ≤ exact_steps (dim_of self.now)) }
    {
        let mut seat = self.enter(self.word_near(processor));
        match self.take_by(&mut seat, k, processor) {
            Ok(region) => Ok(self.hold(seat, region)),
            Err(why) => Err(refuse(seat, why)),
        }
    }

    // Takes one block by a seat with an empty run: a second time once the empty words under it are
    // shut.
    fn take_named(&self, seat: &mut BlockSeat, block: Region) -> Result<(), NoBlock>
        requires may { MayTake self.now seat.old }
        requires block { IsIn (dim_of self.now) block.dim block }
        ensures stays { StaysSeat self.now seat.old seat.new }
        ensures taken { IfOk result (λ _.
            HasTaken (dim_of self.now) block.dim seat.new.me block) }
        ensures blank { IfErr result (λ _. IsBlank seat.new.me) }
        ensures refused { IfErr result (λ why. why ≡ Full
            → WasBlockTaken (dim_of self.now) block seat.new.me.0.trail) }
        ensures disturbed { IfErr result (λ why. why ≡ Disturbed
            → WasDisturbed seat.new.me.0.trail) }
        ensures alone { IfErr result (λ _. (words : List ℕ)
            → IsAlone (slice_index words) seat.new.me.0.trail
            → IsInUse (dim_of self.now) words block) }
        ensures grows { Grows (80 + 30 * 2 ^ (dim_of self.now - 6)) seat.old.me seat.new.me }
    {
        if let Ok(()) = self.take_path(seat, block) {
            return Ok(());
        }
        self.sweep(seat, block, block.dim / 6);
        match self.take_path(seat, block) {
            Ok(()) => Ok(()),
            Err(why) => Err(why),
        }
    }

    /// Takes one block, where it is free. It opens words above the block as it needs them, and
    /// shuts empty words below.
    ///
    /// Where no word was given up after lost exchanges, a refusal has evidence. A step of this call
    /// found a bit of the block set, and the bit of the unit around it in each level above. And if
    /// no other call made a step, a part of the block is held.
    pub fn take_at(&self, block: Region) -> Result<HeldBlock, Refused>
        requires anyone { permits_of self.now ≡ 0 }
        requires aligned { IsAligned (dim_of self.now) block }
        ensures of_machine { IfOk result (IsHeldOf self.now) }
        ensures region { IfOk result (λ held. held_region held ≡ block) }
        ensures claimed { IfOk result (λ held.
            WasClaimed (run_of (dim_of self.now) block) (held_trail held)) }
        ensures refused { IfErr result (λ refused. refused.disturbed ≡ false
            → WasBlockTaken (dim_of self.now) block (refused_trail refused)) }
        ensures disturbed { IfErr result (λ refused. refused.disturbed ≡ true
            → WasDisturbed (refused_trail refused)) }
        ensures alone { IfErr result (λ refused. (words : List ℕ)
            → IsAlone (slice_index words) (refused_trail refused)
            → IsInUse (dim_of self.now) words block) }
        ensures steps { IfOk result (λ held.
            AreRightSteps (dim_of self.now) (held_trail held)) }
        ensures few { IfOk result (λ held.
            length (held_trail held) ≤ block_steps (dim_of self.now)) }
        ensures few_refused { IfErr result (λ refused.
            length (refused_trail refused) ≤ block_steps (dim_of self.now)) }
    {
        let mut seat = self.enter(self.word_near(block.base));
        match self.take_named(&mut seat, block) {
            Ok(()) => Ok(self.hold(seat, block)),
            Err(why) => Err(refuse(seat, why)),
        }
    }
}
