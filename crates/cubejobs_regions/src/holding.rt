//! A held block goes into a handle of C's and comes out again.
ghost use Rattle.std.specs.Prelude.{◌≡◌, true, false, None, Some};
ghost use Rattle.cubejobs_regions.specs.Held.{held_at};
ghost use Rattle.cubejobs_regions.specs.Handle.{refusal_of_filling};
ghost use Rattle.cubejobs_regions.specs.Holding.{trail_of};
ghost use Rattle.cubejobs_regions.specs.Holds.{hold_of};
ghost use Rattle.cubejobs_regions.specs.Tags.{is_held};

use crate::block_handle::BlockHandle;
use crate::codes::{DONE, HOLDS_ALREADY, OPEN, OTHER_KIND};
use crate::tag::{dim_at, holds, region_at, tag_of};
use bitmap_tree::{BlankSeat, HeldBlock, HiddenSeat};
use std::mem::replace;

impl BlockHandle {
    // Makes a handle that holds nothing.
    #[inline(always)]
    pub(crate) fn empty() -> BlockHandle
        ensures none { hold_of result ≡ None }
        ensures tag { is_held result.tag ≡ false }
    {
        BlockHandle {
            tag: 0,
            machine: 0,
            seat: HiddenSeat::blank(),
        }
    }

    // Makes the handle of a held block, of a machine of this number.
    #[inline(always)]
    pub(crate) fn of(held: HeldBlock, machine: u64) -> BlockHandle
        ensures { hold_of result ≡ Some (held_at machine held) }
    {
        let (region, dim, seat) = held.into_parts();
        BlockHandle {
            tag: tag_of(region, dim),
            machine,
            seat: HiddenSeat::of(seat),
        }
    }

    // Lets an empty handle go.
    #[inline(always)]
    fn leave(self)
        requires { is_held self.tag ≡ false }
    {
        let BlockHandle {
            tag: _,
            machine: _,
            seat,
        } = self;
        seat.leave();
    }

    // Puts a held block into an empty handle, of a machine of this number.
    #[inline(always)]
    pub(crate) fn put(&mut self, held: HeldBlock, machine: u64)
        requires { is_held self.old.tag ≡ false }
        ensures { hold_of self.new ≡ Some (held_at machine held) }
    {
        replace(self, BlockHandle::of(held, machine)).leave();
    }

    // Returns whether it holds a block.
    #[inline(always)]
    pub(crate) fn is_held(&self) -> bool
        ensures { result ≡ is_held self.now.tag }
    {
        holds(self.tag)
    }

    // Takes the held block out. There must be one.
    #[inline(always)]
    pub(crate) fn take(&mut self) -> HeldBlock
        requires { is_held self.old.tag ≡ true }
        ensures held { hold_of self.old ≡ Some (held_at self.old.machine result) }
        ensures none { is_held self.new.tag ≡ false }
    {
        let tag = self.tag;
        self.tag = 0;
        let seat = replace(&mut self.seat, HiddenSeat::blank());
        HeldBlock::of_parts(region_at(tag), dim_at(tag), seat.into_seat())
    }

    // Keeps the seat of a call in an empty handle, and so what its steps found. No bytes change.
    #[inline(always)]
    pub(crate) fn keep(&mut self, seat: BlankSeat)
        requires empty { is_held self.old.tag ≡ false }
        ensures none { hold_of self.new ≡ None }
        ensures trail { trail_of self.new ≡ seat.me.0.trail }
    {
        let last = HiddenSeat::of(seat.into_block_seat());
        replace(&mut self.seat, last).leave();
    }

    // Returns why no block can be put into it, or `DONE`.
    #[inline(always)]
    pub(crate) fn refusal(&self) -> u32
        ensures { result ≡ refusal_of_filling self.now }
    {
        if self.tag == OPEN {
            return OTHER_KIND;
        }
        if self.is_held() { HOLDS_ALREADY } else { DONE }
    }
}
