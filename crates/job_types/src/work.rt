//! What a job and its reply hold on the heap.

ghost use Rattle.std.specs.Prelude.{◌≡◌, ℕ, ◌^◌, ◌<◌, ◌≤◌, drop, length, take};
ghost use Rattle.cube_shape.specs.declared.limits.TheConstants.{MAX_LANES};
ghost use Rattle.job_types.specs.Dim.{IsLeastDim, dim_of};
ghost use Rattle.job_types.specs.Inner.Items.{IsWhole, numbers_in};
ghost use Rattle.job_types.specs.Inner.Kept.{CanRun, IsShown, shown_at};
ghost use Rattle.job_types.specs.Inner.Work.{IsMade, job_in, kept_in, ran_as};

use crate::items::Items;
use crate::kind::{Kind, Op};
use crate::packed_kind::PackedKind;
use crate::request::least_dim;
use crate::rounds::answer;
use cube_shape::{MAX_DIM, MAX_LANES};

// A job, and what is kept of its run. Jobs and replies hold it in a box, since they are moved
// often. It has 56 bytes, so that a block of 64 bytes holds it with the allocator's word.
#[derive(Debug, Drop)]
pub(crate) struct Work {
    pub machine: u8,
    pub lane: u8,
    pub kind: PackedKind,
    // The least processor of the block that the job ran on.
    pub base: u16,
    pub items: Items,
    // The result of a job that is no scan.
    pub number: [u64; 1],
}

const _: () = prove!(size_of::<Work>() == 56);

// Runs a collective on the first numbers, and keeps its result in those after them.
fn scan_in(numbers: &mut [u64], count: usize, kind: Kind, k: u32)
    requires count { count ≤ length numbers.old }
    requires job { CanRun kind k (take count numbers.old) (drop count numbers.old) }
    ensures items { take count numbers.new ≡ take count numbers.old }
    ensures length { length numbers.new ≡ length numbers.old }
    ensures shown { IsShown kind (take count numbers.old) (drop count numbers.new) }
{
    let (items, room) = numbers.split_at_mut(count);
    answer(items, kind, k, room);
}

impl Work {
    // Makes room for a job of a lane.
    pub(crate) fn blank(n: u32, lane: u32) -> Self
        requires machine { n ≤ MAX_DIM }
        requires lane { lane < MAX_LANES }
        ensures machine { result.machine ≡ n }
        ensures lane { result.lane ≡ lane }
        ensures number { length result.number ≡ 1 }
    {
        Work {
            machine: n as u8,
            lane: lane as u8,
            kind: PackedKind::new(Kind::AllReduce { op: Op::Add }),
            base: 0,
            items: Items::One(0, [0]),
            number: [0],
        }
    }

    // Returns the dimension of the machine.
    pub(crate) fn machine(&self) -> u32
        ensures { result ≡ self.now.machine }
    {
        u32::from(self.machine)
    }

    // Returns the lane that the job was made for.
    pub(crate) fn lane(&self) -> u32
        ensures { result ≡ self.now.lane }
    {
        u32::from(self.lane)
    }

    // Returns the collective.
    pub(crate) fn kind(&self) -> Kind
        ensures { result ≡ self.now.kind }
    {
        self.kind.kind()
    }

    // Returns the items.
    pub(crate) fn items(&self) -> &[u64]
        requires { IsWhole self.now.items }
        ensures { result.now ≡ numbers_in self.now.items }
    {
        self.items.as_slice()
    }

    // Returns the least dimension that holds the items.
    pub(crate) fn dim(&self) -> u32
        requires whole { IsWhole self.now.items }
        requires some { 0 < length (numbers_in self.now.items) }
        ensures least { IsLeastDim (length (numbers_in self.now.items)) result }
        ensures value { result ≡ dim_of (length (numbers_in self.now.items)) }
        ensures means { (p : ℕ) → IsLeastDim p (dim_of p) }
    {
        least_dim(self.items().len())
    }

    // Returns the number that is kept for the place of a rank.
    pub(crate) fn kept_at(&self, rank: u64) -> Option<u64>
        requires { IsWhole self.now.items }
        ensures { result ≡ shown_at self.now.kind (kept_in self.now) rank }
    {
        let place = if self.kind().is_scan() {
            rank as usize
        } else {
            0
        };
        match &self.items {
            Items::Scan(_, count, numbers) => Some(*numbers[*count..].get(place)?),
            _ => Some(*self.number.get(place)?),
        }
    }

    // Keeps the lane of the id under which the job ran, and the least processor of its block.
    pub(crate) fn put_run(&mut self, id_lane: u32, base: u64)
        requires made { IsMade self.old }
        requires base { base < 2 ^ 16 }
        ensures made { IsMade self.new }
        ensures job { job_in self.new ≡ job_in self.old }
        ensures kept { kept_in self.new ≡ kept_in self.old }
        ensures lane { ran_as self.new ≡ id_lane }
        ensures base { self.new.base ≡ base }
    {
        self.items.put_id_lane(id_lane);
        self.base = base as u16;
    }

    // Runs the rounds of the collective, and keeps its result.
    pub(crate) fn run(&mut self)
        requires { IsMade self.old }
        ensures job { job_in self.new ≡ job_in self.old }
        ensures made { IsMade self.new }
        ensures shown { IsShown self.new.kind (numbers_in self.new.items) (kept_in self.new) }
    {
        let kind = self.kind();
        let k = self.dim();
        if let Items::Scan(_, count, numbers) = &mut self.items {
            scan_in(numbers, *count, kind, k);
            return;
        }
        answer(self.items.as_slice(), kind, k, &mut self.number);
    }
}
