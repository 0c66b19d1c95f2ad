// The board and its calls.
ghost use Rattle.std.specs.Prelude.{◌≡◌, ◌+◌, ◌<◌, ◌≤◌, ◌^◌, [], true, false, IfOk, List};
ghost use Rattle.wake_pool.specs.declared.phase.WakePhase.TheVariants.{Idle, Searching, Found, Looking, Resting, Returning, Reading};
ghost use Rattle.wake_pool.specs.Schedule.{waking, looking, resting};
ghost use Rattle.wake_pool.specs.Words.{word_count, world_of};
ghost use Rattle.wake_pool.specs.Law.{IsServed};
ghost use Rattle.atomic_table.specs.Table.{State};
ghost use Rattle.wake_calls.specs.Thread.{IsIn, moved};
ghost use Rattle.tests_lanes.specs.Board.{all_words, lane_at};
ghost use Rattle.tests_lanes.specs.Inner.Rule.{Keeps, first_view, jobs_in, thread_alone, threads_in, without_thread};
ghost use Rattle.tests_lanes.specs.Inner.Steps.{goes};
ghost use Rattle.tests_lanes.specs.declared.board.BoardSizes.{BoardSizes as TheSizes};
ghost use Rattle.tests_lanes.specs.declared.rule.BoardView.{BoardView as TheView};

use crate::rule::{BoardRule, BoardView, Deals, Finds, Looks, LooksAgain, Puts, Takes};
use atomic_table::{Seat, Table};
use std::alloc::{AllocError, Global};
use wake_pool::base;

/// The sizes of a board.
#[derive(Clone, Copy, Debug, PartialEq, Eq)]
pub struct BoardSizes {
    /// The number of workers, which may sleep. They are the threads from 0 on.
    pub workers: u32,
    /// The number of producers, which are the threads after the workers.
    pub producers: u32,
    /// The number of lanes, which are numbered from 0.
    pub lanes: u32,
}

/// A thread's part of a board.
pub type Member = Seat<(), BoardView>;

/// The words that the threads share: those of the sleepers, and a count of jobs for each lane.
#[derive(Drop)]
pub struct Board {
    pub table: Table<(), BoardView, BoardSizes, BoardRule, Global>,
    pub sizes: BoardSizes,
    ghost sized: { (table.shared.table_id.words ≡ all_words sizes) × (table.shared.key ≡ sizes) },
}

impl Board {
    /// Opens a board with empty lanes on which nobody sleeps, with the records of all threads.
    pub fn open(alloc: Global, sizes: BoardSizes) -> Result<(Board, Member), AllocError>
        ensures sizes { IfOk result (λ made. made.0.sizes ≡ sizes) }
        ensures table { IfOk result (λ made. made.1.table_id ≡ made.0.table.shared.table_id) }
        ensures seat { IfOk result (λ made. made.1.me ≡ (first_view sizes, [])) }
    {
        let count = base(sizes.workers) + sizes.lanes as u64;
        let words = vec![in alloc; 0_u64; count as usize]?;
        let (table, seat) = Table::of_words(alloc, words.as_slice(), &sizes)?;
        Ok((Board { table, sizes }, seat))
    }

    /// Deals out the thread of the least number that is not dealt out yet.
    pub fn deal(&self, seat: &mut Member) -> Member
        requires table { seat.old.table_id ≡ self.now.table.shared.table_id }
        requires some_word { 0 < all_words self.now.sizes }
        ensures table { seat.new.table_id ≡ seat.old.table_id }
        ensures tables { result.table_id ≡ seat.old.table_id }
        ensures left { seat.new.me ≡ (without_thread seat.old.me.0, seat.old.me.1) }
        ensures dealt { result.me ≡ (thread_alone seat.old.me.0, []) }
    {
        self.table.shared.split_seat::<Deals>(seat)
    }

    // Returns the word of a lane.
    fn word_of_lane(&self, lane: u32) -> usize
        ensures { result ≡ lane_at self.now.sizes lane }
    {
        (base(self.sizes.workers) + lane as u64) as usize
    }

    /// Tries once to put a job into a lane that had this number of jobs. Returns whether it did.
    pub fn put(&self, seat: &mut Member, lane: u32, count: u64) -> bool
        requires table { seat.old.table_id ≡ self.now.table.shared.table_id }
        requires phase { IsIn (threads_in seat.old.me.0) self.now.sizes.workers
            self.now.sizes.lanes Idle }
        requires lane { lane < self.now.sizes.lanes }
        requires room { count < 2 ^ 62 }
        ensures table { seat.new.table_id ≡ seat.old.table_id }
        ensures put { result ≡ true → seat.new.me
            ≡ moved goes (waking (word_count self.now.sizes.workers) 0) seat.old.me }
        ensures not { result ≡ false → seat.new.me ≡ seat.old.me }
    {
        let word = self.word_of_lane(lane);
        let found = self
            .table
            .shared
            .compare_exchange::<Puts>(seat, word, count, count + 1);
        found == count
    }

    /// Tries once to take a job from a lane that had this number of jobs. Returns whether it did.
    pub fn take(&self, seat: &mut Member, lane: u32, count: u64) -> bool
        requires table { seat.old.table_id ≡ self.now.table.shared.table_id }
        requires phase { IsIn (threads_in seat.old.me.0) self.now.sizes.workers
            self.now.sizes.lanes Idle }
        requires lane { lane < self.now.sizes.lanes }
        requires some { 0 < count }
        ensures table { seat.new.table_id ≡ seat.old.table_id }
        ensures same { seat.new.me ≡ seat.old.me }
    {
        let word = self.word_of_lane(lane);
        let found = self
            .table
            .shared
            .compare_exchange::<Takes>(seat, word, count, count - 1);
        found == count
    }

    /// Tries once to take a job for the searcher, from a lane that had this number of jobs. Returns
    /// whether it did.
    pub fn find(&self, seat: &mut Member, lane: u32, count: u64) -> bool
        requires table { seat.old.table_id ≡ self.now.table.shared.table_id }
        requires phase { IsIn (threads_in seat.old.me.0) self.now.sizes.workers
            self.now.sizes.lanes Searching }
        requires lane { lane < self.now.sizes.lanes }
        requires some { 0 < count }
        ensures table { seat.new.table_id ≡ seat.old.table_id }
        ensures found { result ≡ true → seat.new.me
            ≡ moved goes Found seat.old.me }
        ensures not { result ≡ false → seat.new.me ≡ seat.old.me }
    {
        let word = self.word_of_lane(lane);
        let found = self
            .table
            .shared
            .compare_exchange::<Finds>(seat, word, count, count - 1);
        found == count
    }

    /// Looks at a lane for a worker that has rested. Returns whether it has no job.
    pub fn look(&self, seat: &mut Member, lane: u32) -> bool
        requires table { seat.old.table_id ≡ self.now.table.shared.table_id }
        requires phase { IsIn (threads_in seat.old.me.0) self.now.sizes.workers
            self.now.sizes.lanes (Resting lane) }
        requires lane { lane < self.now.sizes.lanes }
        ensures table { seat.new.table_id ≡ seat.old.table_id }
        ensures empty { result ≡ true → seat.new.me
            ≡ moved goes (resting self.now.sizes.lanes (lane + 1)) seat.old.me }
        ensures job { result ≡ false → seat.new.me
            ≡ moved goes Returning seat.old.me }
    {
        let word = self.word_of_lane(lane);
        self.table.shared.load::<Looks>(seat, word) == 0
    }

    /// Looks at a lane for a worker that was the searcher. Returns whether it has no job.
    pub fn look_again(&self, seat: &mut Member, lane: u32) -> bool
        requires table { seat.old.table_id ≡ self.now.table.shared.table_id }
        requires phase { IsIn (threads_in seat.old.me.0) self.now.sizes.workers
            self.now.sizes.lanes (Looking lane) }
        requires lane { lane < self.now.sizes.lanes }
        ensures table { seat.new.table_id ≡ seat.old.table_id }
        ensures empty { result ≡ true → seat.new.me
            ≡ moved goes (looking self.now.sizes.lanes (lane + 1)) seat.old.me }
        ensures job { result ≡ false → seat.new.me
            ≡ moved goes (waking (word_count self.now.sizes.workers) 0) seat.old.me }
    {
        let word = self.word_of_lane(lane);
        self.table.shared.load::<LooksAgain>(seat, word) == 0
    }

    /// Looks at all lanes for a worker that has rested. Returns whether it saw no job, so that the
    /// worker goes on to its mailbox.
    pub fn look_at_all(&self, seat: &mut Member) -> bool
        requires table { seat.old.table_id ≡ self.now.table.shared.table_id }
        requires phase { IsIn (threads_in seat.old.me.0) self.now.sizes.workers
            self.now.sizes.lanes (resting self.now.sizes.lanes 0) }
        ensures table { seat.new.table_id ≡ seat.old.table_id }
        ensures none { result ≡ true → seat.new.me
            ≡ moved goes Reading seat.old.me }
        ensures job { result ≡ false → seat.new.me
            ≡ moved goes Returning seat.old.me }
    {
        for lane in 0..self.sizes.lanes {
            if !self.look(seat, lane) {
                return false;
            }
        }
        true
    }

    /// Looks at all lanes for a worker that was the searcher. Returns whether it saw no job. The
    /// worker has nobody to wake then.
    pub fn look_again_at_all(&self, seat: &mut Member) -> bool
        requires table { seat.old.table_id ≡ self.now.table.shared.table_id }
        requires phase { IsIn (threads_in seat.old.me.0) self.now.sizes.workers
            self.now.sizes.lanes (looking self.now.sizes.lanes 0) }
        ensures table { seat.new.table_id ≡ seat.old.table_id }
        ensures none { result ≡ true → seat.new.me
            ≡ moved goes Idle seat.old.me }
        ensures job { result ≡ false → seat.new.me
            ≡ moved goes (waking (word_count self.now.sizes.workers) 0) seat.old.me }
    {
        for lane in 0..self.sizes.lanes {
            if !self.look_again(seat, lane) {
                return false;
            }
        }
        true
    }
}

/// Holds whenever the rule of a board holds, so between any two steps of its threads. No job and no
/// call waits while all threads that could serve it sleep.
pub fn every_board_is_served()
    ensures { (sizes : TheSizes) (s : State (Unit {0}) TheView) (kept : Keeps sizes s)
        → IsServed (world_of sizes.workers sizes.lanes s.words (jobs_in sizes s.words) kept.phases) }
{}
