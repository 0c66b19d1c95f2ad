//! The words of a machine, the seats at them, and the single steps. No other module reaches the
//! words, or lets go of a seat.
//!
//! A seat that may have bits cannot be dropped, so no block is forgotten.
ghost use Rattle.std.specs.Prelude.{◌≡◌, ◌≢◌, ℕ, ◌+◌, ◌-◌, ◌*◌, ◌/◌, ◌%◌, ◌^◌, ◌<◌, ◌≤◌, List, [], ◌∷◌, true, false, length, vec_len, IfOk};
ghost use Rattle.std.specs.Int.{bit_at};
ghost use Rattle.atomic_table.specs.Seated.{TableId, table_id_coded};
ghost use Rattle.atomic_table.specs.Table.{opening};
ghost use Rattle.bitmap_tree.specs.declared.view.View.{View as Known};
ghost use Rattle.bitmap_tree.specs.InnerHiddenSeat.{hidden_owns, views_coded};
ghost use Rattle.bitmap_tree.specs.Rule.{run, word_count};
ghost use Rattle.bitmap_tree.specs.InnerRule.{first_view, times, IsKept};
ghost use Rattle.bitmap_tree.specs.InnerEnds.{AreLast};
ghost use Rattle.bitmap_tree.specs.InnerSteps.{after, cut_first, first_over, first_under, Changes, Fills, Opens, Shuts, Loses, AreNext, AreRunsApart, glued, joined, without_first, only_first, only_upper, with_lower, without_permit, one_permit};
ghost use Rattle.ghost_history.specs.Lists.{rest_of};
ghost use Rattle.bitmap_tree.specs.Layout.{HasRun};
ghost use Rattle.bitmap_tree.specs.Reads.{saw};
ghost use Rattle.bitmap_tree.specs.Seats.{HasNoBit};
ghost use Rattle.bitmap_tree.specs.Trail.{AreRightSteps, OnlyLooked};
ghost use Rattle.bitmap_tree.specs.Handles.{id_of, dim_of, permits_of, MayClaim};

use crate::handles::BitmapTree;
use crate::rule::{
    Begin, BitmapRule, Claim, ClearRun, Compare, CutFirst, CutHalf, Deal, Enter, Glue, Load, Merge,
    OpenWhole, OpenWord, ShutWhole,
};
use crate::view::{Run, Size, View};
use atomic_table::{Badge, Seat, Table};
use std::alloc::{AllocError, Global};
use std::marker::Model;

/// The words of a machine, which only the steps below reach.
#[derive(Drop)]
pub struct Words {
    table: Table<Run, View, Size, BitmapRule, Global>,
}

/// A seat at the words of a machine, which may have bits and permits. It cannot be dropped. It has
/// no bytes.
pub struct BlockSeat {
    seat: Seat<Run, View>,
}

impl Model for BlockSeat {
    ghost use Rattle.bitmap_tree.specs.Seats.{SeatOf};

    ghost Value = { SeatOf };

    ghost view = { λ s. record { table_id = s.seat.table_id; me = s.seat.me } };
}

/// A seat that has no bit, and knows what the steps of a call found and left. It may be dropped. It
/// has no bytes.
#[derive(Drop)]
pub struct BlankSeat {
    seat: Seat<Run, View>,
}

impl Model for BlankSeat {
    ghost use Rattle.bitmap_tree.specs.Seats.{HasNoBit, SeatOf};

    ghost Value = { SeatOf };

    ghost view = { λ s. record { table_id = s.seat.table_id; me = s.seat.me } };

    ghost invariant = { λ s. HasNoBit s.seat.me };
}

impl BlockSeat {
    /// Returns a seat that has no bit as one that may be dropped.
    pub fn leave(self) -> BlankSeat
        requires { HasNoBit self.me }
        ensures { result ≡ self }
    {
        let BlockSeat { seat } = self;
        BlankSeat { seat }
    }
}

impl BlankSeat {
    /// Returns the same seat as one that may not be dropped.
    pub fn into_block_seat(self) -> BlockSeat
        ensures same { result ≡ self }
        ensures no_bit { HasNoBit result.me }
    {
        let BlankSeat { seat } = self;
        BlockSeat { seat }
    }
}

// Only this file has one. So no other file takes a hidden seat apart.
#[repr(C)]
#[derive(Clone, Copy)]
struct Seal {}

/// A seat at the words of a machine, or none: then it has no view. It cannot be dropped. It has no
/// bytes, so a struct that C keeps may have it.
#[repr(C)]
pub struct HiddenSeat {
    seal: Seal,
    pub ghost table_id: { TableId } by { table_id_coded },
    pub ghost id: { ℕ },
    pub ghost views: { List Known } by { views_coded },
}

impl Model for HiddenSeat {
    ghost also_owns = { λ s. hidden_owns s.table_id s.id s.views };
}

impl HiddenSeat {
    ghost use Rattle.bitmap_tree.specs.HiddenSeats.{seat_in};

    /// Makes a place for a seat, with none in it.
    #[inline(always)]
    pub fn blank() -> HiddenSeat
        ensures { result.views ≡ [] }
    {
        HiddenSeat { seal: Seal {} }
    }

    // Puts another seat in its place, and returns the seat that was there. No bytes move.
    #[inline(always)]
    fn exchange(self, badge: Badge<View>) -> (HiddenSeat, Badge<View>)
        ensures { (result.0.table_id ≡ badge.table_id) × (result.0.id ≡ badge.id)
            × (result.0.views ≡ badge.views) × (result.1.table_id ≡ self.table_id)
            × (result.1.id ≡ self.id) × (result.1.views ≡ self.views) }
    {
        let HiddenSeat { seal: _ } = self;
        (HiddenSeat { seal: Seal {} }, badge)
    }

    // Takes a place apart in which there is no seat.
    #[inline(always)]
    fn vanish(self)
        requires { self.views ≡ [] }
    {
        let HiddenSeat { seal: _ } = self;
    }

    /// Hides a seat. No bytes move.
    #[inline(always)]
    pub fn of(seat: BlockSeat) -> HiddenSeat
        requires { seat.me.1 ≡ [] }
        ensures seat { seat_in result ≡ seat }
        ensures one { length result.views ≡ 1 }
    {
        let BlockSeat { seat } = seat;
        let (hidden, none) = HiddenSeat::blank().exchange(seat.into_badge());
        drop(none);
        hidden
    }

    /// Returns the seat, of which there must be one.
    #[inline(always)]
    pub fn into_seat(self) -> BlockSeat
        requires { length self.views ≡ 1 }
        ensures { result ≡ seat_in self }
    {
        let (none, badge) = self.exchange(Badge::blank());
        none.vanish();
        BlockSeat {
            seat: badge.into_seat(),
        }
    }

    /// Lets a seat go that has no bit, or none.
    #[inline(always)]
    pub fn leave(self)
        requires { HasNoBit (seat_in self).me }
    {
        let (none, last) = self.exchange(Badge::blank());
        none.vanish();
        drop(last);
    }
}

unsafe impl Send for HiddenSeat {}

impl Words {
    // Makes the words of a machine. The seat has all its permits.
    pub(crate) fn open(
        alloc: Global,
        words: &[u64],
        size: &Size,
    ) -> Result<(Words, BlockSeat), AllocError>
        requires { IsKept size.now (opening words.now [] (first_view size.now)) }
        ensures size { IfOk result (λ made. made.0.table.shared.key ≡ size.now) }
        ensures words { IfOk result (λ made.
            made.0.table.shared.table_id.words ≡ length words.now) }
        ensures slots { IfOk result (λ made. made.0.table.shared.table_id.slots ≡ 0) }
        ensures table { IfOk result (λ made. made.1.table_id ≡ made.0.table.shared.table_id) }
        ensures seat { IfOk result (λ made. made.1.me ≡ (first_view size.now, [])) }
    {
        let (table, seat) = Table::of_words(alloc, words, size)?;
        Ok((Words { table }, BlockSeat { seat }))
    }

    // Ends the words by a seat. Returns them in a row, which has a place for each.
    pub(crate) fn end(self, seat: BlockSeat, mut row: Vec<u64>) -> Vec<u64>
        requires table { seat.table_id ≡ self.table.shared.table_id }
        requires row { vec_len row ≡ word_count self.table.shared.key.dim }
        requires count { self.table.shared.table_id.words ≡ word_count self.table.shared.key.dim }
        requires no_slots { self.table.shared.table_id.slots ≡ 0 }
        ensures { AreLast self.table.shared.key seat.me.0 result.items }
    {
        let Words { table } = self;
        let BlockSeat { seat } = seat;
        let closed = table.close_with(seat);
        for word in 0..row.len() {
            row[word] = closed.word(word);
        }
        closed.free();
        row
    }
}

impl BitmapTree {
    // Makes a new seat, with an empty run, by a load of a word.
    pub(crate) fn enter(&self, word: u32) -> BlockSeat
        requires word { word < word_count (dim_of self.now) }
        ensures table { result.table_id ≡ id_of self.now }
        ensures run { HasRun (run 0 0) result.me }
        ensures trail { length result.me.0.trail ≡ 1 }
        ensures right { AreRightSteps (dim_of self.now) result.me.0.trail }
        ensures permits { result.me.0.permits ≡ 0 }
    {
        let (_found, seat) = self.bits.table.shared.load_new_seat::<Enter>(word as usize);
        BlockSeat { seat }
    }

    // Loads a word at the beginning of a call.
    pub(crate) fn begin(&self, seat: &mut BlockSeat, word: u32)
        requires table { seat.old.table_id ≡ id_of self.now }
        requires word { word < word_count (dim_of self.now) }
        ensures table { seat.new.table_id ≡ id_of self.now }
        ensures runs { seat.new.me.0.runs ≡ seat.old.me.0.runs }
        ensures slots { seat.new.me.1 ≡ seat.old.me.1 }
        ensures permits { seat.new.me.0.permits ≡ seat.old.me.0.permits }
        ensures trail { length seat.new.me.0.trail ≡ 1 }
        ensures right { AreRightSteps (dim_of self.now) seat.new.me.0.trail }
    {
        self.bits
            .table
            .shared
            .load::<Begin>(&mut seat.seat, word as usize);
    }

    // Loads a word.
    pub(crate) fn load_word(&self, seat: &mut BlockSeat, word: u32) -> u64
        requires table { seat.old.table_id ≡ id_of self.now }
        requires word { word < word_count (dim_of self.now) }
        ensures table { seat.new.table_id ≡ id_of self.now }
        ensures seat { seat.new.me ≡ after seat.old.me.0.runs word result result seat.old.me }
    {
        self.bits
            .table
            .shared
            .load::<Load>(&mut seat.seat, word as usize)
    }

    // Loads a word for a hint. Nothing is known of it.
    pub(crate) fn peek(&self, word: u32) -> u64
        requires { word < word_count (dim_of self.now) }
    {
        self.bits.table.shared.peek(word as usize)
    }

    // One exchange, after which the seat has another run in place of its first. Returns what it
    // found.
    pub(crate) fn claim(
        &self,
        seat: &mut BlockSeat,
        word: u32,
        old: u64,
        new: u64,
        said: &Run,
    ) -> u64
        requires table { seat.old.table_id ≡ id_of self.now }
        requires word { word < word_count (dim_of self.now) }
        requires changes { Changes word old new seat.old.me.0.runs
            (said.now ∷ rest_of seat.old.me.0.runs) }
        requires may { MayClaim self.now seat.old.me }
        ensures table { seat.new.table_id ≡ id_of self.now }
        ensures won { result ≡ old → seat.new.me
            ≡ after (said.now ∷ rest_of seat.old.me.0.runs) word result new seat.old.me }
        ensures lost { result ≢ old → seat.new.me
            ≡ after seat.old.me.0.runs word result result seat.old.me }
    {
        self.bits
            .table
            .shared
            .compare_exchange_with::<Claim>(&mut seat.seat, word as usize, old, new, said)
    }

    // One exchange, which shuts a word that is 0. Returns what it found.
    pub(crate) fn shut(&self, seat: &mut BlockSeat, word: u32, said: &Run) -> u64
        requires table { seat.old.table_id ≡ id_of self.now }
        requires word { word < word_count (dim_of self.now) }
        requires shuts { Shuts word seat.old.me.0.runs (said.now ∷ rest_of seat.old.me.0.runs) }
        requires may { MayClaim self.now seat.old.me }
        ensures table { seat.new.table_id ≡ id_of self.now }
        ensures won { result ≡ 0 → seat.new.me
            ≡ after (said.now ∷ rest_of seat.old.me.0.runs) word result 18446744073709551615
            seat.old.me }
        ensures lost { result ≢ 0 → seat.new.me
            ≡ after seat.old.me.0.runs word result result seat.old.me }
    {
        self.bits
            .table
            .shared
            .compare_exchange_with::<Claim>(&mut seat.seat, word as usize, 0, u64::MAX, said)
    }

    // One exchange, which opens the word under a unit that the seat has.
    pub(crate) fn open_word(&self, seat: &mut BlockSeat, word: u32, new: u64, said: &Run)
        requires table { seat.old.table_id ≡ id_of self.now }
        requires word { word < word_count (dim_of self.now) }
        requires opens { Opens word new seat.old.me.0.runs
            (said.now ∷ rest_of seat.old.me.0.runs) }
        ensures table { seat.new.table_id ≡ id_of self.now }
        ensures opened { seat.new.me
            ≡ after (said.now ∷ rest_of seat.old.me.0.runs) word 18446744073709551615 new
            seat.old.me }
    {
        self.bits
            .table
            .shared
            .compare_exchange_with::<OpenWord>(&mut seat.seat, word as usize, u64::MAX, new, said);
    }

    // Clears the bits of a mask in a word, all of which are set. Returns what it found.
    pub(crate) fn clear_run(&self, seat: &mut BlockSeat, word: u32, mask: u64) -> u64
        requires table { seat.old.table_id ≡ id_of self.now }
        requires word { word < word_count (dim_of self.now) }
        requires loses { Loses word mask seat.old.me.0.runs }
        ensures table { seat.new.table_id ≡ id_of self.now }
        ensures cleared { seat.new.me
            ≡ after (cut_first word seat.old.me.0.runs) word result (result - mask) seat.old.me }
        ensures found { (q : ℕ) → q / 64 ≡ word
            → times q seat.old.me.0.runs ≤ bit_at result (q % 64) }
    {
        self.bits
            .table
            .shared
            .fetch_sub::<ClearRun>(&mut seat.seat, word as usize, mask)
    }

    // Adds the runs of another seat to those of this one.
    pub(crate) fn merge(&self, seat: &mut BlockSeat, other: BlockSeat)
        requires seat { seat.old.table_id ≡ id_of self.now }
        requires other { other.table_id ≡ id_of self.now }
        requires slots { other.me.1 ≡ [] }
        ensures seat { seat.new.table_id ≡ id_of self.now }
        ensures merged { seat.new.me ≡ (joined seat.old.me.0 other.me.0, seat.old.me.1) }
    {
        let BlockSeat { seat: other } = other;
        self.bits
            .table
            .shared
            .join_seat::<Merge>(&mut seat.seat, other);
    }

    // Loads a word. Then it is known that the runs of the seat are apart.
    pub(crate) fn compare(&self, seat: &mut BlockSeat)
        requires { seat.old.table_id ≡ id_of self.now }
        ensures seat { seat.new.table_id ≡ id_of self.now }
        ensures runs { seat.new.me.0.runs ≡ seat.old.me.0.runs }
        ensures slots { seat.new.me.1 ≡ seat.old.me.1 }
        ensures permits { seat.new.me.0.permits ≡ seat.old.me.0.permits }
        ensures apart { AreRunsApart seat.old.me.0.runs }
    {
        self.bits.table.shared.load::<Compare>(&mut seat.seat, 0);
    }

    // Gives the first run a seat of its own, with a permit.
    pub(crate) fn cut(&self, seat: &mut BlockSeat) -> BlockSeat
        requires table { seat.old.table_id ≡ id_of self.now }
        requires enough { 0 < permits_of self.now → 1 < seat.old.me.0.permits }
        ensures seat { seat.new.table_id ≡ id_of self.now }
        ensures kept { seat.new.me ≡ (without_first seat.old.me.0, seat.old.me.1) }
        ensures other { result.table_id ≡ id_of self.now }
        ensures cut { result.me ≡ (only_first seat.old.me.0, []) }
    {
        BlockSeat {
            seat: self
                .bits
                .table
                .shared
                .split_seat::<CutFirst>(&mut seat.seat),
        }
    }

    // Gives one permit a seat of its own.
    pub(crate) fn deal(&self, seat: &mut BlockSeat) -> BlockSeat
        requires table { seat.old.table_id ≡ id_of self.now }
        requires nothing { (q : ℕ) → times q seat.old.me.0.runs ≡ 0 }
        requires some { 0 < seat.old.me.0.permits }
        ensures seat { seat.new.table_id ≡ id_of self.now }
        ensures kept { seat.new.me ≡ (without_permit seat.old.me.0, seat.old.me.1) }
        ensures other { result.table_id ≡ id_of self.now }
        ensures dealt { result.me ≡ (one_permit seat.old.me.0, []) }
    {
        BlockSeat {
            seat: self.bits.table.shared.split_seat::<Deal>(&mut seat.seat),
        }
    }

    // Loads a word under a unit that the seat has. The seat then has its bits instead of the unit.
    pub(crate) fn open_whole(&self, seat: &mut BlockSeat, word: u32)
        requires table { seat.old.table_id ≡ id_of self.now }
        requires word { word < word_count (dim_of self.now) }
        requires opens { Opens word 18446744073709551615 seat.old.me.0.runs
            (first_under seat.old.me.0.runs) }
        ensures table { seat.new.table_id ≡ id_of self.now }
        ensures looked { OnlyLooked seat.old.me.0.trail seat.new.me.0.trail }
        ensures opened { seat.new.me.0.runs ≡ first_under seat.old.me.0.runs }
        ensures slots { seat.new.me.1 ≡ seat.old.me.1 }
        ensures permits { seat.new.me.0.permits ≡ seat.old.me.0.permits }
    {
        self.bits
            .table
            .shared
            .load::<OpenWhole>(&mut seat.seat, word as usize);
    }

    // Loads a word of which the seat has all bits. The seat then has the unit over it instead.
    pub(crate) fn shut_whole(&self, seat: &mut BlockSeat, word: u32)
        requires table { seat.old.table_id ≡ id_of self.now }
        requires word { word < word_count (dim_of self.now) }
        requires fills { Fills word seat.old.me.0.runs (first_over seat.old.me.0.runs) }
        requires may { MayClaim self.now seat.old.me }
        ensures table { seat.new.table_id ≡ id_of self.now }
        ensures looked { OnlyLooked seat.old.me.0.trail seat.new.me.0.trail }
        ensures shut { seat.new.me.0.runs ≡ first_over seat.old.me.0.runs }
        ensures slots { seat.new.me.1 ≡ seat.old.me.1 }
        ensures permits { seat.new.me.0.permits ≡ seat.old.me.0.permits }
    {
        self.bits
            .table
            .shared
            .load::<ShutWhole>(&mut seat.seat, word as usize);
    }

    // Gives the upper half of the first run a seat of its own, with a permit.
    pub(crate) fn cut_half(&self, seat: &mut BlockSeat) -> BlockSeat
        requires table { seat.old.table_id ≡ id_of self.now }
        requires enough { 0 < permits_of self.now → 1 < seat.old.me.0.permits }
        ensures seat { seat.new.table_id ≡ id_of self.now }
        ensures kept { seat.new.me ≡ (with_lower seat.old.me.0, seat.old.me.1) }
        ensures other { result.table_id ≡ id_of self.now }
        ensures cut { result.me ≡ (only_upper seat.old.me.0, []) }
    {
        BlockSeat {
            seat: self.bits.table.shared.split_seat::<CutHalf>(&mut seat.seat),
        }
    }

    // Makes one run of the run of this seat and that of another, which is next to it.
    pub(crate) fn glue(&self, seat: &mut BlockSeat, other: BlockSeat)
        requires seat { seat.old.table_id ≡ id_of self.now }
        requires other { other.table_id ≡ id_of self.now }
        requires slots { other.me.1 ≡ [] }
        requires next { AreNext seat.old.me.0.runs other.me.0.runs }
        ensures seat { seat.new.table_id ≡ id_of self.now }
        ensures glued { seat.new.me ≡ (glued seat.old.me.0 other.me.0, seat.old.me.1) }
    {
        let BlockSeat { seat: other } = other;
        self.bits
            .table
            .shared
            .join_seat::<Glue>(&mut seat.seat, other);
    }

    /// Loads the top word. Returns what it found, and a new seat that has no bit and knows of this
    /// load alone.
    pub fn read_top(&self) -> (u64, BlankSeat)
        ensures table { result.1.table_id ≡ id_of self.now }
        ensures read { result.1.me.0.trail ≡ saw 0 result.0 ∷ [] }
        ensures no_bit { HasNoBit result.1.me }
    {
        let (found, seat) = self.bits.table.shared.load_new_seat::<Enter>(0);
        (found, BlankSeat { seat })
    }

    /// Loads a word. Returns what it found, which the seat then knows. The seat has no bit, so it
    /// can change none.
    pub fn read(&self, seat: &mut BlankSeat, word: u32) -> u64
        requires table { seat.old.table_id ≡ id_of self.now }
        requires word { word < word_count (dim_of self.now) }
        ensures table { seat.new.table_id ≡ id_of self.now }
        ensures read { seat.new.me.0.trail ≡ saw word result ∷ seat.old.me.0.trail }
        ensures runs { seat.new.me.0.runs ≡ seat.old.me.0.runs }
        ensures permits { seat.new.me.0.permits ≡ seat.old.me.0.permits }
        ensures slots { seat.new.me.1 ≡ seat.old.me.1 }
    {
        self.bits
            .table
            .shared
            .load::<Load>(&mut seat.seat, word as usize)
    }
}
