ghost use Rattle.std.specs.Prelude.{◌≡◌, ℕ, ◌^◌, ◌<◌, ◌≤◌, ◌↔◌, [], ◌++◌, false, IsTrue, IfOk, OnOk, string_bytes};
ghost use Rattle.status_word.specs.Word.{HasSide, IsFree, IsMarked, IsOccupied, IsSet, SameElsewhere, cleared as cleared_word, mark_bit, side_bit, use_of, with_mark, with_side as word_with_side};
ghost use Rattle.status_word.specs.declared.word.TheConstants.Word.{BUSY};
ghost use Rattle.status_word.specs.declared.use_bits.TheConstants.UseBits.{LEFT, OCC, RIGHT};
ghost use Rattle.status_word.specs.Text.{mark_text, use_text, word_text};

use crate::use_bits::UseBits;
use bitflags::Flags;
use cube_shape::{MAX_STATIONS, Side};
use std::alloc::{AllocError, Global};
use std::fmt::Write;

/// The status word of a node.
#[derive(Clone, Copy, Debug, PartialEq, Eq, Hash)]
pub struct Word(pub u64);

/// The number of the bit of station 0's mark.
const FIRST_MARK: u32 = 8;

impl Word {
    /// The word of a node that is claimed as a whole: OCC and both sides, and no mark.
    pub const BUSY: Word = Word(7);

    /// Returns the word with the mark of a station and no other bit.
    pub fn mark_mask(station: u32) -> Word
        requires { station < MAX_STATIONS }
        ensures value { result.0 ≡ 2 ^ mark_bit station }
        ensures alone { (bit : ℕ) → IsSet result.0 bit ↔ (bit ≡ mark_bit station) }
    {
        Word(1 << (FIRST_MARK + station))
    }

    /// Returns the word with the bit of a side and no other.
    pub fn side_mask(side: Side) -> Word
        ensures value { result.0 ≡ 2 ^ side_bit side }
        ensures alone { (bit : ℕ) → IsSet result.0 bit ↔ (bit ≡ side_bit side) }
    {
        match side {
            Side::Left => Word(2),
            Side::Right => Word(4),
        }
    }

    /// Returns the bits of use.
    pub fn use_bits(self) -> UseBits
        ensures { ⟦<UseBits as Flags>⟧.set_of result ≡ use_of self.0 }
    {
        UseBits::from_bits_retain(self.0 & 7)
    }

    /// Returns whether none of OCC, LEFT and RIGHT is set.
    pub fn is_free(self) -> bool
        ensures { IsTrue result ↔ IsFree self.0 }
    {
        self.0 & 7 == 0
    }

    /// Returns whether OCC is set.
    pub fn is_occupied(self) -> bool
        ensures { IsTrue result ↔ IsOccupied self.0 }
    {
        self.0 & 1 == 1
    }

    /// Returns whether the bit of a side is set.
    pub fn has_side(self, side: Side) -> bool
        ensures { IsTrue result ↔ HasSide side self.0 }
    {
        match side {
            Side::Left => self.0 & 2 == 2,
            Side::Right => self.0 & 4 == 4,
        }
    }

    /// Returns whether the mark of a station is set.
    pub fn is_marked(self, station: u32) -> bool
        requires { station < MAX_STATIONS }
        ensures { IsTrue result ↔ IsMarked station self.0 }
    {
        self.0 >> (FIRST_MARK + station) & 1 == 1
    }

    /// Returns the word with the bit of a side set.
    pub fn with_side(self, side: Side) -> Word
        ensures value { result.0 ≡ word_with_side side self.0 }
        ensures has { HasSide side result.0 }
        ensures others { SameElsewhere (side_bit side) self.0 result.0 }
    {
        Word(self.0 | Word::side_mask(side).0)
    }

    /// Returns the word without its marks.
    pub fn without_marks(self) -> Word
        ensures value { result.0 ≡ use_of self.0 }
        ensures bits { (bit : ℕ) → IsSet result.0 bit ↔ (IsSet self.0 bit × (bit < 3)) }
    {
        Word(self.0 & 7)
    }

    /// Returns the word with the mark of a station set.
    pub fn mark(self, station: u32) -> Word
        requires { station < MAX_STATIONS }
        ensures value { result.0 ≡ with_mark station self.0 }
        ensures has { IsMarked station result.0 }
        ensures others { SameElsewhere (mark_bit station) self.0 result.0 }
    {
        Word(self.0 | Word::mark_mask(station).0)
    }

    /// Returns the word without its marks, and without each side whose child was seen free.
    pub fn cleared(self, left_free: bool, right_free: bool) -> Word
        ensures value { result.0 ≡ cleared_word self.0 left_free right_free }
        ensures occupied { IsOccupied result.0 ↔ IsOccupied self.0 }
        ensures left { HasSide Side.Left result.0 ↔ (HasSide Side.Left self.0
            × (left_free ≡ false)) }
        ensures right { HasSide Side.Right result.0 ↔ (HasSide Side.Right self.0
            × (right_free ≡ false)) }
        ensures unmarked { (station : ℕ) → IsMarked station result.0 → ⊥ }
    {
        match (left_free, right_free) {
            (false, false) => self.without_marks(),
            (true, false) => Word(self.0 & 5),
            (false, true) => Word(self.0 & 3),
            (true, true) => Word(self.0 & 1),
        }
    }

    /// Returns the word as text: the letters `O`, `L` and `R` of the bits that are set, or `-` if
    /// none is. Then `+` and the number of each station whose mark is set, by rising number.
    pub fn show(self, alloc: Global) -> Result<String, AllocError>
        ensures { IfOk result (λ text. string_bytes text ≡ word_text self.0) }
    {
        let mut text = String::from_str(alloc, self.letters())?;
        for station in 0..self.mark_end() {
            self.push_mark(&mut text, station)?;
        }
        Ok(text)
    }

    // Returns the number after that of the last station whose mark is set, and 0 if none is.
    fn mark_end(self) -> u32
        ensures within { result ≤ MAX_STATIONS }
        ensures past { (station : ℕ) → result ≤ station → station < MAX_STATIONS
            → mark_text self.0 station ≡ [] }
    {
        let digits = u64::BITS - self.0.leading_zeros();
        digits.saturating_sub(FIRST_MARK).min(MAX_STATIONS)
    }

    // Returns the letters of the bits of use, or a dash for none.
    fn letters(self) -> &'static str
        ensures { result.now ≡ use_text self.0 }
    {
        match (
            self.is_occupied(),
            self.has_side(Side::Left),
            self.has_side(Side::Right),
        ) {
            (true, true, true) => "OLR",
            (true, true, false) => "OL",
            (true, false, true) => "OR",
            (true, false, false) => "O",
            (false, true, true) => "LR",
            (false, true, false) => "L",
            (false, false, true) => "R",
            (false, false, false) => "-",
        }
    }

    // Adds a plus sign and the number of a station, if its mark is set.
    fn push_mark(self, text: &mut String, station: u32) -> Result<(), AllocError>
        requires { station < MAX_STATIONS }
        ensures { OnOk result (string_bytes text.new
            ≡ string_bytes text.old ++ mark_text self.0 station) }
    {
        if self.is_marked(station) {
            write!(text, "+{station}")?;
        }
        Ok(())
    }
}

/// Proves that the word of a claimed node has OCC and both sides and no mark. Proves that each flag
/// of `UseBits` is the bit of its name.
pub fn flags_are_the_bits_of_use()
    ensures occupied { IsOccupied BUSY.0 }
    ensures sides { (side : Side) → HasSide side BUSY.0 }
    ensures unmarked { (station : ℕ) → IsMarked station BUSY.0 → ⊥ }
    ensures occ { ⟦<UseBits as Flags>⟧.set_of OCC ≡ 2 ^ 0 }
    ensures left { ⟦<UseBits as Flags>⟧.set_of LEFT ≡ 2 ^ side_bit Side.Left }
    ensures right { ⟦<UseBits as Flags>⟧.set_of RIGHT ≡ 2 ^ side_bit Side.Right }
{}
