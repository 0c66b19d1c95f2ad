//! Where the words of the levels lie, and the unit around a processor.
ghost use Rattle.std.specs.Prelude.{◌≡◌, ℕ, ◌+◌, ◌-◌, ◌*◌, ◌/◌, ◌%◌, ◌^◌, ◌<◌, ◌≤◌};
ghost use Rattle.cube_shape.specs.Region.{block};
ghost use Rattle.bitmap_tree.specs.Rule.{first_word, word_count};

use crate::mask::WORD_DIM;
use cube_shape::{MAX_BITMAP_DIM, Region};

// The first word of the level that has this many levels above it.
pub(crate) fn first_word(above: u32) -> u32
    requires { above ≤ MAX_BITMAP_DIM / 6 }
    ensures value { result ≡ first_word above }
    ensures limit { result ≤ first_word (MAX_BITMAP_DIM / 6) }
{
    match above {
        0 => 0,
        1 => 1,
        2 => 65,
        _ => 4161,
    }
}

// The number of words of a machine of dimension `n`.
pub(crate) fn words_of(n: u32) -> u32
    requires { n ≤ MAX_BITMAP_DIM }
    ensures value { result ≡ word_count n }
    ensures limit { result ≤ word_count MAX_BITMAP_DIM }
{
    first_word(n / 6) + (1 << n.saturating_sub(WORD_DIM))
}

// The number of words of `2^units` units.
pub(crate) fn words_in(units: u32) -> u32
    requires { units ≤ MAX_BITMAP_DIM }
    ensures value { result ≡ 2 ^ (units - 6) }
    ensures limit { result ≤ 2 ^ (MAX_BITMAP_DIM - 6) }
{
    1 << units.saturating_sub(WORD_DIM)
}

// The aligned block of a dimension in which a processor lies.
pub(crate) fn block_at(processor: u64, dim: u32) -> Region
    requires { dim ≤ MAX_BITMAP_DIM }
    ensures { result ≡ block dim (processor / 2 ^ dim) }
{
    Region {
        base: (processor >> dim) << dim,
        dim,
    }
}
