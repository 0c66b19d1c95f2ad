//! Loads of the words of a machine, each at its first processor.
ghost use Rattle.std.specs.Prelude.{◌≡◌, ◌≢◌, ℕ, List, ◌+◌, ◌/◌, ◌%◌, ◌^◌, ◌<◌, ◌≤◌, IfSome, IfNone};
ghost use Rattle.cube_shape.specs.declared.limits.TheConstants.{MAX_BITMAP_DIM};
ghost use Rattle.bitmap_tree.specs.Handles.{dim_of, id_of};
ghost use Rattle.bitmap_tree.specs.Reads.{AreSeen};
ghost use Rattle.bitmap_tree.specs.Rule.{first_word};
ghost use Rattle.bitmap_occupancy.specs.InnerPass.{width, word_at, IsPath, IsReadTo};

use crate::processors::LEVELS;
use bitmap_tree::{BitmapTree, BlankSeat};

// The first word of the level that has this many levels above it.
fn first_word(above: u32) -> u32
    requires { above ≤ MAX_BITMAP_DIM / 6 }
    ensures value { result ≡ first_word above }
    ensures limit { result ≤ first_word (MAX_BITMAP_DIM / 6) }
{
    match above {
        0 => 0,
        1 => 1,
        2 => 65,
        _ => 4161,
    }
}

// Returns the word of a level of which a processor is the first, if it is.
fn word_from(n: u32, level: u32, processor: u64) -> Option<u32>
    requires machine { n ≤ MAX_BITMAP_DIM }
    requires level { level < n / 6 }
    requires processor { processor < 2 ^ n }
    ensures first { IfSome result (λ word. (processor % width level ≡ 0)
        × (word ≡ word_at n level processor)) }
    ensures other { IfNone result (processor % width level ≢ 0) }
{
    let dim = 6 * level + 6;
    if processor % (1 << dim) != 0 {
        return None;
    }
    Some(first_word(n / 6 - level) + (processor >> dim) as u32)
}

// Reads the word of a level if a processor is its first.
fn read_word(
    tree: &BitmapTree,
    seat: &mut BlankSeat,
    path: &mut [u64; LEVELS],
    processor: u64,
    level: u32,
)
    requires table { seat.old.table_id ≡ id_of tree.now }
    requires level { level < dim_of tree.now / 6 }
    requires processor { processor < 2 ^ dim_of tree.now }
    requires read { IsReadTo (dim_of tree.now) processor level seat.old.me.0.trail }
    ensures table { seat.new.table_id ≡ id_of tree.now }
    ensures slots { seat.new.me.1 ≡ seat.old.me.1 }
    ensures read { IsReadTo (dim_of tree.now) processor (level + 1) seat.new.me.0.trail }
    ensures seen { (words : List ℕ) → AreSeen seat.new.me.0.trail words
        → AreSeen seat.old.me.0.trail words }
    ensures path { (words : List ℕ) → AreSeen seat.new.me.0.trail words
        → IsPath (dim_of tree.now) processor level words path.old
        → IsPath (dim_of tree.now) processor (level + 1) words path.new }
{
    let Some(word) = word_from(tree.dim(), level, processor) else {
        return;
    };
    path[level as usize] = tree.read(seat, word);
}

// Reads the words of which a processor is the first, the top word apart.
pub(crate) fn read_words(
    tree: &BitmapTree,
    seat: &mut BlankSeat,
    path: &mut [u64; LEVELS],
    processor: u64,
)
    requires table { seat.old.table_id ≡ id_of tree.now }
    requires processor { processor < 2 ^ dim_of tree.now }
    requires read { IsReadTo (dim_of tree.now) processor 0 seat.old.me.0.trail }
    ensures table { seat.new.table_id ≡ id_of tree.now }
    ensures slots { seat.new.me.1 ≡ seat.old.me.1 }
    ensures read { IsReadTo (dim_of tree.now) processor (dim_of tree.now / 6)
        seat.new.me.0.trail }
    ensures seen { (words : List ℕ) → AreSeen seat.new.me.0.trail words
        → AreSeen seat.old.me.0.trail words }
    ensures path { (words : List ℕ) → AreSeen seat.new.me.0.trail words
        → IsPath (dim_of tree.now) processor 0 words path.old
        → IsPath (dim_of tree.now) processor (dim_of tree.now / 6) words path.new }
{
    for level in 0..tree.dim() / 6 {
        read_word(tree, seat, path, processor, level);
    }
}
