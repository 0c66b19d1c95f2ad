//! The counts of a machine.
ghost use Rattle.std.specs.Prelude.{◌≡◌, []};
ghost use Rattle.bitmap_tree.specs.Handles.{dim_of, id_of};
ghost use Rattle.bitmap_occupancy.specs.Counted.{IsCountOf};
ghost use Rattle.bitmap_occupancy.specs.Summary.{IsLargestIn};

use crate::counter::{Counter, add};
use crate::pass::read_words;
use crate::processors::{LEVELS, is_held};
use crate::summary::{FREE_PLACES, Occupancy};
use bitmap_tree::{BitmapTree, BlankSeat};

// Returns the largest dimension at which a count is not 0.
fn largest_free(free: &[u64; FREE_PLACES]) -> Option<u32>
    ensures { IsLargestIn free.now result }
{
    let mut largest = None;
    for dim in 0..FREE_PLACES {
        if free[dim] > 0 {
            largest = Some(dim as u32);
        }
    }
    largest
}

/// Counts the free blocks and the held processors of a machine. Reads each word once, and returns
/// the seat that knows what the loads found. It has no bit, so no
/// bit changes.
pub fn occupancy(tree: &BitmapTree) -> (Occupancy, BlankSeat)
    ensures table { result.1.table_id ≡ id_of tree.now }
    ensures counted { IsCountOf (dim_of tree.now) result.1.me.0.trail result.0 }
{
    let n = tree.dim();
    let (top, mut seat) = tree.read_top();
    let mut path = [top; LEVELS];
    let mut counter = Counter {
        from: 0,
        held: 0,
        free: [0; FREE_PLACES],
    };
    for processor in 0..1u64 << n {
        read_words(tree, &mut seat, &mut path, processor);
        add(n, &mut counter, processor, is_held(n, &path, processor));
    }
    let found = Occupancy {
        free: counter.free,
        held: counter.held,
        largest: largest_free(&counter.free),
    };
    (found, seat)
}
