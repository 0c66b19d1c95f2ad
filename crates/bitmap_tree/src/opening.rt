//! How a machine is opened.
ghost use Rattle.std.specs.Prelude.{◌≡◌, ◌+◌, ◌/◌, ◌^◌, ◌<◌, ◌≤◌, [], vec_len, IfOk};
ghost use Rattle.bitmap_tree.specs.Rule.{word_count};
ghost use Rattle.bitmap_tree.specs.InnerRule.{first_view};
ghost use Rattle.bitmap_tree.specs.Handles.{id_of, dim_of, permits_of};

use crate::handles::BitmapTree;
use crate::layout::words_of;
use crate::marks::Marks;
use crate::spares::Spares;
use crate::steps::{BlockSeat, Words};
use crate::view::Size;
use cube_shape::MAX_BITMAP_DIM;
use std::alloc::{AllocError, Global};

// The number of processors of a word of the lowest level, and of a cache line of such words.
const WORD_SIZE: u64 = 64;

const LINE_SIZE: u64 = 8 * WORD_SIZE;

// How many threads have a start of their own: one for each cache line of 128 words.
const STARTS: u32 = 128 / 8;

// Makes the marks of all levels below the top one.
fn marks_of(alloc: Global, n: u32) -> Result<Vec<Marks>, AllocError>
    requires { n ≤ MAX_BITMAP_DIM }
    ensures { IfOk result (λ marks. vec_len marks ≡ n / 6) }
{
    let mut marks = Vec::new(alloc);
    for level in 0..n / 6 {
        marks.push(Marks::open(alloc, n - 6 * level)?)?;
    }
    Ok(marks)
}

impl BitmapTree {
    /// Opens a machine of dimension `n` in which nothing is held, and where any caller may take.
    pub fn open(alloc: Global, n: u32) -> Result<BitmapTree, AllocError>
        requires { n ≤ MAX_BITMAP_DIM }
        ensures dim { IfOk result (λ made. dim_of made ≡ n) }
        ensures anyone { IfOk result (λ made. permits_of made ≡ 0) }
    {
        let (machine, seat) = BitmapTree::open_sized(alloc, Size { dim: n, permits: 0 })?;
        drop(seat.leave());
        Ok(machine)
    }

    // Opens a machine of this size. The seat has all its permits.
    pub(crate) fn open_sized(
        alloc: Global,
        size: Size,
    ) -> Result<(BitmapTree, BlockSeat), AllocError>
        requires { size.dim ≤ MAX_BITMAP_DIM }
        ensures size { IfOk result (λ made. made.0.size ≡ size) }
        ensures table { IfOk result (λ made. made.1.table_id ≡ id_of made.0) }
        ensures seat { IfOk result (λ made. made.1.me ≡ (first_view size, [])) }
    {
        let mut words = vec![in alloc; u64::MAX; words_of(size.dim) as usize]?;
        words[0] = 0;
        let marks = marks_of(alloc, size.dim)?;
        let spares = Spares::open(alloc)?;
        let (bits, seat) = Words::open(alloc, &words, &size)?;
        Ok((
            BitmapTree {
                bits,
                size,
                marks,
                spares,
                room: words,
            },
            seat,
        ))
    }

    /// Returns a processor at which the searches of a thread may begin. Threads of different
    /// numbers begin in different cache lines near the front, for 16 threads, as far as the machine
    /// has them. So they seldom meet, and large blocks stay whole.
    pub fn start_of(&self, thread: u32) -> u64
        ensures { result < 2 ^ dim_of self.now }
    {
        let size = 1u64 << self.size.dim;
        let first = LINE_SIZE * (thread % STARTS) as u64;
        (first + WORD_SIZE * (first / size)) % size
    }

    /// Returns the dimension of the machine.
    pub fn dim(&self) -> u32
        ensures dim { result ≡ dim_of self.now }
        ensures limit { dim_of self.now ≤ MAX_BITMAP_DIM }
    {
        self.size.dim
    }
}
