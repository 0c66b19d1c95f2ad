// The end of a ring.
ghost use Rattle.std.specs.Prelude.{◌≡◌, ℕ, ◌<◌, ◌≤◌, length};
ghost use Rattle.std.specs.List.{All};
ghost use Rattle.ghost_history.specs.Sums.{total, is_at};
ghost use Rattle.line_ring.specs.Run.{RingRun};

use crate::handle::RingEnd;
use crate::piece::Piece;
use crate::ring::Ring;
use crate::rule::Drain;
use std::collections::VecDeque;
use std::sync::Wait;

impl<T: Piece> Ring<T> {
    /// Ends the ring. As many lanes and passes have come back as were given out, which are all of
    /// them. Returns the pieces that no pass took, front first.
    pub fn into_rest<R: Wait>(self, rt: &R, end: RingEnd<T>) -> VecDeque<T>
        requires end { end.ring ≡ self.id }
        requires lanes { length end.back_lanes ≡ end.dealt_lanes }
        requires passes { length end.back_passes ≡ end.dealt_passes }
        ensures run { RingRun T.lane T.seq end.back_lanes end.back_passes result.items }
        ensures numbers { (k : ℕ) → k < end.dealt_lanes →
            total (λ l. is_at k l.number) end.back_lanes ≡ 1 }
        ensures fits { length result.items ≤ self.capacity }
        ensures machine { All (T.is_for self.id.machine) result.items }
    {
        let Ring {
            queue,
            machine: _,
            room: mut rest,
        } = self;
        let RingEnd {
            mut seat,
            lanes: _,
            passes: _,
        } = end;
        // The ring holds no more pieces than `rest` has room for, and no further piece comes in.
        queue.len_as::<Drain, R>(rt, &mut seat);
        while let Some(piece) = queue.pop_as::<Drain, R>(rt, &mut seat) {
            rest.push_back_reserved(piece);
        }
        rest
    }
}
