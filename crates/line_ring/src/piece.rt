// What may wait in a ring. The jobs of a queue may.
use job_queue::QueuedJob;
use line_gate::Entered;

/// An element of a ring.
///
/// Contracts see the lane that puts a piece in, and its number in that lane (seq). They also see
/// which machines it is for, by their dimension.
pub trait Piece: Drop {
    ghost use Rattle.std.specs.Prelude.{ℕ};

    /// The entry that a piece comes with. A push consumes it and returns it in a token.
    type Entry;

    ghost lane: { Self → ℕ };

    ghost seq: { Self → ℕ };

    ghost is_for: { ℕ → Self → Type 0 };
}

impl Piece for QueuedJob {
    ghost use Rattle.job_queue.specs.Line.{IsMadeFor};

    type Entry = Entered;

    ghost lane = { λ q. q.id.lane };

    ghost seq = { λ q. q.id.seq };

    ghost is_for = { IsMadeFor };
}
