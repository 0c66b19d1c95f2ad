//! What the collectives join items by.

ghost use Rattle.std.specs.Prelude.{◌≡◌, ◌↔◌, IsTrue};
ghost use Rattle.collectives.specs.Laws.{MonoidLaws};

/// A monoid: a way to join two values into one that is associative and has a unit. It need not be
/// commutative.
///
/// Only some members of the type may be values. The laws hold for values, and joining two values
/// gives a value.
pub trait Monoid: Copy {
    ghost unit: { Self };

    ghost join: { Self → Self → Self };

    ghost is_value: { Self → Type 0 };

    /// Returns the value that changes nothing on either side.
    fn unit() -> Self
        ensures { result ≡ unit };

    /// Joins two values, this one on the left.
    fn join(self, right: Self) -> Self
        requires left { is_value self }
        requires right { is_value right }
        ensures { result ≡ join self right };

    /// Returns whether this is a value.
    fn is_value(self) -> bool
        ensures { IsTrue result ↔ is_value self };

    ghost laws: { MonoidLaws is_value unit join };
}
