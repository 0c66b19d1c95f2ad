//! The monoids of the crate: numbers that an operator joins, and affine maps.

ghost use Rattle.std.specs.Prelude.{◌≡◌, ℕ, ◌+◌, ◌-◌, ◌%◌, ◌^◌, min, max, bit_and, bit_or, bit_xor};
ghost use Rattle.collectives.specs.Laws.{MonoidLaws};
ghost use Rattle.collectives.specs.Operations.{IsU64, affine, affine_join, IsAffineValue};
ghost use Rattle.collectives.specs.Inner.OperationLaws.{add_laws, min_laws, max_laws, xor_laws, and_laws, or_laws, affine_laws};

use crate::monoid::Monoid;
use std::marker::{Model, PhantomData};

/// An operator that joins two numbers into one. It is associative and has a unit.
///
/// A type that implements this trait is a name for the operator. No value of that type is needed.
pub trait Operator: Copy {
    ghost unit: { ℕ };

    ghost join: { ℕ → ℕ → ℕ };

    /// Returns the number that changes nothing on either side.
    fn unit() -> u64
        ensures { result ≡ unit };

    /// Joins two numbers, the first on the left.
    fn join(left: u64, right: u64) -> u64
        ensures { result ≡ join left right };

    ghost laws: { MonoidLaws IsU64 unit join };
}

/// A number that the operator `O` joins with others. Each `u64` is a value.
#[derive(Clone, Copy, Debug, PartialEq, Eq, Hash)]
pub struct Operand<O> {
    number: u64,
    operator: PhantomData<O>,
}

impl<O> Model for Operand<O> {
    ghost Value = { ℕ };

    ghost view = { λ operand. operand.number };

    ghost inverse = { λ number. record { number = number; operator = record {} } };
}

impl<O: Operator> Operand<O> {
    /// Makes an operand of the number.
    pub fn new(number: u64) -> Self
        ensures number { result ≡ number }
        ensures value { IsU64 result }
    {
        Operand {
            number,
            operator: PhantomData,
        }
    }

    /// Returns the number.
    pub fn number(self) -> u64
        ensures { result ≡ self }
    {
        self.number
    }
}

impl<O: Operator> Monoid for Operand<O> {
    ghost unit = { O.unit };

    ghost join = { O.join };

    ghost is_value = { IsU64 };

    fn unit() -> Self {
        Operand::new(O::unit())
    }

    fn join(self, right: Self) -> Self {
        Operand::new(O::join(self.number, right.number))
    }

    fn is_value(self) -> bool {
        true
    }

    ghost laws = { O.laws };
}

/// Addition modulo `2^64`.
#[derive(Clone, Copy, Debug, PartialEq, Eq, Hash)]
pub struct Addition;

/// A number that `Addition` joins with others.
pub type Add = Operand<Addition>;

impl Operator for Addition {
    ghost unit = { 0 };

    ghost join = { λ left right. (left + right) % 2 ^ 64 };

    fn unit() -> u64 {
        0
    }

    fn join(left: u64, right: u64) -> u64 {
        left.wrapping_add(right)
    }

    ghost laws = { add_laws };
}

/// The smaller of two numbers.
#[derive(Clone, Copy, Debug, PartialEq, Eq, Hash)]
pub struct Minimum;

/// A number that `Minimum` joins with others.
pub type Min = Operand<Minimum>;

impl Operator for Minimum {
    ghost unit = { 2 ^ 64 - 1 };

    ghost join = { min };

    fn unit() -> u64 {
        u64::MAX
    }

    fn join(left: u64, right: u64) -> u64 {
        left.min(right)
    }

    ghost laws = { min_laws };
}

/// The larger of two numbers.
#[derive(Clone, Copy, Debug, PartialEq, Eq, Hash)]
pub struct Maximum;

/// A number that `Maximum` joins with others.
pub type Max = Operand<Maximum>;

impl Operator for Maximum {
    ghost unit = { 0 };

    ghost join = { max };

    fn unit() -> u64 {
        0
    }

    fn join(left: u64, right: u64) -> u64 {
        left.max(right)
    }

    ghost laws = { max_laws };
}

/// Exclusive or, bit by bit.
#[derive(Clone, Copy, Debug, PartialEq, Eq, Hash)]
pub struct BitwiseXor;

/// A number that `BitwiseXor` joins with others.
pub type Xor = Operand<BitwiseXor>;

impl Operator for BitwiseXor {
    ghost unit = { 0 };

    ghost join = { bit_xor };

    fn unit() -> u64 {
        0
    }

    fn join(left: u64, right: u64) -> u64 {
        left ^ right
    }

    ghost laws = { xor_laws };
}

/// And, bit by bit.
#[derive(Clone, Copy, Debug, PartialEq, Eq, Hash)]
pub struct BitwiseAnd;

/// A number that `BitwiseAnd` joins with others.
pub type And = Operand<BitwiseAnd>;

impl Operator for BitwiseAnd {
    ghost unit = { 2 ^ 64 - 1 };

    ghost join = { bit_and };

    fn unit() -> u64 {
        !0
    }

    fn join(left: u64, right: u64) -> u64 {
        left & right
    }

    ghost laws = { and_laws };
}

/// Or, bit by bit.
#[derive(Clone, Copy, Debug, PartialEq, Eq, Hash)]
pub struct BitwiseOr;

/// A number that `BitwiseOr` joins with others.
pub type Or = Operand<BitwiseOr>;

impl Operator for BitwiseOr {
    ghost unit = { 0 };

    ghost join = { bit_or };

    fn unit() -> u64 {
        0
    }

    fn join(left: u64, right: u64) -> u64 {
        left | right
    }

    ghost laws = { or_laws };
}

/// The map of `x` to `a * x + b` modulo `2^32`. Values have an `a` and a `b` below `2^32`.
///
/// Joining two maps applies the left one first. It is not commutative.
#[derive(Clone, Copy, Debug, PartialEq, Eq, Hash)]
pub struct Affine {
    /// The factor.
    pub a: u64,
    /// The summand.
    pub b: u64,
}

impl Monoid for Affine {
    ghost unit = { affine 1 0 };

    ghost join = { affine_join };

    ghost is_value = { IsAffineValue };

    fn unit() -> Affine {
        Affine { a: 1, b: 0 }
    }

    fn join(self, right: Affine) -> Affine {
        Affine {
            a: right.a * self.a % (1 << 32),
            b: (right.a * self.b + right.b) % (1 << 32),
        }
    }

    fn is_value(self) -> bool {
        self.a < 1 << 32 && self.b < 1 << 32
    }

    ghost laws = { affine_laws };
}
