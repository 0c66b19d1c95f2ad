ghost use Rattle.std.specs.Prelude.{⊤, [], ◌∷◌, codes};

use bitflags::{Flag, Flags, bitflag_items};

/// The use of a node's block: the set of the bits OCC, LEFT and RIGHT of its word.
#[derive(Clone, Copy, Debug, PartialEq, Eq, Hash)]
pub struct UseBits(u64);

bitflag_items! {
    impl UseBits: u64 {
        const OCC = 1;
        const LEFT = 2;
        const RIGHT = 4;
    }
}

impl Flags for UseBits {
    type Bits = u64;

    ghost exact = { ⊤ };

    ghost table = { (codes "OCC", 1) ∷ (codes "LEFT", 2) ∷ (codes "RIGHT", 4) ∷ [] };

    ghost set_of = { λ bits. bits.0 };

    fn flags<'a>() -> &'a [Flag<UseBits>] {
        UseBits::FLAGS
    }

    fn bits(&self) -> u64 {
        self.0
    }

    fn from_bits_retain(bits: u64) -> UseBits {
        UseBits(bits)
    }
}
