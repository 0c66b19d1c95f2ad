//! Why a search found no block.
ghost use Rattle.std.specs.Prelude.{◌≡◌, ◌⊎◌, true, false};
ghost use Rattle.bitmap_tree.specs.declared.no_block.NoBlock.TheVariants.{Disturbed, Full};

// Why a search found no block.
#[derive(Clone, Copy)]
pub(crate) enum NoBlock {
    // Nothing in which it looked had room.
    Full,
    // It gave up a word, in which it lost its exchanges to other calls.
    Disturbed,
}

impl NoBlock {
    // Why neither of two searches found a block.
    #[inline(always)]
    pub(crate) fn and(self, other: NoBlock) -> NoBlock
        ensures full { result ≡ Full → (self ≡ Full) × (other ≡ Full) }
        ensures disturbed { result ≡ Disturbed → (self ≡ Disturbed) ⊎ (other ≡ Disturbed) }
    {
        match self {
            NoBlock::Full => other,
            NoBlock::Disturbed => NoBlock::Disturbed,
        }
    }

    // Whether the search gave up a word.
    #[inline(always)]
    pub(crate) fn is_disturbed(self) -> bool
        ensures full { result ≡ false → self ≡ Full }
        ensures disturbed { result ≡ true → self ≡ Disturbed }
    {
        match self {
            NoBlock::Full => false,
            NoBlock::Disturbed => true,
        }
    }
}
