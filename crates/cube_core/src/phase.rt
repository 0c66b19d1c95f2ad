ghost use Rattle.std.specs.Prelude.{◌≡◌};
ghost use Rattle.cube_core.specs.Event.{seen_at};
ghost use Rattle.cube_core.specs.Phase.{is_seen_free};

use status_word::Word;

/// What a station on its way up after a release has seen of a child of the node where it is.
#[derive(Clone, Copy, Debug, PartialEq, Eq, Hash)]
pub enum Seen {
    NotYet,
    Free,
    Used,
}

impl Seen {
    /// Returns what a station sees of a child with this word.
    pub fn of(word: Word) -> Seen
        ensures { result ≡ seen_at word.0 }
    {
        if word.is_free() {
            Seen::Free
        } else {
            Seen::Used
        }
    }

    /// Returns whether the child was seen free.
    pub fn is_free(self) -> bool
        ensures { result ≡ is_seen_free self }
    {
        matches!(self, Seen::Free)
    }
}

/// What a station does at the moment, and so which event it makes next.
///
/// Field `node` is the node whose block it takes or gives back. Field `at` is the ancestor of its
/// next event.
#[derive(Clone, Copy, Debug, PartialEq, Eq, Hash)]
pub enum Phase {
    /// Owns nothing, and may begin a take.
    Idle,
    /// Looks at the node next.
    Looking {
        node: u64,
    },
    /// Has found the node free, with this word, and claims it next.
    Looked {
        node: u64,
        word: u64,
    },
    /// Owns the node, has passed all ancestors below `at`, and sweeps `at` next.
    Climbing {
        node: u64,
        at: u64,
    },
    /// Has swept `at`, and raises its side there next.
    Swept {
        node: u64,
        at: u64,
    },
    /// Holds the block of the node, and may begin a release.
    Holding {
        node: u64,
    },
    /// Gives the node back by a Zero next.
    Leaving {
        node: u64,
    },
    /// Has found `at` occupied, and gives the node back by a Zero next.
    Backing {
        node: u64,
        at: u64,
    },
    /// Owns nothing any more, and is to clear `at`.
    Arriving {
        at: u64,
    },
    /// Has cleared the marks of `at`.
    Unmarked {
        at: u64,
    },
    /// Has set its mark at `at`, which made it this word, and looks at the children.
    Marked {
        at: u64,
        word: u64,
        left: Seen,
        right: Seen,
    },
    /// Makes no event any more.
    Retired,
}
