ghost use Rattle.std.specs.Prelude.{◌≡◌, ◌+◌, ◌^◌, ◌<◌};
ghost use Rattle.cube_tree.specs.Tries.{counted, refusal_sum};

use tree_steps::Why;

/// How many tries of a take were refused, for each reason.
#[derive(Clone, Copy, Debug, PartialEq, Eq, Hash)]
pub struct Refusal {
    pub in_use: u64,
    pub lost: u64,
    pub under: u64,
}

impl Refusal {
    pub(crate) const NONE: Refusal = Refusal {
        in_use: 0,
        lost: 0,
        under: 0,
    };
}

// Returns the counts with one refusal more.
pub(crate) fn count(refusal: Refusal, why: Why) -> Refusal
    requires { refusal_sum refusal < 2 ^ 32 }
    ensures { result ≡ counted why refusal }
{
    let mut refusal = refusal;
    match why {
        Why::InUse => refusal.in_use += 1,
        Why::Lost => refusal.lost += 1,
        Why::Under(_) => refusal.under += 1,
    }
    refusal
}
