//! The answer of a call about a block.

ghost use Rattle.std.specs.Prelude.{◌≡◌};
ghost use Rattle.cubejobs_fit.specs.Answers.{NamesNone, region_of};

use crate::codes::DONE;
use cube_shape::Region;

/// The answer of a call about a block.
#[repr(C)]
#[derive(Clone, Copy, Debug)]
pub struct Answer {
    /// `DONE`, or why the call was refused.
    pub code: u32,
    /// The block's dimension if the call succeeded, else 0.
    pub dim: u32,
    /// The block's first processor if the call succeeded, else 0.
    pub base: u64,
}

// Makes the answer of a successful call with a block.
pub(crate) fn done(region: Region) -> Answer
    ensures code { result.code ≡ DONE }
    ensures region { region_of result ≡ region }
{
    Answer {
        code: DONE,
        dim: region.dim,
        base: region.base,
    }
}

// Makes the answer of a refused call.
pub(crate) fn refused(code: u32) -> Answer
    ensures code { result.code ≡ code }
    ensures no_region { NamesNone result }
{
    Answer {
        code,
        dim: 0,
        base: 0,
    }
}
