//! The version of the library, as a number.

ghost use Rattle.std.specs.Prelude.{◌≡◌};

use release_version::VERSION_NUMBER;

/// Returns the version of the library: `CUBEJOBS_VERSION_NUMBER` of the header that it came with.
#[unsafe(no_mangle)]
pub extern "C" fn cubejobs_lanes_version_number() -> u32
    ensures version { result ≡ VERSION_NUMBER }
{
    VERSION_NUMBER
}
