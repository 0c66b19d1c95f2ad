ghost use Rattle.std.specs.Prelude.{◌≡◌, Ok};

mod calls;
mod script;

use std::fmt::Debug;
use std::process::Abort;

// Returns what was made. Aborts if there was no memory for it.
fn made<T, E: Debug>(rt: &impl Abort, it: Result<T, E>) -> T
    ensures { it ≡ Ok result }
{
    it.expect(rt, "no memory")
}
