// Optional limits on how often a call does something.
ghost use Rattle.std.specs.Prelude.{◌≡◌, ◌<◌, ◌^◌, ◌↔◌, IsTrue, IfSome, Some};

// Returns whether the count is the limit. Without a limit it never is.
pub(crate) fn is_reached(limit: Option<u32>, count: usize) -> bool
    ensures reached { IsTrue result ↔ limit ≡ Some count }
    ensures word { IfSome limit (λ most. most < 2 ^ 32) }
{
    match limit {
        Some(most) => count == most as usize,
        None => false,
    }
}
