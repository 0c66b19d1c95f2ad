//! What holds of tickets.

ghost use Rattle.std.specs.Prelude.{◌≡◌, ℕ, ◌+◌, ◌*◌, ◌<◌};
ghost use Rattle.sched_jobs.specs.declared.nodes.TheConstants.{MAX_SLOTS as SLOTS};

/// Says that different slots, or generations of a slot, have different tickets. So a ticket names
/// one job for ever.
pub fn tickets_differ()
    ensures { (a b u v : ℕ) → u < SLOTS → v < SLOTS → a * SLOTS + u ≡ b * SLOTS + v
        → (a ≡ b) × (u ≡ v) }
{}
