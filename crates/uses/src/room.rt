//! A caller of `cube_tree` that has all stations.

ghost use Rattle.std.specs.Prelude.{◌≡◌, ℕ, ◌≤◌, ◌↔◌, IsTrue};
ghost use Rattle.cube_shape.specs.Machine.{HasNoFit};
ghost use Rattle.cube_tree.specs.Solo.{solo_dim, solo_size, held_by, AllHold};

use cube_tree::Solo;

/// Returns whether a take of a block of dimension `k` would succeed. It takes one and releases it
/// at once.
pub fn has_room(solo: &mut Solo, k: u32) -> bool
    requires dim { k ≤ solo_dim solo.old }
    ensures room { IsTrue result ↔ ((AllHold solo.old → ⊥)
        × (HasNoFit (solo_dim solo.old) k (held_by solo.old) → ⊥)) }
    ensures same { (s : ℕ) → held_by solo.new s ≡ held_by solo.old s }
    ensures size { solo_size solo.new ≡ solo_size solo.old }
{
    let Ok(station) = solo.take(k) else {
        return false;
    };
    solo.release(station);
    true
}
