//! A load that shows that no station steps with a seat twice.
ghost use Rattle.std.specs.Prelude.{◌≡◌};
ghost use Rattle.tree_steps.specs.Once.{AreOnce, tells_once};
ghost use Rattle.tree_steps.specs.Tree.{id_of};

use crate::tree::{Seat, Tree};
use crate::view::View;
use atomic_table::Play;

/// A load that shows that no station steps with a seat twice.
pub(crate) struct Recount;

impl Play<(), View> for Recount {
    ghost then = { tells_once };
}

impl Tree {
    /// Loads a word, which changes nothing. Shows that no station steps with this seat twice.
    pub fn recount(&self, seat: &mut Seat)
        requires { seat.old.table_id ≡ id_of self.now }
        ensures seat { seat.new.table_id ≡ seat.old.table_id }
        ensures same { seat.new.me ≡ seat.old.me }
        ensures once { AreOnce seat.old.me.0.stations }
    {
        self.table.shared.load::<Recount>(seat, 0);
    }
}
