//! What a thread knows of its try to make a turn.
ghost use Rattle.std.specs.Prelude.{◌≡◌, ℕ, List, [], ◌∷◌, length};
ghost use Rattle.atomic_table.specs.Seated.{TableId, table_id_coded};
ghost use Rattle.sched_threads.specs.declared.view.View.{View as Known};
ghost use Rattle.sched_threads.specs.InnerHiddenReceipt.{hidden_owns, views_coded};

use crate::table::Seat;
use crate::view::View;
use atomic_table::Badge;
use std::marker::Model;

/// What a thread knows of its try to make a turn: the turn that it made, or that another thread had
/// the turn. It has no bytes.
#[derive(Drop)]
pub struct TurnReceipt {
    seat: Seat,
}

impl Model for TurnReceipt {
    ghost use Rattle.std.specs.Coded.{codes};
    ghost use Rattle.std.specs.Prelude.{◌≡◌, []};
    ghost use Rattle.sched_blocks.specs.Layout.{layout_code};
    ghost use Rattle.sched_threads.specs.Seats.{SeatOf};

    ghost Value = { SeatOf };

    ghost coded = { Prim.hlevel (codes, layout_code) };

    ghost view = { λ r. record { table_id = r.seat.table_id; me = r.seat.me } };

    ghost invariant = { λ r. r.seat.me.1 ≡ [] };
}

impl TurnReceipt {
    // Makes a receipt of a seat that has no desk.
    pub(crate) fn of(seat: Seat) -> TurnReceipt
        requires { seat.me.1 ≡ [] }
        ensures table { result.table_id ≡ seat.table_id }
        ensures me { result.me ≡ seat.me }
    {
        TurnReceipt { seat }
    }
}

/// Another thread had the turn. The call did nothing.
#[derive(Drop)]
pub struct NotNow {
    /// What the thread knows of its try.
    pub receipt: TurnReceipt,
}

// Only this file has one. So no other file takes a hidden receipt apart.
#[repr(C)]
#[derive(Clone, Copy)]
struct Seal {}

/// A receipt, or none: then it has no view. It cannot be dropped. It has no bytes, so a struct that
/// C keeps may have it.
#[repr(C)]
pub struct HiddenReceipt {
    seal: Seal,
    pub ghost table_id: { TableId } by { table_id_coded },
    pub ghost id: { ℕ },
    pub ghost views: { List Known } by { views_coded },
}

impl Model for HiddenReceipt {
    ghost also_owns = { λ r. hidden_owns r.table_id r.id r.views };
}

impl HiddenReceipt {
    ghost use Rattle.sched_threads.specs.HiddenReceipts.{seat_in};

    /// Makes a place for a receipt, with none in it.
    #[inline(always)]
    pub fn blank() -> HiddenReceipt
        ensures { result.views ≡ [] }
    {
        HiddenReceipt { seal: Seal {} }
    }

    // Puts another seat in its place, and returns the seat that was there. No bytes move.
    #[inline(always)]
    fn exchange(self, badge: Badge<View>) -> (HiddenReceipt, Badge<View>)
        ensures { (result.0.table_id ≡ badge.table_id) × (result.0.id ≡ badge.id)
            × (result.0.views ≡ badge.views) × (result.1.table_id ≡ self.table_id)
            × (result.1.id ≡ self.id) × (result.1.views ≡ self.views) }
    {
        let HiddenReceipt { seal: _ } = self;
        (HiddenReceipt { seal: Seal {} }, badge)
    }

    // Takes a place apart in which there is no receipt.
    #[inline(always)]
    fn vanish(self)
        requires { self.views ≡ [] }
    {
        let HiddenReceipt { seal: _ } = self;
    }

    /// Hides a receipt. No bytes move.
    #[inline(always)]
    pub fn of(receipt: TurnReceipt) -> HiddenReceipt
        ensures { seat_in result ≡ receipt }
    {
        let TurnReceipt { seat } = receipt;
        let (hidden, none) = HiddenReceipt::blank().exchange(seat.into_badge());
        drop(none);
        hidden
    }

    /// Lets a receipt go, or none.
    #[inline(always)]
    pub fn leave(self) {
        let (none, last) = self.exchange(Badge::blank());
        none.vanish();
        drop(last);
    }
}

unsafe impl Send for HiddenReceipt {}
