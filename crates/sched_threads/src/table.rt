// The table that threads share, and its steps.
//
// The desk is in the one slot of a table with one word. A seat that changes the word from 0 to 1
// has the turn and takes the desk. By the step that writes 0 it gives the desk back, and its view
// gains the turn.
ghost use Rattle.std.specs.Prelude.{◌≡◌, ℕ, ◌∷◌, [], IfErr, IfOk, IfSome};
ghost use Rattle.sched_threads.specs.declared.clocked.ClockedDesk.{ClockedDesk as Clocked};
ghost use Rattle.sched_board.specs.JobBoard.{IsFresh};
ghost use Rattle.sched_threads.specs.Ends.{IsEnd};
ghost use Rattle.sched_threads.specs.Rule.{IsTurn};
ghost use Rattle.sched_threads.specs.Step.{IsBarred, IsOut};
ghost use Rattle.sched_threads.specs.View.{turn, view};

use crate::clocked::ClockedDesk;
use crate::desk::Desk;
use crate::plays::{Arrive, Enter, Leave, ThreadRule};
use crate::receipt::{NotNow, TurnReceipt};
use crate::view::View;
use atomic_table::{Refused, Table};
use sched_board::ThreadSizes;
use std::alloc::{AllocError, Global};

pub(crate) type Seat = atomic_table::Seat<ClockedDesk, View>;

/// The table that threads share.
#[derive(Drop)]
pub(crate) struct TurnTable {
    pub table: Table<ClockedDesk, View, ThreadSizes, ThreadRule, Global>,
    ghost sized: { (table.shared.table_id.words ≡ 1) × (table.shared.table_id.slots ≡ 1) },
}

impl TurnTable {
    ghost use Rattle.sched_threads.specs.Handle.{sizes_of, table_of};

    // Makes a table with a new desk.
    pub fn new(alloc: Global, desk: Desk, sizes: &ThreadSizes) -> Result<TurnTable, AllocError>
        requires fresh { IsFresh sizes.now desk.board }
        ensures sizes { IfOk result (λ made. sizes_of made ≡ sizes.now) }
    {
        let mut slots = Vec::new(alloc);
        slots.push(ClockedDesk { desk, clock: 0 })?;
        let made = Table::<ClockedDesk, View, ThreadSizes, ThreadRule, Global>::new(
            alloc,
            &[0],
            slots,
            sizes,
        );
        match made {
            Ok((table, _)) => Ok(TurnTable { table }),
            Err(Refused { slots: _ }) => Err(AllocError),
        }
    }

    // Makes a seat that has the turn, unless another seat has it.
    pub fn arrive(&self) -> Result<Seat, NotNow>
        ensures table { IfOk result (λ seat. seat.table_id ≡ table_of self.now) }
        ensures took { IfOk result (λ seat. (x : Clocked) × IsOut seat.me x x) }
        ensures same_table { IfErr result (λ not_now. not_now.receipt.table_id
            ≡ table_of self.now) }
        ensures barred { IfErr result (λ not_now. IsBarred not_now.receipt.me) }
    {
        let (found, mut seat) = self.table.shared.load_new_seat::<Arrive>(0);
        if found == 0
            && self
                .table
                .shared
                .compare_exchange::<Enter>(&mut seat, 0, 0, 1)
                == 0
        {
            return Ok(seat);
        }
        Err(NotNow {
            receipt: TurnReceipt::of(seat),
        })
    }

    // Ends the turn of a seat, which notes it.
    pub fn leave(&self, seat: Seat) -> TurnReceipt
        requires table { seat.table_id ≡ table_of self.now }
        requires out { (x : Clocked) × (y : Clocked) × IsOut seat.me x y × IsTurn x y }
        ensures table { result.table_id ≡ table_of self.now }
        ensures noted { (x y : Clocked) → IsOut seat.me x y → (at : ℕ)
            × (result.me ≡ (view (turn at x y ∷ []) None, [])) }
    {
        let mut seat = seat;
        self.table.shared.store::<Leave>(&mut seat, 0, 0);
        TurnReceipt::of(seat)
    }

    // Ends the table. Returns the desk, unless a seat with the turn was dropped.
    pub fn end(self) -> Option<Desk>
        ensures { IfSome result (IsEnd (sizes_of self)) }
    {
        let TurnTable { table } = self;
        let mut closed = table.close();
        let word = closed.word(0);
        let ClockedDesk { desk, clock: _ } = closed.take(0);
        closed.free();
        if word != 0 {
            return None;
        }
        Some(desk)
    }
}
