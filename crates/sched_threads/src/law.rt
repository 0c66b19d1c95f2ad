//! The law of turns.

ghost use Rattle.std.specs.Prelude.{List};
ghost use Rattle.sched_board.specs.declared.sizes.ThreadSizes.{ThreadSizes};
ghost use Rattle.sched_board.specs.JobBoard.{IsFresh};
ghost use Rattle.sched_threads.specs.declared.view.Turn.{Turn};
ghost use Rattle.sched_threads.specs.declared.clocked.ClockedDesk.{ClockedDesk};
ghost use Rattle.sched_threads.specs.Ends.{Leads};
ghost use Rattle.sched_threads.specs.Rule.{AreTurns, last_desk};

/// Says that each sequence of turns of a new scheduler is a history of deeds of `sched_law`. The
/// history leads to a team that the board shows.
pub fn turns_are_a_history()
    ensures { (sizes : ThreadSizes) (first : ClockedDesk) (turns : List Turn)
        → IsFresh sizes first.desk.board → AreTurns first turns
        → Leads sizes (last_desk first turns).desk.board }
{}
