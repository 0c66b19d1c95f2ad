//! The law of the machine for two handles.
ghost use Rattle.std.specs.Prelude.{◌≡◌, false, true, IsTrue};
ghost use Rattle.cubejobs_regions.specs.Apart.{HoldApart};
ghost use Rattle.cubejobs_regions.specs.Handle.{machine_of};
ghost use Rattle.cubejobs_regions.specs.Holding.{refusal_of_call, refusal_of_giving, AreNumbered, IsOfItsNumber};
ghost use Rattle.cubejobs_regions.specs.Holds.{hold_of};
ghost use Rattle.cubejobs_regions.specs.Machine.{number_of};

use crate::block_handle::BlockHandle;
use crate::codes::DONE;
use crate::gives::{refusal, take_out};
use crate::handle::Handle;
use crate::machine::Machine;
use crate::places::machine_at;

// States that two blocks of a machine that are held at one moment are apart, if there are two.
fn compare(machine: &Machine, a: &mut BlockHandle, b: &mut BlockHandle) -> bool
    requires first { IsOfItsNumber machine.now a.old }
    requires second { IsOfItsNumber machine.now b.old }
    ensures both { refusal_of_giving (number_of machine.now) (hold_of a.old) ≡ DONE
        → refusal_of_giving (number_of machine.now) (hold_of b.old) ≡ DONE → result ≡ true }
    ensures apart { IsTrue result → HoldApart a.old b.old a.new b.new }
    ensures unchanged { result ≡ false → (a.new ≡ a.old) × (b.new ≡ b.old) }
{
    let number = machine.number();
    if refusal(number, a) != DONE {
        return false;
    }
    if refusal(number, b) != DONE {
        return false;
    }
    let first = take_out(machine, a);
    let second = take_out(machine, b);
    let (first, second) = machine.tree().apart(first, second);
    a.put(first, number);
    b.put(second, number);
    true
}

/// Returns whether two handles hold blocks of the machine. These are apart, at whatever moment the
/// call comes. The call changes nothing. This is a law for any two handles, and no function for C.
pub fn apart(thread: &mut Handle, a: &mut BlockHandle, b: &mut BlockHandle) -> bool
    requires first { AreNumbered (machine_of thread.old) a.old }
    requires second { AreNumbered (machine_of thread.old) b.old }
    ensures both { refusal_of_call (machine_of thread.old) (hold_of a.old) ≡ DONE
        → refusal_of_call (machine_of thread.old) (hold_of b.old) ≡ DONE → result ≡ true }
    ensures apart { IsTrue result → HoldApart a.old b.old a.new b.new }
    ensures machine { machine_of thread.new ≡ machine_of thread.old }
    ensures unchanged { result ≡ false → (a.new ≡ a.old) × (b.new ≡ b.old) }
{
    if !thread.is_open() {
        return false;
    }
    compare(machine_at(thread.ptr.get_mut()), a, b)
}
