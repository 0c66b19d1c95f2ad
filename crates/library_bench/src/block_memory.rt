//! Calls to which memory can be refused, and calls that take none.
ghost use Rattle.std.specs.Prelude.{◌≡◌, length};
ghost use Rattle.std.specs.List.{All};
ghost use Rattle.bitmap_tree.specs.Handles.{dim_of, permits_of, IsPermitOf};

use crate::BenchError;
use bitmap_tree::{BitmapTree, Permit};
use std::alloc::Global;
use std::io;

// The dimension of the machines.
const DIM: u32 = 10;

// Prints a call and the numbers that came back.
fn tell<R: Print>(rt: &R, call: &str, back: &[u64]) -> io::Result<()> {
    rt.print(call)?;
    for number in back {
        print!(rt; " {number}")?;
    }
    rt.println("")
}

// Takes a block and releases it, and closes the machine.
fn use_machine<R: Print>(rt: &R, alloc: Global, tree: BitmapTree) -> io::Result<()>
    requires anyone { permits_of tree ≡ 0 }
    requires dim { dim_of tree ≡ 10 }
{
    let taken = match tree.take(5, 100) {
        Ok(held) => {
            let base = held.region().base;
            tree.release(held);
            tell(rt, "take", &[base])
        }
        Err(_seat) => tell(rt, "take", &[]),
    };
    let words = tree.close(Vec::new(alloc));
    taken?;
    tell(rt, "close", &[words.len() as u64])
}

// Opens a machine and uses it. Returns how many calls had memory.
fn open<R: Print>(rt: &R, alloc: Global) -> io::Result<u64> {
    match BitmapTree::open(alloc, DIM) {
        Ok(tree) => {
            let told = tell(rt, "open", &[tree.dim() as u64]);
            let used = use_machine(rt, alloc, tree);
            told?;
            used?;
            Ok(1)
        }
        Err(_) => {
            tell(rt, "open OutOfMemory", &[])?;
            Ok(0)
        }
    }
}

// Closes a machine of which all permits are there.
fn close<R: Print>(rt: &R, tree: BitmapTree, permits: Vec<Permit>) -> io::Result<()>
    requires of_machine { All (IsPermitOf tree) permits.items }
    requires all { length permits.items ≡ permits_of tree }
    requires some { permits_of tree ≡ 3 }
{
    let words = tree.close_with_permits(permits);
    tell(rt, "close_with_permits", &[words.len() as u64])
}

// Opens a machine with permits, and closes it. Returns how many calls had memory.
fn open_with_permits<R: Print>(rt: &R, alloc: Global) -> io::Result<u64> {
    match BitmapTree::open_with_permits(alloc, DIM, 3) {
        Ok((tree, permits)) => {
            let told = tell(rt, "open_with_permits", &[permits.len() as u64]);
            let closed = close(rt, tree, permits);
            told?;
            closed?;
            Ok(1)
        }
        Err(_) => {
            tell(rt, "open_with_permits OutOfMemory", &[])?;
            Ok(0)
        }
    }
}

// Makes all calls. Returns how many had memory.
fn call_all<R: Print>(rt: &R, alloc: Global) -> io::Result<u64> {
    rt.println("begin")?;
    let opened = open(rt, alloc)?;
    let with_permits = open_with_permits(rt, alloc)?;
    Ok(opened.wrapping_add(with_permits))
}

/// Makes the calls, and prints how many had memory.
pub(crate) fn run<R: Print>(rt: &R, alloc: Global) -> Result<(), BenchError> {
    let Ok(count) = call_all(rt, alloc) else {
        return Err(BenchError::Failed);
    };
    match rt.println(count) {
        Ok(()) => Ok(()),
        Err(_) => Err(BenchError::Failed),
    }
}
