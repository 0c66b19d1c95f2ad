//! The functions of the library that open and close a planner, under the names that C declares.
ghost use Rattle.std.specs.Prelude.{◌≡◌, ◌≢◌, ◌%◌, ◌/◌, ◌≤◌, ◌⊎◌, None, IsSome};
ghost use Rattle.cubejobs_plan.specs.Handle.{OnCore, core_of};
ghost use Rattle.cubejobs_plan.specs.Options.{IsInRange, IsNew};
ghost use Rattle.cubejobs_plan.specs.Sizes.{bytes_of};

use crate::codes::{
    ALREADY_OPEN, BAD_VERSION, DONE, NOT_OPEN, OUT_OF_MEMORY, OUT_OF_RANGE, VERSION,
};
use crate::handle::Handle;
use crate::opening::{bytes, opened, opened_in};
use crate::options::{Options, are_in_range};
use fixed_vec::Chunk;
use std::alloc::Global;
use std::mem::replace;

/// Returns how many bytes a planner needs, or 0 if an option is out of range.
#[unsafe(no_mangle)]
pub extern "C" fn cubejobs_plan_bytes(options: Options) -> u64
    ensures none { (IsInRange options → ⊥) → result ≡ 0 }
    ensures some { IsInRange options → result ≡ bytes_of options.dim options.jobs }
{
    if !are_in_range(options) {
        return 0;
    }
    bytes(options)
}

/// Opens a planner without jobs, at time 0. `version` is that of the caller's header.
///
/// `address` is that of the caller's memory, or 0: then the planner takes memory of the heap.
/// `memory` is that memory, as words of 8 bytes. It has none unless the address is a multiple of 8.
/// The words are the planner's until it is closed.
#[unsafe(no_mangle)]
pub extern "C" fn cubejobs_plan_open_version(
    alloc: Global,
    plan: &mut Handle,
    version: u32,
    options: Options,
    memory: Chunk,
    address: usize,
) -> u32
    ensures bad_version { version ≢ VERSION → result ≡ BAD_VERSION }
    ensures already_open { version ≡ VERSION → IsSome (core_of plan.old)
        → result ≡ ALREADY_OPEN }
    ensures out_of_range { version ≡ VERSION → core_of plan.old ≡ None
        → (IsInRange options → ⊥) ⊎ (address % 8 ≢ 0) → result ≡ OUT_OF_RANGE }
    ensures else_memory { version ≡ VERSION → core_of plan.old ≡ None → IsInRange options
        → address % 8 ≡ 0 → (result ≡ DONE) ⊎ (result ≡ OUT_OF_MEMORY) }
    ensures enough { version ≡ VERSION → core_of plan.old ≡ None → IsInRange options
        → address % 8 ≡ 0 → address ≢ 0
        → bytes_of options.dim options.jobs / 8 ≤ memory.words → result ≡ DONE }
    ensures new { result ≡ DONE → OnCore (IsNew options) (core_of plan.new) }
    ensures unchanged { result ≢ DONE → plan.new ≡ plan.old }
{
    if version != VERSION {
        return BAD_VERSION;
    }
    if plan.is_open() {
        return ALREADY_OPEN;
    }
    if !are_in_range(options) {
        return OUT_OF_RANGE;
    }
    if address % 8 != 0 {
        return OUT_OF_RANGE;
    }
    let made = if address == 0 {
        opened(alloc, options)
    } else {
        opened_in(alloc, options, memory)
    };
    match made {
        None => OUT_OF_MEMORY,
        Some(made) => {
            plan.put(made);
            DONE
        }
    }
}

/// Shuts the handle. Frees its planner with all its jobs, and leaves memory of the caller to the
/// caller.
#[unsafe(no_mangle)]
pub extern "C" fn cubejobs_plan_close(alloc: Global, plan: &mut Handle) -> u32
    ensures not_open { core_of plan.old ≡ None → result ≡ NOT_OPEN }
    ensures done { IsSome (core_of plan.old) → result ≡ DONE }
    ensures shut { core_of plan.new ≡ None }
    ensures unchanged { result ≢ DONE → plan.new ≡ plan.old }
{
    // The bytes of a shut handle stay as they are, whatever they are.
    if !plan.is_open() {
        return NOT_OPEN;
    }
    replace(plan, Handle::shut(alloc)).free();
    DONE
}
