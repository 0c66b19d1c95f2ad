//! The line that is printed after a call.
use std::io;

/// Prints a call to which memory was refused, and the numbers that came back.
pub(crate) fn tell_refused<R: Print>(rt: &R, call: &str, back: &[u64]) -> io::Result<()> {
    print!(rt; "{call} OutOfMemory")?;
    tell_numbers(rt, back)
}

/// Prints a call that had memory, and the numbers that it returned.
pub(crate) fn tell_given<R: Print>(rt: &R, call: &str, given: &[u64]) -> io::Result<()> {
    rt.print(call)?;
    tell_numbers(rt, given)
}

/// Returns the count of calls that had memory, if all could be printed.
pub(crate) fn counted(told: io::Result<()>, count: u64) -> io::Result<u64> {
    told?;
    Ok(count)
}

// Prints the numbers, and the end of the line.
fn tell_numbers<R: Print>(rt: &R, numbers: &[u64]) -> io::Result<()> {
    for number in numbers {
        print!(rt; " {number}")?;
    }
    rt.println("")
}
