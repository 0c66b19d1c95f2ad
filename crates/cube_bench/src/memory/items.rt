//! Making a job of each kind, of four items.
use crate::memory::told::{counted, tell_given, tell_refused};
use job_types::{Job, JobRefused, Kind, Op};
use std::alloc::Global;
use std::io;

const ITEMS: [u64; 4] = [4, 7, 1, 8];

const KINDS: &[Kind] = &[
    Kind::Broadcast { root: 3 },
    Kind::Reduce {
        op: Op::Add,
        root: 0,
    },
    Kind::AllReduce { op: Op::Add },
    Kind::Scan { op: Op::Add },
    Kind::ExScan { op: Op::Add },
];

// Prints the items of a job, or those that came back if it had no memory. Returns how many calls
// had memory.
fn tell_job<R: Print>(rt: &R, made: Result<Job, (Vec<u64>, JobRefused)>) -> io::Result<u64> {
    match made {
        Ok(job) => counted(tell_given(rt, "Job::new", job.items()), 2),
        Err((items, JobRefused::OutOfMemory)) => {
            counted(tell_refused(rt, "Job::new", &items), 1)
        }
        Err(_) => Ok(0),
    }
}

// Makes a job of this kind, and prints its items or those that came back.
fn call_new<R: Print>(rt: &R, alloc: Global, kind: Kind) -> io::Result<u64> {
    let Ok(items) = Vec::from_slice(alloc, &ITEMS) else {
        return counted(tell_refused(rt, "items", &[]), 0);
    };
    tell_given(rt, "items", &items)?;
    tell_job(rt, Job::new(alloc, 3, 0, kind, items))
}

/// Makes the items and a job of each kind, one after the other.
pub(crate) fn call_all<R: Print>(rt: &R, alloc: Global) -> io::Result<u64> {
    let mut count = 0u64;
    for kind in KINDS {
        count = count.wrapping_add(call_new(rt, alloc, *kind)?);
    }
    Ok(count)
}
