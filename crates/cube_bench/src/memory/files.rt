//! Reading the three kinds of files from memory.
use crate::memory::told::{counted, tell_given, tell_refused};
use jobs_csv::{Counted, Fault, FaultKind, read_jobs, read_place, read_schedule};
use std::alloc::Global;
use std::io;

const MACHINE: u32 = 3;

const JOBS: &[u8] = b"lane,kind,op,root,items\n\
    0,scan,add,0,1 2 3 4\n1,broadcast,-,1,5 6\n0,reduce,min,0,7\n2,allreduce,or,0,1 2 3 4 5 6 7 8\n\
    3,scan,max,0,2 9 4 7\n0,scan,add,0,1\n1,exscan,add,0,2\n0,scan,add,0,3\n15,scan,add,0,4 5\n";

const COMMANDS: &[u8] = b"command,name,dim\n\
    take,a,0\ntake,b,1\nfree,a,-\ntake,c,2\nfree,b,-\ntake,abcdefghijklmnop,3\nfree,c,-\ntake,d,0\n\
    free,abcdefghijklmnop,-\n";

const CALLS: &[u8] = b"station,call,arg\n\
    0,take,4\n0,run,-\n1,take,5\n1,step,3\n0,release,-\n0,run,-\n0,retire,-\n1,run,-\n2,retire,-\n";

// Prints that a file was not read, if there was no memory for it. Returns how many calls had
// memory.
fn tell_fault<R: Print>(rt: &R, call: &str, fault: Fault) -> io::Result<u64> {
    if fault.what == FaultKind::OutOfMemory {
        counted(tell_refused(rt, call, &[fault.row]), 0)
    } else {
        Ok(0)
    }
}

// Prints how many records a file has. Returns how many calls had memory.
fn tell_count<R: Print, T: Drop>(
    rt: &R,
    call: &str,
    read: Result<Vec<T>, Fault>,
) -> io::Result<u64> {
    match read {
        Ok(list) => counted(tell_given(rt, call, &[list.len() as u64]), 1),
        Err(fault) => tell_fault(rt, call, fault),
    }
}

/// Reads a file of jobs, one of commands and one of calls, of nine records each.
pub(crate) fn call_all<R: Print>(rt: &R, alloc: Global) -> io::Result<u64> {
    let jobs = read_jobs(alloc, MACHINE, &mut Counted::new(JOBS));
    let jobs = tell_count(rt, "read_jobs", jobs)?;
    let commands = read_place(alloc, MACHINE, &mut Counted::new(COMMANDS));
    let commands = tell_count(rt, "read_place", commands)?;
    let calls = read_schedule(alloc, &mut Counted::new(CALLS));
    let calls = tell_count(rt, "read_schedule", calls)?;
    Ok(jobs.wrapping_add(commands).wrapping_add(calls))
}
