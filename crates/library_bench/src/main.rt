//! Runs the bitmap tree (`bitmap_tree`) and the lanes of jobs (`lanes`) at length, to be timed, or
//! with little memory.
//!
//! `library_bench blocks THREADS TAKES` has each of the threads take TAKES blocks of mixed sizes
//! and release them, on a machine of dimension 12. It prints how many takes succeeded, and in how
//! many words of blocks two threads were at once. It also prints whether the machine was as new in
//! the end.
//!
//! `library_bench jobs PRODUCERS WORKERS CAPACITY JOBS` has each producer submit JOBS jobs to a
//! lane of its own with room for CAPACITY jobs. Each worker takes as many jobs as the others, from
//! any lane. Each has a thread of its own, and lets other threads run if a lane is full or all are
//! empty. It prints how many jobs the workers took once, as they were submitted, and in the order
//! of their lane. Then it prints how many jobs the lanes accepted, and how many were left. On
//! standard error it prints the nanoseconds from the first submit to the last take.
//!
//! `library_bench block_memory` opens a machine, and one with permits. `library_bench job_memory`
//! opens lanes, uses and ends them. So memory can be refused from outside. After each call that
//! takes memory it prints its name and what came back. At the end it prints how many calls had
//! memory.
#![tactic(auto)]

mod block_memory;
mod blocks;
mod check;
mod job_memory;
mod jobs;
mod words;

use std::alloc::Global;
use std::io;
use std::process::ExitCode;
use std::rt::{Clock, Env};
use std::sync::Wait;
use std::thread::Threads;

// Why nothing was measured.
enum BenchError {
    // The arguments ask for no run.
    BadWords,
    // Memory or the clock was refused, or the output failed.
    Failed,
}

// Returns the arguments, the program's name first.
fn arguments<R: Env + AllocGlobal>(rt: &R) -> io::Result<Vec<String>> {
    let arguments = std::env::args(rt)?.collect(rt.alloc())?;
    Ok(arguments)
}

// Makes the run that the arguments ask for, and prints its outcome. The first of them is its name.
fn run<R: Threads + Wait + Sync + Clock + Print + Eprint>(
    rt: &R,
    alloc: Global,
    words: &[String],
) -> Result<(), BenchError> {
    let Some((name, words)) = words.split_first() else {
        return Err(BenchError::BadWords);
    };
    match name.as_str() {
        "blocks" => blocks::run(rt, alloc, words),
        "jobs" => pass_jobs(rt, alloc, words),
        "block_memory" => block_memory::run(rt, alloc),
        "job_memory" => job_memory::run(rt, alloc),
        _ => Err(BenchError::BadWords),
    }
}

// Passes the jobs that the arguments ask for, and prints what came out.
fn pass_jobs<R: Threads + Wait + Sync + Clock + Print + Eprint>(
    rt: &R,
    alloc: Global,
    words: &[String],
) -> Result<(), BenchError> {
    let Some(run) = words::parse(words) else {
        return Err(BenchError::BadWords);
    };
    let Some(outcome) = jobs::run(rt, alloc, run) else {
        return Err(BenchError::Failed);
    };
    match print(rt, &outcome) {
        Ok(()) => Ok(()),
        Err(_) => Err(BenchError::Failed),
    }
}

// Prints the numbers of jobs, and on standard error the time.
fn print<R: Print + Eprint>(rt: &R, outcome: &jobs::Outcome) -> io::Result<()> {
    println!(rt; "{} {} {}", outcome.right, outcome.accepted, outcome.left)?;
    rt.eprintln(outcome.nanos)
}

fn main(rt: HostRuntime) -> ExitCode {
    let Ok(arguments) = arguments(&rt) else {
        return ExitCode::from(3);
    };
    let Some((_program, words)) = arguments.split_first() else {
        return ExitCode::from(2);
    };
    match run(&rt, rt.alloc(), words) {
        Ok(()) => ExitCode::SUCCESS,
        Err(BenchError::BadWords) => ExitCode::from(2),
        Err(BenchError::Failed) => ExitCode::from(3),
    }
}
