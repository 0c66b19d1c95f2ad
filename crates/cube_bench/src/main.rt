//! Runs parts of this repository so that they can be timed:
//! `cube_bench MEASUREMENT [and MEASUREMENT]..`. The measurements run one after the other, and each
//! prints what it counted.
//!
//! `rounds COLLECTIVE DIM TIMES` repeats one collective on `2^DIM` places. The collective is
//! `broadcast`, `reduce`, `allreduce`, `scan` or `exscan`, of sums. Its root is the last place. It
//! prints a digest: a number that all places determine in the end.
//!
//! `line LINE LANES PASSES CAPACITY JOBS [calls]` passes jobs through a queue, which is `ruled` or
//! `locked`. Each lane submits JOBS jobs, and each pass takes as many as the others, each on a
//! thread of its own. The jobs are made before. It prints the number of jobs that were taken, and
//! on standard error the nanoseconds from the first submit to the last take. With `calls` it also
//! reads the clock before and after each call. Then standard error has six more lines, in
//! nanoseconds: median, 99 % and 99.9 % of accepted submits, and of takes that had a job.
//!
//! `tree SIZES THREADS TURNS [half]` takes and releases blocks of a running tree of dimension 10.
//! Each thread has a station, which makes TURNS turns of one take and its release. SIZES is `leaf`
//! if each take asks for one processor. With `mixed` or `wide` those of a station ask for the
//! dimensions 0 to 5, or 0 to 9, in turn. Instead of THREADS, `solo` has the turns made by a tree
//! whose stations are all with one caller, and `bits` by the allocation bits. With `half`, one more
//! station holds half of the machine all the while. It prints how many takes succeeded.
//!
//! `regions SCENARIO N LOW HIGH LOAD THREADS [exact] [times]` takes and releases blocks of a bitmap
//! tree of dimension N. First it fills the tree as the scenario says (bench/peers/regions.c), and
//! prints `ready`. Each line of standard input is a number of turns, which each thread makes. Then
//! it prints how many takes were refused. With `exact` a turn whose block is not kept calls
//! `take_exact` instead of `take`. With `times` each turn whose block is not kept is timed: three
//! more lines are median, 99 % and 99.9 % in nanoseconds. At the end of the input it releases all,
//! and prints how many words were free. It fails if the machine is not whole then.
//!
//! `dispatch SHOP ITEMS LANES DISPATCHERS CAPACITY JOBS` runs a dispatcher on threads. SHOP is
//! `free`, the lock-free queue and allocator, or `locked`, a queue and an allocator under a lock
//! each. Each lane submits JOBS all-reduces of ITEMS numbers. DISPATCHERS workers run them on
//! blocks of a machine of dimension 10, through a queue of CAPACITY jobs. The jobs are made before.
//! It prints the number of replies, and on standard error the nanoseconds from the opening of the
//! dispatcher to its end.
//!
//! `memory CALLS` makes calls that allocate memory, and times nothing. It is for runs in which
//! allocations are refused from outside. CALLS is `cube`, `items`, `files`, or `shop SHOP JOBS`
//! with SHOP as above and JOBS of one lane. After each call it prints a line, the call's name and
//! what came back. At the end it prints how many calls had memory.
#![tactic(auto)]

mod dispatch;
mod jobs;
mod line;
mod memory;
mod outcome;
mod regions;
mod rounds;
mod tree;

use outcome::{MeasureError, Measured, print};
use std::alloc::Global;
use std::io;
use std::io::Input;
use std::process::ExitCode;
use std::rt::{Clock, Env};
use std::sync::Wait;
use std::thread::Threads;

// Returns the arguments, the program's name first.
fn arguments<R: Env + AllocGlobal>(rt: &R) -> io::Result<Vec<String>> {
    let arguments = std::env::args(rt)?.collect(rt.alloc())?;
    Ok(arguments)
}

// Makes the measurement of these arguments. The first of them is its name.
fn measure<R: Threads + Wait + Sync + Clock + Input + Print>(
    rt: &R,
    alloc: Global,
    words: &[String],
) -> Result<Measured, MeasureError> {
    let Some((name, words)) = words.split_first() else {
        return Err(MeasureError::BadWords);
    };
    match name.as_str() {
        "rounds" => rounds::measure(alloc, words),
        "line" => line::measure(rt, alloc, words),
        "tree" => tree::measure(rt, alloc, words),
        "regions" => regions::measure(rt, alloc, words),
        "dispatch" => dispatch::measure(rt, alloc, words),
        "memory" => memory::measure(rt, alloc, words),
        _ => Err(MeasureError::BadWords),
    }
}

// Makes the measurements of these arguments one after the other, and prints the result of each.
fn measure_each<R: Threads + Wait + Sync + Clock + Input + Print + Eprint>(
    rt: &R,
    alloc: Global,
    words: &[String],
) -> Result<(), MeasureError> {
    for words in words.split(|word| word.as_str() == "and") {
        let measured = measure(rt, alloc, words)?;
        if print(rt, &measured).is_err() {
            return Err(MeasureError::Failed);
        }
    }
    Ok(())
}

fn main(rt: HostRuntime) -> ExitCode {
    let Ok(arguments) = arguments(&rt) else {
        return ExitCode::from(3);
    };
    let Some((_program, words)) = arguments.split_first() else {
        return ExitCode::from(2);
    };
    match measure_each(&rt, rt.alloc(), words) {
        Ok(()) => ExitCode::SUCCESS,
        Err(MeasureError::BadWords) => ExitCode::from(2),
        Err(MeasureError::Failed) => ExitCode::from(3),
    }
}
