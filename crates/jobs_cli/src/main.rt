//! The program `cubejobs`: it reads jobs, commands or schedules, and writes the rows that answer
//! them.
//!
//! The commands are `cubejobs run --dim N`, `cubejobs report --dim N`, `cubejobs place --dim N` and
//! `cubejobs replay --dim N --stations S`. Each reads CSV from the file that it names, or from
//! standard input. It writes CSV to the file that `--output` names, whole or not at all, or to
//! standard output.
//!
//! Two more commands run no job and write no file. `cubejobs check` lists the faults of an input,
//! and `cubejobs messages` the messages of a collective.
//!
//! Jobs run on threads. `--dispatchers` sets the number of workers, and `--capacity` that of the
//! jobs that may wait. If standard error is a terminal that can rewrite a line, it shows the
//! progress of a long run, unless `--quiet` is given. If standard input is read and is a terminal,
//! standard error says what is waited for.
//!
//! The whole program is `program::run` of `cli_commands`, and `check` and `messages` of
//! `cli_tools`, over any words, files and streams. This file ties them to the process.
#![tactic(auto)]

use atomic_file::SystemFiles;
use cli_commands::program;
use cli_commands::program::{Console, Ending};
use cli_tools::ToolEnding;
use jobs_csv::{Counted, Fault};
use std::io::IsTerminal;
use std::process::ExitCode;
use std::rt::Env;
use std::{io, process};

// Returns the words of the command line, from the program's name on.
fn words<R: Env + AllocGlobal>(rt: &R) -> io::Result<Vec<String>> {
    let words = std::env::args(rt)?.collect(rt.alloc())?;
    Ok(words)
}

// Reports that the words could not be read: memory ran out, or they are not text.
fn report_words(rt: &impl Eprint, error: &io::Error) -> Ending {
    if error.kind() == io::ErrorKind::OutOfMemory {
        let fault = Fault::no_memory();
        let is_reported = rt.eprintln(fault).is_ok();
        return Ending::Failed { fault, is_reported };
    }
    let _reported = rt.eprintln("error: the command line is not UTF-8 text");
    Ending::Rejected
}

// Returns whether the terminal says that it cannot rewrite a line.
fn is_dumb(rt: &impl Env) -> bool {
    let mut term = [0u8; 4];
    rt.var("TERM", &mut term).is_ok() && term == *b"dumb"
}

// Carries out `check` or `messages`, if the words are for one of them.
fn tool(rt: &HostRuntime, words: &[String]) -> Option<ExitCode> {
    let words = match cli_tools::tool_words(rt.alloc(), words) {
        Ok(words) => words?,
        Err(_) => {
            let fault = Fault::no_memory();
            let _reported = rt.eprintln(fault);
            return Some(cli_tools::exit_code(ToolEnding::Failed(fault)));
        }
    };
    let command = words.first()?;
    if command.as_str() == "messages" {
        let (mut writer, mut errors) = (Counted::new(rt.stdout()), rt.stderr());
        let ending = cli_tools::messages(rt.alloc(), &words, &mut writer, &mut errors);
        return Some(cli_tools::exit_code(ending));
    }
    let input = rt.stdin();
    let prompt = if input.is_terminal() {
        Some(rt.stderr())
    } else {
        None
    };
    let process_id = process::id(rt.process());
    let store = SystemFiles { rt, process_id };
    let mut console = cli_tools::ToolConsole {
        reader: Counted::new(input),
        writer: Counted::new(rt.stdout()),
        errors: rt.stderr(),
        prompt,
    };
    let ending = cli_tools::check(rt.alloc(), &words, &store, &mut console);
    // The store holds nothing that must be ended.
    let SystemFiles {
        rt: _,
        process_id: _,
    } = store;
    Some(cli_tools::exit_code(ending))
}

fn main(rt: HostRuntime) -> ExitCode {
    let words = match words(&rt) {
        Ok(words) => words,
        Err(error) => return program::exit_code(report_words(&rt, &error)),
    };
    if let Some(code) = tool(&rt, &words) {
        return code;
    }
    let input = rt.stdin();
    let prompt = if input.is_terminal() {
        Some(rt.stderr())
    } else {
        None
    };
    let mut store = SystemFiles {
        rt: &rt,
        process_id: process::id(rt.process()),
    };
    let errors = rt.stderr();
    let terminal = if errors.is_terminal() && !is_dumb(&rt) {
        Some(rt.stderr())
    } else {
        None
    };
    let mut console = Console {
        reader: Counted::new(input),
        writer: Counted::new(rt.stdout()),
        errors,
        terminal,
        prompt,
    };
    let ending = program::run(&rt, rt.alloc(), &words, &mut store, &mut console);
    // The store holds nothing that must be ended.
    let SystemFiles {
        rt: _,
        process_id: _,
    } = store;
    program::exit_code(ending)
}
