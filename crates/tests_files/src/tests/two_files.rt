//! The program over a store of two files in memory: the one that is written is whole, or as it was.
ghost use Rattle.std.specs.Prelude.{◌≡◌, ◌⊎◌};
ghost use Rattle.atomic_file.specs.Store.{KeepsFiles};
ghost use Rattle.cli_commands.specs.Program.{EndsForEvents};

use crate::tests::facts::expect_all;
use crate::tests::failing_devices::push;
use atomic_file::{FileFault, FileReason, FileSide, FileStore};
use cli_commands::program;
use cli_commands::program::{Console, Ending};
use jobs_csv::{Counted, Fault, FaultKind};
use std::process::Abort;
use std::sync::Wait;
use std::thread::Threads;
use uses::TwoFiles;

const JOBS: &[u8] = b"lane,kind,op,root,items\n0,allreduce,add,0,1 2 3 4\n0,scan,add,0,1 2\n";

const REPLIES: &str = "lane,seq,kind,dim,result,rounds,messages\n\
    0,0,allreduce,2,10 10 10 10,2,8\n0,1,scan,1,1 3,1,2\n";

const BAD_JOBS: &[u8] = b"lane,kind,op,root,items\n0,allreduce,add,0,1 2 3 4\n0,scan,add,9,\n";

const OLD: &str = "old\n";

// Returns the words of a line, with a space between two of them.
fn words_of(rt: &(impl AllocGlobal + Abort), line: &str) -> Vec<String> {
    let mut words = Vec::new(rt.alloc());
    for word in line.split(' ') {
        push(
            rt,
            &mut words,
            word.to_string(rt.alloc()).expect(rt, "no memory"),
        );
    }
    words
}

// How the program ends, what it writes on standard output and on standard error, and how much of
// standard input it leaves.
#[derive(Drop)]
struct Ended {
    ending: Ending,
    out: Vec<u8>,
    errors: Vec<u8>,
    unread: usize,
}

// Runs the program with these words over a store.
fn run_over<H, S: FileStore>(rt: &H, line: &str, store: &mut S) -> Ended
where
    H: AllocGlobal + Abort + Threads + Wait + Clone + Send + Sync + 'static,
    ensures { (result.ending ≡ Ending.Done) ⊎ KeepsFiles (S.bytes store.old) (S.bytes store.new)
        ⊎ EndsForEvents result.ending }
{
    let alloc = rt.alloc();
    let words = words_of(rt, line);
    let mut console = Console {
        reader: Counted::new(OLD.as_bytes()),
        writer: Counted::new(Vec::new(alloc)),
        errors: Vec::new(alloc),
        terminal: None::<Vec<u8>>,
        prompt: None::<Vec<u8>>,
    };
    let ending = program::run(rt, alloc, &words, store, &mut console);
    let out = Vec::from_slice(alloc, console.writer.get_ref()).expect(rt, "no memory");
    let Console { reader, errors, .. } = console;
    Ended {
        ending,
        out,
        errors,
        unread: reader.get_ref().len(),
    }
}

// Returns whether the program with these words ends so, over this file `jobs.csv` and an older
// `new.csv`.
//
// It begins this number of temporary files, leaves these bytes in `new.csv` and says this on
// standard error. It touches neither standard input nor output.
fn ends<H>(
    rt: &H,
    line: &str,
    jobs: &[u8],
    ending: Ending,
    temp_files: u64,
    left: &str,
    said: &str,
) -> bool
where
    H: AllocGlobal + Abort + Threads + Wait + Clone + Send + Sync + 'static,
{
    let old = Vec::from_slice(rt.alloc(), OLD.as_bytes()).expect(rt, "no memory");
    let mut store = TwoFiles::new(rt.alloc(), "jobs.csv", jobs, "new.csv", old);
    let ended = run_over(rt, line, &mut store);
    (ended.ending == ending)
        & (store.temp_files() == temp_files)
        & (store.written() == left.as_bytes())
        & (ended.errors.as_slice() == said.as_bytes())
        & ended.out.is_empty()
        & (ended.unread == OLD.len())
}

// Returns a file that could not be opened or replaced, which is reported.
fn no_file(side: FileSide, reason: FileReason) -> Ending {
    Ending::FileFailed {
        fault: FileFault { side, reason },
        is_reported: true,
    }
}

#[test]
fn the_output_is_whole_or_as_it_was(rt: HostRuntime) {
    let line = "cubejobs run --dim 3 jobs.csv --output new.csv";
    let what = FaultKind::Job(job_types::JobRefused::Empty);
    let refused = Ending::Failed {
        fault: Fault { row: 2, what },
        is_reported: true,
    };
    expect_all(
        &rt,
        &[
            ends(&rt, line, JOBS, Ending::Done, 1, REPLIES, ""),
            ends(
                &rt,
                line,
                BAD_JOBS,
                refused,
                1,
                OLD,
                "refused: record 2: Job Empty\n",
            ),
        ],
    );
}

#[test]
fn a_file_that_cannot_be_had_changes_nothing(rt: HostRuntime) {
    expect_all(
        &rt,
        &[
            ends(
                &rt,
                "cubejobs run --dim 3 jobs.csv --output other.csv",
                JOBS,
                no_file(FileSide::Output, FileReason::Missing),
                1,
                OLD,
                "failed: output: Missing: other.csv\n",
            ),
            ends(
                &rt,
                "cubejobs run --dim 3 jobs.csv --output jobs.csv",
                JOBS,
                no_file(FileSide::Output, FileReason::Denied),
                1,
                OLD,
                "failed: output: Denied: jobs.csv\n",
            ),
            ends(
                &rt,
                "cubejobs run --dim 3 new.csv --output new.csv",
                JOBS,
                no_file(FileSide::Input, FileReason::Denied),
                0,
                OLD,
                "failed: input: Denied: new.csv\n",
            ),
            ends(
                &rt,
                "cubejobs run --dim 3 jobs.csv --events other.csv",
                JOBS,
                no_file(FileSide::Events, FileReason::Missing),
                1,
                OLD,
                "failed: events: Missing: other.csv\n",
            ),
            ends(
                &rt,
                "cubejobs run --dim 3 jobs.csv --events new.csv --output other.csv",
                JOBS,
                no_file(FileSide::Output, FileReason::Missing),
                2,
                OLD,
                "failed: output: Missing: other.csv\n",
            ),
        ],
    );
}
