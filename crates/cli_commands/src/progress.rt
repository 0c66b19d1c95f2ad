// The line of progress of a long run, on a terminal.
ghost use Rattle.std.specs.Prelude.{◌≡◌, ◌⊎◌, false, IsSome};

use dispatcher::Runner;
use job_types::{Job, JobId, Region, Reply};
use jobs_csv::Observer;
use std::alloc::{AllocError, Global};
use std::io::Write;
use std::sync::atomic::{AtomicBool, AtomicU64, Ordering};
use std::sync::{Arc, Wait};
use std::thread::{Builder, JoinHandle, Parker, Threads};
use std::time::Duration;

// A run with fewer records than this shows nothing.
const LONG: u64 = 1_000;

// How long the thread that shows the counts sleeps between two looks at them, in milliseconds.
const PERIOD: u64 = 100;

// How often a run that has ended looks whether the line is wiped. With the pauses this takes a
// second, so a terminal that takes no bytes costs the run no more.
const LOOKS: u32 = 50;

// How long it sleeps between two of these looks, in milliseconds.
const PAUSE: u64 = 20;

// The stack of the thread that shows the counts, in bytes.
const STACK: usize = 1 << 18;

// The bytes that wipe the line. Its longest text has two numbers of seven digits.
const WIPE: &[u8] = b"\r                               \r";

/// The number of records that a run has read, and of replies that are done.
///
/// The threads of a run count here. No contract says what they count.
#[derive(Drop)]
pub(crate) struct Counts {
    records: AtomicU64,
    replies: AtomicU64,
}

impl Counts {
    // Creates counts of 0.
    fn new() -> Self {
        Counts {
            records: AtomicU64::new(0),
            replies: AtomicU64::new(0),
        }
    }

    // Returns the number of records, and that of replies, which is not larger.
    fn read(&self) -> (u64, u64) {
        let replies = self.replies.load(Ordering::SeqCst);
        (self.records.load(Ordering::SeqCst), replies)
    }
}

// The data that a run shares with the one thread that shows its counts.
#[derive(Drop)]
struct Board {
    counts: Counts,
    // Whether the run is over, and the line must be wiped.
    is_over: AtomicBool,
    // Whether the line is wiped, and nothing more is written.
    is_wiped: AtomicBool,
    // Where the thread that shows the counts sleeps, and where the run waits for its end.
    looker: Parker,
    waiter: Parker,
}

impl Board {
    fn new() -> Self {
        Board {
            counts: Counts::new(),
            is_over: AtomicBool::new(false),
            is_wiped: AtomicBool::new(false),
            looker: Parker::new(),
            waiter: Parker::new(),
        }
    }
}

// Writes the counts over what the line shows. Ignores a failed write.
fn write_line<W: Write>(terminal: &mut W, (records, replies): (u64, u64)) {
    let _shown = if replies == 0 {
        write!(terminal, "\r{records} records read")
    } else {
        write!(terminal, "\r{replies} of {records} replies done")
    };
}

// Shows the counts while the run works, and wipes the line at the end. Returns the terminal.
fn show<H: Wait, W: Write>(rt: &H, board: &Board, mut terminal: W) -> W {
    let mut shown = (0, 0);
    for _ in rt.forever() {
        board.looker.park_timeout(rt, Duration::from_millis(PERIOD));
        if board.is_over.load(Ordering::SeqCst) {
            break;
        }
        let counted = board.counts.read();
        if counted.0 >= LONG && counted != shown {
            write_line(&mut terminal, counted);
            shown = counted;
        }
    }
    if shown != (0, 0) {
        let _wiped = terminal.write_all(WIPE);
    }
    board.is_wiped.store(true, Ordering::SeqCst);
    board.waiter.unpark();
    terminal
}

/// The line of progress: how many records a run has read and how many replies are done. It is one
/// line of a terminal, which each write replaces.
///
/// One thread writes it, and no other waits for a write: the reader and the workers of a run only
/// count. No contract says what it shows.
#[derive(Drop)]
pub(crate) struct Progress<W> {
    board: Arc<Board, Global>,
    thread: JoinHandle<W>,
}

impl<W: Write + Send + Drop + 'static> Progress<W> {
    /// Begins to show the progress of a run that has read no record. Returns `None`, and drops the
    /// terminal, if memory ran out or the thread could not be started.
    pub fn begin<H: Threads + Wait + Clone + Send + 'static>(
        rt: &H,
        alloc: Global,
        terminal: W,
    ) -> Option<Self> {
        let board = Arc::new(alloc, Board::new()).ok()?;
        let theirs = Arc::try_clone(&board).ok()?;
        let own: Result<H, AllocError> = rt.clone();
        let own = own.ok()?;
        let started = Builder::new()
            .stack_size(STACK)
            .spawn(rt, move || show(&own, &theirs, terminal));
        Some(Progress {
            board,
            thread: started.ok()?,
        })
    }

    /// Returns the counts that the threads of the run update.
    pub fn counts(&self) -> &Counts {
        &self.board.counts
    }

    /// Wipes the line and returns the terminal. Returns `None` if a write to it still waits after a
    /// second. Then the waiting thread keeps the terminal.
    pub fn end<H: Threads + Wait>(self, rt: &H) -> Option<W> {
        let Progress { board, thread } = self;
        board.is_over.store(true, Ordering::SeqCst);
        board.looker.unpark();
        for _ in 0..LOOKS {
            if board.is_wiped.load(Ordering::SeqCst) {
                return Some(thread.join(rt));
            }
            board.waiter.park_timeout(rt, Duration::from_millis(PAUSE));
        }
        None
    }
}

/// Begins the line of progress, unless the run is quiet or there is no terminal.
pub(crate) fn begin_progress<H, P>(
    rt: &H,
    alloc: Global,
    is_quiet: bool,
    terminal: &mut Option<P>,
) -> Option<Progress<P>>
where
    H: Threads + Wait + Clone + Send + 'static,
    P: Write + Send + Drop + 'static,
    ensures kept { (terminal.new ≡ terminal.old) ⊎ (is_quiet ≡ false) }
    ensures shown { IsSome result → is_quiet ≡ false }
{
    if is_quiet {
        return None;
    }
    Progress::begin(rt, alloc, terminal.take()?)
}

/// Ends the line of progress, if there is one, and gives its terminal back.
pub(crate) fn end_progress<H, P>(rt: &H, progress: Option<Progress<P>>, terminal: &mut Option<P>)
where
    H: Threads + Wait,
    P: Write + Send + Drop + 'static,
    ensures { (terminal.new ≡ terminal.old) ⊎ IsSome progress }
{
    if let Some(progress) = progress {
        *terminal = progress.end(rt);
    }
}

/// Returns the counts that the threads of the run update, if its progress is shown.
pub(crate) fn counts_of<W: Write + Send + Drop + 'static>(
    progress: &Option<Progress<W>>,
) -> Option<&Counts> {
    match progress {
        Some(progress) => Some(progress.counts()),
        None => None,
    }
}

/// An observer that counts the records that are read, also for the line of progress if there is
/// one.
#[derive(Drop)]
pub(crate) struct RecordProgress<'a> {
    seen: u64,
    counts: Option<&'a Counts>,
}

impl<'a> RecordProgress<'a> {
    /// Creates an observer that has seen no record.
    pub fn new(counts: Option<&'a Counts>) -> Self
        ensures { result.seen ≡ 0 }
    {
        RecordProgress { seen: 0, counts }
    }
}

impl Observer for RecordProgress<'_> {
    ghost seen = { λ records. records.seen };

    fn see(&mut self) {
        self.seen = self.seen.saturating_add(1);
        if let Some(counts) = self.counts {
            counts.records.store(self.seen, Ordering::SeqCst);
        }
    }
}

/// A runner that runs jobs by another one. It counts the replies if there is a line of progress.
#[derive(Drop)]
pub(crate) struct ReplyProgress<'a, 'b, T> {
    /// The runner that runs the jobs.
    pub runner: &'a T,
    /// Where the replies are counted.
    pub counts: Option<&'b Counts>,
}

impl<T: Runner> Runner for ReplyProgress<'_, '_, T> {
    fn run<R: Wait>(&self, rt: &R, id: JobId, region: Region, job: Job) -> Reply {
        let reply = self.runner.run(rt, id, region, job);
        if let Some(counts) = self.counts {
            counts.replies.fetch_add(1, Ordering::SeqCst);
        }
        reply
    }
}
