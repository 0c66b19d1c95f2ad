// Where the words of the threads are in a table: the words of sleepers, then a token and a mailbox
// for each worker. What is above them is the table's own affair.
ghost use Rattle.std.specs.Prelude.{◌≡◌, ◌≢◌, true, false};
ghost use Rattle.std.specs.Int.{bit_at};
ghost use Rattle.wake_pool.specs.Words as words;

/// The number of workers whose bits are in one word.
pub const WORD_WORKERS: u32 = 63;

/// The bit of a word that says that one of its workers searches.
pub const SEARCH: u64 = 1 << 63;

/// Returns the number of words of sleepers.
pub fn word_count(workers: u32) -> u64
    ensures count { result ≡ words.word_count workers }
{
    (workers as u64 + WORD_WORKERS as u64 - 1) / WORD_WORKERS as u64
}

/// Returns the number of words of sleepers, tokens and mailboxes. It is the first word above them.
pub fn base(workers: u32) -> u64
    ensures base { result ≡ words.base workers }
{
    word_count(workers) + 2 * workers as u64
}

/// Returns the word of a worker's bit.
pub fn word_of(worker: u32) -> u64
    ensures word { result ≡ words.word_of worker }
{
    (worker / WORD_WORKERS) as u64
}

/// Returns which bit of its word is a worker's.
pub fn bit_of(worker: u32) -> u64
    ensures bit { result ≡ words.bit_of worker }
{
    (worker % WORD_WORKERS) as u64
}

/// Returns the word of a worker's token. It is 1 if the token lies ready, else 0.
pub fn token_at(workers: u32, worker: u32) -> u64
    ensures place { result ≡ words.token_at workers worker }
{
    word_count(workers) + 2 * worker as u64
}

/// Returns the word of a worker's mailbox. It is 1 if there is a call, else 0.
pub fn mail_at(workers: u32, worker: u32) -> u64
    ensures place { result ≡ words.mail_at workers worker }
{
    token_at(workers, worker) + 1
}

/// Returns whether the worker's bit is set in its word.
pub fn has_bit(word: u64, worker: u32) -> bool
    ensures set { result ≡ true → bit_at word (words.bit_of worker) ≡ 1 }
    ensures clear { result ≡ false → bit_at word (words.bit_of worker) ≢ 1 }
{
    (word >> bit_of(worker)) & 1 == 1
}
