// A reader that notices the end of its text.
ghost use Rattle.std.specs.Prelude.{◌≡◌};

use std::io;
use std::io::Read;

/// A reader that knows whether the end of its text has been read.
pub(crate) trait SeesEnd {
    /// Returns whether a read has found no more bytes.
    fn has_ended(&self) -> bool;
}

/// A reader around another one, which notices the end.
#[derive(Drop)]
pub(crate) struct EndSeen<R> {
    reader: R,
    has_ended: bool,
}

impl<R> EndSeen<R> {
    /// Wraps a reader whose end has not been read.
    pub(crate) fn new(reader: R) -> Self
        ensures { result.reader ≡ reader }
    {
        EndSeen {
            reader,
            has_ended: false,
        }
    }
}

impl<R> SeesEnd for EndSeen<R> {
    fn has_ended(&self) -> bool {
        self.has_ended
    }
}

impl<R: Read> Read for EndSeen<R> {
    ghost remaining = { λ e. R.remaining e.reader };

    fn read(&mut self, buf: &mut [u8]) -> io::Result<usize> {
        let result = self.reader.read(buf);
        if let Ok(count) = &result {
            self.has_ended = *count == 0 && !buf.is_empty();
        }
        result
    }
}
