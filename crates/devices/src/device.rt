// Readers and writers that count their failed calls.
ghost use Rattle.std.specs.Prelude.{◌≡◌, ℕ, length, is_err};
ghost use Rattle.std.specs.Io.{ReadsAtMost, WritesAtMost};
ghost use Rattle.std.specs.Io.KnownBytes.{Keeps, ReadConsumes, WriteAppends};
ghost use Rattle.devices.specs.Device.{device_of, failures_of, is_failed_write, count_failure};

use std::io;
use std::io::{Read, Write};

/// A reader or a writer that counts its failed calls.
pub trait Device {
    // The number of calls that have failed.
    ghost failures: { Self → ℕ };

    /// Returns how many calls have failed. The count stops at `u64::MAX`.
    fn failures(&self) -> u64
        ensures { result ≡ failures self.now };
}

/// A reader or a writer with a count of its failed calls.
///
/// A call fails if it returns an error. A write also fails if it takes no byte of a buffer that is
/// not empty.
#[derive(Drop)]
pub struct Counted<D> {
    device: D,
    failed: u64,
}

impl<D> Counted<D> {
    /// Wraps a reader or a writer, with a count of 0.
    pub fn new(device: D) -> Self
        ensures device { device_of result ≡ device }
        ensures failures { failures_of result ≡ 0 }
    {
        Counted { device, failed: 0 }
    }

    /// Returns the reader or writer itself.
    pub fn get_ref(&self) -> &D
        ensures { result.now ≡ device_of self.now }
    {
        &self.device
    }

    // Counts a call if it has failed.
    fn count_if(&mut self, has_failed: bool)
        ensures failures { failures_of self.new ≡ count_failure has_failed (failures_of self.old) }
        ensures device { device_of self.new ≡ device_of self.old }
    {
        if has_failed {
            self.failed = self.failed.saturating_add(1);
        }
    }
}

impl<D> Device for Counted<D> {
    ghost failures = { λ c. failures_of c };

    fn failures(&self) -> u64 {
        self.failed
    }
}

impl<D: Read> Read for Counted<D> {
    ghost remaining = { λ c. D.remaining (device_of c) };

    fn read(&mut self, buf: &mut [u8]) -> io::Result<usize>
        ensures bound { ReadsAtMost result buf.new }
        ensures bytes { ReadConsumes (D.remaining (device_of self.old))
            (D.remaining (device_of self.new)) result buf.new }
        ensures counts { failures_of self.new
            ≡ count_failure (is_err result) (failures_of self.old) }
    {
        let result = self.device.read(buf);
        self.count_if(result.is_err());
        result
    }
}

impl<D: Write> Write for Counted<D> {
    ghost contents = { λ c. D.contents (device_of c) };

    fn write(&mut self, buf: &[u8]) -> io::Result<usize>
        ensures bound { WritesAtMost result buf.now }
        ensures bytes { WriteAppends (D.contents (device_of self.old))
            (D.contents (device_of self.new)) result buf.now }
        ensures counts { failures_of self.new
            ≡ count_failure (is_failed_write (length buf.now) result) (failures_of self.old) }
    {
        let result = self.device.write(buf);
        let has_failed = match &result {
            Ok(taken) => *taken == 0 && !buf.is_empty(),
            Err(_) => true,
        };
        self.count_if(has_failed);
        result
    }

    fn flush(&mut self) -> io::Result<()>
        ensures bytes { Keeps (D.contents (device_of self.old)) (D.contents (device_of self.new)) }
        ensures counts { failures_of self.new
            ≡ count_failure (is_err result) (failures_of self.old) }
    {
        let result = self.device.flush();
        self.count_if(result.is_err());
        result
    }
}
