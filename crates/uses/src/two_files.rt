//! A caller of `atomic_file` that is a file store itself: two files in memory, whose bytes the
//! contract knows.
ghost use Rattle.std.specs.Prelude.{◌≡◌};

use atomic_file::{FileReason, FileStore};
use jobs_csv::Counted;
use std::alloc::Global;
use std::marker::Model;

/// A store of two files in memory. One can be read and not written, the other can be written and
/// not read. There is no other file.
#[derive(Drop)]
pub struct TwoFiles<'a> {
    alloc: Global,
    input: &'a str,
    read: &'a [u8],
    output: &'a str,
    written: Vec<u8>,
    temp_files: u64,
}

impl<'a> Model for TwoFiles<'a> {
    ghost use Rattle.uses.specs.TwoFiles.{TwoFilesOf};

    ghost Value = { TwoFilesOf };

    ghost view = { λ files. record {
      input = files.input.now;
      read = files.read.now;
      output = files.output.now;
      written = files.written.items;
    } };
}

impl<'a> TwoFiles<'a> {
    /// Makes a store of the file `input`, which has the bytes `read`, and of the file `output`,
    /// which has the bytes `written`.
    pub fn new(
        alloc: Global,
        input: &'a str,
        read: &'a [u8],
        output: &'a str,
        written: Vec<u8>,
    ) -> TwoFiles<'a>
        ensures read { (result.input ≡ input.now) × (result.read ≡ read.now) }
        ensures written { (result.output ≡ output.now) × (result.written ≡ written.items) }
    {
        TwoFiles {
            alloc,
            input,
            read,
            output,
            written,
            temp_files: 0,
        }
    }

    /// Returns the bytes of the file that is written.
    pub fn written(&self) -> &[u8]
        ensures { result.now ≡ self.now.written }
    {
        &self.written
    }

    /// Returns how many temporary files were begun, modulo `2^64`. No contract says it: they change
    /// no file.
    pub fn temp_files(&self) -> u64 {
        self.temp_files
    }
}

impl<'a> FileStore for TwoFiles<'a> {
    ghost use Rattle.std.specs.Prelude.{Some, []};
    ghost use Rattle.uses.specs.TwoFiles.{bytes_in};

    type Reader = Counted<&'a [u8]>;

    type TempFile = Counted<Vec<u8>>;

    ghost bytes = { bytes_in };

    ghost fresh = { Some [] };

    fn open(&self, name: &str) -> Result<Counted<&'a [u8]>, FileReason> {
        if name == self.input {
            Ok(Counted::new(self.read))
        } else if name == self.output {
            Err(FileReason::Denied)
        } else {
            Err(FileReason::Missing)
        }
    }

    fn open_again(&self, name: &str) -> Option<Counted<&'a [u8]>> {
        match self.open(name) {
            Ok(file) => Some(file),
            Err(_) => None,
        }
    }

    fn temp_file(&mut self, name: &str) -> Result<Counted<Vec<u8>>, FileReason> {
        self.temp_files = self.temp_files.wrapping_add(1);
        if name == self.input {
            Err(FileReason::Denied)
        } else if name == self.output {
            Ok(Counted::new(Vec::new(self.alloc)))
        } else {
            Err(FileReason::Missing)
        }
    }

    fn persist(&mut self, temp_file: Counted<Vec<u8>>, name: &str) -> Result<(), FileReason> {
        if name == self.input {
            return Err(FileReason::Denied);
        }
        if name != self.output {
            return Err(FileReason::Missing);
        }
        match Vec::from_slice(self.alloc, temp_file.get_ref()) {
            Ok(bytes) => {
                self.written = bytes;
                Ok(())
            }
            Err(_) => Err(FileReason::OutOfMemory),
        }
    }

    fn discard(&mut self, temp_file: Counted<Vec<u8>>) {
        drop(temp_file);
    }
}
