// The contract of a store of files.
ghost use Rattle.std.specs.Prelude.{◌≡◌, Some, IfErr, IfOk, IfSome, OnOk};
ghost use Rattle.atomic_file.specs.Store.{KeepsFiles, KeepsOthers};

use crate::file_fault::FileReason;
use devices::Device;
use std::io::{Read, Write};

/// Files by name. Each is read from its beginning. Each is written as a temporary file, which then
/// replaces the file as a whole or not at all.
///
/// A temporary file cannot be dropped: the caller persists it or discards it. Until then no file
/// has changed. A store says what it knows of the bytes of a file; `None` claims nothing.
pub trait FileStore {
    ghost use Rattle.std.specs.Prelude.{ℕ, List, Option};

    /// A file that is open for reading.
    type Reader: Read + Device + Drop;
    /// A file that is being written, before it replaces another.
    type TempFile: Write + Device + Send;

    // What is known of the bytes of the file of this name.
    ghost bytes: { Self → List ℕ → Option (List ℕ) };

    // What is known of the bytes of a temporary file before its first write.
    ghost fresh: { Option (List ℕ) };

    /// Opens the file of this name for reading.
    ///
    /// # Errors
    ///
    /// The file does not exist, it is a folder, or the system refuses it.
    fn open(&self, name: &str) -> Result<Self::Reader, FileReason>
        ensures { IfOk result (λ reader.
            Self.Reader.remaining reader ≡ bytes self.now name.now) };

    /// Opens the file of this name once more, if it can be read again from its beginning.
    ///
    /// Returns `None` for a pipe or a device, whose bytes are gone once they are read, and if the
    /// file cannot be opened.
    fn open_again(&self, name: &str) -> Option<Self::Reader>
        ensures { IfSome result (λ reader.
            Self.Reader.remaining reader ≡ bytes self.now name.now) };

    /// Begins a temporary file for the file of this name, which need not exist. No file changes.
    ///
    /// # Errors
    ///
    /// The folder is missing, the name is of a folder or of a device, or it may not be written.
    fn temp_file(&mut self, name: &str) -> Result<Self::TempFile, FileReason>
        ensures fresh { IfOk result (λ temp_file. Self.TempFile.contents temp_file ≡ fresh) }
        ensures kept { KeepsFiles (bytes self.old) (bytes self.new) };

    /// Replaces the file of this name by the temporary file.
    ///
    /// # Errors
    ///
    /// The system refuses it. Then the temporary file is gone, and each file is as it was.
    fn persist(&mut self, temp_file: Self::TempFile, name: &str) -> Result<(), FileReason>
        ensures put { OnOk result (bytes self.new name.now ≡ Self.TempFile.contents temp_file) }
        ensures others { KeepsOthers (Some name.now) (bytes self.old) (bytes self.new) }
        ensures kept { IfErr result (λ reason. KeepsFiles (bytes self.old) (bytes self.new)) };

    /// Discards the temporary file. Each file is as it was.
    fn discard(&mut self, temp_file: Self::TempFile)
        ensures { KeepsFiles (bytes self.old) (bytes self.new) };
}
