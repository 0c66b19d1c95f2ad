// The system's files, open for reading or written as a temporary file. They claim nothing of their
// bytes.
use crate::file_fault::FileReason;
use crate::named_temp_file::NamedTempFile;
use crate::target::{Target, followed};
use devices::{Counted, Device};
use std::fs::{Files, OpenFile};
use std::io;
use std::io::{ErrorKind, Read, Write};
use std::os::fd::AsFd;
use std::path::PathBuf;

/// A file of the system that is open for reading.
#[derive(Drop)]
pub struct SystemReader<F> {
    file: Counted<F>,
}

impl<F> SystemReader<F> {
    // Returns a reader of the file. None of its calls has failed yet.
    pub(crate) fn new(file: F) -> Self {
        SystemReader {
            file: Counted::new(file),
        }
    }
}

impl<F: Read> Read for SystemReader<F> {
    fn read(&mut self, buf: &mut [u8]) -> io::Result<usize> {
        self.file.read(buf)
    }
}

impl<F> Device for SystemReader<F> {
    ghost use Rattle.devices.specs.Device.{failures_of};

    ghost failures = { λ reader. failures_of reader.file };

    fn failures(&self) -> u64 {
        self.file.failures()
    }
}

// A temporary file beside the target. The first write creates it, and a flush writes it to its
// disk.
#[derive(Drop)]
struct LateFile<'a, H: Files> {
    rt: &'a H,
    target: Target,
    process_id: u32,
    // The path to try first, until it has been tried.
    first_path: Option<PathBuf>,
    created: Option<NamedTempFile<H::File>>,
}

impl<'a, H: Files<File: AsFd> + AllocGlobal> LateFile<'a, H> {
    // Returns the file, and creates it first if it does not exist yet.
    fn file(&mut self) -> io::Result<&mut H::File> {
        if self.created.is_none() {
            let first = self.first_path.take();
            match NamedTempFile::create(self.rt, &self.target, self.process_id, first) {
                Ok(created) => self.created = Some(created),
                Err(_) => return Err(io::Error::from(ErrorKind::Other)),
            }
        }
        match &mut self.created {
            Some(created) => Ok(&mut created.file),
            None => Err(io::Error::from(ErrorKind::Other)),
        }
    }
}

impl<'a, H: Files<File: AsFd> + AllocGlobal> Write for LateFile<'a, H> {
    fn write(&mut self, buf: &[u8]) -> io::Result<usize> {
        self.file()?.write(buf)
    }

    fn flush(&mut self) -> io::Result<()> {
        self.file()?.sync_all()
    }
}

/// A file of the system under a temporary name. Its first write creates it, and a flush writes it
/// to its disk.
pub struct SystemTempFile<'a, H: Files> {
    file: Counted<LateFile<'a, H>>,
}

impl<'a, H: Files> SystemTempFile<'a, H> {
    // Returns a writer to a file beside the target, at this path if it is new. None of its calls
    // has failed yet.
    pub(crate) fn new(rt: &'a H, target: Target, process_id: u32, path: PathBuf) -> Self {
        let first_path = Some(path);
        let created = None;
        SystemTempFile {
            file: Counted::new(LateFile {
                rt,
                target,
                process_id,
                first_path,
                created,
            }),
        }
    }
}

impl<'a, H: Files<File: AsFd> + AllocGlobal> SystemTempFile<'a, H> {
    // Renames the file to the target of this name, or removes it. The name must lead where it led
    // before.
    pub(crate) fn persist(self, name: &str) -> Result<(), FileReason> {
        let SystemTempFile { file } = self;
        let late = file.get_ref();
        let Some(created) = &late.created else {
            return Err(FileReason::Other);
        };
        match followed(late.rt, name) {
            Ok(path) if path.as_str() == late.target.path.as_str() => created.persist(
                late.rt, &path,
            ),
            Ok(_) => {
                created.remove(late.rt);
                Err(FileReason::Other)
            }
            Err(reason) => {
                created.remove(late.rt);
                Err(reason)
            }
        }
    }

    // Removes the file, if it was created.
    pub(crate) fn remove(self) {
        let SystemTempFile { file } = self;
        let late = file.get_ref();
        if let Some(created) = &late.created {
            created.remove(late.rt);
        }
    }
}

impl<'a, H: Files<File: AsFd> + AllocGlobal> Write for SystemTempFile<'a, H> {
    fn write(&mut self, buf: &[u8]) -> io::Result<usize> {
        self.file.write(buf)
    }

    fn flush(&mut self) -> io::Result<()> {
        self.file.flush()
    }
}

impl<'a, H: Files> Device for SystemTempFile<'a, H> {
    ghost use Rattle.devices.specs.Device.{failures_of};

    ghost failures = { λ temp_file. failures_of temp_file.file };

    fn failures(&self) -> u64 {
        self.file.failures()
    }
}
