// A temporary file in the folder of the file that it will replace.
use crate::file_fault::FileReason;
use crate::target::Target;
use std::fs;
use std::fs::{Files, Metadata, OpenFile, OpenOptions, Permissions};
use std::io::ErrorKind;
use std::os::fd::AsFd;
use std::os::unix::fs::{MetadataExt, OpenOptionsExt, PermissionsExt, fchown};
use std::path::PathBuf;

// The mode of a temporary file that replaces another file, until it has that file's permissions.
const OWNER_ALONE: u32 = 0o600;

// The bits of a mode by which members of the group read, write and run a file.
const GROUP_BITS: u32 = 0o070;

// The bits of a mode by which a file runs as its owner or as its group.
const IDENTITY_BITS: u32 = 0o6000;

/// A file that this process has created, with its path.
#[derive(Drop)]
pub(crate) struct NamedTempFile<F> {
    pub(crate) file: F,
    pub(crate) path: PathBuf,
}

impl<F: OpenFile + AsFd + Drop> NamedTempFile<F> {
    /// Creates a file in the folder of the target, under the first name that is new. It tries
    /// `first` before the names of this process number.
    ///
    /// A file that will replace another has mode 0600 until it has that file's permissions.
    pub(crate) fn create<H: Files<File = F> + AllocGlobal>(
        rt: &H,
        target: &Target,
        process_id: u32,
        first: Option<PathBuf>,
    ) -> Result<Self, FileReason> {
        let mut options = OpenOptions::new();
        options.write(true).create_new(true);
        if target.replaced.is_some() {
            options.mode(OWNER_ALONE);
        }
        let mut path = match first {
            Some(path) => path,
            None => path_beside(rt, &target.path, process_id, 0)?,
        };
        for number in 1..u64::MAX {
            match options.open(rt, &path) {
                Ok(file) => return NamedTempFile { file, path }.permitted(rt, &target.replaced),
                Err(error) if error.kind() == ErrorKind::AlreadyExists => {}
                Err(error) => return Err(FileReason::of(error.kind())),
            }
            path = path_beside(rt, &target.path, process_id, number)?;
        }
        Err(FileReason::Other)
    }

    // Gives the file the owner, group and permissions of the one that it will replace. Removes it
    // if that fails.
    fn permitted<H: Files<File = F>>(
        self,
        rt: &H,
        replaced: &Option<Metadata>,
    ) -> Result<Self, FileReason> {
        let Some(metadata) = replaced else {
            return Ok(self);
        };
        match permit(&self.file, metadata) {
            Ok(()) => Ok(self),
            Err(reason) => {
                self.remove(rt);
                Err(reason)
            }
        }
    }

    // Returns whether its path still leads to this file.
    fn is_at_its_path<H: Files<File = F>>(&self, rt: &H) -> bool {
        match (self.file.metadata(), fs::symlink_metadata(rt, &self.path)) {
            (Ok(own), Ok(found)) => own.dev() == found.dev() && own.ino() == found.ino(),
            _ => false,
        }
    }

    /// Removes the file, unless its path leads to another one.
    pub(crate) fn remove<H: Files<File = F>>(&self, rt: &H) {
        if self.is_at_its_path(rt) {
            let _removed = fs::remove_file(rt, &self.path);
        }
    }

    /// Renames the file to this path, or removes it. Renames nothing if its path leads to another
    /// file.
    pub(crate) fn persist<H: Files<File = F>>(
        &self,
        rt: &H,
        path: &PathBuf,
    ) -> Result<(), FileReason> {
        if !self.is_at_its_path(rt) {
            return Err(FileReason::Other);
        }
        match fs::rename(rt, &self.path, path) {
            Ok(()) => Ok(()),
            Err(error) => {
                self.remove(rt);
                Err(FileReason::of(error.kind()))
            }
        }
    }
}

// Returns the path of a temporary file in the folder of a path, for this process and number.
fn path_beside<H: Files + AllocGlobal>(
    rt: &H,
    path: &PathBuf,
    process_id: u32,
    number: u64,
) -> Result<PathBuf, FileReason> {
    let Ok(name) = format!(in rt.alloc(); ".cubejobs-{process_id}-{number}.part") else {
        return Err(FileReason::OutOfMemory);
    };
    match path.with_file_name(rt.alloc(), name.as_str()) {
        Ok(beside) => Ok(beside),
        Err(_) => Err(FileReason::OutOfMemory),
    }
}

// Gives a file the owner, the group and the permissions of the one that it will replace. If the
// system refuses the owner, the file keeps this user as its owner. If it also refuses the group,
// the group's bits are dropped.
fn permit<F: OpenFile + AsFd>(file: &F, replaced: &Metadata) -> Result<(), FileReason> {
    let group = Some(replaced.gid());
    let mut mode = replaced.permissions().mode();
    if fchown(file.as_fd(), Some(replaced.uid()), group).is_err() {
        mode &= !IDENTITY_BITS;
        if fchown(file.as_fd(), None, group).is_err() {
            mode &= !GROUP_BITS;
        }
    }
    match file.set_permissions(Permissions::from_mode(mode)) {
        Ok(()) => Ok(()),
        Err(error) => Err(FileReason::of(error.kind())),
    }
}
