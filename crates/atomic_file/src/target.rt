// The file that an output will be, found by its name before any work is done.
use crate::file_fault::FileReason;
use std::fs;
use std::fs::{Files, Metadata, OpenOptions};
use std::io::ErrorKind;
use std::os::fd::{AsFd, AsRawFd};
use std::os::unix::fs::MetadataExt;
use std::path::PathBuf;

// The most symbolic links that a name may lead through, as in Linux.
const MOST_LINKS: u32 = 40;

/// The file that an output will be. It has the path, which is no symbolic link, and the metadata of
/// the file that is there now, if there is one.
#[derive(Drop)]
pub(crate) struct Target {
    pub(crate) path: PathBuf,
    pub(crate) replaced: Option<Metadata>,
}

impl Target {
    /// Finds the file that a name leads to. If there is none, the output will be a new file. That
    /// holds also for a symbolic link to nothing.
    pub(crate) fn of<H: Files + AllocGlobal>(rt: &H, name: &str) -> Result<Self, FileReason> {
        let path = followed(rt, name)?;
        // The system follows the name by its own rules, which protect links in shared folders.
        let replaced = existing(rt, name)?;
        match &replaced {
            Some(metadata) if metadata.is_dir() => return Err(FileReason::Folder),
            Some(metadata) if !metadata.is_file() => return Err(FileReason::Special),
            None if is_folder_name(name) => return Err(FileReason::Missing),
            _ => {}
        }
        // A link that has changed between the two calls is not followed.
        if !are_same(&replaced, &existing(rt, path.as_str())?) {
            return Err(FileReason::Other);
        }
        Ok(Target { path, replaced })
    }

    /// Returns an error if there is a file and it cannot be replaced.
    ///
    /// The file must be writable under its name and be on the mount of `beside`, a file of the same
    /// folder. A rename cannot replace a file that is itself a mount.
    pub(crate) fn may_be_replaced<H: Files<File: AsFd> + AllocGlobal>(
        &self,
        rt: &H,
        name: &str,
        beside: &H::File,
    ) -> Result<(), FileReason> {
        if self.replaced.is_none() {
            return Ok(());
        }
        let file = match OpenOptions::new().write(true).open(rt, name) {
            Ok(file) => file,
            Err(error) => return Err(FileReason::of(error.kind())),
        };
        // If the system does not name both mounts, the rename decides at the end.
        let mount = mount_of(rt, &file);
        let folder_mount = mount_of(rt, beside);
        if mount.is_some() && folder_mount.is_some() && mount != folder_mount {
            return Err(FileReason::Special);
        }
        Ok(())
    }
}

// Follows a name while it is a symbolic link. Only the last part of the name is followed, so the
// folders above it need not be readable.
pub(crate) fn followed<H: Files + AllocGlobal>(rt: &H, name: &str) -> Result<PathBuf, FileReason> {
    let Ok(mut path) = PathBuf::from_str(rt.alloc(), name) else {
        return Err(FileReason::OutOfMemory);
    };
    for _ in 0..MOST_LINKS {
        match fs::symlink_metadata(rt, &path) {
            Ok(metadata) if metadata.is_symlink() => {}
            Ok(_) => return Ok(path),
            Err(error) if error.kind() == ErrorKind::NotFound => return Ok(path),
            Err(error) => return Err(FileReason::of(error.kind())),
        }
        let target = match fs::read_link(rt, &path) {
            Ok(target) => target,
            Err(error) => return Err(FileReason::of(error.kind())),
        };
        path = match path.with_file_name(rt.alloc(), target.as_str()) {
            Ok(path) => path,
            Err(_) => return Err(FileReason::OutOfMemory),
        };
    }
    Err(FileReason::Other)
}

// Returns the metadata of the file that the system finds by a name, or `None` if there is none.
fn existing<H: Files>(rt: &H, name: &str) -> Result<Option<Metadata>, FileReason> {
    match fs::metadata(rt, name) {
        Ok(metadata) => Ok(Some(metadata)),
        Err(error) if error.kind() == ErrorKind::NotFound => Ok(None),
        Err(error) => Err(FileReason::of(error.kind())),
    }
}

// Returns whether both are of one file, or both are `None`.
fn are_same(one: &Option<Metadata>, other: &Option<Metadata>) -> bool {
    match (one, other) {
        (Some(one), Some(other)) => one.dev() == other.dev() && one.ino() == other.ino(),
        (None, None) => true,
        _ => false,
    }
}

// Returns whether a name can only be that of a folder, or is empty.
fn is_folder_name(name: &str) -> bool {
    name.is_empty() || name.ends_with('/') || name.ends_with("/.")
}

// Returns the line in which the system names the mount of an open file, if it does.
fn mount_of<H: Files + AllocGlobal, F: AsFd>(rt: &H, file: &F) -> Option<String> {
    let number = file.as_fd().as_raw_fd();
    let Ok(path) = format!(in rt.alloc(); "/proc/self/fdinfo/{number}") else {
        return None;
    };
    let Ok(text) = fs::read_to_string(rt, path.as_str()) else {
        return None;
    };
    let line = text.lines().find(|line| line.starts_with("mnt_id:"))?;
    match String::from_str(rt.alloc(), line) {
        Ok(line) => Some(line),
        Err(_) => None,
    }
}
