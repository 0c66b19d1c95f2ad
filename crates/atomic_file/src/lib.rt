//! Atomic replacement of files: each file is written whole or not at all.
//!
//! `FileStore` is the contract of a store of files. `SystemFiles` implements it for the files of
//! the system.
#![tactic(auto)]

mod file_fault;
mod file_store;
mod named_temp_file;
mod system_files;
mod system_temp_file;
mod target;

pub use file_fault::{FileFault, FileReason, FileSide};
pub use file_store::FileStore;
pub use system_files::SystemFiles;
pub use system_temp_file::{SystemReader, SystemTempFile};
