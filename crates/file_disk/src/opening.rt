//! A file is opened as a disk, or to be read, or made.
ghost use Rattle.std.specs.Prelude.{◌≡◌, IfOk, List, ℕ};
ghost use Rattle.file_disk.specs.Files.{opened};

use crate::file::FileDisk;
use std::fs::{self, File, OpenOptions, TryLockError};
use std::io::{self, Read};
use std::os::fd::AsRawFd;

/// Why a file isn't opened.
#[derive(Clone, Copy, Debug, PartialEq, Eq)]
pub enum OpenFault {
    /// Another program has its lock.
    Busy,
    /// It is absent, or no regular file, or longer than it may be, or the system refuses it.
    Refused,
    /// Memory was wanting.
    Memory,
}

impl From<io::Error> for OpenFault {
    fn from(error: io::Error) -> OpenFault {
        if error.kind() == io::ErrorKind::OutOfMemory {
            OpenFault::Memory
        } else {
            OpenFault::Refused
        }
    }
}

// Whether something stands at the path. What is no regular file is refused before it is opened, since opening a pipe may wait for ever.
fn is_there(rt: &HostRuntime, path: &str) -> Result<bool, OpenFault> {
    match fs::metadata(rt, path) {
        Ok(found) => {
            if found.is_file() {
                Ok(true)
            } else {
                Err(OpenFault::Refused)
            }
        }
        Err(error) => {
            if error.kind() == io::ErrorKind::NotFound {
                Ok(false)
            } else {
                Err(OpenFault::from(error))
            }
        }
    }
}

// The file, if it is a regular one still. Where a standard stream was closed, its number isn't taken: what is meant for that stream
// must not land in the file.
fn checked(file: File) -> Result<File, OpenFault> {
    if !file.metadata()?.is_file() {
        return Err(OpenFault::Refused);
    }
    if file.as_raw_fd() <= 2 {
        return Ok(file.try_clone()?);
    }
    Ok(file)
}

// The file with its lock, which ends with it.
fn locked(file: File) -> Result<File, OpenFault> {
    match file.try_lock() {
        Ok(()) => Ok(file),
        Err(TryLockError::WouldBlock) => Err(OpenFault::Busy),
        Err(TryLockError::Error(_)) => Err(OpenFault::Refused),
    }
}

// The file at the path, or a new one, with its lock.
fn open_or_make(rt: &HostRuntime, path: &str) -> Result<File, OpenFault> {
    is_there(rt, path)?;
    let file = OpenOptions::new()
        .read(true)
        .write(true)
        .create(true)
        .open(rt, path)?;
    locked(checked(file)?)
}

// What was written before is on the disk, and the file's name in its folder.
fn settle(rt: &HostRuntime, path: &str, file: &File) -> Result<(), OpenFault> {
    file.sync_all()?;
    let mut folder = fs::canonicalize(rt, path)?;
    folder.pop();
    File::open(rt, folder.as_str())?.sync_all()?;
    Ok(())
}

/// Opens the file at a path as a disk, or makes it there, with its lock; it has at most so many bytes. The file and its folder are
/// synced, and it is read.
pub fn open_disk(rt: &HostRuntime, path: &str, most: usize) -> Result<FileDisk, OpenFault>
    ensures { IfOk result (λ disk. (bytes : List ℕ) × (disk ≡ opened bytes)) }
{
    let mut file = open_or_make(rt, path)?;
    settle(rt, path, &file)?;
    let mut bytes = Vec::new(rt.alloc());
    if file.metadata()?.len() > most as u64 {
        return Err(OpenFault::Refused);
    }
    file.read_to_end(&mut bytes)?;
    if bytes.len() > most {
        return Err(OpenFault::Refused);
    }
    Ok(FileDisk::over(file, bytes))
}

/// Opens the file at a path to be read, without its lock. None is made.
pub fn open_to_read(rt: &HostRuntime, path: &str) -> Result<File, OpenFault> {
    if !is_there(rt, path)? {
        return Err(OpenFault::Refused);
    }
    checked(OpenOptions::new().read(true).open(rt, path)?)
}

/// Opens the file at a path to be read, with its lock. None is made.
pub fn open_alone(rt: &HostRuntime, path: &str) -> Result<File, OpenFault> {
    locked(open_to_read(rt, path)?)
}
