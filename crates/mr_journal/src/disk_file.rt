//! A file as a device. What a file takes and gives is trusted here: no contract can say it.
ghost use Rattle.std.specs.Prelude.{◌≡◌, [], false, is_ok};
ghost use Rattle.mr_journal.specs.File.{file_fault_number};

use crate::{Device, DeviceFailed};
use std::fs::{File, OpenOptions, TryLockError};
use std::io;
use std::os::unix::fs::{FileExt, MetadataExt};
use std::path::Path;
use std::rt::Files;
use thiserror::Error;

/// Why a file isn't opened.
#[derive(Clone, Copy, Debug, Drop, Error)]
pub enum FileFault {
    /// Another handle, mostly of another process, has the file open as a journal.
    #[error("in use")]
    InUse,
    /// What stands at the path is a pipe, a device or the like. A folder is told as `System`, since it isn't opened for writing.
    #[error("not a file")]
    NotAFile,
    /// The system's own words.
    #[error("{0}")]
    System(io::Error),
}

impl FileFault {
    /// The fault's number, from 1 in the order of the variants.
    pub fn number(self) -> u8
        ensures { result ≡ file_fault_number self }
    {
        match self {
            FileFault::InUse => 1,
            FileFault::NotAFile => 2,
            FileFault::System(_) => 3,
        }
    }
}

impl From<io::Error> for FileFault {
    fn from(error: io::Error) -> FileFault {
        FileFault::System(error)
    }
}

impl From<TryLockError> for FileFault {
    fn from(error: TryLockError) -> FileFault {
        match error {
            TryLockError::WouldBlock => FileFault::InUse,
            TryLockError::Error(error) => FileFault::System(error),
        }
    }
}

/// A file, locked for as long as this value lives.
#[derive(Drop)]
pub struct DiskFile {
    file: File,
    error: Option<io::Error>,
}

impl DiskFile {
    /// Opens the file at a path, and makes it where there is none. It is locked, so that a second opener is refused at once,
    /// and its folder is synced, so that a file that was made stays.
    ///
    /// `System` where it isn't opened, as a folder or a path that leads nowhere; then `NotAFile` where it is no file, `InUse`
    /// where it is locked, and `System` where its folder isn't synced.
    pub fn open<R: Files<File = File>>(rt: &R, path: &str) -> Result<DiskFile, FileFault> {
        let file = OpenOptions::new()
            .read(true)
            .write(true)
            .create(true)
            .open(rt, path)?;
        if !file.metadata()?.is_file() {
            return Err(FileFault::NotAFile);
        }
        file.try_lock()?;
        File::open(rt, folder_of(path))?.sync_all()?;
        Ok(DiskFile { file, error: None })
    }

    /// The number of the file's inode, `st_ino` of POSIX: no other file of its file system has it for as long as this one is open,
    /// and it stays the same under each name that the file is given. A copy of the file has another.
    ///
    /// The system's error where it isn't told. It costs a call of the system. No contract says what a file tells.
    pub fn inode(&self) -> io::Result<u64> {
        Ok(self.file.metadata()?.ino())
    }

    /// What the system said of the last call that failed.
    pub fn error(&self) -> Option<io::Error> {
        self.error
    }
}

/// The folder that a path's file is in.
fn folder_of(path: &str) -> Path<'_> {
    match Path::new(path).parent() {
        Some(folder) if !folder.as_str().is_empty() => folder,
        _ => Path::new("."),
    }
}

/// Keeps what the system said where a call failed.
fn noted<T>(outcome: io::Result<T>, error: &mut Option<io::Error>) -> Result<T, DeviceFailed>
    ensures { is_ok result ≡ is_ok outcome }
{
    match outcome {
        Ok(value) => Ok(value),
        Err(said) => {
            *error = Some(said);
            Err(DeviceFailed)
        }
    }
}

impl Device for DiskFile {
    ghost is_told = { false };

    ghost seen = { λ _. [] };

    ghost may_leave = { λ _ _. ⊥ };

    ghost moment = { λ _. 0 };

    ghost left_since = { λ _ _ _. ⊥ };

    ghost has_failed = { λ _. false };

    ghost now_counts = { λ _ _ _ _ now. now };

    ghost only_now = { λ _ _ left. left };

    fn len(&mut self) -> Result<u64, DeviceFailed> {
        let told = noted(self.file.metadata(), &mut self.error)?;
        Ok(told.len())
    }

    fn read_at(&mut self, at: u64, buf: &mut [u8]) -> Result<(), DeviceFailed> {
        noted(self.file.read_exact_at(buf, at), &mut self.error)
    }

    fn write_at(&mut self, at: u64, bytes: &[u8]) -> Result<(), DeviceFailed> {
        noted(self.file.write_all_at(bytes, at), &mut self.error)
    }

    fn cut(&mut self, len: u64) -> Result<(), DeviceFailed> {
        noted(self.file.set_len(len), &mut self.error)
    }

    fn sync(&mut self) -> Result<(), DeviceFailed> {
        noted(self.file.sync_data(), &mut self.error)
    }
}
