//! The files of a folder's logs: how one is opened, begun and kept aside, and how another takes its place.
use crate::fault::Fault;
use crate::log_names::{MAX_OLD_LOGS, copy_path, log_path, next_path, old_path};
use crate::old_log::{OldLog, old_log};
use mr_fold::FoldFault;
use mr_journal::DiskFile;
use std::alloc::Global;
use std::fs::{self, File};
use std::io::{self, ErrorKind, Read};
use std::rt::Files;

/// How many bytes of a log are read for what replica it is of: its head is far shorter.
const FRONT_BYTES: u64 = 65_536;

/// Opens the folder's log, so that no other program may.
pub fn locked_log<R: Files<File = File> + AllocGlobal>(
    rt: &R,
    root: &str,
) -> Result<DiskFile, Fault> {
    let path = log_path(rt.alloc(), root)?;
    opened(rt, path.as_str())
}

/// Makes the next log, without an entry. One that was left by a command that was stopped goes.
pub fn next_log<R: Files<File = File> + AllocGlobal>(
    rt: &R,
    root: &str,
) -> Result<DiskFile, Fault> {
    let path = next_path(rt.alloc(), root)?;
    remove(rt, path.as_str())?;
    opened(rt, path.as_str())
}

fn opened<R: Files<File = File>>(rt: &R, path: &str) -> Result<DiskFile, Fault> {
    match DiskFile::open(rt, path) {
        Ok(file) => Ok(file),
        Err(fault) => Err(Fault::Folder(FoldFault::from(fault))),
    }
}

/// Removes a file, if it is there.
fn remove<R: Files>(rt: &R, path: &str) -> io::Result<()> {
    match fs::remove_file(rt, path) {
        Err(said) if said.kind() != ErrorKind::NotFound => Err(said),
        _ => Ok(()),
    }
}

/// What the folder's log tells.
pub fn told_log<R: Files<File = File> + AllocGlobal>(rt: &R, root: &str) -> Result<OldLog, Fault> {
    log_at(rt, log_path(rt.alloc(), root)?)
}

/// What the old log of this number tells. One that isn't there tells nothing.
pub fn told_old_log<R: Files<File = File> + AllocGlobal>(
    rt: &R,
    root: &str,
    number: u32,
) -> Result<OldLog, Fault> {
    log_at(rt, old_path(rt.alloc(), root, number)?)
}

/// What a log tells; nothing where it isn't there.
fn log_at<R: Files<File = File> + AllocGlobal>(rt: &R, path: String) -> Result<OldLog, Fault> {
    match front_of(rt, path.as_str()) {
        Ok(bytes) => Ok(old_log(rt.alloc(), bytes.as_slice())?),
        Err(said) if said.kind() == ErrorKind::NotFound => Ok(OldLog::Empty),
        Err(said) => Err(Fault::File { path, said }),
    }
}

/// The first bytes of the log at a path.
fn front_of<R: Files<File = File> + AllocGlobal>(rt: &R, path: &str) -> io::Result<Vec<u8>> {
    front(rt.alloc(), fs::open(rt, path)?)
}

/// The first bytes of a log.
fn front<F: Read + Drop>(alloc: Global, file: F) -> io::Result<Vec<u8>> {
    let mut bytes = Vec::new(alloc);
    file.take(FRONT_BYTES).read_to_end(&mut bytes)?;
    Ok(bytes)
}

/// Gives the log a second name, the first that is free of those of old logs, and tells its number.
pub fn keep_aside<R: Files<File = File> + AllocGlobal>(rt: &R, root: &str) -> Result<u32, Fault> {
    for number in 1..=MAX_OLD_LOGS {
        if is_kept_as(rt, root, number)? {
            sync_logs(rt, root)?;
            return Ok(number);
        }
    }
    Err(Fault::NoFreeName)
}

/// Gives the log the name of the old one of this number, unless that is there.
fn is_kept_as<R: Files<File = File> + AllocGlobal>(
    rt: &R,
    root: &str,
    number: u32,
) -> Result<bool, Fault> {
    let log = log_path(rt.alloc(), root)?;
    let old = old_path(rt.alloc(), root, number)?;
    if fs::exists(rt, old.as_str())? {
        return Ok(false);
    }
    match fs::hard_link(rt, log.as_str(), old.as_str()) {
        Ok(()) => Ok(true),
        Err(said) if said.kind() == ErrorKind::AlreadyExists => Ok(false),
        Err(_) => {
            copy(rt, root, old.as_str())?;
            Ok(true)
        }
    }
}

/// Copies the log to a path where nothing is, for a file system that makes no links. The copy is whole before it gets its name.
fn copy<R: Files<File = File> + AllocGlobal>(rt: &R, root: &str, to: &str) -> Result<(), Fault> {
    let log = log_path(rt.alloc(), root)?;
    let copy = copy_path(rt.alloc(), root)?;
    fs::copy(rt, log.as_str(), copy.as_str())?;
    File::open(rt, copy.as_str())?.sync_all()?;
    fs::rename(rt, copy.as_str(), to)?;
    Ok(())
}

/// Has the next log take the place of the log. A crash leaves the one or the other.
pub fn put_in_place<R: Files<File = File> + AllocGlobal>(rt: &R, root: &str) -> Result<(), Fault> {
    let next = next_path(rt.alloc(), root)?;
    let log = log_path(rt.alloc(), root)?;
    fs::rename(rt, next.as_str(), log.as_str())?;
    sync_logs(rt, root)
}

/// Has the names of the logs stay.
fn sync_logs<R: Files<File = File> + AllocGlobal>(rt: &R, root: &str) -> Result<(), Fault> {
    let path = format!(in rt.alloc(); "{root}/.mailfold")?;
    File::open(rt, path.as_str())?.sync_all()?;
    Ok(())
}
