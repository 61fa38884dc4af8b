//! `renew`: a folder becomes another replica.
use crate::command_line::RenewRequest;
use crate::ending::Ending;
use crate::fault::Fault;
use crate::log_files::{keep_aside, locked_log, next_log, put_in_place, told_log, told_old_log};
use crate::log_names::MAX_OLD_LOGS;
use crate::old_log::{OldLog, filter_for, is_of};
use mr_filter::Filter;
use mr_fold::{FoldFault, FolderSetup, Kept, begin_log, check_made};
use mr_version::Author;
use std::fs::File;
use std::io;
use std::random::RandomSource;
use std::rt::Files;

/// Makes the folder another replica, with an empty log, and keeps the old log. The Maildir and the store stay as they are.
///
/// The new log is whole before it takes the old one's place, so a crash leaves the folder as it was or made anew.
pub fn renew_folder<R>(rt: &R, request: RenewRequest) -> Result<Ending, Fault>
where
    R: Files<File = File> + RandomSource + Eprint + AllocGlobal + Clone + Drop,
{
    let RenewRequest { folder, id, filter } = request;
    check_made(rt, folder)?;
    // the log stays locked until the new one is in its place
    let lock = locked_log(rt, folder)?;
    let ending = renew_locked(rt, folder, id, filter);
    drop(lock);
    ending
}

/// The same, once the log is locked.
fn renew_locked<R>(rt: &R, root: &str, id: Author, filter: Option<Filter>) -> Result<Ending, Fault>
where
    R: Files<File = File> + RandomSource + Eprint + AllocGlobal + Clone + Drop,
{
    let old = unused_log(rt, root, id)?;
    let filter = filter_for(rt.alloc(), filter, &old)?;
    let kept = begun(rt, root, id, filter)?;
    let ending = put_begun(rt, root, &kept);
    drop(kept);
    ending
}

/// Puts the log of the new replica in the place of the old one, which is kept, and tells so.
fn put_begun<R: Files<File = File> + Eprint + AllocGlobal>(
    rt: &R,
    root: &str,
    kept: &Kept,
) -> Result<Ending, Fault> {
    let number = keep_aside(rt, root)?;
    put_in_place(rt, root)?;
    tell_renewed(rt, kept, number)?;
    Ok(Ending::Done)
}

/// What the folder's log tells, where no log of the folder is of this id.
fn unused_log<R: Files<File = File> + AllocGlobal>(
    rt: &R,
    root: &str,
    id: Author,
) -> Result<OldLog, Fault> {
    let log = told_log(rt, root)?;
    check_unused(rt, root, &log, id)?;
    Ok(log)
}

/// Whether no log of the folder is of this id.
fn check_unused<R: Files<File = File> + AllocGlobal>(
    rt: &R,
    root: &str,
    log: &OldLog,
    id: Author,
) -> Result<(), Fault> {
    if let OldLog::Empty = log {
        return Err(Fault::Folder(FoldFault::NotMade));
    }
    if is_of(log, id) {
        return Err(Fault::UsedId(id));
    }
    for number in 1..=MAX_OLD_LOGS {
        if is_of(&told_old_log(rt, root, number)?, id) {
            return Err(Fault::UsedId(id));
        }
    }
    Ok(())
}

/// Begins the replica in the next log.
fn begun<R: Files<File = File> + RandomSource + AllocGlobal>(
    rt: &R,
    root: &str,
    id: Author,
    filter: Filter,
) -> Result<Kept, Fault> {
    let mut birth = [0u8; 16];
    rt.fill_bytes(&mut birth)?;
    let setup = FolderSetup {
        id,
        filter,
        birth,
        layout: None,
    };
    Ok(begin_log(rt, next_log(rt, root)?, setup)?)
}

/// Tells what replica the folder is, and what to do next.
fn tell_renewed<R: Eprint>(rt: &R, kept: &Kept, number: u32) -> io::Result<()> {
    let replica = kept.replica();
    let id = replica.id().id();
    let filter = replica.filter().text()?;
    let filter = filter.as_str();
    eprintln!(rt; "replica {id}, filter {filter}; the old log is .mailfold/log.{number}")?;
    eprintln!(rt;
        "mailfold: let this folder begin the next sync, before any scan: then mail that both sides have isn't new"
    )?;
    Ok(())
}
