//! `moved`: a folder that was moved opens again.
use crate::ending::Ending;
use crate::fault::Fault;
use crate::log_files::{locked_log, next_log, put_in_place, told_log};
use crate::old_log::OldLog;
use mr_entry::{EntryFault, Head, Mark, encode_head};
use mr_fold::{FoldFault, Kept, check_made, mark_for};
use mr_journal::{Device, DiskFile, Journal};
use mr_kept::OpenFault;
use std::alloc::Global;
use std::fs::File;
use std::rt::Files;

/// Notes in the folder's log where it lies now: it is written anew, with the same entries and another mark. The folder stays the
/// replica that it was. Of a folder that is where it was nothing changes.
///
/// The new log is whole, and was opened, before it takes the old one's place.
pub fn move_folder<R>(rt: &R, root: &str) -> Result<Ending, Fault>
where
    R: Files<File = File> + Eprint + AllocGlobal + Clone + Drop,
{
    check_made(rt, root)?;
    let file = locked_log(rt, root)?;
    let head = head_of(told_log(rt, root)?)?;
    move_locked(rt, root, file, &head)
}

/// The same, once the log is locked.
fn move_locked<R>(rt: &R, root: &str, file: DiskFile, head: &Head) -> Result<Ending, Fault>
where
    R: Files<File = File> + Eprint + AllocGlobal + Clone + Drop,
{
    let id = head.id().id();
    if head.mark() == mark_for(rt, &file)? {
        eprintln!(rt; "replica {id} is where it was: nothing was done")?;
        return Ok(Ending::Done);
    }
    let (journal, entries) = opened(rt.alloc(), file)?;
    let ending = put_moved(rt, root, head, entries.as_slice());
    drop(journal);
    ending
}

/// Puts a log with these entries and the mark of its place where the log was, and tells so.
fn put_moved<R>(rt: &R, root: &str, head: &Head, entries: &[Vec<u8>]) -> Result<Ending, Fault>
where
    R: Files<File = File> + Eprint + AllocGlobal + Clone + Drop,
{
    // the log is on the disk, and whoever needs it opens it
    let kept = moved_log(rt, root, head, entries)?;
    let ending = put_next(rt, root, head.id().id());
    drop(kept);
    ending
}

/// Puts the next log, of this replica, where the log was, and tells so.
fn put_next<R>(rt: &R, root: &str, id: u16) -> Result<Ending, Fault>
where
    R: Files<File = File> + Eprint + AllocGlobal,
{
    put_in_place(rt, root)?;
    eprintln!(rt; "replica {id} was moved here")?;
    Ok(Ending::Done)
}

/// The head of a log.
fn head_of(log: OldLog) -> Result<Head, Fault> {
    match log {
        OldLog::Of(head) => Ok(head),
        OldLog::Empty => Err(Fault::Folder(FoldFault::NotMade)),
        OldLog::Unread => Err(Fault::UnreadLog),
    }
}

/// Opens the journal that a log is.
fn opened(alloc: Global, file: DiskFile) -> Result<(Journal<DiskFile>, Vec<Vec<u8>>), Fault> {
    match Journal::open(alloc, file) {
        Ok(opened) => Ok(opened),
        Err((fault, file)) => Err(unopened(OpenFault::Journal(fault), &file)),
    }
}

/// Opens the replica of the log in a file that has this mark.
fn opened_kept(alloc: Global, file: DiskFile, mark: &Mark) -> Result<Kept, Fault> {
    kept_of(Kept::open(alloc, file, mark, None))
}

/// What was opened; else why it wasn't.
fn kept_of<K: Drop, O: Drop>(opened: Result<(K, O), (OpenFault, DiskFile)>) -> Result<K, Fault> {
    match opened {
        Ok((kept, _opened)) => Ok(kept),
        Err((fault, file)) => Err(unopened(fault, &file)),
    }
}

/// Why a log isn't opened, with the system's words.
fn unopened(fault: OpenFault, file: &DiskFile) -> Fault {
    Fault::Folder(FoldFault::Journal(fault.explained(file.error())))
}

/// Writes the next log with these entries, but its own mark, and opens it.
fn moved_log<R: Files<File = File> + AllocGlobal>(
    rt: &R,
    root: &str,
    head: &Head,
    entries: &[Vec<u8>],
) -> Result<Kept, Fault> {
    let [_, others @ ..] = entries else {
        return Err(Fault::UnreadLog);
    };
    let alloc = rt.alloc();
    let file = next_log(rt, root)?;
    let mark = mark_for(rt, &file)?;
    let first = first_batch(alloc, head, mark)?;
    let file = written(alloc, file, first.as_slice(), others)?;
    opened_kept(alloc, file, &mark)
}

/// The batch that the head is, with another mark.
fn first_batch(alloc: Global, head: &Head, mark: Mark) -> Result<Vec<Vec<u8>>, Fault> {
    let filter = String::from_str(alloc, head.filter())?;
    let moved = Head::new(head.id(), head.event_limit(), head.birth(), mark, filter);
    let mut batch = Vec::new(alloc);
    match encode_head(alloc, &moved) {
        Ok(bytes) => batch.push(bytes)?,
        Err(EntryFault::OutOfMemory) => return Err(Fault::OutOfMemory),
        Err(_) => return Err(Fault::UnreadLog),
    }
    Ok(batch)
}

/// Keeps two batches in a file that has none.
fn written(
    alloc: Global,
    file: DiskFile,
    first: &[Vec<u8>],
    others: &[Vec<u8>],
) -> Result<DiskFile, Fault> {
    let (mut journal, none) = opened(alloc, file)?;
    drop(none);
    let written = commit_both(alloc, &mut journal, first, others);
    device_of(journal, written)
}

/// The device of a journal in which something was written; else why it wasn't.
fn device_of<D: Device + Drop>(
    journal: Journal<D>,
    written: Result<(), Fault>,
) -> Result<D, Fault> {
    written?;
    Ok(journal.into_device())
}

fn commit_both(
    alloc: Global,
    journal: &mut Journal<DiskFile>,
    first: &[Vec<u8>],
    second: &[Vec<u8>],
) -> Result<(), Fault> {
    commit(alloc, journal, first)?;
    commit(alloc, journal, second)
}

fn commit(alloc: Global, journal: &mut Journal<DiskFile>, batch: &[Vec<u8>]) -> Result<(), Fault> {
    match journal.commit(alloc, batch) {
        Ok(()) => Ok(()),
        Err(fault) => Err(unopened(OpenFault::Journal(fault), journal.device())),
    }
}
