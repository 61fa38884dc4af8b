//! `scan`: what other programs changed is taken.
use crate::command_line::ScanRequest;
use crate::edited::tell_edited;
use crate::ending::Ending;
use crate::fault::Fault;
use crate::full_log::{has_full_log, warn_of_full_log};
use crate::opener::open_watched;
use crate::passed_over::tell_passed_over;
use crate::progress::{clear_step, show_step};
use mr_compare::tally_of;
use mr_fold::{OpenFolder, Settled, lock, look, note_seen, seen_at_rest, settle_if_edited};
use mr_journal::DiskFile;
use std::fs::File;
use std::rt::Files;

/// Scans the folder, or tells what a scan would do. Who watches is shown that it is at work. A folder that rests, as a scan noted it, isn't
/// opened.
pub fn scan_folder<R: Files<File = File> + Eprint + AllocGlobal + Clone + Drop>(
    rt: &R,
    request: ScanRequest,
    is_watched: bool,
) -> Result<Ending, Fault> {
    let log = lock(rt, request.folder)?;
    show_step(rt, is_watched, "scan: looking at the files");
    match at_rest(rt, &log, request) {
        Some(settled) => {
            drop(log);
            clear_step(rt, is_watched);
            tell_settled(rt, &settled)
        }
        None => scan_open(rt, log, request, is_watched),
    }
}

/// What is noted of a folder that rests, if a scan may go by that. It is locked by its log's file.
fn at_rest<R: Files<File = File> + AllocGlobal + Clone + Drop>(
    rt: &R,
    log: &DiskFile,
    request: ScanRequest,
) -> Option<Settled> {
    if request.is_dry {
        return None;
    }
    seen_at_rest(rt, request.folder, log)
}

/// Scans a folder that has to be opened. It is locked by its log's file.
fn scan_open<R: Files<File = File> + Eprint + AllocGlobal + Clone + Drop>(
    rt: &R,
    log: DiskFile,
    request: ScanRequest,
    is_watched: bool,
) -> Result<Ending, Fault> {
    let mut folder = open_watched(rt, request.folder, log, is_watched)?;
    let ending = scan_opened(rt, &mut folder, request, is_watched);
    drop(folder);
    ending
}

/// Scans an open folder, and tells what that did, or would do.
fn scan_opened<R: Files<File = File> + Eprint + AllocGlobal + Clone + Drop>(
    rt: &R,
    folder: &mut OpenFolder<R>,
    request: ScanRequest,
    is_watched: bool,
) -> Result<Ending, Fault> {
    let settled = settled(rt, folder, request);
    clear_step(rt, is_watched);
    let ending = tell_settled(rt, &settled?)?;
    warn_of_full_log(rt, folder.kept.replica())?;
    Ok(ending)
}

/// Tells what a scan did, or would do.
fn tell_settled<R: Eprint + AllocGlobal>(rt: &R, settled: &Settled) -> Result<Ending, Fault> {
    tell_passed_over(rt, &settled.passed_over)?;
    tell_edited(rt, settled.edited)?;
    let tally = settled.tally;
    eprintln!(rt; "{tally}")?;
    Ok(Ending::Done)
}

/// What was done in an open folder, or would be, and what was passed over. What was seen is noted for the next scan, but not where a full log has
/// to be told each time.
fn settled<R: Files<File = File> + AllocGlobal + Clone + Drop>(
    rt: &R,
    folder: &mut OpenFolder<R>,
    request: ScanRequest,
) -> Result<Settled, Fault> {
    if request.is_dry {
        let looked = look(folder)?;
        return Ok(Settled {
            tally: tally_of(&looked.acts),
            edited: looked.edited,
            passed_over: looked.passed_over,
        });
    }
    let settled = settle_if_edited(rt, request.folder, folder, request.most_deletions)?;
    if !has_full_log(folder.kept.replica()) {
        note_seen(rt, request.folder, folder);
    }
    Ok(settled)
}
