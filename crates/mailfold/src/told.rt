//! What standard error is told.
use crate::advice::advice_for;
use crate::fault::Fault;
use crate::tallies::joined;
use mr_compare::Tally;
use mr_maildir::printable;
use mr_sync::Summary;
use std::alloc::{AllocError, Global};
use std::io;

/// Tells why a command isn't done, as a terminal may show it: part of the text may be the other side's. A text that can't be told
/// is lost.
pub fn tell_fault<R: Eprint + AllocGlobal>(rt: &R, fault: &Fault) {
    if fault.is_unread() {
        return;
    }
    match fault_text(rt.alloc(), fault) {
        Ok(text) => {
            let text = text.as_str();
            let _ = eprintln!(rt; "mailfold: {text}");
        }
        Err(_) => {
            let _ = eprintln!(rt; "mailfold: out of memory");
        }
    }
    if let Some(advice) = advice_for(fault) {
        let text = advice.text();
        let _ = eprintln!(rt; "mailfold: {text}");
    }
}

/// Tells what the system said of the folder's files or of its log, if one of its calls failed: a fault of a talk has no words of it. A text
/// that can't be told is lost.
pub fn tell_system<R: Eprint>(rt: &R, of: &str, error: Option<io::Error>) {
    if let Some(error) = error {
        let _ = eprintln!(rt; "mailfold: the system says of the {of}: {error}");
    }
}

/// The text of a fault, without control characters.
fn fault_text(alloc: Global, fault: &Fault) -> Result<String, AllocError> {
    let text = format!(in alloc; "{fault}")?;
    printable(alloc, text.as_str())
}

/// What came of a sync: what was done with the folder before the talk and after it, and the talk.
#[derive(Clone, Copy)]
pub struct Told<'a> {
    /// The folder's number.
    pub id: u16,
    pub before: &'a Tally,
    pub after: &'a Tally,
    pub summary: &'a Summary,
    /// Whether the folder was never scanned before.
    pub is_fresh: bool,
}

/// Tells what a sync did, in a line.
pub fn tell_sync<R: Eprint>(rt: &R, told: Told) -> io::Result<()> {
    let id = told.id;
    let tally = joined(told.before, told.after);
    let Summary {
        is_idle,
        told: records,
        taken,
        files_sent,
        files_came,
        files_missing,
        ..
    } = *told.summary;
    if is_idle {
        eprintln!(rt; "replica {id}: {tally}; nothing to tell")?;
    } else {
        eprintln!(rt;
            "replica {id}: {tally}; versions: {records} told, {taken} taken; files: {files_sent} sent, {files_came} came"
        )?;
    }
    tell_missing(rt, files_missing)?;
    if told.is_fresh && told.after.new > 0 {
        eprintln!(rt; "mailfold: the mail that is new here is told by the next sync")?;
    }
    Ok(())
}

/// Tells of how many files neither side has, if there are any.
fn tell_missing<R: Eprint>(rt: &R, files: u64) -> io::Result<()> {
    match files {
        0 => Ok(()),
        1 => eprintln!(rt; "mailfold: 1 file is missing on both sides"),
        _ => eprintln!(rt; "mailfold: {files} files are missing on both sides"),
    }
}
