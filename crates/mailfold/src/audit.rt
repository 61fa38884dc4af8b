//! `audit`: whether the logs of several folders are one history.
//!
//! A log is taken as it is, wherever it was made: a copy will do, of a folder or of its log alone.
use crate::ending::Ending;
use crate::fault::Fault;
use crate::words::push_word;
use mr_audit::{Verdict, are_distinct, audit, explained_beginnings, giver_of, missing_peers};
use mr_compare::Meeting;
use mr_entry::{Entry, Mark, decode_entry};
use mr_fold::{FoldFault, Kept, meetings_of};
use mr_itemset::SparingKnowledge;
use mr_journal::{DiskFile, Journal};
use mr_kept::{OpenFault, Opened};
use mr_maildir::printable;
use mr_replica::{Event, Replica};
use mr_version::Author;
use std::alloc::{AllocError, Global};
use std::collections::{BTreeMap, BTreeSet};
use std::fs::{self, File};
use std::rt::Files;

/// The replica of a folder.
type End = Replica<SparingKnowledge>;

/// Whom a folder met, by their ids.
type Meetings = BTreeMap<u16, Meeting>;

/// A folder that is audited. Its log is locked for as long as this value lives.
#[derive(Drop)]
struct Audited<'a> {
    /// The folder's path.
    root: &'a str,
    kept: Kept,
    meetings: Meetings,
}

/// Tells whether one history explains the logs of these folders, or which events it leaves out. All logs are locked meanwhile, so that
/// none goes on while another is read.
pub fn audit_folders<R>(rt: &R, roots: &[&str]) -> Result<Ending, Fault>
where
    R: Files<File = File> + Print + Eprint + AllocGlobal,
{
    let mut folders = Vec::new(rt.alloc());
    for root in roots {
        match open_log(rt, root) {
            Ok(folder) => put(&mut folders, folder)?,
            Err(fault) => return tell_unopened(rt, root, fault),
        }
    }
    audit_opened(rt, &folders)
}

/// Puts one behind the others.
fn put<T: Drop>(all: &mut Vec<T>, one: T) -> Result<(), AllocError> {
    all.push(one)?;
    Ok(())
}

/// Tells whether one history explains the logs of these folders.
fn audit_opened<R: Print + Eprint + AllocGlobal>(
    rt: &R,
    folders: &[Audited],
) -> Result<Ending, Fault> {
    let alloc = rt.alloc();
    let ends = copies(alloc, folders)?;
    let peers = peers_text(alloc, folders, &ends)?;
    let outcome = outcome_of(alloc, ends)?;
    print_audit(rt, folders, &outcome, peers.as_str())
}

/// Opens the log of a folder.
fn open_log<'a, R: Files<File = File> + AllocGlobal>(
    rt: &R,
    root: &'a str,
) -> Result<Audited<'a>, FoldFault> {
    let alloc = rt.alloc();
    let path = format!(in alloc; "{root}/.mailfold/log")?;
    if !fs::exists(rt, path.as_str())? {
        return Err(FoldFault::NotMade);
    }
    let (mark, file) = mark_in(alloc, DiskFile::open(rt, path.as_str())?)?;
    let (kept, meetings) = kept_in(alloc, file, &mark)?;
    Ok(Audited {
        root,
        kept,
        meetings,
    })
}

/// The replica of the log in a file that has this mark, and whom it met.
fn kept_in(alloc: Global, file: DiskFile, mark: &Mark) -> Result<(Kept, Meetings), FoldFault> {
    with_meetings(alloc, Kept::open(alloc, file, mark, None))
}

/// What was opened, and whom it met; else why it wasn't opened.
fn with_meetings<K: Drop>(
    alloc: Global,
    opened: Result<(K, Opened), (OpenFault, DiskFile)>,
) -> Result<(K, Meetings), FoldFault> {
    match opened {
        Ok((kept, opened)) => {
            let meetings = meetings_of(alloc, &opened.notes)?;
            Ok((kept, meetings))
        }
        Err((OpenFault::NoReplica, _file)) => Err(FoldFault::NotMade),
        Err((fault, file)) => Err(unopened(fault, &file)),
    }
}

/// Why a log isn't opened, with the system's words.
fn unopened(fault: OpenFault, file: &DiskFile) -> FoldFault {
    FoldFault::Journal(fault.explained(file.error()))
}

/// The mark of the place where the log was made, as its head tells it.
fn mark_in(alloc: Global, file: DiskFile) -> Result<(Mark, DiskFile), FoldFault> {
    match Journal::open(alloc, file) {
        Ok((journal, entries)) => {
            let mark = mark_told(alloc, &entries);
            Ok((mark, journal.into_device()))
        }
        Err((fault, file)) => Err(unopened(OpenFault::Journal(fault), &file)),
    }
}

/// The mark that the first entry tells; zeros, if it is no head, of which opening the log tells more.
fn mark_told(alloc: Global, entries: &[Vec<u8>]) -> Mark {
    let Some(first) = entries.first() else {
        return [0; 32];
    };
    match decode_entry(alloc, first) {
        Ok(decoded) => {
            let mark = mark_of(&decoded.0);
            drop(decoded);
            mark
        }
        Err(_) => [0; 32],
    }
}

/// The mark that an entry tells; zeros, if it is no head.
fn mark_of(entry: &Entry) -> Mark {
    match entry {
        Entry::Head(head) => head.mark(),
        _ => [0; 32],
    }
}

/// Tells which folder isn't opened, and why.
fn tell_unopened<R: Eprint + AllocGlobal>(
    rt: &R,
    root: &str,
    fault: FoldFault,
) -> Result<Ending, Fault> {
    let text = format!(in rt.alloc(); "{root}: {fault}")?;
    let text = printable(rt.alloc(), text.as_str())?;
    let text = text.as_str();
    eprintln!(rt; "mailfold: {text}")?;
    Ok(Fault::Folder(fault).ending())
}

/// A copy of each folder's replica.
fn copies(alloc: Global, folders: &[Audited]) -> Result<Vec<End>, AllocError> {
    let mut ends = Vec::new(alloc);
    for folder in folders {
        put(&mut ends, folder.kept.replica().copy()?)?;
    }
    Ok(ends)
}

/// What comes of an audit.
#[derive(Drop)]
enum Outcome {
    /// Two of the folders have one number.
    SameNumber,
    /// One history explains all logs, which are these replicas'.
    OneHistory(Vec<End>),
    /// How far one history explains each of the logs.
    Beginnings(Vec<End>),
}

/// Audits the folders' replicas.
fn outcome_of(alloc: Global, ends: Vec<End>) -> Result<Outcome, AllocError> {
    if !are_distinct(&ends) {
        return Ok(Outcome::SameNumber);
    }
    match audit(alloc, &ends)? {
        Verdict::OneHistory => Ok(Outcome::OneHistory(ends)),
        Verdict::Unexplained { .. } => Ok(Outcome::Beginnings(explained_beginnings(alloc, ends)?)),
    }
}

/// Prints what comes of the folders' audit, and which peers aren't here.
fn print_audit<R: Print + Eprint + AllocGlobal>(
    rt: &R,
    folders: &[Audited],
    outcome: &Outcome,
    peers: &str,
) -> Result<Ending, Fault> {
    let alloc = rt.alloc();
    match outcome {
        Outcome::SameNumber => {
            eprintln!(rt; "mailfold: two of the folders have one number")?;
            Ok(Ending::Stopped)
        }
        Outcome::OneHistory(ends) => {
            let line = history_line(alloc, ends.as_slice())?;
            print_texts(rt, line.as_str(), peers)?;
            Ok(Ending::Done)
        }
        Outcome::Beginnings(starts) => {
            let gaps = gaps_text(alloc, folders, starts.as_slice())?;
            print_texts(rt, gaps.as_str(), peers)?;
            Ok(Ending::Stopped)
        }
    }
}

fn print_texts<R: Print>(rt: &R, first: &str, second: &str) -> Result<(), Fault> {
    print!(rt; "{first}{second}").map_err(Fault::Output)
}

/// That one history explains all logs, and what that says.
fn history_line(alloc: Global, ends: &[End]) -> Result<String, AllocError> {
    let (replicas, events) = (ends.len(), count_events(ends));
    format!(in alloc;
        "{replicas} replicas, {events} events, one history: nothing that was told is lost, and no version was announced twice\n"
    )
}

/// How many events the logs have.
fn count_events(ends: &[End]) -> u64 {
    let mut events = 0u64;
    for end in ends {
        events = events.saturating_add(end.log().len() as u64);
    }
    events
}

/// Which peers gave something to these folders, or met one of them, and aren't among them; nothing, if there are none.
fn peers_text(alloc: Global, folders: &[Audited], ends: &[End]) -> Result<String, AllocError> {
    let peers = missing(alloc, folders, ends)?;
    let mut numbers = String::new(alloc);
    for peer in &peers {
        let number = format!(in alloc; "{peer}")?;
        push_word(&mut numbers, ", ", number.as_str())?;
    }
    let numbers = numbers.as_str();
    match peers.len() {
        0 => Ok(String::new(alloc)),
        1 => format!(in alloc; "1 peer isn't here: {numbers}\n"),
        count => format!(in alloc; "{count} peers aren't here: {numbers}\n"),
    }
}

/// The numbers of these peers.
fn missing(alloc: Global, folders: &[Audited], ends: &[End]) -> Result<BTreeSet<u16>, AllocError> {
    let mut peers = BTreeSet::new(alloc);
    for peer in &missing_peers(alloc, ends)? {
        peers.insert(peer.id())?;
    }
    for folder in folders {
        put_met(&mut peers, folder, ends)?;
    }
    Ok(peers)
}

/// Puts those whom the folder met, and that aren't here, among the peers.
fn put_met(peers: &mut BTreeSet<u16>, folder: &Audited, ends: &[End]) -> Result<(), AllocError> {
    for peer in folder.meetings.keys() {
        if !is_here(ends, *peer) {
            peers.insert(*peer)?;
        }
    }
    Ok(())
}

/// Whether a replica of this id is among these.
fn is_here(ends: &[End], id: u16) -> bool {
    ends.iter().any(|end| end.id().id() == id)
}

/// A line for each folder of which events are left out: the first of them, and why nobody explains it. The starts are how far one history
/// explains the folders, in the same order.
fn gaps_text(alloc: Global, folders: &[Audited], starts: &[End]) -> Result<String, AllocError> {
    let mut text = String::new(alloc);
    for (folder, start) in folders.iter().zip(starts) {
        if let Some(event) = left_out(folder, start) {
            let why = why_text(alloc, folders, starts, giver_of(event))?;
            let number = start.log().len().saturating_add(1);
            text.push_str(gap_line(alloc, folder.root, number, event, why.as_str())?.as_str())?;
        }
    }
    Ok(text)
}

/// The first event of the folder's log behind those that are explained, where there is one.
fn left_out<'a>(folder: &'a Audited, start: &End) -> Option<&'a Event> {
    folder.kept.replica().log().get(start.log().len())
}

/// The line of an event that nobody explains, which is the one of this number in the folder's log, from 1.
fn gap_line(
    alloc: Global,
    root: &str,
    number: usize,
    event: &Event,
    why: &str,
) -> Result<String, AllocError> {
    let does = match event {
        Event::Answer(_) => "answers a request",
        Event::Release(_) => "uses a receipt",
        _ => "takes a record",
    };
    let text = format!(in alloc; "{root}: event {number} {does} that {why}")?;
    let mut line = printable(alloc, text.as_str())?;
    line.push_str("\n")?;
    Ok(line)
}

/// Why what this replica gave isn't explained.
fn why_text(
    alloc: Global,
    folders: &[Audited],
    starts: &[End],
    giver: Option<Author>,
) -> Result<String, AllocError> {
    let Some(giver) = giver else {
        return String::from_str(alloc, "no replica gives");
    };
    let id = giver.id();
    for (folder, start) in folders.iter().zip(starts) {
        if start.id() == giver {
            return own_text(alloc, folder, start);
        }
    }
    format!(in alloc; "replica {id} gave, which isn't here")
}

/// Why what the replica of this folder gave isn't explained: it is left out of its own log too, or it isn't there.
fn own_text(alloc: Global, folder: &Audited, start: &End) -> Result<String, AllocError> {
    let id = start.id().id();
    let number = start.log().len().saturating_add(1);
    match left_out(folder, start) {
        Some(_) => format!(in alloc; "replica {id} gave behind its event {number}, or never"),
        None => format!(in alloc; "replica {id} never gave, as its log says"),
    }
}
