//! What replica a log is of, as far as its beginning is whole, and what that says of the replica that takes its place.
ghost use Rattle.std.specs.Prelude.{◌≡◌, ◌≢◌, ◌++◌, [], ◌∷◌, ℕ, List, take, IfErr, IfOk, IfSome, MatchBool, None, Ok};
ghost use Rattle.mr_entry.specs.Head.{HeadParts};
ghost use Rattle.mr_entry.specs.declared.fault.EntryFault.TheVariants.{OutOfMemory as NoMemory};
ghost use Rattle.mr_filter.specs.Grammar.{Reads};
ghost use Rattle.mr_journal.specs.Format.{Stands, contents};
ghost use Rattle.mr_journal.specs.Reading.{IsReason};
ghost use Rattle.mr_journal.specs.declared.fault.JournalFault.TheVariants.{Failed, OutOfMemory};
ghost use Rattle.mailfold.specs.OldLog.{AreOfHead, IsNoFilter, IsNoToldFilter, IsOf, IsOfHead, IsToldFilter, Tells};
ghost use Rattle.mailfold.specs.inner.OldLog.{TellsFirst, TellsSome, told_in};

use crate::fault::Fault;
use mr_entry::{Entry, EntryFault, Head, decode_entry};
use mr_filter::{Filter, FilterFault};
use mr_journal::{Journal, JournalFault, MemoryDevice};
use mr_version::Author;
use std::alloc::{AllocError, Global};

/// The byte that stands behind the batches of a log.
const CLOSED_GATE: u8 = 0;

/// What the beginning of a log tells.
#[derive(Debug, Drop)]
pub enum OldLog {
    /// No replica was begun in it.
    Empty,
    /// What replica was.
    Of(Head),
    /// It can't be read.
    Unread,
}

/// What a log tells that begins with these bytes. They may end anywhere, and may be damaged behind the first batch.
pub fn old_log(alloc: Global, bytes: &[u8]) -> Result<OldLog, AllocError>
    ensures told { IfOk result (λ log. Tells log bytes.now) }
    // Where they are those of a whole log, what replica it is of is told.
    ensures whole { (head : HeadParts) (entries : List (List ℕ)) → Stands entries bytes.now → AreOfHead head entries → IfOk result (IsOfHead head) }
{
    match entries_of(alloc, bytes.to_vec(alloc)?) {
        Ok(entries) => told_by(alloc, entries.as_slice()),
        Err(JournalFault::Damaged(place)) => told_before(alloc, bytes, place),
        Err(fault) => unread_for(fault),
    }
}

/// The entries of the journal that these bytes are.
fn entries_of(alloc: Global, bytes: Vec<u8>) -> Result<Vec<Vec<u8>>, JournalFault>
    ensures stands { IfOk result (λ entries. Stands (contents entries.items) bytes.items) }
    ensures reason { IfErr result (λ fault. IsReason fault bytes.items) }
{
    match Journal::open(alloc, MemoryDevice::new(alloc, bytes)) {
        Ok((_journal, entries)) => Ok(entries),
        Err((fault, _device)) => Err(fault),
    }
}

/// That a log isn't read for this fault. A device in memory fails where there is no memory.
fn unread_for(fault: JournalFault) -> Result<OldLog, AllocError>
    ensures unread { IfOk result (λ log. log ≡ OldLog.Unread) }
    ensures refused { IfOk result (λ _. (fault ≢ OutOfMemory) × (fault ≢ Failed)) }
{
    match fault {
        JournalFault::OutOfMemory | JournalFault::Failed => Err(AllocError),
        _ => Ok(OldLog::Unread),
    }
}

/// What a log of these entries tells.
fn told_by(alloc: Global, entries: &[Vec<u8>]) -> Result<OldLog, AllocError>
    ensures told { IfOk result (λ log. TellsFirst log (contents entries.now)) }
    ensures whole { (head : HeadParts) → AreOfHead head (contents entries.now) → IfOk result (IsOfHead head) }
{
    let [first, ..] = entries else {
        return Ok(OldLog::Empty);
    };
    match decode_entry(alloc, first.as_slice()) {
        Ok((entry, _used)) => Ok(told_in(entry)),
        Err(fault) => unread_entry(fault),
    }
}

/// That a first entry isn't read for this fault.
fn unread_entry(fault: EntryFault) -> Result<OldLog, AllocError>
    ensures unread { IfOk result (λ log. log ≡ OldLog.Unread) }
    ensures refused { IfOk result (λ _. fault ≢ NoMemory) }
{
    match fault {
        EntryFault::OutOfMemory => Err(AllocError),
        _ => Ok(OldLog::Unread),
    }
}

/// What a log tells whose first entry is this.
fn told_in(entry: Entry) -> OldLog
    ensures { result ≡ told_in entry }
{
    match entry {
        Entry::Head(head) => OldLog::Of(head),
        _ => OldLog::Unread,
    }
}

/// What a log tells by the batches before this place, which are whole; where there are none, it can't be read.
fn told_before(alloc: Global, bytes: &[u8], place: u64) -> Result<OldLog, AllocError>
    ensures { IfOk result (λ log. Tells log bytes.now) }
{
    let front = closed_front(alloc, bytes, place)?;
    match entries_of(alloc, front) {
        Ok(entries) => told_by_some(alloc, entries.as_slice()),
        Err(fault) => unread_for(fault),
    }
}

/// What a log of these entries tells, where there have to be some.
fn told_by_some(alloc: Global, entries: &[Vec<u8>]) -> Result<OldLog, AllocError>
    ensures { IfOk result (λ log. TellsSome log (contents entries.now)) }
{
    if entries.is_empty() {
        return Ok(OldLog::Unread);
    }
    told_by(alloc, entries)
}

/// The bytes before this place, and a closed gate behind them.
fn closed_front(alloc: Global, bytes: &[u8], place: u64) -> Result<Vec<u8>, AllocError>
    ensures { IfOk result (λ front. front.items ≡ take place bytes.now ++ (0 ∷ [])) }
{
    let count = bytes.len().min(place as usize);
    let mut front = bytes[..count].to_vec(alloc)?;
    front.push(CLOSED_GATE)?;
    Ok(front)
}

/// Whether the log is of a replica of this id.
pub fn is_of(log: &OldLog, id: Author) -> bool
    ensures { MatchBool result (IsOf log.now id) (IsOf log.now id → ⊥) }
{
    match log {
        OldLog::Of(head) => head.id() == id,
        OldLog::Empty | OldLog::Unread => false,
    }
}

/// The filter of a replica that takes the place of the log's: the one that is asked for, or else that of the log.
///
/// `NoOldFilter` where none is asked for, and the log tells none.
pub fn filter_for(alloc: Global, asked: Option<Filter>, log: &OldLog) -> Result<Filter, Fault>
    ensures asked { IfSome asked (λ filter. result ≡ Ok filter) }
    ensures told { asked ≡ None → IfOk result (IsToldFilter log.now) }
    ensures fault { IfErr result (λ fault. (asked ≡ None) × IsNoToldFilter log.now fault) }
{
    if let Some(filter) = asked {
        return Ok(filter);
    }
    match log {
        OldLog::Of(head) => filter_told(alloc, head.filter()),
        OldLog::Empty | OldLog::Unread => Err(Fault::NoOldFilter),
    }
}

/// The filter of a log's text.
fn filter_told(alloc: Global, text: &str) -> Result<Filter, Fault>
    ensures read { IfOk result (Reads text.now) }
    ensures fault { IfErr result (IsNoFilter text.now) }
{
    match Filter::read(alloc, text) {
        Ok(filter) => Ok(filter),
        Err(FilterFault::OutOfMemory) => Err(Fault::OutOfMemory),
        Err(_) => Err(Fault::NoOldFilter),
    }
}
