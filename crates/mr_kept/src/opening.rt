//! How a replica comes back from its journal.
ghost use Rattle.std.specs.Prelude.{◌≡◌, ◌⊎◌, [], IfErr, IfOk, IsTrue, List, MatchResult, OnOk, true};
ghost use Rattle.mr_filter.specs.Grammar.{Reads};
ghost use Rattle.mr_journal.specs.Device.{LeavesOnly};
ghost use Rattle.mr_journal.specs.Format.{contents};
ghost use Rattle.mr_journal.specs.Journal.{Keeps, device_of};
ghost use Rattle.mr_replica.specs.State.{State};
ghost use Rattle.mr_entry.specs.Grammar.{Spells};
ghost use Rattle.mr_entry.specs.Head.{HeadParts};
ghost use Rattle.mr_entry.specs.Note.{NoteParts};
ghost use Rattle.mr_entry.specs.declared.entry.Entry.TheVariants as entry;
ghost use Rattle.mr_kept.specs.Closing.{AreClosed};
ghost use Rattle.mr_kept.specs.Opening.{GoesOn, IsOfOther, IsOfPlace, IsReplayed, Reopens};
ghost use Rattle.mr_kept.specs.Refusing.{IsNoFilter, IsNoHead, IsOpenFault, IsRefused};
ghost use Rattle.mr_kept.specs.Whole.{ComesBack, HasLog, HasLogOf, IsOfMachine};

use crate::fault::OpenFault;
use crate::gather::{Gathered, entry_at, gather};
use crate::journaled::Journaled;
use mr_entry::{Birth, Entry, Head, Mark, Note};
use mr_filter::{Filter, FilterFault};
use mr_forms::Knowledge;
use mr_journal::{Device, Journal};
use mr_replica::Replica;
use std::alloc::Global;

/// What was found beside the replica.
#[derive(Drop)]
pub struct Opened {
    /// The notes of the program above, in their order.
    pub notes: Vec<Note>,
    /// Whether all sessions and streams are closed. Else the log is full: only a Retire is still admitted.
    pub are_closed: bool,
}

/// What entries make: a replica of a head, how many events they tell, how many versions these issued, and notes.
#[derive(Drop)]
struct Replayed<K: Knowledge> {
    head: Head,
    replica: Replica<K>,
    kept: usize,
    issued: u32,
    notes: Vec<Note>,
}

/// The head that the first entry is.
fn head_of(alloc: Global, bytes: &[u8]) -> Result<Head, OpenFault>
    ensures spelled { IfOk result (λ head. Spells (entry.Head head) bytes.now) }
    ensures fault { IfErr result (IsNoHead bytes.now) }
{
    match entry_at(alloc, 0, bytes)? {
        Entry::Head(head) => Ok(head),
        _ => Err(OpenFault::Misplaced(0)),
    }
}

/// The filter of this text.
fn filter_of(alloc: Global, text: &str) -> Result<Filter, OpenFault>
    ensures read { IfOk result (Reads text.now) }
    ensures fault { IfErr result (IsNoFilter text.now) }
{
    match Filter::read(alloc, text) {
        Ok(filter) => Ok(filter),
        Err(FilterFault::OutOfMemory) => Err(OpenFault::OutOfMemory),
        Err(fault) => Err(OpenFault::BadFilter(fault)),
    }
}

/// Whether the journal was begun where and when it was to be.
fn check_head(head: &Head, mark: &Mark, birth: Option<Birth>) -> Result<(), OpenFault>
    ensures ok { OnOk result (IsOfPlace head.now mark.now birth) }
    ensures err { IfErr result (IsOfOther head.now mark.now birth) }
{
    if head.mark() != *mark {
        return Err(OpenFault::Copied);
    }
    match birth {
        Some(birth) if head.birth() != birth => Err(OpenFault::OtherBirth),
        _ => Ok(()),
    }
}

/// The replica of the events that the entries tell. The entries are let go before the events are taken.
fn replay_of<K: Knowledge>(
    alloc: Global,
    entries: Vec<Vec<u8>>,
    mark: &Mark,
    birth: Option<Birth>,
) -> Result<Replayed<K>, OpenFault>
    ensures replayed { IfOk result (λ r. IsReplayed K.form (contents entries.items) r.head r.replica r.kept r.issued r.notes.items) }
    ensures place { IfOk result (λ r. IsOfPlace r.head mark.now birth) }
    ensures fault { IfErr result (IsRefused K.form (contents entries.items) mark.now birth) }
{
    let [first, rest @ ..] = entries.as_slice() else {
        return Err(OpenFault::NoReplica);
    };
    let head = head_of(alloc, first)?;
    check_head(&head, mark, birth)?;
    let filter = filter_of(alloc, head.filter())?;
    let Gathered {
        events,
        issued,
        notes,
    } = gather(alloc, rest)?;
    drop(entries);
    match Replica::replay(alloc, head.id(), filter, head.event_limit(), events) {
        Ok(replica) => {
            let log = replica.log();
            let kept = log.len();
            Ok(Replayed {
                head,
                replica,
                kept,
                issued,
                notes,
            })
        }
        Err(fault) => Err(OpenFault::Replay(fault)),
    }
}

impl<K: Knowledge, D: Device + Drop> Journaled<K, D> {
    ghost use Rattle.mr_kept.specs.Kept.{head_of, journal_of, leaving, nothing_waits, replica_of};
    ghost use Rattle.mr_kept.specs.inner.Opening.{IsRead};

    /// Brings the replica of a journal back: a fresh one of the id, the filter and the limit that the journal's head tells
    /// takes the events again. What was open is closed, a session by a CutIn and a stream by a CutOut, and that is kept before
    /// anything else; of a retired replica streams alone. Where the log is full `are_closed` is false.
    ///
    /// `Journal` where the device's bytes are refused or the device fails; `NoReplica` where there is no entry; `Copied` where the
    /// head's mark is another one, and `OtherBirth` where a birth is given and the head's is another. Then `BadFilter` where the
    /// head's text means no filter; the first entry that isn't read, doesn't belong where it stands, has another's counter or
    /// is one event too many; and `Replay` with the first event that the replica refuses. Up to here no entry was written, though
    /// what a crash left was cut off. `Kept` where what closes isn't kept. Each gives the device back. A journal that a replica
    /// left is never refused, but for memory and the device. It costs the step of each event, and the entries and the events
    /// are in memory at once.
    pub fn open(
        alloc: Global,
        device: D,
        mark: &Mark,
        birth: Option<Birth>,
    ) -> Result<(Journaled<K, D>, Opened), (OpenFault, D)>
        // The entries that the device had are those of a replica and of notes, and what was open in that replica is closed.
        ensures reopens { IsTrue D.is_told → IfOk result (λ r. Reopens K.form D.seen D.may_leave (D.seen device) r.1.are_closed r.1.notes.items r.0) }
        ensures closed { IfOk result (λ r. IsTrue r.1.are_closed → AreClosed (replica_of r.0)) }
        ensures place { IfOk result (λ r. IsOfPlace (head_of r.0) mark.now birth) }
        ensures fault { IsTrue D.is_told → IfErr result (λ e. IsOpenFault K.form (D.seen device) mark.now birth e.0) }
        // A journal that has the log of a replica is opened, memory and the device aside, and gives a replica that is alike, and its notes.
        ensures whole { IsTrue D.is_told → (head : HeadParts) (s : State K) (notes : List NoteParts) → HasLogOf K.form (D.seen device) head s notes → IsOfPlace head mark.now birth
            → MatchResult result (λ r. ComesBack K.form s r.1.are_closed (replica_of r.0) × (r.1.notes.items ≡ notes)) (λ e. IsOfMachine e.0) }
        // A crash at any moment of the call leaves what one before it might have left, or again a journal that has the log of a replica,
        // and the same notes.
        ensures left { IsTrue D.is_told → (head : HeadParts) (s : State K) (notes : List NoteParts) → HasLogOf K.form (D.seen device) head s notes → MatchResult result
            (λ r. LeavesOnly D.moment D.left_since device (device_of (journal_of r.0)) (λ c. D.may_leave device c ⊎ HasLog K.form c head notes))
            (λ e. LeavesOnly D.moment D.left_since device e.1 (λ c. D.may_leave device c ⊎ HasLog K.form c head notes)) }
        ensures none_waits { IfOk result (λ r. (nothing_waits r.0 ≡ true) × (leaving r.0 ≡ [])) }
        // A crash at any moment of the call leaves what one before it might have left, or a journal of the same entries, with
        // those that close what was open behind them or without.
        ensures any_moment { IsTrue D.is_told → MatchResult result
            (λ r. LeavesOnly D.moment D.left_since device (device_of (journal_of r.0)) (λ c. D.may_leave device c ⊎ GoesOn (D.seen device) c))
            (λ e. LeavesOnly D.moment D.left_since device e.1 (λ c. D.may_leave device c ⊎ GoesOn (D.seen device) c)) }
    {
        let (journal, entries) = match Journal::open(alloc, device) {
            Ok(opened) => opened,
            Err((fault, device)) => return Err((OpenFault::Journal(fault), device)),
        };
        let (mut opened, notes) = match Self::of_entries(alloc, journal, entries, mark, birth) {
            Ok(found) => found,
            Err(refused) => return Err(refused),
        };
        match opened.close() {
            Ok(are_closed) => Ok((opened, Opened { notes, are_closed })),
            Err(fault) => Err((OpenFault::Kept(fault), opened.into_device())),
        }
    }

    // The replica that the entries of its journal tell, and their notes. Nothing is closed yet.
    fn of_entries(
        alloc: Global,
        journal: Journal<D>,
        entries: Vec<Vec<u8>>,
        mark: &Mark,
        birth: Option<Birth>,
    ) -> Result<(Journaled<K, D>, Vec<Note>), (OpenFault, D)>
        ensures read { Keeps D.seen D.may_leave (contents entries.items) journal
            → IfOk result (λ r. IsRead K.form D.seen D.may_leave (contents entries.items) r.1.items r.0) }
        ensures journal { IfOk result (λ r. journal_of r.0 ≡ journal) }
        ensures place { IfOk result (λ r. IsOfPlace (head_of r.0) mark.now birth) }
        ensures none_waits { IfOk result (λ r. nothing_waits r.0 ≡ true) }
        ensures fault { IfErr result (λ e. IsRefused K.form (contents entries.items) mark.now birth e.0) }
        ensures device { IfErr result (λ e. e.1 ≡ device_of journal) }
    {
        let Replayed {
            head,
            replica,
            kept,
            issued,
            notes,
        } = match replay_of(alloc, entries, mark, birth) {
            Ok(found) => found,
            Err(fault) => return Err((fault, journal.into_device())),
        };
        let opened = Journaled {
            alloc,
            replica,
            journal,
            head,
            kept,
            issued,
            leaving: Vec::new(alloc),
            notes: Vec::new(alloc),
        };
        Ok((opened, notes))
    }
}
