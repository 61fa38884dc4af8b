//! How a replica is begun in a journal.
ghost use Rattle.std.specs.Prelude.{◌≡◌, ◌⊎◌, ◌∷◌, [], IfErr, IfOk, IsTrue, MatchResult, true};
ghost use Rattle.mr_replica.specs.State.{new_state};
ghost use Rattle.mr_replica.specs.declared.replica.TheConstants.{MAX_EVENTS};
ghost use Rattle.mr_journal.specs.Device.{LeavesOnly};
ghost use Rattle.mr_journal.specs.Format.{StandAlike, Stands, contents};
ghost use Rattle.mr_journal.specs.Journal.{device_of};
ghost use Rattle.mr_entry.specs.Grammar.{IsEntry};
ghost use Rattle.mr_entry.specs.Spelling.{entry_bytes};
ghost use Rattle.mr_entry.specs.declared.entry.Entry.TheVariants as entry;
ghost use Rattle.mr_kept.specs.Opening.{Begins};
ghost use Rattle.mr_kept.specs.Beginning.{HasParts, IsBeginFault, IsLimit, IsOfSetup};
ghost use Rattle.mr_kept.specs.declared.fault.OpenFault.TheVariants as opens;
ghost use Rattle.mr_journal.specs.declared.fault.JournalFault.TheVariants.{Failed};

use crate::fault::OpenFault;
use crate::journaled::Journaled;
use mr_entry::{Birth, EntryFault, Head, Mark, encode_head};
use mr_filter::Filter;
use mr_forms::Knowledge;
use mr_journal::{Device, Journal};
use mr_replica::{MAX_EVENTS, ReplayFault, Replica};
use mr_version::Author;
use std::alloc::Global;

/// What a replica is begun with.
#[derive(Drop)]
pub struct Setup {
    /// Its id.
    pub id: Author,
    /// Which messages it selects.
    pub filter: Filter,
    /// How many events it admits, 1 to 1,000,000.
    pub event_limit: u32,
    /// Random bytes, drawn for this journal alone.
    pub birth: Birth,
    /// Bytes that tell the journal's place.
    pub mark: Mark,
}

/// The head of this setup, and the batch that it is.
fn first_batch(alloc: Global, setup: &Setup) -> Result<(Head, Vec<Vec<u8>>), OpenFault>
    ensures limit { IfOk result (λ _. IsLimit setup.now.event_limit) }
    ensures head { IfOk result (λ r. HasParts setup.now.id setup.now.filter setup.now.event_limit setup.now.birth setup.now.mark r.0) }
    ensures batch { IfOk result (λ r. IsEntry (entry.Head r.0) × (contents r.1.items ≡ entry_bytes (entry.Head r.0) ∷ [])) }
    ensures fault { IfErr result (IsOfSetup setup.now.filter setup.now.event_limit) }
{
    if setup.event_limit == 0 || setup.event_limit > MAX_EVENTS {
        return Err(OpenFault::Replay(ReplayFault::BadLimit));
    }
    let text = setup.filter.text()?;
    let head = Head::new(setup.id, setup.event_limit, setup.birth, setup.mark, text);
    match encode_head(alloc, &head) {
        Ok(bytes) => {
            let mut batch = Vec::new(alloc);
            batch.push(bytes)?;
            Ok((head, batch))
        }
        Err(EntryFault::OutOfMemory) => Err(OpenFault::OutOfMemory),
        Err(fault) => Err(OpenFault::BadEntry { place: 0, fault }),
    }
}

impl<K: Knowledge, D: Device + Drop> Journaled<K, D> {
    ghost use Rattle.mr_kept.specs.Kept.{IsKept, head_of, issued_of, journal_of, kept_of, leaving, nothing_waits, notes_waiting, replica_of};

    /// Begins a replica in a journal that has no entry yet, and keeps there what replica it is.
    ///
    /// `Replay` for a limit that no replica has, `BadEntry` for a filter whose text is too long; `Journal` where the device's
    /// bytes are refused or the device fails; `NotEmpty` where there are entries; `OutOfMemory`. Each gives the device back.
    pub fn begin(alloc: Global, device: D, setup: Setup) -> Result<Journaled<K, D>, (OpenFault, D)>
        ensures empty { IsTrue D.is_told → IfOk result (λ _. Stands [] (D.seen device)) }
        ensures kept { IsTrue D.is_told → IfOk result (λ j. IsKept D.seen D.may_leave (entry.Head (head_of j) ∷ []) j) }
        // A crash at any moment of the call leaves what one before it might have left, or a journal of the same entries, or,
        // where there were none, of the head.
        ensures any_moment { IsTrue D.is_told → MatchResult result
            (λ j. LeavesOnly D.moment D.left_since device (device_of (journal_of j)) (λ c. D.may_leave device c ⊎ (StandAlike (D.seen device) c ⊎ Begins (D.seen device) c)))
            (λ e. LeavesOnly D.moment D.left_since device e.1 (λ c. D.may_leave device c ⊎ (StandAlike (D.seen device) c ⊎ Begins (D.seen device) c))) }
        ensures head { IfOk result (λ j. HasParts setup.id setup.filter setup.event_limit setup.birth setup.mark (head_of j)) }
        ensures fresh { IfOk result (λ j. replica_of j ≡ new_state setup.id setup.filter setup.event_limit (replica_of j).knowledge) }
        ensures none_waits { IfOk result (λ j. (nothing_waits j ≡ true) × (leaving j ≡ [])) }
        ensures fault { IsTrue D.is_told → IfErr result (λ e. IsBeginFault (D.seen device) setup.id setup.filter setup.event_limit setup.birth setup.mark e.0) }
        ensures cause { IsTrue D.is_told → IfErr result (λ e. e.0 ≡ opens.Journal Failed → IsTrue (D.has_failed e.1)) }
    {
        let (head, batch) = match first_batch(alloc, &setup) {
            Ok(first) => first,
            Err(fault) => return Err((fault, device)),
        };
        let (mut journal, entries) = match Journal::open(alloc, device) {
            Ok(opened) => opened,
            Err((fault, device)) => return Err((OpenFault::Journal(fault), device)),
        };
        let found: &[Vec<u8>] = &entries;
        if !found.is_empty() {
            return Err((OpenFault::NotEmpty, journal.into_device()));
        }
        if let Err(fault) = journal.commit(alloc, &batch) {
            return Err((OpenFault::Journal(fault), journal.into_device()));
        }
        Ok(Journaled::fresh(alloc, journal, head, setup))
    }

    // A fresh replica over a journal that has its head.
    fn fresh(alloc: Global, journal: Journal<D>, head: Head, setup: Setup) -> Journaled<K, D>
        requires limit { IsLimit setup.event_limit }
        ensures journal { journal_of result ≡ journal }
        ensures head { head_of result ≡ head }
        ensures replica { replica_of result ≡ new_state setup.id setup.filter setup.event_limit (replica_of result).knowledge }
        ensures counts { (kept_of result ≡ 0) × (issued_of result ≡ 0) }
        ensures leaving { (leaving result ≡ []) × (notes_waiting result ≡ []) }
    {
        let Setup {
            id,
            filter,
            event_limit,
            ..
        } = setup;
        let Ok(replica) = Replica::try_new(alloc, id, filter, event_limit) else {
            unreachable!()
        };
        Journaled {
            alloc,
            replica,
            journal,
            head,
            kept: 0,
            issued: 0,
            leaving: Vec::new(alloc),
            notes: Vec::new(alloc),
        }
    }
}
