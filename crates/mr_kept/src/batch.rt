//! Events and notes as entries.
ghost use Rattle.std.specs.Prelude.{◌≡◌, ◌≤◌, ◌^◌, ◌++◌, ◌∷◌, [], ℕ, List, IfErr, IfOk, MatchOption, OnOk};
ghost use Rattle.mr_journal.specs.Format.{contents};
ghost use Rattle.mr_entry.specs.declared.entry.Entry.{Entry};
ghost use Rattle.mr_replica.specs.declared.event.Event.{Event};
ghost use Rattle.mr_replica.specs.declared.event.Event.TheVariants as asked;
ghost use Rattle.mr_kept.specs.Entries.{AreSpelled, batch_entries, counted, entries_of, issued_after};
ghost use Rattle.mr_kept.specs.inner.Entries.{AreSoFar, IsOfEntries, IsOfEvent, run_of};

use crate::fault::KeptFault;
use mr_entry::{Note, encode_event_entry, encode_nexts, encode_note};
use mr_replica::Event;
use std::alloc::Global;

/// The entries of events, and how many versions were issued by then.
#[derive(Drop)]
pub(crate) struct Batch {
    pub(crate) entries: Vec<Vec<u8>>,
    pub(crate) issued: u32,
    /// The stream of the Nexts at the end that have no entry yet.
    stream: u64,
    /// How many these are.
    nexts: u32,
}

/// How many versions were issued once the event was admitted, where before it there were so many.
pub(crate) fn counted_with(issued: u32, event: &Event) -> Option<u32>
    ensures { MatchOption result (2 ^ 32 ≤ counted issued event.now) (λ n. n ≡ counted issued event.now) }
{
    match event {
        Event::Create(_) | Event::Edit(_, _) => issued.checked_add(1),
        _ => Some(issued),
    }
}

/// Puts the entry of the Nexts that have none.
fn end_run(alloc: Global, batch: &mut Batch) -> Result<(), KeptFault>
    ensures put { OnOk result ((list : List Entry) → AreSpelled list (contents batch.old.entries.items)
        → AreSpelled (list ++ run_of batch.old.stream batch.old.nexts) (contents batch.new.entries.items)) }
    ensures ended { OnOk result (batch.new.nexts ≡ 0) }
    ensures issued { OnOk result (batch.new.issued ≡ batch.old.issued) }
    ensures fault { IfErr result (λ fault. fault ≡ KeptFault.OutOfMemory) }
{
    if batch.nexts == 0 {
        return Ok(());
    }
    let entry = encode_nexts(alloc, batch.stream, batch.nexts)?;
    batch.entries.push(entry)?;
    batch.nexts = 0;
    Ok(())
}

/// Takes a Next: the run at the end grows, or is ended and another one begins.
fn put_next(alloc: Global, batch: &mut Batch, stream: u64) -> Result<(), KeptFault>
    ensures put { OnOk result ((issued : ℕ) (events : List Event)
        → AreSoFar issued events (contents batch.old.entries.items) batch.old.issued batch.old.stream batch.old.nexts
        → AreSoFar issued (events ++ asked.Next stream ∷ []) (contents batch.new.entries.items) batch.new.issued batch.new.stream batch.new.nexts) }
    ensures fault { IfErr result (IsOfEvent batch.old.issued batch.old.stream batch.old.nexts (asked.Next stream)) }
{
    if batch.stream != stream {
        end_run(alloc, batch)?;
        batch.stream = stream;
        batch.nexts = 1;
        return Ok(());
    }
    match batch.nexts.checked_add(1) {
        Some(nexts) => {
            batch.nexts = nexts;
            Ok(())
        }
        None => Err(KeptFault::TooLarge),
    }
}

/// Takes an event.
fn put_event(alloc: Global, batch: &mut Batch, event: &Event) -> Result<(), KeptFault>
    ensures put { OnOk result ((issued : ℕ) (events : List Event)
        → AreSoFar issued events (contents batch.old.entries.items) batch.old.issued batch.old.stream batch.old.nexts
        → AreSoFar issued (events ++ event.now ∷ []) (contents batch.new.entries.items) batch.new.issued batch.new.stream batch.new.nexts) }
    ensures fault { IfErr result (IsOfEvent batch.old.issued batch.old.stream batch.old.nexts event.now) }
{
    if let Event::Next(stream) = event {
        return put_next(alloc, batch, *stream);
    }
    end_run(alloc, batch)?;
    let issued = match counted_with(batch.issued, event) {
        Some(issued) => issued,
        None => return Err(KeptFault::TooLarge),
    };
    batch.issued = issued;
    batch
        .entries
        .push(encode_event_entry(alloc, issued, event)?)?;
    Ok(())
}

/// The entries of events that follow so many issued versions.
fn events_batch(alloc: Global, issued: u32, events: &[Event]) -> Result<Batch, KeptFault>
    ensures spelled { IfOk result (λ batch. AreSpelled (entries_of issued events.now) (contents batch.entries.items)) }
    ensures counted { IfOk result (λ batch. batch.issued ≡ issued_after issued events.now) }
    ensures fault { IfErr result (IsOfEntries (entries_of issued events.now)) }
{
    let mut batch = Batch {
        entries: Vec::new(alloc),
        issued,
        stream: 0,
        nexts: 0,
    };
    for event in events {
        put_event(alloc, &mut batch, event)?;
    }
    end_run(alloc, &mut batch)?;
    Ok(batch)
}

/// The entries of events that follow so many issued versions, and behind them those of notes.
pub(crate) fn batch_of(
    alloc: Global,
    issued: u32,
    events: &[Event],
    notes: &[Note],
) -> Result<Batch, KeptFault>
    ensures spelled { IfOk result (λ batch. AreSpelled (batch_entries issued events.now notes.now) (contents batch.entries.items)) }
    ensures counted { IfOk result (λ batch. batch.issued ≡ issued_after issued events.now) }
    ensures fault { IfErr result (IsOfEntries (batch_entries issued events.now notes.now)) }
{
    let mut batch = events_batch(alloc, issued, events)?;
    for note in notes {
        batch.entries.push(encode_note(alloc, note)?)?;
    }
    Ok(batch)
}
