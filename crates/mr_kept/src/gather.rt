//! What the entries of a journal tell.
ghost use Rattle.std.specs.Prelude.{◌≡◌, ◌+◌, ◌++◌, ◌≤◌, List, IfErr, IfOk, OnOk, length, replicate};
ghost use Rattle.mr_journal.specs.Format.{contents};
ghost use Rattle.mr_entry.specs.Events.{events_of, events_of_entry};
ghost use Rattle.mr_entry.specs.Grammar.{Spells};
ghost use Rattle.mr_entry.specs.declared.entry.Entry.{Entry};
ghost use Rattle.mr_replica.specs.declared.event.Event.TheVariants as asked;
ghost use Rattle.mr_replica.specs.declared.replica.TheConstants.{MAX_EVENTS};
ghost use Rattle.mr_kept.specs.Entries.{AreInOrder, AreSpelled, Belongs, issued_after, notes_of, notes_of_entry};
ghost use Rattle.mr_kept.specs.Refusing.{IsOutOfOrder, IsUnread, StopsAt};

use crate::batch::counted_with;
use crate::fault::OpenFault;
use mr_entry::{Entry, EntryFault, Note, decode_entry};
use mr_replica::{Event, MAX_EVENTS};
use std::alloc::{AllocError, Global};

/// The most events of a log: as many as a limit may be, and a Retire.
const MAX_LOG: usize = MAX_EVENTS as usize + 1;

/// What entries tell: events, how many versions they issued, and notes.
#[derive(Drop)]
pub(crate) struct Gathered {
    pub(crate) events: Vec<Event>,
    pub(crate) issued: u32,
    pub(crate) notes: Vec<Note>,
}

/// The entry at this place, which is all of the bytes.
pub(crate) fn entry_at(alloc: Global, place: usize, bytes: &[u8]) -> Result<Entry, OpenFault>
    ensures spelled { IfOk result (λ e. Spells e bytes.now) }
    ensures fault { IfErr result (IsUnread place bytes.now) }
{
    match decode_entry(alloc, bytes) {
        Ok((entry, used)) => {
            if used != bytes.len() {
                return Err(OpenFault::Misplaced(place));
            }
            Ok(entry)
        }
        Err(EntryFault::OutOfMemory) => Err(OpenFault::OutOfMemory),
        Err(fault) => Err(OpenFault::BadEntry { place, fault }),
    }
}

fn put_run(events: &mut Vec<Event>, stream: u64, count: u32) -> Result<(), AllocError>
    ensures { OnOk result (events.new.items ≡ events.old.items ++ replicate count (asked.Next stream)) }
{
    for _ in 0..count {
        events.push(Event::Next(stream))?;
    }
    Ok(())
}

/// Takes what the entry at this place tells.
fn take_entry(gathered: &mut Gathered, place: usize, entry: Entry) -> Result<(), OpenFault>
    requires few { length gathered.old.events.items ≤ MAX_EVENTS + 1 }
    ensures events { OnOk result (gathered.new.events.items ≡ gathered.old.events.items ++ events_of_entry entry) }
    ensures issued { OnOk result (gathered.new.issued ≡ issued_after gathered.old.issued (events_of_entry entry)) }
    ensures notes { OnOk result (gathered.new.notes.items ≡ gathered.old.notes.items ++ notes_of_entry entry) }
    ensures belongs { OnOk result (Belongs gathered.old.issued entry) }
    ensures few { OnOk result (length gathered.new.events.items ≤ MAX_EVENTS + 1) }
    ensures fault { IfErr result (IsOutOfOrder place gathered.old.issued (length gathered.old.events.items) entry) }
{
    match entry {
        Entry::Head(_) => Err(OpenFault::Misplaced(place)),
        Entry::Event(issued, event) => {
            if counted_with(gathered.issued, &event) != Some(issued) {
                return Err(OpenFault::OtherCounter(place));
            }
            if gathered.events.len() >= MAX_LOG {
                return Err(OpenFault::TooManyEvents);
            }
            gathered.issued = issued;
            gathered.events.push(event)?;
            Ok(())
        }
        Entry::Nexts(stream, count) => {
            if count as usize > MAX_LOG - gathered.events.len() {
                return Err(OpenFault::TooManyEvents);
            }
            put_run(&mut gathered.events, stream, count)?;
            Ok(())
        }
        Entry::Note(note) => {
            gathered.notes.push(note)?;
            Ok(())
        }
    }
}

/// What the entries behind the head tell.
pub(crate) fn gather(alloc: Global, entries: &[Vec<u8>]) -> Result<Gathered, OpenFault>
    ensures gathered { IfOk result (λ gathered. (list : List Entry) × AreSpelled list (contents entries.now) × AreInOrder list
        × (events_of list ≡ gathered.events.items) × (gathered.issued ≡ issued_after 0 gathered.events.items) × (gathered.notes.items ≡ notes_of list)) }
    ensures fault { IfErr result (StopsAt (contents entries.now)) }
{
    let mut gathered = Gathered {
        events: Vec::new(alloc),
        issued: 0,
        notes: Vec::new(alloc),
    };
    let mut place = 0;
    for bytes in entries {
        place += 1;
        let entry = entry_at(alloc, place, bytes)?;
        take_entry(&mut gathered, place, entry)?;
    }
    Ok(gathered)
}
