//! A replica of numbered messages in a file.
use crate::disk::Disk;
use crate::events::message;
use crate::keeper::Keeper;
use crate::slot::made;
use anyhow::{Error, Result, anyhow, bail};
use mr_entry::{Mark, Note};
use mr_filter::Filter;
use mr_kept::{KeptFault, Setup};
use mr_version::Author;
use std::alloc::Global;

/// Where the journal is.
pub const HERE: Mark = [7; 32];

/// Begins a replica.
pub fn begin<J: Keeper>(alloc: Global, disk: Disk, setup: Setup) -> Result<()> {
    match made(J::begin(alloc, disk, setup)) {
        Ok(_office) => Ok(()),
        Err(fault) => bail!("{fault}"),
    }
}

/// What a replica of messages is begun with.
pub fn setup(alloc: Global) -> Result<Setup> {
    Ok(Setup {
        id: Author::try_new(0)?,
        filter: Filter::read(alloc, "all")?,
        event_limit: 1_000_000,
        birth: [3; 16],
        mark: HERE,
    })
}

/// Opens the replica, and has it issue so many times so many messages.
pub fn open<J: Keeper, R: Print + AllocGlobal>(
    rt: &R,
    disk: Disk,
    count: u64,
    size: u64,
) -> Result<()> {
    match made(J::open(rt.alloc(), disk, &HERE, None)) {
        Ok((mut office, opened)) => fill(rt, &mut office, &opened.notes, count, size),
        Err(fault) => bail!("{fault}"),
    }
}

fn fill<J: Keeper, R: Print + AllocGlobal>(
    rt: &R,
    office: &mut J,
    notes: &[Note],
    count: u64,
    size: u64,
) -> Result<()> {
    let mut held = held_by(rt.alloc(), office)?;
    if !is_told(rt.alloc(), notes, held)? {
        bail!("{held} messages, and the last note tells of another number");
    }
    rt.println(held)?;
    for _ in 0..count {
        write(rt.alloc(), office, held, size)?;
        held = held.saturating_add(size);
        rt.println(held)?;
    }
    Ok(())
}

/// How many messages the replica holds, each of which is the one that belongs there.
fn held_by<J: Keeper>(alloc: Global, office: &J) -> Result<u64> {
    let mut number = 0u64;
    for head in office.heads() {
        if head.message().subject() != subject(alloc, number)?.as_str() {
            bail!("message {number} is another");
        }
        number = number.saturating_add(1);
    }
    Ok(number)
}

/// The note that tells so many messages.
fn note_of(alloc: Global, held: u64) -> Result<Note> {
    let text = format!(in alloc; "{held}")?;
    Ok(Note::new(1, text.into_bytes()))
}

/// Whether the last note tells just so many messages, or there is neither a note nor a message.
fn is_told(alloc: Global, notes: &[Note], held: u64) -> Result<bool> {
    match notes.last() {
        Some(note) => Ok(note.bytes() == note_of(alloc, held)?.bytes()),
        None => Ok(held == 0),
    }
}

/// The replica issues so many messages from this number on, and keeps them with a note of how many there are.
fn write<J: Keeper>(alloc: Global, office: &mut J, first: u64, size: u64) -> Result<()> {
    for i in 0..size {
        create(alloc, office, first.saturating_add(i))?;
    }
    office.note(note_of(alloc, first.saturating_add(size))?)?;
    keep(office, size)
}

/// The replica issues the message of this number.
fn create<J: Keeper>(alloc: Global, office: &mut J, number: u64) -> Result<()> {
    let subject = subject(alloc, number)?;
    let message = message(alloc, subject.as_str(), "inbox")?;
    office.create(message)?;
    Ok(())
}

/// The replica keeps what waits, so many messages.
fn keep<J: Keeper>(office: &mut J, size: u64) -> Result<()> {
    match office.commit() {
        Ok(replies) => check_count(replies.len() as u64, size),
        Err(fault) => Err(told(office, fault)),
    }
}

/// Refuses another number of messages that were handed out.
fn check_count(handed_out: u64, size: u64) -> Result<()> {
    if handed_out != size {
        bail!("{handed_out} of {size} messages were handed out");
    }
    Ok(())
}

/// The fault, and the system's words for it.
fn told<J: Keeper>(office: &J, fault: KeptFault) -> Error {
    match office.disk().error() {
        Some(error) => anyhow!("{fault}: {error}"),
        None => anyhow!("{fault}"),
    }
}

/// The subject of the message of this number.
fn subject(alloc: Global, number: u64) -> Result<String> {
    Ok(format!(in alloc; "{number} {FILLER}")?)
}

/// What stands behind the number of a message. With the rest its event has about 400 bytes.
const FILLER: &str =
    "is the number of this message, which is one of those that the driver writes. It has so many words that its event \
has about as many bytes as the one of a small message, since a journal of many such events is to be opened, and the time that this takes \
is to be told. Nothing else is said here, and nobody has to read it to its end.";
