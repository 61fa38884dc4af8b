//! Kept replicas, by lines: how they begin and come back, what they tell, and their notes.
use crate::disk::Disk;
use crate::keeper::Keeper;
use crate::slot::{Slot, begun, next_replica, next_slot, opened};
use crate::told::{told_fault, told_refused};
use crate::words::{next_byte, next_id, next_limit, next_version, next_word, words_of};
use anyhow::{Context, Result};
use mr_entry::{Birth, Mark, Note};
use mr_filter::Filter;
use mr_kept::{OpenFault, Opened, PeerFault, Setup};
use mr_version::Author;
use std::alloc::{AllocError, Global};
use std::str::SplitWhitespace;

/// `begin D ID LIMIT MARK BIRTH FILTER`: a replica begins there. Of a mark and of a birth each byte is this one.
pub fn begin<J: Keeper>(alloc: Global, slots: &mut [Slot<J>], rest: &str) -> Result<String> {
    let mut words = words_of(rest);
    let slot = next_slot(slots, &mut words)?;
    let setup = setup_of(alloc, &mut words)?;
    let Some(disk) = slot.disk.take() else {
        return Ok(String::from_str(alloc, "something is open there")?);
    };
    let before = disk.bytes().to_vec(alloc);
    let outcome = J::begin(alloc, disk, setup);
    let outcome = begun(&mut slot.replica, &mut slot.disk, outcome);
    told_begun(alloc, slot.disk.as_ref(), &before?, outcome)
}

/// What came of a beginning.
fn told_begun(
    alloc: Global,
    disk: Option<&Disk>,
    before: &[u8],
    outcome: Result<(), OpenFault>,
) -> Result<String> {
    match outcome {
        Ok(()) => Ok(String::from_str(alloc, "begun")?),
        Err(fault) => told_refused(alloc, fault.number(), &fault, before, disk),
    }
}

fn setup_of(alloc: Global, words: &mut SplitWhitespace<'_>) -> Result<Setup> {
    let id = next_id(words)?;
    let event_limit = next_limit(words)?;
    let mark = [next_byte(words)?; 32];
    let birth = [next_byte(words)?; 16];
    let filter = Filter::read(alloc, next_word(words))?;
    Ok(Setup {
        id,
        filter,
        event_limit,
        birth,
        mark,
    })
}

/// `back D MARK [BIRTH]`: the replica of a disk comes back, what it holds, and its notes.
pub fn back<J: Keeper>(alloc: Global, slots: &mut [Slot<J>], rest: &str) -> Result<String> {
    let mut words = words_of(rest);
    let slot = next_slot(slots, &mut words)?;
    let mark: Mark = [next_byte(&mut words)?; 32];
    let birth = birth_of(words.next())?;
    let Some(disk) = slot.disk.take() else {
        return Ok(String::from_str(alloc, "something is open there")?);
    };
    let before = disk.bytes().to_vec(alloc);
    let outcome = J::open(alloc, disk, &mark, birth);
    let outcome = opened(&mut slot.replica, &mut slot.disk, outcome);
    told_outcome(alloc, slot, &before?, outcome)
}

/// What came of a coming back.
fn told_outcome<J: Keeper>(
    alloc: Global,
    slot: &Slot<J>,
    before: &[u8],
    outcome: Result<Opened, OpenFault>,
) -> Result<String> {
    match outcome {
        Ok(found) => told_back(alloc, slot.replica.as_ref(), &found),
        Err(fault) => told_refused(alloc, fault.number(), &fault, before, slot.disk.as_ref()),
    }
}

fn birth_of(word: Option<&str>) -> Result<Option<Birth>> {
    match word {
        Some(word) => Ok(Some(read_birth(word)?)),
        None => Ok(None),
    }
}

/// The birth of which each byte is this one.
fn read_birth(word: &str) -> Result<Birth> {
    let byte = word.parse::<u8>().context("no byte")?;
    Ok([byte; 16])
}

/// What a replica that came back holds, its notes, and whether something is still open since its log is full.
fn told_back<J: Keeper>(alloc: Global, replica: Option<&J>, found: &Opened) -> Result<String> {
    let replica = replica.context("no replica is open there")?;
    let mut text = String::new(alloc);
    push_back(alloc, &mut text, replica, found)?;
    Ok(text)
}

/// Adds what a replica that came back holds, its notes, and whether something is still open.
fn push_back<J: Keeper>(
    alloc: Global,
    text: &mut String,
    replica: &J,
    found: &Opened,
) -> Result<(), AllocError> {
    replica.push_held(text)?;
    push_notes(alloc, text, &found.notes)?;
    if !found.are_closed {
        text.push_str("; left open")?;
    }
    Ok(())
}

/// Adds the notes, each as its kind and its bytes.
fn push_notes(alloc: Global, text: &mut String, notes: &[Note]) -> Result<(), AllocError> {
    text.push_str("; notes")?;
    for note in notes {
        let kind = note.kind();
        let digits = hex::encode(alloc, note.bytes())?;
        write!(text, " {kind}:{digits}")?;
    }
    Ok(())
}

/// `tell D`: what a kept replica holds, and whether something waits.
pub fn tell<J: Keeper>(alloc: Global, slots: &mut [Slot<J>], rest: &str) -> Result<String> {
    let replica = next_replica(slots, &mut words_of(rest))?;
    let mut text = String::new(alloc);
    push_told(&mut text, replica)?;
    Ok(text)
}

/// Adds what a kept replica holds, and whether something waits.
fn push_told<J: Keeper>(text: &mut String, replica: &J) -> Result<(), AllocError> {
    replica.push_held(text)?;
    let end = if replica.is_kept() {
        "; kept"
    } else {
        "; waits"
    };
    text.push_str(end)
}

/// `note D KIND TEXT`: a note waits.
pub fn note<J: Keeper>(alloc: Global, slots: &mut [Slot<J>], rest: &str) -> Result<String> {
    let mut words = words_of(rest);
    let replica = next_replica(slots, &mut words)?;
    let kind = next_byte(&mut words)?;
    let bytes = next_word(&mut words).as_bytes().to_vec(alloc)?;
    match replica.note(Note::new(kind, bytes)) {
        Ok(()) => Ok(String::from_str(alloc, "waits")?),
        Err(fault) => Ok(told_fault(alloc, fault.number(), &fault)?),
    }
}

/// `peer D VERSION [ID:BIRTH ..]`: whether what another replica tells goes with this one: the highest version that it knows of an
/// author, and the journals that it knows.
pub fn peer<J: Keeper>(alloc: Global, slots: &mut [Slot<J>], rest: &str) -> Result<String> {
    let mut words = words_of(rest);
    let replica = next_replica(slots, &mut words)?;
    let highest = [next_version(&mut words)?];
    let births = births_of(alloc, &mut words)?;
    told_peer(alloc, replica.check_peer(&highest, &births))
}

/// The journals that the words are.
fn births_of(alloc: Global, words: &mut SplitWhitespace<'_>) -> Result<Vec<(Author, Birth)>> {
    let mut births = Vec::new(alloc);
    for word in words {
        births.push(read_journal(word)?)?;
    }
    Ok(births)
}

/// The journal that a word is: an id and a birth.
fn read_journal(word: &str) -> Result<(Author, Birth)> {
    let (id, birth) = word.split_once(':').context("no journal")?;
    let id = Author::try_new(id.parse::<u16>().context("no id")?)?;
    Ok((id, read_birth(birth)?))
}

fn told_peer(alloc: Global, outcome: Result<(), PeerFault>) -> Result<String> {
    match outcome {
        Ok(()) => Ok(String::from_str(alloc, "goes with it")?),
        Err(fault) => Ok(told_fault(alloc, fault.number(), &fault)?),
    }
}
