//! Journals, by lines.
use crate::disk::Disk;
use crate::slot::{Slot, next_slot, opened};
use crate::told::{told_fault, told_refused};
use crate::words::words_of;
use anyhow::{Context, Result};
use mr_journal::{Journal, JournalFault};
use std::alloc::{AllocError, Global};
use std::str::SplitWhitespace;

/// `open D`: the journal of a disk, its entries and its end.
pub fn open<J>(alloc: Global, slots: &mut [Slot<J>], rest: &str) -> Result<String> {
    let slot = next_slot(slots, &mut words_of(rest))?;
    let Some(disk) = slot.disk.take() else {
        return Ok(String::from_str(alloc, "something is open there")?);
    };
    let before = disk.bytes().to_vec(alloc);
    let outcome = opened(
        &mut slot.journal,
        &mut slot.disk,
        Journal::open(alloc, disk),
    );
    told_outcome(alloc, slot, &before?, outcome)
}

/// What came of an opening.
fn told_outcome<J>(
    alloc: Global,
    slot: &Slot<J>,
    before: &[u8],
    outcome: Result<Vec<Vec<u8>>, JournalFault>,
) -> Result<String> {
    match outcome {
        Ok(entries) => told_open(alloc, slot.journal.as_ref(), &entries),
        Err(fault) => told_refused(alloc, fault.number(), &fault, before, slot.disk.as_ref()),
    }
}

/// The entries of a journal, and its end.
fn told_open(
    alloc: Global,
    journal: Option<&Journal<Disk>>,
    entries: &[Vec<u8>],
) -> Result<String> {
    let end = journal.context("no journal is open there")?.end();
    let mut text = String::from_str(alloc, "entries")?;
    push_entries(alloc, &mut text, entries)?;
    write!(text, "; end {end}")?;
    Ok(text)
}

/// Adds entries, each behind a space.
fn push_entries(alloc: Global, text: &mut String, entries: &[Vec<u8>]) -> Result<(), AllocError> {
    for entry in entries {
        text.push(' ')?;
        push_entry(alloc, text, entry)?;
    }
    Ok(())
}

/// Adds an entry: as text where it is one word, and else in hexadecimal digits behind `#`.
fn push_entry(alloc: Global, text: &mut String, entry: &[u8]) -> Result<(), AllocError> {
    if entry.is_empty() {
        return text.push('-');
    }
    if entry.iter().all(|byte| byte.is_ascii_alphanumeric() || *byte == b'_' || *byte == b',') {
        return push_word(text, entry);
    }
    text.push('#')?;
    text.push_str(hex::encode(alloc, entry)?.as_str())
}

/// Adds a word of ASCII characters.
fn push_word(text: &mut String, word: &[u8]) -> Result<(), AllocError> {
    for byte in word {
        text.push(char::from(*byte))?;
    }
    Ok(())
}

/// `commit D ENTRY..`: a batch of these entries. An entry is a word, or `-` for the empty one, or `#` before hexadecimal digits.
pub fn commit<J>(alloc: Global, slots: &mut [Slot<J>], rest: &str) -> Result<String> {
    let mut words = words_of(rest);
    let slot = next_slot(slots, &mut words)?;
    let batch = batch_of(alloc, &mut words)?;
    let Some(journal) = &mut slot.journal else {
        return Ok(String::from_str(alloc, "no journal is open there")?);
    };
    let outcome = journal.commit(alloc, &batch);
    Ok(told_commit(alloc, journal.end(), outcome)?)
}

fn told_commit(
    alloc: Global,
    end: u64,
    outcome: Result<(), JournalFault>,
) -> Result<String, AllocError> {
    match outcome {
        Ok(()) => format!(in alloc; "kept; end {end}"),
        Err(fault) => told_fault(alloc, fault.number(), &fault),
    }
}

/// The entries that the words are.
fn batch_of(alloc: Global, words: &mut SplitWhitespace<'_>) -> Result<Vec<Vec<u8>>> {
    let mut batch = Vec::new(alloc);
    for word in words {
        batch.push(entry_of(alloc, word)?)?;
    }
    Ok(batch)
}

fn entry_of(alloc: Global, word: &str) -> Result<Vec<u8>> {
    if word == "-" {
        return Ok(Vec::new(alloc));
    }
    match word.strip_prefix('#') {
        Some(digits) => hex::decode(alloc, digits).context("no hexadecimal digits"),
        None => Ok(word.as_bytes().to_vec(alloc)?),
    }
}
