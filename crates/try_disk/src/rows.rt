//! A journal of numbered entries in a file.
use crate::disk::Disk;
use crate::slot::made;
use anyhow::{Error, Result, anyhow, bail};
use mr_journal::{Journal, JournalFault};
use std::alloc::Global;

/// The bytes of each entry that is written, but for its number.
const FILLER: &str =
    " which is one of the entries that the driver writes, and has about as many bytes as a small event";

/// Entries of a batch.
const BATCH: u64 = 3;

/// The entry of this number.
fn entry(alloc: Global, number: u64) -> Result<Vec<u8>> {
    Ok(format!(in alloc; "{number}{FILLER}")?.into_bytes())
}

fn batch(alloc: Global, first: u64) -> Result<Vec<Vec<u8>>> {
    let mut entries = Vec::new(alloc);
    for i in 0..BATCH {
        entries.push(entry(alloc, first.saturating_add(i))?)?;
    }
    Ok(entries)
}

/// Adds so many batches, and prints after each how many entries there are.
pub fn write<R: Print + AllocGlobal>(rt: &R, disk: Disk, count: u64) -> Result<()> {
    let (mut journal, entries) = made(Journal::open(rt.alloc(), disk))?;
    let added = add_all(rt, &mut journal, entries.len() as u64, count);
    drop(journal);
    added
}

/// Adds so many batches behind so many entries.
fn add_all<R: Print + AllocGlobal>(
    rt: &R,
    journal: &mut Journal<Disk>,
    entries: u64,
    count: u64,
) -> Result<()> {
    let mut next = entries;
    for _ in 0..count {
        add(rt.alloc(), journal, next)?;
        next = next.saturating_add(BATCH);
        rt.println(next)?;
    }
    Ok(())
}

/// Adds a batch behind so many entries.
fn add(alloc: Global, journal: &mut Journal<Disk>, entries: u64) -> Result<()> {
    let batch = batch(alloc, entries)?;
    match journal.commit(alloc, &batch) {
        Ok(()) => Ok(()),
        Err(fault) => Err(told(journal, fault)),
    }
}

/// The fault, and the system's words for it.
fn told(journal: &Journal<Disk>, fault: JournalFault) -> Error {
    match journal.device().error() {
        Some(error) => anyhow!("{fault}: {error}"),
        None => anyhow!("{fault}"),
    }
}

/// Prints how many entries there are, once each is the one that belongs there.
pub fn read<R: Print + AllocGlobal>(rt: &R, disk: Disk) -> Result<()> {
    let (journal, entries) = made(Journal::open(rt.alloc(), disk))?;
    drop(journal);
    let number = checked(rt.alloc(), &entries)?;
    rt.println(number)?;
    Ok(())
}

/// How many entries there are, each of which is the one that belongs there.
fn checked(alloc: Global, entries: &[Vec<u8>]) -> Result<u64> {
    let mut number = 0u64;
    for bytes in entries {
        if bytes.as_slice() != entry(alloc, number)?.as_slice() {
            bail!("entry {number} is another");
        }
        number = number.saturating_add(1);
    }
    Ok(number)
}
