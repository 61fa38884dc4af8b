//! The places of a scene: disks, and what is open on them.
use crate::disk::Disk;
use crate::words::next_word;
use anyhow::{Context, Result, bail};
use mr_journal::Journal;
use std::alloc::{AllocError, Global};
use std::str::SplitWhitespace;

/// What can be open on a disk.
pub trait OnDisk: Drop {
    /// The disk.
    fn disk(&self) -> &Disk;

    /// Ends it, and gives the disk back.
    fn into_disk(self) -> Disk;
}

impl OnDisk for Journal<Disk> {
    fn disk(&self) -> &Disk {
        self.device()
    }

    fn into_disk(self) -> Disk {
        self.into_device()
    }
}

/// A disk by its name: as it is, or with a journal or a replica that is open on it.
#[derive(Drop)]
pub struct Slot<J> {
    pub name: String,
    pub disk: Option<Disk>,
    pub journal: Option<Journal<Disk>>,
    pub replica: Option<J>,
}

/// The place of this name.
pub fn slot_of<'a, J>(slots: &'a mut [Slot<J>], name: &str) -> Result<&'a mut Slot<J>> {
    for slot in slots {
        if slot.name.as_str() == name {
            return Ok(slot);
        }
    }
    bail!("there is no such disk: {name}")
}

/// The place that the next word names.
pub fn next_slot<'a, J>(
    slots: &'a mut [Slot<J>],
    words: &mut SplitWhitespace<'_>,
) -> Result<&'a mut Slot<J>> {
    slot_of(slots, next_word(words))
}

/// The replica that is open on the disk that the next word names.
pub fn next_replica<'a, J>(
    slots: &'a mut [Slot<J>],
    words: &mut SplitWhitespace<'_>,
) -> Result<&'a mut J> {
    let slot = next_slot(slots, words)?;
    slot.replica.as_mut().context("no replica is open there")
}

/// The disk of a place, whatever is open there.
pub fn disk_in<J: OnDisk>(slot: &Slot<J>) -> Result<&Disk> {
    if let Some(journal) = &slot.journal {
        return Ok(journal.device());
    }
    if let Some(replica) = &slot.replica {
        return Ok(replica.disk());
    }
    slot.disk.as_ref().context("the disk is gone")
}

/// The bytes of the disk of a place, whatever is open there.
pub fn bytes_in<J: OnDisk>(alloc: Global, slot: &Slot<J>) -> Result<Vec<u8>> {
    Ok(disk_in(slot)?.bytes().to_vec(alloc)?)
}

/// The disk, taken out of its place. What is open on it ends.
pub fn take_disk<J: OnDisk>(slot: &mut Slot<J>) -> Option<Disk> {
    if slot.journal.is_some() {
        return ended(&mut slot.journal);
    }
    if slot.replica.is_some() {
        return ended(&mut slot.replica);
    }
    slot.disk.take()
}

/// Ends what is open there, and gives its disk.
fn ended<O: OnDisk>(open: &mut Option<O>) -> Option<Disk> {
    match open.take() {
        Some(open) => Some(open.into_disk()),
        None => None,
    }
}

/// Puts something in a place. What stood there is gone.
pub fn put<T: Drop>(place: &mut Option<T>, thing: Option<T>) {
    *place = thing;
}

/// Puts what was begun in its place, or the disk back.
pub fn begun<T: Drop, F: Drop, D: Drop>(
    open: &mut Option<T>,
    free: &mut Option<D>,
    outcome: Result<T, (F, D)>,
) -> Result<(), F> {
    match outcome {
        Ok(thing) => {
            *open = Some(thing);
            Ok(())
        }
        Err((fault, disk)) => {
            *free = Some(disk);
            Err(fault)
        }
    }
}

/// Puts what was opened in its place, and gives what was found there, or puts the disk back.
pub fn opened<T: Drop, X: Drop, F: Drop, D: Drop>(
    open: &mut Option<T>,
    free: &mut Option<D>,
    outcome: Result<(T, X), (F, D)>,
) -> Result<X, F> {
    match outcome {
        Ok((thing, found)) => {
            *open = Some(thing);
            Ok(found)
        }
        Err((fault, disk)) => {
            *free = Some(disk);
            Err(fault)
        }
    }
}

/// What was made, or the fault. The disk on which nothing was made is gone.
pub fn made<T: Drop, F: Drop, D: Drop>(outcome: Result<T, (F, D)>) -> Result<T, F> {
    match outcome {
        Ok(thing) => Ok(thing),
        Err((fault, _disk)) => Err(fault),
    }
}

/// Puts a disk in the place of this name, or behind the others.
pub fn put_disk<J: Drop>(
    alloc: Global,
    slots: &mut Vec<Slot<J>>,
    name: &str,
    disk: Disk,
) -> Result<(), AllocError> {
    match slot_of(slots, name) {
        Ok(slot) => {
            set_disk(slot, disk);
            Ok(())
        }
        Err(_) => push_disk(alloc, slots, name, disk),
    }
}

/// What is open there is gone, so that a file is closed, and this disk stands there.
pub fn set_disk<J: Drop>(slot: &mut Slot<J>, disk: Disk) {
    put(&mut slot.journal, None);
    put(&mut slot.replica, None);
    put(&mut slot.disk, Some(disk));
}

fn push_disk<J: Drop>(
    alloc: Global,
    slots: &mut Vec<Slot<J>>,
    name: &str,
    disk: Disk,
) -> Result<(), AllocError> {
    let slot = Slot {
        name: String::from_str(alloc, name)?,
        disk: Some(disk),
        journal: None,
        replica: None,
    };
    slots.push(slot)?;
    Ok(())
}
