//! Replicas, and what is asked of them.
use anyhow::{Context, Result};
use mr_feed::Entry;
use mr_filter::Filter;
use mr_itemset::SparingKnowledge;
use mr_replica::{Received, Refusal, Replica, Revision};
use mr_version::Author;
use mr_wire::Frame;
use std::alloc::{AllocError, Global};

/// The replicas that are played with.
pub type Device = Replica<SparingKnowledge>;

/// How many events a replica admits.
const EVENT_LIMIT: u32 = 1_000_000;

/// The most records of a stream here.
const MOST_RECORDS: u32 = 1_000;

/// New replicas of these ids, which select these.
pub fn new_devices(alloc: Global, all: &[(u16, &str)]) -> Result<Vec<Device>> {
    let mut devices = Vec::new(alloc);
    for (id, filter) in all {
        push(&mut devices, new_device(alloc, *id, filter))?;
    }
    Ok(devices)
}

/// Adds what could be made.
pub fn push<T: Drop>(list: &mut Vec<T>, made: Result<T>) -> Result<()> {
    Ok(list.push(made?)?)
}

/// A new replica of this id, which selects this.
fn new_device(alloc: Global, id: u16, filter: &str) -> Result<Device> {
    let id = Author::try_new(id)?;
    let filter = Filter::read(alloc, filter)?;
    Replica::try_new(alloc, id, filter, EVENT_LIMIT).context("a replica")
}

/// A replica that is equal to this one takes the place of another.
pub fn renew(device: &mut Device, model: &Device) -> Result<(), AllocError> {
    put(device, model.copy())
}

/// What could be made takes the place of another.
fn put<T: Drop, E: Drop>(place: &mut T, made: Result<T, E>) -> Result<(), E> {
    *place = made?;
    Ok(())
}

/// The target takes all that the source has for it.
pub fn sync(target: &mut Device, source: &mut Device) -> Result<(), Refusal> {
    let stream = ask(target, source)?;
    for _ in 0..MOST_RECORDS {
        if pass(target, source, stream)? == Received::Finished {
            break;
        }
    }
    Ok(())
}

/// The source opens a stream for the target. Gives its number.
pub fn ask(target: &mut Device, source: &mut Device) -> Result<u64, Refusal> {
    source.answer(target.pull()?)
}

/// The target takes the stream's next record.
pub fn pass(target: &mut Device, source: &mut Device, stream: u64) -> Result<Received, Refusal> {
    target.receive(Frame::Record(source.next(stream)?))
}

/// Whether two replicas answer alike whatever is asked of them.
pub fn are_alike(a: &Device, b: &Device) -> Result<bool> {
    Ok(hold_alike(a, b) && are_open_alike(a, b)? && same(a.conflicts(), b.conflicts())?)
}

/// Whether they know, hold and tell the same, and have logs of one length.
fn hold_alike(a: &Device, b: &Device) -> bool {
    a.knowledge() == b.knowledge()
        && a.log().len() == b.log().len()
        && a.is_retired() == b.is_retired()
        && are_same(a.heads(), b.heads())
        && are_same(a.push_outs(), b.push_outs())
        && tell_alike(a.feed(), b.feed())
}

/// Whether the revisions are the same.
fn are_same(a: &[Revision], b: &[Revision]) -> bool {
    for (a, b) in a.iter().zip(b) {
        if a.version() != b.version() || a.item() != b.item() || a.below() != b.below() {
            return false;
        }
    }
    a.len() == b.len()
}

/// Whether the entries have the same versions.
fn tell_alike(a: &[Entry], b: &[Entry]) -> bool {
    for (a, b) in a.iter().zip(b) {
        if a.version() != b.version() {
            return false;
        }
    }
    a.len() == b.len()
}

/// Whether the same sessions and streams are open.
fn are_open_alike(a: &Device, b: &Device) -> Result<bool, AllocError> {
    Ok(same(a.open_sessions(), b.open_sessions())? && same(a.open_streams(), b.open_streams())?)
}

/// Whether two values that could be made are the same.
pub fn same<T: PartialEq + Drop, E: Drop>(a: Result<T, E>, b: Result<T, E>) -> Result<bool, E> {
    Ok(a? == b?)
}

/// Two values that could be made.
pub fn both<A: Drop, B: Drop>(a: Result<A>, b: Result<B>) -> Result<(A, B)> {
    Ok((a?, b?))
}
