//! Replicas on disks.
use crate::disk::StoppingDisk;
use crate::node::Kept;
use anyhow::{Result, bail};
use mr_entry::Mark;
use mr_filter::Filter;
use mr_itemset::ItemKnowledge;
use mr_kept::Setup;
use mr_mail::{Day, Message};
use mr_replica::{Event, Replica};
use mr_settle::{JoinFault, are_distinct, join_logs};
use mr_version::Author;
use std::alloc::{AllocError, Global};

/// Where the journals are.
const HERE: Mark = [7; 32];

/// What a disk has where a replica of this id was begun and nothing else done.
pub fn begun(alloc: Global, id: u8) -> Result<Vec<u8>> {
    let setup = setup_of(alloc, id)?;
    let disk = StoppingDisk::new(alloc, &[], u64::MAX)?;
    let kept = made(Kept::begin(alloc, disk, setup))?;
    Ok(kept.into_device().synced)
}

/// What replica the one of this id is.
fn setup_of(alloc: Global, id: u8) -> Result<Setup> {
    Ok(Setup {
        id: Author::try_new(u16::from(id))?,
        filter: Filter::read(alloc, "all")?,
        event_limit: 1_000,
        birth: [id; 16],
        mark: HERE,
    })
}

/// What was begun.
fn made<T: Drop, E: Drop>(begun: Result<T, E>) -> Result<T> {
    match begun {
        Ok(kept) => Ok(kept),
        Err(_) => bail!("a replica isn't begun"),
    }
}

/// The replica that a disk has, on one with these bytes that does so many calls.
pub fn opened(alloc: Global, bytes: &[u8], calls: u64) -> Result<Kept> {
    let disk = StoppingDisk::new(alloc, bytes, calls)?;
    found(Kept::open(alloc, disk, &HERE, None))
}

/// What was opened, without what was found beside it.
fn found<T: Drop, O: Drop, E: Drop>(opened: Result<(T, O), E>) -> Result<T> {
    match opened {
        Ok((kept, _)) => Ok(kept),
        Err(_) => bail!("a replica doesn't come back"),
    }
}

/// Events that write so many messages.
pub fn creates(alloc: Global, count: u64) -> Result<Vec<Event>> {
    let mut events = Vec::new(alloc);
    for _ in 0..count {
        events.push(Event::Create(message(alloc)?))?;
    }
    Ok(events)
}

/// A message, of which nothing is said.
fn message(alloc: Global) -> Result<Message> {
    let day = Day::read("2026-01-05")?;
    let (from, subject) = (String::new(alloc), String::new(alloc));
    let (body, labels) = (Vec::new(alloc), Vec::new(alloc));
    Ok(Message::try_new(alloc, from, subject, body, labels, 0, day)?)
}

/// How many messages its user wrote.
pub fn written(replica: &Replica<ItemKnowledge>) -> usize {
    let log = replica.log();
    log.iter()
        .filter(|event| matches!(event, Event::Create(_)))
        .count()
}

/// Both logs are of one world.
pub fn join(
    alloc: Global,
    first: &Replica<ItemKnowledge>,
    second: &Replica<ItemKnowledge>,
) -> Result<()> {
    let mut ends = Vec::new(alloc);
    let told = join_copies(alloc, &mut ends, first, second);
    drop(ends);
    told
}

/// Both logs, copied to these ends, are of one world.
fn join_copies(
    alloc: Global,
    ends: &mut Vec<Replica<ItemKnowledge>>,
    first: &Replica<ItemKnowledge>,
    second: &Replica<ItemKnowledge>,
) -> Result<()> {
    push_made(ends, first.copy())?;
    push_made(ends, second.copy())?;
    join_ends(alloc, ends)
}

/// Adds what was made.
fn push_made<T: Drop>(all: &mut Vec<T>, made: Result<T, AllocError>) -> Result<(), AllocError> {
    all.push(made?)?;
    Ok(())
}

/// All their logs are of one world.
fn join_ends(alloc: Global, ends: &[Replica<ItemKnowledge>]) -> Result<()> {
    if !are_distinct(ends) {
        bail!("both have one id");
    }
    joined(join_logs(alloc, ends))
}

/// Whether they were joined, whatever the world that they make.
fn joined<W: Drop>(world: Result<W, JoinFault>) -> Result<()> {
    world?;
    Ok(())
}
