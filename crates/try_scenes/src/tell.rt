//! What replicas that are alone hold and did, as it is told.
use crate::device::{Device, replica_of};
use crate::last_run::{Counts, LastRun};
use crate::replica::SceneReplica;
use crate::words::{read_id, words};
use anyhow::{Result, bail};
use mr_feed::Entry;
use mr_replica::Event;
use mr_version::Author;
use std::alloc::{AllocError, Global};

/// `tell R..`, `steps R..` and `counts R..`: what these hold; what they did, and what came into their feeds; and how much they did
/// in the last run, and how long their logs are.
pub fn tell<C: SceneReplica, L>(
    alloc: Global,
    devices: &[Device<C, L>],
    what: &str,
    ids: &str,
) -> Result<String> {
    let mut text = String::new(alloc);
    for word in words(ids) {
        push_told(&mut text, devices, what, read_id(word)?)?;
    }
    Ok(text)
}

/// Adds that of one of them.
fn push_told<C: SceneReplica, L>(
    text: &mut String,
    devices: &[Device<C, L>],
    what: &str,
    id: Author,
) -> Result<()> {
    let replica = replica_of(devices, id)?;
    match what {
        "tell" => Ok(replica.push_held(text)?),
        "steps" => Ok(push_steps(text, id, replica)?),
        _ => Ok(push_counts(text, id, counts_of(devices, id)?, replica.log().len())?),
    }
}

/// What this one did in the last run.
fn counts_of<C, L>(devices: &[Device<C, L>], id: Author) -> Result<Counts> {
    for device in devices {
        if let (true, Some(LastRun::Ended(counts))) = (device.id == id, device.last) {
            return Ok(counts);
        }
    }
    bail!("a replica did not run")
}

/// What one did, and how long its log is.
fn push_counts(
    text: &mut String,
    id: Author,
    counts: Counts,
    log: usize,
) -> Result<(), AllocError> {
    let (letters, answered) = (counts.letters, counts.answered);
    let (first, second) = (counts.first_calls, counts.second_calls);
    write!(
        text,
        "{id}: letters {letters}, answered {answered}, log {log}; calls {first} {second}\n"
    )
}

/// A character for each event of the log, and the feed.
fn push_steps<C: SceneReplica>(
    text: &mut String,
    id: Author,
    replica: &C,
) -> Result<(), AllocError> {
    write!(text, "{id}: ")?;
    push_log(text, replica.log())?;
    text.push_str("; feed")?;
    push_feed(text, replica.feed())?;
    text.push('\n')
}

/// The entries, each behind a space: `+V` for a version that entered, `-V` for one that left.
fn push_feed(text: &mut String, entries: &[Entry]) -> Result<(), AllocError> {
    for entry in entries {
        let version = entry.version();
        let sign = match entry {
            Entry::Added { .. } => '+',
            Entry::Dropped { .. } => '-',
        };
        write!(text, " {sign}{version}")?;
    }
    Ok(())
}

/// A character for each event.
fn push_log(text: &mut String, log: &[Event]) -> Result<(), AllocError> {
    for event in log {
        text.push(initial_of(event))?;
    }
    Ok(())
}

/// The character that stands for an event.
pub fn initial_of(event: &Event) -> char {
    match event {
        Event::Create(_) => 'C',
        Event::Edit(_, _) => 'E',
        Event::Retire => 'T',
        Event::Pull => 'P',
        Event::Receive(_) => 'R',
        Event::CutIn(_) => 'I',
        Event::Answer(_) => 'A',
        Event::Next(_) => 'N',
        Event::CutOut(_) => 'O',
        Event::Vouch(_) => 'V',
        Event::Release(_) => 'L',
    }
}
