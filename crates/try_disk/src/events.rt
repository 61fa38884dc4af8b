//! What kept replicas are asked, by lines.
use crate::keeper::Keeper;
use crate::slot::{Slot, next_replica};
use crate::told::told_fault;
use crate::words::{next_number, next_number_or, next_version, next_word, words_of};
use anyhow::Result;
use mr_kept::KeptFault;
use mr_mail::{Day, Message};
use mr_replica::Bases;
use std::alloc::Global;
use std::str::SplitWhitespace;

/// Does a line by which a replica is asked something.
pub fn ask<J: Keeper>(
    alloc: Global,
    slots: &mut [Slot<J>],
    word: &str,
    rest: &str,
) -> Result<String> {
    let mut words = words_of(rest);
    let replica = next_replica(slots, &mut words)?;
    let outcome = match word {
        "create" => create(alloc, replica, &mut words)?,
        "edit" => edit(alloc, replica, &mut words)?,
        "next" => next(replica, &mut words)?,
        "vouch" => replica.vouch(next_version(&mut words)?),
        "cutin" => replica.cut_in(next_number(&mut words)?),
        "cutout" => replica.cut_out(next_number(&mut words)?),
        "pull" => replica.pull(),
        _ => replica.retire(),
    };
    told(alloc, outcome)
}

/// Whether it was admitted.
fn told(alloc: Global, outcome: Result<(), KeptFault>) -> Result<String> {
    match outcome {
        Ok(()) => Ok(String::new(alloc)),
        Err(fault) => Ok(told_fault(alloc, fault.number(), &fault)?),
    }
}

/// `create D SUBJECT [LABEL]`
fn create<J: Keeper>(
    alloc: Global,
    replica: &mut J,
    words: &mut SplitWhitespace<'_>,
) -> Result<Result<(), KeptFault>> {
    Ok(replica.create(next_message(alloc, words)?))
}

/// `edit D VERSION SUBJECT [LABEL]`
fn edit<J: Keeper>(
    alloc: Global,
    replica: &mut J,
    words: &mut SplitWhitespace<'_>,
) -> Result<Result<(), KeptFault>> {
    let bases = next_bases(alloc, words)?;
    let message = next_message(alloc, words)?;
    Ok(replica.edit(bases, message))
}

/// `next D STREAM [COUNT]`: so many Nexts in a row, up to the first that is refused.
fn next<J: Keeper>(
    replica: &mut J,
    words: &mut SplitWhitespace<'_>,
) -> Result<Result<(), KeptFault>> {
    let stream = next_number(words)?;
    for _ in 0..next_number_or(words, 1)? {
        if let Err(fault) = replica.next(stream) {
            return Ok(Err(fault));
        }
    }
    Ok(Ok(()))
}

/// The version that the next word is, alone.
fn next_bases(alloc: Global, words: &mut SplitWhitespace<'_>) -> Result<Bases> {
    let version = next_version(words)?;
    let mut bases = Vec::new(alloc);
    bases.push(version)?;
    Ok(Bases::new(bases))
}

/// The message of this subject and label.
fn next_message(alloc: Global, words: &mut SplitWhitespace<'_>) -> Result<Message> {
    let subject = next_word(words);
    let label = words.next().unwrap_or("inbox");
    message(alloc, subject, label)
}

/// A message with this subject and label.
pub fn message(alloc: Global, subject: &str, label: &str) -> Result<Message> {
    let mut labels = Vec::new(alloc);
    labels.push(String::from_str(alloc, label)?)?;
    let day = Day::read("2026-01-05")?;
    Ok(Message::try_copying(
        alloc,
        "ann@example.org",
        subject,
        b"See you there.",
        labels,
        0,
        day,
    )?)
}
