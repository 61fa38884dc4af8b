//! What kept replicas hand out, and what others do with it.
use crate::keeper::Keeper;
use crate::slot::{Slot, next_replica};
use crate::told::told_fault;
use crate::words::{next_number, words_of};
use anyhow::{Context, Result};
use mr_kept::KeptFault;
use mr_replica::{Received, Reply};
use mr_wire::{Frame, decode, encode_ask, encode_receipt, encode_record};
use std::alloc::Global;

/// The bytes of a request, a record or a receipt.
pub type Letter = Vec<u8>;

/// `keep D`: keeps what waits there, and tells what was handed out: versions, and letters by their numbers from 1.
pub fn keep<J: Keeper>(
    alloc: Global,
    slots: &mut [Slot<J>],
    letters: &mut Vec<Letter>,
    rest: &str,
) -> Result<String> {
    let replica = next_replica(slots, &mut words_of(rest))?;
    match replica.commit() {
        Ok(replies) => hand_out(alloc, replica, &replies, letters),
        Err(fault) => Ok(told_fault(alloc, fault.number(), &fault)?),
    }
}

/// Sends what was handed out, and tells it.
fn hand_out<J: Keeper>(
    alloc: Global,
    replica: &J,
    replies: &[Reply],
    letters: &mut Vec<Letter>,
) -> Result<String> {
    let mut text = String::from_str(alloc, "kept")?;
    for reply in replies {
        hand_out_one(alloc, replica, reply, letters, &mut text)?;
    }
    Ok(text)
}

/// Sends a reply, where it is one that is sent, and tells it.
fn hand_out_one<J: Keeper>(
    alloc: Global,
    replica: &J,
    reply: &Reply,
    letters: &mut Vec<Letter>,
    text: &mut String,
) -> Result<()> {
    if let Reply::Issued(version) = reply {
        write!(text, " {version}")?;
    } else if let Some(bytes) = letter_of(alloc, reply)? {
        send(alloc, replica, &bytes, letters)?;
        let number = letters.len();
        write!(text, " letter {number}")?;
    }
    Ok(())
}

/// Sends bytes, and puts what was sent behind the other letters.
fn send<J: Keeper>(
    alloc: Global,
    replica: &J,
    bytes: &[u8],
    letters: &mut Vec<Letter>,
) -> Result<()> {
    let letter = replica.sent(alloc, bytes)?;
    letters.push(letter)?;
    Ok(())
}

/// The bytes of a reply that is sent to another replica.
pub fn letter_of(alloc: Global, reply: &Reply) -> Result<Option<Letter>> {
    match reply {
        Reply::Asked(ask) => Ok(Some(encode_ask(alloc, ask)?)),
        Reply::Gave(record) => Ok(Some(encode_record(alloc, record)?)),
        Reply::Vouched(receipt) => Ok(Some(encode_receipt(alloc, receipt)?)),
        _ => Ok(None),
    }
}

/// `give D N`: a replica gets letter N, and what came of it.
pub fn give<J: Keeper>(
    alloc: Global,
    slots: &mut [Slot<J>],
    letters: &[Letter],
    rest: &str,
) -> Result<String> {
    let mut words = words_of(rest);
    let replica = next_replica(slots, &mut words)?;
    let place = next_number(&mut words)?.saturating_sub(1);
    let letter = letters
        .get(usize::try_from(place)?)
        .context("no such letter")?;
    taken(alloc, replica, letter)
}

/// What a replica makes of a letter.
fn taken<J: Keeper>(alloc: Global, replica: &mut J, letter: &[u8]) -> Result<String> {
    let decoded = decode(alloc, letter)?;
    let told = given(alloc, replica, &decoded.0);
    drop(decoded);
    told
}

/// What a replica makes of a frame.
fn given<J: Keeper>(alloc: Global, replica: &mut J, frame: &Frame) -> Result<String> {
    match frame {
        Frame::Ask(ask) => answered(alloc, replica.answer(ask.copy()?)),
        Frame::Record(_) => received(alloc, replica.receive(frame.copy()?)),
        Frame::Receipt(receipt) => released(alloc, replica.release(receipt.copy()?)),
    }
}

fn answered(alloc: Global, outcome: Result<u64, KeptFault>) -> Result<String> {
    match outcome {
        Ok(stream) => Ok(format!(in alloc; "stream {stream}")?),
        Err(fault) => Ok(told_fault(alloc, fault.number(), &fault)?),
    }
}

fn received(alloc: Global, outcome: Result<Received, KeptFault>) -> Result<String> {
    let told = match outcome {
        Ok(Received::Took) => "took",
        Ok(Received::Known) => "known",
        Ok(Received::Finished) => "finished",
        Err(fault) => return Ok(told_fault(alloc, fault.number(), &fault)?),
    };
    Ok(String::from_str(alloc, told)?)
}

fn released(alloc: Global, outcome: Result<(), KeptFault>) -> Result<String> {
    match outcome {
        Ok(()) => Ok(String::from_str(alloc, "released")?),
        Err(fault) => Ok(told_fault(alloc, fault.number(), &fault)?),
    }
}
