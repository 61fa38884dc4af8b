//! A replica that isn't kept, and what it takes from one that is.
use crate::keeper::{Keeper, Taker};
use crate::letters::{Letter, letter_of};
use crate::slot::{Slot, next_replica};
use crate::words::{next_id, next_limit, next_number_or, next_word, words_of};
use anyhow::{Context, Result};
use mr_filter::Filter;
use mr_replica::{Received, Reply};
use mr_wire::decode;
use std::alloc::Global;

/// `phone ID LIMIT FILTER`
pub fn begin<P: Taker>(alloc: Global, phone: &mut Option<P>, rest: &str) -> Result<String> {
    let mut words = words_of(rest);
    let id = next_id(&mut words)?;
    let limit = next_limit(&mut words)?;
    let filter = Filter::read(alloc, next_word(&mut words))?;
    *phone = Some(P::begin(alloc, id, filter, limit)?);
    Ok(String::new(alloc))
}

/// `sync D [N]`: the phone asks D, and takes at most N records; how many told something new, and what it holds.
pub fn sync<J: Keeper, P: Taker>(
    alloc: Global,
    slots: &mut [Slot<J>],
    phone: &mut Option<P>,
    rest: &str,
) -> Result<String> {
    let mut words = words_of(rest);
    let office = next_replica(slots, &mut words)?;
    let most = next_number_or(&mut words, 100)?;
    let phone = phone.as_mut().context("there is no phone")?;
    synced(alloc, office, phone, most)
}

/// How many records told the phone something new, and what it holds.
fn synced<J: Keeper, P: Taker>(
    alloc: Global,
    office: &mut J,
    phone: &mut P,
    most: u64,
) -> Result<String> {
    let taken = take_all(alloc, office, phone, most)?;
    let mut text = format!(in alloc; "took {taken}; ")?;
    phone.push_held(&mut text)?;
    Ok(text)
}

/// The phone asks the office and takes what it is told, up to so many records. It gives how many told something new.
fn take_all<J: Keeper, P: Taker>(
    alloc: Global,
    office: &mut J,
    phone: &mut P,
    most: u64,
) -> Result<u64> {
    let stream = office.answer(phone.pull()?)?;
    let mut taken = 0u64;
    for _ in 0..most {
        let letter = give(alloc, office, stream)?;
        match take(alloc, phone, &letter)? {
            Received::Took => taken = taken.saturating_add(1),
            Received::Known => {}
            Received::Finished => return Ok(taken),
        }
    }
    Ok(taken)
}

/// The office keeps that it gives a record, and only then sends it.
fn give<J: Keeper>(alloc: Global, office: &mut J, stream: u64) -> Result<Letter> {
    office.next(stream)?;
    let replies = office.commit()?;
    let bytes = last_letter(alloc, &replies);
    drop(replies);
    office.sent(alloc, &bytes?)
}

/// The bytes of the last reply.
fn last_letter(alloc: Global, replies: &[Reply]) -> Result<Letter> {
    let reply = replies.last().context("nothing was handed out")?;
    letter_of(alloc, reply)?.context("no record was handed out")
}

fn take<P: Taker>(alloc: Global, phone: &mut P, letter: &[u8]) -> Result<Received> {
    let (frame, _) = decode(alloc, letter)?;
    phone.receive(frame)
}
