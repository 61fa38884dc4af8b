//! A story of two replicas, and the right frames that it leaves, of which hostile ones are made.
use crate::random::cast::{Device, ask, both, pass, sync};
use anyhow::{Context, Result};
use mr_mail::{Day, Message};
use mr_replica::{Bases, Event, Refusal};
use mr_version::Version;
use mr_wire::{WireFault, encode, encode_ask, encode_receipt};
use std::alloc::Global;

/// What the phone keeps.
pub const PHONE_FILTER: &str = "label:inbox | label:work & flag:seen & since:2026-01-01";

/// All that happens. The office, replica 0, keeps all mail. In the end the phone, replica 1, waits for records in three
/// sessions, of which one has taken some, and gives some in one stream.
pub fn play(alloc: Global, office: &mut Device, phone: &mut Device) -> Result<()> {
    write(alloc, office, phone)?;
    sync_both(office, phone)?;
    write_on(alloc, office, phone)?;
    sync_both(office, phone)?;
    let_go(alloc, office, phone)?;
    Ok(open(office, phone)?)
}

/// A message under one label.
fn message(alloc: Global, label: &str) -> Result<Message> {
    let day = Day::read("2026-01-05")?;
    let head = both(text(alloc, "ann"), text(alloc, "Hi"));
    let rest = both(
        text(alloc, "See you there."),
        one(alloc, text(alloc, label)),
    );
    let ((from, subject), (body, labels)) = both(head, rest)?;
    Message::try_new(alloc, from, subject, body.into_bytes(), labels, 1, day).context("a message")
}

/// A text.
fn text(alloc: Global, text: &str) -> Result<String> {
    Ok(String::from_str(alloc, text)?)
}

/// A list of this alone.
fn one<T: Drop>(alloc: Global, item: Result<T>) -> Result<Vec<T>> {
    let mut list = Vec::new(alloc);
    list.push(item?)?;
    Ok(list)
}

/// The replica makes a message under this label. Gives its version.
pub fn create(alloc: Global, device: &mut Device, label: &str) -> Result<Version> {
    Ok(device.create(message(alloc, label)?)?)
}

/// The replica puts a new version in the place of another.
fn edit(alloc: Global, device: &mut Device, base: Version, label: &str) -> Result<()> {
    let (bases, message) = both(one(alloc, Ok(base)), message(alloc, label))?;
    device.edit(Bases::new(bases), message)?;
    Ok(())
}

/// A head's version.
fn head(device: &Device, place: usize) -> Result<Version> {
    let head = device.heads().get(place).context("there is no such head")?;
    Ok(head.version())
}

/// Some mail on both, of which the phone keeps a part for the office alone.
fn write(alloc: Global, office: &mut Device, phone: &mut Device) -> Result<()> {
    for label in &["inbox", "work", "archive", "inbox"] {
        create(alloc, office, label)?;
    }
    create(alloc, phone, "inbox")?;
    create(alloc, phone, "archive")?;
    Ok(())
}

/// Messages are edited on both sides, and one moves out of what the phone keeps.
fn write_on(alloc: Global, office: &mut Device, phone: &mut Device) -> Result<()> {
    let first = head(office, 0)?;
    edit(alloc, office, first, "archive")?;
    let last = head(phone, 1)?;
    edit(alloc, phone, last, "inbox")?;
    edit(alloc, office, last, "work")
}

/// The phone syncs with the office, and the office with the phone.
pub fn sync_both(office: &mut Device, phone: &mut Device) -> Result<(), Refusal> {
    sync(phone, office)?;
    sync(office, phone)
}

/// The office vouches for the phone's push-out, and the phone lets go of it.
fn let_go(alloc: Global, office: &mut Device, phone: &mut Device) -> Result<()> {
    let kept = phone.push_outs().first().context("the phone keeps none")?;
    let kept = kept.version();
    redeem(phone, office, kept)?;
    create(alloc, phone, "archive")?;
    create(alloc, office, "inbox")?;
    Ok(())
}

/// The phone lets go of what the office vouches for.
fn redeem(phone: &mut Device, office: &mut Device, kept: Version) -> Result<(), Refusal> {
    phone.release(office.vouch(kept)?)
}

/// Sessions and streams are opened, cut and left open.
fn open(office: &mut Device, phone: &mut Device) -> Result<(), Refusal> {
    let stream = ask(phone, office)?;
    pass(phone, office, stream)?;
    pass(phone, office, stream)?;
    for _ in 0..3 {
        phone.pull()?;
    }
    phone.cut_in(5)?;
    ask(office, phone)?;
    let cut = ask(office, phone)?;
    phone.cut_out(cut)
}

/// The frames that are in a log: those that a replica took, and the requests that it answered.
pub fn frames_of(alloc: Global, log: &[Event]) -> Result<Vec<Vec<u8>>, WireFault> {
    let mut frames = Vec::new(alloc);
    add_frames(alloc, log, &mut frames)?;
    Ok(frames)
}

/// Puts the frames that are in a log behind others.
pub fn add_frames(
    alloc: Global,
    log: &[Event],
    frames: &mut Vec<Vec<u8>>,
) -> Result<(), WireFault> {
    for event in log {
        match event {
            Event::Receive(frame) => push(frames, encode(alloc, frame))?,
            Event::Answer(ask) => push(frames, encode_ask(alloc, ask))?,
            Event::Release(receipt) => push(frames, encode_receipt(alloc, receipt))?,
            _ => {}
        }
    }
    Ok(())
}

/// Puts what could be made behind others.
fn push<T: Drop>(list: &mut Vec<T>, made: Result<T, WireFault>) -> Result<(), WireFault> {
    Ok(list.push(made?)?)
}
