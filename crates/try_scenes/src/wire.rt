//! Frames over a link that gives one byte at a time.
use crate::bytes_link::BytesLink;
use crate::strange::{Strange, When, read_what};
use crate::words::{next_number, next_word, words};
use anyhow::Result;
use mr_link::{Snag, Wire};
use mr_script::frame_text;
use mr_wire::{Frame, decode, encode};
use std::alloc::{AllocError, Global};
use std::sync::Wait;

/// `read HEX [WHAT WHEN]`: what the first two reads give over such a link with these bytes.
pub fn read<R: Wait>(rt: &R, alloc: Global, line: &str) -> Result<String> {
    let mut words = words(line);
    let bytes = next_word(&mut words)?;
    let strange = Strange::read(words.next(), words.next())?;
    let bytes = hex::decode(alloc, bytes)?;
    let mut text = String::new(alloc);
    read_two(rt, alloc, &bytes, strange, &mut text)?;
    Ok(text)
}

/// `reads N HEX WHAT`: what the first two reads give where the link does this at its call 0, and so on for N calls.
pub fn reads<R: Wait>(rt: &R, alloc: Global, line: &str) -> Result<String> {
    let mut words = words(line);
    let calls = next_number(&mut words)?;
    let bytes = next_word(&mut words)?;
    let what = read_what(next_word(&mut words)?)?;
    let bytes = hex::decode(alloc, bytes)?;
    let mut text = String::new(alloc);
    for call in 0..calls {
        let when = When::Call(call);
        read_two(rt, alloc, &bytes, Strange { what, when }, &mut text)?;
    }
    Ok(text)
}

/// The first two reads; the second is not made where the first came upon bytes that are no frame.
fn read_two<R: Wait>(
    rt: &R,
    alloc: Global,
    bytes: &[u8],
    strange: Strange,
    text: &mut String,
) -> Result<()> {
    let bytes = Vec::from_slice(alloc, bytes)?;
    let mut wire = Wire::new(alloc, BytesLink::new(alloc, bytes, strange));
    let first = wire.read_frame(rt, alloc);
    let second = match &first {
        Err(Snag::BadFrame) => None,
        _ => Some(wire.read_frame(rt, alloc)),
    };
    push_reads(alloc, text, &first, &second)
}

/// What two reads gave.
fn push_reads(
    alloc: Global,
    text: &mut String,
    first: &Result<Frame, Snag>,
    second: &Option<Result<Frame, Snag>>,
) -> Result<()> {
    push_read(alloc, text, first)?;
    match second {
        Some(second) => push_read(alloc, text, second),
        None => Ok(()),
    }
}

/// What a read gave: the frame, or its fault.
fn push_read(alloc: Global, text: &mut String, read: &Result<Frame, Snag>) -> Result<()> {
    match read {
        Ok(frame) => push_frame(alloc, text, frame),
        Err(snag) => Ok(push_snag(text, *snag)?),
    }
}

/// What a frame says.
fn push_frame(alloc: Global, text: &mut String, frame: &Frame) -> Result<()> {
    let bytes = encode(alloc, frame)?;
    let told = frame_text(alloc, hex::encode(alloc, &bytes)?.as_str())?;
    text.push_str(told.lines.as_str())?;
    Ok(())
}

/// The fault of a read or a send.
fn push_snag(text: &mut String, snag: Snag) -> Result<(), AllocError> {
    let number = snag.number();
    write!(text, "fault {number}: {snag}\n")
}

/// `send HEX HEX [WHAT WHEN]`: what becomes of two frames that are sent over such a link, and the bytes that were.
pub fn send(alloc: Global, line: &str) -> Result<String> {
    let mut words = words(line);
    let first = next_word(&mut words)?;
    let second = next_word(&mut words)?;
    let strange = Strange::read(words.next(), words.next())?;
    let first = hex::decode(alloc, first)?;
    let second = hex::decode(alloc, second)?;
    send_frames(alloc, &first, &second, strange)
}

/// Sends the frames that these bytes are.
fn send_frames(alloc: Global, first: &[u8], second: &[u8], strange: Strange) -> Result<String> {
    let first = decode(alloc, first)?;
    let second = decode(alloc, second)?;
    send_two(alloc, &first.0, &second.0, strange)
}

/// Sends both.
fn send_two(alloc: Global, first: &Frame, second: &Frame, strange: Strange) -> Result<String> {
    let mut wire = Wire::new(alloc, BytesLink::new(alloc, Vec::new(alloc), strange));
    let first = match first {
        Frame::Ask(ask) => wire.send_ask(alloc, ask),
        Frame::Record(record) => wire.send_record(alloc, record),
        Frame::Receipt(receipt) => wire.send_receipt(alloc, receipt),
    };
    let second = match second {
        Frame::Ask(ask) => wire.send_ask(alloc, ask),
        Frame::Record(record) => wire.send_record(alloc, record),
        Frame::Receipt(receipt) => wire.send_receipt(alloc, receipt),
    };
    sent_text(alloc, first.err(), second.err(), &wire.link.sent)
}

/// What became of two frames, and the bytes that were sent.
fn sent_text(
    alloc: Global,
    first: Option<Snag>,
    second: Option<Snag>,
    sent: &[u8],
) -> Result<String> {
    let mut text = String::new(alloc);
    push_sent(&mut text, first)?;
    push_sent(&mut text, second)?;
    text.push_str(hex::encode(alloc, sent)?.as_str())?;
    text.push('\n')?;
    Ok(text)
}

/// What became of a frame.
fn push_sent(text: &mut String, snag: Option<Snag>) -> Result<(), AllocError> {
    match snag {
        Some(snag) => push_snag(text, snag),
        None => text.push_str("sent\n"),
    }
}
