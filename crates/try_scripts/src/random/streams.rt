//! Streams: however one is cut, its reader gives the frames that its bytes spell, up to their first fault.
use crate::random::bytes::pick;
use crate::random::frames::{add, add_first, make_frame};
use crate::random::numbers::Numbers;
use crate::random::tally::Tally;
use anyhow::{Context, Result, bail, ensure};
use mr_frames::{FrameFault, FrameReader};
use mr_wire::{Frame, WireFault};
use std::alloc::{AllocError, Global};

/// The most frames of a stream.
const MOST_FRAMES: u32 = 12;

/// The most bytes of a piece.
const MOST_PIECE_BYTES: usize = 90;

/// Room for a stream and for a frame of it.
#[derive(Drop)]
struct Room {
    alloc: Global,
    stream: Vec<u8>,
    frame: Vec<u8>,
}

/// Makes so many streams, and reads each in pieces and as a whole. Notes how they end: a stream that is right to its last
/// byte ends as `Truncated` does, with more to come.
pub fn try_all(
    alloc: Global,
    samples: &[Vec<u8>],
    numbers: &mut Numbers,
    count: u64,
) -> Result<Tally> {
    let mut room = Room {
        alloc,
        stream: Vec::new(alloc),
        frame: Vec::new(alloc),
    };
    room.try_many(samples, numbers, count)
}

impl Room {
    fn try_many(
        &mut self,
        samples: &[Vec<u8>],
        numbers: &mut Numbers,
        count: u64,
    ) -> Result<Tally> {
        let mut tally = Tally::new();
        for number in 0..count {
            self.make(samples, numbers)?;
            let fault = try_one(self.alloc, &self.stream, numbers);
            tally.note(fault.context(format_args!("stream {number}"))?.number());
        }
        Ok(tally)
    }

    /// Makes a stream of right frames, with a hostile one among them now and then.
    fn make(&mut self, samples: &[Vec<u8>], numbers: &mut Numbers) -> Result<(), AllocError> {
        self.stream.clear();
        for _ in 0..numbers.below(MOST_FRAMES) {
            if numbers.is_once_in(8) {
                make_frame(samples, numbers, &mut self.frame)?;
                self.stream.extend_from_slice(&self.frame)?;
            } else {
                self.stream.extend_from_slice(pick(samples, numbers))?;
            }
        }
        Ok(())
    }
}

/// Reads one stream in both ways, and gives how it ended.
fn try_one(alloc: Global, bytes: &[u8], numbers: &mut Numbers) -> Result<WireFault> {
    let mut whole = Vec::new(alloc);
    let fault = read_whole(alloc, bytes, &mut whole);
    ensure!(
        is_read_so(alloc, bytes, numbers, fault, &whole)?,
        "a stream in pieces gives something else than as a whole: {bytes:?}"
    );
    Ok(fault)
}

/// Whether a stream in pieces gives these frames, and ends with this fault.
fn is_read_so(
    alloc: Global,
    bytes: &[u8],
    numbers: &mut Numbers,
    fault: WireFault,
    frames: &[u8],
) -> Result<bool> {
    let mut pieces = Vec::new(alloc);
    let other = read_pieces(alloc, bytes, numbers, &mut pieces)?;
    Ok(fault == other && pieces.as_slice() == frames)
}

/// Puts the spellings of the frames that the bytes have behind one another, up to the fault that it gives.
fn read_whole(alloc: Global, bytes: &[u8], out: &mut Vec<u8>) -> WireFault {
    let mut rest = bytes;
    for _ in 0..MOST_FRAMES {
        match add_first(alloc, rest, out) {
            Ok(used) => rest = rest.get(used..).unwrap_or(&[]),
            Err(fault) => return fault,
        }
    }
    WireFault::Truncated
}

/// As `read_whole`, by a reader to which the bytes come in random pieces. Fails where it goes on behind a fault, or tells
/// its end otherwise.
fn read_pieces(
    alloc: Global,
    bytes: &[u8],
    numbers: &mut Numbers,
    out: &mut Vec<u8>,
) -> Result<WireFault> {
    let mut reader = FrameReader::new(alloc);
    let fed = feed_all(alloc, &mut reader, bytes, numbers, out);
    let fed_behind = reader.feed(&[]);
    match (fed, fed_behind, reader.finish()) {
        (Ok(()), Ok(()), Ok(()) | Err(FrameFault::Wire(WireFault::Truncated))) => {
            Ok(WireFault::Truncated)
        }
        (Err(FrameFault::Wire(fault)), Err(FrameFault::Failed), Err(FrameFault::Failed)) => {
            Ok(fault)
        }
        _ => bail!("a reader goes on behind its fault"),
    }
}

/// Feeds random pieces until all are fed, or there is a fault.
fn feed_all(
    alloc: Global,
    reader: &mut FrameReader,
    bytes: &[u8],
    numbers: &mut Numbers,
    out: &mut Vec<u8>,
) -> Result<(), FrameFault> {
    let mut rest = bytes;
    for _ in 0..bytes.len() {
        let len = numbers.place_below(MOST_PIECE_BYTES);
        let (piece, more) = rest.split_at(len.min(rest.len()));
        rest = more;
        feed(alloc, reader, piece, out)?;
    }
    // What is left was not fed in so many turns.
    feed(alloc, reader, rest, out)
}

/// Feeds a piece, and takes the frames that are whole then, up to a fault.
fn feed(
    alloc: Global,
    reader: &mut FrameReader,
    piece: &[u8],
    out: &mut Vec<u8>,
) -> Result<(), FrameFault> {
    reader.feed(piece)?;
    for _ in 0..MOST_FRAMES {
        if !add_next(alloc, reader, out)? {
            break;
        }
    }
    Ok(())
}

/// Puts the spelling of the reader's next frame behind others. Gives whether there was one.
fn add_next(
    alloc: Global,
    reader: &mut FrameReader,
    out: &mut Vec<u8>,
) -> Result<bool, FrameFault> {
    add_given(alloc, &reader.next_frame(), out)
}

/// Puts the spelling of what a reader gave behind others. Gives whether that is a frame.
fn add_given(
    alloc: Global,
    given: &Result<Option<Frame>, FrameFault>,
    out: &mut Vec<u8>,
) -> Result<bool, FrameFault> {
    match given {
        Ok(Some(frame)) => {
            add(alloc, frame, out)?;
            Ok(true)
        }
        Ok(None) => Ok(false),
        Err(fault) => Err(*fault),
    }
}
