//! Frames: hostile bytes are read as the frame that they spell, or refused by a named fault.
ghost use Rattle.std.specs.Prelude.{◌≤◌};

use crate::random::bytes::{LENGTH_BYTES, make, put};
use crate::random::numbers::Numbers;
use mr_wire::{Frame, WireFault, decode, encode};
use std::alloc::{AllocError, Global};

/// The place of the byte of the kind, and the kinds that are no records.
pub const KIND_PLACE: usize = 5;

pub const REQUEST: u8 = 0;

pub const RECEIPT: u8 = 7;

/// The places of the last bytes of a header's numbers: source, stream, target, session and index. A request has the
/// first two, and a receipt the first.
const NUMBER_PLACES: [usize; 5] = [7, 15, 17, 25, 29];

/// The place of a header, and the header of the record that the phone of the story waits for in its oldest session.
const HEADER_PLACE: usize = 6;

const AWAITED: [u8; 24] = [
    0, 0, 0, 0, 0, 0, 0, 0, 0, 3, 0, 1, 0, 0, 0, 0, 0, 0, 0, 3, 0, 0, 0, 3,
];

/// The place of the item and the version that a record tells of, each with its author and its counter.
const NAMES_PLACE: usize = 30;

/// Makes hostile bytes of frames. Many have the header of the record that is waited for, or a number that is low, so that
/// they come further than others. Some tell of the first version of another item, and some have format 1.
pub fn make_frame(
    samples: &[Vec<u8>],
    numbers: &mut Numbers,
    out: &mut Vec<u8>,
) -> Result<(), AllocError> {
    make(samples, numbers, out)?;
    let count = numbers_in(out);
    match numbers.below(4) {
        0 => put(
            out,
            NUMBER_PLACES[numbers.place_below(count)],
            &[low(numbers)],
        ),
        1 | 2 if count == NUMBER_PLACES.len() => put(out, HEADER_PLACE, &AWAITED),
        _ => {}
    }
    if numbers.is_once_in(4) {
        let (author, counter) = (low(numbers), low(numbers));
        put(
            out,
            NAMES_PLACE,
            &[0, author, 0, 0, 0, counter, 0, author, 0, 0, 0, counter],
        );
    }
    if numbers.is_once_in(8) {
        put(out, LENGTH_BYTES, &[1]);
    }
    Ok(())
}

/// How many numbers the header of a frame has.
fn numbers_in(bytes: &[u8]) -> usize
    ensures least { 1 ≤ result }
    ensures most { result ≤ 5 }
{
    match bytes.get(KIND_PLACE) {
        Some(&REQUEST) => 2,
        Some(&RECEIPT) => 1,
        _ => NUMBER_PLACES.len(),
    }
}

/// A low number.
fn low(numbers: &mut Numbers) -> u8 {
    numbers.below(7) as u8
}

/// Whether the frame at the front of the bytes is spelled as it was read, but for the number of its format.
pub fn is_spelled_alike(alloc: Global, bytes: &[u8]) -> Result<bool, WireFault> {
    let mut again = Vec::new(alloc);
    let used = add_first(alloc, bytes, &mut again)?;
    let read = bytes.get(..used).unwrap_or(&[]);
    let format = read.get(LENGTH_BYTES..KIND_PLACE).unwrap_or(&[]);
    put(&mut again, LENGTH_BYTES, format);
    Ok(again.as_slice() == read)
}

/// The frame at the front of the bytes.
pub fn read(alloc: Global, bytes: &[u8]) -> Result<Frame, WireFault> {
    first(decode(alloc, bytes))
}

/// The first of two that could be made.
fn first<A: Drop, B: Drop, E: Drop>(made: Result<(A, B), E>) -> Result<A, E> {
    let (first, _) = made?;
    Ok(first)
}

/// Puts the spelling of the frame at the front of the bytes behind others. Gives how many bytes that was read from.
pub fn add_first(alloc: Global, bytes: &[u8], out: &mut Vec<u8>) -> Result<usize, WireFault> {
    add_read(alloc, &decode(alloc, bytes), out)
}

/// Puts the spelling of a frame that could be read behind others. Gives how many bytes it was read from.
fn add_read(
    alloc: Global,
    read: &Result<(Frame, usize), WireFault>,
    out: &mut Vec<u8>,
) -> Result<usize, WireFault> {
    match read {
        Ok((frame, used)) => {
            add(alloc, frame, out)?;
            Ok(*used)
        }
        Err(fault) => Err(*fault),
    }
}

/// Puts the spelling of a frame behind others.
pub fn add(alloc: Global, frame: &Frame, out: &mut Vec<u8>) -> Result<(), WireFault> {
    let bytes = encode(alloc, frame)?;
    out.extend_from_slice(&bytes)?;
    Ok(())
}
