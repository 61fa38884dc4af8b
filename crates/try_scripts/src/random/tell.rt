//! Hostile frames are read one by one, and said before each is how long it is, so that a tool which counts the memory
//! that the program asks for can tell what each cost.
use crate::random::frames::make_frame;
use crate::random::numbers::Numbers;
use anyhow::Result;
use mr_frames::FrameReader;
use mr_wire::decode;
use std::alloc::Global;
use std::io;

/// Makes so many hostile frames, and reads each by `decode` and by a new `FrameReader`.
pub fn tell_all<R: Print + AllocGlobal>(
    rt: &R,
    samples: &[Vec<u8>],
    numbers: &mut Numbers,
    count: u64,
) -> Result<()> {
    let mut bytes = Vec::new(rt.alloc());
    for _ in 0..count {
        make_frame(samples, numbers, &mut bytes)?;
        tell(rt, &bytes)?;
    }
    Ok(println!(rt; "end 0")?)
}

/// Reads the bytes twice, and says so before.
fn tell<R: Print + AllocGlobal>(rt: &R, bytes: &[u8]) -> io::Result<()> {
    let len = bytes.len();
    println!(rt; "decode {len}")?;
    decode_once(rt.alloc(), bytes);
    println!(rt; "reader {len}")?;
    read_once(rt.alloc(), bytes);
    Ok(())
}

fn decode_once(alloc: Global, bytes: &[u8]) {
    drop(decode(alloc, bytes));
}

/// A reader is fed the bytes, and gives what it can.
fn read_once(alloc: Global, bytes: &[u8]) {
    let mut reader = FrameReader::new(alloc);
    if reader.feed(bytes).is_ok() {
        drop(reader.next_frame());
    }
}
