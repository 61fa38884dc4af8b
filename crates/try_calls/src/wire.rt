//! `mr_wire`, `mr_frames` and `mr_replica`: a frame's memory, and copies of a reader and of a reply.
use mr_frames::FrameReader;
use mr_replica::Reply;
use mr_wire::{Frame, decode, encode, encode_record};
use std::alloc::Global;
use std::test::Fail;

/// A revision 0.1 of `ann` with the subject `Hi`, the body `there` and the label `a`.
pub const ITEM: [u8; 68] = [
    0, 0, 0, 64, 2, 2, 0, 0, 0, 0, 0, 0, 0, 0, 0, 1, 0, 1, 0, 0, 0, 0, 0, 0, 0, 1, 0, 0, 0, 1, 0,
    0, 0, 0, 0, 1, 0, 0, 0, 0, 0, 1, 0, 0, 0, 3, 97, 110, 110, 0, 2, 72, 105, 0, 0, 0, 5, 116, 104,
    101, 114, 101, 1, 1, 97, 1, 0, 7,
];

/// For how many bytes there is room once the frame was read and written again.
fn written_room(alloc: Global, bytes: &[u8]) -> Result<usize, Fail> {
    let (frame, _) = decode(alloc, bytes)?;
    Ok(encode(alloc, &frame)?.capacity())
}

/// The bytes of the frame that a copy of a reader gives, which was fed these.
fn read_by_copy(alloc: Global, bytes: &[u8]) -> Result<Vec<u8>, Fail> {
    let mut reader = FrameReader::new(alloc);
    reader.feed(bytes)?;
    let frame = reader.copy()?.next_frame()?.ok_or("no frame")?;
    Ok(encode(alloc, &frame)?)
}

/// The bytes of the record that a copy of a reply has, which gave the one that these spell.
fn given_by_copy(alloc: Global, bytes: &[u8]) -> Result<Vec<u8>, Fail> {
    let (Frame::Record(record), _) = decode(alloc, bytes)? else {
        return Err(Fail::new("no record"));
    };
    match Reply::Gave(record).copy()? {
        Reply::Gave(record) => Ok(encode_record(alloc, &record)?),
        _ => Err(Fail::new("another reply")),
    }
}

#[test]
fn ample_memory_reader(rt: HostRuntime) -> Result<(), Fail> {
    assert!(rt; read_by_copy(rt.alloc(), &ITEM)?.as_slice() == ITEM.as_slice());
    Ok(())
}

#[test]
fn ample_memory_reply(rt: HostRuntime) -> Result<(), Fail> {
    assert!(rt; given_by_copy(rt.alloc(), &ITEM)?.as_slice() == ITEM.as_slice());
    Ok(())
}

#[test]
fn memory_is_taken_for_just_the_frame(rt: HostRuntime) -> Result<(), Fail> {
    assert_eq!(rt; written_room(rt.alloc(), &ITEM)?, ITEM.len());
    Ok(())
}
