//! From an entry to bytes.
ghost use Rattle.std.specs.Prelude.{◌≡◌, ◌<◌, ◌^◌, ◌++◌, OnOk, length};
ghost use Rattle.std.specs.Int.{w16, w32, to_be_bytes};
ghost use Rattle.mr_entry.specs.declared.entry.Entry.TheVariants as entry;
ghost use Rattle.mr_entry.specs.Encoding.{Encodes};
ghost use Rattle.mr_entry.specs.Spelling.{note_bytes, part_bytes};

use crate::entry::Entry;
use crate::event::{LENGTH_BYTES, put_event, rest_len};
use crate::fault::EntryFault;
use crate::head::{FORMAT, Head};
use crate::note::Note;
use mr_replica::Event;
use mr_wire::parts::{put_u32, put_u64};
use std::alloc::{AllocError, Global};

/// The kind byte of a head.
const HEAD: u8 = 0;

/// The kind byte of an event.
const EVENT: u8 = 1;

/// The kind byte of a run of Nexts.
const NEXTS: u8 = 2;

/// The kind byte of a note.
const NOTE: u8 = 3;

/// The bytes of the kind and of a count of versions.
const ISSUED_BYTES: usize = 5;

fn put_u16(out: &mut Vec<u8>, n: u16) -> Result<(), AllocError>
    ensures { OnOk result (out.new.items ≡ out.old.items ++ to_be_bytes w16 n) }
{
    out.extend_from_slice(&n.to_be_bytes())
}

/// Writes bytes of which there are fewer than 2^32 behind their length.
fn put_counted(out: &mut Vec<u8>, bytes: &[u8]) -> Result<(), AllocError>
    requires { length bytes.now < 2 ^ 32 }
    ensures { OnOk result (out.new.items ≡ out.old.items ++ (to_be_bytes w32 (length bytes.now) ++ bytes.now)) }
{
    put_u32(out, bytes.len() as u32)?;
    out.extend_from_slice(bytes)
}

fn put_head(out: &mut Vec<u8>, head: &Head) -> Result<(), AllocError>
    requires { length head.now.filter < 2 ^ 32 }
    ensures { OnOk result (out.new.items ≡ out.old.items ++ part_bytes (entry.Head head.now)) }
{
    put_u16(out, FORMAT)?;
    put_u16(out, head.id().id())?;
    put_u32(out, head.event_limit())?;
    out.extend_from_slice(&head.birth())?;
    out.extend_from_slice(&head.mark())?;
    put_counted(out, head.filter().as_bytes())
}

fn put_note(out: &mut Vec<u8>, note: &Note) -> Result<(), AllocError>
    requires { length note.now.bytes < 2 ^ 32 }
    ensures { OnOk result (out.new.items ≡ out.old.items ++ note_bytes note.now) }
{
    out.push(note.kind())?;
    put_counted(out, note.bytes())
}

/// The bytes of a head. `TooLong` where the filter's text has 2^32 bytes or more, else `OutOfMemory`.
pub fn encode_head(alloc: Global, head: &Head) -> Result<Vec<u8>, EntryFault>
    ensures { Encodes (entry.Head head.now) result }
{
    // the parts of a head are in their ranges
    let _id = head.id();
    if head.filter().len() > u32::MAX as usize {
        return Err(EntryFault::TooLong);
    }
    let mut out = Vec::new(alloc);
    out.push(HEAD)?;
    put_head(&mut out, head)?;
    Ok(out)
}

/// The bytes of an event, once whose replica has issued so many versions. `TooLong` where more than 8,388,608 bytes would
/// follow the event's length, which is known before memory is asked for; else `OutOfMemory`. One piece of memory is taken,
/// of just the length.
pub fn encode_event_entry(alloc: Global, issued: u32, event: &Event) -> Result<Vec<u8>, EntryFault>
    ensures { Encodes (entry.Event issued event.now) result }
{
    let Some(rest) = rest_len(event) else {
        return Err(EntryFault::TooLong);
    };
    let mut out = Vec::with_capacity(alloc, ISSUED_BYTES + LENGTH_BYTES + rest as usize)?;
    out.push(EVENT)?;
    put_u32(&mut out, issued)?;
    put_event(&mut out, event, rest)?;
    Ok(out)
}

/// The bytes of a run of so many Nexts of a stream. `OutOfMemory` alone.
pub fn encode_nexts(alloc: Global, stream: u64, count: u32) -> Result<Vec<u8>, EntryFault>
    ensures { Encodes (entry.Nexts stream count) result }
{
    let mut out = Vec::new(alloc);
    out.push(NEXTS)?;
    put_u64(&mut out, stream)?;
    put_u32(&mut out, count)?;
    Ok(out)
}

/// The bytes of a note. `TooLong` where it has 2^32 bytes or more, else `OutOfMemory`.
pub fn encode_note(alloc: Global, note: &Note) -> Result<Vec<u8>, EntryFault>
    ensures { Encodes (entry.Note note.now) result }
{
    // a note's kind is in its range
    let _kind = note.kind();
    if note.bytes().len() > u32::MAX as usize {
        return Err(EntryFault::TooLong);
    }
    let mut out = Vec::new(alloc);
    out.push(NOTE)?;
    put_note(&mut out, note)?;
    Ok(out)
}

/// The bytes of an entry. `TooLong` where the filter's text of a head or the bytes of a note are 2^32 or more, or the event
/// has more bytes than one may have; else `OutOfMemory`. Each byte is copied once.
pub fn encode_entry(alloc: Global, entry: &Entry) -> Result<Vec<u8>, EntryFault>
    ensures { Encodes entry.now result }
{
    match entry {
        Entry::Head(head) => encode_head(alloc, head),
        Entry::Event(issued, event) => encode_event_entry(alloc, *issued, event),
        Entry::Nexts(stream, count) => encode_nexts(alloc, *stream, *count),
        Entry::Note(note) => encode_note(alloc, note),
    }
}
