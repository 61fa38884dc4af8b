//! From bytes to an entry.
ghost use Rattle.std.specs.Prelude.{◌≡◌, ◌≤◌, ◌++◌, ℕ, List, IfOk, Ok, length, take};
ghost use Rattle.mr_entry.specs.declared.entry.Entry.{Entry};
ghost use Rattle.mr_entry.specs.Decoding.{Answers, decoded, entry_read, event_read, head_read, nexts_read, note_read, parts_read};
ghost use Rattle.mr_entry.specs.Grammar.{Spells};
ghost use Rattle.mr_entry.specs.inner.Seen.{leaving};

use crate::entry::Entry;
use crate::event::event_in;
use crate::fault::{EntryFault, fault_of_event};
use crate::head::{FORMAT, Head};
use crate::note::Note;
use crate::reading::{counted_bytes, head_in, u16_in};
use mr_wire::parts::Input;
use std::alloc::Global;

/// A head.
fn head(alloc: Global, input: &mut Input<'_>) -> Result<Entry, EntryFault>
    ensures { Answers (head_read input.old) (leaving result input.new) }
{
    let Some(format) = u16_in(input) else {
        return Err(EntryFault::BadBody);
    };
    if format != FORMAT {
        return Err(EntryFault::OtherFormat(format));
    }
    let Some(read) = head_in(input) else {
        return Err(EntryFault::BadBody);
    };
    let filter = String::from_str(alloc, read.filter)?;
    let head = Head::new(read.id, read.event_limit, read.birth, read.mark, filter);
    Ok(Entry::Head(head))
}

/// An event behind a count of versions.
fn event(alloc: Global, input: &mut Input<'_>) -> Result<Entry, EntryFault>
    ensures { Answers (event_read input.old) (leaving result input.new) }
{
    let Some(issued) = input.u32() else {
        return Err(EntryFault::BadBody);
    };
    match event_in(alloc, input) {
        Ok((event, _)) => Ok(Entry::Event(issued, event)),
        Err(fault) => Err(fault_of_event(fault)),
    }
}

/// A run of Nexts.
fn nexts(input: &mut Input<'_>) -> Result<Entry, EntryFault>
    ensures { Answers (nexts_read input.old) (leaving result input.new) }
{
    let Some(stream) = input.u64() else {
        return Err(EntryFault::BadBody);
    };
    let Some(count) = input.u32() else {
        return Err(EntryFault::BadBody);
    };
    Ok(Entry::Nexts(stream, count))
}

/// A note.
fn note(alloc: Global, input: &mut Input<'_>) -> Result<Entry, EntryFault>
    ensures { Answers (note_read input.old) (leaving result input.new) }
{
    let Some(kind) = input.u8() else {
        return Err(EntryFault::BadBody);
    };
    let Some(bytes) = counted_bytes(input) else {
        return Err(EntryFault::BadBody);
    };
    Ok(Entry::Note(Note::new(kind, bytes.to_vec(alloc)?)))
}

/// What stands behind this kind byte.
fn parts(alloc: Global, input: &mut Input<'_>, kind: u8) -> Result<Entry, EntryFault>
    ensures { Answers (parts_read kind input.old) (leaving result input.new) }
{
    match kind {
        0 => head(alloc, input),
        1 => event(alloc, input),
        2 => nexts(input),
        3 => note(alloc, input),
        _ => Err(EntryFault::BadKind),
    }
}

/// The entry at the front, or the first fault.
fn entry_in(alloc: Global, input: &mut Input<'_>) -> Result<Entry, EntryFault>
    ensures { Answers (entry_read input.old) (leaving result input.new) }
{
    let Some(kind) = input.u8() else {
        return Err(EntryFault::Truncated);
    };
    parts(alloc, input, kind)
}

/// The entry at the front, and how many bytes it takes, or the first fault.
#[tactic(auto, using(crate::proofs::EntryLaws::fault_stays))]
fn first_entry(alloc: Global, bytes: &[u8]) -> Result<(Entry, usize), EntryFault>
    ensures { Answers (decoded bytes.now) result }
{
    let mut input = Input::new(bytes);
    let entry = entry_in(alloc, &mut input)?;
    Ok((entry, bytes.len() - input.len()))
}

/// The entry at the front of the bytes, and how many bytes it takes.
///
/// `Truncated` where there is no byte; `BadKind` for a kind byte over 3; of a head `OtherFormat` where the number of its
/// format is another than 1; `BadBody` where what stands behind the kind is none of an entry of that kind; of an event
/// `BadEvent` with the first fault of its bytes; and `OutOfMemory` last. The bytes are walked once, and what is kept of
/// them is copied.
pub fn decode_entry(alloc: Global, bytes: &[u8]) -> Result<(Entry, usize), EntryFault>
    ensures exact { Answers (decoded bytes.now) result }
    ensures spelled { IfOk result (λ found. Spells found.0 (take found.1 bytes.now)) }
    ensures within { IfOk result (λ found. found.1 ≤ length bytes.now) }
    ensures whole { (e : Entry) (text more : List ℕ) → Spells e text → bytes.now ≡ text ++ more → Answers (Ok (e, length text)) result }
{
    first_entry(alloc, bytes)
}
