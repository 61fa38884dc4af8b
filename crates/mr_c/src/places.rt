//! What is held, what changed, and what is open, by place.
ghost use Rattle.std.specs.Prelude.{◌≡◌, Ok, length};
ghost use Rattle.mr_c.specs.Given.{IsGiven, at_place, read_in};
ghost use Rattle.mr_c.specs.Shown.{bit, shown_held, shown_change, head_at, push_out_at, change_at, counts_of, retired};

use crate::failure::Failure;
use crate::given::{at_place, give, replica_of};
use crate::handle::{Handle, read};
use mr_desk::{Device, VersionNumbers};
use mr_feed::Entry;
use mr_replica::Revision;
use std::alloc::Global;

/// A version, and the item that it is a version of.
#[repr(C)]
#[derive(Clone, Copy)]
pub struct Held {
    item: VersionNumbers,
    version: VersionNumbers,
}

/// A version that entered, 1, or left, 0.
#[repr(C)]
#[derive(Clone, Copy)]
pub struct Change {
    entered: u32,
    item: VersionNumbers,
    version: VersionNumbers,
}

/// How much there is.
#[repr(C)]
#[derive(Clone, Copy)]
pub struct Counts {
    heads: usize,
    push_outs: usize,
    changes: usize,
    events: usize,
}

fn held_at(revisions: &[Revision], place: usize) -> Result<Held, Failure>
    ensures { result ≡ at_place shown_held revisions.now place }
{
    let revision = at_place(revisions, place)?;
    Ok(Held {
        item: VersionNumbers::of(revision.item().creator()),
        version: VersionNumbers::of(revision.version()),
    })
}

fn change_of(entry: &Entry) -> Change
    ensures { result ≡ shown_change entry.now }
{
    let entered = match entry {
        Entry::Added { .. } => 1,
        Entry::Dropped { .. } => 0,
    };
    Change {
        entered,
        item: VersionNumbers::of(entry.item().creator()),
        version: VersionNumbers::of(entry.version()),
    }
}

fn head_in(device: &Device, place: usize) -> Result<Held, Failure>
    ensures { result ≡ read_in (λ s. at_place shown_held s.heads place) device.now }
{
    held_at(replica_of(device)?.heads(), place)
}

fn push_out_in(device: &Device, place: usize) -> Result<Held, Failure>
    ensures { result ≡ read_in (λ s. at_place shown_held s.push_outs place) device.now }
{
    held_at(replica_of(device)?.push_outs(), place)
}

fn change_in(device: &Device, place: usize) -> Result<Change, Failure>
    ensures { result ≡ read_in (λ s. at_place shown_change s.feed place) device.now }
{
    Ok(change_of(at_place(replica_of(device)?.feed(), place)?))
}

fn counts_in(device: &Device) -> Result<Counts, Failure>
    ensures { result ≡ read_in (λ s. Ok (record { heads = length s.heads; push_outs = length s.push_outs; changes = length s.feed; events = length s.log })) device.now }
{
    let replica = replica_of(device)?;
    Ok(Counts {
        heads: replica.heads().len(),
        push_outs: replica.push_outs().len(),
        changes: replica.feed().len(),
        events: replica.log().len(),
    })
}

fn retired_in(device: &Device) -> Result<u32, Failure>
    ensures { result ≡ read_in (λ s. Ok (bit s.is_retired)) device.now }
{
    Ok(u32::from(replica_of(device)?.is_retired()))
}

/// How many heads, push-outs, changes and events there are, in constant time. After `Closed`, `Unsettled` or `Failed` of a kept device;
/// so too for those below.
#[unsafe(no_mangle)]
pub extern "C" fn mr_counts(alloc: Global, handle: &mut Handle, counts: &mut Counts) -> i32
    ensures unchanged { handle.new.device ≡ handle.old.device }
    ensures given { IsGiven (counts_of handle.old.device) counts.old counts.new result }
{
    let found = read!(alloc, handle, |device| counts_in(&device));
    give(found, counts)
}

/// A head, by its place in version order, in constant time. After `Closed`, `NotThere` past the last.
#[unsafe(no_mangle)]
pub extern "C" fn mr_head(alloc: Global, handle: &mut Handle, place: usize, head: &mut Held) -> i32
    ensures unchanged { handle.new.device ≡ handle.old.device }
    ensures given { IsGiven (head_at handle.old.device place) head.old head.new result }
{
    let found = read!(alloc, handle, |device| head_in(&device, place));
    give(found, head)
}

/// A push-out, by its place in version order, in constant time. After `Closed`, `NotThere` past the last.
#[unsafe(no_mangle)]
pub extern "C" fn mr_push_out(
    alloc: Global,
    handle: &mut Handle,
    place: usize,
    push_out: &mut Held,
) -> i32
    ensures unchanged { handle.new.device ≡ handle.old.device }
    ensures given { IsGiven (push_out_at handle.old.device place) push_out.old push_out.new result }
{
    let found = read!(alloc, handle, |device| push_out_in(&device, place));
    give(found, push_out)
}

/// A change of the heads, by its place in order of time, in constant time. After `Closed`, `NotThere` past the last.
#[unsafe(no_mangle)]
pub extern "C" fn mr_change(
    alloc: Global,
    handle: &mut Handle,
    place: usize,
    change: &mut Change,
) -> i32
    ensures unchanged { handle.new.device ≡ handle.old.device }
    ensures given { IsGiven (change_at handle.old.device place) change.old change.new result }
{
    let found = read!(alloc, handle, |device| change_in(&device, place));
    give(found, change)
}

/// Whether it has retired: 1 or 0.
#[unsafe(no_mangle)]
pub extern "C" fn mr_is_retired(alloc: Global, handle: &mut Handle, is_retired: &mut u32) -> i32
    ensures unchanged { handle.new.device ≡ handle.old.device }
    ensures given { IsGiven (retired handle.old.device) is_retired.old is_retired.new result }
{
    let found = read!(alloc, handle, |device| retired_in(&device));
    give(found, is_retired)
}
