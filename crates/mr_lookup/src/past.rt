//! The past of an item, as a log tells it.
ghost use Rattle.std.specs.Prelude.{◌≡◌, ◌&&◌, not, IfOk, OnOk};
ghost use Rattle.mr_lookup.specs.History.{IsHistory, is_told};
ghost use Rattle.mr_lookup.specs.inner.History.{is_edit_of, is_in, is_of_item, told_more};

use crate::told::issued_then;
use crate::versions::{ToldVersion, told_version};
use mr_forms::Knowledge;
use mr_replica::{Bases, Event, Replica};
use mr_version::{Author, ItemId, Version};
use mr_wire::{Body, Frame};
use std::alloc::{AllocError, Global};

/// The versions of the item that the replica's log tells with their messages, oldest first: each once, where it is told
/// first. A Create makes an item of its own version, an Edit's version is of the item of its first base, and an Item that was
/// received names its item.
///
/// It costs a walk over the log, with a look through the versions that were found for each Edit and for each other
/// version of the item.
pub fn history<'a, K: Knowledge>(
    alloc: Global,
    replica: &'a Replica<K>,
    item: ItemId,
) -> Result<Vec<ToldVersion<'a>>, AllocError>
    ensures means { IfOk result (λ past. IsHistory replica.now.id item replica.now.log past.items) }
{
    history_in(alloc, replica.id(), replica.log(), item)
}

/// The versions of the item that the log tells, which is the log of a replica of this id.
fn history_in(
    alloc: Global,
    id: Author,
    log: &[Event],
    item: ItemId,
) -> Result<Vec<ToldVersion<'_>>, AllocError>
    ensures { IfOk result (λ past. IsHistory id item log.now past.items) }
{
    let mut past = Vec::new(alloc);
    let mut issued: usize = 0;
    for event in log {
        note_version(&mut past, item, event, told_version(id, issued, event))?;
        issued = issued_then(issued, event);
    }
    Ok(past)
}

/// Puts the version that the event tells behind those of the item, if it is one and is not among them.
fn note_version<'a>(
    past: &mut Vec<ToldVersion<'a>>,
    item: ItemId,
    event: &Event,
    more: Option<ToldVersion<'a>>,
) -> Result<(), AllocError>
    ensures { OnOk result (past.new.items ≡ told_more item past.old.items event.now more.entry) }
{
    match more {
        Some(told) if is_new(past, item, told.version(), event) => Ok(past.push(told)?),
        _ => Ok(()),
    }
}

/// Whether the version that the event tells is one of the item, and not among these.
fn is_new(past: &[ToldVersion], item: ItemId, version: Version, event: &Event) -> bool
    ensures { result ≡ (is_of_item item past.now version event.now && not (is_told past.now version)) }
{
    is_of_item(past, item, version, event) && !is_told(past, version)
}

/// Whether the version that the event tells is one of the item, of which these are told before.
fn is_of_item(past: &[ToldVersion], item: ItemId, version: Version, event: &Event) -> bool
    ensures { result ≡ is_of_item item past.now version event.now }
{
    match event {
        Event::Create(_) => ItemId::new(version) == item,
        Event::Edit(bases, _) => is_edit_of(past, bases),
        Event::Receive(Frame::Record(record)) => is_in(item, record.body()),
        _ => false,
    }
}

/// Whether an edit with these bases is of the item that these are versions of.
fn is_edit_of(past: &[ToldVersion], bases: &Bases) -> bool
    ensures { result ≡ is_edit_of past.now bases.now }
{
    match bases.as_slice() {
        [base, ..] => is_told(past, *base),
        [] => false,
    }
}

/// Whether the body tells of the item.
fn is_in(item: ItemId, body: &Body) -> bool
    ensures { result ≡ is_in item body.now }
{
    match body {
        Body::Item(revision) => revision.item() == item,
        _ => false,
    }
}

/// Whether the version is among these.
fn is_told(past: &[ToldVersion], version: Version) -> bool
    ensures { result ≡ is_told past.now version }
{
    past.iter().any(|told| told.version() == version)
}
