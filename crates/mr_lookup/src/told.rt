//! What a log tells first of items.
ghost use Rattle.std.specs.Prelude.{◌≡◌, ◌+◌, ◌<◌, ◌^◌, ◌&&◌, not, is_some, ◌∷◌, [], IfNone, IfOk, IfSome, OnOk};
ghost use Rattle.mr_version.specs.Name.{IsVersion};
ghost use Rattle.mr_lookup.specs.Told.{HasFirstTold, is_among, issued_with, message_at, own_name, told_by, told_in};
ghost use Rattle.mr_lookup.specs.inner.Told.{Notes, NotesOfItems};

use mr_forms::Knowledge;
use mr_mail::Message;
use mr_replica::{Event, Replica};
use mr_version::{Author, ItemId, Version};
use mr_wire::{Body, Frame};
use std::alloc::{AllocError, Global};
use std::collections::{BTreeMap, BTreeSet};

/// Of each of these items that the replica's log tells of, the first message that it tells: that of the Create that made the
/// item here, or of the first Item that was received of it.
///
/// It costs one walk over the log, with a look-up for each such event, and a copy of each message that is found.
pub fn told_messages<K: Knowledge>(
    alloc: Global,
    replica: &Replica<K>,
    items: &BTreeSet<ItemId>,
) -> Result<BTreeMap<ItemId, Message>, AllocError>
    ensures { IfOk result (λ told. HasFirstTold replica.now.id replica.now.log (is_among items.now.keys) told.entries) }
{
    told_in_log(alloc, replica.id(), replica.log(), items)
}

/// Of each of these items the first message that the events of the log tell, which is that of a replica of this id.
fn told_in_log(
    alloc: Global,
    id: Author,
    log: &[Event],
    items: &BTreeSet<ItemId>,
) -> Result<BTreeMap<ItemId, Message>, AllocError>
    ensures { IfOk result (λ told. HasFirstTold id log.now (is_among items.now.keys) told.entries) }
{
    let mut told = BTreeMap::new(alloc);
    let mut issued: usize = 0;
    for event in log {
        note_event(&mut told, items, id, issued, event)?;
        issued = issued_then(issued, event);
    }
    Ok(told)
}

/// How many versions were issued after the event, where so many were before.
pub(crate) fn issued_then(issued: usize, event: &Event) -> usize
    requires { issued + 1 < 2 ^ 64 }
    ensures { result ≡ issued_with issued event.now }
{
    match event {
        Event::Create(_) | Event::Edit(_, _) => issued + 1,
        _ => issued,
    }
}

/// Notes what the event tells of an item, if that is one of these of which nothing is told yet.
fn note_event(
    told: &mut BTreeMap<ItemId, Message>,
    items: &BTreeSet<ItemId>,
    id: Author,
    issued: usize,
    event: &Event,
) -> Result<(), AllocError>
    requires { issued + 1 < 2 ^ 64 }
    ensures { OnOk result (NotesOfItems (told_by id issued event.now) (is_among items.now.keys) told.old.entries told.new.entries) }
{
    match event {
        Event::Create(message) => note_created(told, items, id, issued + 1, message),
        Event::Receive(Frame::Record(record)) => note_body(told, items, record.body()),
        _ => Ok(()),
    }
}

/// The item of the version of this counter; none where there is no such version.
fn own_item(id: Author, counter: usize) -> Option<ItemId>
    ensures is { IfSome result (λ item. item ≡ own_name id counter) }
    ensures no { IfNone result (¬ IsVersion id counter) }
{
    let counter = u32::try_from(counter).ok()?;
    let version = Version::try_new(id, counter).ok()?;
    Some(ItemId::new(version))
}

/// Notes the message of the item that was made here by the version of this counter, as [`note_first`]. There may be no such version.
fn note_created(
    told: &mut BTreeMap<ItemId, Message>,
    items: &BTreeSet<ItemId>,
    id: Author,
    counter: usize,
    message: &Message,
) -> Result<(), AllocError>
    ensures { OnOk result (NotesOfItems ((own_name id counter, message.now) ∷ []) (is_among items.now.keys) told.old.entries told.new.entries) }
{
    match own_item(id, counter) {
        Some(item) => {
            note_first(told, items, item, message)?;
            Ok(())
        }
        None => Ok(()),
    }
}

/// Notes what the body tells of an item, as [`note_first`].
fn note_body(
    told: &mut BTreeMap<ItemId, Message>,
    items: &BTreeSet<ItemId>,
    body: &Body,
) -> Result<(), AllocError>
    ensures { OnOk result (Notes (told_in body.now) (is_among items.now.keys) told.old.entries told.new.entries) }
{
    match body {
        Body::Item(revision) => note_first(told, items, revision.item(), revision.message()),
        _ => Ok(()),
    }
}

/// Notes the message of the item, if that is one of these and has none yet.
fn note_first(
    told: &mut BTreeMap<ItemId, Message>,
    items: &BTreeSet<ItemId>,
    item: ItemId,
    message: &Message,
) -> Result<(), AllocError>
    ensures { OnOk result (Notes ((item, message.now) ∷ []) (is_among items.now.keys) told.old.entries told.new.entries) }
{
    if is_wanted(told, items, item) {
        told.insert(item, message.copy()?)?;
    }
    Ok(())
}

/// Whether the item is one of these, and nothing is told of it yet.
fn is_wanted(told: &BTreeMap<ItemId, Message>, items: &BTreeSet<ItemId>, item: ItemId) -> bool
    ensures { result ≡ (is_among items.now.keys item && not (is_some (message_at told.now.entries item))) }
{
    items.contains(&item) && !told.contains_key(&item)
}
