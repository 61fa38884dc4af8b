//! From the heads of an item to the edit that makes one of them, by the policy of `mr_maildir`.
ghost use Rattle.std.specs.Prelude.{◌≡◌, ◌<◌, [], IfOk, map, length};
ghost use Rattle.std.specs.Option.{option_copied};
ghost use Rattle.mr_maildir.specs.Merging.{differ};
ghost use Rattle.mr_maildir.specs.Policy.{view_of};
ghost use Rattle.mr_mail.specs.Mail.{mail_with};
ghost use Rattle.mr_store.specs.Revisions.{version_of};
ghost use Rattle.mr_desk.specs.Fault.{Reads};
ghost use Rattle.mr_desk.specs.Merge.{IsEditOver, IsMergeIn, IsMergeOf, IsTogether, edit_fault_over, merge_fault, merge_fault_in, said_by, unmerged};
ghost use Rattle.mr_desk.specs.inner.Merge.{PlacesTogether};
ghost use Rattle.mr_desk.specs.Merge as specs;

use crate::ancestor::last_under;
use crate::call::VersionNumbers;
use crate::fault::Fault;
use mr_feed::Entry;
use mr_itemset::SparingKnowledge;
use mr_mail::{Card, Label, Message, Place};
use mr_maildir::{MergeFault, View, is_merge_due, merged_place};
use mr_replica::{Bases, Event, Replica, Revision};
use mr_version::{ItemId, Version};
use std::alloc::{AllocError, Global};

/// The heads of an item, in version order.
fn heads_of(alloc: Global, heads: &[Revision], item: ItemId) -> Result<Vec<Revision>, AllocError>
    ensures { IfOk result (λ own. own.items ≡ specs.heads_of item heads.now) }
{
    let mut own = Vec::new(alloc);
    for head in heads {
        if head.item() == item {
            own.push(head.copy()?)?;
        }
    }
    Ok(own)
}

/// The version of each.
fn versions_of(alloc: Global, heads: &[Revision]) -> Result<Vec<Version>, AllocError>
    ensures { IfOk result (λ versions. versions.items ≡ map version_of heads.now) }
{
    let mut versions = Vec::with_capacity(alloc, heads.len())?;
    for head in heads {
        versions.push(head.version())?;
    }
    Ok(versions)
}

/// The message of each.
fn messages_of(alloc: Global, heads: &[Revision]) -> Result<Vec<Message>, AllocError>
    ensures { IfOk result (λ messages. messages.items ≡ said_by heads.now) }
{
    let mut messages = Vec::with_capacity(alloc, heads.len())?;
    for head in heads {
        messages.push(head.message().copy()?)?;
    }
    Ok(messages)
}

/// Where each message stands.
fn views_of(alloc: Global, messages: &[Message]) -> Result<Vec<View>, AllocError>
    ensures { IfOk result (λ views. views.items ≡ map view_of messages.now) }
{
    let mut views = Vec::with_capacity(alloc, messages.len())?;
    for message in messages {
        views.push(View::of_place(alloc, message.place())?)?;
    }
    Ok(views)
}

/// Whether two of the messages differ in labels or flags.
fn do_differ(alloc: Global, messages: &[Message]) -> Result<bool, AllocError>
    ensures { IfOk result (λ due. due ≡ differ (map view_of messages.now)) }
{
    Ok(is_merge_due(&views_of(alloc, messages)?))
}

/// The place that a card tells.
fn place_of(alloc: Global, card: &Card) -> Result<Place, AllocError>
    ensures { IfOk result (λ place. place ≡ card.now) }
{
    Ok(Place::new(
        Label::copy_all(alloc, card.labels())?,
        card.flags(),
        card.day(),
    ))
}

/// A message of this card, without texts.
fn bare_message(alloc: Global, card: &Card) -> Result<Message, AllocError>
    ensures { IfOk result (λ message. message ≡ mail_with [] [] [] card.now) }
{
    let place = place_of(alloc, card)?;
    match Message::try_of_place(alloc, "", "", b"", place) {
        Ok(message) => Ok(message),
        Err(_) => Err(AllocError),
    }
}

/// The place that the messages have together, over the card of what they came of.
fn place_over(alloc: Global, card: Option<&Card>, messages: &[Message]) -> Result<Place, MergeFault>
    requires { 0 < length messages.now }
    ensures { PlacesTogether (option_copied card.entry) messages.now result }
{
    match card {
        Some(card) => {
            let ancestor = bare_message(alloc, card)?;
            merged_place(alloc, Some(&ancestor), messages)
        }
        None => merged_place(alloc, None, messages),
    }
}

/// The message with the place in the stead of its own.
fn placed(alloc: Global, message: &Message, place: Place) -> Result<Message, AllocError>
    ensures { IfOk result (λ placed. placed ≡ mail_with message.now.from message.now.subject message.now.body place) }
{
    let (from, subject, body) = (message.from(), message.subject(), message.body());
    // The texts are a message's, so that only memory may be wanting.
    match Message::try_of_place(alloc, from, subject, body, place) {
        Ok(placed) => Ok(placed),
        Err(_) => Err(AllocError),
    }
}

/// The message that these are together, over the card of what they came of.
///
/// `Merge` where they differ in more than labels and flags, or have more than 16 labels together; then `NoConflict` where they don't
/// differ. Memory may run out before that is known.
fn together(alloc: Global, card: Option<&Card>, messages: &[Message]) -> Result<Message, Fault>
    ensures { Reads (Unit {0}) (unmerged (option_copied card.entry) messages.now) (IsTogether (option_copied card.entry) messages.now) result }
{
    let Some(first) = messages.first() else {
        return Err(Fault::NoConflict);
    };
    let place = place_over(alloc, card, messages)?;
    if !do_differ(alloc, messages)? {
        return Err(Fault::NoConflict);
    }
    Ok(placed(alloc, first, place)?)
}

/// The edit that makes one of these heads, over the last version that came and that each of them supersedes. The faults are those of
/// [`together`].
fn edit_over(alloc: Global, heads: &[Revision], feed: &[Entry]) -> Result<Event, Fault>
    ensures { Reads (Unit {0}) (edit_fault_over heads.now feed.now) (IsEditOver heads.now feed.now) result }
{
    let messages = messages_of(alloc, heads)?;
    let message = together(alloc, last_under(heads, feed), &messages)?;
    let versions = versions_of(alloc, heads)?;
    Ok(Event::Edit(Bases::new(versions), message))
}

/// The edit that merges the heads of an item, over the last version that came and that each of them supersedes.
///
/// `Merge` where they differ in more than labels and flags, or have more than 16 labels together; then `NoConflict` where they say the
/// same, as where there is one or none. Memory may run out before that is known. It costs a walk over the heads and the feed.
fn merge_of(alloc: Global, heads: &[Revision], feed: &[Entry], item: ItemId) -> Result<Event, Fault>
    ensures { Reads (Unit {0}) (merge_fault heads.now feed.now item) (IsMergeOf heads.now feed.now item) result }
{
    let own = heads_of(alloc, heads, item)?;
    edit_over(alloc, &own, feed)
}

/// The edit that merges the heads of the item with these numbers: `Version` where they are none, and then as [`merge_of`].
pub(crate) fn merge_in(
    alloc: Global,
    replica: &Replica<SparingKnowledge>,
    item: VersionNumbers,
) -> Result<Event, Fault>
    ensures { Reads (Unit {0}) (merge_fault_in replica.now item) (IsMergeIn replica.now item) result }
{
    let item = ItemId::new(item.version()?);
    merge_of(alloc, replica.heads(), replica.feed(), item)
}
