//! Two edits of one message, and how they become one.
use crate::device::Device;
use crate::fault::Fault;
use crate::mail::with_place;
use mr_lookup::newest_common_ancestors;
use mr_mail::Message;
use mr_maildir::merged_place;
use mr_replica::{Event, Revision};
use mr_version::{ItemId, Version};
use mr_wire::{Body, Frame};
use std::alloc::Global;

/// The heads of an item.
pub fn heads_of(alloc: Global, device: &Device, item: ItemId) -> Result<Vec<Revision>, Fault> {
    let mut heads = Vec::new(alloc);
    for head in device.heads() {
        if head.item() == item {
            heads.push(head.copy()?)?;
        }
    }
    Ok(heads)
}

/// Makes one version of all heads of an item: where they stand and their flags as all of them want it together, over the version
/// that all were made from, if the device was told that one. It gives the new version and those that it was made from.
///
/// `Merge` where they differ in more than that: then the user has to look at them.
pub fn merge(
    alloc: Global,
    device: &mut Device,
    item: ItemId,
) -> Result<(Version, Vec<Version>), Fault> {
    let heads = heads_of(alloc, device, item)?;
    let merged = merge_heads(alloc, device, &heads);
    drop(heads);
    merged
}

/// Makes one version of these heads.
fn merge_heads(
    alloc: Global,
    device: &mut Device,
    heads: &[Revision],
) -> Result<(Version, Vec<Version>), Fault> {
    let message = merged(alloc, device, heads)?;
    let version = device.edit(versions(alloc, heads)?, message)?;
    Ok((version, versions(alloc, heads)?))
}

/// The message that the heads are together.
fn merged(alloc: Global, device: &Device, heads: &[Revision]) -> Result<Message, Fault> {
    let told = told(alloc, device)?;
    let ancestors = newest_common_ancestors(alloc, &told, heads);
    drop(told);
    merged_over(alloc, &ancestors?, heads)
}

/// The message that the heads are together, over these newest common ancestors: at most one.
fn merged_over(
    alloc: Global,
    ancestors: &[Revision],
    heads: &[Revision],
) -> Result<Message, Fault> {
    let ancestor = ancestors.first().map(|ancestor| ancestor.message());
    let messages = messages(alloc, heads)?;
    let merged = merged_message(alloc, ancestor, &messages);
    drop(messages);
    merged
}

/// The message that these are together, over their ancestor.
fn merged_message(
    alloc: Global,
    ancestor: Option<&Message>,
    messages: &[Message],
) -> Result<Message, Fault> {
    if messages.is_empty() {
        return Err(Fault::NoHead);
    }
    let place = merged_place(alloc, ancestor, messages)?;
    with_place(alloc, &messages[0], place)
}

/// The revisions that the device was told, in the order of its log.
fn told(alloc: Global, device: &Device) -> Result<Vec<Revision>, Fault> {
    let mut told = Vec::new(alloc);
    for event in device.replica().log() {
        if let Event::Receive(Frame::Record(record)) = event {
            if let Body::Item(revision) = record.body() {
                told.push(revision.copy()?)?;
            }
        }
    }
    Ok(told)
}

/// The message of each.
fn messages(alloc: Global, revisions: &[Revision]) -> Result<Vec<Message>, Fault> {
    let mut messages = Vec::with_capacity(alloc, revisions.len())?;
    for revision in revisions {
        messages.push(revision.message().copy()?)?;
    }
    Ok(messages)
}

/// The version of each.
fn versions(alloc: Global, revisions: &[Revision]) -> Result<Vec<Version>, Fault> {
    let mut versions = Vec::with_capacity(alloc, revisions.len())?;
    for revision in revisions {
        versions.push(revision.version())?;
    }
    Ok(versions)
}
