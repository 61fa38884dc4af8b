//! What the heads of an item come of, where they differ.
use mr_compare::{Head, MailItem, is_merge_due};
use mr_itemset::SparingKnowledge;
use mr_mail::Message;
use mr_maildir::View;
use mr_replica::{Event, Replica, Revision};
use mr_version::{Author, ItemId, Version};
use mr_wire::{Body, Frame};
use std::alloc::{AllocError, Global};
use std::collections::{BTreeMap, BTreeSet};

/// The heads of each item, by the digest of the mail's file.
pub(crate) type HeadsByItem = BTreeMap<MailItem, Vec<Head>>;

/// A version that the log tells, with its item and the place of its event in the log.
#[derive(Clone, Copy)]
struct ToldVersion {
    item: ItemId,
    version: Version,
    place: usize,
}

/// The versions of some items that the log tells, in its order: what this replica issued, and what it was told.
#[derive(Drop)]
struct ToldVersions {
    author: Author,
    issued: u32,
    items: BTreeMap<Version, ItemId>,
    told: Vec<ToldVersion>,
}

/// For each item whose heads have the mail stand differently, how it stood by their newest common ancestor: by the version that the log
/// told last of those that each head supersedes. Items that have none are left out.
///
/// Where no heads differ it costs a walk over the heads, else one over the log too.
pub(crate) fn ancestors_of(
    alloc: Global,
    replica: &Replica<SparingKnowledge>,
    heads: &HeadsByItem,
) -> Result<BTreeMap<ItemId, View>, AllocError> {
    let due = merges_due(alloc, heads)?;
    if due.is_empty() {
        return Ok(BTreeMap::new(alloc));
    }
    let told = told_of(alloc, replica, &due)?;
    ancestor_views(alloc, replica, heads, &due, &told)
}

/// The items whose heads differ.
fn merges_due(alloc: Global, heads: &HeadsByItem) -> Result<BTreeSet<ItemId>, AllocError> {
    let mut due = BTreeSet::new(alloc);
    for (mail, heads) in heads.iter() {
        if is_merge_due(heads) {
            due.insert(mail.1)?;
        }
    }
    Ok(due)
}

/// The views of the ancestors.
fn ancestor_views(
    alloc: Global,
    replica: &Replica<SparingKnowledge>,
    heads: &HeadsByItem,
    due: &BTreeSet<ItemId>,
    told: &[ToldVersion],
) -> Result<BTreeMap<ItemId, View>, AllocError> {
    let mut views = BTreeMap::new(alloc);
    for (mail, heads) in heads.iter() {
        let item = mail.1;
        if due.contains(&item) {
            if let Some(message) = newest_ancestor(replica, told, item, heads) {
                views.insert(item, View::of_place(alloc, message.place())?)?;
            }
        }
    }
    Ok(views)
}

/// The message of the version that the event tells, if it tells one.
pub(crate) fn message_told(event: &Event) -> Option<&Message> {
    match event {
        Event::Create(message) => Some(message),
        Event::Edit(_, message) => Some(message),
        Event::Receive(Frame::Record(record)) => match record.body() {
            Body::Item(revision) => Some(revision.message()),
            _ => None,
        },
        _ => None,
    }
}

/// The message of the version that was told last of those of the item that each head supersedes.
fn newest_ancestor<'a>(
    replica: &'a Replica<SparingKnowledge>,
    told: &[ToldVersion],
    item: ItemId,
    heads: &[Head],
) -> Option<&'a Message> {
    let mut newest = None;
    for one in told {
        if one.item == item && is_below_all(replica, heads, one.version) {
            newest = Some(one.place);
        }
    }
    message_told(replica.log().get(newest?)?)
}

/// Whether each head supersedes the version.
fn is_below_all(replica: &Replica<SparingKnowledge>, heads: &[Head], version: Version) -> bool {
    heads
        .iter()
        .all(|head| is_below(replica.held(head.version), version))
}

/// Whether the revision, if there is one, supersedes the version.
fn is_below(revision: Option<&Revision>, version: Version) -> bool {
    match revision {
        Some(revision) => revision.supersedes(version),
        None => false,
    }
}

/// The versions of these items that the log tells.
fn told_of(
    alloc: Global,
    replica: &Replica<SparingKnowledge>,
    due: &BTreeSet<ItemId>,
) -> Result<Vec<ToldVersion>, AllocError> {
    let mut versions = ToldVersions {
        author: replica.id(),
        issued: 0,
        items: BTreeMap::new(alloc),
        told: Vec::new(alloc),
    };
    for (place, event) in replica.log().iter().enumerate() {
        versions.take(place, event, due)?;
    }
    let ToldVersions { told, .. } = versions;
    Ok(told)
}

impl ToldVersions {
    /// Takes what the event at this place tells, if it is of one of these items.
    fn take(
        &mut self,
        place: usize,
        event: &Event,
        due: &BTreeSet<ItemId>,
    ) -> Result<(), AllocError> {
        if let Some((item, version)) = self.version_told(event) {
            if due.contains(&item) {
                self.items.insert(version, item)?;
                self.told.push(ToldVersion {
                    item,
                    version,
                    place,
                })?;
            }
        }
        Ok(())
    }

    /// The version that the event tells, and its item: of an edit only if the first version that it supersedes was taken.
    fn version_told(&mut self, event: &Event) -> Option<(ItemId, Version)> {
        match event {
            Event::Create(_) => {
                let version = self.issue()?;
                Some((ItemId::new(version), version))
            }
            Event::Edit(bases, _) => {
                let version = self.issue()?;
                let item = self.items.get(bases.as_slice().first()?)?;
                Some((*item, version))
            }
            Event::Receive(Frame::Record(record)) => match record.body() {
                Body::Item(revision) => Some((revision.item(), revision.version())),
                _ => None,
            },
            _ => None,
        }
    }

    /// The version that the replica issues next.
    fn issue(&mut self) -> Option<Version> {
        self.issued = self.issued.saturating_add(1);
        Version::try_new(self.author, self.issued).ok()
    }
}
