//! New mail, told from mail that changed.
use crate::fault::Fault;
use mr_feed::Entry;
use mr_version::ItemId;
use std::alloc::Global;
use std::collections::BTreeSet;

/// What rings for new mail, once for each message.
///
/// A feed never adds a version twice, but an edit is a new version: its entries are a Dropped of the old one and an
/// Added of the new one. So who rang for each Added would ring for each edit. All versions of a message are of one
/// item, and a message is new where its item was never added before. A later Added of the item is an edit, the other
/// side of a conflict, or a message that the filter selects again.
#[derive(Drop)]
pub struct Bell {
    added: BTreeSet<ItemId>,
}

impl Bell {
    /// A bell that has heard of nothing.
    pub fn new(alloc: Global) -> Bell {
        Bell {
            added: BTreeSet::new(alloc),
        }
    }

    /// Whether to ring for the entry. `OutOfMemory` where the item can't be noted.
    pub fn rings_for(&mut self, entry: &Entry) -> Result<bool, Fault> {
        match entry {
            Entry::Added { item, .. } => Ok(self.added.insert(*item)?),
            Entry::Dropped { .. } => Ok(false),
        }
    }
}
