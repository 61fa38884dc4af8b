//! Entries of a feed.
ghost use Rattle.std.specs.Prelude.{◌≡◌, IfOk};

use mr_mail::Card;
use mr_version::{ItemId, Version};
use std::alloc::AllocError;

/// One change of a replica's store.
#[derive(Debug, Drop)]
pub enum Entry {
    /// The version entered the store. Its card tells where the message belongs.
    Added {
        item: ItemId,
        version: Version,
        card: Card,
    },
    /// The version left the store.
    Dropped {
        item: ItemId,
        version: Version,
    },
}

impl Entry {
    ghost use Rattle.mr_feed.specs.Entry.{entry_item, entry_version};

    /// The item of the version.
    pub fn item(&self) -> ItemId
        ensures { result ≡ entry_item self.now }
    {
        match self {
            Entry::Added { item, .. } => *item,
            Entry::Dropped { item, .. } => *item,
        }
    }

    /// The version that entered or left.
    pub fn version(&self) -> Version
        ensures { result ≡ entry_version self.now }
    {
        match self {
            Entry::Added { version, .. } => *version,
            Entry::Dropped { version, .. } => *version,
        }
    }

    /// An equal entry. Its card shares the message's parts, so that it asks for no memory.
    pub fn copy(&self) -> Result<Entry, AllocError>
        ensures { IfOk result (λ entry. entry ≡ self.now) }
    {
        match self {
            Entry::Added {
                item,
                version,
                card,
            } => Ok(Entry::Added {
                item: *item,
                version: *version,
                card: card.copy()?,
            }),
            &Entry::Dropped { item, version } => Ok(Entry::Dropped { item, version }),
        }
    }
}
