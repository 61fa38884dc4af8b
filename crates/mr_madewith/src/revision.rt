//! Revisions: versions of items, with what they supersede.
ghost use Rattle.std.specs.Prelude.{◌≡◌, IfOk};
ghost use Rattle.mr_madewith.specs.Revision.{IsRevision, has_below, by_base};

use mr_concise::{ConciseVector, Source};
use mr_forms::VersionSet;
use mr_mail::Message;
use mr_version::{Author, ItemId, Version};
use std::alloc::{AllocError, Global};
use std::marker::Model;
use std::sync::Arc;

/// The parts of a revision, once for all of its owners.
#[derive(Debug, Drop)]
struct Parts {
    item: ItemId,
    version: Version,
    below: ConciseVector,
    message: Message,
}

impl Model for Parts {
    ghost use Rattle.mr_madewith.specs.Revision.{Rev, rev_code, IsRevision};

    ghost Value = { Rev };

    ghost coded = { rev_code };

    ghost view = { λ p. record { item = p.item; version = p.version; below = p.below; message = p.message } };

    ghost invariant = { λ p. IsRevision p.item p.version p.below };
}

/// A version of an item, with its made-with set, which it supersedes, and its message.
///
/// It never supersedes itself. The item's first version supersedes nothing; each other one supersedes
/// the item's first.
///
/// A revision never changes, and is one shared handle of eight bytes: `copy` makes one more owner, and
/// the memory is given back with the last of them.
#[derive(Debug, Drop)]
pub struct Revision {
    parts: Arc<Parts, Global>,
}

impl Model for Revision {
    ghost use Rattle.std.specs.Arc.{arc_value};
    ghost use Rattle.mr_madewith.specs.Revision.{Rev, rev_code, IsRevision};

    ghost Value = { Rev };

    ghost coded = { rev_code };

    ghost view = { λ r. arc_value r.parts };

    ghost invariant = { λ r. IsRevision (arc_value r.parts).item (arc_value r.parts).version (arc_value r.parts).below };
}

impl Revision {
    /// The revision with these parts, which are moved into memory that its owners share.
    pub fn new(
        alloc: Global,
        item: ItemId,
        version: Version,
        below: ConciseVector,
        message: Message,
    ) -> Result<Revision, AllocError>
        requires { IsRevision item version below }
        ensures { IfOk result (λ revision. revision ≡ record { item = item; version = version; below = below; message = message }) }
    {
        let parts = Parts {
            item,
            version,
            below,
            message,
        };
        Ok(Revision {
            parts: Arc::new(alloc, parts)?,
        })
    }

    /// The item that it is a version of.
    pub fn item(&self) -> ItemId
        ensures { result ≡ self.now.item }
    {
        self.parts.item
    }

    /// Its version.
    pub fn version(&self) -> Version
        ensures { result ≡ self.now.version }
    {
        self.parts.version
    }

    /// Its version, lent: a slice of one version can be made of it.
    pub fn version_ref(&self) -> &Version
        ensures { result.now ≡ self.now.version }
    {
        &self.parts.version
    }

    /// Its made-with set: the versions that it supersedes.
    pub fn below(&self) -> &ConciseVector
        ensures is { result.now ≡ self.now.below }
        ensures kept { IsRevision self.now.item self.now.version self.now.below }
    {
        &self.parts.below
    }

    /// Whether the version is in its made-with set. It costs two binary searches.
    ///
    /// The set also has versions of other items, since its author's column is filled: before a held
    /// revision is dropped for being superseded, ask whether it is of the same item too.
    pub fn supersedes(&self, version: Version) -> bool
        ensures { result ≡ has_below self.now version }
    {
        self.parts.below.contains(version)
    }

    /// Its message.
    pub fn message(&self) -> &Message
        ensures { result.now ≡ self.now.message }
    {
        &self.parts.message
    }

    /// An equal revision, which shares the parts: it costs the same for every revision.
    pub fn copy(&self) -> Result<Revision, AllocError>
        ensures { IfOk result (λ revision. revision ≡ self.now) }
    {
        Ok(Revision {
            parts: Arc::try_clone(&self.parts)?,
        })
    }
}

/// The version, with all that it supersedes.
impl Source for Revision {
    ghost has = { by_base };

    fn next_author(&self, id: u16) -> Option<Author> {
        (self.version(), self.below()).next_author(id)
    }

    fn next_out(&self, author: Author, from: u32) -> u32 {
        (self.version(), self.below()).next_out(author, from)
    }

    fn next_in(&self, author: Author, from: u32) -> Option<u32> {
        (self.version(), self.below()).next_in(author, from)
    }
}
