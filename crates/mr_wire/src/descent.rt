//! A version of an item, with the versions that it supersedes.
ghost use Rattle.std.specs.Prelude.{◌≡◌, IfOk};
ghost use Rattle.mr_madewith.specs.Revision.{IsRevision};

use mr_concise::ConciseVector;
use mr_version::{ItemId, Version};
use std::alloc::AllocError;
use std::marker::Model;

/// A version of an item, with the versions that it supersedes, and without its message.
///
/// It never supersedes itself. The item's first version supersedes nothing; each other one supersedes
/// the item's first.
#[derive(Debug, Drop)]
pub struct Descent {
    item: ItemId,
    version: Version,
    below: ConciseVector,
}

impl Model for Descent {
    ghost use Rattle.mr_wire.specs.Values.{DescentParts, descent_code};
    ghost use Rattle.mr_madewith.specs.Revision.{IsRevision};

    ghost Value = { DescentParts };

    ghost coded = { descent_code };

    ghost view = { λ d. record { item = d.item; version = d.version; below = d.below } };

    ghost invariant = { λ d. IsRevision d.item d.version d.below };
}

impl Descent {
    /// The version of the item, with the versions that it supersedes. It costs no copy.
    pub fn new(item: ItemId, version: Version, below: ConciseVector) -> Descent
        requires { IsRevision item version below }
        ensures { result ≡ record { item = item; version = version; below = below } }
    {
        Descent {
            item,
            version,
            below,
        }
    }

    /// The item.
    pub fn item(&self) -> ItemId
        ensures { result ≡ self.now.item }
    {
        self.item
    }

    /// The version.
    pub fn version(&self) -> Version
        ensures { result ≡ self.now.version }
    {
        self.version
    }

    /// The versions that it supersedes.
    pub fn below(&self) -> &ConciseVector
        ensures is { result.now ≡ self.now.below }
        ensures kept { IsRevision self.now.item self.now.version self.now.below }
    {
        &self.below
    }

    /// An equal descent. It costs a copy of what the version supersedes.
    pub fn copy(&self) -> Result<Descent, AllocError>
        ensures { IfOk result (λ descent. descent ≡ self.now) }
    {
        let below = self.below.copy()?;
        Ok(Descent::new(self.item, self.version, below))
    }
}
