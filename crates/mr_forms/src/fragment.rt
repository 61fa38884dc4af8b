//! Fragments: a part of a knowledge, of some items or of all.
ghost use Rattle.std.specs.Prelude.{◌≡◌, ◌↔◌, IsTrue, IfOk};

use crate::VersionSet;
use mr_version::ItemId;
use std::alloc::AllocError;

/// The most items that a fragment lists.
pub const MAX_ITEMS: usize = 65_536;

/// Some items, or all that there are.
#[derive(Debug, Drop)]
pub enum ItemSet {
    /// All items, also those that nobody has created yet.
    All,
    /// These items.
    Listed(Vec<ItemId>),
}

impl ItemSet {
    ghost use Rattle.mr_forms.specs.inner.Plain.{IsOnly};
    ghost use Rattle.mr_forms.specs.Covered.{listed_items};

    /// The same items.
    pub fn copy(&self) -> Result<ItemSet, AllocError>
        ensures { IfOk result (λ items. listed_items items ≡ listed_items self.now) }
    {
        match self {
            ItemSet::All => Ok(ItemSet::All),
            ItemSet::Listed(items) => Ok(ItemSet::Listed(items.clone()?)),
        }
    }

    pub(crate) fn is_only(&self, item: ItemId) -> bool
        ensures { IsTrue result ↔ IsOnly item self.now }
    {
        match self {
            ItemSet::All => false,
            ItemSet::Listed(items) => items.len() == 1 && items[0] == item,
        }
    }
}

/// A part of a knowledge: each version of the vector, for each of the items.
#[derive(Debug, Drop)]
pub struct Fragment<V> {
    pub items: ItemSet,
    pub vector: V,
}

impl<V: VersionSet> Fragment<V> {
    ghost use Rattle.mr_forms.specs.Covered.{listed_items};

    /// An equal fragment: the same items, and an equal vector.
    pub fn copy(&self) -> Result<Fragment<V>, AllocError>
        ensures items { IfOk result (λ fragment. listed_items fragment.items ≡ listed_items self.now.items) }
        ensures vector { IfOk result (λ fragment. fragment.vector ≡ self.now.vector) }
    {
        let items = self.items.copy()?;
        let Ok(vector) = self.vector.copy() else {
            return Err(AllocError);
        };
        Ok(Fragment { items, vector })
    }
}
