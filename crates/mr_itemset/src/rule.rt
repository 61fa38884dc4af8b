//! Which versions a sparing knowledge learns for all items.
ghost use Rattle.std.specs.Prelude.{◌≡◌, ◌↔◌, ◌≢◌, false, nat_lt, length, OnOk, OnErr, IsErrOf, Err};
ghost use Rattle.mr_forms.specs.Known.{AreSame, IsOverHolesInTurn, IsOverItemsInTurn, with_learned, with_learned_below};
ghost use Rattle.mr_concise.specs.Vector.{column_of, vector_has};
ghost use Rattle.mr_itemset.specs.Normal.{normal_known};
ghost use Rattle.mr_itemset.specs.ItemForm.{items_form};
ghost use Rattle.mr_itemset.specs.Sparing.{holes_for_all, goes_to_all, comes_next};

use crate::knowledge::ItemsUpTo;
use mr_concise::{Source, both_have_fewer_holes};
use mr_forms::{FormFault, VersionSet};
use mr_version::{Author, ItemId, Version};

/// How many holes an author's column for all items has before a version makes no more of them.
pub const SPARED_HOLES: usize = 16;

/// Whether the one version comes right behind the other.
pub(crate) fn comes_next(before: Version, version: Version) -> bool
    ensures { result ≡ comes_next before version }
{
    if before.author() != version.author() {
        return false;
    }
    before.counter() + 1 == version.counter()
}

impl<const LIMIT: usize> ItemsUpTo<LIMIT> {
    /// Whether the version is known for all items. It costs two searches.
    pub fn all_know(&self, version: Version) -> bool
        ensures { result ≡ vector_has self.now.all version }
    {
        let parts = self.parts();
        let waits = parts.pending.contains(version);
        let settled = parts.settled.for_all().contains(version);
        waits || settled
    }

    /// Whether the author's column for all items has fewer than [`SPARED_HOLES`] holes. It allocates nothing,
    /// and walks no further along the column than to the last of so many.
    pub fn has_holes_to_spare(&self, author: Author) -> bool
        ensures spare { result ≡ nat_lt (holes_for_all self.now author) SPARED_HOLES }
        ensures column { result ≡ nat_lt (length (column_of self.now.all author).holes) SPARED_HOLES }
    {
        let parts = self.parts();
        both_have_fewer_holes(parts.pending, parts.settled.for_all(), author, SPARED_HOLES)
    }

    /// Whether a sparing knowledge learns the version for all items: it is its author's first, or all
    /// items have the one before it, or its author's column for all items has holes to spare.
    pub fn goes_to_all(&self, version: Version) -> bool
        ensures { result ≡ goes_to_all self.now version }
    {
        let counter = version.counter();
        if counter == 1 {
            return true;
        }
        let Ok(before) = Version::try_new(version.author(), counter - 1) else {
            unreachable!()
        };
        if self.all_know(before) {
            return true;
        }
        self.has_holes_to_spare(version.author())
    }

    /// The fault that `learn_alone_with` would answer where memory is there. It allocates nothing.
    pub(crate) fn may_learn_alone_with<S: Source>(
        &self,
        item: ItemId,
        version: Version,
        below: &S,
    ) -> Result<(), FormFault>
        ensures holes { IsErrOf result FormFault.TooManyHoles ↔ IsOverHolesInTurn (items_form LIMIT) (with_learned false (normal_known self.now) item version) (with_learned_below false (normal_known self.now) item version (S.has below.now)) }
        ensures items { IsErrOf result FormFault.TooManyItems ↔ IsOverItemsInTurn (items_form LIMIT) (with_learned false (normal_known self.now) item version) (with_learned_below false (normal_known self.now) item version (S.has below.now)) }
        ensures memory { result ≢ Err FormFault.OutOfMemory }
    {
        self.may_learn_below(item, &version)?;
        self.may_learn_below(item, &(below, version))
    }

    /// Adds the version and the set for the item.
    pub(crate) fn learn_alone_with<S: Source>(
        &mut self,
        item: ItemId,
        version: Version,
        below: &S,
    ) -> Result<(), FormFault>
        ensures ok { OnOk result (AreSame (normal_known self.new) (with_learned_below false (normal_known self.old) item version (S.has below.now))) }
        ensures holes { IsErrOf result FormFault.TooManyHoles ↔ IsOverHolesInTurn (items_form LIMIT) (with_learned false (normal_known self.old) item version) (with_learned_below false (normal_known self.old) item version (S.has below.now)) }
        ensures items { IsErrOf result FormFault.TooManyItems ↔ IsOverItemsInTurn (items_form LIMIT) (with_learned false (normal_known self.old) item version) (with_learned_below false (normal_known self.old) item version (S.has below.now)) }
        ensures err { OnErr result (self.new ≡ self.old) }
    {
        self.may_learn_below(item, &version)?;
        self.learn_below(item, &(below, version))
    }
}
