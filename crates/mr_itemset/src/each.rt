//! A set that is learned for each of some items.
ghost use Rattle.std.specs.Prelude.{◌≡◌, ◌↔◌, ◌≢◌, true, false, All, AllPairs, IfOk, OnOk, OnErr, IsErrOf, Err};
ghost use Rattle.std.specs.List.{list_any};
ghost use Rattle.std.specs.declared.cmp.Ordering.TheVariants.{Less};
ghost use Rattle.mr_version.specs.Name.{name_cmp, name_eq};
ghost use Rattle.mr_forms.specs.Sets.{Versions};
ghost use Rattle.mr_forms.specs.Known.{AreSame, HasValue, IsOnlyOverItems};
ghost use Rattle.mr_concise.specs.Vector.{vector_has};
ghost use Rattle.mr_itemset.specs.inner.Lacking.{Lacks};
ghost use Rattle.mr_itemset.specs.Normal.{normal_known, IsNormal};
ghost use Rattle.mr_itemset.specs.ItemForm.{items_form, HasHoleyItem, ListsTooMany};
ghost use Rattle.mr_itemset.specs.inner.Each.{with_each, CountsNew};

use crate::knowledge::ItemsUpTo;
use crate::settled::Settled;
use mr_concise::Source;
use mr_forms::FormFault;
use mr_version::{ItemId, Version};
use std::alloc::AllocError;

/// Whether each item is higher than the one before it.
fn rises(items: &[ItemId]) -> bool
    ensures { result ≡ true → AllPairs (λ x y. name_cmp x y ≡ Less) items.now }
{
    for at in 1..items.len() {
        if items[at - 1] >= items[at] {
            return false;
        }
    }
    true
}

/// Whether the item is among them. Where all of them are lower it isn't, and nothing is searched.
fn is_among(before: &[ItemId], item: ItemId, are_lower: bool) -> bool
    requires { are_lower ≡ true → All (λ x. name_cmp x item ≡ Less) before.now }
    ensures { result ≡ list_any (name_eq item) before.now }
{
    if are_lower {
        return false;
    }
    before.contains(&item)
}

impl<const LIMIT: usize> ItemsUpTo<LIMIT> {
    /// Whether some of the items lacks a version of the set. It allocates nothing.
    fn some_lack<S: Source>(&self, items: &[ItemId], set: &S) -> bool
        ensures yes { result ≡ true → Lacks (vector_has self.now.all) (S.has set.now) }
        ensures no { result ≡ false → AreSame (normal_known self.now) (with_each (normal_known self.now) items.now (S.has set.now)) }
        ensures normal { IsNormal LIMIT self.now }
    {
        if !self.all_lack(set) {
            return false;
        }
        for item in items {
            if self.item_lacks(*item, set) {
                return true;
            }
        }
        false
    }

    /// Whether some item's vector would have too many holes with these versions. It allocates
    /// nothing.
    fn would_be_holey_in<S: Source>(&self, items: &[ItemId], set: &S) -> bool
        requires { IsNormal LIMIT self.now }
        ensures { (result ≡ true) ↔ HasHoleyItem (with_each (normal_known self.now) items.now (S.has set.now)) }
    {
        let nothing: Option<Version> = None;
        for item in items {
            if self.would_be_holey_more(*item, &nothing, set) {
                return true;
            }
        }
        false
    }

    /// How many of the items are not listed, each counted once. It allocates nothing. Items that don't
    /// rise cost a search each among those before them.
    fn count_new(&self, items: &[ItemId]) -> usize
        requires { IsNormal LIMIT self.now }
        ensures { CountsNew self.now items.now result }
    {
        let are_rising = rises(items);
        let mut count = 0;
        for at in 0..items.len() {
            let item = items[at];
            if !is_among(&items[..at], item, are_rising) && !self.lists(item) {
                count += 1;
            }
        }
        count
    }

    /// Whether all these items may be listed. It allocates nothing. Only where the limit is near it looks at
    /// all listed items, and counts which of these are new.
    fn has_room_for(&self, items: &[ItemId]) -> bool
        ensures yes { result ≡ true → (set : Versions) → ¬ ListsTooMany LIMIT (with_each (normal_known self.now) items.now set) }
        ensures no { result ≡ false → (set : Versions) → Lacks (vector_has self.now.all) set → ListsTooMany LIMIT (with_each (normal_known self.now) items.now set) }
    {
        if items.len() <= LIMIT - self.most_listed() {
            return true;
        }
        let room = LIMIT - self.listed_count();
        if items.len() <= room {
            return true;
        }
        self.count_new(items) <= room
    }

    /// The knowledge with the versions for each of the items.
    fn with_each<S: Source>(&self, items: &[ItemId], set: &S) -> Result<Settled<LIMIT>, AllocError>
        requires { HasValue (items_form LIMIT) (with_each (normal_known self.now) items.now (S.has set.now)) }
        ensures { IfOk result (λ k. AreSame (normal_known k) (with_each (normal_known self.now) items.now (S.has set.now))) }
    {
        let mut grown = self.folded()?;
        for item in items {
            grown.learn_below(*item, set)?;
        }
        Ok(grown)
    }

    /// The fault that `learn_for_each` would answer where memory is there. It allocates nothing.
    pub(crate) fn may_learn_for_each<S: Source>(
        &self,
        items: &[ItemId],
        set: &S,
    ) -> Result<(), FormFault>
        ensures holes { IsErrOf result FormFault.TooManyHoles ↔ HasHoleyItem (with_each (normal_known self.now) items.now (S.has set.now)) }
        ensures items { IsErrOf result FormFault.TooManyItems ↔ IsOnlyOverItems (items_form LIMIT) (with_each (normal_known self.now) items.now (S.has set.now)) }
        ensures memory { result ≢ Err FormFault.OutOfMemory }
    {
        if !self.some_lack(items, set) {
            return Ok(());
        }
        if self.would_be_holey_in(items, set) {
            return Err(FormFault::TooManyHoles);
        }
        if !self.has_room_for(items) {
            return Err(FormFault::TooManyItems);
        }
        Ok(())
    }

    /// Adds all versions of a set for each of the items. Where each of them has the set already nothing is
    /// copied.
    pub(crate) fn learn_for_each<S: Source>(
        &mut self,
        items: &[ItemId],
        set: &S,
    ) -> Result<(), FormFault>
        ensures ok { OnOk result (AreSame (normal_known self.new) (with_each (normal_known self.old) items.now (S.has set.now))) }
        ensures holes { IsErrOf result FormFault.TooManyHoles ↔ HasHoleyItem (with_each (normal_known self.old) items.now (S.has set.now)) }
        ensures items { IsErrOf result FormFault.TooManyItems ↔ IsOnlyOverItems (items_form LIMIT) (with_each (normal_known self.old) items.now (S.has set.now)) }
        ensures err { OnErr result (self.new ≡ self.old) }
    {
        self.may_learn_for_each(items, set)?;
        if !self.some_lack(items, set) {
            return Ok(());
        }
        let Ok(grown) = self.with_each(items, set) else {
            return Err(FormFault::OutOfMemory);
        };
        *self = ItemsUpTo::of(grown);
        Ok(())
    }
}
