//! Several fragments, merged one after the other into one copy.
ghost use Rattle.std.specs.Prelude.{◌≡◌, ◌↔◌, ◌≢◌, All, IfOk, OnOk, OnErr, IsErrOf, Err};
ghost use Rattle.mr_forms.specs.Known.{AreSame, HasValue, IsOnlyOverItems, with_pairs};
ghost use Rattle.mr_forms.specs.Covered.{covered, all_covered};
ghost use Rattle.mr_forms.specs.Merged.{after_each, FirstHasValue, AreOverHolesInTurn, AreOverItemsInTurn};
ghost use Rattle.mr_itemset.specs.Normal.{normal_known};
ghost use Rattle.mr_itemset.specs.ItemForm.{items_form, HasHoleyItem};
ghost use Rattle.mr_itemset.specs.inner.Each.{with_each};

use crate::knowledge::ItemsUpTo;
use mr_concise::{OfSet, Source};
use mr_forms::{FormFault, Fragment, ItemSet, VersionSet};
use mr_version::ItemId;

impl<const LIMIT: usize> ItemsUpTo<LIMIT> {
    /// Adds the versions for each of the items, one after the other: some have them where memory is gone,
    /// and where a limit forbids it for one.
    fn learn_in_turn<S: Source>(&mut self, items: &[ItemId], set: &S) -> Result<(), FormFault>
        ensures ok { OnOk result (AreSame (normal_known self.new) (with_each (normal_known self.old) items.now (S.has set.now))) }
        ensures err { OnErr result (result ≡ Err FormFault.OutOfMemory) }
    {
        for item in items {
            let Ok(()) = self.learn_below(*item, set) else {
                return Err(FormFault::OutOfMemory);
            };
        }
        Ok(())
    }

    /// Adds all versions of a fragment for each of its items, in place: some have them where memory is
    /// gone. Where no limit is near it looks at no listed items but the fragment's own, if it lists them.
    fn take_in<S: VersionSet>(&mut self, fragment: &Fragment<S>) -> Result<(), FormFault>
        ensures ok { OnOk result (AreSame (normal_known self.new) (with_pairs (normal_known self.old) (covered S.has fragment.now))) }
        ensures holes { IsErrOf result FormFault.TooManyHoles ↔ HasHoleyItem (with_pairs (normal_known self.old) (covered S.has fragment.now)) }
        ensures items { IsErrOf result FormFault.TooManyItems ↔ IsOnlyOverItems (items_form LIMIT) (with_pairs (normal_known self.old) (covered S.has fragment.now)) }
    {
        self.may_merge(fragment)?;
        match &fragment.items {
            ItemSet::All => self.learn_for_all(&fragment.vector),
            ItemSet::Listed(items) => self.learn_in_turn(
                items,
                &OfSet {
                    set: &fragment.vector,
                },
            ),
        }
    }

    /// The fault that merging the first of these fragments would answer where memory is there. It allocates
    /// nothing.
    fn may_merge_first<S: VersionSet>(&self, fragments: &[Fragment<S>]) -> Result<(), FormFault>
        ensures ok { OnOk result (FirstHasValue (items_form LIMIT) (after_each S.has (normal_known self.now) fragments.now)) }
        ensures holes { IsErrOf result FormFault.TooManyHoles → AreOverHolesInTurn (items_form LIMIT) (after_each S.has (normal_known self.now) fragments.now) }
        ensures items { IsErrOf result FormFault.TooManyItems → AreOverItemsInTurn (items_form LIMIT) (after_each S.has (normal_known self.now) fragments.now) }
        ensures memory { result ≢ Err FormFault.OutOfMemory }
    {
        match fragments {
            [] => Ok(()),
            [first, ..] => self.may_merge(first),
        }
    }

    /// A knowledge that knows what this one does and what the fragments cover, which are merged one after
    /// the other; this one stays as it is. A fault is that of the first fragment whose merging has one.
    /// `OutOfMemory` may come before the fault of a later fragment, but not before that of the first.
    ///
    /// It costs a copy of each listed vector, for each item that a fragment lists a search and a copy of its
    /// vector, and for each fragment of all items a walk through its vector and, where all items lack something
    /// of it, through what waits of its authors. Then what waits is settled: a search for each run of each listed
    /// vector and, of an item of which more stays known than of all, a walk along what all items have. So the
    /// listed vectors are copied once and settled once, however many fragments are of all items; once more for a
    /// fragment only where a limit may be near.
    pub fn with_fragments<S: VersionSet>(
        &self,
        fragments: &[Fragment<S>],
    ) -> Result<ItemsUpTo<LIMIT>, FormFault>
        ensures ok { IfOk result (λ knowledge. AreSame (normal_known knowledge) (with_pairs (normal_known self.now) (all_covered S.has fragments.now))) }
        ensures value { OnOk result (All (HasValue (items_form LIMIT)) (after_each S.has (normal_known self.now) fragments.now)) }
        ensures holes { IsErrOf result FormFault.TooManyHoles → AreOverHolesInTurn (items_form LIMIT) (after_each S.has (normal_known self.now) fragments.now) }
        ensures items { IsErrOf result FormFault.TooManyItems → AreOverItemsInTurn (items_form LIMIT) (after_each S.has (normal_known self.now) fragments.now) }
        ensures memory { IsErrOf result FormFault.OutOfMemory → FirstHasValue (items_form LIMIT) (after_each S.has (normal_known self.now) fragments.now) }
    {
        self.may_merge_first(fragments)?;
        let Ok(mut knowledge) = self.copy_parts() else {
            return Err(FormFault::OutOfMemory);
        };
        for fragment in fragments {
            knowledge.take_in(fragment)?;
        }
        let Ok(folded) = knowledge.folded() else {
            return Err(FormFault::OutOfMemory);
        };
        Ok(ItemsUpTo::of(folded))
    }
}
