//! A set that is learned for all items, and a fragment that is merged.
ghost use Rattle.std.specs.Prelude.{◌≡◌, ◌↔◌, ◌≢◌, OnOk, OnErr, IsErrOf, Err};
ghost use Rattle.mr_forms.specs.Known.{AreSame, IsOnlyOverItems, with_pairs};
ghost use Rattle.mr_forms.specs.Covered.{covered};
ghost use Rattle.mr_itemset.specs.Normal.{normal_known};
ghost use Rattle.mr_itemset.specs.ItemForm.{items_form, HasHoleyItem, with_all};

use crate::knowledge::ItemsUpTo;
use mr_concise::OfSet;
use mr_forms::{FormFault, Fragment, ItemSet, VersionSet};

impl<const LIMIT: usize> ItemsUpTo<LIMIT> {
    /// Adds all versions of a set for all items. It lists no item, so `TooManyItems` never comes. It costs
    /// a walk through the set, and through what waits of its authors; where holes may come near their limit,
    /// a copy of each listed vector. Where all items have the set already nothing is copied.
    pub fn learn_for_all<S: VersionSet>(&mut self, set: &S) -> Result<(), FormFault>
        ensures ok { OnOk result (AreSame (normal_known self.new) (with_all (normal_known self.old) (S.has set.now))) }
        ensures holes { IsErrOf result FormFault.TooManyHoles ↔ HasHoleyItem (with_all (normal_known self.old) (S.has set.now)) }
        ensures items { IsErrOf result FormFault.TooManyItems ↔ IsOnlyOverItems (items_form LIMIT) (with_all (normal_known self.old) (S.has set.now)) }
        ensures none { result ≢ Err FormFault.TooManyItems }
        ensures err { OnErr result (self.new ≡ self.old) }
    {
        if !self.all_lack(&OfSet { set }) {
            return Ok(());
        }
        self.grow(&None, &OfSet { set }, &OfSet { set })
    }

    /// The fault that `merge` would answer where memory is there. It allocates nothing.
    pub fn may_merge<S: VersionSet>(&self, fragment: &Fragment<S>) -> Result<(), FormFault>
        ensures holes { IsErrOf result FormFault.TooManyHoles ↔ HasHoleyItem (with_pairs (normal_known self.now) (covered S.has fragment.now)) }
        ensures items { IsErrOf result FormFault.TooManyItems ↔ IsOnlyOverItems (items_form LIMIT) (with_pairs (normal_known self.now) (covered S.has fragment.now)) }
        ensures memory { result ≢ Err FormFault.OutOfMemory }
    {
        let set = OfSet {
            set: &fragment.vector,
        };
        match &fragment.items {
            ItemSet::All => self.may_grow(&None, &set, &set),
            ItemSet::Listed(items) => self.may_learn_for_each(items, &set),
        }
    }

    /// Adds all versions of a fragment, whose vector is of any form, for each of its items, and
    /// nothing else. Where it lists items it costs a copy of each listed vector; where it is of all items,
    /// what `learn_for_all` does. Where its items have them already nothing is copied.
    pub fn merge<S: VersionSet>(&mut self, fragment: &Fragment<S>) -> Result<(), FormFault>
        ensures ok { OnOk result (AreSame (normal_known self.new) (with_pairs (normal_known self.old) (covered S.has fragment.now))) }
        ensures holes { IsErrOf result FormFault.TooManyHoles ↔ HasHoleyItem (with_pairs (normal_known self.old) (covered S.has fragment.now)) }
        ensures items { IsErrOf result FormFault.TooManyItems ↔ IsOnlyOverItems (items_form LIMIT) (with_pairs (normal_known self.old) (covered S.has fragment.now)) }
        ensures err { OnErr result (self.new ≡ self.old) }
    {
        match &fragment.items {
            ItemSet::All => self.learn_for_all(&fragment.vector),
            ItemSet::Listed(items) => self.learn_for_each(
                items,
                &OfSet {
                    set: &fragment.vector,
                },
            ),
        }
    }
}
