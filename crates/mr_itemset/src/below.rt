//! A set that is learned for one item, where the limits leave room for it.
ghost use Rattle.std.specs.Prelude.{◌≡◌, true, false, OnOk, OnErr};
ghost use Rattle.std.specs.List.{list_any};
ghost use Rattle.mr_version.specs.Name.{name_eq};
ghost use Rattle.mr_forms.specs.Known.{AreSame, with_below};
ghost use Rattle.mr_itemset.specs.Normal.{normal_known, IsNormal};
ghost use Rattle.mr_itemset.specs.inner.Normal.{items_of};
ghost use Rattle.mr_itemset.specs.ItemForm.{ListsTooMany};
ghost use Rattle.mr_itemset.specs.inner.Placed.{HasRoom};

use crate::limits::lacks;
use crate::settled::Settled;
use mr_concise::Source;
use mr_version::ItemId;
use std::alloc::AllocError;

impl<const LIMIT: usize> Settled<LIMIT> {
    /// Whether the item is listed. It costs a search.
    pub(crate) fn lists(&self, item: ItemId) -> bool
        ensures { result ≡ list_any (name_eq item) (items_of self.now.listed) }
    {
        self.listed().contains_key(&item)
    }

    /// Whether the versions may be listed for the item. It allocates nothing.
    pub(crate) fn has_room<S: Source>(&self, item: ItemId, set: &S) -> bool
        ensures yes { result ≡ true → HasRoom LIMIT self.now item (S.has set.now) }
        ensures no { result ≡ false → ListsTooMany LIMIT (with_below (normal_known self.now) item (S.has set.now)) }
        ensures normal { IsNormal LIMIT self.now }
    {
        if self.listed().len() < LIMIT {
            return true;
        }
        if self.lists(item) {
            return true;
        }
        !lacks(self.for_all(), set)
    }

    /// Adds all versions of a set, of any form, for the item, and nothing else. Those that a limit forbids it
    /// refuses as it does where memory is gone.
    pub(crate) fn learn_below<S: Source>(&mut self, item: ItemId, set: &S) -> Result<(), AllocError>
        ensures ok { OnOk result (AreSame (normal_known self.new) (with_below (normal_known self.old) item (S.has set.now))) }
        ensures err { OnErr result (self.new ≡ self.old) }
    {
        if !self.has_room(item, set) {
            return Err(AllocError);
        }
        self.add_to_item(item, set)
    }
}
