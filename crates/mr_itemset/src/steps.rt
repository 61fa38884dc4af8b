//! What a knowledge learns, and what it would refuse.
ghost use Rattle.std.specs.Prelude.{◌≡◌, ◌↔◌, ◌≢◌, true, OnOk, OnErr, IsErrOf, Err};
ghost use Rattle.mr_forms.specs.Known.{AreSame, HasValue, IsOnlyOverItems, IsOverHolesInTurn, IsOverItemsInTurn, with_below, with_learned, with_learned_below};
ghost use Rattle.mr_itemset.specs.Normal.{normal_known};
ghost use Rattle.mr_itemset.specs.ItemForm.{items_form, HasHoleyItem};

use crate::knowledge::ItemsUpTo;
use mr_concise::Source;
use mr_forms::FormFault;
use mr_version::{ItemId, Version};

impl<const LIMIT: usize> ItemsUpTo<LIMIT> {
    /// The fault that `learn` would answer where memory is there. It allocates nothing.
    pub fn may_learn(&self, item: ItemId, version: Version) -> Result<(), FormFault>
        ensures holes { IsErrOf result FormFault.TooManyHoles ↔ HasHoleyItem (with_learned true (normal_known self.now) item version) }
        ensures items { IsErrOf result FormFault.TooManyItems ↔ IsOnlyOverItems (items_form LIMIT) (with_learned true (normal_known self.now) item version) }
        ensures memory { result ≢ Err FormFault.OutOfMemory }
    {
        self.may_grow(&None, &version, &version)
    }

    /// Adds the version for all items. It costs a search in what waits; where holes may come near their
    /// limit, a copy of each listed vector.
    pub fn learn(&mut self, item: ItemId, version: Version) -> Result<(), FormFault>
        ensures ok { OnOk result (AreSame (normal_known self.new) (with_learned true (normal_known self.old) item version)) }
        ensures holes { IsErrOf result FormFault.TooManyHoles ↔ HasHoleyItem (with_learned true (normal_known self.old) item version) }
        ensures items { IsErrOf result FormFault.TooManyItems ↔ IsOnlyOverItems (items_form LIMIT) (with_learned true (normal_known self.old) item version) }
        ensures err { OnErr result (self.new ≡ self.old) }
    {
        self.grow(&None, &version, &version)
    }

    /// The fault that `learn_below` would answer where memory is there. It allocates nothing.
    pub(crate) fn may_learn_below<S: Source>(&self, item: ItemId, set: &S) -> Result<(), FormFault>
        ensures holes { IsErrOf result FormFault.TooManyHoles ↔ HasHoleyItem (with_below (normal_known self.now) item (S.has set.now)) }
        ensures items { IsErrOf result FormFault.TooManyItems ↔ IsOnlyOverItems (items_form LIMIT) (with_below (normal_known self.now) item (S.has set.now)) }
        ensures memory { result ≢ Err FormFault.OutOfMemory }
    {
        // what is settled is in its normal form
        let _parts = self.parts();
        let nothing: Option<Version> = None;
        self.may_grow(&Some(item), &nothing, set)
    }

    /// Adds all versions of a set, of any form, for the item, and nothing else. It costs a search for the
    /// item and a copy of its vector; where a limit may be near, a copy of each listed vector.
    pub fn learn_below<S: Source>(&mut self, item: ItemId, set: &S) -> Result<(), FormFault>
        ensures ok { OnOk result (AreSame (normal_known self.new) (with_below (normal_known self.old) item (S.has set.now))) }
        ensures holes { IsErrOf result FormFault.TooManyHoles ↔ HasHoleyItem (with_below (normal_known self.old) item (S.has set.now)) }
        ensures items { IsErrOf result FormFault.TooManyItems ↔ IsOnlyOverItems (items_form LIMIT) (with_below (normal_known self.old) item (S.has set.now)) }
        ensures err { OnErr result (self.new ≡ self.old) }
    {
        // what is settled is in its normal form
        let _parts = self.parts();
        let nothing: Option<Version> = None;
        self.grow(&Some(item), &nothing, set)
    }

    /// The fault that `learn_with` would answer where memory is there. It allocates nothing. It costs a
    /// search in what waits for each run of the set and, where the set has something new, the runs of the
    /// item's own vector and a number for each author of what waits; a walk through what waits only where a
    /// limit may be near.
    pub fn may_learn_with<S: Source>(
        &self,
        item: ItemId,
        version: Version,
        below: &S,
    ) -> Result<(), FormFault>
        ensures ok { OnOk result (HasValue (items_form LIMIT) (with_learned_below true (normal_known self.now) item version (S.has below.now))) }
        ensures holes { IsErrOf result FormFault.TooManyHoles ↔ IsOverHolesInTurn (items_form LIMIT) (with_learned true (normal_known self.now) item version) (with_learned_below true (normal_known self.now) item version (S.has below.now)) }
        ensures items { IsErrOf result FormFault.TooManyItems ↔ IsOverItemsInTurn (items_form LIMIT) (with_learned true (normal_known self.now) item version) (with_learned_below true (normal_known self.now) item version (S.has below.now)) }
        ensures memory { result ≢ Err FormFault.OutOfMemory }
    {
        self.may_grow(&Some(item), &version, below)
    }

    /// Learns a version that came with the set of versions below it: the version for all items, and
    /// the set for its own. It costs a search for the item, a copy of its vector and, for each run of the
    /// set, a search in what waits; where a limit may be near, a copy of each listed vector.
    pub fn learn_with<S: Source>(
        &mut self,
        item: ItemId,
        version: Version,
        below: &S,
    ) -> Result<(), FormFault>
        ensures ok { OnOk result (AreSame (normal_known self.new) (with_learned_below true (normal_known self.old) item version (S.has below.now))) }
        ensures holes { IsErrOf result FormFault.TooManyHoles ↔ IsOverHolesInTurn (items_form LIMIT) (with_learned true (normal_known self.old) item version) (with_learned_below true (normal_known self.old) item version (S.has below.now)) }
        ensures items { IsErrOf result FormFault.TooManyItems ↔ IsOverItemsInTurn (items_form LIMIT) (with_learned true (normal_known self.old) item version) (with_learned_below true (normal_known self.old) item version (S.has below.now)) }
        ensures err { OnErr result (self.new ≡ self.old) }
    {
        self.grow(&Some(item), &version, below)
    }
}
