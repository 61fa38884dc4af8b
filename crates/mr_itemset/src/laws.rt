//! The two knowledges as forms of `mr_forms`.
use crate::form::{one_choice, one_value};
use crate::knowledge::ItemKnowledge;
use crate::sparing::SparingKnowledge;
use mr_concise::{ConciseVector, OfSet};
use mr_forms::{FormFault, Fragment, Knowledge, OneValue, VersionSet};
use mr_version::{ItemId, Version};
use std::alloc::Global;

impl Knowledge for ItemKnowledge {
    ghost use Rattle.mr_itemset.specs.ItemForm.{item_form};
    ghost use Rattle.mr_itemset.specs.ListingLaws.{item_lists_more};
    ghost use Rattle.mr_itemset.specs.MeaningLaws.{items_by_meaning};
    ghost use Rattle.mr_forms.specs.declared.fragment.TheConstants.{MAX_ITEMS};

    type Vector = ConciseVector;

    ghost form = { item_form };

    ghost lists_more = { item_lists_more };

    ghost by_meaning = { items_by_meaning MAX_ITEMS };

    fn new(alloc: Global) -> ItemKnowledge {
        ItemKnowledge::new(alloc)
    }

    fn copy(&self) -> Result<ItemKnowledge, FormFault> {
        ItemKnowledge::copy(self)
    }

    fn knows(&self, item: ItemId, version: Version) -> bool {
        ItemKnowledge::knows(self, item, version)
    }

    fn learn(&mut self, item: ItemId, version: Version) -> Result<(), FormFault> {
        ItemKnowledge::learn(self, item, version)
    }

    fn may_learn(&self, item: ItemId, version: Version) -> Result<(), FormFault> {
        ItemKnowledge::may_learn(self, item, version)
    }

    fn learn_below<S: VersionSet>(&mut self, item: ItemId, set: &S) -> Result<(), FormFault> {
        ItemKnowledge::learn_below(self, item, &OfSet { set })
    }

    fn learn_with<S: VersionSet>(
        &mut self,
        item: ItemId,
        version: Version,
        below: &S,
    ) -> Result<(), FormFault> {
        ItemKnowledge::learn_with(self, item, version, &OfSet { set: below })
    }

    fn may_learn_with<S: VersionSet>(
        &self,
        item: ItemId,
        version: Version,
        below: &S,
    ) -> Result<(), FormFault> {
        ItemKnowledge::may_learn_with(self, item, version, &OfSet { set: below })
    }

    fn merge<S: VersionSet>(&mut self, fragment: &Fragment<S>) -> Result<(), FormFault> {
        ItemKnowledge::merge(self, fragment)
    }

    fn may_merge<S: VersionSet>(&self, fragment: &Fragment<S>) -> Result<(), FormFault> {
        ItemKnowledge::may_merge(self, fragment)
    }

    fn with_fragments<S: VersionSet>(
        &self,
        fragments: &[Fragment<S>],
    ) -> Result<ItemKnowledge, FormFault> {
        ItemKnowledge::with_fragments(self, fragments)
    }

    fn fragments(&self) -> Result<Vec<Fragment<ConciseVector>>, FormFault> {
        ItemKnowledge::fragments(self)
    }
}

impl Knowledge for SparingKnowledge {
    ghost use Rattle.mr_itemset.specs.Sparing.{sparing_form};
    ghost use Rattle.mr_itemset.specs.ListingLaws.{sparing_lists_more};
    ghost use Rattle.mr_itemset.specs.MeaningLaws.{sparing_by_meaning};

    type Vector = ConciseVector;

    ghost form = { sparing_form };

    ghost lists_more = { sparing_lists_more };

    ghost by_meaning = { sparing_by_meaning };

    fn new(alloc: Global) -> SparingKnowledge {
        SparingKnowledge::new(alloc)
    }

    fn copy(&self) -> Result<SparingKnowledge, FormFault> {
        SparingKnowledge::copy(self)
    }

    fn knows(&self, item: ItemId, version: Version) -> bool {
        SparingKnowledge::knows(self, item, version)
    }

    fn learn(&mut self, item: ItemId, version: Version) -> Result<(), FormFault> {
        SparingKnowledge::learn(self, item, version)
    }

    fn may_learn(&self, item: ItemId, version: Version) -> Result<(), FormFault> {
        SparingKnowledge::may_learn(self, item, version)
    }

    fn learn_below<S: VersionSet>(&mut self, item: ItemId, set: &S) -> Result<(), FormFault> {
        SparingKnowledge::learn_below(self, item, set)
    }

    fn learn_with<S: VersionSet>(
        &mut self,
        item: ItemId,
        version: Version,
        below: &S,
    ) -> Result<(), FormFault> {
        SparingKnowledge::learn_with(self, item, version, below)
    }

    fn may_learn_with<S: VersionSet>(
        &self,
        item: ItemId,
        version: Version,
        below: &S,
    ) -> Result<(), FormFault> {
        SparingKnowledge::may_learn_with(self, item, version, below)
    }

    fn merge<S: VersionSet>(&mut self, fragment: &Fragment<S>) -> Result<(), FormFault> {
        SparingKnowledge::merge(self, fragment)
    }

    fn may_merge<S: VersionSet>(&self, fragment: &Fragment<S>) -> Result<(), FormFault> {
        SparingKnowledge::may_merge(self, fragment)
    }

    fn with_fragments<S: VersionSet>(
        &self,
        fragments: &[Fragment<S>],
    ) -> Result<SparingKnowledge, FormFault> {
        SparingKnowledge::with_fragments(self, fragments)
    }

    fn fragments(&self) -> Result<Vec<Fragment<ConciseVector>>, FormFault> {
        SparingKnowledge::fragments(self)
    }
}

impl OneValue for ItemKnowledge {
    fn one_value(first: &ItemKnowledge, second: &ItemKnowledge) {
        one_value(first, second);
    }
}

impl OneValue for SparingKnowledge {
    fn one_value(first: &SparingKnowledge, second: &SparingKnowledge) {
        one_choice(first, second);
    }
}
