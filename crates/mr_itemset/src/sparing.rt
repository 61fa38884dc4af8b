//! Knowledge that spreads a version to all items only where that costs no hole too many.
ghost use Rattle.std.specs.Prelude.{◌≡◌, ◌↔◌, ◌≢◌, ◌&&◌, [], false, None, All, IfOk, IfSome, OnOk, OnErr, IsErrOf, Err, map, string_bytes};
ghost use Rattle.mr_version.specs.Name.{name_eq};
ghost use Rattle.mr_forms.specs.Sets.{IsSame, both};
ghost use Rattle.mr_forms.specs.Known.{AreSame, HasValue, IsOnlyOverItems, IsOverHolesInTurn, IsOverItemsInTurn, learned, learned_of, learned_with, with_below, with_pairs};
ghost use Rattle.mr_forms.specs.Covered.{covered, all_covered, HasItems};
ghost use Rattle.mr_forms.specs.Merged.{after_each, FirstHasValue, AreOverHolesInTurn, AreOverItemsInTurn};
ghost use Rattle.mr_forms.specs.Parts.{part_of, ArePartsThat};
ghost use Rattle.mr_concise.specs.Source.{in_some};
ghost use Rattle.mr_concise.specs.Vector.{vector_has};
ghost use Rattle.mr_itemset.specs.Normal.{normal_known, IsNormal};
ghost use Rattle.mr_itemset.specs.ItemForm.{HasHoleyItem, with_all};
ghost use Rattle.mr_itemset.specs.Shown.{shown, fragments_in, normal_text};
ghost use Rattle.mr_itemset.specs.Sparing.{goes_to_all, spreads, sparing_form};
ghost use Rattle.mr_itemset.specs.Told.{IsToldOf, IsToldPart, IsSparest};
ghost use Rattle.std.specs.List.{AllZip};

use crate::knowledge::ItemsUpTo;
use crate::rule::comes_next;
use mr_concise::{ConciseVector, OfSet};
use mr_forms::{FormFault, Fragment, VersionSet};
use mr_version::{ItemId, Version};
use std::alloc::Global;
use std::marker::Model;

/// How many items a sparing knowledge lists at most. They are more than one fragment lists, so items of one
/// vector may be told in several.
pub const MAX_LISTED_ITEMS: usize = 1_048_576;

/// Which versions are known for which items, as [`ItemKnowledge`](crate::ItemKnowledge) keeps it, but sparing
/// with holes: a version that would leave one too many for all items is learned for its own item alone. So
/// more items are listed, up to [`MAX_LISTED_ITEMS`].
#[derive(Debug, Drop)]
pub struct SparingKnowledge {
    items: ItemsUpTo<MAX_LISTED_ITEMS>,
}

impl Model for SparingKnowledge {
    ghost use Rattle.mr_itemset.specs.Normal.{Normal, normal_code};

    ghost Value = { Normal };

    ghost coded = { normal_code };

    ghost view = { λ k. k.items };
}

impl SparingKnowledge {
    /// The knowledge of nothing. It allocates nothing; what grows later takes its memory from `alloc`.
    pub fn new(alloc: Global) -> SparingKnowledge
        ensures is { result ≡ record { all = []; listed = [] } }
        ensures nothing { AreSame (normal_known result) (λ _ _. false) }
    {
        SparingKnowledge {
            items: ItemsUpTo::new(alloc),
        }
    }

    /// An equal knowledge. `OutOfMemory` is its only fault.
    pub fn copy(&self) -> Result<SparingKnowledge, FormFault>
        ensures ok { IfOk result (λ knowledge. knowledge ≡ self.now) }
        ensures memory { OnErr result (result ≡ Err FormFault.OutOfMemory) }
    {
        Ok(SparingKnowledge {
            items: self.items.copy()?,
        })
    }

    /// What it knows, whatever it learns next.
    pub(crate) fn items(&self) -> &ItemsUpTo<MAX_LISTED_ITEMS>
        ensures is { result.now ≡ self.now }
        ensures normal { IsNormal MAX_LISTED_ITEMS self.now }
    {
        // what is settled is in its normal form
        let _parts = self.items.parts();
        &self.items
    }

    /// Whether the version is known for the item. It costs a few searches.
    pub fn knows(&self, item: ItemId, version: Version) -> bool
        ensures { result ≡ normal_known self.now item version }
    {
        self.items.knows(item, version)
    }

    /// The knowledge as fragments that say each thing once. That of all items comes first, and its vector may
    /// be empty. The others list the items of which more is known, as those of a knowledge by items do, and
    /// say of them the versions that all items lack. Of each author that is the column with the fewest holes
    /// that leaves the meaning as it is: counters between two such versions, and before the first, are in it
    /// where the items have them all. `OutOfMemory` is the only fault. For n listed items it takes about
    /// n log n comparisons of what is told of them, and some searches for each run of what is listed.
    pub fn fragments(&self) -> Result<Vec<Fragment<ConciseVector>>, FormFault>
        ensures are { IfOk result (λ fragments. AllZip (IsToldOf self.now.all) (fragments_in self.now) (map shown fragments.items)) }
        ensures fewest { IfOk result (λ fragments. AllZip (IsSparest self.now.all) (fragments_in self.now) (map shown fragments.items)) }
        ensures ok { IfOk result (λ fragments. AreSame (normal_known self.now) (all_covered vector_has fragments.items)) }
        ensures items { IfOk result (λ fragments. All (λ fragment. HasItems fragment.items) fragments.items) }
        ensures parts { IfOk result (λ fragments. ArePartsThat (IsToldPart self.now) (map (part_of vector_has) fragments.items)) }
        ensures memory { OnErr result (result ≡ Err FormFault.OutOfMemory) }
    {
        Ok(self.items.told()?)
    }

    /// The text of the normal form: `all` or items with commas between them, a space and the text of all that
    /// is known of them, with `; ` between, as `all 0:4; 0.3,0.5 0:9!2!5..7`.
    pub fn text(&self) -> Result<String, FormFault>
        ensures ok { IfOk result (λ text. string_bytes text ≡ normal_text self.now) }
        ensures memory { OnErr result (result ≡ Err FormFault.OutOfMemory) }
    {
        self.items.text()
    }

    /// The fault that `learn` would answer where memory is there. It allocates nothing.
    pub fn may_learn(&self, item: ItemId, version: Version) -> Result<(), FormFault>
        ensures holes { IsErrOf result FormFault.TooManyHoles ↔ HasHoleyItem (learned sparing_form self.now item version) }
        ensures items { IsErrOf result FormFault.TooManyItems ↔ IsOnlyOverItems sparing_form (learned sparing_form self.now item version) }
        ensures memory { result ≢ Err FormFault.OutOfMemory }
    {
        if self.items.goes_to_all(version) {
            self.items.may_learn(item, version)
        } else {
            self.items.may_learn_below(item, &version)
        }
    }

    /// Adds the version for all items where it goes to all, else for its own.
    pub fn learn(&mut self, item: ItemId, version: Version) -> Result<(), FormFault>
        ensures ok { OnOk result (AreSame (normal_known self.new) (learned sparing_form self.old item version)) }
        ensures holes { IsErrOf result FormFault.TooManyHoles ↔ HasHoleyItem (learned sparing_form self.old item version) }
        ensures items { IsErrOf result FormFault.TooManyItems ↔ IsOnlyOverItems sparing_form (learned sparing_form self.old item version) }
        ensures err { OnErr result (self.new ≡ self.old) }
    {
        if self.items.goes_to_all(version) {
            self.items.learn(item, version)
        } else {
            self.items.learn_below(item, &version)
        }
    }

    /// Adds all versions of a set, of any form, for the item, and nothing else.
    pub fn learn_below<S: VersionSet>(&mut self, item: ItemId, set: &S) -> Result<(), FormFault>
        ensures ok { OnOk result (AreSame (normal_known self.new) (with_below (normal_known self.old) item (S.has set.now))) }
        ensures holes { IsErrOf result FormFault.TooManyHoles ↔ HasHoleyItem (with_below (normal_known self.old) item (S.has set.now)) }
        ensures items { IsErrOf result FormFault.TooManyItems ↔ IsOnlyOverItems sparing_form (with_below (normal_known self.old) item (S.has set.now)) }
        ensures err { OnErr result (self.new ≡ self.old) }
    {
        self.items.learn_below(item, &OfSet { set })
    }

    /// Whether the version goes to all items, with this set below it.
    fn spreads<S: VersionSet>(&self, item: ItemId, version: Version, below: &S) -> bool
        ensures { result ≡ spreads self.now item version (S.has below.now) }
    {
        let first = item.creator();
        if comes_next(first, version) && below.contains(first) && self.items.goes_to_all(first) {
            return true;
        }
        self.items.goes_to_all(version)
    }

    /// The item's first version, where it goes to all items with a version that has this set below it.
    fn first_along<S: VersionSet>(&self, item: ItemId, below: &S) -> Option<Version>
        ensures { IsSame (in_some name_eq result) (λ v. (goes_to_all self.now item && S.has below.now item) && name_eq item v) }
    {
        let first = item.creator();
        if below.contains(first) && self.items.goes_to_all(first) {
            Some(first)
        } else {
            None
        }
    }

    /// What all items learn with a version that has this set below it: the version, and the item's first one
    /// where it goes along. `None` where the version is learned for its own item alone.
    fn spread<S: VersionSet>(
        &self,
        item: ItemId,
        version: Version,
        below: &S,
    ) -> Option<(Option<Version>, Version)>
        ensures all { IfSome result (λ learned. learned_of sparing_form self.now item version (S.has below.now) ≡ with_all (normal_known self.now) (both (in_some name_eq learned.0) (name_eq learned.1))) }
        ensures alone { result ≡ None → spreads self.now item version (S.has below.now) ≡ false }
    {
        if !self.spreads(item, version, below) {
            return None;
        }
        Some((self.first_along(item, below), version))
    }

    /// The fault that `learn_with` would answer where memory is there. It allocates nothing. It costs a
    /// search for the item, a walk along two columns of all items to no more than [`SPARED_HOLES`](crate::SPARED_HOLES)
    /// holes of each and, where the set has something new, a walk through the item's own vector; where a limit
    /// may be near, a walk through what waits and through each listed vector.
    pub fn may_learn_with<S: VersionSet>(
        &self,
        item: ItemId,
        version: Version,
        below: &S,
    ) -> Result<(), FormFault>
        ensures holes { IsErrOf result FormFault.TooManyHoles ↔ IsOverHolesInTurn sparing_form (learned_of sparing_form self.now item version (S.has below.now)) (learned_with sparing_form self.now item version (S.has below.now)) }
        ensures items { IsErrOf result FormFault.TooManyItems ↔ IsOverItemsInTurn sparing_form (learned_of sparing_form self.now item version (S.has below.now)) (learned_with sparing_form self.now item version (S.has below.now)) }
        ensures memory { result ≢ Err FormFault.OutOfMemory }
    {
        let set = OfSet { set: below };
        match self.spread(item, version, below) {
            Some(learned) => self.items.may_grow(&Some(item), &learned, &set),
            None => self.items.may_learn_alone_with(item, version, &set),
        }
    }

    /// Learns a version that came with the set of versions below it: the version for all items where it
    /// goes to all, else for its own, and the set for its own; and where it goes to all, the item's first
    /// version too, where the set has it and it goes to all by itself. It costs a search for the item, a
    /// walk along two columns of all items to no more than [`SPARED_HOLES`](crate::SPARED_HOLES) holes of each, a
    /// copy of what waits where the item's first version goes along and, where the set has something new, a copy
    /// of the item's vector; where a limit may be near, a copy of each listed vector.
    pub fn learn_with<S: VersionSet>(
        &mut self,
        item: ItemId,
        version: Version,
        below: &S,
    ) -> Result<(), FormFault>
        ensures ok { OnOk result (AreSame (normal_known self.new) (learned_with sparing_form self.old item version (S.has below.now))) }
        ensures holes { IsErrOf result FormFault.TooManyHoles ↔ IsOverHolesInTurn sparing_form (learned_of sparing_form self.old item version (S.has below.now)) (learned_with sparing_form self.old item version (S.has below.now)) }
        ensures items { IsErrOf result FormFault.TooManyItems ↔ IsOverItemsInTurn sparing_form (learned_of sparing_form self.old item version (S.has below.now)) (learned_with sparing_form self.old item version (S.has below.now)) }
        ensures err { OnErr result (self.new ≡ self.old) }
    {
        let set = OfSet { set: below };
        match self.spread(item, version, below) {
            Some(learned) => self.items.grow(&Some(item), &learned, &set),
            None => self.items.learn_alone_with(item, version, &set),
        }
    }

    /// Adds all versions of a fragment, whose vector is of any form, for each of its items, and nothing
    /// else.
    pub fn merge<S: VersionSet>(&mut self, fragment: &Fragment<S>) -> Result<(), FormFault>
        ensures ok { OnOk result (AreSame (normal_known self.new) (with_pairs (normal_known self.old) (covered S.has fragment.now))) }
        ensures holes { IsErrOf result FormFault.TooManyHoles ↔ HasHoleyItem (with_pairs (normal_known self.old) (covered S.has fragment.now)) }
        ensures items { IsErrOf result FormFault.TooManyItems ↔ IsOnlyOverItems sparing_form (with_pairs (normal_known self.old) (covered S.has fragment.now)) }
        ensures err { OnErr result (self.new ≡ self.old) }
    {
        self.items.merge(fragment)
    }

    /// The fault that `merge` would answer where memory is there. It allocates nothing.
    pub fn may_merge<S: VersionSet>(&self, fragment: &Fragment<S>) -> Result<(), FormFault>
        ensures holes { IsErrOf result FormFault.TooManyHoles ↔ HasHoleyItem (with_pairs (normal_known self.now) (covered S.has fragment.now)) }
        ensures items { IsErrOf result FormFault.TooManyItems ↔ IsOnlyOverItems sparing_form (with_pairs (normal_known self.now) (covered S.has fragment.now)) }
        ensures memory { result ≢ Err FormFault.OutOfMemory }
    {
        self.items.may_merge(fragment)
    }

    /// A knowledge that knows what this one does and what the fragments cover, which are merged one after
    /// the other; this one stays as it is. It answers and costs as that of an
    /// [`ItemKnowledge`](crate::ItemKnowledge).
    pub fn with_fragments<S: VersionSet>(
        &self,
        fragments: &[Fragment<S>],
    ) -> Result<SparingKnowledge, FormFault>
        ensures ok { IfOk result (λ knowledge. AreSame (normal_known knowledge) (with_pairs (normal_known self.now) (all_covered S.has fragments.now))) }
        ensures value { OnOk result (All (HasValue sparing_form) (after_each S.has (normal_known self.now) fragments.now)) }
        ensures holes { IsErrOf result FormFault.TooManyHoles → AreOverHolesInTurn sparing_form (after_each S.has (normal_known self.now) fragments.now) }
        ensures items { IsErrOf result FormFault.TooManyItems → AreOverItemsInTurn sparing_form (after_each S.has (normal_known self.now) fragments.now) }
        ensures memory { IsErrOf result FormFault.OutOfMemory → FirstHasValue sparing_form (after_each S.has (normal_known self.now) fragments.now) }
    {
        Ok(SparingKnowledge {
            items: self.items.with_fragments(fragments)?,
        })
    }
}
