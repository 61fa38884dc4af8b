//! Knowledge that is kept pair by pair.
ghost use Rattle.std.specs.Prelude.{◌≡◌, ◌&&◌, ◌||◌, All, OnOk, OnErr, Err, IfOk, map};
ghost use Rattle.std.specs.List.{list_any};
ghost use Rattle.std.specs.Ordering.{eq_by_cmp};
ghost use Rattle.mr_forms.specs.declared.plain_knowledge.Pair.{Pair};
ghost use Rattle.mr_version.specs.Name.{Name, name_eq};
ghost use Rattle.mr_forms.specs.Sets.{is_listed};
ghost use Rattle.mr_forms.specs.Known.{AreSame, with_pairs};
ghost use Rattle.mr_forms.specs.Covered.{HasItems, all_covered};
ghost use Rattle.mr_forms.specs.PlainPair.{pair, pair_cmp, has_pair};
ghost use Rattle.mr_forms.specs.Plain.{plain_form, plain_known, IsPlainPart, IsOneByOne, AreFragmentsOf};
ghost use Rattle.mr_forms.specs.Parts.{part_of, ArePartsThat};
ghost use Rattle.mr_forms.specs.inner.PlainSteps.{EndsBy, GainsPair, IsFragmentOf, GainsVersionOf, AreForAll};

use crate::additions::add_all;
use crate::versions::versions_in;
use crate::{FormFault, Fragment, ItemSet, Knowledge, PlainVersions, VersionSet};
use mr_version::{ItemId, Version};
use std::alloc::Global;
use std::collections::BTreeSet;
use std::marker::Model;

/// An item with a version that is known for it.
#[derive(Clone, Copy, Debug, PartialEq, Eq, PartialOrd, Ord)]
struct Pair {
    item: ItemId,
    version: Version,
}

/// What is known, pair by pair in order, and apart from the pairs what was merged for all items. It
/// has a value for all that can be known, so `OutOfMemory` is its only fault. A version is learned for
/// its item alone.
///
/// Its fragments are one for each item of which something is known beyond what was merged for all, in
/// the items' order, and before them one for all items, only where something was merged for all. A pair
/// stays when its version is merged for all items, but no fragment lists it then.
///
/// `knows` and `learn` take time by the logarithm of the number of pairs; `learn_below` and `merge`
/// take memory for what they are given, and not for what is known already.
#[derive(Drop)]
pub struct PlainKnowledge {
    alloc: Global,
    for_all: PlainVersions,
    pairs: BTreeSet<Pair>,
}

impl Model for PlainKnowledge {
    ghost use Rattle.mr_forms.specs.PlainPair.{PlainKnown, known_code};

    ghost Value = { PlainKnown };

    ghost coded = { known_code };

    ghost view = { λ k. record { for_all = k.for_all; pairs = k.pairs.keys } };
}

/// Lists the pair too if it is not known.
fn push_missing(
    missing: &mut Vec<Pair>,
    known: &BTreeSet<Pair>,
    pair: Pair,
) -> Result<(), FormFault>
    ensures ok { OnOk result ((p : Pair) → (has_pair missing.new.items p || has_pair known.now.keys p) ≡ (eq_by_cmp pair_cmp p pair || (has_pair missing.old.items p || has_pair known.now.keys p))) }
    ensures memory { OnErr result (result ≡ Err FormFault.OutOfMemory) }
{
    if !known.contains(&pair) {
        missing.push(pair)?;
    }
    Ok(())
}

/// Lists too those pairs of the item and the versions that are not known.
fn push_all_missing(
    missing: &mut Vec<Pair>,
    known: &BTreeSet<Pair>,
    item: ItemId,
    versions: &[Version],
) -> Result<(), FormFault>
    ensures ok { OnOk result ((i v : Name) → (has_pair missing.new.items (pair i v) || has_pair known.now.keys (pair i v)) ≡ ((name_eq item i && is_listed versions.now v) || (has_pair missing.old.items (pair i v) || has_pair known.now.keys (pair i v)))) }
    ensures memory { OnErr result (result ≡ Err FormFault.OutOfMemory) }
{
    for version in versions {
        let pair = Pair {
            item,
            version: *version,
        };
        push_missing(missing, known, pair)?;
    }
    Ok(())
}

/// The fragment of one pair.
fn fragment_of(pair: Pair, alloc: Global) -> Result<Fragment<PlainVersions>, FormFault>
    ensures ok { IfOk result (λ f. IsFragmentOf f pair) }
    ensures memory { OnErr result (result ≡ Err FormFault.OutOfMemory) }
{
    let mut items = Vec::new(alloc);
    items.push(pair.item)?;
    let mut vector = PlainVersions::new(alloc);
    vector.insert(pair.version)?;
    Ok(Fragment {
        items: ItemSet::Listed(items),
        vector,
    })
}

/// The fragment with a version more.
fn with_version(
    fragment: Fragment<PlainVersions>,
    version: Version,
) -> Result<Fragment<PlainVersions>, FormFault>
    ensures ok { IfOk result (λ f. GainsVersionOf fragment f version) }
    ensures memory { OnErr result (result ≡ Err FormFault.OutOfMemory) }
{
    let Fragment { items, mut vector } = fragment;
    vector.insert(version)?;
    Ok(Fragment { items, vector })
}

/// Adds a pair, whose item is not below those of the fragments: to the last fragment where it is that
/// item's, or as a new fragment.
fn add_pair(
    fragments: &mut Vec<Fragment<PlainVersions>>,
    pair: Pair,
    alloc: Global,
) -> Result<(), FormFault>
    requires one_by_one { IsOneByOne fragments.old.items }
    requires up_to { All (λ f. EndsBy pair.item f.items) fragments.old.items }
    ensures ok { OnOk result (GainsPair fragments.old.items fragments.new.items pair) }
    ensures memory { OnErr result (result ≡ Err FormFault.OutOfMemory) }
{
    let Some(last) = fragments.pop() else {
        fragments.push(fragment_of(pair, alloc)?)?;
        return Ok(());
    };
    if last.items.is_only(pair.item) {
        fragments.push(with_version(last, pair.version)?)?;
    } else {
        fragments.push(last)?;
        fragments.push(fragment_of(pair, alloc)?)?;
    }
    Ok(())
}

impl PlainKnowledge {
    /// What is known for all items: one fragment, or none where that is nothing.
    fn fragments_for_all(&self) -> Result<Vec<Fragment<PlainVersions>>, FormFault>
        ensures ok { IfOk result (λ fragments. AreForAll self.now.for_all fragments.items) }
        ensures memory { OnErr result (result ≡ Err FormFault.OutOfMemory) }
    {
        let mut fragments: Vec<Fragment<PlainVersions>> = Vec::new(self.alloc);
        if self.for_all.is_empty() {
            return Ok(fragments);
        }
        fragments.push(Fragment {
            items: ItemSet::All,
            vector: self.for_all.copy()?,
        })?;
        Ok(fragments)
    }

    /// Adds the versions for each of the items.
    fn learn_versions(&mut self, items: &[ItemId], versions: &[Version]) -> Result<(), FormFault>
        ensures ok { OnOk result (AreSame (plain_known self.new) (with_pairs (plain_known self.old) (λ i v. list_any (λ item. name_eq item i) items.now && is_listed versions.now v))) }
        ensures err { OnErr result (self.new ≡ self.old) }
        ensures memory { OnErr result (result ≡ Err FormFault.OutOfMemory) }
    {
        let mut missing: Vec<Pair> = Vec::new(self.alloc);
        for item in items {
            push_all_missing(&mut missing, &self.pairs, *item, versions)?;
        }
        add_all(&mut self.pairs, &missing, self.alloc)?;
        Ok(())
    }

    /// Adds all versions of a set for each of the items.
    fn learn_for_each<S: VersionSet>(&mut self, items: &[ItemId], set: &S) -> Result<(), FormFault>
        ensures ok { OnOk result (AreSame (plain_known self.new) (with_pairs (plain_known self.old) (λ i v. list_any (λ item. name_eq item i) items.now && S.has set.now v))) }
        ensures err { OnErr result (self.new ≡ self.old) }
        ensures memory { OnErr result (result ≡ Err FormFault.OutOfMemory) }
    {
        let versions = versions_in(set, self.alloc)?;
        self.learn_versions(items, &versions)
    }

    /// Adds all versions of a set for all items.
    fn learn_for_all<S: VersionSet>(&mut self, set: &S) -> Result<(), FormFault>
        ensures ok { OnOk result (AreSame (plain_known self.new) (with_pairs (plain_known self.old) (λ _ v. S.has set.now v))) }
        ensures err { OnErr result (self.new ≡ self.old) }
        ensures memory { OnErr result (result ≡ Err FormFault.OutOfMemory) }
    {
        let versions = versions_in(set, self.alloc)?;
        self.for_all.insert_all(&versions)
    }
}

impl Knowledge for PlainKnowledge {
    ghost use Rattle.mr_forms.specs.PlainLaws.{plain_lists_more, plain_by_meaning};

    type Vector = PlainVersions;

    ghost form = { plain_form };

    ghost lists_more = { plain_lists_more };

    ghost by_meaning = { plain_by_meaning };

    fn new(alloc: Global) -> Self {
        PlainKnowledge {
            alloc,
            for_all: PlainVersions::new(alloc),
            pairs: BTreeSet::new(alloc),
        }
    }

    fn copy(&self) -> Result<Self, FormFault> {
        Ok(PlainKnowledge {
            alloc: self.alloc,
            for_all: self.for_all.copy()?,
            pairs: self.pairs.clone()?,
        })
    }

    fn knows(&self, item: ItemId, version: Version) -> bool {
        self.for_all.contains(version) || self.pairs.contains(&Pair { item, version })
    }

    fn learn(&mut self, item: ItemId, version: Version) -> Result<(), FormFault> {
        self.pairs.insert(Pair { item, version })?;
        Ok(())
    }

    fn may_learn(&self, _item: ItemId, _version: Version) -> Result<(), FormFault> {
        Ok(())
    }

    fn learn_below<S: VersionSet>(&mut self, item: ItemId, set: &S) -> Result<(), FormFault> {
        self.learn_for_each(&[item], set)
    }

    fn learn_with<S: VersionSet>(
        &mut self,
        item: ItemId,
        version: Version,
        below: &S,
    ) -> Result<(), FormFault> {
        let mut versions = versions_in(below, self.alloc)?;
        versions.push(version)?;
        self.learn_versions(&[item], &versions)
    }

    fn may_learn_with<S: VersionSet>(
        &self,
        _item: ItemId,
        _version: Version,
        _below: &S,
    ) -> Result<(), FormFault> {
        Ok(())
    }

    fn merge<S: VersionSet>(&mut self, fragment: &Fragment<S>) -> Result<(), FormFault> {
        match &fragment.items {
            ItemSet::All => self.learn_for_all(&fragment.vector),
            ItemSet::Listed(items) => self.learn_for_each(items, &fragment.vector),
        }
    }

    fn may_merge<S: VersionSet>(&self, _fragment: &Fragment<S>) -> Result<(), FormFault> {
        Ok(())
    }

    fn with_fragments<S: VersionSet>(&self, fragments: &[Fragment<S>]) -> Result<Self, FormFault> {
        let mut knowledge = self.copy()?;
        for fragment in fragments {
            knowledge.merge(fragment)?;
        }
        Ok(knowledge)
    }

    fn fragments(&self) -> Result<Vec<Fragment<PlainVersions>>, FormFault>
        ensures ok { IfOk result (λ fragments. AreSame (plain_known self.now) (all_covered is_listed fragments.items)) }
        ensures items { IfOk result (λ fragments. All (λ fragment. HasItems fragment.items) fragments.items) }
        ensures one_by_one { IfOk result (λ fragments. AreFragmentsOf self.now fragments.items) }
        ensures parts { IfOk result (λ fragments. ArePartsThat (IsPlainPart self.now) (map (part_of is_listed) fragments.items)) }
        ensures memory { OnErr result (result ≡ Err FormFault.OutOfMemory) }
    {
        let mut fragments = self.fragments_for_all()?;
        for pair in &self.pairs {
            if !self.for_all.contains(pair.version) {
                add_pair(&mut fragments, *pair, self.alloc)?;
            }
        }
        Ok(fragments)
    }
}
