//! Knowledge that lists no more than so many items.
ghost use Rattle.std.specs.Prelude.{◌≡◌, ◌≤◌, true, false, length, map, All, IfOk, OnErr, Err};
ghost use Rattle.std.specs.List.{AllZip};
ghost use Rattle.mr_forms.specs.Known.{AreSame};
ghost use Rattle.mr_forms.specs.Covered.{all_covered, HasItems};
ghost use Rattle.mr_forms.specs.Parts.{part_of, ArePartsThat};
ghost use Rattle.mr_concise.specs.Vector.{vector_has};
ghost use Rattle.mr_itemset.specs.Normal.{normal_known, IsNormal};
ghost use Rattle.mr_itemset.specs.Shown.{shown, fragments_in};
ghost use Rattle.mr_itemset.specs.Told.{IsToldOf, IsToldPart, IsSparest};
ghost use Rattle.mr_itemset.specs.ItemForm.{with_all, HasHoleyItem};
ghost use Rattle.mr_itemset.specs.inner.Folded.{IsSplit};
ghost use Rattle.mr_itemset.specs.inner.Growth.{HasLearned};

use crate::item::add_all;
use crate::listing::count_beyond;
use crate::pending::{fit_together, most_holes};
use crate::settled::Settled;
use mr_concise::{ConciseVector, Source};
use mr_forms::{FormFault, Fragment, MAX_ITEMS, VersionSet};
use mr_version::ItemId;
use std::alloc::AllocError;
use std::marker::Model;

/// An item of which more is known than of all, with all that is known of it.
#[derive(Debug, Drop)]
pub struct Listed {
    pub item: ItemId,
    pub vector: ConciseVector,
}

/// Which versions are known for which items, of which no more than `LIMIT` are listed. A version that is
/// learned for all items waits beside what is settled, so that learning it looks at no listed item. No column
/// of what is settled has more than `most_holes` holes, so that this number tells where a limit may be near.
#[derive(Debug, Drop)]
pub struct ItemsUpTo<const LIMIT: usize> {
    settled: Settled<LIMIT>,
    pending: ConciseVector,
    most_holes: usize,
}

impl<const LIMIT: usize> Model for ItemsUpTo<LIMIT> {
    ghost use Rattle.mr_itemset.specs.Normal.{Normal, normal_code};
    ghost use Rattle.mr_itemset.specs.Folded.{folded, IsKept};

    ghost Value = { Normal };

    ghost coded = { normal_code };

    ghost view = { λ k. folded k.settled k.pending };

    ghost invariant = { λ k. IsKept LIMIT k.settled k.pending k.most_holes };
}

/// Which versions are known for which items, of which it lists no more than one fragment may.
pub type ItemKnowledge = ItemsUpTo<MAX_ITEMS>;

/// What a knowledge is made of: what is settled, and the versions of all items that are not yet in it.
#[derive(Drop)]
pub(crate) struct Parts<'a, const LIMIT: usize> {
    pub(crate) settled: &'a Settled<LIMIT>,
    pub(crate) pending: &'a ConciseVector,
}

impl<const LIMIT: usize> ItemsUpTo<LIMIT> {
    /// The same knowledge, with nothing pending. It looks at all listed items.
    pub(crate) fn of(settled: Settled<LIMIT>) -> ItemsUpTo<LIMIT>
        ensures { result ≡ settled.entry }
    {
        let most_holes = settled.most_holes();
        let pending = ConciseVector::new(settled.allocator());
        ItemsUpTo {
            settled,
            pending,
            most_holes,
        }
    }

    /// Its parts, lent.
    pub(crate) fn parts(&self) -> Parts<'_, LIMIT>
        ensures { IsSplit LIMIT self.now result.settled.now result.pending.now }
    {
        Parts {
            settled: &self.settled,
            pending: &self.pending,
        }
    }

    /// An equal knowledge.
    pub(crate) fn copy_parts(&self) -> Result<ItemsUpTo<LIMIT>, AllocError>
        ensures { IfOk result (λ k. k ≡ self.now) }
    {
        let settled = self.settled.copy()?;
        let Ok(pending) = self.pending.copy() else {
            return Err(AllocError);
        };
        Ok(ItemsUpTo {
            settled,
            pending,
            most_holes: self.most_holes,
        })
    }

    /// Of how many items more is known than of all. It looks at all listed items.
    pub(crate) fn listed_count(&self) -> usize
        ensures count { result ≡ length self.now.listed }
        ensures bound { result ≤ LIMIT }
        ensures normal { IsNormal LIMIT self.now }
    {
        count_beyond(&self.settled, &self.pending)
    }

    /// The knowledge as fragments that say each thing once, as those of a
    /// [`SparingKnowledge`](crate::SparingKnowledge) do.
    pub(crate) fn told(&self) -> Result<Vec<Fragment<ConciseVector>>, FormFault>
        ensures are { IfOk result (λ fragments. AllZip (IsToldOf self.now.all) (fragments_in self.now) (map shown fragments.items)) }
        ensures fewest { IfOk result (λ fragments. AllZip (IsSparest self.now.all) (fragments_in self.now) (map shown fragments.items)) }
        ensures ok { IfOk result (λ fragments. AreSame (normal_known self.now) (all_covered vector_has fragments.items)) }
        ensures items { IfOk result (λ fragments. All (λ fragment. HasItems fragment.items) fragments.items) }
        ensures parts { IfOk result (λ fragments. ArePartsThat (IsToldPart self.now) (map (part_of vector_has) fragments.items)) }
        ensures memory { OnErr result (result ≡ Err FormFault.OutOfMemory) }
    {
        Ok(self.settled.told(&self.pending)?)
    }

    /// No fewer than there are items of which more is known than of all, without a look at them.
    pub(crate) fn most_listed(&self) -> usize
        ensures most { length self.now.listed ≤ result }
        ensures bound { result ≤ LIMIT }
    {
        self.settled.listed().len()
    }

    /// Whether the holes leave room for these versions of all items, without a look at the listed ones. It
    /// costs a walk through the versions, and a number for each author of what waits.
    pub(crate) fn has_leeway<A: Source>(&self, learned: &A) -> bool
        ensures { result ≡ true → ¬ HasHoleyItem (with_all (normal_known self.now) (A.has learned.now)) }
    {
        let added = mr_concise::most_holes(learned);
        // a vector's columns are as they have to be
        let _columns = self.pending.author_columns();
        fit_together(self.most_holes, most_holes(&self.pending), added)
    }

    /// Adds versions for all items, and the set for this one if there is one, where neither holes nor listed items
    /// are near their limit. `false` where one may be. It costs a search in what waits for one version; for more, a
    /// walk through them and through what waits of their authors; for an item also a search for it and, where the set
    /// has something new, a copy of its vector.
    pub(crate) fn try_grow<A: Source, S: Source>(
        &mut self,
        item: &Option<ItemId>,
        learned: &A,
        below: &S,
    ) -> Result<bool, AllocError>
        ensures done { IfOk result (λ done. done ≡ true → HasLearned LIMIT self.old self.new (A.has learned.now) item.now (S.has below.now)) }
        ensures not { IfOk result (λ done. done ≡ false → self.new ≡ self.old) }
        ensures err { OnErr result (self.new ≡ self.old) }
    {
        let waiting = most_holes(&self.pending);
        let added = mr_concise::most_holes(learned);
        if !fit_together(self.most_holes, waiting, added) {
            return Ok(false);
        }
        let Some(item) = self.settled.gaining(item, &(learned, &self.pending), below) else {
            add_all(&mut self.pending, self.settled.allocator(), learned)?;
            return Ok(true);
        };
        let grown = self.settled.grown_item(self.most_holes, item, below)?;
        let Some((new, holes)) = grown else {
            return Ok(false);
        };
        if !fit_together(holes, waiting, added) {
            return Ok(false);
        }
        self.settled.list_with(new, &mut self.pending, learned)?;
        self.most_holes = holes;
        Ok(true)
    }
}
