//! Which items are listed in the normal form.
ghost use Rattle.std.specs.Prelude.{◌≡◌, ◌≤◌, ◌↔◌, true, false, IsTrue, All, length};
ghost use Rattle.std.specs.List.{list_any};
ghost use Rattle.mr_version.specs.Name.{name_eq};
ghost use Rattle.mr_forms.specs.Sets.{Covers};
ghost use Rattle.mr_concise.specs.Vector.{vector_has, IsVectorFrom};
ghost use Rattle.mr_itemset.specs.inner.Lacking.{Lacks};
ghost use Rattle.mr_itemset.specs.Normal.{normal_known, IsNormal};
ghost use Rattle.mr_itemset.specs.inner.Normal.{items_of};
ghost use Rattle.mr_itemset.specs.Folded.{united, gained};
ghost use Rattle.mr_itemset.specs.inner.Folded.{Fits};
ghost use Rattle.mr_version.specs.Name.{Name};

use crate::knowledge::ItemsUpTo;
use crate::limits::lacks;
use crate::settled::Settled;
use mr_concise::{ConciseVector, Source};
use mr_version::ItemId;

/// How many listed items have more than all have, together with the pending versions. It looks at the
/// listed items only where something is pending.
pub(crate) fn count_beyond<const LIMIT: usize>(
    settled: &Settled<LIMIT>,
    pending: &ConciseVector,
) -> usize
    requires vector { IsVectorFrom 0 pending.now }
    requires all { Fits settled.now.all pending.now }
    requires listed { All (λ x. Fits x.vector pending.now) settled.now.listed }
    ensures count { result ≡ length (gained pending.now (united settled.now.all pending.now) settled.now.listed) }
    ensures bound { result ≤ LIMIT }
{
    if pending.author_columns().is_empty() {
        return settled.listed().len();
    }
    let all = (pending, settled.for_all());
    let mut count = 0;
    for vector in settled.vectors() {
        if lacks(&all, vector) {
            count += 1;
        }
    }
    count
}

impl<const LIMIT: usize> ItemsUpTo<LIMIT> {
    /// Whether some version of the set is not known for all items.
    pub(crate) fn all_lack<S: Source>(&self, set: &S) -> bool
        ensures yes { result ≡ true → Lacks (vector_has self.now.all) (S.has set.now) }
        ensures no { result ≡ false → Covers (vector_has self.now.all) (S.has set.now) }
        ensures normal { IsNormal LIMIT self.now }
    {
        let parts = self.parts();
        lacks(&(parts.pending, parts.settled.for_all()), set)
    }

    /// Whether more is known of the item than of all.
    pub(crate) fn lists(&self, item: ItemId) -> bool
        ensures { result ≡ list_any (name_eq item) (items_of self.now.listed) }
    {
        let parts = self.parts();
        let all = (parts.pending, parts.settled.for_all());
        lacks(&all, parts.settled.vector_of(item))
    }

    /// Whether some version of the set is not known for the item.
    pub(crate) fn item_lacks<S: Source>(&self, item: ItemId, set: &S) -> bool
        ensures yes { result ≡ true → Lacks (normal_known self.now item) (S.has set.now) }
        ensures no { result ≡ false → Covers (normal_known self.now item) (S.has set.now) }
    {
        let parts = self.parts();
        lacks(&(parts.pending, parts.settled.vector_of(item)), set)
    }

    /// Whether all that the other has for all items is known for all.
    fn covers_for_all(&self, other: &ItemsUpTo<LIMIT>) -> bool
        ensures yes { result ≡ true → Covers (vector_has self.now.all) (vector_has other.now.all) }
        ensures no { result ≡ false → Lacks (vector_has self.now.all) (vector_has other.now.all) }
        ensures normal { IsNormal LIMIT self.now }
        ensures other_normal { IsNormal LIMIT other.now }
    {
        let parts = other.parts();
        if self.all_lack(parts.pending) {
            return false;
        }
        !self.all_lack(parts.settled.for_all())
    }

    /// Whether all that is listed there is known.
    fn covers_listed(&self, settled: &Settled<LIMIT>) -> bool
        ensures yes { result ≡ true → All (λ x. Covers (normal_known self.now x.item) (vector_has x.vector)) settled.now.listed }
        ensures no { result ≡ false → ¬ All (λ x. Covers (normal_known self.now x.item) (vector_has x.vector)) settled.now.listed }
    {
        for (item, vector) in settled.listed() {
            if self.item_lacks(*item, vector) {
                return false;
            }
        }
        true
    }

    /// Whether all that the other knows is known. For n listed items it takes about n searches.
    pub(crate) fn covers(&self, other: &ItemsUpTo<LIMIT>) -> bool
        ensures covers { IsTrue result ↔ ((item : Name) → Covers (normal_known self.now item) (normal_known other.now item)) }
        ensures normal { IsNormal LIMIT self.now }
        ensures other_normal { IsNormal LIMIT other.now }
    {
        self.covers_for_all(other) && self.covers_listed(other.parts().settled)
    }
}
