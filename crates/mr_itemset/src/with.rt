//! A set that is learned for one item, while all items learn some versions too.
ghost use Rattle.std.specs.Prelude.{◌≡◌, true, false, None, Some, All, IfOk, IfSome};
ghost use Rattle.mr_forms.specs.Sets.{Covers, both};
ghost use Rattle.mr_forms.specs.Known.{AreSame, with_below};
ghost use Rattle.mr_itemset.specs.inner.Growth.{with_some_below};
ghost use Rattle.mr_itemset.specs.inner.Lacking.{Lacks};
ghost use Rattle.mr_concise.specs.Vector.{vector_has};
ghost use Rattle.mr_itemset.specs.Normal.{normal_known, vector_of, IsNormal};
ghost use Rattle.mr_itemset.specs.ItemForm.{ListsTooMany, with_all};
ghost use Rattle.mr_itemset.specs.inner.Room.{Drops, HasRoomWith};

use crate::limits::lacks;
use crate::settled::Settled;
use mr_concise::Source;
use mr_version::ItemId;
use std::alloc::AllocError;

impl<const LIMIT: usize> Settled<LIMIT> {
    /// Whether some item would be listed no longer, once all items have what they learn. It allocates
    /// nothing.
    fn would_drop<A: Source>(&self, learned: &A) -> bool
        ensures yes { result ≡ true → Drops (A.has learned.now) self.now }
        ensures no { result ≡ false → All (λ x. ¬ Covers (both (A.has learned.now) (vector_has self.now.all)) (vector_has x.vector)) self.now.listed }
    {
        for vector in self.vectors() {
            if !lacks(&(learned, self.for_all()), vector) {
                return true;
            }
        }
        false
    }

    /// Whether the versions may be listed for the item, once all items have what they learn. It
    /// allocates nothing.
    pub(crate) fn has_room_with<A: Source, S: Source>(
        &self,
        item: ItemId,
        learned: &A,
        below: &S,
    ) -> bool
        ensures yes { result ≡ true → HasRoomWith LIMIT self.now (A.has learned.now) item (S.has below.now) }
        ensures no { result ≡ false → ListsTooMany LIMIT (with_below (with_all (normal_known self.now) (A.has learned.now)) item (S.has below.now)) }
        ensures normal { IsNormal LIMIT self.now }
    {
        if self.listed().len() < LIMIT {
            return true;
        }
        if self.lists(item) {
            return true;
        }
        if !lacks(&(learned, self.for_all()), below) {
            return true;
        }
        self.would_drop(learned)
    }

    /// The item, if the set has something new for it, once all items have what they learn.
    pub(crate) fn gaining<A: Source, S: Source>(
        &self,
        item: &Option<ItemId>,
        learned: &A,
        below: &S,
    ) -> Option<ItemId>
        ensures is { IfSome result (λ i. item.now ≡ Some i) }
        ensures lacks { IfSome result (λ i. Lacks (both (A.has learned.now) (vector_has (vector_of self.now i))) (S.has below.now)) }
        ensures none { result ≡ None → AreSame (with_all (normal_known self.now) (A.has learned.now)) (with_some_below (with_all (normal_known self.now) (A.has learned.now)) item.now (S.has below.now)) }
    {
        let Some(item) = item else {
            return None;
        };
        if lacks(&(learned, self.vector_of(*item)), below) {
            return Some(*item);
        }
        None
    }

    /// The knowledge with what all items learn, and the set for this one if there is one.
    pub(crate) fn with_learned_below<A: Source, S: Source>(
        &self,
        item: &Option<ItemId>,
        learned: &A,
        below: &S,
    ) -> Result<Settled<LIMIT>, AllocError>
        ensures { IfOk result (λ k. AreSame (normal_known k) (with_some_below (with_all (normal_known self.now) (A.has learned.now)) item.now (S.has below.now))) }
    {
        let mut grown = self.with_all(learned)?;
        let Some(item) = item else {
            return Ok(grown);
        };
        grown.learn_below(*item, below)?;
        Ok(grown)
    }
}
