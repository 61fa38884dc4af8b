//! Growth by several versions of all items, and some of one.
ghost use Rattle.std.specs.Prelude.{◌≡◌, ◌↔◌, ◌≢◌, true, false, IsTrue, IsErrOf, IfOk, OnOk, OnErr, Err};
ghost use Rattle.mr_forms.specs.Sets.{both};
ghost use Rattle.mr_forms.specs.Known.{AreSame, HasValue, IsOverHolesInTurn, IsOverItemsInTurn, with_below};
ghost use Rattle.mr_concise.specs.Vector.{vector_has};
ghost use Rattle.mr_itemset.specs.Normal.{normal_known, IsNormal};
ghost use Rattle.mr_itemset.specs.ItemForm.{items_form, HasHoleyItem, ListsTooMany, with_all};
ghost use Rattle.mr_itemset.specs.inner.Growth.{with_some_below};

use crate::knowledge::ItemsUpTo;
use crate::limits::lacks;
use crate::pending::{fit_together, most_holes};
use crate::settled::Settled;
use mr_concise::{ConciseVector, Source, would_have_too_many};
use mr_forms::FormFault;
use mr_version::ItemId;
use std::alloc::AllocError;

impl<const LIMIT: usize> Settled<LIMIT> {
    /// Whether the item's vector would have too many holes with these versions, where they are something new,
    /// once all items have what they learn and those that are pending. It allocates nothing, and walks
    /// through those that are pending only where a limit may be near.
    pub(crate) fn would_be_holey_more<A: Source, S: Source>(
        &self,
        item: ItemId,
        learned: &A,
        pending: &ConciseVector,
        below: &S,
    ) -> bool
        ensures yes { result ≡ true → HasHoleyItem (with_below (with_all (normal_known self.now) (both (A.has learned.now) (vector_has pending.now))) item (S.has below.now)) }
        ensures no { result ≡ false → HasHoleyItem (with_below (with_all (normal_known self.now) (both (A.has learned.now) (vector_has pending.now))) item (S.has below.now)) → HasHoleyItem (with_all (normal_known self.now) (both (A.has learned.now) (vector_has pending.now))) }
    {
        let vector = self.vector_of(item);
        let known = ((learned, pending), vector);
        if !lacks(&known, below) {
            return false;
        }
        let own = mr_concise::most_holes(&(below, vector));
        let added = mr_concise::most_holes(learned);
        // a vector's columns are as they have to be
        let _columns = pending.author_columns();
        if fit_together(own, most_holes(pending), added) {
            return false;
        }
        would_have_too_many(&(below, known))
    }
}

impl<const LIMIT: usize> ItemsUpTo<LIMIT> {
    /// The knowledge in its normal form.
    pub(crate) fn folded(&self) -> Result<Settled<LIMIT>, AllocError>
        ensures is { IfOk result (λ settled. settled ≡ self.now) }
        ensures normal { IsNormal LIMIT self.now }
    {
        let parts = self.parts();
        let settled = parts.settled.with_all(parts.pending)?;
        Ok(settled)
    }

    /// Whether the item's vector would have too many holes with these versions, once all items have what
    /// they learn.
    pub(crate) fn would_be_holey_more<A: Source, S: Source>(
        &self,
        item: ItemId,
        learned: &A,
        below: &S,
    ) -> bool
        ensures yes { result ≡ true → HasHoleyItem (with_below (with_all (normal_known self.now) (A.has learned.now)) item (S.has below.now)) }
        ensures no { result ≡ false → HasHoleyItem (with_below (with_all (normal_known self.now) (A.has learned.now)) item (S.has below.now)) → HasHoleyItem (with_all (normal_known self.now) (A.has learned.now)) }
    {
        let parts = self.parts();
        parts
            .settled
            .would_be_holey_more(item, learned, parts.pending, below)
    }

    /// Whether the versions may be listed for the item, once all items have what they learn.
    fn has_room_more<A: Source, S: Source>(&self, item: ItemId, learned: &A, below: &S) -> bool
        ensures yes { result ≡ true → ¬ ListsTooMany LIMIT (with_below (with_all (normal_known self.now) (A.has learned.now)) item (S.has below.now)) }
        ensures no { result ≡ false → ListsTooMany LIMIT (with_below (with_all (normal_known self.now) (A.has learned.now)) item (S.has below.now)) }
    {
        let parts = self.parts();
        parts
            .settled
            .has_room_with(item, &(learned, parts.pending), below)
    }

    /// Whether some vector would have too many holes, once all items have what they learn. It looks at the listed
    /// items only where a limit may be near, and not all items have that already.
    fn would_be_holey<A: Source>(&self, learned: &A) -> bool
        ensures holey { IsTrue result ↔ HasHoleyItem (with_all (normal_known self.now) (A.has learned.now)) }
        ensures normal { IsNormal LIMIT self.now }
    {
        let parts = self.parts();
        if self.has_leeway(learned) {
            return false;
        }
        if !self.all_lack(learned) {
            return false;
        }
        parts.settled.would_be_holey(&(learned, parts.pending))
    }

    /// The fault that `grow` would answer where memory is there. It allocates nothing. It costs a walk through the
    /// versions; for an item also a search for it and, where the set has something new, a walk through its vector and
    /// a number for each author of what waits; where a limit may be near, a walk through what waits and each listed vector.
    pub(crate) fn may_grow<A: Source, S: Source>(
        &self,
        item: &Option<ItemId>,
        learned: &A,
        below: &S,
    ) -> Result<(), FormFault>
        ensures ok { OnOk result (HasValue (items_form LIMIT) (with_some_below (with_all (normal_known self.now) (A.has learned.now)) item.now (S.has below.now))) }
        ensures holes { IsErrOf result FormFault.TooManyHoles ↔ IsOverHolesInTurn (items_form LIMIT) (with_all (normal_known self.now) (A.has learned.now)) (with_some_below (with_all (normal_known self.now) (A.has learned.now)) item.now (S.has below.now)) }
        ensures items { IsErrOf result FormFault.TooManyItems ↔ IsOverItemsInTurn (items_form LIMIT) (with_all (normal_known self.now) (A.has learned.now)) (with_some_below (with_all (normal_known self.now) (A.has learned.now)) item.now (S.has below.now)) }
        ensures memory { result ≢ Err FormFault.OutOfMemory }
    {
        if self.would_be_holey(learned) {
            return Err(FormFault::TooManyHoles);
        }
        let Some(item) = item else {
            return Ok(());
        };
        if self.would_be_holey_more(*item, learned, below) {
            return Err(FormFault::TooManyHoles);
        }
        if !self.has_room_more(*item, learned, below) {
            return Err(FormFault::TooManyItems);
        }
        Ok(())
    }

    /// Adds versions for all items, and the set for this one if there is one. It looks at all listed items, and leaves
    /// nothing pending.
    fn settle<A: Source, S: Source>(
        &mut self,
        item: &Option<ItemId>,
        learned: &A,
        below: &S,
    ) -> Result<(), AllocError>
        ensures ok { OnOk result (AreSame (normal_known self.new) (with_some_below (with_all (normal_known self.old) (A.has learned.now)) item.now (S.has below.now))) }
        ensures err { OnErr result (self.new ≡ self.old) }
    {
        let parts = self.parts();
        let learned = (learned, parts.pending);
        let grown = parts.settled.with_learned_below(item, &learned, below)?;
        *self = ItemsUpTo::of(grown);
        Ok(())
    }

    /// Learns versions for all items, and the set for this one if there is one. It costs a search in what waits for one
    /// version; for more, a walk through them and through what waits of their authors; for an item also a search for it
    /// and, where the set has something new, a copy of its vector; where a limit may be near, a copy of each listed vector.
    pub(crate) fn grow<A: Source, S: Source>(
        &mut self,
        item: &Option<ItemId>,
        learned: &A,
        below: &S,
    ) -> Result<(), FormFault>
        ensures ok { OnOk result (AreSame (normal_known self.new) (with_some_below (with_all (normal_known self.old) (A.has learned.now)) item.now (S.has below.now))) }
        ensures holes { IsErrOf result FormFault.TooManyHoles ↔ IsOverHolesInTurn (items_form LIMIT) (with_all (normal_known self.old) (A.has learned.now)) (with_some_below (with_all (normal_known self.old) (A.has learned.now)) item.now (S.has below.now)) }
        ensures items { IsErrOf result FormFault.TooManyItems ↔ IsOverItemsInTurn (items_form LIMIT) (with_all (normal_known self.old) (A.has learned.now)) (with_some_below (with_all (normal_known self.old) (A.has learned.now)) item.now (S.has below.now)) }
        ensures err { OnErr result (self.new ≡ self.old) }
    {
        let Ok(done) = self.try_grow(item, learned, below) else {
            self.may_grow(item, learned, below)?;
            return Err(FormFault::OutOfMemory);
        };
        if done {
            return Ok(());
        }
        self.may_grow(item, learned, below)?;
        self.settle(item, learned, below)?;
        Ok(())
    }
}
