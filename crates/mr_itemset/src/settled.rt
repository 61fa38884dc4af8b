//! Knowledge in its normal form.
ghost use Rattle.std.specs.Prelude.{◌≡◌, IfOk, OnOk, OnErr, Err, map};
ghost use Rattle.mr_forms.specs.Sets.{both};
ghost use Rattle.mr_concise.specs.Vector.{vector_has, IsVectorOf};
ghost use Rattle.mr_itemset.specs.Normal.{Normal, IsNormal, vector_of};
ghost use Rattle.mr_itemset.specs.inner.Entries.{listed_of, vectors_of};
ghost use Rattle.mr_itemset.specs.inner.Placed.{placed};
ghost use Rattle.mr_itemset.specs.Shown.{shown, fragments_in};

use crate::fragments::fragments_of;
use crate::groups::groups_of;
use crate::item::{put_in, put_in_with};
use crate::knowledge::Listed;
use mr_concise::{ConciseVector, Source};
use mr_forms::{FormFault, Fragment};
use mr_version::ItemId;
use std::alloc::{AllocError, Global};
use std::collections::BTreeMap;
use std::collections::btree_map::Values;
use std::marker::Model;

/// Vectors of items, by rising item.
pub(crate) type Vectors = BTreeMap<ItemId, ConciseVector>;

/// Knowledge in its normal form: a vector for all items, and one for each listed item. It lists no more than
/// `LIMIT` items.
#[derive(Debug, Drop)]
pub(crate) struct Settled<const LIMIT: usize> {
    alloc: Global,
    all: ConciseVector,
    listed: Vectors,
}

impl<const LIMIT: usize> Model for Settled<LIMIT> {
    ghost use Rattle.mr_itemset.specs.Normal.{Normal, normal_code, IsNormal};
    ghost use Rattle.mr_itemset.specs.inner.Entries.{listed_of};

    ghost Value = { Normal };

    ghost coded = { normal_code };

    ghost view = { λ k. record { all = k.all; listed = listed_of k.listed.entries } };

    ghost invariant = { λ k. IsNormal LIMIT (record { all = k.all; listed = listed_of k.listed.entries }) };
}

impl<const LIMIT: usize> Settled<LIMIT> {
    /// The knowledge with these parts, which are in normal form.
    pub(crate) fn from_parts(alloc: Global, all: ConciseVector, listed: Vectors) -> Settled<LIMIT>
        requires { IsNormal LIMIT (record { all = all; listed = listed_of listed.entries }) }
        ensures { result ≡ record { all = all; listed = listed_of listed.entries } }
    {
        Settled { alloc, all, listed }
    }

    pub(crate) fn allocator(&self) -> Global {
        self.alloc
    }

    /// What is known for all items.
    pub(crate) fn for_all(&self) -> &ConciseVector
        ensures is { result.now ≡ self.now.all }
        ensures normal { IsNormal LIMIT self.now }
    {
        &self.all
    }

    /// The items of which more is known, by rising item.
    pub(crate) fn listed(&self) -> &Vectors
        ensures is { listed_of result.now.entries ≡ self.now.listed }
        ensures normal { IsNormal LIMIT self.now }
    {
        &self.listed
    }

    /// What is known of each listed item, by rising item.
    pub(crate) fn vectors(&self) -> Values<'_, ItemId, ConciseVector>
        ensures is { result ≡ vectors_of self.now.listed }
        ensures normal { IsNormal LIMIT self.now }
    {
        self.listed.values()
    }

    /// Lists the item with all that is known of it, in place of what was.
    pub(crate) fn list(&mut self, new: Listed) -> Result<(), AllocError>
        requires { IsNormal LIMIT (record { all = self.old.all; listed = placed new self.old.listed }) }
        ensures ok { OnOk result (self.new ≡ record { all = self.old.all; listed = placed new self.old.listed }) }
        ensures err { OnErr result (self.new ≡ self.old) }
    {
        put_in(&mut self.listed, new)
    }

    /// Lists the item with all that is known of it, in place of what was, and adds versions to those
    /// that are pending: both or neither.
    pub(crate) fn list_with<A: Source>(
        &mut self,
        new: Listed,
        pending: &mut ConciseVector,
        learned: &A,
    ) -> Result<(), AllocError>
        requires { IsNormal LIMIT (record { all = self.old.all; listed = placed new self.old.listed }) }
        ensures ok { OnOk result (self.new ≡ record { all = self.old.all; listed = placed new self.old.listed }) }
        ensures pending { OnOk result (IsVectorOf (both (A.has learned.now) (vector_has pending.old)) pending.new) }
        ensures err { OnErr result ((self.new ≡ self.old) × (pending.new ≡ pending.old)) }
    {
        put_in_with(&mut self.listed, new, pending, self.alloc, learned)
    }

    /// What is known of the item.
    pub(crate) fn vector_of(&self, item: ItemId) -> &ConciseVector
        ensures is { result.now ≡ vector_of self.now item }
        ensures normal { IsNormal LIMIT self.now }
    {
        match self.listed.get(&item) {
            Some(vector) => vector,
            None => &self.all,
        }
    }

    /// The knowledge as fragments, in normal form. It costs no copy of a vector, but for those that share a slot.
    pub(crate) fn into_fragments(self) -> Result<Vec<Fragment<ConciseVector>>, FormFault>
        ensures are { IfOk result (λ fragments. map shown fragments.items ≡ fragments_in self.entry) }
        ensures memory { OnErr result (result ≡ Err FormFault.OutOfMemory) }
    {
        let Settled { alloc, all, listed } = self;
        let groups = groups_of(alloc, listed)?;
        Ok(fragments_of(alloc, all, groups)?)
    }
}
