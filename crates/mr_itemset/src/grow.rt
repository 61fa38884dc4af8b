//! Versions that are learned for all items.
ghost use Rattle.std.specs.Prelude.{◌≡◌, true, All, OnOk, IfOk, Err};
ghost use Rattle.mr_version.specs.Name.{Name};
ghost use Rattle.mr_forms.specs.Sets.{IsSame, Covers, both};
ghost use Rattle.mr_forms.specs.Known.{AreSame};
ghost use Rattle.mr_concise.specs.Vector.{vector_has, IsVectorOf};
ghost use Rattle.mr_itemset.specs.Normal.{normal_known, IsNormal, IsBefore};
ghost use Rattle.mr_itemset.specs.ItemForm.{with_all};
ghost use Rattle.mr_itemset.specs.inner.Entries.{listed_as, listed_of};
ghost use Rattle.mr_itemset.specs.inner.Growth.{IsGrown, GainsListed};

use crate::item::put_in;
use crate::knowledge::Listed;
use crate::limits::lacks;
use crate::settled::{Settled, Vectors};
use mr_concise::{ConciseVector, Source};
use mr_forms::{FormFault, VersionSet};
use mr_version::ItemId;
use std::alloc::AllocError;
use std::collections::BTreeMap;

/// What all items have and what the item has. It costs a copy of the one, and a walk along the columns of the other.
fn united(all: &ConciseVector, vector: &ConciseVector) -> Result<ConciseVector, FormFault>
    ensures { IfOk result (IsVectorOf (both (vector_has all.now) (vector_has vector.now))) }
{
    let mut grown = all.copy()?;
    grown.union(vector)?;
    // a vector's columns are as they have to be
    let _columns = grown.author_columns();
    Ok(grown)
}

/// Lists the item with all that is known of it and the added versions, unless all items have just that. Where they
/// have, it costs a search in what all items have for each run of the item's vector, and nothing is copied.
fn push_grown<A: Source>(
    listed: &mut Vectors,
    all: &ConciseVector,
    item: ItemId,
    vector: &ConciseVector,
    added: &A,
) -> Result<(), AllocError>
    requires before { All (λ y. IsBefore y (listed_as item vector.now)) (listed_of listed.old.entries) }
    requires covers { (v : Name) → vector_has all.now v ≡ true → both (A.has added.now) (vector_has vector.now) v ≡ true }
    requires added { Covers (vector_has all.now) (A.has added.now) }
    ensures { OnOk result (GainsListed (A.has added.now) all.now (listed_as item vector.now) (listed_of listed.old.entries) (listed_of listed.new.entries)) }
{
    if !lacks(all, vector) {
        return Ok(());
    }
    let Ok(vector) = united(all, vector) else {
        return Err(AllocError);
    };
    put_in(listed, Listed { item, vector })?;
    Ok(())
}

impl<const LIMIT: usize> Settled<LIMIT> {
    /// The listed items, with the added versions, of which more is known than of all.
    fn grown_listed<A: Source>(&self, all: &ConciseVector, added: &A) -> Result<Vectors, AllocError>
        requires has { IsSame (vector_has all.now) (both (A.has added.now) (vector_has self.now.all)) }
        ensures { IfOk result (λ listed. IsGrown (A.has added.now) all.now self.now.listed (listed_of listed.entries)) }
    {
        let alloc = self.allocator();
        let mut listed = BTreeMap::new(alloc);
        for (item, vector) in self.listed() {
            push_grown(&mut listed, all, *item, vector, added)?;
        }
        Ok(listed)
    }

    /// The knowledge with the added versions for all items.
    pub(crate) fn with_all<A: Source>(&self, added: &A) -> Result<Settled<LIMIT>, AllocError>
        ensures same { IfOk result (λ k. AreSame (normal_known k) (with_all (normal_known self.now) (A.has added.now))) }
        ensures normal { IfOk result (IsNormal LIMIT) }
    {
        let alloc = self.allocator();
        let Ok(all) = ConciseVector::gather(alloc, &(added, self.for_all())) else {
            return Err(AllocError);
        };
        let listed = self.grown_listed(&all, added)?;
        Ok(Settled::from_parts(alloc, all, listed))
    }
}
