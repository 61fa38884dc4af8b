//! One listed item: how it is put in its place, gets a vector, and is taken out again.
ghost use Rattle.std.specs.Prelude.{◌≡◌, IsSome, OnOk, OnErr};
ghost use Rattle.std.specs.BTreeMap.{get, Updates, IsOrdered};
ghost use Rattle.mr_version.specs.Name.{name_cmp};
ghost use Rattle.mr_forms.specs.Sets.{both};
ghost use Rattle.mr_forms.specs.Known.{AreSame, with_below};
ghost use Rattle.mr_concise.specs.Vector.{vector_has, IsVectorOf};
ghost use Rattle.mr_itemset.specs.Normal.{normal_known};
ghost use Rattle.mr_itemset.specs.inner.Entries.{listed_of};
ghost use Rattle.mr_itemset.specs.inner.Placed.{placed, HasRoom};

use crate::knowledge::Listed;
use crate::pending::only_version;
use crate::settled::{Settled, Vectors};
use mr_concise::{ConciseVector, Source};
use mr_forms::VersionSet;
use mr_version::ItemId;
use std::alloc::{AllocError, Global};

/// Puts an item in its place.
pub(crate) fn put_in(listed: &mut Vectors, new: Listed) -> Result<(), AllocError>
    ensures ok { OnOk result (listed_of listed.new.entries ≡ placed new (listed_of listed.old.entries)) }
    ensures err { OnErr result (listed.new.entries ≡ listed.old.entries) }
{
    listed.insert(new.item, new.vector)?;
    Ok(())
}

/// Gives an item that is listed the vector that it had before, or lists it no longer. It allocates nothing.
fn put_back(listed: &mut Vectors, item: ItemId, before: Option<ConciseVector>)
    requires { IsSome (get name_cmp listed.old item) }
    ensures updates { Updates name_cmp listed.old listed.new item before }
    ensures ordered { IsOrdered name_cmp listed.new }
{
    match before {
        Some(vector) => {
            if let Some(place) = listed.get_mut(&item) {
                *place = vector;
            }
        }
        None => {
            listed.remove(&item);
        }
    }
}

/// Adds versions to a vector. It costs a search for one version; for more, a walk through them and through what the
/// vector has of their authors.
pub(crate) fn add_all<A: Source>(
    vector: &mut ConciseVector,
    alloc: Global,
    learned: &A,
) -> Result<(), AllocError>
    ensures ok { OnOk result (IsVectorOf (both (A.has learned.now) (vector_has vector.old)) vector.new) }
    ensures err { OnErr result (vector.new ≡ vector.old) }
{
    if let Some(version) = only_version(learned) {
        let Ok(()) = vector.insert(version) else {
            return Err(AllocError);
        };
        // a vector's columns are as they have to be
        let _columns = vector.author_columns();
        return Ok(());
    }
    let Ok(more) = ConciseVector::gather(alloc, learned) else {
        return Err(AllocError);
    };
    let Ok(()) = vector.union(&more) else {
        return Err(AllocError);
    };
    // the united columns are as they have to be
    let _united = vector.author_columns();
    Ok(())
}

/// Puts an item in its place, and adds versions to those that are pending: both or neither.
pub(crate) fn put_in_with<A: Source>(
    listed: &mut Vectors,
    new: Listed,
    pending: &mut ConciseVector,
    alloc: Global,
    learned: &A,
) -> Result<(), AllocError>
    ensures ok { OnOk result (listed_of listed.new.entries ≡ placed new (listed_of listed.old.entries)) }
    ensures pending { OnOk result (IsVectorOf (both (A.has learned.now) (vector_has pending.old)) pending.new) }
    ensures err { OnErr result ((listed.new.entries ≡ listed.old.entries) × (pending.new ≡ pending.old)) }
{
    let item = new.item;
    let before = listed.insert(item, new.vector)?;
    let Ok(()) = add_all(pending, alloc, learned) else {
        put_back(listed, item, before);
        return Err(AllocError);
    };
    Ok(())
}

impl<const LIMIT: usize> Settled<LIMIT> {
    /// Adds the versions for the item. Where they are no more than all items have nothing changes.
    pub(crate) fn add_to_item<A: Source>(
        &mut self,
        item: ItemId,
        added: &A,
    ) -> Result<(), AllocError>
        requires { HasRoom LIMIT self.old item (A.has added.now) }
        ensures ok { OnOk result (AreSame (normal_known self.new) (with_below (normal_known self.old) item (A.has added.now))) }
        ensures err { OnErr result (self.new ≡ self.old) }
    {
        let sources = (added, self.vector_of(item));
        let Ok(vector) = ConciseVector::gather(self.allocator(), &sources) else {
            return Err(AllocError);
        };
        if vector == *self.for_all() {
            return Ok(());
        }
        self.list(Listed { item, vector })?;
        Ok(())
    }
}
