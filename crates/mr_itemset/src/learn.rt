//! The knowledge of nothing, equal copies, and what a knowledge knows.
ghost use Rattle.std.specs.Prelude.{◌≡◌, false, [], AllPairs, IfOk};
ghost use Rattle.mr_forms.specs.Known.{AreSame};
ghost use Rattle.mr_itemset.specs.Normal.{normal_known, IsBefore};
ghost use Rattle.mr_itemset.specs.inner.Entries.{listed_of};

use crate::item::put_in;
use crate::knowledge::Listed;
use crate::settled::{Settled, Vectors};
use mr_concise::ConciseVector;
use mr_forms::VersionSet;
use mr_version::{ItemId, Version};
use std::alloc::{AllocError, Global};
use std::collections::BTreeMap;

/// Equal vectors of the same items.
fn copies(listed: &Vectors, alloc: Global) -> Result<Vectors, AllocError>
    requires { AllPairs IsBefore (listed_of listed.now.entries) }
    ensures { IfOk result (λ copies. listed_of copies.entries ≡ listed_of listed.now.entries) }
{
    let mut copies = BTreeMap::new(alloc);
    for (item, vector) in listed {
        let Ok(vector) = vector.copy() else {
            return Err(AllocError);
        };
        let copy = Listed {
            item: *item,
            vector,
        };
        put_in(&mut copies, copy)?;
    }
    Ok(copies)
}

impl<const LIMIT: usize> Settled<LIMIT> {
    /// The knowledge of nothing. It allocates nothing; what grows later takes its memory from `alloc`.
    pub(crate) fn new(alloc: Global) -> Settled<LIMIT>
        ensures is { result ≡ record { all = []; listed = [] } }
        ensures nothing { AreSame (normal_known result) (λ _ _. false) }
    {
        Settled::from_parts(alloc, ConciseVector::new(alloc), BTreeMap::new(alloc))
    }

    /// An equal knowledge.
    pub(crate) fn copy(&self) -> Result<Settled<LIMIT>, AllocError>
        ensures { IfOk result (λ knowledge. knowledge ≡ self.now) }
    {
        let alloc = self.allocator();
        let Ok(all) = self.for_all().copy() else {
            return Err(AllocError);
        };
        let listed = copies(self.listed(), alloc)?;
        Ok(Settled::from_parts(alloc, all, listed))
    }

    /// Whether the version is known for the item. It costs two searches.
    pub(crate) fn knows(&self, item: ItemId, version: Version) -> bool
        ensures { result ≡ normal_known self.now item version }
    {
        self.vector_of(item).contains(version)
    }
}
