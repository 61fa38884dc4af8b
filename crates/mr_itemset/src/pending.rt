//! What tells without a look at the listed items that no limit is near.
ghost use Rattle.std.specs.Prelude.{◌≡◌, ◌≤◌, ◌+◌, ℕ, true, IfOk, IfSome};
ghost use Rattle.mr_version.specs.Name.{name_eq};
ghost use Rattle.mr_forms.specs.Sets.{IsSame, both};
ghost use Rattle.mr_forms.specs.Known.{AreSame, with_below};
ghost use Rattle.mr_concise.specs.declared.column.TheConstants.{MAX_HOLES};
ghost use Rattle.mr_concise.specs.Vector.{vector_has, IsVectorOf};
ghost use Rattle.mr_itemset.specs.Normal.{normal_known, vector_of, IsNormal};
ghost use Rattle.mr_itemset.specs.Folded.{HasAtMost, IsSparse};
ghost use Rattle.mr_itemset.specs.inner.Lacking.{Lacks};
ghost use Rattle.mr_itemset.specs.inner.Placed.{placed, HasRoom};

use crate::knowledge::Listed;
use crate::settled::Settled;
use mr_concise::{ConciseVector, MAX_HOLES, Source};
use mr_forms::FormFault;
use mr_version::{ItemId, Version};
use std::alloc::AllocError;

/// The higher of two numbers.
fn higher(a: usize, b: usize) -> usize
    ensures first { a ≤ result }
    ensures second { b ≤ result }
    ensures least { (n : ℕ) → a ≤ n → b ≤ n → result ≤ n }
{
    if a < b { b } else { a }
}

/// The most holes of a column.
pub(crate) fn most_holes(vector: &ConciseVector) -> usize
    ensures most { HasAtMost result vector.now }
    ensures bound { result ≤ MAX_HOLES }
{
    let mut most = 0;
    for x in vector.author_columns() {
        most = higher(most, x.column.holes().len());
    }
    most
}

/// Whether a column may have all these holes together.
pub(crate) fn fit_together(kept: usize, waiting: usize, added: usize) -> bool
    ensures { result ≡ true → (kept + waiting) + added ≤ MAX_HOLES }
{
    if kept > MAX_HOLES || waiting > MAX_HOLES - kept {
        return false;
    }
    added <= MAX_HOLES - kept - waiting
}

/// The version that a source has, where it has that one alone.
pub(crate) fn only_version<S: Source>(source: &S) -> Option<Version>
    ensures { IfSome result (λ version. IsSame (S.has source.now) (name_eq version)) }
{
    let author = source.next_author(0)?;
    let counter = source.next_in(author, 1)?;
    // what a source has of an author ends
    let _end = source.next_out(author, counter);
    if let Some(_next) = source.next_in(author, counter + 1) {
        return None;
    }
    if let Some(_other) = source.next_author(author.id() + 1) {
        return None;
    }
    match Version::try_new(author, counter) {
        Ok(version) => Some(version),
        Err(_) => None,
    }
}

impl<const LIMIT: usize> Settled<LIMIT> {
    /// The most holes of a column of any item.
    pub(crate) fn most_holes(&self) -> usize
        ensures most { IsSparse self.now result }
        ensures normal { IsNormal LIMIT self.now }
        ensures bound { result ≤ MAX_HOLES }
    {
        let mut most = most_holes(self.for_all());
        for vector in self.vectors() {
            most = higher(most, most_holes(vector));
        }
        most
    }

    /// The item's vector with these versions. `None` where it would have too many holes, or may not be listed.
    fn grown_vector<S: Source>(
        &self,
        item: ItemId,
        set: &S,
    ) -> Result<Option<ConciseVector>, AllocError>
        ensures room { IfOk result (λ grown. IfSome grown (λ _. HasRoom LIMIT self.now item (S.has set.now))) }
        ensures vector { IfOk result (λ grown. IfSome grown (IsVectorOf (both (S.has set.now) (vector_has (vector_of self.now item))))) }
        ensures normal { IsNormal LIMIT self.now }
    {
        if !self.has_room(item, set) {
            return Ok(None);
        }
        let sources = (set, self.vector_of(item));
        match ConciseVector::gather(self.allocator(), &sources) {
            Ok(vector) => Ok(Some(vector)),
            Err(FormFault::OutOfMemory) => Err(AllocError),
            Err(_) => Ok(None),
        }
    }

    /// The item with these versions, to be listed, and the most holes of a column of any item then, where they
    /// were so many before. `None` where its vector would have too many holes, or may not be listed.
    pub(crate) fn grown_item<S: Source>(
        &self,
        most: usize,
        item: ItemId,
        set: &S,
    ) -> Result<Option<(Listed, usize)>, AllocError>
        requires sparse { IsSparse self.now most }
        requires bound { most ≤ MAX_HOLES }
        requires lacks { Lacks (vector_has (vector_of self.now item)) (S.has set.now) }
        ensures fits { IfOk result (λ grown. IfSome grown (λ new. IsNormal LIMIT (record { all = self.now.all; listed = placed new.0 self.now.listed }))) }
        ensures known { IfOk result (λ grown. IfSome grown (λ new. AreSame (normal_known (record { all = self.now.all; listed = placed new.0 self.now.listed })) (with_below (normal_known self.now) item (S.has set.now)))) }
        ensures sparse { IfOk result (λ grown. IfSome grown (λ new. IsSparse (record { all = self.now.all; listed = placed new.0 self.now.listed }) new.1)) }
        ensures more { IfOk result (λ grown. IfSome grown (λ new. most ≤ new.1)) }
        ensures bound { IfOk result (λ grown. IfSome grown (λ new. new.1 ≤ MAX_HOLES)) }
        ensures normal { IsNormal LIMIT self.now }
    {
        let Some(vector) = self.grown_vector(item, set)? else {
            return Ok(None);
        };
        let holes = higher(most_holes(&vector), most);
        Ok(Some((Listed { item, vector }, holes)))
    }
}
