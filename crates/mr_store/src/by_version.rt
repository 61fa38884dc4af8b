//! Searches by version among revisions in version order.
ghost use Rattle.std.specs.Prelude.{◌≡◌, ◌≤◌, ◌∷◌, [], if◌then◌else◌, IfOk, IfErr, length, filter, true, false};
ghost use Rattle.std.specs.List.Sorted.{IsPartitionPoint};
ghost use Rattle.std.specs.Option.{option_copied};
ghost use Rattle.mr_version.specs.Name.{name_eq};
ghost use Rattle.mr_madewith.specs.Keyed.{is_before};
ghost use Rattle.mr_madewith.specs.inner.Search.{IsFoundAt, IsGapFor};
ghost use Rattle.mr_store.specs.Revisions.{AreInVersionOrder, version_of, revision_of, holds, is_of, versions_of};

use mr_madewith::Revision;
use mr_version::{Author, ItemId, Version};
use std::slice;

/// Where the revision of the version is, or where it would go.
pub fn search(revisions: &[Revision], version: Version) -> Result<usize, usize>
    requires { AreInVersionOrder revisions.now }
    ensures found { IfOk result (IsFoundAt version_of version revisions.now) }
    ensures absent { IfErr result (IsGapFor version_of version revisions.now) }
{
    revisions.binary_search_by_key(&version, |revision| revision.version())
}

/// The revision of a version. It costs a binary search.
pub fn revision_of(revisions: &[Revision], version: Version) -> Option<&Revision>
    requires { AreInVersionOrder revisions.now }
    ensures { option_copied result ≡ revision_of revisions.now version }
{
    match search(revisions, version) {
        Ok(place) => Some(&revisions[place]),
        Err(_) => None,
    }
}

/// The item's first version, if it is among its versions, and none otherwise. It costs a binary search, since the
/// item has the name of that version.
pub fn first_of(revisions: &[Revision], item: ItemId) -> &[Version]
    requires { AreInVersionOrder revisions.now }
    ensures { result.now ≡ filter (λ v. name_eq v item) (versions_of item revisions.now) }
{
    match revision_of(revisions, item.creator()) {
        Some(revision) => version_if_of(revision, item),
        None => &[],
    }
}

// The revision's version, if it is one of the item.
fn version_if_of(revision: &Revision, item: ItemId) -> &[Version]
    ensures { result.now ≡ (if is_of item revision.now then revision.now.version ∷ [] else []) }
{
    if revision.item() == item {
        slice::from_ref(revision.version_ref())
    } else {
        &[]
    }
}

/// Whether one of the revisions is of the version. It costs a binary search.
pub fn has_version(revisions: &[Revision], version: Version) -> bool
    requires { AreInVersionOrder revisions.now }
    ensures { result ≡ holds revisions.now version }
{
    search(revisions, version).is_ok()
}

// Whether the version stands before the author's version of this counter.
fn is_before(version: Version, author: Author, counter: u32) -> bool
    ensures { result ≡ is_before version (record { author = author; counter = counter }) }
{
    version.author() < author || (version.author() == author && version.counter() < counter)
}

/// How many revisions stand before the author's version of this counter. It costs a binary search.
pub fn place_before(revisions: &[Revision], author: Author, counter: u32) -> usize
    requires { AreInVersionOrder revisions.now }
    ensures bound { result ≤ length revisions.now }
    ensures place { IsPartitionPoint (λ r. is_before r.version (record { author = author; counter = counter }) ≡ true) (λ r. is_before r.version (record { author = author; counter = counter }) ≡ false) revisions.now result }
{
    revisions.partition_point(|revision| is_before(revision.version(), author, counter))
}
