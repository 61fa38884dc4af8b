//! What the feeds are told of a change of the heads, and of one of the push-outs.
ghost use Rattle.std.specs.Prelude.{◌≡◌, ◌++◌, filter, IfOk, map};
ghost use Rattle.std.specs.Option.{option_copied};
ghost use Rattle.mr_concise.specs.Vector.{vector_has};
ghost use Rattle.mr_store.specs.Leaving.{leaves};
ghost use Rattle.mr_store.specs.Revisions.{supersedes};
ghost use Rattle.mr_replica.specs.Issue.{dropped, added};
ghost use Rattle.mr_replica.specs.Receive.{arrival_alone};

use mr_concise::ConciseVector;
use mr_feed::Entry;
use mr_forms::VersionSet;
use mr_madewith::Revision;
use mr_store::Store;
use mr_version::{ItemId, Version};
use std::alloc::{AllocError, Global};

// The entry of a revision that enters the heads, or the push-outs.
fn entry_of(revision: &Revision) -> Result<Entry, AllocError>
    ensures { IfOk result (λ entry. entry ≡ added revision.now) }
{
    Ok(Entry::Added {
        item: revision.item(),
        version: revision.version(),
        card: revision.message().card()?,
    })
}

/// The entries of revisions that leave the heads.
pub fn entries_of_left(alloc: Global, left: &[Revision]) -> Result<Vec<Entry>, AllocError>
    ensures { IfOk result (λ entries. entries.items ≡ map dropped left.now) }
{
    let mut entries = Vec::new(alloc);
    for revision in left {
        entries.push(Entry::Dropped {
            item: revision.item(),
            version: revision.version(),
        })?;
    }
    Ok(entries)
}

/// The entries of what leaves the heads for a version of the item with this `below`, and of the revision
/// that comes, if there is one.
pub fn news(
    alloc: Global,
    store: &Store,
    item: ItemId,
    below: &ConciseVector,
    comer: Option<&Revision>,
) -> Result<Vec<Entry>, AllocError>
    ensures { IfOk result (λ entries. entries.items ≡ map dropped (filter (supersedes item (vector_has below.now)) store.now.heads) ++ map added (arrival_alone (option_copied comer.entry))) }
{
    let left = store.superseded(item, below)?;
    let mut entries = entries_of_left(alloc, &left)?;
    if let Some(revision) = comer {
        entries.push(entry_of(revision)?)?;
    }
    Ok(entries)
}

/// The entries of what leaves the push-outs for a version of the item with this `below`, and of the
/// revision that comes to them, if there is one. It allocates nothing where there is no entry.
pub fn push_out_news(
    alloc: Global,
    store: &Store,
    item: ItemId,
    below: &ConciseVector,
    comer: Option<&Revision>,
) -> Result<Vec<Entry>, AllocError>
    ensures { IfOk result (λ entries. entries.items ≡ map dropped (filter (supersedes item (vector_has below.now)) store.now.push_outs) ++ map added (arrival_alone (option_copied comer.entry))) }
{
    let mut entries = entries_of_gone(alloc, store, item, &[], below)?;
    if let Some(pushed) = comer {
        entries.push(entry_of(pushed)?)?;
    }
    Ok(entries)
}

/// The entries of the item's push-outs that leave: those of these versions, and those below. It costs a
/// look-up, and a comparison with each of these and two binary searches for each push-out of the item, and
/// allocates nothing where none leaves.
pub fn entries_of_gone(
    alloc: Global,
    store: &Store,
    item: ItemId,
    ones: &[Version],
    below: &ConciseVector,
) -> Result<Vec<Entry>, AllocError>
    ensures { IfOk result (λ entries. entries.items ≡ map dropped (filter (supersedes item (leaves ones.now below.now)) store.now.push_outs)) }
{
    let mut entries = Vec::new(alloc);
    for version in store.push_outs_of(item) {
        if leaves(ones, below, *version) {
            entries.push(Entry::Dropped {
                item,
                version: *version,
            })?;
        }
    }
    Ok(entries)
}

// Whether the version leaves: it is one of these, or it is below.
fn leaves(ones: &[Version], below: &ConciseVector, version: Version) -> bool
    ensures { result ≡ leaves ones.now below.now version }
{
    ones.contains(&version) || below.contains(version)
}
