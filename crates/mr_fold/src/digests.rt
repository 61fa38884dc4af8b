//! Which mail an item is, and how large its file is.
use crate::settling::HeldItems;
use crate::sizes::put_size;
use mr_compare::{Digest, ItemHeads, Left};
use mr_itemset::SparingKnowledge;
use mr_lookup::told_messages;
use mr_maildir::read_reference;
use mr_replica::Replica;
use mr_scan::Sizes;
use mr_version::ItemId;
use std::alloc::{AllocError, Global};
use std::collections::{BTreeMap, BTreeSet};

/// The items that changed since the Maildir was left, and those that lacked their files then.
pub(crate) fn asked_items(
    alloc: Global,
    left: &Left,
    lacking: &[ItemId],
) -> Result<BTreeSet<ItemId>, AllocError> {
    let mut asked = BTreeSet::new(alloc);
    for item in left.changed.keys() {
        asked.insert(*item)?;
    }
    for item in lacking {
        asked.insert(*item)?;
    }
    Ok(asked)
}

/// The digests of these items' mails: as they are held, and of those that aren't held as the log told them first. How many bytes the files
/// of the latter have is put among the sizes.
///
/// It costs a walk over what is held, and one over the log where an item isn't held.
pub(crate) fn digests_of(
    alloc: Global,
    replica: &Replica<SparingKnowledge>,
    held: &HeldItems,
    asked: &BTreeSet<ItemId>,
    sizes: &mut Sizes,
) -> Result<BTreeMap<ItemId, Digest>, AllocError> {
    let mut digests = held_digests(alloc, held, asked)?;
    let unheld = unheld_items(alloc, asked, &digests)?;
    if !unheld.is_empty() {
        add_told(alloc, &mut digests, sizes, replica, &unheld)?;
    }
    Ok(digests)
}

/// The digests of those of the items that are held.
fn held_digests(
    alloc: Global,
    held: &HeldItems,
    asked: &BTreeSet<ItemId>,
) -> Result<BTreeMap<ItemId, Digest>, AllocError> {
    let mut digests = BTreeMap::new(alloc);
    if asked.is_empty() {
        return Ok(digests);
    }
    for (digest, items) in held.iter() {
        add_asked(&mut digests, digest, items, asked)?;
    }
    Ok(digests)
}

/// Adds the mail's digest for those of its items that are asked for.
fn add_asked(
    digests: &mut BTreeMap<ItemId, Digest>,
    digest: &Digest,
    items: &[ItemHeads],
    asked: &BTreeSet<ItemId>,
) -> Result<(), AllocError> {
    for heads in items {
        if asked.contains(&heads.item) {
            digests.insert(heads.item, *digest)?;
        }
    }
    Ok(())
}

/// The items that the table doesn't have.
fn unheld_items(
    alloc: Global,
    asked: &BTreeSet<ItemId>,
    digests: &BTreeMap<ItemId, Digest>,
) -> Result<BTreeSet<ItemId>, AllocError> {
    let mut unheld = BTreeSet::new(alloc);
    for item in asked {
        if !digests.contains_key(item) {
            unheld.insert(*item)?;
        }
    }
    Ok(unheld)
}

/// Adds the digests that the log told first of these items, and the sizes of their files.
fn add_told(
    alloc: Global,
    digests: &mut BTreeMap<ItemId, Digest>,
    sizes: &mut Sizes,
    replica: &Replica<SparingKnowledge>,
    unheld: &BTreeSet<ItemId>,
) -> Result<(), AllocError> {
    let told = told_messages(alloc, replica, unheld)?;
    for (item, message) in told.iter() {
        if let Some(reference) = read_reference(message.body()) {
            digests.insert(*item, reference.digest)?;
            put_size(sizes, reference.digest, reference.size)?;
        }
    }
    Ok(())
}
