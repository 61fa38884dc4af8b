//! Mails whose files aren't here.
ghost use Rattle.std.specs.Prelude.{◌≡◌, ◌++◌, ◌||◌, ◌&&◌, not, [], ℕ, List, Some, IfOk, OnOk, if◌then◌else◌, map};
ghost use Rattle.std.specs.BTreeMap.{values};
ghost use Rattle.std.specs.Option.{option_copied};
ghost use Rattle.std.specs.Ordering.{is_eq};
ghost use Rattle.mr_mail.specs.Label.{text_cmp};
ghost use Rattle.mr_compare.specs.Sides.{at_digest};
ghost use Rattle.mr_fold.specs.Lacking.{has_digest};
ghost use Rattle.mr_fold.specs.inner.Lacking.{is_digest, is_missing, is_stored, is_told_of, unshown};
ghost use Rattle.mr_fold.specs.inner.Lacking as specs;

use crate::settling::HeldItems;
use mr_compare::{Digest, HeldMail, ItemHeads, LeftMail};
use mr_scan::Index;
use mr_version::ItemId;
use std::alloc::{AllocError, Global};
use std::collections::{BTreeMap, BTreeSet};

/// The digests of the store's mails.
fn stored_digests(alloc: Global, index: &Index) -> Result<BTreeSet<Digest>, AllocError>
    ensures { IfOk result (λ digests. (digest : List ℕ) → has_digest digests.keys digest ≡ is_stored (values index.now) digest) }
{
    let mut digests = BTreeSet::new(alloc);
    for stored in index.values() {
        digests.insert(stored.digest)?;
    }
    Ok(digests)
}

/// The held mails that lack their files, by what the index has of the store: the store has none of them, and they aren't gone, since those need
/// none.
pub(crate) fn missing_mails(
    alloc: Global,
    mails: &[HeldMail],
    index: &Index,
) -> Result<BTreeSet<Digest>, AllocError>
    ensures { IfOk result (λ digests. (digest : List ℕ) → has_digest digests.keys digest ≡ is_missing (values index.now) mails.now digest) }
{
    let stored = stored_digests(alloc, index)?;
    let mut lacking = BTreeSet::new(alloc);
    for mail in mails {
        let needs_none = stored.contains(&mail.digest) || mail.view.is_gone();
        insert_unless(&mut lacking, mail.digest, needs_none)?;
    }
    Ok(lacking)
}

/// Takes those mails out that the index has of the store.
pub(crate) fn remove_stored(mails: &mut BTreeSet<Digest>, index: &Index)
    ensures { (digest : List ℕ) → has_digest mails.new.keys digest
        ≡ (has_digest mails.old.keys digest && not (is_stored (values index.now) digest)) }
{
    for stored in index.values() {
        mails.remove(&stored.digest);
    }
}

/// Adds the digest, unless it is known already.
pub(crate) fn insert_unless(
    digests: &mut BTreeSet<Digest>,
    digest: Digest,
    is_known: bool,
) -> Result<(), AllocError>
    ensures { OnOk result ((other : List ℕ) → has_digest digests.new.keys other
        ≡ (has_digest digests.old.keys other || (not is_known && is_eq (text_cmp digest other)))) }
{
    if !is_known {
        digests.insert(digest)?;
    }
    Ok(())
}

/// The items of the held mails that lack their files, in the order of the table.
pub(crate) fn lacking_items(
    alloc: Global,
    held: &HeldItems,
    lacking: &BTreeSet<Digest>,
) -> Result<Vec<ItemId>, AllocError>
    ensures { IfOk result (λ items. items.items ≡ specs.lacking_items lacking.now.keys held.now.entries) }
{
    let mut items = Vec::new(alloc);
    for (digest, own) in held.iter() {
        push_if(&mut items, own, lacking.contains(digest))?;
    }
    Ok(items)
}

/// Puts the items behind the others, if they lack their file.
fn push_if(
    items: &mut Vec<ItemId>,
    heads: &[ItemHeads],
    are_lacking: bool,
) -> Result<(), AllocError>
    ensures { OnOk result (items.new.items ≡ items.old.items ++ (if are_lacking then map (λ own. own.item) heads.now else [])) }
{
    if are_lacking {
        push_items(items, heads)?;
    }
    Ok(())
}

/// Puts the items behind the others.
fn push_items(items: &mut Vec<ItemId>, heads: &[ItemHeads]) -> Result<(), AllocError>
    ensures { OnOk result (items.new.items ≡ items.old.items ++ map (λ own. own.item) heads.now) }
{
    for own in heads {
        items.push(own.item)?;
    }
    Ok(())
}

/// Has those mails whose items lacked their files, as the table tells them, left without any, whatever the feed had of them.
pub(crate) fn without_lacking(
    left: &mut BTreeMap<Digest, LeftMail>,
    digests: &BTreeMap<ItemId, Digest>,
    lacking: &[ItemId],
) -> Result<(), AllocError>
    ensures { OnOk result ((digest : List ℕ) → at_digest left.new.entries digest
        ≡ (if is_told_of digests.now.entries lacking.now digest then Some unshown else at_digest left.old.entries digest)) }
{
    for item in lacking {
        leave_out(left, digests.get(item))?;
    }
    Ok(())
}

/// Has the mail of this digest, if there is one, left without a file.
fn leave_out(
    left: &mut BTreeMap<Digest, LeftMail>,
    digest: Option<&Digest>,
) -> Result<(), AllocError>
    ensures { OnOk result ((other : List ℕ) → at_digest left.new.entries other
        ≡ (if is_digest other (option_copied digest.entry) then Some unshown else at_digest left.old.entries other)) }
{
    if let Some(digest) = digest {
        let mail = LeftMail {
            view: None,
            came: true,
        };
        left.insert(*digest, mail)?;
    }
    Ok(())
}
