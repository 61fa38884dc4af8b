//! The items of each mail, joined.
ghost use Rattle.std.specs.Prelude.{◌≡◌, ◌++◌, List, IfOk, OnOk, map};
ghost use Rattle.std.specs.List.{flat_map, list_any};
ghost use Rattle.std.specs.Option.{option_copied};
ghost use Rattle.mr_version.specs.Name.{Name};
ghost use Rattle.mr_compare.specs.Joining.{held_entry, held_mail, lowest, standing_of, standing_parts, standings_at, together, versions_in};
ghost use Rattle.mr_compare.specs.inner.Joining.{lower_of};

use crate::held::{Digest, Head, MailItem, is_merge_due, item_view};
use crate::sides::HeldMail;
use mr_maildir::{View, shown};
use mr_version::{ItemId, Version};
use std::alloc::{AllocError, Global};
use std::collections::BTreeMap;

/// An item that a mail is, as it is held.
#[derive(Debug, Drop)]
pub struct ItemHeads {
    pub item: ItemId,
    /// Its versions that are held.
    pub versions: Vec<Version>,
    /// How they have the mail stand together.
    pub view: View,
    /// Whether an edit is due that merges them.
    pub is_merge_due: bool,
}

/// How each item stands by its heads, over the view of its newest common ancestor, if it has one there; by the digests of the
/// mails. The items come in the order of the table; one without heads is passed over.
///
/// It costs a look-up for each item. By [`gathered`](crate::gathered) the items come together that are of one mail.
pub fn item_standings(
    alloc: Global,
    by_item: &BTreeMap<MailItem, Vec<Head>>,
    ancestors: &BTreeMap<ItemId, View>,
) -> Result<Vec<(Digest, ItemHeads)>, AllocError>
    ensures { IfOk result (λ standings. map standing_parts standings.items ≡ flat_map (standings_at ancestors.now.entries) by_item.now.entries) }
{
    let mut standings = Vec::with_capacity(alloc, by_item.len())?;
    for (key, heads) in by_item.iter() {
        push_standing(alloc, &mut standings, *key, heads, ancestors.get(&key.1))?;
    }
    Ok(standings)
}

/// Puts how the item stands behind the others, if it has heads.
fn push_standing(
    alloc: Global,
    standings: &mut Vec<(Digest, ItemHeads)>,
    key: MailItem,
    heads: &[Head],
    ancestor: Option<&View>,
) -> Result<(), AllocError>
    ensures { OnOk result (map standing_parts standings.new.items
        ≡ map standing_parts standings.old.items ++ standing_of key heads.now (option_copied ancestor.entry)) }
{
    if heads.is_empty() {
        return Ok(());
    }
    let (digest, item) = key;
    let standing = ItemHeads {
        item,
        versions: versions_of(alloc, heads)?,
        view: item_view(alloc, ancestor, heads)?,
        is_merge_due: is_merge_due(heads),
    };
    standings.push((digest, standing))?;
    Ok(())
}

/// The versions of the heads.
fn versions_of(alloc: Global, heads: &[Head]) -> Result<Vec<Version>, AllocError>
    ensures { IfOk result (λ versions. versions.items ≡ map (λ head. head.version) heads.now) }
{
    heads.iter().map(|head| head.version).collect(alloc)
}

/// The mails that are held, in the order of the table: of each the lowest version, how all its items have it stand together,
/// and whether the heads of one of them are to be merged.
///
/// Together a mail stands in each folder and has each flag that one of its items says, but for the flag deleted, which each has
/// to say; an item that is gone has no say beside others. A mail without versions is passed over.
pub fn held_mails(
    alloc: Global,
    items: &BTreeMap<Digest, Vec<ItemHeads>>,
) -> Result<Vec<HeldMail>, AllocError>
    ensures { IfOk result (λ mails. mails.items ≡ flat_map held_entry items.now.entries) }
{
    let mut mails = Vec::with_capacity(alloc, items.len())?;
    for (digest, own) in items.iter() {
        push_mail(alloc, &mut mails, *digest, own)?;
    }
    Ok(mails)
}

/// Puts the mail of these items behind the others, if it has a version.
fn push_mail(
    alloc: Global,
    mails: &mut Vec<HeldMail>,
    digest: Digest,
    items: &[ItemHeads],
) -> Result<(), AllocError>
    ensures { OnOk result (mails.new.items ≡ mails.old.items ++ held_mail digest items.now) }
{
    let views = views_of(alloc, items)?;
    let view = joined(alloc, &views)?;
    if let (Some(first), Some(view)) = (lowest_version(items), view) {
        mails.push(HeldMail {
            digest,
            first,
            view,
            is_merge_due: is_any_due(items),
        })?;
    }
    Ok(())
}

/// Whether a merge is due of one of the items.
fn is_any_due(items: &[ItemHeads]) -> bool
    ensures { result ≡ list_any (λ item. item.is_merge_due) items.now }
{
    items.iter().any(|item| item.is_merge_due)
}

/// How the items have the mail stand.
fn views_of(alloc: Global, items: &[ItemHeads]) -> Result<Vec<View>, AllocError>
    ensures { IfOk result (λ views. views.items ≡ map (λ item. item.view) items.now) }
{
    let mut views = Vec::with_capacity(alloc, items.len())?;
    for item in items {
        views.push(item.view.copy(alloc)?)?;
    }
    Ok(views)
}

/// The views together, if there is one.
pub(crate) fn joined(alloc: Global, views: &[View]) -> Result<Option<View>, AllocError>
    ensures { IfOk result (λ view. view ≡ together views.now) }
{
    if views.is_empty() {
        return Ok(None);
    }
    Ok(Some(shown(alloc, None, views)?))
}

/// The lowest version of the items, if they have one.
fn lowest_version(items: &[ItemHeads]) -> Option<Version>
    ensures { result ≡ lowest (flat_map versions_in items.now) }
{
    let mut first = None;
    for item in items {
        first = lowest_with(first, &item.versions);
    }
    first
}

/// The lowest of some versions, and of these.
fn lowest_with(known: Option<Version>, versions: &[Version]) -> Option<Version>
    ensures { (others : List Name) → known ≡ lowest others → result ≡ lowest (others ++ versions.now) }
{
    let mut first = known;
    for version in versions {
        first = Some(lower(first, *version));
    }
    first
}

/// The lower one, where there are two.
fn lower(known: Option<Version>, version: Version) -> Version
    ensures { result ≡ lower_of known version }
{
    match known {
        Some(known) => known.min(version),
        None => version,
    }
}
