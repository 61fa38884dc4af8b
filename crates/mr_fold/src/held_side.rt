//! What is held of each mail of a replica, and how the Maildir was left with it.
ghost use Rattle.std.specs.Prelude.{◌≡◌, ◌++◌, IfOk};
ghost use Rattle.std.specs.List.{flat_map};
ghost use Rattle.mr_compare.specs.Joining.{held_entry};
ghost use Rattle.mr_fold.specs.inner.HeldSide.{AreHeld};

use crate::ancestors::ancestors_of;
use crate::digests::{asked_items, digests_of};
use crate::lacking::{lacking_items, without_lacking};
use crate::settling::HeldItems;
use crate::sizes::{put_size, sizes_of};
use mr_compare::{
    Digest, HeldMail, LeftMail, MailAct, Shown, gathered, held_mails, held_of, item_standings,
    left_mails, left_of,
};
use mr_itemset::SparingKnowledge;
use mr_replica::Replica;
use mr_scan::Sizes;
use mr_version::ItemId;
use std::alloc::{AllocError, Global};
use std::collections::{BTreeMap, BTreeSet};

/// What is held of the mails, by their files' digests.
#[derive(Drop)]
pub(crate) struct HeldSide {
    /// The items that each mail is.
    pub(crate) items: HeldItems,
    /// How each mail stands, in rising order of the digests.
    pub(crate) mails: Vec<HeldMail>,
}

/// What the replica holds.
pub(crate) fn held_side(
    alloc: Global,
    replica: &Replica<SparingKnowledge>,
) -> Result<HeldSide, AllocError>
    ensures items { IfOk result (λ held. AreHeld (replica.now.heads ++ replica.now.push_outs) held.items.entries) }
    ensures mails { IfOk result (λ held. held.mails.items ≡ flat_map held_entry held.items.entries) }
{
    let items = held_items(alloc, replica)?;
    let mails = held_mails(alloc, &items)?;
    Ok(HeldSide { items, mails })
}

/// The items that are held of each mail, by the digest of its file.
pub(crate) fn held_items(
    alloc: Global,
    replica: &Replica<SparingKnowledge>,
) -> Result<HeldItems, AllocError>
    ensures { IfOk result (λ items. AreHeld (replica.now.heads ++ replica.now.push_outs) items.entries) }
{
    let held = held_of(alloc, replica.heads(), replica.push_outs())?;
    let by_item = gathered(alloc, held.heads)?;
    let ancestors = ancestors_of(alloc, replica, &by_item)?;
    let standings = item_standings(alloc, &by_item, &ancestors)?;
    drop(by_item);
    gathered(alloc, standings)
}

/// How the Maildir was left with the mails, and how large their files are.
#[derive(Drop)]
pub(crate) struct LeftSide {
    /// How it was left with those mails some item of which changed since, as far as it was shown.
    pub(crate) mails: BTreeMap<Digest, LeftMail>,
    /// How many bytes the files have of the mails that are held, and of those that were left and are held no more.
    pub(crate) sizes: Sizes,
}

/// How the Maildir was left with those mails some item of which changed since, as far as it was shown; each that lacked its file
/// then it was left without. How large the files are of those that are held no more.
fn left_side(
    alloc: Global,
    replica: &Replica<SparingKnowledge>,
    shown: &Shown,
    items: &HeldItems,
) -> Result<LeftSide, AllocError> {
    let entries = usize::try_from(shown.entries()).unwrap_or(usize::MAX);
    let left = left_of(alloc, replica.feed(), entries)?;
    let asked = asked_items(alloc, &left, shown.lacking())?;
    let mut sizes = BTreeMap::new(alloc);
    let digests = digests_of(alloc, replica, items, &asked, &mut sizes)?;
    let mut mails = left_mails(alloc, &left, &digests, items)?;
    without_lacking(&mut mails, &digests, shown.lacking())?;
    Ok(LeftSide { mails, sizes })
}

/// How the mails stand that are held, in rising order of their digests, and how the Maildir was left with them. The items are let go before all sizes are
/// in memory.
pub(crate) fn held_and_left(
    alloc: Global,
    replica: &Replica<SparingKnowledge>,
    shown: &Shown,
) -> Result<(Vec<HeldMail>, LeftSide), AllocError> {
    let HeldSide { items, mails } = held_side(alloc, replica)?;
    let left = left_side(alloc, replica, shown, &items)?;
    drop(items);
    Ok((mails, with_held_sizes(alloc, replica, left)?))
}

/// The left side with the sizes of what is held too.
fn with_held_sizes(
    alloc: Global,
    replica: &Replica<SparingKnowledge>,
    left: LeftSide,
) -> Result<LeftSide, AllocError> {
    let LeftSide { mails, sizes: own } = left;
    let mut sizes = sizes_of(alloc, replica.heads(), replica.push_outs())?;
    for (digest, size) in own.iter() {
        put_size(&mut sizes, *digest, *size)?;
    }
    Ok(LeftSide { mails, sizes })
}

/// What is held of the mails for which something is done.
#[derive(Drop)]
pub(crate) struct Concerned {
    pub(crate) held: HeldSide,
    /// The held items whose files aren't here.
    pub(crate) lacking: Vec<ItemId>,
}

/// What the replica holds of the mails for which these acts do something, and the items of those that lack their files. It costs a walk over what is
/// held, if there is such a mail.
pub(crate) fn concerned_by(
    alloc: Global,
    replica: &Replica<SparingKnowledge>,
    acts: &[MailAct],
    lacking: &BTreeSet<Digest>,
) -> Result<Concerned, AllocError> {
    let items = if acts.is_empty() && lacking.is_empty() {
        BTreeMap::new(alloc)
    } else {
        held_items(alloc, replica)?
    };
    let lacking = lacking_items(alloc, &items, lacking)?;
    let items = those_of(alloc, items, acts)?;
    let mails = held_mails(alloc, &items)?;
    let held = HeldSide { items, mails };
    Ok(Concerned { held, lacking })
}

/// What is held of the acts' mails.
fn those_of(alloc: Global, items: HeldItems, acts: &[MailAct]) -> Result<HeldItems, AllocError> {
    let mut items = items;
    let mut own = BTreeMap::new(alloc);
    for mail in acts {
        if let Some(heads) = items.remove(&mail.digest) {
            own.insert(mail.digest, heads)?;
        }
    }
    Ok(own)
}
