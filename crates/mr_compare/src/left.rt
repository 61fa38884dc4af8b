//! What the Maildir was left with: what a subscriber has that took the feed's beginning.
ghost use Rattle.std.specs.Prelude.{◌≡◌, if◌then◌else◌, None, IfOk, OnOk, take, drop};
ghost use Rattle.std.specs.Option.{is_some};
ghost use Rattle.mr_version.specs.Name.{Name};
ghost use Rattle.mr_feed.specs.Entry.{entry_item};
ghost use Rattle.mr_compare.specs.Left.{card_left, told_last, is_told, last_told, item_cards};
ghost use Rattle.mr_compare.specs.inner.Left.{with_entry, newest_of};

use mr_feed::Entry;
use mr_mail::Card;
use mr_version::{ItemId, Version};
use std::alloc::{AllocError, Global};
use std::collections::BTreeMap;

/// The items that a feed changed since its beginning was shown, and what the beginning has of them. Each other item is
/// as it was left.
#[derive(Debug, Drop)]
pub struct Left {
    /// Each item that the rest of the feed tells of, with the card that it added last; none where it only dropped
    /// versions of it.
    pub changed: BTreeMap<ItemId, Option<Card>>,
    /// The card of each version of these items that the beginning has.
    pub cards: BTreeMap<(ItemId, Version), Card>,
}

/// What a feed's first so many entries left of the items that the later ones tell of. More entries than there are count as
/// all.
///
/// It costs a look-up for each entry, and memory only for the items that changed.
pub fn left_of(alloc: Global, feed: &[Entry], shown: usize) -> Result<Left, AllocError>
    ensures changed { IfOk result (λ left. (item : Name) → told_last left.changed.entries item ≡ last_told (drop shown feed.now) item) }
    ensures cards { IfOk result (λ left. (item version : Name) → card_left left.cards.entries item version
        ≡ (if is_told (drop shown feed.now) item then item_cards (take shown feed.now) item version else None)) }
{
    let (beginning, rest) = parts_of(feed, shown);
    let changed = changed_in(alloc, rest)?;
    let cards = cards_in(alloc, beginning, &changed)?;
    Ok(Left { changed, cards })
}

/// The first so many entries, and the others.
#[tactic(auto, using(std::proofs::lemmas::List::take_min, std::proofs::lemmas::List::drop_min))]
fn parts_of(feed: &[Entry], shown: usize) -> (&[Entry], &[Entry])
    ensures beginning { result.0.now ≡ take shown feed.now }
    ensures rest { result.1.now ≡ drop shown feed.now }
{
    feed.split_at(shown.min(feed.len()))
}

/// The items that the entries tell of, with the card that they added last.
fn changed_in(
    alloc: Global,
    entries: &[Entry],
) -> Result<BTreeMap<ItemId, Option<Card>>, AllocError>
    ensures { IfOk result (λ changed. (item : Name) → told_last changed.entries item ≡ last_told entries.now item) }
{
    let mut changed = BTreeMap::new(alloc);
    for entry in entries {
        let newest = newest_card(&changed, entry)?;
        changed.insert(entry.item(), newest)?;
    }
    Ok(changed)
}

/// The card that the entry adds, or else the one that was added last.
fn newest_card(
    changed: &BTreeMap<ItemId, Option<Card>>,
    entry: &Entry,
) -> Result<Option<Card>, AllocError>
    ensures { IfOk result (λ newest. newest ≡ newest_of (told_last changed.now.entries (entry_item entry.now)) entry.now) }
{
    match entry {
        Entry::Added { card, .. } => Ok(Some(card.copy()?)),
        Entry::Dropped { item, .. } => match changed.get(item) {
            Some(Some(card)) => Ok(Some(card.copy()?)),
            _ => Ok(None),
        },
    }
}

/// The cards that the entries leave of the items that changed.
fn cards_in(
    alloc: Global,
    entries: &[Entry],
    changed: &BTreeMap<ItemId, Option<Card>>,
) -> Result<BTreeMap<(ItemId, Version), Card>, AllocError>
    ensures { IfOk result (λ cards. (item version : Name) → card_left cards.entries item version
        ≡ (if is_some (told_last changed.now.entries item) then item_cards entries.now item version else None)) }
{
    let mut cards = BTreeMap::new(alloc);
    for entry in entries {
        note_if(&mut cards, entry, changed.contains_key(&entry.item()))?;
    }
    Ok(cards)
}

/// Notes the entry in the table, if it is of an item that changed.
fn note_if(
    cards: &mut BTreeMap<(ItemId, Version), Card>,
    entry: &Entry,
    has_changed: bool,
) -> Result<(), AllocError>
    ensures { OnOk result ((item version : Name) → card_left cards.new.entries item version
        ≡ (if has_changed then with_entry entry.now (card_left cards.old.entries item version) item version else card_left cards.old.entries item version)) }
{
    if has_changed {
        note(cards, entry)?;
    }
    Ok(())
}

/// Puts an added version's card into the table, and takes a dropped version out.
fn note(cards: &mut BTreeMap<(ItemId, Version), Card>, entry: &Entry) -> Result<(), AllocError>
    ensures { OnOk result ((item version : Name) → card_left cards.new.entries item version
        ≡ with_entry entry.now (card_left cards.old.entries item version) item version) }
{
    match entry {
        Entry::Added {
            item,
            version,
            card,
        } => {
            cards.insert((*item, *version), card.copy()?)?;
        }
        Entry::Dropped { item, version } => {
            cards.remove(&(*item, *version));
        }
    }
    Ok(())
}
