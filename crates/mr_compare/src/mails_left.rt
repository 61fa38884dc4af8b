//! What was left of each mail, some item of which changed since.
ghost use Rattle.std.specs.Prelude.{◌≡◌, ◌++◌, ◌∷◌, [], ◌&&◌, if◌then◌else◌, ℕ, List, IfOk, OnOk, filter};
ghost use Rattle.std.specs.BTreeMap.{keys};
ghost use Rattle.std.specs.List.Sorted.{IsPermutation, IsSorted};
ghost use Rattle.std.specs.Option.{option_copied};
ghost use Rattle.mr_mail.specs.Label.{text_cmp};
ghost use Rattle.mr_compare.specs.Gather.{values_at, values_of};
ghost use Rattle.mr_compare.specs.Joining.{together};
ghost use Rattle.mr_compare.specs.Sides.{at_digest};
ghost use Rattle.mr_compare.specs.MailsLeft.{card_view, cards_told, is_absent, left_mail, news_told, stayed_views, unheld, views_left, with_digest};
ghost use Rattle.mr_compare.specs.inner.MailsLeft.{next_mail};

use crate::gather::gathered;
use crate::held::Digest;
use crate::joining::{ItemHeads, joined};
use crate::left::Left;
use crate::sides::{LeftMail, Sides};
use mr_mail::Card;
use mr_maildir::View;
use mr_version::ItemId;
use std::alloc::{AllocError, Global};
use std::collections::BTreeMap;

/// What was left of each mail, some item of which changed, by the mails' digests, which the table tells of the items; and whether it
/// came since: where the last that is told of such an item added a card.
///
/// It was left as all cards say together that are left of its items, with what those of its items say that are held and didn't
/// change. A changed item of which the table tells no digest is passed over.
///
/// It costs look-ups for each item that changed, for each card that is left of it, and for each item that such a mail is.
pub fn left_mails(
    alloc: Global,
    left: &Left,
    digests: &BTreeMap<ItemId, Digest>,
    items: &BTreeMap<Digest, Vec<ItemHeads>>,
) -> Result<BTreeMap<Digest, LeftMail>, AllocError>
    ensures { IfOk result (λ mails. (digest : List ℕ) → at_digest mails.entries digest
        ≡ left_mail (views_left left.now digests.now.entries items.now.entries digest) (values_of text_cmp digest (news_told left.now.changed.entries digests.now.entries))) }
{
    let news = all_news(alloc, left, digests)?;
    let cards = gathered(alloc, all_cards(alloc, left, digests)?)?;
    let mut mails = BTreeMap::new(alloc);
    for (digest, came) in news {
        let known = mails.remove(&digest);
        let mail = mail_with(alloc, known, &cards, left, items, &digest, came)?;
        mails.insert(digest, mail)?;
    }
    Ok(mails)
}

/// Of each item that changed the mail's digest, as the table tells, and whether it came.
fn all_news(
    alloc: Global,
    left: &Left,
    digests: &BTreeMap<ItemId, Digest>,
) -> Result<Vec<(Digest, bool)>, AllocError>
    ensures { IfOk result (λ news. news.items ≡ news_told left.now.changed.entries digests.now.entries) }
{
    let mut news = Vec::new(alloc);
    for (item, last) in left.changed.iter() {
        push_news(&mut news, digests.get(item), last.is_some())?;
    }
    Ok(news)
}

/// Puts the digest behind the others, if there is one.
fn push_news(
    news: &mut Vec<(Digest, bool)>,
    digest: Option<&Digest>,
    came: bool,
) -> Result<(), AllocError>
    ensures { OnOk result (news.new.items ≡ news.old.items ++ with_digest (option_copied digest.entry) came) }
{
    if let Some(digest) = digest {
        news.push((*digest, came))?;
    }
    Ok(())
}

/// Of each card that is left the mail's digest, as the table tells, and how the card has the mail stand.
fn all_cards(
    alloc: Global,
    left: &Left,
    digests: &BTreeMap<ItemId, Digest>,
) -> Result<Vec<(Digest, View)>, AllocError>
    ensures { IfOk result (λ cards. cards.items ≡ cards_told left.now.cards.entries digests.now.entries) }
{
    let mut cards = Vec::new(alloc);
    for (key, card) in left.cards.iter() {
        push_card(alloc, &mut cards, digests.get(&key.0), card)?;
    }
    Ok(cards)
}

/// Puts how the card has the mail of this digest stand behind the others, if there is one.
fn push_card(
    alloc: Global,
    cards: &mut Vec<(Digest, View)>,
    digest: Option<&Digest>,
    card: &Card,
) -> Result<(), AllocError>
    ensures { OnOk result (cards.new.items ≡ cards.old.items ++ with_digest (option_copied digest.entry) (card_view card.now)) }
{
    if let Some(digest) = digest {
        let view = View::of_place(alloc, card.place())?;
        cards.push((*digest, view))?;
    }
    Ok(())
}

/// What was left of the mail, where this is known of it from an item before, and whether it came by one more.
fn mail_with(
    alloc: Global,
    known: Option<LeftMail>,
    cards: &BTreeMap<Digest, Vec<View>>,
    left: &Left,
    items: &BTreeMap<Digest, Vec<ItemHeads>>,
    digest: &Digest,
    came: bool,
) -> Result<LeftMail, AllocError>
    ensures { IfOk result (λ mail. mail ≡ next_mail known (values_at text_cmp cards.now.entries digest.now
        ++ stayed_views left.now.changed.entries (values_at text_cmp items.now.entries digest.now)) came) }
{
    match known {
        Some(mail) => Ok(LeftMail {
            view: mail.view,
            came: mail.came || came,
        }),
        None => Ok(LeftMail {
            view: left_view(alloc, cards, left, items, digest)?,
            came,
        }),
    }
}

/// How the mail was left: by its cards, and by its items that didn't change.
fn left_view(
    alloc: Global,
    cards: &BTreeMap<Digest, Vec<View>>,
    left: &Left,
    items: &BTreeMap<Digest, Vec<ItemHeads>>,
    digest: &Digest,
) -> Result<Option<View>, AllocError>
    ensures { IfOk result (λ view. view ≡ together (values_at text_cmp cards.now.entries digest.now
        ++ stayed_views left.now.changed.entries (values_at text_cmp items.now.entries digest.now))) }
{
    let mut views = copied_at(alloc, cards, digest)?;
    push_stayed(alloc, &mut views, left, held_at(items, digest))?;
    joined(alloc, &views)
}

/// What the table has of the digest.
fn copied_at(
    alloc: Global,
    cards: &BTreeMap<Digest, Vec<View>>,
    digest: &Digest,
) -> Result<Vec<View>, AllocError>
    ensures { IfOk result (λ views. views.items ≡ values_at text_cmp cards.now.entries digest.now) }
{
    let mut views = Vec::new(alloc);
    if let Some(own) = cards.get(digest) {
        push_copies(alloc, &mut views, own)?;
    }
    Ok(views)
}

/// Puts equal views behind the others.
fn push_copies(alloc: Global, views: &mut Vec<View>, more: &[View]) -> Result<(), AllocError>
    ensures { OnOk result (views.new.items ≡ views.old.items ++ more.now) }
{
    for view in more {
        views.push(view.copy(alloc)?)?;
    }
    Ok(())
}

/// The items that are held of the mail.
fn held_at<'a>(items: &'a BTreeMap<Digest, Vec<ItemHeads>>, digest: &Digest) -> &'a [ItemHeads]
    ensures { result.now ≡ values_at text_cmp items.now.entries digest.now }
{
    match items.get(digest) {
        Some(items) => items,
        None => &[],
    }
}

/// Puts how those of the items have the mail stand that didn't change behind the others.
fn push_stayed(
    alloc: Global,
    views: &mut Vec<View>,
    left: &Left,
    items: &[ItemHeads],
) -> Result<(), AllocError>
    ensures { OnOk result (views.new.items ≡ views.old.items ++ stayed_views left.now.changed.entries items.now) }
{
    for heads in items {
        push_if_stayed(alloc, views, heads, left.changed.contains_key(&heads.item))?;
    }
    Ok(())
}

/// Puts how the item has the mail stand behind the others, unless it changed.
fn push_if_stayed(
    alloc: Global,
    views: &mut Vec<View>,
    heads: &ItemHeads,
    has_changed: bool,
) -> Result<(), AllocError>
    ensures { OnOk result (views.new.items ≡ views.old.items ++ (if has_changed then [] else heads.now.view ∷ [])) }
{
    if !has_changed {
        views.push(heads.view.copy(alloc)?)?;
    }
    Ok(())
}

/// The mails that are seen or were left and aren't held, by their digests, in rising order of their bytes.
///
/// It costs two look-ups for each mail that is seen or was left, and a sort of those that aren't held.
pub fn unheld_digests(
    alloc: Global,
    items: &BTreeMap<Digest, Vec<ItemHeads>>,
    sides: &Sides,
) -> Result<Vec<Digest>, AllocError>
    ensures rising { IfOk result (λ digests. IsSorted text_cmp digests.items) }
    ensures each { IfOk result (λ digests. IsPermutation (unheld items.now.entries sides.now) digests.items) }
{
    let mut digests = seen_unheld(alloc, items, &sides.seen)?;
    push_left(&mut digests, items, sides)?;
    digests.sort_unstable();
    Ok(digests)
}

/// The mails that are seen and aren't held.
fn seen_unheld(
    alloc: Global,
    items: &BTreeMap<Digest, Vec<ItemHeads>>,
    seen: &BTreeMap<Digest, View>,
) -> Result<Vec<Digest>, AllocError>
    ensures { IfOk result (λ digests. digests.items ≡ filter (λ digest. is_absent items.now.entries digest) (keys seen.now)) }
{
    let mut digests = Vec::new(alloc);
    for digest in seen.keys() {
        push_unless(&mut digests, *digest, items.contains_key(digest))?;
    }
    Ok(digests)
}

/// Puts the mails behind the others that were left and are neither held nor seen.
fn push_left(
    digests: &mut Vec<Digest>,
    items: &BTreeMap<Digest, Vec<ItemHeads>>,
    sides: &Sides,
) -> Result<(), AllocError>
    ensures { OnOk result (digests.new.items ≡ digests.old.items
        ++ filter (λ digest. is_absent items.now.entries digest && is_absent sides.now.seen.entries digest) (keys sides.now.left)) }
{
    for digest in sides.left.keys() {
        let is_known = items.contains_key(digest) || sides.seen.contains_key(digest);
        push_unless(digests, *digest, is_known)?;
    }
    Ok(())
}

/// Puts the digest behind the others, unless it is known.
fn push_unless(digests: &mut Vec<Digest>, digest: Digest, is_known: bool) -> Result<(), AllocError>
    ensures { OnOk result (digests.new.items ≡ digests.old.items ++ (if is_known then [] else digest ∷ [])) }
{
    if !is_known {
        digests.push(digest)?;
    }
    Ok(())
}
