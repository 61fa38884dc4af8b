//! What the heads of an item came of, by what came to a replica before them.
ghost use Rattle.std.specs.Prelude.{◌≡◌};
ghost use Rattle.std.specs.List.{list_all};
ghost use Rattle.std.specs.Option.{option_copied};
ghost use Rattle.mr_desk.specs.Merge as specs;

use mr_feed::Entry;
use mr_mail::Card;
use mr_replica::Revision;
use mr_version::{ItemId, Version};

/// Whether the head is of the item, and supersedes the version.
fn is_over(item: ItemId, version: Version, head: &Revision) -> bool
    ensures { result ≡ specs.is_over item version head.now }
{
    head.item() == item && head.supersedes(version)
}

/// Whether each head is.
fn are_over(item: ItemId, version: Version, heads: &[Revision]) -> bool
    ensures { result ≡ list_all (specs.is_over item version) heads.now }
{
    heads.iter().all(|head| is_over(item, version, head))
}

/// The card with which a version came that each of the heads supersedes.
fn card_under<'a>(heads: &[Revision], entry: &'a Entry) -> Option<&'a Card>
    ensures { option_copied result ≡ specs.card_under heads.now entry.now }
{
    match entry {
        Entry::Added {
            item,
            version,
            card,
        } if are_over(*item, *version, heads) => Some(card),
        _ => None,
    }
}

/// The card of the last version that came and that each of the heads supersedes, if there is one. None that came is newer and
/// so superseded: it comes before those that supersede it.
pub(crate) fn last_under<'a>(heads: &[Revision], feed: &'a [Entry]) -> Option<&'a Card>
    ensures { option_copied result ≡ specs.last_under heads.now feed.now }
{
    let mut found = None;
    for entry in feed {
        if let Some(card) = card_under(heads, entry) {
            found = Some(card);
        }
    }
    found
}
