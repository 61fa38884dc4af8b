//! The indexer: which versions have a label.
ghost use Rattle.std.specs.Prelude.{◌≡◌, if◌then◌else◌, List, Some, None, IfOk, OnOk, OnErr, filter};
ghost use Rattle.std.specs.List.Sorted.{IsStrictlySortedBy};
ghost use Rattle.mr_version.specs.Name.{Name, name_cmp, name_eq};
ghost use Rattle.mr_mail.specs.Mail.{MailCard};
ghost use Rattle.mr_model.specs.Headline.{Cards};
ghost use Rattle.mr_feed.specs.Fold.{is_listed};
ghost use Rattle.mr_subs.specs.Index.{HasCards, card_at, labelled};

use crate::shelves::{Shelves, is_among, shelve_all, unshelve_others};
use crate::subscriber::{Fold, Subscriber};
use mr_feed::Entry;
use mr_mail::{Card, Label};
use mr_version::Version;
use std::alloc::{AllocError, Global};
use std::collections::{BTreeMap, BTreeSet};
use std::marker::Model;

/// The versions of a feed's fold with their cards, and for each label the versions that have it.
///
/// A shelf may have a version more, where a call found no memory: the cards decide.
#[derive(Debug, Drop)]
pub struct Index {
    alloc: Global,
    cards: BTreeMap<Version, Card>,
    shelves: Shelves,
}

impl Model for Index {
    ghost use Rattle.std.specs.Prelude.{List};
    ghost use Rattle.std.specs.Coded.{coded_list, coded×};
    ghost use Rattle.mr_version.specs.Name.{Name, name_code};
    ghost use Rattle.mr_mail.specs.Mail.{MailCard, card_code};
    ghost use Rattle.mr_subs.specs.Index.{AreShelved};

    ghost Value = { List (Name × MailCard) };

    ghost coded = { coded_list (coded× name_code card_code) };

    ghost view = { λ i. i.cards.entries };

    ghost invariant = { λ i. AreShelved i.cards.entries i.shelves.entries };
}

/// Tells which versions have a label.
pub type Indexer = Subscriber<Index>;

impl Index {
    /// The versions whose card has the label, in version order.
    pub fn versions(&self, label: &Label) -> Result<Vec<Version>, AllocError>
        ensures rising { IfOk result (λ versions. IsStrictlySortedBy name_cmp versions.items) }
        ensures exact { IfOk result (λ versions. (v : Name) → is_listed versions.items v ≡ labelled (card_at self.now) label.now v) }
    {
        match self.shelves.get(label) {
            Some(shelf) => with_label(self.alloc, &self.cards, shelf, label),
            None => Ok(Vec::new(self.alloc)),
        }
    }
}

/// Those of the versions that have a card with the label, in version order.
fn with_label(
    alloc: Global,
    cards: &BTreeMap<Version, Card>,
    versions: &BTreeSet<Version>,
    label: &Label,
) -> Result<Vec<Version>, AllocError>
    ensures found { IfOk result (λ found. found.items ≡ filter (labelled (card_at cards.now.entries) label.now) versions.now.keys) }
    ensures rising { IsStrictlySortedBy name_cmp versions.now.keys }
{
    versions
        .iter()
        .copied()
        .filter(|version| has_label(cards, *version, label))
        .collect(alloc)
}

impl Subscriber<Index> {
    /// The versions whose card has the label, of those that are left once the applied entries were gone
    /// through in order; in version order.
    pub fn versions(&self, label: &Label) -> Result<Vec<Version>, AllocError>
        ensures rising { IfOk result (λ versions. IsStrictlySortedBy name_cmp versions.items) }
        ensures exact { IfOk result (λ versions. (cards : Cards MailCard) → HasCards self.now.fold cards →
            (v : Name) → is_listed versions.items v ≡ labelled cards label.now v) }
    {
        self.fold().versions(label)
    }
}

/// Whether the version has a card with the label.
fn has_label(cards: &BTreeMap<Version, Card>, version: Version, label: &Label) -> bool
    ensures { result ≡ labelled (card_at cards.now.entries) label.now version }
{
    match cards.get(&version) {
        Some(card) => is_among(card.labels(), label),
        None => false,
    }
}

impl Fold for Index {
    ghost shows = { HasCards };

    fn new(alloc: Global) -> Index {
        Index {
            alloc,
            cards: BTreeMap::new(alloc),
            shelves: BTreeMap::new(alloc),
        }
    }

    fn fold_in(&mut self, entry: &Entry) -> Result<(), AllocError> {
        match entry {
            Entry::Added { version, card, .. } => self.put(*version, card),
            Entry::Dropped { version, .. } => {
                self.remove(*version);
                Ok(())
            }
        }
    }
}

impl Index {
    /// Gives the version this card.
    fn put(&mut self, version: Version, card: &Card) -> Result<(), AllocError>
        ensures ok { OnOk result ((v : Name) → card_at self.new v ≡ (if name_eq version v then Some card.now else card_at self.old v)) }
        ensures err { OnErr result (self.new ≡ self.old) }
    {
        shelve_all(self.alloc, &mut self.shelves, card.labels(), version)?;
        if let Some(older) = self.cards.insert(version, card.copy()?)? {
            unshelve_others(&mut self.shelves, older.labels(), card.labels(), version);
        }
        Ok(())
    }

    /// Takes the version out with its card.
    fn remove(&mut self, version: Version)
        ensures { (v : Name) → card_at self.new v ≡ (if name_eq version v then None else card_at self.old v) }
    {
        if let Some(card) = self.cards.remove(&version) {
            unshelve_others(&mut self.shelves, card.labels(), &[], version);
        }
    }
}
