//! The notifier: how many versions are unseen.
ghost use Rattle.std.specs.Prelude.{◌≡◌, length};
ghost use Rattle.mr_mail.specs.Mail.{MailCard};
ghost use Rattle.mr_model.specs.Headline.{Cards};
ghost use Rattle.mr_feed.specs.inner.Entry.{card_added};
ghost use Rattle.mr_subs.specs.Unseen.{ListsUnseen, HasCount, unseen_in, lacks_seen};

use crate::subscriber::{Fold, Subscriber};
use mr_feed::Entry;
use mr_mail::Flag;
use mr_version::Version;
use std::alloc::{AllocError, Global};
use std::collections::BTreeSet;
use std::marker::Model;

/// The versions of a feed's fold whose card lacks the flag seen.
#[derive(Debug, Drop)]
pub struct UnseenVersions {
    versions: BTreeSet<Version>,
}

impl Model for UnseenVersions {
    ghost use Rattle.std.specs.Prelude.{List};
    ghost use Rattle.std.specs.Coded.{coded_list};
    ghost use Rattle.mr_version.specs.Name.{Name, name_code};

    ghost Value = { List Name };

    ghost coded = { coded_list name_code };

    ghost view = { λ u. u.versions.keys };
}

/// Counts the versions whose card lacks the flag seen.
pub type Notifier = Subscriber<UnseenVersions>;

impl UnseenVersions {
    /// How many they are.
    pub fn len(&self) -> usize
        ensures count { (cards : Cards MailCard) → ListsUnseen self.now cards → HasCount (unseen_in cards) result }
        ensures value { result ≡ length self.now }
    {
        self.versions.len()
    }
}

impl Fold for UnseenVersions {
    ghost shows = { ListsUnseen };

    fn new(alloc: Global) -> UnseenVersions {
        UnseenVersions {
            versions: BTreeSet::new(alloc),
        }
    }

    fn fold_in(&mut self, entry: &Entry) -> Result<(), AllocError> {
        if adds_unseen(entry) {
            self.versions.insert(entry.version())?;
        } else {
            self.versions.remove(&entry.version());
        }
        Ok(())
    }
}

/// Whether the entry adds a version whose card lacks the flag seen.
fn adds_unseen(entry: &Entry) -> bool
    ensures { result ≡ lacks_seen (card_added entry.now) }
{
    match entry {
        Entry::Added { card, .. } => !card.flags().contains(Flag::Seen),
        Entry::Dropped { .. } => false,
    }
}

impl Subscriber<UnseenVersions> {
    /// How many versions lack the flag seen, of those that are left once the applied entries were gone
    /// through in order.
    pub fn unseen(&self) -> usize
        ensures { (cards : Cards MailCard) → ListsUnseen self.now.fold cards → HasCount (unseen_in cards) result }
    {
        self.fold().len()
    }
}
