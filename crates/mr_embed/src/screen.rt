//! What the user sees and hears: the inbox, how many messages are unseen, and a ring for each new one.
use crate::bell::Bell;
use crate::fault::Fault;
use mr_feed::Entry;
use mr_mail::Label;
use mr_subs::{Indexer, Notifier};
use mr_version::Version;
use std::alloc::Global;

/// The inbox of a device. It hears of changes by the feed alone, and never looks at the replica.
#[derive(Drop)]
pub struct Screen {
    inbox: Label,
    indexer: Indexer,
    notifier: Notifier,
    bell: Bell,
    /// How many entries of the feed it has taken.
    taken: usize,
}

impl Screen {
    /// The screen of a device with no mail.
    pub fn new(alloc: Global) -> Result<Screen, Fault> {
        Ok(Screen {
            inbox: inbox(alloc)?,
            indexer: Indexer::new(alloc),
            notifier: Notifier::new(alloc),
            bell: Bell::new(alloc),
            taken: 0,
        })
    }

    /// Takes what is new in the feed, and says how many messages are new. Each entry is taken once: a feed only grows,
    /// so the number of entries taken is all that has to be kept.
    ///
    /// `OutOfMemory` where an entry can't be shown. A part of what is new may be shown then, so that the screen
    /// is of no more use: a new one takes the feed from its first entry on, and its user hears nothing of that.
    pub fn follow(&mut self, feed: &[Entry]) -> Result<u32, Fault> {
        let mut rings: u32 = 0;
        for entry in feed.iter().skip(self.taken) {
            show(&mut self.indexer, &mut self.notifier, entry)?;
            if self.bell.rings_for(entry)? {
                rings = rings.saturating_add(1);
            }
        }
        self.taken = feed.len();
        Ok(rings)
    }

    /// The messages of the inbox, in version order.
    pub fn inbox(&self) -> Result<Vec<Version>, Fault> {
        Ok(self.indexer.versions(&self.inbox)?)
    }

    /// How many messages nobody has seen.
    pub fn unseen(&self) -> usize {
        self.notifier.unseen()
    }
}

/// The label of the inbox.
fn inbox(alloc: Global) -> Result<Label, Fault> {
    Ok(Label::try_new(String::from_str(alloc, "inbox")?)?)
}

/// Hands an entry to both.
fn show(indexer: &mut Indexer, notifier: &mut Notifier, entry: &Entry) -> Result<(), Fault> {
    indexer.apply(entry.copy()?)?;
    notifier.apply(entry.copy()?)?;
    Ok(())
}
