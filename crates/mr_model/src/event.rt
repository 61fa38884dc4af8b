//! What happens in a history.
ghost use Rattle.std.specs.Prelude.{◌≡◌, IfOk};
ghost use Rattle.mr_model.specs.History.{◌does◌};

use mr_version::{Author, Version};
use std::alloc::AllocError;
use std::marker::Model;

/// The versions that an edit names, in the order given. A repeated one counts once.
#[derive(Debug, Drop)]
pub struct Bases {
    versions: Vec<Version>,
}

impl Model for Bases {
    ghost use Rattle.std.specs.Prelude.{List};
    ghost use Rattle.std.specs.Coded.{coded_list};
    ghost use Rattle.mr_version.specs.Name.{Name, name_code};

    ghost Value = { List Name };

    ghost coded = { coded_list name_code };

    ghost view = { λ b. b.versions.items };
}

impl Bases {
    /// These versions, with no copy.
    pub fn new(versions: Vec<Version>) -> Bases
        ensures { result ≡ versions.items }
    {
        Bases { versions }
    }

    /// The versions, in the order given.
    pub fn as_slice(&self) -> &[Version]
        ensures { result.now ≡ self.now }
    {
        &self.versions
    }

    /// Equal bases. It costs a copy of the versions.
    pub fn copy(&self) -> Result<Bases, AllocError>
        ensures { IfOk result (λ bases. bases ≡ self.now) }
    {
        Ok(Bases {
            versions: self.versions.clone()?,
        })
    }
}

/// One of the two that follow a replica's feed.
#[derive(Clone, Copy, Debug, PartialEq, Eq)]
pub enum Subscriber {
    /// Which versions have a label.
    Indexer,
    /// How many heads are unseen.
    Notifier,
}

/// What a replica does in a history, or one of its ports. Requests, records and receipts are named by their
/// numbers in the pools of all that were given, from 1.
#[derive(Debug, Drop)]
pub enum Act<M> {
    /// Issue the first version of a new item.
    Create(M),
    /// Issue a version that supersedes the bases, with all that they supersede.
    Edit(Bases, M),
    /// Admit nothing more but to tell others.
    Retire,
    /// Open a session, and ask in it for what the replica lacks.
    Pull,
    /// Take the record of this number.
    Receive(u64),
    /// Take no more than so many bytes of a record: its first number is the record's, and its second how
    /// many bytes.
    DeliverPart(u64, u64),
    /// Close the session of this number.
    CutIn(u64),
    /// Answer the request of this number.
    Answer(u64),
    /// Give the next record of the stream of this number.
    Next(u64),
    /// Close the stream of this number.
    CutOut(u64),
    /// Put the next entry of the feed into the subscriber's port.
    Offer(Subscriber),
    /// Take the first entry that waits in the subscriber's port.
    Take(Subscriber),
    /// Close the subscriber's port. What waits in it may still be taken.
    Close(Subscriber),
    /// Give a receipt for the version, which is a head.
    Vouch(Version),
    /// Let go of the push-outs that the receipt of this number frees.
    Release(u64),
}

/// One event of a history: a replica, and what it does.
#[derive(Debug, Drop)]
pub struct Event<M> {
    /// The replica's id.
    pub replica: Author,
    /// What it does.
    pub act: Act<M>,
}

impl<M> Act<M> {
    /// The event by which this replica does so.
    pub fn by(self, replica: Author) -> Event<M>
        ensures { result ≡ (replica does self) }
    {
        Event { replica, act: self }
    }
}
