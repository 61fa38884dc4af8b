//! A replica with its journal.
ghost use Rattle.std.specs.Prelude.{◌≡◌};
ghost use Rattle.mr_journal.specs.Journal.{device_of};
ghost use Rattle.mr_replica.specs.Replay.{IsItsLog};

use mr_entry::{Birth, Head, Note};
use mr_forms::Knowledge;
use mr_journal::{Device, Journal};
use mr_replica::{Replica, Reply};
use std::alloc::Global;

/// A replica with the journal of its events.
///
/// The events of its log are those that the journal has, and behind them those that wait for the next commit. Notes of the program
/// above wait for it too.
#[derive(Drop)]
pub struct Journaled<K: Knowledge, D: Device + Drop> {
    pub(crate) alloc: Global,
    pub(crate) replica: Replica<K>,
    pub(crate) journal: Journal<D>,
    pub(crate) head: Head,
    /// How many events of the log the journal has.
    pub(crate) kept: usize,
    /// How many versions these issued.
    pub(crate) issued: u32,
    /// What may leave once the events that wait are kept.
    pub(crate) leaving: Vec<Reply>,
    /// The notes that wait.
    pub(crate) notes: Vec<Note>,
}

impl<K: Knowledge, D: Device + Drop> Journaled<K, D> {
    ghost use Rattle.mr_kept.specs.Kept.{head_of, journal_of, nothing_waits, replica_of};

    /// The replica: what it holds, knows and feeds. What waits for a commit is in it already. It is its log replayed.
    pub fn replica(&self) -> &Replica<K>
        ensures is { result.now ≡ replica_of self.now }
        ensures is_its_log { IsItsLog K.form result.now }
    {
        // the replica is its log replayed
        let _log = self.replica.log();
        &self.replica
    }

    /// The journal.
    pub fn journal(&self) -> &Journal<D>
        ensures { result.now ≡ journal_of self.now }
    {
        &self.journal
    }

    /// What replica the journal is of.
    pub fn head(&self) -> &Head
        ensures { result.now ≡ head_of self.now }
    {
        &self.head
    }

    /// What was drawn when the journal was begun.
    pub fn birth(&self) -> Birth
        ensures { result ≡ (head_of self.now).birth }
    {
        self.head.birth()
    }

    /// Whether all events of the replica are kept, and all notes.
    pub fn is_kept(&self) -> bool
        ensures { result ≡ nothing_waits self.now }
    {
        self.replica.log().len() <= self.kept && self.notes.is_empty()
    }

    /// Ends it, and gives the journal's device back. What waits for a commit is lost.
    pub fn into_device(self) -> D
        ensures { result ≡ device_of (journal_of self) }
    {
        let Journaled { journal, .. } = self;
        journal.into_device()
    }
}
