//! Kept replicas, and replicas that aren't kept, as scenes see them: whatever their form of knowledge is.
use crate::disk::Disk;
use crate::slot::OnDisk;
use crate::tell::push_held;
use anyhow::{Result, bail};
use mr_entry::{Birth, Mark, Note};
use mr_filter::Filter;
use mr_forms::Knowledge;
use mr_kept::{Journaled, KeptFault, OpenFault, Opened, PeerFault, Setup};
use mr_mail::Message;
use mr_replica::{Bases, Received, Replica, Reply, Revision};
use mr_version::{Author, Version};
use mr_wire::{Ask, Frame, Receipt};
use std::alloc::{AllocError, Global};

/// What a kept replica is asked. Each call is the one of this name of [`Journaled`].
pub trait Keeper: OnDisk {
    fn begin(alloc: Global, disk: Disk, setup: Setup) -> Result<Self, (OpenFault, Disk)>;

    fn open(
        alloc: Global,
        disk: Disk,
        mark: &Mark,
        birth: Option<Birth>,
    ) -> Result<(Self, Opened), (OpenFault, Disk)>;

    fn create(&mut self, message: Message) -> Result<(), KeptFault>;

    fn edit(&mut self, bases: Bases, message: Message) -> Result<(), KeptFault>;

    fn pull(&mut self) -> Result<(), KeptFault>;

    fn next(&mut self, stream: u64) -> Result<(), KeptFault>;

    fn vouch(&mut self, version: Version) -> Result<(), KeptFault>;

    fn retire(&mut self) -> Result<(), KeptFault>;

    fn cut_in(&mut self, session: u64) -> Result<(), KeptFault>;

    fn cut_out(&mut self, stream: u64) -> Result<(), KeptFault>;

    fn note(&mut self, note: Note) -> Result<(), KeptFault>;

    fn answer(&mut self, ask: Ask) -> Result<u64, KeptFault>;

    fn receive(&mut self, frame: Frame) -> Result<Received, KeptFault>;

    fn release(&mut self, receipt: Receipt) -> Result<(), KeptFault>;

    fn commit(&mut self) -> Result<Vec<Reply>, KeptFault>;

    fn check_peer(&self, highest: &[Version], births: &[(Author, Birth)]) -> Result<(), PeerFault>;

    fn is_kept(&self) -> bool;

    /// These bytes, as they are sent once nothing waits.
    fn sent(&self, alloc: Global, bytes: &[u8]) -> Result<Vec<u8>>;

    fn heads(&self) -> &[Revision];

    /// Adds what it holds.
    fn push_held(&self, text: &mut String) -> Result<(), AllocError>;
}

impl<K: Knowledge> OnDisk for Journaled<K, Disk> {
    fn disk(&self) -> &Disk {
        self.journal().device()
    }

    fn into_disk(self) -> Disk {
        self.into_device()
    }
}

impl<K: Knowledge> Keeper for Journaled<K, Disk> {
    fn begin(
        alloc: Global,
        disk: Disk,
        setup: Setup,
    ) -> Result<Journaled<K, Disk>, (OpenFault, Disk)> {
        Journaled::begin(alloc, disk, setup)
    }

    fn open(
        alloc: Global,
        disk: Disk,
        mark: &Mark,
        birth: Option<Birth>,
    ) -> Result<(Journaled<K, Disk>, Opened), (OpenFault, Disk)> {
        Journaled::open(alloc, disk, mark, birth)
    }

    fn create(&mut self, message: Message) -> Result<(), KeptFault> {
        Journaled::create(self, message)
    }

    fn edit(&mut self, bases: Bases, message: Message) -> Result<(), KeptFault> {
        Journaled::edit(self, bases, message)
    }

    fn pull(&mut self) -> Result<(), KeptFault> {
        Journaled::pull(self)
    }

    fn next(&mut self, stream: u64) -> Result<(), KeptFault> {
        Journaled::next(self, stream)
    }

    fn vouch(&mut self, version: Version) -> Result<(), KeptFault> {
        Journaled::vouch(self, version)
    }

    fn retire(&mut self) -> Result<(), KeptFault> {
        Journaled::retire(self)
    }

    fn cut_in(&mut self, session: u64) -> Result<(), KeptFault> {
        Journaled::cut_in(self, session)
    }

    fn cut_out(&mut self, stream: u64) -> Result<(), KeptFault> {
        Journaled::cut_out(self, stream)
    }

    fn note(&mut self, note: Note) -> Result<(), KeptFault> {
        Journaled::note(self, note)
    }

    fn answer(&mut self, ask: Ask) -> Result<u64, KeptFault> {
        Journaled::answer(self, ask)
    }

    fn receive(&mut self, frame: Frame) -> Result<Received, KeptFault> {
        Journaled::receive(self, frame)
    }

    fn release(&mut self, receipt: Receipt) -> Result<(), KeptFault> {
        Journaled::release(self, receipt)
    }

    fn commit(&mut self) -> Result<Vec<Reply>, KeptFault> {
        Journaled::commit(self)
    }

    fn check_peer(&self, highest: &[Version], births: &[(Author, Birth)]) -> Result<(), PeerFault> {
        Journaled::check_peer(self, highest, births)
    }

    fn is_kept(&self) -> bool {
        Journaled::is_kept(self)
    }

    fn sent(&self, alloc: Global, bytes: &[u8]) -> Result<Vec<u8>> {
        if !Journaled::is_kept(self) {
            bail!("something waits");
        }
        let mut sent = Vec::new(alloc);
        self.send(&mut sent, bytes)?;
        Ok(sent)
    }

    fn heads(&self) -> &[Revision] {
        self.replica().heads()
    }

    fn push_held(&self, text: &mut String) -> Result<(), AllocError> {
        push_held(text, self.replica())
    }
}

/// What a replica that isn't kept is asked.
pub trait Taker: Drop {
    /// One of this id, with these limits.
    fn begin(alloc: Global, id: Author, filter: Filter, event_limit: u32) -> Result<Self>;

    /// Opens a session, and gives the request for it.
    fn pull(&mut self) -> Result<Ask>;

    /// Lets the session that a record is for take it.
    fn receive(&mut self, frame: Frame) -> Result<Received>;

    /// Adds what it holds.
    fn push_held(&self, text: &mut String) -> Result<(), AllocError>;
}

impl<K: Knowledge> Taker for Replica<K> {
    fn begin(alloc: Global, id: Author, filter: Filter, event_limit: u32) -> Result<Replica<K>> {
        Ok(Replica::try_new(alloc, id, filter, event_limit)?)
    }

    fn pull(&mut self) -> Result<Ask> {
        Ok(Replica::pull(self)?)
    }

    fn receive(&mut self, frame: Frame) -> Result<Received> {
        Ok(Replica::receive(self, frame)?)
    }

    fn push_held(&self, text: &mut String) -> Result<(), AllocError> {
        push_held(text, self)
    }
}
