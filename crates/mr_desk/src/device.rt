//! The device behind a handle: a desk, plain or kept.
ghost use Rattle.std.specs.Prelude.{◌≡◌};
ghost use Rattle.mr_desk.specs.Device.{Commits, DeviceAnswers, DeviceMerges, Settles, acts_of, frame_of, lent, notes_found, replies_of, shown};

use crate::call::{Call, VersionNumbers};
use crate::desk::Desk;
use crate::fault::Fault;
use crate::kept::{KeptDesk, commit, merge, serve};
use crate::reply::Told;
use mr_entry::Note;
use mr_hosted::Act;
use mr_itemset::SparingKnowledge;
use mr_replica::{Replica, Reply};
use std::alloc::Global;

/// A device: a desk whose log its host keeps, or a replica whose file its host writes, act by act.
#[derive(Drop)]
pub enum Device {
    /// It shows what it has at once.
    Plain(Desk),
    /// It shows and hands out only what is in its file.
    Kept {
        kept: KeptDesk,
        /// The notes that its opening found, none where it was begun.
        notes: Vec<Note>,
    },
    /// It was kept, and an act failed or there was no memory to note one: the file has to be opened again.
    Failed,
}

impl Device {
    /// One call, as [`Desk::serve`]. A kept device admits it and holds back what shows a version or gives a frame until the next commit
    /// is kept: `Failed`, `TooLarge` or `OutOfMemory` where its file can't keep the event.
    pub fn serve(&mut self, alloc: Global, call: &Call<'_>) -> Result<Told, Fault>
        ensures { DeviceAnswers self.old call.now result self.new }
    {
        match self {
            Device::Plain(desk) => desk.serve(call),
            Device::Kept { kept, .. } => serve(alloc, kept, call),
            Device::Failed => Err(Fault::Failed),
        }
    }

    /// Merges the heads of an item, as [`Desk::merge`]. A kept device does so where nothing waits for a commit and its host has no act to
    /// do, and else answers `Unsettled`; the version waits for the next commit.
    pub fn merge(&mut self, alloc: Global, item: VersionNumbers) -> Result<Told, Fault>
        ensures { DeviceMerges self.old item result self.new }
    {
        match self {
            Device::Plain(desk) => desk.merge(item),
            Device::Kept { kept, .. } => merge(alloc, kept, item),
            Device::Failed => Err(Fault::Failed),
        }
    }

    /// The replica. `Unsettled` of a kept device while an event waits for a commit or its host has acts to do.
    pub fn replica(&self) -> Result<&Replica<SparingKnowledge>, Fault>
        ensures { lent result ≡ shown self.now }
    {
        match self {
            Device::Plain(desk) => Ok(desk.replica()),
            Device::Kept { kept, .. } => match kept.replica() {
                Some(replica) => Ok(replica),
                None => Err(Fault::Unsettled),
            },
            Device::Failed => Err(Fault::Failed),
        }
    }

    /// The frame of a plain device, as [`Desk::frame`].
    pub fn frame(&self) -> Result<&[u8], Fault>
        ensures { lent result ≡ frame_of self.now }
    {
        match self {
            Device::Plain(desk) => Ok(desk.frame()),
            Device::Kept { .. } => Err(Fault::OtherDevice),
            Device::Failed => Err(Fault::Failed),
        }
    }

    /// What the host of a kept device has to do to its file.
    pub fn acts(&self) -> Result<&[Act], Fault>
        ensures { lent result ≡ acts_of self.now }
    {
        match self {
            Device::Plain(_) => Err(Fault::OtherDevice),
            Device::Kept { kept, .. } => Ok(kept.acts()),
            Device::Failed => Err(Fault::Failed),
        }
    }

    /// What the last commit of a kept device hands out. `Unsettled` as [`Device::replica`].
    pub fn replies(&self) -> Result<&[Reply], Fault>
        ensures { lent result ≡ replies_of self.now }
    {
        match self {
            Device::Plain(_) => Err(Fault::OtherDevice),
            Device::Kept { kept, .. } => match kept.replies() {
                Some(replies) => Ok(replies),
                None => Err(Fault::Unsettled),
            },
            Device::Failed => Err(Fault::Failed),
        }
    }

    /// The notes that the opening of a kept device found, in the order in which they were written: none where it was begun, and none of
    /// those that were written since.
    pub fn notes(&self) -> Result<&[Note], Fault>
        ensures { lent result ≡ notes_found self.now }
    {
        match self {
            Device::Plain(_) => Err(Fault::OtherDevice),
            Device::Kept { notes, .. } => Ok(notes),
            Device::Failed => Err(Fault::Failed),
        }
    }

    /// Has the host of a kept device keep all events that wait, and behind them all notes: [`Device::acts`] are what it has to do. Opening
    /// the file once they are done finds the notes from before, and behind them these.
    ///
    /// `Unsettled` where it has acts to do; `TooLarge` or `OutOfMemory`: then what waits waits still. `Failed` where there is no memory to
    /// note an act; then the device has failed.
    pub fn commit(&mut self) -> Result<(), Fault>
        ensures { Commits self.old result self.new }
    {
        let answer = match self {
            Device::Plain(_) => Err(Fault::OtherDevice),
            Device::Kept { kept, .. } => commit(kept),
            Device::Failed => Err(Fault::Failed),
        };
        if let Err(Fault::Failed) = answer {
            *self = Device::Failed;
        }
        answer
    }

    /// The host of a kept device has done all acts, or one of them failed. Then the device has failed.
    pub fn settle(&mut self, went_well: bool) -> Result<(), Fault>
        ensures { Settles self.old went_well result self.new }
    {
        match self {
            Device::Plain(_) => Err(Fault::OtherDevice),
            Device::Kept { kept, .. } if went_well => {
                kept.settle();
                Ok(())
            }
            Device::Kept { .. } => {
                *self = Device::Failed;
                Ok(())
            }
            Device::Failed => Err(Fault::Failed),
        }
    }
}
