//! Why a replica isn't opened, or doesn't do what it is asked to.
ghost use Rattle.std.specs.Prelude.{◌≡◌};
ghost use Rattle.mr_kept.specs.Explained.{explained_fault_number, explained_kept, explained_open};
ghost use Rattle.mr_kept.specs.Fault.{kept_fault_number, kept_fault_of, kept_fault_of_entry, open_fault_number};
ghost use Rattle.mr_kept.specs.declared.fault.KeptFault.TheVariants as kept;
ghost use Rattle.mr_kept.specs.declared.fault.OpenFault.TheVariants as opens;

use mr_entry::EntryFault;
use mr_filter::FilterFault;
use mr_journal::JournalFault;
use mr_replica::{Refusal, ReplayFault};
use std::alloc::{AllocError, AllocFailed};
use std::io;
use thiserror::Error;

/// Why a replica doesn't do what it is asked to, or doesn't keep what it did.
#[derive(Clone, Copy, Debug, PartialEq, Eq, Drop, Error)]
pub enum KeptFault {
    #[error("out of memory")]
    OutOfMemory,
    /// The replica refused the event, and nothing changed.
    #[error("refused: {0}")]
    Refused(Refusal),
    /// The device failed, now or before. Nothing is handed out any more: open the journal again.
    #[error("failed: the device failed, open the journal again")]
    Failed,
    /// The event has more bytes than one may have, or the journal would get more than it may have.
    #[error("too large: an event has at most 8388608 bytes behind its length, a journal 4611686018427387904")]
    TooLarge,
    /// Where a host writes the file: it has acts to do first, or one of them failed, and the file is to be opened again.
    #[error("unsettled: the host has acts to do")]
    Unsettled,
}

impl KeptFault {
    /// The fault's number: 0 where memory ran out, and from 1 in the order of the variants.
    pub fn number(self) -> u8
        ensures { result ≡ kept_fault_number self }
    {
        match self {
            KeptFault::OutOfMemory => 0,
            KeptFault::Refused(_) => 1,
            KeptFault::Failed => 2,
            KeptFault::TooLarge => 3,
            KeptFault::Unsettled => 4,
        }
    }

    /// The fault with what the system said of the device, where that failed: as [`mr_journal::DiskFile::error`] of
    /// `journal().device()`.
    pub fn explained(self, said: Option<io::Error>) -> ExplainedFault
        ensures { result ≡ explained_kept self said }
    {
        match (self, said) {
            (KeptFault::Failed, Some(said)) => ExplainedFault::Device(said),
            _ => ExplainedFault::Kept(self),
        }
    }
}

impl From<AllocError> for KeptFault {
    ghost from_gives = { λ _ fault. fault ≡ kept.OutOfMemory };

    fn from(_error: AllocError) -> KeptFault {
        KeptFault::OutOfMemory
    }
}

impl<T: Drop> From<AllocFailed<T>> for KeptFault {
    ghost from_gives = { λ _ fault. fault ≡ kept.OutOfMemory };

    fn from(_error: AllocFailed<T>) -> KeptFault {
        KeptFault::OutOfMemory
    }
}

impl From<JournalFault> for KeptFault {
    ghost from_gives = { λ e fault. fault ≡ kept_fault_of e };

    fn from(error: JournalFault) -> KeptFault {
        match error {
            JournalFault::OutOfMemory => KeptFault::OutOfMemory,
            JournalFault::Failed => KeptFault::Failed,
            _ => KeptFault::TooLarge,
        }
    }
}

impl From<EntryFault> for KeptFault {
    ghost from_gives = { λ e fault. fault ≡ kept_fault_of_entry e };

    fn from(error: EntryFault) -> KeptFault {
        match error {
            EntryFault::OutOfMemory => KeptFault::OutOfMemory,
            _ => KeptFault::TooLarge,
        }
    }
}

/// Why a replica isn't begun or opened. No entry was written, unless the device failed: then what the call was to keep may be kept.
/// But where the device had no journal it may have an empty one now, and what a crash left behind a journal may be cut off.
#[derive(Clone, Copy, Debug, PartialEq, Eq, Drop, Error)]
pub enum OpenFault {
    #[error("out of memory")]
    OutOfMemory,
    /// The journal isn't opened.
    #[error("{0}")]
    Journal(JournalFault),
    /// What was done to the replica that was opened isn't kept.
    #[error("{0}")]
    Kept(KeptFault),
    /// The journal has no entry, so no replica was begun in it. It is an empty one that the call made where there was none.
    #[error("no replica: the journal has no entry")]
    NoReplica,
    /// The journal has entries, so no replica is begun in it.
    #[error("not empty: the journal has entries already")]
    NotEmpty,
    /// The entry at this place, from 0, isn't read.
    #[error("entry {place}: {fault}")]
    BadEntry { place: usize, fault: EntryFault },
    /// The entry at this place has bytes behind it, or is a head that isn't the first entry, or the first entry is no head.
    #[error("entry {0}: it doesn't belong there")]
    Misplaced(usize),
    /// The entry at this place tells of another count of versions than the entries up to it issued.
    #[error("entry {0}: its counter is another's")]
    OtherCounter(usize),
    /// The entries tell more events than a replica has.
    #[error("too many events: a replica has at most 1000001")]
    TooManyEvents,
    /// The journal was begun at another place: it was copied or restored.
    #[error("copied or restored: the journal was begun at another place")]
    Copied,
    /// The journal was begun at another time than the one that was asked for.
    #[error("another journal: it was begun at another time")]
    OtherBirth,
    /// The text of the filter means none.
    #[error("bad filter: {0}")]
    BadFilter(FilterFault),
    /// The events aren't those of a replica.
    #[error("{0}")]
    Replay(ReplayFault),
}

impl OpenFault {
    /// The fault's number: 0 where memory ran out, and from 1 in the order of the variants.
    pub fn number(self) -> u8
        ensures { result ≡ open_fault_number self }
    {
        match self {
            OpenFault::OutOfMemory => 0,
            OpenFault::Journal(_) => 1,
            OpenFault::Kept(_) => 2,
            OpenFault::NoReplica => 3,
            OpenFault::NotEmpty => 4,
            OpenFault::BadEntry { .. } => 5,
            OpenFault::Misplaced(_) => 6,
            OpenFault::OtherCounter(_) => 7,
            OpenFault::TooManyEvents => 8,
            OpenFault::Copied => 9,
            OpenFault::OtherBirth => 10,
            OpenFault::BadFilter(_) => 11,
            OpenFault::Replay(_) => 12,
        }
    }

    /// The fault with what the system said of the device, where that failed: as [`mr_journal::DiskFile::error`] of the device that
    /// came back.
    pub fn explained(self, said: Option<io::Error>) -> ExplainedFault
        ensures { result ≡ explained_open self said }
    {
        match (self, said) {
            (OpenFault::Journal(JournalFault::Failed), Some(said)) => ExplainedFault::Device(said),
            (OpenFault::Kept(KeptFault::Failed), Some(said)) => ExplainedFault::Device(said),
            _ => ExplainedFault::Open(self),
        }
    }
}

impl From<AllocError> for OpenFault {
    ghost from_gives = { λ _ fault. fault ≡ opens.OutOfMemory };

    fn from(_error: AllocError) -> OpenFault {
        OpenFault::OutOfMemory
    }
}

impl<T: Drop> From<AllocFailed<T>> for OpenFault {
    ghost from_gives = { λ _ fault. fault ≡ opens.OutOfMemory };

    fn from(_error: AllocFailed<T>) -> OpenFault {
        OpenFault::OutOfMemory
    }
}

/// A fault, with the system's own words where the device failed.
#[derive(Clone, Copy, Debug, Drop, Error)]
pub enum ExplainedFault {
    /// A replica doesn't do what it is asked to.
    #[error("{0}")]
    Kept(KeptFault),
    /// A replica isn't begun or opened.
    #[error("{0}")]
    Open(OpenFault),
    /// The device failed, and this is what the system said of it.
    #[error("failed: the device failed, open the journal again: {0}")]
    Device(io::Error),
}

impl ExplainedFault {
    /// The fault's number: 0 where memory ran out, and from 1 in the order of the variants.
    pub fn number(self) -> u8
        ensures { result ≡ explained_fault_number self }
    {
        match self {
            ExplainedFault::Kept(KeptFault::OutOfMemory) => 0,
            ExplainedFault::Open(OpenFault::OutOfMemory) => 0,
            ExplainedFault::Kept(_) => 1,
            ExplainedFault::Open(_) => 2,
            ExplainedFault::Device(_) => 3,
        }
    }
}
