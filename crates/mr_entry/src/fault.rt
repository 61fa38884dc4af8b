//! Why bytes are no entry, or an entry has no bytes.
ghost use Rattle.std.specs.Prelude.{◌≡◌};
ghost use Rattle.mr_entry.specs.declared.fault.EntryFault.TheVariants.{OutOfMemory};
ghost use Rattle.mr_entry.specs.Fault.{fault_number, fault_of_event};

use crate::event::EventFault;
use std::alloc::{AllocError, AllocFailed};
use thiserror::Error;

/// Why bytes are no entry, or why an entry can't be spelled.
#[derive(Clone, Copy, Debug, PartialEq, Eq, Drop, Error)]
pub enum EntryFault {
    #[error("out of memory")]
    OutOfMemory,
    /// There is no byte.
    #[error("truncated: an entry has at least a kind byte")]
    Truncated,
    /// No entry has the kind byte.
    #[error("bad kind: the kind byte of an entry is 0 to 3")]
    BadKind,
    /// The head is of a format that isn't read here, with this number.
    #[error("another format: {0}, and this program reads 1")]
    OtherFormat(u16),
    /// The bytes behind the kind are none of an entry of that kind.
    #[error("bad body: the bytes are not those of an entry of that kind")]
    BadBody,
    /// The bytes of the event are none of an event.
    #[error("bad event: {0}")]
    BadEvent(EventFault),
    /// The event has more bytes than one may have, or a text or a note has 2^32 bytes or more.
    #[error("too long: an event has at most 8388608 bytes behind its length, a filter's text and a note at most 4294967295")]
    TooLong,
}

impl EntryFault {
    /// The fault's number: 0 where memory ran out, and from 1 in the order of the variants.
    pub fn number(self) -> u8
        ensures { result ≡ fault_number self }
    {
        match self {
            EntryFault::OutOfMemory => 0,
            EntryFault::Truncated => 1,
            EntryFault::BadKind => 2,
            EntryFault::OtherFormat(_) => 3,
            EntryFault::BadBody => 4,
            EntryFault::BadEvent(_) => 5,
            EntryFault::TooLong => 6,
        }
    }
}

impl From<AllocError> for EntryFault {
    ghost from_gives = { λ _ fault. fault ≡ OutOfMemory };

    fn from(_error: AllocError) -> EntryFault {
        EntryFault::OutOfMemory
    }
}

impl<T: Drop> From<AllocFailed<T>> for EntryFault {
    ghost from_gives = { λ _ fault. fault ≡ OutOfMemory };

    fn from(_error: AllocFailed<T>) -> EntryFault {
        EntryFault::OutOfMemory
    }
}

/// The fault of an entry whose event has this one.
pub(crate) fn fault_of_event(fault: EventFault) -> EntryFault
    ensures { result ≡ fault_of_event fault }
{
    match fault {
        EventFault::OutOfMemory => EntryFault::OutOfMemory,
        fault => EntryFault::BadEvent(fault),
    }
}
