//! Why bytes are no event, or an event has no bytes.
ghost use Rattle.std.specs.Prelude.{◌≡◌};
ghost use Rattle.mr_entry.specs.declared.event.fault.EventFault.TheVariants.{OutOfMemory};
ghost use Rattle.mr_entry.specs.Fault.{event_fault_number};

use std::alloc::{AllocError, AllocFailed};
use thiserror::Error;

/// Why bytes are no event, or why an event can't be spelled.
#[derive(Clone, Copy, Debug, PartialEq, Eq, Drop, Error)]
pub enum EventFault {
    #[error("out of memory")]
    OutOfMemory,
    /// The event goes on behind the bytes that are there.
    #[error("truncated: the event goes on behind the bytes that are there")]
    Truncated,
    /// More bytes stand behind the length than an event may have.
    #[error("too long: an event has at most 8388608 bytes behind its length")]
    TooLong,
    /// The number of the form is none that is read.
    #[error("bad form: the number of the form is 1")]
    BadForm,
    /// No event has the kind byte.
    #[error("bad kind: the kind byte of an event is 0 to 10")]
    BadKind,
    /// The bytes behind the kind are none of an event of that kind.
    #[error("bad body: the bytes are not those of an event of that kind")]
    BadBody,
}

impl EventFault {
    /// The fault's number: 0 where memory ran out, and from 1 in the order of the variants.
    pub fn number(self) -> u8
        ensures { result ≡ event_fault_number self }
    {
        match self {
            EventFault::OutOfMemory => 0,
            EventFault::Truncated => 1,
            EventFault::TooLong => 2,
            EventFault::BadForm => 3,
            EventFault::BadKind => 4,
            EventFault::BadBody => 5,
        }
    }
}

impl From<AllocError> for EventFault {
    ghost from_gives = { λ _ fault. fault ≡ OutOfMemory };

    fn from(_error: AllocError) -> EventFault {
        EventFault::OutOfMemory
    }
}

impl<T: Drop> From<AllocFailed<T>> for EventFault {
    ghost from_gives = { λ _ fault. fault ≡ OutOfMemory };

    fn from(_error: AllocFailed<T>) -> EventFault {
        EventFault::OutOfMemory
    }
}
