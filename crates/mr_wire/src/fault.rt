//! Why bytes are no frame, or a frame has no bytes.
ghost use Rattle.std.specs.Prelude.{◌≡◌};
ghost use Rattle.mr_wire.specs.declared.fault.WireFault.TheVariants.{OutOfMemory};
ghost use Rattle.mr_wire.specs.Fault.{fault_number};

use std::alloc::{AllocError, AllocFailed};
use thiserror::Error;

/// Why bytes are no frame, or why a frame can't be spelled.
#[derive(Clone, Copy, Debug, PartialEq, Eq, Drop, Error)]
pub enum WireFault {
    #[error("out of memory")]
    OutOfMemory,
    /// The frame goes on behind the bytes that are there.
    #[error("truncated: the frame goes on behind the bytes that are there")]
    Truncated,
    /// More bytes stand behind the length than a frame may have.
    #[error("too long: a frame has at most 8388608 bytes behind its length")]
    TooLong,
    /// The format byte is none that is read.
    #[error("bad format: the format byte is 1 or 2")]
    BadFormat,
    /// The kind byte is none of the format.
    #[error("bad kind: the format has no frame of that kind")]
    BadKind,
    /// The bytes behind the kind are none of a frame of that kind.
    #[error("bad body: the bytes are not those of a frame of that kind")]
    BadBody,
}

impl WireFault {
    /// The fault's number: 0 where memory ran out, and from 1 in the order of the variants.
    pub fn number(self) -> u8
        ensures { result ≡ fault_number self }
    {
        match self {
            WireFault::OutOfMemory => 0,
            WireFault::Truncated => 1,
            WireFault::TooLong => 2,
            WireFault::BadFormat => 3,
            WireFault::BadKind => 4,
            WireFault::BadBody => 5,
        }
    }
}

impl From<AllocError> for WireFault {
    ghost from_gives = { λ _ fault. fault ≡ OutOfMemory };

    fn from(_error: AllocError) -> WireFault {
        WireFault::OutOfMemory
    }
}

impl<T: Drop> From<AllocFailed<T>> for WireFault {
    ghost from_gives = { λ _ fault. fault ≡ OutOfMemory };

    fn from(_error: AllocFailed<T>) -> WireFault {
        WireFault::OutOfMemory
    }
}
