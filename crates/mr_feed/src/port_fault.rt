//! Why a port refuses.
ghost use Rattle.std.specs.Prelude.{◌≡◌, IfOk};
ghost use Rattle.mr_feed.specs.declared.port_fault.PortFault.TheVariants.{OutOfMemory};
ghost use Rattle.mr_feed.specs.PortFault.{offer_number, close_number, port_number};

use crate::entry::Entry;
use std::alloc::{AllocError, AllocFailed};
use thiserror::Error;

/// Why an offer was handed back.
#[derive(Debug, Drop, Error)]
pub enum OfferFault {
    #[error("the port is full")]
    Full(Entry),
    #[error("the port is closed")]
    Ended(Entry),
}

/// Why a port could not be closed.
#[derive(Clone, Copy, Debug, PartialEq, Eq, Drop, Error)]
pub enum CloseFault {
    #[error("the port has no place for the close mark")]
    Full,
}

/// Why no port was made.
#[derive(Clone, Copy, Debug, PartialEq, Eq, Drop, Error)]
pub enum PortFault {
    #[error("out of memory")]
    OutOfMemory,
    #[error("a port has 1 to 4,096 places")]
    NoCapacity,
}

impl OfferFault {
    /// The fault's number: 1 where the port was full, 2 where it was closed.
    pub fn number(&self) -> u8
        ensures { result ≡ offer_number self.now }
    {
        match self {
            OfferFault::Full(_) => 1,
            OfferFault::Ended(_) => 2,
        }
    }

    /// An equal fault.
    pub fn copy(&self) -> Result<OfferFault, AllocError>
        ensures { IfOk result (λ fault. fault ≡ self.now) }
    {
        match self {
            OfferFault::Full(entry) => Ok(OfferFault::Full(entry.copy()?)),
            OfferFault::Ended(entry) => Ok(OfferFault::Ended(entry.copy()?)),
        }
    }
}

impl CloseFault {
    /// The fault's number, 1.
    pub fn number(self) -> u8
        ensures { result ≡ close_number self }
    {
        match self {
            CloseFault::Full => 1,
        }
    }
}

impl PortFault {
    /// The fault's number: 0 for out of memory, 1 for a capacity that no port has.
    pub fn number(self) -> u8
        ensures { result ≡ port_number self }
    {
        match self {
            PortFault::OutOfMemory => 0,
            PortFault::NoCapacity => 1,
        }
    }
}

impl From<AllocError> for PortFault {
    ghost from_gives = { λ _ fault. fault ≡ OutOfMemory };

    fn from(_error: AllocError) -> PortFault {
        PortFault::OutOfMemory
    }
}

impl<T: Drop> From<AllocFailed<T>> for PortFault {
    ghost from_gives = { λ _ fault. fault ≡ OutOfMemory };

    fn from(_error: AllocFailed<T>) -> PortFault {
        PortFault::OutOfMemory
    }
}
