//! Why a lane refuses.
ghost use Rattle.std.specs.Prelude.{◌≡◌};
ghost use Rattle.mr_lane.specs.declared.fault.LaneFault.TheVariants.{OutOfMemory};
ghost use Rattle.mr_lane.specs.Fault.{send_number, finish_number, lane_number};

use std::alloc::{AllocError, AllocFailed};
use std::fmt::Debug;
use thiserror::Error;

/// Why an item or a letter was handed back.
#[derive(Debug, PartialEq, Eq, Drop, Error)]
#[error_bound(T: Debug)]
pub enum SendFault<T> {
    /// The lane had no place for it.
    #[error("the lane is full")]
    Full(T),
    /// This end was closed or finished before.
    #[error("the lane's end is closed")]
    Ended(T),
}

/// Why an end mark was not put into a lane.
#[derive(Clone, Copy, Debug, PartialEq, Eq, Drop, Error)]
pub enum FinishFault {
    /// The lane had no place for the mark.
    #[error("the lane has no place for the end mark")]
    Full,
}

/// Why no lane was made.
#[derive(Clone, Copy, Debug, PartialEq, Eq, Drop, Error)]
pub enum LaneFault {
    /// Memory ran out.
    #[error("out of memory")]
    OutOfMemory,
    /// No lane has so many places.
    #[error("a lane has 1 to 4,096 places")]
    NoCapacity,
}

impl<T> SendFault<T> {
    /// The fault's number: 1 where the lane was full, 2 where the end was closed.
    pub fn number(&self) -> u8
        ensures { result ≡ send_number self.now }
    {
        match self {
            SendFault::Full(_) => 1,
            SendFault::Ended(_) => 2,
        }
    }
}

impl FinishFault {
    /// The fault's number, 1.
    pub fn number(self) -> u8
        ensures { result ≡ finish_number self }
    {
        match self {
            FinishFault::Full => 1,
        }
    }
}

impl LaneFault {
    /// The fault's number: 0 for no memory, 4 for a capacity that no lane has.
    pub fn number(self) -> u8
        ensures { result ≡ lane_number self }
    {
        match self {
            LaneFault::OutOfMemory => 0,
            LaneFault::NoCapacity => 4,
        }
    }
}

impl From<AllocError> for LaneFault {
    ghost from_gives = { λ _ fault. fault ≡ OutOfMemory };

    fn from(_error: AllocError) -> LaneFault {
        LaneFault::OutOfMemory
    }
}

impl<T: Drop> From<AllocFailed<T>> for LaneFault {
    ghost from_gives = { λ _ fault. fault ≡ OutOfMemory };

    fn from(_error: AllocFailed<T>) -> LaneFault {
        LaneFault::OutOfMemory
    }
}
