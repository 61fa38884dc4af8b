//! Why there is no such world, and why a world stopped.
ghost use Rattle.std.specs.Prelude.{◌≡◌};
ghost use Rattle.mr_world.specs.Fault.{spec_fault_number, fault_number};

use std::alloc::AllocError;
use thiserror::Error;

/// Why no world is made of these specifications.
#[derive(Clone, Copy, Debug, PartialEq, Eq, Error)]
pub enum SpecFault {
    #[error("out of memory")]
    OutOfMemory,
    #[error("two replicas have one id")]
    SameReplica,
    #[error("an event limit is 1 to 1,000,000")]
    BadLimit,
    #[error("a port has 1 to 4,096 places")]
    NoCapacity,
}

impl SpecFault {
    /// The fault's number: 0 where memory ran out, and from 1 in the order of the variants.
    pub fn number(self) -> u8
        ensures { result ≡ spec_fault_number self }
    {
        match self {
            SpecFault::OutOfMemory => 0,
            SpecFault::SameReplica => 1,
            SpecFault::BadLimit => 2,
            SpecFault::NoCapacity => 3,
        }
    }
}

/// Why a world stopped at an event.
#[derive(Clone, Copy, Debug, PartialEq, Eq, Error)]
pub enum WorldFault {
    #[error("out of memory")]
    OutOfMemory,
    #[error("the world has no replica of that id")]
    NoSuchReplica,
    #[error("the pool has no frame of that number")]
    NoSuchFrame,
}

impl WorldFault {
    /// The fault's number: 0 where memory ran out, and from 1 in the order of the variants.
    pub fn number(self) -> u8
        ensures { result ≡ fault_number self }
    {
        match self {
            WorldFault::OutOfMemory => 0,
            WorldFault::NoSuchReplica => 1,
            WorldFault::NoSuchFrame => 2,
        }
    }
}

impl From<AllocError> for WorldFault {
    ghost use Rattle.std.specs.Prelude.{◌≡◌};
    ghost use Rattle.mr_world.specs.declared.fault.WorldFault.TheVariants.{OutOfMemory};

    ghost from_gives = { λ _ fault. fault ≡ OutOfMemory };

    fn from(_error: AllocError) -> WorldFault {
        WorldFault::OutOfMemory
    }
}
