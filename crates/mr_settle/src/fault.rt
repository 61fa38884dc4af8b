//! Why logs do not join.
ghost use Rattle.std.specs.Prelude.{◌≡◌};

use mr_version::Author;
use std::alloc::AllocError;
use thiserror::Error;

/// Why there is no world that explains some logs.
#[derive(Clone, Copy, Debug, PartialEq, Eq, Error)]
pub enum JoinFault {
    #[error("out of memory")]
    OutOfMemory,
    /// No log can go on, and of the replicas with events left this is the lowest: its next event, by its number
    /// from 1, carries a frame that nobody gave.
    #[error("nobody gave the frame of event {event} of replica {replica}")]
    Unexplained { replica: Author, event: usize },
}

impl JoinFault {
    ghost use Rattle.mr_settle.specs.Stuck.{join_fault_number};

    /// The fault's number: 0 where memory ran out, else 1.
    pub fn number(self) -> u8
        ensures { result ≡ join_fault_number self }
    {
        match self {
            JoinFault::OutOfMemory => 0,
            JoinFault::Unexplained { .. } => 1,
        }
    }
}

impl From<AllocError> for JoinFault {
    ghost use Rattle.std.specs.Prelude.{◌≡◌};
    ghost use Rattle.mr_settle.specs.declared.fault.JoinFault.TheVariants.{OutOfMemory};

    ghost from_gives = { λ _ fault. fault ≡ OutOfMemory };

    fn from(_error: AllocError) -> JoinFault {
        JoinFault::OutOfMemory
    }
}
