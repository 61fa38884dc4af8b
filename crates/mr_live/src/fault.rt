//! Why a live script comes to nothing.
ghost use Rattle.std.specs.Prelude.{◌≡◌};

use mr_script::ScriptFault;
use std::alloc::AllocError;
use thiserror::Error;

/// Why a live script comes to nothing. Its text is what is printed on standard error.
#[derive(Clone, Copy, Debug, PartialEq, Eq, Error)]
pub enum LiveFault {
    /// No memory was left, or no thread could be made, once the script was read.
    #[error("out of memory")]
    OutOfMemory,
    /// The script, its reader or the writer.
    #[error("{0}")]
    Script(ScriptFault),
    /// The script makes another number of replicas.
    #[error("live needs two replicas")]
    NotTwo,
}

impl LiveFault {
    ghost use Rattle.mr_live.specs.Fault.{live_fault_number};

    /// The fault's number: 0 where memory ran out once the script was read, 1 for a fault of the script, its reader or
    /// the writer, and 2 for another number of replicas.
    pub fn number(self) -> u8
        ensures { result ≡ live_fault_number self }
    {
        match self {
            LiveFault::OutOfMemory => 0,
            LiveFault::Script(_) => 1,
            LiveFault::NotTwo => 2,
        }
    }
}

impl From<AllocError> for LiveFault {
    ghost use Rattle.mr_live.specs.declared.fault.LiveFault.TheVariants.{OutOfMemory};

    ghost from_gives = { λ _ fault. fault ≡ OutOfMemory };

    fn from(_error: AllocError) -> LiveFault {
        LiveFault::OutOfMemory
    }
}
