//! Why a form could not take something.
ghost use Rattle.std.specs.Prelude.{◌≡◌};
ghost use Rattle.mr_forms.specs.declared.fault.FormFault.TheVariants.{OutOfMemory};

use std::alloc::{AllocError, AllocFailed};
use thiserror::Error;

/// Why a form could not take something.
#[derive(Clone, Copy, Debug, PartialEq, Eq, Error)]
pub enum FormFault {
    /// No memory was left.
    #[error("out of memory")]
    OutOfMemory,
    /// A vector would have more holes than its form keeps.
    #[error("too many holes: a vector's column would have more holes than its form keeps")]
    TooManyHoles,
    /// A knowledge would list more items than its form keeps.
    #[error("too many items: the knowledge would list more items than its form keeps")]
    TooManyItems,
}

impl FormFault {
    ghost use Rattle.mr_forms.specs.Fault.{fault_number};

    /// The fault's number: 0 for out of memory, else 1 or 2.
    pub fn number(self) -> u8
        ensures { result ≡ fault_number self }
    {
        match self {
            FormFault::OutOfMemory => 0,
            FormFault::TooManyHoles => 1,
            FormFault::TooManyItems => 2,
        }
    }
}

impl From<AllocError> for FormFault {
    ghost from_gives = { λ _ e. e ≡ OutOfMemory };

    fn from(_e: AllocError) -> FormFault {
        FormFault::OutOfMemory
    }
}

impl<T: Drop> From<AllocFailed<T>> for FormFault {
    ghost from_gives = { λ _ e. e ≡ OutOfMemory };

    fn from(_e: AllocFailed<T>) -> FormFault {
        FormFault::OutOfMemory
    }
}
