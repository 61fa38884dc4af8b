//! Why something is no message.
ghost use Rattle.std.specs.Prelude.{◌≡◌};
ghost use Rattle.mr_mail.specs.declared.fault.MessageFault.TheVariants.{OutOfMemory};
ghost use Rattle.mr_mail.specs.Fault.{fault_number};

use std::alloc::{AllocError, AllocFailed};
use thiserror::Error;

/// Why something is no message, in the order in which the reasons are tried; memory is tried last.
#[derive(Clone, Copy, Debug, PartialEq, Eq, Drop, Error)]
pub enum MessageFault {
    #[error("out of memory")]
    OutOfMemory,
    #[error("the sender has more than 254 bytes")]
    FromTooLong,
    #[error("the subject has more than 998 bytes")]
    SubjectTooLong,
    #[error("the body has more than 65,536 bytes")]
    BodyTooLong,
    #[error("a label is 1 to 32 bytes of a-z, 0-9 and -")]
    BadLabel,
    #[error("more than 16 different labels")]
    TooManyLabels,
    #[error("a flag byte is at most 31")]
    BadFlags,
}

impl MessageFault {
    /// The fault's number: 0 for out of memory, and from 1 in the order in which faults are tried.
    pub fn number(self) -> u8
        ensures { result ≡ fault_number self }
    {
        match self {
            MessageFault::OutOfMemory => 0,
            MessageFault::FromTooLong => 1,
            MessageFault::SubjectTooLong => 2,
            MessageFault::BodyTooLong => 3,
            MessageFault::BadLabel => 4,
            MessageFault::TooManyLabels => 5,
            MessageFault::BadFlags => 6,
        }
    }
}

impl From<AllocError> for MessageFault {
    ghost from_gives = { λ _ fault. fault ≡ OutOfMemory };

    fn from(_error: AllocError) -> MessageFault {
        MessageFault::OutOfMemory
    }
}

impl<T: Drop> From<AllocFailed<T>> for MessageFault {
    ghost from_gives = { λ _ fault. fault ≡ OutOfMemory };

    fn from(_error: AllocFailed<T>) -> MessageFault {
        MessageFault::OutOfMemory
    }
}
