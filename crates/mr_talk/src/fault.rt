//! Why bytes are no message.
ghost use Rattle.std.specs.Prelude.{◌≡◌};
ghost use Rattle.mr_talk.specs.declared.fault.MessageFault.TheVariants.{OutOfMemory};
ghost use Rattle.mr_talk.specs.Fault.{fault_number, line_fault_number};

use std::alloc::AllocError;
use thiserror::Error;

/// Why there is no message, or why a reader takes no bytes.
#[derive(Clone, Copy, Debug, PartialEq, Eq, Drop, Error)]
pub enum MessageFault {
    /// A growth was refused.
    #[error("out of memory")]
    OutOfMemory,
    /// The bytes end before the message does.
    #[error("truncated: the message lacks its end")]
    Truncated,
    /// The first byte is of no kind.
    #[error("bad kind: a message of an unknown kind")]
    BadKind,
    /// More bytes than a message of its kind may have.
    #[error("too long: more bytes than a message of this kind has")]
    TooLong,
    /// The stream had a fault before, so nobody knows where its next message begins.
    #[error("failed: the stream had a fault before")]
    Failed,
}

impl MessageFault {
    /// The fault's number, from 0, where memory ran out, in the order of the variants.
    pub fn number(self) -> u8
        ensures { result ≡ fault_number self }
    {
        match self {
            MessageFault::OutOfMemory => 0,
            MessageFault::Truncated => 1,
            MessageFault::BadKind => 2,
            MessageFault::TooLong => 3,
            MessageFault::Failed => 4,
        }
    }
}

impl From<AllocError> for MessageFault {
    ghost from_gives = { λ _ fault. fault ≡ OutOfMemory };

    fn from(_error: AllocError) -> MessageFault {
        MessageFault::OutOfMemory
    }
}

/// Why a line to the other side gives no message, or takes none.
#[derive(Clone, Copy, Debug, PartialEq, Eq, Drop, Error)]
pub enum LineFault {
    /// The bytes are no message, end within one, or there is no memory.
    #[error("{0}")]
    Message(MessageFault),
    /// The stream ended before a message began.
    #[error("closed: the other side went away")]
    Closed,
    /// The stream gives no more.
    #[error("read fault: the other side can't be read")]
    Read,
    /// The stream takes no more.
    #[error("write fault: the other side takes no more")]
    Write,
}

impl LineFault {
    /// The fault's number: 0 to 4 as [`MessageFault::number`] has it, then from 5 in the order of the variants.
    pub fn number(self) -> u8
        ensures { result ≡ line_fault_number self }
    {
        match self {
            LineFault::Message(fault) => fault.number(),
            LineFault::Closed => 5,
            LineFault::Read => 6,
            LineFault::Write => 7,
        }
    }
}
