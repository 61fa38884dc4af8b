//! Why a talk did not come to its end.
ghost use Rattle.std.specs.Prelude.{◌≡◌};
ghost use Rattle.mr_talk.specs.Fault.{talk_fault_number};
ghost use Rattle.mr_talk.specs.declared.fault.LineFault.TheVariants.{Message};
ghost use Rattle.mr_talk.specs.declared.fault.MessageFault.TheVariants.{OutOfMemory};
ghost use Rattle.mr_talk.specs.declared.talk_fault.TalkFault.TheVariants as talk;

use crate::fault::{LineFault, MessageFault};
use crate::hello::HelloFault;
use crate::side::HostFault;
use crate::told_fault::ToldFault;
use std::alloc::AllocError;
use thiserror::Error;

/// Why a talk did not come to its end.
#[derive(Debug, Drop, Error)]
pub enum TalkFault {
    /// A stream, or what came over it; or there is no memory, or the host gave more bytes than a message has.
    #[error("{0}")]
    Line(LineFault),
    /// What came in the place of a hello.
    #[error("{0}")]
    Hello(HelloFault),
    /// A message that is out of place came, or the host gave one: a fault is out of place too where a host gives it as a message.
    /// Or so many messages were said that 64 bits count no more.
    #[error("out of place: a message that may not come there")]
    OutOfPlace,
    /// The host's own. The other side was told, if this one might speak again and what its host did could be kept.
    #[error("{0}")]
    Host(HostFault),
    /// The other side's host's, which ended the talk.
    #[error("{0}")]
    Told(ToldFault),
}

impl TalkFault {
    /// The fault's number: 0 to 7 as [`LineFault::number`] has it, then from 8 in the order of the variants.
    pub fn number(&self) -> u8
        ensures { result ≡ talk_fault_number self.now }
    {
        match self {
            TalkFault::Line(fault) => fault.number(),
            TalkFault::Hello(_) => 8,
            TalkFault::OutOfPlace => 9,
            TalkFault::Host(_) => 10,
            TalkFault::Told(_) => 11,
        }
    }
}

impl From<LineFault> for TalkFault {
    ghost from_gives = { λ line fault. fault ≡ talk.Line line };

    fn from(fault: LineFault) -> TalkFault {
        TalkFault::Line(fault)
    }
}

impl From<MessageFault> for TalkFault {
    ghost from_gives = { λ message fault. fault ≡ talk.Line (Message message) };

    fn from(fault: MessageFault) -> TalkFault {
        TalkFault::Line(LineFault::Message(fault))
    }
}

impl From<AllocError> for TalkFault {
    ghost from_gives = { λ _ fault. fault ≡ talk.Line (Message OutOfMemory) };

    fn from(_error: AllocError) -> TalkFault {
        TalkFault::Line(LineFault::Message(MessageFault::OutOfMemory))
    }
}

impl From<HelloFault> for TalkFault {
    ghost from_gives = { λ hello fault. fault ≡ talk.Hello hello };

    fn from(fault: HelloFault) -> TalkFault {
        TalkFault::Hello(fault)
    }
}

impl From<HostFault> for TalkFault {
    ghost from_gives = { λ host fault. fault ≡ talk.Host host };

    fn from(fault: HostFault) -> TalkFault {
        TalkFault::Host(fault)
    }
}
