//! Why a replica refuses an event.
ghost use Rattle.std.specs.Prelude.{◌≡◌};

use mr_forms::FormFault;
use mr_session::SessionFault;
use mr_version::Version;
use std::alloc::AllocError;
use thiserror::Error;

/// Why a replica refuses an event. The first reason whose case holds is given; those of the form of
/// knowledge come after the others, and memory last.
#[derive(Clone, Copy, Debug, PartialEq, Eq, Error)]
pub enum Refusal {
    #[error("out of memory")]
    OutOfMemory,
    #[error("the replica has retired")]
    Retired,
    #[error("the edit names no base")]
    NoBase,
    /// The first base, in the order given, that is not held; or the version to vouch for, which is no
    /// head.
    #[error("the version {0} is not held")]
    NotHeld(Version),
    #[error("the bases are versions of several items")]
    MixedItems,
    /// The lowest held own version of the item that is not among the bases.
    #[error("the own version {0} of the item is held and not among the bases")]
    OwnHeadLeft(Version),
    #[error("a vector of the knowledge would have too many holes")]
    TooManyHoles,
    #[error("the knowledge would list too many items")]
    TooManyItems,
    #[error("the log is full")]
    LogFull,
    #[error("eight sessions are open")]
    TooManySessions,
    #[error("eight streams are open")]
    TooManyStreams,
    #[error("the record is for another replica")]
    NotForMe,
    #[error("no session of that number is open")]
    NoSession,
    #[error("the session waits for a start")]
    NotStart,
    #[error("the session takes another stream")]
    OtherStream,
    #[error("the session has taken the record")]
    Repeated,
    #[error("the session has not taken the record before")]
    Gap,
    #[error("the frame is no record")]
    NotARecord,
    #[error("no stream of that number is open")]
    NoStream,
    #[error("the request is the replica's own")]
    OwnAsk,
    #[error("the receipt is for no push-out that is held")]
    NotPushedOut,
    #[error("push-outs are left")]
    PushOutsLeft,
    /// The record tells of an own version that was not issued, or of a held version as one of another
    /// item.
    #[error("no replica gave the record")]
    Forged,
}

impl Refusal {
    ghost use Rattle.mr_replica.specs.Refusal.{refusal_number, refusal_name};

    /// The refusal's number: 0 for out of memory.
    pub fn number(self) -> u8
        ensures { result ≡ refusal_number self }
    {
        match self {
            Refusal::OutOfMemory => 0,
            Refusal::Retired => 1,
            Refusal::NoBase => 2,
            Refusal::NotHeld(_) => 3,
            Refusal::MixedItems => 4,
            Refusal::OwnHeadLeft(_) => 5,
            Refusal::TooManyHoles => 6,
            Refusal::TooManyItems => 7,
            Refusal::LogFull => 8,
            Refusal::TooManySessions => 9,
            Refusal::TooManyStreams => 10,
            Refusal::NotForMe => 11,
            Refusal::NoSession => 12,
            Refusal::NotStart => 13,
            Refusal::OtherStream => 14,
            Refusal::Repeated => 15,
            Refusal::Gap => 16,
            Refusal::NotARecord => 17,
            Refusal::NoStream => 18,
            Refusal::OwnAsk => 19,
            Refusal::NotPushedOut => 20,
            Refusal::PushOutsLeft => 21,
            Refusal::Forged => 22,
        }
    }

    /// The refusal's name, without its version.
    pub fn name(self) -> &'static str
        ensures { result.now ≡ refusal_name self }
    {
        match self {
            Refusal::OutOfMemory => "OutOfMemory",
            Refusal::Retired => "Retired",
            Refusal::NoBase => "NoBase",
            Refusal::NotHeld(_) => "NotHeld",
            Refusal::MixedItems => "MixedItems",
            Refusal::OwnHeadLeft(_) => "OwnHeadLeft",
            Refusal::TooManyHoles => "TooManyHoles",
            Refusal::TooManyItems => "TooManyItems",
            Refusal::LogFull => "LogFull",
            Refusal::TooManySessions => "TooManySessions",
            Refusal::TooManyStreams => "TooManyStreams",
            Refusal::NotForMe => "NotForMe",
            Refusal::NoSession => "NoSession",
            Refusal::NotStart => "NotStart",
            Refusal::OtherStream => "OtherStream",
            Refusal::Repeated => "Repeated",
            Refusal::Gap => "Gap",
            Refusal::NotARecord => "NotARecord",
            Refusal::NoStream => "NoStream",
            Refusal::OwnAsk => "OwnAsk",
            Refusal::NotPushedOut => "NotPushedOut",
            Refusal::PushOutsLeft => "PushOutsLeft",
            Refusal::Forged => "Forged",
        }
    }
}

impl From<FormFault> for Refusal {
    ghost use Rattle.std.specs.Prelude.{◌≡◌};
    ghost use Rattle.mr_replica.specs.Refusal.{refusal_of};

    ghost from_gives = { λ fault refusal. refusal ≡ refusal_of fault };

    fn from(fault: FormFault) -> Refusal {
        match fault {
            FormFault::OutOfMemory => Refusal::OutOfMemory,
            FormFault::TooManyHoles => Refusal::TooManyHoles,
            FormFault::TooManyItems => Refusal::TooManyItems,
        }
    }
}

impl From<AllocError> for Refusal {
    ghost use Rattle.std.specs.Prelude.{◌≡◌};
    ghost use Rattle.mr_replica.specs.declared.refusal.Refusal.TheVariants.{OutOfMemory};

    ghost from_gives = { λ _ refusal. refusal ≡ OutOfMemory };

    fn from(_error: AllocError) -> Refusal {
        Refusal::OutOfMemory
    }
}

impl From<SessionFault> for Refusal {
    ghost use Rattle.std.specs.Prelude.{◌≡◌};
    ghost use Rattle.mr_replica.specs.Refusal.{refusal_of_session};

    ghost from_gives = { λ fault refusal. refusal ≡ refusal_of_session fault };

    fn from(fault: SessionFault) -> Refusal {
        match fault {
            SessionFault::NotStart => Refusal::NotStart,
            SessionFault::OtherStream => Refusal::OtherStream,
            SessionFault::Repeated => Refusal::Repeated,
            SessionFault::Gap => Refusal::Gap,
        }
    }
}
