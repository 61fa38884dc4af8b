//! Why a desk does nothing.
ghost use Rattle.std.specs.Prelude.{◌≡◌};
ghost use Rattle.mr_desk.specs.Fault.{fault_number, in_family, kept_number, open_number};

use mr_entry::event::EventFault;
use mr_filter::FilterFault;
use mr_kept::{KeptFault, OpenFault, PeerFault};
use mr_mail::MessageFault;
use mr_maildir::MergeFault;
use mr_replica::{Refusal, ReplayFault};
use mr_version::VersionFault;
use mr_wire::WireFault;
use std::alloc::{AllocError, AllocFailed};
use thiserror::Error;

/// Why a desk, plain or kept, does nothing.
#[derive(Clone, Copy, Debug, PartialEq, Eq, Error)]
pub enum Fault {
    /// Memory ran out in reading what was handed over.
    #[error("out of memory")]
    OutOfMemory,
    /// Bytes that are to be a text are not UTF-8.
    #[error("a text is not UTF-8")]
    NotText,
    /// A frame was handed over, and bytes behind it.
    #[error("bytes stand behind the frame")]
    BytesBehind,
    /// A frame of another kind was handed over than the call takes.
    #[error("the frame is of another kind")]
    OtherFrame,
    /// A kept desk has events or notes that wait for a commit, or its host has acts to do.
    #[error("unsettled: commit, and do the acts")]
    Unsettled,
    /// An act of the host failed, or there was no memory to note one: the file has to be opened again.
    #[error("failed: open the file again")]
    Failed,
    /// What is asked for is a plain desk's alone, or a kept one's.
    #[error("the device is of the other kind")]
    OtherDevice,
    /// The event or the note has more bytes than one may have, or the file would get more than it may have.
    #[error("too large")]
    TooLarge,
    /// A birth has 16 bytes, and a mark 32.
    #[error("a birth has 16 bytes, and a mark 32")]
    BadLength,
    /// The heads of an item say the same, or it has one or none: there is nothing to merge.
    #[error("the item has no heads that differ")]
    NoConflict,
    /// An id or a version is none.
    #[error(transparent)]
    Version(VersionFault),
    /// The parts make no message.
    #[error(transparent)]
    Message(MessageFault),
    /// The text is no filter.
    #[error(transparent)]
    Filter(FilterFault),
    /// The bytes are no frame.
    #[error(transparent)]
    Wire(WireFault),
    /// The bytes are no event, or the event has none.
    #[error(transparent)]
    Event(EventFault),
    /// There is no such replica, or it refuses an event of the log.
    #[error(transparent)]
    Replay(ReplayFault),
    /// The replica refuses the event.
    #[error(transparent)]
    Refused(Refusal),
    /// The file isn't begun, or isn't opened.
    #[error(transparent)]
    Open(OpenFault),
    /// The heads of an item make no message together.
    #[error(transparent)]
    Merge(MergeFault),
    /// What another replica tells doesn't go with this one.
    #[error(transparent)]
    Peer(PeerFault),
}

impl Fault {
    /// The fault's number: 1 for want of memory, wherever it came; 4, 7 and 8 for a text, bytes behind a frame and another
    /// frame; 9 to 14 for the six that follow; and else 256 times the number of the family, from 1 in the order of the variants behind
    /// those, and the number that the family gives it. Of a file that isn't opened it is that of the fault which that carries: in the
    /// families of filters, replays and refusals, and in family 9 where the journal is refused. Of merges the family is 10, and
    /// of other replicas 11.
    pub fn number(self) -> u16
        ensures { result ≡ fault_number self }
    {
        match self {
            Fault::OutOfMemory => 1,
            Fault::NotText => 4,
            Fault::BytesBehind => 7,
            Fault::OtherFrame => 8,
            Fault::Unsettled => 9,
            Fault::Failed => 10,
            Fault::OtherDevice => 11,
            Fault::TooLarge => 12,
            Fault::BadLength => 13,
            Fault::NoConflict => 14,
            Fault::Version(fault) => in_family(1, fault.number()),
            Fault::Message(fault) => in_family(2, fault.number()),
            Fault::Filter(fault) => in_family(3, fault.number()),
            Fault::Wire(fault) => in_family(4, fault.number()),
            Fault::Event(fault) => in_family(5, fault.number()),
            Fault::Replay(fault) => in_family(6, fault.number()),
            Fault::Refused(refusal) => in_family(7, refusal.number()),
            Fault::Open(fault) => open_number(fault),
            Fault::Merge(fault) => in_family(10, fault.number()),
            Fault::Peer(fault) => in_family(11, fault.number()),
        }
    }
}

/// The number of a fault that a kept desk has.
fn kept_number(fault: KeptFault) -> u16
    ensures { result ≡ kept_number fault }
{
    match fault {
        KeptFault::OutOfMemory => 1,
        KeptFault::Refused(refusal) => in_family(7, refusal.number()),
        KeptFault::Failed => 10,
        KeptFault::TooLarge => 12,
        KeptFault::Unsettled => 9,
    }
}

/// The number of a fault of opening a file: that of the fault which it carries, where it carries one.
fn open_number(fault: OpenFault) -> u16
    ensures { result ≡ open_number fault }
{
    match fault {
        OpenFault::Journal(fault) => in_family(9, fault.number()),
        OpenFault::Kept(fault) => kept_number(fault),
        OpenFault::BadFilter(fault) => in_family(3, fault.number()),
        OpenFault::Replay(fault) => in_family(6, fault.number()),
        _ => in_family(8, fault.number()),
    }
}

/// The number of a fault of a family: 1 where memory ran out, which each family numbers 0.
fn in_family(family: u8, number: u8) -> u16
    ensures { result ≡ in_family family number }
{
    if number == 0 {
        return 1;
    }
    u16::from(family) * 256 + u16::from(number)
}

impl From<AllocError> for Fault {
    ghost use Rattle.std.specs.Prelude.{◌≡◌};
    ghost use Rattle.mr_desk.specs.declared.fault.Fault.TheVariants.{OutOfMemory};

    ghost from_gives = { λ _ fault. fault ≡ OutOfMemory };

    fn from(_error: AllocError) -> Fault {
        Fault::OutOfMemory
    }
}

impl<T: Drop> From<AllocFailed<T>> for Fault {
    ghost use Rattle.std.specs.Prelude.{◌≡◌};
    ghost use Rattle.mr_desk.specs.declared.fault.Fault.TheVariants.{OutOfMemory};

    ghost from_gives = { λ _ fault. fault ≡ OutOfMemory };

    fn from(_error: AllocFailed<T>) -> Fault {
        Fault::OutOfMemory
    }
}

impl From<VersionFault> for Fault {
    ghost use Rattle.std.specs.Prelude.{◌≡◌};
    ghost use Rattle.mr_desk.specs.declared.fault.Fault.TheVariants.{Version};

    ghost from_gives = { λ fault made. made ≡ Version fault };

    fn from(fault: VersionFault) -> Fault {
        Fault::Version(fault)
    }
}

impl From<MessageFault> for Fault {
    ghost use Rattle.std.specs.Prelude.{◌≡◌};
    ghost use Rattle.mr_desk.specs.Fault.{of_message};

    ghost from_gives = { λ fault made. made ≡ of_message fault };

    fn from(fault: MessageFault) -> Fault {
        match fault {
            MessageFault::OutOfMemory => Fault::OutOfMemory,
            _ => Fault::Message(fault),
        }
    }
}

impl From<MergeFault> for Fault {
    ghost use Rattle.std.specs.Prelude.{◌≡◌};
    ghost use Rattle.mr_desk.specs.Fault.{of_merge};

    ghost from_gives = { λ fault made. made ≡ of_merge fault };

    fn from(fault: MergeFault) -> Fault {
        match fault {
            MergeFault::OutOfMemory => Fault::OutOfMemory,
            _ => Fault::Merge(fault),
        }
    }
}

impl From<FilterFault> for Fault {
    ghost use Rattle.std.specs.Prelude.{◌≡◌};
    ghost use Rattle.mr_desk.specs.Fault.{of_filter};

    ghost from_gives = { λ fault made. made ≡ of_filter fault };

    fn from(fault: FilterFault) -> Fault {
        match fault {
            FilterFault::OutOfMemory => Fault::OutOfMemory,
            _ => Fault::Filter(fault),
        }
    }
}

impl From<WireFault> for Fault {
    ghost use Rattle.std.specs.Prelude.{◌≡◌};
    ghost use Rattle.mr_desk.specs.Fault.{of_wire};

    ghost from_gives = { λ fault made. made ≡ of_wire fault };

    fn from(fault: WireFault) -> Fault {
        match fault {
            WireFault::OutOfMemory => Fault::OutOfMemory,
            _ => Fault::Wire(fault),
        }
    }
}

impl From<EventFault> for Fault {
    ghost use Rattle.std.specs.Prelude.{◌≡◌};
    ghost use Rattle.mr_desk.specs.Fault.{of_event};

    ghost from_gives = { λ fault made. made ≡ of_event fault };

    fn from(fault: EventFault) -> Fault {
        match fault {
            EventFault::OutOfMemory => Fault::OutOfMemory,
            _ => Fault::Event(fault),
        }
    }
}

impl From<KeptFault> for Fault {
    ghost use Rattle.std.specs.Prelude.{◌≡◌};
    ghost use Rattle.mr_desk.specs.Fault.{of_kept};

    ghost from_gives = { λ fault made. made ≡ of_kept fault };

    fn from(fault: KeptFault) -> Fault {
        match fault {
            KeptFault::OutOfMemory => Fault::OutOfMemory,
            KeptFault::Refused(refusal) => Fault::Refused(refusal),
            KeptFault::Failed => Fault::Failed,
            KeptFault::TooLarge => Fault::TooLarge,
            KeptFault::Unsettled => Fault::Unsettled,
        }
    }
}
