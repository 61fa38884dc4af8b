//! What can go wrong in this program.
use mr_filter::FilterFault;
use mr_forms::FormFault;
use mr_frames::FrameFault;
use mr_journal::FileFault;
use mr_kept::{KeptFault, PeerFault};
use mr_mail::{DayFault, MessageFault};
use mr_maildir::MergeFault;
use mr_replica::Refusal;
use mr_version::VersionFault;
use mr_wire::WireFault;
use std::alloc::AllocError;
use thiserror::Error;

/// Why the story stops.
///
/// `?` turns each library's fault into one of these, with the library's own text; a refusal keeps its number. The story
/// ends at the first of them. A program that goes on gives up the exchange in which it came: both sides cut it, and the
/// next has new wires.
#[derive(Clone, Copy, Debug, Error)]
pub enum Fault {
    /// A call found no memory.
    #[error("out of memory")]
    OutOfMemory(#[from(alloc)] AllocError),
    /// An id is none.
    #[error(transparent)]
    Version(#[from] VersionFault),
    /// A text is no filter.
    #[error(transparent)]
    Filter(#[from] FilterFault),
    /// A label or a message is none.
    #[error(transparent)]
    Message(#[from] MessageFault),
    /// A text is no day.
    #[error(transparent)]
    Day(#[from] DayFault),
    /// A file can't be opened: the number of the fault, as `FileFault::number` gives it.
    #[error("a journal's file can't be opened, for reason {0}")]
    File(u8),
    /// A journal isn't begun or opened: the number of the fault, as `OpenFault::number` gives it.
    #[error("a journal isn't opened, for reason {0}")]
    Open(u8),
    /// An event isn't kept: the number of the fault, as `KeptFault::number` gives it. Open the journal again.
    #[error("a journal isn't written, for reason {0}")]
    Kept(u8),
    /// A replica refused an event, and has not changed: the number of its refusal, as `Refusal::number` gives it.
    #[error("a replica refused, for reason {0}")]
    Refused(u8),
    /// Nothing may be sent to the other device, or taken of it.
    #[error(transparent)]
    Peer(#[from] PeerFault),
    /// What is known can't be told.
    #[error(transparent)]
    Known(#[from] FormFault),
    /// The heads of a message don't become one.
    #[error(transparent)]
    Merge(#[from] MergeFault),
    /// A message to be merged has no head.
    #[error("a message has no head")]
    NoHead,
    /// The system gave no random bytes, or no inode.
    #[error("the system tells nothing")]
    Random,
    /// A file can't be copied.
    #[error("a file can't be copied")]
    Copy,
    /// A connection takes no more bytes.
    #[error("a connection takes no more")]
    Sending,
    /// An event was answered in another way than such an event is.
    #[error("an event had another answer")]
    OtherReply,
    /// A frame is too long to be spelled.
    #[error(transparent)]
    Wire(#[from] WireFault),
    /// The bytes of a wire spell no frame.
    #[error(transparent)]
    Frame(#[from] FrameFault),
    /// A whole frame was waited for, and its last byte didn't come.
    #[error("a wire ended before a frame")]
    NoFrame,
    /// A frame of another kind came than was waited for.
    #[error("a frame of another kind was waited for")]
    OtherFrame,
    /// A stream gave more records than the story has.
    #[error("a stream has no end")]
    NoEnd,
    /// A device that is to retire has mail that the other device doesn't know.
    #[error("a device that retires has the only copy of a message")]
    OnlyCopy,
    /// Standard output takes no more.
    #[error("standard output can't be written")]
    Print,
}

// The next are written by hand. With a whole `Refusal` in a fault, which may hold a version, the checker has no proof
// for functions that pass a fault on and lend two parts of `self`.
impl From<Refusal> for Fault {
    fn from(refusal: Refusal) -> Fault {
        match refusal {
            Refusal::OutOfMemory => Fault::OutOfMemory(AllocError),
            _ => Fault::Refused(refusal.number()),
        }
    }
}

impl From<KeptFault> for Fault {
    fn from(fault: KeptFault) -> Fault {
        match fault {
            KeptFault::OutOfMemory => Fault::OutOfMemory(AllocError),
            KeptFault::Refused(refusal) => Fault::from(refusal),
            _ => Fault::Kept(fault.number()),
        }
    }
}

impl From<FileFault> for Fault {
    fn from(fault: FileFault) -> Fault {
        Fault::File(fault.number())
    }
}
