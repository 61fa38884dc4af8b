//! Why no frame passes a wire.
ghost use Rattle.std.specs.Prelude.{◌≡◌};
ghost use Rattle.mr_link.specs.Fault.{snag_number};
ghost use Rattle.mr_link.specs.inner.Snag.{snag_of_reader, snag_of_link, snag_of_encoding};

use crate::link::LinkFault;
use mr_frames::FrameFault;
use mr_wire::WireFault;
use thiserror::Error;

/// Why no frame was read, or none was sent.
#[derive(Clone, Copy, Debug, PartialEq, Eq, Drop, Error)]
pub enum Snag {
    /// Memory ran out. Nothing is lost, and the call may be made again.
    #[error("out of memory")]
    OutOfMemory,
    /// The link was down.
    #[error("the link is down")]
    LinkDown,
    /// The bytes that came are no frame, whatever comes behind them.
    #[error("what came over the link is no frame")]
    BadFrame,
    /// The request has more bytes than a frame may have.
    #[error("the request is too long for a frame")]
    TooLong,
}

impl Snag {
    /// The snag's number: 0 where memory ran out, 1 where the link was down, 2 for a bad frame, 3 for one too long.
    pub fn number(self) -> u8
        ensures { result ≡ snag_number self }
    {
        match self {
            Snag::OutOfMemory => 0,
            Snag::LinkDown => 1,
            Snag::BadFrame => 2,
            Snag::TooLong => 3,
        }
    }
}

/// What a fault of the reader comes to.
pub(crate) fn snag_of_reader(fault: FrameFault) -> Snag
    ensures { result ≡ snag_of_reader fault }
{
    match fault {
        FrameFault::Wire(WireFault::OutOfMemory) => Snag::OutOfMemory,
        _ => Snag::BadFrame,
    }
}

/// What a fault of the link comes to.
pub(crate) fn snag_of_link(fault: LinkFault) -> Snag
    ensures { result ≡ snag_of_link fault }
{
    match fault {
        LinkFault::LinkDown => Snag::LinkDown,
        LinkFault::OutOfMemory => Snag::OutOfMemory,
    }
}

/// What it comes to that a frame has no bytes.
pub(crate) fn snag_of_encoding(fault: WireFault) -> Snag
    ensures { result ≡ snag_of_encoding fault }
{
    match fault {
        WireFault::TooLong => Snag::TooLong,
        _ => Snag::OutOfMemory,
    }
}
