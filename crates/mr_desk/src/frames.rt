//! From bytes to the one frame that they are.
ghost use Rattle.std.specs.Prelude.{◌≡◌};
ghost use Rattle.mr_wire.specs.declared.frame.Frame.TheVariants as kind;
ghost use Rattle.mr_desk.specs.Fault.{Reads};
ghost use Rattle.mr_desk.specs.Frames.{announced, any_frame, claim_by, only_ask, only_receipt, frame_fault, BeginsFrame, ClaimsIn, IsFrameIn};

use crate::fault::Fault;
use mr_wire::parts::Input;
use mr_wire::{Ask, Frame, MAX_REST_BYTES, Receipt, WireFault, decode};
use std::alloc::Global;

/// The frame that the bytes are.
///
/// `Wire` with the first fault of the bytes, then `BytesBehind` where more stand behind the frame. Memory runs out only
/// where a frame stands there.
pub(crate) fn frame_of(alloc: Global, bytes: &[u8]) -> Result<Frame, Fault>
    ensures { Reads (BeginsFrame bytes.now) (frame_fault any_frame bytes.now) (IsFrameIn bytes.now) result }
{
    let (frame, used) = decode(alloc, bytes)?;
    if used < bytes.len() {
        return Err(Fault::BytesBehind);
    }
    Ok(frame)
}

/// The request that the bytes are: `OtherFrame` where they are another frame.
pub(crate) fn ask_of(alloc: Global, bytes: &[u8]) -> Result<Ask, Fault>
    ensures { Reads (BeginsFrame bytes.now) (frame_fault only_ask bytes.now) (λ ask. IsFrameIn bytes.now (kind.Ask ask)) result }
{
    match frame_of(alloc, bytes)? {
        Frame::Ask(ask) => Ok(ask),
        _ => Err(Fault::OtherFrame),
    }
}

/// The receipt that the bytes are: `OtherFrame` where they are another frame.
pub(crate) fn receipt_of(alloc: Global, bytes: &[u8]) -> Result<Receipt, Fault>
    ensures { Reads (BeginsFrame bytes.now) (frame_fault only_receipt bytes.now) (λ receipt. IsFrameIn bytes.now (kind.Receipt receipt)) result }
{
    match frame_of(alloc, bytes)? {
        Frame::Receipt(receipt) => Ok(receipt),
        _ => Err(Fault::OtherFrame),
    }
}

/// What a frame is, and who it claims to come from.
#[repr(C)]
#[derive(Clone, Copy, Debug, PartialEq, Eq)]
pub struct Claim {
    /// 0 a request, 1 a record, 2 a receipt.
    pub kind: u32,
    /// The id of who it claims to come from.
    pub author: u32,
}

fn claim_by(frame: &Frame) -> Claim
    ensures { result ≡ claim_by frame.now }
{
    let (kind, author) = match frame {
        Frame::Ask(ask) => (0, ask.target()),
        Frame::Record(record) => (1, record.header().source),
        Frame::Receipt(receipt) => (2, receipt.giver),
    };
    Claim {
        kind,
        author: u32::from(author.id()),
    }
}

/// What the frame that the bytes are is, and who it claims to come from: for a host that knows who is at the other end.
///
/// The faults are those of a call that takes any frame: `Wire`, then `BytesBehind`; `OutOfMemory` only where a frame stands there.
pub fn claim_of(alloc: Global, bytes: &[u8]) -> Result<Claim, Fault>
    ensures { Reads (BeginsFrame bytes.now) (frame_fault any_frame bytes.now) (ClaimsIn bytes.now) result }
{
    let frame = frame_of(alloc, bytes)?;
    Ok(claim_by(&frame))
}

/// How many bytes the frame takes whose first bytes these are, by the length that it begins with: so a host knows how many to wait for.
///
/// `Truncated` where there are fewer than four bytes, and `TooLong` where more than 8,388,608 would follow them. It looks at no other byte.
pub fn announced_len(bytes: &[u8]) -> Result<usize, WireFault>
    ensures { result ≡ announced bytes.now }
{
    let Some(len) = Input::new(bytes).u32() else {
        return Err(WireFault::Truncated);
    };
    if len > MAX_REST_BYTES {
        return Err(WireFault::TooLong);
    }
    Ok(len as usize + 4)
}
