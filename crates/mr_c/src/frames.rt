//! Frames in a stream of bytes: how long one is, and who claims to speak. They take no handle.
ghost use Rattle.std.specs.Prelude.{◌≡◌};
ghost use Rattle.mr_desk.specs.Frames.{announced};
ghost use Rattle.mr_c.specs.Given.{IsGiven, by_desk, by_wire};
ghost use Rattle.mr_c.specs.Shown.{GivesClaim};

use crate::failure::Failure;
use crate::given::give;
use mr_desk::{Claim, Fault, announced_len, claim_of};
use mr_wire::WireFault;
use std::alloc::Global;

fn by_wire<T: Copy + Drop>(found: Result<T, WireFault>) -> Result<T, Failure>
    ensures { result ≡ by_wire found }
{
    match found {
        Ok(found) => Ok(found),
        Err(fault) => Err(Failure::Desk(Fault::Wire(fault))),
    }
}

fn by_desk<T: Copy + Drop>(found: Result<T, Fault>) -> Result<T, Failure>
    ensures { result ≡ by_desk found }
{
    match found {
        Ok(found) => Ok(found),
        Err(fault) => Err(Failure::Desk(fault)),
    }
}

/// How many bytes the frame takes that these bytes begin, by its length alone: `Truncated` or `TooLong` where they tell none.
#[unsafe(no_mangle)]
pub extern "C" fn mr_frame_len(bytes: &[u8], len: &mut usize) -> i32
    ensures { IsGiven (by_wire (announced bytes.now)) len.old len.new result }
{
    give(by_wire(announced_len(bytes)), len)
}

/// What a frame is, and who it claims to come from. What is wrong with the frame is answered as by a call that takes any.
#[unsafe(no_mangle)]
pub extern "C" fn mr_frame_claim(alloc: Global, frame: &[u8], claim: &mut Claim) -> i32
    ensures { GivesClaim frame.now claim.old claim.new result }
{
    give(by_desk(claim_of(alloc, frame)), claim)
}
