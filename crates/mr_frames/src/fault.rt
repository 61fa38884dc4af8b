//! Why a reader gives no frame.
ghost use Rattle.std.specs.Prelude.{◌≡◌};
ghost use Rattle.mr_frames.specs.declared.fault.FrameFault.TheVariants.{Wire};
ghost use Rattle.mr_wire.specs.declared.fault.WireFault.TheVariants.{OutOfMemory};
ghost use Rattle.mr_frames.specs.Fault.{fault_number};

use mr_wire::WireFault;
use std::alloc::AllocError;
use thiserror::Error;

/// Why a reader doesn't give a frame, or takes no bytes.
#[derive(Clone, Copy, Debug, PartialEq, Eq, Drop, Error)]
pub enum FrameFault {
    /// The bytes spell no frame, the last one lacks its end, or memory ran out.
    #[error("{0}")]
    Wire(WireFault),
    /// The stream had a fault before, so nobody knows where its next frame begins.
    #[error("failed: the stream had a fault before")]
    Failed,
}

impl FrameFault {
    /// The fault's number: 0 where memory ran out, 1 to 5 as [`WireFault::number`] has it, 6 for `Failed`.
    pub fn number(self) -> u8
        ensures { result ≡ fault_number self }
    {
        match self {
            FrameFault::Wire(fault) => fault.number(),
            FrameFault::Failed => 6,
        }
    }
}

impl From<WireFault> for FrameFault {
    ghost from_gives = { λ wire fault. fault ≡ Wire wire };

    fn from(fault: WireFault) -> FrameFault {
        FrameFault::Wire(fault)
    }
}

impl From<AllocError> for FrameFault {
    ghost from_gives = { λ _ fault. fault ≡ Wire OutOfMemory };

    fn from(_error: AllocError) -> FrameFault {
        FrameFault::Wire(WireFault::OutOfMemory)
    }
}
