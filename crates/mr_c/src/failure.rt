//! Why a call by C did nothing, and the number that it sees.
ghost use Rattle.std.specs.Prelude.{◌≡◌, pos};
ghost use Rattle.mr_c.specs.Code.{code_of, failure_number};

use mr_desk::Fault;
use mr_version::VersionFault;
use std::alloc::AllocError;

/// Why a call by C did nothing.
#[derive(Clone, Copy, Debug, PartialEq, Eq)]
pub enum Failure {
    /// The handle is closed.
    Closed,
    /// The handle is open already.
    InUse,
    /// The caller's buffer is too short.
    TooSmall,
    /// Nothing is at that place, or the version isn't held.
    NotThere,
    /// The desk's fault.
    Desk(Fault),
}

impl Failure {
    /// The number that C sees, which is never 0: 2, 3, 5, 6, and else the fault's own.
    pub fn code(self) -> i32
        ensures { result ≡ pos (failure_number self) }
    {
        match self {
            Failure::Closed => 2,
            Failure::InUse => 3,
            Failure::TooSmall => 5,
            Failure::NotThere => 6,
            Failure::Desk(fault) => i32::from(fault.number()),
        }
    }
}

/// The number of an answer: 0 where it is no failure.
pub(crate) fn code_of<T: Drop>(answer: &Result<T, Failure>) -> i32
    ensures { result ≡ code_of answer.now }
{
    match answer {
        Ok(_) => 0,
        Err(failure) => failure.code(),
    }
}

impl From<AllocError> for Failure {
    ghost use Rattle.std.specs.Prelude.{◌≡◌};
    ghost use Rattle.mr_desk.specs.declared.fault.Fault.TheVariants.{OutOfMemory};
    ghost use Rattle.mr_c.specs.declared.failure.Failure.TheVariants.{Desk};

    ghost from_gives = { λ _ failure. failure ≡ Desk OutOfMemory };

    fn from(_error: AllocError) -> Failure {
        Failure::Desk(Fault::OutOfMemory)
    }
}

impl From<Fault> for Failure {
    ghost use Rattle.std.specs.Prelude.{◌≡◌};
    ghost use Rattle.mr_c.specs.declared.failure.Failure.TheVariants.{Desk};

    ghost from_gives = { λ fault failure. failure ≡ Desk fault };

    fn from(fault: Fault) -> Failure {
        Failure::Desk(fault)
    }
}

impl From<VersionFault> for Failure {
    ghost use Rattle.std.specs.Prelude.{◌≡◌};
    ghost use Rattle.mr_desk.specs.declared.fault.Fault.TheVariants.{Version};
    ghost use Rattle.mr_c.specs.declared.failure.Failure.TheVariants.{Desk};

    ghost from_gives = { λ fault failure. failure ≡ Desk (Version fault) };

    fn from(fault: VersionFault) -> Failure {
        Failure::Desk(Fault::Version(fault))
    }
}
