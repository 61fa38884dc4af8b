//! Why a folder isn't settled.
ghost use Rattle.std.specs.Prelude.{◌≡◌};
ghost use Rattle.mr_fold.specs.Fault.{settle_fault_number, settle_fault_of_plan};
ghost use Rattle.mr_fold.specs.declared.fault.SettleFault.TheVariants.{OutOfMemory, Kept, Files};

use mr_compare::Digest;
use mr_folder::FilesFailed;
use mr_kept::KeptFault;
use mr_maildir::FileFault as PlanFault;
use std::alloc::{AllocError, AllocFailed};
use thiserror::Error;

/// Why a folder isn't settled.
#[derive(Clone, Copy, Debug, Drop, Error)]
pub enum SettleFault {
    #[error("out of memory")]
    OutOfMemory,
    /// The mail whose file has this SHA-256 stands in more folders than a message may have labels.
    #[error("a mail stands in more than 16 folders")]
    TooManyFolders(Digest),
    /// A mail's versions are held no more: what is held was read before it changed.
    #[error("the versions of a mail are held no more")]
    NotHeld,
    /// The replica or its journal failed.
    #[error("{0}")]
    Kept(KeptFault),
    /// The files failed.
    #[error("the files failed")]
    Files,
    /// In a folder other mails' files have both names that a mail's file may get.
    #[error("other mails' files have the names that a mail's file may get")]
    NameTaken,
    /// A file that was seen isn't there any more, or a new one is where none was: another program is at work.
    #[error("another program changed files meanwhile: run it again")]
    Changed,
}

impl SettleFault {
    /// The fault's number: 0 where memory ran out, and from 1 in the order of the variants.
    pub fn number(self) -> u8
        ensures { result ≡ settle_fault_number self }
    {
        match self {
            SettleFault::OutOfMemory => 0,
            SettleFault::TooManyFolders(_) => 1,
            SettleFault::NotHeld => 2,
            SettleFault::Kept(_) => 3,
            SettleFault::Files => 4,
            SettleFault::NameTaken => 5,
            SettleFault::Changed => 6,
        }
    }
}

impl From<AllocError> for SettleFault {
    ghost from_gives = { λ _ fault. fault ≡ OutOfMemory };

    fn from(_error: AllocError) -> SettleFault {
        SettleFault::OutOfMemory
    }
}

impl<T: Drop> From<AllocFailed<T>> for SettleFault {
    ghost from_gives = { λ _ fault. fault ≡ OutOfMemory };

    fn from(_error: AllocFailed<T>) -> SettleFault {
        SettleFault::OutOfMemory
    }
}

impl From<KeptFault> for SettleFault {
    ghost from_gives = { λ e fault. fault ≡ Kept e };

    fn from(fault: KeptFault) -> SettleFault {
        SettleFault::Kept(fault)
    }
}

impl From<PlanFault> for SettleFault {
    ghost from_gives = { λ e fault. fault ≡ settle_fault_of_plan e };

    fn from(fault: PlanFault) -> SettleFault {
        match fault {
            PlanFault::OutOfMemory => SettleFault::OutOfMemory,
            PlanFault::NameTaken => SettleFault::NameTaken,
        }
    }
}

impl From<FilesFailed> for SettleFault {
    ghost from_gives = { λ _ fault. fault ≡ Files };

    fn from(_failed: FilesFailed) -> SettleFault {
        SettleFault::Files
    }
}
