//! Why a folder isn't made, opened or settled.
ghost use Rattle.std.specs.Prelude.{◌≡◌};
ghost use Rattle.mr_fold.specs.declared.fold_fault.FoldFault.TheVariants.{OutOfMemory, System};
ghost use Rattle.mr_fold.specs.FoldFault.{fold_fault_number, fold_fault_of_compare, fold_fault_of_file, fold_fault_of_store, explained_settle, files_failed};

use crate::fault::SettleFault;
use crate::stored_mail::StoredMail;
use crate::straying::StrayMails;
use mr_compare::CompareFault;
use mr_folder::StoreFault;
use mr_journal::FileFault as LogFault;
use mr_kept::{ExplainedFault, KeptFault};
use std::alloc::{AllocError, AllocFailed};
use std::io;
use thiserror::Error;

/// Why a folder isn't made, opened or settled, for a person to read.
#[derive(Debug, Drop, Error)]
pub enum FoldFault {
    #[error("out of memory")]
    OutOfMemory,
    /// There is no folder at the path, or it can't be read.
    #[error("no such folder: {0}")]
    NoFolder(io::Error),
    /// The folder has no journal.
    #[error("not a folder of mailfold: it has no journal, .mailfold/log")]
    NotMade,
    /// A replica was begun in the folder before.
    #[error("made already: the folder has a journal, .mailfold/log")]
    MadeAlready,
    /// Another program has the folder open.
    #[error("in use by another program")]
    InUse,
    /// A line of the settings means nothing, or they tell two layouts.
    #[error(".mailfold/config isn't understood: it has the line `layout = dots` or `layout = plain`, or none")]
    BadSettings,
    /// The journal isn't opened, or an event isn't kept.
    #[error("the journal, .mailfold/log: {0}")]
    Journal(ExplainedFault),
    /// The files failed, and the system said nothing of it; mostly memory ran out.
    #[error("the files failed")]
    Files,
    /// The files failed, and this is what the system said of it.
    #[error("the files failed: {0}")]
    System(io::Error),
    /// So many mails are missing, and at most so many may be deleted in one go.
    #[error("{count} mails are missing, and at most {most} may be deleted in one go: nothing was done")]
    TooManyDeletions { count: usize, most: usize },
    /// A mail stands in more folders than a message may have labels.
    #[error("a mail stands in more than 16 folders: its file is {0}")]
    TooManyFolders(StoredMail),
    /// In a folder other mails' files have both names that a mail's file may get.
    #[error("other mails' files have the names that a mail's file may get")]
    NameTaken,
    /// A file that was seen isn't there any more, or a new one is where none was; or a mail was changed elsewhere, and two scans don't say
    /// that the folder was quiet while it was seen to be changed here.
    #[error("another program changed files meanwhile: run it again")]
    Changed,
    /// What is held was read before it changed.
    #[error("the versions of a mail are held no more: run it again")]
    NotHeld,
    /// Mails would be deleted that lie in a folder of the Maildir that is passed over.
    #[error("{0}; nothing was done")]
    PassedOver(StrayMails),
}

impl FoldFault {
    /// The fault's number: 0 where memory ran out, and from 1 in the order of the variants.
    pub fn number(&self) -> u8
        ensures { result ≡ fold_fault_number self.now }
    {
        match self {
            FoldFault::OutOfMemory => 0,
            FoldFault::NoFolder(_) => 1,
            FoldFault::NotMade => 2,
            FoldFault::MadeAlready => 3,
            FoldFault::InUse => 4,
            FoldFault::BadSettings => 5,
            FoldFault::Journal(_) => 6,
            FoldFault::Files => 7,
            FoldFault::System(_) => 8,
            FoldFault::TooManyDeletions { .. } => 9,
            FoldFault::TooManyFolders(_) => 10,
            FoldFault::NameTaken => 11,
            FoldFault::Changed => 12,
            FoldFault::NotHeld => 13,
            FoldFault::PassedOver(_) => 14,
        }
    }
}

impl SettleFault {
    /// The fault with what the system said where the journal's device failed, and where the files did.
    pub fn explained(self, journal: Option<io::Error>, files: Option<io::Error>) -> FoldFault
        ensures { result ≡ explained_settle self journal files }
    {
        match self {
            SettleFault::OutOfMemory => FoldFault::OutOfMemory,
            SettleFault::TooManyFolders(digest) => FoldFault::TooManyFolders(StoredMail { digest }),
            SettleFault::NotHeld => FoldFault::NotHeld,
            SettleFault::Kept(KeptFault::OutOfMemory) => FoldFault::OutOfMemory,
            SettleFault::Kept(fault) => FoldFault::Journal(fault.explained(journal)),
            SettleFault::Files => files_failed(files),
            SettleFault::NameTaken => FoldFault::NameTaken,
            SettleFault::Changed => FoldFault::Changed,
        }
    }
}

/// That the files failed, with what the system said of it.
pub(crate) fn files_failed(said: Option<io::Error>) -> FoldFault
    ensures { result ≡ files_failed said }
{
    match said {
        Some(said) => FoldFault::System(said),
        None => FoldFault::Files,
    }
}

impl From<AllocError> for FoldFault {
    ghost from_gives = { λ _ fault. fault ≡ OutOfMemory };

    fn from(_error: AllocError) -> FoldFault {
        FoldFault::OutOfMemory
    }
}

impl<T: Drop> From<AllocFailed<T>> for FoldFault {
    ghost from_gives = { λ _ fault. fault ≡ OutOfMemory };

    fn from(_error: AllocFailed<T>) -> FoldFault {
        FoldFault::OutOfMemory
    }
}

impl From<io::Error> for FoldFault {
    ghost from_gives = { λ e fault. fault ≡ System e };

    fn from(said: io::Error) -> FoldFault {
        FoldFault::System(said)
    }
}

impl From<LogFault> for FoldFault {
    ghost from_gives = { λ e fault. fault ≡ fold_fault_of_file e };

    fn from(fault: LogFault) -> FoldFault {
        match fault {
            LogFault::InUse => FoldFault::InUse,
            LogFault::NotAFile => FoldFault::NotMade,
            LogFault::System(said) => FoldFault::System(said),
        }
    }
}

impl From<CompareFault> for FoldFault {
    ghost from_gives = { λ e fault. fault ≡ fold_fault_of_compare e };

    fn from(fault: CompareFault) -> FoldFault {
        match fault {
            CompareFault::OutOfMemory => FoldFault::OutOfMemory,
            CompareFault::TooManyDeletions { count, most } => {
                FoldFault::TooManyDeletions { count, most }
            }
        }
    }
}

impl From<StoreFault> for FoldFault {
    ghost from_gives = { λ e fault. fault ≡ fold_fault_of_store e };

    fn from(fault: StoreFault) -> FoldFault {
        match fault {
            StoreFault::OutOfMemory => FoldFault::OutOfMemory,
            StoreFault::Failed => FoldFault::Files,
        }
    }
}
