//! Why a journal isn't opened, or a batch not kept.
ghost use Rattle.std.specs.Prelude.{◌≡◌};
ghost use Rattle.mr_journal.specs.declared.fault.JournalFault.TheVariants.{OutOfMemory, Failed};
ghost use Rattle.mr_journal.specs.Fault.{fault_number};

use crate::DeviceFailed;
use std::alloc::AllocError;
use thiserror::Error;

/// Why a journal isn't opened, or why a batch isn't kept.
#[derive(Clone, Copy, Debug, PartialEq, Eq, Drop, Error)]
pub enum JournalFault {
    #[error("out of memory")]
    OutOfMemory,
    /// A call of the device failed, now or before. What was kept is kept; of the last batch it is known once the journal is open again.
    #[error("failed: the device failed, open the journal again")]
    Failed,
    /// The bytes don't begin as those of a journal do.
    #[error("not a journal: it doesn't begin as one")]
    NotAJournal,
    /// The journal is of a format that isn't read here, with this number.
    #[error("another format: {0}, and this program reads 1")]
    OtherFormat(u16),
    /// At this byte stands neither a whole batch nor a closed gate. No crash leaves that.
    #[error("damaged at byte {0}")]
    Damaged(u64),
    /// An entry has 2^32 bytes or more, or the journal would get more than 2^62 bytes.
    #[error("too large: an entry has at most 4294967295 bytes, a journal 4611686018427387904")]
    TooLarge,
}

impl JournalFault {
    /// The fault's number: 0 where memory ran out, and from 1 in the order of the variants.
    pub fn number(self) -> u8
        ensures { result ≡ fault_number self }
    {
        match self {
            JournalFault::OutOfMemory => 0,
            JournalFault::Failed => 1,
            JournalFault::NotAJournal => 2,
            JournalFault::OtherFormat(_) => 3,
            JournalFault::Damaged(_) => 4,
            JournalFault::TooLarge => 5,
        }
    }
}

impl From<AllocError> for JournalFault {
    ghost from_gives = { λ _ fault. fault ≡ OutOfMemory };

    fn from(_error: AllocError) -> JournalFault {
        JournalFault::OutOfMemory
    }
}

impl From<DeviceFailed> for JournalFault {
    ghost from_gives = { λ _ fault. fault ≡ Failed };

    fn from(_error: DeviceFailed) -> JournalFault {
        JournalFault::Failed
    }
}
