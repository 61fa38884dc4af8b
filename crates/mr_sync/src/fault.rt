//! Why a folder can't go on with a talk.
ghost use Rattle.std.specs.Prelude.{◌≡◌, ◌≤◌, Ok, Err, IfOk, IfErr, string_len};
ghost use Rattle.mr_sync.specs.Fault.{IsToldFor, fault_of_form, fault_of_packed, fault_of_wire, sync_fault_number};
ghost use Rattle.mr_sync.specs.declared.fault.SyncFault.TheVariants.{OutOfMemory, Kept, Files};

use mr_folder::{FilesFailed, StoreFault};
use mr_forms::FormFault;
use mr_kept::KeptFault;
use mr_talk::{HostFault, PackedFault};
use mr_version::Author;
use mr_wire::WireFault;
use std::alloc::{AllocError, AllocFailed, Global};
use thiserror::Error;

/// The most bytes of a text that the other side is told.
pub const MAX_TEXT_BYTES: usize = 1_022;

/// Why a folder can't go on with a talk.
#[derive(Clone, Copy, Debug, Drop, Error)]
pub enum SyncFault {
    #[error("out of memory")]
    OutOfMemory,
    /// The replica refused, or its journal failed.
    #[error("{0}")]
    Kept(KeptFault),
    /// The files failed.
    #[error("the files failed")]
    Files,
    /// What is known can't be told.
    #[error("what is known can't be told: {0}")]
    Knowledge(FormFault),
    /// The other side is this folder, or a copy of it.
    #[error("both sides are replica {0}, and one is a copy of the other: give the copy an id of its own (mailfold renew)")]
    Itself(Author),
    /// Another folder has the id of this one.
    #[error("both sides are replica {0}: give one another id (mailfold renew)")]
    SameId(Author),
    /// Another folder was met under the other's id.
    #[error("replica {0} isn't the one that was met before: give it another id (mailfold renew)")]
    Renewed(Author),
    /// The other side is an old copy.
    #[error("replica {0}, the other side, is an old copy, and would number mail again: give it another id (mailfold renew)")]
    PeerIsOldCopy(Author),
    /// This side is an old copy.
    #[error("replica {0}, this side, is an old copy, and would number mail again: give it another id (mailfold renew)")]
    OldCopy(Author),
    /// The other side hasn't said who it is.
    #[error("the other side hasn't said who it is")]
    NotMet,
    /// What came is no frame, or what is to be told has none.
    #[error("bad frame: {0}")]
    Frame(WireFault),
    /// The frame is another than the message is for, or something stands behind it.
    #[error("a frame that the message isn't for")]
    OtherFrame,
    /// The frame is one that another replica made.
    #[error("a frame that isn't the other side's")]
    OtherSide,
    /// The bytes are none of such a message.
    #[error("bad list: the bytes aren't those of such a message")]
    BadList,
    /// A piece or an end came, and no file is begun; or another began within one.
    #[error("a piece of a file that isn't begun, or a file within another")]
    NoFile,
    /// A file came that has other bytes than was told.
    #[error("a file came that isn't the one that was told")]
    OtherFile,
    /// A file isn't whole yet.
    #[error("a file came that has no end")]
    HalfFile,
    /// A frame is longer than a message.
    #[error("a frame that is longer than a message")]
    TooLong,
    /// The talk is at its end, and the other side didn't tell all that it was asked for.
    #[error("the other side didn't tell all that it was asked for")]
    Unfinished,
    /// This side's log was set back, and it went on: another message had the number of one of its own before.
    #[error("replica {0}, this side, is an old copy that went on, and has numbered mail again: give it another id (mailfold renew)")]
    OtherHistory(Author),
    /// The other side's log was set back, and it went on: its last version has another message than is known here.
    #[error("replica {0}, the other side, is an old copy that went on, and has numbered mail again: give it another id (mailfold renew)")]
    PeerWentOn(Author),
}

impl SyncFault {
    /// The fault's number: 0 where memory ran out, and from 1 in the order of the variants.
    pub fn number(self) -> u16
        ensures { result ≡ sync_fault_number self }
    {
        match self {
            SyncFault::OutOfMemory => 0,
            SyncFault::Kept(_) => 1,
            SyncFault::Files => 2,
            SyncFault::Knowledge(_) => 3,
            SyncFault::Itself(_) => 4,
            SyncFault::SameId(_) => 5,
            SyncFault::Renewed(_) => 6,
            SyncFault::PeerIsOldCopy(_) => 7,
            SyncFault::OldCopy(_) => 8,
            SyncFault::NotMet => 9,
            SyncFault::Frame(_) => 10,
            SyncFault::OtherFrame => 11,
            SyncFault::OtherSide => 12,
            SyncFault::BadList => 13,
            SyncFault::NoFile => 14,
            SyncFault::OtherFile => 15,
            SyncFault::HalfFile => 16,
            SyncFault::TooLong => 17,
            SyncFault::Unfinished => 18,
            SyncFault::OtherHistory(_) => 19,
            SyncFault::PeerWentOn(_) => 20,
        }
    }
}

impl From<AllocError> for SyncFault {
    ghost from_gives = { λ _ fault. fault ≡ OutOfMemory };

    fn from(_error: AllocError) -> SyncFault {
        SyncFault::OutOfMemory
    }
}

impl<T: Drop> From<AllocFailed<T>> for SyncFault {
    ghost from_gives = { λ _ fault. fault ≡ OutOfMemory };

    fn from(_error: AllocFailed<T>) -> SyncFault {
        SyncFault::OutOfMemory
    }
}

impl From<KeptFault> for SyncFault {
    ghost from_gives = { λ e fault. fault ≡ Kept e };

    fn from(fault: KeptFault) -> SyncFault {
        SyncFault::Kept(fault)
    }
}

impl From<FormFault> for SyncFault {
    ghost from_gives = { λ e fault. fault ≡ fault_of_form e };

    fn from(fault: FormFault) -> SyncFault {
        match fault {
            FormFault::OutOfMemory => SyncFault::OutOfMemory,
            _ => SyncFault::Knowledge(fault),
        }
    }
}

impl From<WireFault> for SyncFault {
    ghost from_gives = { λ e fault. fault ≡ fault_of_wire e };

    fn from(fault: WireFault) -> SyncFault {
        match fault {
            WireFault::OutOfMemory => SyncFault::OutOfMemory,
            _ => SyncFault::Frame(fault),
        }
    }
}

impl From<PackedFault> for SyncFault {
    ghost from_gives = { λ e fault. fault ≡ fault_of_packed e };

    fn from(fault: PackedFault) -> SyncFault {
        match fault {
            PackedFault::OutOfMemory => SyncFault::OutOfMemory,
            PackedFault::BadToken | PackedFault::TooLong => SyncFault::BadList,
        }
    }
}

impl From<FilesFailed> for SyncFault {
    ghost from_gives = { λ _ fault. fault ≡ Files };

    fn from(_failed: FilesFailed) -> SyncFault {
        SyncFault::Files
    }
}

impl From<StoreFault> for SyncFault {
    fn from(fault: StoreFault) -> SyncFault {
        match fault {
            StoreFault::OutOfMemory => SyncFault::OutOfMemory,
            StoreFault::Failed => SyncFault::Files,
        }
    }
}

/// The fault as the other side is told it: its number and its text, which is left out where there is no memory for it.
pub(crate) fn host_fault(alloc: Global, fault: &SyncFault) -> HostFault
    ensures number { result.number ≡ sync_fault_number fault.now }
    ensures short { string_len result.text ≤ MAX_TEXT_BYTES }
{
    let number = fault.number();
    let text = short_text(alloc, fault);
    HostFault { number, text }
}

fn short_text(alloc: Global, fault: &SyncFault) -> String
    ensures { string_len result ≤ MAX_TEXT_BYTES }
{
    match text_of(alloc, fault) {
        Ok(text) if text.len() <= MAX_TEXT_BYTES => text,
        _ => String::new(alloc),
    }
}

fn text_of(alloc: Global, fault: &SyncFault) -> Result<String, AllocError> {
    Ok(format!(in alloc; "{fault}")?)
}

/// The answer, with its fault as the other side is told it.
pub(crate) fn answered<T: Drop>(alloc: Global, answer: Result<T, SyncFault>) -> Result<T, HostFault>
    ensures same { IfOk result (λ value. answer ≡ Ok value) }
    ensures told { IfErr result (λ fault. IsToldFor (λ of. answer ≡ Err of) fault.number) }
{
    match answer {
        Ok(value) => Ok(value),
        Err(fault) => Err(host_fault(alloc, &fault)),
    }
}
