//! Why a command isn't done.
ghost use Rattle.std.specs.Prelude.{◌≡◌};
ghost use Rattle.mailfold.specs.Fault.{ending_of, ending_of_folder, ending_of_line, ending_of_talk};

use crate::ending::Ending;
use mr_fold::FoldFault;
use mr_talk::{LineFault, MessageFault, TalkFault};
use mr_version::{Author, Version};
use std::alloc::{AllocError, AllocFailed};
use std::io;
use thiserror::Error;

/// Why a command isn't done.
#[derive(Debug, Drop, Error)]
pub enum Fault {
    #[error("out of memory")]
    OutOfMemory,
    /// The folder isn't made, opened or settled.
    #[error("{0}")]
    Folder(FoldFault),
    /// The talk with the other side didn't come to its end.
    #[error("{0}")]
    Talk(TalkFault),
    /// What the system said of the machine: its clock, its random bytes, a file.
    #[error("{0}")]
    System(io::Error),
    /// What the system said of the file at this path.
    #[error("{path}: {said}")]
    File { path: String, said: io::Error },
    /// Standard output takes no more.
    #[error("standard output: {0}")]
    Output(io::Error),
    /// A terminal stands in the place of the pipes that a talk goes over.
    #[error("folders talk over pipes, and a terminal is none: `mailfold-sync DIR COMMAND` joins two")]
    Terminal,
    #[error("{0} is not held: `mailfold ls` prints the versions that are")]
    NotHeld(Version),
    /// The message is of no mail's file.
    #[error("{0} stands for no mail")]
    NoMail(Version),
    #[error("the file of {0} is missing")]
    Missing(Version),
    #[error("the file of {0} is damaged: its bytes aren't those of the mail")]
    Damaged(Version),
    /// A log of the folder is of a replica of that id.
    #[error("the folder is replica {0} or was it before, and an id is never used again: take one that no folder ever had")]
    UsedId(Author),
    /// The filter isn't told, and the log tells none either.
    #[error("the old log can't be read, so which mail the folder has isn't known: tell it by --filter")]
    NoOldFilter,
    /// All names of old logs are taken.
    #[error("the old log can't be kept: .mailfold/log.1 to .mailfold/log.999 are there already")]
    NoFreeName,
    /// The log doesn't tell what replica it is of.
    #[error("the log, .mailfold/log, can't be read")]
    UnreadLog,
}

impl Fault {
    /// How the program ends at this fault.
    pub fn ending(&self) -> Ending
        ensures { result ≡ ending_of self.now }
    {
        match self {
            Fault::Folder(fault) => ending_of_folder(fault),
            Fault::Talk(fault) => ending_of_talk(fault),
            Fault::OutOfMemory
            | Fault::System(_)
            | Fault::File { .. }
            | Fault::Output(_)
            | Fault::Terminal
            | Fault::NotHeld(_)
            | Fault::NoMail(_)
            | Fault::Missing(_)
            | Fault::Damaged(_)
            | Fault::UsedId(_)
            | Fault::NoOldFilter
            | Fault::NoFreeName
            | Fault::UnreadLog => Ending::Stopped,
        }
    }

    /// Whether standard output takes no more since nobody reads on. There is nobody to tell of it then.
    pub fn is_unread(&self) -> bool {
        match self {
            Fault::Output(said) => said.kind() == io::ErrorKind::BrokenPipe,
            _ => false,
        }
    }
}

/// How the program ends where a folder isn't opened or settled.
fn ending_of_folder(fault: &FoldFault) -> Ending
    ensures { result ≡ ending_of_folder fault.now }
{
    match fault {
        FoldFault::InUse => Ending::InUse,
        _ => Ending::Stopped,
    }
}

/// How the program ends where a talk didn't come to its end.
fn ending_of_talk(fault: &TalkFault) -> Ending
    ensures { result ≡ ending_of_talk fault.now }
{
    match fault {
        TalkFault::Line(fault) => ending_of_line(*fault),
        TalkFault::Hello(_) | TalkFault::OutOfPlace | TalkFault::Host(_) | TalkFault::Told(_) => {
            Ending::Stopped
        }
    }
}

/// How the program ends where the line gave or took no more.
fn ending_of_line(fault: LineFault) -> Ending
    ensures { result ≡ ending_of_line fault }
{
    match fault {
        LineFault::Closed | LineFault::Read | LineFault::Write => Ending::Cut,
        LineFault::Message(MessageFault::Truncated) => Ending::Cut,
        LineFault::Message(_) => Ending::Stopped,
    }
}

impl From<AllocError> for Fault {
    fn from(_error: AllocError) -> Fault {
        Fault::OutOfMemory
    }
}

impl<T: Drop> From<AllocFailed<T>> for Fault {
    fn from(_error: AllocFailed<T>) -> Fault {
        Fault::OutOfMemory
    }
}

impl From<io::Error> for Fault {
    fn from(said: io::Error) -> Fault {
        Fault::System(said)
    }
}

impl From<FoldFault> for Fault {
    fn from(fault: FoldFault) -> Fault {
        Fault::Folder(fault)
    }
}

impl From<TalkFault> for Fault {
    fn from(fault: TalkFault) -> Fault {
        Fault::Talk(fault)
    }
}
