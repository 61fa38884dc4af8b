//! Why a line is no command.
ghost use Rattle.std.specs.Prelude.{◌≡◌};
ghost use Rattle.mr_command.specs.declared.fault.LineFault.TheVariants.{OutOfMemory};
ghost use Rattle.mr_command.specs.Fault.{fault_of_message, fault_of_filter};

use mr_filter::FilterFault;
use mr_mail::MessageFault;
use std::alloc::{AllocError, AllocFailed};
use thiserror::Error;

/// Why a line can't be run. Its text is what stands after the line's number on standard error.
#[derive(Clone, Copy, Debug, PartialEq, Eq, Error)]
pub enum LineFault {
    /// The line is not UTF-8.
    #[error("not text")]
    NotText,
    /// The first word is no command.
    #[error("unknown command")]
    UnknownCommand,
    /// The line has too few or too many words for its command.
    #[error("wrong words")]
    WrongWords,
    /// A word is no decimal number without leading zeros, an id is over 63, a frame's number lacks its
    /// letter, or a subscriber has another name than `indexer` or `notifier`.
    #[error("bad number")]
    BadNumber,
    /// A word is no version.
    #[error("bad version")]
    BadVersion,
    /// A word is no date from 1970-01-01 to 2149-06-06.
    #[error("bad date")]
    BadDate,
    /// A word is no list of flags.
    #[error("bad flags")]
    BadFlags,
    /// A piece of a filter's text is none, the first of them with so many bytes before it.
    #[error("bad filter at {place}")]
    BadFilter { place: usize },
    /// A filter's text has more than 16 clauses.
    #[error("too many clauses")]
    TooManyClauses,
    /// A clause of a filter's text has more than 8 labels.
    #[error("too many labels")]
    TooManyLabels,
    /// The parts of a message make none, for the reason that has this number among those of
    /// `MessageFault`.
    #[error("message refused {number}")]
    MessageRefused { number: u8 },
    /// A replica is to be made after another line than such.
    #[error("replica after the first event")]
    LateReplica,
    /// Another replica has the id.
    #[error("same replica")]
    SameReplica,
    /// An event limit is outside 1 to 1,000,000.
    #[error("bad limit")]
    BadLimit,
    /// A port's capacity is outside 1 to 4,096.
    #[error("bad capacity")]
    BadCapacity,
    /// No replica has this id.
    #[error("no such replica")]
    NoSuchReplica,
    /// The pool has no frame of this number.
    #[error("no such frame")]
    NoSuchFrame,
    /// A growth was refused.
    #[error("out of memory")]
    OutOfMemory,
}

impl From<AllocError> for LineFault {
    ghost from_gives = { λ _ fault. fault ≡ OutOfMemory };

    fn from(_error: AllocError) -> LineFault {
        LineFault::OutOfMemory
    }
}

impl<T: Drop> From<AllocFailed<T>> for LineFault {
    ghost from_gives = { λ _ fault. fault ≡ OutOfMemory };

    fn from(_error: AllocFailed<T>) -> LineFault {
        LineFault::OutOfMemory
    }
}

/// A message's fault is told by its number, but for `OutOfMemory`, which is told as it is.
impl From<MessageFault> for LineFault {
    ghost from_gives = { λ error fault. fault ≡ fault_of_message error };

    fn from(error: MessageFault) -> LineFault {
        match error {
            MessageFault::OutOfMemory => LineFault::OutOfMemory,
            refused => LineFault::MessageRefused {
                number: refused.number(),
            },
        }
    }
}

/// A filter's fault is told as it is.
impl From<FilterFault> for LineFault {
    ghost from_gives = { λ error fault. fault ≡ fault_of_filter error };

    fn from(error: FilterFault) -> LineFault {
        match error {
            FilterFault::OutOfMemory => LineFault::OutOfMemory,
            FilterFault::BadFilter(place) => LineFault::BadFilter { place },
            FilterFault::TooManyClauses => LineFault::TooManyClauses,
            FilterFault::TooManyLabels => LineFault::TooManyLabels,
        }
    }
}
