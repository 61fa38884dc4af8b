//! Why a text is no filter.
ghost use Rattle.std.specs.Prelude.{◌≡◌};
ghost use Rattle.mr_filter.specs.declared.fault.FilterFault.TheVariants.{OutOfMemory};
ghost use Rattle.mr_filter.specs.Fault.{fault_number};

use std::alloc::{AllocError, AllocFailed};
use thiserror::Error;

/// Why a text is no filter, in the order in which the reasons are tried; memory is tried last.
#[derive(Clone, Copy, Debug, PartialEq, Eq, Drop, Error)]
pub enum FilterFault {
    #[error("out of memory")]
    OutOfMemory,
    /// A piece between two separators is not in the grammar: the first of them, by the number of
    /// bytes that stand before it.
    #[error("bad filter at {0}")]
    BadFilter(usize),
    #[error("more than 16 clauses")]
    TooManyClauses,
    #[error("more than 8 labels in a clause")]
    TooManyLabels,
}

impl FilterFault {
    /// The fault's number: 0 for out of memory, and from 1 in the order in which faults are tried.
    pub fn number(self) -> u8
        ensures { result ≡ fault_number self }
    {
        match self {
            FilterFault::OutOfMemory => 0,
            FilterFault::BadFilter(_) => 1,
            FilterFault::TooManyClauses => 2,
            FilterFault::TooManyLabels => 3,
        }
    }
}

impl From<AllocError> for FilterFault {
    ghost from_gives = { λ _ fault. fault ≡ OutOfMemory };

    fn from(_error: AllocError) -> FilterFault {
        FilterFault::OutOfMemory
    }
}

impl<T: Drop> From<AllocFailed<T>> for FilterFault {
    ghost from_gives = { λ _ fault. fault ≡ OutOfMemory };

    fn from(_error: AllocFailed<T>) -> FilterFault {
        FilterFault::OutOfMemory
    }
}
