//! Why something is no author or no version.
ghost use Rattle.std.specs.Prelude.{◌≡◌};

use thiserror::Error;

/// Why something is no author or no version.
#[derive(Clone, Copy, Debug, PartialEq, Eq, Error)]
pub enum VersionFault {
    /// An author's id above 63.
    #[error("no such author: an author's id is 0 to 63")]
    NoSuchAuthor,
    /// A counter outside 1 to 1,000,000, or a text that is not exactly a version's.
    #[error("bad version: expected an author of 0 to 63, a dot and a counter of 1 to 1000000, without leading zeros")]
    BadVersion,
}

impl VersionFault {
    ghost use Rattle.mr_version.specs.Fault.{fault_number};

    /// The fault's number, 1 or 2.
    pub fn number(self) -> u8
        ensures { result ≡ fault_number self }
    {
        match self {
            VersionFault::NoSuchAuthor => 1,
            VersionFault::BadVersion => 2,
        }
    }
}
