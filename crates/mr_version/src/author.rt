//! Authors: the replicas that make versions, by their ids.
ghost use Rattle.std.specs.Prelude.{◌≡◌, ◌<◌, ◌↔◌, Some, IsOk, IfOk, IfErr};
ghost use Rattle.std.specs.Fmt.{decimal};
ghost use Rattle.mr_version.specs.declared.author.TheConstants.{AUTHORS};

use crate::VersionFault;
use std::fmt;
use std::marker::Model;

/// How many authors there can be: their ids are 0 to 63.
pub const AUTHORS: u16 = 64;

/// A replica's id, 0 to 63.
#[derive(Clone, Copy, Debug, PartialEq, Eq, PartialOrd, Ord)]
pub struct Author {
    id: u16,
}

impl Model for Author {
    ghost use Rattle.std.specs.Prelude.{ℕ, ◌<◌};
    ghost use Rattle.mr_version.specs.declared.author.TheConstants.{AUTHORS};

    ghost Value = { ℕ };

    ghost view = { λ a. a.id };

    ghost invariant = { λ a. a.id < AUTHORS };

    ghost inverse = { λ n. record { id = n } };
}

impl Author {
    /// The author with this id. `NoSuchAuthor` where the id is above 63.
    pub fn try_new(id: u16) -> Result<Author, VersionFault>
        ensures ok { IfOk result (λ author. author ≡ id) }
        ensures exact { IsOk result ↔ (id < AUTHORS) }
        ensures fault { IfErr result (λ fault. fault ≡ VersionFault.NoSuchAuthor) }
    {
        if id < AUTHORS {
            Ok(Author { id })
        } else {
            Err(VersionFault::NoSuchAuthor)
        }
    }

    /// The author's id, 0 to 63.
    pub fn id(self) -> u16
        ensures is { result ≡ self }
        ensures in_range { self < AUTHORS }
    {
        self.id
    }
}

/// Writes the id in decimal.
impl fmt::Display for Author {
    ghost output = { λ author. Some (decimal author) };

    fn fmt<W: fmt::Write>(&self, f: &mut fmt::Formatter<W>) -> fmt::Result {
        write!(f, "{}", self.id)
    }
}
