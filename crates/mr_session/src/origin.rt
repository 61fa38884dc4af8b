//! The stream that a session is bound to.
ghost use Rattle.std.specs.Prelude.{◌≡◌};
ghost use Rattle.mr_session.specs.Session.{is_of, is_full_mode};

use mr_version::Author;
use mr_wire::{Header, Mode};

/// A stream, as a session is bound to it by its Start.
#[derive(Clone, Copy, Debug, PartialEq, Eq)]
pub struct Origin {
    /// Who gives the stream's records.
    pub source: Author,
    /// The source's number of the stream, from 1.
    pub stream: u64,
    /// Whether it tells all that its source knows.
    pub mode: Mode,
}

impl Origin {
    /// Whether a record with this header is of the stream.
    pub fn is_of(&self, header: &Header) -> bool
        ensures { result ≡ is_of self.now header.now }
    {
        self.source == header.source && self.stream == header.stream
    }

    /// Whether the stream is a full one.
    pub fn is_full(&self) -> bool
        ensures { result ≡ is_full_mode self.now.mode }
    {
        self.mode == Mode::Full
    }
}
