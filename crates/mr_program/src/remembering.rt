//! A reader that remembers what it gave.
ghost use Rattle.std.specs.Prelude.{◌≡◌};
ghost use Rattle.std.specs.Io.{ReadsAtMost};
ghost use Rattle.std.specs.Io.KnownBytes.{ReadConsumes};
ghost use Rattle.mr_program.specs.inner.Remembering.{remembering_remaining};

use std::alloc::Global;
use std::io::{ErrorKind, Read};
use std::{io, str};

/// A reader that remembers all that it gave, as far as there is memory for it, and how it failed.
#[derive(Drop)]
pub(crate) struct Remembering<R> {
    reader: R,
    given: Vec<u8>,
    is_whole: bool,
    failure: Option<ErrorKind>,
}

impl<R: Read> Remembering<R> {
    /// The reader, which has given nothing yet.
    pub(crate) fn new(alloc: Global, reader: R) -> Remembering<R>
        ensures { result.reader ≡ reader }
    {
        Remembering {
            reader,
            given: Vec::new(alloc),
            is_whole: true,
            failure: None,
        }
    }

    /// How its last call failed that did.
    pub(crate) fn failure(&self) -> Option<ErrorKind> {
        self.failure
    }

    /// The line of this number, from 1, without its line feed; an empty text for one that is none. Nothing where there
    /// was no such line, or no memory for it.
    pub(crate) fn line(&self, number: u64) -> Option<&str> {
        if !self.is_whole {
            return None;
        }
        let before = usize::try_from(number.checked_sub(1)?).ok()?;
        let line = self
            .given
            .as_slice()
            .split(|byte| *byte == b'\n')
            .nth(before)?;
        Some(str::from_utf8(line).unwrap_or(""))
    }

    /// Remembers these bytes too. Where there is no memory for them, nothing is remembered from then on.
    fn remember(&mut self, bytes: &[u8])
        ensures { self.new.reader ≡ self.old.reader }
    {
        if self.is_whole && self.given.extend_from_slice(bytes).is_err() {
            self.is_whole = false;
        }
    }
}

impl<R: Read> Read for Remembering<R> {
    ghost remaining = { remembering_remaining R.remaining };

    fn read(&mut self, buf: &mut [u8]) -> io::Result<usize>
        ensures bound { ReadsAtMost result buf.new }
        ensures bytes { ReadConsumes (remembering_remaining R.remaining self.old) (remembering_remaining R.remaining self.new) result buf.new }
    {
        match self.reader.read(buf) {
            Ok(count) => {
                self.remember(&buf[..count]);
                Ok(count)
            }
            Err(error) => {
                self.failure = Some(error.kind());
                Err(error)
            }
        }
    }
}
