//! A writer that notes whether its reader has closed it.
ghost use Rattle.std.specs.Prelude.{◌≡◌, ◌↔◌, IfErr, true};
ghost use Rattle.std.specs.Io.{WritesAtMost};
ghost use Rattle.std.specs.Io.KnownBytes.{Keeps, WriteAppends};
ghost use Rattle.std.specs.IoError.{error_kind};
ghost use Rattle.mr_program.specs.inner.Piped.{piped_contents};

use std::io;
use std::io::{ErrorKind, Write};

/// A writer whose reader may close it, as the next program of a pipe does that has read enough.
#[derive(Drop)]
pub(crate) struct Piped<W> {
    writer: W,
    /// Whether the last call that failed did so since nobody reads on.
    is_closed: bool,
}

impl<W: Write> Piped<W> {
    /// The writer, of which no call has failed yet.
    pub(crate) fn new(writer: W) -> Piped<W>
        ensures { result.writer ≡ writer }
    {
        Piped {
            writer,
            is_closed: false,
        }
    }

    /// Whether the last call that failed did so since nobody reads on.
    pub(crate) fn is_closed(&self) -> bool
        ensures { result ≡ self.now.is_closed }
    {
        self.is_closed
    }

    /// Notes how a call failed.
    fn note(&mut self, kind: ErrorKind)
        ensures writer { self.new.writer ≡ self.old.writer }
        ensures closed { (self.new.is_closed ≡ true) ↔ (kind ≡ ErrorKind.BrokenPipe) }
    {
        self.is_closed = matches!(kind, ErrorKind::BrokenPipe);
    }
}

impl<W: Write> Write for Piped<W> {
    ghost contents = { piped_contents W.contents };

    fn write(&mut self, buf: &[u8]) -> io::Result<usize>
        ensures bound { WritesAtMost result buf.now }
        ensures bytes { WriteAppends (piped_contents W.contents self.old) (piped_contents W.contents self.new) result buf.now }
        ensures closed { IfErr result (λ error. (self.new.is_closed ≡ true) ↔ (error_kind error ≡ ErrorKind.BrokenPipe)) }
    {
        match self.writer.write(buf) {
            Ok(count) => Ok(count),
            Err(error) => {
                self.note(error.kind());
                Err(error)
            }
        }
    }

    fn flush(&mut self) -> io::Result<()>
        ensures bytes { Keeps (piped_contents W.contents self.old) (piped_contents W.contents self.new) }
        ensures closed { IfErr result (λ error. (self.new.is_closed ≡ true) ↔ (error_kind error ≡ ErrorKind.BrokenPipe)) }
    {
        match self.writer.flush() {
            Ok(()) => Ok(()),
            Err(error) => {
                self.note(error.kind());
                Err(error)
            }
        }
    }
}
