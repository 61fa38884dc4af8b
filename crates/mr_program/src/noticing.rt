//! A writer that notices answers by which too many holes are told.
ghost use Rattle.std.specs.Prelude.{◌≡◌};
ghost use Rattle.std.specs.Io.{WritesAtMost};
ghost use Rattle.std.specs.Io.KnownBytes.{Keeps, WriteAppends};
ghost use Rattle.mr_program.specs.inner.Piped.{noticing_contents};

use std::io;
use std::io::Write;

/// How an answer ends that refuses what would make too many holes.
const TOO_MANY_HOLES: &[u8] = b"refused 6 TooManyHoles";

/// How the answer of a sync begins, behind whose counts such a refusal may stand.
const SYNC: &[u8] = b"sync ";

/// A writer that hands on what it is given, and notices answers by which too many holes are told. It looks at each write
/// as it is offered, so an answer has to be offered whole.
#[derive(Drop)]
pub(crate) struct Noticing<W> {
    writer: W,
    has_holes: bool,
}

impl<W: Write> Noticing<W> {
    /// The writer, which was given nothing yet.
    pub(crate) fn new(writer: W) -> Noticing<W>
        ensures { result.writer ≡ writer }
    {
        Noticing {
            writer,
            has_holes: false,
        }
    }

    /// Whether an answer told of too many holes.
    pub(crate) fn has_holes(&self) -> bool {
        self.has_holes
    }
}

impl<W: Write> Write for Noticing<W> {
    ghost contents = { noticing_contents W.contents };

    fn write(&mut self, buf: &[u8]) -> io::Result<usize>
        ensures bound { WritesAtMost result buf.now }
        ensures bytes { WriteAppends (noticing_contents W.contents self.old) (noticing_contents W.contents self.new) result buf.now }
    {
        if tells_of_holes(buf) {
            self.has_holes = true;
        }
        self.writer.write(buf)
    }

    fn flush(&mut self) -> io::Result<()>
        ensures bytes { Keeps (noticing_contents W.contents self.old) (noticing_contents W.contents self.new) }
    {
        self.writer.flush()
    }
}

/// Whether a line of these answers tells of too many holes.
fn tells_of_holes(answers: &[u8]) -> bool {
    answers
        .split(|byte| *byte == b'\n')
        .any(|line| is_refusal(line))
}

/// Whether it is the answer of an event that was refused for too many holes, or that of a sync that met such a refusal. The
/// answer of `show` may end like one, since a sender and a subject are any text.
fn is_refusal(line: &[u8]) -> bool {
    line.ends_with(TOO_MANY_HOLES) && (line.len() == TOO_MANY_HOLES.len() || line.starts_with(SYNC))
}
