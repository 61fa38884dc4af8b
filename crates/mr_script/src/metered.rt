//! A reader that is called only so often.
ghost use Rattle.std.specs.Prelude.{◌≡◌, ◌-◌, IsErr};
ghost use Rattle.std.specs.Io.{ReadsAtMost};
ghost use Rattle.std.specs.Io.KnownBytes.{ReadConsumes};
ghost use Rattle.mr_script.specs.Script.{metered_remaining};

use std::io;
use std::io::{ErrorKind, Read};

/// A reader that may be called only so often, and fails from then on.
#[derive(Drop)]
pub(crate) struct Metered<R> {
    reader: R,
    calls_left: u64,
}

impl<R: Read> Metered<R> {
    /// The reader, which may be called so often.
    pub(crate) fn new(reader: R, calls: u64) -> Metered<R>
        ensures reader { result.reader ≡ reader }
        ensures calls { result.calls_left ≡ calls }
    {
        Metered {
            reader,
            calls_left: calls,
        }
    }
}

impl<R: Read> Read for Metered<R> {
    ghost remaining = { metered_remaining R.remaining };

    /// `TimedOut` where no call is left. Each other call is one of the reader's, also where it fails.
    fn read(&mut self, buf: &mut [u8]) -> io::Result<usize>
        ensures bound { ReadsAtMost result buf.new }
        ensures bytes { ReadConsumes (metered_remaining R.remaining self.old) (metered_remaining R.remaining self.new) result buf.new }
        ensures counted { self.new.calls_left ≡ self.old.calls_left - 1 }
        ensures none_left { self.old.calls_left ≡ 0 → IsErr result }
        ensures left_alone { self.old.calls_left ≡ 0 → self.new.reader ≡ self.old.reader }
    {
        if self.calls_left == 0 {
            return Err(io::Error::from(ErrorKind::TimedOut));
        }
        self.calls_left -= 1;
        self.reader.read(buf)
    }
}
