//! The lines of a script, out of a reader.
ghost use Rattle.std.specs.Prelude.{◌≡◌, ◌≤◌, ◌<◌, ◌+◌, ◌++◌, ℕ, List, Option, Err, IsTrue, IfOk, IfErr, OnOk, IfSome, length, take, vec_len};
ghost use Rattle.std.specs.Option.{option_map};
ghost use Rattle.std.specs.Io.{appended_bytes};
ghost use Rattle.std.specs.Io.BufRead.{DropsThrough, take_through};
ghost use Rattle.std.specs.Io.Buffered.{reader_remaining};
ghost use Rattle.std.specs.Io.KnownBytes.{Consumes, IsAtEnd};
ghost use Rattle.std.specs.Io.Take.{take_remaining};
ghost use Rattle.std.specs.IoError.{error_kind};
ghost use Rattle.mr_script.specs.inner.Fault.{fault_of_kind};
ghost use Rattle.mr_script.specs.Script.{Accounts, TakesLine, looked_at, metered_remaining, source_remaining};
ghost use Rattle.mr_script.specs.inner.Waiting.{has_line};
ghost use Rattle.mr_script.specs.declared.source.TheConstants.{MAX_SCRIPT_BYTES};

use crate::metered::Metered;
use memchr::memchr;
use std::alloc::Global;
use std::io;
use std::io::{BufRead, BufReader, Error, ErrorKind, Read, Take};

/// The most bytes of a script.
pub const MAX_SCRIPT_BYTES: u64 = 16_777_216;

/// How often the reader is called at most. The longest script may come byte by byte; a read that gives
/// nothing then ends a last line without a line feed, and another shows that no line follows. Reads that
/// were interrupted count too, so that a reader that is always interrupted comes to an end.
const MAX_READS: u64 = MAX_SCRIPT_BYTES + 2;

/// How many bytes are asked of the reader at once.
const READ_BYTES: usize = 65_536;

/// Why there is no next line.
#[derive(Clone, Copy, Debug, PartialEq, Eq)]
pub enum SourceFault {
    OutOfMemory,
    Read,
    TooLong,
}

impl SourceFault {
    /// What a reader's error is: out of memory as such, and each other kind a failed read.
    fn of(error: Error) -> SourceFault
        ensures { result ≡ fault_of_kind (error_kind error) }
    {
        match error.kind() {
            ErrorKind::OutOfMemory => SourceFault::OutOfMemory,
            _ => SourceFault::Read,
        }
    }
}

/// A script that is read line by line.
///
/// No more than one byte past the most that a script may have is asked of the reader, in no more than
/// `MAX_READS` reads. One that was interrupted is tried again; the first past them is a failed read.
#[derive(Drop)]
pub(crate) struct Source<R> {
    reader: BufReader<Take<Metered<R>>>,
    taken: u64,
}

impl<R: Read + Drop> Source<R> {
    /// The script that the reader gives.
    #[tactic(auto, unfolding(crate::specs::Script::looked_at))]
    pub(crate) fn try_new(alloc: Global, reader: R) -> Result<Source<R>, SourceFault>
        ensures counted { IfOk result (λ source. Accounts (R.remaining reader)
            (source_remaining R.remaining source) source.taken) }
        ensures none_taken { IfOk result (λ source. source.taken ≡ 0) }
        ensures left { IfOk result (λ source. source_remaining R.remaining source
            ≡ option_map looked_at (R.remaining reader)) }
        ensures fault { IfErr result (λ fault. fault ≡ SourceFault.OutOfMemory) }
    {
        let reader = buffered(alloc, reader, MAX_SCRIPT_BYTES + 1)?;
        Ok(Source { reader, taken: 0 })
    }

    /// Whether the next line has been read already, so that taking it waits for nobody.
    pub(crate) fn has_line(&self) -> bool
        ensures { result ≡ has_line self.now }
    {
        self.reader.buffer().contains(&b'\n')
    }

    /// Puts the next line into `line`, without its line feed, and answers whether there was one.
    pub(crate) fn next_line(&mut self, line: &mut Vec<u8>) -> Result<bool, SourceFault>
        requires { self.old.taken ≤ MAX_SCRIPT_BYTES }
        ensures few { OnOk result (self.new.taken ≤ MAX_SCRIPT_BYTES) }
        ensures more { IfOk result (λ is_line. IsTrue is_line → self.old.taken < self.new.taken) }
        ensures counted { (script : Option (List ℕ))
            → Accounts script (source_remaining R.remaining self.old) self.old.taken
            → OnOk result (Accounts script (source_remaining R.remaining self.new) self.new.taken) }
        ensures too_long { (script : Option (List ℕ))
            → Accounts script (source_remaining R.remaining self.old) self.old.taken
            → result ≡ Err SourceFault.TooLong → IfSome script (λ bytes. MAX_SCRIPT_BYTES < length bytes) }
        ensures line { IfSome (source_remaining R.remaining self.old) (λ bytes.
            TakesLine bytes self.old.taken result line.new.items
            (source_remaining R.remaining self.new) self.new.taken) }
    {
        line.clear();
        append_line(&mut self.reader, line).map_err(SourceFault::of)?;
        let count = line.len();
        self.taken = self.taken.saturating_add(count as u64);
        if self.taken > MAX_SCRIPT_BYTES {
            return Err(SourceFault::TooLong);
        }
        if line.last() == Some(&b'\n') {
            line.truncate(line.len() - 1);
        }
        Ok(count > 0)
    }
}

/// Appends the reader's next line with its line feed, and answers how many bytes it has: what `read_until` does.
/// A line that has been read already is found many bytes at a time.
fn append_line<R: Read>(reader: &mut BufReader<R>, line: &mut Vec<u8>) -> io::Result<usize>
    ensures count { IfOk result (λ n. vec_len line.new ≡ vec_len line.old + n) }
    ensures bytes { OnOk result (IfSome (reader_remaining R.remaining reader.old)
        (λ xs. line.new.items ≡ line.old.items ++ take_through 10 xs)) }
    ensures rest { OnOk result (DropsThrough (reader_remaining R.remaining reader.old)
        (reader_remaining R.remaining reader.new) 10) }
    ensures end { IfOk result (λ n. n ≡ 0 → IsAtEnd (reader_remaining R.remaining reader.old)) }
    ensures none_lost { Consumes (reader_remaining R.remaining reader.old) (reader_remaining R.remaining reader.new)
        (appended_bytes line.old.items line.new.items) }
{
    match memchr(b'\n', reader.buffer()) {
        Some(at) => {
            let count = at + 1;
            line.extend_from_slice(&reader.buffer()[..count])?;
            reader.consume(count);
            Ok(count)
        }
        None => reader.read_until(b'\n', line),
    }
}

/// The reader's first bytes, up to the limit, read ahead.
fn buffered<R: Read + Drop>(
    alloc: Global,
    reader: R,
    limit: u64,
) -> Result<BufReader<Take<Metered<R>>>, SourceFault>
    ensures counted { IfOk result (λ buffered. Accounts (R.remaining reader)
        (reader_remaining (take_remaining (metered_remaining R.remaining)) buffered) 0) }
    ensures left { IfOk result (λ buffered. reader_remaining (take_remaining (metered_remaining R.remaining)) buffered
        ≡ option_map (take limit) (R.remaining reader)) }
    ensures fault { IfErr result (λ fault. fault ≡ SourceFault.OutOfMemory) }
{
    let metered = Metered::new(reader, MAX_READS);
    BufReader::with_capacity(alloc, READ_BYTES, metered.take(limit)).map_err(SourceFault::of)
}
