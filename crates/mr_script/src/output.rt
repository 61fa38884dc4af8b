//! What a script prints.
ghost use Rattle.std.specs.Prelude.{◌≡◌, ◌<◌, ◌≤◌, ◌++◌, [], IfOk, OnOk, OnErr, length, take, drop, vec_len};
ghost use Rattle.std.specs.Io.KnownBytes.{Appends, Keeps};
ghost use Rattle.mr_script.specs.Writing.{Settles};

use std::alloc::{AllocError, Global};
use std::io;
use std::io::{ErrorKind, Write};
use std::marker::Model;

/// How many bytes of answers may wait before they are written.
const WAITING_BYTES: usize = 65_536;

/// Answers on their way to a writer.
///
/// They wait in memory until they are flushed, so that many short answers are one write.
#[derive(Drop)]
pub struct Output {
    waiting: Vec<u8>,
}

impl Model for Output {
    ghost use Rattle.std.specs.Prelude.{ℕ, List};

    ghost Value = { List ℕ };

    ghost view = { λ o. o.waiting.items };
}

impl Output {
    /// Nothing printed yet.
    pub fn new(alloc: Global) -> Output
        ensures { result ≡ [] }
    {
        Output {
            waiting: Vec::new(alloc),
        }
    }

    /// Adds an answer behind those that wait. Where there is no memory, nothing of it is added.
    pub fn push(&mut self, answer: &str) -> Result<(), AllocError>
        ensures ok { OnOk result (self.new ≡ self.old ++ answer.now) }
        ensures err { OnErr result (self.new ≡ self.old) }
    {
        self.waiting.extend_from_slice(answer.as_bytes())
    }

    /// Whether so many bytes wait that they should be written.
    pub(crate) fn is_full(&self) -> bool {
        self.waiting.len() >= WAITING_BYTES
    }

    /// Writes all that waits, and flushes the writer. The first failure ends it: the writer isn't called
    /// again, and what it had not taken still waits.
    pub fn flush<W: Write>(&mut self, writer: &mut W) -> io::Result<()>
        ensures settles { Settles (W.contents writer.old) (W.contents writer.new) self.old self.new }
        ensures empty { OnOk result (self.new ≡ []) }
    {
        let (count, written) = write_bytes(self.waiting.as_slice(), writer);
        remove_front(&mut self.waiting, count);
        written?;
        writer.flush()
    }
}

/// Writes all the bytes, in as many writes as that takes, up to the first that fails. Says how many were
/// written.
fn write_bytes<W: Write>(bytes: &[u8], writer: &mut W) -> (usize, io::Result<()>)
    ensures within { result.0 ≤ length bytes.now }
    ensures all { OnOk result.1 (result.0 ≡ length bytes.now) }
    ensures written { Appends (W.contents writer.old) (W.contents writer.new) (take result.0 bytes.now) }
{
    let mut written = 0;
    while written < bytes.len() {
        match write_some(&bytes[written..], writer) {
            Ok(count) => written += count,
            Err(error) => return (written, Err(error)),
        }
    }
    (written, Ok(()))
}

/// Writes some of the bytes, and says how many. A write that was interrupted is tried again, as often as
/// std does; one that takes nothing is `WriteZero`.
fn write_some<W: Write>(bytes: &[u8], writer: &mut W) -> io::Result<usize>
    ensures some { IfOk result (λ count. 0 < count) }
    ensures within { IfOk result (λ count. count ≤ length bytes.now) }
    ensures written { IfOk result (λ count. Appends (W.contents writer.old) (W.contents writer.new) (take count bytes.now)) }
    ensures unchanged { OnErr result (Keeps (W.contents writer.old) (W.contents writer.new)) }
{
    for _ in 0..u64::MAX {
        match writer.write(bytes) {
            Ok(0) => return Err(io::Error::from(ErrorKind::WriteZero)),
            Ok(count) => return Ok(count),
            Err(error) => {
                if error.kind() != ErrorKind::Interrupted {
                    return Err(error);
                }
            }
        }
    }
    Err(io::Error::from(ErrorKind::TimedOut))
}

/// Takes the first bytes out.
fn remove_front(bytes: &mut Vec<u8>, count: usize)
    requires { count ≤ vec_len bytes.old }
    ensures { bytes.new.items ≡ drop count bytes.old.items }
{
    let length = bytes.len();
    bytes.as_mut_slice().copy_within(count..length, 0);
    bytes.truncate(length - count);
}
