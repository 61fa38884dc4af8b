//! Messages over two streams.
ghost use Rattle.std.specs.Prelude.{◌≡◌, ◌<◌, ◌≤◌, false, length, take, IfErr, IfOk, MatchResult, OnErr, OnOk};
ghost use Rattle.std.specs.Io.KnownBytes.{Appends, Keeps};
ghost use Rattle.mr_talk.specs.Kinds.{limit_of};
ghost use Rattle.mr_talk.specs.Line.{Fails, Hears, IsBegun, IsUnsent, ahead};
ghost use Rattle.mr_talk.specs.inner.Line.{Ends, IsSame, TakesPiece};
ghost use Rattle.mr_talk.specs.Said.{message_bytes};

use crate::fault::{LineFault, MessageFault};
use crate::kind::Kind;
use crate::message::Message;
use crate::reader::MessageReader;
use crate::side::Host;
use std::alloc::Global;
use std::io::{ErrorKind, Read, Write};

/// The most bytes that are read at once.
const READ_BYTES: usize = 4096;

/// Both ways to the other side.
#[derive(Drop)]
pub struct Line<R: Read + Drop, W: Write + Drop> {
    /// What the other side says.
    pub input: R,
    /// What is said to it. A writer that gathers what it is given saves calls, since a message is written in three.
    pub output: W,
    /// What was read and is not received yet.
    pub reader: MessageReader,
}

impl<R: Read + Drop, W: Write + Drop> Line<R, W> {
    ghost use Rattle.std.specs.Prelude.{Some, []};

    /// A line over these streams. It takes no memory.
    pub fn new(alloc: Global, input: R, output: W) -> Line<R, W>
        ensures input { result.input ≡ input }
        ensures output { result.output ≡ output }
        ensures reader { result.reader ≡ Some [] }
    {
        let reader = MessageReader::new(alloc);
        Line {
            input,
            output,
            reader,
        }
    }

    /// Writes the message of this kind with these bytes, and doesn't flush it. Nothing of the host may wait to be kept.
    ///
    /// `TooLong`, with nothing written, where the bytes are more than a message of its kind may have; `Write` where the
    /// stream takes no more, and then a beginning of the message is written. The bytes are not copied.
    pub fn send<H: Host>(&mut self, host: &H, kind: Kind, bytes: &[u8]) -> Result<(), LineFault>
        requires { H.waits host.now ≡ false }
        ensures sent { OnOk result (Appends (W.contents self.old.output) (W.contents self.new.output)
            (message_bytes (record { kind = kind; bytes = bytes.now }))) }
        ensures fits { OnOk result (length bytes.now ≤ limit_of kind) }
        ensures fault { IfErr result (IsUnsent kind bytes.now) }
        ensures begun { OnErr result (IsBegun (W.contents self.old.output) (W.contents self.new.output)
            (message_bytes (record { kind = kind; bytes = bytes.now }))) }
        ensures too_long { limit_of kind < length bytes.now → self.new ≡ self.old }
        ensures input { self.new.input ≡ self.old.input }
        ensures reader { self.new.reader ≡ self.old.reader }
    {
        // the host is lent for what is required of it: nothing waits
        let _host = host;
        if bytes.len() > kind.limit() as usize {
            return Err(LineFault::Message(MessageFault::TooLong));
        }
        write_message(&mut self.output, kind, bytes)
    }

    /// Hands over what was written. `Write` where the stream takes no more.
    pub fn flush(&mut self) -> Result<(), LineFault>
        ensures output { Keeps (W.contents self.old.output) (W.contents self.new.output) }
        ensures fault { IfErr result (λ fault. fault ≡ LineFault.Write) }
        ensures input { self.new.input ≡ self.old.input }
        ensures reader { self.new.reader ≡ self.old.reader }
    {
        match self.output.flush() {
            Ok(()) => Ok(()),
            Err(_) => Err(LineFault::Write),
        }
    }

    /// The next message.
    ///
    /// `Closed` where the stream ends before one begins, `Message` where it ends within one, has none, or there is no memory,
    /// `Read` where it gives no more. After `Closed` and `Read` nothing that came is lost. Memory is taken for what came, and
    /// never for what a length promises.
    pub fn receive(&mut self) -> Result<Message, LineFault>
        ensures hears { Hears (ahead self.old.reader (R.remaining self.old.input)) result (ahead self.new.reader (R.remaining self.new.input)) }
        ensures output { self.new.output ≡ self.old.output }
    {
        receive_from(&mut self.input, &mut self.reader)
    }
}

/// Writes all of the bytes, or a beginning of them where the stream takes no more.
fn write_bytes<W: Write>(output: &mut W, bytes: &[u8]) -> Result<(), LineFault>
    ensures written { OnOk result (Appends (W.contents output.old) (W.contents output.new) bytes.now) }
    ensures begun { OnErr result (IsBegun (W.contents output.old) (W.contents output.new) bytes.now) }
    ensures fault { IfErr result (λ fault. fault ≡ LineFault.Write) }
{
    let mut done = 0;
    'pieces: for _ in 0..u64::MAX {
        if done == bytes.len() {
            return Ok(());
        }
        done += write_some(output, &bytes[done..])?;
    }
    Err(LineFault::Write)
}

/// Writes some of the bytes, and says how many: none where it was interrupted.
fn write_some<W: Write>(output: &mut W, bytes: &[u8]) -> Result<usize, LineFault>
    ensures within { IfOk result (λ count. count ≤ length bytes.now) }
    ensures written { IfOk result (λ count. Appends (W.contents output.old) (W.contents output.new) (take count bytes.now)) }
    ensures unchanged { OnErr result (Keeps (W.contents output.old) (W.contents output.new)) }
    ensures fault { IfErr result (λ fault. fault ≡ LineFault.Write) }
{
    match output.write(bytes) {
        Ok(0) => Err(LineFault::Write),
        Ok(count) => Ok(count),
        Err(error) => {
            if error.kind() == ErrorKind::Interrupted {
                return Ok(0);
            }
            Err(LineFault::Write)
        }
    }
}

/// Writes a message that isn't too long.
fn write_message<W: Write>(output: &mut W, kind: Kind, bytes: &[u8]) -> Result<(), LineFault>
    requires { length bytes.now ≤ limit_of kind }
    ensures written { OnOk result (Appends (W.contents output.old) (W.contents output.new)
        (message_bytes (record { kind = kind; bytes = bytes.now }))) }
    ensures begun { OnErr result (IsBegun (W.contents output.old) (W.contents output.new)
        (message_bytes (record { kind = kind; bytes = bytes.now }))) }
    ensures fault { IfErr result (λ fault. fault ≡ LineFault.Write) }
{
    let most = kind.limit();
    prove!(bytes.len() <= most as usize);
    write_bytes(output, &[kind.byte()])?;
    write_bytes(output, &(bytes.len() as u32).to_be_bytes())?;
    write_bytes(output, bytes)
}

/// The next message of the reader, which is fed from the stream.
fn receive_from<R: Read>(input: &mut R, reader: &mut MessageReader) -> Result<Message, LineFault>
    ensures { Hears (ahead reader.old (R.remaining input.old)) result (ahead reader.new (R.remaining input.new)) }
{
    for _ in 0..u64::MAX {
        match reader.next_message() {
            Ok(Some(message)) => return Ok(message),
            Ok(None) => {}
            Err(fault) => return Err(LineFault::Message(fault)),
        }
        fill(input, reader)?;
    }
    Err(LineFault::Read)
}

/// Feeds the reader with what the stream gives next.
fn fill<R: Read>(input: &mut R, reader: &mut MessageReader) -> Result<(), LineFault>
    ensures { MatchResult result (λ _. IsSame (ahead reader.old (R.remaining input.old)) (ahead reader.new (R.remaining input.new)))
        (λ fault. Fails (ahead reader.old (R.remaining input.old)) fault (ahead reader.new (R.remaining input.new))) }
{
    let mut piece = [0u8; READ_BYTES];
    match input.read(&mut piece) {
        Ok(0) => Err(ended(reader)),
        Ok(count) => take_piece(reader, &piece[..count]),
        Err(error) => {
            if error.kind() == ErrorKind::Interrupted {
                return Ok(());
            }
            Err(LineFault::Read)
        }
    }
}

/// Why there is no message where the stream is at its end.
fn ended(reader: &MessageReader) -> LineFault
    ensures { Ends reader.now result }
{
    if reader.is_between() {
        LineFault::Closed
    } else {
        LineFault::Message(MessageFault::Truncated)
    }
}

/// Feeds the reader with what was read. Where there is no memory for it, it is lost, and the reader has failed.
fn take_piece(reader: &mut MessageReader, piece: &[u8]) -> Result<(), LineFault>
    ensures { TakesPiece reader.old piece.now result reader.new }
{
    match reader.feed(piece) {
        Ok(()) => Ok(()),
        Err(fault) => {
            reader.fail();
            Err(LineFault::Message(fault))
        }
    }
}
