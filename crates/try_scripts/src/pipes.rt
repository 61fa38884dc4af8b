//! A reader and a writer that take little a call, fail, or are interrupted, and what is seen of their calls.
use std::alloc::Global;
use std::cell::Cell;
use std::io;
use std::io::{ErrorKind, Read, Write};

/// How much a call gives or takes.
#[derive(Clone, Copy)]
pub enum Piece {
    /// A line.
    Line,
    /// So many bytes at most.
    Bytes(usize),
}

/// Which calls go wrong, counted from 1.
#[derive(Clone, Copy)]
pub enum Trouble {
    Never,
    /// One call.
    At(u64),
    /// Each call of so many.
    Each(u64),
}

impl Trouble {
    /// Whether the call of this number goes wrong.
    fn is_at(self, call: u64) -> bool {
        match self {
            Trouble::Never => false,
            Trouble::At(place) => call == place,
            Trouble::Each(count) => count != 0 && call % count == 0,
        }
    }
}

/// How a reader or a writer is called.
#[derive(Clone, Copy)]
pub struct Manner {
    pub piece: Piece,
    pub trouble: Trouble,
    /// What goes wrong.
    pub kind: ErrorKind,
}

impl Manner {
    /// All that is wanted, and no trouble.
    pub fn new() -> Manner {
        Manner {
            piece: Piece::Bytes(usize::MAX),
            trouble: Trouble::Never,
            kind: ErrorKind::BrokenPipe,
        }
    }

    /// Fails where the call of this number goes wrong.
    fn check(&self, call: u64) -> io::Result<()> {
        if self.trouble.is_at(call) {
            return Err(io::Error::from(self.kind));
        }
        Ok(())
    }

    /// How many bytes a call gives or takes of these.
    fn length_of(&self, bytes: &[u8]) -> usize {
        match self.piece {
            Piece::Bytes(most) => most,
            Piece::Line => match bytes.iter().position(|byte| *byte == b'\n') {
                Some(place) => place.saturating_add(1),
                None => bytes.len(),
            },
        }
    }
}

/// What was seen of the calls.
#[derive(Drop)]
pub struct Seen {
    pub reads: Cell<u64>,
    /// The calls of the writer, flushes included.
    pub writes: Cell<u64>,
    /// How many lines were written, and of them flushed.
    written: Cell<u64>,
    flushed: Cell<u64>,
    /// How many were flushed when the last read came.
    pub lines: Cell<u64>,
}

impl Seen {
    /// No call yet.
    pub fn new() -> Seen {
        Seen {
            reads: Cell::new(0),
            writes: Cell::new(0),
            written: Cell::new(0),
            flushed: Cell::new(0),
            lines: Cell::new(0),
        }
    }

    /// Notes a read, and gives its number.
    fn read(&self) -> u64 {
        self.reads.set(self.reads.get().saturating_add(1));
        self.lines.set(self.flushed.get());
        self.reads.get()
    }

    /// Notes a call of the writer, and gives its number.
    fn write(&self) -> u64 {
        self.writes.set(self.writes.get().saturating_add(1));
        self.writes.get()
    }

    /// Notes what was written.
    fn take(&self, bytes: &[u8]) {
        let lines = bytes.iter().filter(|byte| **byte == b'\n').count() as u64;
        self.written.set(self.written.get().saturating_add(lines));
    }
}

/// A reader of these bytes.
#[derive(Drop)]
pub struct Source<'a> {
    pub rest: &'a [u8],
    pub manner: Manner,
    pub seen: &'a Seen,
}

impl Read for Source<'_> {
    fn read(&mut self, buf: &mut [u8]) -> io::Result<usize> {
        self.manner.check(self.seen.read())?;
        let length = self.manner.length_of(self.rest).min(self.rest.len());
        let mut piece = &self.rest[..length];
        let count = piece.read(buf)?;
        self.rest = &self.rest[count.min(self.rest.len())..];
        Ok(count)
    }
}

/// A writer that keeps what is written.
#[derive(Drop)]
pub struct Sink<'a> {
    pub written: Vec<u8>,
    pub manner: Manner,
    pub seen: &'a Seen,
}

impl Sink<'_> {
    /// A writer that has nothing yet.
    pub fn new(alloc: Global, manner: Manner, seen: &Seen) -> Sink<'_> {
        Sink {
            written: Vec::new(alloc),
            manner,
            seen,
        }
    }
}

impl Write for Sink<'_> {
    fn write(&mut self, buf: &[u8]) -> io::Result<usize> {
        self.manner.check(self.seen.write())?;
        let piece = &buf[..self.manner.length_of(buf).min(buf.len())];
        let count = self.written.write(piece)?;
        self.seen.take(piece);
        Ok(count)
    }

    /// An interruption is of writes alone.
    fn flush(&mut self) -> io::Result<()> {
        let call = self.seen.write();
        if self.manner.kind != ErrorKind::Interrupted {
            self.manner.check(call)?;
        }
        self.seen.flushed.set(self.seen.written.get());
        Ok(())
    }
}
