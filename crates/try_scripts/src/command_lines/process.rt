//! The words, files and streams of a process that is none.
ghost use Rattle.std.specs.Io.{WritesAtMost};

use mr_program::Scripts;
use std::alloc::Global;
use std::env::FillError;
use std::io;
use std::io::{ErrorKind, Read, Write};
use std::rt::Env;

/// The words of a command line.
#[derive(Clone, Copy)]
pub struct Words<'a> {
    pub words: &'a [Vec<u8>],
    /// Else each word ends with a byte that is no text.
    pub are_text: bool,
}

impl Env for Words<'_> {
    fn arg(&self, i: usize, buf: &mut [u8]) -> Result<usize, FillError> {
        let Some(word) = self.words.get(i) else {
            return Err(FillError::NotPresent);
        };
        let filled = fill(word.as_slice(), buf)?;
        if !self.are_text && filled > 0 {
            buf[filled - 1] = 0xff;
        }
        Ok(filled)
    }

    fn var(&self, _name: &str, _buf: &mut [u8]) -> Result<usize, FillError> {
        Err(FillError::NotPresent)
    }

    fn var_at(&self, _i: usize, _buf: &mut [u8]) -> Result<usize, FillError> {
        Err(FillError::NotPresent)
    }
}

/// Puts the bytes at the buffer's start.
fn fill(bytes: &[u8], buf: &mut [u8]) -> Result<usize, FillError>
    ensures { WritesAtMost result buf.new }
{
    if bytes.len() > buf.len() {
        return Err(FillError::TooLong);
    }
    buf[..bytes.len()].copy_from_slice(bytes);
    Ok(bytes.len())
}

/// A folder with one file, `script`.
#[derive(Clone, Copy)]
pub struct Folder<'a> {
    pub script: &'a [u8],
    /// Whether the file may not be read.
    pub hides: bool,
    /// How the file fails behind its bytes, if it does.
    pub failure: Option<ErrorKind>,
}

impl<'a> Scripts for Folder<'a> {
    type Script = Input<'a>;

    fn open_script(&self, name: &str) -> io::Result<Input<'a>> {
        if name != "script" {
            return Err(io::Error::from(ErrorKind::NotFound));
        }
        if self.hides {
            return Err(io::Error::from(ErrorKind::PermissionDenied));
        }
        Ok(Input {
            rest: self.script,
            failure: self.failure,
            is_endless: false,
        })
    }
}

/// A stream of these bytes.
#[derive(Drop)]
pub struct Input<'a> {
    pub rest: &'a [u8],
    /// How it fails behind them, if it does.
    pub failure: Option<ErrorKind>,
    /// Whether `#` follows them without end.
    pub is_endless: bool,
}

impl Read for Input<'_> {
    fn read(&mut self, buf: &mut [u8]) -> io::Result<usize> {
        if !self.rest.is_empty() {
            return self.rest.read(buf);
        }
        if let Some(kind) = self.failure {
            return Err(io::Error::from(kind));
        }
        if self.is_endless {
            buf.fill(b'#');
            return Ok(buf.len());
        }
        Ok(0)
    }
}

/// A stream that keeps what is written, once it is flushed.
#[derive(Drop)]
pub struct Output {
    pub written: Vec<u8>,
    waiting: Vec<u8>,
    failure: Option<ErrorKind>,
}

impl Output {
    /// A stream that fails so at each write, or at none.
    pub fn new(alloc: Global, failure: Option<ErrorKind>) -> Output {
        Output {
            written: Vec::new(alloc),
            waiting: Vec::new(alloc),
            failure,
        }
    }
}

impl Write for Output {
    fn write(&mut self, buf: &[u8]) -> io::Result<usize> {
        match self.failure {
            Some(kind) => Err(io::Error::from(kind)),
            None => self.waiting.write(buf),
        }
    }

    fn flush(&mut self) -> io::Result<()> {
        self.written.extend_from_slice(&self.waiting)?;
        self.waiting.clear();
        Ok(())
    }
}
