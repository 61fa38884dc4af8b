//! Tables of ways to read and write a script: pieces, calls that fail, and calls that are interrupted.
//!
//! A line `HOW => WHAT` tells of the script of the table's name, run over item sets. `HOW` has one or more of these, with `, ` between
//! them; what is not said goes well, and takes all at once:
//!
//! | Words | Meaning |
//! |---|---|
//! | `read by line`, `read by 1`, `write by 40` | a call gives a line, or gives or takes so many bytes at most |
//! | `read 5 fails`, `write 3 fails` | that call fails; flushes count as calls of the writer |
//! | `read 5 interrupted`, `write each 5 interrupted` | that call, or each call of so many, is interrupted |
//!
//! `WHAT` has how it ends, `done` or a fault, and then numbers: `2 lines` were flushed when the reader was called last, it was
//! called in `9 reads`, the writer in `3 writes`, and `7 bytes` were written. What was written is a beginning of the script's
//! answer, and all of it where it is done.
use crate::files::{text, written};
use crate::pipes::{Manner, Piece, Seen, Sink, Source, Trouble};
use crate::tally::Tally;
use anyhow::{Context, Result, bail};
use mr_itemset::ItemKnowledge;
use mr_script::run_script;
use std::alloc::Global;
use std::io::ErrorKind;
use std::rt::Files;

/// Whether each line of the table of this name is as it says. Prints a line with their
/// number, and before it one for each that isn't.
pub fn are_ok<R: Files + Print + AllocGlobal>(rt: &R, folder: &str, name: &str) -> Result<bool> {
    let script = written(rt, folder, name, "script")?;
    let expected = written(rt, folder, name, "expected")?;
    let table = text(rt, folder, name, "calls")?;
    let row = Row {
        script: script.as_slice(),
        expected: expected.as_slice(),
    };
    row.run_all(rt, table.as_str())?
        .tell(rt, name, "ways to call")
}

/// A script, and what it answers.
#[derive(Clone, Copy)]
struct Row<'a> {
    script: &'a [u8],
    expected: &'a [u8],
}

/// How a script is read and written.
#[derive(Clone, Copy)]
struct Manners {
    reader: Manner,
    writer: Manner,
}

/// What came of a run.
#[derive(Drop)]
struct Came {
    /// `done`, or the fault.
    end: String,
    seen: Seen,
    written: Vec<u8>,
}

impl Row<'_> {
    /// Runs the script in each way of a table.
    fn run_all<R: Print + AllocGlobal>(&self, rt: &R, table: &str) -> Result<Tally> {
        let mut tally = Tally::new();
        for line in table.lines() {
            tally.note(self.is_ok(rt, line)?);
        }
        Ok(tally)
    }

    /// Whether a line of the table is as it says. Prints it where it isn't.
    fn is_ok<R: Print + AllocGlobal>(&self, rt: &R, line: &str) -> Result<bool> {
        let (how, what) = line.split_once(" => ").context("a line has ` => `")?;
        let came = self.run(rt.alloc(), read_manners(how)?)?;
        let is_ok = self.is_begun(&came) && came.is_said(what);
        if !is_ok {
            came.tell(rt, line)?;
        }
        Ok(is_ok)
    }

    /// Whether what was written is a beginning of what is expected, and all of it where the script is done.
    fn is_begun(&self, came: &Came) -> bool {
        self.expected.starts_with(came.written.as_slice())
            && (came.end.as_str() != "done" || came.written.len() == self.expected.len())
    }

    /// Runs the script.
    fn run(&self, alloc: Global, manners: Manners) -> Result<Came> {
        let seen = Seen::new();
        let source = Source {
            rest: self.script,
            manner: manners.reader,
            seen: &seen,
        };
        let mut sink = Sink::new(alloc, manners.writer, &seen);
        let end = match run_script::<ItemKnowledge, _, _>(alloc, source, &mut sink) {
            Ok(()) => String::from_str(alloc, "done")?,
            Err(fault) => format!(in alloc; "{fault}")?,
        };
        let written = sink.written;
        Ok(Came { end, seen, written })
    }
}

impl Came {
    /// Whether this came of it: its end, and numbers.
    fn is_said(&self, what: &str) -> bool {
        let mut words = what.split(", ");
        words.next() == Some(self.end.as_str()) && words.all(|said| self.is_counted(said))
    }

    /// Whether a number is so.
    fn is_counted(&self, said: &str) -> bool {
        let Some((count, what)) = said.split_once(' ') else {
            return false;
        };
        let counted = match what {
            "lines" => self.seen.lines.get(),
            "reads" => self.seen.reads.get(),
            "writes" => self.seen.writes.get(),
            "bytes" => self.written.len() as u64,
            _ => return false,
        };
        count.parse() == Ok(counted)
    }

    /// Prints what came of a line that says otherwise.
    fn tell<R: Print>(&self, rt: &R, line: &str) -> Result<()> {
        let (end, bytes) = (self.end.as_str(), self.written.len());
        let (lines, reads) = (self.seen.lines.get(), self.seen.reads.get());
        let writes = self.seen.writes.get();
        println!(rt;
            "`{line}`, but: {end}, {lines} lines, {reads} reads, {writes} writes, {bytes} bytes"
        )?;
        Ok(())
    }
}

/// The manners of these words.
fn read_manners(how: &str) -> Result<Manners> {
    let mut manners = Manners {
        reader: Manner::new(),
        writer: Manner::new(),
    };
    for words in how.split(", ") {
        match words.split_once(' ') {
            Some(("read", rest)) => change(&mut manners.reader, rest)?,
            Some(("write", rest)) => change(&mut manners.writer, rest)?,
            _ => bail!("a way to call begins with read or write"),
        }
    }
    Ok(manners)
}

/// Changes a manner as these words say.
fn change(manner: &mut Manner, words: &str) -> Result<()> {
    match words
        .split_once(' ')
        .context("a way to call has three words")?
    {
        ("by", "line") => manner.piece = Piece::Line,
        ("by", count) => manner.piece = Piece::Bytes(count.parse()?),
        ("each", rest) => {
            let (count, kind) = rest
                .split_once(' ')
                .context("each so many calls, and what then")?;
            manner.trouble = Trouble::Each(count.parse()?);
            manner.kind = kind_of(kind)?;
        }
        (place, kind) => {
            manner.trouble = Trouble::At(place.parse()?);
            manner.kind = kind_of(kind)?;
        }
    }
    Ok(())
}

/// What goes wrong by this name.
fn kind_of(name: &str) -> Result<ErrorKind> {
    match name {
        "fails" => Ok(ErrorKind::BrokenPipe),
        "interrupted" => Ok(ErrorKind::Interrupted),
        _ => bail!("a call fails or is interrupted"),
    }
}
