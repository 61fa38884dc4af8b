//! Tables of frames.
use crate::files::text;
use crate::pieces;
use crate::tally::Tally;
use anyhow::Result;
use mr_script::frame_text;
use std::alloc::Global;
use std::rt::Files;

/// Whether each frame of the table of this name is told as expected, and read so out of a stream. Prints
/// a line with their number, and before it one for each that isn't.
pub fn are_ok<R: Files + Print + AllocGlobal>(rt: &R, folder: &str, name: &str) -> Result<bool> {
    let table = text(rt, folder, name, "frames")?;
    read_all(rt, table.as_str())?.tell(rt, name, "frames")
}

/// Reads each frame of a table.
fn read_all<R: Print + AllocGlobal>(rt: &R, table: &str) -> Result<Tally> {
    let mut tally = Tally::new();
    for line in table.lines() {
        tally.note(is_ok(rt, line)?);
    }
    Ok(tally)
}

/// Whether the frame of a line is told and read as the line says. Prints how where it isn't.
fn is_ok<R: Print + AllocGlobal>(rt: &R, case: &str) -> Result<bool> {
    let Some((word, expected)) = case.rsplit_once(" => ") else {
        println!(rt; "no case, since it has no ` => `: {case}")?;
        return Ok(false);
    };
    let told = told(rt.alloc(), word)?;
    if told.as_str() != lines(rt.alloc(), expected)?.as_str() {
        println!(rt; "`{word}` is not told as `{expected}`, but as:\n{told}")?;
        return Ok(false);
    }
    let is_read = pieces::are_ok(rt.alloc(), word, expected)?;
    if !is_read {
        println!(rt; "`{word}` is not read out of pieces as `{expected}`")?;
    }
    Ok(is_read)
}

/// What is told of the word: 1 where that is a fault, else 0, and then the lines.
fn told(alloc: Global, word: &str) -> Result<String> {
    let text = frame_text(alloc, word)?;
    let (status, lines) = (u8::from(text.is_fault), text.lines.as_str());
    Ok(format!(in alloc; "{status} {lines}")?)
}

/// The lines of an answer that has ` / ` between them.
fn lines(alloc: Global, answer: &str) -> Result<String> {
    let mut lines = String::new(alloc);
    for line in answer.split(" / ") {
        lines.push_str(line)?;
        lines.push('\n')?;
    }
    Ok(lines)
}
