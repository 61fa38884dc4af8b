//! Tables of command lines.
use crate::command_lines::case::{Case, Failing};
use anyhow::Result;
use std::alloc::{AllocError, Global};

/// How many letters the escape `\k` stands for.
const MANY: usize = 1000;

/// How many messages of each kind the escape `\g` makes.
const MADE: usize = 4098;

/// The cases of a table.
pub fn read_table(alloc: Global, text: &str) -> Result<Vec<Case>> {
    let mut cases = Vec::new(alloc);
    for line in text.lines() {
        read_line(alloc, line, &mut cases)?;
    }
    Ok(cases)
}

/// Begins a case, or adds the line to the last.
fn read_line(alloc: Global, line: &str, cases: &mut Vec<Case>) -> Result<()> {
    let (mark, text) = line.split_once(' ').unwrap_or((line, ""));
    if mark == "$" {
        cases.push(Case::new(alloc, text)?)?;
    }
    if let Some(case) = cases.last_mut() {
        if add_line(case, mark, text)? {
            tell_line(&mut case.told, line)?;
        }
    }
    Ok(())
}

/// Adds what a line says to a case. Says whether it is a line of one.
fn add_line(case: &mut Case, mark: &str, text: &str) -> Result<bool> {
    match mark {
        "$" => {}
        "<" => push_line(&mut case.input, text)?,
        "@" => push_line(&mut case.file, text)?,
        "%" => case.failing = Failing::from_name(text),
        "^" => case.is_whole = true,
        _ => return Ok(false),
    }
    Ok(true)
}

/// Adds the line to what is printed of its case, a long one cut.
fn tell_line(told: &mut String, line: &str) -> Result<(), AllocError> {
    match line.get(..100) {
        Some(beginning) => {
            told.push_str(beginning)?;
            told.push_str("..\n")
        }
        None => {
            told.push_str(line)?;
            told.push_str("\n")
        }
    }
}

/// Adds a line of a script, with what its escapes stand for, and its line feed unless it ends with `\e`.
fn push_line(bytes: &mut Vec<u8>, text: &str) -> Result<(), AllocError> {
    if let Some(text) = text.strip_suffix("\\e") {
        return push_text(bytes, text);
    }
    push_text(bytes, text)?;
    bytes.push(b'\n')?;
    Ok(())
}

/// Adds a text with what its escapes stand for.
fn push_text(bytes: &mut Vec<u8>, text: &str) -> Result<(), AllocError> {
    let mut is_escaped = false;
    for byte in text.as_bytes() {
        match (is_escaped, *byte) {
            (false, b'\\') => is_escaped = true,
            (true, escape) => {
                is_escaped = false;
                push_escape(bytes, escape)?;
            }
            (false, byte) => bytes.push(byte)?,
        }
    }
    Ok(())
}

/// Adds lines by which replica 0 makes messages in the inbox and at work, in turn.
fn push_messages(bytes: &mut Vec<u8>) -> Result<(), AllocError> {
    for _ in 0..MADE {
        bytes.extend_from_slice(
            b"create 0 inbox . 2026-01-05 ann\ncreate 0 work . 2026-01-05 ann\n",
        )?;
    }
    Ok(())
}

/// Adds what an escape stands for.
fn push_escape(bytes: &mut Vec<u8>, escape: u8) -> Result<(), AllocError> {
    match escape {
        b'r' => bytes.push(b'\r')?,
        b's' => bytes.push(b' ')?,
        b'x' => bytes.push(0xff)?,
        b'k' => bytes.extend_from_slice(&[b'k'; MANY])?,
        b'm' => bytes.extend_from_slice("\u{feff}".as_bytes())?,
        b'g' => push_messages(bytes)?,
        other => bytes.push(other)?,
    }
    Ok(())
}
