//! Lines that stand for many, and for much.
//!
//! `times N LINE` stands for the line N times. In the nth of them `{n}` is that number, from 1, `{n+100}` a hundred more, and
//! `{2n-1}` twice as much but one. There may be several lines, with ` / ` between two of them. `pad BYTES` stands for as many `#`
//! as make that many bytes of all that stands up to there. In an answer `{30 bytes}` stands for whatever digits spell so many bytes.
use anyhow::{Context, Result};
use std::alloc::Global;
use std::io::Write;
use std::str;

/// Stands in an expected answer where any digit may be. No text has this byte.
pub const ANY: u8 = 0xff;

/// The text in which such lines are written out. One that isn't UTF-8 has none.
pub fn written_out(alloc: Global, bytes: &[u8]) -> Result<Vec<u8>> {
    let Ok(text) = str::from_utf8(bytes) else {
        return Ok(bytes.to_vec(alloc)?);
    };
    let mut out = Vec::new(alloc);
    for line in text.split_inclusive('\n') {
        push_line(&mut out, line)?;
    }
    Ok(out)
}

/// Adds what a line stands for.
fn push_line(out: &mut Vec<u8>, line: &str) -> Result<()> {
    if let Some(rest) = line.strip_prefix("times ") {
        return push_times(out, rest.trim_end());
    }
    if let Some(count) = line.strip_prefix("pad ") {
        return Ok(out.resize(count.trim_end().parse()?, b'#')?);
    }
    push_numbered(out, line, 1)
}

/// Adds lines as often as the first word says.
fn push_times(out: &mut Vec<u8>, rest: &str) -> Result<()> {
    let (count, lines) = rest
        .split_once(' ')
        .context("nothing stands behind `times N`")?;
    for number in 0..count.parse::<u32>()? {
        push_round(out, lines, 1 + i64::from(number))?;
    }
    Ok(())
}

/// Adds each of the lines, at this number.
fn push_round(out: &mut Vec<u8>, lines: &str, number: i64) -> Result<()> {
    for line in lines.split(" / ") {
        push_numbered(out, line, number)?;
        out.push(b'\n')?;
    }
    Ok(())
}

/// Adds a line, with what its terms stand for at this number.
fn push_numbered(out: &mut Vec<u8>, line: &str, number: i64) -> Result<()> {
    for piece in line.split('{') {
        match piece.split_once('}') {
            Some((term, rest)) => {
                push_term(out, term, number)?;
                out.extend_from_slice(rest.as_bytes())?;
            }
            None => out.extend_from_slice(piece.as_bytes())?,
        }
    }
    Ok(())
}

/// Adds what a term stands for at this number.
fn push_term(out: &mut Vec<u8>, term: &str, number: i64) -> Result<()> {
    match term.strip_suffix(" bytes") {
        Some(count) => push_any(out, count.parse()?),
        None => {
            let value = value(term, number)?;
            Ok(write!(out, "{value}")?)
        }
    }
}

/// Adds places for the digits of so many bytes.
fn push_any(out: &mut Vec<u8>, count: u32) -> Result<()> {
    for _ in 0..count {
        out.extend_from_slice(&[ANY, ANY])?;
    }
    Ok(())
}

/// What a term is at this number.
fn value(term: &str, number: i64) -> Result<i64> {
    let (factor, more) = term
        .split_once('n')
        .context("a term is as `n`, `n+100`, `2n-1` or `30 bytes`")?;
    Ok(
        number
            .saturating_mul(parsed_or(factor, 1)?)
            .saturating_add(parsed_or(more, 0)?),
    )
}

/// The number of this text, or else this one where there is no text.
fn parsed_or(text: &str, default: i64) -> Result<i64> {
    if text.is_empty() {
        return Ok(default);
    }
    Ok(text.parse()?)
}
