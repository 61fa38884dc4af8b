//! A tap by itself: its spout and its tap, in one thread.
ghost use Rattle.std.specs.Prelude.{◌≡◌};

use crate::inbox::{finished_line, sent_line};
use crate::words::{fault_line, next_word, read_char, read_count};
use anyhow::{Result, bail};
use mr_lane::{Drawn, Spout, Tap, tap, tap_settle};
use std::alloc::{AllocError, Global};
use std::str::SplitWhitespace;
use std::sync::Wait;

/// The two ends of one tap, whose items are characters.
#[derive(Drop)]
pub struct TapEnds<R> {
    spout: Spout<char, R>,
    tap: Tap<char, R>,
    ghost of_one: { spout.id ≡ tap.id },
}

/// `tap N`: a new tap with so many places.
pub fn open<R: Wait + Copy>(
    rt: &R,
    alloc: Global,
    place: &mut Option<TapEnds<R>>,
    line: &str,
) -> Result<String> {
    match tap(*rt, alloc, read_count(line)?) {
        Ok((spout, tap)) => {
            *place = Some(TapEnds { spout, tap });
            Ok(String::new(alloc))
        }
        Err(fault) => fault_line(alloc, fault.number(), &fault),
    }
}

/// `by spout offers C`, `by spout closes` and `by tap takes`.
pub fn by<R: Wait>(
    alloc: Global,
    ends: &mut TapEnds<R>,
    who: &str,
    mut words: SplitWhitespace<'_>,
) -> Result<String> {
    match (who, next_word(&mut words)?) {
        ("spout", "offers") => {
            let item = read_char(next_word(&mut words)?)?;
            Ok(sent_line(alloc, &ends.spout.offer(item))?)
        }
        ("spout", "closes") => Ok(finished_line(alloc, &ends.spout.close())?),
        ("tap", "takes") => Ok(drawn(alloc, ends.tap.take())?),
        _ => bail!("no end of a tap does that"),
    }
}

/// The answer to a take of a tap.
fn drawn(alloc: Global, drawn: Drawn<char>) -> Result<String, AllocError> {
    match drawn {
        Drawn::Item(item) => format!(in alloc; "{item}\n"),
        Drawn::Empty => String::from_str(alloc, "empty\n"),
        Drawn::Closed => String::from_str(alloc, "closed\n"),
    }
}

/// `settle tap`: whether the end mark was taken, which uses the tap up.
pub fn settle<R: Wait + Copy>(alloc: Global, place: &mut Option<TapEnds<R>>) -> Result<String> {
    let Some(TapEnds { spout, tap }) = place.take() else {
        bail!("no tap");
    };
    let is_closed = tap_settle(spout, tap);
    let told = if is_closed {
        "settled\n"
    } else {
        "not closed\n"
    };
    Ok(String::from_str(alloc, told)?)
}
