//! Where the longer marks end.
ghost use Rattle.std.specs.Prelude.{◌≡◌, ◌≤◌, ◌<◌, IfOk, length, unwrap_or};
ghost use Rattle.mr_draw.specs.Ends.{IsWithin, is_of_stream, last_of_stream};

use crate::Grown;
use crate::happening::{Happening, Kind};
use crate::marks::MAX_ROWS;
use mr_version::{Author, Version};
use mr_world::{Act, Answered};
use std::alloc::Global;

/// The row of the last record of the stream that was taken; this row where there is none.
pub(crate) fn last_row_of_band(shown: &[Happening], row: u32, source: Author, stream: u64) -> u32
    requires { length shown.now ≤ MAX_ROWS }
    ensures { result ≡ unwrap_or (last_of_stream source stream 0 shown.now) row }
{
    let mut last = row;
    for (at, happening) in shown.iter().enumerate() {
        if is_of_stream(&happening.kind, source, stream) {
            last = at as u32;
        }
    }
    last
}

/// Whether it is a record of the stream that was taken.
fn is_of_stream(kind: &Kind, source: Author, stream: u64) -> bool
    ensures { result ≡ is_of_stream source stream kind.now }
{
    match kind {
        Kind::TakeItem(by, number, _) => *by == source && *number == stream,
        Kind::TakeMoveOut(by, number, _) => *by == source && *number == stream,
        Kind::TakeOther(by, number) => *by == source && *number == stream,
        _ => false,
    }
}

/// The first row below this one in which the push-out that was issued in it was let go of or superseded on its lane;
/// the last row where it waits to the end.
pub(crate) fn last_row_of_push_out(
    alloc: Global,
    answers: &[Answered],
    shown: &[Happening],
    row: u32,
    version: Version,
) -> Grown<u32>
    requires row { row < length shown.now }
    requires few { length shown.now ≤ MAX_ROWS }
    ensures { IfOk result (IsWithin shown.now row) }
{
    let mut line = vec![in alloc; version]?;
    let mut last = row;
    for (at, happening) in shown.iter().enumerate() {
        if at as u32 <= row {
            continue;
        }
        last = at as u32;
        if let Some(heir) = heir(answers, happening, line.as_slice()) {
            line.push(heir)?;
        }
        if happening.lane == version.author() && tells_of(happening, line.as_slice()) {
            break;
        }
    }
    Ok(last)
}

/// The version that was issued, if it replaces one of these.
fn heir(answers: &[Answered], happening: &Happening, line: &[Version]) -> Option<Version> {
    let Kind::Issue(version) = happening.kind else {
        return None;
    };
    match &answers.get(happening.place)?.event.act {
        Act::Edit(bases, _) if bases.as_slice().iter().any(|base| line.contains(base)) => {
            Some(version)
        }
        _ => None,
    }
}

/// Whether a version of these was issued or taken, or one of them is what a receipt is for by which push-outs went.
fn tells_of(happening: &Happening, line: &[Version]) -> bool {
    match happening.kind {
        Kind::Issue(version) => line.contains(&version),
        Kind::Release(version) => line.contains(&version),
        Kind::TakeItem(_, _, version) => line.contains(&version),
        Kind::TakeMoveOut(_, _, version) => line.contains(&version),
        _ => false,
    }
}
