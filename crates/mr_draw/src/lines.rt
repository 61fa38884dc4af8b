//! The lines of the lanes.
ghost use Rattle.std.specs.Prelude.{◌≡◌, ◌++◌, ◌≤◌, ◌<◌, IfOk, IfSome, OnOk, length, position};
ghost use Rattle.std.specs.List.{flat_map};
ghost use Rattle.mr_draw.specs.Lines.{end_of, is_retirement, line_at, lines_of, retires};

use crate::Grown;
use crate::happening::{Happening, Kind};
use crate::mark::{Look, Mark, Shape};
use crate::marks::MAX_ROWS;
use mr_version::Author;
use std::alloc::Global;

/// The lanes themselves: each thick as far as its replica admits events, and then thin.
pub(crate) fn lines(alloc: Global, lanes: &[Author], shown: &[Happening]) -> Grown<Vec<Mark>>
    requires { length shown.now ≤ MAX_ROWS }
    ensures { IfOk result (λ lines. lines.items ≡ flat_map (lines_of shown.now) lanes.now) }
{
    let mut lines = Vec::with_capacity(alloc, lanes.len())?;
    for lane in lanes {
        push_lines(alloc, &mut lines, shown, *lane)?;
    }
    Ok(lines)
}

/// Adds the two lines of a lane.
fn push_lines(alloc: Global, lines: &mut Vec<Mark>, shown: &[Happening], lane: Author) -> Grown<()>
    requires { length shown.now ≤ MAX_ROWS }
    ensures { OnOk result (lines.new.items ≡ lines.old.items ++ lines_of shown.now lane) }
{
    let (end, last) = (end_of(shown, lane), shown.len() as u32);
    let thick = line(alloc, lane, Shape::Lane, 0, end)?;
    let thin = line(alloc, lane, Shape::Thin, end, last)?;
    lines.push(thick)?;
    lines.push(thin)?;
    Ok(())
}

/// A line along a lane.
fn line(alloc: Global, lane: Author, shape: Shape, row: u32, last_row: u32) -> Grown<Mark>
    ensures { IfOk result (λ line. line ≡ line_at lane shape row last_row) }
{
    Ok(Mark {
        lane,
        row,
        other_lane: lane,
        last_row,
        look: Look::plain(shape),
        label: String::new(alloc),
        title: format!(in alloc; "replica {lane}")?,
    })
}

/// The row in which the lane's replica retires, or the one below all that is shown.
fn end_of(shown: &[Happening], lane: Author) -> u32
    requires { length shown.now ≤ MAX_ROWS }
    ensures { result ≡ end_of shown.now lane }
{
    match row_of_retirement(shown, lane) {
        Some(row) => row as u32,
        None => shown.len() as u32,
    }
}

/// The row in which the lane's replica retires.
fn row_of_retirement(shown: &[Happening], lane: Author) -> Option<usize>
    ensures row { result ≡ position (retires lane) shown.now }
    ensures within { IfSome result (λ row. row < length shown.now) }
{
    shown.iter().position(|happening| retires(happening, lane))
}

/// Whether the lane's replica retires.
fn retires(happening: &Happening, lane: Author) -> bool
    ensures { result ≡ retires lane happening.now }
{
    happening.lane == lane && is_retirement(&happening.kind)
}

fn is_retirement(kind: &Kind) -> bool
    ensures { result ≡ is_retirement kind.now }
{
    matches!(kind, Kind::Retire)
}
