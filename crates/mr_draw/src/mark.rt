//! Marks, and their text in an SVG.
ghost use Rattle.std.specs.Prelude.{◌≡◌, ◌++◌, ◌<◌, ◌≤◌, ◌^◌, ◌==◌, IfSome, OnOk, length, position, string_bytes};
ghost use Rattle.std.specs.List.{flat_map};
ghost use Rattle.mr_draw.specs.Look.{plain_look};
ghost use Rattle.mr_draw.specs.Mark.{class_of, column_of, contested_class, drawn_text, head_of, label_at, label_down_of, label_right_of, line_text, mark_text, opening_text, path_text, pen_of, push_out_class, ring_of, shape_text, x_at, x_of, y_of};

use crate::Grown;
use crate::escape::push_escaped;
use mr_version::Author;
use std::marker::Model;

/// How far the first lane is from the left edge.
const LEFT: u64 = 60;

/// How many lanes are far apart, so that their filters are written above them.
pub(crate) const FEW_LANES: u64 = 12;

/// How many lanes are less far apart; more of them are close.
const MANY_LANES: u64 = 24;

/// How far a lane is from the one before it, where there are few.
const GAP: u64 = 130;

/// How far it is where there are many.
const LESS_GAP: u64 = 60;

/// How far it is where there are more.
const LEAST_GAP: u64 = 24;

/// How far the first row is from the upper edge.
const TOP: u64 = 66;

/// How far a row is from the one before it.
const ROW: u64 = 16;

/// What a mark looks like, but for its lanes and rows.
#[derive(Clone, Copy)]
pub(crate) enum Shape {
    /// A lane, as long as its replica admits events.
    Lane,
    /// A lane after its replica retired.
    Thin,
    /// What a sync took, between the two lanes.
    Band,
    /// A version.
    Version,
    /// A version that merges others.
    Merge,
    /// An item that was taken.
    Item,
    /// A move-out that was taken.
    MoveOut,
    /// Another record that was taken.
    Record,
    /// A session or a stream that was closed before its end.
    Cut,
    /// A retirement.
    Retire,
    /// A receipt that was given.
    Vouch,
    /// Push-outs that were let go of.
    Release,
}

/// How a mark looks.
#[derive(Clone, Copy)]
pub(crate) struct Look {
    /// What is drawn.
    pub(crate) shape: Shape,
    /// Whether it is of a version that was a head beside another of its item.
    pub(crate) is_contested: bool,
    /// Whether it is of a version that its author's filter doesn't select.
    pub(crate) is_push_out: bool,
}

/// A mark of a picture: a shape between two places, with a label and a title. Places are on a lane and in a row, which
/// are numbered from 0 downwards.
#[derive(Drop)]
pub(crate) struct Mark {
    /// On whose lane it is.
    pub(crate) lane: Author,
    /// In which row.
    pub(crate) row: u32,
    /// From or to whose lane it goes: `lane` for most.
    pub(crate) other_lane: Author,
    /// To which row it goes: `row` for most.
    pub(crate) last_row: u32,
    /// How it looks.
    pub(crate) look: Look,
    /// What is written at it.
    pub(crate) label: String,
    /// What it tells on pointing.
    pub(crate) title: String,
}

impl Model for Mark {
    ghost use Rattle.std.specs.Prelude.{string_bytes};
    ghost use Rattle.mr_draw.specs.MarkView.{MarkView};

    ghost Value = { MarkView };

    ghost view = { λ m. record { lane = m.lane; row = m.row; other_lane = m.other_lane; last_row = m.last_row; look = m.look; label = string_bytes m.label; title = string_bytes m.title } };
}

impl Look {
    /// The shape with no ring, and not hollow.
    pub(crate) fn plain(shape: Shape) -> Look
        ensures { result ≡ plain_look shape }
    {
        Look {
            shape,
            is_contested: false,
            is_push_out: false,
        }
    }
}

impl Shape {
    /// The name by which the style of a picture knows it.
    fn class(self) -> &'static str
        ensures { result.now ≡ class_of self }
    {
        match self {
            Shape::Lane => "lane",
            Shape::Thin => "thin",
            Shape::Band => "band",
            Shape::Version => "version",
            Shape::Merge => "version merge",
            Shape::Item => "item",
            Shape::MoveOut => "moveout",
            Shape::Record => "record",
            Shape::Cut => "cut",
            Shape::Retire => "retire",
            Shape::Vouch => "vouch",
            Shape::Release => "release",
        }
    }

    /// What is drawn at its first place, at which the pen is in the end too where a ring may follow. An arrow's head points
    /// away from where it comes.
    fn pen(self, is_from_right: bool) -> &'static str
        ensures { result.now ≡ pen_of self is_from_right }
    {
        match self {
            Shape::Lane => "",
            Shape::Thin => "",
            Shape::Band => "",
            Shape::Version => "m-6 0a6 6 0 1 0 12 0a6 6 0 1 0 -12 0zm6 0",
            Shape::Merge => "m0 -8l8 8l-8 8l-8 -8zm0 8",
            Shape::Item => head(is_from_right),
            Shape::MoveOut => head(is_from_right),
            Shape::Record => head(is_from_right),
            Shape::Cut => "m-9 3l6 -8l6 10l6 -8",
            Shape::Retire => "m-10 0h20",
            Shape::Vouch => "m-5 -5h10v10h-10z",
            Shape::Release => "m-5 -5l10 10m0 -10l-10 10",
        }
    }

    /// How far its label is to the right of its middle.
    fn label_right(self) -> u64
        ensures result_is { result ≡ label_right_of self }
        ensures small { result < 256 }
    {
        match self {
            Shape::Band => 0,
            Shape::Item => 0,
            Shape::MoveOut => 0,
            Shape::Record => 0,
            _ => 14,
        }
    }

    /// How far its label is below its line: an arrow's stands on it.
    fn label_down(self) -> u64
        ensures result_is { result ≡ label_down_of self }
        ensures small { result < 256 }
    {
        match self {
            Shape::Item => 0,
            Shape::MoveOut => 0,
            Shape::Band => 12,
            _ => 4,
        }
    }
}

/// The head of an arrow, at which it ends.
fn head(is_from_right: bool) -> &'static str
    ensures { result.now ≡ head_of is_from_right }
{
    if is_from_right {
        "m9 -3l-7 3l7 3"
    } else {
        "m-9 -3l7 3l-7 3"
    }
}

/// The column of the lane, from 0: its place among the lanes.
pub(crate) fn column_of(lanes: &[Author], lane: Author) -> u64
    requires { length lanes.now ≤ 64 }
    ensures column { result ≡ column_of lanes.now lane }
    ensures few { result < 64 }
{
    match place_of(lanes, lane) {
        Some(place) => place as u64,
        None => 0,
    }
}

/// The place of the lane among the lanes.
fn place_of(lanes: &[Author], lane: Author) -> Option<usize>
    ensures place { result ≡ position (λ other. other == lane) lanes.now }
    ensures within { IfSome result (λ place. place < length lanes.now) }
{
    lanes.iter().position(|other| *other == lane)
}

/// Adds the mark.
pub(crate) fn push_mark(svg: &mut String, lanes: &[Author], mark: &Mark) -> Grown<()>
    requires { length lanes.now ≤ 64 }
    ensures { OnOk result (string_bytes svg.new ≡ string_bytes svg.old ++ mark_text lanes.now mark.now) }
{
    push_opening(svg, mark.look)?;
    push_escaped(svg, mark.title.as_str())?;
    push_path(svg, lanes, mark)?;
    push_escaped(svg, mark.label.as_str())?;
    svg.push_str("</text></g>\n")
}

/// Adds the beginning of a mark that looks so, up to its title.
fn push_opening(svg: &mut String, look: Look) -> Grown<()>
    ensures { OnOk result (string_bytes svg.new ≡ string_bytes svg.old ++ opening_text look) }
{
    let class = look.shape.class();
    let contested = contested_class(look.is_contested);
    let push_out = push_out_class(look.is_push_out);
    write!(svg, "<g class='{class}{contested}{push_out}'><title>")
}

/// The name of what was contested.
fn contested_class(is_contested: bool) -> &'static str
    ensures { result.now ≡ contested_class is_contested }
{
    if is_contested { " contested" } else { "" }
}

/// The name of what is a push-out.
fn push_out_class(is_push_out: bool) -> &'static str
    ensures { result.now ≡ push_out_class is_push_out }
{
    if is_push_out { " pushout" } else { "" }
}

/// The ring round what was contested.
fn ring(is_contested: bool) -> &'static str
    ensures { result.now ≡ ring_of is_contested }
{
    if is_contested {
        "m-10 0a10 10 0 1 0 20 0a10 10 0 1 0 -20 0z"
    } else {
        ""
    }
}

/// Adds what follows a mark's title, up to its label.
fn push_path(svg: &mut String, lanes: &[Author], mark: &Mark) -> Grown<()>
    requires { length lanes.now ≤ 64 }
    ensures { OnOk result (string_bytes svg.new ≡ string_bytes svg.old ++ path_text lanes.now mark.now) }
{
    let (x, y) = (x_of(lanes, mark.lane), y_of(mark.row));
    let (other_x, last_y) = (x_of(lanes, mark.other_lane), y_of(mark.last_row));
    push_shape(svg, x, y, other_x, last_y, mark.look)
}

/// Adds what looks so between two places, and where its label stands.
fn push_shape(svg: &mut String, x: u64, y: u64, other_x: u64, last_y: u64, look: Look) -> Grown<()>
    requires x { x < 65536 }
    requires y { y < 2 ^ 37 }
    requires other { other_x < 65536 }
    ensures { OnOk result (string_bytes svg.new ≡ string_bytes svg.old ++ shape_text x y other_x last_y look) }
{
    let label_x = (x + other_x) / 2 + look.shape.label_right();
    let label_y = y + look.shape.label_down();
    push_line(svg, x, y, other_x, last_y)?;
    push_pen(svg, look, x < other_x)?;
    push_label_place(svg, label_x, label_y)?;
    Ok(())
}

/// Adds what is drawn at a mark's first place.
fn push_pen(svg: &mut String, look: Look, is_from_right: bool) -> Grown<()>
    ensures { OnOk result (string_bytes svg.new ≡ string_bytes svg.old ++ drawn_text look is_from_right) }
{
    svg.push_str(look.shape.pen(is_from_right))?;
    svg.push_str(ring(look.is_contested))
}

/// Adds the end of a path, and where the label stands.
fn push_label_place(svg: &mut String, x: u64, y: u64) -> Grown<()>
    ensures { OnOk result (string_bytes svg.new ≡ string_bytes svg.old ++ label_at x y) }
{
    write!(svg, "'/><text x='{x}' y='{y}'>")
}

/// Adds the beginning of a path: a line or a rectangle between two places, at the first of which the pen is then.
fn push_line(svg: &mut String, x: u64, y: u64, other_x: u64, last_y: u64) -> Grown<()>
    ensures { OnOk result (string_bytes svg.new ≡ string_bytes svg.old ++ line_text x y other_x last_y) }
{
    write!(svg, "</title><path d='M{x} {y}H{other_x}V{last_y}H{x}z")
}

/// How far a lane is from the left edge.
pub(crate) fn x_of(lanes: &[Author], lane: Author) -> u64
    requires { length lanes.now ≤ 64 }
    ensures is { result ≡ x_of lanes.now lane }
    ensures small { result < 65536 }
{
    x_at(lanes.len() as u64, column_of(lanes, lane))
}

/// How far the lane in this column is from the left edge, where there are so many lanes.
pub(crate) fn x_at(lanes: u64, column: u64) -> u64
    requires { column < 64 }
    ensures is { result ≡ x_at lanes column }
    ensures small { result < 65536 }
{
    if lanes <= FEW_LANES {
        LEFT + GAP * column
    } else if lanes <= MANY_LANES {
        LEFT + LESS_GAP * column
    } else {
        LEFT + LEAST_GAP * column
    }
}

/// How far a row is from the upper edge.
pub(crate) fn y_of(row: u32) -> u64
    ensures is { result ≡ y_of row }
    ensures small { result < 2 ^ 37 }
{
    TOP + ROW * row as u64
}

/// Adds the marks in their order.
pub(crate) fn push_marks(svg: &mut String, lanes: &[Author], marks: &[Mark]) -> Grown<()>
    requires { length lanes.now ≤ 64 }
    ensures { OnOk result (string_bytes svg.new ≡ string_bytes svg.old ++ flat_map (mark_text lanes.now) marks.now) }
{
    for mark in marks {
        push_mark(svg, lanes, mark)?;
    }
    Ok(())
}
