//! The text of a picture.
ghost use Rattle.std.specs.Prelude.{◌≡◌, ◌++◌, ◌≤◌, ◌<◌, IfOk, OnOk, length, string_bytes};
ghost use Rattle.std.specs.List.{flat_map};
ghost use Rattle.mr_draw.specs.Sheet.{blank_text, fault_at, fault_text, foot_text, heading_text, left_out_text, legend_at, legend_text, name_y, named_text, opening_of, parts_text, sheet_text, size_text, title_text, width_of};

use crate::Grown;
use crate::escape::push_escaped;
use crate::mark::{FEW_LANES, Mark, column_of, push_marks, x_at, x_of, y_of};
use mr_version::Author;
use std::alloc::{AllocError, Global};
use std::marker::Model;

/// What is right of the last lane.
const RIGHT: u64 = 140;

/// What is below the last row.
const FOOT: u64 = 150;

/// The least width, which the words below the picture take.
const LEAST_WIDTH: u64 = 360;

/// How a picture looks, by light and in the dark. What a colour says, a shape says too.
const STYLE: &str = "<style>
svg{--paper:#fff;--ink:#1f2933;--faint:#8a94a0;--blue:#2b6cb0;--green:#22754c;--violet:#6b46c1;--orange:#b7500c;background:var(--paper);max-width:100%;height:auto;font:12px sans-serif}
@media (prefers-color-scheme:dark){svg{--paper:#14181d;--ink:#e4e8ec;--faint:#7c8793;--blue:#7db4ec;--green:#6fcf97;--violet:#bfa5ff;--orange:#ffa857}}
text{fill:var(--ink);stroke:var(--paper);stroke-width:3px;paint-order:stroke;stroke-linejoin:round}
path{fill:none;stroke:var(--ink)}
.name text{text-anchor:middle;font-weight:bold}
.name .filter{font-weight:normal;font-size:11px;opacity:.75}
.lane path{stroke:var(--faint);stroke-width:4}
.thin path{stroke:var(--faint);stroke-width:1}
.band path{stroke:none;fill:var(--blue);fill-opacity:.14}
.band text,.item text,.moveout text{text-anchor:middle;font-size:11px}
.item text,.moveout text{transform:translateY(-3px)}
.record path{stroke:var(--faint);stroke-width:.75}
.item path{stroke:var(--blue);stroke-width:1.25}
.moveout path{stroke:var(--orange);stroke-width:1.25}
.version path{stroke:var(--green);fill:var(--green)}
.version text{font-weight:bold}
.merge path{stroke:var(--violet);fill:var(--violet)}
.contested path{stroke:var(--orange);fill:var(--orange);fill-opacity:.3;stroke-width:1.5}
.pushout path{fill:var(--paper);stroke-width:2;stroke-dasharray:3 2}
.cut path,.retire path{stroke-width:2.5}
.vouch path,.release path{stroke-width:1.5;fill:var(--paper)}
.note{font-size:11px}
.fault{fill:var(--orange);font-weight:bold}
</style>
";

/// What the shapes mean.
const LEGEND: &str =
    "<g class='version'><path d='M0 -4a6 6 0 1 0 12 0a6 6 0 1 0 -12 0z'/></g><text x='20'>a version</text>
<g class='version pushout'><path d='M0 14a6 6 0 1 0 12 0a6 6 0 1 0 -12 0z'/></g><text x='20' y='18'>a push-out that waits</text>
<g class='version merge'><path d='M6 24l8 8l-8 8l-8 -8z'/></g><text x='20' y='36'>a version that merges</text>
<g class='version contested'><path d='M0 50a6 6 0 1 0 12 0a6 6 0 1 0 -12 0zM-4 50a10 10 0 1 0 20 0a10 10 0 1 0 -20 0z'/></g><text x='20' y='54'>one of several heads</text>
<g class='vouch'><path d='M1 63h10v10h-10z'/></g><text x='20' y='72'>a receipt</text>
<g class='release'><path d='M1 81l10 10m0 -10l-10 10'/></g><text x='20' y='90'>push-outs are let go of</text>
<g class='band'><path d='M166 -10h20v12h-20z'/></g><text x='194'>a sync</text>
<g class='item'><path d='M166 14h20l-7 -3m7 3l-7 3'/></g><text x='194' y='18'>+ a message comes</text>
<g class='moveout'><path d='M166 32h20l-7 -3m7 3l-7 3'/></g><text x='194' y='36'>- it left the filter</text>
<g class='record'><path d='M166 50h20l-7 -3m7 3l-7 3'/></g><text x='194' y='54'>what is held or known</text>
<g class='cut'><path d='M167 71l6 -8l6 10l6 -8'/></g><text x='194' y='72'>a sync was cut</text>
<g class='retire'><path d='M166 86h20'/></g><text x='194' y='90'>a replica retired</text>
";

/// The name of a lane.
#[derive(Drop)]
pub(crate) struct Heading {
    pub(crate) lane: Author,
    /// What the lane is called, a long name cut.
    pub(crate) caption: String,
    /// The replica's filter, a long one cut; nothing where there are many lanes.
    pub(crate) label: String,
    /// What the lane is called.
    pub(crate) name: String,
    /// The replica's filter.
    pub(crate) filter_text: String,
}

impl Model for Heading {
    ghost use Rattle.std.specs.Prelude.{string_bytes};
    ghost use Rattle.mr_draw.specs.HeadingView.{HeadingView};

    ghost Value = { HeadingView };

    ghost view = { λ h. record { lane = h.lane; caption = string_bytes h.caption; label = string_bytes h.label; name = string_bytes h.name; filter_text = string_bytes h.filter_text } };
}

/// What a picture says.
#[derive(Drop)]
pub(crate) struct Sheet {
    /// The lanes in their order.
    pub(crate) lanes: Vec<Author>,
    pub(crate) headings: Vec<Heading>,
    /// The lanes themselves.
    pub(crate) lines: Vec<Mark>,
    pub(crate) marks: Vec<Mark>,
    /// How many happenings have no mark.
    pub(crate) left_out: u64,
}

impl Model for Sheet {
    ghost use Rattle.mr_draw.specs.SheetView.{SheetView};

    ghost Value = { SheetView };

    ghost view = { λ s. record { lanes = s.lanes.items; headings = s.headings.items; lines = s.lines.items; marks = s.marks.items; left_out = s.left_out } };
}

/// The text of a picture, with the text of a fault under it, if that is not empty.
pub(crate) fn text_of(alloc: Global, sheet: &Sheet, fault: &str) -> Grown<String>
    requires lanes { length sheet.now.lanes ≤ 64 }
    requires marks { length sheet.now.marks ≤ 400 }
    ensures { IfOk result (λ svg. string_bytes svg ≡ sheet_text sheet.now fault.now) }
{
    let mut svg = String::new(alloc);
    let (lanes, headings) = (sheet.lanes.as_slice(), sheet.headings.as_slice());
    let (lines, marks) = (sheet.lines.as_slice(), sheet.marks.as_slice());
    push_parts(
        &mut svg,
        lanes,
        headings,
        lines,
        marks,
        sheet.left_out,
        fault,
    )?;
    Ok(svg)
}

/// A picture of no replica, with the text of a fault under it, if that is not empty.
pub fn draw_nothing(alloc: Global, fault: &str) -> Result<String, AllocError>
    ensures { IfOk result (λ svg. string_bytes svg ≡ blank_text fault.now) }
{
    let mut svg = String::new(alloc);
    push_parts(&mut svg, &[], &[], &[], &[], 0, fault)?;
    Ok(svg)
}

/// Adds all parts of a picture.
fn push_parts(
    svg: &mut String,
    lanes: &[Author],
    headings: &[Heading],
    lines: &[Mark],
    marks: &[Mark],
    left_out: u64,
    fault: &str,
) -> Grown<()>
    requires lanes { length lanes.now ≤ 64 }
    requires marks { length marks.now ≤ 400 }
    ensures { OnOk result (string_bytes svg.new ≡ string_bytes svg.old ++ parts_text lanes.now headings.now lines.now marks.now left_out fault.now) }
{
    let rows = marks.len() as u32;
    push_opening(svg, lanes.len() as u64, rows)?;
    push_headings(svg, lanes, headings)?;
    push_marks(svg, lanes, lines)?;
    push_marks(svg, lanes, marks)?;
    push_foot(svg, rows, left_out, fault)
}

/// Adds the beginning of a picture with so many lanes and rows.
fn push_opening(svg: &mut String, lanes: u64, rows: u32) -> Grown<()>
    requires { lanes ≤ 64 }
    ensures { OnOk result (string_bytes svg.new ≡ string_bytes svg.old ++ opening_of lanes rows) }
{
    let (width, height) = (width_of(lanes), y_of(rows) + FOOT);
    push_size(svg, width, height)?;
    svg.push_str(STYLE)
}

/// Adds the first tag of a picture of this size.
fn push_size(svg: &mut String, width: u64, height: u64) -> Grown<()>
    ensures { OnOk result (string_bytes svg.new ≡ string_bytes svg.old ++ size_text width height) }
{
    write!(
        svg,
        "<svg xmlns='http://www.w3.org/2000/svg' width='{width}' height='{height}' viewBox='0 0 {width} {height}'>\n"
    )
}

/// How wide a picture of so many lanes is.
fn width_of(lanes: u64) -> u64
    requires { lanes ≤ 64 }
    ensures { result ≡ width_of lanes }
{
    let width = x_at(lanes, lanes.saturating_sub(1)) + RIGHT;
    if width < LEAST_WIDTH {
        LEAST_WIDTH
    } else {
        width
    }
}

/// Adds the lanes' names.
fn push_headings(svg: &mut String, lanes: &[Author], headings: &[Heading]) -> Grown<()>
    requires { length lanes.now ≤ 64 }
    ensures { OnOk result (string_bytes svg.new ≡ string_bytes svg.old ++ flat_map (heading_text lanes.now) headings.now) }
{
    for heading in headings {
        push_heading(svg, lanes, heading)?;
    }
    Ok(())
}

/// Adds a lane's name.
fn push_heading(svg: &mut String, lanes: &[Author], heading: &Heading) -> Grown<()>
    requires { length lanes.now ≤ 64 }
    ensures { OnOk result (string_bytes svg.new ≡ string_bytes svg.old ++ heading_text lanes.now heading.now) }
{
    let x = x_of(lanes, heading.lane);
    let y = name_y(lanes.len() as u64, column_of(lanes, heading.lane));
    push_title(svg, heading.name.as_str(), heading.filter_text.as_str())?;
    push_named(svg, x, y, heading.caption.as_str(), heading.label.as_str())?;
    Ok(())
}

/// How far a name is from the upper edge that stands above the lane in this column, where there are so many lanes.
fn name_y(lanes: u64, column: u64) -> u64
    ensures { result ≡ name_y lanes column }
{
    if lanes <= FEW_LANES {
        22
    } else {
        18 + 16 * (column % 3)
    }
}

/// Adds a name and a filter, as they are written so far from the left edge and from the upper one.
fn push_named(svg: &mut String, x: u64, y: u64, caption: &str, label: &str) -> Grown<()>
    ensures { OnOk result (string_bytes svg.new ≡ string_bytes svg.old ++ named_text x y caption.now label.now) }
{
    write!(svg, "</title><text x='{x}' y='{y}'>")?;
    push_escaped(svg, caption)?;
    write!(svg, "</text><text class='filter' x='{x}' y='40'>")?;
    push_escaped(svg, label)?;
    svg.push_str("</text></g>\n")
}

/// Adds what pointing at a lane's name tells: all of it, and the whole filter.
fn push_title(svg: &mut String, name: &str, filter: &str) -> Grown<()>
    ensures { OnOk result (string_bytes svg.new ≡ string_bytes svg.old ++ title_text name.now filter.now) }
{
    svg.push_str("<g class='name'><title>")?;
    push_escaped(svg, name)?;
    svg.push_str(": ")?;
    push_escaped(svg, filter)?;
    Ok(())
}

/// Adds what stands below the last row, and the end.
fn push_foot(svg: &mut String, rows: u32, left_out: u64, fault: &str) -> Grown<()>
    ensures { OnOk result (string_bytes svg.new ≡ string_bytes svg.old ++ foot_text rows left_out fault.now) }
{
    let y = y_of(rows);
    push_left_out(svg, y, left_out)?;
    push_fault(svg, y + 18, fault)?;
    push_legend(svg, y + 46)
}

/// Adds how many happenings have no mark, where some have none.
fn push_left_out(svg: &mut String, y: u64, left_out: u64) -> Grown<()>
    ensures { OnOk result (string_bytes svg.new ≡ string_bytes svg.old ++ left_out_text y left_out) }
{
    if left_out == 0 {
        return Ok(());
    }
    write!(
        svg,
        "<text class='note' x='12' y='{y}'>{left_out} later events are left out</text>\n"
    )
}

/// Adds the text of a fault, if there is one.
fn push_fault(svg: &mut String, y: u64, fault: &str) -> Grown<()>
    ensures { OnOk result (string_bytes svg.new ≡ string_bytes svg.old ++ fault_text y fault.now) }
{
    if fault.is_empty() {
        return Ok(());
    }
    push_fault_place(svg, y)?;
    push_escaped(svg, fault)?;
    svg.push_str("</text>\n")
}

/// Adds what stands before the text of a fault.
fn push_fault_place(svg: &mut String, y: u64) -> Grown<()>
    ensures { OnOk result (string_bytes svg.new ≡ string_bytes svg.old ++ fault_at y) }
{
    write!(svg, "<text class='fault' x='12' y='{y}'>")
}

/// Adds what the shapes mean, and the end.
fn push_legend(svg: &mut String, y: u64) -> Grown<()>
    ensures { OnOk result (string_bytes svg.new ≡ string_bytes svg.old ++ legend_text y) }
{
    push_legend_place(svg, y)?;
    svg.push_str(LEGEND)?;
    svg.push_str("</g>\n</svg>\n")
}

/// Adds what stands before the legend.
fn push_legend_place(svg: &mut String, y: u64) -> Grown<()>
    ensures { OnOk result (string_bytes svg.new ≡ string_bytes svg.old ++ legend_at y) }
{
    write!(svg, "<g class='note' transform='translate(12 {y})'>\n")
}
