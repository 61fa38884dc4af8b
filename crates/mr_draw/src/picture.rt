//! The picture of a world.
ghost use Rattle.std.specs.Prelude.{◌≡◌, ◌<◌, ◌≤◌, ◌-◌, All, IfOk, length, map, slice_get, string_bytes, take};
ghost use Rattle.std.specs.List.{flat_map};
ghost use Rattle.std.specs.Option.{option_map};
ghost use Rattle.mr_draw.specs.Lanes.{lane_at, lanes_in};
ghost use Rattle.mr_draw.specs.Lines.{lines_of};
ghost use Rattle.mr_draw.specs.Sign.{AreMarksOf};
ghost use Rattle.mr_draw.specs.Picture.{Draws, HasFilter, IsFilterOf, IsWritten, beginning_of, label_among, name_of, named_at, named_by, named_from, shortened};

use crate::Grown;
use crate::contested::contested;
use crate::happening::{Happening, happenings};
use crate::lines::lines;
use crate::mark::FEW_LANES;
use crate::marks::{MAX_ROWS, Scene, marks};
use crate::sheet::{Heading, Sheet, text_of};
use mr_forms::Knowledge;
use mr_version::{AUTHORS, Author};
use mr_world::World;
use std::alloc::{AllocError, Global};

/// How many characters of a name or a filter are written above a lane.
const MOST_WRITTEN: usize = 18;

/// A picture of all that happened in the world, as an SVG, with the text of a fault under it, if that is not empty.
///
/// Time goes downwards, and each replica has a lane, from left to right by their ids. Above the lanes stand these names, in
/// their order, each with the replica's id; a lane for which none is left is called by its id alone. Under a name stands the
/// replica's filter, which is cut where it is long and left out where there are more than 12 lanes, and which is told whole on
/// pointing. Each event that is shown has a row of its own, of which there are at most 400: the first ones, and the picture
/// says how many are left out. Of more lanes each is closer to the next, so that 64 take 1,712 pixels.
///
/// It costs a walk over the answers for each row, and for each replica its heads times its items that have several.
pub fn draw<K: Knowledge>(
    alloc: Global,
    world: &World<K>,
    names: &[&str],
    fault: &str,
) -> Result<String, AllocError>
    ensures { IfOk result (λ svg. Draws world.now (map (λ name. name.now) names.now) fault.now (string_bytes svg)) }
{
    let lanes = lanes(alloc, world)?;
    let happenings = happenings(alloc, world.answers())?;
    let contested = contested(alloc, world)?;
    let scene = Scene {
        alloc,
        world,
        happenings: happenings.as_slice(),
        contested: contested.as_slice(),
    };
    let sheet = sheet(&scene, names, lanes)?;
    text_of(alloc, &sheet, fault)
}

/// What the picture says.
fn sheet<K: Knowledge>(scene: &Scene<K>, names: &[&str], lanes: Vec<Author>) -> Grown<Sheet>
    ensures lanes { IfOk result (λ sheet. sheet.lanes ≡ lanes.items) }
    ensures named { IfOk result (λ sheet. map named_by sheet.headings ≡ named_from (map (λ name. name.now) names.now) 0 lanes.items) }
    ensures filters { IfOk result (λ sheet. All (HasFilter scene.now.world.now) sheet.headings) }
    ensures written { IfOk result (λ sheet. All (IsWritten (length lanes.items)) sheet.headings) }
    ensures lines { IfOk result (λ sheet. sheet.lines ≡ flat_map (lines_of (take MAX_ROWS scene.now.happenings.now)) lanes.items) }
    ensures shown { IfOk result (λ sheet. AreMarksOf scene.now.world.now scene.now.happenings.now (take MAX_ROWS scene.now.happenings.now) scene.now.contested.now 0 (take MAX_ROWS scene.now.happenings.now) sheet.marks) }
    ensures left_out { IfOk result (λ sheet. sheet.left_out ≡ length scene.now.happenings.now - MAX_ROWS) }
{
    let shown = first(scene.happenings);
    Ok(Sheet {
        headings: headings(scene, names, lanes.as_slice())?,
        lines: lines(scene.alloc, lanes.as_slice(), shown)?,
        marks: marks(scene, shown)?,
        left_out: (scene.happenings.len() - shown.len()) as u64,
        lanes,
    })
}

/// The first happenings, which have a row.
fn first(happenings: &[Happening]) -> &[Happening]
    ensures first { result.now ≡ take MAX_ROWS happenings.now }
    ensures few { length result.now ≤ MAX_ROWS }
    ensures left { length happenings.now - length result.now ≡ length happenings.now - MAX_ROWS }
    ensures fewer { length result.now ≤ length happenings.now }
{
    if happenings.len() > MAX_ROWS {
        let (first, _) = happenings.split_at(MAX_ROWS);
        first
    } else {
        happenings
    }
}

/// The lanes: the ids of the world's replicas, in rising order.
fn lanes<K: Knowledge>(alloc: Global, world: &World<K>) -> Grown<Vec<Author>>
    ensures all { IfOk result (λ lanes. lanes.items ≡ lanes_in world.now) }
    ensures few { IfOk result (λ lanes. length lanes.items ≤ 64) }
{
    let mut lanes = Vec::new(alloc);
    for id in 0..AUTHORS {
        if let Some(lane) = lane_at(world, id) {
            lanes.push(lane)?;
        }
    }
    Ok(lanes)
}

/// The lane of this id, where the world has such a replica.
fn lane_at<K: Knowledge>(world: &World<K>, id: u16) -> Option<Author>
    requires { id < AUTHORS }
    ensures { result ≡ lane_at world.now id }
{
    let Ok(author) = Author::try_new(id) else {
        unreachable!()
    };
    match world.replica(author) {
        Some(_) => Some(author),
        None => None,
    }
}

/// What stands above the lanes: for each in its order the next of the names.
fn headings<K: Knowledge>(scene: &Scene<K>, names: &[&str], lanes: &[Author]) -> Grown<Vec<Heading>>
    ensures named { IfOk result (λ headings. map named_by headings.items ≡ named_from (map (λ name. name.now) names.now) 0 lanes.now) }
    ensures filters { IfOk result (λ headings. All (HasFilter scene.now.world.now) headings.items) }
    ensures written { IfOk result (λ headings. All (IsWritten (length lanes.now)) headings.items) }
{
    let mut headings = Vec::with_capacity(scene.alloc, lanes.len())?;
    for (column, lane) in lanes.iter().enumerate() {
        headings.push(heading(scene, names, lanes.len() as u64, column, *lane)?)?;
    }
    Ok(headings)
}

/// What stands above the lane in this column, which is one of so many.
fn heading<K: Knowledge>(
    scene: &Scene<K>,
    names: &[&str],
    lane_count: u64,
    column: usize,
    lane: Author,
) -> Grown<Heading>
    ensures named { IfOk result (λ heading. named_by heading ≡ named_at (map (λ name. name.now) names.now) column lane) }
    ensures filter { IfOk result (λ heading. HasFilter scene.now.world.now heading) }
    ensures written { IfOk result (IsWritten lane_count) }
{
    let name = name_of(scene.alloc, name_at(names, column), lane)?;
    let filter_text = filter_text(scene, lane)?;
    let caption = shortened(scene.alloc, name.as_str())?;
    let label = label_among(scene.alloc, lane_count, filter_text.as_str())?;
    Ok(Heading {
        lane,
        caption,
        label,
        name,
        filter_text,
    })
}

/// The name for this column, if there is one.
fn name_at<'a>(names: &[&'a str], column: usize) -> Option<&'a str>
    ensures { option_map (λ name. name.now) result ≡ slice_get (map (λ name. name.now) names.now) column }
{
    names.get(column).copied()
}

/// What a lane is called that was given this name, or none.
fn name_of(alloc: Global, name: Option<&str>, lane: Author) -> Grown<String>
    ensures { IfOk result (λ text. string_bytes text ≡ name_of (option_map (λ given. given.now) name.entry) lane) }
{
    match name {
        Some(name) => format!(in alloc; "{name} ({lane})"),
        None => format!(in alloc; "replica {lane}"),
    }
}

/// The text of the replica's filter.
fn filter_text<K: Knowledge>(scene: &Scene<K>, lane: Author) -> Grown<String>
    ensures { IfOk result (λ text. IsFilterOf scene.now.world.now lane (string_bytes text)) }
{
    match scene.world.replica(lane) {
        Some(replica) => replica.filter().text(),
        None => Ok(String::new(scene.alloc)),
    }
}

/// What is written of the filter above one of so many lanes: nothing where there are many.
fn label_among(alloc: Global, lane_count: u64, filter_text: &str) -> Grown<String>
    ensures { IfOk result (λ label. string_bytes label ≡ label_among lane_count filter_text.now) }
{
    if lane_count > FEW_LANES {
        return Ok(String::new(alloc));
    }
    shortened(alloc, filter_text)
}

/// The first 18 characters of the text, and two dots where it goes on.
fn shortened(alloc: Global, text: &str) -> Grown<String>
    ensures { IfOk result (λ short. string_bytes short ≡ shortened text.now) }
{
    let mut short = beginning_of(alloc, text)?;
    if short.len() < text.len() {
        short.push_str("..")?;
    }
    Ok(short)
}

/// The first 18 characters of the text.
fn beginning_of(alloc: Global, text: &str) -> Grown<String>
    ensures { IfOk result (λ beginning. string_bytes beginning ≡ beginning_of text.now) }
{
    text.chars().take(MOST_WRITTEN).collect(alloc)
}
