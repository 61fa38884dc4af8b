//! The marks of a world's history.
ghost use Rattle.std.specs.Prelude.{◌≡◌, ◌≤◌, ◌<◌, IfOk, if◌then◌else◌, length, not, string_bytes};
ghost use Rattle.std.specs.List.{list_any};
ghost use Rattle.std.specs.Option.{option_copied};
ghost use Rattle.mr_version.specs.Name.{name_eq};
ghost use Rattle.mr_version.specs.Sets.{is_listed};
ghost use Rattle.mr_draw.specs.Ends.{DotEnds, EndsAs};
ghost use Rattle.mr_draw.specs.Look.{are_several, dot_look, event_of, is_merge, is_push_out, leaves_out, look_of, shape_of};
ghost use Rattle.mr_draw.specs.Sign.{AreMarksOf, IsMarkOf, other_lane_of};
ghost use Rattle.mr_draw.specs.Words.{label_of, title_of};

use crate::Grown;
use crate::ends::{last_row_of_band, last_row_of_push_out};
use crate::happening::{Happening, Kind};
use crate::mark::{Look, Mark, Shape};
use crate::title::{label_as, title_as};
use mr_filter::Filter;
use mr_forms::Knowledge;
use mr_version::{Author, Version};
use mr_world::{Act, Event, World};
use std::alloc::Global;

/// How many happenings a picture shows at most: the first ones.
pub const MAX_ROWS: usize = 400;

/// What a picture is made of.
#[derive(Drop)]
pub(crate) struct Scene<'a, K: Knowledge> {
    pub(crate) alloc: Global,
    pub(crate) world: &'a World<K>,
    /// All that happened.
    pub(crate) happenings: &'a [Happening],
    /// The versions that were heads beside another of their item, as far as a merge or a replica shows it.
    pub(crate) contested: &'a [Version],
}

/// The marks of the first happenings, one for each, in their order: a row for each.
pub(crate) fn marks<K: Knowledge>(scene: &Scene<K>, shown: &[Happening]) -> Grown<Vec<Mark>>
    requires { length shown.now ≤ MAX_ROWS }
    ensures { IfOk result (λ marks. AreMarksOf scene.now.world.now scene.now.happenings.now shown.now scene.now.contested.now 0 shown.now marks.items) }
{
    let mut marks = Vec::with_capacity(scene.alloc, shown.len())?;
    for (row, happening) in shown.iter().enumerate() {
        marks.push(mark_of(scene, shown, row as u32, happening)?)?;
    }
    Ok(marks)
}

/// The mark of a happening in this row.
fn mark_of<K: Knowledge>(
    scene: &Scene<K>,
    shown: &[Happening],
    row: u32,
    happening: &Happening,
) -> Grown<Mark>
    requires row { row < length shown.now }
    requires few { length shown.now ≤ MAX_ROWS }
    ensures { IfOk result (IsMarkOf scene.now.world.now scene.now.happenings.now shown.now scene.now.contested.now row happening.now) }
{
    let look = look_of(scene, happening);
    let last_row = last_row_of(scene, shown, row, happening, look.is_push_out)?;
    let label = label_of(scene, happening)?;
    let title = title_of(scene, happening)?;
    Ok(Mark {
        lane: happening.lane,
        row,
        other_lane: other_lane_of(happening),
        last_row,
        look,
        label,
        title,
    })
}

/// The event of which the happening comes.
fn event_of<'a, K: Knowledge>(scene: &Scene<'a, K>, happening: &Happening) -> Option<&'a Event>
    ensures { option_copied result ≡ event_of scene.now.world.now happening.now }
{
    match scene.world.answers().get(happening.place) {
        Some(answered) => Some(&answered.event),
        None => None,
    }
}

/// What is written at the happening's mark.
fn label_of<K: Knowledge>(scene: &Scene<K>, happening: &Happening) -> Grown<String>
    ensures { IfOk result (λ label. string_bytes label ≡ label_of scene.now.world.now scene.now.happenings.now happening.now) }
{
    match event_of(scene, happening) {
        Some(event) => label_as(
            scene.alloc,
            scene.happenings,
            happening.lane,
            &event.act,
            &happening.kind,
        ),
        None => Ok(String::new(scene.alloc)),
    }
}

/// What the happening's mark tells on pointing.
fn title_of<K: Knowledge>(scene: &Scene<K>, happening: &Happening) -> Grown<String>
    ensures { IfOk result (λ title. string_bytes title ≡ title_of scene.now.world.now happening.now) }
{
    match event_of(scene, happening) {
        Some(event) => title_as(scene.alloc, happening.lane, &event.act, &happening.kind),
        None => Ok(String::new(scene.alloc)),
    }
}

/// From or to whose lane the mark goes: an arrow comes from the source's, and a sync's band goes to the target's.
fn other_lane_of(happening: &Happening) -> Author
    ensures { result ≡ other_lane_of happening.now }
{
    match happening.kind {
        Kind::TakeItem(source, _, _) => source,
        Kind::TakeMoveOut(source, _, _) => source,
        Kind::TakeOther(source, _) => source,
        Kind::Open(target, _) => target,
        _ => happening.lane,
    }
}

/// How the happening's mark looks.
fn look_of<K: Knowledge>(scene: &Scene<K>, happening: &Happening) -> Look
    ensures { result ≡ look_of scene.now.world.now scene.now.contested.now happening.now }
{
    match happening.kind {
        Kind::Issue(version) => dot_look(scene, event_of(scene, happening), version),
        _ => Look::plain(shape_of(&happening.kind)),
    }
}

/// How a version's dot looks that comes of this event.
fn dot_look<K: Knowledge>(scene: &Scene<K>, event: Option<&Event>, version: Version) -> Look
    ensures { result ≡ dot_look scene.now.world.now scene.now.contested.now (option_copied event.entry) version }
{
    let is_contested = is_among(scene.contested, version);
    match event {
        Some(event) => Look {
            shape: shape_of_dot(&event.act),
            is_contested,
            is_push_out: is_push_out(scene.world, event),
        },
        None => Look {
            shape: Shape::Version,
            is_contested,
            is_push_out: false,
        },
    }
}

/// The shape of the version that an act issues.
fn shape_of_dot(act: &Act) -> Shape
    ensures { result ≡ (if is_merge act.now then Shape.Merge else Shape.Version) }
{
    if is_merge(act) {
        Shape::Merge
    } else {
        Shape::Version
    }
}

/// The shape of what happened.
fn shape_of(kind: &Kind) -> Shape
    ensures { result ≡ shape_of kind.now }
{
    match kind {
        Kind::Issue(_) => Shape::Version,
        Kind::TakeItem(_, _, _) => Shape::Item,
        Kind::TakeMoveOut(_, _, _) => Shape::MoveOut,
        Kind::TakeOther(_, _) => Shape::Record,
        Kind::Open(_, _) => Shape::Band,
        Kind::Cut => Shape::Cut,
        Kind::Retire => Shape::Retire,
        Kind::Vouch(_) => Shape::Vouch,
        Kind::Release(_) => Shape::Release,
    }
}

/// Whether the version is one of these.
fn is_among(versions: &[Version], version: Version) -> bool
    ensures { result ≡ is_listed versions.now version }
{
    versions.contains(&version)
}

/// Whether it is an edit of several versions.
fn is_merge(act: &Act) -> bool
    ensures { result ≡ is_merge act.now }
{
    match act {
        Act::Edit(bases, _) => are_several(bases.as_slice()),
        _ => false,
    }
}

/// Whether they are not all one version.
pub(crate) fn are_several(versions: &[Version]) -> bool
    ensures { result ≡ are_several versions.now }
{
    match versions.split_first() {
        Some((first, others)) => differ_from(others, *first),
        None => false,
    }
}

/// Whether one of the versions is another than this.
fn differ_from(versions: &[Version], version: Version) -> bool
    ensures { result ≡ list_any (λ other. not (name_eq other version)) versions.now }
{
    versions.iter().any(|other| *other != version)
}

/// Whether what the event issues is none that its replica's filter selects.
fn is_push_out<K: Knowledge>(world: &World<K>, event: &Event) -> bool
    ensures { result ≡ is_push_out world.now event.now }
{
    match world.replica(event.replica) {
        Some(replica) => leaves_out(replica.filter(), &event.act),
        None => false,
    }
}

/// Whether the filter does not select what the act issues.
fn leaves_out(filter: &Filter, act: &Act) -> bool
    ensures { result ≡ leaves_out filter.now act.now }
{
    match act {
        Act::Create(message) => !filter.select(message),
        Act::Edit(_, message) => !filter.select(message),
        _ => false,
    }
}

/// The last row to which the mark goes: of a sync, that of the last record that was taken; of a push-out, that where it
/// was let go of or superseded; of all else its own.
fn last_row_of<K: Knowledge>(
    scene: &Scene<K>,
    shown: &[Happening],
    row: u32,
    happening: &Happening,
    is_push_out: bool,
) -> Grown<u32>
    requires row { row < length shown.now }
    requires few { length shown.now ≤ MAX_ROWS }
    ensures { IfOk result (EndsAs shown.now row happening.now.lane happening.now.kind is_push_out) }
{
    match happening.kind {
        Kind::Open(_, stream) => Ok(last_row_of_band(shown, row, happening.lane, stream)),
        Kind::Issue(version) => last_row_of_dot(scene, shown, row, version, is_push_out),
        _ => Ok(row),
    }
}

/// The last row of a version's dot.
fn last_row_of_dot<K: Knowledge>(
    scene: &Scene<K>,
    shown: &[Happening],
    row: u32,
    version: Version,
    is_push_out: bool,
) -> Grown<u32>
    requires row { row < length shown.now }
    requires few { length shown.now ≤ MAX_ROWS }
    ensures { IfOk result (DotEnds shown.now row is_push_out) }
{
    if is_push_out {
        last_row_of_push_out(scene.alloc, scene.world.answers(), shown, row, version)
    } else {
        Ok(row)
    }
}
