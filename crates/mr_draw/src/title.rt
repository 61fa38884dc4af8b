//! What is written at marks, and what they tell on pointing.
ghost use Rattle.std.specs.Prelude.{◌≡◌, ◌++◌, IfOk, OnOk, codes, count_by, string_bytes};
ghost use Rattle.mr_draw.specs.Words.{cut_title, dot_label, dot_title, first_spaced, is_item_of, is_move_out_of, items_label, label_as, labels_title, mail_title, move_outs_label, origin_label, origin_title, spaced, sync_label, title_as};

use crate::Grown;
use crate::happening::{Happening, Kind};
use mr_mail::{Label, Message};
use mr_version::{Author, Version};
use mr_world::Act;
use std::alloc::Global;

/// How many of the versions that an edit replaces are written at its dot.
const MOST_BASES: usize = 2;

// ---- what is written

/// What is written at what comes of this act on this lane, where all this happened.
pub(crate) fn label_as(
    alloc: Global,
    all: &[Happening],
    lane: Author,
    act: &Act,
    kind: &Kind,
) -> Grown<String>
    ensures { IfOk result (λ label. string_bytes label ≡ label_as all.now lane act.now kind.now) }
{
    match kind {
        Kind::Issue(version) => dot_label(alloc, *version, act),
        Kind::TakeItem(_, _, version) => format!(in alloc; "+{version}"),
        Kind::TakeMoveOut(_, _, version) => format!(in alloc; "-{version}"),
        Kind::TakeOther(_, _) => Ok(String::new(alloc)),
        Kind::Open(_, stream) => sync_label(alloc, all, lane, *stream),
        Kind::Cut => String::from_str(alloc, "cut"),
        Kind::Retire => String::from_str(alloc, "retired"),
        Kind::Vouch(version) => format!(in alloc; "vouches {version}"),
        Kind::Release(version) => format!(in alloc; "lets go of {version}"),
    }
}

/// What is written at a version's dot: its name and, of an edit, what it replaces, of which the first two are named.
fn dot_label(alloc: Global, version: Version, act: &Act) -> Grown<String>
    ensures { IfOk result (λ label. string_bytes label ≡ dot_label version act.now) }
{
    let mut label = format!(in alloc; "{version}")?;
    push_bases(&mut label, act)?;
    Ok(label)
}

/// Adds what a version replaces that comes of this act.
fn push_bases(label: &mut String, act: &Act) -> Grown<()>
    ensures { OnOk result (string_bytes label.new ≡ string_bytes label.old ++ origin_label act.now) }
{
    match act {
        Act::Edit(bases, _) => {
            label.push_str(" for")?;
            push_first(label, bases.as_slice())
        }
        _ => Ok(()),
    }
}

/// Adds the first two of the versions, each behind a space, and whether there are more.
fn push_first(text: &mut String, versions: &[Version]) -> Grown<()>
    ensures { OnOk result (string_bytes text.new ≡ string_bytes text.old ++ first_spaced versions.now) }
{
    if versions.len() <= MOST_BASES {
        return push_spaced(text, versions);
    }
    let (first, _) = versions.split_at(MOST_BASES);
    push_spaced(text, first)?;
    text.push_str(" ..")
}

/// Adds each version behind a space.
fn push_spaced(text: &mut String, versions: &[Version]) -> Grown<()>
    ensures { OnOk result (string_bytes text.new ≡ string_bytes text.old ++ spaced versions.now) }
{
    for version in versions {
        write!(text, " {version}")?;
    }
    Ok(())
}

/// What is written at a sync's band: how many items and move-outs of the stream were taken.
fn sync_label(alloc: Global, all: &[Happening], source: Author, stream: u64) -> Grown<String>
    ensures { IfOk result (λ label. string_bytes label ≡ sync_label all.now source stream) }
{
    let mut label = items_label(alloc, count_of_items(all, source, stream))?;
    push_move_outs(&mut label, count_of_move_outs(all, source, stream))?;
    Ok(label)
}

/// How many items of the stream were taken.
fn count_of_items(all: &[Happening], source: Author, stream: u64) -> usize
    ensures { result ≡ count_by (λ h. is_item_of source stream h.kind) all.now }
{
    all.iter()
        .filter(|happening| is_item_of(&happening.kind, source, stream))
        .count()
}

/// How many move-outs of the stream were taken.
fn count_of_move_outs(all: &[Happening], source: Author, stream: u64) -> usize
    ensures { result ≡ count_by (λ h. is_move_out_of source stream h.kind) all.now }
{
    all.iter()
        .filter(|happening| is_move_out_of(&happening.kind, source, stream))
        .count()
}

fn is_item_of(kind: &Kind, source: Author, stream: u64) -> bool
    ensures { result ≡ is_item_of source stream kind.now }
{
    match kind {
        Kind::TakeItem(by, number, _) => *by == source && *number == stream,
        _ => false,
    }
}

fn is_move_out_of(kind: &Kind, source: Author, stream: u64) -> bool
    ensures { result ≡ is_move_out_of source stream kind.now }
{
    match kind {
        Kind::TakeMoveOut(by, number, _) => *by == source && *number == stream,
        _ => false,
    }
}

/// So many items.
fn items_label(alloc: Global, count: usize) -> Grown<String>
    ensures { IfOk result (λ label. string_bytes label ≡ items_label count) }
{
    if count == 1 {
        String::from_str(alloc, "1 item")
    } else {
        format!(in alloc; "{count} items")
    }
}

/// Adds so many move-outs, if there are any.
fn push_move_outs(label: &mut String, count: usize) -> Grown<()>
    ensures { OnOk result (string_bytes label.new ≡ string_bytes label.old ++ move_outs_label count) }
{
    if count == 0 {
        return Ok(());
    }
    if count == 1 {
        label.push_str(", 1 move-out")
    } else {
        write!(label, ", {count} move-outs")
    }
}

// ---- what they tell on pointing

/// What is told of what comes of this act on this lane.
pub(crate) fn title_as(alloc: Global, lane: Author, act: &Act, kind: &Kind) -> Grown<String>
    ensures { IfOk result (λ title. string_bytes title ≡ title_as lane act.now kind.now) }
{
    match kind {
        Kind::Issue(version) => dot_title(alloc, *version, act),
        Kind::TakeItem(source, stream, version) => format!(in alloc;
            "replica {lane} takes {version} out of stream {stream} of replica {source}"
        ),
        Kind::TakeMoveOut(source, stream, version) => format!(in alloc;
            "replica {lane} is told in stream {stream} of replica {source} that {version} is none of its own"
        ),
        Kind::TakeOther(source, stream) => format!(in alloc;
            "replica {lane} takes a record out of stream {stream} of replica {source}"
        ),
        Kind::Open(target, stream) => {
            format!(in alloc; "replica {target} asks replica {lane}, which opens stream {stream}")
        }
        Kind::Cut => cut_title(alloc, lane, act),
        Kind::Retire => format!(in alloc;
            "replica {lane} retires: it admits nothing more, but goes on telling"
        ),
        Kind::Vouch(version) => format!(in alloc;
            "replica {lane} gives a receipt for {version}, which it holds"
        ),
        Kind::Release(version) => {
            format!(in alloc; "replica {lane} lets go of push-outs, by a receipt for {version}")
        }
    }
}

/// What a version's dot tells: what it replaces, and its message.
fn dot_title(alloc: Global, version: Version, act: &Act) -> Grown<String>
    ensures { IfOk result (λ title. string_bytes title ≡ dot_title version act.now) }
{
    let mut title = format!(in alloc; "{version}")?;
    push_origin(&mut title, act)?;
    Ok(title)
}

/// Adds what a version replaces that comes of this act, and its message.
fn push_origin(title: &mut String, act: &Act) -> Grown<()>
    ensures { OnOk result (string_bytes title.new ≡ string_bytes title.old ++ origin_title act.now) }
{
    match act {
        Act::Create(message) => {
            title.push_str(": a new message")?;
            push_message(title, message)
        }
        Act::Edit(bases, message) => {
            title.push_str(" replaces")?;
            push_spaced(title, bases.as_slice())?;
            push_message(title, message)
        }
        _ => Ok(()),
    }
}

/// Adds the message's labels, sender and subject.
fn push_message(title: &mut String, message: &Message) -> Grown<()>
    ensures { OnOk result (string_bytes title.new ≡ string_bytes title.old ++ mail_title message.now) }
{
    title.push_str(";")?;
    push_labels(title, message.labels())?;
    title.push_str("; ")?;
    title.push_str(message.from())?;
    title.push_str(": ")?;
    title.push_str(message.subject())
}

/// Adds each label behind a space.
fn push_labels(title: &mut String, labels: &[Label]) -> Grown<()>
    ensures { OnOk result (string_bytes title.new ≡ string_bytes title.old ++ labels_title labels.now) }
{
    for label in labels {
        push_label(title, label)?;
    }
    Ok(())
}

/// Adds the label behind a space.
fn push_label(title: &mut String, label: &Label) -> Grown<()>
    ensures { OnOk result (string_bytes title.new ≡ string_bytes title.old ++ codes " " ++ label.now) }
{
    title.push(' ')?;
    title.push_str(label.as_str())
}

/// What a cut tells.
fn cut_title(alloc: Global, lane: Author, act: &Act) -> Grown<String>
    ensures { IfOk result (λ title. string_bytes title ≡ cut_title lane act.now) }
{
    match act {
        Act::CutOut(stream) => format!(in alloc; "replica {lane} closes its stream {stream}"),
        Act::CutIn(session) => format!(in alloc; "replica {lane} closes its session {session}"),
        _ => format!(in alloc; "replica {lane} closes a session"),
    }
}
