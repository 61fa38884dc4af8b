//! The versions that were one of several heads of their item.
ghost use Rattle.std.specs.Prelude.{◌≡◌, ◌++◌, ◌<◌, [], ◌∷◌, IfOk, OnOk, if◌then◌else◌, filter, map};
ghost use Rattle.std.specs.List.{flat_map};
ghost use Rattle.mr_version.specs.Sets.{is_listed};
ghost use Rattle.mr_store.specs.Revisions.{has_conflict};
ghost use Rattle.mr_draw.specs.Contested.{contested_in, merged_by, merged_of, rivals, rivals_at};
ghost use Rattle.mr_draw.specs.Happening.{issued_in};
ghost use Rattle.mr_draw.specs.Look.{are_several};

use crate::Grown;
use crate::marks::are_several;
use mr_forms::Knowledge;
use mr_replica::{Replica, Reply, Revision};
use mr_version::{AUTHORS, Author, ItemId, Version};
use mr_world::{Act, Answer, Answered, World};
use std::alloc::Global;

/// The versions that were one of several heads of an item: those that a merge names, and those that are it now.
pub(crate) fn contested<K: Knowledge>(alloc: Global, world: &World<K>) -> Grown<Vec<Version>>
    ensures { IfOk result (λ contested. contested.items ≡ contested_in world.now) }
{
    let mut contested = merged(alloc, world.answers())?;
    for id in 0..AUTHORS {
        push_rivals_at(&mut contested, world, id)?;
    }
    Ok(contested)
}

/// The versions that a merge names.
fn merged(alloc: Global, answers: &[Answered]) -> Grown<Vec<Version>>
    ensures { IfOk result (λ merged. merged.items ≡ flat_map merged_by answers.now) }
{
    let mut merged = Vec::new(alloc);
    for answered in answers {
        push_merged(&mut merged, answered)?;
    }
    Ok(merged)
}

/// Adds the versions that the event merged.
fn push_merged(contested: &mut Vec<Version>, answered: &Answered) -> Grown<()>
    ensures { OnOk result (contested.new.items ≡ contested.old.items ++ merged_by answered.now) }
{
    match issued(&answered.answer) {
        Some(_) => push_bases(contested, &answered.event.act),
        None => Ok(()),
    }
}

/// The version that was issued, if one was.
fn issued(answer: &Answer) -> Option<Version>
    ensures { result ≡ issued_in answer.now }
{
    match answer {
        Answer::Stepped(Ok(Reply::Issued(version))) => Some(*version),
        _ => None,
    }
}

/// Adds the versions that the act merges.
fn push_bases(contested: &mut Vec<Version>, act: &Act) -> Grown<()>
    ensures { OnOk result (contested.new.items ≡ contested.old.items ++ merged_of act.now) }
{
    match act {
        Act::Edit(bases, _) => push_several(contested, bases.as_slice()),
        _ => Ok(()),
    }
}

/// Adds the versions, if they are not all one.
fn push_several(contested: &mut Vec<Version>, versions: &[Version]) -> Grown<()>
    ensures { OnOk result (contested.new.items ≡ contested.old.items ++ (if are_several versions.now then versions.now else [])) }
{
    if are_several(versions) {
        contested.extend_from_slice(versions)?;
    }
    Ok(())
}

/// Adds the heads of the replica of this id whose items have several.
fn push_rivals_at<K: Knowledge>(
    contested: &mut Vec<Version>,
    world: &World<K>,
    id: u16,
) -> Grown<()>
    requires { id < AUTHORS }
    ensures { OnOk result (contested.new.items ≡ contested.old.items ++ rivals_at world.now id) }
{
    let Ok(author) = Author::try_new(id) else {
        unreachable!()
    };
    match world.replica(author) {
        Some(replica) => push_rivals(contested, replica),
        None => Ok(()),
    }
}

/// Adds the replica's heads whose items have several.
fn push_rivals<K: Knowledge>(contested: &mut Vec<Version>, replica: &Replica<K>) -> Grown<()>
    ensures { OnOk result (contested.new.items ≡ contested.old.items ++ rivals replica.now.heads) }
{
    let items = replica.conflicts()?;
    push_heads_of(contested, replica.heads(), items.as_slice())?;
    Ok(())
}

/// Adds the heads of these items.
fn push_heads_of(contested: &mut Vec<Version>, heads: &[Revision], items: &[ItemId]) -> Grown<()>
    ensures { OnOk result (contested.new.items ≡ contested.old.items ++ map (λ r. r.version) (filter (λ r. is_listed items.now r.item) heads.now)) }
{
    for head in heads {
        push_if(contested, head.version(), is_listed(items, head.item()))?;
    }
    Ok(())
}

/// Whether the item is one of these.
fn is_listed(items: &[ItemId], item: ItemId) -> bool
    ensures { result ≡ is_listed items.now item }
{
    items.contains(&item)
}

/// Adds the version, if it is wanted.
fn push_if(contested: &mut Vec<Version>, version: Version, is_wanted: bool) -> Grown<()>
    ensures { OnOk result (contested.new.items ≡ contested.old.items ++ (if is_wanted then version ∷ [] else [])) }
{
    if is_wanted {
        contested.push(version)?;
    }
    Ok(())
}
