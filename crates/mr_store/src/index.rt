//! The index of a list of revisions: the versions of each item that has more of them than its first.
ghost use Rattle.std.specs.Prelude.{◌≡◌, ◌<◌, ◌≤◌, ◌||◌, if◌then◌else◌, Option, Some, None, List, IfOk, OnOk, OnErr, not, filter, length, take_while, vec_len, vec_capacity, false};
ghost use Rattle.std.specs.BTreeMap.{get};
ghost use Rattle.std.specs.List.Sorted.{IsStrictlySortedBy};
ghost use Rattle.std.specs.Option.{option_map, option_map_or};
ghost use Rattle.mr_version.specs.Name.{Name, name_cmp, name_eq};
ghost use Rattle.mr_forms.specs.Sets.{is_listed};
ghost use Rattle.mr_madewith.specs.Keyed.{is_before};
ghost use Rattle.mr_madewith.specs.Revision.{Rev};
ghost use Rattle.mr_store.specs.Leaving.{leaves};
ghost use Rattle.mr_store.specs.Revisions.{AreInVersionOrder, holds};
ghost use Rattle.mr_store.specs.inner.Room.{is_for_later};
ghost use Rattle.mr_store.specs.inner.Index.{listed_for, IsIndexOf, HasRoomFor, has_later, stays_listed, version_inserted, are_several};
ghost use Rattle.mr_store.specs.declared.room.Room.{Room};

use crate::by_version::{first_of, has_version};
use crate::leaving::leaves;
use crate::room::{Room, is_for_later};
use mr_concise::ConciseVector;
use mr_madewith::Revision;
use mr_version::{ItemId, Version};
use std::alloc::{AllocError, Global};
use std::collections::BTreeMap;

/// The items with two or more listed versions, in rising order.
pub fn items_with_several(
    index: &BTreeMap<ItemId, Vec<Version>>,
    alloc: Global,
) -> Result<Vec<ItemId>, AllocError>
    ensures rising { IfOk result (λ items. IsStrictlySortedBy name_cmp items.items) }
    ensures exact { IfOk result (λ items. (i : Name) → is_listed items.items i ≡ option_map_or are_several (listed_for index.now i) false) }
{
    let mut items = Vec::new(alloc);
    for (item, versions) in index.iter() {
        if versions.len() >= 2 {
            items.push(*item)?;
        }
    }
    Ok(items)
}

/// A copy, which is an index of the same revisions, with no room.
pub fn copied(
    index: &BTreeMap<ItemId, Vec<Version>>,
    room: Option<Room>,
) -> Result<BTreeMap<ItemId, Vec<Version>>, AllocError>
    ensures { IfOk result (λ copy. (revisions : List Rev) → IsIndexOf room revisions index.now → IsIndexOf None revisions copy) }
{
    let mut copy = cloned(index)?;
    drop_room(&mut copy, room);
    Ok(copy)
}

// A clone, with the same lists.
fn cloned(
    index: &BTreeMap<ItemId, Vec<Version>>,
) -> Result<BTreeMap<ItemId, Vec<Version>>, AllocError>
    ensures { IfOk result (λ copy. (i : Name) → listed_for copy i ≡ listed_for index.now i) }
{
    index.clone()
}

/// A list that is there for the sake of the room alone goes. It costs a look-up, where there is room.
pub fn drop_room(index: &mut BTreeMap<ItemId, Vec<Version>>, room: Option<Room>)
    ensures { (revisions : List Rev) → IsIndexOf room revisions index.old → IsIndexOf None revisions index.new }
{
    if let Some(reserved) = room {
        drop_idle(index, reserved.item, None);
    }
}

/// The item's list goes where it has no version but the first, unless the room is for a later one. It costs a
/// look-up.
pub fn drop_idle(index: &mut BTreeMap<ItemId, Vec<Version>>, item: ItemId, room: Option<Room>)
    ensures lists { (i : Name) → listed_for index.new i ≡ (if name_eq item i then stays_listed room i (listed_for index.old i) else listed_for index.old i) }
    ensures room { (other : Option Room) → HasRoomFor other index.old → HasRoomFor other index.new }
{
    if is_idle(index, item, room) {
        index.remove(&item);
    }
}

// Whether there is a list for the item that isn't needed.
fn is_idle(index: &BTreeMap<ItemId, Vec<Version>>, item: ItemId, room: Option<Room>) -> bool
    ensures { result ≡ option_map_or (λ vs. not (has_later item vs || is_for_later room item)) (listed_for index.now item) false }
{
    match index.get(&item) {
        Some(versions) => !is_needed(versions, item, room),
        None => false,
    }
}

/// Makes room for the version of an item that comes to these revisions, of which this is the index. It costs a
/// look-up, and for a later version of an item with no list a binary search. For the first version of such an item it
/// takes no memory.
pub fn make_room(
    index: &mut BTreeMap<ItemId, Vec<Version>>,
    alloc: Global,
    room: &Room,
    revisions: &[Revision],
) -> Result<(), AllocError>
    requires in_order { AreInVersionOrder revisions.now }
    requires indexed { IsIndexOf None revisions.now index.old }
    ensures ok { OnOk result (IsIndexOf (Some room.now) revisions.now index.new) }
    ensures room { OnOk result (HasRoomFor (Some room.now) index.new) }
    ensures err { OnErr result (IsIndexOf None revisions.now index.new) }
{
    match index.get_mut(&room.item) {
        Some(versions) => versions.reserve_exact(1),
        None => enlist_for(index, alloc, room, revisions),
    }
}

// Where the version is a later one, its item, which has no list, gets one.
fn enlist_for(
    index: &mut BTreeMap<ItemId, Vec<Version>>,
    alloc: Global,
    room: &Room,
    revisions: &[Revision],
) -> Result<(), AllocError>
    requires in_order { AreInVersionOrder revisions.now }
    requires indexed { IsIndexOf None revisions.now index.old }
    requires absent { get name_cmp index.old room.now.item ≡ None }
    ensures ok { OnOk result (IsIndexOf (Some room.now) revisions.now index.new) }
    ensures room { OnOk result (HasRoomFor (Some room.now) index.new) }
    ensures err { OnErr result (IsIndexOf None revisions.now index.new) }
{
    if room.is_for_first() {
        return Ok(());
    }
    enlist(index, alloc, room.item, first_of(revisions, room.item))
}

// Gives the item, which has no list, one of these versions, with room for one more.
fn enlist(
    index: &mut BTreeMap<ItemId, Vec<Version>>,
    alloc: Global,
    item: ItemId,
    versions: &[Version],
) -> Result<(), AllocError>
    ensures ok { OnOk result ((i : Name) → listed_for index.new i ≡ (if name_eq item i then Some versions.now else listed_for index.old i)) }
    ensures room { OnOk result ((version : Name) → HasRoomFor (Some (record { item = item; version = version })) index.new) }
    ensures err { OnErr result ((i : Name) → listed_for index.new i ≡ listed_for index.old i) }
{
    let mut listed = Vec::with_capacity(alloc, versions.len() + 1)?;
    listed.extend_from_slice(versions)?;
    index.insert(item, listed)?;
    Ok(())
}

/// Lists a version of the item, where the item has a list, in the room that there is. It costs a look-up.
pub fn list(index: &mut BTreeMap<ItemId, Vec<Version>>, item: ItemId, version: Version)
    requires { HasRoomFor (Some (record { item = item; version = version })) index.old }
    ensures { (i : Name) → listed_for index.new i ≡ (if name_eq item i then option_map (version_inserted version) (listed_for index.old i) else listed_for index.old i) }
{
    if let Some(versions) = index.get_mut(&item) {
        put_version(versions, version);
    }
}

/// Lists no version that one of these revisions is of, which stand in version order. A list that isn't needed any more
/// goes. It costs a binary search among these for each listed version.
pub fn unlist_versions(
    index: &mut BTreeMap<ItemId, Vec<Version>>,
    left: &[Revision],
    room: Option<Room>,
)
    requires { AreInVersionOrder left.now }
    ensures lists { (i : Name) → listed_for index.new i ≡ stays_listed room i (option_map (filter (λ v. not (holds left.now v))) (listed_for index.old i)) }
    ensures room { (other : Option Room) → HasRoomFor other index.old → HasRoomFor other index.new }
{
    index.retain(|item, versions| {
        retain_absent(versions, left);
        is_needed(versions, *item, room)
    });
}

// Whether a list of the item is needed: it has a version that is not the first, or the room is for such a one.
fn is_needed(versions: &[Version], item: ItemId, room: Option<Room>) -> bool
    ensures { result ≡ (has_later item versions.now || is_for_later room item) }
{
    has_later(versions, item) || is_for_later(room, item)
}

// Whether one of the versions is not the item's first.
fn has_later(versions: &[Version], item: ItemId) -> bool
    ensures { result ≡ has_later item versions.now }
{
    let first = item.creator();
    versions.iter().any(|version| *version != first)
}

// Keeps the versions that none of these revisions is of, which stand in version order.
fn retain_absent(versions: &mut Vec<Version>, left: &[Revision])
    requires { AreInVersionOrder left.now }
    ensures others { versions.new.items ≡ filter (λ v. not (holds left.now v)) versions.old.items }
    ensures fewer { vec_len versions.new ≤ vec_len versions.old }
    ensures capacity { vec_capacity versions.new ≡ vec_capacity versions.old }
{
    versions.retain(|version| !has_version(left, *version));
}

// Puts a version at its place, where there is room.
fn put_version(versions: &mut Vec<Version>, version: Version)
    requires { vec_len versions.old < vec_capacity versions.old }
    ensures { versions.new.items ≡ version_inserted version versions.old.items }
{
    let place = place_of(versions, version);
    versions.insert(place, version).unwrap();
}

// How many versions stand before this one.
fn place_of(versions: &[Version], version: Version) -> usize
    ensures place { result ≡ length (take_while (λ v. is_before v version) versions.now) }
    ensures within { result ≤ length versions.now }
{
    versions.iter().take_while(|v| **v < version).count()
}

/// Keeps the versions that stay.
pub fn retain_others(versions: &mut Vec<Version>, ones: &[Version], below: &ConciseVector)
    ensures others { versions.new.items ≡ filter (λ v. not (leaves ones.now below.now v)) versions.old.items }
    ensures fewer { vec_len versions.new ≤ vec_len versions.old }
    ensures capacity { vec_capacity versions.new ≡ vec_capacity versions.old }
{
    versions.retain(|version| !leaves(ones, below, *version));
}
