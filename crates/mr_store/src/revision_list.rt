//! One list of a store: revisions in version order, and an index of them by item.
ghost use Rattle.std.specs.Prelude.{◌≡◌, ◌<◌, ◌≤◌, ◌&&◌, if◌then◌else◌, not, false, [], Option, Some, None, IfOk, OnOk, OnErr, MatchOption, filter};
ghost use Rattle.std.specs.List.{list_any};
ghost use Rattle.std.specs.Option.{option_copied, option_map};
ghost use Rattle.mr_version.specs.Name.{Name, name_eq};
ghost use Rattle.mr_forms.specs.Sets.{is_listed};
ghost use Rattle.mr_concise.specs.Vector.{vector_has};
ghost use Rattle.mr_madewith.specs.Keyed.{without};
ghost use Rattle.mr_store.specs.inner.Index.{listed_for, has_later, HasRoomFor};
ghost use Rattle.mr_store.specs.Leaving.{leaves};
ghost use Rattle.mr_store.specs.Revisions.{AreInVersionOrder, version_of, revision_of, holds, entered, versions_of, supersedes, left_by, AreConflicts};
ghost use Rattle.mr_store.specs.Room.{room_of};
ghost use Rattle.mr_store.specs.Unheld.{is_unheld};
ghost use Rattle.mr_store.specs.declared.room.Room.{Room};

use crate::by_version::{first_of, revision_of, search};
use crate::gap_vector::GapVector;
use crate::index::{
    copied, drop_idle, drop_room, items_with_several, list, make_room, retain_others,
    unlist_versions,
};
use crate::leaving::{leaves, none_leave, some_leave};
use crate::room::Room;
use crate::unheld::unheld_of;
use mr_concise::ConciseVector;
use mr_forms::{Fragment, VersionSet};
use mr_madewith::Revision;
use mr_version::{ItemId, Version};
use std::alloc::{AllocError, Global};
use std::collections::BTreeMap;
use std::marker::Model;

/// Revisions in version order.
///
/// An index lists the versions of each item that has more of them than its first, so that an edit of one item looks
/// at no other's revisions. An item has the name of its first version: where that is all that is held of it, as of
/// most, a search by version finds it, and the index has no entry.
#[derive(Drop)]
pub struct RevisionList {
    alloc: Global,
    revisions: GapVector,
    index: BTreeMap<ItemId, Vec<Version>>,
    // the version of an item for which there is room
    room: Option<Room>,
}

impl Model for RevisionList {
    ghost use Rattle.mr_store.specs.inner.RevisionList.{RevisionParts, IsRevisionList};

    ghost Value = { RevisionParts };

    ghost view = { λ s. record { revisions = s.revisions.items; room = s.room } };

    ghost invariant = { λ s. IsRevisionList s.revisions s.index s.room };
}

impl RevisionList {
    /// An empty list.
    pub fn new(alloc: Global) -> RevisionList
        ensures { result ≡ record { revisions = []; room = None } }
    {
        RevisionList {
            alloc,
            revisions: GapVector::new(alloc),
            index: BTreeMap::new(alloc),
            room: None,
        }
    }

    /// The revisions, in version order.
    pub fn revisions(&self) -> &[Revision]
        ensures all { result.now ≡ self.now.revisions }
        ensures in_order { AreInVersionOrder self.now.revisions }
    {
        self.revisions.as_slice()
    }

    /// The revision of a version. It costs a binary search.
    pub fn revision(&self, version: Version) -> Option<&Revision>
        ensures { option_copied result ≡ revision_of self.now.revisions version }
    {
        revision_of(self.revisions.as_slice(), version)
    }

    /// The versions of an item, in version order. It costs a look-up, and where the item has none but its first, a
    /// binary search.
    pub fn versions_of(&self, item: ItemId) -> &[Version]
        ensures { result.now ≡ versions_of item self.now.revisions }
    {
        match self.index.get(&item) {
            Some(versions) => versions,
            None => first_of(self.revisions.as_slice(), item),
        }
    }

    /// The items with two or more revisions, in rising order. It costs a walk over the items that have more than
    /// their first version.
    pub fn conflicts(&self) -> Result<Vec<ItemId>, AllocError>
        ensures { IfOk result (λ items. AreConflicts self.now.revisions items.items) }
    {
        items_with_several(&self.index, self.alloc)
    }

    /// The revisions that a version of the item with this `below` supersedes, in version order. It
    /// costs a look-up, and at most two binary searches for each version of the item; nothing where nothing is below.
    #[tactic(auto, using(crate::proofs::RevisionLemmas::supersedes_none))]
    pub fn superseded(
        &self,
        item: ItemId,
        below: &ConciseVector,
    ) -> Result<Vec<Revision>, AllocError>
        ensures { IfOk result (λ left. left.items ≡ filter (supersedes item (vector_has below.now)) self.now.revisions) }
    {
        let mut left = Vec::new(self.alloc);
        if none_leave(&[], below) {
            return Ok(left);
        }
        for version in self.versions_of(item) {
            if let Some(revision) = self.revision_below(below, *version) {
                left.push(revision.copy()?)?;
            }
        }
        Ok(left)
    }

    // The revision of a version, if that is below.
    fn revision_below(&self, below: &ConciseVector, version: Version) -> Option<&Revision>
        ensures { option_copied result ≡ (if vector_has below.now version then revision_of self.now.revisions version else None) }
    {
        if below.contains(version) {
            self.revision(version)
        } else {
            None
        }
    }

    /// Whether some version of the item is one of these, or below.
    pub fn has_leaving(&self, item: ItemId, ones: &[Version], below: &ConciseVector) -> bool
        ensures { result ≡ list_any (supersedes item (leaves ones.now below.now)) self.now.revisions }
    {
        some_leave(ones, below, self.versions_of(item))
    }

    /// The revisions that these fragments cover and that no vector has, in version order. It costs
    /// a sort of the items that the fragments list, some binary searches for each run of versions that some
    /// vector has, and the test of each other revision.
    pub fn unheld(
        &self,
        learned: &[Fragment<ConciseVector>],
        held: &[ConciseVector],
    ) -> Result<Vec<Revision>, AllocError>
        ensures { IfOk result (λ left. left.items ≡ filter (λ r. is_unheld learned.now held.now r.item r.version) self.now.revisions) }
    {
        unheld_of(self.alloc, learned, held, self.revisions.as_slice())
    }

    /// Makes room for the revision. It costs a look-up, and for a later version of an item of which there is at most
    /// the first, a binary search.
    pub fn reserve(&mut self, revision: &Revision) -> Result<(), AllocError>
        ensures ok { OnOk result (self.new ≡ record { revisions = self.old.revisions; room = Some (room_of revision.now) }) }
        ensures err { OnErr result (self.new.revisions ≡ self.old.revisions) }
    {
        drop_room(&mut self.index, self.room);
        self.room = None;
        self.revisions.reserve_one()?;
        let room = Room::of(revision);
        make_room(
            &mut self.index,
            self.alloc,
            &room,
            self.revisions.as_slice(),
        )?;
        self.room = Some(room);
        Ok(())
    }

    /// Lets a revision enter, for which there is room. It costs a look-up, a binary search and a shift.
    pub fn put(&mut self, revision: Revision)
        requires room { self.old.room ≡ Some (room_of revision) }
        requires new { revision_of self.old.revisions revision.version ≡ None }
        ensures { self.new ≡ record { revisions = entered revision self.old.revisions; room = None } }
    {
        self.room = None;
        list(&mut self.index, revision.item(), revision.version());
        insert(&mut self.revisions, revision);
    }

    /// The revisions of the item leave whose version is one of these, or below. It costs a look-up for each
    /// version of the item, and a shift for each revision that leaves; nothing where nothing can leave.
    #[tactic(auto, using(crate::proofs::RevisionLemmas::left_by_none))]
    pub fn remove_leaving(&mut self, item: ItemId, ones: &[Version], below: &ConciseVector)
        ensures { self.new ≡ record { revisions = left_by item (leaves ones.now below.now) self.old.revisions; room = self.old.room } }
    {
        if none_leave(ones, below) {
            return;
        }
        let_leave(&mut self.revisions, &mut self.index, item, ones, below);
        drop_idle(&mut self.index, item, self.room);
    }

    /// The revisions leave that are of the version of one of these, which stand in version order. Where there are
    /// any, it costs a binary search among these for each revision, and one shift.
    pub fn remove_versions(&mut self, left: &[Revision])
        requires { AreInVersionOrder left.now }
        ensures { self.new ≡ record { revisions = filter (λ r. not (holds left.now r.version)) self.old.revisions; room = self.old.room } }
    {
        if left.is_empty() {
            return;
        }
        unlist_versions(&mut self.index, left, self.room);
        self.revisions.retain_others(left);
    }

    /// An equal list, which shares the revisions' parts. It costs a handle for each, and the index. It has
    /// no room.
    pub fn copy(&self) -> Result<RevisionList, AllocError>
        ensures { IfOk result (λ list. list ≡ record { revisions = self.now.revisions; room = None }) }
    {
        Ok(RevisionList {
            alloc: self.alloc,
            revisions: GapVector::from_vec(copies(self.alloc, self.revisions.as_slice())?),
            index: copied(&self.index, self.room)?,
            room: None,
        })
    }
}

// Takes the revision of the version out.
fn remove(revisions: &mut GapVector, version: Version)
    requires { AreInVersionOrder revisions.old.items }
    ensures items { revisions.new.items ≡ without version_of version revisions.old.items }
    ensures in_order { AreInVersionOrder revisions.new.items }
    ensures spare { revisions.old.spare ≤ revisions.new.spare }
{
    if let Ok(place) = search(revisions.as_slice(), version) {
        revisions.remove(place);
    }
}

// Takes out those versions of the item that leave. It costs one look-up, and where the item has no list, a binary
// search if its first version leaves.
fn let_leave(
    revisions: &mut GapVector,
    index: &mut BTreeMap<ItemId, Vec<Version>>,
    item: ItemId,
    ones: &[Version],
    below: &ConciseVector,
)
    requires in_order { AreInVersionOrder revisions.old.items }
    requires listed { MatchOption (listed_for index.old item) (has_later item (versions_of item revisions.old.items) ≡ false) (λ vs. vs ≡ versions_of item revisions.old.items) }
    ensures items { revisions.new.items ≡ left_by item (leaves ones.now below.now) revisions.old.items }
    ensures in_order { AreInVersionOrder revisions.new.items }
    ensures spare { revisions.old.spare ≤ revisions.new.spare }
    ensures lists { (i : Name) → listed_for index.new i ≡ (if name_eq item i then option_map (filter (λ v. not (leaves ones.now below.now v))) (listed_for index.old i) else listed_for index.old i) }
    ensures room { (room : Option Room) → HasRoomFor room index.old → HasRoomFor room index.new }
{
    match index.get_mut(&item) {
        Some(versions) => {
            remove_listed(revisions, versions, ones, below);
            retain_others(versions, ones, below);
        }
        None => remove_first(revisions, item, ones, below),
    }
}

// Takes out the first version of the item, of which there is no other, if it leaves.
fn remove_first(revisions: &mut GapVector, item: ItemId, ones: &[Version], below: &ConciseVector)
    requires in_order { AreInVersionOrder revisions.old.items }
    requires alone { has_later item (versions_of item revisions.old.items) ≡ false }
    ensures items { revisions.new.items ≡ left_by item (leaves ones.now below.now) revisions.old.items }
    ensures in_order { AreInVersionOrder revisions.new.items }
    ensures spare { revisions.old.spare ≤ revisions.new.spare }
{
    let first = item.creator();
    if leaves(ones, below, first) && !first_of(revisions.as_slice(), item).is_empty() {
        remove(revisions, first);
    }
}

// Takes out those of these versions that leave.
fn remove_listed(
    revisions: &mut GapVector,
    versions: &[Version],
    ones: &[Version],
    below: &ConciseVector,
)
    requires { AreInVersionOrder revisions.old.items }
    ensures items { revisions.new.items ≡ filter (λ r. not (is_listed versions.now r.version && leaves ones.now below.now r.version)) revisions.old.items }
    ensures in_order { AreInVersionOrder revisions.new.items }
    ensures spare { revisions.old.spare ≤ revisions.new.spare }
{
    for version in versions {
        if leaves(ones, below, *version) {
            remove(revisions, *version);
        }
    }
}

// Puts a revision at its place, where there is room.
fn insert(revisions: &mut GapVector, revision: Revision)
    requires in_order { AreInVersionOrder revisions.old.items }
    requires new { revision_of revisions.old.items revision.version ≡ None }
    requires room { 0 < revisions.old.spare }
    ensures items { revisions.new.items ≡ entered revision revisions.old.items }
    ensures in_order { AreInVersionOrder revisions.new.items }
{
    match search(revisions.as_slice(), revision.version()) {
        Ok(_) => unreachable!(),
        Err(place) => revisions.insert(place, revision),
    }
}

// Equal revisions, in the same order.
fn copies(alloc: Global, revisions: &[Revision]) -> Result<Vec<Revision>, AllocError>
    ensures { IfOk result (λ copied. copied.items ≡ revisions.now) }
{
    let mut copied = Vec::with_capacity(alloc, revisions.len())?;
    for revision in revisions {
        copied.push(revision.copy()?)?;
    }
    Ok(copied)
}
