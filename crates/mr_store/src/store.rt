//! The store: heads and push-outs.
ghost use Rattle.std.specs.Prelude.{◌≡◌, ◌++◌, not, [], ◌∷◌, None, IfOk, OnOk, OnErr, filter};
ghost use Rattle.std.specs.List.{list_any};
ghost use Rattle.std.specs.Option.{option_copied};
ghost use Rattle.mr_concise.specs.Vector.{vector_has};
ghost use Rattle.mr_store.specs.Leaving.{leaves};
ghost use Rattle.mr_store.specs.Revisions.{AreInVersionOrder, AreApart, revision_of, holds, versions_of, supersedes, left_by, AreConflicts};
ghost use Rattle.mr_store.specs.Unheld.{is_unheld};

use crate::revision_list::RevisionList;
use mr_concise::ConciseVector;
use mr_forms::Fragment;
use mr_madewith::Revision;
use mr_version::{ItemId, Version};
use std::alloc::{AllocError, Global};
use std::marker::Model;

/// The parts of a store.
#[derive(Clone, Copy, Debug, PartialEq, Eq)]
pub enum Part {
    /// The revisions that the replica's filter selects.
    Heads,
    /// Those that it holds until another replica has them.
    PushOuts,
}

/// The held revisions of a replica: its heads, and its push-outs.
///
/// Both lists stand in version order, and no version is in both. An edit of one item looks at no
/// other's revisions. What it needs beside a handle for each revision is an index of the items of which a list has
/// more than the first version.
#[derive(Drop)]
pub struct Store {
    heads: RevisionList,
    push_outs: RevisionList,
}

impl Model for Store {
    ghost use Rattle.mr_store.specs.Revisions.{AreApart};
    ghost use Rattle.mr_store.specs.Holdings.{Holdings};

    ghost Value = { Holdings };

    ghost view = { λ s. record { heads = s.heads.revisions; push_outs = s.push_outs.revisions; head_room = s.heads.room; push_out_room = s.push_outs.room } };

    ghost invariant = { λ s. AreApart s.heads.revisions s.push_outs.revisions };
}

impl Store {
    ghost use Rattle.mr_store.specs.Holdings.{room_in, with_room, put_in};
    ghost use Rattle.mr_store.specs.Parts.{other_part};
    ghost use Rattle.mr_store.specs.Room.{room_of};

    /// An empty store. It allocates nothing.
    pub fn new(alloc: Global) -> Store
        ensures { result ≡ record { heads = []; push_outs = []; head_room = None; push_out_room = None } }
    {
        Store {
            heads: RevisionList::new(alloc),
            push_outs: RevisionList::new(alloc),
        }
    }

    // ---- readers

    /// The heads, in version order.
    pub fn heads(&self) -> &[Revision]
        ensures all { result.now ≡ self.now.heads }
        ensures in_order { AreInVersionOrder self.now.heads }
    {
        self.heads.revisions()
    }

    /// The push-outs, in version order. None of them has the version of a head.
    pub fn push_outs(&self) -> &[Revision]
        ensures all { result.now ≡ self.now.push_outs }
        ensures in_order { AreInVersionOrder self.now.push_outs }
        ensures apart { AreApart self.now.heads self.now.push_outs }
    {
        self.push_outs.revisions()
    }

    /// The head of a version. It costs a binary search.
    pub fn head(&self, version: Version) -> Option<&Revision>
        ensures { option_copied result ≡ revision_of self.now.heads version }
    {
        self.heads.revision(version)
    }

    /// The revision of a version that is held, as a head or a push-out. It costs two binary searches.
    pub fn held(&self, version: Version) -> Option<&Revision>
        ensures { option_copied result ≡ revision_of (self.now.heads ++ self.now.push_outs) version }
    {
        match self.heads.revision(version) {
            Some(revision) => Some(revision),
            None => self.push_outs.revision(version),
        }
    }

    /// The versions of an item's heads, in version order. It costs a look-up, and where at most the item's first
    /// version is a head, a binary search.
    pub fn heads_of(&self, item: ItemId) -> &[Version]
        ensures { result.now ≡ versions_of item self.now.heads }
    {
        self.heads.versions_of(item)
    }

    /// The versions of an item's push-outs, in version order. It costs a look-up, and where at most the item's
    /// first version is a push-out, a binary search.
    pub fn push_outs_of(&self, item: ItemId) -> &[Version]
        ensures { result.now ≡ versions_of item self.now.push_outs }
    {
        self.push_outs.versions_of(item)
    }

    /// The items with two or more heads, in rising order. It costs a walk over the items that have
    /// another head than their first version.
    pub fn conflicts(&self) -> Result<Vec<ItemId>, AllocError>
        ensures { IfOk result (λ items. AreConflicts self.now.heads items.items) }
    {
        self.heads.conflicts()
    }

    /// The heads that a version of the item with this `below` supersedes, in version order. It costs
    /// a look-up, and at most two binary searches for each head of the item.
    pub fn superseded(
        &self,
        item: ItemId,
        below: &ConciseVector,
    ) -> Result<Vec<Revision>, AllocError>
        ensures { IfOk result (λ left. left.items ≡ filter (supersedes item (vector_has below.now)) self.now.heads) }
    {
        self.heads.superseded(item, below)
    }

    /// The heads that these fragments cover and that no vector has, in version order. It costs a sort of
    /// the items that the fragments list. A run of versions that some vector has is passed by three binary searches,
    /// or more where it goes on from vector to vector; so is, where nothing is listed, a run that no fragment has. Each
    /// other head costs two binary searches in each vector, two among all those items, and two in the vector of
    /// each fragment that is of the head's item.
    pub fn unheld(
        &self,
        learned: &[Fragment<ConciseVector>],
        held: &[ConciseVector],
    ) -> Result<Vec<Revision>, AllocError>
        ensures { IfOk result (λ left. left.items ≡ filter (λ r. is_unheld learned.now held.now r.item r.version) self.now.heads) }
    {
        self.heads.unheld(learned, held)
    }

    // ---- changes

    /// Makes room for the revision in the part, in place of the room that the part had. The other part keeps
    /// the room that it has, also where memory is wanting; what room this part has then is not said. It costs
    /// a look-up, and where the revision is a later one of an item of which the part has at most the first, a
    /// binary search.
    pub fn reserve(&mut self, part: Part, revision: &Revision) -> Result<(), AllocError>
        ensures ok { OnOk result (self.new ≡ with_room part revision.now self.old) }
        ensures heads { self.new.heads ≡ self.old.heads }
        ensures push_outs { self.new.push_outs ≡ self.old.push_outs }
        ensures other { room_in (other_part part) self.new ≡ room_in (other_part part) self.old }
    {
        match part {
            Part::Heads => self.heads.reserve(revision),
            Part::PushOuts => self.push_outs.reserve(revision),
        }
    }

    /// Lets a revision enter a part, with the memory that it needs. Where memory is refused, both parts stay as
    /// they are. It costs what [`Store::reserve`] and [`Store::enter`] cost, which do the same apart.
    pub fn put(&mut self, part: Part, revision: Revision) -> Result<(), AllocError>
        requires new { revision_of (self.old.heads ++ self.old.push_outs) revision.version ≡ None }
        ensures ok { OnOk result (self.new ≡ put_in part revision (with_room part revision self.old)) }
        ensures err { OnErr result ((self.new.heads ≡ self.old.heads) × (self.new.push_outs ≡ self.old.push_outs)) }
    {
        self.reserve(part, &revision)?;
        self.enter(part, revision);
        Ok(())
    }

    /// Lets a revision enter a part, where there is room for it: it can't fail. It costs a look-up, a binary
    /// search and a shift of handles.
    pub fn enter(&mut self, part: Part, revision: Revision)
        requires room { room_in part self.old ≡ Some (room_of revision) }
        requires new { revision_of (self.old.heads ++ self.old.push_outs) revision.version ≡ None }
        ensures { self.new ≡ put_in part revision self.old }
    {
        match part {
            Part::Heads => self.heads.put(revision),
            Part::PushOuts => self.push_outs.put(revision),
        }
    }

    /// What a version of the item with this `below` supersedes leaves both parts: it can't fail. It
    /// costs a look-up for each held version of the item, and a shift for each revision that leaves.
    pub fn remove_below(&mut self, item: ItemId, below: &ConciseVector)
        ensures { self.new ≡ record self.old { heads = left_by item (vector_has below.now) self.old.heads; push_outs = left_by item (vector_has below.now) self.old.push_outs } }
    {
        self.heads.remove_leaving(item, &[], below);
        self.push_outs.remove_leaving(item, &[], below);
    }

    /// What a version of the item with this `below` supersedes leaves both parts. The heads that left
    /// are given, in version order. A replica does the two things apart, by `superseded` and `remove_below`: of this
    /// project only a test calls this.
    pub fn drop_below(
        &mut self,
        item: ItemId,
        below: &ConciseVector,
    ) -> Result<Vec<Revision>, AllocError>
        ensures left { IfOk result (λ left. left.items ≡ filter (supersedes item (vector_has below.now)) self.old.heads) }
        ensures ok { OnOk result (self.new ≡ record self.old { heads = left_by item (vector_has below.now) self.old.heads; push_outs = left_by item (vector_has below.now) self.old.push_outs }) }
        ensures err { OnErr result (self.new ≡ self.old) }
    {
        let left = self.superseded(item, below)?;
        self.remove_below(item, below);
        Ok(left)
    }

    /// The heads leave that are of the version of one of these revisions, which stand in version order;
    /// push-outs stay. It can't fail. Where there are any, it costs a binary search among these for each
    /// head, and one shift.
    pub fn remove_heads(&mut self, left: &[Revision])
        requires { AreInVersionOrder left.now }
        ensures { self.new ≡ record self.old { heads = filter (λ r. not (holds left.now r.version)) self.old.heads } }
    {
        self.heads.remove_versions(left);
    }

    /// The heads that these fragments cover and that no vector has leave; push-outs stay. Those that
    /// left are given, in version order. A replica does the two things apart, by `unheld` and `remove_heads`: of this
    /// project only a test calls this.
    pub fn drop_unheld(
        &mut self,
        learned: &[Fragment<ConciseVector>],
        held: &[ConciseVector],
    ) -> Result<Vec<Revision>, AllocError>
        ensures left { IfOk result (λ left. left.items ≡ filter (λ r. is_unheld learned.now held.now r.item r.version) self.old.heads) }
        ensures ok { OnOk result (self.new ≡ record self.old { heads = filter (λ r. not (is_unheld learned.now held.now r.item r.version)) self.old.heads }) }
        ensures err { OnErr result (self.new ≡ self.old) }
    {
        let left = self.unheld(learned, held)?;
        // the heads stand in version order
        let _heads = self.heads();
        self.remove_heads(&left);
        Ok(left)
    }

    /// The push-outs of the item that are of this version, or below it, leave; heads stay. It answers
    /// whether there were any.
    pub fn drop_push_outs(&mut self, item: ItemId, version: Version, below: &ConciseVector) -> bool
        ensures any { result ≡ list_any (supersedes item (leaves (version ∷ []) below.now)) self.old.push_outs }
        ensures left { self.new ≡ record self.old { push_outs = left_by item (leaves (version ∷ []) below.now) self.old.push_outs } }
    {
        let any = self.push_outs.has_leaving(item, &[version], below);
        self.push_outs.remove_leaving(item, &[version], below);
        any
    }

    /// An equal store, which shares the revisions' parts. It costs a handle for each, and the indexes. It
    /// has no room.
    pub fn copy(&self) -> Result<Store, AllocError>
        ensures { IfOk result (λ store. store ≡ record { heads = self.now.heads; push_outs = self.now.push_outs; head_room = None; push_out_room = None }) }
    {
        Ok(Store {
            heads: self.heads.copy()?,
            push_outs: self.push_outs.copy()?,
        })
    }
}
