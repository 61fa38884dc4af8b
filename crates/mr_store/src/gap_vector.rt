//! Revisions beside one another, with a gap at their front.
ghost use Rattle.std.specs.Prelude.{◌≡◌, ◌<◌, ◌≤◌, ◌+◌, [], OnOk, not, filter, length, drop, insert, remove, vec_len, vec_capacity};
ghost use Rattle.mr_store.specs.Revisions.{AreInVersionOrder, holds};

use crate::by_version::has_version;
use mr_madewith::Revision;
use std::alloc::{AllocError, Global};
use std::marker::Model;

/// A vector of revisions, of which the first can leave without a shift of all others.
///
/// What leaves from the first half is moved into a gap at the front, which no reader sees, and those before it move
/// up; what leaves from the second half goes, and those behind it move down. Where the gap becomes wider than a
/// 64th of all, it is let go, and the others are moved down once. So what leaves at the front costs a shift of
/// some 64 handles, one time with another, what leaves elsewhere that of half of them at most beside, and up to a
/// 64th of the revisions is kept a while longer.
#[derive(Drop)]
pub struct GapVector {
    // those before the end of the gap have left
    slots: Vec<Revision>,
    gap: usize,
}

impl Model for GapVector {
    ghost use Rattle.std.specs.Prelude.{◌≤◌, vec_len};
    ghost use Rattle.mr_store.specs.inner.GapVector.{GapParts, behind_gap};

    ghost Value = { GapParts };

    ghost view = { λ v. behind_gap v.slots v.gap };

    ghost invariant = { λ v. v.gap ≤ vec_len v.slots };
}

impl GapVector {
    /// An empty vector. It allocates nothing.
    pub fn new(alloc: Global) -> GapVector
        ensures { result.items ≡ [] }
    {
        GapVector::from_vec(Vec::new(alloc))
    }

    /// These revisions, with no gap.
    pub fn from_vec(revisions: Vec<Revision>) -> GapVector
        ensures { result.items ≡ revisions.items }
    {
        GapVector {
            slots: revisions,
            gap: 0,
        }
    }

    /// The revisions.
    pub fn as_slice(&self) -> &[Revision]
        ensures { result.now ≡ self.now.items }
    {
        &self.slots[self.gap..]
    }

    /// Makes room for one more.
    pub fn reserve_one(&mut self) -> Result<(), AllocError>
        ensures same { self.new.items ≡ self.old.items }
        ensures ok { OnOk result (0 < self.new.spare) }
    {
        self.slots.reserve(1)
    }

    /// Puts a revision at a place, where there is room. It costs a shift of those behind it.
    pub fn insert(&mut self, place: usize, revision: Revision)
        requires within { place ≤ length self.old.items }
        requires room { 0 < self.old.spare }
        ensures { self.new.items ≡ insert self.old.items place revision }
    {
        self.slots.insert(self.gap + place, revision).unwrap();
    }

    /// Takes the revision at a place out. It costs a shift of those before it or of those behind it, whichever are
    /// fewer, and of some 64 others, one time with another.
    pub fn remove(&mut self, place: usize)
        requires { place < length self.old.items }
        ensures items { self.new.items ≡ remove self.old.items place }
        ensures spare { self.old.spare ≤ self.new.spare }
    {
        if place < self.as_slice().len() / 2 {
            self.let_into_gap(place);
            self.close_wide_gap();
        } else {
            self.slots.remove(self.gap + place);
        }
    }

    /// Keeps those that are of the version of none of these, which stand in version order. It costs a binary
    /// search among these for each revision, and one shift.
    pub fn retain_others(&mut self, left: &[Revision])
        requires { AreInVersionOrder left.now }
        ensures items { self.new.items ≡ filter (λ r. not (holds left.now r.version)) self.old.items }
        ensures spare { self.old.spare ≤ self.new.spare }
    {
        let_front_go(&mut self.slots, self.gap);
        self.gap = 0;
        self.slots
            .retain(|revision| !has_version(left, revision.version()));
    }

    // Lets the revision at a place stand in the gap, and moves those before it up by one.
    fn let_into_gap(&mut self, place: usize)
        requires { place < length self.old.items }
        ensures items { self.new.items ≡ remove self.old.items place }
        ensures spare { self.new.spare ≡ self.old.spare }
    {
        move_to_front(&mut self.slots, self.gap, place);
        self.gap += 1;
    }

    // Closes the gap, if it is wider than a 64th of all.
    fn close_wide_gap(&mut self)
        ensures items { self.new.items ≡ self.old.items }
        ensures spare { self.old.spare ≤ self.new.spare }
    {
        if self.gap > self.slots.len() / 64 {
            let_front_go(&mut self.slots, self.gap);
            self.gap = 0;
        }
    }
}

// Lets the revisions before the place go, and moves the others down to the front.
fn let_front_go(slots: &mut Vec<Revision>, place: usize)
    requires { place ≤ vec_len slots.old }
    ensures items { slots.new.items ≡ drop place slots.old.items }
    ensures fewer { vec_len slots.new ≤ vec_len slots.old }
    ensures capacity { vec_capacity slots.new ≡ vec_capacity slots.old }
{
    let left = slots.len() - place;
    slots.rotate_left(place);
    slots.truncate(left);
}

// Moves the revision at a place behind the gap to the front of those there.
fn move_to_front(slots: &mut [Revision], gap: usize, place: usize)
    requires { gap + place < length slots.old }
    ensures others { drop (gap + 1) slots.new ≡ remove (drop gap slots.old) place }
    ensures len { length slots.new ≡ length slots.old }
{
    slots[gap..gap + place + 1].rotate_right(1);
}
