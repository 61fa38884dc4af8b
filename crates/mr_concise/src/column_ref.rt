//! A column that is lent, and questions that go up along it.
ghost use Rattle.std.specs.Prelude.{◌≡◌, ◌≤◌, ◌<◌, ◌+◌, ◌↔◌, ◌||◌, ℕ, true, false, MatchOption, IfOk, IfSome, IfNone, IsTrue};
ghost use Rattle.mr_concise.specs.Column.{Extent, IsColumn, column_has, empty_column};
ghost use Rattle.mr_concise.specs.inner.Column.{ColumnCovers};
ghost use Rattle.mr_concise.specs.Next.{IsNextOut, IsNextIn, HasNoneFrom};
ghost use Rattle.mr_concise.specs.inner.Next.{HasNoHoleFrom, IsHoleFrom, IsGapFrom};
ghost use Rattle.mr_concise.specs.Source.{IsColumnOf};
ghost use Rattle.mr_concise.specs.inner.Source.{HasManyHoles};

use crate::column::{COUNTERS_END, Column, Hole, MAX_HOLES};
use crate::holes::hole_place_near;
use mr_version::MAX_COUNTER;
use std::alloc::{AllocError, Global};
use std::cell::Cell;
use std::marker::Model;

/// A column that is lent: its bound and its holes.
///
/// Questions that go up along the column take no search, since each begins where the last one ended.
#[derive(Drop)]
pub(crate) struct ColumnRef<'a> {
    upto: u32,
    holes: &'a [Hole],
    /// How many holes ended below the counter of the last question.
    place: Cell<usize>,
}

impl<'a> Model for ColumnRef<'a> {
    ghost use Rattle.mr_concise.specs.Column.{Extent, extent_code, IsColumn};

    ghost Value = { Extent };

    ghost coded = { extent_code };

    ghost view = { λ a. record { upto = a.upto; holes = a.holes.now } };

    ghost invariant = { λ a. IsColumn (record { upto = a.upto; holes = a.holes.now }) };
}

impl<'a> ColumnRef<'a> {
    pub(crate) fn new(upto: u32, holes: &'a [Hole]) -> ColumnRef<'a>
        requires { IsColumn (record { upto = upto; holes = holes.now }) }
        ensures { result ≡ record { upto = upto; holes = holes.now } }
    {
        ColumnRef {
            upto,
            holes,
            place: Cell::new(0),
        }
    }

    /// The column with nothing in it.
    pub(crate) fn empty() -> ColumnRef<'a>
        ensures { result ≡ empty_column }
    {
        ColumnRef {
            upto: 0,
            holes: &[],
            place: Cell::new(0),
        }
    }

    /// The bound.
    pub(crate) fn upto(&self) -> u32
        ensures { result ≡ self.now.upto }
    {
        self.upto
    }

    /// The holes.
    pub(crate) fn holes(&self) -> &[Hole]
        ensures { result.now ≡ self.now.holes }
    {
        self.holes
    }

    /// The hole that has the counter, or else the first one after it.
    fn hole_from(&self, counter: u32) -> Option<Hole>
        requires { 1 ≤ counter }
        ensures { MatchOption result (HasNoHoleFrom (column_has self.now) self.now.upto counter) (λ hole. IsHoleFrom (column_has self.now) self.now.upto counter hole) }
    {
        let at = hole_place_near(self.holes, self.place.get(), counter);
        self.place.set(at);
        if at < self.holes.len() {
            Some(self.holes[at])
        } else {
            None
        }
    }

    /// The first counters from here on that are not covered: those of a hole, or those above the bound. `from`
    /// is 1 to 1,000,001.
    fn gap_from(&self, from: u32) -> Hole
        requires { (1 ≤ from) × (from ≤ COUNTERS_END) }
        ensures { IsGapFrom (column_has self.now) from result }
    {
        match self.hole_from(from) {
            Some(hole) => Hole {
                first: from.max(hole.first),
                last: hole.last,
            },
            None => Hole {
                first: from.max(self.upto + 1),
                last: COUNTERS_END,
            },
        }
    }

    /// The first counter from here on that is not covered.
    pub(crate) fn next_out(&self, from: u32) -> u32
        requires { 1 ≤ from }
        ensures next { IsNextOut (column_has self.now) from result }
        ensures bound { from ≤ COUNTERS_END → result ≤ COUNTERS_END }
    {
        match self.hole_from(from) {
            Some(hole) => from.max(hole.first),
            None => from.max(self.upto + 1),
        }
    }

    /// The first counter from here on that is covered.
    pub(crate) fn next_in(&self, from: u32) -> Option<u32>
        requires { 1 ≤ from }
        ensures next { MatchOption result (HasNoneFrom (column_has self.now) from) (λ at. IsNextIn (column_has self.now) from at) }
        ensures bound { IfSome result (λ at. at ≤ MAX_COUNTER) }
    {
        match self.hole_from(from) {
            Some(hole) if hole.first <= from => Some(hole.last + 1),
            _ if from <= self.upto => Some(from),
            _ => None,
        }
    }

    pub(crate) fn contains(&self, counter: u32) -> bool
        ensures { result ≡ column_has self.now counter }
    {
        1 <= counter && counter < self.next_out(counter)
    }

    /// Whether nothing in the hole is covered.
    fn has_none_in(&self, hole: &Hole) -> bool
        requires { 1 ≤ hole.now.first }
        ensures { IsTrue result ↔ ((c : ℕ) → hole.now.first ≤ c → c ≤ hole.now.last → column_has self.now c ≡ false) }
    {
        match self.next_in(hole.first) {
            Some(at) => hole.last < at,
            None => true,
        }
    }

    /// Whether all that the other column covers is covered: its bound is no higher, and it has nothing
    /// in the holes.
    pub(crate) fn covers(&self, other: &ColumnRef<'_>) -> bool
        ensures { IsTrue result ↔ ColumnCovers self.now other.now }
    {
        if other.upto > self.upto {
            return false;
        }
        for hole in self.holes {
            if !other.has_none_in(hole) {
                return false;
            }
        }
        true
    }

    /// What this column has or another one, which reaches no higher. `None` exactly where there would be too many
    /// holes. It costs a step for each hole of the two.
    fn merged_with_lower(
        &self,
        low: &ColumnRef<'_>,
        alloc: Global,
    ) -> Result<Option<Column>, AllocError>
        requires { low.now.upto ≤ self.now.upto }
        ensures column { IfOk result (λ column. IfSome column IsColumn) }
        ensures means { IfOk result (λ column. IfSome column (IsColumnOf (λ c. column_has self.now c || column_has low.now c))) }
        ensures many { IfOk result (λ column. IfNone column (HasManyHoles (λ c. column_has self.now c || column_has low.now c))) }
    {
        let upto = self.upto;
        let mut holes = Vec::with_capacity(alloc, self.holes.len())?;
        let mut from = 1;
        while let Some(hole) = self.hole_from(from) {
            let gap = low.gap_from(from);
            let first = gap.first.max(hole.first);
            let last = gap.last.min(hole.last);
            if first <= last {
                if holes.len() >= MAX_HOLES {
                    return Ok(None);
                }
                holes.push(Hole { first, last })?;
            }
            from = last + 1;
        }
        Ok(Some(Column::new(upto, holes)))
    }

    /// What one of two columns has. `None` exactly where there would be too many holes. It costs a step for each
    /// hole of the two.
    pub(crate) fn merged(
        &self,
        other: &ColumnRef<'_>,
        alloc: Global,
    ) -> Result<Option<Column>, AllocError>
        ensures column { IfOk result (λ column. IfSome column IsColumn) }
        ensures means { IfOk result (λ column. IfSome column (IsColumnOf (λ c. column_has self.now c || column_has other.now c))) }
        ensures many { IfOk result (λ column. IfNone column (HasManyHoles (λ c. column_has self.now c || column_has other.now c))) }
    {
        if other.upto <= self.upto {
            self.merged_with_lower(other, alloc)
        } else {
            other.merged_with_lower(self, alloc)
        }
    }
}
