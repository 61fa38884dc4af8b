//! The counters of one author, as a bound with holes.
ghost use Rattle.std.specs.Prelude.{◌≡◌, ◌≤◌, ◌<◌, ◌+◌, ◌-◌, ◌++◌, ◌↔◌, true, false, length, IfOk, OnOk, OnErr, IsErrOf, Err, ◌≢◌};
ghost use Rattle.mr_concise.specs.Column.{Extent, IsColumn, column_has, empty_column, gap, with_counter};

use crate::column_ref::ColumnRef;
use crate::holes::{fill, filled_count};
use mr_forms::{FormFault, Run};
use mr_version::MAX_COUNTER;
use std::alloc::{AllocError, Global};
use std::marker::Model;

/// The most holes that a column has.
pub const MAX_HOLES: usize = 4096;

/// One past the highest counter of a version: where the counters of an author end.
pub const COUNTERS_END: u32 = MAX_COUNTER + 1;

/// Counters that a column does not cover, from the first to the last.
#[derive(Clone, Copy, Debug, PartialEq, Eq)]
pub struct Hole {
    /// The lowest counter that is not covered.
    pub first: u32,
    /// The highest of them.
    pub last: u32,
}

/// The counters of one author that are covered: 1 to a bound that is covered, but for the holes.
#[derive(Debug, Drop)]
pub struct Column {
    upto: u32,
    holes: Vec<Hole>,
}

impl Model for Column {
    ghost use Rattle.mr_concise.specs.Column.{Extent, extent_code, IsColumn};

    ghost Value = { Extent };

    ghost coded = { extent_code };

    ghost view = { λ a. record { upto = a.upto; holes = a.holes.items } };

    ghost invariant = { λ a. IsColumn (record { upto = a.upto; holes = a.holes.items }) };
}

impl Column {
    /// The column with nothing in it.
    pub(crate) fn empty(alloc: Global) -> Column
        ensures { result ≡ empty_column }
    {
        Column {
            upto: 0,
            holes: Vec::new(alloc),
        }
    }

    /// The column with this bound and these holes, where they are as those of a column are.
    pub fn new(upto: u32, holes: Vec<Hole>) -> Column
        requires { IsColumn (record { upto = upto; holes = holes.items }) }
        ensures { result ≡ record { upto = upto; holes = holes.items } }
    {
        Column { upto, holes }
    }

    /// The bound: the highest counter that is covered, up to 1,000,000, or 0 where none is.
    pub fn upto(&self) -> u32
        ensures { result ≡ self.now.upto }
    {
        self.upto
    }

    /// The holes, by rising counters. A covered counter stands between two of them, and above the last.
    pub fn holes(&self) -> &[Hole]
        ensures { result.now ≡ self.now.holes }
    {
        self.holes.as_slice()
    }

    /// The column, lent.
    pub(crate) fn lent(&self) -> ColumnRef<'_>
        ensures { result ≡ self.now }
    {
        ColumnRef::new(self.upto, self.holes.as_slice())
    }

    /// Whether the counter is covered: it is 1 or more, at or below the bound, and in no hole.
    pub fn contains(&self, counter: u32) -> bool
        ensures { result ≡ column_has self.now counter }
    {
        self.lent().contains(counter)
    }

    /// How many holes the column has with one counter more.
    fn hole_count_with(&self, counter: u32) -> usize
        requires { 1 ≤ counter }
        ensures { result ≡ length (with_counter self.now counter).holes }
    {
        if counter > self.upto {
            if counter > self.upto + 1 {
                self.holes.len() + 1
            } else {
                self.holes.len()
            }
        } else {
            filled_count(&self.holes, counter)
        }
    }

    /// One counter more, where that leaves few enough holes.
    fn put(&mut self, counter: u32) -> Result<(), AllocError>
        requires counter { (1 ≤ counter) × (counter ≤ MAX_COUNTER) }
        requires few { length (with_counter self.old counter).holes ≤ MAX_HOLES }
        ensures ok { OnOk result (self.new ≡ with_counter self.old counter) }
        ensures err { OnErr result (self.new ≡ self.old) }
    {
        if counter > self.upto {
            if counter > self.upto + 1 {
                self.holes.push(Hole {
                    first: self.upto + 1,
                    last: counter - 1,
                })?;
            }
            self.upto = counter;
        } else {
            fill(&mut self.holes, counter)?;
        }
        Ok(())
    }

    /// One counter more. `TooManyHoles` where that leaves more than 4,096 holes.
    pub(crate) fn insert(&mut self, counter: u32) -> Result<(), FormFault>
        requires { (1 ≤ counter) × (counter ≤ MAX_COUNTER) }
        ensures ok { OnOk result (self.new ≡ with_counter self.old counter) }
        ensures many { IsErrOf result FormFault.TooManyHoles ↔ (MAX_HOLES < length (with_counter self.old counter).holes) }
        ensures items { result ≢ Err FormFault.TooManyItems }
        ensures err { OnErr result (self.new ≡ self.old) }
    {
        if self.hole_count_with(counter) > MAX_HOLES {
            return Err(FormFault::TooManyHoles);
        }
        if self.put(counter).is_err() {
            return Err(FormFault::OutOfMemory);
        }
        Ok(())
    }

    /// A run more, which begins above the bound. `false` where that would leave more than 4,096 holes.
    pub(crate) fn append(&mut self, run: Run) -> Result<bool, AllocError>
        requires { self.old.upto < run.first }
        ensures { IfOk result (λ done. done ≡ true → (self.new ≡ record { upto = run.last; holes = self.old.holes ++ gap (self.old.upto + 1) (run.first - 1) }) × IsColumn self.new) }
    {
        if self.upto + 1 < run.first {
            if self.holes.len() >= MAX_HOLES {
                return Ok(false);
            }
            self.holes.push(Hole {
                first: self.upto + 1,
                last: run.first - 1,
            })?;
        }
        self.upto = run.last;
        Ok(true)
    }

    /// An equal column.
    pub fn copy(&self) -> Result<Column, AllocError>
        ensures { IfOk result (λ c. c ≡ self.now) }
    {
        Ok(Column {
            upto: self.upto,
            holes: self.holes.clone()?,
        })
    }
}
