//! What every set of versions does.
ghost use Rattle.std.specs.Prelude.{◌≡◌, ◌≤◌, ◌<◌, ◌-◌, ◌↔◌, ◌≢◌, false, OnOk, OnErr, IsErrOf, Err, [], ◌+◌, length};
ghost use Rattle.mr_forms.specs.Sets.{IsSame};
ghost use Rattle.mr_concise.specs.Column.{IsColumn};
ghost use Rattle.mr_concise.specs.Vector.{vector_has, IsVectorFrom, HasTooManyHoles, with_column};
ghost use Rattle.mr_concise.specs.inner.Vector.{with_one};
ghost use Rattle.mr_concise.specs.inner.Runs.{EndBefore, AddsRuns};

use crate::column::{Column, MAX_HOLES};
use crate::union::{covers_columns, unite_columns, unite_run};
use crate::vector::{AuthorColumn, ConciseVector, column_at, next_author, place, put};
use mr_forms::{FormFault, Run, VersionSet};
use mr_version::{Author, MAX_COUNTER, Version};
use std::alloc::{AllocError, Global};

impl VersionSet for ConciseVector {
    ghost has = { vector_has };

    ghost has_too_many_holes = { HasTooManyHoles };

    fn new(alloc: Global) -> ConciseVector
        ensures is { result ≡ [] }
        ensures none { IsSame (vector_has result) (λ _. false) }
    {
        ConciseVector {
            alloc,
            columns: Vec::new(alloc),
        }
    }

    fn copy(&self) -> Result<ConciseVector, FormFault> {
        Ok(ConciseVector::copy(self)?)
    }

    fn contains(&self, version: Version) -> bool {
        column_at(&self.columns, version.author()).contains(version.counter())
    }

    fn next_author(&self, id: u16) -> Option<Author> {
        next_author(&self.columns, id)
    }

    fn run_from(&self, author: Author, from: u32) -> Option<Run> {
        let column = column_at(&self.columns, author);
        let first = column.next_in(from)?;
        let after = column.next_out(first);
        Some(Run {
            author,
            first,
            last: after - 1,
        })
    }

    fn insert(&mut self, version: Version) -> Result<(), FormFault> {
        let alloc = self.alloc;
        insert_in(
            &mut self.columns,
            alloc,
            version.author(),
            version.counter(),
        )
    }

    fn insert_range(&mut self, run: Run) -> Result<(), FormFault> {
        let alloc = self.alloc;
        unite_run(&mut self.columns, alloc, run)
    }

    fn union(&mut self, other: &ConciseVector) -> Result<(), FormFault> {
        let alloc = self.alloc;
        unite_columns(&mut self.columns, alloc, other.author_columns())
    }

    fn covers(&self, other: &ConciseVector) -> bool {
        covers_columns(&self.columns, &other.columns)
    }

    fn columns(&self) -> Result<Vec<Run>, FormFault> {
        let mut runs = Vec::with_capacity(self.alloc, self.columns.len())?;
        for x in &self.columns {
            push_runs(x, &mut runs)?;
        }
        Ok(runs)
    }
}

/// One version more, in its author's column.
fn insert_in(
    columns: &mut Vec<AuthorColumn>,
    alloc: Global,
    author: Author,
    counter: u32,
) -> Result<(), FormFault>
    requires columns { IsVectorFrom 0 columns.old.items }
    requires counter { (1 ≤ counter) × (counter ≤ MAX_COUNTER) }
    ensures ok { OnOk result (columns.new.items ≡ with_column (with_one columns.old.items author counter) columns.old.items) }
    ensures many { IsErrOf result FormFault.TooManyHoles ↔ (MAX_HOLES < length (with_one columns.old.items author counter).column.holes) }
    ensures items { result ≢ Err FormFault.TooManyItems }
    ensures err { OnErr result (columns.new.items ≡ columns.old.items) }
{
    let at = place(columns, author);
    if at < columns.len() && columns[at].author.id() == author.id() {
        let found = &mut columns[at];
        return found.column.insert(counter);
    }
    let mut column = Column::empty(alloc);
    let Ok(()) = column.insert(counter) else {
        return Err(FormFault::OutOfMemory);
    };
    let Ok(()) = put(columns, AuthorColumn { author, column }) else {
        return Err(FormFault::OutOfMemory);
    };
    Ok(())
}

/// The runs of a column, put behind those of lower authors.
fn push_runs(x: &AuthorColumn, runs: &mut Vec<Run>) -> Result<(), AllocError>
    requires column { IsColumn x.now.column }
    requires some { 1 ≤ x.now.column.upto }
    requires before { EndBefore x.now.author 1 runs.old.items }
    ensures { OnOk result (AddsRuns x.now.author x.now.column runs.old.items runs.new.items) }
{
    let mut start = 1;
    for hole in x.column.holes() {
        if start < hole.first {
            runs.push(Run {
                author: x.author,
                first: start,
                last: hole.first - 1,
            })?;
        }
        start = hole.last + 1;
    }
    runs.push(Run {
        author: x.author,
        first: start,
        last: x.column.upto(),
    })?;
    Ok(())
}
