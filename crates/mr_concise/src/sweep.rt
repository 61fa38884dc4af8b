//! Vectors gathered of sources.
ghost use Rattle.std.specs.Prelude.{◌≡◌, ◌≤◌, ◌<◌, ◌↔◌, ◌≢◌, ℕ, true, false, IsTrue, IfOk, IsErrOf, Err, OnOk};
ghost use Rattle.mr_forms.specs.Sets.{IsSame, is_listed};
ghost use Rattle.mr_concise.specs.Column.{IsColumn};
ghost use Rattle.mr_forms.specs.Runs.{of_author};
ghost use Rattle.mr_concise.specs.Source.{IsColumnOf, HasHoles, HasFewerHoles, HasAtLeastHoles, ColumnsHaveAtMost};
ghost use Rattle.mr_concise.specs.inner.Source.{HasFewHoles, HasManyHoles};
ghost use Rattle.mr_concise.specs.Vector.{vector_has, IsVectorFrom, IsVectorOf, HasTooManyHoles};
ghost use Rattle.mr_concise.specs.Meet.{in_both};
ghost use Rattle.mr_concise.specs.inner.Meet.{meet_has};

use crate::column::{Column, Hole, MAX_HOLES};
use crate::source::{AnyOf, Source};
use crate::vector::{AuthorColumn, ConciseVector, column_at, next_author, put};
use mr_forms::{FormFault, PlainVersions, VersionSet};
use mr_version::{Author, Version};
use std::alloc::{AllocError, Global};

/// How many holes an author's column of a vector of the source would have. It allocates nothing.
pub fn hole_count<S: Source>(source: &S, author: Author) -> usize
    ensures { HasHoles (of_author (S.has source.now) author) result }
{
    let mut count = 0;
    let mut at = source.next_out(author, 1);
    while let Some(start) = source.next_in(author, at) {
        count += 1;
        at = source.next_out(author, start);
    }
    count
}

/// Whether an author's column of a vector of the source would have fewer holes than so many. It allocates
/// nothing, and walks no further along the column than to the last of so many holes.
pub fn has_fewer_holes<S: Source>(source: &S, author: Author, limit: usize) -> bool
    ensures fewer { result ≡ true → HasFewerHoles (of_author (S.has source.now) author) limit }
    ensures no { result ≡ false → HasAtLeastHoles (of_author (S.has source.now) author) limit }
{
    let mut count = 0;
    let mut at = source.next_out(author, 1);
    while count < limit {
        let Some(start) = source.next_in(author, at) else {
            return true;
        };
        count += 1;
        at = source.next_out(author, start);
    }
    false
}

/// Whether an author's column would have too many holes.
pub(crate) fn has_many_holes<S: Source>(source: &S, author: Author) -> bool
    ensures many { result ≡ true → HasManyHoles (of_author (S.has source.now) author) }
    ensures few { result ≡ false → HasFewHoles (of_author (S.has source.now) author) }
{
    hole_count(source, author) > MAX_HOLES
}

/// An author's column.
pub(crate) fn gathered_column<S: Source>(
    alloc: Global,
    source: &S,
    author: Author,
) -> Result<Column, AllocError>
    requires { HasFewHoles (of_author (S.has source.now) author) }
    ensures column { IfOk result IsColumn }
    ensures means { IfOk result (λ column. IsColumnOf (of_author (S.has source.now) author) column) }
{
    let mut holes = Vec::new(alloc);
    let mut at = source.next_out(author, 1);
    while let Some(start) = source.next_in(author, at) {
        holes.push(Hole {
            first: at,
            last: start - 1,
        })?;
        at = source.next_out(author, start);
    }
    Ok(Column::new(at - 1, holes))
}

/// Whether a vector of the source would have a column with more than 4,096 holes. It allocates nothing.
pub fn would_have_too_many<S: Source>(source: &S) -> bool
    ensures { IsTrue result ↔ HasTooManyHoles (S.has source.now) }
{
    let mut id = 0;
    while let Some(author) = source.next_author(id) {
        if has_many_holes(source, author) {
            return true;
        }
        id = author.id() + 1;
    }
    false
}

/// The most holes that a column of a vector of the source would have. It allocates nothing.
pub fn most_holes<S: Source>(source: &S) -> usize
    ensures most { ColumnsHaveAtMost (S.has source.now) result }
    ensures least { (n : ℕ) → ColumnsHaveAtMost (S.has source.now) n → result ≤ n }
{
    let mut most = 0;
    let mut id = 0;
    while let Some(author) = source.next_author(id) {
        most = hole_count(source, author).max(most);
        id = author.id() + 1;
    }
    most
}

/// The columns of all authors.
fn gathered_columns<S: Source>(alloc: Global, source: &S) -> Result<Vec<AuthorColumn>, AllocError>
    requires { HasTooManyHoles (S.has source.now) → ⊥ }
    ensures vector { IfOk result (λ columns. IsVectorFrom 0 columns.items) }
    ensures means { IfOk result (λ columns. IsSame (vector_has columns.items) (S.has source.now)) }
{
    let mut columns = Vec::new(alloc);
    let mut id = 0;
    while let Some(author) = source.next_author(id) {
        let column = gathered_column(alloc, source, author)?;
        if column.upto() > 0 {
            put(&mut columns, AuthorColumn { author, column })?;
        }
        id = author.id() + 1;
    }
    Ok(columns)
}

impl ConciseVector {
    /// All versions of a source in one vector: of a set, of several of them ([`AnyOf`](crate::AnyOf), a
    /// pair), or of none. `TooManyHoles` exactly where a column of them all has more than 4,096 holes,
    /// whatever some of them alone would have; `OutOfMemory` only after it. Nothing is allocated before
    /// the holes are counted.
    pub fn gather<S: Source>(alloc: Global, source: &S) -> Result<ConciseVector, FormFault>
        ensures ok { IfOk result (λ vector. IsSame (vector_has vector) (S.has source.now)) }
        ensures canonical { IfOk result (λ vector. IsVectorOf (S.has source.now) vector) }
        ensures holes { IsErrOf result FormFault.TooManyHoles ↔ HasTooManyHoles (S.has source.now) }
        ensures items { result ≢ Err FormFault.TooManyItems }
    {
        if would_have_too_many(source) {
            return Err(FormFault::TooManyHoles);
        }
        let Ok(columns) = gathered_columns(alloc, source) else {
            return Err(FormFault::OutOfMemory);
        };
        Ok(ConciseVector { alloc, columns })
    }
}

/// Two vectors of which the versions in both are wanted.
#[derive(Drop)]
struct Meet<'a> {
    a: &'a ConciseVector,
    b: &'a ConciseVector,
}

impl<'a> Source for Meet<'a> {
    ghost has = { meet_has };

    fn next_author(&self, id: u16) -> Option<Author> {
        next_author(self.a.author_columns(), id)
    }

    fn next_out(&self, author: Author, from: u32) -> u32 {
        let a = column_at(self.a.author_columns(), author).next_out(from);
        let b = column_at(self.b.author_columns(), author).next_out(from);
        a.min(b)
    }

    fn next_in(&self, author: Author, from: u32) -> Option<u32> {
        let a = column_at(self.a.author_columns(), author);
        let b = column_at(self.b.author_columns(), author);
        let mut at = from;
        loop {
            let there = a.next_in(at)?;
            let next = b.next_in(there)?;
            if next == there {
                return Some(next);
            }
            at = next;
        }
    }
}

impl ConciseVector {
    /// The versions that both have. `TooManyHoles` exactly where one of its columns would have more
    /// than 4,096 holes; `OutOfMemory` only after it.
    pub fn meet(&self, other: &ConciseVector) -> Result<ConciseVector, FormFault>
        ensures ok { IfOk result (λ meet. IsSame (vector_has meet) (in_both (vector_has self.now) (vector_has other.now))) }
        ensures canonical { IfOk result (λ meet. IsVectorOf (in_both (vector_has self.now) (vector_has other.now)) meet) }
        ensures holes { IsErrOf result FormFault.TooManyHoles ↔ HasTooManyHoles (in_both (vector_has self.now) (vector_has other.now)) }
        ensures items { result ≢ Err FormFault.TooManyItems }
    {
        ConciseVector::gather(self.alloc, &Meet { a: self, b: other })
    }
}

/// The vector of the versions, by way of their set, which brings them in order. It may run out of
/// memory before the holes are counted.
fn by_set(alloc: Global, versions: &[Version]) -> Result<ConciseVector, FormFault>
    ensures ok { IfOk result (λ vector. IsSame (vector_has vector) (is_listed versions.now)) }
    ensures canonical { IfOk result (λ vector. IsVectorOf (is_listed versions.now) vector) }
    ensures few { OnOk result (¬ HasTooManyHoles (is_listed versions.now)) }
    ensures holes { IsErrOf result FormFault.TooManyHoles → HasTooManyHoles (is_listed versions.now) }
    ensures items { result ≢ Err FormFault.TooManyItems }
{
    let mut set = PlainVersions::new(alloc);
    for version in versions {
        set.insert(*version)?;
    }
    ConciseVector::from_set(alloc, &set)
}

impl ConciseVector {
    /// The vector of these versions, in any order. `TooManyHoles` exactly where one of its columns
    /// would have more than 4,096 holes, whatever some of the versions alone would have;
    /// `OutOfMemory` only after it.
    ///
    /// It takes time for the versions times the logarithm of their number. Only where memory ends the
    /// holes are counted without any, which goes over the versions again and again.
    pub fn from_versions(alloc: Global, versions: &[Version]) -> Result<ConciseVector, FormFault>
        ensures ok { IfOk result (λ vector. IsSame (vector_has vector) (is_listed versions.now)) }
        ensures canonical { IfOk result (λ vector. IsVectorOf (is_listed versions.now) vector) }
        ensures holes { IsErrOf result FormFault.TooManyHoles ↔ HasTooManyHoles (is_listed versions.now) }
        ensures items { result ≢ Err FormFault.TooManyItems }
    {
        match by_set(alloc, versions) {
            Err(FormFault::OutOfMemory) => {
                if would_have_too_many(&AnyOf { sources: versions }) {
                    Err(FormFault::TooManyHoles)
                } else {
                    Err(FormFault::OutOfMemory)
                }
            }
            answer => answer,
        }
    }
}
