//! The union of two vectors, in the first of them.
ghost use Rattle.std.specs.Prelude.{◌≡◌, ◌≤◌, ◌<◌, ◌+◌, ◌↔◌, ◌≢◌, true, false, IsTrue, IfOk, IfSome, IfNone, OnOk, OnErr, IsErrOf, Err};
ghost use Rattle.std.specs.Vec.{vec_len, vec_capacity};
ghost use Rattle.mr_forms.specs.Sets.{both, Covers, IsSame};
ghost use Rattle.mr_forms.specs.Runs.{of_author, with_run};
ghost use Rattle.mr_concise.specs.Source.{HasFewerHoles, HasAtLeastHoles};
ghost use Rattle.mr_concise.specs.Vector.{column_of, vector_has, IsVectorFrom, HasTooManyHoles, with_column};
ghost use Rattle.mr_concise.specs.inner.Vector.{AreColumns, with_columns};

use crate::source::OneColumn;
use crate::sweep::{gathered_column, has_fewer_holes, has_many_holes};
use crate::vector::{AuthorColumn, ConciseVector, column_at, place, put};
use mr_forms::{FormFault, Run};
use mr_version::Author;
use std::alloc::{AllocError, Global};

/// The column that the author of another one has, and that other one.
fn both_columns<'a>(a: &'a [AuthorColumn], x: &'a AuthorColumn) -> (OneColumn<'a>, OneColumn<'a>)
    requires { IsVectorFrom 0 a.now }
    ensures had { (result.0.author ≡ x.now.author) × (result.0.column ≡ column_of a.now x.now.author) }
    ensures added { (result.1.author ≡ x.now.author) × (result.1.column ≡ x.now.column) }
{
    let had = OneColumn {
        author: x.author,
        column: column_at(a, x.author),
    };
    let added = OneColumn {
        author: x.author,
        column: x.column.lent(),
    };
    (had, added)
}

/// Whether an author's column of what one of two vectors has would have fewer holes than so many. It allocates
/// nothing. It costs two searches; where both vectors have something of the author also a walk along the two
/// columns, no further than to the last of so many holes.
pub fn both_have_fewer_holes(
    a: &ConciseVector,
    b: &ConciseVector,
    author: Author,
    limit: usize,
) -> bool
    ensures fewer { result ≡ true → HasFewerHoles (of_author (both (vector_has a.now) (vector_has b.now)) author) limit }
    ensures no { result ≡ false → HasAtLeastHoles (of_author (both (vector_has a.now) (vector_has b.now)) author) limit }
{
    let had = column_at(a.author_columns(), author);
    let added = column_at(b.author_columns(), author);
    if added.upto() == 0 {
        return had.holes().len() < limit;
    }
    if had.upto() == 0 {
        return added.holes().len() < limit;
    }
    let columns = (
        OneColumn {
            author,
            column: had,
        },
        OneColumn {
            author,
            column: added,
        },
    );
    has_fewer_holes(&columns, author, limit)
}

/// Whether an author's columns put together have too many holes.
fn has_too_many(a: &[AuthorColumn], b: &[AuthorColumn]) -> bool
    requires a { IsVectorFrom 0 a.now }
    requires b { IsVectorFrom 0 b.now }
    ensures { IsTrue result ↔ HasTooManyHoles (both (vector_has a.now) (vector_has b.now)) }
{
    for x in b {
        if has_many_holes(&both_columns(a, x), x.author) {
            return true;
        }
    }
    false
}

/// The columns of a that change where those of b are put to them. `None` exactly where one would have too many holes.
fn changed_columns(
    alloc: Global,
    a: &[AuthorColumn],
    b: &[AuthorColumn],
) -> Result<Option<Vec<AuthorColumn>>, AllocError>
    requires a { IsVectorFrom 0 a.now }
    requires b { IsVectorFrom 0 b.now }
    ensures columns { IfOk result (λ changed. IfSome changed (λ v. AreColumns v.items)) }
    ensures vector { IfOk result (λ changed. IfSome changed (λ v. IsVectorFrom 0 (with_columns v.items a.now))) }
    ensures united { IfOk result (λ changed. IfSome changed (λ v. IsSame (vector_has (with_columns v.items a.now)) (both (vector_has a.now) (vector_has b.now)))) }
    ensures many { IfOk result (λ changed. IfNone changed (HasTooManyHoles (both (vector_has a.now) (vector_has b.now)))) }
{
    let mut changed = Vec::new(alloc);
    for x in b {
        let had = column_at(a, x.author);
        let added = x.column.lent();
        if !had.covers(&added) {
            let Some(column) = had.merged(&added, alloc)? else {
                return Ok(None);
            };
            changed.push(AuthorColumn {
                author: x.author,
                column,
            })?;
        }
    }
    Ok(Some(changed))
}

/// Puts a column in its author's place, where there is room for one.
fn put_in_room(columns: &mut Vec<AuthorColumn>, new: AuthorColumn)
    requires vector { IsVectorFrom 0 columns.old.items }
    requires room { vec_len columns.old < vec_capacity columns.old }
    ensures placed { columns.new.items ≡ with_column new columns.old.items }
    ensures len { vec_len columns.new ≤ vec_len columns.old + 1 }
    ensures capacity { vec_capacity columns.old ≤ vec_capacity columns.new }
{
    let at = place(columns, new.author);
    if at < columns.len() && columns[at].author.id() == new.author.id() {
        columns[at] = new;
    } else {
        let Ok(()) = columns.insert(at, new) else {
            unreachable!()
        };
    }
}

/// Puts columns in their authors' places. It asks for memory first, and then cannot fail.
fn put_all(columns: &mut Vec<AuthorColumn>, changed: Vec<AuthorColumn>) -> Result<(), AllocError>
    requires vector { IsVectorFrom 0 columns.old.items }
    requires columns { AreColumns changed.items }
    ensures ok { OnOk result (columns.new.items ≡ with_columns changed.items columns.old.items) }
    ensures err { OnErr result (columns.new.items ≡ columns.old.items) }
{
    columns.reserve(changed.len())?;
    for x in changed {
        put_in_room(columns, x);
    }
    Ok(())
}

/// Puts the columns of another vector to these. Those that do not change are not touched. Only where memory ends
/// the holes are counted, since too many of them are told first.
pub(crate) fn unite_columns(
    columns: &mut Vec<AuthorColumn>,
    alloc: Global,
    other: &[AuthorColumn],
) -> Result<(), FormFault>
    requires columns { IsVectorFrom 0 columns.old.items }
    requires other { IsVectorFrom 0 other.now }
    ensures columns { OnOk result (IsVectorFrom 0 columns.new.items) }
    ensures united { OnOk result (IsSame (vector_has columns.new.items) (both (vector_has columns.old.items) (vector_has other.now))) }
    ensures holes { IsErrOf result FormFault.TooManyHoles ↔ HasTooManyHoles (both (vector_has columns.old.items) (vector_has other.now)) }
    ensures items { result ≢ Err FormFault.TooManyItems }
    ensures err { OnErr result (columns.new.items ≡ columns.old.items) }
{
    let changed = match changed_columns(alloc, columns, other) {
        Ok(Some(changed)) => changed,
        Ok(None) => return Err(FormFault::TooManyHoles),
        Err(_) if has_too_many(columns, other) => return Err(FormFault::TooManyHoles),
        Err(_) => return Err(FormFault::OutOfMemory),
    };
    let Ok(()) = put_all(columns, changed) else {
        return Err(FormFault::OutOfMemory);
    };
    Ok(())
}

/// A run more, put together with the column that its author has.
pub(crate) fn unite_run(
    columns: &mut Vec<AuthorColumn>,
    alloc: Global,
    run: Run,
) -> Result<(), FormFault>
    requires columns { IsVectorFrom 0 columns.old.items }
    ensures columns { OnOk result (IsVectorFrom 0 columns.new.items) }
    ensures united { OnOk result (IsSame (vector_has columns.new.items) (with_run (vector_has columns.old.items) run)) }
    ensures holes { IsErrOf result FormFault.TooManyHoles ↔ HasTooManyHoles (with_run (vector_has columns.old.items) run) }
    ensures items { result ≢ Err FormFault.TooManyItems }
    ensures err { OnErr result (columns.new.items ≡ columns.old.items) }
{
    let author = run.author;
    let had = OneColumn {
        author,
        column: column_at(columns, author),
    };
    let source = (run, had);
    if has_many_holes(&source, author) {
        return Err(FormFault::TooManyHoles);
    }
    let Ok(column) = gathered_column(alloc, &source, author) else {
        return Err(FormFault::OutOfMemory);
    };
    let Ok(()) = put(columns, AuthorColumn { author, column }) else {
        return Err(FormFault::OutOfMemory);
    };
    Ok(())
}

/// Whether each column of b has nothing that the author's column of a lacks.
pub(crate) fn covers_columns(a: &[AuthorColumn], b: &[AuthorColumn]) -> bool
    requires a { IsVectorFrom 0 a.now }
    requires b { IsVectorFrom 0 b.now }
    ensures { IsTrue result ↔ Covers (vector_has a.now) (vector_has b.now) }
{
    for x in b {
        if !column_at(a, x.author).covers(&x.column.lent()) {
            return false;
        }
    }
    true
}
