//! The vector, its columns and its text.
ghost use Rattle.std.specs.Prelude.{◌≡◌, ◌≤◌, ◌<◌, true, false, nat_lt, length, IfOk, OnOk, OnErr, MatchOption, Some, string_bytes};
ghost use Rattle.mr_concise.specs.Last.{IsLast};
ghost use Rattle.mr_forms.specs.Runs.{HasNoneOf, HasNoAuthorFrom, IsNextAuthor};
ghost use Rattle.std.specs.List.Sorted.{IsPartitionPoint};
ghost use Rattle.mr_concise.specs.Vector.{column_of, vector_has, IsVectorFrom, with_column};
ghost use Rattle.mr_concise.specs.Text.{hole_text, column_text, vector_text};

use crate::column::{Column, Hole};
use crate::column_ref::ColumnRef;
use mr_version::Author;
use std::alloc::{AllocError, Global};
use std::fmt;
use std::marker::Model;

/// An author's column.
#[derive(Debug, Drop)]
pub struct AuthorColumn {
    pub author: Author,
    pub column: Column,
}

impl AuthorColumn {
    /// An equal column of the same author.
    pub fn copy(&self) -> Result<AuthorColumn, AllocError>
        ensures { IfOk result (λ column. column ≡ self.now) }
    {
        Ok(AuthorColumn {
            author: self.author,
            column: self.column.copy()?,
        })
    }
}

/// A set of versions, one column for each author that has some.
#[derive(Debug, Drop)]
pub struct ConciseVector {
    pub(crate) alloc: Global,
    pub(crate) columns: Vec<AuthorColumn>,
}

impl Model for ConciseVector {
    ghost use Rattle.std.specs.Prelude.{List};
    ghost use Rattle.std.specs.Coded.{coded_list};
    ghost use Rattle.mr_concise.specs.declared.vector.AuthorColumn.{AuthorColumn};
    ghost use Rattle.mr_concise.specs.Vector.{author_column_code, IsVectorFrom};

    ghost Value = { List AuthorColumn };

    ghost coded = { coded_list author_column_code };

    ghost view = { λ a. a.columns.items };

    ghost invariant = { λ a. IsVectorFrom 0 a.columns.items };
}

/// How many columns have an author with a lower id.
fn place_of_id(columns: &[AuthorColumn], id: u16) -> usize
    requires { IsVectorFrom 0 columns.now }
    ensures bound { result ≤ length columns.now }
    ensures place { IsPartitionPoint (λ x. nat_lt x.author id ≡ true) (λ x. nat_lt x.author id ≡ false) columns.now result }
{
    columns.partition_point(|x| x.author.id() < id)
}

/// How many columns have a lower author.
pub(crate) fn place(columns: &[AuthorColumn], author: Author) -> usize
    requires { IsVectorFrom 0 columns.now }
    ensures bound { result ≤ length columns.now }
    ensures place { IsPartitionPoint (λ x. nat_lt x.author author ≡ true) (λ x. nat_lt x.author author ≡ false) columns.now result }
{
    place_of_id(columns, author.id())
}

/// The next author, from this id on, who has a column.
pub(crate) fn next_author(columns: &[AuthorColumn], id: u16) -> Option<Author>
    requires { IsVectorFrom 0 columns.now }
    ensures { MatchOption result (HasNoAuthorFrom (vector_has columns.now) id) (λ author. IsNextAuthor (vector_has columns.now) id author) }
{
    let at = place_of_id(columns, id);
    if at < columns.len() {
        Some(columns[at].author)
    } else {
        None
    }
}

/// The author's column, or the empty one.
pub(crate) fn column_at(columns: &[AuthorColumn], author: Author) -> ColumnRef<'_>
    requires { IsVectorFrom 0 columns.now }
    ensures { result ≡ column_of columns.now author }
{
    let at = place(columns, author);
    if at < columns.len() {
        let found = &columns[at];
        if found.author.id() == author.id() {
            return found.column.lent();
        }
    }
    ColumnRef::empty()
}

/// Puts a column in its author's place.
pub(crate) fn put(columns: &mut Vec<AuthorColumn>, new: AuthorColumn) -> Result<(), AllocError>
    requires { IsVectorFrom 0 columns.old.items }
    ensures ok { OnOk result (columns.new.items ≡ with_column new columns.old.items) }
    ensures err { OnErr result (columns.new.items ≡ columns.old.items) }
{
    let at = place(columns, new.author);
    if at == columns.len() {
        columns.push(new)?;
    } else if columns[at].author.id() == new.author.id() {
        columns[at] = new;
    } else {
        columns.insert(at, new)?;
    }
    Ok(())
}

impl ConciseVector {
    /// The vector with these columns, which stand by rising author, and of which none is empty.
    pub fn from_columns(alloc: Global, columns: Vec<AuthorColumn>) -> ConciseVector
        requires { IsVectorFrom 0 columns.items }
        ensures { result ≡ columns.items }
    {
        ConciseVector { alloc, columns }
    }

    /// The columns, by rising author. None is empty.
    pub fn author_columns(&self) -> &[AuthorColumn]
        ensures is { result.now ≡ self.now }
        ensures vector { IsVectorFrom 0 self.now }
    {
        self.columns.as_slice()
    }

    /// An equal vector. It costs a copy of the columns.
    pub fn copy(&self) -> Result<ConciseVector, AllocError>
        ensures { IfOk result (λ vector. vector ≡ self.now) }
    {
        let mut columns = Vec::with_capacity(self.alloc, self.columns.len())?;
        for x in &self.columns {
            columns.push(x.copy()?)?;
        }
        Ok(ConciseVector {
            alloc: self.alloc,
            columns,
        })
    }

    /// The author's highest counter that the set has.
    pub fn last(&self, author: Author) -> Option<u32>
        ensures { MatchOption result (HasNoneOf (vector_has self.now) author) (λ counter. IsLast (vector_has self.now) author counter) }
    {
        let upto = column_at(&self.columns, author).upto();
        if upto > 0 { Some(upto) } else { None }
    }
}

/// Writes `!2`, or `!5..7` for more than one counter.
impl fmt::Display for Hole {
    ghost output = { λ hole. Some (hole_text hole) };

    fn fmt<W: fmt::Write>(&self, f: &mut fmt::Formatter<W>) -> fmt::Result {
        if self.first == self.last {
            write!(f, "!{}", self.first)
        } else {
            write!(f, "!{}..{}", self.first, self.last)
        }
    }
}

/// Writes the author, the bound and the holes, as `0:9!2!5..7`.
impl fmt::Display for AuthorColumn {
    ghost output = { λ x. Some (column_text x) };

    fn fmt<W: fmt::Write>(&self, f: &mut fmt::Formatter<W>) -> fmt::Result {
        write!(f, "{}:{}", self.author, self.column.upto())?;
        for hole in self.column.holes() {
            write!(f, "{hole}")?;
        }
        Ok(())
    }
}

/// Writes the columns with commas between them, as `0:9!2,1:4`, or `-` where there is none.
impl fmt::Display for ConciseVector {
    ghost output = { λ vector. Some (vector_text vector) };

    fn fmt<W: fmt::Write>(&self, f: &mut fmt::Formatter<W>) -> fmt::Result {
        match self.author_columns() {
            [] => write!(f, "-"),
            [first, rest @ ..] => {
                write!(f, "{first}")?;
                for x in rest {
                    write!(f, ",{x}")?;
                }
                Ok(())
            }
        }
    }
}

impl ConciseVector {
    /// Its text: the columns with commas between them, as `0:9!2!5..7,1:4`, or `-` for the empty set.
    /// A column is its author, its bound and its holes, in decimal.
    pub fn text(&self) -> Result<String, AllocError>
        ensures { IfOk result (λ text. string_bytes text ≡ vector_text self.now) }
    {
        format!(in self.alloc; "{self}")
    }
}
