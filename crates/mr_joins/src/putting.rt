//! Marks put among others, and values joined.
ghost use Rattle.std.specs.Prelude.{◌≡◌, OnOk, Some, position};
ghost use Rattle.mr_joins.specs.Value.{join, with_mark};
ghost use Rattle.mr_joins.specs.inner.Value.{is_from};

use crate::mark::Mark;
use std::alloc::AllocError;

/// Puts a mark at its place among others, which rise: beside another one of its key the greater of each count stays.
pub(crate) fn put_mark(marks: &mut Vec<Mark>, mark: Mark) -> Result<(), AllocError>
    ensures { OnOk result (marks.new.items ≡ with_mark mark marks.old.items) }
{
    match place_of(marks, &mark) {
        Some(place) => put_at(marks, place, mark),
        None => {
            marks.push(mark)?;
            Ok(())
        }
    }
}

/// The first place of a mark that doesn't stand before this one.
fn place_of(marks: &[Mark], mark: &Mark) -> Option<usize>
    ensures { result ≡ position (is_from mark.now) marks.now }
{
    marks.iter().position(|own| mark.cmp_key(own).is_le())
}

/// Puts a mark at that place.
fn put_at(marks: &mut Vec<Mark>, place: usize, mark: Mark) -> Result<(), AllocError>
    requires { position (is_from mark) marks.old.items ≡ Some place }
    ensures { OnOk result (marks.new.items ≡ with_mark mark marks.old.items) }
{
    if mark.cmp_key(&marks[place]).is_eq() {
        let own = &mut marks[place];
        own.count = own.count.larger(mark.count);
        return Ok(());
    }
    marks.insert(place, mark)?;
    Ok(())
}

/// Joins other marks to some that rise.
pub(crate) fn join_marks(marks: &mut Vec<Mark>, others: Vec<Mark>) -> Result<(), AllocError>
    ensures { OnOk result (marks.new.items ≡ join marks.old.items others.items) }
{
    for mark in others {
        put_mark(marks, mark)?;
    }
    Ok(())
}
