//! Parts that take memory are kept only where there is some.
//!
//! A body is walked once. What its readers build is an `Option`, which is `None` once memory ran out, or where a caller
//! gives none to look at the bytes alone: the walk goes on all the same, so that each fault of the bytes comes before the
//! want of memory.
ghost use Rattle.std.specs.Prelude.{◌≡◌, IfSome, []};
ghost use Rattle.mr_wire.specs.Reading.{KeepsMore};

use std::alloc::Global;

/// An empty list with room for so many items, where there is memory for it.
pub fn room<T>(memory: Option<Global>, count: usize) -> Option<Vec<T>>
    ensures { IfSome result (λ list. list.items ≡ []) }
{
    Vec::with_capacity(memory?, count).ok()
}

/// Puts the item at the end of the list, where both are kept.
pub fn keep<T: Drop>(list: &mut Option<Vec<T>>, item: Option<T>)
    ensures { KeepsMore list.old item list.new }
{
    let kept = with_item(list.take(), item);
    *list = kept;
}

fn with_item<T: Drop>(list: Option<Vec<T>>, item: Option<T>) -> Option<Vec<T>>
    ensures { KeepsMore list item result }
{
    let mut list = list?;
    list.push(item?).ok()?;
    Some(list)
}
