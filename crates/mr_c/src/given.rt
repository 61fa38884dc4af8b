//! What was found, into the caller's variables.
ghost use Rattle.std.specs.Prelude.{◌≡◌, MatchResult, None, Ok, Some, slice_get};
ghost use Rattle.mr_desk.specs.Device.{lent, shown};
ghost use Rattle.mr_c.specs.Given.{IsFilled, IsGiven, built, by_desk};

use crate::failure::Failure;
use mr_desk::Device;
use mr_itemset::SparingKnowledge;
use mr_replica::Replica;

/// The replica of a device, where that is shown.
pub(crate) fn replica_of(device: &Device) -> Result<&Replica<SparingKnowledge>, Failure>
    ensures { lent result ≡ by_desk (shown device.now) }
{
    Ok(device.replica()?)
}

/// What is at a place: `NotThere` past the last.
pub(crate) fn at_place<T>(items: &[T], place: usize) -> Result<&T, Failure>
    ensures { MatchResult result (λ item. slice_get items.now place ≡ Some item.now) (λ failure. (slice_get items.now place ≡ None) × (failure ≡ Failure.NotThere)) }
{
    match items.get(place) {
        Some(item) => Ok(item),
        None => Err(Failure::NotThere),
    }
}

/// Puts what was found into the caller's variable.
pub(crate) fn give<T: Copy + Drop>(found: Result<T, Failure>, to: &mut T) -> i32
    ensures { IsGiven found to.old to.new result }
{
    match found {
        Ok(found) => {
            *to = found;
            0
        }
        Err(failure) => failure.code(),
    }
}

/// Copies items to the front of the caller's buffer, and tells how many there are. Where they don't fit none is copied.
pub(crate) fn fill<T: Copy + Drop>(items: &[T], to: &mut [T], len: &mut usize) -> i32
    ensures { IsFilled (Ok items.now) to.old to.new len.old len.new result }
{
    *len = items.len();
    if to.len() < items.len() {
        return Failure::TooSmall.code();
    }
    let (front, _) = to.split_at_mut(items.len());
    front.copy_from_slice(items);
    0
}

/// Copies bytes that were found to the front of the caller's buffer, or tells why there are none.
pub(crate) fn fill_found(found: &Result<&[u8], Failure>, to: &mut [u8], len: &mut usize) -> i32
    ensures { IsFilled (lent found.now) to.old to.new len.old len.new result }
{
    match found {
        Ok(bytes) => fill(*bytes, to, len),
        Err(failure) => failure.code(),
    }
}

/// Copies items that were made for it to the front of the caller's buffer, or tells why there are none.
pub(crate) fn fill_built<T: Copy + Drop>(
    found: &Result<Vec<T>, Failure>,
    to: &mut [T],
    len: &mut usize,
) -> i32
    ensures { IsFilled (built found.now) to.old to.new len.old len.new result }
{
    match found {
        Ok(items) => fill(items.as_slice(), to, len),
        Err(failure) => failure.code(),
    }
}
