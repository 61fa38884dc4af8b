//! Items of which several heads are held, and how they are merged.
ghost use Rattle.std.specs.Prelude.{◌≡◌, IfOk, map};
ghost use Rattle.mr_store.specs.Revisions.{versions_of};
ghost use Rattle.mr_desk.specs.Device.{shown};
ghost use Rattle.mr_desk.specs.Version.{numbers_of};
ghost use Rattle.mr_c.specs.Called.{Merges, version_told};
ghost use Rattle.mr_c.specs.Code.{code_of};
ghost use Rattle.mr_c.specs.Conflicts.{FindsConflicts, GivesConflicts, heads_in, heads_of, replica_in};
ghost use Rattle.mr_c.specs.Given.{built, by_desk, read_in};
ghost use Rattle.mr_c.specs.Shown.{GivesNumbers, InMemory};

use crate::calls::tell_version;
use crate::failure::{Failure, code_of};
use crate::given::{fill_built, replica_of};
use crate::handle::{Handle, act, read};
use mr_desk::{Device, VersionNumbers};
use mr_replica::Revision;
use mr_version::ItemId;
use std::alloc::{AllocError, Global};

/// The numbers of each item.
fn numbers_of(alloc: Global, items: &[ItemId]) -> Result<Vec<VersionNumbers>, AllocError>
    ensures { IfOk result (λ numbers. numbers.items ≡ map numbers_of items.now) }
{
    let mut numbers = Vec::with_capacity(alloc, items.len())?;
    for item in items {
        numbers.push(VersionNumbers::of(item.creator()))?;
    }
    Ok(numbers)
}

fn conflicts_in(alloc: Global, device: &Device) -> Result<Vec<VersionNumbers>, Failure>
    ensures { FindsConflicts (by_desk (shown device.now)) (built result) }
{
    let items = replica_of(device)?.conflicts()?;
    Ok(numbers_of(alloc, &items)?)
}

/// The items with two or more heads, in rising order.
///
/// After `Closed`, `Unsettled` or `Failed` of a kept device; want of memory; then `TooSmall` where the buffer is shorter than the length that
/// is told. It costs a walk over the items that have another head than their first version.
#[unsafe(no_mangle)]
pub extern "C" fn mr_conflicts(
    alloc: Global,
    handle: &mut Handle,
    to: &mut [VersionNumbers],
    len: &mut usize,
) -> i32
    ensures unchanged { handle.new.device ≡ handle.old.device }
    ensures given { GivesConflicts (replica_in handle.old.device) to.old to.new len.old len.new result }
{
    let found = read!(alloc, handle, |device| conflicts_in(alloc, &device));
    fill_built(&found, to, len)
}

/// The numbers of the versions of an item that are among these.
fn versions_of(
    alloc: Global,
    heads: &[Revision],
    item: ItemId,
) -> Result<Vec<VersionNumbers>, AllocError>
    ensures { IfOk result (λ versions. versions.items ≡ map numbers_of (versions_of item heads.now)) }
{
    let mut versions = Vec::new(alloc);
    for head in heads {
        if head.item() == item {
            versions.push(VersionNumbers::of(head.version()))?;
        }
    }
    Ok(versions)
}

fn heads_in(
    alloc: Global,
    device: &Device,
    item: VersionNumbers,
) -> Result<Vec<VersionNumbers>, Failure>
    ensures { InMemory (read_in (λ s. heads_in s item) device.now) (built result) }
{
    let replica = replica_of(device)?;
    let item = ItemId::new(item.version()?);
    Ok(versions_of(alloc, replica.heads(), item)?)
}

/// The versions of an item that are heads, in version order.
///
/// After `Closed`, `Unsettled` or `Failed` of a kept device; why the numbers are no item's; want of memory; then `TooSmall` where the buffer is
/// shorter than the length that is told. It costs a walk over the heads.
#[unsafe(no_mangle)]
pub extern "C" fn mr_heads_of(
    alloc: Global,
    handle: &mut Handle,
    item: VersionNumbers,
    to: &mut [VersionNumbers],
    len: &mut usize,
) -> i32
    ensures unchanged { handle.new.device ≡ handle.old.device }
    ensures given { GivesNumbers (heads_of handle.old.device item) to.old to.new len.old len.new result }
{
    let found = read!(alloc, handle, |device| heads_in(alloc, &device, item));
    fill_built(&found, to, len)
}

/// Merges the heads of an item by an edit of all of them, and gives its version.
///
/// After `Closed` it answers as `Device::merge` does: `Failed` or `Unsettled` of a kept device, then why the numbers are no item's, then why
/// the heads make no message together, or that they say the same, then why the replica refuses the edit.
#[unsafe(no_mangle)]
pub extern "C" fn mr_merge(
    alloc: Global,
    handle: &mut Handle,
    item: VersionNumbers,
    version: &mut VersionNumbers,
) -> i32
    ensures { Merges handle.old.device item handle.new.device (λ answer. (result ≡ code_of answer) × (version.new ≡ version_told answer version.old)) }
{
    let answer = act!(alloc, handle, |device| device.merge(alloc, item));
    tell_version(&answer, version);
    code_of(&answer)
}
