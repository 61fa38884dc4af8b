//! What is known, and what is open.
ghost use Rattle.std.specs.Prelude.{◌≡◌, Ok};
ghost use Rattle.mr_session.specs.Table.{open_numbers};
ghost use Rattle.mr_c.specs.Given.{IsGiven, built, read_in};
ghost use Rattle.mr_c.specs.Shown.{GivesNumbers, InMemory, known, known_in, sessions_of, streams_of};

use crate::failure::Failure;
use crate::given::{fill_built, give, replica_of};
use crate::handle::{Handle, read};
use mr_desk::{Device, VersionNumbers};
use mr_version::ItemId;
use std::alloc::Global;

fn known_in(device: &Device, item: VersionNumbers, version: VersionNumbers) -> Result<u32, Failure>
    ensures { result ≡ read_in (λ s. known_in s item version) device.now }
{
    let replica = replica_of(device)?;
    let item = item.version()?;
    let version = version.version()?;
    Ok(u32::from(replica.knows(ItemId::new(item), version)))
}

/// Whether a version of an item is known, held or not: 1 or 0. After `Closed`, `Unsettled` or `Failed` of a kept device; then why numbers are no version's, the item's first.
#[unsafe(no_mangle)]
pub extern "C" fn mr_knows(
    alloc: Global,
    handle: &mut Handle,
    item: VersionNumbers,
    version: VersionNumbers,
    is_known: &mut u32,
) -> i32
    ensures unchanged { handle.new.device ≡ handle.old.device }
    ensures given { IsGiven (known handle.old.device item version) is_known.old is_known.new result }
{
    let found = read!(alloc, handle, |device| known_in(&device, item, version));
    give(found, is_known)
}

fn sessions_in(device: &Device) -> Result<Vec<u64>, Failure>
    ensures { InMemory (read_in (λ s. Ok (open_numbers s.sessions)) device.now) (built result) }
{
    let replica = replica_of(device)?;
    Ok(replica.open_sessions()?)
}

fn streams_in(device: &Device) -> Result<Vec<u64>, Failure>
    ensures { InMemory (read_in (λ s. Ok (open_numbers s.streams)) device.now) (built result) }
{
    let replica = replica_of(device)?;
    Ok(replica.open_streams()?)
}

/// The numbers of the open sessions, rising: at most eight.
///
/// After `Closed`, `Unsettled` or `Failed` of a kept device; want of memory; then `TooSmall` where the buffer is shorter than the length that is told.
#[unsafe(no_mangle)]
pub extern "C" fn mr_sessions(
    alloc: Global,
    handle: &mut Handle,
    to: &mut [u64],
    len: &mut usize,
) -> i32
    ensures unchanged { handle.new.device ≡ handle.old.device }
    ensures given { GivesNumbers (sessions_of handle.old.device) to.old to.new len.old len.new result }
{
    let found = read!(alloc, handle, |device| sessions_in(&device));
    fill_built(&found, to, len)
}

/// The numbers of the open streams, rising: at most eight. The failures are those of the open sessions.
#[unsafe(no_mangle)]
pub extern "C" fn mr_streams(
    alloc: Global,
    handle: &mut Handle,
    to: &mut [u64],
    len: &mut usize,
) -> i32
    ensures unchanged { handle.new.device ≡ handle.old.device }
    ensures given { GivesNumbers (streams_of handle.old.device) to.old to.new len.old len.new result }
{
    let found = read!(alloc, handle, |device| streams_in(&device));
    fill_built(&found, to, len)
}
