//! What devices tell each other before they sync.
ghost use Rattle.std.specs.Prelude.{◌≡◌};
ghost use Rattle.mr_desk.specs.Device.{shown};
ghost use Rattle.mr_c.specs.Called.{DoesAs};
ghost use Rattle.mr_c.specs.Conflicts.{replica_in};
ghost use Rattle.mr_c.specs.Given.{IsFilled, by_desk};
ghost use Rattle.mr_c.specs.Peer.{Checks, FindsCounter, GivesCounter, birth_at};

use crate::failure::{Failure, code_of};
use crate::given::{fill, give, replica_of};
use crate::handle::{Handle, act, read};
use mr_desk::{Born, Device, VersionNumbers, highest_of};
use std::alloc::Global;

fn highest_in(device: &Device, author: u32) -> Result<u32, Failure>
    ensures { FindsCounter (by_desk (shown device.now)) author result }
{
    let replica = replica_of(device)?;
    match highest_of(replica, author) {
        Ok(Some(counter)) => Ok(counter),
        Ok(None) => Err(Failure::NotThere),
        Err(fault) => Err(Failure::Desk(fault)),
    }
}

/// The highest counter of an author's versions that are known, of whatever item.
///
/// After `Closed`, `Unsettled` or `Failed` of a kept device; why the number is no author's; `TooManyHoles` where what is known can't be told,
/// or want of memory; `NotThere` where none of the author is known. It costs all that is known.
#[unsafe(no_mangle)]
pub extern "C" fn mr_highest(
    alloc: Global,
    handle: &mut Handle,
    author: u32,
    counter: &mut u32,
) -> i32
    ensures unchanged { handle.new.device ≡ handle.old.device }
    ensures given { GivesCounter (replica_in handle.old.device) author counter.old counter.new result }
{
    let found = read!(alloc, handle, |device| highest_in(&device, author));
    give(found, counter)
}

/// What was drawn when the file of a kept device was begun: 16 bytes.
///
/// After `Closed`, `OtherDevice` of a plain device and `Failed` of one that has failed; `Unsettled` before the acts are done or while an
/// event waits for a commit; then `TooSmall` where the buffer is shorter than the length that is told.
#[unsafe(no_mangle)]
pub extern "C" fn mr_birth(
    alloc: Global,
    handle: &mut Handle,
    to: &mut [u8],
    len: &mut usize,
) -> i32
    ensures unchanged { handle.new.device ≡ handle.old.device }
    ensures given { IsFilled (birth_at handle.old.device) to.old to.new len.old len.new result }
{
    match read!(
        alloc,
        handle,
        return Failure::Closed.code(),
        |device| device.birth()
    ) {
        Ok(birth) => fill(&birth, to, len),
        Err(fault) => Failure::Desk(fault).code(),
    }
}

/// Whether what another device tells goes with a kept one: the highest version that it knows of each author, and the journals that it knows.
///
/// After `Closed` it answers as `Device::check_peer` does: `OtherDevice`, `Failed` or `Unsettled`, then why a version or a journal is none, or
/// want of memory, then `OldCopy`, then `OtherBirth`. Nothing changes.
#[unsafe(no_mangle)]
pub extern "C" fn mr_check_peer(
    alloc: Global,
    handle: &mut Handle,
    highest: &[VersionNumbers],
    births: &[Born],
) -> i32
    ensures { DoesAs (Checks highest.now births.now) handle.old.device handle.new.device result }
{
    let answer = act!(
        alloc,
        handle,
        |device| device.check_peer(alloc, highest, births)
    );
    code_of(&answer)
}
