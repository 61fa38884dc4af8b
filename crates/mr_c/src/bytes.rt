//! Bytes into the caller's buffer: the frame, and an event of the log.
ghost use Rattle.std.specs.Prelude.{◌≡◌};
ghost use Rattle.mr_desk.specs.Device.{lent};
ghost use Rattle.mr_desk.specs.Device.{frame_of as device_frame};
ghost use Rattle.mr_c.specs.Given.{IsFilled, by_desk, read_in};
ghost use Rattle.mr_c.specs.Shown.{at_event, event_at, frame_of, GivesEvent, SpellsFound};

use crate::failure::Failure;
use crate::given::{at_place, fill_built, fill_found, replica_of};
use crate::handle::{Handle, read};
use mr_desk::{Device, event_bytes};
use std::alloc::Global;

// The frame of a device that has one.
fn frame_in(device: &Device) -> Result<&[u8], Failure>
    ensures { lent result ≡ by_desk (device_frame device.now) }
{
    Ok(device.frame()?)
}

/// The frame that the last admitted event of a plain device gave, and else no bytes.
///
/// After `Closed`, `OtherDevice` or `Failed` of a kept one; then `TooSmall` where the buffer is shorter than the length that is told. It costs the bytes.
#[unsafe(no_mangle)]
pub extern "C" fn mr_frame(
    alloc: Global,
    handle: &mut Handle,
    to: &mut [u8],
    len: &mut usize,
) -> i32
    ensures unchanged { handle.new.device ≡ handle.old.device }
    ensures given { IsFilled (frame_of handle.old.device) to.old to.new len.old len.new result }
{
    read!(
        alloc,
        handle,
        Failure::Closed.code(),
        |device| fill_found(&frame_in(&device), to, len)
    )
}

// The bytes of the event at a place.
fn spelled_in(alloc: Global, device: &Device, place: usize) -> Result<Vec<u8>, Failure>
    ensures { SpellsFound (read_in (λ s. at_event s.log place) device.now) result }
{
    let event = at_place(replica_of(device)?.log(), place)?;
    Ok(event_bytes(alloc, event)?)
}

/// The bytes to be kept of an event of the log, by its place.
///
/// After `Closed`, `Unsettled` or `Failed` of a kept device; `NotThere` past the last event; then `TooLong` of an event that has no bytes, or want of memory; then
/// `TooSmall` where the buffer is shorter than the length that is told. It costs the bytes.
#[unsafe(no_mangle)]
pub extern "C" fn mr_event(
    alloc: Global,
    handle: &mut Handle,
    place: usize,
    to: &mut [u8],
    len: &mut usize,
) -> i32
    ensures unchanged { handle.new.device ≡ handle.old.device }
    ensures given { GivesEvent (event_at handle.old.device place) to.old to.new len.old len.new result }
{
    let found = read!(alloc, handle, |device| spelled_in(alloc, &device, place));
    fill_built(&found, to, len)
}
