//! Notes of the host in the file of a kept device, beside its events.
ghost use Rattle.std.specs.Prelude.{◌≡◌};
ghost use Rattle.mr_desk.specs.Device.{lent};
ghost use Rattle.mr_desk.specs.Notes.{TakesNote};
ghost use Rattle.mr_c.specs.Called.{DoesAs};
ghost use Rattle.mr_c.specs.Given.{IsFilled, IsGiven};
ghost use Rattle.mr_c.specs.Notes.{count_at, count_in, note_at, note_in};

use crate::failure::{Failure, code_of};
use crate::given::{at_place, fill_found, give};
use crate::handle::{Handle, act, read};
use mr_desk::Device;
use std::alloc::Global;

/// Has a note of these bytes wait, which the next commit keeps with the events.
///
/// After `Closed` it answers as `Device::note` does: `OtherDevice` of a plain device and `Failed` of one that has failed; `TooLarge` of 2^32 bytes
/// or more, or want of memory. It costs a copy of the bytes.
#[unsafe(no_mangle)]
pub extern "C" fn mr_note(alloc: Global, handle: &mut Handle, bytes: &[u8]) -> i32
    ensures { DoesAs (TakesNote bytes.now) handle.old.device handle.new.device result }
{
    let answer = act!(alloc, handle, |device| device.note(alloc, bytes));
    code_of(&answer)
}

fn count_in(device: &Device) -> Result<usize, Failure>
    ensures { result ≡ count_in device.now }
{
    Ok(device.notes()?.len())
}

/// How many notes the opening of a kept device found, in constant time: none of one that was begun.
///
/// After `Closed`, `OtherDevice` of a plain device and `Failed` of one that has failed; so too for the one below.
#[unsafe(no_mangle)]
pub extern "C" fn mr_notes(alloc: Global, handle: &mut Handle, count: &mut usize) -> i32
    ensures unchanged { handle.new.device ≡ handle.old.device }
    ensures given { IsGiven (count_at handle.old.device) count.old count.new result }
{
    let found = read!(alloc, handle, |device| count_in(&device));
    give(found, count)
}

fn note_in(device: &Device, place: usize) -> Result<&[u8], Failure>
    ensures { lent result ≡ note_in device.now place }
{
    Ok(at_place(device.notes()?, place)?.bytes())
}

/// The bytes of a note that the opening found, by its place in the order in which they were written. `NotThere` past the last; then `TooSmall`
/// where the buffer is shorter than the length that is told. It costs the bytes.
#[unsafe(no_mangle)]
pub extern "C" fn mr_note_at(
    alloc: Global,
    handle: &mut Handle,
    place: usize,
    to: &mut [u8],
    len: &mut usize,
) -> i32
    ensures unchanged { handle.new.device ≡ handle.old.device }
    ensures given { IsFilled (note_at handle.old.device place) to.old to.new len.old len.new result }
{
    read!(
        alloc,
        handle,
        Failure::Closed.code(),
        |device| fill_found(&note_in(&device, place), to, len)
    )
}
