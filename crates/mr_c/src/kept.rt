//! What the host of a kept device does to its file, and what it is handed out then.
ghost use Rattle.std.specs.Prelude.{◌≡◌};
ghost use Rattle.mr_desk.specs.Device.{Commits, Settles, lent};
ghost use Rattle.mr_c.specs.Called.{DoesAs};
ghost use Rattle.mr_c.specs.Given.{IsFilled, IsGiven, built};
ghost use Rattle.mr_c.specs.Shown.{GivesNumbers, InMemory};
ghost use Rattle.mr_c.specs.ShownKept.{act_at, act_in, bytes_of, frame_at, frame_in, handed, is_well, reply_at, reply_in, shown_act, shown_reply, written_at, written_in};

use crate::failure::{Failure, code_of};
use crate::given::{at_place, fill_built, fill_found, give};
use crate::handle::{Handle, act, read};
use mr_desk::{Device, VersionNumbers, frame_by};
use mr_hosted::Act;
use mr_replica::Reply;
use std::alloc::Global;

/// What is to be done to the file: 0 write, 1 cut, 2 sync; the place of a write or the length of a cut; and how many bytes a
/// write has.
#[repr(C)]
#[derive(Clone, Copy)]
pub struct HostAct {
    kind: u32,
    at: u64,
    len: usize,
}

/// What is handed out: 0 a version, 1 the number of a session and its request, 2 a record, 3 a receipt.
#[repr(C)]
#[derive(Clone, Copy)]
pub struct HandedOut {
    kind: u32,
    number: u64,
    version: VersionNumbers,
}

/// Has the host keep all events that wait: its acts are what it has to do, and then what was held back is handed out.
///
/// After `Closed`, `OtherDevice` of a plain device and `Failed` of one that has failed; then as `Device::commit` answers.
#[unsafe(no_mangle)]
pub extern "C" fn mr_commit(alloc: Global, handle: &mut Handle) -> i32
    ensures { DoesAs Commits handle.old.device handle.new.device result }
{
    let answer = act!(alloc, handle, |device| device.commit());
    code_of(&answer)
}

/// The host has done all acts, or, where the second is 0, one of them failed: then the device has failed for good.
///
/// After `Closed`, `OtherDevice` of a plain device and `Failed` of one that has failed.
#[unsafe(no_mangle)]
pub extern "C" fn mr_settle(alloc: Global, handle: &mut Handle, went_well: u32) -> i32
    ensures { DoesAs (λ old answer new. Settles old (is_well went_well) answer new) handle.old.device handle.new.device result }
{
    let answer = act!(alloc, handle, |device| device.settle(went_well != 0));
    code_of(&answer)
}

fn shown_act(act: &Act) -> HostAct
    ensures { result ≡ shown_act act.now }
{
    match act {
        Act::Write { at, bytes } => HostAct {
            kind: 0,
            at: *at,
            len: bytes.len(),
        },
        Act::Cut { len } => HostAct {
            kind: 1,
            at: *len,
            len: 0,
        },
        Act::Sync => HostAct {
            kind: 2,
            at: 0,
            len: 0,
        },
    }
}

fn act_in(device: &Device, place: usize) -> Result<HostAct, Failure>
    ensures { result ≡ act_in device.now place }
{
    Ok(shown_act(at_place(device.acts()?, place)?))
}

/// An act that is left to be done, by its place in their order. After `Closed`, `OtherDevice` or `Failed`; `NotThere` past the last.
#[unsafe(no_mangle)]
pub extern "C" fn mr_act_at(
    alloc: Global,
    handle: &mut Handle,
    place: usize,
    act: &mut HostAct,
) -> i32
    ensures unchanged { handle.new.device ≡ handle.old.device }
    ensures given { IsGiven (act_at handle.old.device place) act.old act.new result }
{
    let found = read!(alloc, handle, |device| act_in(&device, place));
    give(found, act)
}

fn bytes_of(act: &Act) -> Result<&[u8], Failure>
    ensures { lent result ≡ bytes_of act.now }
{
    match act {
        Act::Write { bytes, .. } => Ok(bytes.as_slice()),
        Act::Cut { .. } | Act::Sync => Err(Failure::NotThere),
    }
}

fn written_in(device: &Device, place: usize) -> Result<&[u8], Failure>
    ensures { lent result ≡ written_in device.now place }
{
    bytes_of(at_place(device.acts()?, place)?)
}

/// The bytes that an act writes. The failures are those of `mr_act_at`; `NotThere` also of an act that writes none; then `TooSmall`
/// where the buffer is shorter than the length that is told.
#[unsafe(no_mangle)]
pub extern "C" fn mr_act_bytes(
    alloc: Global,
    handle: &mut Handle,
    place: usize,
    to: &mut [u8],
    len: &mut usize,
) -> i32
    ensures unchanged { handle.new.device ≡ handle.old.device }
    ensures given { IsFilled (written_at handle.old.device place) to.old to.new len.old len.new result }
{
    read!(
        alloc,
        handle,
        Failure::Closed.code(),
        |device| fill_found(&written_in(&device, place), to, len)
    )
}

fn handed(kind: u32, number: u64, version: VersionNumbers) -> HandedOut
    ensures { result ≡ handed kind number version }
{
    HandedOut {
        kind,
        number,
        version,
    }
}

fn shown_reply(reply: &Reply) -> HandedOut
    ensures { result ≡ shown_reply reply.now }
{
    let none = VersionNumbers {
        author: 0,
        counter: 0,
    };
    match reply {
        Reply::Issued(version) => handed(0, 0, VersionNumbers::of(*version)),
        Reply::Asked(ask) => handed(1, ask.session(), none),
        Reply::Gave(_) => handed(2, 0, none),
        Reply::Vouched(_) => handed(3, 0, none),
        _ => handed(4, 0, none),
    }
}

fn reply_in(device: &Device, place: usize) -> Result<HandedOut, Failure>
    ensures { result ≡ reply_in device.now place }
{
    Ok(shown_reply(at_place(device.replies()?, place)?))
}

/// What the last commit hands out, by its place in the order of the events, once the host has done its acts.
///
/// After `Closed`, `OtherDevice` of a plain device and `Failed` of one that has failed; `Unsettled` before the acts are done or while an
/// event waits for a commit; `NotThere` past the last.
#[unsafe(no_mangle)]
pub extern "C" fn mr_told_at(
    alloc: Global,
    handle: &mut Handle,
    place: usize,
    told: &mut HandedOut,
) -> i32
    ensures unchanged { handle.new.device ≡ handle.old.device }
    ensures given { IsGiven (reply_at handle.old.device place) told.old told.new result }
{
    let found = read!(alloc, handle, |device| reply_in(&device, place));
    give(found, told)
}

fn frame_in(alloc: Global, device: &Device, place: usize) -> Result<Vec<u8>, Failure>
    ensures { InMemory (frame_in device.now place) (built result) }
{
    Ok(frame_by(alloc, at_place(device.replies()?, place)?)?)
}

/// The frame of what is handed out, and no byte of a version. The failures are those of `mr_told_at`; want of memory; then `TooSmall`
/// where the buffer is shorter than the length that is told. Nothing is lost by a failure: it can be asked for again.
#[unsafe(no_mangle)]
pub extern "C" fn mr_told_frame(
    alloc: Global,
    handle: &mut Handle,
    place: usize,
    to: &mut [u8],
    len: &mut usize,
) -> i32
    ensures unchanged { handle.new.device ≡ handle.old.device }
    ensures given { GivesNumbers (frame_at handle.old.device place) to.old to.new len.old len.new result }
{
    let found = read!(alloc, handle, |device| frame_in(alloc, &device, place));
    fill_built(&found, to, len)
}
