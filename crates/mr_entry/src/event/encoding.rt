//! From an event to bytes.
ghost use Rattle.std.specs.Prelude.{◌≡◌, ◌≢◌, ◌≤◌, ◌++◌, OnOk, IfOk, Err, length};
ghost use Rattle.mr_replica.specs.declared.event.Event.TheVariants.{Answer};
ghost use Rattle.mr_wire.specs.Frames.{Question};
ghost use Rattle.mr_wire.specs.Grammar.{IsFrame};
ghost use Rattle.mr_wire.specs.declared.decoding.TheConstants.{MAX_REST_BYTES};
ghost use Rattle.mr_wire.specs.declared.frame.Frame.TheVariants as frame;
ghost use Rattle.mr_wire.specs.FrameSpelling as frames;
ghost use Rattle.mr_entry.specs.Encoding.{EncodesEvent, IsShort};
ghost use Rattle.mr_entry.specs.Grammar.{IsEvent, SpellsEvent};
ghost use Rattle.mr_entry.specs.Spelling.{event_bytes, event_kind, event_parts, framed_bytes, rest_bytes};

use crate::event::bases::put_edit;
use crate::event::fault::EventFault;
use crate::event::lengths::{LENGTH_BYTES, rest_len};
use mr_replica::Event;
use mr_wire::Frame;
use mr_wire::parts::{put_ask, put_frame, put_message, put_receipt, put_u32, put_u64, put_version};
use std::alloc::{AllocError, Global};

/// The number of the form of the bytes, the one that is written and read.
pub const FORM: u8 = 1;

/// The byte of the event's kind, 0 to 10.
fn kind_byte(event: &Event) -> u8
    ensures { result ≡ event_kind event.now }
{
    match event {
        Event::Create(_) => 0,
        Event::Edit(_, _) => 1,
        Event::Retire => 2,
        Event::Pull => 3,
        Event::Receive(_) => 4,
        Event::CutIn(_) => 5,
        Event::Answer(_) => 6,
        Event::Next(_) => 7,
        Event::CutOut(_) => 8,
        Event::Vouch(_) => 9,
        Event::Release(_) => 10,
    }
}

/// Writes a frame behind the byte of its kind.
fn put_framed(out: &mut Vec<u8>, frame: &Frame) -> Result<(), AllocError>
    ensures written { OnOk result (out.new.items ≡ out.old.items ++ framed_bytes frame.now) }
    ensures in_grammar { OnOk result (IsFrame frame.now) }
{
    out.push(frame.kind().byte())?;
    put_frame(out, frame)
}

/// Writes what stands behind the kind.
#[tactic(auto, using(crate::proofs::EventLemmas::few_bases))]
fn put_parts(out: &mut Vec<u8>, event: &Event) -> Result<(), AllocError>
    requires { length (event_parts event.now) ≤ 8388606 }
    ensures written { OnOk result (out.new.items ≡ out.old.items ++ event_parts event.now) }
    ensures in_grammar { OnOk result (IsEvent event.now) }
{
    match event {
        Event::Create(message) => put_message(out, message),
        Event::Edit(bases, message) => put_edit(out, bases, message),
        Event::Retire | Event::Pull => Ok(()),
        Event::Receive(frame) => put_framed(out, frame),
        Event::CutIn(number) | Event::Next(number) | Event::CutOut(number) => put_u64(out, *number),
        Event::Answer(ask) => put_ask(out, ask),
        Event::Vouch(version) => put_version(out, *version),
        Event::Release(receipt) => put_receipt(out, receipt),
    }
}

/// Writes the event, which has so many bytes behind its length.
pub(crate) fn put_event(out: &mut Vec<u8>, event: &Event, rest: u32) -> Result<(), AllocError>
    requires rest { rest ≡ length (rest_bytes event.now) }
    requires few { rest ≤ MAX_REST_BYTES }
    ensures written { OnOk result (out.new.items ≡ out.old.items ++ event_bytes event.now) }
    ensures in_grammar { OnOk result (IsEvent event.now) }
{
    put_u32(out, rest)?;
    out.push(FORM)?;
    out.push(kind_byte(event))?;
    put_parts(out, event)
}

/// The event's bytes.
///
/// `TooLong` where more than 8,388,608 bytes would follow the length, which is known before memory is asked for:
/// no request that came in a frame is so long, no edit of at most 1,000,000 bases, and no other event but a request
/// or a frame of one with many fragments. `OutOfMemory` otherwise. One piece of memory is taken, of just the
/// length, and each byte of a body is copied once.
pub fn encode_event(alloc: Global, event: &Event) -> Result<Vec<u8>, EventFault>
    ensures exact { EncodesEvent event.now result }
    ensures spelled { IfOk result (λ v. SpellsEvent event.now v.items) }
    ensures short { IsShort event.now → result ≢ Err EventFault.TooLong }
    ensures asked { (q : Question) → event.now ≡ Answer q → length (frames.rest_bytes 2 (frame.Ask q)) ≤ MAX_REST_BYTES → result ≢ Err EventFault.TooLong }
{
    let Some(rest) = rest_len(event) else {
        return Err(EventFault::TooLong);
    };
    let mut out = Vec::with_capacity(alloc, LENGTH_BYTES + rest as usize)?;
    put_event(&mut out, event, rest)?;
    Ok(out)
}
