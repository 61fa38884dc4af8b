//! What stands behind the kind of an event.
ghost use Rattle.mr_wire.specs.Reading.{Gives, Finds};
ghost use Rattle.mr_entry.specs.Parts.{event_at, frame_kind_at, framed_at};

use crate::event::bases::edit;
use mr_replica::Event;
use mr_wire::parts::{Input, read_ask, read_frame, read_message, read_receipt};
use mr_wire::{FORMAT, Frame, Kind};
use std::alloc::Global;

/// The kind of a frame.
fn frame_kind(input: &mut Input<'_>) -> Option<Kind>
    ensures { Gives frame_kind_at input.old result input.new }
{
    let byte = input.u8()?;
    Kind::from_byte(FORMAT, byte)
}

/// A frame behind the byte of its kind.
fn framed(input: &mut Input<'_>, memory: Option<Global>) -> Option<Option<Frame>>
    ensures { Finds (λ f. f) framed_at input.old result input.new }
{
    let kind = frame_kind(input)?;
    read_frame(input, memory, kind)
}

/// What stands behind this kind byte.
pub(crate) fn event(
    input: &mut Input<'_>,
    memory: Option<Global>,
    kind: u8,
) -> Option<Option<Event>>
    ensures { Finds (λ e. e) (event_at kind) input.old result input.new }
{
    match kind {
        0 => {
            let kept = read_message(input, memory)?;
            Some(kept.map(Event::Create))
        }
        1 => edit(input, memory),
        2 => Some(Some(Event::Retire)),
        3 => Some(Some(Event::Pull)),
        4 => {
            let kept = framed(input, memory)?;
            Some(kept.map(Event::Receive))
        }
        5 => Some(Some(Event::CutIn(input.u64()?))),
        6 => {
            let kept = read_ask(input, memory)?;
            Some(kept.map(Event::Answer))
        }
        7 => Some(Some(Event::Next(input.u64()?))),
        8 => Some(Some(Event::CutOut(input.u64()?))),
        9 => Some(Some(Event::Vouch(input.version()?))),
        10 => {
            let kept = read_receipt(input, memory)?;
            Some(kept.map(Event::Release))
        }
        _ => None,
    }
}
