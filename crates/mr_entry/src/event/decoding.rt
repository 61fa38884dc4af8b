//! From bytes to an event.
ghost use Rattle.std.specs.Prelude.{◌≡◌, ◌+◌, ◌++◌, ◌≤◌, ℕ, List, drop, length, take, IfOk, Ok};
ghost use Rattle.mr_replica.specs.declared.event.Event.{Event};
ghost use Rattle.mr_wire.specs.Prefixed.{rest_of};
ghost use Rattle.mr_entry.specs.Decoding.{AnswersEvent, event_decoded, kind_and_parts, rest_faults};
ghost use Rattle.mr_entry.specs.Grammar.{SpellsEvent};
ghost use Rattle.mr_entry.specs.inner.Seen.{FindsWhole, kind_seen, rest_seen};

use crate::event::body::event;
use crate::event::encoding::FORM;
use crate::event::fault::EventFault;
use crate::event::lengths::LENGTH_BYTES;
use mr_replica::Event;
use mr_wire::MAX_REST_BYTES;
use mr_wire::parts::Input;
use std::alloc::Global;

/// The fewest bytes behind the length of an event: its form and its kind.
const MIN_REST_BYTES: u32 = 2;

/// The highest kind byte.
const LAST_KIND: u8 = 10;

/// What stands behind the length of the event at the front.
#[tactic(auto, using(crate::proofs::EventLemmas::left_behind))]
fn rest_in<'a>(input: &mut Input<'a>) -> Result<&'a [u8], EventFault>
    ensures rest { rest_of rest_faults input.old ≡ rest_seen result }
    ensures left { IfOk result (λ rest. input.new ≡ drop (length rest.now + 4) input.old) }
{
    let Some(len) = input.u32() else {
        return Err(EventFault::Truncated);
    };
    if len > MAX_REST_BYTES {
        return Err(EventFault::TooLong);
    }
    if len < MIN_REST_BYTES {
        return Err(EventFault::BadBody);
    }
    match input.bytes(len as usize) {
        Some(rest) => Ok(rest),
        None => Err(EventFault::Truncated),
    }
}

/// The kind of an event, and what stands behind it.
fn kind_of_rest(rest: &[u8]) -> Result<(u8, &[u8]), EventFault>
    ensures { kind_and_parts rest.now ≡ kind_seen result }
{
    let [form, kind, parts @ ..] = rest else {
        return Err(EventFault::BadBody);
    };
    if *form != FORM {
        return Err(EventFault::BadForm);
    }
    if *kind > LAST_KIND {
        return Err(EventFault::BadKind);
    }
    Ok((*kind, parts))
}

/// The event of this kind that the bytes are, all of them. It is kept where there is memory for it.
fn whole(alloc: Global, kind: u8, parts: &[u8]) -> Option<Option<Event>>
    ensures { FindsWhole kind parts.now result }
{
    let mut input = Input::new(parts);
    let kept = event(&mut input, Some(alloc), kind)?;
    if input.len() != 0 {
        return None;
    }
    Some(kept)
}

/// The event at the front and how many bytes it takes, or the first fault.
pub(crate) fn event_in(alloc: Global, input: &mut Input<'_>) -> Result<(Event, usize), EventFault>
    ensures exact { AnswersEvent (event_decoded input.old) result }
    ensures left { IfOk result (λ found. input.new ≡ drop found.1 input.old) }
{
    let rest = rest_in(input)?;
    let (kind, parts) = kind_of_rest(rest)?;
    match whole(alloc, kind, parts) {
        Some(Some(event)) => Ok((event, rest.len() + LENGTH_BYTES)),
        Some(None) => Err(EventFault::OutOfMemory),
        None => Err(EventFault::BadBody),
    }
}

/// The event at the front of the bytes, and how many bytes it takes.
///
/// The faults are tried in this order: `Truncated` for fewer than four bytes; `TooLong` for a length over
/// 8,388,608; `BadBody` for a length of 0 or 1; `Truncated` where fewer bytes follow than the length says;
/// `BadForm` where the number of the form is not 1; `BadKind` for a kind byte over 10; `BadBody` for anything else
/// that is no event; and `OutOfMemory` last: where a growth is refused, the rest is walked without keeping it. The
/// bytes are walked once, and no count reserves more than the bytes behind it can hold.
pub fn decode_event(alloc: Global, bytes: &[u8]) -> Result<(Event, usize), EventFault>
    ensures exact { AnswersEvent (event_decoded bytes.now) result }
    ensures spelled { IfOk result (λ found. SpellsEvent found.0 (take found.1 bytes.now)) }
    ensures within { IfOk result (λ found. found.1 ≤ length bytes.now) }
    ensures whole { (e : Event) (text more : List ℕ) → SpellsEvent e text → bytes.now ≡ text ++ more → AnswersEvent (Ok (e, length text)) result }
{
    event_in(alloc, &mut Input::new(bytes))
}
