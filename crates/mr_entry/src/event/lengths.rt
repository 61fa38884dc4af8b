//! How many bytes events take, told without memory.
ghost use Rattle.std.specs.Prelude.{◌≡◌, ◌≤◌, ◌<◌, ◌+◌, ◌*◌, ◌^◌, MatchOption, length};
ghost use Rattle.mr_replica.specs.declared.event.Event.TheVariants.{Edit};
ghost use Rattle.mr_wire.specs.declared.decoding.TheConstants.{MAX_REST_BYTES};
ghost use Rattle.mr_entry.specs.Encoding.{IsShort};
ghost use Rattle.mr_entry.specs.Spelling.{event_bytes, event_parts, rest_bytes};

use mr_mail::Message;
use mr_replica::{Bases, Event};
use mr_wire::MAX_REST_BYTES;
use mr_wire::parts::{ask_len, frame_len, message_len, receipt_len};

/// The bytes of an event's length.
pub(crate) const LENGTH_BYTES: usize = 4;

/// The bytes of form and kind.
const KIND_BYTES: usize = 2;

/// The bytes of a count of bases.
const BASE_COUNT_BYTES: usize = 4;

/// The bytes of a version: author and counter.
pub(crate) const VERSION_BYTES: usize = 6;

/// The byte of a frame's kind.
const FRAME_KIND_BYTES: usize = 1;

/// The bytes of the number of a session or of a stream.
const SERIAL_BYTES: usize = 8;

/// The bytes of an edit.
#[tactic(auto, using(crate::proofs::EventLemmas::length_of_edit))]
fn edit_len(bases: &Bases, message: &Message) -> usize
    ensures exact { result ≡ length (event_parts (Edit bases.now message.now)) }
    ensures most { result < 2 ^ 63 }
    ensures short { result ≤ 6 * length bases.now + 67332 }
{
    BASE_COUNT_BYTES + VERSION_BYTES * bases.as_slice().len() + message_len(message)
}

/// The bytes of what stands behind the kind.
fn parts_len(event: &Event) -> usize
    ensures exact { result ≡ length (event_parts event.now) }
    ensures most { result < 2 ^ 63 }
    ensures short { IsShort event.now → result ≤ 8388606 }
{
    match event {
        Event::Create(message) => message_len(message),
        Event::Edit(bases, message) => edit_len(bases, message),
        Event::Retire | Event::Pull => 0,
        Event::Receive(frame) => FRAME_KIND_BYTES + frame_len(frame),
        Event::CutIn(_) | Event::Next(_) | Event::CutOut(_) => SERIAL_BYTES,
        Event::Answer(ask) => ask_len(ask),
        Event::Vouch(_) => VERSION_BYTES,
        Event::Release(receipt) => receipt_len(receipt),
    }
}

/// The bytes of what stands behind the length, if they are so few that an event may have them.
pub(crate) fn rest_len(event: &Event) -> Option<u32>
    ensures exact { MatchOption result (MAX_REST_BYTES < length (rest_bytes event.now)) (λ n. (n ≡ length (rest_bytes event.now)) × (n ≤ MAX_REST_BYTES)) }
    ensures short { IsShort event.now → length (rest_bytes event.now) ≤ MAX_REST_BYTES }
{
    let len = KIND_BYTES + parts_len(event);
    if len > MAX_REST_BYTES as usize {
        return None;
    }
    Some(len as u32)
}

/// How many bytes the event takes, its length's own four among them. It may be more than an event may have, where
/// an edit has many bases or a request many fragments.
///
/// It takes no memory, and looks at each column, clause and label once, and at no text, base, item or hole.
pub fn encoded_len(event: &Event) -> usize
    ensures exact { result ≡ length (event_bytes event.now) }
    ensures short { IsShort event.now → result ≤ MAX_REST_BYTES + 4 }
{
    LENGTH_BYTES + KIND_BYTES + parts_len(event)
}
