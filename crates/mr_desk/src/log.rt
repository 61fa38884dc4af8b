//! Events as bytes, and logs as the bytes of their events.
ghost use Rattle.mr_desk.specs.Log.{GivesBytes};
ghost use Rattle.mr_desk.specs.inner.Log.{ReadsLog};

use crate::fault::Fault;
use mr_entry::event::{decode_event, encode_event};
use mr_replica::Event;
use std::alloc::Global;

/// The bytes of an event. `Event(TooLong)` where more than 8,388,608 bytes would follow its length.
pub fn event_bytes(alloc: Global, event: &Event) -> Result<Vec<u8>, Fault>
    ensures { GivesBytes event.now result }
{
    Ok(encode_event(alloc, event)?)
}

/// The events of these bytes, which are those of a log.
///
/// `Event` with the first fault of the first event that is none; memory may run out before it is known.
pub(crate) fn events_of(alloc: Global, bytes: &[u8]) -> Result<Vec<Event>, Fault>
    ensures { ReadsLog bytes.now result }
{
    let mut events = Vec::new(alloc);
    let mut rest = bytes;
    while !rest.is_empty() {
        let (event, used) = decode_event(alloc, rest)?;
        rest = &rest[used..];
        events.push(event)?;
    }
    Ok(events)
}
