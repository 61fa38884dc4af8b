//! From a call to the event that it is.
ghost use Rattle.std.specs.Prelude.{◌≡◌, map};
ghost use Rattle.std.specs.Option.{option_map};
ghost use Rattle.mr_desk.specs.Asked.{call_fault, edit_fault, IsEventOf, IsEditOf, NeedsMemory};
ghost use Rattle.mr_desk.specs.Fault.{Reads};
ghost use Rattle.mr_desk.specs.Version.{first_version_fault, named_by};
ghost use Rattle.mr_desk.specs.declared.fault.Fault.TheVariants as fault;

use crate::call::{Call, Draft, VersionNumbers};
use crate::draft::message_of;
use crate::fault::Fault;
use crate::frames::{ask_of, frame_of, receipt_of};
use mr_replica::{Bases, Event};
use mr_version::Version;
use std::alloc::Global;

/// The versions with these numbers. `Version` with the fault of the first that names none; memory may run out before that
/// is known.
pub(crate) fn versions_of(alloc: Global, numbers: &[VersionNumbers]) -> Result<Vec<Version>, Fault>
    ensures { Reads (Unit {0}) (option_map fault.Version (first_version_fault numbers.now)) (λ versions. versions.items ≡ map named_by numbers.now) result }
{
    let mut versions = Vec::new(alloc);
    for named in numbers {
        versions.push(named.version()?)?;
    }
    Ok(versions)
}

fn edit_of(alloc: Global, bases: &[VersionNumbers], draft: &Draft<'_>) -> Result<Event, Fault>
    ensures { Reads (Unit {0}) (edit_fault bases.now draft.now) (IsEditOf bases.now draft.now) result }
{
    let message = message_of(alloc, draft)?;
    let versions = versions_of(alloc, bases)?;
    Ok(Event::Edit(Bases::new(versions), message))
}

/// The event that the call is.
///
/// A message first, with `NotText` and then `Message`; then versions, with `Version` at the first that is none; a frame
/// with `Wire`, then `BytesBehind`, then `OtherFrame`. `OutOfMemory` may come before the fault of a message or a version is known.
pub(crate) fn event_of(alloc: Global, call: &Call<'_>) -> Result<Event, Fault>
    ensures { Reads (NeedsMemory call.now) (call_fault call.now) (IsEventOf call.now) result }
{
    match call {
        Call::Create(draft) => Ok(Event::Create(message_of(alloc, draft)?)),
        Call::Edit(bases, draft) => edit_of(alloc, bases, draft),
        Call::Retire => Ok(Event::Retire),
        Call::Pull => Ok(Event::Pull),
        Call::Receive(bytes) => Ok(Event::Receive(frame_of(alloc, bytes)?)),
        Call::CutIn(session) => Ok(Event::CutIn(*session)),
        Call::Answer(bytes) => Ok(Event::Answer(ask_of(alloc, bytes)?)),
        Call::Next(stream) => Ok(Event::Next(*stream)),
        Call::CutOut(stream) => Ok(Event::CutOut(*stream)),
        Call::Vouch(named) => Ok(Event::Vouch(named.version()?)),
        Call::Release(bytes) => Ok(Event::Release(receipt_of(alloc, bytes)?)),
    }
}
