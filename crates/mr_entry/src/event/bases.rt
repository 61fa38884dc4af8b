//! The bases of an edit: a count, and so many versions.
ghost use Rattle.std.specs.Prelude.{◌≡◌, ◌<◌, ◌^◌, ◌++◌, OnOk, All, IfSome, IsSomeAnd, length};
ghost use Rattle.std.specs.List.{flat_map};
ghost use Rattle.mr_wire.specs.Grammar.{IsItem};
ghost use Rattle.mr_wire.specs.Reading.{Finds};
ghost use Rattle.mr_wire.specs.Spelling.{name_bytes};
ghost use Rattle.mr_replica.specs.declared.event.Event.TheVariants.{Edit};
ghost use Rattle.mr_entry.specs.Grammar.{IsEvent};
ghost use Rattle.mr_entry.specs.Parts.{edit_at, versions_at, versions_run};
ghost use Rattle.mr_entry.specs.Spelling.{event_parts};

use crate::event::lengths::VERSION_BYTES;
use mr_mail::Message;
use mr_replica::{Bases, Event};
use mr_version::Version;
use mr_wire::parts::{Input, keep, put_message, put_u32, put_version, read_message, room};
use std::alloc::{AllocError, Global};

/// So many versions.
fn version_run(
    input: &mut Input<'_>,
    memory: Option<Global>,
    count: u32,
) -> Option<Option<Vec<Version>>>
    ensures { Finds (λ v. v.items) (versions_run count) input.old result input.new }
{
    let most = input.len() / VERSION_BYTES;
    let mut versions = room(memory, most.min(count as usize));
    for _ in 0..count {
        let version = input.version()?;
        keep(&mut versions, Some(version));
    }
    Some(versions)
}

/// Versions behind their count.
fn versions(input: &mut Input<'_>, memory: Option<Global>) -> Option<Option<Vec<Version>>>
    ensures { Finds (λ v. v.items) versions_at input.old result input.new }
{
    let count = input.u32()?;
    version_run(input, memory, count)
}

/// The edit, where its parts are kept.
fn edit_of(versions: Option<Vec<Version>>, message: Option<Message>) -> Option<Event>
    ensures { IfSome result (λ e. IsSomeAnd versions (λ v. IsSomeAnd message (λ m. e ≡ Edit v.items m))) }
{
    Some(Event::Edit(Bases::new(versions?), message?))
}

/// An edit.
pub(crate) fn edit(input: &mut Input<'_>, memory: Option<Global>) -> Option<Option<Event>>
    ensures { Finds (λ e. e) edit_at input.old result input.new }
{
    let versions = versions(input, memory)?;
    let message = read_message(input, memory)?;
    Some(edit_of(versions, message))
}

fn put_versions(out: &mut Vec<u8>, versions: &[Version]) -> Result<(), AllocError>
    ensures written { OnOk result (out.new.items ≡ out.old.items ++ flat_map name_bytes versions.now) }
    ensures in_grammar { OnOk result (All IsItem versions.now) }
{
    for version in versions {
        put_version(out, *version)?;
    }
    Ok(())
}

/// Writes an edit of at most 2^32 - 1 bases.
pub(crate) fn put_edit(
    out: &mut Vec<u8>,
    bases: &Bases,
    message: &Message,
) -> Result<(), AllocError>
    requires { length bases.now < 2 ^ 32 }
    ensures written { OnOk result (out.new.items ≡ out.old.items ++ event_parts (Edit bases.now message.now)) }
    ensures in_grammar { OnOk result (IsEvent (Edit bases.now message.now)) }
{
    let versions = bases.as_slice();
    put_u32(out, versions.len() as u32)?;
    put_versions(out, versions)?;
    put_message(out, message)
}
