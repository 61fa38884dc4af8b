//! A version of an item, with what it supersedes and perhaps its message, as it is read.
ghost use Rattle.std.specs.Prelude.{◌≡◌, ◌&&◌, not, if◌then◌else◌, IfSome, IsSomeAnd};
ghost use Rattle.mr_version.specs.Name.{name_eq};
ghost use Rattle.mr_madewith.specs.Revision.{IsRevision};
ghost use Rattle.mr_wire.specs.Parts.{descent_at};
ghost use Rattle.mr_wire.specs.Reading.{Finds};
ghost use Rattle.mr_wire.specs.FrameParts.{revision_at};
ghost use Rattle.mr_wire.specs.inner.FrameParts.{FindsDescent};

use crate::descent::Descent;
use crate::input::Input;
use crate::message::message;
use crate::vector::{Place, Told, Watch, watched_vector};
use mr_concise::ConciseVector;
use mr_madewith::Revision;
use mr_mail::Message;
use mr_version::{ItemId, Version};
use std::alloc::Global;

/// A version of an item, and what it supersedes, where that is kept.
#[derive(Drop)]
struct ReadDescent {
    item: Version,
    version: Version,
    below: Option<ConciseVector>,
}

/// Whether a version may supersede what is told of: not itself, and the item's first version unless it
/// is that one, which supersedes nothing.
fn fits(item: Version, version: Version, told: Told) -> bool
    ensures { result ≡ (not told.seen.version && (if name_eq version item then told.is_empty else told.seen.item)) }
{
    let is_after = if version == item {
        told.is_empty
    } else {
        told.seen.item
    };
    !told.seen.version && is_after
}

/// A version of an item with what it supersedes.
fn descent_parts(input: &mut Input<'_>, memory: Option<Global>) -> Option<ReadDescent>
    ensures { FindsDescent input.old result input.new }
{
    let item = input.version()?;
    let version = input.version()?;
    let watch = Watch {
        version: Place::of(version),
        item: Place::of(item),
    };
    let (below, told) = watched_vector(input, memory, watch)?;
    if !fits(item, version, told) {
        return None;
    }
    Some(ReadDescent {
        item,
        version,
        below,
    })
}

/// The version with what it supersedes, where that is kept.
fn descent_of(parts: ReadDescent) -> Option<Descent>
    requires { IfSome parts.below (IsRevision parts.item parts.version) }
    ensures { IfSome result (λ d. IsSomeAnd parts.below (λ below. d ≡ record { item = parts.item; version = parts.version; below = below })) }
{
    Some(Descent::new(ItemId::new(parts.item), parts.version, parts.below?))
}

/// A version of an item with what it supersedes.
pub(crate) fn descent(input: &mut Input<'_>, memory: Option<Global>) -> Option<Option<Descent>>
    ensures { Finds (λ d. d) descent_at input.old result input.new }
{
    let parts = descent_parts(input, memory)?;
    Some(descent_of(parts))
}

/// The revision, where its parts are kept.
fn revision_of(
    memory: Option<Global>,
    parts: ReadDescent,
    message: Option<Message>,
) -> Option<Revision>
    requires { IfSome parts.below (IsRevision parts.item parts.version) }
    ensures { IfSome result (λ r. IsSomeAnd parts.below (λ below. IsSomeAnd message (λ m. r ≡ record { item = parts.item; version = parts.version; below = below; message = m }))) }
{
    let item = ItemId::new(parts.item);
    Revision::new(memory?, item, parts.version, parts.below?, message?).ok()
}

/// A version of an item with what it supersedes and its message.
pub(crate) fn revision(input: &mut Input<'_>, memory: Option<Global>) -> Option<Option<Revision>>
    ensures { Finds (λ r. r) revision_at input.old result input.new }
{
    let parts = descent_parts(input, memory)?;
    let message = message(input, memory)?;
    Some(revision_of(memory, parts, message))
}
