//! Files that one side wants of the other.
ghost use Rattle.std.specs.Prelude.{◌≡◌, IfOk, IfSome};
ghost use Rattle.mr_talk.specs.declared.kind.Kind.TheVariants as kind;
ghost use Rattle.mr_sync.specs.inner.Lists.{TellsFront};

use crate::fault::SyncFault;
use crate::lists::digest_list;
use crate::sending::message_of;
use crate::talk::Arriving;
use mr_talk::{Kind, Message};
use std::alloc::Global;

/// The most digests in a message.
pub(crate) const MOST_WANTS: usize = 65_536;

/// Wants of the other side what is lacking, as far as a message has room for it; none where nothing is lacking.
pub(crate) fn wants_message(
    alloc: Global,
    arriving: &mut Arriving,
) -> Result<Option<Message>, SyncFault>
    ensures kind { IfOk result (λ found. IfSome found (λ message. message.kind ≡ kind.Wants)) }
    ensures told { IfOk result (TellsFront MOST_WANTS arriving.old.lacking.keys arriving.new.lacking.keys) }
{
    if arriving.lacking.is_empty() {
        return Ok(None);
    }
    let bytes = digest_list(
        alloc,
        &mut arriving.lacking,
        &mut arriving.wanted,
        MOST_WANTS,
    )?;
    Ok(Some(message_of(Kind::Wants, bytes)))
}
