//! Files that go, piece by piece.
ghost use Rattle.std.specs.Prelude.{◌≡◌, ◌++◌, ◌≤◌, IfOk, length, vec_len};
ghost use Rattle.mr_talk.specs.Kinds.{limit_of};
ghost use Rattle.mr_wire.specs.Spelling.{u64};
ghost use Rattle.mr_talk.specs.declared.kind.Kind.TheVariants as kind;
ghost use Rattle.mr_sync.specs.inner.Sending.{GoesOn};

use crate::lists::begin_bytes;
use mr_compare::Digest;
use mr_talk::{Kind, MAX_PIECE_BYTES, Message};
use std::alloc::{AllocError, Global};

/// A file that goes: its bytes, of which so many are told.
#[derive(Drop)]
pub(crate) struct Sending {
    pub(crate) bytes: Vec<u8>,
    pub(crate) told: usize,
    ghost within: { told ≤ vec_len bytes },
}

/// The message of this kind with these bytes, which are no more than one of it may have.
pub(crate) fn message_of(kind: Kind, bytes: Vec<u8>) -> Message
    requires { length bytes.items ≤ limit_of kind }
    ensures kind { result.kind ≡ kind }
    ensures bytes { result.bytes ≡ bytes.items }
{
    match Message::new(kind, bytes) {
        Ok(message) => message,
        Err(_) => unreachable!(),
    }
}

/// What a file begins with, as a message.
pub(crate) fn begin_message(
    alloc: Global,
    digest: &Digest,
    size: usize,
) -> Result<Message, AllocError>
    ensures { IfOk result (λ message. (message.kind ≡ kind.Begin) × (message.bytes ≡ digest.now ++ u64 size)) }
{
    let bytes = begin_bytes(alloc, digest, size as u64)?;
    prove!(bytes.len() <= 40);
    Ok(message_of(Kind::Begin, bytes))
}

/// The next piece of the file as a message, or its end once all is told.
pub(crate) fn file_message(alloc: Global, sending: &mut Sending) -> Result<Message, AllocError>
    ensures goes_on { IfOk result (GoesOn sending.old.bytes.items sending.old.told sending.new.told) }
    ensures same { sending.new.bytes ≡ sending.old.bytes }
{
    let size = (sending.bytes.len() - sending.told).min(MAX_PIECE_BYTES as usize);
    let upto = sending.told + size;
    let mut bytes = Vec::new(alloc);
    bytes.extend_from_slice(&sending.bytes[sending.told..upto])?;
    sending.told = upto;
    if size == 0 {
        return Ok(message_of(Kind::End, bytes));
    }
    Ok(message_of(Kind::Piece, bytes))
}
