//! Messages and their bytes.
ghost use Rattle.std.specs.Prelude.{◌≡◌, ◌≤◌, ℕ, List, length, drop, IfOk, IfErr, Ok};
ghost use Rattle.mr_talk.specs.Kinds.{limit_of};
ghost use Rattle.mr_talk.specs.Messages.{Answers, Encodes, decoded, head_read};
ghost use Rattle.mr_talk.specs.Said.{Said, message_bytes};
ghost use Rattle.mr_talk.specs.Stream.{Begins};

use crate::fault::MessageFault;
use crate::kind::Kind;
use std::alloc::{AllocError, Global};
use std::marker::Model;

/// The bytes of a message's kind and of its length.
pub const HEAD_BYTES: usize = 5;

/// A message: its kind, and bytes that mean what the kind says, at most as many as [`Kind::limit`] tells.
#[derive(Debug, Drop)]
pub struct Message {
    kind: Kind,
    bytes: Vec<u8>,
}

impl Model for Message {
    ghost use Rattle.std.specs.Prelude.{◌≤◌, length};
    ghost use Rattle.mr_talk.specs.Kinds.{limit_of};
    ghost use Rattle.mr_talk.specs.Said.{Said};

    ghost Value = { Said };

    ghost view = { λ m. record { kind = m.kind; bytes = m.bytes.items } };

    ghost invariant = { λ m. length m.bytes.items ≤ limit_of m.kind };
}

impl Message {
    ghost use Rattle.std.specs.Prelude.{◌↔◌, IsOk};

    /// A message of this kind with these bytes. `TooLong` where they are more than one of its kind may have.
    pub fn new(kind: Kind, bytes: Vec<u8>) -> Result<Message, MessageFault>
        ensures ok { IfOk result (λ m. (m.kind ≡ kind) × (m.bytes ≡ bytes.items)) }
        ensures exact { IsOk result ↔ (length bytes.items ≤ limit_of kind) }
        ensures fault { IfErr result (λ fault. fault ≡ MessageFault.TooLong) }
    {
        if bytes.len() > kind.limit() as usize {
            return Err(MessageFault::TooLong);
        }
        Ok(Message { kind, bytes })
    }

    /// What the message says.
    pub fn kind(&self) -> Kind
        ensures { result ≡ self.now.kind }
    {
        self.kind
    }

    /// The bytes behind its length.
    pub fn bytes(&self) -> &[u8]
        ensures is { result.now ≡ self.now.bytes }
        ensures most { length result.now ≤ limit_of self.now.kind }
    {
        &self.bytes
    }

    /// The bytes behind its length, with no copy.
    pub fn into_bytes(self) -> Vec<u8>
        ensures { result.items ≡ self.bytes }
    {
        self.bytes
    }
}

/// The kind and the length of the first message, or the first fault.
fn head(bytes: &[u8]) -> Result<(Kind, u32), MessageFault>
    ensures is { result ≡ head_read bytes.now }
    ensures fits { IfOk result (λ head. head.1 ≤ limit_of head.0) }
{
    let [byte, rest @ ..] = bytes else {
        return Err(MessageFault::Truncated);
    };
    let Some(kind) = Kind::from_byte(*byte) else {
        return Err(MessageFault::BadKind);
    };
    let Some((length, _)) = rest.split_first_chunk::<4>() else {
        return Err(MessageFault::Truncated);
    };
    let length = u32::from_be_bytes(*length);
    if length > kind.limit() {
        return Err(MessageFault::TooLong);
    }
    Ok((kind, length))
}

/// The first message and how many bytes it takes, or the first fault.
fn first(alloc: Global, bytes: &[u8]) -> Result<(Message, usize), MessageFault>
    ensures exact { Answers (decoded bytes.now) result }
{
    let (kind, length) = head(bytes)?;
    let used = HEAD_BYTES + length as usize;
    if bytes.len() < used {
        return Err(MessageFault::Truncated);
    }
    let body = bytes[HEAD_BYTES..used].to_vec(alloc)?;
    Ok((Message { kind, bytes: body }, used))
}

/// The message at the front of the bytes, and how many bytes it takes.
///
/// A message is a byte of its kind, a length of four bytes, the highest first, and so many bytes. The faults are tried in
/// this order: `Truncated` where there are no bytes; `BadKind` for a first byte outside 1 to 15; `Truncated` for fewer
/// than five bytes; `TooLong` for a length above [`Kind::limit`], before any of those bytes is looked at; `Truncated` where
/// fewer bytes follow than the length says; `OutOfMemory` last. It costs a copy of the message's bytes.
pub fn decode(alloc: Global, bytes: &[u8]) -> Result<(Message, usize), MessageFault>
    ensures exact { Answers (decoded bytes.now) result }
    ensures begins { IfOk result (λ found. Begins bytes.now found.0 (drop found.1 bytes.now)) }
    ensures within { IfOk result (λ found. found.1 ≤ length bytes.now) }
    ensures whole { (m : Said) (left : List ℕ) → Begins bytes.now m left → Answers (Ok (m, length (message_bytes m))) result }
{
    first(alloc, bytes)
}

/// The bytes of a message that isn't too long.
fn spelled(alloc: Global, kind: Kind, bytes: &[u8]) -> Result<Vec<u8>, AllocError>
    requires { length bytes.now ≤ limit_of kind }
    ensures { IfOk result (λ v. v.items ≡ message_bytes (record { kind = kind; bytes = bytes.now })) }
{
    let most = kind.limit();
    let mut out = Vec::with_capacity(alloc, HEAD_BYTES + bytes.len())?;
    out.push(kind.byte())?;
    out.extend_from_slice(&(bytes.len() as u32).to_be_bytes())?;
    out.extend_from_slice(bytes)?;
    prove!(bytes.len() <= most as usize);
    Ok(out)
}

/// The one spelling of the message of this kind with these bytes.
///
/// `TooLong` where they are more than one of its kind may have, before anything is copied; else `OutOfMemory`, where there
/// is none.
pub fn encode(alloc: Global, kind: Kind, bytes: &[u8]) -> Result<Vec<u8>, MessageFault>
    ensures { Encodes (record { kind = kind; bytes = bytes.now }) result }
{
    if bytes.len() > kind.limit() as usize {
        return Err(MessageFault::TooLong);
    }
    Ok(spelled(alloc, kind, bytes)?)
}
