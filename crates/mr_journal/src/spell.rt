//! The bytes of a batch.
ghost use Rattle.std.specs.Prelude.{◌≡◌, ◌+◌, ◌<◌, ◌^◌, ◌++◌, ◌∷◌, [], length, IfOk, OnOk};
ghost use Rattle.std.specs.Option.{SomeIff};
ghost use Rattle.sha2.specs.Sha256.{sha256};
ghost use Rattle.mr_journal.specs.Format.{AreEntries, Fits, body, contents, sealed};

use sha2::{Digest, Sha256};
use std::alloc::{AllocError, Global};

/// The most bytes of a journal.
pub(crate) const MAX_BYTES: u64 = 1 << 62;

/// The bytes of a journal's head.
pub(crate) const HEAD_BYTES: u64 = 10;

/// The bytes of a batch that stand before its body: the gate, the length and the digest.
pub(crate) const BATCH_HEAD_BYTES: u64 = 41;

/// How many bytes the body of a batch has, or `None` where it doesn't fit behind this place.
pub(crate) fn body_size(place: u64, entries: &[Vec<u8>]) -> Option<u64>
    ensures { SomeIff result (Fits place (contents entries.now)) (length (body (contents entries.now))) }
{
    if place > MAX_BYTES - BATCH_HEAD_BYTES - 1 {
        return None;
    }
    let room = MAX_BYTES - BATCH_HEAD_BYTES - 1 - place;
    let mut size = 0;
    let mut rest = entries;
    while let [entry, after @ ..] = rest {
        if entry.len() > u32::MAX as usize {
            return None;
        }
        size += 4 + entry.len() as u64;
        if size > room {
            return None;
        }
        rest = after;
    }
    Some(size)
}

/// The digest of a batch's body.
fn body_digest(entries: &[Vec<u8>]) -> [u8; 32]
    requires { AreEntries (contents entries.now) }
    ensures { result ≡ sha256 (body (contents entries.now)) }
{
    let mut hasher = Sha256::new();
    let mut rest = entries;
    while let [entry, after @ ..] = rest {
        hasher.update((entry.len() as u32).to_be_bytes());
        hasher.update(entry.as_slice());
        rest = after;
    }
    hasher.finalize()
}

/// Appends the body of a batch.
fn put_body(out: &mut Vec<u8>, entries: &[Vec<u8>]) -> Result<(), AllocError>
    requires { AreEntries (contents entries.now) }
    ensures { OnOk result (out.new.items ≡ out.old.items ++ body (contents entries.now)) }
{
    let mut rest = entries;
    while let [entry, after @ ..] = rest {
        out.extend_from_slice(&(entry.len() as u32).to_be_bytes())?;
        out.extend_from_slice(entry)?;
        rest = after;
    }
    Ok(())
}

/// What a batch puts behind the closed gate: all of it but its own gate, and a closed one.
pub(crate) fn staged(alloc: Global, entries: &[Vec<u8>], size: u64) -> Result<Vec<u8>, AllocError>
    requires entries_are { AreEntries (contents entries.now) }
    requires size_is { size ≡ length (body (contents entries.now)) }
    requires small { size < 2 ^ 62 }
    ensures { IfOk result (λ bytes. bytes.items ≡ sealed (contents entries.now) ++ (0 ∷ [])) }
{
    let mut bytes = Vec::with_capacity(alloc, (BATCH_HEAD_BYTES + size) as usize)?;
    bytes.extend_from_slice(&size.to_be_bytes())?;
    bytes.extend_from_slice(&body_digest(entries))?;
    put_body(&mut bytes, entries)?;
    bytes.push(0)?;
    Ok(bytes)
}
