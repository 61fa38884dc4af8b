//! The batches of a device, read one after another.
ghost use Rattle.std.specs.Prelude.{◌≡◌, ◌≢◌, ◌⊎◌, ◌+◌, ◌-◌, ◌<◌, ◌≤◌, ◌^◌, ◌++◌, ◌∷◌, ℕ, List, IsTrue, Err, length, take, drop, IfOk, IfErr, IfSome, IfNone};
ghost use Rattle.mr_journal.specs.declared.fault.JournalFault.TheVariants.{OutOfMemory, Failed};
ghost use Rattle.mr_journal.specs.Device.{IsUntouched};
ghost use Rattle.mr_journal.specs.inner.Reading.{AreRead, IsFound, IsHead, IsSplit};
ghost use Rattle.mr_journal.specs.Format.{contents, entry_bytes, head, u64};

use crate::Device;
use crate::fault::JournalFault;
use crate::spell::{BATCH_HEAD_BYTES, HEAD_BYTES};
use sha2::{Digest, Sha256};
use std::alloc::{AllocError, Global};

/// What the front of a batch says.
#[derive(Drop)]
pub(crate) enum BatchHead {
    /// The gate is closed.
    Closed,
    /// The gate is open before a body of this size and digest.
    Open(u64, [u8; 32]),
    /// It is neither.
    Broken,
}

/// So many bytes of the device from a place on.
pub(crate) fn read_vec<D: Device>(
    alloc: Global,
    device: &mut D,
    at: u64,
    count: usize,
) -> Result<Vec<u8>, JournalFault>
    ensures read { IsTrue D.is_told → IfOk result (λ bytes. bytes.items ≡ take count (drop at (D.seen device.old))) }
    ensures count { IfOk result (λ bytes. length bytes.items ≡ count) }
    ensures faults { IfErr result (λ fault. (fault ≡ OutOfMemory) ⊎ (fault ≡ Failed)) }
    ensures untouched { IsTrue D.is_told → IsUntouched D.seen D.may_leave D.moment D.left_since device.old device.new }
    ensures cause { IsTrue D.is_told → IfErr result (λ fault. fault ≡ Failed → IsTrue (D.has_failed device.new)) }
{
    let mut bytes = vec![in alloc; 0; count]?;
    device.read_at(at, &mut bytes)?;
    Ok(bytes)
}

/// What the first bytes of a batch say, of which there are 41 or as many as the device has.
fn batch_head(bytes: &[u8]) -> BatchHead
    requires { length bytes.now ≤ 41 }
    ensures { IsHead result bytes.now }
{
    match bytes {
        [0, ..] => BatchHead::Closed,
        [1, numbers @ ..] if numbers.len() == 40 => {
            let mut digest = [0u8; 32];
            digest.copy_from_slice(&numbers[8..]);
            let mut size = [0u8; 8];
            size.copy_from_slice(&numbers[..8]);
            BatchHead::Open(u64::from_be_bytes(size), digest)
        }
        _ => BatchHead::Broken,
    }
}

/// The body of a batch at a place, whose front says this size and digest.
fn body_at<D: Device>(
    alloc: Global,
    device: &mut D,
    at: u64,
    len: u64,
    size: u64,
    digest: [u8; 32],
) -> Result<Option<Vec<u8>>, JournalFault>
    requires { at + 41 ≤ len }
    ensures found { IsTrue D.is_told → len ≡ length (D.seen device.old) → take 41 (drop at (D.seen device.old)) ≡ 1 ∷ (u64 size ++ digest)
        → IsFound result at (drop at (D.seen device.old)) }
    ensures within { IfOk result (λ found. IfSome found (λ bytes. at + 41 + length bytes.items ≤ len)) }
    ensures a_body { IfOk result (λ found. IfNone found ⊥) }
    ensures untouched { IsTrue D.is_told → IsUntouched D.seen D.may_leave D.moment D.left_since device.old device.new }
    ensures cause { IsTrue D.is_told → IfErr result (λ fault. fault ≡ Failed → IsTrue (D.has_failed device.new)) }
{
    if size > len - at - BATCH_HEAD_BYTES {
        return Err(JournalFault::Damaged(at));
    }
    let bytes = read_vec(alloc, device, at + BATCH_HEAD_BYTES, size as usize)?;
    if Sha256::digest(bytes.as_slice()) != digest {
        return Err(JournalFault::Damaged(at));
    }
    Ok(Some(bytes))
}

/// The body of the batch at a place, or `None` where a closed gate stands there.
fn batch_at<D: Device>(
    alloc: Global,
    device: &mut D,
    at: u64,
    len: u64,
) -> Result<Option<Vec<u8>>, JournalFault>
    ensures found { IsTrue D.is_told → len ≡ length (D.seen device.old) → IsFound result at (drop at (D.seen device.old)) }
    ensures within { IfOk result (λ found. IfSome found (λ bytes. at + 41 + length bytes.items ≤ len)) }
    ensures gate_within { IfOk result (λ found. IfNone found (at < len)) }
    ensures untouched { IsTrue D.is_told → IsUntouched D.seen D.may_leave D.moment D.left_since device.old device.new }
    ensures cause { IsTrue D.is_told → IfErr result (λ fault. fault ≡ Failed → IsTrue (D.has_failed device.new)) }
{
    if at >= len {
        return Err(JournalFault::Damaged(at));
    }
    let count = BATCH_HEAD_BYTES.min(len - at);
    let first = read_vec(alloc, device, at, count as usize)?;
    match batch_head(&first) {
        BatchHead::Closed => Ok(None),
        BatchHead::Broken => Err(JournalFault::Damaged(at)),
        BatchHead::Open(size, digest) => body_at(alloc, device, at, len, size, digest),
    }
}

/// The entry with which a body's bytes begin, and what is behind it.
fn split_entry(bytes: &[u8]) -> Option<(&[u8], &[u8])>
    ensures split { IfSome result (λ it. (bytes.now ≡ entry_bytes it.0.now ++ it.1.now) × (length it.0.now < 2 ^ 32)) }
    ensures none { IfNone result ((entry behind : List ℕ) → length entry < 2 ^ 32 → bytes.now ≢ entry_bytes entry ++ behind) }
{
    if bytes.len() < 4 {
        return None;
    }
    let mut number = [0u8; 4];
    number.copy_from_slice(&bytes[..4]);
    let count = u32::from_be_bytes(number) as usize;
    let behind = &bytes[4..];
    if count > behind.len() {
        return None;
    }
    Some(behind.split_at(count))
}

/// Splits the body of a batch into entries, which it appends, and tells whether it is entries.
fn split_body(alloc: Global, bytes: &[u8], entries: &mut Vec<Vec<u8>>) -> Result<bool, AllocError>
    ensures { IfOk result (λ whole. IsSplit whole bytes.now (contents entries.old.items) (contents entries.new.items)) }
{
    let mut rest = bytes;
    while !rest.is_empty() {
        let Some((entry, behind)) = split_entry(rest) else {
            return Ok(false);
        };
        entries.push(entry.to_vec(alloc)?)?;
        rest = behind;
    }
    Ok(true)
}

/// The entries of the batches behind a head, and the place of the closed gate behind them.
pub(crate) fn read_batches<D: Device>(
    alloc: Global,
    device: &mut D,
    len: u64,
) -> Result<(Vec<Vec<u8>>, u64), JournalFault>
    ensures read { IsTrue D.is_told → len ≡ length (D.seen device.old) → (rest : List ℕ) → D.seen device.old ≡ head 1 ++ rest
        → AreRead result (D.seen device.old) }
    ensures within { IfOk result (λ read. read.1 < len) }
    ensures untouched { IsTrue D.is_told → IsUntouched D.seen D.may_leave D.moment D.left_since device.old device.new }
    ensures cause { IsTrue D.is_told → IfErr result (λ fault. fault ≡ Failed → IsTrue (D.has_failed device.new)) }
{
    let mut entries = Vec::new(alloc);
    let mut at = HEAD_BYTES;
    'batches: while let Some(bytes) = batch_at(alloc, device, at, len)? {
        if !split_body(alloc, &bytes, &mut entries)? {
            return Err(JournalFault::Damaged(at));
        }
        at += BATCH_HEAD_BYTES + bytes.len() as u64;
    }
    Ok((entries, at))
}
