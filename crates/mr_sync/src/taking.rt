//! What comes beside files, records and receipts.
ghost use Rattle.std.specs.Prelude.{◌≡◌, ◌≢◌, ◌++◌, ℕ, List, length, Some, Err, OnOk, IfErr};
ghost use Rattle.std.specs.BTreeMap.{is_at};
ghost use Rattle.std.specs.Cmp.Lexicographic.{slice_cmp};
ghost use Rattle.std.specs.Ordering.{nat_cmp};
ghost use Rattle.std.specs.Set.{remove_key};
ghost use Rattle.mr_sync.specs.Lists.{IsDigest, IsPushOut, ReadsList, push_out_bytes};
ghost use Rattle.mr_sync.specs.Taken.{TakesPushOuts, TakesWants};

use crate::fault::SyncFault;
use crate::lists::{read_digest, read_digests, read_push_outs};
use crate::talk::Talk;
use crate::vouching::{Waiting, note_waiting};
use mr_compare::Digest;
use mr_talk::Short;
use std::alloc::{AllocError, Global};
use std::collections::VecDeque;

/// Takes that a file is missing at the other side: it is wanted no more. One that wasn't wanted is passed over.
pub(crate) fn take_missing(talk: &mut Talk, bytes: &[u8]) -> Result<(), SyncFault>
    ensures taken { OnOk result (talk.new.arriving.wanted.keys ≡ remove_key (is_at (slice_cmp nat_cmp bytes.now)) talk.old.arriving.wanted.keys) }
    ensures lacking { talk.new.arriving.lacking.keys ≡ talk.old.arriving.lacking.keys }
    ensures fault { IfErr result (λ fault. (fault ≡ SyncFault.BadList) × ¬ IsDigest bytes.now) }
{
    let Some(digest) = read_digest(bytes) else {
        return Err(SyncFault::BadList);
    };
    let was_wanted = talk.arriving.wanted.remove(&digest);
    talk.arriving.missing = talk.arriving.missing.saturating_add(u64::from(was_wanted));
    Ok(())
}

/// Takes digests that the other side wants, behind those that it wants already.
pub(crate) fn take_wants(
    alloc: Global,
    wants: &mut VecDeque<Digest>,
    bytes: &[u8],
) -> Result<(), SyncFault>
    ensures taken { OnOk result (TakesWants wants.old.items bytes.now wants.new.items) }
    ensures fault { IfErr result (λ fault. ReadsList IsDigest (λ (d : List ℕ). d) bytes.now (Err fault)) }
{
    let digests = read_digests(alloc, bytes)?;
    put_wants(wants, &digests)?;
    Ok(())
}

/// Puts digests behind those that the other side wants.
fn put_wants(wants: &mut VecDeque<Digest>, digests: &[Digest]) -> Result<(), AllocError>
    ensures { OnOk result (wants.new.items ≡ wants.old.items ++ digests.now) }
{
    for digest in digests {
        wants.push_back(*digest)?;
    }
    Ok(())
}

/// Takes what waits for a receipt at the other side.
pub(crate) fn take_push_outs(
    alloc: Global,
    waiting: &mut Waiting,
    bytes: &[u8],
) -> Result<(), SyncFault>
    ensures taken { OnOk result (TakesPushOuts waiting.old.entries bytes.now waiting.new.entries) }
    ensures fault { IfErr result (λ fault. ReadsList IsPushOut push_out_bytes bytes.now (Err fault)) }
{
    let list = read_push_outs(alloc, bytes)?;
    note_waiting(waiting, &list)?;
    Ok(())
}

/// Takes the first bytes of the digest of what the other side knows.
pub(crate) fn take_done(knows: &mut Option<Short>, bytes: &[u8]) -> Result<(), SyncFault>
    ensures knows { OnOk result (knows.new ≡ Some bytes.now) }
    ensures fault { IfErr result (λ fault. (fault ≡ SyncFault.BadList) × (length bytes.now ≢ 16)) }
{
    if bytes.len() != 16 {
        return Err(SyncFault::BadList);
    }
    let mut short: Short = [0u8; 16];
    short.copy_from_slice(bytes);
    *knows = Some(short);
    Ok(())
}
