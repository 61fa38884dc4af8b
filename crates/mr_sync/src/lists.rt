//! Lists in messages: digests of files, and items with versions that wait for a receipt.
ghost use Rattle.std.specs.Prelude.{◌≡◌, ◌<◌, ◌≤◌, ◌^◌, ◌++◌, ◌*◌, ℕ, List, length, Some, IfOk, IfSome, OnOk};
ghost use Rattle.std.specs.List.{flat_map};
ghost use Rattle.mr_wire.specs.Reading.{Finds, Gives};
ghost use Rattle.mr_wire.specs.Spelling.{u64};
ghost use Rattle.mr_sync.specs.Lists.{IsDigest, IsPushOut, ReadsList, push_out_bytes, revision_bytes};
ghost use Rattle.mr_sync.specs.inner.Lists.{TakesFront, begin_at, digest_at, list_at, push_out_at, whole_list_of};

use crate::fault::SyncFault;
use mr_compare::Digest;
use mr_replica::Revision;
use mr_version::{ItemId, Version};
use mr_wire::parts::{Input, keep, put_u64, put_version, room};
use std::alloc::{AllocError, Global};
use std::collections::BTreeSet;

/// The bytes of a digest.
pub const DIGEST_BYTES: usize = 32;

/// The bytes of an item and a version in a list.
pub const PUSH_OUT_BYTES: usize = 12;

/// A version of an item that waits for a receipt at the side that tells it.
#[derive(Clone, Copy, Debug, PartialEq, Eq)]
pub struct PushOut {
    pub item: ItemId,
    pub version: Version,
}

/// The bytes of the items and versions of these revisions, one after the other: author and counter of the item, then of the
/// version, 12 bytes each.
pub fn push_out_list(alloc: Global, revisions: &[Revision]) -> Result<Vec<u8>, AllocError>
    ensures { IfOk result (λ bytes. bytes.items ≡ flat_map revision_bytes revisions.now) }
{
    let mut out = Vec::new(alloc);
    for revision in revisions {
        put_push_out(&mut out, revision)?;
    }
    Ok(out)
}

fn put_push_out(out: &mut Vec<u8>, revision: &Revision) -> Result<(), AllocError>
    ensures { OnOk result (out.new.items ≡ out.old.items ++ revision_bytes revision.now) }
{
    put_version(out, revision.item().creator())?;
    put_version(out, revision.version())
}

/// The items and versions that the bytes list: the one list that is spelled so. `BadList` where there is none;
/// `OutOfMemory` else.
pub fn read_push_outs(alloc: Global, bytes: &[u8]) -> Result<Vec<PushOut>, SyncFault>
    ensures { ReadsList IsPushOut push_out_bytes bytes.now result }
{
    let mut input = Input::new(bytes);
    let found = push_out_run(&mut input, alloc, bytes.len() / PUSH_OUT_BYTES);
    whole_list(found, input.len())
}

/// The list that was found, if nothing is left behind it and there was memory for it.
fn whole_list<T: Drop>(found: Option<Option<Vec<T>>>, left: usize) -> Result<Vec<T>, SyncFault>
    ensures { result ≡ whole_list_of found left }
{
    if left != 0 {
        return Err(SyncFault::BadList);
    }
    match found {
        None => Err(SyncFault::BadList),
        Some(None) => Err(SyncFault::OutOfMemory),
        Some(Some(list)) => Ok(list),
    }
}

/// So many items and versions.
fn push_out_run(input: &mut Input<'_>, alloc: Global, count: usize) -> Option<Option<Vec<PushOut>>>
    ensures { Finds (λ v. v.items) (list_at push_out_at count) input.old result input.new }
{
    let mut list = room(Some(alloc), count);
    for _ in 0..count {
        let one = push_out(input)?;
        keep(&mut list, Some(one));
    }
    Some(list)
}

fn push_out(input: &mut Input<'_>) -> Option<PushOut>
    ensures { Gives push_out_at input.old result input.new }
{
    let item = ItemId::new(input.version()?);
    let version = input.version()?;
    Some(PushOut { item, version })
}

/// The bytes of the least digests that are lacking, one after the other, at most so many. These are wanted from now on, and lacking
/// no more, unless memory runs out.
pub(crate) fn digest_list(
    alloc: Global,
    lacking: &mut BTreeSet<Digest>,
    wanted: &mut BTreeSet<Digest>,
    most: usize,
) -> Result<Vec<u8>, AllocError>
    ensures front { IfOk result (λ bytes. TakesFront most lacking.old.keys bytes.items lacking.new.keys) }
    ensures short { IfOk result (λ bytes. length bytes.items ≤ 32 * most) }
{
    let mut out = Vec::new(alloc);
    for _ in 0..most {
        let Some(digest) = lacking.pop_first() else {
            break;
        };
        out.extend_from_slice(&digest)?;
        wanted.insert(digest)?;
    }
    Ok(out)
}

/// The digests that the bytes list: the one list that is spelled so. `BadList` where there is none; `OutOfMemory` else.
pub fn read_digests(alloc: Global, bytes: &[u8]) -> Result<Vec<Digest>, SyncFault>
    ensures { ReadsList IsDigest (λ (d : List ℕ). d) bytes.now result }
{
    let mut input = Input::new(bytes);
    let found = digest_run(&mut input, alloc, bytes.len() / DIGEST_BYTES);
    whole_list(found, input.len())
}

/// So many digests.
fn digest_run(input: &mut Input<'_>, alloc: Global, count: usize) -> Option<Option<Vec<Digest>>>
    ensures { Finds (λ v. v.items) (list_at digest_at count) input.old result input.new }
{
    let mut list = room(Some(alloc), count);
    for _ in 0..count {
        let one = digest(input)?;
        keep(&mut list, Some(one));
    }
    Some(list)
}

fn digest(input: &mut Input<'_>) -> Option<Digest>
    ensures { Gives digest_at input.old result input.new }
{
    let front = input.bytes(DIGEST_BYTES)?;
    let mut digest = [0u8; 32];
    digest.copy_from_slice(front);
    Some(digest)
}

/// The bytes that a file begins with: its digest, and its length in eight bytes, the highest first.
pub fn begin_bytes(alloc: Global, digest: &Digest, length: u64) -> Result<Vec<u8>, AllocError>
    ensures { IfOk result (λ bytes. bytes.items ≡ digest.now ++ u64 length) }
{
    let mut out = Vec::with_capacity(alloc, DIGEST_BYTES + 8)?;
    out.extend_from_slice(digest)?;
    put_u64(&mut out, length)?;
    Ok(out)
}

/// The digest and the length that a file begins with; none where the bytes are no such.
pub fn read_begin(bytes: &[u8]) -> Option<(Digest, u64)>
    ensures spelled { IfSome result (λ found. bytes.now ≡ found.0 ++ u64 found.1) }
    ensures whole { (digest : List ℕ) (size : ℕ) → IsDigest digest → size < 2 ^ 64 → bytes.now ≡ digest ++ u64 size → result ≡ Some (digest, size) }
{
    let mut input = Input::new(bytes);
    let found = begin_in(&mut input)?;
    if input.len() != 0 {
        return None;
    }
    Some(found)
}

fn begin_in(input: &mut Input<'_>) -> Option<(Digest, u64)>
    ensures { Gives begin_at input.old result input.new }
{
    let digest = digest(input)?;
    let length = input.u64()?;
    Some((digest, length))
}

/// The digest that the bytes are, all of them.
pub fn read_digest(bytes: &[u8]) -> Option<Digest>
    ensures is { IfSome result (λ digest. digest ≡ bytes.now) }
    ensures whole { IsDigest bytes.now → result ≡ Some bytes.now }
{
    if bytes.len() != DIGEST_BYTES {
        return None;
    }
    let mut digest = [0u8; 32];
    digest.copy_from_slice(bytes);
    Some(digest)
}
