//! What a folder's note of rest spells: numbers are big-endian, each of eight bytes.
ghost use Rattle.std.specs.Prelude.{◌≡◌, ◌≢◌, ◌↔◌, ◌++◌, ℕ, List, IfOk, IfSome, IsTrue, MatchOption, OnOk};
ghost use Rattle.sha2.specs.Sha256.{sha256};
ghost use Rattle.std.specs.List.{flat_map};
ghost use Rattle.mr_wire.specs.Spelling.{u64, name_bytes};
ghost use Rattle.mr_fold.specs.inner.Resting as specs;
ghost use Rattle.mr_fold.specs.inner.Resting.{folder_bytes, layout_number, note_bytes, size_bytes};

use mr_compare::Shown;
use mr_entry::{Birth, Mark};
use mr_itemset::SparingKnowledge;
use mr_maildir::Layout;
use mr_replica::Replica;
use mr_version::ItemId;
use mr_wire::parts::{put_u64, put_version};
use sha2::{Digest, Sha256};
use std::alloc::{AllocError, Global};

/// What of a replica with this birth, and of what its Maildir shows, tells whether it changed.
pub(crate) fn replica_bytes(
    alloc: Global,
    birth: Birth,
    layout: Layout,
    replica: &Replica<SparingKnowledge>,
    shown: &Shown,
) -> Result<Vec<u8>, AllocError>
    ensures { IfOk result (λ bytes. bytes.items ≡ specs.replica_bytes birth layout replica.now shown.now) }
{
    let mut out = Vec::from_slice(alloc, &birth)?;
    let counts = [
        layout_number(layout),
        u64::from(replica.id().id()),
        replica.log().len() as u64,
        replica.feed().len() as u64,
        shown.entries(),
        shown.lacking().len() as u64,
    ];
    put_numbers(&mut out, &counts)?;
    put_items(&mut out, shown.lacking())?;
    Ok(out)
}

fn layout_number(layout: Layout) -> u64
    ensures { result ≡ layout_number layout }
{
    match layout {
        Layout::Dots => 0,
        Layout::Plain => 1,
    }
}

/// Writes when the parts of a folder changed last, and its path.
pub(crate) fn put_folder(
    out: &mut Vec<u8>,
    path: &str,
    cur: u64,
    new: u64,
) -> Result<(), AllocError>
    ensures { OnOk result (out.new.items ≡ out.old.items ++ folder_bytes path.now cur new) }
{
    put_numbers(out, &[cur, new, path.len() as u64])?;
    out.extend_from_slice(path.as_bytes())
}

/// Writes the numbers.
pub(crate) fn put_numbers(out: &mut Vec<u8>, numbers: &[u64]) -> Result<(), AllocError>
    ensures { OnOk result (out.new.items ≡ out.old.items ++ flat_map u64 numbers.now) }
{
    for number in numbers {
        put_u64(out, *number)?;
    }
    Ok(())
}

/// Writes the items.
fn put_items(out: &mut Vec<u8>, items: &[ItemId]) -> Result<(), AllocError>
    ensures { OnOk result (out.new.items ≡ out.old.items ++ flat_map name_bytes items.now) }
{
    for item in items {
        put_version(out, item.creator())?;
    }
    Ok(())
}

/// What of a folder whose log isn't read tells whether it changed: the mark of its log's file, how its folders lie, and how its files stand.
pub(crate) fn closed_bytes(
    alloc: Global,
    mark: &Mark,
    layout: Layout,
    files: &[u8],
) -> Result<Vec<u8>, AllocError>
    ensures { IfOk result (λ bytes. bytes.items ≡ specs.closed_bytes mark.now layout files.now) }
{
    let mut out = Vec::from_slice(alloc, mark)?;
    put_u64(&mut out, layout_number(layout))?;
    out.extend_from_slice(files)?;
    Ok(out)
}

/// Bytes behind their digest.
pub(crate) fn sealed_bytes(alloc: Global, bytes: &[u8]) -> Result<Vec<u8>, AllocError>
    ensures { IfOk result (λ sealed. sealed.items ≡ sha256 bytes.now ++ bytes.now) }
{
    let mut out = Vec::from_slice(alloc, &Sha256::digest(bytes))?;
    out.extend_from_slice(bytes)?;
    Ok(out)
}

/// The bytes behind their digest, if it is theirs.
pub(crate) fn unsealed(sealed: &[u8]) -> Option<&[u8]>
    ensures { IfSome result (λ bytes. sealed.now ≡ sha256 bytes.now ++ bytes.now) }
{
    let (digest, bytes) = sealed.split_first_chunk::<32>()?;
    if Sha256::digest(bytes) != *digest {
        return None;
    }
    Some(bytes)
}

/// A note of this stand, and of what was seen.
pub(crate) fn rest_bytes(alloc: Global, stand: &[u8], seen: &[u8]) -> Result<Vec<u8>, AllocError>
    ensures { IfOk result (λ bytes. bytes.items ≡ note_bytes stand.now seen.now) }
{
    let mut out = Vec::new(alloc);
    put_u64(&mut out, stand.len() as u64)?;
    out.extend_from_slice(stand)?;
    out.extend_from_slice(seen)?;
    Ok(out)
}

/// What was seen, as a note of this stand has it. The note of no stand begins as that of another one.
pub(crate) fn seen_in<'a>(note: &'a [u8], stand: &[u8]) -> Option<&'a [u8]>
    ensures { MatchOption result ((seen : List ℕ) → note.now ≢ note_bytes stand.now seen) (λ seen. note.now ≡ note_bytes stand.now seen.now) }
{
    let length = (stand.len() as u64).to_be_bytes();
    note.strip_prefix(&length)?.strip_prefix(stand)
}

/// What was seen, as a note has it: names of this digest, and these sizes of the store's files.
pub(crate) fn seen_bytes(
    alloc: Global,
    names: &[u8; 32],
    sizes: &[(u64, u64)],
) -> Result<Vec<u8>, AllocError>
    ensures { IfOk result (λ seen. seen.items ≡ specs.seen_bytes names.now sizes.now) }
{
    let bytes = store_bytes(alloc, sizes)?;
    let mut seen = Vec::from_slice(alloc, names)?;
    seen.extend_from_slice(&Sha256::digest(bytes.as_slice()))?;
    Ok(seen)
}

/// Whether it was just this that was seen: names of this digest, and these sizes of the store's files.
pub(crate) fn was_seen(
    alloc: Global,
    seen: &[u8],
    names: &[u8; 32],
    sizes: &[(u64, u64)],
) -> Result<bool, AllocError>
    ensures { IfOk result (λ was. IsTrue was ↔ (seen.now ≡ specs.seen_bytes names.now sizes.now)) }
{
    let now = seen_bytes(alloc, names, sizes)?;
    Ok(now.as_slice() == seen)
}

/// Files of a store, each by its inode and its size.
fn store_bytes(alloc: Global, sizes: &[(u64, u64)]) -> Result<Vec<u8>, AllocError>
    ensures { IfOk result (λ bytes. bytes.items ≡ flat_map size_bytes sizes.now) }
{
    let mut out = Vec::new(alloc);
    for size in sizes {
        put_numbers(&mut out, &[size.0, size.1])?;
    }
    Ok(out)
}
