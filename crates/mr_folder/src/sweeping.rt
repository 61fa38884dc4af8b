//! Which files the store has, and how those that nobody wants go.
ghost use Rattle.std.specs.Prelude.{◌≡◌, ◌-◌, ◌++◌, ◌↔◌, ℕ, List, None, IsTrue, IfOk, OnOk, Contains, is_some, length, map, string_bytes};
ghost use Rattle.std.specs.Cmp.Lexicographic.{slice_cmp};
ghost use Rattle.std.specs.List.{filter_map};
ghost use Rattle.std.specs.Ordering.{nat_cmp};
ghost use Rattle.std.specs.List.Sorted.{IsSorted};
ghost use Rattle.std.specs.Option.{option_to_list};
ghost use Rattle.std.specs.Str.{bytes_eq};
ghost use Rattle.hex.specs.Hex.{encode_lower};
ghost use Rattle.mr_folder.specs.Inside.{stored_path};
ghost use Rattle.mr_folder.specs.Names.{IsDigest};
ghost use Rattle.mr_folder.specs.inner.Names.{digest_of};
ghost use Rattle.mr_folder.specs.Store.{IsSound, StaysSound};
ghost use Rattle.mr_folder.specs.Sweep.{SweepsOnly};
ghost use Rattle.mr_folder.specs.Tree.{IsUntouched, KeepsAt};

use crate::files::FileTree;
use crate::path::FilePath;
use crate::store::StoreFault;
use hex::FromHex;
use std::alloc::{AllocError, Global};

/// Which files the store has.
#[derive(Drop)]
pub struct StoredMails {
    /// The digests of its files.
    pub digests: Vec<[u8; 32]>,
    /// How many names in its folder are no digest's.
    pub others: usize,
}

/// Which files the store has, by the names in its folder. The files aren't read.
pub fn stored<F: FileTree>(alloc: Global, files: &mut F) -> Result<StoredMails, StoreFault>
    ensures digests { IsTrue F.is_told → IfOk result (λ stored. (digest : List ℕ) → IsDigest digest
        → Contains stored.digests.items digest ↔ IsTrue (is_some (F.seen files.old (stored_path digest)))) }
    ensures untouched { IsTrue F.is_told → IsUntouched F.seen F.may_leave F.moment F.left_since files.old files.new }
{
    let names = files.stored_names(alloc)?;
    let stored = digests_of(alloc, &names)?;
    Ok(stored)
}

/// The digests whose digits names are, in lower case, in the order of the names.
fn digests_of(alloc: Global, names: &Vec<String>) -> Result<StoredMails, AllocError>
    ensures digests { IfOk result (λ stored. stored.digests.items ≡ filter_map digest_of (map (λ s. string_bytes s) names.now.items)) }
    ensures others { IfOk result (λ stored. stored.others ≡ length names.now.items - length stored.digests.items) }
{
    let mut digests = Vec::new(alloc);
    for name in names {
        push_some(&mut digests, digest_of(name.as_str()))?;
    }
    let others = names.len().saturating_sub(digests.len());
    Ok(StoredMails { digests, others })
}

/// Appends a digest, if there is one.
fn push_some(digests: &mut Vec<[u8; 32]>, digest: Option<[u8; 32]>) -> Result<(), AllocError>
    ensures { OnOk result (digests.new.items ≡ digests.old.items ++ option_to_list digest) }
{
    if let Some(digest) = digest {
        digests.push(digest)?;
    }
    Ok(())
}

/// The digest whose digits a name is, in lower case.
fn digest_of(name: &str) -> Option<[u8; 32]>
    ensures { result ≡ digest_of name.now }
{
    match <[u8; 32]>::from_hex(name) {
        Ok(digest) if is_written(&digest, name) => Some(digest),
        _ => None,
    }
}

/// Whether these are the digits of the digest, in lower case.
fn is_written(digest: &[u8; 32], digits: &str) -> bool
    ensures { result ≡ bytes_eq (encode_lower digest.now) digits.now }
{
    let mut written = [0; 64];
    match hex::encode_to_slice(digest.as_slice(), &mut written) {
        Ok(()) => written.as_slice() == digits.as_bytes(),
        Err(_) => false,
    }
}

/// Takes exactly those files out of the store whose digest isn't held. `held` is sorted, as `sort` does it.
///
/// What is held is untouched, and so is all outside of the store and a mail that comes in, at each moment of the call and after a
/// crash, also where it fails. After a crash a file that went may be there again.
pub fn sweep<F: FileTree>(alloc: Global, files: &mut F, held: &[[u8; 32]]) -> Result<(), StoreFault>
    requires { IsSorted (slice_cmp nat_cmp) held.now }
    ensures swept { IsTrue F.is_told → OnOk result ((digest : List ℕ) → IsDigest digest → ¬ (Contains held.now digest)
        → F.seen files.new (stored_path digest) ≡ None) }
    ensures only { IsTrue F.is_told → SweepsOnly F.seen F.may_leave F.moment F.left_since held.now files.old files.new }
    ensures held { IsTrue F.is_told → (digest : List ℕ) → IsDigest digest → Contains held.now digest
        → KeepsAt F.seen F.may_leave F.moment F.left_since (stored_path digest) files.old files.new }
    ensures sound { IsTrue F.is_told → IsSound F.seen F.may_leave files.old → StaysSound F.seen F.may_leave F.moment F.left_since files.old files.new }
{
    let stored = stored(alloc, files)?;
    let_go_all(alloc, files, held, &stored.digests)?;
    Ok(())
}

/// Takes the files of these digests out of the store, but of those that are held.
fn let_go_all<F: FileTree>(
    alloc: Global,
    files: &mut F,
    held: &[[u8; 32]],
    digests: &[[u8; 32]],
) -> Result<(), StoreFault>
    requires { IsSorted (slice_cmp nat_cmp) held.now }
    ensures gone { IsTrue F.is_told → OnOk result ((digest : List ℕ) → Contains digests.now digest → ¬ (Contains held.now digest)
        → F.seen files.new (stored_path digest) ≡ None) }
    ensures only { IsTrue F.is_told → SweepsOnly F.seen F.may_leave F.moment F.left_since held.now files.old files.new }
{
    for digest in digests {
        let_go(alloc, files, held, digest)?;
    }
    Ok(())
}

/// Takes the file of a digest out of the store, unless the digest is held.
fn let_go<F: FileTree>(
    alloc: Global,
    files: &mut F,
    held: &[[u8; 32]],
    digest: &[u8; 32],
) -> Result<(), StoreFault>
    requires { IsSorted (slice_cmp nat_cmp) held.now }
    ensures gone { IsTrue F.is_told → ¬ (Contains held.now digest.now) → OnOk result (F.seen files.new (stored_path digest.now) ≡ None) }
    ensures only { IsTrue F.is_told → SweepsOnly F.seen F.may_leave F.moment F.left_since held.now files.old files.new }
{
    if is_held(held, digest) {
        return Ok(());
    }
    let path = FilePath::stored(alloc, digest)?;
    files.remove(&path)?;
    Ok(())
}

/// Whether a digest is among these, which are sorted.
fn is_held(held: &[[u8; 32]], digest: &[u8; 32]) -> bool
    requires { IsSorted (slice_cmp nat_cmp) held.now }
    ensures { IsTrue result ↔ Contains held.now digest.now }
{
    held.binary_search(digest).is_ok()
}
