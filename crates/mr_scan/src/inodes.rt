//! The store's mails by their inodes.
ghost use Rattle.std.specs.Prelude.{◌≡◌, ◌++◌, ◌∷◌, [], if◌then◌else◌, ℕ, IfOk, OnOk};
ghost use Rattle.std.specs.BTreeMap.{insert_entry};
ghost use Rattle.std.specs.Ordering.{nat_cmp};
ghost use Rattle.mr_scan.specs.inner.Spoiled as specs;
ghost use Rattle.mr_scan.specs.inner.Spoiled.{at_inode, last_at, spoiled_of, whole_of, with_file};

use mr_folder::FileMark;
use std::alloc::{AllocError, Global};
use std::collections::BTreeMap;

/// A mail of the store, as its file was when the store was listed or the mail was taken in.
#[derive(Clone, Copy, Debug, PartialEq, Eq)]
pub struct Stored {
    /// SHA-256 of its bytes.
    pub digest: [u8; 32],
    /// How many bytes its file has.
    pub size: u64,
}

/// A file of the store, by the name that it has there.
#[derive(Clone, Copy, Debug, PartialEq, Eq)]
pub(crate) struct StoreFile {
    /// The number of its inode, `st_ino` of POSIX.
    pub(crate) inode: u64,
    /// The mail whose digest its name is.
    pub(crate) mail: Stored,
}

/// The store's mails by the numbers of their inodes, `st_ino` of POSIX. A number is a mail's as long as the store has its file.
pub type Index = BTreeMap<u64, Stored>;

/// How many bytes the files of mails have, by their digests.
pub type Sizes = BTreeMap<[u8; 32], u64>;

/// Puts a mail into the index, by what the system tells of its file.
pub(crate) fn put_mark(
    index: &mut Index,
    mark: &FileMark,
    digest: [u8; 32],
) -> Result<(), AllocError>
    ensures { OnOk result (index.new.entries ≡ insert_entry nat_cmp index.old.entries mark.now.inode (record { digest = digest; size = mark.now.size })) }
{
    let size = mark.size;
    index.insert(mark.inode, Stored { digest, size })?;
    Ok(())
}

/// Appends the mail's file, by what the system tells of it.
pub(crate) fn push_file(
    files: &mut Vec<StoreFile>,
    mark: &FileMark,
    digest: [u8; 32],
) -> Result<(), AllocError>
    ensures { OnOk result (files.new.items ≡ files.old.items ++ (record { inode = mark.now.inode; mail = record { digest = digest; size = mark.now.size } }) ∷ []) }
{
    let size = mark.size;
    files.push(StoreFile {
        inode: mark.inode,
        mail: Stored { digest, size },
    })?;
    Ok(())
}

/// The mails of a store by their inodes, and those whose files have another size than is told of them.
#[derive(Drop)]
pub(crate) struct Judged {
    pub(crate) index: Index,
    pub(crate) spoiled: Vec<[u8; 32]>,
}

/// Judges files of a store by their sizes. The index has the mails of those that have the size that is told of them, or of which none is told;
/// of several with one inode the last one's. Spoiled are the others, in the order of the files: a program edited them in place, since a
/// mail's file in the store is its file in the Maildir.
///
/// It costs a look-up for each file.
pub(crate) fn judge(alloc: Global, files: &[StoreFile], sizes: &Sizes) -> Result<Judged, AllocError>
    ensures index { IfOk result (λ judged. (inode : ℕ) → at_inode judged.index.entries inode ≡ last_at inode (whole_of sizes.now.entries files.now)) }
    ensures spoiled { IfOk result (λ judged. judged.spoiled.items ≡ spoiled_of sizes.now.entries files.now) }
{
    let mut index = BTreeMap::new(alloc);
    let mut spoiled = Vec::new(alloc);
    for file in files {
        let is_spoiled = is_spoiled(file, sizes);
        insert_unless(&mut index, file, is_spoiled)?;
        push_if(&mut spoiled, file.mail.digest, is_spoiled)?;
    }
    Ok(Judged { index, spoiled })
}

/// Puts the file's mail into the index, unless it is spoiled.
fn insert_unless(index: &mut Index, file: &StoreFile, is_spoiled: bool) -> Result<(), AllocError>
    ensures { OnOk result ((inode : ℕ) → at_inode index.new.entries inode
        ≡ with_file is_spoiled file.now inode (at_inode index.old.entries inode)) }
{
    if !is_spoiled {
        index.insert(file.inode, file.mail)?;
    }
    Ok(())
}

/// Appends the digest, if it is wanted.
pub(crate) fn push_if(
    digests: &mut Vec<[u8; 32]>,
    digest: [u8; 32],
    is_wanted: bool,
) -> Result<(), AllocError>
    ensures { OnOk result (digests.new.items ≡ digests.old.items ++ (if is_wanted then digest ∷ [] else [])) }
{
    if is_wanted {
        digests.push(digest)?;
    }
    Ok(())
}

/// Whether a file has another size than is told of its mail.
fn is_spoiled(file: &StoreFile, sizes: &Sizes) -> bool
    ensures { result ≡ specs.is_spoiled sizes.now.entries file.now }
{
    let Stored { digest, size } = file.mail;
    match sizes.get(&digest) {
        Some(told) => *told != size,
        None => false,
    }
}
