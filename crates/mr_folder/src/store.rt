//! The store of files by their digests.
ghost use Rattle.std.specs.Prelude.{◌≡◌, ◌↔◌, ◌++◌, ℕ, List, [], None, Some, false, IsTrue, IfOk, IfSome, OnOk, is_some, option_map};
ghost use Rattle.hex.specs.Hex.{IsBytes};
ghost use Rattle.sha2.specs.Hashers.{Holds256};
ghost use Rattle.sha2.specs.Sha256.{sha256};
ghost use Rattle.std.specs.Str.{bytes_eq};
ghost use Rattle.mr_folder.specs.declared.store.StoreFault.TheVariants.{OutOfMemory, Failed};
ghost use Rattle.mr_folder.specs.Fault.{store_fault_number};
ghost use Rattle.mr_folder.specs.Inside.{draft_path, stored_path};
ghost use Rattle.mr_folder.specs.Store.{IsSound, StaysSound, OnlyStored, SameOr, IsKept, HasCome, HasMail, GetsMail, KeepsMails};
ghost use Rattle.mr_folder.specs.Tree.{OnlyAt, MayMove, MayLink, HasSame, IsUntouched, LeavesAfter, NoneOr};

use crate::files::{FileTree, FilesFailed};
use crate::path::FilePath;
use crate::reading::keep_mail;
use sha2::{Digest, Sha256};
use std::alloc::{AllocError, Global};
use thiserror::Error;

/// Why a mail isn't taken in.
#[derive(Clone, Copy, Debug, PartialEq, Eq, Drop, Error)]
pub enum StoreFault {
    #[error("out of memory")]
    OutOfMemory,
    #[error("the files failed")]
    Failed,
}

impl StoreFault {
    /// The fault's number: 0 where no memory was found, 1 where the files failed.
    pub fn number(self) -> u8
        ensures { result ≡ store_fault_number self }
    {
        match self {
            StoreFault::OutOfMemory => 0,
            StoreFault::Failed => 1,
        }
    }
}

impl From<AllocError> for StoreFault {
    ghost from_gives = { λ _ fault. fault ≡ OutOfMemory };

    fn from(_error: AllocError) -> StoreFault {
        StoreFault::OutOfMemory
    }
}

impl From<FilesFailed> for StoreFault {
    ghost from_gives = { λ _ fault. fault ≡ Failed };

    fn from(_error: FilesFailed) -> StoreFault {
        StoreFault::Failed
    }
}

/// A mail that comes in, in pieces. Until its end its bytes are in a draft, and its digest goes on with them.
#[derive(Drop)]
pub struct Incoming {
    hasher: Sha256,
}

/// Begins to take a mail in, in place of one that was begun and not ended.
///
/// All but the draft is as it was, at each moment of the call and after a crash, also where it fails.
pub fn begin<F: FileTree>(alloc: Global, files: &mut F) -> Result<Incoming, StoreFault>
    ensures begun { IsTrue F.is_told → IfOk result (λ incoming. HasCome [] incoming (F.seen files.new)) }
    ensures only { IsTrue F.is_told → OnlyAt draft_path (F.seen files.old) (F.seen files.new) }
    ensures crash { IsTrue F.is_told → LeavesAfter (OnlyAt draft_path) F.may_leave F.moment F.left_since files.old files.new }
    ensures sound { IsTrue F.is_told → IsSound F.seen F.may_leave files.old → StaysSound F.seen F.may_leave F.moment F.left_since files.old files.new }
{
    let draft = FilePath::draft(alloc)?;
    files.create(&draft)?;
    Ok(Incoming {
        hasher: Sha256::new(),
    })
}

/// Takes a piece of the mail in, which follows those that came before.
///
/// All but the draft is as it was, at each moment of the call and after a crash, also where it fails.
pub fn append<F: FileTree>(
    alloc: Global,
    files: &mut F,
    incoming: &mut Incoming,
    bytes: &[u8],
) -> Result<(), StoreFault>
    ensures grown { IsTrue F.is_told → (come : List ℕ) → HasCome come incoming.old (F.seen files.old)
        → OnOk result (HasCome (come ++ bytes.now) incoming.new (F.seen files.new)) }
    ensures only { IsTrue F.is_told → OnlyAt draft_path (F.seen files.old) (F.seen files.new) }
    ensures crash { IsTrue F.is_told → LeavesAfter (OnlyAt draft_path) F.may_leave F.moment F.left_since files.old files.new }
    ensures sound { IsTrue F.is_told → IsSound F.seen F.may_leave files.old → StaysSound F.seen F.may_leave F.moment F.left_since files.old files.new }
{
    let draft = FilePath::draft(alloc)?;
    files.append(&draft, bytes)?;
    incoming.hasher.update(bytes);
    Ok(())
}

/// Ends to take a mail in. It is in the store exactly where its bytes have this digest: true where they do. Else nothing
/// changed.
///
/// Where the store has the mail already, nothing is changed either: its file stays as it is. All but the draft and the mail's place is as
/// it was, at each moment of the call and after a crash, also where it fails.
pub fn end<F: FileTree>(
    alloc: Global,
    files: &mut F,
    incoming: Incoming,
    digest: &[u8; 32],
) -> Result<bool, StoreFault>
    ensures taken { (come : List ℕ) → Holds256 incoming.hasher come → IfOk result (λ taken. IsTrue taken ↔ (sha256 come ≡ digest.now)) }
    ensures bytes { IsTrue F.is_told → (come : List ℕ) → HasCome come incoming (F.seen files.old)
        → IfOk result (λ taken. IsTrue taken → GetsMail digest.now come (F.seen files.old) (F.seen files.new)) }
    ensures kept { IsTrue F.is_told → (come : List ℕ) → HasCome come incoming (F.seen files.old) → IsSound F.seen F.may_leave files.old
        → IfOk result (λ taken. IsTrue taken → IsKept F.seen F.may_leave digest.now files.new) }
    ensures refused { IsTrue F.is_told → IfOk result (λ taken. taken ≡ false → IsUntouched F.seen F.may_leave F.moment F.left_since files.old files.new) }
    ensures there { IsTrue F.is_told → HasMail digest.now (F.seen files.old) → IsUntouched F.seen F.may_leave F.moment F.left_since files.old files.new }
    ensures keeps { IsTrue F.is_told → KeepsMails F.seen F.may_leave F.moment F.left_since files.old files.new }
    ensures place { IsTrue F.is_told → (come : List ℕ) → HasCome come incoming (F.seen files.old)
        → SameOr (stored_path digest.now) come (F.seen files.old) (F.seen files.new) }
    ensures only { IsTrue F.is_told → OnlyStored digest.now (F.seen files.old) (F.seen files.new) }
    ensures crash { IsTrue F.is_told → LeavesAfter (OnlyStored digest.now) F.may_leave F.moment F.left_since files.old files.new }
    ensures sound { IsTrue F.is_told → (come : List ℕ) → HasCome come incoming (F.seen files.old) → IsSound F.seen F.may_leave files.old
        → StaysSound F.seen F.may_leave F.moment F.left_since files.old files.new }
{
    if !has_digest(incoming.hasher, digest) {
        return Ok(false);
    }
    let is_there = keep_mail(alloc, files, digest)?;
    if is_there {
        return Ok(true);
    }
    place(alloc, files, digest)?;
    Ok(true)
}

/// Takes a mail in that is here as a whole, in place of one that was begun and not ended. Its digest, by which it is in the store then.
///
/// Where the store has the mail already, nothing is changed: its file stays as it is. All but the draft and the mail's place is as it was,
/// at each moment of the call and after a crash, also where it fails.
pub fn take_in<F: FileTree>(
    alloc: Global,
    files: &mut F,
    bytes: &[u8],
) -> Result<[u8; 32], StoreFault>
    ensures digest { IfOk result (λ digest. digest ≡ sha256 bytes.now) }
    ensures stored { IsTrue F.is_told → IfOk result (λ digest. GetsMail digest bytes.now (F.seen files.old) (F.seen files.new)) }
    ensures kept { IsTrue F.is_told → IsSound F.seen F.may_leave files.old → IfOk result (λ digest. IsKept F.seen F.may_leave digest files.new) }
    ensures there { IsTrue F.is_told → HasMail (sha256 bytes.now) (F.seen files.old) → IsUntouched F.seen F.may_leave F.moment F.left_since files.old files.new }
    ensures keeps { IsTrue F.is_told → KeepsMails F.seen F.may_leave F.moment F.left_since files.old files.new }
    ensures place { IsTrue F.is_told → SameOr (stored_path (sha256 bytes.now)) bytes.now (F.seen files.old) (F.seen files.new) }
    ensures only { IsTrue F.is_told → OnlyStored (sha256 bytes.now) (F.seen files.old) (F.seen files.new) }
    ensures crash { IsTrue F.is_told → LeavesAfter (OnlyStored (sha256 bytes.now)) F.may_leave F.moment F.left_since files.old files.new }
    ensures sound { IsTrue F.is_told → IsSound F.seen F.may_leave files.old → StaysSound F.seen F.may_leave F.moment F.left_since files.old files.new }
{
    let digest = Sha256::digest(bytes);
    let is_there = keep_mail(alloc, files, &digest)?;
    if is_there {
        return Ok(digest);
    }
    write_in(alloc, files, bytes, &digest)?;
    Ok(digest)
}

/// Writes a mail into the store, in place of what stands there.
fn write_in<F: FileTree>(
    alloc: Global,
    files: &mut F,
    bytes: &[u8],
    digest: &[u8; 32],
) -> Result<(), StoreFault>
    requires { sha256 bytes.now ≡ digest.now }
    ensures stored { IsTrue F.is_told → OnOk result (F.seen files.new (stored_path digest.now) ≡ Some bytes.now) }
    ensures kept { IsTrue F.is_told → IsSound F.seen F.may_leave files.old → OnOk result (IsKept F.seen F.may_leave digest.now files.new) }
    ensures place { IsTrue F.is_told → SameOr (stored_path digest.now) bytes.now (F.seen files.old) (F.seen files.new) }
    ensures only { IsTrue F.is_told → OnlyStored digest.now (F.seen files.old) (F.seen files.new) }
    ensures crash { IsTrue F.is_told → LeavesAfter (OnlyStored digest.now) F.may_leave F.moment F.left_since files.old files.new }
    ensures sound { IsTrue F.is_told → IsSound F.seen F.may_leave files.old → StaysSound F.seen F.may_leave F.moment F.left_since files.old files.new }
{
    write_draft(alloc, files, bytes)?;
    place(alloc, files, digest)
}

/// Writes a draft of these bytes.
fn write_draft<F: FileTree>(alloc: Global, files: &mut F, bytes: &[u8]) -> Result<(), StoreFault>
    ensures written { IsTrue F.is_told → OnOk result (F.seen files.new draft_path ≡ Some bytes.now) }
    ensures only { IsTrue F.is_told → OnlyAt draft_path (F.seen files.old) (F.seen files.new) }
    ensures crash { IsTrue F.is_told → LeavesAfter (OnlyAt draft_path) F.may_leave F.moment F.left_since files.old files.new }
    ensures sound { IsTrue F.is_told → IsSound F.seen F.may_leave files.old → StaysSound F.seen F.may_leave F.moment F.left_since files.old files.new }
{
    let draft = FilePath::draft(alloc)?;
    files.create(&draft)?;
    files.append(&draft, bytes)?;
    Ok(())
}

/// Whether what the hasher holds has this digest.
fn has_digest(hasher: Sha256, digest: &[u8; 32]) -> bool
    ensures { (come : List ℕ) → Holds256 hasher come → result ≡ bytes_eq (sha256 come) digest.now }
{
    hasher.finalize() == *digest
}

/// Moves the draft to its place in the store.
fn place<F: FileTree>(alloc: Global, files: &mut F, digest: &[u8; 32]) -> Result<(), StoreFault>
    ensures placed { IsTrue F.is_told → OnOk result (F.seen files.new (stored_path digest.now) ≡ F.seen files.old draft_path) }
    ensures kept { IsTrue F.is_told → (bytes : List ℕ) → F.seen files.old draft_path ≡ Some bytes → sha256 bytes ≡ digest.now
        → IsSound F.seen F.may_leave files.old → OnOk result (IsKept F.seen F.may_leave digest.now files.new) }
    ensures place { IsTrue F.is_told → (bytes : List ℕ) → F.seen files.old draft_path ≡ Some bytes
        → SameOr (stored_path digest.now) bytes (F.seen files.old) (F.seen files.new) }
    ensures only { IsTrue F.is_told → OnlyStored digest.now (F.seen files.old) (F.seen files.new) }
    ensures crash { IsTrue F.is_told → LeavesAfter (OnlyStored digest.now) F.may_leave F.moment F.left_since files.old files.new }
    ensures sound { IsTrue F.is_told → (bytes : List ℕ) → F.seen files.old draft_path ≡ Some bytes → sha256 bytes ≡ digest.now
        → IsSound F.seen F.may_leave files.old → StaysSound F.seen F.may_leave F.moment F.left_since files.old files.new }
{
    let draft = FilePath::draft(alloc)?;
    let stored = FilePath::stored(alloc, digest)?;
    move_synced(files, &draft, &stored)?;
    Ok(())
}

/// Gives the draft its place in the store, once its bytes are on the disk.
fn move_synced<F: FileTree>(
    files: &mut F,
    draft: &FilePath,
    stored: &FilePath,
) -> Result<(), FilesFailed>
    ensures moved { IsTrue F.is_told → OnOk result (F.seen files.new stored.now ≡ F.seen files.old draft.now) }
    ensures durable { IsTrue F.is_told → OnOk result (HasSame stored.now (F.seen files.new) (F.may_leave files.new)) }
    ensures only { IsTrue F.is_told → MayMove draft.now stored.now (F.seen files.old) (F.seen files.new) }
    ensures crash { IsTrue F.is_told → LeavesAfter (MayMove draft.now stored.now) F.may_leave F.moment F.left_since files.old files.new }
    ensures sound { IsTrue F.is_told → (digest bytes : List ℕ) → draft.now ≡ draft_path → stored.now ≡ stored_path digest → IsBytes digest
        → F.seen files.old draft_path ≡ Some bytes → sha256 bytes ≡ digest → IsSound F.seen F.may_leave files.old
        → StaysSound F.seen F.may_leave F.moment F.left_since files.old files.new }
{
    files.sync(draft)?;
    files.rename(draft, stored)?;
    files.sync_path(stored)
}

/// Takes a file of the Maildir into the store, where it isn't there yet: as a second link, so that its bytes aren't
/// written again. Its digest; none where there is no file.
///
/// All but that place is as it was, at each moment of the call and after a crash, also where it fails. A file that stands there already
/// stays.
pub fn adopt<F: FileTree>(
    alloc: Global,
    files: &mut F,
    path: &FilePath,
) -> Result<Option<[u8; 32]>, StoreFault>
    ensures digest { IsTrue F.is_told → IfOk result (λ digest. digest ≡ option_map sha256 (F.seen files.old path.now)) }
    ensures kept { IsTrue F.is_told → IsSound F.seen F.may_leave files.old
        → IfOk result (λ digest. IfSome digest (λ d. IsKept F.seen F.may_leave d files.new)) }
    ensures untouched { IsTrue F.is_told → F.seen files.old path.now ≡ None → IsUntouched F.seen F.may_leave F.moment F.left_since files.old files.new }
    ensures only { IsTrue F.is_told → (bytes : List ℕ) → F.seen files.old path.now ≡ Some bytes
        → MayLink path.now (stored_path (sha256 bytes)) (F.seen files.old) (F.seen files.new) }
    ensures crash { IsTrue F.is_told → (bytes : List ℕ) → F.seen files.old path.now ≡ Some bytes
        → LeavesAfter (MayLink path.now (stored_path (sha256 bytes))) F.may_leave F.moment F.left_since files.old files.new }
    ensures sound { IsTrue F.is_told → IsSound F.seen F.may_leave files.old → StaysSound F.seen F.may_leave F.moment F.left_since files.old files.new }
{
    let Some(bytes) = files.read(alloc, path)? else {
        return Ok(None);
    };
    let digest = Sha256::digest(bytes.as_slice());
    link_mail(alloc, files, path, &digest)?;
    Ok(Some(digest))
}

/// Links a file to the place of its digest.
fn link_mail<F: FileTree>(
    alloc: Global,
    files: &mut F,
    path: &FilePath,
    digest: &[u8; 32],
) -> Result<(), StoreFault>
    ensures kept { IsTrue F.is_told → (bytes : List ℕ) → F.seen files.old path.now ≡ Some bytes → sha256 bytes ≡ digest.now
        → IsSound F.seen F.may_leave files.old → OnOk result (IsKept F.seen F.may_leave digest.now files.new) }
    ensures only { IsTrue F.is_told → MayLink path.now (stored_path digest.now) (F.seen files.old) (F.seen files.new) }
    ensures crash { IsTrue F.is_told → LeavesAfter (MayLink path.now (stored_path digest.now)) F.may_leave F.moment F.left_since files.old files.new }
    ensures sound { IsTrue F.is_told → (bytes : List ℕ) → F.seen files.old path.now ≡ Some bytes → sha256 bytes ≡ digest.now
        → IsSound F.seen F.may_leave files.old → StaysSound F.seen F.may_leave F.moment F.left_since files.old files.new }
{
    let stored = FilePath::stored(alloc, digest)?;
    link_synced(files, path, &stored)?;
    Ok(())
}

/// Gives a file one more path, where none stands there yet, once its bytes are on the disk.
fn link_synced<F: FileTree>(
    files: &mut F,
    from: &FilePath,
    to: &FilePath,
) -> Result<(), FilesFailed>
    ensures linked { IsTrue F.is_told → IsTrue (is_some (F.seen files.old from.now)) → OnOk result (IsTrue (is_some (F.seen files.new to.now))) }
    ensures durable { IsTrue F.is_told → OnOk result (HasSame to.now (F.seen files.new) (F.may_leave files.new)) }
    ensures only { IsTrue F.is_told → MayLink from.now to.now (F.seen files.old) (F.seen files.new) }
    ensures crash { IsTrue F.is_told → LeavesAfter (MayLink from.now to.now) F.may_leave F.moment F.left_since files.old files.new }
    ensures sound { IsTrue F.is_told → (digest bytes : List ℕ) → to.now ≡ stored_path digest → IsBytes digest
        → F.seen files.old from.now ≡ Some bytes → sha256 bytes ≡ digest → IsSound F.seen F.may_leave files.old
        → StaysSound F.seen F.may_leave F.moment F.left_since files.old files.new }
{
    files.sync(from)?;
    link_once(files, from, to)?;
    files.sync_path(to)
}

/// Gives a file one more path, where none stands there yet.
fn link_once<F: FileTree>(files: &mut F, from: &FilePath, to: &FilePath) -> Result<(), FilesFailed>
    ensures linked { IsTrue F.is_told → IsTrue (is_some (F.seen files.old from.now)) → OnOk result (IsTrue (is_some (F.seen files.new to.now))) }
    ensures only { IsTrue F.is_told → MayLink from.now to.now (F.seen files.old) (F.seen files.new) }
    ensures crash { IsTrue F.is_told → LeavesAfter (MayLink from.now to.now) F.may_leave F.moment F.left_since files.old files.new }
    ensures sound { IsTrue F.is_told → (digest bytes : List ℕ) → to.now ≡ stored_path digest → IsBytes digest
        → F.seen files.old from.now ≡ Some bytes → NoneOr from.now (Some bytes) (F.may_leave files.old) → sha256 bytes ≡ digest
        → IsSound F.seen F.may_leave files.old → StaysSound F.seen F.may_leave F.moment F.left_since files.old files.new }
{
    if files.has(to)? {
        return Ok(());
    }
    files.link(from, to)
}
