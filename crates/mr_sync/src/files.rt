//! Files that come, piece by piece.
ghost use Rattle.std.specs.Prelude.{◌≡◌, ℕ, false, List, [], Some, is_some, option_map, IsTrue, IfErr, IfOk, OnOk};
ghost use Rattle.sha2.specs.Sha256.{sha256};
ghost use Rattle.mr_folder.specs.Inside.{draft_path, stored_path};
ghost use Rattle.mr_folder.specs.Store.{GetsMail, HasCome, IsKept, IsSound, KeepsMails, OnlyStored, StaysSound};
ghost use Rattle.mr_folder.specs.Tree.{OnlyAt};
ghost use Rattle.mr_talk.specs.declared.kind.Kind.TheVariants as kinds;
ghost use Rattle.mr_sync.specs.Files.{GoesWith, KeepsFile, LacksLess, Stores};

use crate::coming::Coming;
use crate::fault::SyncFault;
use crate::lists::read_begin;
use crate::talk::Talk;
use mr_compare::Digest;
use mr_folder::{FileTree, append, begin, end, take_in};
use mr_talk::Kind;
use std::alloc::Global;

/// Begins to take the file that the bytes tell. `NoFile` within another, `BadList` where they tell none.
fn take_begin<F: FileTree>(
    alloc: Global,
    files: &mut F,
    coming: &mut Option<Coming>,
    bytes: &[u8],
) -> Result<(), SyncFault>
    ensures goes { OnOk result (GoesWith kinds.Begin bytes.now coming.old coming.new) }
    ensures stores { IsTrue F.is_told → OnOk result (Stores kinds.Begin bytes.now coming.old (F.seen files.old) coming.new (F.seen files.new)) }
    ensures only { IsTrue F.is_told → OnlyAt draft_path (F.seen files.old) (F.seen files.new) }
    ensures sound { IsTrue F.is_told → IsSound F.seen F.may_leave files.old → StaysSound F.seen F.may_leave F.moment F.left_since files.old files.new }
    ensures mails { IsTrue F.is_told → KeepsMails F.seen F.may_leave F.moment F.left_since files.old files.new }
{
    if coming.is_some() {
        return Err(SyncFault::NoFile);
    }
    let Some(told) = read_begin(bytes) else {
        return Err(SyncFault::BadList);
    };
    let incoming = begin(alloc, files)?;
    let digest = told.0;
    let left = told.1;
    *coming = Some(Coming {
        incoming,
        digest,
        left,
    });
    Ok(())
}

/// Takes a piece of the file that comes. `NoFile` where none does, `OtherFile` where more bytes come than were told.
fn take_piece<F: FileTree>(
    alloc: Global,
    files: &mut F,
    coming: &mut Option<Coming>,
    bytes: &[u8],
) -> Result<(), SyncFault>
    ensures goes { OnOk result (GoesWith kinds.Piece bytes.now coming.old coming.new) }
    ensures same { option_map (λ file. file.digest) coming.new ≡ option_map (λ file. file.digest) coming.old }
    ensures stores { IsTrue F.is_told → OnOk result (Stores kinds.Piece bytes.now coming.old (F.seen files.old) coming.new (F.seen files.new)) }
    ensures only { IsTrue F.is_told → OnlyAt draft_path (F.seen files.old) (F.seen files.new) }
    ensures sound { IsTrue F.is_told → IsSound F.seen F.may_leave files.old → StaysSound F.seen F.may_leave F.moment F.left_since files.old files.new }
    ensures mails { IsTrue F.is_told → KeepsMails F.seen F.may_leave F.moment F.left_since files.old files.new }
{
    let Some(file) = coming else {
        return Err(SyncFault::NoFile);
    };
    let size = bytes.len() as u64;
    if size > file.left {
        return Err(SyncFault::OtherFile);
    }
    append(alloc, files, &mut file.incoming, bytes)?;
    file.left -= size;
    Ok(())
}

/// Ends to take the file, which is in the store by the digest that was told. `OtherFile` where fewer bytes came than were
/// told, or they have another digest.
pub(crate) fn end_file<F: FileTree>(
    alloc: Global,
    files: &mut F,
    coming: Coming,
) -> Result<Digest, SyncFault>
    ensures digest { IfOk result (λ digest. digest ≡ coming.digest) }
    ensures whole { OnOk result (coming.left ≡ 0) }
    ensures of_digest { (come : List ℕ) (tree : List ℕ → _) → HasCome come coming.incoming tree → OnOk result (sha256 come ≡ coming.digest) }
    ensures stored { IsTrue F.is_told → (come : List ℕ) → HasCome come coming.incoming (F.seen files.old)
        → OnOk result (GetsMail coming.digest come (F.seen files.old) (F.seen files.new)) }
    ensures kept { IsTrue F.is_told → (come : List ℕ) → HasCome come coming.incoming (F.seen files.old) → IsSound F.seen F.may_leave files.old
        → OnOk result (IsKept F.seen F.may_leave coming.digest files.new) }
    ensures only { IsTrue F.is_told → OnlyStored coming.digest (F.seen files.old) (F.seen files.new) }
    ensures sound { IsTrue F.is_told → (come : List ℕ) → HasCome come coming.incoming (F.seen files.old) → IsSound F.seen F.may_leave files.old
        → StaysSound F.seen F.may_leave F.moment F.left_since files.old files.new }
    ensures mails { IsTrue F.is_told → KeepsMails F.seen F.may_leave F.moment F.left_since files.old files.new }
{
    let Coming {
        incoming,
        digest,
        left,
    } = coming;
    if left != 0 {
        return Err(SyncFault::OtherFile);
    }
    if end(alloc, files, incoming, &digest)? {
        Ok(digest)
    } else {
        Err(SyncFault::OtherFile)
    }
}

/// Takes a whole file, what one begins with, a piece of it, or its end: then it is in the store, and not lacking any more. A whole file's
/// digest isn't told: one that came with other bytes is the file of another digest, and what the records name is lacking as before.
///
/// `NoFile` where a file begins within another, and for a piece or an end of none.
pub(crate) fn take_file_message<F: FileTree>(
    alloc: Global,
    files: &mut F,
    talk: &mut Talk,
    kind: Kind,
    bytes: &[u8],
) -> Result<(), SyncFault>
    ensures goes { OnOk result (GoesWith kind bytes.now talk.old.coming talk.new.coming) }
    ensures stores { IsTrue F.is_told → OnOk result (Stores kind bytes.now talk.old.coming (F.seen files.old) talk.new.coming (F.seen files.new)) }
    ensures keeps { IsTrue F.is_told → IsSound F.seen F.may_leave files.old → OnOk result (KeepsFile F.seen F.may_leave kind bytes.now talk.old.coming files.old files.new) }
    ensures theirs { talk.new.theirs ≡ talk.old.theirs }
    ensures mails { IsTrue F.is_told → KeepsMails F.seen F.may_leave F.moment F.left_since files.old files.new }
    ensures lacking { OnOk result (LacksLess kind bytes.now talk.old.coming talk.old.arriving.lacking.keys talk.new.arriving.lacking.keys) }
{
    talk.arriving.note_bytes(bytes);
    match kind {
        Kind::Whole => take_whole(alloc, files, talk, bytes),
        Kind::Begin => take_begin(alloc, files, &mut talk.coming, bytes),
        Kind::Piece => take_piece(alloc, files, &mut talk.coming, bytes),
        Kind::End => take_end(alloc, files, talk),
        _ => Err(SyncFault::NoFile),
    }
}

/// Takes a whole file. `NoFile` within another.
fn take_whole<F: FileTree>(
    alloc: Global,
    files: &mut F,
    talk: &mut Talk,
    bytes: &[u8],
) -> Result<(), SyncFault>
    ensures goes { OnOk result (GoesWith kinds.Whole bytes.now talk.old.coming talk.new.coming) }
    ensures stores { IsTrue F.is_told → OnOk result (Stores kinds.Whole bytes.now talk.old.coming (F.seen files.old) talk.new.coming (F.seen files.new)) }
    ensures keeps { IsTrue F.is_told → IsSound F.seen F.may_leave files.old → OnOk result (KeepsFile F.seen F.may_leave kinds.Whole bytes.now talk.old.coming files.old files.new) }
    ensures theirs { talk.new.theirs ≡ talk.old.theirs }
    ensures mails { IsTrue F.is_told → KeepsMails F.seen F.may_leave F.moment F.left_since files.old files.new }
    ensures lacking { OnOk result (LacksLess kinds.Whole bytes.now talk.old.coming talk.old.arriving.lacking.keys talk.new.arriving.lacking.keys) }
{
    if talk.coming.is_some() {
        return Err(SyncFault::NoFile);
    }
    let digest = take_in(alloc, files, bytes)?;
    talk.arriving.note_file(&digest);
    Ok(())
}

/// Takes the end of the file that comes. `NoFile` where none does.
fn take_end<F: FileTree>(alloc: Global, files: &mut F, talk: &mut Talk) -> Result<(), SyncFault>
    ensures goes { OnOk result (GoesWith kinds.End [] talk.old.coming talk.new.coming) }
    ensures stores { IsTrue F.is_told → OnOk result (Stores kinds.End [] talk.old.coming (F.seen files.old) talk.new.coming (F.seen files.new)) }
    ensures keeps { IsTrue F.is_told → IsSound F.seen F.may_leave files.old → OnOk result (KeepsFile F.seen F.may_leave kinds.End [] talk.old.coming files.old files.new) }
    ensures theirs { talk.new.theirs ≡ talk.old.theirs }
    ensures mails { IsTrue F.is_told → KeepsMails F.seen F.may_leave F.moment F.left_since files.old files.new }
    ensures lacking { OnOk result (LacksLess kinds.End [] talk.old.coming talk.old.arriving.lacking.keys talk.new.arriving.lacking.keys) }
{
    let Some(coming) = talk.coming.take() else {
        return Err(SyncFault::NoFile);
    };
    let digest = end_file(alloc, files, coming)?;
    talk.arriving.note_file(&digest);
    Ok(())
}

/// That no file comes that isn't whole.
pub(crate) fn check_whole(coming: &Option<Coming>) -> Result<(), SyncFault>
    ensures whole { OnOk result (is_some coming.now ≡ false) }
    ensures fault { IfErr result (λ fault. (fault ≡ SyncFault.HalfFile) × IsTrue (is_some coming.now)) }
{
    if coming.is_some() {
        return Err(SyncFault::HalfFile);
    }
    Ok(())
}
