//! What the store has of a mail.
ghost use Rattle.std.specs.Prelude.{◌≡◌, ◌≢◌, ◌↔◌, Some, IsTrue, IfOk, IfSome, MatchOption};
ghost use Rattle.sha2.specs.Sha256.{sha256};
ghost use Rattle.mr_folder.specs.Inside.{stored_path};
ghost use Rattle.mr_folder.specs.Store.{HasMail, IsKept};
ghost use Rattle.mr_folder.specs.Tree.{IsUntouched};

use crate::files::FileTree;
use crate::path::FilePath;
use crate::store::StoreFault;
use sha2::{Digest, Sha256};
use std::alloc::Global;

/// The mail's bytes, if the store has it. Its file is read whole; one of other bytes, into which some program wrote, is as good as none.
pub fn read_mail<F: FileTree>(
    alloc: Global,
    files: &mut F,
    digest: &[u8; 32],
) -> Result<Option<Vec<u8>>, StoreFault>
    ensures digest { IfOk result (λ found. IfSome found (λ bytes. sha256 bytes.items ≡ digest.now)) }
    ensures exact { IsTrue F.is_told → IfOk result (λ found. MatchOption found
        (IfSome (F.seen files.old (stored_path digest.now)) (λ bytes. sha256 bytes ≢ digest.now))
        (λ bytes. F.seen files.old (stored_path digest.now) ≡ Some bytes.items)) }
    ensures untouched { IsTrue F.is_told → IsUntouched F.seen F.may_leave F.moment F.left_since files.old files.new }
{
    let path = FilePath::stored(alloc, digest)?;
    let Some(bytes) = files.read(alloc, &path)? else {
        return Ok(None);
    };
    if has_digest(&bytes, digest) {
        Ok(Some(bytes))
    } else {
        Ok(None)
    }
}

/// Whether the bytes have this SHA-256.
fn has_digest(bytes: &[u8], digest: &[u8; 32]) -> bool
    ensures { IsTrue result ↔ (sha256 bytes.now ≡ digest.now) }
{
    Sha256::digest(bytes) == *digest
}

/// Whether the store has the mail, by what is read of its file. Where it has it, the file is on the disk from the answer on, and whatever a
/// crash leaves has the mail. Nothing is changed.
pub fn keep_mail<F: FileTree>(
    alloc: Global,
    files: &mut F,
    digest: &[u8; 32],
) -> Result<bool, StoreFault>
    ensures has { IsTrue F.is_told → IfOk result (λ has. IsTrue has ↔ HasMail digest.now (F.seen files.old)) }
    ensures kept { IsTrue F.is_told → IfOk result (λ has. IsTrue has → IsKept F.seen F.may_leave digest.now files.new) }
    ensures untouched { IsTrue F.is_told → IsUntouched F.seen F.may_leave F.moment F.left_since files.old files.new }
{
    if !has_mail(alloc, files, digest)? {
        return Ok(false);
    }
    let path = FilePath::stored(alloc, digest)?;
    files.sync(&path)?;
    files.sync_path(&path)?;
    Ok(true)
}

/// Whether the store has the mail, by what is read of its file.
fn has_mail<F: FileTree>(
    alloc: Global,
    files: &mut F,
    digest: &[u8; 32],
) -> Result<bool, StoreFault>
    ensures has { IsTrue F.is_told → IfOk result (λ has. IsTrue has ↔ HasMail digest.now (F.seen files.old)) }
    ensures untouched { IsTrue F.is_told → IsUntouched F.seen F.may_leave F.moment F.left_since files.old files.new }
{
    let bytes = read_mail(alloc, files, digest)?;
    Ok(bytes.is_some())
}
