//! Acts on the files of the Maildir, by which mail is shown. None overwrites a file.
ghost use Rattle.std.specs.Prelude.{◌≡◌, ◌≢◌, ◌↔◌, None, IsTrue, IfOk, is_some};
ghost use Rattle.mr_folder.specs.Inside.{first_part, own_folder};
ghost use Rattle.mr_folder.specs.Show.{HasRoom};
ghost use Rattle.mr_folder.specs.Store.{IsSound, StaysSound};
ghost use Rattle.mr_folder.specs.Tree.{MayMove, MayLink, MayGo, Follows, IsUntouched};

use crate::files::{FileTree, FilesFailed};
use crate::path::FilePath;

/// Gives a file one more path. False, and nothing changed, where there is no file or where one stands at that path already.
///
/// It isn't synced: `FileTree::sync_path` does that, once for all that was done in a folder.
pub fn link<F: FileTree>(files: &mut F, from: &FilePath, to: &FilePath) -> Result<bool, FilesFailed>
    ensures linked { IsTrue F.is_told → IfOk result (λ linked. IsTrue linked ↔ HasRoom from.now to.now (F.seen files.old)) }
    ensures there { IsTrue F.is_told → IfOk result (λ linked. IsTrue linked → F.seen files.new to.now ≡ F.seen files.old from.now) }
    ensures files { IsTrue F.is_told → MayLink from.now to.now (F.seen files.old) (F.seen files.new) }
    ensures crash { IsTrue F.is_told → Follows (MayLink from.now to.now) (F.may_leave files.old) (F.may_leave files.new) }
    ensures sound { IsTrue F.is_told → first_part to.now ≢ own_folder → IsSound F.seen F.may_leave files.old
        → StaysSound F.seen F.may_leave F.moment F.left_since files.old files.new }
{
    if !has_room(files, from, to)? {
        return Ok(false);
    }
    files.link(from, to)?;
    Ok(true)
}

/// Gives a file another path in place of the one that it has. False, and nothing changed, where there is no file or where one stands at
/// that path already.
///
/// It isn't synced, as `link` isn't. Of real files: one that another program puts at that very path between the look and the rename
/// is overwritten.
pub fn replace<F: FileTree>(
    files: &mut F,
    from: &FilePath,
    to: &FilePath,
) -> Result<bool, FilesFailed>
    ensures moved { IsTrue F.is_told → IfOk result (λ moved. IsTrue moved ↔ HasRoom from.now to.now (F.seen files.old)) }
    ensures there { IsTrue F.is_told → IfOk result (λ moved. IsTrue moved → F.seen files.new to.now ≡ F.seen files.old from.now) }
    ensures gone { IsTrue F.is_told → IfOk result (λ moved. IsTrue moved → F.seen files.new from.now ≡ None) }
    ensures files { IsTrue F.is_told → MayMove from.now to.now (F.seen files.old) (F.seen files.new) }
    ensures over { IsTrue F.is_told → IsTrue (is_some (F.seen files.old to.now)) → F.seen files.new ≡ F.seen files.old }
    ensures crash { IsTrue F.is_told → Follows (MayMove from.now to.now) (F.may_leave files.old) (F.may_leave files.new) }
    ensures sound { IsTrue F.is_told → first_part from.now ≢ own_folder → first_part to.now ≢ own_folder → IsSound F.seen F.may_leave files.old
        → StaysSound F.seen F.may_leave F.moment F.left_since files.old files.new }
{
    if !has_room(files, from, to)? {
        return Ok(false);
    }
    files.rename(from, to)?;
    Ok(true)
}

/// Takes a path away. False, and nothing changed, where there is no file.
///
/// It isn't synced, as `link` isn't.
pub fn unlink<F: FileTree>(files: &mut F, path: &FilePath) -> Result<bool, FilesFailed>
    ensures gone { IsTrue F.is_told → IfOk result (λ gone. gone ≡ is_some (F.seen files.old path.now)) }
    ensures none { IsTrue F.is_told → IfOk result (λ gone. F.seen files.new path.now ≡ None) }
    ensures files { IsTrue F.is_told → MayGo path.now (F.seen files.old) (F.seen files.new) }
    ensures crash { IsTrue F.is_told → Follows (MayGo path.now) (F.may_leave files.old) (F.may_leave files.new) }
    ensures sound { IsTrue F.is_told → first_part path.now ≢ own_folder → IsSound F.seen F.may_leave files.old
        → StaysSound F.seen F.may_leave F.moment F.left_since files.old files.new }
{
    if !files.has(path)? {
        return Ok(false);
    }
    files.remove(path)?;
    Ok(true)
}

/// Whether there is a file at the first path and none at the second.
fn has_room<F: FileTree>(files: &mut F, from: &FilePath, to: &FilePath) -> Result<bool, FilesFailed>
    ensures room { IsTrue F.is_told → IfOk result (λ room. IsTrue room ↔ HasRoom from.now to.now (F.seen files.old)) }
    ensures untouched { IsTrue F.is_told → IsUntouched F.seen F.may_leave F.moment F.left_since files.old files.new }
{
    if files.has(to)? {
        return Ok(false);
    }
    files.has(from)
}
