//! What a store of mail asks of the place where its files are.
ghost use Rattle.std.specs.Prelude.{◌≡◌, ◌≢◌, ◌++◌, ℕ, Bool, IsTrue, List, [], Some, OnOk, IfOk, is_some, map, option_map, string_bytes};
ghost use Rattle.mr_folder.specs.Names.{TellsDigests};
ghost use Rattle.mr_folder.specs.Tree.{Tree, OnlyAt, MayMove, MayLink, MayGo, Follows, NoneOr, HasSame, Passes, IsUntouched};

use crate::path::FilePath;
use std::alloc::Global;
use thiserror::Error;

/// A call of the files that failed.
#[derive(Clone, Copy, Debug, PartialEq, Eq, Drop, Error)]
#[error("the files failed")]
pub struct FilesFailed;

/// Files that outlive the program, by paths within one folder.
///
/// What was written and not synced may be lost in any part: after a crash such a file may have any bytes, or not be there.
/// A new path that isn't synced may be missing, and an old one may be there again.
pub trait FileTree {
    /// Whether the clauses say what the calls give and take. Of real files no clause can say it, so there it is false.
    ghost is_told: { Bool };

    /// The bytes that a read gives at each path.
    ghost seen: { Self → Tree };

    /// What a crash at this moment may leave.
    ghost may_leave: { Self → Tree → Type 0 };

    /// The moment, as a number that doesn't fall.
    ghost moment: { Self → ℕ };

    /// What a crash at some moment since that one left, within a call or between two.
    ghost left_since: { Self → ℕ → Tree → Type 0 };

    /// The file's bytes, if there is one. A call that finds no memory has failed.
    fn read(&mut self, alloc: Global, path: &FilePath) -> Result<Option<Vec<u8>>, FilesFailed>
        ensures read { IsTrue is_told → IfOk result (λ bytes. option_map (λ v. v.items) bytes ≡ seen self.old path.now) }
        ensures untouched { IsTrue is_told → IsUntouched seen may_leave moment left_since self.old self.new };

    /// Whether there is a file.
    fn has(&mut self, path: &FilePath) -> Result<bool, FilesFailed>
        ensures has { IsTrue is_told → IfOk result (λ is. is ≡ is_some (seen self.old path.now)) }
        ensures untouched { IsTrue is_told → IsUntouched seen may_leave moment left_since self.old self.new };

    /// The names of the store's files, `.mailfold/files`.
    fn stored_names(&mut self, alloc: Global) -> Result<Vec<String>, FilesFailed>
        ensures names { IsTrue is_told → IfOk result (λ names. TellsDigests (seen self.old) (map (λ s. string_bytes s) names.items)) }
        ensures untouched { IsTrue is_told → IsUntouched seen may_leave moment left_since self.old self.new };

    /// Makes an empty file, in place of one that stands there.
    fn create(&mut self, path: &FilePath) -> Result<(), FilesFailed>
        ensures made { IsTrue is_told → OnOk result (seen self.new path.now ≡ Some []) }
        ensures only { IsTrue is_told → OnlyAt path.now (seen self.old) (seen self.new) }
        ensures crash { IsTrue is_told → Follows (OnlyAt path.now) (may_leave self.old) (may_leave self.new) }
        ensures time { IsTrue is_told → Passes (moment self.old) (moment self.new) (left_since self.old) (left_since self.new) (may_leave self.new) };

    /// Appends to the file that `create` made last.
    fn append(&mut self, path: &FilePath, bytes: &[u8]) -> Result<(), FilesFailed>
        ensures written { IsTrue is_told → OnOk result ((front : List ℕ) → seen self.old path.now ≡ Some front → seen self.new path.now ≡ Some (front ++ bytes.now)) }
        ensures only { IsTrue is_told → OnlyAt path.now (seen self.old) (seen self.new) }
        ensures crash { IsTrue is_told → Follows (OnlyAt path.now) (may_leave self.old) (may_leave self.new) }
        ensures time { IsTrue is_told → Passes (moment self.old) (moment self.new) (left_since self.old) (left_since self.new) (may_leave self.new) };

    /// From the answer on a crash leaves the file's bytes as they are read, if it leaves the file.
    fn sync(&mut self, path: &FilePath) -> Result<(), FilesFailed>
        ensures durable { IsTrue is_told → OnOk result (NoneOr path.now (seen self.old path.now) (may_leave self.new)) }
        ensures untouched { IsTrue is_told → IsUntouched seen may_leave moment left_since self.old self.new };

    /// From the answer on a crash leaves a file at the path exactly where one stands there now. Of its bytes that says nothing.
    fn sync_path(&mut self, path: &FilePath) -> Result<(), FilesFailed>
        ensures durable { IsTrue is_told → OnOk result (HasSame path.now (seen self.old) (may_leave self.new)) }
        ensures untouched { IsTrue is_told → IsUntouched seen may_leave moment left_since self.old self.new };

    /// Gives a file another path, in place of one that stands there. At the first path there is none then, unless both are one.
    fn rename(&mut self, from: &FilePath, to: &FilePath) -> Result<(), FilesFailed>
        ensures moved { IsTrue is_told → OnOk result (seen self.new to.now ≡ seen self.old from.now) }
        ensures gone { IsTrue is_told → from.now ≢ to.now → OnOk result (seen self.new from.now ≡ None) }
        ensures files { IsTrue is_told → MayMove from.now to.now (seen self.old) (seen self.new) }
        ensures crash { IsTrue is_told → Follows (MayMove from.now to.now) (may_leave self.old) (may_leave self.new) }
        ensures time { IsTrue is_told → Passes (moment self.old) (moment self.new) (left_since self.old) (left_since self.new) (may_leave self.new) };

    /// Gives a file one more path. Fails where one stands there.
    fn link(&mut self, from: &FilePath, to: &FilePath) -> Result<(), FilesFailed>
        ensures linked { IsTrue is_told → OnOk result (seen self.new to.now ≡ seen self.old from.now) }
        ensures files { IsTrue is_told → MayLink from.now to.now (seen self.old) (seen self.new) }
        ensures crash { IsTrue is_told → Follows (MayLink from.now to.now) (may_leave self.old) (may_leave self.new) }
        ensures time { IsTrue is_told → Passes (moment self.old) (moment self.new) (left_since self.old) (left_since self.new) (may_leave self.new) };

    /// Takes a path away.
    fn remove(&mut self, path: &FilePath) -> Result<(), FilesFailed>
        ensures gone { IsTrue is_told → OnOk result (seen self.new path.now ≡ None) }
        ensures files { IsTrue is_told → MayGo path.now (seen self.old) (seen self.new) }
        ensures crash { IsTrue is_told → Follows (MayGo path.now) (may_leave self.old) (may_leave self.new) }
        ensures time { IsTrue is_told → Passes (moment self.old) (moment self.new) (left_since self.old) (left_since self.new) (may_leave self.new) };

    /// Since this moment there is no other.
    ghost only_now: { (files : Self) (c : Tree) → left_since files (moment files) c → may_leave files c };
}
