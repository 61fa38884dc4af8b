//! Files that are taken into the store. What real files give no contract can say.
ghost use Rattle.std.specs.Prelude.{◌≡◌, ◌==◌, ◌&&◌};

use crate::inodes::{Index, put_mark};
use crate::scanned::Sight;
use mr_folder::{DiskTree, FileMark, FilePath, StoreFault, adopt};
use std::alloc::Global;
use std::fs::File;
use std::rt::Files;

/// Reads a file, takes it into the store, and has the index know the mail by the file's inode.
pub(crate) fn adopted<R: Files<File = File> + AllocGlobal + Clone + Drop>(
    alloc: Global,
    tree: &mut DiskTree<R>,
    index: &mut Index,
    path: &FilePath,
    mark: &FileMark,
) -> Result<Sight, StoreFault> {
    let Some(digest) = adopt(alloc, tree, path)? else {
        return Ok(Sight::Gone);
    };
    match tree.mark(path)? {
        Some(now) if is_same_file(mark, &now) => {
            put_mark(index, mark, digest)?;
            Ok(Sight::Adopted(digest))
        }
        _ => Ok(Sight::Gone),
    }
}

/// Whether what the system tells twice is of one file, with the same bytes.
fn is_same_file(before: &FileMark, now: &FileMark) -> bool
    ensures { result ≡ (before.now.inode == now.now.inode && before.now.size == now.now.size && before.now.time == now.now.time) }
{
    before.inode == now.inode && before.size == now.size && before.time == now.time
}
