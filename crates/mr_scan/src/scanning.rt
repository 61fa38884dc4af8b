//! The files of a Maildir, told apart by their inodes. What real files give no contract can say.
use crate::adopting::adopted;
use crate::finding::{FoundFile, found_file};
use crate::folders::{FolderTable, MailFolder};
use crate::inodes::Index;
use crate::scanned::{Scan, Sight};
use mr_folder::{
    DiskTree, FilePath, FileTree, FilesFailed, FolderPath, Listing, Part, StoreFault, list,
};
use std::alloc::Global;
use std::collections::BTreeMap;
use std::fs::File;
use std::rt::Files;

/// The files in these folders, by the mails that they are. A file whose inode the index has is that mail. Any other is read and taken into the
/// store, and the index gets its inode, also where the store has its bytes in another file.
///
/// A file that went since the folders were listed, or changed while it was read, is passed over, and the scan isn't quiet then. It costs a
/// call of the system for each file, and a look-up. It takes some 300 bytes for each file, and those of one file that is read.
///
/// `Failed` where a folder or a file can't be read, or a file can't be taken into the store; `OutOfMemory`. What was taken in until then
/// stays so.
pub fn scan<R: Files<File = File> + AllocGlobal + Clone + Drop>(
    alloc: Global,
    tree: &mut DiskTree<R>,
    table: &FolderTable,
    index: &mut Index,
) -> Result<Scan, StoreFault> {
    let paths = table.paths(alloc)?;
    let (listing, unreadable) = listed(alloc, tree, &paths)?;
    let mut scan = Scan {
        mails: BTreeMap::new(alloc),
        is_quiet: listing.is_quiet,
        unreadable,
        adopted: 0,
    };
    for (place, names) in listing.names.into_iter().enumerate() {
        if let Some((folder, part)) = table.part_at(place) {
            note_names(alloc, tree, index, &mut scan, folder, part, names)?;
        }
    }
    Ok(scan)
}

/// The names in the parts of these folders, and how many aren't UTF-8.
pub(crate) fn listed<R: Files<File = File> + AllocGlobal + Clone + Drop>(
    alloc: Global,
    tree: &DiskTree<R>,
    paths: &[FolderPath],
) -> Result<(Listing, u64), FilesFailed> {
    let mut parts = tree.parts(paths);
    let listing = list(alloc, &mut parts, paths.len().saturating_mul(2))?;
    Ok((listing, parts.unreadable()))
}

/// Notes what the names in a part of a folder are.
fn note_names<R: Files<File = File> + AllocGlobal + Clone + Drop>(
    alloc: Global,
    tree: &mut DiskTree<R>,
    index: &mut Index,
    scan: &mut Scan,
    folder: &MailFolder,
    part: Part,
    names: Vec<String>,
) -> Result<(), StoreFault> {
    for name in names {
        if let Some(found) = found_file(alloc, folder, part, name.as_str())? {
            let FoundFile { path, file } = found;
            let sight = sight_of(alloc, tree, index, &path)?;
            scan.note(alloc, sight, file)?;
        }
    }
    Ok(())
}

/// What stands at a path.
fn sight_of<R: Files<File = File> + AllocGlobal + Clone + Drop>(
    alloc: Global,
    tree: &mut DiskTree<R>,
    index: &mut Index,
    path: &FilePath,
) -> Result<Sight, StoreFault> {
    let Some(mark) = tree.mark(path)? else {
        return Ok(if tree.has(path)? {
            Sight::NoFile
        } else {
            Sight::Gone
        });
    };
    match index.get(&mark.inode) {
        Some(stored) => Ok(Sight::Stored(stored.digest)),
        None => adopted(alloc, tree, index, path, &mark),
    }
}
