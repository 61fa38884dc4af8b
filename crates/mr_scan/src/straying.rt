//! Mails in folders that were passed over. What real files give no contract can say.
use crate::folders::FolderTable;
use crate::inodes::Index;
use crate::scanning::listed;
use mr_folder::{DiskTree, FilePath, FolderPath, Part, StoreFault};
use std::alloc::{AllocError, Global};
use std::collections::BTreeMap;
use std::fs::File;
use std::rt::Files;

/// The mails of the store that have a file in a folder that was passed over, each with the place of that folder in
/// [`FolderTable::passed_over`]: of the first one, where there are several.
///
/// A file is told by its inode alone, and none is read: a copy that another program made isn't found, and where the file system has no
/// hard links nothing is. It costs a call of the system for each file in these folders, and nothing where there are none.
///
/// `Failed` where a folder can't be read, or what the system tells of a file; `OutOfMemory`. What real files give no contract can say.
pub fn mails_passed_over<R: Files<File = File> + AllocGlobal + Clone + Drop>(
    alloc: Global,
    tree: &mut DiskTree<R>,
    table: &FolderTable,
    index: &Index,
) -> Result<BTreeMap<[u8; 32], usize>, StoreFault> {
    let folders = table.passed_over();
    let (listing, _unreadable) = listed(alloc, tree, folders)?;
    let mut mails = BTreeMap::new(alloc);
    for (place, names) in listing.names.into_iter().enumerate() {
        if let Some(folder) = folders.get(place / 2) {
            note_names(alloc, tree, index, &mut mails, place, folder, names)?;
        }
    }
    Ok(mails)
}

/// Notes the mails whose files have these names, in the part of a folder that a listing has at the place.
fn note_names<R: Files<File = File> + AllocGlobal + Clone + Drop>(
    alloc: Global,
    tree: &mut DiskTree<R>,
    index: &Index,
    mails: &mut BTreeMap<[u8; 32], usize>,
    place: usize,
    folder: &FolderPath,
    names: Vec<String>,
) -> Result<(), StoreFault> {
    let part = if place % 2 == 0 { Part::Cur } else { Part::New };
    for name in names {
        if let Some(path) = FilePath::mail(alloc, folder, part, name.as_str())? {
            if let Some(digest) = mail_at(tree, index, &path)? {
                put_first(mails, digest, place / 2)?;
            }
        }
    }
    Ok(())
}

/// The mail whose file stands at the path, if the index has its inode.
fn mail_at<R: Files<File = File> + AllocGlobal + Clone + Drop>(
    tree: &mut DiskTree<R>,
    index: &Index,
    path: &FilePath,
) -> Result<Option<[u8; 32]>, StoreFault> {
    let Some(mark) = tree.mark(path)? else {
        return Ok(None);
    };
    match index.get(&mark.inode) {
        Some(stored) => Ok(Some(stored.digest)),
        None => Ok(None),
    }
}

/// Notes in which folder a mail lies, unless one before it was noted.
fn put_first(
    mails: &mut BTreeMap<[u8; 32], usize>,
    digest: [u8; 32],
    folder: usize,
) -> Result<(), AllocError> {
    if !mails.contains_key(&digest) {
        mails.insert(digest, folder)?;
    }
    Ok(())
}
