//! The store, looked through. What real files give no contract can say.
ghost use Rattle.std.specs.Prelude.{◌≡◌};
ghost use Rattle.mr_scan.specs.inner.Scan as specs;

use crate::adopting::adopted;
use crate::inodes::{Index, Judged, Sizes, StoreFile, judge, push_file, push_if};
use crate::scanned::Sight;
use mr_folder::{DiskTree, FilePath, StoreFault, stored};
use std::alloc::Global;
use std::fs::File;
use std::rt::Files;

/// What the store has.
#[derive(Drop)]
pub struct Indexed {
    /// Its mails, by the inodes of their files.
    pub index: Index,
    /// The mails whose names in the store stand for files that are other mails now.
    pub edited: Vec<[u8; 32]>,
}

/// The store's mails by their inodes, and those of them that a program edited in place. The sizes are those that the files of mails have, as
/// far as they are known.
///
/// A file of another size is read. If its bytes are another mail, it is taken into the store as that, and the index has its inode for that;
/// the name that it had stays too. So it is with its links in the Maildir, which are the same file. One of the size that it should have isn't read, whatever its bytes are.
///
/// It costs a call of the system for each mail, and a look-up. `Failed` where the folder of the store, or what the system tells of a file in it,
/// can't be read, or a file that is read, or can't be taken in; `OutOfMemory`.
pub fn index_of<R: Files<File = File> + AllocGlobal + Clone + Drop>(
    alloc: Global,
    tree: &mut DiskTree<R>,
    sizes: &Sizes,
) -> Result<Indexed, StoreFault> {
    let files = store_files(alloc, tree)?;
    let Judged { mut index, spoiled } = judge(alloc, &files, sizes)?;
    let mut edited = Vec::new(alloc);
    for digest in spoiled {
        let is_edited = is_edited(alloc, tree, &mut index, &digest)?;
        push_if(&mut edited, digest, is_edited)?;
    }
    Ok(Indexed { index, edited })
}

/// The files that the store has under digests.
fn store_files<R: Files<File = File> + AllocGlobal + Clone + Drop>(
    alloc: Global,
    tree: &mut DiskTree<R>,
) -> Result<Vec<StoreFile>, StoreFault> {
    let mails = stored(alloc, tree)?;
    let mut files = Vec::with_capacity(alloc, mails.digests.len())?;
    for digest in mails.digests {
        let path = FilePath::stored(alloc, &digest)?;
        if let Some(mark) = tree.mark(&path)? {
            push_file(&mut files, &mark, digest)?;
        }
    }
    Ok(files)
}

/// Reads the file that the store has of the mail, and has the index know what it is. Whether that is another mail. A file that goes, or
/// changes while it is read, counts as none.
fn is_edited<R: Files<File = File> + AllocGlobal + Clone + Drop>(
    alloc: Global,
    tree: &mut DiskTree<R>,
    index: &mut Index,
    digest: &[u8; 32],
) -> Result<bool, StoreFault> {
    let path = FilePath::stored(alloc, digest)?;
    let Some(mark) = tree.mark(&path)? else {
        return Ok(false);
    };
    let sight = adopted(alloc, tree, index, &path, &mark)?;
    Ok(is_other_mail(sight, digest))
}

/// Whether what was read is another mail than this one.
fn is_other_mail(sight: Sight, digest: &[u8; 32]) -> bool
    ensures { result ≡ specs.is_other_mail sight digest.now }
{
    match sight {
        Sight::Adopted(own) => own != *digest,
        Sight::Stored(_) => false,
        Sight::Gone => false,
        Sight::NoFile => false,
    }
}
