//! A folder of a disk as a tree of files. What real files take and give is trusted here: no contract can say it.
//!
//! A crash leaves of a POSIX file system what `FileTree` says: `sync` is `fdatasync` of the file, `sync_path` is `fsync` of the folder
//! that the path is in, and a rename or a link is done as a whole or not at all.
ghost use Rattle.std.specs.Prelude.{◌≡◌, ◌+◌, ◌*◌, ◌<◌, ◌^◌, ℕ, None, false, is_ok, pos, SomeIff};

use crate::disk_folders::{DiskFolders, FolderNames, folders_below, names_in};
use crate::files::{FileTree, FilesFailed};
use crate::path::{FilePath, FolderPath};
use std::alloc::Global;
use std::fs::{self, File};
use std::io::{self, ErrorKind, Write};
use std::os::unix::fs::MetadataExt;
use std::path::Path;
use std::rt::Files;

/// What the system tells of a file.
#[derive(Clone, Copy, Debug, PartialEq, Eq)]
pub struct FileMark {
    /// The number of its inode, `st_ino` of POSIX: files with one number are one file with several paths.
    pub inode: u64,
    /// How many bytes it has.
    pub size: u64,
    /// When its bytes were last changed, in nanoseconds since 1970; 0 for a time before.
    pub time: u64,
    /// How many paths it has.
    pub links: u64,
}

/// A folder of a disk. Its calls fail as the system's do; `error` tells what it said.
///
/// Where a file system makes no hard links, and where a file has as many as it may have, a link is a copy: then the store and
/// the Maildir have the bytes twice, and an inode doesn't tell that both are one mail. Where both paths are links of one file, a rename
/// leaves both, as POSIX has it.
#[derive(Drop)]
pub struct DiskTree<R> {
    rt: R,
    root: String,
    draft: Option<File>,
    error: Option<io::Error>,
}

impl<R: Files<File = File> + AllocGlobal + Clone + Drop> DiskTree<R> {
    /// The folder at this path, which has to be there. The folders that the program keeps its own files in are made where they are
    /// missing, and synced.
    ///
    /// The system's error where there is no such folder, or where one can't be made.
    pub fn open(rt: R, root: String) -> io::Result<DiskTree<R>> {
        if !fs::metadata(&rt, root.as_str())?.is_dir() {
            return Err(io::Error::from(ErrorKind::NotADirectory));
        }
        let tree = DiskTree {
            rt,
            root,
            draft: None,
            error: None,
        };
        tree.make(".mailfold/tmp")?;
        tree.make(".mailfold/files")?;
        tree.sync_folder(".mailfold")?;
        tree.sync_folder("")?;
        Ok(tree)
    }

    /// What the system said of the last call that failed.
    pub fn error(&self) -> Option<io::Error> {
        self.error
    }

    /// What the system tells of the file at a path. `None` where there is none, and where what stands there is no file, as a
    /// folder or a symbolic link. It costs a call of the system.
    pub fn mark(&mut self, path: &FilePath) -> Result<Option<FileMark>, FilesFailed> {
        noted(self.mark_at(path), &mut self.error)
    }

    /// The folders of the Maildir: those that have a `cur`, up to eight folders deep. `cur`, `new`, `tmp` and `.mailfold` are none, and
    /// symbolic links aren't followed.
    pub fn folders(&mut self, alloc: Global) -> Result<FolderNames, FilesFailed> {
        noted(
            folders_below(&self.rt, alloc, self.root.as_str()),
            &mut self.error,
        )
    }

    /// Makes a folder with its `cur`, `new` and `tmp`, where they are missing, and syncs it.
    pub fn make_folder(&mut self, folder: &FolderPath) -> Result<(), FilesFailed> {
        noted(self.make_parts(folder), &mut self.error)
    }

    /// The parts of folders, to be listed: number 2k is the `cur` of `folders[k]`, and 2k + 1 is its `new`.
    pub fn parts<'a>(&'a self, folders: &'a [FolderPath]) -> DiskFolders<'a, R> {
        DiskFolders::new(&self.rt, self.root.as_str(), folders)
    }

    /// A path below the root, from the folder that the program runs in.
    fn full(&self, inside: &str) -> io::Result<String> {
        let root = self.root.as_str();
        Ok(format!(in self.rt.alloc(); "{root}/{inside}")?)
    }

    fn make(&self, inside: &str) -> io::Result<()> {
        let full = self.full(inside)?;
        fs::create_dir_all(&self.rt, full.as_str())
    }

    fn make_parts(&self, folder: &FolderPath) -> io::Result<()> {
        let inside = folder.as_str();
        for part in ["cur", "new", "tmp"] {
            let path = format!(in self.rt.alloc(); "{inside}/{part}")?;
            self.make(path.as_str())?;
        }
        self.sync_folder(inside)?;
        match inside.rsplit_once('/') {
            Some((above, _)) => self.sync_folder(above),
            None => self.sync_folder(""),
        }
    }

    fn sync_folder(&self, inside: &str) -> io::Result<()> {
        let full = self.full(inside)?;
        File::open(&self.rt, full.as_str())?.sync_all()
    }

    fn mark_at(&self, path: &FilePath) -> io::Result<Option<FileMark>> {
        let full = self.full(path.as_str())?;
        match fs::symlink_metadata(&self.rt, full.as_str()) {
            Ok(told) if told.is_file() => Ok(Some(FileMark {
                inode: told.ino(),
                size: told.len(),
                time: nanoseconds(told.mtime(), told.mtime_nsec()).unwrap_or(0),
                links: told.nlink(),
            })),
            Ok(_) => Ok(None),
            Err(error) if error.kind() == ErrorKind::NotFound => Ok(None),
            Err(error) => Err(error),
        }
    }

    fn bytes(&self, path: &FilePath) -> io::Result<Option<Vec<u8>>> {
        let full = self.full(path.as_str())?;
        match fs::read(&self.rt, full.as_str()) {
            Ok(bytes) => Ok(Some(bytes)),
            Err(error) if error.kind() == ErrorKind::NotFound => Ok(None),
            Err(error) => Err(error),
        }
    }

    /// Makes an empty file, which the next pieces go into. One that stands there is taken away first and not cut to nothing, since
    /// it may be that of another path too.
    fn make_file(&mut self, path: &FilePath) -> io::Result<()> {
        let full = self.full(path.as_str())?;
        match fs::remove_file(&self.rt, full.as_str()) {
            Err(error) if error.kind() != ErrorKind::NotFound => return Err(error),
            _ => {}
        }
        self.draft = Some(File::create_new(&self.rt, full.as_str())?);
        Ok(())
    }

    fn grow(&mut self, bytes: &[u8]) -> io::Result<()> {
        match &mut self.draft {
            Some(file) => file.write_all(bytes),
            None => Err(io::Error::from(ErrorKind::NotFound)),
        }
    }

    fn sync_at(&self, path: &FilePath) -> io::Result<()> {
        let full = self.full(path.as_str())?;
        File::open(&self.rt, full.as_str())?.sync_data()
    }

    fn sync_folder_of(&self, path: &FilePath) -> io::Result<()> {
        let full = self.full(path.as_str())?;
        File::open(&self.rt, folder_of(full.as_str()))?.sync_all()
    }

    fn rename_at(&self, from: &FilePath, to: &FilePath) -> io::Result<()> {
        let source = self.full(from.as_str())?;
        let target = self.full(to.as_str())?;
        fs::rename(&self.rt, source.as_str(), target.as_str())
    }

    fn link_at(&self, from: &FilePath, to: &FilePath) -> io::Result<()> {
        let source = self.full(from.as_str())?;
        let target = self.full(to.as_str())?;
        match fs::hard_link(&self.rt, source.as_str(), target.as_str()) {
            Err(error) if is_for_want_of_links(error.kind()) => {
                self.copy_to(source.as_str(), target.as_str())
            }
            outcome => outcome,
        }
    }

    /// Copies a file to a path where none stands. The copy is made among the program's own files, synced, and gets its path by a
    /// rename, so that no part of it is ever seen there.
    fn copy_to(&self, source: &str, target: &str) -> io::Result<()> {
        if fs::exists(&self.rt, target)? {
            return Err(io::Error::from(ErrorKind::AlreadyExists));
        }
        let copy = self.full(".mailfold/tmp/copy")?;
        fs::copy(&self.rt, source, copy.as_str())?;
        File::open(&self.rt, copy.as_str())?.sync_data()?;
        fs::rename(&self.rt, copy.as_str(), target)
    }

    fn remove_at(&self, path: &FilePath) -> io::Result<()> {
        let full = self.full(path.as_str())?;
        fs::remove_file(&self.rt, full.as_str())
    }

    fn exists_at(&self, path: &FilePath) -> io::Result<bool> {
        let full = self.full(path.as_str())?;
        fs::exists(&self.rt, full.as_str())
    }

    fn names_of_store(&self, alloc: Global) -> io::Result<Vec<String>> {
        let full = self.full(".mailfold/files")?;
        Ok(names_in(&self.rt, alloc, full.as_str())?.names)
    }
}

/// Whether a link wasn't made since the file system makes none, or no more of this file. A file system without links says that it isn't
/// permitted; where that has another cause, the copy fails too.
fn is_for_want_of_links(kind: ErrorKind) -> bool {
    matches!(
        kind,
        ErrorKind::Unsupported
            | ErrorKind::TooManyLinks
            | ErrorKind::CrossesDevices
            | ErrorKind::PermissionDenied
    )
}

/// The folder that a path's file is in.
fn folder_of(path: &str) -> Path<'_> {
    match Path::new(path).parent() {
        Some(folder) if !folder.as_str().is_empty() => folder,
        _ => Path::new("."),
    }
}

/// A time of so many seconds and nanoseconds since 1970, in nanoseconds. `None` for one before, or more than five centuries later.
pub(crate) fn nanoseconds(seconds: i64, rest: i64) -> Option<u64>
    ensures { (s n : ℕ) → seconds ≡ pos s → rest ≡ pos n → SomeIff result (s * 1000000000 + n < 2 ^ 64) (s * 1000000000 + n) }
{
    let seconds = u64::try_from(seconds).ok()?;
    let rest = u64::try_from(rest).ok()?;
    seconds.checked_mul(1_000_000_000)?.checked_add(rest)
}

/// Keeps what the system said where a call failed.
pub(crate) fn noted<T>(
    outcome: io::Result<T>,
    error: &mut Option<io::Error>,
) -> Result<T, FilesFailed>
    ensures { is_ok result ≡ is_ok outcome }
{
    match outcome {
        Ok(value) => Ok(value),
        Err(said) => {
            *error = Some(said);
            Err(FilesFailed)
        }
    }
}

impl<R: Files<File = File> + AllocGlobal + Clone + Drop> FileTree for DiskTree<R> {
    ghost is_told = { false };

    ghost seen = { λ _ _. None };

    ghost may_leave = { λ _ _. ⊥ };

    ghost moment = { λ _. 0 };

    ghost left_since = { λ _ _ _. ⊥ };

    ghost only_now = { λ _ _ left. left };

    fn read(&mut self, _alloc: Global, path: &FilePath) -> Result<Option<Vec<u8>>, FilesFailed> {
        noted(self.bytes(path), &mut self.error)
    }

    fn has(&mut self, path: &FilePath) -> Result<bool, FilesFailed> {
        noted(self.exists_at(path), &mut self.error)
    }

    fn stored_names(&mut self, alloc: Global) -> Result<Vec<String>, FilesFailed> {
        noted(self.names_of_store(alloc), &mut self.error)
    }

    fn create(&mut self, path: &FilePath) -> Result<(), FilesFailed> {
        noted(self.make_file(path), &mut self.error)
    }

    fn append(&mut self, _path: &FilePath, bytes: &[u8]) -> Result<(), FilesFailed> {
        noted(self.grow(bytes), &mut self.error)
    }

    fn sync(&mut self, path: &FilePath) -> Result<(), FilesFailed> {
        noted(self.sync_at(path), &mut self.error)
    }

    fn sync_path(&mut self, path: &FilePath) -> Result<(), FilesFailed> {
        noted(self.sync_folder_of(path), &mut self.error)
    }

    fn rename(&mut self, from: &FilePath, to: &FilePath) -> Result<(), FilesFailed> {
        noted(self.rename_at(from, to), &mut self.error)
    }

    fn link(&mut self, from: &FilePath, to: &FilePath) -> Result<(), FilesFailed> {
        noted(self.link_at(from, to), &mut self.error)
    }

    fn remove(&mut self, path: &FilePath) -> Result<(), FilesFailed> {
        noted(self.remove_at(path), &mut self.error)
    }
}
