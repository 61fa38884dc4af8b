//! Files in memory, of which one call fails, and what a crash leaves of them.
ghost use Rattle.std.specs.Prelude.{None, false};

use anyhow::Result;
use mr_folder::{FilePath, FileTree, FilesFailed};
use sha2::{Digest, Sha256};
use std::alloc::{AllocError, Global};
use std::collections::{BTreeMap, BTreeSet};

/// Where the store's files are.
const STORE: &str = ".mailfold/files/";

/// Files by their paths.
type Files = BTreeMap<String, Vec<u8>>;

/// Files in memory. From the call of the number `fuse` on each fails and does nothing.
#[derive(Drop)]
pub struct FakeTree {
    alloc: Global,
    fuse: u64,
    files: Files,
    /// The paths of files whose bytes aren't synced.
    unsynced: BTreeSet<String>,
    /// The files at the paths that are synced.
    synced: Files,
}

/// What a crash does to what isn't synced.
#[derive(Clone, Copy)]
pub enum Crash {
    /// Each path is as it was when it was synced.
    LosesPaths,
    /// Each path is there, and bytes that aren't synced are lost.
    LosesBytes,
}

impl FakeTree {
    /// No files yet.
    pub fn new(alloc: Global, fuse: u64) -> FakeTree {
        FakeTree {
            alloc,
            fuse,
            files: BTreeMap::new(alloc),
            unsynced: BTreeSet::new(alloc),
            synced: BTreeMap::new(alloc),
        }
    }

    /// What a crash leaves, with calls that all are done.
    pub fn after(&self, crash: Crash) -> Result<FakeTree> {
        let files = match crash {
            Crash::LosesPaths => copy_of(self.alloc, &self.synced)?,
            Crash::LosesBytes => self.shortened()?,
        };
        Ok(FakeTree {
            alloc: self.alloc,
            fuse: u64::MAX,
            synced: copy_of(self.alloc, &files)?,
            unsynced: BTreeSet::new(self.alloc),
            files,
        })
    }

    /// The files, those without their bytes whose bytes aren't synced.
    fn shortened(&self) -> Result<Files> {
        let mut files = BTreeMap::new(self.alloc);
        for (path, bytes) in self.files.iter() {
            let kept = if self.unsynced.contains(path.as_str()) {
                Vec::new(self.alloc)
            } else {
                bytes.to_vec(self.alloc)?
            };
            files.insert(String::from_str(self.alloc, path.as_str())?, kept)?;
        }
        Ok(files)
    }

    /// How many files of the store haven't the bytes that their names say.
    pub fn wrong(&self) -> Result<u64> {
        let mut wrong = 0u64;
        for (path, bytes) in self.files.iter() {
            if let Some(name) = path.as_str().strip_prefix(STORE) {
                let digits = hex::encode(self.alloc, Sha256::digest(bytes.as_slice()))?;
                wrong = wrong.saturating_add(u64::from(digits.as_str() != name));
            }
        }
        Ok(wrong)
    }

    /// Counts a call. Fails where no more are done.
    fn step(&mut self) -> Result<(), FilesFailed> {
        if self.fuse == 0 {
            return Err(FilesFailed);
        }
        self.fuse -= 1;
        Ok(())
    }

    /// A copy of the bytes at a path.
    fn bytes(&self, path: &FilePath) -> Result<Option<Vec<u8>>, AllocError> {
        match self.files.get(path.as_str()) {
            Some(bytes) => Ok(Some(bytes.to_vec(self.alloc)?)),
            None => Ok(None),
        }
    }

    /// Puts a file at a path.
    fn put(&mut self, path: &FilePath, bytes: Vec<u8>) -> Result<(), FilesFailed> {
        let text = text_of(self.alloc, path)?;
        or_failed(self.files.insert(text, bytes))?;
        Ok(())
    }

    /// Notes that the bytes at a path are synced, or that they aren't.
    fn mark(&mut self, path: &FilePath, is_synced: bool) -> Result<(), FilesFailed> {
        if is_synced {
            self.unsynced.remove(path.as_str());
            return Ok(());
        }
        let text = text_of(self.alloc, path)?;
        or_failed(self.unsynced.insert(text))?;
        Ok(())
    }

    /// Puts at a path what stands at another.
    fn put_as(&mut self, from: &FilePath, to: &FilePath) -> Result<(), FilesFailed> {
        let Ok(Some(bytes)) = self.bytes(from) else {
            return Err(FilesFailed);
        };
        let is_synced = !self.unsynced.contains(from.as_str());
        self.put(to, bytes)?;
        self.mark(to, is_synced)
    }

    /// Syncs a path: what stands there now is what a crash leaves, with no bytes where they aren't synced.
    fn keep(&mut self, path: &FilePath) -> Result<(), FilesFailed> {
        let Ok(found) = self.bytes(path) else {
            return Err(FilesFailed);
        };
        let Some(bytes) = found else {
            self.synced.remove(path.as_str());
            return Ok(());
        };
        let kept = if self.unsynced.contains(path.as_str()) {
            Vec::new(self.alloc)
        } else {
            bytes
        };
        let text = text_of(self.alloc, path)?;
        or_failed(self.synced.insert(text, kept))?;
        Ok(())
    }

    /// The names of the store's files.
    fn names(&self, alloc: Global) -> Result<Vec<String>, AllocError> {
        let mut names = Vec::new(alloc);
        for (path, _) in self.files.iter() {
            if let Some(name) = path.as_str().strip_prefix(STORE) {
                names.push(String::from_str(alloc, name)?)?;
            }
        }
        Ok(names)
    }
}

/// A copy of files.
fn copy_of(alloc: Global, files: &Files) -> Result<Files> {
    let mut copy = BTreeMap::new(alloc);
    for (path, bytes) in files.iter() {
        copy.insert(
            String::from_str(alloc, path.as_str())?,
            bytes.to_vec(alloc)?,
        )?;
    }
    Ok(copy)
}

/// A copy of a path's text.
fn text_of(alloc: Global, path: &FilePath) -> Result<String, FilesFailed> {
    or_failed(String::from_str(alloc, path.as_str()))
}

/// What was done, where there was memory for it.
fn or_failed<T: Drop, E: Drop>(done: Result<T, E>) -> Result<T, FilesFailed> {
    match done {
        Ok(done) => Ok(done),
        Err(_) => Err(FilesFailed),
    }
}

impl FileTree for FakeTree {
    ghost is_told = { false };

    ghost seen = { λ _ _. None };

    ghost may_leave = { λ _ _. ⊥ };

    ghost moment = { λ _. 0 };

    ghost left_since = { λ _ _ _. ⊥ };

    ghost only_now = { λ _ _ left. left };

    fn read(&mut self, _alloc: Global, path: &FilePath) -> Result<Option<Vec<u8>>, FilesFailed> {
        self.step()?;
        or_failed(self.bytes(path))
    }

    fn has(&mut self, path: &FilePath) -> Result<bool, FilesFailed> {
        self.step()?;
        Ok(self.files.contains_key(path.as_str()))
    }

    fn stored_names(&mut self, alloc: Global) -> Result<Vec<String>, FilesFailed> {
        self.step()?;
        or_failed(self.names(alloc))
    }

    fn create(&mut self, path: &FilePath) -> Result<(), FilesFailed> {
        self.step()?;
        let empty = Vec::new(self.alloc);
        self.put(path, empty)?;
        self.mark(path, false)
    }

    fn append(&mut self, path: &FilePath, bytes: &[u8]) -> Result<(), FilesFailed> {
        self.step()?;
        match self.files.get_mut(path.as_str()) {
            Some(file) => or_failed(file.extend_from_slice(bytes))?,
            None => return Err(FilesFailed),
        }
        self.mark(path, false)
    }

    fn sync(&mut self, path: &FilePath) -> Result<(), FilesFailed> {
        self.step()?;
        self.mark(path, true)
    }

    fn sync_path(&mut self, path: &FilePath) -> Result<(), FilesFailed> {
        self.step()?;
        self.keep(path)
    }

    fn rename(&mut self, from: &FilePath, to: &FilePath) -> Result<(), FilesFailed> {
        self.step()?;
        self.put_as(from, to)?;
        self.files.remove(from.as_str());
        Ok(())
    }

    fn link(&mut self, from: &FilePath, to: &FilePath) -> Result<(), FilesFailed> {
        self.step()?;
        if self.files.contains_key(to.as_str()) {
            return Err(FilesFailed);
        }
        self.put_as(from, to)
    }

    fn remove(&mut self, path: &FilePath) -> Result<(), FilesFailed> {
        self.step()?;
        self.files.remove(path.as_str());
        Ok(())
    }
}
