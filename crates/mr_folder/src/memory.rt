//! Files in memory, for tests.
ghost use Rattle.std.specs.Prelude.{◌≡◌, ◌∷◌, ◌++◌, [], Some, None, true, if◌then◌else◌, is_ok, is_some, length, map, option_map, unwrap_or, string_bytes, IfOk, OnOk};
ghost use Rattle.std.specs.List.{filter_map};
ghost use Rattle.std.specs.Option.{option_copied, option_to_list};
ghost use Rattle.mr_folder.specs.Memory.{Puts, Moves, Links, Goes, Syncs, SyncsPath, LeftSince, MayLeave, after, only_now, step_of, steps_of, tree_of};
ghost use Rattle.mr_folder.specs.Tree.{Tree};
ghost use Rattle.mr_folder.specs.inner.MemoryFound.{behind_store, found_in, target, stored_name};

use crate::files::{FileTree, FilesFailed};
use crate::path::FilePath;
use std::alloc::Global;
use std::collections::VecDeque;

/// Where the store's files are.
const STORE: &str = ".mailfold/files/";

/// What was done to the files.
#[derive(Debug, Drop)]
enum Change {
    /// A file got these bytes.
    Put(String, Vec<u8>),
    /// A file got the second path in place of the first.
    Moved(String, String),
    /// A file got the second path beside the first.
    Linked(String, String),
    /// A path went.
    Gone(String),
    /// A file was synced.
    Synced(String),
    /// A path was synced.
    SyncedPath(String),
}

/// Files in memory. A crash leaves of them all that `FileTree` lets it leave: what wasn't synced may be lost, in any part.
///
/// It keeps each call since the beginning, and a read goes over them, so it is for tests. A call that finds no memory has failed.
#[derive(Drop)]
pub struct MemoryTree {
    alloc: Global,
    fuse: u64,
    changes: VecDeque<Change>,
}

/// What a change says of the file at a path: its bytes, that there is none, or where it was before.
#[derive(Clone, Copy)]
enum Found<'a> {
    Bytes(&'a Vec<u8>),
    Nothing,
    At(&'a str),
}

impl MemoryTree {
    /// No file yet. So many calls are done; the one behind them, and all that follow, fail and do nothing.
    pub fn new(alloc: Global, fuse: u64) -> MemoryTree
        ensures { steps_of result ≡ [] }
    {
        MemoryTree {
            alloc,
            fuse,
            changes: VecDeque::new(alloc),
        }
    }

    /// Counts a call. Fails where no more are done.
    fn count(&mut self) -> Result<(), FilesFailed>
        ensures { steps_of self.new ≡ steps_of self.old }
    {
        if self.fuse == 0 {
            return Err(FilesFailed);
        }
        self.fuse -= 1;
        Ok(())
    }

    /// Notes a change.
    fn note(&mut self, change: Change) -> Result<(), FilesFailed>
        ensures { steps_of self.new ≡ (if is_ok result then step_of change ∷ steps_of self.old else steps_of self.old) }
    {
        self.changes.push_front(change).map_err(|_| FilesFailed)
    }

    /// A copy of the bytes at a path.
    fn copy(&self, alloc: Global, path: &FilePath) -> Result<Option<Vec<u8>>, FilesFailed>
        ensures { IfOk result (λ bytes. option_map (λ v. v.items) bytes ≡ tree_of (steps_of self.now) path.now) }
    {
        match look_up(&self.changes, path.as_str()) {
            Some(bytes) => Ok(Some(copied(alloc, bytes)?)),
            None => Ok(None),
        }
    }

    /// Whether there is a file at a path.
    fn is_there(&self, path: &FilePath) -> bool
        ensures { result ≡ is_some (tree_of (steps_of self.now) path.now) }
    {
        look_up(&self.changes, path.as_str()).is_some()
    }

    /// The bytes at a path, none where there is no file, and more behind them.
    fn grown(&self, path: &FilePath, more: &[u8]) -> Result<Vec<u8>, FilesFailed>
        ensures { IfOk result (λ v. v.items ≡ unwrap_or (tree_of (steps_of self.now) path.now) [] ++ more.now) }
    {
        match look_up(&self.changes, path.as_str()) {
            Some(bytes) => joined(self.alloc, bytes, more),
            None => copied(self.alloc, more),
        }
    }

    /// Puts bytes at a path.
    fn put(&mut self, path: &FilePath, bytes: Vec<u8>) -> Result<(), FilesFailed>
        ensures { steps_of self.new ≡ (if is_ok result then Puts path.now bytes.items ∷ steps_of self.old else steps_of self.old) }
    {
        let at = text_of(self.alloc, path)?;
        self.note(Change::Put(at, bytes))
    }

    fn do_create(&mut self, path: &FilePath) -> Result<(), FilesFailed>
        ensures { steps_of self.new ≡ (if is_ok result then Puts path.now [] ∷ steps_of self.old else steps_of self.old) }
    {
        self.count()?;
        let empty = Vec::new(self.alloc);
        self.put(path, empty)
    }

    fn do_append(&mut self, path: &FilePath, more: &[u8]) -> Result<(), FilesFailed>
        ensures { steps_of self.new ≡ (if is_ok result then Puts path.now (unwrap_or (tree_of (steps_of self.old) path.now) [] ++ more.now) ∷ steps_of self.old else steps_of self.old) }
    {
        self.count()?;
        let bytes = self.grown(path, more)?;
        self.put(path, bytes)
    }

    fn do_rename(&mut self, from: &FilePath, to: &FilePath) -> Result<(), FilesFailed>
        ensures { steps_of self.new ≡ (if is_ok result then Moves from.now to.now ∷ steps_of self.old else steps_of self.old) }
    {
        self.count()?;
        let source = text_of(self.alloc, from)?;
        let target = text_of(self.alloc, to)?;
        self.note(Change::Moved(source, target))
    }

    fn do_link(&mut self, from: &FilePath, to: &FilePath) -> Result<(), FilesFailed>
        ensures steps { steps_of self.new ≡ (if is_ok result then Links from.now to.now ∷ steps_of self.old else steps_of self.old) }
        ensures free { OnOk result (tree_of (steps_of self.old) to.now ≡ None) }
    {
        self.count()?;
        if self.is_there(to) {
            return Err(FilesFailed);
        }
        let source = text_of(self.alloc, from)?;
        let target = text_of(self.alloc, to)?;
        self.note(Change::Linked(source, target))
    }

    fn do_remove(&mut self, path: &FilePath) -> Result<(), FilesFailed>
        ensures { steps_of self.new ≡ (if is_ok result then Goes path.now ∷ steps_of self.old else steps_of self.old) }
    {
        self.count()?;
        let at = text_of(self.alloc, path)?;
        self.note(Change::Gone(at))
    }

    fn do_sync(&mut self, path: &FilePath) -> Result<(), FilesFailed>
        ensures { steps_of self.new ≡ (if is_ok result then Syncs path.now ∷ steps_of self.old else steps_of self.old) }
    {
        self.count()?;
        let at = text_of(self.alloc, path)?;
        self.note(Change::Synced(at))
    }

    fn do_sync_path(&mut self, path: &FilePath) -> Result<(), FilesFailed>
        ensures { steps_of self.new ≡ (if is_ok result then SyncsPath path.now ∷ steps_of self.old else steps_of self.old) }
    {
        self.count()?;
        let at = text_of(self.alloc, path)?;
        self.note(Change::SyncedPath(at))
    }
}

/// What a change says of the file at a path.
fn found_by<'a>(change: &'a Change, path: &'a str) -> Found<'a>
    ensures { (tree : Tree) → after (step_of change.now) tree path.now ≡ found_in tree result }
{
    match change {
        Change::Put(at, bytes) => {
            if path == at.as_str() {
                Found::Bytes(bytes)
            } else {
                Found::At(path)
            }
        }
        Change::Moved(from, to) => {
            if path == to.as_str() {
                Found::At(from.as_str())
            } else if path == from.as_str() {
                Found::Nothing
            } else {
                Found::At(path)
            }
        }
        Change::Linked(from, to) => {
            if path == to.as_str() {
                Found::At(from.as_str())
            } else {
                Found::At(path)
            }
        }
        Change::Gone(at) => {
            if path == at.as_str() {
                Found::Nothing
            } else {
                Found::At(path)
            }
        }
        Change::Synced(_) | Change::SyncedPath(_) => Found::At(path),
    }
}

/// The bytes of the file at a path.
fn look_up<'a>(changes: &'a VecDeque<Change>, path: &'a str) -> Option<&'a Vec<u8>>
    ensures { option_map (λ v. v.now.items) result ≡ tree_of (map step_of changes.now.items) path.now }
{
    let mut place = path;
    for at in 0..changes.len() {
        match found_by(&changes[at], place) {
            Found::Bytes(bytes) => return Some(bytes),
            Found::Nothing => return None,
            Found::At(before) => place = before,
        }
    }
    None
}

/// The path at which a change may put a file.
fn target_of(change: &Change) -> &str
    ensures { result.now ≡ target (step_of change.now) }
{
    match change {
        Change::Put(path, _)
        | Change::Moved(_, path)
        | Change::Linked(_, path)
        | Change::Gone(path)
        | Change::Synced(path)
        | Change::SyncedPath(path) => path.as_str(),
    }
}

/// The name that a path has in the store's folder.
fn name_in_store(path: &str) -> Option<&str>
    ensures { option_copied result ≡ behind_store path.now }
{
    path.strip_prefix(STORE)
}

/// The name in the store's folder of the file that a change put there, if it is there now.
fn name_of<'a>(changes: &'a VecDeque<Change>, change: &'a Change) -> Option<&'a str>
    ensures { option_copied result ≡ stored_name (tree_of (map step_of changes.now.items)) (target (step_of change.now)) }
{
    let path = target_of(change);
    match look_up(changes, path) {
        Some(_) => name_in_store(path),
        None => None,
    }
}

/// The names of the store's files.
fn names_of(alloc: Global, changes: &VecDeque<Change>) -> Result<Vec<String>, FilesFailed>
    ensures { IfOk result (λ names. map (λ s. string_bytes s) names.items ≡ filter_map (stored_name (tree_of (map step_of changes.now.items))) (map target (map step_of changes.now.items))) }
{
    let mut names = Vec::new(alloc);
    for at in 0..changes.len() {
        push_some(alloc, &mut names, name_of(changes, &changes[at]))?;
    }
    Ok(names)
}

/// Appends a name, if there is one.
fn push_some(alloc: Global, names: &mut Vec<String>, name: Option<&str>) -> Result<(), FilesFailed>
    ensures { OnOk result (map (λ s. string_bytes s) names.new.items ≡ map (λ s. string_bytes s) names.old.items ++ option_to_list (option_copied name.entry)) }
{
    match name {
        Some(name) => push_name(alloc, names, name),
        None => Ok(()),
    }
}

/// Appends a name.
fn push_name(alloc: Global, names: &mut Vec<String>, name: &str) -> Result<(), FilesFailed>
    ensures { OnOk result (map (λ s. string_bytes s) names.new.items ≡ map (λ s. string_bytes s) names.old.items ++ name.now ∷ []) }
{
    let name = String::from_str(alloc, name).map_err(|_| FilesFailed)?;
    names.push(name).map_err(|_| FilesFailed)
}

/// A copy of a path's text.
fn text_of(alloc: Global, path: &FilePath) -> Result<String, FilesFailed>
    ensures { IfOk result (λ text. string_bytes text ≡ path.now) }
{
    String::from_str(alloc, path.as_str()).map_err(|_| FilesFailed)
}

/// A copy of bytes.
fn copied(alloc: Global, bytes: &[u8]) -> Result<Vec<u8>, FilesFailed>
    ensures { IfOk result (λ v. v.items ≡ bytes.now) }
{
    bytes.to_vec(alloc).map_err(|_| FilesFailed)
}

/// Bytes and more behind them.
fn joined(alloc: Global, front: &[u8], more: &[u8]) -> Result<Vec<u8>, FilesFailed>
    ensures { IfOk result (λ v. v.items ≡ front.now ++ more.now) }
{
    let mut bytes = copied(alloc, front)?;
    bytes.extend_from_slice(more).map_err(|_| FilesFailed)?;
    Ok(bytes)
}

impl FileTree for MemoryTree {
    ghost is_told = { true };

    ghost seen = { λ m. tree_of (steps_of m) };

    ghost may_leave = { λ m. MayLeave (steps_of m) };

    ghost moment = { λ m. length (steps_of m) };

    ghost left_since = { λ m t c. LeftSince (steps_of m) t c };

    ghost only_now = { λ m c left. only_now (steps_of m) c left };

    fn read(&mut self, alloc: Global, path: &FilePath) -> Result<Option<Vec<u8>>, FilesFailed> {
        self.count()?;
        self.copy(alloc, path)
    }

    fn has(&mut self, path: &FilePath) -> Result<bool, FilesFailed> {
        self.count()?;
        Ok(self.is_there(path))
    }

    fn stored_names(&mut self, alloc: Global) -> Result<Vec<String>, FilesFailed> {
        self.count()?;
        names_of(alloc, &self.changes)
    }

    fn create(&mut self, path: &FilePath) -> Result<(), FilesFailed> {
        self.do_create(path)
    }

    fn append(&mut self, path: &FilePath, bytes: &[u8]) -> Result<(), FilesFailed> {
        self.do_append(path, bytes)
    }

    fn sync(&mut self, path: &FilePath) -> Result<(), FilesFailed> {
        self.do_sync(path)
    }

    fn sync_path(&mut self, path: &FilePath) -> Result<(), FilesFailed> {
        self.do_sync_path(path)
    }

    fn rename(&mut self, from: &FilePath, to: &FilePath) -> Result<(), FilesFailed> {
        self.do_rename(from, to)
    }

    fn link(&mut self, from: &FilePath, to: &FilePath) -> Result<(), FilesFailed> {
        self.do_link(from, to)
    }

    fn remove(&mut self, path: &FilePath) -> Result<(), FilesFailed> {
        self.do_remove(path)
    }
}
