//! Whether a folder rests: nothing in it was changed since it was found with nothing to do, as the times of its parts tell, or also the names in
//! them and the sizes of the store's files. What real files take and give no contract says, so what is here is tested only.
ghost use Rattle.std.specs.Prelude.{◌≡◌, ◌+◌, ◌*◌, ◌<◌, ◌^◌, ℕ, pos, SomeIff};

use crate::opening::{OpenFolder, own_path, remove_file};
use crate::rest_bytes::{put_folder, put_numbers, replica_bytes, rest_bytes, seen_in, was_seen};
use mr_folder::{DiskTree, Folders};
use mr_maildir::Layout;
use mr_scan::{FolderTable, MailFolder};
use sha2::{Digest, Sha256};
use std::alloc::Global;
use std::fs::{self, File};
use std::os::unix::fs::MetadataExt;
use std::rt::Files;
use std::slice;

/// The program's file that has how a folder stood when nothing had to be done.
const NOTE: &str = "tmp/rest";

/// The program's file that has it for those that don't read the log.
pub(crate) const CLOSED_NOTE: &str = "tmp/scan";

/// How a folder stands.
#[derive(Drop)]
pub(crate) struct Stand {
    /// Others, as soon as its replica, its store, or the names in one of its folders change.
    pub(crate) bytes: Vec<u8>,
    /// The latest time of a change of the store or of a folder, in nanoseconds since 1970.
    newest: u64,
}

/// How the folder stands, with these folders. `None` where that isn't told, and where its journal waits for a commit.
pub(crate) fn stand_of<R: Files<File = File> + AllocGlobal + Clone + Drop>(
    rt: &R,
    root: &str,
    folder: &OpenFolder<R>,
    table: &FolderTable,
) -> Option<Stand> {
    if !folder.kept.is_kept() {
        return None;
    }
    let files = files_stand(rt, root, &folder.tree, table)?;
    stand_with(rt.alloc(), folder, table.layout(), &files)
}

/// How the folder stands, whose files stand so.
pub(crate) fn stand_with<R: Drop>(
    alloc: Global,
    folder: &OpenFolder<R>,
    layout: Layout,
    files: &Stand,
) -> Option<Stand> {
    let birth = folder.kept.birth();
    let replica = folder.kept.replica();
    let mut bytes = replica_bytes(alloc, birth, layout, replica, &folder.shown).ok()?;
    bytes.extend_from_slice(&files.bytes).ok()?;
    Some(Stand {
        bytes,
        newest: files.newest,
    })
}

/// How the log, the store and these folders stand.
pub(crate) fn files_stand<R: Files<File = File> + AllocGlobal + Clone + Drop>(
    rt: &R,
    root: &str,
    tree: &DiskTree<R>,
    table: &FolderTable,
) -> Option<Stand> {
    let mut bytes = Vec::new(rt.alloc());
    let store = put_own(rt, root, &mut bytes)?;
    let newest = put_folders(tree, table.folders(), &mut bytes)?;
    Some(Stand {
        bytes,
        newest: newest.max(store),
    })
}

/// What was seen of the folder, if the note has that it stood so.
pub(crate) fn seen_at<R: Files<File = File> + AllocGlobal>(
    rt: &R,
    root: &str,
    stand: &Option<Stand>,
) -> Option<Vec<u8>> {
    noted(rt, root, NOTE, &stand.as_ref()?.bytes)
}

/// Whether it was names of this digest that were seen, and the sizes that the store's files have. Where it was other names, no size is looked at.
pub(crate) fn has_seen<R: Files<File = File> + AllocGlobal + Clone + Drop>(
    rt: &R,
    root: &str,
    seen: &[u8],
    names: &[u8; 32],
) -> Option<bool> {
    if !seen.starts_with(names) {
        return Some(false);
    }
    let sizes = sizes_now(rt, root)?;
    was_seen(rt.alloc(), seen, names, &sizes).ok()
}

/// What a note has behind this stand, if it is the one that it has.
pub(crate) fn noted<R: Files<File = File> + AllocGlobal>(
    rt: &R,
    root: &str,
    note: &str,
    stand: &[u8],
) -> Option<Vec<u8>> {
    let path = own_path(rt.alloc(), root, note).ok()?;
    let bytes = fs::read(rt, path.as_str()).ok()?;
    Vec::from_slice(rt.alloc(), seen_in(&bytes, stand)?).ok()
}

/// The sizes of the store's files, by their inodes.
fn sizes_now<R: Files<File = File> + AllocGlobal + Clone + Drop>(
    rt: &R,
    root: &str,
) -> Option<Vec<(u64, u64)>> {
    let path = own_path(rt.alloc(), root, "files").ok()?;
    let mut sizes = Vec::new(rt.alloc());
    for entry in fs::read_dir(rt, path.as_str()).ok()? {
        let told = entry.ok()?.metadata().ok()?;
        sizes.push((told.ino(), told.len())).ok()?;
    }
    sizes.sort_unstable();
    Some(sizes)
}

/// A digest of the names in the folders, in the order in which the system tells them. `None` where they can't be read.
pub(crate) fn names_digest<R: Files<File = File> + AllocGlobal + Clone + Drop>(
    alloc: Global,
    tree: &DiskTree<R>,
    folders: &[MailFolder],
) -> Option<[u8; 32]> {
    let mut hasher = Sha256::new();
    for folder in folders {
        let mut parts = tree.parts(slice::from_ref(&folder.path));
        take_names(&mut hasher, &parts.names(alloc, 0).ok()?);
        take_names(&mut hasher, &parts.names(alloc, 1).ok()?);
    }
    Some(hasher.finalize())
}

/// Takes the names of a part of a folder, and its end. No name has a slash.
fn take_names(hasher: &mut Sha256, names: &[String]) {
    for name in names {
        hasher.update(name.as_bytes());
        hasher.update(b"/");
    }
    hasher.update(b"/");
}

/// Takes the notes back, and tells the time, as the file system has it: what is changed from now on has that time or a later one.
pub(crate) fn empty_notes<R: Files<File = File> + AllocGlobal>(rt: &R, root: &str) -> Option<u64> {
    let closed = own_path(rt.alloc(), root, CLOSED_NOTE).ok()?;
    remove_file(rt, closed.as_str()).ok()?;
    let path = own_path(rt.alloc(), root, NOTE).ok()?;
    fs::write(rt, path.as_str(), "\n").ok()?;
    changed(rt, root, NOTE)
}

/// Notes how the folder stands, if it stood so before this time too, and what was seen in it. A note that can't be written is missing.
pub(crate) fn note_stand<R: Files<File = File> + AllocGlobal>(
    rt: &R,
    root: &str,
    before: &Stand,
    after: &Stand,
    seen: &[u8],
    now: u64,
) {
    if before.bytes.as_slice() != after.bytes.as_slice() || after.newest >= now {
        return;
    }
    // without the note the next command looks at all again
    let _ = write_note(rt, root, NOTE, &after.bytes, seen);
}

/// Writes a note, if it can be.
pub(crate) fn write_note<R: Files<File = File> + AllocGlobal>(
    rt: &R,
    root: &str,
    note: &str,
    stand: &[u8],
    seen: &[u8],
) -> Option<()> {
    let path = own_path(rt.alloc(), root, note).ok()?;
    let bytes = rest_bytes(rt.alloc(), stand, seen).ok()?;
    fs::write(rt, path.as_str(), bytes.as_slice()).ok()
}

/// Writes the size of the log, and the times of its last change and the store's, which is told.
fn put_own<R: Files<File = File> + AllocGlobal>(
    rt: &R,
    root: &str,
    out: &mut Vec<u8>,
) -> Option<u64> {
    let path = own_path(rt.alloc(), root, "log").ok()?;
    let told = fs::metadata(rt, path.as_str()).ok()?;
    let log = nanoseconds(told.ctime(), told.ctime_nsec())?;
    let store = changed(rt, root, "files")?;
    put_numbers(out, &[told.len(), log, store]).ok()?;
    Some(store)
}

/// Writes the folders with the times of the last changes of their parts, of which the latest is told. A folder has a `cur`; where it has no
/// `new`, its time is 0.
fn put_folders<R: Files<File = File> + AllocGlobal + Clone + Drop>(
    tree: &DiskTree<R>,
    folders: &[MailFolder],
    out: &mut Vec<u8>,
) -> Option<u64> {
    let mut newest = 0;
    for folder in folders {
        let mut parts = tree.parts(slice::from_ref(&folder.path));
        let cur = parts.time(0).ok()?;
        let new = parts.time(1).ok()?;
        if cur == 0 {
            return None;
        }
        put_folder(out, folder.path.as_str(), cur, new).ok()?;
        newest = cur.max(new).max(newest);
    }
    Some(newest)
}

/// When one of the program's own files or folders changed last.
fn changed<R: Files<File = File> + AllocGlobal>(rt: &R, root: &str, inside: &str) -> Option<u64> {
    let path = own_path(rt.alloc(), root, inside).ok()?;
    let told = fs::metadata(rt, path.as_str()).ok()?;
    nanoseconds(told.ctime(), told.ctime_nsec())
}

/// A time of so many seconds and nanoseconds since 1970, in nanoseconds. `None` for one before, or more than five centuries later.
fn nanoseconds(seconds: i64, rest: i64) -> Option<u64>
    ensures { (s n : ℕ) → seconds ≡ pos s → rest ≡ pos n → SomeIff result (s * 1000000000 + n < 2 ^ 64) (s * 1000000000 + n) }
{
    let seconds = u64::try_from(seconds).ok()?;
    let rest = u64::try_from(rest).ok()?;
    seconds.checked_mul(1_000_000_000)?.checked_add(rest)
}
