//! What is noted of a folder at rest for those that needn't open it: whoever finds its files as they stood then finds the folder as it was. What
//! real files take and give no contract says, so what is here is tested only.
use crate::looking::{Listed, PassedOver, Settled, at_rest, listed_at, passed_over};
use crate::opening::{OpenFolder, mark_for, open_tree};
use crate::rest_bytes::{closed_bytes, sealed_bytes, unsealed};
use crate::resting::{
    CLOSED_NOTE, Stand, files_stand, has_seen, names_digest, noted, seen_at, stand_with, write_note,
};
use mr_folder::DiskTree;
use mr_journal::DiskFile;
use mr_maildir::Layout;
use std::fs::File;
use std::rt::Files;

/// The program's file that has how the files stood, and what is noted.
const NOTE: &str = "tmp/talks";

/// What was noted of a folder that rests.
#[derive(Drop)]
pub struct AtRest {
    /// What of its Maildir isn't shown.
    pub passed_over: PassedOver,
    /// The bytes that were noted.
    pub bytes: Vec<u8>,
}

/// A folder whose log isn't read.
#[derive(Drop)]
struct Closed<R> {
    tree: DiskTree<R>,
    listed: Listed,
    /// What a note has of it as it stands.
    noted: Vec<u8>,
}

/// What [`note_at_rest`] noted of the folder at this path, which is locked by its log's file. `None` where nothing was, where its log, its
/// store, or a name in its folders was changed since, and where that can't be told. The log isn't read.
///
/// It costs the listing of the folders, and two calls of the system for each of them.
pub fn noted_at_rest<R: Files<File = File> + AllocGlobal + Clone + Drop>(
    rt: &R,
    root: &str,
    log: &DiskFile,
) -> Option<AtRest> {
    let closed = closed_at(rt, root, log, NOTE)?;
    let bytes = Vec::from_slice(rt.alloc(), unsealed(&closed.noted)?).ok()?;
    let passed_over = passed_over(closed.listed, 0);
    Some(AtRest { passed_over, bytes })
}

/// What [`settle_if_edited`](crate::settle_if_edited) does in the folder at this path, which is locked by its log's file: nothing, as [`note_seen`] noted.
/// `None` where nothing was noted, where the log, the store, a name in the folders, or the size of a file of the store was changed since, where a
/// settling looked at the files since, and where that can't be told: then the folder has to be opened. The log isn't read.
///
/// It costs the listing of the folders, and two calls of the system for each of them; where these stand as they were noted also the listing of all
/// names, and a call of the system for each file of the store.
pub fn seen_at_rest<R: Files<File = File> + AllocGlobal + Clone + Drop>(
    rt: &R,
    root: &str,
    log: &DiskFile,
) -> Option<Settled> {
    let closed = closed_at(rt, root, log, CLOSED_NOTE)?;
    match is_as_seen(rt, root, &closed) {
        Some(true) => Some(at_rest(closed.listed)),
        _ => None,
    }
}

/// Whether what was noted to be seen in the folder is what is in it. `None` where that can't be told.
fn is_as_seen<R: Files<File = File> + AllocGlobal + Clone + Drop>(
    rt: &R,
    root: &str,
    closed: &Closed<R>,
) -> Option<bool> {
    let names = names_digest(rt.alloc(), &closed.tree, closed.listed.table.folders())?;
    has_seen(rt, root, &closed.noted, &names)
}

/// Notes these bytes of the folder as it stands, in place of what was noted. Where the folder doesn't rest, as
/// [`settle_if_changed`](crate::settle_if_changed) has it, and where the note can't be written, nothing is noted.
pub fn note_at_rest<R: Files<File = File> + AllocGlobal + Clone + Drop>(
    rt: &R,
    root: &str,
    folder: &mut OpenFolder<R>,
    bytes: &[u8],
) {
    if let Some((stand, _)) = rest_of(rt, root, folder) {
        if let Ok(sealed) = sealed_bytes(rt.alloc(), bytes) {
            // without the note the folder is opened
            let _ = write_note(rt, root, NOTE, &stand, &sealed);
        }
    }
}

/// Notes what was seen of the folder as it stands, so that the next call of [`seen_at_rest`] finds it, until a settling looks at the files again. Where
/// the folder doesn't rest, as [`settle_if_edited`](crate::settle_if_edited) has it, and where the note can't be written, nothing is noted.
pub fn note_seen<R: Files<File = File> + AllocGlobal + Clone + Drop>(
    rt: &R,
    root: &str,
    folder: &mut OpenFolder<R>,
) {
    if let Some((stand, seen)) = rest_of(rt, root, folder) {
        if !seen.is_empty() {
            // without the note the folder is opened
            let _ = write_note(rt, root, CLOSED_NOTE, &stand, &seen);
        }
    }
}

/// The folder at this path, if the note has something of it as it stands.
fn closed_at<R: Files<File = File> + AllocGlobal + Clone + Drop>(
    rt: &R,
    root: &str,
    log: &DiskFile,
    note: &str,
) -> Option<Closed<R>> {
    let (mut tree, layout) = open_tree(rt, root).ok()?;
    let listed = listed_at(rt.alloc(), &mut tree, layout).ok()?;
    let noted = noted_of(rt, root, log, note, &tree, &listed)?;
    Some(Closed {
        tree,
        listed,
        noted,
    })
}

/// What the note has of the folder with these files, as it stands.
fn noted_of<R: Files<File = File> + AllocGlobal + Clone + Drop>(
    rt: &R,
    root: &str,
    log: &DiskFile,
    note: &str,
    tree: &DiskTree<R>,
    listed: &Listed,
) -> Option<Vec<u8>> {
    let files = files_stand(rt, root, tree, &listed.table)?;
    let stand = closed_stand(rt, log, listed.table.layout(), &files)?;
    noted(rt, root, note, &stand)
}

/// How a folder that rests stands for those that don't read its log, and what was seen in it.
fn rest_of<R: Files<File = File> + AllocGlobal + Clone + Drop>(
    rt: &R,
    root: &str,
    folder: &mut OpenFolder<R>,
) -> Option<(Vec<u8>, Vec<u8>)> {
    if !folder.kept.is_kept() {
        return None;
    }
    let Listed { table, .. } = listed_at(folder.alloc, &mut folder.tree, folder.layout).ok()?;
    let layout = table.layout();
    let files = files_stand(rt, root, &folder.tree, &table)?;
    let stand = stand_with(folder.alloc, folder, layout, &files);
    let seen = seen_at(rt, root, &stand)?;
    let stand = closed_stand(rt, folder.kept.journal().device(), layout, &files)?;
    Some((stand, seen))
}

/// How the files of a folder stand whose log isn't read.
fn closed_stand<R: Files<File = File> + AllocGlobal>(
    rt: &R,
    log: &DiskFile,
    layout: Layout,
    files: &Stand,
) -> Option<Vec<u8>> {
    let mark = mark_for(rt, log).ok()?;
    closed_bytes(rt.alloc(), &mark, layout, &files.bytes).ok()
}
