//! An open folder is looked at, and settled. What real files take and give no contract says, so what is here is tested only.
ghost use Rattle.std.specs.Prelude.{◌≡◌, ◌<◌, ◌^◌, IfOk, length};
ghost use Rattle.std.specs.Cmp.Lexicographic.{slice_cmp};
ghost use Rattle.std.specs.List.Sorted.{IsPermutation, IsSorted};
ghost use Rattle.std.specs.Ordering.{nat_cmp};

use crate::disk_mails::DiskMails;
use crate::fault::SettleFault;
use crate::fold_fault::{FoldFault, files_failed};
use crate::held_side::{Concerned, concerned_by, held_and_left};
use crate::opening::{Kept, OpenFolder};
use crate::rest_bytes::seen_bytes;
use crate::resting::{Stand, empty_notes, has_seen, names_digest, note_stand, seen_at, stand_of};
use crate::seeing::{Sight, seen};
use crate::settling::settle_in_parts;
use crate::targets::targets_of;
use mr_compare::{Digest, MailAct, Shown, Tally, tally_of};
use mr_folder::{DiskTree, FilePath, FolderPath, StoreFault, unlink};
use mr_kept::KeptFault;
use mr_maildir::{Layout, MailFile};
use mr_scan::FolderTable;
use mr_version::ItemId;
use std::alloc::Global;
use std::collections::BTreeMap;
use std::fs::File;
use std::mem;
use std::rt::Files;

/// The most items that may lack their files.
const MAX_LACKING: usize = 4_294_967_295;

/// What a settling did, what it found edited, and what of the Maildir it passed over.
#[derive(Drop)]
pub struct Settled {
    pub tally: Tally,
    /// How many mails were edited in place: what their files are now are other mails.
    pub edited: usize,
    pub passed_over: PassedOver,
}

/// What a settling would do, what it would find edited, and what of the Maildir it would pass over.
#[derive(Drop)]
pub struct Looked {
    pub acts: Vec<MailAct>,
    /// How many mails were edited in place: what their files are now are other mails.
    pub edited: usize,
    pub passed_over: PassedOver,
}

/// What of a Maildir isn't shown.
#[derive(Drop)]
pub struct PassedOver {
    /// How the folders lie.
    pub layout: Layout,
    /// The folders that the layout has none of, and those whose label one before them has.
    pub folders: Vec<FolderPath>,
    /// How many names in the folders aren't UTF-8, or are those of no file.
    pub names: u64,
}

/// The folders of a Maildir.
#[derive(Drop)]
pub(crate) struct Listed {
    pub(crate) table: FolderTable,
    /// How many names of folders aren't UTF-8.
    unreadable: u64,
}

/// What was found in a folder, and what is done for it.
#[derive(Drop)]
struct Found {
    listed: Listed,
    sight: Sight,
    concerned: Concerned,
}

/// Settles a folder: the user's changes of the Maildir are told and kept, and what was changed elsewhere is shown. It is called
/// between syncs.
///
/// A mail is deleted, or taken out of a folder, only where two scans in a row say so. Where they don't, its change waits for the next
/// settling, if it is held as it was left and no heads of it are to be merged. At most `most` mails are deleted in one go, and where none is told
/// as many as [`most_deletions`] gives for those that are held.
///
/// A mail whose file has another size than is held, and other bytes, was edited in place: the file is a new mail, as its bytes say. The mail
/// itself isn't deleted. It lacks its file from then on, which the store has no more, and is shown again once a sync brought that.
///
/// `Changed` where such a change can't wait: another program was at work, and the mail was changed elsewhere too or its heads are to be merged,
/// so that what was done here or elsewhere would be lost. Else `PassedOver` where a mail would be deleted whose file was moved into a folder that is
/// passed over, and else `TooManyDeletions` where more mails are missing. After these nothing was done. After each other fault, as after the
/// first, the next settling goes on: `Changed` too where another program was at work while files were moved, `Journal` where the journal failed, so
/// that the folder has to be opened again, `System` with what the system said of the files. It costs two calls of the system for each file, and a
/// walk over what is held; where nothing is to be done nothing is written. Only where a mail would be deleted the folders that are passed over
/// are listed too, with a call of the system for each file.
pub fn settle_folder<R: Files<File = File> + AllocGlobal + Clone + Drop>(
    folder: &mut OpenFolder<R>,
    most: Option<usize>,
) -> Result<Settled, FoldFault> {
    let listed = listed_at(folder.alloc, &mut folder.tree, folder.layout)?;
    let mut found = found_at(folder, listed, most)?;
    let done = settle_found(folder, &mut found);
    let settled = settled_of(found);
    done?;
    Ok(settled)
}

/// As [`settle_folder`], but where nothing was changed since a call of it that found nothing to do, no file is looked at, and nothing is
/// done. `root` is the path that the folder was opened at.
///
/// What was changed is told by the times of the last changes of the folders' `cur` and `new`, of the store, and of the log: a name that
/// comes, goes or is changed moves such a time, and no program can set it. A file that is edited in place moves none.
/// `.mailfold/tmp/rest` has how all stood; where that can't be read or written, where the folders have names that aren't
/// those of mail's files, and where a change is as new as the file system's clock, the folder is settled. It costs the listing of the folders
/// and two calls of the system for each of them, and where something was changed those of a settling too.
pub fn settle_if_changed<R: Files<File = File> + AllocGlobal + Clone + Drop>(
    rt: &R,
    root: &str,
    folder: &mut OpenFolder<R>,
    most: Option<usize>,
) -> Result<Settled, FoldFault> {
    let (listed, stand) = listed_and_stand(rt, root, folder)?;
    if seen_at(rt, root, &stand).is_some() {
        return Ok(at_rest(listed));
    }
    let names = names_digest(folder.alloc, &folder.tree, listed.table.folders());
    let before = Before { stand, names };
    settle_and_note(rt, root, folder, listed, before, most)
}

/// As [`settle_if_changed`], but the names in the folders are listed too, and the sizes of the store's files are looked at, so that a file that was
/// edited in place is found, and what a file system has no times for. Each file of a mail in the Maildir is a file of the store. It costs the
/// listing of all names, and a call of the system for each file of the store; where something was changed those of a settling too.
pub fn settle_if_edited<R: Files<File = File> + AllocGlobal + Clone + Drop>(
    rt: &R,
    root: &str,
    folder: &mut OpenFolder<R>,
    most: Option<usize>,
) -> Result<Settled, FoldFault> {
    let (listed, stand) = listed_and_stand(rt, root, folder)?;
    let names = names_digest(folder.alloc, &folder.tree, listed.table.folders());
    let before = Before { stand, names };
    if rests_whole(rt, root, &before).unwrap_or(false) {
        return Ok(at_rest(listed));
    }
    settle_and_note(rt, root, folder, listed, before, most)
}

/// How a folder stood before it was looked at, and a digest of the names in its folders.
#[derive(Drop)]
struct Before {
    stand: Option<Stand>,
    names: Option<[u8; 32]>,
}

/// The folders that are there, and how the folder stands with them.
fn listed_and_stand<R: Files<File = File> + AllocGlobal + Clone + Drop>(
    rt: &R,
    root: &str,
    folder: &mut OpenFolder<R>,
) -> Result<(Listed, Option<Stand>), FoldFault> {
    let listed = listed_at(folder.alloc, &mut folder.tree, folder.layout)?;
    let stand = stand_of(rt, root, folder, &listed.table);
    Ok((listed, stand))
}

/// Nothing was done.
pub(crate) fn at_rest(listed: Listed) -> Settled {
    Settled {
        tally: tally_of(&[]),
        edited: 0,
        passed_over: passed_over(listed, 0),
    }
}

/// Settles a folder with these folders, and where nothing was to be done notes how it stood before.
fn settle_and_note<R: Files<File = File> + AllocGlobal + Clone + Drop>(
    rt: &R,
    root: &str,
    folder: &mut OpenFolder<R>,
    listed: Listed,
    before: Before,
    most: Option<usize>,
) -> Result<Settled, FoldFault> {
    let now = empty_notes(rt, root);
    let mut found = found_at(folder, listed, most)?;
    let done = settle_found(folder, &mut found);
    if let Ok(true) = &done {
        note_rest(rt, root, folder, &found, &before, now);
    }
    let settled = settled_of(found);
    done?;
    Ok(settled)
}

/// Whether it is noted that the folder stood so, with these names and the sizes that the store's files have.
fn rests_whole<R: Files<File = File> + AllocGlobal + Clone + Drop>(
    rt: &R,
    root: &str,
    before: &Before,
) -> Option<bool> {
    let seen = seen_at(rt, root, &before.stand)?;
    has_seen(rt, root, &seen, before.names.as_ref()?)
}

/// Notes that nothing has to be done in a folder that stood so before this time, if it stands so still, a scan saw all that is in it, and each name
/// is that of a mail's file.
fn note_rest<R: Files<File = File> + AllocGlobal + Clone + Drop>(
    rt: &R,
    root: &str,
    folder: &OpenFolder<R>,
    found: &Found,
    before: &Before,
    now: Option<u64>,
) {
    let scan = &found.sight.scan;
    if !scan.is_quiet || scan.unreadable != 0 {
        return;
    }
    let after = stand_of(rt, root, folder, &found.listed.table);
    if let (Some(stand), Some(after), Some(now)) = (&before.stand, &after, now) {
        let seen = seen_before(folder.alloc, &before.names, &found.sight.sizes);
        let seen = seen.unwrap_or(Vec::new(folder.alloc));
        note_stand(rt, root, stand, after, &seen, now);
    }
}

/// What was seen, as a note has it; nothing where it isn't known, or where a file of the folders isn't in the store.
fn seen_before(
    alloc: Global,
    names: &Option<[u8; 32]>,
    sizes: &Option<Vec<(u64, u64)>>,
) -> Option<Vec<u8>> {
    seen_bytes(alloc, names.as_ref()?, sizes.as_ref()?).ok()
}

/// Does what is to be done for what was found. Whether that was nothing.
fn settle_found<R: Files<File = File> + AllocGlobal + Clone + Drop>(
    folder: &mut OpenFolder<R>,
    found: &mut Found,
) -> Result<bool, FoldFault> {
    if is_settled(folder, found) {
        return Ok(true);
    }
    let_go(folder, &found.sight.edited)?;
    let created = mem::replace(&mut found.sight.created, BTreeMap::new(folder.alloc));
    let done = settle_seen(
        folder.alloc,
        &mut folder.kept,
        &mut folder.tree,
        found,
        created,
    );
    if let Err(fault) = done {
        let log = folder.kept.journal().device();
        return Err(fault.explained(log.error(), folder.tree.error()));
    }
    note_settled(folder, &found.concerned.lacking)?;
    Ok(false)
}

/// Takes those names out of the store whose files are other mails now, and have the names of these too. What of them a crash brings back the
/// next settling takes out again.
fn let_go<R: Files<File = File> + AllocGlobal + Clone + Drop>(
    folder: &mut OpenFolder<R>,
    edited: &[Digest],
) -> Result<(), FoldFault> {
    for digest in edited {
        let path = FilePath::stored(folder.alloc, digest)?;
        if unlink(&mut folder.tree, &path).is_err() {
            return Err(files_failed(folder.tree.error()));
        }
    }
    Ok(())
}

/// What was done, what was edited, and what was passed over.
fn settled_of(found: Found) -> Settled {
    Settled {
        tally: tally_of(&found.sight.acts),
        edited: found.sight.edited.len(),
        passed_over: passed_over(found.listed, found.sight.scan.unreadable),
    }
}

/// Whether nothing is to be done, and the journal has that all is shown.
fn is_settled<R: Drop>(folder: &OpenFolder<R>, found: &Found) -> bool {
    let entries = folder.kept.replica().feed().len();
    found.sight.acts.is_empty()
        && found.sight.edited.is_empty()
        && folder.kept.is_kept()
        && folder.shown.entries() == entries as u64
        && folder.shown.lacking() == found.concerned.lacking.as_slice()
}

/// What a settling would do now, however many mails it would delete.
///
/// New files of the Maildir, and those that were edited in place, are taken into the store, and nothing else changes. The faults are those of the files, and `Changed` and
/// `PassedOver` as a settling has them before anything is done.
pub fn look<R: Files<File = File> + AllocGlobal + Clone + Drop>(
    folder: &mut OpenFolder<R>,
) -> Result<Looked, FoldFault> {
    let listed = listed_at(folder.alloc, &mut folder.tree, folder.layout)?;
    Ok(told_of(found_at(folder, listed, Some(usize::MAX))?))
}

/// As [`look`], but where [`settle_if_changed`] wouldn't look either, nothing is done.
pub fn look_if_changed<R: Files<File = File> + AllocGlobal + Clone + Drop>(
    rt: &R,
    root: &str,
    folder: &mut OpenFolder<R>,
) -> Result<Looked, FoldFault> {
    let (listed, stand) = listed_and_stand(rt, root, folder)?;
    if seen_at(rt, root, &stand).is_some() {
        return Ok(Looked {
            acts: Vec::new(folder.alloc),
            edited: 0,
            passed_over: passed_over(listed, 0),
        });
    }
    Ok(told_of(found_at(folder, listed, Some(usize::MAX))?))
}

/// What is done, what was edited, and what was passed over.
fn told_of(found: Found) -> Looked {
    let Found { listed, sight, .. } = found;
    let Sight {
        scan,
        acts,
        edited,
        ..
    } = sight;
    Looked {
        acts,
        edited: edited.len(),
        passed_over: passed_over(listed, scan.unreadable),
    }
}

/// What is passed over, with so many names in the folders.
pub(crate) fn passed_over(listed: Listed, names: u64) -> PassedOver {
    let Listed { table, unreadable } = listed;
    PassedOver {
        layout: table.layout(),
        names: unreadable.saturating_add(names),
        folders: table.into_passed_over(),
    }
}

/// Looks at a folder with these folders.
fn found_at<R: Files<File = File> + AllocGlobal + Clone + Drop>(
    folder: &mut OpenFolder<R>,
    listed: Listed,
    most: Option<usize>,
) -> Result<Found, FoldFault> {
    let alloc = folder.alloc;
    let replica = folder.kept.replica();
    let (mails, left) = held_and_left(alloc, replica, &folder.shown)?;
    let tree = &mut folder.tree;
    let sight = seen(alloc, replica, tree, &listed.table, left, mails, most)?;
    let concerned = concerned_by(alloc, replica, &sight.acts, &sight.lacking)?;
    Ok(Found {
        listed,
        sight,
        concerned,
    })
}

/// The folders of these files, which lie so.
pub(crate) fn listed_at<R: Files<File = File> + AllocGlobal + Clone + Drop>(
    alloc: Global,
    tree: &mut DiskTree<R>,
    layout: Layout,
) -> Result<Listed, FoldFault> {
    match tree.folders(alloc) {
        Ok(found) => {
            let unreadable = found.unreadable;
            let table = FolderTable::of(alloc, layout, in_order(found.folders))?;
            Ok(Listed { table, unreadable })
        }
        Err(_) => Err(files_failed(tree.error())),
    }
}

/// The folders in the order of their paths, the Maildir itself first. So which of two with one label is taken is the same at each settling,
/// in whatever order the file system tells them.
fn in_order(folders: Vec<FolderPath>) -> Vec<FolderPath>
    ensures same { IsPermutation folders.items result.items }
    ensures sorted { IsSorted (slice_cmp nat_cmp) result.items }
{
    let mut folders = folders;
    folders.sort_unstable_by(|a, b| a.as_str().cmp(b.as_str()));
    folders
}

/// Tells what was seen, keeps it, and has the files stand as they are held.
fn settle_seen<R: Files<File = File> + AllocGlobal + Clone + Drop>(
    alloc: Global,
    kept: &mut Kept,
    tree: &mut DiskTree<R>,
    found: &Found,
    created: BTreeMap<Digest, Vec<MailFile>>,
) -> Result<(), SettleFault> {
    let acts = &found.sight.acts;
    let (moved, standing) = acts.split_at(found.sight.moved.min(acts.len()));
    let lacking = few(alloc, &found.concerned.lacking)?;
    let targets = targets_of(alloc, kept.replica(), moved, &found.concerned.held.mails)?;
    let (table, scan) = (&found.listed.table, &found.sight.scan);
    let mut files = DiskMails::new(alloc, tree, table, scan, created, &targets)?;
    let held = &found.concerned.held.items;
    let told = settle_in_parts(alloc, kept, &mut files, moved, standing, held, &lacking);
    drop(files);
    told
}

/// Has the folder know that all is shown, but for these items.
fn note_settled<R: Drop>(folder: &mut OpenFolder<R>, lacking: &[ItemId]) -> Result<(), FoldFault> {
    let entries = folder.kept.replica().feed().len();
    match few(folder.alloc, lacking) {
        Ok(lacking) => folder.shown = Shown::new(entries as u64, lacking),
        Err(fault) => return Err(fault.explained(None, None)),
    }
    Ok(())
}

/// Equal items, if they are as few as a note takes: fewer than 2^32.
fn few(alloc: Global, items: &[ItemId]) -> Result<Vec<ItemId>, SettleFault>
    ensures same { IfOk result (λ few. few.items ≡ items.now) }
    ensures few { IfOk result (λ few. length few.items < 2 ^ 32) }
{
    if items.len() > MAX_LACKING {
        return Err(SettleFault::Kept(KeptFault::TooLarge));
    }
    Ok(Vec::from_slice(alloc, items)?)
}

/// What a call of the store gave, or its fault with what the system said of the files.
pub(crate) fn said<T: Drop, R: Files<File = File> + AllocGlobal + Clone + Drop>(
    given: Result<T, StoreFault>,
    tree: &DiskTree<R>,
) -> Result<T, FoldFault> {
    match given {
        Ok(given) => Ok(given),
        Err(StoreFault::OutOfMemory) => Err(FoldFault::OutOfMemory),
        Err(StoreFault::Failed) => Err(files_failed(tree.error())),
    }
}
