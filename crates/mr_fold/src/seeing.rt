//! What scans of a folder show, and what is done for it. What real files take and give no contract says, so what is here is tested only.

use crate::deciding::{Decided, decide};
use crate::first_look::{FirstLook, first_look};
use crate::fold_fault::FoldFault;
use crate::held_side::{HeldSide, LeftSide, held_items};
use crate::lacking::{missing_mails, remove_stored};
use crate::looking::said;
use crate::parting::{created_files, moved_first};
use crate::sides::{sides_of, take_away};
use crate::straying::stray_mails;
use mr_compare::{Digest, HeldMail, MailAct, Sides, acts_of, most_deletions, tally_of};
use mr_folder::DiskTree;
use mr_itemset::SparingKnowledge;
use mr_maildir::MailFile;
use mr_replica::Replica;
use mr_scan::{FolderTable, Index, Indexed, Scan, index_of, mails_passed_over, scan};
use std::alloc::{AllocError, Global};
use std::collections::{BTreeMap, BTreeSet};
use std::fs::File;
use std::mem;
use std::rt::Files;

/// What was seen, and what is done for it.
#[derive(Drop)]
pub(crate) struct Sight {
    /// The last scan. Where no file has to be moved, it has no mail any more.
    pub(crate) scan: Scan,
    /// Where no file has to be moved, the files that the scan had of the mails that are new.
    pub(crate) created: BTreeMap<Digest, Vec<MailFile>>,
    /// First those for which files have to be moved, and then the others.
    pub(crate) acts: Vec<MailAct>,
    /// How many the first ones are.
    pub(crate) moved: usize,
    /// The held mails whose files aren't here.
    pub(crate) lacking: BTreeSet<Digest>,
    /// The mails that were edited in place.
    pub(crate) edited: Vec<Digest>,
    /// The inodes of the store's files, and their sizes, as they were found before the scans, if each file of the folders is one of these.
    pub(crate) sizes: Option<Vec<(u64, u64)>>,
}

/// What was seen at the first scan, and what it says.
#[derive(Drop)]
struct SeenOnce {
    index: Index,
    /// The mails that were edited in place.
    edited: Vec<Digest>,
    scan: Scan,
    look: FirstLook,
}

/// Scans the folders, twice where something would be taken away, and finds what is done.
pub(crate) fn seen<R: Files<File = File> + AllocGlobal + Clone + Drop>(
    alloc: Global,
    replica: &Replica<SparingKnowledge>,
    tree: &mut DiskTree<R>,
    table: &FolderTable,
    left: LeftSide,
    mails: Vec<HeldMail>,
    most: Option<usize>,
) -> Result<Sight, FoldFault> {
    let once = seen_once(alloc, replica, tree, table, left, &mails)?;
    if take_away(&once.look.acts, &mails) {
        return seen_twice(alloc, replica, tree, table, once, mails, most);
    }
    drop(mails);
    Ok(sight_once(alloc, once)?)
}

/// Scans the folders, and finds what is done as far as one scan says. Which mails lack their files is found before, while there is no scan in
/// memory; the scan may take in some of these.
fn seen_once<R: Files<File = File> + AllocGlobal + Clone + Drop>(
    alloc: Global,
    replica: &Replica<SparingKnowledge>,
    tree: &mut DiskTree<R>,
    table: &FolderTable,
    left: LeftSide,
    mails: &[HeldMail],
) -> Result<SeenOnce, FoldFault> {
    let LeftSide { mails: left, sizes } = left;
    let indexed = said(index_of(alloc, tree, &sizes), tree)?;
    drop(sizes);
    let Indexed { mut index, edited } = indexed;
    let (scan, lacking) = scan_and_lacking(alloc, tree, table, &mut index, mails)?;
    let look = first_look(alloc, replica, left, mails, &scan, lacking)?;
    Ok(SeenOnce {
        index,
        edited,
        scan,
        look,
    })
}

/// Scans the folders, and finds which of these mails lack their files.
fn scan_and_lacking<R: Files<File = File> + AllocGlobal + Clone + Drop>(
    alloc: Global,
    tree: &mut DiskTree<R>,
    table: &FolderTable,
    index: &mut Index,
    mails: &[HeldMail],
) -> Result<(Scan, BTreeSet<Digest>), FoldFault> {
    let mut lacking = missing_mails(alloc, mails, index)?;
    let scan = said(scan(alloc, tree, table, index), tree)?;
    remove_stored(&mut lacking, index);
    Ok((scan, lacking))
}

/// What was seen at one scan, and what is done for it.
fn sight_once(alloc: Global, once: SeenOnce) -> Result<Sight, AllocError> {
    let SeenOnce {
        index,
        edited,
        scan,
        look,
    } = once;
    let FirstLook { sides, acts } = look;
    let sizes = sizes_of(alloc, &index, &scan)?;
    drop(index);
    sight_of(alloc, sides, scan, acts, edited, sizes)
}

/// Scans the folders once more, and finds what is done for what both scans say.
fn seen_twice<R: Files<File = File> + AllocGlobal + Clone + Drop>(
    alloc: Global,
    replica: &Replica<SparingKnowledge>,
    tree: &mut DiskTree<R>,
    table: &FolderTable,
    once: SeenOnce,
    mails: Vec<HeldMail>,
    most: Option<usize>,
) -> Result<Sight, FoldFault> {
    let sizes = sizes_of(alloc, &once.index, &once.scan)?;
    let SeenOnce {
        mut index,
        edited,
        scan,
        look,
    } = once;
    let (sides, first, held) = found_so_far(alloc, replica, &index, scan, look, mails)?;
    let twice = scanned_again(alloc, tree, table, &mut index, sides, held, &first, most)?;
    drop(index);
    let (scan, decided) = twice;
    let Decided { sides, acts, .. } = decided;
    Ok(sight_of(alloc, sides, scan, acts, edited, sizes)?)
}

/// What the first scan says of all mails, that scan, and what is held. The files that it saw are let go before the items are in memory.
fn found_so_far(
    alloc: Global,
    replica: &Replica<SparingKnowledge>,
    index: &Index,
    scan: Scan,
    look: FirstLook,
    mails: Vec<HeldMail>,
) -> Result<(Sides, Scan, HeldSide), AllocError> {
    let sides = sides_once(alloc, look, &mails, &scan, index)?;
    let mut first = scan;
    first.mails.clear();
    let items = held_items(alloc, replica)?;
    Ok((sides, first, HeldSide { items, mails }))
}

/// Scans the folders once more, of which the first scan says this, and finds what is done for what both scans say.
fn scanned_again<R: Files<File = File> + AllocGlobal + Clone + Drop>(
    alloc: Global,
    tree: &mut DiskTree<R>,
    table: &FolderTable,
    index: &mut Index,
    sides: Sides,
    held: HeldSide,
    first: &Scan,
    most: Option<usize>,
) -> Result<(Scan, Decided), FoldFault> {
    let scan = said(scan(alloc, tree, table, index), tree)?;
    let decided = decide(alloc, sides, &held, first, &scan, index)?;
    check_allowed(alloc, tree, table, index, &held, &decided, most)?;
    Ok((scan, decided))
}

/// What the first scan says of all mails.
fn sides_once(
    alloc: Global,
    look: FirstLook,
    mails: &[HeldMail],
    scan: &Scan,
    index: &Index,
) -> Result<Sides, AllocError> {
    let FirstLook { sides, .. } = look;
    let Sides { left, .. } = sides;
    sides_of(alloc, left, None, true, mails, scan, index)
}

/// The inodes of the store's files, and their sizes, as they were before the scan, if each file of the folders is one of these: then it added none.
fn sizes_of(
    alloc: Global,
    index: &Index,
    scan: &Scan,
) -> Result<Option<Vec<(u64, u64)>>, AllocError> {
    if scan.adopted != 0 {
        return Ok(None);
    }
    let mut sizes = Vec::with_capacity(alloc, index.len())?;
    for (inode, stored) in index.iter() {
        sizes.push((*inode, stored.size))?;
    }
    Ok(Some(sizes))
}

/// What was seen, and what is done for it.
fn sight_of(
    alloc: Global,
    sides: Sides,
    scan: Scan,
    acts: Vec<MailAct>,
    edited: Vec<Digest>,
    sizes: Option<Vec<(u64, u64)>>,
) -> Result<Sight, AllocError> {
    let lacking = lacking_of(sides);
    let (acts, moved) = moved_first(alloc, acts, &scan, &lacking)?;
    let (scan, created) = files_for(alloc, scan, &acts, moved)?;
    Ok(Sight {
        scan,
        created,
        acts,
        moved,
        lacking,
        edited,
        sizes,
    })
}

/// The held mails whose files aren't here.
fn lacking_of(sides: Sides) -> BTreeSet<Digest> {
    sides.lacking
}

/// The scan, and the files of new mails, if no file has to be moved: then the scan needs none.
fn files_for(
    alloc: Global,
    scan: Scan,
    acts: &[MailAct],
    moved: usize,
) -> Result<(Scan, BTreeMap<Digest, Vec<MailFile>>), AllocError> {
    if moved != 0 {
        return Ok((scan, BTreeMap::new(alloc)));
    }
    let mut scan = scan;
    let mails = mem::replace(&mut scan.mails, BTreeMap::new(alloc));
    let created = created_files(alloc, mails, acts)?;
    Ok((scan, created))
}

/// Refuses what is done then, where it would delete a mail that lies in a folder that is passed over, or too many mails.
fn check_allowed<R: Files<File = File> + AllocGlobal + Clone + Drop>(
    alloc: Global,
    tree: &mut DiskTree<R>,
    table: &FolderTable,
    index: &Index,
    held: &HeldSide,
    decided: &Decided,
    most: Option<usize>,
) -> Result<(), FoldFault> {
    if tally_of(&decided.acts).deleted == 0 {
        return Ok(());
    }
    let places = said(mails_passed_over(alloc, tree, table, index), tree)?;
    let acts = &decided.acts;
    let strays = stray_mails(alloc, table.layout(), table.passed_over(), acts, &places)?;
    drop(places);
    if let Some(mails) = strays {
        return Err(FoldFault::PassedOver(mails));
    }
    let most = most.unwrap_or(most_deletions(held.mails.len()));
    // where they aren't too many, these are the same acts again
    acts_of(alloc, &held.mails, &decided.others, &decided.sides, most)?;
    Ok(())
}
