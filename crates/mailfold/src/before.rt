//! What is done with a folder before a talk.
use crate::fault::Fault;
use crate::mail_file::digest_of;
use crate::tallies::nothing;
use mr_compare::{Digest, Shown};
use mr_fold::{OpenFolder, Settled, look, settle_if_changed};
use mr_itemset::SparingKnowledge;
use mr_replica::{Replica, Revision};
use mr_version::ItemId;
use std::alloc::{AllocError, Global};
use std::collections::BTreeSet;
use std::fs::File;
use std::rt::Files;

/// Takes what other programs changed, of the folder at this path. A folder that is fresh is looked at alone: its files come into the store,
/// so that mail that the other side has too is known for the same when it comes.
pub fn scanned<R: Files<File = File> + AllocGlobal + Clone + Drop>(
    rt: &R,
    root: &str,
    folder: &mut OpenFolder<R>,
    is_fresh: bool,
) -> Result<Settled, Fault> {
    if is_fresh {
        let looked = look(folder)?;
        return Ok(Settled {
            tally: nothing(),
            edited: looked.edited,
            passed_over: looked.passed_over,
        });
    }
    Ok(settle_if_changed(rt, root, folder, None)?)
}

/// The mails whose files weren't here when the folder was settled last: the other side may have them.
pub fn lacking_mails(
    alloc: Global,
    replica: &Replica<SparingKnowledge>,
    shown: &Shown,
) -> Result<BTreeSet<Digest>, AllocError> {
    let items = items_of(alloc, shown.lacking())?;
    let mut mails = BTreeSet::new(alloc);
    put_mails(&mut mails, replica.heads(), &items)?;
    put_mails(&mut mails, replica.push_outs(), &items)?;
    Ok(mails)
}

fn items_of(alloc: Global, items: &[ItemId]) -> Result<BTreeSet<ItemId>, AllocError> {
    let mut set = BTreeSet::new(alloc);
    for item in items {
        set.insert(*item)?;
    }
    Ok(set)
}

/// Puts the mails of these items among the others.
fn put_mails(
    mails: &mut BTreeSet<Digest>,
    revisions: &[Revision],
    items: &BTreeSet<ItemId>,
) -> Result<(), AllocError> {
    for revision in revisions {
        if items.contains(&revision.item())
            && let Some(digest) = digest_of(revision)
        {
            mails.insert(digest)?;
        }
    }
    Ok(())
}
