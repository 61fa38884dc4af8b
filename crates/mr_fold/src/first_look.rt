//! What one scan says, and what is done for it as if no folder had changed meanwhile. Each mail is looked at alone, so that it takes no memory for how all
//! of them are seen.
use crate::fold_fault::FoldFault;
use crate::released::with_released;
use crate::sides::{left_view, view_seen};
use crate::targets::held_mail;
use mr_compare::{Digest, HeldMail, LeftMail, MailAct, Sides, acts_of};
use mr_itemset::SparingKnowledge;
use mr_replica::Replica;
use mr_scan::Scan;
use std::alloc::{AllocError, Global};
use std::collections::{BTreeMap, BTreeSet};
use std::slice;

/// What one scan says.
#[derive(Drop)]
pub(crate) struct FirstLook {
    /// What is known of the mails beside what is held and what is seen of them: it has no mail as seen.
    pub(crate) sides: Sides,
    /// What is done for the mails, however many it deletes.
    pub(crate) acts: Vec<MailAct>,
}

/// What one scan says of the mails that are held, in rising order of their digests, and of the others, as some were left so and some lack their
/// files.
pub(crate) fn first_look(
    alloc: Global,
    replica: &Replica<SparingKnowledge>,
    left: BTreeMap<Digest, LeftMail>,
    mails: &[HeldMail],
    scan: &Scan,
    lacking: BTreeSet<Digest>,
) -> Result<FirstLook, FoldFault> {
    let others = others_of(alloc, mails, &left, scan)?;
    let left = with_released(alloc, replica, &others, left, scan)?;
    let mut sides = Sides {
        left,
        seen: BTreeMap::new(alloc),
        seen_before: None,
        are_quiet: true,
        lacking,
    };
    let acts = all_acts(alloc, mails, &others, scan, &mut sides)?;
    Ok(FirstLook { sides, acts })
}

/// The mails that are seen or were left and aren't held, in rising order of their digests.
fn others_of(
    alloc: Global,
    mails: &[HeldMail],
    left: &BTreeMap<Digest, LeftMail>,
    scan: &Scan,
) -> Result<Vec<Digest>, AllocError> {
    let mut others = Vec::new(alloc);
    push_seen(&mut others, mails, scan)?;
    push_left(&mut others, mails, left, scan)?;
    others.sort_unstable();
    Ok(others)
}

/// Puts the mails behind the others that are seen and aren't held.
fn push_seen(others: &mut Vec<Digest>, mails: &[HeldMail], scan: &Scan) -> Result<(), AllocError> {
    for digest in scan.mails.keys() {
        if held_mail(mails, digest).is_none() {
            others.push(*digest)?;
        }
    }
    Ok(())
}

/// Puts the mails behind the others that were left and are neither held nor seen.
fn push_left(
    others: &mut Vec<Digest>,
    mails: &[HeldMail],
    left: &BTreeMap<Digest, LeftMail>,
    scan: &Scan,
) -> Result<(), AllocError> {
    for digest in left.keys() {
        if held_mail(mails, digest).is_none() && !scan.mails.contains_key(digest) {
            others.push(*digest)?;
        }
    }
    Ok(())
}

/// What is done for the mails that are held and for these others. It leaves the sides without what is seen.
fn all_acts(
    alloc: Global,
    mails: &[HeldMail],
    others: &[Digest],
    scan: &Scan,
    sides: &mut Sides,
) -> Result<Vec<MailAct>, FoldFault> {
    let mut acts = Vec::new(alloc);
    push_held(alloc, &mut acts, mails, scan, sides)?;
    push_unheld(alloc, &mut acts, others, scan, sides)?;
    sides.seen.clear();
    Ok(acts)
}

/// Puts what is done for mails that are held behind the others.
fn push_held(
    alloc: Global,
    acts: &mut Vec<MailAct>,
    mails: &[HeldMail],
    scan: &Scan,
    sides: &mut Sides,
) -> Result<(), FoldFault> {
    for mail in mails {
        see(alloc, sides, &mail.digest, Some(mail), scan)?;
        let mut own = acts_of(alloc, slice::from_ref(mail), &[], sides, usize::MAX)?;
        acts.append(&mut own)?;
    }
    Ok(())
}

/// Puts what is done for mails that aren't held behind the others.
fn push_unheld(
    alloc: Global,
    acts: &mut Vec<MailAct>,
    others: &[Digest],
    scan: &Scan,
    sides: &mut Sides,
) -> Result<(), FoldFault> {
    for digest in others {
        see(alloc, sides, digest, None, scan)?;
        let mut own = acts_of(alloc, &[], slice::from_ref(digest), sides, usize::MAX)?;
        acts.append(&mut own)?;
    }
    Ok(())
}

/// Has the sides tell how this mail is seen, and nothing of what else is.
fn see(
    alloc: Global,
    sides: &mut Sides,
    digest: &Digest,
    held: Option<&HeldMail>,
    scan: &Scan,
) -> Result<(), AllocError> {
    let view = view_seen(alloc, scan, digest, left_view(digest, &sides.left, held))?;
    sides.seen.clear();
    if let Some(view) = view {
        sides.seen.insert(*digest, view)?;
    }
    Ok(())
}
