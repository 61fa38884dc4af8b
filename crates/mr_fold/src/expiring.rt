//! Files are let go: those of no held mail, and those of deleted mail.
ghost use Rattle.std.specs.Prelude.{◌≡◌, ◌++◌, ◌||◌, ℕ, List, IfOk, OnOk, count_by, filter};
ghost use Rattle.std.specs.Cmp.Lexicographic.{slice_cmp};
ghost use Rattle.std.specs.List.{list_any};
ghost use Rattle.std.specs.List.Sorted.{IsPermutation, IsSorted};
ghost use Rattle.std.specs.Ordering.{is_eq, nat_cmp};
ghost use Rattle.mr_mail.specs.Label.{text_cmp};
ghost use Rattle.mr_compare.specs.Held.{AreRead};
ghost use Rattle.mr_fold.specs.Expiring.{AreNeeded, is_needed};
ghost use Rattle.mr_fold.specs.inner.Expiring.{is_gone_among};
ghost use Rattle.mr_fold.specs.Lacking.{has_digest};

use crate::fold_fault::FoldFault;
use crate::lacking::insert_unless;
use crate::looking::said;
use crate::opening::OpenFolder;
use mr_compare::{Digest, Head, Held, MailItem, held_of};
use mr_folder::{stored, sweep};
use mr_itemset::SparingKnowledge;
use mr_replica::Replica;
use std::alloc::{AllocError, Global};
use std::collections::BTreeSet;
use std::fs::File;
use std::rt::Files;

/// The deleted mails whose files are in the store still, in the order of the store's names. No file is read.
///
/// A mail is deleted where each head and each push-out of it has it stand in no folder and count as deleted.
pub fn deleted_mails<R: Files<File = File> + AllocGlobal + Clone + Drop>(
    folder: &mut OpenFolder<R>,
) -> Result<Vec<Digest>, FoldFault> {
    let alloc = folder.alloc;
    let heads = heads_of(alloc, folder.kept.replica())?;
    let needed = needed_among(alloc, &heads)?;
    let gone = gone_among(alloc, &heads, &needed)?;
    let stored = stored_in(folder)?;
    Ok(among(alloc, &stored, &gone)?)
}

/// Takes the files out of the store that no held mail names. Files of the Maildir stay, and those that aren't told yet are taken
/// in again by the next settling. It is called between syncs, since a sync brings files before it is told what they are.
pub fn sweep_folder<R: Files<File = File> + AllocGlobal + Clone + Drop>(
    folder: &mut OpenFolder<R>,
) -> Result<(), FoldFault> {
    let held = held_digests(folder.alloc, folder.kept.replica())?;
    said(sweep(folder.alloc, &mut folder.tree, &held), &folder.tree)
}

/// The digests of what is held, sorted as a sweep wants them.
fn held_digests(
    alloc: Global,
    replica: &Replica<SparingKnowledge>,
) -> Result<Vec<Digest>, AllocError>
    ensures { IfOk result (λ digests. IsSorted (slice_cmp nat_cmp) digests.items) }
{
    let heads = heads_of(alloc, replica)?;
    let held = gone_among(alloc, &heads, &BTreeSet::new(alloc))?;
    sorted(alloc, &held)
}

/// Takes the files of deleted mail out of the store, but of these mails, and those that no held mail names: how many files of deleted mail
/// there were that went.
///
/// A mail is deleted as [`deleted_mails`] says; its revisions stay. Files of the
/// Maildir stay, and those that aren't told yet are taken in again by the next settling. It is called between syncs, as
/// [`sweep_folder`] is. Where another device takes the deletion back, the file comes with what it tells, or is lacking.
pub fn expire_folder<R: Files<File = File> + AllocGlobal + Clone + Drop>(
    folder: &mut OpenFolder<R>,
    spared: &[Digest],
) -> Result<u64, FoldFault> {
    let alloc = folder.alloc;
    let heads = heads_of(alloc, folder.kept.replica())?;
    let mut stays = needed_among(alloc, &heads)?;
    insert_all(&mut stays, spared)?;
    let gone = gone_among(alloc, &heads, &stays)?;
    let stored = stored_in(folder)?;
    let expired = count_among(&stored, &gone) as u64;
    let stays = sorted(alloc, &stays)?;
    said(sweep(alloc, &mut folder.tree, &stays), &folder.tree)?;
    Ok(expired)
}

/// The digests of the store's files.
fn stored_in<R: Files<File = File> + AllocGlobal + Clone + Drop>(
    folder: &mut OpenFolder<R>,
) -> Result<Vec<Digest>, FoldFault> {
    let stored = said(stored(folder.alloc, &mut folder.tree), &folder.tree)?;
    Ok(stored.digests)
}

/// Adds the digests to the set.
fn insert_all(digests: &mut BTreeSet<Digest>, more: &[Digest]) -> Result<(), AllocError>
    ensures { OnOk result ((digest : List ℕ) → has_digest digests.new.keys digest
        ≡ (has_digest digests.old.keys digest || list_any (λ (other : List ℕ). is_eq (text_cmp other digest)) more.now)) }
{
    for digest in more {
        insert_unless(digests, *digest, false)?;
    }
    Ok(())
}

/// Those of the digests that are among these mails, in their order.
fn among(
    alloc: Global,
    digests: &[Digest],
    mails: &BTreeSet<Digest>,
) -> Result<Vec<Digest>, AllocError>
    ensures { IfOk result (λ found. found.items ≡ filter (has_digest mails.now.keys) digests.now) }
{
    let mut found = Vec::new(alloc);
    for digest in digests {
        if mails.contains(digest) {
            found.push(*digest)?;
        }
    }
    Ok(found)
}

/// How many of the digests are among these mails.
fn count_among(digests: &[Digest], mails: &BTreeSet<Digest>) -> usize
    ensures { result ≡ count_by (has_digest mails.now.keys) digests.now }
{
    digests
        .iter()
        .filter(|digest| mails.contains(*digest))
        .count()
}

/// The mails whose files the replica needs: those that some head or push-out has stand otherwise than gone.
pub fn needed_mails(
    alloc: Global,
    replica: &Replica<SparingKnowledge>,
) -> Result<BTreeSet<Digest>, AllocError>
    ensures { IfOk result (λ needed. AreNeeded (replica.now.heads ++ replica.now.push_outs) needed.keys) }
{
    let heads = heads_of(alloc, replica)?;
    needed_among(alloc, &heads)
}

/// All heads and push-outs that are of a mail's file.
fn heads_of(
    alloc: Global,
    replica: &Replica<SparingKnowledge>,
) -> Result<Vec<(MailItem, Head)>, AllocError>
    ensures { IfOk result (λ heads. AreRead (replica.now.heads ++ replica.now.push_outs) heads.items) }
{
    let Held { heads, .. } = held_of(alloc, replica.heads(), replica.push_outs())?;
    Ok(heads)
}

/// The mails of which one of the heads isn't gone.
fn needed_among(alloc: Global, heads: &[(MailItem, Head)]) -> Result<BTreeSet<Digest>, AllocError>
    ensures { IfOk result (λ needed. (digest : List ℕ) → has_digest needed.keys digest ≡ is_needed heads.now digest) }
{
    let mut needed = BTreeSet::new(alloc);
    for (mail, head) in heads {
        insert_unless(&mut needed, mail.0, head.view.is_gone())?;
    }
    Ok(needed)
}

/// The mails that the heads are of, but for those that are needed.
fn gone_among(
    alloc: Global,
    heads: &[(MailItem, Head)],
    needed: &BTreeSet<Digest>,
) -> Result<BTreeSet<Digest>, AllocError>
    ensures { IfOk result (λ gone. (digest : List ℕ) → has_digest gone.keys digest ≡ is_gone_among heads.now needed.now.keys digest) }
{
    let mut gone = BTreeSet::new(alloc);
    for (mail, _) in heads {
        insert_unless(&mut gone, mail.0, needed.contains(&mail.0))?;
    }
    Ok(gone)
}

/// The digests, sorted as a sweep wants them.
fn sorted(alloc: Global, digests: &BTreeSet<Digest>) -> Result<Vec<Digest>, AllocError>
    ensures sorted { IfOk result (λ list. IsSorted (slice_cmp nat_cmp) list.items) }
    ensures same { IfOk result (λ list. IsPermutation digests.now.keys list.items) }
{
    let mut list = Vec::with_capacity(alloc, digests.len())?;
    for digest in digests {
        list.push(*digest)?;
    }
    list.sort_unstable();
    Ok(list)
}
