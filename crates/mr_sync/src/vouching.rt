//! Receipts that are given.
ghost use Rattle.std.specs.Prelude.{◌≡◌, ◌++◌, ◌||◌, false, All, IsTrue, IfOk, OnOk, map};
ghost use Rattle.std.specs.BTreeMap.{get};
ghost use Rattle.mr_folder.specs.Tree.{IsUntouched};
ghost use Rattle.mr_kept.specs.Kept.{replica_of};
ghost use Rattle.mr_replica.specs.declared.event.Event.TheVariants as event;
ghost use Rattle.mr_version.specs.Name.{name_cmp};
ghost use Rattle.mr_sync.specs.Taken.{GrowsOnlyBy, with_waiting};
ghost use Rattle.mr_sync.specs.inner.Vouching.{AddsAnswer, GivesReceipt, HasItsFile, IsVouchOf, IsVouchedFor, is_answer};

use crate::fault::SyncFault;
use crate::lists::PushOut;
use crate::named::needed_file;
use mr_folder::{FileTree, keep_mail};
use mr_itemset::SparingKnowledge;
use mr_journal::Device;
use mr_kept::Journaled;
use mr_replica::Revision;
use mr_version::{ItemId, Version};
use std::alloc::{AllocError, Global};
use std::collections::BTreeMap;

/// What waits for a receipt at the other side: the version of each item.
pub(crate) type Waiting = BTreeMap<ItemId, Version>;

/// Notes what waits at the other side. Of several versions of an item the last counts.
pub(crate) fn note_waiting(waiting: &mut Waiting, list: &[PushOut]) -> Result<(), AllocError>
    ensures { OnOk result (waiting.new.entries ≡ with_waiting waiting.old.entries list.now) }
{
    for one in list {
        waiting.insert(one.item, one.version)?;
    }
    Ok(())
}

/// Gives a receipt for each head that is, or supersedes, what waits at the other side, and whose file the store has, if it needs one: whole, as
/// it is read now, and on the disk. What gets its receipt waits no more. The receipts are handed out by the next commit; it tells how many.
///
/// It reads the file of each such head.
pub(crate) fn vouch_held<D: Device + Drop, F: FileTree>(
    alloc: Global,
    kept: &mut Journaled<SparingKnowledge, D>,
    files: &mut F,
    waiting: &mut Waiting,
) -> Result<u64, SyncFault>
    ensures log { IsTrue F.is_told → GrowsOnlyBy (GivesReceipt F.seen F.may_leave (replica_of kept.old).heads waiting.old files.new) (replica_of kept.old).log (replica_of kept.new).log }
    ensures files { IsTrue F.is_told → IsUntouched F.seen F.may_leave F.moment F.left_since files.old files.new }
{
    if waiting.is_empty() {
        return Ok(0);
    }
    let heads = answers(alloc, kept.replica().heads(), files, waiting)?;
    vouch_all(kept, &heads)?;
    for head in &heads {
        // the digest that it waited for is needed no more
        let _ = waiting.remove(&head.item);
    }
    Ok(heads.len() as u64)
}

/// The heads that answer what waits, with their files here.
fn answers<F: FileTree>(
    alloc: Global,
    heads: &[Revision],
    files: &mut F,
    waiting: &Waiting,
) -> Result<Vec<PushOut>, SyncFault>
    ensures heads { IsTrue F.is_told → IfOk result (λ found. All (λ p. IsVouchedFor F.seen F.may_leave heads.now waiting.now files.new p.version) found.items) }
    ensures untouched { IsTrue F.is_told → IsUntouched F.seen F.may_leave F.moment F.left_since files.old files.new }
{
    let mut out = Vec::new(alloc);
    for head in heads {
        push_answer(alloc, head, files, waiting, &mut out)?;
    }
    Ok(out)
}

/// Appends the head, if it answers what waits and its file is here.
fn push_answer<F: FileTree>(
    alloc: Global,
    head: &Revision,
    files: &mut F,
    waiting: &Waiting,
    out: &mut Vec<PushOut>,
) -> Result<(), SyncFault>
    ensures one { IsTrue F.is_told → OnOk result (AddsAnswer F.seen F.may_leave head.now waiting.now files.new out.old.items out.new.items) }
    ensures untouched { IsTrue F.is_told → IsUntouched F.seen F.may_leave F.moment F.left_since files.old files.new }
{
    if !is_answer(waiting, head) {
        return Ok(());
    }
    if !is_whole(alloc, files, head)? {
        return Ok(());
    }
    out.push(PushOut {
        item: head.item(),
        version: head.version(),
    })?;
    Ok(())
}

/// Whether the head is, or supersedes, what waits of its item.
fn is_answer(waiting: &Waiting, head: &Revision) -> bool
    ensures { result ≡ is_answer (get name_cmp waiting.now head.now.item) head.now }
{
    match waiting.get(&head.item()) {
        Some(version) => head.version() == *version || head.supersedes(*version),
        None => false,
    }
}

/// Whether the store has the file that the head names, if it names one and its mail isn't gone: whole, as it is read now, and on the disk.
fn is_whole<F: FileTree>(alloc: Global, files: &mut F, head: &Revision) -> Result<bool, SyncFault>
    ensures whole { IsTrue F.is_told → IfOk result (λ whole. IsTrue whole → HasItsFile F.seen F.may_leave head.now files.new) }
    ensures untouched { IsTrue F.is_told → IsUntouched F.seen F.may_leave F.moment F.left_since files.old files.new }
{
    match needed_file(head.message()) {
        Some(digest) => Ok(keep_mail(alloc, files, &digest)?),
        None => Ok(true),
    }
}

/// Gives a receipt for each of these heads.
fn vouch_all<D: Device + Drop>(
    kept: &mut Journaled<SparingKnowledge, D>,
    heads: &[PushOut],
) -> Result<(), SyncFault>
    ensures all { OnOk result ((replica_of kept.new).log ≡ (replica_of kept.old).log ++ map (λ p. event.Vouch p.version) heads.now) }
    ensures grows { GrowsOnlyBy (IsVouchOf heads.now) (replica_of kept.old).log (replica_of kept.new).log }
{
    for head in heads {
        kept.vouch(head.version)?;
    }
    Ok(())
}
