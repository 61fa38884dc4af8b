//! Brings a Maildir and its replica together: what the user changed is told, and what was changed elsewhere is shown.
ghost use Rattle.std.specs.Prelude.{◌≡◌, ◌<◌, ◌^◌, ◌++◌, ◌⊎◌, [], All, IsTrue, List, true, length, OnErr, OnOk};
ghost use Rattle.mr_entry.specs.declared.entry.Entry.{Entry};
ghost use Rattle.mr_kept.specs.Kept.{IsKept, Noted, entries_waiting, journal_of, nothing_waits, replica_of};
ghost use Rattle.mr_compare.specs.declared.compare.MailAct.{MailAct};
ghost use Rattle.mr_fold.specs.Settling.{AddsAtOnce, AddsInParts, AddsInTurn, Leaves, Settles, Stay, TellsFirst};
ghost use Rattle.mr_fold.specs.Shown.{shown_note};
ghost use Rattle.mr_fold.specs.inner.Settling.{AddsWaiting};

use crate::fault::SettleFault;
use crate::shown::note_shown;
use crate::telling::tell;
use mr_compare::{Digest, ItemHeads, MailAct};
use mr_itemset::SparingKnowledge;
use mr_journal::Device;
use mr_kept::Journaled;
use mr_mail::Message;
use mr_version::ItemId;
use std::alloc::Global;
use std::collections::BTreeMap;

/// The files of a folder, as far as a settling asks for them.
pub trait MailFiles {
    /// Whether what was shown is on the disk, so that no crash takes it back.
    ghost are_synced: { Self → Type 0 };

    /// Whether the mail's files were made to stand as the act says. Of a real disk no clause can say it, so there it says nothing.
    ghost is_shown: { Self → MailAct → Type 0 };

    /// The message of a new mail, as it is seen: its body refers to the file, which is in the store. No file is moved for it.
    fn new_message(&mut self, alloc: Global, digest: &Digest) -> Result<Message, SettleFault>
        ensures stay { Stay are_synced is_shown self.old self.new };

    /// Has the mail's files stand as the act says. It may be cut off at any moment: the next settling goes on.
    fn show(&mut self, alloc: Global, mail: &MailAct) -> Result<(), SettleFault>
        ensures shown { OnOk result (is_shown self.new mail.now) }
        ensures others { (other : MailAct) → is_shown self.old other → is_shown self.new other };

    /// Has what was shown on the disk. No file is moved for it.
    fn sync(&mut self, alloc: Global) -> Result<(), SettleFault>
        ensures synced { OnOk result (are_synced self.new) }
        ensures stay { Stay are_synced is_shown self.old self.new };
}

/// How many mails [`settle_in_parts`] tells in one commit, of those for which no file has to be moved: what waits for a commit is in memory.
pub const MAILS_AT_ONCE: usize = 32_768;

/// What is held of each mail, by its file's digest: the items that it is, by their heads.
pub type HeldItems = BTreeMap<Digest, Vec<ItemHeads>>;

/// Settles a folder: tells what the acts say that the user changed, has the files stand as the acts say, and notes that the whole feed is
/// shown, but for the items that lack their file; fewer than 2^32. The acts are those of [`mr_compare::acts_of`] in two parts: first
/// those for which files have to be moved, and then the others, whose files stand as they say already.
///
/// It is called between syncs, so that nothing is held back for one. For the first part what is told of it is kept before any file is moved,
/// and what is shown is on the disk before it is noted. What the user did with the others the first note leaves as it was: each of them
/// was held as it was left, or keeps all that the user changed. Then these are told, and that they are shown is noted in the same commit. So
/// none of their events is ever kept without a note: it would count as a change made elsewhere, and what the user does meanwhile would be
/// undone. Of an edit that moves files this isn't so, if the program is stopped between its two commits.
///
/// Whatever fails, and wherever the program is stopped, the next settling goes on. `NotHeld` where the first head of an item that is to be
/// edited isn't held, `TooManyFolders` where a mail stands in more than 16; then what was told before it waits for a commit.
pub fn settle<D: Device + Drop, F: MailFiles>(
    alloc: Global,
    kept: &mut Journaled<SparingKnowledge, D>,
    files: &mut F,
    moved: &[MailAct],
    standing: &[MailAct],
    held: &HeldItems,
    lacking: &[ItemId],
) -> Result<(), SettleFault>
    requires { length lacking.now < 2 ^ 32 }
    // Nothing waits, what was shown is on the disk, the log grew by what is told of the mails and by nothing else, and behind the notes that waited
    // the journal has the note that the whole feed is shown, with all that is told in it.
    ensures settles { OnOk result (Settles D.Device F.are_synced held.now.entries (moved.now ++ standing.now) lacking.now kept.old kept.new files.new) }
    // Where no file has to be moved, a crash at any moment leaves nothing of it in the journal, or all at once.
    ensures at_once { moved.now ≡ [] → Leaves D.Device kept.old kept.new (AddsAtOnce lacking.now) }
    // Where files have to be moved, what is told of these mails comes first, then the note that they are shown, and then the others.
    ensures moments { Leaves D.Device kept.old kept.new (AddsInTurn held.now.entries lacking.now moved.now standing.now) }
    // Each mail for which files have to be moved is shown.
    ensures shown { OnOk result (All (F.is_shown files.new) moved.now) }
    // What is told of them is kept before one is. The call that shows a mail may fail each time, so this holds at each moment at which files are moved.
    ensures told_first { TellsFirst D.Device F.are_synced held.now.entries moved.now kept.old kept.new files.old files.new }
    // Where no file has to be moved, none is.
    ensures stay { moved.now ≡ [] → Stay F.are_synced F.is_shown files.old files.new }
{
    if moved.is_empty() {
        return settle_standing(alloc, kept, files, standing, held, lacking);
    }
    settle_moved(alloc, kept, files, moved, held, lacking)?;
    if standing.is_empty() {
        return Ok(());
    }
    settle_standing(alloc, kept, files, standing, held, lacking)
}

/// As [`settle`], part by part, so that what waits for a commit takes no memory for each mail of a large folder: the first call of it has all mails for
/// which files have to be moved, and at most 32,768 of the others; each call behind it has as many of these, or those that are left.
///
/// So each of these calls keeps what is told of its mails at once, with a note that it is shown; of the mails behind it nothing is told yet, and the
/// next settling goes on with them.
pub fn settle_in_parts<D: Device + Drop, F: MailFiles>(
    alloc: Global,
    kept: &mut Journaled<SparingKnowledge, D>,
    files: &mut F,
    moved: &[MailAct],
    standing: &[MailAct],
    held: &HeldItems,
    lacking: &[ItemId],
) -> Result<(), SettleFault>
    requires { length lacking.now < 2 ^ 32 }
    ensures settles { OnOk result (Settles D.Device F.are_synced held.now.entries (moved.now ++ standing.now) lacking.now kept.old kept.new files.new) }
    // Where no file has to be moved, a crash at any moment leaves nothing of it in the journal, some first parts, each of them whole, or all.
    ensures in_parts { moved.now ≡ [] → Leaves D.Device kept.old kept.new (AddsInParts held.now.entries lacking.now standing.now) }
    // The others are those of `settle`.
    ensures moments { Leaves D.Device kept.old kept.new (AddsInTurn held.now.entries lacking.now moved.now standing.now) }
    ensures shown { OnOk result (All (F.is_shown files.new) moved.now) }
    ensures told_first { TellsFirst D.Device F.are_synced held.now.entries moved.now kept.old kept.new files.old files.new }
{
    let (first, after) = standing.split_at(standing.len().min(MAILS_AT_ONCE));
    settle(alloc, kept, files, moved, first, held, lacking)?;
    let mut rest = after;
    while !rest.is_empty() {
        let (part, after) = rest.split_at(rest.len().min(MAILS_AT_ONCE));
        settle(alloc, kept, files, &[], part, held, lacking)?;
        rest = after;
    }
    Ok(())
}

/// Settles mails whose files have to be moved: tells what the user changed, keeps it, has the files stand as the acts say, and notes that
/// they do.
fn settle_moved<D: Device + Drop, F: MailFiles>(
    alloc: Global,
    kept: &mut Journaled<SparingKnowledge, D>,
    files: &mut F,
    moved: &[MailAct],
    held: &HeldItems,
    lacking: &[ItemId],
) -> Result<(), SettleFault>
    requires { length lacking.now < 2 ^ 32 }
    ensures settles { OnOk result (Settles D.Device F.are_synced held.now.entries moved.now lacking.now kept.old kept.new files.new) }
    // Whichever others are settled behind them.
    ensures moments { (others : List MailAct) → Leaves D.Device kept.old kept.new (AddsInTurn held.now.entries lacking.now moved.now others) }
    ensures shown { OnOk result (All (F.is_shown files.new) moved.now) }
    ensures told_first { TellsFirst D.Device F.are_synced held.now.entries moved.now kept.old kept.new files.old files.new }
{
    tell(alloc, kept, files, moved, held)?;
    commit(kept)?;
    show(alloc, kept, files, moved)?;
    note(alloc, kept, files, lacking)?;
    commit(kept)
}

/// Settles mails whose files stand as they are told: tells what the user changed, and notes that it is shown, in one commit with all that
/// waits.
fn settle_standing<D: Device + Drop, F: MailFiles>(
    alloc: Global,
    kept: &mut Journaled<SparingKnowledge, D>,
    files: &mut F,
    standing: &[MailAct],
    held: &HeldItems,
    lacking: &[ItemId],
) -> Result<(), SettleFault>
    requires { length lacking.now < 2 ^ 32 }
    ensures settles { OnOk result (Settles D.Device F.are_synced held.now.entries standing.now lacking.now kept.old kept.new files.new) }
    ensures at_once { Leaves D.Device kept.old kept.new (AddsAtOnce lacking.now) }
    ensures stay { Stay F.are_synced F.is_shown files.old files.new }
{
    tell(alloc, kept, files, standing, held)?;
    note(alloc, kept, files, lacking)?;
    commit(kept)
}

/// Keeps all that waits. What is handed out for it are the versions that were issued, and goes nowhere.
fn commit<D: Device + Drop>(kept: &mut Journaled<SparingKnowledge, D>) -> Result<(), SettleFault>
    ensures all_kept { OnOk result (nothing_waits kept.new ≡ true) }
    ensures replica { replica_of kept.new ≡ replica_of kept.old }
    ensures any_moment { Leaves D.Device kept.old kept.new AddsWaiting }
    ensures kept { IsTrue D.is_told → (entries : List Entry) → IsKept D.seen D.may_leave entries kept.old
        → OnOk result (IsKept D.seen D.may_leave (entries ++ entries_waiting kept.old) kept.new) }
{
    match kept.commit() {
        Ok(_replies) => Ok(()),
        Err(fault) => Err(SettleFault::Kept(fault)),
    }
}

/// Has the files stand as the acts say, now that all that was told is kept.
fn show<D: Device + Drop, F: MailFiles>(
    alloc: Global,
    kept: &Journaled<SparingKnowledge, D>,
    files: &mut F,
    acts: &[MailAct],
) -> Result<(), SettleFault>
    requires { nothing_waits kept.now ≡ true }
    ensures { OnOk result (All (F.is_shown files.new) acts.now) }
{
    // the replica is lent for what is required of it: all is kept
    let _is_kept = kept.is_kept();
    for act in acts {
        files.show(alloc, act)?;
    }
    Ok(())
}

/// Has what was shown on the disk, and then a note of it wait.
fn note<D: Device + Drop, F: MailFiles>(
    alloc: Global,
    kept: &mut Journaled<SparingKnowledge, D>,
    files: &mut F,
    lacking: &[ItemId],
) -> Result<(), SettleFault>
    requires { length lacking.now < 2 ^ 32 }
    ensures all_synced { OnOk result (F.are_synced files.new) }
    ensures noted { OnOk result (Noted (shown_note (length (replica_of kept.old).feed) lacking.now) kept.old kept.new) }
    ensures journal { journal_of kept.new ≡ journal_of kept.old }
    ensures stay { Stay F.are_synced F.is_shown files.old files.new }
    // Before what was shown is on the disk nothing is noted.
    ensures failed { OnErr result (F.are_synced files.new ⊎ (kept.new ≡ kept.old)) }
{
    files.sync(alloc)?;
    let lacking = Vec::from_slice(alloc, lacking)?;
    note_shown(alloc, kept, lacking)?;
    Ok(())
}
