//! What is done with a folder after a talk.
use crate::fault::Fault;
use crate::tallies::nothing;
use mr_compare::{FolderNote, Meeting, Tally};
use mr_entry::Note;
use mr_fold::{FoldFault, Kept, OpenFolder, Settled, settle_folder, sweep_folder};
use mr_kept::KeptFault;
use mr_sync::Summary;
use std::fs::File;
use std::rt::Files;

/// What a talk came to.
#[derive(Clone, Copy, Debug)]
pub struct Talked {
    pub summary: Summary,
    /// The meeting, where the talk came to its end and something was told.
    pub meeting: Option<Meeting>,
    /// Whether it came to its end.
    pub is_whole: bool,
    /// How many changes of its push-outs the replica had told before it.
    pub push_outs_told: usize,
}

impl Talked {
    /// A talk for which the folder wasn't opened, and whether it came to its end.
    pub fn closed(is_whole: bool) -> Talked {
        Talked {
            summary: Summary::new(),
            meeting: None,
            is_whole,
            push_outs_told: 0,
        }
    }
}

/// What was done after a talk.
#[derive(Clone, Copy, Debug, PartialEq, Eq)]
pub struct After {
    pub tally: Tally,
    /// How many mails were found that had been edited in place.
    pub edited: usize,
}

/// Shows what came, and notes the meeting. Where nothing could come nothing is done, and where nothing came that has to be shown nothing is looked
/// at, unless the folder is fresh.
///
/// Files that no held mail names go, but not where the talk was cut off: they may be those of records that didn't come any more.
pub fn shown<R: Files<File = File> + AllocGlobal + Clone + Drop>(
    folder: &mut OpenFolder<R>,
    talked: &Talked,
    is_fresh: bool,
) -> Result<After, Fault> {
    if talked.summary.is_idle && !is_fresh {
        return Ok(nothing_shown());
    }
    keep_taken(folder)?;
    if let Some(meeting) = talked.meeting {
        note_meeting(folder, meeting)?;
    }
    if !is_fresh && shows_all(folder, talked) {
        return Ok(nothing_shown());
    }
    let Settled { tally, edited, .. } = settle_folder(folder, None)?;
    if talked.is_whole {
        sweep_folder(folder)?;
    }
    Ok(After { tally, edited })
}

/// Keeps the records that came and wait for that, as they may where the talk was cut off.
fn keep_taken<R>(folder: &mut OpenFolder<R>) -> Result<(), Fault>
where
    R: Files<File = File> + AllocGlobal + Clone + Drop,
{
    if folder.kept.is_kept() {
        return Ok(());
    }
    match folder.kept.commit() {
        Ok(_said) => Ok(()),
        Err(fault) => Err(explained(&folder.kept, fault)),
    }
}

/// Nothing was done.
fn nothing_shown() -> After {
    After {
        tally: nothing(),
        edited: 0,
    }
}

/// Whether nothing that the talk brought is to be shown: the feed is as it was shown, no file came, and no version has come to wait for a receipt
/// or waits no more, be it that one came or what supersedes it, which the push-out feed tells.
fn shows_all<R: Drop>(folder: &OpenFolder<R>, talked: &Talked) -> bool {
    let replica = folder.kept.replica();
    talked.summary.files_came == 0
        && replica.push_out_feed().len() == talked.push_outs_told
        && replica.feed().len() as u64 == folder.shown.entries()
}

/// Notes the meeting in the journal.
fn note_meeting<R>(folder: &mut OpenFolder<R>, meeting: Meeting) -> Result<(), Fault> {
    let note = FolderNote::Met(meeting);
    let bytes = note.write(folder.alloc)?;
    let kept = keep_note(&mut folder.kept, Note::new(note.kind(), bytes));
    kept.map_err(|fault| explained(&folder.kept, fault))
}

/// Keeps a note.
fn keep_note(kept: &mut Kept, note: Note) -> Result<(), KeptFault> {
    kept.note(note)?;
    kept.commit()?;
    Ok(())
}

/// The fault, with what the system said of the journal.
fn explained(kept: &Kept, fault: KeptFault) -> Fault {
    let said = kept.journal().device().error();
    Fault::Folder(FoldFault::Journal(fault.explained(said)))
}
