//! What the notes of a folder's journal tell.
ghost use Rattle.std.specs.Prelude.{◌≡◌, ℕ, IfOk, OnOk};
ghost use Rattle.mr_fold.specs.State.{shown_by, shown_with, met_by, met_with, meeting_at};

use mr_compare::{FolderNote, Meeting, Shown, read_note};
use mr_entry::Note;
use std::alloc::{AllocError, Global};
use std::collections::BTreeMap;

/// How far the Maildir shows the feed, as the last note of it tells. Where no note tells it, nothing is shown.
pub fn shown_of(alloc: Global, notes: &[Note]) -> Result<Shown, AllocError>
    ensures { IfOk result (λ shown. shown ≡ shown_by notes.now) }
{
    let mut shown = Shown::new(0, Vec::new(alloc));
    for note in notes {
        let read = read_note(alloc, note.kind(), note.bytes())?;
        shown = newer(shown, read);
    }
    Ok(shown)
}

/// What the note tells of what is shown, or else what was told before.
fn newer(shown: Shown, read: Option<FolderNote>) -> Shown
    ensures { result ≡ shown_with shown read }
{
    match read {
        Some(FolderNote::Shown(newer)) => newer,
        _ => shown,
    }
}

/// The last meeting with each replica, by its id.
pub fn meetings_of(alloc: Global, notes: &[Note]) -> Result<BTreeMap<u16, Meeting>, AllocError>
    ensures { IfOk result (λ meetings. (id : ℕ) → meeting_at meetings.entries id ≡ met_by notes.now id) }
{
    let mut meetings = BTreeMap::new(alloc);
    for note in notes {
        let read = read_note(alloc, note.kind(), note.bytes())?;
        meet(&mut meetings, &read)?;
    }
    Ok(meetings)
}

/// Notes a meeting, if that is what was read.
fn meet(meetings: &mut BTreeMap<u16, Meeting>, read: &Option<FolderNote>) -> Result<(), AllocError>
    ensures { OnOk result ((id : ℕ) → meeting_at meetings.new.entries id ≡ met_with (meeting_at meetings.old.entries id) read.now id) }
{
    match read {
        Some(FolderNote::Met(meeting)) => {
            meetings.insert(meeting.id.id(), *meeting)?;
            Ok(())
        }
        _ => Ok(()),
    }
}
