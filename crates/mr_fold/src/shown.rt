//! The note of what the Maildir shows.
ghost use Rattle.std.specs.Prelude.{◌≡◌, ◌≢◌, ◌<◌, ◌^◌, IfErr, IfOk, OnErr, OnOk, length};
ghost use Rattle.mr_kept.specs.Answered.{IsUnnoted};
ghost use Rattle.mr_kept.specs.Kept.{Noted, SameJournal, journal_of, leaving, replica_of};
ghost use Rattle.mr_fold.specs.Shown.{shown_note};

use mr_compare::{FolderNote, Shown};
use mr_entry::Note;
use mr_itemset::SparingKnowledge;
use mr_journal::Device;
use mr_kept::{Journaled, KeptFault};
use mr_version::ItemId;
use std::alloc::Global;

/// Has a note wait that the Maildir shows the whole feed, but for these items, whose files aren't here yet; fewer than 2^32.
/// The next commit keeps it, behind the events that wait: of those the Maildir is to stand as they tell.
///
/// The faults are those of [`Journaled::note`]; then nothing has changed.
pub fn note_shown<D: Device + Drop>(
    alloc: Global,
    kept: &mut Journaled<SparingKnowledge, D>,
    lacking: Vec<ItemId>,
) -> Result<(), KeptFault>
    requires { length lacking.items < 2 ^ 32 }
    ensures noted { OnOk result (Noted (shown_note (length (replica_of kept.old).feed) lacking.items) kept.old kept.new) }
    // Memory may run out as the note is made, before the journal is asked whether it can keep it.
    ensures fault { IfErr result (λ fault. fault ≢ KeptFault.OutOfMemory → IsUnnoted (journal_of kept.old) (shown_note (length (replica_of kept.old).feed) lacking.items) fault) }
    ensures unchanged { OnErr result ((replica_of kept.new ≡ replica_of kept.old) × (leaving kept.new ≡ leaving kept.old) × SameJournal kept.old kept.new) }
{
    let note = shown_in_feed(alloc, kept.replica().feed().len(), lacking)?;
    kept.note(note)
}

/// The note that so many entries are shown, but for these items.
fn shown_in_feed(alloc: Global, entries: usize, lacking: Vec<ItemId>) -> Result<Note, KeptFault>
    requires { length lacking.items < 2 ^ 32 }
    ensures value { IfOk result (λ note. note ≡ shown_note entries lacking.items) }
    ensures fault { IfErr result (λ fault. fault ≡ KeptFault.OutOfMemory) }
{
    let shown = FolderNote::Shown(Shown::new(entries as u64, lacking));
    let bytes = shown.write(alloc)?;
    Ok(Note::new(shown.kind(), bytes))
}
