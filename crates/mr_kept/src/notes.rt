//! Notes of the program above.
ghost use Rattle.std.specs.Prelude.{◌≡◌, ◌<◌, ◌^◌, false, length, IfErr, OnErr, OnOk};
ghost use Rattle.mr_journal.specs.Journal.{has_failed};
ghost use Rattle.mr_kept.specs.Answered.{IsUnnoted};

use crate::fault::KeptFault;
use crate::journaled::Journaled;
use mr_entry::Note;
use mr_forms::Knowledge;
use mr_journal::Device;

impl<K: Knowledge, D: Device + Drop> Journaled<K, D> {
    ghost use Rattle.mr_kept.specs.Kept.{Noted, SameJournal, journal_of, leaving, replica_of};

    /// Has a note wait, which means nothing here. The next commit keeps it in one batch with all that waits then: behind the events,
    /// and behind the notes that waited before it. [`Journaled::open`] gives back all notes that were kept.
    ///
    /// `Failed` where the device has failed; `TooLarge` where the note has 2^32 bytes or more; `OutOfMemory`. Then nothing has changed.
    pub fn note(&mut self, note: Note) -> Result<(), KeptFault>
        ensures noted { OnOk result (Noted note self.old self.new) }
        ensures may { OnOk result ((has_failed (journal_of self.old) ≡ false) × (length note.bytes < 2 ^ 32)) }
        ensures fault { IfErr result (IsUnnoted (journal_of self.old) note) }
        ensures unchanged { OnErr result ((replica_of self.new ≡ replica_of self.old) × (leaving self.new ≡ leaving self.old) × SameJournal self.old self.new) }
    {
        if self.journal.has_failed() {
            return Err(KeptFault::Failed);
        }
        if note.bytes().len() > u32::MAX as usize {
            return Err(KeptFault::TooLarge);
        }
        self.notes.push(note)?;
        Ok(())
    }
}
