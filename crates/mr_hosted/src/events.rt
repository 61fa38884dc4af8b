//! Events, and notes of the program above. What is held back, the next commit hands out.
ghost use Rattle.std.specs.Prelude.{◌≡◌, ◌<◌, ◌^◌, false, length, IfErr, OnErr, OnOk};
ghost use Rattle.mr_journal.specs.Journal.{has_failed};
ghost use Rattle.mr_kept.specs.Answered.{IsUnnoted};
ghost use Rattle.mr_kept.specs.Kept.{Asks, Noted, SameJournal, journal_of, leaving, replica_of};

use crate::hosted::Hosted;
use mr_entry::Note;
use mr_forms::Knowledge;
use mr_kept::KeptFault;
use mr_replica::{Event, Reply};

impl<K: Knowledge> Hosted<K> {
    ghost use Rattle.mr_hosted.specs.Hosted.{SameHost, journaled_of};

    /// Gives the replica an event, as [`mr_kept::Journaled::ask`]: a reply that may leave the device waits for the next commit, and is handed
    /// out once the host has kept the event; any other is given at once.
    ///
    /// The faults are those of that call; then nothing has changed.
    pub fn ask(&mut self, event: Event) -> Result<Option<Reply>, KeptFault>
        ensures asked { Asks K.form (journaled_of self.old) event result (journaled_of self.new) }
        ensures journal { SameJournal (journaled_of self.old) (journaled_of self.new) }
        ensures host { SameHost self.old self.new }
    {
        self.journaled.ask(event)
    }

    /// Has a note wait, as [`mr_kept::Journaled::note`]: the next commit keeps it behind the events, and [`Hosted::open`] gives it back.
    ///
    /// The faults are those of that call; then nothing has changed.
    pub fn note(&mut self, note: Note) -> Result<(), KeptFault>
        ensures noted { OnOk result (Noted note (journaled_of self.old) (journaled_of self.new)) }
        ensures may { OnOk result ((has_failed (journal_of (journaled_of self.old)) ≡ false) × (length note.bytes < 2 ^ 32)) }
        ensures fault { IfErr result (IsUnnoted (journal_of (journaled_of self.old)) note) }
        ensures unchanged { OnErr result ((replica_of (journaled_of self.new) ≡ replica_of (journaled_of self.old)) × (leaving (journaled_of self.new) ≡ leaving (journaled_of self.old)) × SameJournal (journaled_of self.old) (journaled_of self.new)) }
        ensures host { SameHost self.old self.new }
    {
        self.journaled.note(note)
    }
}
