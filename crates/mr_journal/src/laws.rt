//! What the bytes of a journal stand for is one thing.
ghost use Rattle.std.specs.Prelude.{◌≡◌, ◌⊎◌, ℕ, List};
ghost use Rattle.mr_journal.specs.declared.fault.JournalFault.{JournalFault};
ghost use Rattle.mr_journal.specs.declared.fault.JournalFault.TheVariants.{OutOfMemory, Failed};
ghost use Rattle.mr_journal.specs.Format.{Stands};
ghost use Rattle.mr_journal.specs.Reading.{IsReason};

/// Bytes stand for one list of entries. So what a crash leaves of a commit, opened, gives the entries from before it or those
/// and the whole batch, and nothing else.
pub fn bytes_stand_for_one_list()
    ensures { (file : List ℕ) (a b : List (List ℕ)) → Stands a file → Stands b file → a ≡ b }
{}

/// Bytes that stand for entries are never refused.
pub fn no_journal_is_refused()
    ensures { (file : List ℕ) (entries : List (List ℕ)) (fault : JournalFault) → Stands entries file → IsReason fault file
        → (fault ≡ OutOfMemory) ⊎ (fault ≡ Failed) }
{}
