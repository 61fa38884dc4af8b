//! Commits, and what is sent behind them.
ghost use Rattle.std.specs.Prelude.{◌≡◌, IfErr, IfOk, OnOk, true};
ghost use Rattle.std.specs.Io.KnownBytes.{Appends};

use crate::batch::batch_of;
use crate::fault::KeptFault;
use crate::journaled::Journaled;
use mr_entry::Note;
use mr_forms::Knowledge;
use mr_journal::Device;
use mr_replica::Reply;
use std::io::Write;
use std::{io, mem};

impl<K: Knowledge, D: Device + Drop> Journaled<K, D> {
    ghost use Rattle.mr_kept.specs.Commit.{Committed, LeavesOneOfTwo, Uncommitted};
    ghost use Rattle.mr_kept.specs.Kept.{head_of, nothing_waits, replica_of};

    /// Keeps all events that wait and behind them all notes, as one batch, and hands out what was held back for it, in the order of
    /// the events. The Nexts of one stream that stand in a row are one entry.
    ///
    /// `Failed` where the device failed, now or before; then what was held back is never handed out, and whether these
    /// events and notes are kept is known once the journal is open again. `TooLarge` where the journal has no room for them: it would get
    /// longer than it may be, or one of their entries would. `OutOfMemory`; at both nothing has changed, and it may be tried again. It costs the bytes of the events and two
    /// syncs; where nothing waits it writes nothing.
    pub fn commit(&mut self) -> Result<Vec<Reply>, KeptFault>
        ensures committed { IfOk result (λ out. Committed D.Device self.old out.items self.new) }
        ensures uncommitted { IfErr result (λ fault. Uncommitted D.Device self.old fault self.new) }
        ensures replica { replica_of self.new ≡ replica_of self.old }
        ensures head { head_of self.new ≡ head_of self.old }
        ensures leaves { LeavesOneOfTwo K.form D.Device self.old self.new }
    {
        let log = self.replica.log();
        let len = log.len();
        if self.journal.has_failed() {
            return Err(KeptFault::Failed);
        }
        let notes: &[Note] = &self.notes;
        let batch = batch_of(self.alloc, self.issued, &log[self.kept.min(len)..], notes)?;
        self.journal.commit(self.alloc, &batch.entries)?;
        self.kept = len;
        self.issued = batch.issued;
        self.notes = Vec::new(self.alloc);
        Ok(mem::replace(&mut self.leaving, Vec::new(self.alloc)))
    }

    /// Writes bytes to the way to another replica, as all bytes that leave are to be written. No event may wait, and no note.
    ///
    /// It writes all of them, in as many writes as that takes, and doesn't flush. At the writer's first error it ends with that, and a
    /// beginning of the bytes may be written.
    pub fn send<W: Write>(&self, out: &mut W, bytes: &[u8]) -> io::Result<()>
        requires { nothing_waits self.now ≡ true }
        ensures { OnOk result (Appends (W.contents out.old) (W.contents out.new) bytes.now) }
    {
        out.write_all(bytes)
    }
}
