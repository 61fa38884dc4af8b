//! Notes of the host: bytes that a commit keeps with the events before it.
ghost use Rattle.mr_desk.specs.Notes.{KeptTakesNote, TakesNote};

use crate::device::Device;
use crate::fault::Fault;
use crate::kept::KeptDesk;
use mr_entry::Note;
use std::alloc::Global;

/// The kind byte of each note that is written here.
pub const NOTE_KIND: u8 = 0;

/// Has a note of these bytes wait for the next commit, as [`mr_hosted::Hosted::note`]: `Failed`, `TooLarge` or `OutOfMemory`.
fn take_note(alloc: Global, kept: &mut KeptDesk, bytes: &[u8]) -> Result<(), Fault>
    ensures { KeptTakesNote bytes.now kept.old result kept.new }
{
    let note = Note::new(NOTE_KIND, bytes.to_vec(alloc)?);
    match kept.note(note) {
        Ok(()) => Ok(()),
        Err(fault) => Err(Fault::from(fault)),
    }
}

impl Device {
    /// Has a note of these bytes wait, which mean nothing here. The next commit of a kept device keeps it in one batch with all that
    /// waits then, behind the notes that waited before it; whoever opens the file from then on finds it ([`Device::notes`]).
    ///
    /// `OtherDevice` of a plain one; `Failed`; `TooLarge` where there are 2^32 bytes or more; `OutOfMemory`, which may come before either of
    /// the two is known. Whatever the fault, all stays as it was. It costs a copy of the bytes.
    pub fn note(&mut self, alloc: Global, bytes: &[u8]) -> Result<(), Fault>
        ensures { TakesNote bytes.now self.old result self.new }
    {
        match self {
            Device::Plain(_) => Err(Fault::OtherDevice),
            Device::Kept { kept, .. } => take_note(alloc, kept, bytes),
            Device::Failed => Err(Fault::Failed),
        }
    }
}
