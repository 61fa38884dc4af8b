//! The desk, and its events.
ghost use Rattle.std.specs.Prelude.{◌≡◌};
ghost use Rattle.mr_desk.specs.Serves.{Serves, Answers, Merges};

use crate::call::{Call, VersionNumbers};
use crate::event::event_of;
use crate::fault::Fault;
use crate::merging::merge_in;
use crate::reply::{Told, frame_by, told_by};
use mr_itemset::SparingKnowledge;
use mr_replica::{Event, Refusal, Replica};
use std::alloc::Global;
use std::marker::Model;

/// A replica, and the frame that it gave last, as bytes.
#[derive(Drop)]
pub struct Desk {
    pub(crate) alloc: Global,
    pub(crate) replica: Replica<SparingKnowledge>,
    pub(crate) frame: Vec<u8>,
}

impl Model for Desk {
    ghost use Rattle.mr_desk.specs.Desk.{DeskState};

    ghost Value = { DeskState };

    ghost view = { λ d. record { replica = d.replica; frame = d.frame.items } };
}

impl Desk {
    /// The replica.
    pub fn replica(&self) -> &Replica<SparingKnowledge>
        ensures { result.now ≡ self.now.replica }
    {
        &self.replica
    }

    /// The bytes of the frame that the last admitted event gave: of a Pull the request, of a Next the record, of a Vouch
    /// the receipt, and else none.
    pub fn frame(&self) -> &[u8]
        ensures { result.now ≡ self.now.frame }
    {
        &self.frame
    }

    // One event; the frame that it gives is spelled before anything changes.
    fn tell(&mut self, event: Event) -> Result<Told, Refusal>
        ensures { Serves self.old event result self.new }
    {
        let alloc = self.alloc;
        let (reply, bytes) = self
            .replica
            .step_then(event, |reply| frame_by(alloc, reply))?;
        self.frame = bytes;
        Ok(told_by(&reply))
    }

    /// One call.
    ///
    /// First what was handed over is read: `NotText`, `Message`, `Version`, `Wire`, `BytesBehind` or `OtherFrame` where it is
    /// none of what the call takes. Then the replica answers the event, or refuses it: `Refused`, with its refusal. Whatever the
    /// fault, the desk stays as it was. It costs what the event costs, and the bytes of what is lent and given.
    pub fn serve(&mut self, call: &Call<'_>) -> Result<Told, Fault>
        ensures { Answers self.old call.now result self.new }
    {
        let event = event_of(self.alloc, call)?;
        match self.tell(event) {
            Ok(told) => Ok(told),
            Err(refusal) => Err(Fault::Refused(refusal)),
        }
    }

    /// Merges the heads of an item by an edit of all of them, over the last version that came and that each of them supersedes, as
    /// `mr_maildir::merged_place` has it: the message is that of each of them but for labels and flags. What is told is its version.
    ///
    /// `Version` where the numbers are none; `Merge` where the heads differ in more than labels and flags, or have more than 16 labels
    /// together; `NoConflict` where they say the same, as where there is one or none; then as the replica refuses the edit: `Refused`.
    /// Whatever the fault, the desk stays as it was. It costs a walk over the heads and the feed, and the edit.
    pub fn merge(&mut self, item: VersionNumbers) -> Result<Told, Fault>
        ensures { Merges self.old item result self.new }
    {
        let event = merge_in(self.alloc, &self.replica, item)?;
        match self.tell(event) {
            Ok(told) => Ok(told),
            Err(refused) => Err(Fault::Refused(refused)),
        }
    }
}
