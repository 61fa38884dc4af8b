//! What the replicas of a world gave so far: the numbers of all frames.
ghost use Rattle.std.specs.Prelude.{◌≡◌, IfOk, OnOk};
ghost use Rattle.std.specs.Option.{option_copied};
ghost use Rattle.mr_settle.specs.inner.Carried.{carried, HasBytes};
ghost use Rattle.mr_settle.specs.inner.Numbers.{numbering, found_in, KeepsUp};
ghost use Rattle.mr_settle.specs.inner.Named.{Names, given_by, nothing_given};
ghost use Rattle.mr_settle.specs.inner.Way.{NotesNewest};

use crate::numbers::Numbers;
use mr_forms::Knowledge;
use mr_replica::Event as ReplicaEvent;
use mr_world::{Act, World};
use std::alloc::{AllocError, Global};

/// The numbers of the frames of each pool.
#[derive(Drop)]
pub struct Given {
    pub asks: Numbers,
    pub records: Numbers,
    pub receipts: Numbers,
}

impl Given {
    /// Nothing was given.
    pub fn new(alloc: Global) -> Given
        ensures { given_by result ≡ nothing_given }
    {
        Given {
            asks: Numbers::new(alloc),
            records: Numbers::new(alloc),
            receipts: Numbers::new(alloc),
        }
    }

    /// Gives the newest frame of each pool its number.
    pub fn note_newest<K: Knowledge>(
        &mut self,
        alloc: Global,
        world: &World<K>,
    ) -> Result<(), AllocError>
        ensures { OnOk result (NotesNewest (given_by self.old) world.now (given_by self.new)) }
    {
        let asks = world.ask_count();
        keep_up(alloc, &mut self.asks, world.ask(asks), asks)?;
        let records = world.record_count();
        keep_up(alloc, &mut self.records, world.record(records), records)?;
        let receipts = world.receipt_count();
        keep_up(alloc, &mut self.receipts, world.receipt(receipts), receipts)
    }

    /// The act by which a replica does this, if the frame that it carries, of these bytes, was given.
    pub fn named(
        &self,
        event: &ReplicaEvent,
        frame: Option<&[u8]>,
    ) -> Result<Option<Act>, AllocError>
        requires { HasBytes (carried event.now) (option_copied frame) }
        ensures { IfOk result (Names (given_by self.now) event.now) }
    {
        match event {
            ReplicaEvent::Create(message) => Ok(Some(Act::Create(message.copy()?))),
            ReplicaEvent::Edit(bases, message) => {
                Ok(Some(Act::Edit(bases.copy()?, message.copy()?)))
            }
            ReplicaEvent::Retire => Ok(Some(Act::Retire)),
            ReplicaEvent::Pull => Ok(Some(Act::Pull)),
            ReplicaEvent::Receive(_) => {
                let number = number_of(&self.records, frame);
                Ok(number.map(Act::Receive))
            }
            ReplicaEvent::CutIn(session) => Ok(Some(Act::CutIn(*session))),
            ReplicaEvent::Answer(_) => {
                let number = number_of(&self.asks, frame);
                Ok(number.map(Act::Answer))
            }
            ReplicaEvent::Next(stream) => Ok(Some(Act::Next(*stream))),
            ReplicaEvent::CutOut(stream) => Ok(Some(Act::CutOut(*stream))),
            ReplicaEvent::Vouch(version) => Ok(Some(Act::Vouch(*version))),
            ReplicaEvent::Release(_) => {
                let number = number_of(&self.receipts, frame);
                Ok(number.map(Act::Release))
            }
        }
    }
}

// The number of the frame of these bytes, if it was given.
fn number_of(numbers: &Numbers, frame: Option<&[u8]>) -> Option<u64>
    ensures { result ≡ found_in (numbering numbers.now) (option_copied frame.entry) }
{
    match frame {
        Some(frame) => numbers.find(frame),
        None => None,
    }
}

// Gives the newest frame of a pool its number, where it has none.
fn keep_up(
    alloc: Global,
    numbers: &mut Numbers,
    newest: Option<&[u8]>,
    count: u64,
) -> Result<(), AllocError>
    ensures { OnOk result (KeepsUp (numbering numbers.old) (option_copied newest.entry) count (numbering numbers.new)) }
{
    let Some(frame) = newest else {
        return Ok(());
    };
    if numbers.find(frame).is_some() {
        return Ok(());
    }
    let frame = Vec::from_slice(alloc, frame)?;
    numbers.put(frame, count)
}
