//! The events: one call that takes any, and a method for each.
ghost use Rattle.mr_replica.specs.declared.event.Event.TheVariants as asked;
ghost use Rattle.mr_replica.specs.declared.event.Reply.TheVariants as told;
ghost use Rattle.mr_replica.specs.Methods.{received_reply};
ghost use Rattle.mr_kept.specs.Answered.{reply_by};

use crate::admit::{admit, is_held_back};
use crate::fault::KeptFault;
use crate::journaled::Journaled;
use mr_forms::Knowledge;
use mr_journal::Device;
use mr_mail::Message;
use mr_replica::{Bases, Event, Received, Reply};
use mr_version::Version;
use mr_wire::{Ask, Frame, Receipt};

impl<K: Knowledge, D: Device + Drop> Journaled<K, D> {
    ghost use Rattle.mr_kept.specs.Kept.{Asks, AtOnce, Later, SameJournal};

    /// Gives the replica an event: the one way in, which each of the methods below takes.
    ///
    /// A reply that may leave the device is held back, and the next commit hands it out: the version that a Create or an Edit issued,
    /// the request of a Pull, the record of a Next, the receipt of a Vouch. Then nothing is given. Any other reply is given at once.
    ///
    /// `Failed` where the device has failed; `TooLarge` where the event has more bytes than one may have; `OutOfMemory`; or
    /// `Refused`, as [`mr_replica::Replica::step`] refuses. Then nothing has changed. So too for the events below.
    pub fn ask(&mut self, event: Event) -> Result<Option<Reply>, KeptFault>
        ensures asked { Asks K.form self.old event result self.new }
        ensures journal { SameJournal self.old self.new }
    {
        if !is_held_back(&event) {
            let reply = admit(&mut self.replica, &self.journal, event)?;
            return Ok(Some(reply));
        }
        self.leaving.reserve(1)?;
        let reply = admit(&mut self.replica, &self.journal, event)?;
        self.leaving.push_reserved(reply);
        Ok(None)
    }

    /// Issues the first version of a new item, which the next commit hands out.
    pub fn create(&mut self, message: Message) -> Result<(), KeptFault>
        ensures later { Later K.form self.old (asked.Create message) result self.new }
        ensures journal { SameJournal self.old self.new }
    {
        let None = self.ask(Event::Create(message))? else {
            unreachable!()
        };
        Ok(())
    }

    /// Issues a version that supersedes the bases, which the next commit hands out.
    pub fn edit(&mut self, bases: Bases, message: Message) -> Result<(), KeptFault>
        ensures later { Later K.form self.old (asked.Edit bases message) result self.new }
        ensures journal { SameJournal self.old self.new }
    {
        let None = self.ask(Event::Edit(bases, message))? else {
            unreachable!()
        };
        Ok(())
    }

    /// Opens the next session. The next commit hands out the request for it.
    pub fn pull(&mut self) -> Result<(), KeptFault>
        ensures later { Later K.form self.old asked.Pull result self.new }
        ensures journal { SameJournal self.old self.new }
    {
        let None = self.ask(Event::Pull)? else {
            unreachable!()
        };
        Ok(())
    }

    /// Has the open stream of this number give its next record, which the next commit hands out.
    pub fn next(&mut self, stream: u64) -> Result<(), KeptFault>
        ensures later { Later K.form self.old (asked.Next stream) result self.new }
        ensures journal { SameJournal self.old self.new }
    {
        let None = self.ask(Event::Next(stream))? else {
            unreachable!()
        };
        Ok(())
    }

    /// Gives a receipt for a version that is a head. The next commit hands it out.
    pub fn vouch(&mut self, version: Version) -> Result<(), KeptFault>
        ensures later { Later K.form self.old (asked.Vouch version) result self.new }
        ensures journal { SameJournal self.old self.new }
    {
        let None = self.ask(Event::Vouch(version))? else {
            unreachable!()
        };
        Ok(())
    }

    /// Opens the next stream for one who asks, and gives its number.
    pub fn answer(&mut self, ask: Ask) -> Result<u64, KeptFault>
        ensures at_once { AtOnce K.form self.old (asked.Answer ask) (reply_by told.Streaming result) self.new }
        ensures journal { SameJournal self.old self.new }
    {
        let Some(Reply::Streaming(stream)) = self.ask(Event::Answer(ask))? else {
            unreachable!()
        };
        Ok(stream)
    }

    /// Lets the session that a record is for take it, and tells what came of it.
    pub fn receive(&mut self, frame: Frame) -> Result<Received, KeptFault>
        ensures at_once { AtOnce K.form self.old (asked.Receive frame) (reply_by received_reply result) self.new }
        ensures journal { SameJournal self.old self.new }
    {
        match self.ask(Event::Receive(frame)) {
            Ok(Some(Reply::Took)) => Ok(Received::Took),
            Ok(Some(Reply::Known)) => Ok(Received::Known),
            Ok(Some(Reply::Finished)) => Ok(Received::Finished),
            Ok(_reply) => unreachable!(),
            Err(fault) => Err(fault),
        }
    }

    /// Closes the session of this number.
    pub fn cut_in(&mut self, session: u64) -> Result<(), KeptFault>
        ensures at_once { AtOnce K.form self.old (asked.CutIn session) (reply_by (λ _. told.Done) result) self.new }
        ensures journal { SameJournal self.old self.new }
    {
        let Some(Reply::Done) = self.ask(Event::CutIn(session))? else {
            unreachable!()
        };
        Ok(())
    }

    /// Closes the stream of this number.
    pub fn cut_out(&mut self, stream: u64) -> Result<(), KeptFault>
        ensures at_once { AtOnce K.form self.old (asked.CutOut stream) (reply_by (λ _. told.Done) result) self.new }
        ensures journal { SameJournal self.old self.new }
    {
        let Some(Reply::Done) = self.ask(Event::CutOut(stream))? else {
            unreachable!()
        };
        Ok(())
    }

    /// Lets go of the push-outs that a receipt is for.
    pub fn release(&mut self, receipt: Receipt) -> Result<(), KeptFault>
        ensures at_once { AtOnce K.form self.old (asked.Release receipt) (reply_by (λ _. told.Done) result) self.new }
        ensures journal { SameJournal self.old self.new }
    {
        let Some(Reply::Done) = self.ask(Event::Release(receipt))? else {
            unreachable!()
        };
        Ok(())
    }

    /// Admits nothing more but to tell others.
    pub fn retire(&mut self) -> Result<(), KeptFault>
        ensures at_once { AtOnce K.form self.old asked.Retire (reply_by (λ _. told.Done) result) self.new }
        ensures journal { SameJournal self.old self.new }
    {
        let Some(Reply::Done) = self.ask(Event::Retire)? else {
            unreachable!()
        };
        Ok(())
    }
}
