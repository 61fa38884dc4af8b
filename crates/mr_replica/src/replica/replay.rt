//! Replay: a replica is its log replayed.
ghost use Rattle.std.specs.Prelude.{◌≡◌, ◌≤◌, ◌↔◌, Result, Ok, Err, IfOk, IfErr, MatchResult};
ghost use Rattle.mr_replica.specs.declared.event.Event.{Event};
ghost use Rattle.mr_replica.specs.declared.event.Reply.{Reply};
ghost use Rattle.mr_replica.specs.declared.refusal.Refusal.{Refusal};
ghost use Rattle.mr_replica.specs.declared.replica.TheConstants.{MAX_EVENTS};

use super::Replica;
use crate::{Event, Refusal};
use mr_filter::Filter;
use mr_forms::Knowledge;
use mr_version::Author;
use std::alloc::Global;
use thiserror::Error;

/// Why a replay did not come to its end.
#[derive(Clone, Copy, Debug, PartialEq, Eq, Error)]
pub enum ReplayFault {
    #[error("an event limit is 1 to 1,000,000")]
    BadLimit,
    /// The first event that was refused: its place among those that were given, from 0, and why.
    #[error("the event at place {place} was refused: {refusal}")]
    Refused { place: usize, refusal: Refusal },
}

impl ReplayFault {
    ghost use Rattle.mr_replica.specs.Replay.{replay_fault_number};

    /// The fault's number: 0 where memory ran out at an event, 1 for a bad limit, and 2 for another refusal.
    pub fn number(self) -> u8
        ensures { result ≡ replay_fault_number self }
    {
        match self {
            ReplayFault::Refused {
                refusal: Refusal::OutOfMemory,
                ..
            } => 0,
            ReplayFault::BadLimit => 1,
            ReplayFault::Refused { .. } => 2,
        }
    }
}

impl<K: Knowledge> Replica<K> {
    ghost use Rattle.mr_replica.specs.State.{State};
    ghost use Rattle.mr_replica.specs.Step.{Steps};
    ghost use Rattle.mr_replica.specs.Alike.{AreAlike};
    ghost use Rattle.mr_replica.specs.Replay.{Admits, AdmitsAll, Replays, IsReplayFault, IsItsLog, IsForMemory};
    ghost use Rattle.mr_replica.specs.inner.Replay.{IsStop};

    /// The replica that a fresh one of this id, filter and limit becomes by these events, each of which it
    /// admits in its turn. Its log is then just these events.
    ///
    /// So a replica is its log replayed: from the log of a replica, and its id, filter and limit, comes a
    /// replica that is alike, and no event is refused but for want of memory. Alike are replicas that are the
    /// same in all, but that the value of the one's knowledge may be another one than that of the other's, which
    /// knows the same.
    ///
    /// `BadLimit` where a log takes no such number of events. Else `Refused` tells the first event that is
    /// refused, for want of memory too, by its place from 0 and the refusal. It costs the step of each event;
    /// the events are moved into the log and not copied.
    pub fn replay(
        alloc: Global,
        id: Author,
        filter: Filter,
        event_limit: u32,
        events: Vec<Event>,
    ) -> Result<Replica<K>, ReplayFault>
        ensures bad_limit { (result ≡ Err ReplayFault.BadLimit) ↔ ¬ ((1 ≤ event_limit) × (event_limit ≤ MAX_EVENTS)) }
        ensures replayed { IfOk result (Replays K.form id filter event_limit events.items) }
        ensures log { IfOk result (λ replica. replica.log ≡ events.items) }
        ensures refused { IfErr result (IsReplayFault K.form id filter event_limit events.items) }

        // Where the events are the log of a replica, the result is alike to it, and only memory can be wanting.
        ensures same { (s : State K) → Replays K.form id filter event_limit events.items s → IfOk result (AreAlike K.form s) }
        ensures for_memory { (s : State K) → Replays K.form id filter event_limit events.items s → IfErr result IsForMemory }
        // The result is its log replayed, and what is stays so, whatever it is asked to do.
        ensures is_its_log { IfOk result (IsItsLog K.form) }
        ensures stays_its_log { (s new : State K) (event : Event) (answer : Result Reply Refusal) → IsItsLog K.form s → Steps K.form s event answer new → IsItsLog K.form new }
    {
        match Replica::try_new(alloc, id, filter, event_limit) {
            Ok(replica) => replica.take_all(events),
            Err(_) => Err(ReplayFault::BadLimit),
        }
    }

    // Admits these events, one after the other.
    fn take_all(mut self, events: Vec<Event>) -> Result<Replica<K>, ReplayFault>
        ensures ok { IfOk result (AdmitsAll K.form self events.items) }
        ensures err { IfErr result (IsStop K.form self events.items) }
    {
        self.take_each(events)?;
        Ok(self)
    }

    #[tactic(auto, using(crate::proofs::Replaying::events_begin, crate::proofs::Replaying::events_end))]
    fn take_each(&mut self, events: Vec<Event>) -> Result<(), ReplayFault>
        ensures { MatchResult result (λ _. AdmitsAll K.form self.old events.items self.new) (λ fault. IsStop K.form self.old events.items fault) }
    {
        let mut place = 0;
        for event in events {
            match self.take_again(event) {
                Ok(()) => place += 1,
                Err(refusal) => return Err(ReplayFault::Refused { place, refusal }),
            }
        }
        Ok(())
    }

    // One event, with no reply.
    fn take_again(&mut self, event: Event) -> Result<(), Refusal>
        ensures { MatchResult result (λ _. Admits K.form self.old event self.new) (λ e. Steps K.form self.old event (Err e) self.new) }
    {
        // the reply was given when it happened first
        let _ = self.step(event)?;
        Ok(())
    }
}
