//! Runs of a world.
ghost use Rattle.std.specs.Prelude.{IfOk, IfErr, MatchResult};

use crate::event::Event;
use crate::fault::WorldFault;
use crate::world::World;
use mr_forms::Knowledge;

/// A world that stopped at one of the events that it was given.
#[derive(Drop)]
pub struct Stopped<K: Knowledge> {
    /// The world after the events before that one.
    pub world: World<K>,
    /// The event's place among those that were given, from 0.
    pub at: usize,
    /// Why it stopped.
    pub fault: WorldFault,
}

impl<K: Knowledge> World<K> {
    ghost use Rattle.mr_world.specs.Run.{Leads, StopsAt};
    ghost use Rattle.mr_world.specs.Promise.{Promises};

    /// Lets these events happen, one after the other.
    ///
    /// A refusal of a replica, other than for want of memory, is an answer like others and stops
    /// nothing. The world stops at the first event that can't be answered: `NoSuchReplica` where the
    /// world has no replica of its id; else `NoSuchFrame` where it names a number that its pool hasn't
    /// got; `OutOfMemory` otherwise. The events before it stand, and it has changed nothing.
    ///
    /// Of a world that was run to its end, and of one that stopped, all holds that [`World::promise`] says.
    ///
    /// It is [`World::happen`] for each event, and costs the same.
    pub fn run(mut self, events: Vec<Event>) -> Result<World<K>, Stopped<K>>
        ensures ran { IfOk result (Leads K.form self events.items) }
        ensures stopped { IfErr result (λ stopped. StopsAt K.form self events.items stopped.at stopped.fault stopped.world) }
        ensures promises { MatchResult result (Promises K.form) (λ stopped. Promises K.form stopped.world) }
    {
        let mut at = 0;
        for event in events {
            match self.happen(event) {
                Ok(()) => at += 1,
                Err(fault) => {
                    // What stands has the promise too.
                    self.promise();
                    return Err(Stopped {
                        world: self,
                        at,
                        fault,
                    });
                }
            }
        }
        self.promise();
        Ok(self)
    }
}
