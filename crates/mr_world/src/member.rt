//! A replica of a world, with the ports to its two subscribers.
ghost use Rattle.std.specs.Prelude.{◌≡◌, ◌==◌, OnErr, IfOk, Ok};
ghost use Rattle.std.specs.List.{position};
ghost use Rattle.mr_world.specs.inner.Given.{HasPlaces};
ghost use Rattle.mr_world.specs.inner.Happens.{Fulfils};
ghost use Rattle.mr_world.specs.inner.Stepped.{IsRefusedBy};
ghost use Rattle.mr_world.specs.Does.{StepsTo};
ghost use Rattle.mr_world.specs.Ports.{Offers, Takes, Closes};

use crate::answer::Answer;
use crate::fault::WorldFault;
use crate::outlet::Outlet;
use crate::pools::{Pools, given_by};
use crate::task::Task;
use mr_feed::PlainPort;
use mr_forms::Knowledge;
use mr_model::Subscriber;
use mr_replica::{Event as ReplicaEvent, Refusal, Replica};
use mr_version::Author;
use std::alloc::{AllocError, Global};
use std::marker::Model;

/// A replica, and what its subscribers are told.
#[derive(Drop)]
pub struct Member<K: Knowledge> {
    replica: Replica<K>,
    indexer: Outlet,
    notifier: Outlet,
}

impl<K: Knowledge> Model for Member<K> {
    ghost use Rattle.mr_world.specs.Kept.{MemberView};

    ghost Value = { MemberView K };

    ghost view = { λ m. record { replica = m.replica; indexer = m.indexer; notifier = m.notifier } };
}

impl<K: Knowledge> Member<K> {
    ghost use Rattle.mr_world.specs.Does.{Does};
    ghost use Rattle.mr_world.specs.Kept.{port_of, with_port};

    /// A replica, with ports through which nothing went.
    pub fn new(replica: Replica<K>, indexer: PlainPort, notifier: PlainPort) -> Member<K>
        ensures { result ≡ record { replica = replica; indexer = record { view = indexer; offered = 0 }; notifier = record { view = notifier; offered = 0 } } }
    {
        Member {
            replica,
            indexer: Outlet::new(indexer),
            notifier: Outlet::new(notifier),
        }
    }

    /// The replica.
    pub fn replica(&self) -> &Replica<K>
        ensures { result.now ≡ self.now.replica }
    {
        &self.replica
    }

    /// Does the task, and puts what the replica gave into the pools, which have room. `OutOfMemory`
    /// alone, and then nothing has changed.
    pub fn fulfil(
        &mut self,
        alloc: Global,
        pools: &mut Pools,
        task: Task,
    ) -> Result<Answer, WorldFault>
        requires { HasPlaces pools.old }
        ensures { Fulfils (Does K.form task) self.old pools.old result self.new pools.new }
    {
        match task {
            Task::Step(event) => self.step(alloc, pools, event),
            Task::Truncated => Ok(Answer::Truncated),
            Task::Offer(subscriber) => Ok(self.offer(subscriber)?),
            Task::Take(subscriber) => Ok(self.take(subscriber)),
            Task::Close(subscriber) => Ok(self.close(subscriber)),
        }
    }

    // The replica's own event.
    fn step(
        &mut self,
        alloc: Global,
        pools: &mut Pools,
        event: ReplicaEvent,
    ) -> Result<Answer, WorldFault>
        requires { HasPlaces pools.old }
        ensures { Fulfils (Does K.form (Task.Step event)) self.old pools.old result self.new pools.new }
    {
        step_replica(alloc, &mut self.replica, pools, event)
    }

    fn offer(&mut self, subscriber: Subscriber) -> Result<Answer, AllocError>
        ensures ok { IfOk result (λ answer. Offers self.old.replica.feed (port_of self.old subscriber) answer (port_of self.new subscriber)) }
        ensures others { self.new ≡ with_port self.old subscriber (port_of self.new subscriber) }
        ensures err { OnErr result (self.new ≡ self.old) }
    {
        match subscriber {
            Subscriber::Indexer => self.indexer.offer(self.replica.feed()),
            Subscriber::Notifier => self.notifier.offer(self.replica.feed()),
        }
    }

    fn take(&mut self, subscriber: Subscriber) -> Answer
        ensures taken { Takes (port_of self.old subscriber) result (port_of self.new subscriber) }
        ensures others { self.new ≡ with_port self.old subscriber (port_of self.new subscriber) }
    {
        match subscriber {
            Subscriber::Indexer => self.indexer.take(),
            Subscriber::Notifier => self.notifier.take(),
        }
    }

    fn close(&mut self, subscriber: Subscriber) -> Answer
        ensures closed { Closes (port_of self.old subscriber) result (port_of self.new subscriber) }
        ensures others { self.new ≡ with_port self.old subscriber (port_of self.new subscriber) }
    {
        match subscriber {
            Subscriber::Indexer => self.indexer.close(),
            Subscriber::Notifier => self.notifier.close(),
        }
    }
}

// The replica's event; what it gives comes into the pools, which have room. The frame is made before the
// replica changes.
fn step_replica<K: Knowledge>(
    alloc: Global,
    replica: &mut Replica<K>,
    pools: &mut Pools,
    event: ReplicaEvent,
) -> Result<Answer, WorldFault>
    requires { HasPlaces pools.old }
    ensures { Fulfils (StepsTo K.form event) replica.old pools.old result replica.new pools.new }
{
    match replica.step_then(event, |reply| given_by(alloc, reply)) {
        Ok((reply, given)) => {
            pools.put(given);
            Ok(Answer::Stepped(Ok(reply)))
        }
        Err(refusal) => refused(refusal),
    }
}

// What a world makes of a replica's refusal: want of memory alone is no answer.
fn refused(refusal: Refusal) -> Result<Answer, WorldFault>
    ensures { IsRefusedBy refusal result }
{
    match refusal {
        Refusal::OutOfMemory => Err(WorldFault::OutOfMemory),
        _ => Ok(Answer::Stepped(Err(refusal))),
    }
}

/// The place of the member whose replica has the id.
pub(crate) fn place_of<K: Knowledge>(members: &[Member<K>], id: Author) -> Option<usize>
    ensures { result ≡ position (λ m. m.replica.id == id) members.now }
{
    members
        .iter()
        .position(|member| member.replica().id() == id)
}
