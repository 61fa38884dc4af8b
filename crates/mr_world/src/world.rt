//! A world: replicas, all that they gave one another, and ports to their subscribers.
ghost use Rattle.std.specs.Prelude.{◌≡◌, ◌≤◌, IfOk, IfErr, None, Some, length};
ghost use Rattle.std.specs.List.{AllZip};
ghost use Rattle.std.specs.Option.{option_copied};
ghost use Rattle.mr_world.specs.Made.{IsMadeOf, spec_refusal};
ghost use Rattle.mr_world.specs.Ports.{new_port};

use crate::answered::Answered;
use crate::answering::answer_event;
use crate::event::Event;
use crate::fault::{SpecFault, WorldFault};
use crate::member::{Member, place_of};
use crate::pools::Pools;
use crate::promises::promise;
use crate::spec::{Spec, check_specs};
use mr_feed::{MAX_CAPACITY, PlainPort, PortFault};
use mr_forms::Knowledge;
use mr_replica::{MAX_EVENTS, Replica};
use mr_version::Author;
use std::alloc::{AllocError, Global};
use std::marker::Model;

/// Replicas over a form of knowledge, with their subscribers' ports, and all that they gave.
#[derive(Drop)]
pub struct World<K: Knowledge> {
    alloc: Global,
    members: Vec<Member<K>>,
    pools: Pools,
    answers: Vec<Answered>,
}

impl<K: Knowledge> Model for World<K> {
    ghost use Rattle.mr_world.specs.Kept.{WorldView, world_view};
    ghost use Rattle.mr_world.specs.Pool.{AreFrames};
    ghost use Rattle.mr_world.specs.Promise.{KeepsRules};

    ghost Value = { WorldView K };

    ghost view = { λ w. world_view w.members.items w.pools w.answers.items };

    ghost invariant = { λ w. AreFrames w.pools × KeepsRules K.form (world_view w.members.items w.pools w.answers.items) };
}

impl<K: Knowledge> World<K> {
    ghost use Rattle.mr_model.specs.Moment.{numbered};
    ghost use Rattle.mr_wire.specs.declared.frame.Frame.TheVariants as frame;
    ghost use Rattle.mr_world.specs.Kept.{newest_answered, replica_at};
    ghost use Rattle.mr_world.specs.Made.{IsMadeWorld, IsRefusedBy};
    ghost use Rattle.mr_world.specs.Pool.{GivesFrame};
    ghost use Rattle.mr_world.specs.Run.{Meets};
    ghost use Rattle.mr_world.specs.Promise.{Promises};

    /// A world of these replicas, to which nothing has happened.
    ///
    /// `SameReplica` where two have one id; else `BadLimit` where an event limit isn't 1 to 1,000,000;
    /// else `NoCapacity` where a port would not have 1 to 4,096 places; `OutOfMemory` otherwise. It
    /// costs the ports' places.
    pub fn try_new(alloc: Global, specs: Vec<Spec>) -> Result<World<K>, SpecFault>
        ensures accepted { IfOk result (λ _. spec_refusal specs.items ≡ None) }
        ensures made { IfOk result (IsMadeWorld K.form specs.items) }
        ensures fault { IfErr result (IsRefusedBy (spec_refusal specs.items)) }
    {
        // That there is a knowledge of nothing, for the ids that no replica has.
        let _nothing = K::new(alloc);
        check_specs(&specs)?;
        let Ok(members) = members_of(alloc, specs) else {
            return Err(SpecFault::OutOfMemory);
        };
        Ok(World {
            alloc,
            members,
            pools: Pools::new(alloc),
            answers: Vec::new(alloc),
        })
    }

    /// Each event so far with its answer, in order of time.
    pub fn answers(&self) -> &[Answered]
        ensures { result.now ≡ self.now.answers }
    {
        &self.answers
    }

    /// The newest event with its answer; none where nothing has happened. It is the last of
    /// [`World::answers`].
    pub fn newest(&self) -> Option<&Answered>
        ensures { option_copied result ≡ newest_answered self.now }
    {
        self.answers.last()
    }

    /// The replica of this id, where there is one. It costs a walk over the replicas.
    pub fn replica(&self, id: Author) -> Option<&Replica<K>>
        ensures { option_copied result ≡ replica_at self.now.members id }
    {
        match place_of(&self.members, id) {
            Some(place) => Some(self.members[place].replica()),
            None => None,
        }
    }

    /// How many requests there are: the number of the newest.
    pub fn ask_count(&self) -> u64
        ensures { result ≡ length self.now.asks }
    {
        self.pools.asks().count()
    }

    /// How many records there are: the number of the newest.
    pub fn record_count(&self) -> u64
        ensures { result ≡ length self.now.records }
    {
        self.pools.records().count()
    }

    /// How many receipts there are: the number of the newest.
    pub fn receipt_count(&self) -> u64
        ensures { result ≡ length self.now.receipts }
    {
        self.pools.receipts().count()
    }

    /// The frame of the request of this number, where there is one.
    pub fn ask(&self, number: u64) -> Option<&[u8]>
        ensures { GivesFrame (λ x. frame.Ask x) (numbered self.now.asks number) (option_copied result) }
    {
        self.pools.asks().get(number)
    }

    /// The frame of the record of this number, where there is one.
    pub fn record(&self, number: u64) -> Option<&[u8]>
        ensures { GivesFrame (λ x. frame.Record x) (numbered self.now.records number) (option_copied result) }
    {
        self.pools.records().get(number)
    }

    /// The frame of the receipt of this number, where there is one.
    pub fn receipt(&self, number: u64) -> Option<&[u8]>
        ensures { GivesFrame (λ x. frame.Receipt x) (numbered self.now.receipts number) (option_copied result) }
    {
        self.pools.receipts().get(number)
    }

    /// What holds of each world at each moment: no mail is lost and no version is announced twice; each replica
    /// holds and tells what the history of the world says, and knows with each version what it was made with; what was
    /// answered is what sets say, the frames tell what was issued, and no record was ever taken for forged.
    ///
    /// It computes nothing.
    pub fn promise(&self)
        ensures { Promises K.form self.now }
    {
        promise::<K>();
        // To look at a world is to know what it keeps.
        let _answers = &self.answers;
    }

    /// Lets one event happen, and notes its answer, which [`World::newest`] gives.
    ///
    /// A refusal of its replica, other than for want of memory, is an answer like others.
    /// `NoSuchReplica` where the world has no replica of its id; else `NoSuchFrame` where it names a
    /// number that its pool hasn't got; `OutOfMemory` otherwise: then nothing has changed.
    ///
    /// Afterwards, whatever came of it, all holds that [`World::promise`] says.
    ///
    /// It costs what the replica's step costs, the frame of what it gives, a walk over the replicas, and a
    /// copy of what the event carries or names.
    pub fn happen(&mut self, event: Event) -> Result<(), WorldFault>
        ensures meets { Meets K.form self.old event result self.new }
        ensures promises { Promises K.form self.new }
    {
        let answered = answer_event(
            self.alloc,
            &mut self.members,
            &mut self.pools,
            &mut self.answers,
            event,
        );
        self.promise();
        answered
    }
}

// Members of these specifications, in their order.
#[tactic(auto, using(crate::proofs::Running::Loops::members_begin, crate::proofs::Running::Loops::members_end))]
fn members_of<K: Knowledge>(alloc: Global, specs: Vec<Spec>) -> Result<Vec<Member<K>>, AllocError>
    requires { spec_refusal specs.items ≡ None }
    ensures { IfOk result (λ members. AllZip (IsMadeOf K.form) specs.items members.items) }
{
    let mut members = Vec::new(alloc);
    for spec in specs {
        members.push(member_of(alloc, spec)?)?;
    }
    Ok(members)
}

// A member of this specification.
fn member_of<K: Knowledge>(alloc: Global, spec: Spec) -> Result<Member<K>, AllocError>
    requires limit { (1 ≤ spec.event_limit) × (spec.event_limit ≤ MAX_EVENTS) }
    requires capacity { (1 ≤ spec.port_capacity) × (spec.port_capacity ≤ MAX_CAPACITY) }
    ensures { IfOk result (IsMadeOf K.form spec) }
{
    let indexer = port_with(alloc, spec.port_capacity)?;
    let notifier = port_with(alloc, spec.port_capacity)?;
    match Replica::try_new(alloc, spec.id, spec.filter, spec.event_limit) {
        Ok(replica) => Ok(Member::new(replica, indexer, notifier)),
        Err(_) => unreachable!(),
    }
}

// A port with so many places.
fn port_with(alloc: Global, capacity: usize) -> Result<PlainPort, AllocError>
    requires { (1 ≤ capacity) × (capacity ≤ MAX_CAPACITY) }
    ensures { IfOk result (λ port. port ≡ (new_port capacity).view) }
{
    match PlainPort::try_new(alloc, capacity) {
        Ok(port) => Ok(port),
        Err(PortFault::OutOfMemory) => Err(AllocError),
        Err(PortFault::NoCapacity) => unreachable!(),
    }
}
