//! Worlds as scenes see them, whatever their form of knowledge is.
use crate::form::{Form, Unjoined};
use anyhow::{Context, Result};
use mr_forms::Knowledge;
use mr_replica::Replica;
use mr_version::Author;
use mr_world::{Answered, Event, Spec, SpecFault, Stopped, World, WorldFault};
use std::alloc::{AllocError, Global};

/// At which event a run stopped, counted from 0, and why.
#[derive(Clone, Copy)]
pub struct Stop {
    pub at: usize,
    pub fault: WorldFault,
}

/// What a world is asked.
pub trait SceneWorld: Drop {
    /// One of these replicas.
    fn try_new(alloc: Global, specs: Vec<Spec>) -> Result<Self, SpecFault>;

    /// Lets these events happen in one run: the world where they have, and where the run stopped.
    fn run(self, events: Vec<Event>) -> (Self, Option<Stop>);

    /// What has happened, with the answers.
    fn answers(&self) -> &[Answered];

    /// Adds what the replica of this id holds, tells its subscribers and has admitted, as Rust prints it.
    fn push_replica(&self, text: &mut String, id: Author) -> Result<()>;
}

/// What a world of such replicas is asked.
pub trait Holds<C>: Drop {
    /// The replica of this id.
    fn replica(&self, id: Author) -> Option<&C>;

    /// The world that explains the logs of these, or why there is none.
    fn join(alloc: Global, ends: &[C]) -> Result<Self, Unjoined>;
}

impl<K: Knowledge> SceneWorld for World<K> {
    fn try_new(alloc: Global, specs: Vec<Spec>) -> Result<World<K>, SpecFault> {
        World::try_new(alloc, specs)
    }

    fn run(self, events: Vec<Event>) -> (World<K>, Option<Stop>) {
        let ran = World::run(self, events);
        let stop = stop_of(&ran);
        (world_of(ran), stop)
    }

    fn answers(&self) -> &[Answered] {
        World::answers(self)
    }

    fn push_replica(&self, text: &mut String, id: Author) -> Result<()> {
        let replica = World::replica(self, id).context("no such replica")?;
        push_whole(text, replica)?;
        Ok(())
    }
}

impl<K: Form> Holds<Replica<K>> for World<K> {
    fn replica(&self, id: Author) -> Option<&Replica<K>> {
        World::replica(self, id)
    }

    fn join(alloc: Global, ends: &[Replica<K>]) -> Result<World<K>, Unjoined> {
        K::join(alloc, ends)
    }
}

/// Where a run stopped, and why.
fn stop_of<K: Knowledge>(ran: &Result<World<K>, Stopped<K>>) -> Option<Stop> {
    match ran {
        Ok(_) => None,
        Err(stopped) => Some(Stop {
            at: stopped.at,
            fault: stopped.fault,
        }),
    }
}

/// The world that stands after a run.
fn world_of<K: Knowledge>(ran: Result<World<K>, Stopped<K>>) -> World<K> {
    match ran {
        Ok(world) => world,
        Err(stopped) => stopped.world,
    }
}

/// What a replica holds, tells its subscribers and has admitted.
fn push_whole<K: Knowledge>(text: &mut String, replica: &Replica<K>) -> Result<(), AllocError> {
    let (heads, push_outs) = (replica.heads(), replica.push_outs());
    write!(text, "heads {heads:?} push-outs {push_outs:?}\n")?;
    let (feed, log) = (replica.feed(), replica.log());
    write!(text, "feed {feed:?} log {log:?}\n")
}
