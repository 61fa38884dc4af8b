//! A world of replicas: what each holds, all that they gave one another, and ports to their subscribers.
//!
//! A [`World`] is made of [`Spec`]s, one for each replica, and then events happen in it: each is a replica's
//! id with what the replica does, or one of its ports. Where a replica gives a request, a record or a receipt, its frame comes into a pool of
//! the world, with a number from 1, and there it stays: other events deliver it to any replica, as often
//! and in whatever order, or only a part of it. A replica's feed is told to two subscribers, an indexer
//! and a notifier, by a port each.
//!
//! [`World::happen`] lets one event happen, and [`World::run`] a list of them. A replica's refusal is an
//! answer like others; a run stops where an event names a replica or a frame that isn't there, or is
//! answered out of memory, as it may be wherever neither is the case. What had happened before stands, and
//! the event at which it stopped has changed nothing: all that an event may need is at hand before its
//! replica changes.
//!
//! The definitions in `specs/` say what a member of a world does (`Does`), what one event makes of the
//! world, and what a run of it is (`Run`).
//!
//! ```text
//! let spec = Spec { id, filter, event_limit: 1_000_000, port_capacity: 4096 };
//! let world: World<ItemKnowledge> = World::try_new(alloc, vec![in alloc; spec]?)?;
//! let world = world.run(vec![in alloc; Act::Create(message).by(id), Act::Offer(Subscriber::Indexer).by(id)]?)?;
//! assert_eq!(world.answers().len(), 2);
//! ```
#![tactic(auto)]

mod answer;
mod answered;
mod answering;
mod event;
mod fault;
pub mod laws;
mod member;
mod outlet;
mod pool;
mod pools;
pub mod promises;
mod run;
mod spec;
mod task;
mod world;

pub use answer::Answer;
pub use answered::Answered;
pub use event::{Act, Event};
pub use fault::{SpecFault, WorldFault};
pub use mr_model::Subscriber;
pub use run::Stopped;
pub use spec::Spec;
pub use world::World;
