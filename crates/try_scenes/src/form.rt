//! The forms of knowledge over which scenes are played.
use mr_forms::{Knowledge, OneValue, PlainKnowledge};
use mr_itemset::{ItemKnowledge, SparingKnowledge};
use mr_replica::Replica;
use mr_settle::{JoinFault, are_distinct, join_logs};
use mr_world::World;
use std::alloc::Global;
use thiserror::Error;

/// Why logs are not joined.
#[derive(Clone, Copy, Debug, Error)]
pub enum Unjoined {
    #[error("two have one id")]
    OneIdTwice,
    #[error("plain knowledge has several values for one meaning")]
    SeveralValues,
    #[error("{0}")]
    Fault(JoinFault),
}

/// A form of knowledge over which scenes are played.
pub trait Form: Knowledge {
    /// The word for it in a scene.
    fn name() -> &'static str;

    /// The world that explains the logs of these, or why there is none.
    fn join(alloc: Global, ends: &[Replica<Self>]) -> Result<World<Self>, Unjoined>;
}

impl Form for ItemKnowledge {
    fn name() -> &'static str {
        "items"
    }

    fn join(
        alloc: Global,
        ends: &[Replica<ItemKnowledge>],
    ) -> Result<World<ItemKnowledge>, Unjoined> {
        join_by_value(alloc, ends)
    }
}

impl Form for SparingKnowledge {
    fn name() -> &'static str {
        "sparing"
    }

    fn join(
        alloc: Global,
        ends: &[Replica<SparingKnowledge>],
    ) -> Result<World<SparingKnowledge>, Unjoined> {
        join_by_value(alloc, ends)
    }
}

impl Form for PlainKnowledge {
    fn name() -> &'static str {
        "plain"
    }

    fn join(
        _alloc: Global,
        _ends: &[Replica<PlainKnowledge>],
    ) -> Result<World<PlainKnowledge>, Unjoined> {
        Err(Unjoined::SeveralValues)
    }
}

/// The world that explains the logs of these.
fn join_by_value<K: OneValue>(alloc: Global, ends: &[Replica<K>]) -> Result<World<K>, Unjoined> {
    if !are_distinct(ends) {
        return Err(Unjoined::OneIdTwice);
    }
    join_logs(alloc, ends).map_err(Unjoined::Fault)
}
