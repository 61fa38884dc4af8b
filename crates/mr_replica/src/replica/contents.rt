//! What a replica holds and tells.
ghost use Rattle.std.specs.Prelude.{◌≡◌, [], IfOk, OnOk};

mod arrival;
mod changes;
mod entries;

use crate::Event;
pub use arrival::Arrival;
pub use entries::{entries_of_gone, entries_of_left, news};
use mr_feed::{Entry, Feed};
use mr_madewith::Trail;
use mr_store::Store;
use std::alloc::{AllocError, Global};
use std::marker::Model;

/// The store, the trail, the feeds and the log of a replica, which change together.
#[derive(Drop)]
pub struct Contents {
    alloc: Global,
    store: Store,
    trail: Trail,
    feed: Feed,
    push_out_feed: Feed,
    log: Vec<Event>,
}

impl Model for Contents {
    ghost use Rattle.std.specs.Prelude.{◌-◌, vec_len, vec_capacity};
    ghost use Rattle.mr_replica.specs.inner.Contents.{ContentParts};

    ghost Value = { ContentParts };

    ghost view = { λ c. record { store = c.store; trail = c.trail; feed = c.feed; push_out_feed = c.push_out_feed; log = c.log.items; log_room = vec_capacity c.log - vec_len c.log } };
}

impl Contents {
    ghost use Rattle.mr_replica.specs.inner.Contents.{HoldsSame};

    /// Nothing. It allocates nothing.
    pub fn new(alloc: Global) -> Contents
        ensures heads { result.store.heads ≡ [] }
        ensures push_outs { result.store.push_outs ≡ [] }
        ensures trail { result.trail.lasts ≡ [] }
        ensures feed { result.feed.entries ≡ [] }
        ensures push_out_feed { result.push_out_feed.entries ≡ [] }
        ensures log { result.log ≡ [] }
    {
        Contents {
            alloc,
            store: Store::new(alloc),
            trail: Trail::new(alloc),
            feed: Feed::new(alloc),
            push_out_feed: Feed::new(alloc),
            log: Vec::new(alloc),
        }
    }

    /// The held revisions.
    pub fn store(&self) -> &Store
        ensures { result.now ≡ self.now.store }
    {
        &self.store
    }

    /// The last own version of each item.
    pub fn trail(&self) -> &Trail
        ensures { result.now ≡ self.now.trail }
    {
        &self.trail
    }

    /// The changes of the heads, in order of time.
    pub fn feed(&self) -> &[Entry]
        ensures { result.now ≡ self.now.feed.entries }
    {
        self.feed.entries()
    }

    /// The changes of the push-outs, in order of time.
    pub fn push_out_feed(&self) -> &[Entry]
        ensures { result.now ≡ self.now.push_out_feed.entries }
    {
        self.push_out_feed.entries()
    }

    /// The admitted events, in order of time.
    pub fn log(&self) -> &[Event]
        ensures { result.now ≡ self.now.log }
    {
        &self.log
    }

    /// Equal contents, with no room.
    pub fn copy(&self) -> Result<Contents, AllocError>
        ensures { IfOk result (HoldsSame self.now) }
    {
        let mut copy = Contents::new(self.alloc);
        copy.copy_from(self)?;
        Ok(copy)
    }

    // Holds what the others hold, or memory is wanting.
    fn copy_from(&mut self, others: &Contents) -> Result<(), AllocError>
        ensures { OnOk result (HoldsSame others.now self.new) }
    {
        self.store = others.store.copy()?;
        self.trail = others.trail.copy()?;
        self.feed = others.feed.copy()?;
        self.push_out_feed = others.push_out_feed.copy()?;
        self.log = copied_log(self.alloc, &others.log)?;
        Ok(())
    }
}

// Equal events, in the same order.
fn copied_log(alloc: Global, log: &[Event]) -> Result<Vec<Event>, AllocError>
    ensures { IfOk result (λ copied. copied.items ≡ log.now) }
{
    let mut copied = Vec::with_capacity(alloc, log.len())?;
    for event in log {
        copied.push(event.copy()?)?;
    }
    Ok(copied)
}
