//! Changes of what a replica holds and tells: room is made first, and then none can fail.
ghost use Rattle.std.specs.Prelude.{◌≡◌, ◌<◌, ◌≤◌, ◌++◌, ◌∷◌, [], not, filter, None, IfSome, OnOk, vec_len};
ghost use Rattle.mr_madewith.specs.Revision.{has_below};
ghost use Rattle.mr_madewith.specs.Trail.{noted};
ghost use Rattle.mr_concise.specs.Vector.{vector_has};
ghost use Rattle.mr_store.specs.Revisions.{AreInVersionOrder, revision_of, holds, left_by};
ghost use Rattle.mr_replica.specs.Issue.{entered_if};
ghost use Rattle.mr_replica.specs.inner.Contents.{part_for, HasPlace};
ghost use Rattle.mr_replica.specs.Receive.{arrived};
ghost use Rattle.mr_replica.specs.Release.{vouched};

use super::{Arrival, Contents};
use crate::Event;
use mr_concise::ConciseVector;
use mr_feed::{Entry, Feed};
use mr_madewith::Revision;
use mr_store::Part;
use mr_version::ItemId;
use mr_wire::Receipt;
use std::alloc::AllocError;

impl Contents {
    ghost use Rattle.mr_replica.specs.inner.Contents.{HasRoom, HoldsSame};

    /// Makes room for the arrival and one event.
    pub fn reserve(&mut self, arrival: &Arrival) -> Result<(), AllocError>
        ensures same { HoldsSame self.old self.new }
        ensures room { OnOk result (HasRoom arrival.now.selected arrival.now.revision (vec_len arrival.now.entries) (vec_len arrival.now.push_out_entries) self.new) }
    {
        self.store
            .reserve(part_for(arrival.selected), &arrival.revision)?;
        self.trail.reserve()?;
        self.feed.reserve(arrival.entries.len())?;
        self.push_out_feed.reserve(arrival.push_out_entries.len())?;
        self.log.reserve(1)
    }

    /// Makes room for one event.
    pub fn reserve_event(&mut self) -> Result<(), AllocError>
        ensures same { HoldsSame self.old self.new }
        ensures room { OnOk result (0 < self.new.log_room) }
    {
        self.log.reserve(1)
    }

    /// Makes room for so many entries of the push-outs, and for one event.
    pub fn reserve_gone(&mut self, entries: usize) -> Result<(), AllocError>
        ensures same { HoldsSame self.old self.new }
        ensures push_out_feed { OnOk result (entries ≤ self.new.push_out_feed.room) }
        ensures log { OnOk result (0 < self.new.log_room) }
    {
        self.push_out_feed.reserve(entries)?;
        self.log.reserve(1)
    }

    /// Notes an event, for which there is room, in the log.
    pub fn note_event(&mut self, event: Event)
        requires { 0 < self.old.log_room }
        ensures heads { self.new.store.heads ≡ self.old.store.heads }
        ensures push_outs { self.new.store.push_outs ≡ self.old.store.push_outs }
        ensures trail { self.new.trail.lasts ≡ self.old.trail.lasts }
        ensures feed { self.new.feed.entries ≡ self.old.feed.entries }
        ensures push_out_feed { self.new.push_out_feed.entries ≡ self.old.push_out_feed.entries }
        ensures log { self.new.log ≡ self.old.log ++ event ∷ [] }
    {
        self.log.push_reserved(event);
    }

    /// Makes room for a revision that comes to the heads, if there is one, for so many entries of the heads
    /// and of the push-outs, and for one event.
    pub fn reserve_taken(
        &mut self,
        comer: &Option<Revision>,
        entries: usize,
        push_out_entries: usize,
    ) -> Result<(), AllocError>
        ensures same { HoldsSame self.old self.new }
        ensures store { OnOk result (HasPlace comer.now self.new.store) }
        ensures feed { OnOk result (entries ≤ self.new.feed.room) }
        ensures push_out_feed { OnOk result (push_out_entries ≤ self.new.push_out_feed.room) }
        ensures log { OnOk result (0 < self.new.log_room) }
    {
        if let Some(revision) = comer {
            self.store.reserve(Part::Heads, revision)?;
        }
        self.feed.reserve(entries)?;
        self.push_out_feed.reserve(push_out_entries)?;
        self.log.reserve(1)
    }

    /// What a version of the item with this `below` supersedes leaves, and the revision comes to the
    /// heads, if there is one.
    #[tactic(auto, using(crate::proofs::Staying::stays_new))]
    pub fn learn(
        &mut self,
        item: ItemId,
        below: &ConciseVector,
        comer: Option<Revision>,
        entries: Vec<Entry>,
        push_out_entries: Vec<Entry>,
    )
        requires place { HasPlace comer self.old.store }
        requires new { IfSome comer (λ r. revision_of (self.old.store.heads ++ self.old.store.push_outs) r.version ≡ None) }
        requires room { vec_len entries ≤ self.old.feed.room }
        requires push_out_room { vec_len push_out_entries ≤ self.old.push_out_feed.room }
        ensures heads { self.new.store.heads ≡ arrived comer (left_by item (vector_has below.now) self.old.store.heads) }
        ensures push_outs { self.new.store.push_outs ≡ left_by item (vector_has below.now) self.old.store.push_outs }
        ensures trail { self.new.trail.lasts ≡ self.old.trail.lasts }
        ensures feed { self.new.feed.entries ≡ self.old.feed.entries ++ entries.items }
        ensures push_out_feed { self.new.push_out_feed.entries ≡ self.old.push_out_feed.entries ++ push_out_entries.items }
        ensures log { self.new.log ≡ self.old.log }
        ensures log_room { self.new.log_room ≡ self.old.log_room }
    {
        self.store.remove_below(item, below);
        if let Some(revision) = comer {
            self.store.enter(Part::Heads, revision);
        }
        tell(&mut self.feed, entries);
        tell(&mut self.push_out_feed, push_out_entries);
    }

    /// The heads leave that are of the version of one of these revisions, which stand in version order.
    pub fn drop_heads(&mut self, left: Vec<Revision>, entries: Vec<Entry>)
        requires in_order { AreInVersionOrder left.items }
        requires room { vec_len entries ≤ self.old.feed.room }
        ensures heads { self.new.store.heads ≡ filter (λ r. not (holds left.items r.version)) self.old.store.heads }
        ensures push_outs { self.new.store.push_outs ≡ self.old.store.push_outs }
        ensures trail { self.new.trail.lasts ≡ self.old.trail.lasts }
        ensures feed { self.new.feed.entries ≡ self.old.feed.entries ++ entries.items }
        ensures push_out_feed { self.new.push_out_feed.entries ≡ self.old.push_out_feed.entries }
        ensures log { self.new.log ≡ self.old.log }
        ensures log_room { self.new.log_room ≡ self.old.log_room }
    {
        self.store.remove_heads(&left);
        tell(&mut self.feed, entries);
    }

    /// Lets go of the push-outs of the receipt's item that are its version, or below it.
    pub fn release(&mut self, receipt: &Receipt, entries: Vec<Entry>)
        requires room { vec_len entries ≤ self.old.push_out_feed.room }
        ensures heads { self.new.store.heads ≡ self.old.store.heads }
        ensures push_outs { self.new.store.push_outs ≡ left_by receipt.now.descent.item (vouched receipt.now.descent) self.old.store.push_outs }
        ensures trail { self.new.trail.lasts ≡ self.old.trail.lasts }
        ensures feed { self.new.feed.entries ≡ self.old.feed.entries }
        ensures push_out_feed { self.new.push_out_feed.entries ≡ self.old.push_out_feed.entries ++ entries.items }
        ensures log { self.new.log ≡ self.old.log }
        ensures log_room { self.new.log_room ≡ self.old.log_room }
    {
        let descent = &receipt.descent;
        self.store
            .drop_push_outs(descent.item(), descent.version(), descent.below());
        tell(&mut self.push_out_feed, entries);
    }

    /// Lets a revision enter where there is room: what it supersedes leaves.
    #[tactic(auto, using(crate::proofs::Staying::stays_new))]
    pub fn enter(&mut self, arrival: Arrival)
        requires room { HasRoom arrival.selected arrival.revision (vec_len arrival.entries) (vec_len arrival.push_out_entries) self.old }
        requires new { revision_of (self.old.store.heads ++ self.old.store.push_outs) arrival.revision.version ≡ None }
        ensures heads { self.new.store.heads ≡ entered_if arrival.selected arrival.revision (left_by arrival.revision.item (has_below arrival.revision) self.old.store.heads) }
        ensures push_outs { self.new.store.push_outs ≡ entered_if (not arrival.selected) arrival.revision (left_by arrival.revision.item (has_below arrival.revision) self.old.store.push_outs) }
        ensures trail { self.new.trail.lasts ≡ noted arrival.last self.old.trail.lasts }
        ensures feed { self.new.feed.entries ≡ self.old.feed.entries ++ arrival.entries.items }
        ensures push_out_feed { self.new.push_out_feed.entries ≡ self.old.push_out_feed.entries ++ arrival.push_out_entries.items }
        ensures log { self.new.log ≡ self.old.log }
        ensures log_room { self.new.log_room ≡ self.old.log_room }
    {
        let Arrival {
            selected,
            revision,
            last,
            entries,
            push_out_entries,
        } = arrival;
        self.store.remove_below(revision.item(), revision.below());
        self.store.enter(part_for(selected), revision);
        self.trail.note_reserved(last);
        tell(&mut self.feed, entries);
        tell(&mut self.push_out_feed, push_out_entries);
    }
}

// The part of the store that a revision enters.
fn part_for(selected: bool) -> Part
    ensures { result ≡ part_for selected }
{
    if selected {
        Part::Heads
    } else {
        Part::PushOuts
    }
}

// Puts the entries behind those of the feed.
fn tell(feed: &mut Feed, entries: Vec<Entry>)
    requires { vec_len entries ≤ feed.old.room }
    ensures { feed.new.entries ≡ feed.old.entries ++ entries.items }
{
    for entry in entries {
        feed.push_reserved(entry);
    }
}
