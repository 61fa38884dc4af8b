//! The replica, and its step.
ghost use Rattle.std.specs.Prelude.{◌≡◌, ◌≤◌, ◌↔◌, ◌≢◌, IsOk, IfOk, IfErr, IsErrOf, Err, length};
ghost use Rattle.std.specs.Option.{option_copied};

mod admission;
mod answer;
mod contents;
mod copy;
mod create;
mod cut_in;
mod cut_out;
mod edit;
mod end;
mod forged;
mod issue;
mod next;
mod parts;
mod prepare;
mod pull;
mod receive;
mod release;
mod replay;
mod retire;
mod step;
mod step_then;
mod take;
mod vouch;

use crate::{Event, Revision};
use mr_concise::{ConciseVector, concise_fragments};
use mr_feed::Entry;
use mr_filter::Filter;
use mr_forms::{FormFault, Fragment, Knowledge};
use mr_version::{Author, ItemId, Version};
use parts::Parts;
pub use receive::Received;
pub use replay::ReplayFault;
use std::alloc::{AllocError, Global};
use std::marker::Model;
use thiserror::Error;

/// Why there is no such replica.
#[derive(Clone, Copy, Debug, PartialEq, Eq, Error)]
pub enum ReplicaFault {
    #[error("an event limit is 1 to 1,000,000")]
    BadLimit,
}

impl ReplicaFault {
    /// The fault's number.
    pub fn number(self) -> u8
        ensures { result ≡ 1 }
    {
        match self {
            ReplicaFault::BadLimit => 1,
        }
    }
}

/// The highest event limit of a replica. A Retire is admitted past the limit, so a log has at most one event
/// more.
pub const MAX_EVENTS: u32 = 1_000_000;

// What a replica is, of which its calls keep what holds of each.
#[derive(Drop)]
struct Core<K: Knowledge> {
    alloc: Global,
    parts: Parts<K>,
}

impl<K: Knowledge> Model for Core<K> {
    ghost use Rattle.std.specs.Prelude.{◌≤◌, length};
    ghost use Rattle.mr_replica.specs.State.{State};
    ghost use Rattle.mr_replica.specs.inner.Sound.{IsSound};
    ghost use Rattle.mr_replica.specs.inner.Parts.{parts_seen};

    ghost Value = { State K };

    ghost view = { λ r. parts_seen r.parts };

    ghost invariant = { λ r. IsSound K.form (parts_seen r.parts) };
}

/// A replica over a form of knowledge. It is its log replayed: a fresh one of its id, filter and limit that admits
/// the events of its log is the same.
#[derive(Drop)]
pub struct Replica<K: Knowledge> {
    core: Core<K>,
}

impl<K: Knowledge> Model for Replica<K> {
    ghost use Rattle.mr_replica.specs.State.{State};
    ghost use Rattle.mr_replica.specs.Replay.{IsItsLog};

    ghost Value = { State K };

    ghost view = { λ r. r.core };

    ghost invariant = { λ r. IsItsLog K.form r.core };
}

impl<K: Knowledge> Replica<K> {
    ghost use Rattle.std.specs.Prelude.{false, IsTrue, List, [], OnOk};
    ghost use Rattle.mr_forms.specs.Known.{AreSame};
    ghost use Rattle.mr_concise.specs.Vector.{vector_has};
    ghost use Rattle.mr_concise.specs.Fragments.{ConciseFragment, knowledge_text};
    ghost use Rattle.mr_replica.specs.State.{new_state, held};
    ghost use Rattle.mr_replica.specs.Folded.{FoldsToStore, FoldsToPushOuts};
    ghost use Rattle.mr_store.specs.Revisions.{AreInVersionOrder, AreApart, AreConflicts};
    ghost use Rattle.mr_replica.specs.Fragments.{HaveKnown, AreFragmentsOf, HasHoleyPart};
    ghost use Rattle.mr_replica.specs.Replay.{IsItsLog};
    ghost use Rattle.mr_session.specs.Table.{IsTable, open_numbers};

    /// A replica of this id, with nothing in it. It admits up to `event_limit` events, 1 to
    /// 1,000,000, and a Retire past them; any other limit is a `BadLimit`. Nothing is allocated; what grows later takes its
    /// memory from `alloc`.
    pub fn try_new(
        alloc: Global,
        id: Author,
        filter: Filter,
        event_limit: u32,
    ) -> Result<Replica<K>, ReplicaFault>
        ensures exact { IsOk result ↔ ((1 ≤ event_limit) × (event_limit ≤ MAX_EVENTS)) }
        ensures fault { IfErr result (λ fault. fault ≡ ReplicaFault.BadLimit) }
        ensures knows_nothing { IfOk result (λ replica. AreSame (K.form.known replica.knowledge) (λ _ _. false)) }
        ensures is_empty { IfOk result (λ replica. replica ≡ new_state id filter event_limit replica.knowledge) }
    {
        let core = Core::try_new(alloc, id, filter, event_limit)?;
        Ok(Replica { core })
    }

    /// The replica's id, which is the author of the versions that it issues.
    pub fn id(&self) -> Author
        ensures { result ≡ self.now.id }
    {
        self.core.parts.id
    }

    /// Which messages it selects.
    pub fn filter(&self) -> &Filter
        ensures { result.now ≡ self.now.filter }
    {
        &self.core.parts.filter
    }

    /// How many events it admits; a Retire is admitted past them, once.
    pub fn event_limit(&self) -> u32
        ensures is { result ≡ self.now.event_limit }
        ensures low { 1 ≤ result }
        ensures high { result ≤ MAX_EVENTS }
    {
        self.core.parts.event_limit
    }

    /// Whether it has retired: it admits nothing more but to tell others.
    pub fn is_retired(&self) -> bool
        ensures { result ≡ self.now.is_retired }
    {
        self.core.parts.is_retired
    }

    /// The held revisions that the filter selects, in version order.
    pub fn heads(&self) -> &[Revision]
        ensures all { result.now ≡ self.now.heads }
        ensures in_order { AreInVersionOrder self.now.heads }
    {
        self.core.parts.contents.store().heads()
    }

    /// The held own revisions that the filter does not select, in version order. None of them has the
    /// version of a head. A replica that has retired has none.
    pub fn push_outs(&self) -> &[Revision]
        ensures all { result.now ≡ self.now.push_outs }
        ensures in_order { AreInVersionOrder self.now.push_outs }
        ensures apart { AreApart self.now.heads self.now.push_outs }
        ensures released { IsTrue self.now.is_retired → self.now.push_outs ≡ [] }
    {
        self.core.parts.contents.store().push_outs()
    }

    /// The revision of a version that is held, as a head or a push-out. It costs two binary searches.
    pub fn held(&self, version: Version) -> Option<&Revision>
        ensures { option_copied result ≡ held self.now version }
    {
        self.core.held(version)
    }

    /// The items with two or more heads, in rising order. It costs a walk over the items that have
    /// another head than their first version.
    pub fn conflicts(&self) -> Result<Vec<ItemId>, AllocError>
        ensures { IfOk result (λ items. AreConflicts self.now.heads items.items) }
    {
        self.core.parts.contents.store().conflicts()
    }

    /// Whether the version is known for the item. Its cost is that of the form of knowledge.
    pub fn knows(&self, item: ItemId, version: Version) -> bool
        ensures { result ≡ K.form.known self.now.knowledge item version }
    {
        self.core.parts.knowledge.knows(item, version)
    }

    /// What is known.
    pub fn knowledge(&self) -> &K
        ensures { result.now ≡ self.now.knowledge }
    {
        &self.core.parts.knowledge
    }

    /// What is known, as fragments with concise vectors, as they leave the replica: one for each part
    /// that the form has of this knowledge, in their order, so that they have one text. Each one that
    /// lists items lists at least one.
    ///
    /// `TooManyHoles` only where one of these parts has a column with more than 4,096 holes; where there
    /// is such a part it answers that or `OutOfMemory`. It costs the form's fragments and their vectors.
    pub fn fragments(&self) -> Result<Vec<Fragment<ConciseVector>>, FormFault>
        ensures ok { IfOk result (λ fragments. HaveKnown vector_has (K.form.known self.now.knowledge) fragments.items) }
        ensures parts { IfOk result (λ fragments. AreFragmentsOf (K.form.is_part self.now.knowledge) fragments.items) }
        ensures one_text { IfOk result (λ fragments. (others : List ConciseFragment) → AreFragmentsOf (K.form.is_part self.now.knowledge) others → knowledge_text others ≡ knowledge_text fragments.items) }
        ensures few { OnOk result (¬ HasHoleyPart (K.form.is_part self.now.knowledge)) }
        ensures holes { IsErrOf result FormFault.TooManyHoles → HasHoleyPart (K.form.is_part self.now.knowledge) }
        ensures items { result ≢ Err FormFault.TooManyItems }
    {
        self.core.fragments()
    }

    /// The changes of the heads, in order of time. Somebody who goes through all of them has each head's version
    /// with its card and item, and no other.
    pub fn feed(&self) -> &[Entry]
        ensures all { result.now ≡ self.now.feed }
        ensures folds { FoldsToStore self.now }
    {
        self.core.parts.contents.feed()
    }

    /// The changes of the push-outs, in order of time: an own revision comes among them where the filter doesn't
    /// select it, and leaves where it is released or superseded. Somebody who goes through all of them has each
    /// push-out's version with its card and item, and no other.
    pub fn push_out_feed(&self) -> &[Entry]
        ensures all { result.now ≡ self.now.push_out_feed }
        ensures folds { FoldsToPushOuts self.now }
    {
        self.core.parts.contents.push_out_feed()
    }

    /// The admitted events, in order of time. The replica is its log replayed.
    pub fn log(&self) -> &[Event]
        ensures all { result.now ≡ self.now.log }
        ensures issued_few { self.now.issued ≤ length self.now.log }
        ensures is_its_log { IsItsLog K.form self.now }
    {
        self.core.parts.contents.log()
    }

    /// The numbers of the open sessions, rising: at most eight. It costs a list of them.
    pub fn open_sessions(&self) -> Result<Vec<u64>, AllocError>
        ensures all { IfOk result (λ numbers. numbers.items ≡ open_numbers self.now.sessions) }
        ensures kept { IsTable self.now.sessions }
    {
        self.core.parts.sessions.numbers()
    }

    /// The numbers of the open streams, rising: at most eight. It costs a list of them.
    pub fn open_streams(&self) -> Result<Vec<u64>, AllocError>
        ensures all { IfOk result (λ numbers. numbers.items ≡ open_numbers self.now.streams) }
        ensures kept { IsTable self.now.streams }
    {
        self.core.parts.streams.numbers()
    }
}

impl<K: Knowledge> Core<K> {
    ghost use Rattle.std.specs.Prelude.{false, List, OnOk};
    ghost use Rattle.mr_forms.specs.Known.{AreSame};
    ghost use Rattle.mr_concise.specs.Vector.{vector_has};
    ghost use Rattle.mr_concise.specs.Fragments.{ConciseFragment, knowledge_text};
    ghost use Rattle.mr_replica.specs.State.{new_state, held};
    ghost use Rattle.mr_replica.specs.Fragments.{HaveKnown, AreFragmentsOf, HasHoleyPart};

    // As the replica's methods of these names.
    fn try_new(
        alloc: Global,
        id: Author,
        filter: Filter,
        event_limit: u32,
    ) -> Result<Core<K>, ReplicaFault>
        ensures exact { IsOk result ↔ ((1 ≤ event_limit) × (event_limit ≤ MAX_EVENTS)) }
        ensures fault { IfErr result (λ fault. fault ≡ ReplicaFault.BadLimit) }
        ensures knows_nothing { IfOk result (λ core. AreSame (K.form.known core.knowledge) (λ _ _. false)) }
        ensures is_empty { IfOk result (λ core. core ≡ new_state id filter event_limit core.knowledge) }
    {
        if event_limit == 0 || event_limit > MAX_EVENTS {
            return Err(ReplicaFault::BadLimit);
        }
        let parts = Parts::new(alloc, id, filter, event_limit);
        Ok(Core { alloc, parts })
    }

    fn held(&self, version: Version) -> Option<&Revision>
        ensures { option_copied result ≡ held self.now version }
    {
        self.parts.contents.store().held(version)
    }

    fn fragments(&self) -> Result<Vec<Fragment<ConciseVector>>, FormFault>
        ensures ok { IfOk result (λ fragments. HaveKnown vector_has (K.form.known self.now.knowledge) fragments.items) }
        ensures parts { IfOk result (λ fragments. AreFragmentsOf (K.form.is_part self.now.knowledge) fragments.items) }
        ensures one_text { IfOk result (λ fragments. (others : List ConciseFragment) → AreFragmentsOf (K.form.is_part self.now.knowledge) others → knowledge_text others ≡ knowledge_text fragments.items) }
        ensures few { OnOk result (¬ HasHoleyPart (K.form.is_part self.now.knowledge)) }
        ensures holes { IsErrOf result FormFault.TooManyHoles → HasHoleyPart (K.form.is_part self.now.knowledge) }
        ensures items { result ≢ Err FormFault.TooManyItems }
    {
        let Ok(fragments) = self.parts.knowledge.fragments() else {
            return Err(FormFault::OutOfMemory);
        };
        concise_fragments(self.alloc, fragments)
    }
}
