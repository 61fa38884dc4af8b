//! What a stream keeps of the Ask that it answers.
ghost use Rattle.std.specs.Prelude.{◌≡◌, ◌≤◌, ◌<◌, ◌&&◌, ℕ, not, true, IfOk, IfSome};
ghost use Rattle.mr_version.specs.Name.{Name, name_eq};
ghost use Rattle.mr_concise.specs.Vector.{vector_has};
ghost use Rattle.mr_session.specs.Stream.{Asked, asked_of, is_item, is_wanted, claimed};

use mr_concise::{ConciseVector, Source};
use mr_filter::Filter;
use mr_madewith::Revision;
use mr_store::FragmentIndex;
use mr_version::{Author, ItemId, Version};
use mr_wire::Ask;
use std::alloc::{AllocError, Global};
use std::marker::Model;

/// What was asked for: by whom, for which of its sessions, what its filter selects, and what it claims to
/// know, found by item.
#[derive(Drop)]
pub struct AskedOf {
    ask: Ask,
    index: FragmentIndex,
}

impl Model for AskedOf {
    ghost use Rattle.std.specs.Prelude.{map};
    ghost use Rattle.mr_store.specs.FragmentIndex.{Finds};
    ghost use Rattle.mr_session.specs.Stream.{Asked, asked_of};

    ghost Value = { Asked };

    ghost view = { λ a. asked_of a.ask };

    ghost invariant = { λ a. Finds (map (λ piece. piece.items) a.ask.fragments) a.index };
}

impl AskedOf {
    /// What a request asks for: what its filter selects, and its fragments don't claim to be known. It shares
    /// the fragments with the request, and sorts the items that they list.
    pub fn new(alloc: Global, ask: &Ask) -> Result<AskedOf, AllocError>
        ensures { IfOk result (λ asked. asked ≡ asked_of ask.now) }
    {
        let index = FragmentIndex::new(alloc, ask.fragments())?;
        Ok(AskedOf {
            ask: ask.copy()?,
            index,
        })
    }

    /// An equal one. It shares the fragments.
    pub fn copy(&self) -> Result<AskedOf, AllocError>
        ensures { IfOk result (λ asked. asked ≡ self.now) }
    {
        Ok(AskedOf {
            ask: self.ask.copy()?,
            index: self.index.copy()?,
        })
    }

    /// Who asks.
    pub fn target(&self) -> Author
        ensures { result ≡ self.now.target }
    {
        self.ask.target()
    }

    /// For which of its sessions, numbered from 1.
    pub fn session(&self) -> u64
        ensures is { result ≡ self.now.session }
        ensures kept { 1 ≤ self.now.session }
    {
        self.ask.session()
    }

    /// Whether the one who asks claims to know the version for the item. It costs a binary search among all
    /// listed items, and two in the vector of each fragment that is of the item.
    pub fn knows(&self, item: ItemId, version: Version) -> bool
        ensures { result ≡ claimed self.now.claims item version }
    {
        self.index.covers(self.ask.fragments(), item, version)
    }

    /// The first counter from the version's on that the one who asks may not claim for all items: the author's
    /// counters from the version's up to this one are claimed for each item. It costs two binary searches in the
    /// vector of the first fragment of all items.
    pub fn known_until(&self, version: Version) -> u32
        ensures { (counter : ℕ) → version.counter ≤ counter → counter < result → (item : Name) → claimed self.now.claims item (record { author = version.author; counter = counter }) ≡ true }
    {
        match self.first_general() {
            Some(vector) => vector.next_out(version.author(), version.counter()),
            None => version.counter(),
        }
    }

    // The vector of the first fragment of all items, if there is one.
    fn first_general(&self) -> Option<&ConciseVector>
        ensures { IfSome result (λ vector. (item v : Name) → vector_has vector.now v ≡ true → claimed self.now.claims item v ≡ true) }
    {
        let place = self.index.first_general()?;
        let fragment = self.ask.fragments().get(place)?;
        Some(&fragment.as_fragment().vector)
    }

    /// Whether the filter of the one who asks selects the revision.
    pub fn selects(&self, revision: &Revision) -> bool
        ensures { result ≡ is_item self.now revision.now }
    {
        self.ask.filter().select(revision.message())
    }

    /// Whether the one who asks is to be told of the revision: it isn't known, and it is selected, or a
    /// later version of an item of which the first is known.
    pub fn wants(&self, revision: &Revision) -> bool
        ensures { result ≡ is_wanted self.now revision.now }
    {
        let item = revision.item();
        let version = revision.version();
        if self.knows(item, version) {
            return false;
        }
        self.selects(revision) || self.is_superseded_by(item, version)
    }

    // Whether the version is a later one of an item of which the first is known.
    fn is_superseded_by(&self, item: ItemId, version: Version) -> bool
        ensures { result ≡ (not (name_eq item version) && claimed self.now.claims item item) }
    {
        let first = item.creator();
        first != version && self.knows(item, first)
    }
}
