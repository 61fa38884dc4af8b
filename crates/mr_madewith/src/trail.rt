//! The trail: an author's last version of each item.
ghost use Rattle.std.specs.Prelude.{◌≡◌, ◌<◌, [], IfOk, IfErr, OnOk, OnErr};
ghost use Rattle.std.specs.Option.{option_copied};
ghost use Rattle.mr_madewith.specs.Keyed.{AreRising};
ghost use Rattle.mr_madewith.specs.inner.Search.{IsFoundAt, IsGapFor};
ghost use Rattle.mr_madewith.specs.Trail.{item_of_last, last_of, noted};

use crate::Revision;
use mr_version::ItemId;
use std::alloc::{AllocError, Global};
use std::marker::Model;

/// An author's last version of each item of which it made one.
///
/// It keeps such a version, with what this supersedes, after it has left the store, so that the author's
/// versions of an item form a chain.
#[derive(Debug, Drop)]
pub struct Trail {
    alloc: Global,
    lasts: Vec<Revision>,
}

impl Model for Trail {
    ghost use Rattle.std.specs.Prelude.{◌-◌, vec_len, vec_capacity};
    ghost use Rattle.mr_madewith.specs.Keyed.{AreRising};
    ghost use Rattle.mr_madewith.specs.Trail.{Track, item_of_last};

    ghost Value = { Track };

    ghost view = { λ t. record { lasts = t.lasts.items; room = vec_capacity t.lasts - vec_len t.lasts } };

    ghost invariant = { λ t. AreRising item_of_last t.lasts.items };
}

impl Trail {
    /// An empty trail. It allocates nothing.
    pub fn new(alloc: Global) -> Trail
        ensures { result.lasts ≡ [] }
    {
        Trail {
            alloc,
            lasts: Vec::new(alloc),
        }
    }

    /// The author's last version of the item. It costs a binary search.
    pub fn last(&self, item: ItemId) -> Option<&Revision>
        ensures { option_copied result ≡ last_of self.now.lasts item }
    {
        match search(&self.lasts, item) {
            Ok(place) => Some(&self.lasts[place]),
            Err(_) => None,
        }
    }

    /// Notes the revision as the last version of its item: the trail becomes one more of its owners.
    /// It costs a binary search, and a shift where the item is new.
    pub fn note(&mut self, revision: &Revision) -> Result<(), AllocError>
        ensures ok { OnOk result (self.new.lasts ≡ noted revision.now self.old.lasts) }
        ensures err { OnErr result (self.new ≡ self.old) }
    {
        let last = revision.copy()?;
        self.reserve()?;
        self.note_reserved(last);
        Ok(())
    }

    /// Makes room for one more item.
    pub fn reserve(&mut self) -> Result<(), AllocError>
        ensures same { self.new.lasts ≡ self.old.lasts }
        ensures ok { OnOk result (0 < self.new.room) }
        ensures err { OnErr result (self.new ≡ self.old) }
    {
        self.lasts.reserve(1)
    }

    /// Notes the last version of its item, for which there is room: it can't fail. It costs a binary
    /// search, and a shift where the item is new.
    pub fn note_reserved(&mut self, last: Revision)
        requires { 0 < self.old.room }
        ensures { self.new.lasts ≡ noted last self.old.lasts }
    {
        match search(&self.lasts, last.item()) {
            Ok(place) => self.lasts[place] = last,
            Err(place) => self.lasts.insert(place, last).unwrap(),
        }
    }

    /// A trail with equal last versions, which share their parts.
    pub fn copy(&self) -> Result<Trail, AllocError>
        ensures { IfOk result (λ trail. trail.lasts ≡ self.now.lasts) }
    {
        let mut lasts = Vec::new(self.alloc);
        for last in &self.lasts {
            lasts.push(last.copy()?)?;
        }
        Ok(Trail {
            alloc: self.alloc,
            lasts,
        })
    }
}

// Where the item's last version is, or where it would go.
fn search(lasts: &[Revision], item: ItemId) -> Result<usize, usize>
    requires { AreRising item_of_last lasts.now }
    ensures found { IfOk result (IsFoundAt item_of_last item lasts.now) }
    ensures absent { IfErr result (IsGapFor item_of_last item lasts.now) }
{
    lasts.binary_search_by_key(&item, |last| last.item())
}
