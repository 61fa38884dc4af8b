//! A replica's feed, and its fold.
ghost use Rattle.std.specs.Prelude.{◌≡◌, ◌≤◌, ◌<◌, ◌+◌, ◌++◌, ◌∷◌, [], length, IsTrue, ◌↔◌, IsOk, IfOk, OnOk, IfErr, OnErr};
ghost use Rattle.mr_feed.specs.declared.entry.Entry.{Entry};
ghost use Rattle.mr_feed.specs.Entry.{told};
ghost use Rattle.mr_feed.specs.Fold.{is_listed, with_card};
ghost use Rattle.mr_model.specs.Headline as model;
ghost use Rattle.mr_version.specs.Name.{Name, name_cmp};
ghost use Rattle.mr_mail.specs.Mail.{MailCard};
ghost use Rattle.std.specs.List.Sorted.{IsStrictlySortedBy};

use crate::entry::Entry;
use mr_version::Version;
use std::alloc::{AllocError, AllocFailed, Global};
use std::collections::BTreeSet;
use std::marker::Model;

/// The entries of a replica, in order of time.
#[derive(Debug, Drop)]
pub struct Feed {
    entries: Vec<Entry>,
}

impl Model for Feed {
    ghost use Rattle.std.specs.Prelude.{◌-◌};
    ghost use Rattle.std.specs.Vec.{vec_len, vec_capacity};
    ghost use Rattle.mr_feed.specs.Feed.{FeedView};

    ghost Value = { FeedView };

    ghost view = { λ f. record { entries = f.entries.items; room = vec_capacity f.entries - vec_len f.entries } };
}

impl Feed {
    /// The feed with no entry.
    pub fn new(alloc: Global) -> Feed
        ensures { result.entries ≡ [] }
    {
        Feed {
            entries: Vec::new(alloc),
        }
    }

    /// The entries, in order of time.
    pub fn entries(&self) -> &[Entry]
        ensures { result.now ≡ self.now.entries }
    {
        self.entries.as_slice()
    }

    /// How many entries there are.
    pub fn len(&self) -> usize
        ensures { result ≡ length self.now.entries }
    {
        self.entries.len()
    }

    /// Whether there is no entry.
    pub fn is_empty(&self) -> bool
        ensures { IsTrue result ↔ (self.now.entries ≡ []) }
    {
        self.entries.is_empty()
    }

    /// Makes room for this many entries more.
    pub fn reserve(&mut self, additional: usize) -> Result<(), AllocError>
        ensures room { OnOk result (additional ≤ self.new.room) }
        ensures entries { self.new.entries ≡ self.old.entries }
        ensures err { OnErr result (self.new ≡ self.old) }
    {
        self.entries.reserve(additional)
    }

    /// Puts an entry behind the others. It can fail only where there is no room.
    pub fn push(&mut self, entry: Entry) -> Result<(), AllocFailed<Entry>>
        ensures ok { OnOk result (self.new.entries ≡ self.old.entries ++ entry ∷ []) }
        ensures roomy { 0 < self.old.room → IsOk result }
        ensures value_returned { IfErr result (λ failed. failed.value ≡ entry) }
        ensures err { OnErr result (self.new.entries ≡ self.old.entries) }
    {
        self.entries.push(entry)
    }

    /// Puts an entry behind the others, where there is room.
    pub fn push_reserved(&mut self, entry: Entry)
        requires { 0 < self.old.room }
        ensures entries { self.new.entries ≡ self.old.entries ++ entry ∷ [] }
        ensures room { self.new.room + 1 ≡ self.old.room }
    {
        self.entries.push_reserved(entry);
    }

    /// An equal feed.
    pub fn copy(&self) -> Result<Feed, AllocError>
        ensures { IfOk result (λ feed. feed.entries ≡ self.now.entries) }
    {
        Ok(Feed {
            entries: copies(*self.entries.allocator(), self.entries())?,
        })
    }
}

/// Equal entries, in the same order.
fn copies(alloc: Global, entries: &[Entry]) -> Result<Vec<Entry>, AllocError>
    ensures { IfOk result (λ copied. copied.items ≡ entries.now) }
{
    let mut copied = Vec::with_capacity(alloc, entries.len())?;
    for entry in entries {
        copied.push(entry.copy()?)?;
    }
    Ok(copied)
}

/// The versions that are left once the entries were gone through in order, in version order: an
/// `Added` puts its version in, a `Dropped` takes it out.
pub fn fold(alloc: Global, entries: &[Entry]) -> Result<Vec<Version>, AllocError>
    ensures rising { IfOk result (λ versions. IsStrictlySortedBy name_cmp versions.items) }
    ensures exact { IfOk result (λ versions. (v : Name) → is_listed versions.items v ≡ with_card (model.fold (told entries.now)) v) }
{
    held(alloc, entries)?.into_iter().collect(alloc)
}

/// The versions that are left, as a set.
fn held(alloc: Global, entries: &[Entry]) -> Result<BTreeSet<Version>, AllocError>
    ensures { IfOk result (λ set. (v : Name) → is_listed set.keys v ≡ with_card (model.fold (told entries.now)) v) }
{
    let mut held = BTreeSet::new(alloc);
    for entry in entries {
        note(&mut held, entry)?;
    }
    Ok(held)
}

/// Puts an added version into the set, and takes a dropped one out.
fn note(held: &mut BTreeSet<Version>, entry: &Entry) -> Result<(), AllocError>
    ensures { (cards : model.Cards MailCard) (v : Name) → is_listed held.old.keys v ≡ with_card cards v → OnOk result (is_listed held.new.keys v ≡ with_card (model.fold_from cards (told (entry.now ∷ []))) v) }
{
    match entry {
        Entry::Added { version, .. } => {
            held.insert(*version)?;
        }
        Entry::Dropped { version, .. } => {
            held.remove(version);
        }
    }
    Ok(())
}
