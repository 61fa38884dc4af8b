//! The held ones of some versions, as a source of a made-with set.
ghost use Rattle.std.specs.Prelude.{◌≤◌};
ghost use Rattle.mr_concise.specs.AnyOf.{in_any};
ghost use Rattle.mr_concise.specs.inner.AnyOf.{IsPassed};
ghost use Rattle.mr_forms.specs.Runs.{of_author};
ghost use Rattle.mr_store.specs.HeldVersions.{by_held};

use crate::Store;
use mr_concise::{COUNTERS_END, Source, lower_author, lower_counter};
use mr_version::{Author, Version};

/// Those of the versions that are held, each with all that it supersedes.
///
/// They are looked up as the source is walked, so that no list of their revisions is made: a made-with
/// set's limits are decided with no memory.
#[derive(Drop)]
pub struct HeldVersions<'a> {
    pub store: &'a Store,
    pub versions: &'a [Version],
}

impl<'a> Source for HeldVersions<'a> {
    ghost has = { λ held. in_any (by_held held.store.now) held.versions.now };

    fn next_author(&self, id: u16) -> Option<Author> {
        let mut next: Option<Author> = None;
        for version in self.versions {
            next = lower_author(next, self.store.held(*version).next_author(id));
        }
        next
    }

    fn next_out(&self, author: Author, from: u32) -> u32 {
        let mut at = from;
        loop {
            let next = passed(self.store, self.versions, author, at);
            if next == at {
                return at;
            }
            at = next;
        }
    }

    fn next_in(&self, author: Author, from: u32) -> Option<u32> {
        let mut next: Option<u32> = None;
        for version in self.versions {
            next = lower_counter(next, self.store.held(*version).next_in(author, from));
        }
        next
    }
}

// Goes on from here past what each held version has, one by one.
fn passed(store: &Store, versions: &[Version], author: Author, from: u32) -> u32
    requires { (1 ≤ from) × (from ≤ COUNTERS_END) }
    ensures { IsPassed (of_author (in_any (by_held store.now) versions.now) author) from result }
{
    let mut at = from;
    for version in versions {
        at = store.held(*version).next_out(author, at);
    }
    at
}
