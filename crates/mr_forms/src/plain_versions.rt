//! A set of versions that is kept one by one.
ghost use Rattle.std.specs.Prelude.{◌≡◌, ◌≤◌, ◌↔◌, [], true, false, All, IsTrue, OnOk, OnErr, Err, MatchOption};
ghost use Rattle.mr_forms.specs.Sets.{is_listed, both, IsSame};
ghost use Rattle.mr_forms.specs.Runs.{HasVersionsAlone, HasNoAuthorFrom, IsNextAuthor, HasNoRunFrom, IsFirstFrom, IsEndOfRun, of_author};
ghost use Rattle.mr_forms.specs.inner.Columns.{EndsBelow, GainsVersion};

use crate::additions::add_all;
use crate::versions::push_run;
use crate::{FormFault, Run, VersionSet};
use mr_version::{Author, MAX_COUNTER, Version};
use std::alloc::Global;
use std::collections::BTreeSet;
use std::marker::Model;

/// A set of versions, kept one by one in order. It has a value for every set, so `OutOfMemory` is its
/// only fault.
///
/// `contains` and `insert` take time by the logarithm of the set's size; `insert_range` takes memory
/// for its run and `union` for what it adds, and neither for what is there.
#[derive(Drop)]
pub struct PlainVersions {
    alloc: Global,
    versions: BTreeSet<Version>,
}

impl Model for PlainVersions {
    ghost use Rattle.std.specs.Prelude.{List};
    ghost use Rattle.std.specs.Coded.{coded_list};
    ghost use Rattle.mr_version.specs.Name.{Name, name_code};
    ghost use Rattle.mr_forms.specs.Sets.{is_listed};
    ghost use Rattle.mr_forms.specs.Runs.{HasVersionsAlone};

    ghost Value = { List Name };

    ghost coded = { coded_list name_code };

    ghost view = { λ set. set.versions.keys };

    ghost invariant = { λ set. HasVersionsAlone (is_listed set.versions.keys) };
}

/// The next author from this id on.
fn next_author(versions: &BTreeSet<Version>, id: u16) -> Option<Author>
    requires { HasVersionsAlone (is_listed versions.now.keys) }
    ensures { MatchOption result (HasNoAuthorFrom (is_listed versions.now.keys) id) (λ author. IsNextAuthor (is_listed versions.now.keys) id author) }
{
    let Ok(author) = Author::try_new(id) else {
        return None;
    };
    let Ok(start) = Version::try_new(author, 1) else {
        return None;
    };
    let Some(next) = versions.range(start..).next() else {
        return None;
    };
    Some(next.author())
}

/// The author's first counter from this one on.
fn first_from(versions: &BTreeSet<Version>, author: Author, from: u32) -> Option<u32>
    requires from { 1 ≤ from }
    requires versions { HasVersionsAlone (is_listed versions.now.keys) }
    ensures { MatchOption result (HasNoRunFrom (is_listed versions.now.keys) author from) (λ first. IsFirstFrom (is_listed versions.now.keys) author from first) }
{
    let Ok(start) = Version::try_new(author, from) else {
        return None;
    };
    let Some(next) = versions.range(start..).next() else {
        return None;
    };
    if next.author().id() == author.id() {
        Some(next.counter())
    } else {
        None
    }
}

/// The last counter of the author's unbroken run that begins here.
fn end_of_run(versions: &BTreeSet<Version>, author: Author, first: u32) -> u32
    requires first { (1 ≤ first) × (first ≤ MAX_COUNTER) }
    requires is_in { of_author (is_listed versions.now.keys) author first ≡ true }
    requires versions { HasVersionsAlone (is_listed versions.now.keys) }
    ensures { IsEndOfRun (is_listed versions.now.keys) author first result }
{
    for counter in first..MAX_COUNTER {
        let Ok(next) = Version::try_new(author, counter + 1) else {
            return counter;
        };
        if !versions.contains(&next) {
            return counter;
        }
    }
    MAX_COUNTER
}

impl PlainVersions {
    /// Adds all versions of a list.
    pub(crate) fn insert_all(&mut self, versions: &[Version]) -> Result<(), FormFault>
        requires { HasVersionsAlone (is_listed versions.now) }
        ensures ok { OnOk result (IsSame (is_listed self.new) (both (is_listed self.old) (is_listed versions.now))) }
        ensures err { OnErr result (self.new ≡ self.old) }
        ensures memory { OnErr result (result ≡ Err FormFault.OutOfMemory) }
    {
        add_all(&mut self.versions, versions, self.alloc)?;
        Ok(())
    }

    pub(crate) fn is_empty(&self) -> bool
        ensures { IsTrue result ↔ (self.now ≡ []) }
    {
        self.versions.is_empty()
    }
}

/// Adds a version above those of all runs: to the last run where it comes next there, or as a new run.
fn add_version(runs: &mut Vec<Run>, version: Version) -> Result<(), FormFault>
    requires { All (EndsBelow version) runs.old.items }
    ensures ok { OnOk result (GainsVersion runs.old.items runs.new.items version) }
    ensures memory { OnErr result (result ≡ Err FormFault.OutOfMemory) }
{
    let mut first = version.counter();
    if let Some(last) = runs.pop() {
        if last.is_before(version) {
            first = last.first;
        } else {
            runs.push(last)?;
        }
    }
    runs.push(Run {
        author: version.author(),
        first,
        last: version.counter(),
    })?;
    Ok(())
}

impl VersionSet for PlainVersions {
    ghost has = { is_listed };

    ghost has_too_many_holes = { λ _. ⊥ };

    fn new(alloc: Global) -> Self
        ensures empty { result ≡ [] }
        ensures has { IsSame (is_listed result) (λ _. false) }
    {
        PlainVersions {
            alloc,
            versions: BTreeSet::new(alloc),
        }
    }

    fn copy(&self) -> Result<Self, FormFault> {
        Ok(PlainVersions {
            alloc: self.alloc,
            versions: self.versions.clone()?,
        })
    }

    fn contains(&self, version: Version) -> bool {
        self.versions.contains(&version)
    }

    fn next_author(&self, id: u16) -> Option<Author> {
        next_author(&self.versions, id)
    }

    fn run_from(&self, author: Author, from: u32) -> Option<Run> {
        let first = first_from(&self.versions, author, from)?;
        let last = end_of_run(&self.versions, author, first);
        Some(Run {
            author,
            first,
            last,
        })
    }

    fn insert(&mut self, version: Version) -> Result<(), FormFault> {
        prove!(version.counter() <= MAX_COUNTER);
        self.versions.insert(version)?;
        Ok(())
    }

    fn insert_range(&mut self, run: Run) -> Result<(), FormFault> {
        let mut versions = Vec::new(self.alloc);
        push_run(&mut versions, run)?;
        self.insert_all(&versions)
    }

    fn union(&mut self, other: &Self) -> Result<(), FormFault> {
        let missing: Vec<Version> = other
            .versions
            .difference(&self.versions)
            .copied()
            .collect(self.alloc)?;
        self.insert_all(&missing)
    }

    fn covers(&self, other: &Self) -> bool {
        other.versions.is_subset(&self.versions)
    }

    fn columns(&self) -> Result<Vec<Run>, FormFault> {
        let mut runs: Vec<Run> = Vec::new(self.alloc);
        for version in &self.versions {
            add_version(&mut runs, *version)?;
        }
        Ok(runs)
    }
}
