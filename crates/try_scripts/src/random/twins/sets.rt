//! Concise vectors beside plain sets: calls on few and low versions.
use super::Outcome;
use crate::random::numbers::Numbers;
use anyhow::Result;
use mr_concise::ConciseVector;
use mr_forms::{PlainVersions, Run, VersionSet};
use mr_version::{Author, Version};
use std::alloc::Global;

const SEED: u64 = 20_051;

const CALLS: u32 = 4_000;

/// One set of versions, in both forms.
#[derive(Drop)]
pub struct Twin {
    pub concise: ConciseVector,
    pub plain: PlainVersions,
}

/// The versions of both sets, one by one.
fn plain_meet(alloc: Global, a: &PlainVersions, b: &PlainVersions) -> Result<PlainVersions> {
    let mut meet = PlainVersions::new(alloc);
    for version in &listed(alloc, a)? {
        if b.contains(*version) {
            meet.insert(*version)?;
        }
    }
    Ok(meet)
}

/// The versions of a set, run by run, the last run first.
fn listed(alloc: Global, set: &PlainVersions) -> Result<Vec<Version>> {
    let mut versions = Vec::new(alloc);
    for run in set.columns()?.iter().rev() {
        for counter in run.first..run.last + 1 {
            versions.push(Version::try_new(run.author, counter)?)?;
        }
    }
    Ok(versions)
}

/// The author's last counter among the runs.
fn last_of(runs: &[Run], author: Author) -> Option<u32> {
    let of_author = runs.iter().filter(|run| run.author == author);
    of_author.last().map(|run| run.last)
}

impl Twin {
    /// The set of no version.
    pub fn new(alloc: Global) -> Twin {
        Twin {
            concise: ConciseVector::new(alloc),
            plain: PlainVersions::new(alloc),
        }
    }

    /// Whether both answer alike to one version more.
    fn insert(&mut self, version: Version) -> bool {
        self.concise.insert(version) == self.plain.insert(version)
    }

    /// Whether both answer alike to a run more.
    fn insert_range(&mut self, run: &Run) -> bool {
        let concise = self.concise.insert_range(*run);
        let plain = self.plain.insert_range(*run);
        concise == plain
    }

    /// Whether both answer alike to the versions of another set.
    fn union(&mut self, other: &Twin) -> bool {
        self.concise.union(&other.concise) == self.plain.union(&other.plain)
    }

    /// Whether both have the same versions.
    pub fn is_one(&self) -> Result<bool> {
        Ok(self.concise.columns()? == self.plain.columns()?)
    }

    /// Whether both answer alike to each question, about this version and about another set.
    fn agrees(&self, other: &Twin, version: Version) -> Result<bool> {
        let runs = self.plain.columns()?;
        let equal = runs == other.plain.columns()?;
        Ok(
            self.concise.columns()? == runs
                && self.concise.covers(&other.concise) == self.plain.covers(&other.plain)
                && other.concise.covers(&self.concise) == other.plain.covers(&self.plain)
                && self.concise.contains(version) == self.plain.contains(version)
                && (self.concise == other.concise) == equal
                && self.concise.last(version.author()) == last_of(&runs, version.author()),
        )
    }

    /// Whether both have the same versions with another set.
    fn meets(&self, alloc: Global, other: &Twin) -> Result<bool> {
        let meet = Twin {
            concise: self.concise.meet(&other.concise)?,
            plain: plain_meet(alloc, &self.plain, &other.plain)?,
        };
        meet.is_one()
    }

    /// Whether both are the same together with another set.
    fn gathers(&self, alloc: Global, other: &Twin) -> Result<bool> {
        let mut gathered = Twin {
            concise: ConciseVector::gather(alloc, &(&self.concise, &other.concise))?,
            plain: self.plain.copy()?,
        };
        gathered.plain.union(&other.plain)?;
        gathered.is_one()
    }

    /// Whether the vector is the one that is made of the plain set, and an equal copy.
    fn is_made(&self, alloc: Global) -> Result<bool> {
        let versions = listed(alloc, &self.plain)?;
        Ok(
            self.concise == ConciseVector::from_set(alloc, &self.plain)?
                && self.concise == ConciseVector::from_versions(alloc, &versions)?
                && self.concise == self.concise.copy()?,
        )
    }
}

/// Makes one random call on both forms of the first set, and gives whether they answer alike. Some
/// calls begin anew, or change the two sets' places.
fn call(twin: &mut Twin, other: &mut Twin, alloc: Global, kind: u32, run: Run) -> Result<bool> {
    match kind {
        0 => {
            *twin = Twin::new(alloc);
            Ok(true)
        }
        1 | 2 => {
            std::mem::swap(twin, other);
            Ok(true)
        }
        3 | 4 => Ok(twin.insert_range(&run)),
        5 => Ok(twin.union(other)),
        6 => Ok(twin.meets(alloc, other)? && twin.gathers(alloc, other)?),
        7 => twin.is_made(alloc),
        _ => Ok(twin.insert(Version::try_new(run.author, run.first)?)),
    }
}

/// Makes one random call, and gives whether both forms answer alike to it, and then to everything.
fn call_agrees(
    twin: &mut Twin,
    other: &mut Twin,
    numbers: &mut Numbers,
    alloc: Global,
) -> Result<bool> {
    let run = numbers.run()?;
    let kind = numbers.below(16);
    let asked = Version::try_new(run.author, run.last)?;
    Ok(call(twin, other, alloc, kind, run)? && twin.agrees(other, asked)?)
}

/// Makes random calls on two sets, and asks both forms everything after each.
pub fn compare(alloc: Global) -> Result<Outcome> {
    let mut numbers = Numbers::from_seed(SEED);
    let mut twin = Twin::new(alloc);
    let mut other = Twin::new(alloc);
    for number in 1..CALLS + 1 {
        if !call_agrees(&mut twin, &mut other, &mut numbers, alloc)? {
            return Ok(Outcome::DifferAt(number));
        }
    }
    let calls = CALLS;
    Ok(Outcome::Agree { calls, refused: 0 })
}
