//! Concise vectors beside plain sets, at the limit: a vector refuses exactly where the plain set
//! has more holes than a column keeps.
use super::Outcome;
use super::sets::Twin;
use crate::random::numbers::Numbers;
use anyhow::Result;
use mr_concise::{ConciseVector, MAX_HOLES};
use mr_forms::{FormFault, Run, VersionSet};
use mr_version::{Author, Version};
use std::alloc::Global;

const SEED: u64 = 8_195;

const CALLS: u32 = 60;
/// With so many versions that lie apart, a few calls reach the limit.
const FIRST_VERSIONS: u32 = 4_094;

/// The author's versions 1, 3, 5 and so on.
fn odd_twin(alloc: Global, author: Author) -> Result<Twin> {
    let mut twin = Twin::new(alloc);
    for k in 0..FIRST_VERSIONS {
        let version = Version::try_new(author, 2 * k + 1)?;
        twin.concise.insert(version)?;
        twin.plain.insert(version)?;
    }
    Ok(twin)
}

/// One run more in the vector: as a range, as a vector of its own, or gathered.
fn add(vector: &mut ConciseVector, alloc: Global, run: Run, way: u32) -> Result<(), FormFault> {
    match way {
        0 => vector.insert_range(run),
        1 => {
            let mut added = ConciseVector::new(alloc);
            added.insert_range(run)?;
            vector.union(&added)
        }
        _ => {
            *vector = ConciseVector::gather(alloc, &(&*vector, run))?;
            Ok(())
        }
    }
}

/// How the two forms answered a call.
#[derive(Clone, Copy, Drop)]
enum Answers {
    /// Both took the run.
    BothTake,
    /// The vector refused it, as it has to.
    Refused,
    /// The vector refused what it has a value for, or took what it has none for.
    Differ,
}

/// Adds a run. The vector has to refuse it exactly where the versions then have more holes than a
/// column keeps, and is unchanged then. The versions begin with the first one, so that a column of
/// them has one hole less than runs.
fn add_to_both(twin: &mut Twin, alloc: Global, run: Run, way: u32) -> Result<Answers> {
    let before = twin.concise.copy()?;
    let mut grown = twin.plain.copy()?;
    grown.insert_range(run)?;
    let is_many = grown.columns()?.len() > MAX_HOLES + 1;
    let answer = add(&mut twin.concise, alloc, run, way);
    if !is_many {
        twin.plain = grown;
        return Ok(if answer.is_ok() {
            Answers::BothTake
        } else {
            Answers::Differ
        });
    }
    let made = ConciseVector::from_set(alloc, &grown);
    let refused = answer == Err(FormFault::TooManyHoles)
        && twin.concise == before
        && matches!(made, Err(FormFault::TooManyHoles));
    Ok(if refused {
        Answers::Refused
    } else {
        Answers::Differ
    })
}

/// A run of one or two counters, behind the last one or among the others.
fn next_run(numbers: &mut Numbers, author: Author, last: u32) -> Run {
    let first = match numbers.below(2) {
        0 => numbers.below(8_000) + 2,
        _ => last.min(900_000) + 2,
    };
    Run {
        author,
        first,
        last: first + numbers.below(2),
    }
}

/// Adds random runs to one set that is close to the limit.
pub fn compare(alloc: Global) -> Result<Outcome> {
    let author = Author::try_new(0)?;
    let mut numbers = Numbers::from_seed(SEED);
    let mut twin = odd_twin(alloc, author)?;
    let mut refused = 0u32;
    for number in 1..CALLS + 1 {
        let last = twin.concise.last(author).unwrap_or(1);
        let run = next_run(&mut numbers, author, last);
        let way = numbers.below(3);
        match add_to_both(&mut twin, alloc, run, way)? {
            Answers::BothTake => {}
            Answers::Refused => refused = refused.saturating_add(1),
            Answers::Differ => return Ok(Outcome::DifferAt(number)),
        }
        if !twin.is_one()? {
            return Ok(Outcome::DifferAt(number));
        }
    }
    let calls = CALLS;
    Ok(Outcome::Agree { calls, refused })
}
