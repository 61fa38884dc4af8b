//! Twins: two forms of one thing take the same random calls, and each answer of the one is compared
//! with that of the other. Both are proved against their contracts; this holds the contracts
//! against each other, in runs that are longer than a test's.
//!
//! A module compares one pair and gives its calls back, or the number of the call that differs:
//! here concise vectors beside plain sets with their limit, knowledge by sets of items and its sparing form
//! beside plain knowledge, and their limits of items. A further pair is a module of its own and a line in
//! `run_all`. The numbers come from fixed seeds, so that each run of the program is the same.

mod knowledge;
mod limits;
mod many_items;
mod runs;
mod sets;

use anyhow::Result;
use knowledge::Course;
use mr_itemset::{ItemKnowledge, SparingKnowledge};

/// Knowledge by sets of items is compared over few counters.
const FEW_COUNTERS: Course = Course {
    calls: 3_000,
    counters: 16,
};

/// Sparing knowledge lists items only where a column has many holes.
const MANY_COUNTERS: Course = Course {
    calls: 200,
    counters: 40,
};

/// Whether the twins of each pair agree. Prints a line for each.
pub fn run_all(rt: &(impl Print + AllocGlobal)) -> Result<bool> {
    let sets = say(
        rt,
        "concise vectors and plain sets",
        sets::compare(rt.alloc())?,
    )?;
    let limits = say(rt, "their limits of holes", limits::compare(rt.alloc())?)?;
    let knowledge = say(
        rt,
        "knowledge by sets of items and plain knowledge",
        knowledge::compare::<ItemKnowledge>(rt.alloc(), FEW_COUNTERS)?,
    )?;
    let sparing = say(
        rt,
        "sparing knowledge and plain knowledge",
        knowledge::compare::<SparingKnowledge>(rt.alloc(), MANY_COUNTERS)?,
    )?;
    let items = say(
        rt,
        "their limits of items",
        many_items::compare(rt.alloc())?,
    )?;
    Ok(sets && limits && knowledge && sparing && items)
}

/// How a comparison ended.
#[derive(Clone, Copy, Drop)]
pub enum Outcome {
    /// So many calls were answered alike, and so many of them refused, as they had to be.
    Agree { calls: u32, refused: u32 },
    /// The call of this number, counted from 1, was not.
    DifferAt(u32),
}

/// Prints how a comparison ended, and gives whether the twins agree.
fn say(rt: &impl Print, what: &str, outcome: Outcome) -> Result<bool> {
    match outcome {
        Outcome::Agree { calls, refused } => {
            println!(rt; "{what} agree over {calls} calls, {refused} of them refused")?;
            Ok(true)
        }
        Outcome::DifferAt(call) => {
            println!(rt; "{what} differ at call {call}")?;
            Ok(false)
        }
    }
}
