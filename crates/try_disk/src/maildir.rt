//! Names, letters, folders, bodies, headers and acts of a Maildir with what they have to be, as data.
//!
//! Each line of the file `maildir.cases` says `CALL WORDS => ANSWER`; the module `answer` has the calls. Each line whose answer
//! differs is printed, and how many there are.
mod answer;
mod files;
mod view;

use answer::answer;
use anyhow::{Context, Result};
use std::fs;
use std::rt::Files;

/// The table of cases.
const TABLE: &str = "maildir.cases";

/// Whether each case answers as expected. Prints those that don't, and how many cases there are.
pub fn run_all<R: Files + Print + AllocGlobal>(rt: &R, folder: &str) -> Result<bool> {
    let path = format!(in rt.alloc(); "{folder}/{TABLE}")?;
    let table = fs::read_to_string(rt, path.as_str()).context("reading the table")?;
    let mut cases = 0u64;
    let mut differing = 0u64;
    for line in table.lines() {
        cases = cases.saturating_add(1);
        differing = differing.saturating_add(u64::from(!is_ok(rt, line)?));
    }
    println!(rt; "{cases} cases, {differing} differ")?;
    Ok(differing == 0)
}

/// Whether a case answers as expected. Prints it where it doesn't.
fn is_ok<R: Print + AllocGlobal>(rt: &R, case: &str) -> Result<bool> {
    let (line, expected) = case.rsplit_once(" => ").unwrap_or((case, ""));
    let told = answer(rt.alloc(), line)?;
    if told.as_str() == expected {
        return Ok(true);
    }
    println!(rt; "{case}, but it answers {told}")?;
    Ok(false)
}
