//! Journals and kept replicas in files that are named on the command line, for tools that stop the program, cut its files and
//! change them.
//!
//! ```text
//! journal write FILE COUNT         adds so many batches, and prints after each how many entries there are
//! journal read FILE                how many entries there are, once each is the one that belongs there
//! replica begin FILE               begins a replica
//! replica write FILE COUNT SIZE    issues so many times so many messages, a commit each time with a note of how many there are then,
//!                                  and prints after each how many
//! replica read FILE                how many messages there are, once each is the one that belongs there, and the last note tells so many
//! ```
use crate::disk::Disk;
use crate::keeper::Keeper;
use crate::{office, rows};
use anyhow::{Result, bail};
use mr_itemset::SparingKnowledge;
use mr_journal::DiskFile;
use mr_kept::Journaled;
use std::fs::File;
use std::rt::Files;

/// A replica in a file.
type Office = Journaled<SparingKnowledge, Disk>;

/// Does what these words say.
pub fn run<R: Files<File = File> + Print + AllocGlobal>(rt: &R, words: &[String]) -> Result<()> {
    match words {
        [kind, what, path, numbers @ ..] if kind.as_str() == "journal" => {
            journal(rt, what.as_str(), path.as_str(), numbers)
        }
        [kind, what, path, numbers @ ..] if kind.as_str() == "replica" => {
            replica::<Office, R>(rt, what.as_str(), path.as_str(), numbers)
        }
        _ => bail!(
            "usage: journal write|read FILE .., replica begin|write|read FILE .., a folder of scenes, or nothing"
        ),
    }
}

fn journal<R: Files<File = File> + Print + AllocGlobal>(
    rt: &R,
    what: &str,
    path: &str,
    numbers: &[String],
) -> Result<()> {
    match (what, numbers) {
        ("write", [count]) => {
            let count = number(count)?;
            rows::write(rt, disk_at(rt, path)?, count)
        }
        ("read", []) => rows::read(rt, disk_at(rt, path)?),
        _ => bail!("usage: journal write FILE COUNT, journal read FILE"),
    }
}

fn replica<J: Keeper, R: Files<File = File> + Print + AllocGlobal>(
    rt: &R,
    what: &str,
    path: &str,
    numbers: &[String],
) -> Result<()> {
    match (what, numbers) {
        ("begin", []) => {
            let setup = office::setup(rt.alloc())?;
            office::begin::<J>(rt.alloc(), disk_at(rt, path)?, setup)
        }
        ("read", []) => office::open::<J, R>(rt, disk_at(rt, path)?, 0, 0),
        ("write", [count, size]) => {
            let (count, size) = (number(count)?, number(size)?);
            office::open::<J, R>(rt, disk_at(rt, path)?, count, size)
        }
        _ => bail!("usage: replica begin FILE, replica write FILE COUNT SIZE, replica read FILE"),
    }
}

/// The disk in a file.
fn disk_at<R: Files<File = File> + AllocGlobal>(rt: &R, path: &str) -> Result<Disk> {
    Ok(Disk::in_file(rt.alloc(), DiskFile::open(rt, path)?))
}

fn number(word: &String) -> Result<u64> {
    match word.as_str().parse::<u64>() {
        Ok(number) => Ok(number),
        Err(_) => bail!("not a number: {word}"),
    }
}
