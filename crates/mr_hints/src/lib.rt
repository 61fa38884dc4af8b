//! Hints: what is wrong with a line of a script, and what is right.
//!
//! A fault is one short text, as `bad number`. A hint is one line that names the word that is wrong and says how it is
//! written, for a person who reads it. It is no part of what a script answers.
//!
//! ```text
//! hint(alloc, Commands::All, "heads 64", LineFault::BadNumber)
//!     "64" is no replica's id: write 0 to 63, without leading zeros
//! hint(alloc, Commands::All, "Heads 0", LineFault::UnknownCommand)
//!     commands are in small letters: write heads
//! ```
#![tactic(auto)]

ghost use Rattle.std.specs.Prelude.{◌≢◌, ◌↔◌, IfOk, IsSome};
ghost use Rattle.mr_command.specs.declared.fault.LineFault.TheVariants.{OutOfMemory};

mod command;
mod filter;
mod message;
mod shown;
mod word;

use command::{unknown_command, wrong_words};
use filter::bad_filter;
use message::refused_message;
use mr_command::LineFault;
use mr_filter::{MAX_CLAUSE_LABELS, MAX_CLAUSES};
use std::alloc::{AllocError, Global};
use word::wrong_word;

/// The commands that a script may have.
#[derive(Clone, Copy, Debug, PartialEq, Eq)]
pub enum Commands {
    /// All that there are.
    All,
    /// Those of a script of two nodes: `replica`, `create` and `edit`.
    Live,
}

/// What is wrong with the line that has this fault, of a script that may have these commands, and what is right, in one line of
/// text without a line feed. There is one for each fault but `OutOfMemory`. A line that is no text is given as an empty one.
///
/// What it shows of the line is quoted, with escapes for what can't be printed, and cut after 40 characters. It takes
/// time in proportion to the line's bytes.
pub fn hint(
    alloc: Global,
    commands: Commands,
    line: &str,
    fault: LineFault,
) -> Result<Option<String>, AllocError>
    ensures { IfOk result (λ hint. IsSome hint ↔ (fault ≢ OutOfMemory)) }
{
    match fault {
        LineFault::OutOfMemory => Ok(None),
        LineFault::UnknownCommand => Ok(Some(unknown_command(alloc, commands, line)?)),
        LineFault::WrongWords => Ok(Some(wrong_words(alloc, line)?)),
        LineFault::BadNumber | LineFault::BadVersion | LineFault::BadFlags | LineFault::BadDate =>
            Ok(Some(wrong_word(alloc, line, fault)?)),
        LineFault::BadFilter { place } => Ok(Some(bad_filter(alloc, line, place)?)),
        LineFault::MessageRefused { number } => Ok(Some(refused_message(alloc, line, number)?)),
        LineFault::TooManyClauses => Ok(Some(format!(in alloc;
            "a filter has at most {MAX_CLAUSES} clauses"
        )?)),
        LineFault::TooManyLabels => Ok(Some(format!(in alloc;
            "a clause of a filter names at most {MAX_CLAUSE_LABELS} different labels"
        )?)),
        fault => Ok(Some(String::from_str(alloc, rule_of(fault))?)),
    }
}

/// What is right where a fault alone tells that.
fn rule_of(fault: LineFault) -> &'static str {
    match fault {
        LineFault::NotText => "a script is UTF-8 text, and this line is none: save it as UTF-8",
        LineFault::LateReplica => "lines that make replicas come before all other commands",
        LineFault::SameReplica => {
            "a line before this one made a replica of this id: give this one another"
        }
        LineFault::BadLimit => "LIMIT is 1 to 1000000 events",
        LineFault::BadCapacity => "CAP is 1 to 4096 places",
        LineFault::NoSuchReplica => {
            "no line made a replica of this id: write replica ID LIMIT CAP FILTER first"
        }
        LineFault::NoSuchFrame => {
            "no line before this one gave it: requests, records and receipts are counted from 1 each"
        }
        _ => "mailrep run --help tells how each command is written",
    }
}
