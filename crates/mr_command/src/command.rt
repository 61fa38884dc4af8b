//! Commands: what a line asks for.
use crate::LineFault;
use crate::pool::Pool;
use crate::read::read_named;
use crate::roster::Roster;
use crate::words::Words;
use mr_version::{Author, Version};
use mr_world::{Event, Spec};
use std::alloc::Global;

/// What a line asks for, with every word read.
#[derive(Debug, Drop)]
pub enum Command {
    /// That there be one replica more.
    AddReplica(Spec),
    /// That an event happen.
    Happen(Event),
    /// That one replica learn what another has.
    Sync(Sync),
    /// That something be printed. Nothing changes.
    Ask(Question),
}

/// A whole session: the target asks the source, and takes its records until the last one.
#[derive(Clone, Copy, Debug, PartialEq, Eq)]
pub struct Sync {
    /// The replica that asks, and takes the records.
    pub target: Author,
    /// The replica that answers, and gives them.
    pub source: Author,
    /// After how many records the session is cut, where the last one was not among them.
    pub most: Option<u64>,
}

/// What is to be printed, of the replica whose id comes first.
#[derive(Debug, Drop)]
pub enum Question {
    /// The versions of its heads.
    Heads(Author),
    /// The versions of its push-outs.
    PushOuts(Author),
    /// The items of which it has several heads.
    Conflicts(Author),
    /// What it knows.
    Know(Author),
    /// The entries of its feed.
    Feed(Author),
    /// How many events it has admitted.
    Log(Author),
    /// The message of a version.
    Show(Author, Version),
    /// The bytes of the frame of this number, which is of no one replica.
    Bytes(Pool, u64),
    /// The versions that its indexer has under a label. The text need not be a label's.
    Index(Author, String),
    /// How many versions its notifier has that were not seen.
    Unseen(Author),
}

impl Command {
    ghost use Rattle.std.specs.Prelude.{IfOk};
    ghost use Rattle.mr_command.specs.Command.{reads_command};
    ghost use Rattle.mr_command.specs.There.{IsThere};

    /// The command that the line is, of which it is known to be text.
    ///
    /// The first of these faults is answered: `UnknownCommand`, `WrongWords`, the faults of its words from
    /// left to right, each with whether what it names is in the roster, and `MessageRefused`;
    /// `OutOfMemory` wherever there is no memory.
    pub fn read<R: Roster>(alloc: Global, line: &str, roster: &R) -> Result<Command, LineFault>
        ensures exact { reads_command (R.scene roster.now) line.now result }
        ensures there { IfOk result (IsThere (R.scene roster.now)) }
    {
        let mut words = Words::new(line);
        let name = words.next_word()?;
        read_named(alloc, name, words, roster)
    }
}
