//! Commands by their names.
ghost use Rattle.std.specs.Prelude.{◌≡◌};
ghost use Rattle.std.specs.Option.{option_copied};
ghost use Rattle.mr_model.specs.History.{◌does◌};
ghost use Rattle.mr_command.specs.Command.{reads_most, reads_sync, reads_question, reads_event, reads_named};

use crate::command::{Command, Question, Sync};
use crate::event::{read_create, read_edit, read_part};
use crate::named::read_replica;
use crate::number::read_number;
use crate::opening::read_opening;
use crate::pool::Pool;
use crate::question::{read_bytes, read_index};
use crate::roster::Roster;
use crate::shape::{read_alone, read_followed, read_framed, read_numbered, read_versioned};
use crate::words::Words;
use crate::{LineFault, Read};
use mr_version::Author;
use mr_world::Act;
use std::alloc::Global;

/// The command of this name with the words after it.
pub(crate) fn read_named<R: Roster>(
    alloc: Global,
    name: &str,
    words: Words,
    roster: &R,
) -> Read<Command>
    ensures { reads_named (R.scene roster.now) name.now words.entry result }
{
    match name {
        "replica" => read_opening(alloc, words, roster).map(Command::AddReplica),
        "create" => read_create(alloc, words, roster).map(Command::Happen),
        "edit" => read_edit(alloc, words, roster).map(Command::Happen),
        "sync" => read_sync(words, roster).map(Command::Sync),
        _ => read_event(alloc, name, words, roster),
    }
}

/// The event of this name, which has no message, or else the question of this name.
fn read_event<R: Roster>(alloc: Global, name: &str, words: Words, roster: &R) -> Read<Command>
    ensures { reads_event (R.scene roster.now) name.now words.entry result }
{
    match name {
        "retire" => read_alone(words, roster).map(|id| does(id, Act::Retire)),
        "pull" => read_alone(words, roster).map(|id| does(id, Act::Pull)),
        "answer" => read_framed(words, roster, Pool::Asks).map(|(id, n)| does(id, Act::Answer(n))),
        "next" => read_numbered(words, roster).map(|(id, stream)| does(id, Act::Next(stream))),
        "receive" => {
            read_framed(words, roster, Pool::Records).map(|(id, n)| does(id, Act::Receive(n)))
        }
        "part" => read_part(words, roster).map(Command::Happen),
        "cutin" => read_numbered(words, roster).map(|(id, session)| does(id, Act::CutIn(session))),
        "cutout" => read_numbered(words, roster).map(|(id, stream)| does(id, Act::CutOut(stream))),
        "offer" => read_followed(words, roster).map(|(id, port)| does(id, Act::Offer(port))),
        "take" => read_followed(words, roster).map(|(id, port)| does(id, Act::Take(port))),
        "close" => read_followed(words, roster).map(|(id, port)| does(id, Act::Close(port))),
        "vouch" => read_versioned(words, roster).map(|(id, head)| does(id, Act::Vouch(head))),
        "release" => {
            read_framed(words, roster, Pool::Receipts).map(|(id, n)| does(id, Act::Release(n)))
        }
        _ => read_question(alloc, name, words, roster),
    }
}

/// The command that the replica do this.
fn does(replica: Author, act: Act) -> Command
    ensures { result ≡ Command.Happen (replica does act) }
{
    Command::Happen(act.by(replica))
}

/// The question of this name. `UnknownCommand` where there is none.
fn read_question<R: Roster>(alloc: Global, name: &str, words: Words, roster: &R) -> Read<Command>
    ensures { reads_question (R.scene roster.now) name.now words.entry result }
{
    match name {
        "heads" => read_alone(words, roster).map(|id| Command::Ask(Question::Heads(id))),
        "pushouts" => read_alone(words, roster).map(|id| Command::Ask(Question::PushOuts(id))),
        "conflicts" => read_alone(words, roster).map(|id| Command::Ask(Question::Conflicts(id))),
        "know" => read_alone(words, roster).map(|id| Command::Ask(Question::Know(id))),
        "feed" => read_alone(words, roster).map(|id| Command::Ask(Question::Feed(id))),
        "log" => read_alone(words, roster).map(|id| Command::Ask(Question::Log(id))),
        "show" => read_versioned(words, roster).map(|(id, v)| Command::Ask(Question::Show(id, v))),
        "bytes" => read_bytes(words, roster).map(Command::Ask),
        "index" => read_index(alloc, words, roster).map(Command::Ask),
        "unseen" => read_alone(words, roster).map(|id| Command::Ask(Question::Unseen(id))),
        _ => Err(LineFault::UnknownCommand),
    }
}

/// `T S`, or `T S N`
fn read_sync<R: Roster>(words: Words, roster: &R) -> Read<Sync>
    ensures { reads_sync (R.scene roster.now) words.entry result }
{
    let (target, source, most) = words.two_or_three()?;
    let target = read_replica(target, roster)?;
    let source = read_replica(source, roster)?;
    let most = read_most(most)?;
    Ok(Sync {
        target,
        source,
        most,
    })
}

/// A number that may be missing.
fn read_most(word: Option<&str>) -> Read<Option<u64>>
    ensures { reads_most (option_copied word.entry) result }
{
    match word {
        Some(word) => Ok(Some(read_number(word)?)),
        None => Ok(None),
    }
}
