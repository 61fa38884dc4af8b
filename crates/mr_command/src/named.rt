//! Words that name what is there: replicas, frames and subscribers.
ghost use Rattle.mr_command.specs.Named.{SpellsFrame, BeginsWithLetter, NamesSubscriber, reads_replica, reads_new_id, reads_frame};
ghost use Rattle.mr_command.specs.Reading.{names};

use crate::number::{read_id, read_number};
use crate::pool::Pool;
use crate::roster::Roster;
use crate::{LineFault, Read};
use mr_version::Author;
use mr_world::Subscriber;

/// The id of a replica that is there. `BadNumber`, `NoSuchReplica`.
pub(crate) fn read_replica<R: Roster>(word: &str, roster: &R) -> Read<Author>
    ensures { reads_replica (R.scene roster.now) word.now result }
{
    let id = read_id(word)?;
    if roster.has_replica(id) {
        Ok(id)
    } else {
        Err(LineFault::NoSuchReplica)
    }
}

/// An id that no replica has yet. `BadNumber`, `SameReplica`.
pub(crate) fn read_new_id<R: Roster>(word: &str, roster: &R) -> Read<Author>
    ensures { reads_new_id (R.scene roster.now) word.now result }
{
    let id = read_id(word)?;
    if roster.has_replica(id) {
        Err(LineFault::SameReplica)
    } else {
        Ok(id)
    }
}

/// The number of a frame that is in the pool. `BadNumber` where the word isn't the pool's letter and a
/// number, `NoSuchFrame`.
pub(crate) fn read_frame<R: Roster>(pool: Pool, word: &str, roster: &R) -> Read<u64>
    ensures { reads_frame (R.scene roster.now) pool word.now result }
{
    let number = read_frame_number(pool, word)?;
    if roster.has_frame(pool, number) {
        Ok(number)
    } else {
        Err(LineFault::NoSuchFrame)
    }
}

/// The number behind the pool's letter. `BadNumber` where the word isn't such.
fn read_frame_number(pool: Pool, word: &str) -> Read<u64>
    ensures { names (SpellsFrame pool) LineFault.BadNumber word.now result }
{
    match word.strip_prefix(pool.letter()) {
        Some(number) => read_number(number),
        None => Err(LineFault::BadNumber),
    }
}

/// The pool with whose letter the word begins. `BadNumber` where it begins with none.
pub(crate) fn read_pool(word: &str) -> Read<Pool>
    ensures { names BeginsWithLetter LineFault.BadNumber word.now result }
{
    match word.as_bytes() {
        [b'Q', ..] => Ok(Pool::Asks),
        [b'P', ..] => Ok(Pool::Records),
        [b'R', ..] => Ok(Pool::Receipts),
        _ => Err(LineFault::BadNumber),
    }
}

/// The subscriber of this name. `BadNumber` where it is no subscriber's.
pub(crate) fn read_subscriber(word: &str) -> Read<Subscriber>
    ensures { names NamesSubscriber LineFault.BadNumber word.now result }
{
    match word {
        "indexer" => Ok(Subscriber::Indexer),
        "notifier" => Ok(Subscriber::Notifier),
        _ => Err(LineFault::BadNumber),
    }
}
