//! Lines of a replica, and of one thing more at most.
ghost use Rattle.std.specs.Fn.{FnOnceReturnsAt};
ghost use Rattle.mr_command.specs.Named.{reads_frame};
ghost use Rattle.mr_command.specs.Shape.{reads_alone, reads_two, reads_numbered, reads_framed, reads_followed, reads_versioned};

use crate::lists::read_version;
use crate::named::{read_frame, read_replica, read_subscriber};
use crate::number::read_number;
use crate::pool::Pool;
use crate::roster::Roster;
use crate::words::Words;
use crate::{LineFault, Read};
use mr_version::{Author, Version};
use mr_world::Subscriber;

/// `R`
pub(crate) fn read_alone<R: Roster>(words: Words, roster: &R) -> Read<Author>
    ensures { reads_alone (R.scene roster.now) words.entry result }
{
    let replica = words.one()?;
    read_replica(replica, roster)
}

/// `R`, and what `read` makes of a second word. The fault of the first comes before that of the second.
pub(crate) fn read_two<R: Roster, X, F: FnOnce(&str) -> Result<X, LineFault>>(
    words: Words,
    roster: &R,
    read: F,
) -> Read<(Author, X)>
    requires { F.IsAlwaysCallable read }
    ensures { reads_two (R.scene roster.now) (FnOnceReturnsAt F.FnOnce read) words.entry result }
{
    let (replica, second) = words.two()?;
    let id = read_replica(replica, roster)?;
    let second = read(second)?;
    Ok((id, second))
}

/// `R N`
pub(crate) fn read_numbered<R: Roster>(words: Words, roster: &R) -> Read<(Author, u64)>
    ensures { reads_numbered (R.scene roster.now) words.entry result }
{
    read_two(words, roster, read_number)
}

/// `R` and a frame of the pool.
pub(crate) fn read_framed<R: Roster>(words: Words, roster: &R, pool: Pool) -> Read<(Author, u64)>
    ensures { reads_framed (R.scene roster.now) pool words.entry result }
{
    let read = |frame: &str| -> Read<u64>
        ensures { reads_frame (R.scene roster.entry.now) pool frame.now result }
    { read_frame(pool, frame, roster) };
    read_two(words, roster, read)
}

/// `R S`
pub(crate) fn read_followed<R: Roster>(words: Words, roster: &R) -> Read<(Author, Subscriber)>
    ensures { reads_followed (R.scene roster.now) words.entry result }
{
    read_two(words, roster, read_subscriber)
}

/// `R V`
pub(crate) fn read_versioned<R: Roster>(words: Words, roster: &R) -> Read<(Author, Version)>
    ensures { reads_versioned (R.scene roster.now) words.entry result }
{
    read_two(words, roster, read_version)
}
