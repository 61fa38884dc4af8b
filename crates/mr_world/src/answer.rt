//! What a world answers.

use mr_feed::Entry;
use mr_replica::{Refusal, Reply};

/// The answer to one event of a world.
#[derive(Debug, Drop)]
pub enum Answer {
    /// What the replica answered.
    Stepped(Result<Reply, Refusal>),
    /// The bytes that were delivered are fewer than the frame has.
    Truncated,
    /// The entry was put behind those that wait.
    Offered(Entry),
    /// The whole feed was offered already.
    NothingNew,
    /// As many entries wait as the port has places.
    Full,
    /// The entry was taken.
    TookEntry(Entry),
    /// No entry waits.
    Empty,
    /// The port is closed; where an entry was to be taken, none waits either.
    Closed,
    /// The port was closed.
    Done,
}
