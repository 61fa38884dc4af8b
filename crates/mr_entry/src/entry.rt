//! Entries.

use crate::head::Head;
use crate::note::Note;
use mr_replica::Event;

/// What a journal keeps.
#[derive(Debug, Drop)]
pub enum Entry {
    /// What replica the journal is of.
    Head(Head),
    /// An event that the replica admitted, and how many versions it had issued then: of a Create or an Edit the counter of
    /// the version that it issued.
    Event(u32, Event),
    /// So many Nexts of one stream, one after the other: the number of the stream, and how many.
    Nexts(u64, u32),
    /// What the program above wrote.
    Note(Note),
}
