//! The open sessions of a replica, what it has taken of each stream that it asked for, and its open streams.
//!
//! A replica that pulls opens a **session**, and gives its number away with what it asks for. A source
//! answers with a **stream** of records. The session is bound by the first of them, a Start, to that
//! source and stream; from then on it takes the records of that stream alone, by index, with none left out
//! ([`Sessions::check`]). What a full stream tells of its source, the vectors of its Held records and the
//! fragments of its Know records, is kept until its End; a partial stream's is not.
//!
//! [`Sessions`] is the table of those that are open: at most eight ([`MAX_OPEN`]), each under a number that
//! is given once, from 1. It is an [`OpenTable`], whose numbers stand in a slab of eight slots, so a look-up
//! passes over eight entries.
//!
//! [`Streams`] is the same table of what the replica tells others. [`Streams::draw`] gives a stream's next
//! record, of what the store holds at that draw. It does two things in a row, which a replica does apart:
//! [`Streams::prepare`] gives the record and changes nothing, and [`Streams::advance`] moves the stream on behind it,
//! and can't fail. A stream gives a Start; then the heads and push-outs together, by rising
//! version, from behind the last one that a draw gave, each that the one who asked doesn't know as an Item
//! if its filter selects it, and as a MoveOut if it knows the item's first version; then, in a full stream, the
//! versions of the heads as they are at the first of those draws, in vectors, and the fragments that were
//! kept for it; then an End, which closes the stream. A draw that finds nothing more to tell goes on for
//! good. What an Ask claims is kept sorted by item ([`AskedOf`]), so that asking whether it claims a version
//! of an item is a search, and a run of versions that it claims for all items is passed in one.
//!
//! ```
//! let number = sessions.open()?;
//! if let Some(session) = sessions.get(number) {
//!     session.check(&record)?;
//! }
//! sessions.take(&record)?;
//! let session = sessions.close(number);
//!
//! let asked = AskedOf::new(alloc, &ask)?;
//! let number = streams.open(asked, Mode::Full, fragments)?;
//! let record = streams.draw(number, source, &store)?;
//! ```
#![tactic(auto)]

mod asked;
mod copies;
mod due;
mod fault;
mod held;
mod held_runs;
mod incoming;
mod limits;
mod open_table;
mod origin;
mod outgoing;
mod sessions;
mod slots;
mod streams;

pub use asked::AskedOf;
pub use fault::SessionFault;
pub use incoming::Incoming;
pub use limits::MAX_OPEN;
pub use open_table::OpenTable;
pub use origin::Origin;
pub use outgoing::{Onward, Outgoing, Prepared};
pub use sessions::Sessions;
pub use streams::Streams;
