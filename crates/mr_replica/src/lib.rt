//! One replica of a mail collection: what it holds, what it knows, and the atomic step.
//!
//! A replica holds the latest versions of mail items. It is asked to do one thing at a time, an
//! [`Event`], and [`Replica::step`] either answers it or refuses it and changes nothing. Each event has a
//! method of its own too, which gives just what that event can; and [`Replica::step_then`] lends the reply to
//! its caller before anything changes, so that a frame can be made of it, or a place be found. A create issues
//! the first version of a new item; an edit issues a version that supersedes held versions of one item,
//! its bases, with all that these supersede, and the replica's own last version of the item likewise. An
//! edit's version also supersedes each lower counter of the replica's own, so its own column has no
//! holes, and has versions of other items too. What leaves the replica is what the new version supersedes
//! **of its item**.
//!
//! An own version that the replica's filter selects enters its heads, another one its push-outs, which
//! it holds until another replica has them. Each change of the heads is an entry of the feed, each of the
//! push-outs one of the push-out feed, each admitted event one of the log.
//!
//! A push-out may go once another replica vouches, by a receipt, that it holds that version or one that
//! supersedes it. A replica that has let go of all its push-outs can retire, and from then on only tells
//! others what it holds. What it has taken of the streams that it asked for, and what it tells others,
//! are its sessions and streams; each can be cut. Another replica's request is answered by a stream, which
//! is full, and keeps what is known at that moment, where all that the other selects is selected here.
//! A stream gives a record at a time, of what is held as it is asked for, and is closed with its End.
//!
//! What a stream tells is taken record by record, by the session that asked for it. A version that is told is
//! learned at once with what it supersedes; what a full stream tells behind its versions is kept until its end,
//! and then tells which heads the source no longer holds.
//!
//! A replica is its log replayed, at any time and by its type: [`Replica::replay`] makes it again of the events that it
//! admitted.
//!
//! What is known is kept in a form that the caller chooses, by the type `K`. A version that is issued
//! alone is learned, for its item or, in some forms, for all items: what it supersedes of its item was learned before it, and the rest are
//! versions of other items. [`Replica::fragments`] tells what is known, with concise vectors.
//!
//! ```text
//! let id = Author::try_new(0)?;
//! let filter = Filter::read(alloc, "label:inbox")?;
//! let mut replica: Replica<PlainKnowledge> = Replica::try_new(alloc, id, filter, 1_000_000)?;
//! let first = replica.create(message)?;
//! let second = replica.edit(Bases::new(vec![in alloc; first]?), reply)?;
//! ```
//!
//! After these lines, where both messages have the label `inbox`, the second version is the one head,
//! and the feed tells that the first entered, left, and that the second entered. The fragments are one,
//! which tells that `0.1` and `0.2` are known for the item `0.1`.
#![tactic(auto)]

mod event;
mod laws;
mod pieces;
mod refusal;
mod replica;

pub use event::{Event, Reply};
pub use laws::{alike_are_one, steps_only_add};
pub use mr_filter::Filter;
pub use mr_madewith::Revision;
pub use mr_model::Bases;
pub use refusal::Refusal;
pub use replica::{MAX_EVENTS, Received, ReplayFault, Replica, ReplicaFault};
