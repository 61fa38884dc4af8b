//! What a replica tells of its store, and how it is told.
//!
//! A feed is the list of what entered the store and what left it, in order of time. Who goes through
//! it from the first entry on has the store's versions, each with its card: that is the fold. Entries
//! are handed on through ports, which give them in the order in which they were offered.
//!
//! ```text
//! let mut feed = Feed::new(alloc);
//! feed.push(Entry::Added { item, version, card })?;
//! let held = fold(alloc, feed.entries())?;
//! ```
#![tactic(auto)]

mod entry;
mod feed;
mod plain_port;
mod port;
mod port_fault;

pub use entry::Entry;
pub use feed::{Feed, fold};
pub use plain_port::PlainPort;
pub use port::{MAX_CAPACITY, Port, PortIn, PortOut, Taken, first_in_first_out};
pub use port_fault::{CloseFault, OfferFault, PortFault};
