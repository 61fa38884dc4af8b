//! Who listens to a feed.
//!
//! A subscriber takes a feed's entries from a port, one after the other, and keeps their fold in a form
//! of its own: the indexer which versions are under a label, the notifier how many are unseen. Where
//! memory runs out, the entry that it took last waits in a place of its own and is applied first at the
//! next call, so that no entry is lost or applied twice.
//!
//! ```text
//! let mut notifier = Notifier::new(alloc);
//! notifier.drain(&rt, &mut port)?;
//! let unseen = notifier.unseen();
//! ```
#![tactic(auto)]

mod indexer;
mod notifier;
mod shelves;
mod subscriber;

pub use indexer::{Index, Indexer};
pub use notifier::{Notifier, UnseenVersions};
pub use subscriber::{Drained, Fold, Subscriber};
