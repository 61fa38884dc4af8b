//! What a version supersedes: its made-with set, and the trail that such sets are built from.
//!
//! A [`Revision`] is a version of an item, with its message and its made-with set: the versions of
//! its item that it supersedes, and earlier ones of its author. An item's first version has an empty set. That of
//! a later one has, exactly:
//!
//! - its bases, the versions that it was made from, with all that they supersede;
//! - its author's last version of the item, with all that this one supersedes, also where that version
//!   has left the author's store since: the [`Trail`] keeps it;
//! - each version of its author with a lower counter, whatever the item: the author's column is filled,
//!   so that it has no holes.
//!
//! [`below_of`] builds the set, as a concise vector. A revision is one shared handle, so its copies cost
//! the same whatever it holds. An author's versions of one item form a chain,
//! and two versions of an item are in conflict where neither's set has the other.
//!
//! ```
//! let first = Revision::new(alloc, item, version, ConciseVector::new(alloc), message)?;
//! trail.note(&first)?;
//! let below = below_of(alloc, &first, trail.last(item), next)?;
//! let second = Revision::new(alloc, item, next, below, reply)?;
//! assert!(second.supersedes(version));
//! ```
#![tactic(auto)]

mod below;
mod revision;
mod trail;

pub use below::below_of;
pub use revision::Revision;
pub use trail::Trail;
