//! Names of versions: who made one, and which of that author's it is.
//!
//! A replica is an author, and has an id of 0 to 63. It numbers the versions that it makes from 1 to
//! 1,000,000, so that an author and a counter name one version for ever. The text of a version is
//! `AUTHOR.COUNTER`. Versions stand in order, by author and then by counter, and an item is named by
//! the version that created it.
//!
//! ```
//! let version = Version::read("3.17")?;
//! assert_eq!(version.author().id(), 3);
//! assert_eq!(version.counter(), 17);
//! ```
#![tactic(auto)]

mod author;
mod fault;
mod item;
mod number;
mod version;

pub use author::{AUTHORS, Author};
pub use fault::VersionFault;
pub use item::ItemId;
pub use number::read_decimal;
pub use version::{MAX_COUNTER, Version};
