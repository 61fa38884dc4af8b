//! What the logs of replicas say of one another: whether one history explains them all, and if not, how far one goes.
//!
//! Each replica keeps a log of its own, and is that log replayed. [`audit`] says whether there is a history of one world in which each
//! replica did just what its log says, and took only what others in it gave. Then what holds of each world holds of these
//! replicas: together they hold each version that none supersedes, and none of them was told a version twice. Else it names an event
//! which carries a frame that nobody gave, [`giver_of`] says who should have, [`missing_peers`] which replicas gave something
//! and aren't among these, and [`explained_beginnings`] how far one history explains each of the logs.
//!
//! ```text
//! if are_distinct(&ends) {
//!     match audit(alloc, &ends)? {
//!         Verdict::OneHistory => ..,
//!         Verdict::Unexplained { replica, event } => ..,
//!     }
//! }
//! ```
#![tactic(auto)]

mod beginning;
mod beginnings;
mod peers;
mod verdict;

pub use beginning::beginning_of;
pub use beginnings::explained_beginnings;
pub use mr_settle::are_distinct;
pub use peers::{giver_of, missing_peers};
pub use verdict::{Verdict, audit};
