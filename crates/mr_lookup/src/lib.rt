//! What a host asks of a replica beside what the replica itself tells: all by what any replica lends, so that nothing here changes one.
//!
//! Two hosts that meet say how much they know: [`highest_counter`] of each author, and [`knowledge_digest`], which is the same for
//! two replicas exactly where they know the same (but for two texts with one digest). One who answers a request may look
//! up what the request claims, by [`asked_of`]. One who merges heads of an item may look for what they come of, by
//! [`newest_common_ancestors`], and one who has to know what an item was that is held no more asks for the first message that the log
//! tells of it, by [`told_messages`].
//!
//! A log tells more than is held: the message of a version by [`told_message`], the newest version of an author by
//! [`newest_told`], and all versions of an item by [`history`]. Two who have a message of one version compare its
//! [`message_digest`].
//!
//! ```
//! let mine = knowledge_digest(alloc, &replica)?;
//! if mine == theirs {
//!     return Ok(());
//! }
//! let asked = asked_of(alloc, &ask)?;
//! let has_file = asked.knows(item, item.creator());
//! ```
#![tactic(auto)]

mod ancestors;
mod asked;
mod digest;
mod highest;
mod past;
mod told;
mod versions;

pub use ancestors::newest_common_ancestors;
pub use asked::asked_of;
pub use digest::{knowledge_digest, message_digest};
pub use highest::highest_counter;
pub use past::history;
pub use told::told_messages;
pub use versions::{ToldVersion, newest_told, told_message};
