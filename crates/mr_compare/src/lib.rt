//! How each mail of a folder was left, is seen and is held, and what follows from these three.
//!
//! A folder is a Maildir that shows what a replica holds. A mail is its file's digest. How it was *left* is what the beginning of
//! the replica's feed has, as far as it was shown ([`left_of`]); how it is *seen* is what a listing says; how it is *held* is what the
//! replica's heads and push-outs say ([`held_of`], [`gathered`], [`item_view`]). A mail may be several items, each of which may have
//! several heads: these are joined ([`item_standings`], [`held_mails`], [`left_mails`]). Brought together ([`standing_of_held`],
//! and [`standing_of_unheld`] of [`unheld_digests`]) the three say what is done for each mail ([`acts_of`]): a change or a deletion is
//! told, heads are merged, or files follow. A change that a listing tells, and that isn't certain, waits, or else nothing is done
//! ([`first_undecided`]). How far the feed was shown is noted in the replica's journal ([`FolderNote`]). It is all over values and
//! slices: nothing here touches a disk or a replica.
//!
//! ```
//! let heads = gathered(alloc, held_of(alloc, replica.heads(), replica.push_outs())?.heads)?;
//! let items = gathered(alloc, item_standings(alloc, &heads, &ancestors)?)?;
//! let left = left_mails(alloc, &left_of(alloc, replica.feed(), shown)?, &digests, &items)?;
//! let mails = held_mails(alloc, &items)?;
//! let others = unheld_digests(alloc, &items, &sides)?;
//! let acts = acts_of(alloc, &mails, &others, &sides, most_deletions(mails.len()))?;
//! ```
#![tactic(auto)]

mod compare;
mod gather;
mod held;
mod joining;
mod left;
mod mails_left;
mod note;
mod sides;
mod tally;
mod undecided;

pub use compare::{CompareFault, MailAct, Standing, acts_of, believed_act, most_deletions};
pub use gather::gathered;
pub use held::{Digest, Head, Held, MailItem, held_of, is_merge_due, item_view};
pub use joining::{ItemHeads, held_mails, item_standings};
pub use left::{Left, left_of};
pub use mails_left::{left_mails, unheld_digests};
pub use note::{FolderNote, MEETING_KIND, Meeting, SHOWN_KIND, Shown, read_note};
pub use sides::{HeldMail, LeftMail, Sides, standing_of_held, standing_of_unheld};
pub use tally::{Tally, tally_of};
pub use undecided::first_undecided;
