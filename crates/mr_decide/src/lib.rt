//! What is done for one mail: what is told of it, and what becomes of its files.
//!
//! A mail was *left* so, as this program showed it last; it is *seen* so, as it stands in the Maildir now; and of its items *heads* are held, whose values say
//! together what is shown of it. From these alone follows what is done: a change of the user is told of each item, as an edit of what the heads say
//! together; heads that don't agree are joined, where the mail's file is here; and files follow what is shown.
//!
//! ```text
//! match act_of(alloc, &held, left.as_ref(), &seen)? {
//!     MailAct::Change { value, files } => tell_each(&held, value, files),
//!     MailAct::Join { value, files } => tell_those_due(&held, value, files),
//!     ..
//! }
//! ```
#![tactic(auto)]

mod changing;
mod deciding;
mod held;
mod mail_act;

pub use deciding::act_of;
pub use held::{Head, HeldItem, is_due, together};
pub use mail_act::{Files, MailAct, Seen, TooMuch};
