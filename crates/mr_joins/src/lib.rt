//! What a mail's heads say together: counters that only rise, joined by the greatest of each.
//!
//! A mail was *delivered* once or more, each time as an item, and has *elements*: its folders and its flags. Of each element of each delivery a
//! [`Count`] tells how often users toggled it, and how often it had been as the mail was deleted last. What was toggled an odd number of times is set. A
//! mail is deleted where nothing was raised beyond what the deletions knew; else it stands. A [`Value`] is all of these counts of one mail.
//!
//! Heads join by the greatest of each count, so that they say the same together in whatever order they come, and nothing is set that no user set. What is
//! shown of a mail is told by that join alone.
//!
//! ```text
//! let value = Value::joined(alloc, heads)?;
//! let shown = value.shown(alloc)?;
//! let told = value.edited(alloc, item, labels, flags)?;
//! ```
#![tactic(auto)]

mod count;
mod editing;
mod element;
mod labels;
mod mark;
mod putting;
mod shown;
mod value;
mod view;
mod word;

pub use count::Count;
pub use element::Element;
pub use labels::{INBOX, inbox};
pub use mark::Mark;
pub use value::Value;
pub use view::View;
pub use word::{MAX_WORD_BYTES, Word};
