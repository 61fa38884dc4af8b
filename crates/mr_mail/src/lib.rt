//! Messages, their labels and flags, and days.
//!
//! A message is a sender, a subject, a body of bytes, up to sixteen labels, five flags and a day.
//! Labels stand for folders, and are kept in rising order of their bytes, each once. Labels, flags and day together
//! are a message's place. A card is what is told of a message where only its place counts; it shares the message's
//! parts. A day is counted from 1970-01-01, and is written `YYYY-MM-DD`.
//!
//! ```text
//! let day = Day::read("2026-01-05")?;
//! let labels = vec![in alloc; String::from_str(alloc, "inbox")?]?;
//! let message = Message::try_new(alloc, from, subject, body, labels, 1, day)?;
//! let card = message.card()?;
//! ```
#![tactic(auto)]

mod card;
mod day;
mod fault;
mod flags;
mod label;
mod message;
mod parts;
mod place;

pub use card::Card;
pub use day::{Day, DayFault};
pub use fault::MessageFault;
pub use flags::{Flag, Flags};
pub use label::{Label, MAX_LABEL_BYTES, MAX_LABELS};
pub use message::{MAX_BODY_BYTES, MAX_FROM_BYTES, MAX_SUBJECT_BYTES, Message};
pub use place::Place;
