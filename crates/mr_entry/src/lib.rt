//! Logs as bytes: events, and the entries that a journal keeps of a replica.
//!
//! [`event`] spells an event as a frame is spelled, so that a host keeps its log as the bytes of one event behind the
//! other. A journal keeps more of a replica: it begins with a [`Head`], which tells what replica it is of; then come the
//! events that the replica admitted, and notes of the program above, which mean nothing here. An entry is a kind byte and
//! the parts that the kind has. Numbers have their highest byte first.
//!
//! | kind | parts |
//! |---|---|
//! | 0 Head | the number of the format, 1 (2 bytes), id (2), event limit (4), birth (16), mark (32), length of the filter's text (4), the text |
//! | 1 Event | how many versions were issued once it was admitted (4), the event as [`event`] spells it |
//! | 2 Nexts | the number of a stream (8), how many Nexts of it in a row (4) |
//! | 3 Note | a kind byte of the program above (1), length (4), so many bytes |
//!
//! Each entry has one spelling, and none begins another one's, so that bytes in a row are those of just one list of
//! entries. [`decode_entry`] takes whatever bytes there are: those that begin no entry are refused with the first fault,
//! and memory is asked for last.
//!
//! ```
//! let bytes = encode_event_entry(alloc, 7, &Event::Pull)?;
//! let (entry, used) = decode_entry(alloc, &bytes)?;
//! assert_eq!(used, bytes.len());
//! assert!(matches!(entry, Entry::Event(7, Event::Pull)));
//! ```
#![tactic(auto)]

mod decoding;
mod encoding;
mod entry;
pub mod event;
mod fault;
mod head;
mod note;
mod reading;
mod spellings;

pub use decoding::decode_entry;
pub use encoding::{encode_entry, encode_event_entry, encode_head, encode_nexts, encode_note};
pub use entry::Entry;
pub use fault::EntryFault;
pub use head::{Birth, FORMAT, Head, Mark};
pub use note::Note;
pub use spellings::{no_spelling_begins_another, one_spelling};
