//! Events as bytes: the form in which a log is kept.
//!
//! A host that has these bytes of the events that a replica admitted, one behind the other, has the replica back by
//! [`mr_replica::Replica::replay`]. An event is spelled as a frame is: a length of four bytes, and so many bytes
//! behind it: the number of the form of the bytes, a kind byte, and the parts that the kind has, each spelled as in
//! a frame. Numbers have their highest byte first.
//!
//! | kind | parts |
//! |---|---|
//! | 0 Create | the message |
//! | 1 Edit | a count of bases, the bases, the message |
//! | 2 Retire, 3 Pull | |
//! | 4 Receive | the kind byte of the frame, and its parts |
//! | 5 CutIn, 7 Next, 8 CutOut | the number of the session or the stream |
//! | 6 Answer | the parts of the request |
//! | 9 Vouch | the version |
//! | 10 Release | the parts of the receipt |
//!
//! Each event has one spelling, and none begins another one's, so that the bytes of a log are those of just one list
//! of events. [`decode_event`] takes whatever bytes there are: those that begin no event are refused with the first
//! fault, and nothing is built of them.
//!
//! ```
//! let bytes = encode_event(alloc, &Event::Pull)?;
//! let (event, used) = decode_event(alloc, &bytes)?;
//! assert_eq!(used, bytes.len());
//! assert!(matches!(event, Event::Pull));
//! ```

mod bases;
mod body;
mod decoding;
mod encoding;
mod fault;
mod lengths;
mod spellings;

pub use decoding::decode_event;
pub(crate) use decoding::event_in;
pub(crate) use encoding::put_event;
pub use encoding::{FORM, encode_event};
pub use fault::EventFault;
pub use lengths::encoded_len;
pub(crate) use lengths::{LENGTH_BYTES, rest_len};
pub use spellings::{no_spelling_begins_another, one_spelling};
