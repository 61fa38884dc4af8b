//! Frames: what replicas send to one another, as bytes.
//!
//! A replica asks for what it lacks by an [`Ask`] and is answered by a stream of [`Record`]s; by a
//! [`Receipt`] it vouches for a version. A frame is a length of four bytes and so many bytes behind it:
//! a format byte, a kind byte, and the parts that the kind has. Numbers have their highest byte first.
//!
//! Each frame has one spelling in a format, and no spelling begins another one's. [`encode`] writes
//! format 2, into memory of just the length that [`Frame::encoded_len`] tells. [`decode`] reads it, and
//! format 1, which is the same without receipts. It takes what a stranger sent: bytes that are no frame
//! are refused with the first fault. A body is walked once: where a growth is refused, what was built so far is dropped
//! and the walk goes on, so want of memory comes after every other fault.
//!
//! ```
//! let bytes = encode(alloc, &Frame::Record(record))?;
//! let (frame, used) = decode(alloc, &bytes)?;
//! assert_eq!(used, bytes.len());
//! assert_eq!(frame.kind(), Kind::Held);
//! ```
//!
//! [`parts`] offers the parts of frames to layers that spell values of their own.
#![tactic(auto)]

mod body;
mod decoding;
mod descent;
mod encoding;
mod fault;
mod filter;
mod fragment;
mod frame;
mod input;
mod items;
mod keep;
mod kind;
mod label;
mod lengths;
mod message;
pub mod parts;
mod put;
mod revision;
mod spellings;
mod vector;

pub use decoding::{MAX_REST_BYTES, decode};
pub use descent::Descent;
pub use encoding::{encode, encode_ask, encode_receipt, encode_record};
pub use fault::WireFault;
pub use fragment::FrameFragment;
pub use frame::{Ask, Body, Frame, Header, MAX_ASKED_BYTES, Mode, Receipt, Record};
pub use kind::{FORMAT, Kind};
pub use spellings::{no_spelling_begins_another, one_spelling};
