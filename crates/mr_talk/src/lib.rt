//! How two mail folders sync over any two streams of bytes.
//!
//! One side calls, the other is called. They send messages ([`Message`]: a kind, a length, bytes), one side at a time,
//! in turns. This crate knows what the messages are and who may send which of them when; what stands in them is their
//! senders' matter.
//!
//! [`run_talk`] is one side of a whole talk, over a [`Line`] and for a [`Host`], which stands for a folder: it asks the host
//! for what is to be said, and hands it what came. Where it answers `Ok`, what was sent and what came is a whole talk, and all
//! that the host did is kept. A talk that breaks off is a beginning of one, and may be tried again as a new one.
//!
//! ```
//! let mut line = Line::new(alloc, input, BufWriter::new(alloc, output)?);
//! if let Err(fault) = run_talk(alloc, &mut line, &mut folder, Role::Caller) {
//!     println!(rt; "the talk broke off: {fault}")?;
//! }
//! ```
#![tactic(auto)]

mod fault;
mod hello;
mod kind;
mod laws;
mod line;
mod meeting;
mod message;
mod packed;
mod packing;
mod peer;
mod reader;
mod side;
mod talk;
mod talk_fault;
mod token;
mod told_fault;
mod turn;
mod unpacking;

pub use fault::{LineFault, MessageFault};
pub use hello::{Birth, HELLO_FORMAT, Hello, HelloFault, Knows, Short, Tip};
pub use kind::{
    HELLO_BYTES, Kind, MAX_FAULT_BYTES, MAX_FRAMES_BYTES, MAX_LIST_BYTES, MAX_PACKED_BYTES,
    MAX_PIECE_BYTES,
};
pub use laws::{
    accepted_talks_are_talks, both_sides_agree, cuts_have_no_effect,
    fed_bytes_are_messages_and_rest, no_spelling_begins_another, nothing_behind_a_talk,
    packed_behind_packed, part_of_a_message_is_truncated, seven_turns_at_most,
    whole_messages_are_given,
};
pub use line::Line;
pub use message::{HEAD_BYTES, Message, decode, encode};
pub use packed::{LastFrame, PackedFault};
pub use peer::{Met, Standing, nothing_to_tell, standing_of};
pub use reader::MessageReader;
pub use side::{Host, HostFault};
pub use talk::run_talk;
pub use talk_fault::TalkFault;
pub use told_fault::ToldFault;
pub use turn::{Role, Turn};
