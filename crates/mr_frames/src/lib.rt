//! Frames out of a stream of bytes that is cut anywhere.
//!
//! A connection hands over bytes in pieces of any size: half a frame, three frames and a bit, one byte.
//! A [`FrameReader`] keeps what was fed and gives the frames that it spells, one by one and in order,
//! each as soon as its last byte is there. What was fed is always the spellings of the frames that were
//! given and then what the reader still has; so how the bytes were cut makes no difference
//! ([`cuts_have_no_effect`]).
//!
//! Bytes that spell no frame are told once, with the fault that [`mr_wire::decode`] has for them. Where
//! the next frame would begin is unknown from there on, so the reader has failed for good.
//!
//! ```
//! let mut reader = FrameReader::new(alloc);
//! reader.feed(&piece)?;
//! while let Some(frame) = reader.next_frame()? {
//!     take(frame);
//! }
//! reader.finish()?;
//! ```
#![tactic(auto)]

mod fault;
mod laws;
mod reader;

pub use fault::FrameFault;
pub use laws::{
    cuts_have_no_effect, fed_bytes_are_frames_and_rest, frames_behind_frames,
    part_of_a_frame_is_truncated, whole_frames_are_given,
};
pub use reader::FrameReader;
