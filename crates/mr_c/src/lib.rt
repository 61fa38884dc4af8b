//! The engine for C: functions over a handle, numbers and bytes. `include/mailrep.h` declares them, and says for each what it answers.
//!
//! A [`handle::Handle`] is two words that C owns. While it is open it owns a device (`mr_desk`), plain or kept; each function takes the
//! device out of the handle, works on it, and puts it back. A function that is an event answers with just what the device's call
//! gives, as a number and through pointers; one that reads gives what its clauses say of the device, and changes nothing. A
//! closed handle is told by [`failure::Failure::Closed`], by each of them.
//!
//! A kept device has its host do what is to be done to its file, [`kept`], and shows and hands out nothing before. The host may keep [`notes`]
//! there, and finds them as it opens the file.
//!
//! Whatever C hands over is read with care: bytes that are no text, no frame, no version are refused, and nothing changes.
#![tactic(auto)]

mod bytes;
mod calls;
mod conflicts;
mod failure;
mod frames;
mod given;
mod handle;
mod kept;
mod loose;
mod messages;
mod notes;
mod open;
mod opening;
mod peer;
mod places;
