//! The device behind a handle: a replica, and the frame that it gave last, as bytes.
//!
//! A host that isn't written in this language has numbers and bytes and nothing else. So a [`Desk`] takes a [`Call`], whose
//! texts and frames are lent bytes, and answers it as one event of its replica. What the event gives besides a frame is
//! told at once, as [`Told`]. A frame is spelled before anything changes, and then lies on the desk: where it finds no
//! memory the event is refused, so that no frame is lost. A call that is refused leaves the desk as it was, and the frame
//! of an earlier call lies there still; after any other call there lies its own frame, or none.
//!
//! ```text
//! let mut phone = Desk::replay(alloc, 0, b"label:inbox", 1_000_000, b"")?;
//! let mut office = Desk::replay(alloc, 1, b"all", 1_000_000, b"")?;
//! phone.serve(&Call::Create(draft))?;
//! office.serve(&Call::Pull)?;
//! let Told::Streaming(stream) = phone.serve(&Call::Answer(office.frame()))? else { .. };
//! phone.serve(&Call::Next(stream))?;
//! office.serve(&Call::Receive(phone.frame()))?;
//! ```
//!
//! A desk is its log: [`Desk::replay`] makes it again of the bytes of the events that it admitted. Who would have the file looked after takes
//! a [`KeptDesk`], a replica whose host writes ([`mr_hosted::Hosted`]): [`begin_kept`], [`open_kept`]. A [`Device`] is one of the two,
//! behind the same calls, and nothing that comes of an event of a kept one is shown or handed out before it is in the file. Its host may
//! keep notes of its own beside the events, by [`Device::note`], and finds them as it opens the file.
#![tactic(auto)]

mod ancestor;
mod call;
mod desk;
mod device;
mod draft;
mod event;
mod fault;
mod frames;
mod kept;
mod kept_opening;
mod labels;
mod log;
mod merging;
mod notes;
mod opening;
mod peer;
mod reply;

pub use call::{Call, Draft, VersionNumbers};
pub use desk::Desk;
pub use device::Device;
pub use fault::Fault;
pub use frames::{Claim, announced_len, claim_of};
pub use kept::KeptDesk;
pub use kept_opening::{begin_kept, open_kept};
pub use log::event_bytes;
pub use notes::NOTE_KIND;
pub use peer::{Born, highest_of};
pub use reply::{Told, frame_by};
