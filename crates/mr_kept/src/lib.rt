//! A replica that survives the end of its program: a [`Journaled`] is a replica and the journal of its events.
//!
//! A replica is its log, so a log that is kept is a replica that is kept. The events are methods. What an event answers to its
//! caller alone, it answers at once; what may leave the device, which is a request, a record, a receipt or an issued
//! version, it holds back. [`Journaled::commit`] keeps all events that wait, as one batch, and only then hands out
//! what was held back. So what others may have seen comes of events that are still there after a crash.
//!
//! A program may keep notes of its own beside the events, which mean nothing here, by [`Journaled::note`].
//!
//! [`Journaled::begin`] makes a replica in an empty journal, [`Journaled::open`] brings one back from its journal. Sessions and
//! streams that were open when its program ended are closed then, since nobody goes on with them.
//!
//! ```
//! let file = DiskFile::open(&rt, "phone")?;
//! let Ok(mut phone) = Journaled::<SparingKnowledge, _>::begin(alloc, file, setup) else { .. };
//! phone.create(message)?;
//! let issued = phone.commit()?;
//! let file = phone.into_device();
//! let Ok((phone, opened)) = Journaled::<SparingKnowledge, _>::open(alloc, file, &mark, None) else { .. };
//! assert_eq!(phone.replica().heads().len(), 1);
//! ```
#![tactic(auto)]

mod admit;
mod batch;
mod beginning;
mod closing;
mod commit;
mod events;
mod fault;
mod gather;
mod journaled;
mod notes;
mod opening;
mod peer;
mod telling;

pub use beginning::Setup;
pub use fault::{ExplainedFault, KeptFault, OpenFault};
pub use journaled::Journaled;
pub use opening::Opened;
pub use peer::PeerFault;
