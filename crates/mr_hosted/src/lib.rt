//! A kept replica whose host writes: a [`Hosted`] is a [`mr_kept::Journaled`] over an [`Outbox`].
//!
//! A program that has no file in its hands, as a library that is called from C, can't write. Its host does: after a commit
//! [`Hosted::acts`] are what is to be done to the file, in this order. Once the host has told by [`Hosted::settle`] that all of it is
//! done, [`Hosted::replies`] are handed out, and [`Hosted::replica`] shows what there is; never before. So what has left the
//! device, or was shown, comes of events that are in the host's file, in whichever act the host was killed.
//!
//! An [`Outbox`] is the [`mr_journal::Device`] below it: it notes what is to be done to the file, [`Act`] by act. What a crash of the host
//! leaves, in whichever act, is what a crash leaves of a device: so all that `mr_journal` says of one holds of the host's file.
//!
//! ```
//! let mut phone = Hosted::<SparingKnowledge>::begin(alloc, setup)?;
//! phone.ask(Event::Create(message))?;
//! phone.commit()?;
//! for act in phone.acts() { .. }      // the host's turn: write, cut, sync
//! phone.settle();
//! let Some([Reply::Issued(version)]) = phone.replies() else { .. };
//! ```
#![tactic(auto)]

mod act;
mod commit;
mod events;
mod hosted;
mod opening;
mod outbox;
mod peer;

pub use act::Act;
pub use hosted::Hosted;
pub use outbox::Outbox;
