//! Batches of entries that survive a crash.
//!
//! A [`Journal`] keeps entries, which are byte strings, in the order in which they came, on a [`Device`]: a file ([`DiskFile`]) or
//! memory ([`MemoryDevice`]). [`Journal::commit`] adds a batch of them. Where it answers `Ok` they are kept, whatever happens then;
//! where the program or the machine stops before, all of the batch is kept or nothing of it, and nothing of the entries before is
//! lost. [`Journal::open`] gives the entries that are kept, and may itself be stopped at any moment.
//!
//! Behind the batches stands a closed gate, a byte. What a commit writes goes behind it and is synced, and only then is the gate
//! opened and synced too. So an open gate stands before a whole batch, and what is behind a closed gate is of no account. A file
//! that no crash leaves, with an open gate before something else, is refused and not touched. The digest of a batch tells that a
//! byte has changed since; that a crash loses nothing doesn't rest on it. `docs/DISK.md` has the format, byte by byte.
//!
//! ```
//! let (mut journal, entries) = Journal::open(alloc, DiskFile::open(&rt, "log")?)?;
//! for entry in &entries {
//!     replay(entry);
//! }
//! journal.commit(alloc, &batch)?;
//! ```
#![tactic(auto)]

mod device;
mod disk_file;
mod fault;
mod journal;
mod laws;
mod memory;
mod read;
mod restore;
mod spell;
mod steps;

pub use device::{Device, DeviceFailed};
pub use disk_file::{DiskFile, FileFault};
pub use fault::JournalFault;
pub use journal::Journal;
pub use laws::{bytes_stand_for_one_list, no_journal_is_refused};
pub use memory::MemoryDevice;
