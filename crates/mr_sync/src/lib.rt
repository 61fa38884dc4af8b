//! Two open folders talk: what a talk of [`mr_talk`] asks of a folder.
//!
//! A folder is a kept replica and a tree of files. A [`FolderHost`] owns both while they talk, and is the
//! [`Host`](mr_talk::Host) of it: it says who the folder is, asks for what it lacks, tells what the other side asks for, each
//! file before the record that names it, unless the mail is gone by that, and takes what the other side tells. What the
//! replica did is kept before anything that comes of it leaves. What comes is a stranger's: what is wrong ends the talk by a fault, and what was taken before
//! stays. Where there was nothing to tell, what both sides said may be noted ([`FolderHost::idle_hellos`], [`write_hellos`]): for a talk like that one
//! ([`idle_answer`]) the folder as it is needn't be opened.
//!
//! ```
//! let mut host = FolderHost::new(alloc, kept, files, meetings);
//! let ended = run_talk(alloc, &mut line, &mut host, Role::Caller);
//! let met = host.met(now);
//! let (kept, files, summary) = host.into_parts();
//! ```
#![tactic(auto)]

mod asking;
mod coming;
mod ending;
mod fault;
mod files;
mod hello;
mod host;
mod idle;
mod lists;
mod marks;
mod named;
mod packed;
mod receipts;
mod records;
mod said;
mod sending;
mod summary;
mod taking;
mod talk;
mod telling;
mod vouching;
mod wants;

pub use fault::SyncFault;
pub use host::FolderHost;
pub use idle::{HELLOS_BYTES, Hellos, MAX_IDLE_TALKS, idle_answer, read_hellos, write_hellos};
pub use lists::{
    PushOut, begin_bytes, push_out_list, read_begin, read_digest, read_digests, read_push_outs,
};
pub use summary::Summary;
