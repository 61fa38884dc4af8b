//! What a Maildir shows: which mail stands in which folders, and with which flags.
//!
//! A folder has a label ([`FolderTable`]). A mail is the bytes of its file, and its file in the store is its file in the Maildir, so the number
//! of a file's inode tells which mail it is ([`Index`]). [`index_of`] looks through the store, and finds the mails whose files a program edited in
//! place. [`scan`] lists the folders, looks each file up, and takes into the store what it hasn't seen.
//! The files of one mail make one view ([`seen_view`]). A folder that the layout doesn't have is passed over, and
//! [`mails_passed_over`] tells which mails lie there.
//!
//! ```text
//! let table = FolderTable::of(alloc, default_layout(&folders), folders)?;
//! let Indexed { mut index, edited } = index_of(alloc, &mut tree, &sizes)?;
//! let scan = scan(alloc, &mut tree, &table, &mut index)?;
//! for (digest, files) in &scan.mails { seen_view(alloc, left.get(digest), files)?; }
//! ```
#![tactic(auto)]

mod adopting;
mod finding;
mod folders;
mod indexing;
mod inodes;
mod scanned;
mod scanning;
mod seeing;
mod straying;

pub use folders::{FolderTable, MailFolder, default_layout};
pub use indexing::{Indexed, index_of};
pub use inodes::{Index, Sizes, Stored};
pub use scanned::Scan;
pub use scanning::scan;
pub use seeing::seen_view;
pub use straying::mails_passed_over;
