//! A folder of mail: the store of its files.
//!
//! Each mail is a file that is kept by the SHA-256 of its bytes. A file comes in under another path, is synced there, and gets
//! its place by a rename; a file of the Maildir gets one by a second link. So whatever a crash leaves, a file in the store has the
//! bytes of its digest.
#![tactic(auto)]

mod disk;
mod disk_folders;
mod files;
mod listing;
mod memory;
mod memory_folders;
mod path;
mod reading;
mod show;
mod store;
mod sweeping;

pub use disk::{DiskTree, FileMark};
pub use disk_folders::{DiskFolders, FolderNames};
pub use files::{FileTree, FilesFailed};
pub use listing::{Folders, Listing, list};
pub use memory::MemoryTree;
pub use memory_folders::MemoryFolders;
pub use path::{FilePath, FolderPath, Part};
pub use reading::{keep_mail, read_mail};
pub use show::{link, replace, unlink};
pub use store::{Incoming, StoreFault, adopt, append, begin, end, take_in};
pub use sweeping::{StoredMails, stored, sweep};
