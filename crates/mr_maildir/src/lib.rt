//! A Maildir's mail as messages: names, folders, and what is done for a mail.
//!
//! A Maildir keeps each mail in a file: the folder that it lies in and the letters behind its name tell where it stands.
//! Here are the parts of such names, the view of a mail (the folders and flags that it has), what several heads of one
//! mail say together, and what is done for a mail that was left in one view, is seen in another, and is held by a replica in a third.
//! It is all over values: nothing here touches a disk.
//!
//! ```text
//! match next_act(alloc, left, seen, held)? {
//!     Act::Edit(view) => tell(view),
//!     Act::Delete => tell_that_it_is_gone(),
//!     ..
//! }
//! ```
#![tactic(auto)]

mod act;
mod counts;
mod file;
mod folder;
mod header;
mod heads;
mod info;
mod layout;
mod letters;
mod lines;
mod listing;
mod mail_text;
mod merging;
mod name;
mod plan;
mod policy;
mod reference;
mod telling;
mod told;
mod view;

pub use act::{Act, next_act};
pub use file::MailFile;
pub use folder::{INBOX, OWN_FOLDER, folder_label, folder_name, inbox, is_safe_folder};
pub use header::{HEADER_BYTES, Header, MAX_MESSAGE_ID_BYTES, read_header};
pub use heads::{is_merge_due, shown};
pub use layout::Layout;
pub use letters::{flags_of, letter_of, letters_with};
pub use lines::{FolderName, MailLines};
pub use listing::{list_line, printable};
pub use mail_text::{MAX_EDITED_BYTES, MAX_JOINED_BYTES, MailText};
pub use merging::merged;
pub use name::{FileName, is_safe_name, read_name, unique_for};
pub use plan::{FileAct, FileFault, file_acts};
pub use policy::{MergeFault, merged_place};
pub use reference::{MailReference, read_reference};
pub use telling::{is_shown_by, told_marks, told_value, uncounted};
pub use told::{told_folder, told_name, with_told_folder, with_told_name};
pub use view::View;
