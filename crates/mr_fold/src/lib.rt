//! An open folder of mail: a kept replica, and the Maildir that shows it.
//!
//! [`init`] makes a folder's replica, and [`open`] opens it again: its journal is `.mailfold/log`, and how its folders lie is told in
//! `.mailfold/config` or found. [`settle_folder`] brings both together: the Maildir is scanned, what the user changed is told and kept, and
//! files that have to be moved for it only then, so that they stand as the replica holds the mail; [`look`] says what it would do; [`settle_if_changed`],
//! [`settle_if_edited`] and [`look_if_changed`] don't look where nothing was changed since, and [`noted_at_rest`] and [`seen_at_rest`] have what was noted for
//! those that needn't even open the folder then. Where it would
//! delete a mail that lies in a folder that the layout hasn't got, nothing is done ([`StrayMails`]). [`sweep_folder`] lets files go that no mail
//! names, and [`expire_folder`] those of deleted mail too ([`deleted_mails`]). The journal keeps notes beside its events: how far of the feed the Maildir shows,
//! and with whom a sync came to its end ([`shown_of`], [`meetings_of`]).
//!
//! [`settle`] is the same over any files ([`MailFiles`]): there the contracts say what is told, and that nothing is shown before it is
//! kept, and nothing noted before it is on the disk. What real files take and give no contract says.
//!
//! ```
//! init(&rt, "Mail", FolderSetup { id, filter, birth, layout: None })?;
//! let mut folder = open(&rt, "Mail")?;
//! println!(rt; "{}", settle_folder(&mut folder, None)?.tally)?;
//! ```
#![tactic(auto)]

mod ancestors;
mod closed;
mod deciding;
mod digests;
mod disk_mails;
mod expiring;
mod fault;
mod first_look;
mod fold_fault;
mod held_side;
mod lacking;
mod looking;
mod mark;
mod message;
mod names;
mod opening;
mod parting;
mod released;
mod rest_bytes;
mod resting;
mod seeing;
mod settings;
mod settling;
mod shown;
mod sides;
mod sizes;
mod state;
mod stored_mail;
mod straying;
mod targets;
mod telling;

pub use closed::{AtRest, note_at_rest, note_seen, noted_at_rest, seen_at_rest};
pub use expiring::{deleted_mails, expire_folder, needed_mails, sweep_folder};
pub use fault::SettleFault;
pub use fold_fault::FoldFault;
pub use looking::{
    Looked, PassedOver, Settled, look, look_if_changed, settle_folder, settle_if_changed,
    settle_if_edited,
};
pub use mark::mark_of;
pub use message::{day_at, folder_lines, new_mail};
pub use opening::{
    FolderSetup, Kept, OpenFolder, begin_log, check_made, init, lock, mark_for, open, open_locked,
};
pub use settling::{HeldItems, MAILS_AT_ONCE, MailFiles, settle, settle_in_parts};
pub use shown::note_shown;
pub use state::{meetings_of, shown_of};
pub use stored_mail::StoredMail;
pub use straying::{StrayMails, WhyPassedOver, layout_name};
