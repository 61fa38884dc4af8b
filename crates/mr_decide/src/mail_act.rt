//! How a mail is seen, and what is done for it.
use mr_joins::{Value, View};

/// How a mail stands in the Maildir.
#[derive(Debug, Drop)]
pub struct Seen {
    /// The folders in which a file of it was seen, and its flags; none where there is none. A view of no folder counts as none.
    pub view: Option<View>,
    /// Whether two listings in a row, during which no folder changed, say the same of it.
    pub is_certain: bool,
    /// Whether its file is here, in the store or in the Maildir.
    pub has_file: bool,
    /// Whether it came and went since the Maildir was left, so that its file may have been put there before the program was stopped.
    pub is_own: bool,
}

/// What becomes of a mail's files.
#[derive(Debug, Drop)]
pub enum Files {
    /// They stay as they are.
    Stay,
    /// They are made, moved and renamed until the mail stands so.
    Follow(View),
    /// They go.
    Remove,
}

/// Why a change of the user can't be told.
#[derive(Clone, Copy, Debug, PartialEq, Eq, Drop)]
pub enum TooMuch {
    /// The mail would stand in more folders than a message may have labels.
    Folders,
    /// A folder or flag of the mail was toggled so often that its count can't rise.
    Toggles,
}

/// What is done for a mail.
#[derive(Debug, Drop)]
pub enum MailAct {
    /// It is told and shown as it is.
    Nothing,
    /// A change of the user isn't certain yet: nothing is told, and its files stay. Where there is news of the mail, which a note that it was shown would make
    /// the user's change undo, the folders are looked at anew first.
    Wait { has_news: bool },
    /// A file that nobody knows becomes a new item, which stands so.
    Create(View),
    /// A change of the user: each item that is held is edited, over all its heads, to this value.
    Change { value: Value, files: Files },
    /// A change of the user that can't be told: nothing is, and its files stay.
    Refuse(TooMuch),
    /// Heads that show something else than they say together: each item that is due is edited, over all its heads, to this value.
    Join { value: Value, files: Files },
    /// Nothing is told, and files follow.
    Files(Files),
}
