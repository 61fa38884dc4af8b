//! The messages of the story.
use crate::fault::Fault;
use mr_mail::{Day, Flag, Message, Place};
use std::alloc::Global;

/// What a message says, and where it belongs.
#[derive(Clone, Copy)]
pub struct Draft<'a> {
    pub subject: &'a str,
    pub label: &'a str,
    pub flags: u8,
}

impl<'a> Draft<'a> {
    /// A message that nobody has seen yet.
    pub fn unseen(subject: &'a str, label: &'a str) -> Draft<'a> {
        Draft {
            subject,
            label,
            flags: 0,
        }
    }

    /// The same message, now seen.
    pub fn seen(self) -> Draft<'a> {
        Draft {
            flags: self.flags | Flag::Seen.bit(),
            ..self
        }
    }

    /// The same message, now flagged.
    pub fn flagged(self) -> Draft<'a> {
        Draft {
            flags: self.flags | Flag::Flagged.bit(),
            ..self
        }
    }

    /// The same message, under another label.
    pub fn filed(self, label: &'a str) -> Draft<'a> {
        Draft { label, ..self }
    }

    /// The message, with a sender, a body and a day.
    ///
    /// `Message` where the label is none or the subject is too long; `OutOfMemory`.
    pub fn message(&self, alloc: Global) -> Result<Message, Fault> {
        let day = Day::read("2026-01-05")?;
        let labels = vec![in alloc; String::from_str(alloc, self.label)?]?;
        Ok(Message::try_copying(
            alloc,
            "ann@example.org",
            self.subject,
            b"See you there.",
            labels,
            self.flags,
            day,
        )?)
    }
}

/// The same message at another place: with other labels and flags.
pub fn with_place(alloc: Global, message: &Message, place: Place) -> Result<Message, Fault> {
    Ok(Message::try_of_place(
        alloc,
        message.from(),
        message.subject(),
        message.body(),
        place,
    )?)
}
