//! The words of a message.
ghost use Rattle.std.specs.Prelude.{◌≡◌, ◌≤◌, ℕ};
ghost use Rattle.mr_mail.specs.Admits.{first_fault};
ghost use Rattle.mr_mail.specs.Day.{Spells};
ghost use Rattle.mr_command.specs.List.{pieces_of};
ghost use Rattle.mr_command.specs.Message.{subject_of, body_of, takes_parts, reads_message, makes};
ghost use Rattle.mr_command.specs.Reading.{names};

use crate::lists::{are_labels, are_too_many_labels, read_flags, read_labels};
use crate::words::Words;
use crate::{LineFault, Read};
use mr_mail::{
    Day, Flags, MAX_BODY_BYTES, MAX_FROM_BYTES, MAX_SUBJECT_BYTES, Message, MessageFault,
};
use std::alloc::Global;
use std::marker::Model;

/// What stands between a subject and a body.
const BODY_MARK: &str = " // ";

/// The words of a message, not yet read.
#[derive(Drop)]
pub(crate) struct MessageWords<'a> {
    labels: &'a str,
    flags: &'a str,
    date: &'a str,
    from: &'a str,
    subject_and_body: &'a str,
}

impl<'a> Model for MessageWords<'a> {
    ghost use Rattle.mr_command.specs.Message.{Parts};

    ghost Value = { Parts };

    ghost view = { λ w. record { labels = w.labels.now; flags = w.flags.now; date = w.date.now; from = w.from.now; subject_and_body = w.subject_and_body.now } };
}

impl<'a> MessageWords<'a> {
    /// `LABELS FLAGS DATE FROM SUBJECT`, of which SUBJECT may be missing.
    pub(crate) fn take(mut words: Words<'a>) -> Read<MessageWords<'a>>
        ensures { takes_parts words.entry result }
    {
        Ok(MessageWords {
            labels: words.next_word()?,
            flags: words.next_word()?,
            date: words.next_word()?,
            from: words.next_word()?,
            subject_and_body: words.text_or_empty(),
        })
    }

    /// The message. `BadFlags`, `BadDate`, and `MessageRefused` for what makes no message.
    pub(crate) fn read(self, alloc: Global) -> Read<Message>
        ensures { reads_message self.entry result }
    {
        let flags = read_flags(self.flags)?;
        let day = read_day(self.date)?;
        self.make(alloc, flags, day)
    }

    /// The message of these words, with these flags and this day. `MessageRefused`, and `OutOfMemory`
    /// last.
    fn make(self, alloc: Global, flags: Flags, day: Day) -> Read<Message>
        ensures { makes self.entry flags day result }
    {
        let (subject, body) = cut_body(self.subject_and_body);
        let bits = flags.bits();
        if let Some(fault) = parts_fault(self.from, subject, body, self.labels) {
            return Err(LineFault::from(fault));
        }
        let message = Message::try_new(
            alloc,
            String::from_str(alloc, self.from)?,
            String::from_str(alloc, subject)?,
            Vec::from_slice(alloc, body.as_bytes())?,
            read_labels(alloc, self.labels)?,
            bits,
            day,
        )?;
        Ok(message)
    }
}

/// What stands before the first mark and what stands after it; all and nothing where there is none.
fn cut_body(text: &str) -> (&str, &str)
    ensures subject { result.0.now ≡ subject_of text.now }
    ensures body { result.1.now ≡ body_of text.now }
{
    match text.split_once(BODY_MARK) {
        Some((subject, body)) => (subject, body),
        None => (text, ""),
    }
}

/// Why a sender, a subject, a body and a word of labels make no message, whatever its flags. It
/// takes no memory.
fn parts_fault(from: &str, subject: &str, body: &str, labels: &str) -> Option<MessageFault>
    ensures { (flags : ℕ) → flags ≤ 31
        → first_fault from.now subject.now body.now (pieces_of 44 labels.now) flags ≡ result }
{
    if from.len() > MAX_FROM_BYTES {
        return Some(MessageFault::FromTooLong);
    }
    if subject.len() > MAX_SUBJECT_BYTES {
        return Some(MessageFault::SubjectTooLong);
    }
    if body.len() > MAX_BODY_BYTES {
        return Some(MessageFault::BodyTooLong);
    }
    if !are_labels(labels) {
        return Some(MessageFault::BadLabel);
    }
    if are_too_many_labels(labels) {
        return Some(MessageFault::TooManyLabels);
    }
    None
}

/// The day that the word is. `BadDate` where it is none.
fn read_day(word: &str) -> Read<Day>
    ensures { names Spells LineFault.BadDate word.now result }
{
    match Day::read(word) {
        Ok(day) => Ok(day),
        Err(_) => Err(LineFault::BadDate),
    }
}
