//! Messages: texts and the body behind their lengths, labels, flags and the day.
ghost use Rattle.std.specs.Prelude.{◌≡◌, true, false, MatchOption, IfOk, IfSome, IsSomeAnd};
ghost use Rattle.std.specs.Option.{option_copied};
ghost use Rattle.std.specs.Str.{is_utf8};
ghost use Rattle.mr_mail.specs.Label.{IsLabelSet};
ghost use Rattle.mr_wire.specs.Parts.{message_at, text_at, message_body_at};
ghost use Rattle.mr_wire.specs.Reading.{Gives, Finds};
ghost use Rattle.mr_wire.specs.inner.Labels.{message_with};

use crate::input::Input;
use crate::label::{flags, labels};
use mr_mail::{
    Day, Flags, Label, MAX_BODY_BYTES, MAX_FROM_BYTES, MAX_SUBJECT_BYTES, Message, MessageFault,
    Place,
};
use std::alloc::Global;

/// The text of these bytes, if they are UTF-8.
#[tactic(auto, using(crate::proofs::MessageLemmas::no_text, crate::proofs::MessageLemmas::is_text))]
fn text_of(bytes: &[u8]) -> Option<&str>
    ensures { MatchOption result (is_utf8 bytes.now ≡ false) (λ text. (text.now ≡ bytes.now) × (is_utf8 bytes.now ≡ true)) }
{
    match str::from_utf8(bytes) {
        Ok(text) => Some(text),
        Err(_) => None,
    }
}

/// A text of at most so many bytes.
fn text<'a>(input: &mut Input<'a>, most: usize) -> Option<&'a str>
    ensures { Gives (text_at most) input.old (option_copied result) input.new }
{
    let len = usize::from(input.u16()?);
    if len > most {
        return None;
    }
    let bytes = input.bytes(len)?;
    text_of(bytes)
}

/// A message's body.
fn message_body<'a>(input: &mut Input<'a>) -> Option<&'a [u8]>
    ensures { Gives message_body_at input.old (option_copied result) input.new }
{
    let len = input.u32()? as usize;
    if len > MAX_BODY_BYTES {
        return None;
    }
    input.bytes(len)
}

/// The message of these parts. The labels are moved.
fn built(
    alloc: Global,
    from: &str,
    subject: &str,
    body: &[u8],
    labels: Vec<Label>,
    flags: Flags,
    day: Day,
) -> Result<Message, MessageFault>
    requires { IsLabelSet labels.items }
    ensures { IfOk result (λ m. m ≡ message_with from.now subject.now body.now labels.items flags day) }
{
    Message::try_of_place(alloc, from, subject, body, Place::new(labels, flags, day))
}

/// The message of these parts, where its labels are kept.
fn message_of(
    memory: Option<Global>,
    from: &str,
    subject: &str,
    body: &[u8],
    labels: Option<Vec<Label>>,
    flags: Flags,
    day: Day,
) -> Option<Message>
    requires { IfSome labels (λ v. IsLabelSet v.items) }
    ensures { IfSome result (λ m. IsSomeAnd labels (λ v. m ≡ message_with from.now subject.now body.now v.items flags day)) }
{
    let alloc = memory?;
    let labels = labels?;
    built(alloc, from, subject, body, labels, flags, day).ok()
}

/// A message: sender, subject and body behind their lengths, labels, flags and day.
///
/// `None` where none stands at the front. It is kept where there is memory for it.
pub fn message(input: &mut Input<'_>, memory: Option<Global>) -> Option<Option<Message>>
    ensures { Finds (λ m. m) message_at input.old result input.new }
{
    let from = text(input, MAX_FROM_BYTES)?;
    let subject = text(input, MAX_SUBJECT_BYTES)?;
    let body = message_body(input)?;
    let (labels, _) = labels(input, memory)?;
    let flags = flags(input)?;
    let day = input.u16()?;
    let day = Day::new(day);
    Some(message_of(memory, from, subject, body, labels, flags, day))
}
