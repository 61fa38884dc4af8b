//! What a message is made of.
ghost use Rattle.std.specs.Prelude.{◌≡◌, ◌≤◌, ◌++◌, IfOk, IsUtf8, length};
ghost use Rattle.mr_mail.specs.Mail.{card_of, mail_with};
ghost use Rattle.mr_mail.specs.declared.message.TheConstants.{MAX_FROM_BYTES, MAX_SUBJECT_BYTES, MAX_BODY_BYTES};

use crate::place::Place;
use std::alloc::AllocError;
use std::fmt::{self, Debug, Formatter, Write};
use std::marker::Model;

/// The parts of a message, once for all of its owners.
///
/// Its body, its sender and its subject stand in one piece of memory, in this order, which has no room for more.
#[derive(Drop)]
pub(crate) struct Parts {
    text: Vec<u8>,
    body_end: u32,
    from_end: u32,
    place: Place,
}

impl Model for Parts {
    ghost use Rattle.std.specs.Prelude.{◌≤◌, length, slice_range, IsUtf8};
    ghost use Rattle.mr_mail.specs.Mail.{Mail, mail_code, mail_with, IsMail};

    ghost Value = { Mail };

    ghost coded = { mail_code };

    ghost view = { λ m. mail_with (slice_range m.text.items m.body_end m.from_end) (slice_range m.text.items m.from_end (length m.text.items)) (slice_range m.text.items 0 m.body_end) m.place };

    ghost invariant = { λ m. IsMail (mail_with (slice_range m.text.items m.body_end m.from_end) (slice_range m.text.items m.from_end (length m.text.items)) (slice_range m.text.items 0 m.body_end) m.place)
        × (m.body_end ≤ m.from_end) × (m.from_end ≤ length m.text.items)
        × IsUtf8 (slice_range m.text.items m.body_end m.from_end)
        × IsUtf8 (slice_range m.text.items m.from_end (length m.text.items)) };
}

impl Parts {
    /// The sender.
    pub(crate) fn from(&self) -> &str
        ensures { result.now ≡ self.now.from }
    {
        text_of(&self.text[self.body_end as usize..self.from_end as usize])
    }

    /// The subject.
    pub(crate) fn subject(&self) -> &str
        ensures { result.now ≡ self.now.subject }
    {
        text_of(&self.text[self.from_end as usize..])
    }

    /// The body.
    pub(crate) fn body(&self) -> &[u8]
        ensures { result.now ≡ self.now.body }
    {
        &self.text[..self.body_end as usize]
    }

    /// The labels, the flags and the day.
    pub(crate) fn place(&self) -> &Place
        ensures { result.now ≡ card_of self.now }
    {
        &self.place
    }
}

/// A message prints its sender and its subject as texts.
impl Debug for Parts {
    fn fmt<W: Write>(&self, f: &mut Formatter<W>) -> fmt::Result {
        f.debug_struct("Parts")
            .field("from", &self.from())
            .field("subject", &self.subject())
            .field("body", &self.body())
            .field("place", &self.place)
            .finish()
    }
}

/// The text that the bytes are.
fn text_of(bytes: &[u8]) -> &str
    requires { IsUtf8 bytes.now }
    ensures { result.now ≡ bytes.now }
{
    match str::from_utf8(bytes) {
        Ok(text) => text,
        Err(_) => unreachable!(),
    }
}

/// The parts of these texts and this place.
pub(crate) fn parts_of(
    from: &str,
    subject: &str,
    body: Vec<u8>,
    place: Place,
) -> Result<Parts, AllocError>
    requires from_in { length from.now ≤ MAX_FROM_BYTES }
    requires subject_in { length subject.now ≤ MAX_SUBJECT_BYTES }
    requires body_in { length body.items ≤ MAX_BODY_BYTES }
    ensures { IfOk result (λ parts. parts ≡ mail_with from.now subject.now body.items place) }
{
    let body_end = body.len() as u32;
    let from_end = body_end + from.len() as u32;
    let text = joined(from.as_bytes(), subject.as_bytes(), body)?;
    Ok(Parts {
        text,
        body_end,
        from_end,
        place,
    })
}

/// The sender and the subject behind the body. It takes no more memory than they need.
fn joined(from: &[u8], subject: &[u8], body: Vec<u8>) -> Result<Vec<u8>, AllocError>
    requires from_in { length from.now ≤ MAX_FROM_BYTES }
    requires subject_in { length subject.now ≤ MAX_SUBJECT_BYTES }
    ensures { IfOk result (λ text. text.items ≡ body.items ++ from.now ++ subject.now) }
{
    let mut text = body;
    text.reserve_exact(from.len() + subject.len())?;
    text.extend_from_slice(from)?;
    text.extend_from_slice(subject)?;
    Ok(text)
}
