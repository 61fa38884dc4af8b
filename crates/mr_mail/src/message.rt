//! Messages.
ghost use Rattle.std.specs.Prelude.{◌≡◌, ◌<◌, ◌≤◌, ℕ, List, [], Some, IfOk, IfErr, IfSome, IfNone, IsOkUnless, OnOk, length, string_bytes};
ghost use Rattle.std.specs.Result.{result_err};
ghost use Rattle.mr_mail.specs.Admits.{first_fault};
ghost use Rattle.mr_mail.specs.Label.{texts_of, AreLabelsOf, IsLabelSet};
ghost use Rattle.mr_mail.specs.Mail.{card_of, mail_with, IsMail};
ghost use Rattle.mr_mail.specs.declared.message.TheConstants.{MAX_FROM_BYTES, MAX_SUBJECT_BYTES, MAX_BODY_BYTES};

use crate::card::Card;
use crate::day::Day;
use crate::fault::MessageFault;
use crate::flags::Flags;
use crate::label::{Label, MAX_LABELS, are_texts_of_labels, into_labels, sort_once};
use crate::parts::{Parts, parts_of};
use crate::place::Place;
use std::alloc::{AllocError, Global};
use std::marker::Model;
use std::sync::Arc;

/// A message: sender, subject, body, labels, flags and day.
///
/// A message never changes, so its copies and its cards share its parts: `copy` and `card` make one more owner, and the
/// memory is given back with the last of them. The sender, the subject and the body take one piece of
/// memory together, of as many bytes as they have, and the labels another.
#[derive(Debug, Drop)]
pub struct Message {
    parts: Arc<Parts, Global>,
}

impl Model for Message {
    ghost use Rattle.std.specs.Arc.{arc_value};
    ghost use Rattle.mr_mail.specs.Mail.{Mail, mail_code, IsMail};

    ghost Value = { Mail };

    ghost coded = { mail_code };

    ghost view = { λ m. arc_value m.parts };

    ghost invariant = { λ m. IsMail (arc_value m.parts) };
}

/// The most bytes of a sender.
pub const MAX_FROM_BYTES: usize = 254;

/// The most bytes of a subject.
pub const MAX_SUBJECT_BYTES: usize = 998;

/// The most bytes of a body.
pub const MAX_BODY_BYTES: usize = 65_536;

impl Message {
    /// The message of these parts. The labels may come in any order and more than once; the message
    /// has each of them once, in rising order of their bytes. The body is moved, and grows by the sender and
    /// the subject, so that it is copied once unless it has room for them; the labels are copied
    /// into one piece of memory, and their texts given back.
    ///
    /// The faults are tried in this order: `FromTooLong` over 254 bytes, `SubjectTooLong` over 998,
    /// `BodyTooLong` over 65,536, `BadLabel` if a label is not one to 32 bytes of a-z, 0-9 and `-`,
    /// `TooManyLabels` over 16 different ones, `BadFlags` for a flag byte over 31, and
    /// `OutOfMemory` last.
    pub fn try_new(
        alloc: Global,
        from: String,
        subject: String,
        body: Vec<u8>,
        mut labels: Vec<String>,
        flags: u8,
        day: Day,
    ) -> Result<Message, MessageFault>
        ensures refused { IfSome (first_fault (string_bytes from) (string_bytes subject) body.items
            (texts_of labels.items) flags)
            (λ fault. result ≡ Err fault) }
        ensures admitted { IfNone (first_fault (string_bytes from) (string_bytes subject) body.items
            (texts_of labels.items) flags)
            (IsOkUnless result MessageFault.OutOfMemory) }

        ensures from { IfOk result (λ message. message.from ≡ string_bytes from) }
        ensures subject { IfOk result (λ message. message.subject ≡ string_bytes subject) }
        ensures body { IfOk result (λ message. message.body ≡ body.items) }
        ensures labels { IfOk result (λ message. AreLabelsOf (texts_of labels.items) message.labels) }
        ensures flags { IfOk result (λ message. message.flags ≡ flags) }
        ensures day { IfOk result (λ message. message.day ≡ day) }
        ensures kept { IfOk result IsMail }
    {
        let flags = admitted_flags(
            from.as_str(),
            subject.as_str(),
            body.as_slice(),
            &mut labels,
            flags,
        )?;
        message_of(
            alloc,
            from.as_str(),
            subject.as_str(),
            body,
            labels,
            flags,
            day,
        )
    }

    /// The message of these parts, which are lent but for the labels: as [`Message::try_new`], with the same faults
    /// in the same order. The sender, the subject and the body are copied once, into one piece of memory.
    pub fn try_copying(
        alloc: Global,
        from: &str,
        subject: &str,
        body: &[u8],
        mut labels: Vec<String>,
        flags: u8,
        day: Day,
    ) -> Result<Message, MessageFault>
        ensures refused { IfSome (first_fault from.now subject.now body.now (texts_of labels.items) flags)
            (λ fault. result ≡ Err fault) }
        ensures admitted { IfNone (first_fault from.now subject.now body.now (texts_of labels.items) flags)
            (IsOkUnless result MessageFault.OutOfMemory) }

        ensures from { IfOk result (λ message. message.from ≡ from.now) }
        ensures subject { IfOk result (λ message. message.subject ≡ subject.now) }
        ensures body { IfOk result (λ message. message.body ≡ body.now) }
        ensures labels { IfOk result (λ message. AreLabelsOf (texts_of labels.items) message.labels) }
        ensures flags { IfOk result (λ message. message.flags ≡ flags) }
        ensures day { IfOk result (λ message. message.day ≡ day) }
        ensures kept { IfOk result IsMail }
    {
        let flags = admitted_flags(from, subject, body, &mut labels, flags)?;
        let room = body_with_room(alloc, from, subject, body)?;
        message_of(alloc, from, subject, room, labels, flags, day)
    }

    /// The message of these texts and this place. The place is moved, and the texts are copied once, into one piece of
    /// memory.
    ///
    /// The faults are tried in this order: `FromTooLong` over 254 bytes, `SubjectTooLong` over 998,
    /// `BodyTooLong` over 65,536, and `OutOfMemory` last.
    pub fn try_of_place(
        alloc: Global,
        from: &str,
        subject: &str,
        body: &[u8],
        place: Place,
    ) -> Result<Message, MessageFault>
        ensures refused { IfSome (first_fault from.now subject.now body.now [] 0) (λ fault. result ≡ Err fault) }
        ensures admitted { IfNone (first_fault from.now subject.now body.now [] 0) (IsOkUnless result MessageFault.OutOfMemory) }
        ensures value { IfOk result (λ message. message ≡ mail_with from.now subject.now body.now place) }
        ensures kept { IfOk result IsMail }
    {
        check_lengths(from, subject, body)?;
        let room = body_with_room(alloc, from, subject, body)?;
        Ok(packed(alloc, from, subject, room, place)?)
    }

    /// Who sent it, at most 254 bytes.
    pub fn from(&self) -> &str
        ensures value { result.now ≡ self.now.from }
        ensures kept { length self.now.from ≤ MAX_FROM_BYTES }
    {
        self.parts.from()
    }

    /// The subject, at most 998 bytes.
    pub fn subject(&self) -> &str
        ensures value { result.now ≡ self.now.subject }
        ensures kept { length self.now.subject ≤ MAX_SUBJECT_BYTES }
    {
        self.parts.subject()
    }

    /// The body, at most 65,536 bytes.
    pub fn body(&self) -> &[u8]
        ensures value { result.now ≡ self.now.body }
        ensures kept { length self.now.body ≤ MAX_BODY_BYTES }
    {
        self.parts.body()
    }

    /// The labels, in rising order of their bytes, each once, and at most 16.
    pub fn labels(&self) -> &[Label]
        ensures value { result.now ≡ self.now.labels }
        ensures kept { IsMail self.now }
    {
        self.parts.place().labels()
    }

    /// The flags.
    pub fn flags(&self) -> Flags
        ensures value { result ≡ self.now.flags }
        ensures kept { self.now.flags ≤ 31 }
    {
        self.parts.place().flags()
    }

    /// The day.
    pub fn day(&self) -> Day
        ensures value { result ≡ self.now.day }
        ensures kept { self.now.day < 65536 }
    {
        self.parts.place().day()
    }

    /// The labels, the flags and the day together, lent.
    pub fn place(&self) -> &Place
        ensures { result.now ≡ card_of self.now }
    {
        self.parts.place()
    }

    /// The message's card, which shares the message's parts. It asks for no memory.
    pub fn card(&self) -> Result<Card, AllocError>
        ensures { IfOk result (λ card. card ≡ card_of self.now) }
    {
        Ok(Card::of(Arc::try_clone(&self.parts)?))
    }

    /// An equal message, which shares the parts: it costs the same for every message, and asks for no memory.
    pub fn copy(&self) -> Result<Message, AllocError>
        ensures { IfOk result (λ message. message ≡ self.now) }
    {
        Ok(Message {
            parts: Arc::try_clone(&self.parts)?,
        })
    }
}

/// Whether a sender, a subject and a body are of a message's lengths, or the first fault of them.
fn check_lengths(from: &str, subject: &str, body: &[u8]) -> Result<(), MessageFault>
    ensures fault { first_fault from.now subject.now body.now [] 0 ≡ result_err result }
    ensures whole { (labels : List (List ℕ)) (flags : ℕ) → IfErr result (λ fault. first_fault from.now subject.now body.now labels flags ≡ Some fault) }
    ensures from_in { OnOk result (length from.now ≤ MAX_FROM_BYTES) }
    ensures subject_in { OnOk result (length subject.now ≤ MAX_SUBJECT_BYTES) }
    ensures body_in { OnOk result (length body.now ≤ MAX_BODY_BYTES) }
{
    if from.len() > MAX_FROM_BYTES {
        return Err(MessageFault::FromTooLong);
    }
    if subject.len() > MAX_SUBJECT_BYTES {
        return Err(MessageFault::SubjectTooLong);
    }
    if body.len() > MAX_BODY_BYTES {
        return Err(MessageFault::BodyTooLong);
    }
    Ok(())
}

/// The flags of a message of these parts, or the first fault of the parts. Where there is none, the
/// labels are left sorted, without repeats.
fn admitted_flags(
    from: &str,
    subject: &str,
    body: &[u8],
    labels: &mut Vec<String>,
    flags: u8,
) -> Result<Flags, MessageFault>
    ensures fault { first_fault from.now subject.now body.now (texts_of labels.old.items) flags ≡ result_err result }
    ensures flags { IfOk result (λ admitted. admitted ≡ flags) }

    ensures from_in { OnOk result (length from.now ≤ MAX_FROM_BYTES) }
    ensures subject_in { OnOk result (length subject.now ≤ MAX_SUBJECT_BYTES) }
    ensures body_in { OnOk result (length body.now ≤ MAX_BODY_BYTES) }
    ensures labels { OnOk result (AreLabelsOf (texts_of labels.old.items) (texts_of labels.new.items)) }
    ensures labels_in { OnOk result (IsLabelSet (texts_of labels.new.items)) }
{
    check_lengths(from, subject, body)?;
    if !are_texts_of_labels(labels.as_slice()) {
        return Err(MessageFault::BadLabel);
    }
    sort_once(labels);
    if labels.len() > MAX_LABELS {
        return Err(MessageFault::TooManyLabels);
    }
    let Some(admitted) = Flags::from_bits(flags) else {
        return Err(MessageFault::BadFlags);
    };
    Ok(admitted)
}

/// The message of parts that make one. The body is moved.
fn message_of(
    alloc: Global,
    from: &str,
    subject: &str,
    body: Vec<u8>,
    labels: Vec<String>,
    flags: Flags,
    day: Day,
) -> Result<Message, MessageFault>
    requires from_in { length from.now ≤ MAX_FROM_BYTES }
    requires subject_in { length subject.now ≤ MAX_SUBJECT_BYTES }
    requires body_in { length body.items ≤ MAX_BODY_BYTES }
    requires labels_in { IsLabelSet (texts_of labels.items) }

    ensures value { IfOk result (λ message. message ≡ mail_with from.now subject.now body.items
        (record { labels = texts_of labels.items; flags = flags; day = day })) }
    ensures kept { IfOk result IsMail }
    ensures fault { IfErr result (λ fault. fault ≡ MessageFault.OutOfMemory) }
{
    let labels = into_labels(alloc, labels)?;
    let place = Place::new(labels, flags, day);
    Ok(packed(alloc, from, subject, body, place)?)
}

/// A copy of the body, with room behind it for the sender and the subject and for nothing else.
fn body_with_room(
    alloc: Global,
    from: &str,
    subject: &str,
    body: &[u8],
) -> Result<Vec<u8>, AllocError>
    requires from_in { length from.now ≤ MAX_FROM_BYTES }
    requires subject_in { length subject.now ≤ MAX_SUBJECT_BYTES }
    requires body_in { length body.now ≤ MAX_BODY_BYTES }
    ensures { IfOk result (λ room. room.items ≡ body.now) }
{
    let mut room = Vec::with_capacity(alloc, body.len() + from.len() + subject.len())?;
    room.extend_from_slice(body)?;
    Ok(room)
}

/// The message whose texts stand behind one another.
fn packed(
    alloc: Global,
    from: &str,
    subject: &str,
    body: Vec<u8>,
    place: Place,
) -> Result<Message, AllocError>
    requires from_in { length from.now ≤ MAX_FROM_BYTES }
    requires subject_in { length subject.now ≤ MAX_SUBJECT_BYTES }
    requires body_in { length body.items ≤ MAX_BODY_BYTES }
    ensures { IfOk result (λ message. message ≡ mail_with from.now subject.now body.items place) }
{
    let parts = parts_of(from, subject, body, place)?;
    Ok(Message {
        parts: Arc::new(alloc, parts)?,
    })
}
