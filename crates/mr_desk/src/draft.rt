//! From a draft to its message.
ghost use Rattle.std.specs.Prelude.{◌≡◌, true, false, MatchResult};
ghost use Rattle.std.specs.Str.{is_utf8};
ghost use Rattle.mr_desk.specs.Draft.{draft_fault, IsMessageOf};
ghost use Rattle.mr_desk.specs.Fault.{Reads};
ghost use Rattle.mr_desk.specs.declared.fault.Fault.TheVariants.{NotText};

use crate::call::Draft;
use crate::fault::Fault;
use crate::labels::labels_of;
use mr_mail::{Day, Message};
use std::alloc::Global;

/// The text that these bytes are. `NotText` where they are not UTF-8.
#[tactic(auto, using(mr_wire::proofs::MessageLemmas::no_text, mr_wire::proofs::MessageLemmas::is_text))]
pub(crate) fn text_of(bytes: &[u8]) -> Result<&str, Fault>
    ensures { MatchResult result (λ text. (text.now ≡ bytes.now) × (is_utf8 bytes.now ≡ true)) (λ fault. (fault ≡ NotText) × (is_utf8 bytes.now ≡ false)) }
{
    match str::from_utf8(bytes) {
        Ok(text) => Ok(text),
        Err(_) => Err(Fault::NotText),
    }
}

/// The message of these parts.
///
/// `NotText` where a sender, a subject or labels are not UTF-8; then `Message` with the first fault of the parts; memory
/// may run out before that is known.
pub(crate) fn message_of(alloc: Global, draft: &Draft<'_>) -> Result<Message, Fault>
    ensures { Reads (Unit {0}) (draft_fault draft.now) (IsMessageOf draft.now) result }
{
    let from = text_of(draft.from)?;
    let subject = text_of(draft.subject)?;
    let labels = labels_of(alloc, text_of(draft.labels)?)?;
    let message = Message::try_copying(
        alloc,
        from,
        subject,
        draft.body,
        labels,
        draft.flags,
        Day::new(draft.day),
    )?;
    Ok(message)
}
