//! Files that records name, but for those of mail that is gone.
ghost use Rattle.std.specs.Prelude.{◌≡◌, ℕ, List, IfSome, Some, None, true, false, option_map};
ghost use Rattle.std.specs.Str.{IsUtf8};
ghost use Rattle.mr_maildir.specs.Reference.{IsReference, ReferenceParts, reference_text};
ghost use Rattle.mr_sync.specs.Named.{BodyNeeds, FrameNeeds, NeedsFile, needs_file};
ghost use Rattle.mr_sync.specs.inner.Named.{IsFileOf};

use mr_compare::Digest;
use mr_mail::{Flag, Message};
use mr_maildir::read_reference;
use mr_replica::Revision;
use mr_version::ItemId;
use mr_wire::{Body, Frame, Record};

/// A file that a record names and needs, with the record's item.
#[derive(Clone, Copy, Debug)]
pub(crate) struct NamedFile {
    pub(crate) item: ItemId,
    pub(crate) digest: Digest,
}

/// The digest of the file that a message's body refers to.
pub(crate) fn file_of(body: &[u8]) -> Option<Digest>
    ensures refers { IfSome result (IsFileOf body.now) }
    ensures whole { (parts : ReferenceParts) → IsReference parts → IsUtf8 body.now → reference_text parts ≡ body.now → result ≡ Some parts.digest }
{
    match read_reference(body) {
        Some(reference) => {
            let digest = reference.digest;
            Some(digest)
        }
        None => None,
    }
}

/// Whether the mail needs its file by this message: unless it is gone, as it stands in no folder and counts as deleted.
pub(crate) fn needs_file(message: &Message) -> bool
    ensures { result ≡ needs_file message.now }
{
    !(message.labels().is_empty() && message.flags().contains(Flag::Deleted))
}

/// The digest of the file that a message refers to, if the mail needs it.
pub(crate) fn needed_file(message: &Message) -> Option<Digest>
    ensures gone { needs_file message.now ≡ false → result ≡ None }
    ensures refers { IfSome result (IsFileOf message.now.body) }
    ensures whole { needs_file message.now ≡ true → (parts : ReferenceParts) → IsReference parts → IsUtf8 message.now.body
        → reference_text parts ≡ message.now.body → result ≡ Some parts.digest }
    ensures needs { (digest : List ℕ) → NeedsFile message.now digest → result ≡ Some digest }
{
    if !needs_file(message) {
        return None;
    }
    file_of(message.body())
}

/// The revision that a record tells.
pub(crate) fn revision_in(sent: &Record) -> Option<&Revision> {
    match sent.body() {
        Body::Item(revision) => Some(revision),
        _ => None,
    }
}

/// The file that a record's revision refers to, if the mail needs it.
pub(crate) fn file_in(sent: &Record) -> Option<NamedFile>
    ensures { (digest : List ℕ) → BodyNeeds sent.now.body digest → option_map (λ f. f.digest) result ≡ Some digest }
{
    match sent.body() {
        Body::Item(revision) => file_named(revision),
        Body::Start(_) => None,
        Body::MoveOut(_) => None,
        Body::Held(_) => None,
        Body::Know(_) => None,
        Body::End => None,
    }
}

/// The file that a revision refers to, if the mail needs it.
fn file_named(revision: &Revision) -> Option<NamedFile>
    ensures { (digest : List ℕ) → NeedsFile revision.now.message digest → option_map (λ f. f.digest) result ≡ Some digest }
{
    let digest = needed_file(revision.message())?;
    Some(NamedFile {
        item: revision.item(),
        digest,
    })
}

/// The file that the record in a frame refers to, if the mail needs it.
pub(crate) fn file_in_frame(frame: &Frame) -> Option<NamedFile>
    ensures { (digest : List ℕ) → FrameNeeds frame.now digest → option_map (λ f. f.digest) result ≡ Some digest }
{
    match frame {
        Frame::Record(sent) => file_in(sent),
        Frame::Ask(_) => None,
        Frame::Receipt(_) => None,
    }
}
