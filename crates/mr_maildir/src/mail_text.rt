//! The body of a message that stands for a mail: `mail 2`.
ghost use Rattle.std.specs.Prelude.{◌≡◌, ◌<◌, ◌^◌, ◌∷◌, ◌++◌, ℕ, List, IfOk, IfSome, IsTrue, MatchOption, OnOk, [], codes, length, string_bytes};
ghost use Rattle.std.specs.Str.{IsUtf8};
ghost use Rattle.std.specs.List.{flat_map};
ghost use Rattle.mr_mail.specs.Label.{text_eq};
ghost use Rattle.mr_maildir.specs.Counts.{ended, is_item};
ghost use Rattle.mr_maildir.specs.Lines.{LinesParts, AreLines, lines_of, told_lines};
ghost use Rattle.mr_maildir.specs.Reference.{ReferenceParts, IsReference, parts_of, digest_line, size_line};
ghost use Rattle.mr_maildir.specs.MailText.{TextParts, IsText, text_of, mail_text};

use crate::lines::{MailLines, lines_in, push_lines, read_lines};
use crate::reference::{
    DIGEST_KEY, MailReference, SIZE_KEY, push_line, read_digest_line, read_size_line,
};
use crate::told::behind;
use mr_mail::MAX_BODY_BYTES;
use mr_version::ItemId;
use std::alloc::{AllocError, Global};

/// What the body of a message tells of a mail.
///
/// It is written as lines that each end in a newline: `mail 2`, then `sha256` and the digest in hexadecimal digits, `size` and the number
/// of bytes, and then, each of them only where there is something to tell: `name` and the name of the file; `folder`, a label and the
/// folder's name, for labels that are digests; `counts` and what was toggled by the own item's delivery, as pairs of an element and how
/// often, with `/` and how often as the mail was deleted behind it; `counts of`, an item and the same of its delivery; and lines
/// that aren't known. Each value has this one spelling.
#[derive(Debug, Drop)]
pub struct MailText {
    /// SHA-256 of the file's bytes.
    pub digest: [u8; 32],
    /// How many bytes the file has.
    pub size: u64,
    /// What the lines behind tell.
    pub told: MailLines,
}

/// The most bytes of a body that an edit of a user may have: 16 KiB. So joins of edits have room below what a message can have.
pub const MAX_EDITED_BYTES: usize = 16_384;

/// The most bytes of a body that a join may have: those that a message can have.
pub const MAX_JOINED_BYTES: usize = MAX_BODY_BYTES;

/// The line that each such body begins with.
const OPENING: &str = "mail 2\n";

impl MailText {
    /// The body, in a record of this item.
    pub fn write(&self, alloc: Global, own: ItemId) -> Result<String, AllocError>
        ensures { IfOk result (λ text. string_bytes text ≡ mail_text own (text_of self.now)) }
    {
        let digits = hex::encode(alloc, self.digest)?;
        let size = format!(in alloc; "{}", self.size)?;
        let mut text = String::from_str(alloc, OPENING)?;
        push_line(&mut text, DIGEST_KEY, digits.as_str())?;
        push_line(&mut text, SIZE_KEY, size.as_str())?;
        push_lines(alloc, &mut text, own, &self.told)?;
        Ok(text)
    }

    /// How many bytes the body has, in a record of this item. It is written to count them.
    pub fn written_bytes(&self, alloc: Global, own: ItemId) -> Result<usize, AllocError>
        ensures { IfOk result (λ bytes. bytes ≡ length (mail_text own (text_of self.now))) }
    {
        let text = self.write(alloc, own)?;
        Ok(text.len())
    }

    /// What a body tells, in a record of this item. `None` for any other bytes, and where it isn't written as `write` writes
    /// what it tells; it stands for no mail then. It is written once more to see that, so this takes the memory of two bodies.
    pub fn read(alloc: Global, own: ItemId, body: &[u8]) -> Result<Option<MailText>, AllocError>
        ensures written { IfOk result (λ found. IfSome found (λ text. mail_text own (text_of text) ≡ body.now)) }
        ensures is { IfOk result (λ found. IfSome found (λ text. IsText (text_of text))) }
        ensures whole { (parts : TextParts) → IsText parts → IsUtf8 body.now → mail_text own parts ≡ body.now
            → IfOk result (λ found. MatchOption found ⊥ (λ text. text_of text ≡ parts)) }
    {
        // an item is within its bounds
        let _counter = own.creator().counter();
        let Ok(text) = str::from_utf8(body) else {
            return Ok(None);
        };
        let Some(found) = read_parts(alloc, own, text)? else {
            return Ok(None);
        };
        if is_written(alloc, own, &found, text)? {
            Ok(Some(found))
        } else {
            Ok(None)
        }
    }
}

/// Whether the text is how the body is written.
fn is_written(alloc: Global, own: ItemId, found: &MailText, text: &str) -> Result<bool, AllocError>
    ensures { IfOk result (λ is. is ≡ text_eq (mail_text own (text_of found.now)) text.now) }
{
    let written = found.write(alloc, own)?;
    Ok(written.as_str() == text)
}

/// What a text tells, if its lines are in a body.
fn read_parts(alloc: Global, own: ItemId, text: &str) -> Result<Option<MailText>, AllocError>
    requires { IsTrue (is_item own) }
    ensures is { IfOk result (λ found. IfSome found (λ read. IsText (text_of read))) }
    ensures whole { (parts : TextParts) → IsText parts → text.now ≡ mail_text own parts
        → IfOk result (λ found. MatchOption found ⊥ (λ read. text_of read ≡ parts)) }
{
    let Some(head) = read_head(text) else {
        return Ok(None);
    };
    let Some(told) = read_told(alloc, own, head.lines)? else {
        return Ok(None);
    };
    let digest = head.digest;
    let size = head.size;
    Ok(Some(MailText { digest, size, told }))
}

/// The digest and the size that a text begins with, and the lines behind them.
fn read_head(text: &str) -> Option<MailReference<'_>>
    ensures is { IfSome result (λ head. IsReference (parts_of head)) }
    ensures whole { (parts : ReferenceParts) → IsReference parts → text.now ≡ codes "mail 2" ++ 10 ∷ digest_line parts.digest (size_line parts.size parts.lines)
        → MatchOption result ⊥ (λ head. parts_of head ≡ parts) }
{
    let opened = behind(text, OPENING)?;
    let (digest, rest) = read_digest_line(opened)?;
    let (size, lines) = read_size_line(rest)?;
    Some(MailReference {
        digest,
        size,
        lines,
    })
}

/// What the lines of a text tell.
fn read_told(alloc: Global, own: ItemId, text: &str) -> Result<Option<MailLines>, AllocError>
    requires { IsTrue (is_item own) }
    ensures is { IfOk result (λ found. IfSome found (λ told. AreLines (lines_of told))) }
    ensures whole { (told : LinesParts) → AreLines told → text.now ≡ flat_map ended (told_lines own told)
        → IfOk result (λ found. MatchOption found ⊥ (λ read. lines_of read ≡ told)) }
{
    let lines = lines_in(alloc, text)?;
    match lines.split_last() {
        Some((_, lines)) => read_lines(alloc, own, lines),
        None => Ok(None),
    }
}
