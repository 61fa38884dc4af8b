//! The body of a message that stands for a mail's file.
ghost use Rattle.std.specs.Prelude.{◌≡◌, ◌<◌, ◌^◌, ◌∷◌, ◌++◌, ℕ, List, IfOk, IfSome, IsTrue, MatchOption, OnOk, [], string_bytes};
ghost use Rattle.std.specs.Str.{IsUtf8};
ghost use Rattle.hex.specs.Hex.{encode_lower};
ghost use Rattle.mr_mail.specs.Label.{text_eq};
ghost use Rattle.mr_maildir.specs.inner.Told.{is_one_line};
ghost use Rattle.mr_maildir.specs.Reference.{ReferenceParts, parts_of, reference_text, digest_line, size_line, IsDigest, IsReference};

use crate::told::{behind, first_line};
use hex::FromHex;
use mr_version::read_decimal;
use std::alloc::{AllocError, Global};

/// What the body of a message tells of a mail's file. The bytes of the mail are nowhere but in the file.
///
/// It is written as lines that each end in a newline: `mail 1`, then `sha256` and the digest in hexadecimal digits,
/// `size` and the number of bytes, and the lines that tell more.
#[derive(Clone, Copy, Debug)]
pub struct MailReference<'a> {
    /// SHA-256 of the file's bytes.
    pub digest: [u8; 32],
    /// How many bytes the file has.
    pub size: u64,
    /// Lines that tell more. One that isn't known is passed over.
    pub lines: &'a str,
}

/// The line that each reference begins with.
const OPENING: &str = "mail 1\n";

/// What the lines of the digest and of the size begin with.
pub(crate) const DIGEST_KEY: &str = "sha256 ";

pub(crate) const SIZE_KEY: &str = "size ";

impl MailReference<'_> {
    /// The reference as a message's body.
    pub fn write(&self, alloc: Global) -> Result<String, AllocError>
        ensures { IfOk result (λ text. string_bytes text ≡ reference_text (parts_of self.now)) }
    {
        let digits = hex::encode(alloc, self.digest)?;
        let size = format!(in alloc; "{}", self.size)?;
        let mut text = String::from_str(alloc, OPENING)?;
        push_line(&mut text, DIGEST_KEY, digits.as_str())?;
        push_line(&mut text, SIZE_KEY, size.as_str())?;
        text.push_str(self.lines)?;
        Ok(text)
    }
}

/// Appends a line of a key and a value.
pub(crate) fn push_line(text: &mut String, key: &str, value: &str) -> Result<(), AllocError>
    ensures { OnOk result (string_bytes text.new ≡ string_bytes text.old ++ (key.now ++ (value.now ++ 10 ∷ []))) }
{
    text.push_str(key)?;
    text.push_str(value)?;
    text.push_str("\n")?;
    Ok(())
}

/// The reference that a message's body is. `None` for any other bytes: the message stands for no mail's file. The
/// digits of the digest are in lower case, and the size has no leading zeros.
pub fn read_reference(body: &[u8]) -> Option<MailReference<'_>>
    ensures written { IfSome result (λ reference. reference_text (parts_of reference) ≡ body.now) }
    ensures is { IfSome result (λ reference. IsReference (parts_of reference) × IsUtf8 body.now) }
    ensures whole { (parts : ReferenceParts) → IsReference parts → IsUtf8 body.now → reference_text parts ≡ body.now
        → MatchOption result ⊥ (λ reference. parts_of reference ≡ parts) }
{
    match str::from_utf8(body) {
        Ok(text) => reference_in(text),
        Err(_) => None,
    }
}

/// The reference that a text is.
fn reference_in(text: &str) -> Option<MailReference<'_>>
    ensures written { IfSome result (λ reference. reference_text (parts_of reference) ≡ text.now) }
    ensures is { IfSome result (λ reference. IsReference (parts_of reference)) }
    ensures whole { (parts : ReferenceParts) → IsReference parts → reference_text parts ≡ text.now
        → MatchOption result ⊥ (λ reference. parts_of reference ≡ parts) }
{
    let opened = behind(text, OPENING)?;
    let (digest, rest) = read_digest_line(opened)?;
    let (size, lines) = read_size_line(rest)?;
    Some(MailReference {
        digest,
        size,
        lines,
    })
}

/// What stands behind the key on the first line, which begins with it, and what follows that line.
fn read_line<'a>(text: &'a str, key: &str) -> Option<(&'a str, &'a str)>
    ensures written { IfSome result (λ p. text.now ≡ key.now ++ (p.0.now ++ 10 ∷ p.1.now)) }
    ensures whole { (value rest : List ℕ) → IsTrue (is_one_line value) → text.now ≡ key.now ++ (value ++ 10 ∷ rest)
        → MatchOption result ⊥ (λ p. (p.0.now ≡ value) × (p.1.now ≡ rest)) }
{
    first_line(behind(text, key)?)
}

/// The digest on the first line, and what follows.
pub(crate) fn read_digest_line(text: &str) -> Option<([u8; 32], &str)>
    ensures is { IfSome result (λ p. IsDigest p.0) }
    ensures written { IfSome result (λ p. text.now ≡ digest_line p.0 p.1.now) }
    ensures whole { (digest rest : List ℕ) → IsDigest digest → text.now ≡ digest_line digest rest
        → MatchOption result ⊥ (λ p. (p.0 ≡ digest) × (p.1.now ≡ rest)) }
{
    let (digits, rest) = read_line(text, DIGEST_KEY)?;
    let digest = read_digest(digits)?;
    Some((digest, rest))
}

/// The size on the first line, and what follows.
pub(crate) fn read_size_line(text: &str) -> Option<(u64, &str)>
    ensures is { IfSome result (λ p. p.0 < 2 ^ 64) }
    ensures written { IfSome result (λ p. text.now ≡ size_line p.0 p.1.now) }
    ensures whole { (size : ℕ) (rest : List ℕ) → size < 2 ^ 64 → text.now ≡ size_line size rest
        → MatchOption result ⊥ (λ p. (p.0 ≡ size) × (p.1.now ≡ rest)) }
{
    let (number, rest) = read_line(text, SIZE_KEY)?;
    let size = read_decimal(number)?;
    Some((size, rest))
}

/// The digest that 64 digits in lower case write.
fn read_digest(digits: &str) -> Option<[u8; 32]>
    ensures is { IfSome result IsDigest }
    ensures written { IfSome result (λ digest. digits.now ≡ encode_lower digest) }
    ensures whole { (digest : List ℕ) → IsDigest digest → digits.now ≡ encode_lower digest → result ≡ Some digest }
{
    let digest = <[u8; 32]>::from_hex(digits).ok()?;
    if is_written(&digest, digits) {
        Some(digest)
    } else {
        None
    }
}

/// Whether these are the digits of the digest, in lower case.
fn is_written(digest: &[u8; 32], digits: &str) -> bool
    ensures { result ≡ text_eq (encode_lower digest.now) digits.now }
{
    let mut written = [0; 64];
    match hex::encode_to_slice(digest.as_slice(), &mut written) {
        Ok(()) => written.as_slice() == digits.as_bytes(),
        Err(_) => false,
    }
}
