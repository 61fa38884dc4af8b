//! Names of files in a Maildir.
ghost use Rattle.std.specs.Prelude.{◌≡◌, ◌≢◌, ◌++◌, ◌∷◌, ℕ, List, IfOk, IfSome, IfNone, IsTrue, string_bytes};
ghost use Rattle.std.specs.List.{list_all};
ghost use Rattle.mr_maildir.specs.Letters.{is_info_byte};
ghost use Rattle.mr_maildir.specs.Name as specs;
ghost use Rattle.mr_maildir.specs.Name.{NameParts, parts_of, name_text, IsName, HasLetters, LacksLetters, lacks_colon};
ghost use Rattle.mr_maildir.specs.Path.{IsPathPart};

use crate::letters::are_info_bytes;
use std::alloc::{AllocError, Global};

/// The most bytes of a name that is taken from others.
const MAX_SAFE_BYTES: usize = 200;

/// The name of a file, as lent parts: what is unique of it, and the letters behind `:2,`, where it has these three.
#[derive(Clone, Copy, Debug)]
pub struct FileName<'a> {
    pub unique: &'a str,
    pub letters: Option<&'a str>,
}

impl FileName<'_> {
    /// The name as a file has it.
    pub fn write(&self, alloc: Global) -> Result<String, AllocError>
        ensures { IfOk result (λ text. string_bytes text ≡ name_text (parts_of self.now)) }
    {
        let mut text = String::from_str(alloc, self.unique)?;
        if let Some(letters) = self.letters {
            text.push_str(":2,")?;
            text.push_str(letters)?;
        }
        Ok(text)
    }
}

/// What stands before the first colon, and what behind it.
fn split_colon(name: &str) -> Option<(&str, &str)>
    ensures written { IfSome result (λ p. name.now ≡ p.0.now ++ 58 ∷ p.1.now) }
    ensures first { IfSome result (λ p. IsTrue (lacks_colon p.0.now)) }
    ensures none { IfNone result ((before behind : List ℕ) → name.now ≢ before ++ 58 ∷ behind) }
{
    name.split_once(':')
}

/// The letters behind `2,`, if each may stand there.
fn letters_in(info: &str) -> Option<&str>
    ensures written { IfSome result (λ letters. info.now ≡ 50 ∷ 44 ∷ letters.now) }
    ensures each { IfSome result (λ letters. IsTrue (list_all is_info_byte letters.now)) }
    ensures none { IfNone result ((letters : List ℕ) → IsTrue (list_all is_info_byte letters) → info.now ≢ 50 ∷ 44 ∷ letters) }
{
    match info.strip_prefix("2,") {
        Some(letters) if are_info_bytes(letters.as_bytes()) => Some(letters),
        _ => None,
    }
}

/// The two parts of a name that ends in letters.
fn split_letters(name: &str) -> Option<(&str, &str)>
    ensures found { IfSome result (λ p. HasLetters p.0.now p.1.now) }
    ensures written { IfSome result (λ p. name.now ≡ p.0.now ++ 58 ∷ 50 ∷ 44 ∷ p.1.now) }
    ensures none { IfNone result (LacksLetters name.now) }
{
    match split_colon(name) {
        Some((unique, info)) => match letters_in(info) {
            Some(letters) => Some((unique, letters)),
            None => None,
        },
        None => None,
    }
}

/// The parts of a name. A name without `:2,` behind its first colon, or with something else behind that than graphic
/// characters of ASCII, is unique as a whole and has no letters.
pub fn read_name(name: &str) -> FileName<'_>
    ensures written { name_text (parts_of result) ≡ name.now }
    ensures is_name { IsName (parts_of result) }
    ensures only { (parts : NameParts) → IsName parts → name_text parts ≡ name.now → parts ≡ parts_of result }
{
    match split_letters(name) {
        Some((unique, letters)) => FileName {
            unique,
            letters: Some(letters),
        },
        None => FileName {
            unique: name,
            letters: None,
        },
    }
}

/// Whether a name may be taken from others: 1 to 200 bytes of `A-Za-z0-9._,=+-`, of which the first is no dot.
#[tactic(auto, using(crate::proofs::NameLemmas::safe_lacks_colon))]
pub fn is_safe_name(text: &str) -> bool
    ensures value { result ≡ specs.is_safe_name text.now }
    ensures path { IsTrue result → IsPathPart text.now }
    ensures colon { IsTrue result → IsTrue (lacks_colon text.now) }
{
    let bytes = text.as_bytes();
    1 <= bytes.len() && bytes.len() <= MAX_SAFE_BYTES && bytes[0] != b'.' && are_safe_bytes(bytes)
}

/// The unique part of the name that a mail's file gets: the one that was told, if it is safe, else the digits of the
/// SHA-256 of the file's bytes.
pub fn unique_for(alloc: Global, told: &str, digest: &[u8; 32]) -> Result<String, AllocError>
    ensures value { IfOk result (λ text. string_bytes text ≡ specs.unique_for told.now digest.now) }
    ensures path { IsPathPart (specs.unique_for told.now digest.now) }
    ensures colon { IsTrue (lacks_colon (specs.unique_for told.now digest.now)) }
{
    if is_safe_name(told) {
        String::from_str(alloc, told)
    } else {
        hex::encode(alloc, digest.as_slice())
    }
}

/// Whether each of the bytes may stand in a name that is taken from others.
fn are_safe_bytes(bytes: &[u8]) -> bool
    ensures { result ≡ list_all specs.is_safe_byte bytes.now }
{
    bytes.iter().all(|byte| is_safe_byte(*byte))
}

/// Whether the byte may stand in a name that is taken from others.
fn is_safe_byte(byte: u8) -> bool
    ensures { result ≡ specs.is_safe_byte byte }
{
    byte.is_ascii_alphanumeric() || matches!(byte, b'.' | b'_' | b',' | b'=' | b'+' | b'-')
}
