//! Paths inside a folder of mail.
ghost use Rattle.std.specs.Prelude.{◌≡◌, ◌≢◌, ◌↔◌, IsSome, IfOk, IfSome, string_bytes};
ghost use Rattle.std.specs.List.{list_all};
ghost use Rattle.std.specs.Str.{bytes_eq};
ghost use Rattle.mr_folder.specs.Inside.{is_part_byte, IsPart, IsInside, IsFolder, draft_path, stored_path, first_part, own_folder, part_name, mail_path};
ghost use Rattle.mr_folder.specs.inner.Parts.{is_part_text, is_folder_text, parts_of};

use std::alloc::{AllocError, Global};
use std::marker::Model;

/// The folder of the program's own files.
const OWN_FOLDER: &str = ".mailfold";

/// A part of a folder that has mail. The names are those of Maildir, <https://cr.yp.to/proto/maildir.html>.
#[derive(Clone, Copy, Debug, PartialEq, Eq)]
pub enum Part {
    /// Mail that a program has looked at.
    Cur,
    /// Mail that none has looked at.
    New,
}

impl Part {
    /// The name of its folder.
    pub fn name(self) -> &'static str
        ensures { result.now ≡ part_name self }
    {
        match self {
            Part::Cur => "cur",
            Part::New => "new",
        }
    }
}

/// The path of a folder of the Maildir. An empty one is the Maildir itself. No other leads to a place outside, and none to the
/// program's own files.
#[derive(Debug, Drop)]
pub struct FolderPath {
    text: String,
}

impl Model for FolderPath {
    ghost use Rattle.std.specs.Prelude.{ℕ, List, string_bytes};
    ghost use Rattle.mr_folder.specs.Inside.{IsFolder};

    ghost Value = { List ℕ };

    ghost view = { λ p. string_bytes p.text };

    ghost invariant = { λ p. IsFolder (string_bytes p.text) };
}

impl FolderPath {
    /// Reads a path, of parts with `/` between them. `None` where it leads outside or to the program's own files: where
    /// a part is empty, `.`, `..` or has a NUL, or the first is `.mailfold`.
    pub fn read(alloc: Global, path: &str) -> Result<Option<FolderPath>, AllocError>
        ensures value { IfOk result (λ folder. IfSome folder (λ f. f ≡ path.now)) }
        ensures is { IfOk result (λ folder. IsSome folder ↔ IsFolder path.now) }
    {
        if !is_folder(path) {
            return Ok(None);
        }
        let text = String::from_str(alloc, path)?;
        Ok(Some(FolderPath { text }))
    }

    /// The path's text, from the Maildir on.
    pub fn as_str(&self) -> &str
        ensures value { result.now ≡ self.now }
        ensures folder { IsFolder self.now }
    {
        self.text.as_str()
    }
}

/// The path of a file inside the folder: whatever it was made of, it leads to no place outside.
#[derive(Debug, Drop)]
pub struct FilePath {
    text: String,
}

impl Model for FilePath {
    ghost use Rattle.std.specs.Prelude.{ℕ, List, string_bytes};
    ghost use Rattle.mr_folder.specs.Inside.{IsInside};

    ghost Value = { List ℕ };

    ghost view = { λ p. string_bytes p.text };

    ghost invariant = { λ p. IsInside (string_bytes p.text) };
}

impl FilePath {
    /// Where a mail is while it comes in.
    pub fn draft(alloc: Global) -> Result<FilePath, AllocError>
        ensures { IfOk result (λ path. path ≡ draft_path) }
    {
        let text = String::from_str(alloc, ".mailfold/tmp/draft")?;
        Ok(FilePath { text })
    }

    /// Where the mail with this SHA-256 is kept.
    pub fn stored(alloc: Global, digest: &[u8; 32]) -> Result<FilePath, AllocError>
        ensures { IfOk result (λ path. path ≡ stored_path digest.now) }
    {
        let digits = hex::encode(alloc, digest.as_slice())?;
        let mut text = String::from_str(alloc, ".mailfold/files/")?;
        text.push_str(digits.as_str())?;
        Ok(FilePath { text })
    }

    /// Where the mail of this name stands in a folder of the Maildir. It is none of the program's own files.
    ///
    /// `None` exactly where the name isn't that of a file in a folder: where it is empty, `.` or `..`, or has `/` or NUL.
    pub fn mail(
        alloc: Global,
        folder: &FolderPath,
        part: Part,
        name: &str,
    ) -> Result<Option<FilePath>, AllocError>
        ensures value { IfOk result (λ path. IfSome path (λ p. p ≡ mail_path folder.now part name.now)) }
        ensures is { IfOk result (λ path. IsSome path ↔ IsPart name.now) }
        ensures not_own { IfOk result (λ path. IfSome path (λ p. first_part p ≢ own_folder)) }
    {
        if !is_part(name) {
            return Ok(None);
        }
        let text = mail_text(alloc, folder.as_str(), part, name)?;
        Ok(Some(FilePath { text }))
    }

    /// The path's text, from the folder on.
    pub fn as_str(&self) -> &str
        ensures value { result.now ≡ self.now }
        ensures inside { IsInside self.now }
    {
        self.text.as_str()
    }
}

/// The path of a mail in a folder, as text.
fn mail_text(alloc: Global, folder: &str, part: Part, name: &str) -> Result<String, AllocError>
    ensures { IfOk result (λ text. string_bytes text ≡ mail_path folder.now part name.now) }
{
    let mut text = String::from_str(alloc, folder)?;
    if !folder.is_empty() {
        text.push_str("/")?;
    }
    text.push_str(part.name())?;
    text.push_str("/")?;
    text.push_str(name)?;
    Ok(text)
}

/// Whether a path is that of a folder of the Maildir.
fn is_folder(path: &str) -> bool
    ensures { result ≡ is_folder_text path.now }
{
    path.is_empty() || (is_inside(path) && !is_own(path))
}

/// Whether a path leads to a place inside.
fn is_inside(path: &str) -> bool
    ensures { result ≡ list_all is_part_text (parts_of path.now) }
{
    path.split('/').all(|part| is_part(part))
}

/// Whether the first part of a path is the folder of the program's own files.
fn is_own(path: &str) -> bool
    ensures { result ≡ bytes_eq (first_part path.now) own_folder }
{
    first_of(path) == OWN_FOLDER
}

/// The first part of a path.
fn first_of(path: &str) -> &str
    ensures { result.now ≡ first_part path.now }
{
    match path.split_once('/') {
        Some((first, _)) => first,
        None => path,
    }
}

/// Whether a text names something in a folder, and neither the folder nor the one above.
fn is_part(text: &str) -> bool
    ensures { result ≡ is_part_text text.now }
{
    text != "" && (text != "." && (text != ".." && has_part_bytes(text.as_bytes())))
}

/// Whether no byte is `/` or NUL.
fn has_part_bytes(bytes: &[u8]) -> bool
    ensures { result ≡ list_all is_part_byte bytes.now }
{
    bytes.iter().all(|byte| *byte != b'/' && *byte != 0)
}
