//! Folders of a Maildir, and their labels.
ghost use Rattle.std.specs.Prelude.{◌≡◌, ◌++◌, IfOk, IsTrue, string_bytes, codes, take, false};
ghost use Rattle.std.specs.List.{list_all};
ghost use Rattle.std.specs.Option.{option_copied};
ghost use Rattle.hex.specs.Hex.{encode_lower};
ghost use Rattle.mr_mail.specs.Label.{is_label, text_eq};
ghost use Rattle.mr_maildir.specs.Folder as specs;
ghost use Rattle.mr_maildir.specs.Folder.{label_of, is_kept_name};
ghost use Rattle.mr_maildir.specs.Path.{IsPathPart};
ghost use Rattle.mr_maildir.specs.Path as path;

use mr_mail::Label;
use sha2::{Digest, Sha256};
use std::alloc::{AllocError, Global};

/// The label of the Maildir itself.
pub const INBOX: &str = "inbox";

/// The name of the folder that a program keeps for itself in the Maildir, behind its dot.
pub const OWN_FOLDER: &str = "mailfold";

/// The most bytes of a folder's name that is taken from others.
const MAX_SAFE_BYTES: usize = 200;

/// The label of the Maildir itself.
pub fn inbox() -> Label
    ensures { result ≡ codes "inbox" }
{
    label_from(INBOX)
}

/// The label of a subfolder of this name, which a Maildir++ keeps in `.NAME`: the name itself where it is a label, but
/// none of `inbox`, `mailfold`, `cur`, `new` and `tmp`; else `f-` and the first 30 hexadecimal digits of the SHA-256 of the name. Maildir++ is
/// described at <https://www.courier-mta.org/imap/README.maildirquota.html>. Only for digits memory is asked for.
pub fn folder_label(alloc: Global, name: &str) -> Result<Label, AllocError>
    ensures { IfOk result (λ label. label ≡ label_of name.now) }
{
    if is_plain(name) {
        return Ok(label_from(name));
    }
    let text = digest_text(alloc, &Sha256::digest(name.as_bytes()))?;
    Ok(label_from(text.as_str()))
}

/// Whether a folder's name may be taken from others: 1 to 200 bytes, none of them `/` or a control character, of which
/// the first is no dot; and not `mailfold`.
pub fn is_safe_folder(text: &str) -> bool
    ensures value { result ≡ specs.is_safe_folder text.now }
    ensures path { IsTrue result → IsPathPart text.now }
{
    let bytes = text.as_bytes();
    1 <= bytes.len()
        && bytes.len() <= MAX_SAFE_BYTES
        && bytes[0] != b'.'
        && are_path_bytes(bytes)
        && text != OWN_FOLDER
}

/// The name of the label's subfolder, behind its dot: the one that was told, where it is safe and a folder of that name has
/// this label; else the label itself, but for `inbox`, `mailfold`, `cur`, `new` and `tmp` the label that folders of these
/// names have.
///
/// Whatever was told, the name makes a path inside the Maildir, and never the program's own. Read back, it is the
/// label's again, but for those five.
pub fn folder_name(alloc: Global, label: &Label, told: Option<&str>) -> Result<String, AllocError>
    ensures value { IfOk result (λ name. string_bytes name ≡ specs.folder_name label.now (option_copied told.entry)) }
    ensures path { IfOk result (λ name. IsPathPart (string_bytes name)) }
    ensures not_own { IfOk result (λ name. text_eq (string_bytes name) (codes "mailfold") ≡ false) }
    ensures read_back { is_kept_name label.now ≡ false → label_of (specs.folder_name label.now (option_copied told.entry)) ≡ label.now }
{
    // a label is within its bounds
    let _text = label.as_str();
    match told {
        Some(told) if is_name_for(alloc, label, told)? => String::from_str(alloc, told),
        _ => own_name(alloc, label),
    }
}

/// Whether the name may be that of the label's folder.
fn is_name_for(alloc: Global, label: &Label, name: &str) -> Result<bool, AllocError>
    ensures { IfOk result (λ is. is ≡ specs.is_name_for label.now name.now) }
{
    if is_safe_folder(name) {
        Ok(folder_label(alloc, name)? == *label)
    } else {
        Ok(false)
    }
}

/// The name of the label's folder where none was told.
fn own_name(alloc: Global, label: &Label) -> Result<String, AllocError>
    ensures value { IfOk result (λ name. string_bytes name ≡ label_of label.now) }
    ensures path { IfOk result (λ name. IsPathPart (string_bytes name)) }
    ensures not_own { IfOk result (λ name. text_eq (string_bytes name) (codes "mailfold") ≡ false) }
{
    let named = folder_label(alloc, label.as_str())?;
    String::from_str(alloc, named.as_str())
}

/// Whether the name is kept: it is the label of the Maildir itself, or names the program's own folder or a folder's part.
fn is_kept(name: &str) -> bool
    ensures { result ≡ is_kept_name name.now }
{
    name == INBOX || name == OWN_FOLDER || is_part_name(name)
}

/// Whether it is the name of one of the three parts that each folder has.
pub(crate) fn is_part_name(name: &str) -> bool
    ensures { result ≡ specs.is_part_name name.now }
{
    name == "cur" || name == "new" || name == "tmp"
}

/// Whether the folder of this name has the name as its label.
pub(crate) fn is_plain(name: &str) -> bool
    ensures { result ≡ specs.is_plain name.now }
{
    Label::admits(name) && !is_kept(name)
}

/// The label of a text that is one.
fn label_from(text: &str) -> Label
    requires { IsTrue (is_label text.now) }
    ensures { result ≡ text.now }
{
    match Label::read(text) {
        Ok(label) => label,
        Err(_) => unreachable!(),
    }
}

/// `f-` and 30 digits of a digest.
fn digest_text(alloc: Global, digest: &[u8; 32]) -> Result<String, AllocError>
    ensures value { IfOk result (λ text. string_bytes text ≡ codes "f-" ++ encode_lower (take 15 digest.now)) }
    ensures is_label { IfOk result (λ text. IsTrue (is_label (string_bytes text))) }
{
    let digits = hex::encode(alloc, &digest[..15])?;
    let mut text = String::from_str(alloc, "f-")?;
    text.push_str(digits.as_str())?;
    Ok(text)
}

/// Whether each of the bytes may stand in a path's part.
fn are_path_bytes(bytes: &[u8]) -> bool
    ensures { result ≡ list_all path.is_path_byte bytes.now }
{
    bytes.iter().all(|byte| is_path_byte(*byte))
}

/// Whether the byte may stand in a path's part: no control character, and no `/`.
pub(crate) fn is_path_byte(byte: u8) -> bool
    ensures { result ≡ path.is_path_byte byte }
{
    32 <= byte && byte != 127 && byte != b'/'
}
