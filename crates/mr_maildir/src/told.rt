//! Lines that tell of a mail's file: its name, and the names of folders.
ghost use Rattle.std.specs.Prelude.{◌≡◌, ◌++◌, ◌∷◌, ℕ, List, Some, IfOk, IfSome, IfNone, IsTrue, string_bytes};
ghost use Rattle.std.specs.Option.{option_copied};
ghost use Rattle.std.specs.Str.{IsUtf8};
ghost use Rattle.mr_maildir.specs.Folder.{is_safe_folder};
ghost use Rattle.mr_maildir.specs.Name.{is_safe_name};
ghost use Rattle.mr_maildir.specs.Told.{told_by, behind_key, name_key, folder_key, with_line};
ghost use Rattle.mr_maildir.specs.inner.Told.{is_one_line};
ghost use Rattle.mr_maildir.specs.Told as specs;

use crate::folder::is_safe_folder;
use crate::name::is_safe_name;
use mr_mail::Label;
use std::alloc::{AllocError, Global};

/// What the line of a file's name begins with.
const NAME_KEY: &str = "name ";

/// The name of the mail's file that the lines tell, from the first that tells one. Each line ends in a newline.
pub fn told_name(lines: &str) -> Option<&str>
    ensures { option_copied result ≡ told_by name_key lines.now }
{
    told(lines, NAME_KEY)
}

/// The name of the label's folder that the lines tell, from the first that tells one. Each line ends in a newline.
pub fn told_folder<'a>(
    alloc: Global,
    lines: &'a str,
    label: &Label,
) -> Result<Option<&'a str>, AllocError>
    ensures { IfOk result (λ name. option_copied name ≡ told_by (folder_key label.now) lines.now) }
{
    let key = key_of_folder(alloc, label)?;
    Ok(told(lines, key.as_str()))
}

/// The lines with the file's name told in front of them, which beats what they told of it before. A name that others
/// wouldn't take is left out. The other lines stay as they are.
pub fn with_told_name(alloc: Global, lines: &str, name: &str) -> Result<String, AllocError>
    ensures value { IfOk result (λ text. string_bytes text ≡ specs.with_name name.now lines.now) }
    ensures told { IsTrue (is_safe_name name.now) → told_by name_key (specs.with_name name.now lines.now) ≡ Some name.now }
    ensures folders { (label : List ℕ) → told_by (folder_key label) (specs.with_name name.now lines.now) ≡ told_by (folder_key label) lines.now }
{
    with_name(alloc, lines, name)
}

/// The lines with the file's name told in front of them, if others would take it.
fn with_name(alloc: Global, lines: &str, name: &str) -> Result<String, AllocError>
    ensures { IfOk result (λ text. string_bytes text ≡ specs.with_name name.now lines.now) }
{
    if is_safe_name(name) {
        line_before(alloc, NAME_KEY, name, lines)
    } else {
        String::from_str(alloc, lines)
    }
}

/// The lines with the name of the label's folder told in front of them, which beats what they told of it before. A name
/// that others wouldn't take is left out. The other lines stay as they are.
pub fn with_told_folder(
    alloc: Global,
    lines: &str,
    label: &Label,
    name: &str,
) -> Result<String, AllocError>
    ensures value { IfOk result (λ text. string_bytes text ≡ specs.with_folder label.now name.now lines.now) }
    ensures told { IsTrue (is_safe_folder name.now) → told_by (folder_key label.now) (specs.with_folder label.now name.now lines.now) ≡ Some name.now }
    ensures name { told_by name_key (specs.with_folder label.now name.now lines.now) ≡ told_by name_key lines.now }
{
    // a label has no newline
    let _text = label.as_str();
    with_folder(alloc, lines, label, name)
}

/// The lines with the name of the label's folder told in front of them, if others would take it.
fn with_folder(alloc: Global, lines: &str, label: &Label, name: &str) -> Result<String, AllocError>
    ensures { IfOk result (λ text. string_bytes text ≡ specs.with_folder label.now name.now lines.now) }
{
    if is_safe_folder(name) {
        let key = key_of_folder(alloc, label)?;
        line_before(alloc, key.as_str(), name, lines)
    } else {
        String::from_str(alloc, lines)
    }
}

/// What the line of the name of a label's folder begins with.
fn key_of_folder(alloc: Global, label: &Label) -> Result<String, AllocError>
    ensures { IfOk result (λ key. string_bytes key ≡ folder_key label.now) }
{
    let mut key = String::from_str(alloc, "folder ")?;
    key.push_str(label.as_str())?;
    key.push_str(" ")?;
    Ok(key)
}

/// A line of a key and a value, and the lines behind it.
fn line_before(alloc: Global, key: &str, value: &str, lines: &str) -> Result<String, AllocError>
    ensures { IfOk result (λ text. string_bytes text ≡ with_line key.now value.now lines.now) }
{
    let mut text = String::from_str(alloc, key)?;
    text.push_str(value)?;
    text.push_str("\n")?;
    text.push_str(lines)?;
    Ok(text)
}

/// What stands behind the key on the first line that begins with it.
fn told<'a>(lines: &'a str, key: &str) -> Option<&'a str>
    ensures { option_copied result ≡ told_by key.now lines.now }
{
    let mut rest = lines;
    loop {
        let (line, more) = first_line(rest)?;
        if let Some(value) = behind(line, key) {
            return Some(value);
        }
        rest = more;
    }
}

/// The first line, and what follows its newline.
pub(crate) fn first_line(text: &str) -> Option<(&str, &str)>
    ensures cut { IfSome result (λ p. (text.now ≡ p.0.now ++ 10 ∷ p.1.now) × IsTrue (is_one_line p.0.now)) }
    ensures none { IfNone result (IsTrue (is_one_line text.now)) }
    ensures text { IfSome result (λ p. IsUtf8 p.1.now) }
{
    text.split_once('\n')
}

/// What stands behind the key on a line that begins with it.
pub(crate) fn behind<'a>(line: &'a str, key: &str) -> Option<&'a str>
    ensures value { option_copied result ≡ behind_key key.now line.now }
    ensures written { IfSome result (λ value. line.now ≡ key.now ++ value.now) }
{
    line.strip_prefix(key)
}
