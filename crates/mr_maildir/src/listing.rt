//! A mail as a line of a list.
ghost use Rattle.std.specs.Prelude.{◌≡◌, ◌<◌, ◌++◌, ◌/◌, ◌%◌, ◌∷◌, [], ℕ, List, IfOk, OnOk, IsTrue, map, not, string_bytes};
ghost use Rattle.std.specs.List.{join_with_byte, list_all, flat_map};
ghost use Rattle.std.specs.Char.{is_control, digit_char};
ghost use Rattle.std.specs.Str.{chars, encode_utf8_all};
ghost use Rattle.mr_version.specs.Name.{name_text};
ghost use Rattle.mr_maildir.specs.Letters.{letters_with as letters_of_flags};
ghost use Rattle.mr_maildir.specs.Listing as specs;
ghost use Rattle.mr_maildir.specs.Listing.{IsListLine, printed_char, printed_chars, spaced};

use crate::header::Header;
use crate::letters::letters_with;
use crate::view::View;
use mr_mail::{Day, Flags, Label};
use mr_version::Version;
use std::alloc::{AllocError, Global};

/// The line of a mail in a list, without a newline: its version, the letters of its flags, its labels with commas between
/// them, the day, the sender and the subject, with a tab between each two. Sender and subject are as `printable` gives them, so
/// the line has five tabs, and no other control character.
pub fn list_line(
    alloc: Global,
    version: Version,
    view: &View,
    day: Day,
    header: &Header,
) -> Result<String, AllocError>
    ensures { IfOk result (λ line. IsListLine version view.now day (string_bytes header.now.from) (string_bytes header.now.subject) (string_bytes line)) }
{
    let date = day.text(alloc)?;
    line_with(alloc, version, view, date.as_str(), header)
}

/// The line of a mail, with this date.
fn line_with(
    alloc: Global,
    version: Version,
    view: &View,
    date: &str,
    header: &Header,
) -> Result<String, AllocError>
    ensures { IfOk result (λ line. string_bytes line ≡ join_with_byte 9 (specs.fields (name_text version) view.now date.now (string_bytes header.now.from) (string_bytes header.now.subject))) }
{
    let mut line = version.text(alloc)?;
    push_letters(alloc, &mut line, view.flags())?;
    push_labels(alloc, &mut line, view.labels())?;
    push_field(&mut line, date)?;
    push_text(alloc, &mut line, header.from.as_str())?;
    push_text(alloc, &mut line, header.subject.as_str())?;
    Ok(line)
}

/// Appends a tab and the letters of the flags.
fn push_letters(alloc: Global, line: &mut String, flags: Flags) -> Result<(), AllocError>
    ensures { OnOk result (string_bytes line.new ≡ string_bytes line.old ++ 9 ∷ letters_of_flags [] flags) }
{
    let letters = letters_with(alloc, "", flags)?;
    push_field(line, letters.as_str())
}

/// Appends a tab and the labels.
fn push_labels(alloc: Global, line: &mut String, labels: &[Label]) -> Result<(), AllocError>
    ensures { OnOk result (string_bytes line.new ≡ string_bytes line.old ++ 9 ∷ join_with_byte 44 labels.now) }
{
    let text = joined(alloc, labels)?;
    push_field(line, text.as_str())
}

/// Appends a tab and the text as it is shown.
fn push_text(alloc: Global, line: &mut String, text: &str) -> Result<(), AllocError>
    ensures { OnOk result (string_bytes line.new ≡ string_bytes line.old ++ 9 ∷ specs.printed text.now) }
{
    let text = printed(alloc, text)?;
    push_field(line, text.as_str())
}

/// A text as a terminal may show it: a space for each tab, two backslashes for each backslash, and for each other
/// control character `\x` and the two hexadecimal digits of its code. Control characters are those of Unicode, U+0000 to
/// U+001F and U+007F to U+009F.
pub fn printable(alloc: Global, text: &str) -> Result<String, AllocError>
    ensures value { IfOk result (λ line. string_bytes line ≡ specs.printed text.now) }

    // No control character comes out.
    ensures plain { IsTrue (list_all (λ c. not (is_control c)) (printed_chars (chars text.now))) }
    // Texts that look alike are one, but for tabs and spaces.
    ensures one { (others : List ℕ) → printed_chars others ≡ printed_chars (chars text.now) → map spaced others ≡ map spaced (chars text.now) }
{
    printed(alloc, text)
}

/// The text as it is shown.
fn printed(alloc: Global, text: &str) -> Result<String, AllocError>
    ensures { IfOk result (λ line. string_bytes line ≡ specs.printed text.now) }
{
    let mut line = String::new(alloc);
    push_printable(&mut line, text)?;
    Ok(line)
}

/// Appends a tab and the field.
fn push_field(line: &mut String, field: &str) -> Result<(), AllocError>
    ensures { OnOk result (string_bytes line.new ≡ string_bytes line.old ++ 9 ∷ field.now) }
{
    line.push_str("\t")?;
    line.push_str(field)?;
    Ok(())
}

/// The labels with commas between them.
fn joined(alloc: Global, labels: &[Label]) -> Result<String, AllocError>
    ensures { IfOk result (λ text. string_bytes text ≡ join_with_byte 44 labels.now) }
{
    match labels.split_first() {
        Some((first, others)) => joined_behind(alloc, first, others),
        None => Ok(String::new(alloc)),
    }
}

/// The first label and the others, with commas between them.
fn joined_behind(alloc: Global, first: &Label, others: &[Label]) -> Result<String, AllocError>
    ensures { IfOk result (λ text. string_bytes text ≡ join_with_byte 44 (first.now ∷ others.now)) }
{
    let mut text = String::from_str(alloc, first.as_str())?;
    push_others(&mut text, others)?;
    Ok(text)
}

/// Appends the labels with a comma before each.
fn push_others(text: &mut String, labels: &[Label]) -> Result<(), AllocError>
    ensures { OnOk result (string_bytes text.new ≡ string_bytes text.old ++ flat_map (λ label. 44 ∷ label) labels.now) }
{
    for label in labels {
        push_other(text, label)?;
    }
    Ok(())
}

/// Appends a comma and the label.
fn push_other(text: &mut String, label: &Label) -> Result<(), AllocError>
    ensures { OnOk result (string_bytes text.new ≡ string_bytes text.old ++ 44 ∷ label.now) }
{
    text.push_str(",")?;
    text.push_str(label.as_str())?;
    Ok(())
}

/// Appends the text as it is shown.
fn push_printable(line: &mut String, text: &str) -> Result<(), AllocError>
    ensures { OnOk result (string_bytes line.new ≡ string_bytes line.old ++ specs.printed text.now) }
{
    for character in text.chars() {
        push_char(line, character)?;
    }
    Ok(())
}

/// Appends the character as it is shown.
fn push_char(line: &mut String, character: char) -> Result<(), AllocError>
    ensures { OnOk result (string_bytes line.new ≡ string_bytes line.old ++ encode_utf8_all (printed_char character)) }
{
    match character {
        '\t' => line.push(' '),
        '\\' => line.push_str("\\\\"),
        other if other.is_control() => push_code(line, other as u8),
        other => line.push(other),
    }
}

/// Appends `\x` and the two digits of a code.
fn push_code(line: &mut String, code: u8) -> Result<(), AllocError>
    ensures { OnOk result (string_bytes line.new ≡ string_bytes line.old ++ 92 ∷ 120 ∷ digit_char (code / 16) ∷ digit_char (code % 16) ∷ []) }
{
    line.push_str("\\x")?;
    line.push(digit(code / 16))?;
    line.push(digit(code % 16))
}

/// The hexadecimal digit of a number below 16.
fn digit(number: u8) -> char
    requires { number < 16 }
    ensures { result ≡ digit_char number }
{
    if number < 10 {
        char::from(b'0' + number)
    } else {
        char::from(b'a' - 10 + number)
    }
}
