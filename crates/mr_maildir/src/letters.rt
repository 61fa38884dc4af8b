//! The letters behind a file's name, and the flags that they tell.
ghost use Rattle.std.specs.Prelude.{◌≡◌, ◌<◌, ◌++◌, ◌∷◌, [], ◌&&◌, if◌then◌else◌, ℕ, IfOk, OnOk, IsTrue, false, string_bytes};
ghost use Rattle.std.specs.List.{list_all};
ghost use Rattle.mr_mail.specs.Flag.{has_flag};
ghost use Rattle.mr_mail.specs.declared.flags.Flag.{Flag};
ghost use Rattle.mr_maildir.specs.Letters.{has_letter, flags_told};
ghost use Rattle.mr_maildir.specs.Letters as specs;

use mr_mail::{Flag, Flags};
use std::alloc::{AllocError, Global};

/// The letter that tells the flag in a Maildir: `D` draft, `F` flagged, `R` answered, `S` seen and `T` deleted, as of
/// <https://cr.yp.to/proto/maildir.html>, which calls the last three replied, seen and trashed.
pub fn letter_of(flag: Flag) -> u8
    ensures { result ≡ specs.letter_of flag }
{
    match flag {
        Flag::Draft => b'D',
        Flag::Flagged => b'F',
        Flag::Answered => b'R',
        Flag::Seen => b'S',
        Flag::Deleted => b'T',
    }
}

/// The flags, with one more if it is wanted.
pub(crate) fn with_flag_if(flags: Flags, flag: Flag, wanted: bool) -> Flags
    ensures { result ≡ specs.with_flag_if flags flag wanted }
{
    if wanted { flags.with(flag) } else { flags }
}

/// The flags that letters tell. A letter that tells none is passed over.
pub fn flags_of(letters: &str) -> Flags
    ensures value { result ≡ flags_told letters.now }
    ensures each { (flag : Flag) → has_flag result flag ≡ has_letter letters.now (specs.letter_of flag) }
{
    flags_in(letters.as_bytes())
}

/// The flags that letters tell.
fn flags_in(letters: &[u8]) -> Flags
    ensures { result ≡ flags_told letters.now }
{
    Flag::ALL.iter().fold(Flags::empty(), |flags, flag| {
        with_flag_if(flags, *flag, letters.contains(&letter_of(*flag)))
    })
}

/// The letters of a file whose flags change to these: a flag's letter exactly where the flag is there, and each other
/// letter exactly where the file has it. They come in rising order of their bytes, each once, as a Maildir wants them; a
/// byte that may not stand there is left out.
pub fn letters_with(alloc: Global, letters: &str, flags: Flags) -> Result<String, AllocError>
    ensures value { IfOk result (λ text. string_bytes text ≡ specs.letters_with letters.now flags) }

    // It tells the flags, and keeps each letter that tells none.
    ensures flags { flags_told (specs.letters_with letters.now flags) ≡ flags }
    ensures others { (b : ℕ) → specs.tells_flag b ≡ false
        → has_letter (specs.letters_with letters.now flags) b ≡ (specs.is_info_byte b && has_letter letters.now b) }
    // Each may stand behind `:2,`.
    ensures each { IsTrue (list_all specs.is_info_byte (specs.letters_with letters.now flags)) }
{
    // the flags are in their range
    let _bits = flags.bits();
    staying_letters(alloc, letters.as_bytes(), flags)
}

/// The letters that stand on the file once its flags are these.
fn staying_letters(alloc: Global, letters: &[u8], flags: Flags) -> Result<String, AllocError>
    ensures { IfOk result (λ text. string_bytes text ≡ specs.letters_with letters.now flags) }
{
    let mut text = String::new(alloc);
    for byte in b'!'..127 {
        push_letter_if(&mut text, byte, stays_on(letters, flags, byte))?;
    }
    Ok(text)
}

/// Appends the letter, if it is wanted.
fn push_letter_if(text: &mut String, letter: u8, wanted: bool) -> Result<(), AllocError>
    requires { letter < 128 }
    ensures { OnOk result (string_bytes text.new ≡ string_bytes text.old ++ (if wanted then letter ∷ [] else [])) }
{
    if wanted {
        text.push(char::from(letter))?;
    }
    Ok(())
}

/// Whether the letter stands on the file once its flags are these.
fn stays_on(letters: &[u8], flags: Flags, letter: u8) -> bool
    ensures { result ≡ specs.stays_on letters.now flags letter }
{
    is_info_byte(letter)
        && match flag_told(letter) {
            Some(flag) => flags.contains(flag),
            None => letters.contains(&letter),
        }
}

/// The flag that the letter tells, if it tells one.
fn flag_told(letter: u8) -> Option<Flag>
    ensures { result ≡ specs.flag_told letter }
{
    match letter {
        b'D' => Some(Flag::Draft),
        b'F' => Some(Flag::Flagged),
        b'R' => Some(Flag::Answered),
        b'S' => Some(Flag::Seen),
        b'T' => Some(Flag::Deleted),
        _ => None,
    }
}

/// Whether each of the bytes may stand behind `:2,`: a graphic character of ASCII, but neither `/` nor `:`.
pub(crate) fn are_info_bytes(bytes: &[u8]) -> bool
    ensures { result ≡ list_all specs.is_info_byte bytes.now }
{
    bytes.iter().all(|byte| is_info_byte(*byte))
}

/// Whether the byte may stand behind `:2,`.
fn is_info_byte(byte: u8) -> bool
    ensures { result ≡ specs.is_info_byte byte }
{
    byte.is_ascii_graphic() && byte != b'/' && byte != b':'
}
