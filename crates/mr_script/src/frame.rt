//! What the bytes of a frame say, as text.
ghost use Rattle.std.specs.Prelude.{◌≡◌, ◌++◌, IfOk, OnOk, length, option_map, string_bytes};
ghost use Rattle.mr_wire.specs.Decoding.{decoded};
ghost use Rattle.mr_script.specs.Frame.{Tells, TellsFound, bytes_of, fault_name, refused_line, rest_line};
ghost use Rattle.mr_script.specs.inner.Frame.{GivesBytes};

use crate::Grown;
use crate::frame_line::frame_line;
use hex::FromHexError;
use mr_wire::{WireFault, decode};
use std::alloc::{AllocError, Global};

/// What is printed of a word of hexadecimal digits.
#[derive(Debug, Drop)]
pub struct FrameText {
    /// The lines, each with its line feed.
    pub lines: String,
    /// Whether they tell that the word spells no frame.
    pub is_fault: bool,
}

/// What the word says that spells the bytes of a frame, by two hexadecimal digits each.
///
/// Digits may be of either case, and spaces are skipped. A frame is told in one line, its words with a space
/// between each two, as `start source 0 stream 1 target 1 session 1 index 0 full`; where bytes follow it,
/// `rest N` counts them in a second line. A word that spells no frame is told as `refused N Name`, the
/// fault of [`decode`]; `not hex` is for one with another character, or with an odd number of
/// digits. Its cost is that of `decode` and of the text.
pub fn frame_text(alloc: Global, word: &str) -> Result<FrameText, AllocError>
    ensures { IfOk result (λ text. Tells (bytes_of word.now) (string_bytes text.lines) text.is_fault) }
{
    match bytes_spelled(alloc, word)? {
        Some(bytes) => found_text(alloc, bytes.as_slice()),
        None => Ok(FrameText {
            lines: String::from_str(alloc, "not hex\n")?,
            is_fault: true,
        }),
    }
}

/// The bytes that the word spells, if it is of such digits and spaces.
fn bytes_spelled(alloc: Global, word: &str) -> Grown<Option<Vec<u8>>>
    ensures { IfOk result (λ found. GivesBytes (bytes_of word.now) (option_map (λ bytes. bytes.items) found)) }
{
    let digits: Vec<u8> = word
        .as_bytes()
        .iter()
        .copied()
        .filter(|byte| *byte != b' ')
        .collect(alloc)?;
    match hex::decode(alloc, digits) {
        Ok(bytes) => Ok(Some(bytes)),
        Err(FromHexError::OutOfMemory) => Err(AllocError),
        Err(_) => Ok(None),
    }
}

/// What the bytes say.
fn found_text(alloc: Global, bytes: &[u8]) -> Grown<FrameText>
    ensures { IfOk result (λ text. TellsFound (decoded bytes.now) (length bytes.now) (string_bytes text.lines) text.is_fault) }
{
    match decode(alloc, bytes) {
        Ok((frame, used)) => {
            let mut lines = frame_line(alloc, &frame)?;
            push_rest(&mut lines, bytes.len() - used)?;
            Ok(FrameText {
                lines,
                is_fault: false,
            })
        }
        Err(WireFault::OutOfMemory) => Err(AllocError),
        Err(fault) => Ok(FrameText {
            lines: fault_line(alloc, fault)?,
            is_fault: true,
        }),
    }
}

/// Adds the line `rest N`, if there are bytes behind the frame.
fn push_rest(lines: &mut String, count: usize) -> Grown<()>
    ensures { OnOk result (string_bytes lines.new ≡ string_bytes lines.old ++ rest_line count) }
{
    if count == 0 {
        return Ok(());
    }
    write!(lines, "rest {count}\n")
}

/// `refused N Name`
fn fault_line(alloc: Global, fault: WireFault) -> Grown<String>
    ensures { IfOk result (λ line. string_bytes line ≡ refused_line fault) }
{
    let (number, name) = (fault.number(), name_of(fault));
    format!(in alloc; "refused {number} {name}\n")
}

/// The fault's name.
fn name_of(fault: WireFault) -> &'static str
    ensures { result.now ≡ fault_name fault }
{
    match fault {
        WireFault::OutOfMemory => "OutOfMemory",
        WireFault::Truncated => "Truncated",
        WireFault::TooLong => "TooLong",
        WireFault::BadFormat => "BadFormat",
        WireFault::BadKind => "BadKind",
        WireFault::BadBody => "BadBody",
    }
}
