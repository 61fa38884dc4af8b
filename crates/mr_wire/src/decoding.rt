//! From bytes to a frame.
ghost use Rattle.std.specs.Prelude.{◌≡◌, ◌++◌, ◌≤◌, ℕ, List, length, take, IfOk, Ok};
ghost use Rattle.mr_wire.specs.Decoding.{Answers, decoded};
ghost use Rattle.mr_wire.specs.inner.Decoding.{FindsWhole};
ghost use Rattle.mr_wire.specs.declared.frame.Frame.{Frame};
ghost use Rattle.mr_wire.specs.Grammar.{Spells};
ghost use Rattle.mr_wire.specs.inner.Rests.{AnswersRest, AnswersKind};

use crate::body::frame;
use crate::fault::WireFault;
use crate::frame::Frame;
use crate::input::Input;
use crate::kind::{FORMAT, FORMAT_WITHOUT_RECEIPTS, Kind};
use std::alloc::Global;

/// The most bytes behind the length of a frame.
pub const MAX_REST_BYTES: u32 = 8_388_608;

/// The fewest bytes behind the length of a frame: its format and its kind.
const MIN_REST_BYTES: u32 = 2;

/// The bytes of a frame's length.
pub(crate) const LENGTH_BYTES: usize = 4;

/// What stands behind the length of the first frame.
fn rest_after_length(bytes: &[u8]) -> Result<&[u8], WireFault>
    ensures { AnswersRest bytes.now result }
{
    let mut input = Input::new(bytes);
    let Some(len) = input.u32() else {
        return Err(WireFault::Truncated);
    };
    if len > MAX_REST_BYTES {
        return Err(WireFault::TooLong);
    }
    if len < MIN_REST_BYTES {
        return Err(WireFault::BadBody);
    }
    match input.bytes(len as usize) {
        Some(rest) => Ok(rest),
        None => Err(WireFault::Truncated),
    }
}

/// The kind of a frame, and what stands behind it.
fn kind_of_rest(rest: &[u8]) -> Result<(Kind, &[u8]), WireFault>
    ensures { AnswersKind rest.now result }
{
    let [format, byte, parts @ ..] = rest else {
        return Err(WireFault::BadBody);
    };
    if *format != FORMAT_WITHOUT_RECEIPTS && *format != FORMAT {
        return Err(WireFault::BadFormat);
    }
    match Kind::from_byte(*format, *byte) {
        Some(kind) => Ok((kind, parts)),
        None => Err(WireFault::BadKind),
    }
}

/// The frame of this kind that the bytes are, all of them. It is kept where there is memory for it.
fn whole(alloc: Global, kind: Kind, parts: &[u8]) -> Option<Option<Frame>>
    ensures { FindsWhole kind parts.now result }
{
    let mut input = Input::new(parts);
    let kept = frame(&mut input, Some(alloc), kind)?;
    if input.len() != 0 {
        return None;
    }
    Some(kept)
}

/// The first frame and how many bytes it takes, or the first fault.
fn first_frame(alloc: Global, bytes: &[u8]) -> Result<(Frame, usize), WireFault>
    ensures { Answers (decoded bytes.now) result }
{
    let rest = rest_after_length(bytes)?;
    let (kind, parts) = kind_of_rest(rest)?;
    match whole(alloc, kind, parts) {
        Some(Some(frame)) => Ok((frame, rest.len() + LENGTH_BYTES)),
        Some(None) => Err(WireFault::OutOfMemory),
        None => Err(WireFault::BadBody),
    }
}

/// The frame at the front of the bytes, in either format, and how many bytes it takes.
///
/// A frame is a length of four bytes, the highest first, and a rest of so many bytes: a format byte, a
/// kind byte, and what the kind has. The faults are tried in this order: `Truncated` for fewer than four
/// bytes; `TooLong` for a length over 8,388,608; `BadBody` for a length of 0 or 1; `Truncated` where fewer
/// bytes follow than the length says; `BadFormat` for a format byte other than 1 and 2; `BadKind` for a
/// kind byte over 7, or over 6 in format 1; `BadBody` for anything else that is not in the grammar; and
/// `OutOfMemory` last: where a growth is refused, the rest is walked without keeping it. The bytes are walked once, and no
/// count reserves more than the bytes behind it can hold.
pub fn decode(alloc: Global, bytes: &[u8]) -> Result<(Frame, usize), WireFault>
    ensures exact { Answers (decoded bytes.now) result }
    ensures spelled { IfOk result (λ found. (format : ℕ) × Spells format found.0 (take found.1 bytes.now)) }
    ensures within { IfOk result (λ found. found.1 ≤ length bytes.now) }
    ensures whole { (format : ℕ) (f : Frame) (text more : List ℕ) → Spells format f text → bytes.now ≡ text ++ more
        → Answers (Ok (f, length text)) result }
{
    first_frame(alloc, bytes)
}
