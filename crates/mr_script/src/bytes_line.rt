//! The line of a frame's bytes, with its line feed.
ghost use Rattle.std.specs.Prelude.{◌≡◌, IfOk, string_bytes};
ghost use Rattle.mr_script.specs.Answer.{bytes_text};

use crate::Grown;
use mr_command::Pool;
use std::alloc::Global;

/// `bytes Qn: ` and the frame's bytes, by two lower case hexadecimal digits each. The frame is that of
/// this number of the pool.
pub(crate) fn bytes_line(alloc: Global, pool: Pool, number: u64, frame: &[u8]) -> Grown<String>
    ensures { IfOk result (λ line. string_bytes line ≡ bytes_text pool number frame.now) }
{
    let digits = hex::encode(alloc, frame)?;
    let (letter, digits) = (pool.letter(), digits.as_str());
    format!(in alloc; "bytes {letter}{number}: {digits}\n")
}
