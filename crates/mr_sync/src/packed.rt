//! Records as they are packed: each frame against the one before it that went the same way.
ghost use Rattle.std.specs.Prelude.{◌≡◌, ◌≤◌, ℕ, List, IfOk, IfSome, length};
ghost use Rattle.mr_talk.specs.Packed.{Unpacks};
ghost use Rattle.mr_talk.specs.declared.kind.Kind.TheVariants as kind;
ghost use Rattle.mr_sync.specs.inner.Packed.{PacksFront, TellsPacked};
ghost use Rattle.mr_sync.specs.Taken.{AreFrames};

use crate::fault::SyncFault;
use crate::records::frames_in;
use crate::said::next_frame;
use crate::sending::message_of;
use mr_talk::{Kind, LastFrame, MAX_PACKED_BYTES, Message};
use mr_wire::Frame;
use std::alloc::Global;
use std::collections::VecDeque;

/// How many bytes more than it has a frame may take as it is packed.
const MOST_MORE: usize = 6;

/// A message of the records in front, packed, as many as it has room for and no more than so many; none where there are none. What is told
/// and what is left is what there was.
///
/// `TooLong` where the first frame is longer than a message.
pub(crate) fn records_message(
    alloc: Global,
    last: &mut LastFrame,
    frames: &mut VecDeque<Vec<u8>>,
    most: usize,
) -> Result<Option<Message>, SyncFault>
    ensures kind { IfOk result (λ found. IfSome found (λ message. message.kind ≡ kind.Records)) }
    ensures told { IfOk result (TellsPacked frames.old.items last.old frames.new.items last.new) }
{
    if frames.is_empty() {
        return Ok(None);
    }
    let bytes = front_packed(alloc, last, frames, most)?;
    if bytes.is_empty() {
        return Err(SyncFault::TooLong);
    }
    Ok(Some(message_of(Kind::Records, bytes)))
}

/// The frames in front, packed, as many as a message has room for and no more than so many.
fn front_packed(
    alloc: Global,
    last: &mut LastFrame,
    frames: &mut VecDeque<Vec<u8>>,
    most: usize,
) -> Result<Vec<u8>, SyncFault>
    ensures short { IfOk result (λ bytes. length bytes.items ≤ MAX_PACKED_BYTES) }
    ensures told { IfOk result (λ bytes. PacksFront frames.old.items last.old bytes.items frames.new.items last.new) }
{
    let mut bytes = Vec::new(alloc);
    let mut room = MAX_PACKED_BYTES as usize;
    for _ in 0..frames.len().min(most) {
        let Some(frame) = next_frame(frames, MOST_MORE, room) else {
            break;
        };
        let packed = last.pack(alloc, &frame)?;
        bytes.extend_from_slice(&packed)?;
        room -= frame.len() + MOST_MORE;
    }
    Ok(bytes)
}

/// The frames that the bytes of a message are, unpacked. `BadList` where they are no packed frames, or more of them than a message has;
/// `Frame` by the first that is none; `OutOfMemory`.
pub(crate) fn unpacked_frames(
    alloc: Global,
    last: &mut LastFrame,
    bytes: &[u8],
) -> Result<Vec<Frame>, SyncFault>
    ensures { IfOk result (λ frames. (text : List ℕ) × Unpacks last.old bytes.now text last.new × AreFrames frames.items text) }
{
    let text = last.unpack(alloc, bytes)?;
    frames_in(alloc, &text)
}
