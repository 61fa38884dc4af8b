//! Frames that are packed: each spelled by the one before it.
ghost use Rattle.std.specs.Prelude.{◌≡◌, ◌≤◌, ◌+◌, ℕ, List, [], IfErr, IfOk, MatchResult, OnErr, OnOk, length};
ghost use Rattle.mr_talk.specs.Packed.{IsBlamed, Unpacks, begun};
ghost use Rattle.mr_talk.specs.declared.packed.PackedFault.TheVariants.{OutOfMemory};

use crate::kind::MAX_FRAMES_BYTES;
use crate::packing::packed_frame;
use crate::unpacking::Unpacking;
use std::alloc::{AllocError, Global};
use std::marker::Model;
use thiserror::Error;

/// Why bytes are no packed frames.
#[derive(Clone, Copy, Debug, PartialEq, Eq, Drop, Error)]
pub enum PackedFault {
    /// A growth was refused.
    #[error("out of memory")]
    OutOfMemory,
    /// The bytes aren't those of whole frames.
    #[error("bad token: no packed frames")]
    BadToken,
    /// More bytes come out than a message has frames.
    #[error("too long: more frames than a message has")]
    TooLong,
}

impl From<AllocError> for PackedFault {
    ghost from_gives = { λ _ fault. fault ≡ OutOfMemory };

    fn from(_error: AllocError) -> PackedFault {
        PackedFault::OutOfMemory
    }
}

/// The last frame that went one way, or that came: the next one is spelled by it.
///
/// A frame is packed as tokens: a byte of each tells of which sort it is. 0 ends the frame; 1 to 63 copies so many bytes from a place in
/// the frame before; behind 64 to 127 stand 1 to 64 bytes as they are, and behind 128 to 191 so many bytes of which each is two
/// hexadecimal digits; 192 to 254 moves the place by -31 to 31 bytes; behind 255 stand a number of bytes, in four bytes, and so many
/// bytes. The place is the front of the frame before at first. It goes on by as many bytes as are spelled, and never behind its end.
#[derive(Debug, Drop)]
pub struct LastFrame {
    bytes: Vec<u8>,
}

impl Model for LastFrame {
    ghost use Rattle.std.specs.Prelude.{ℕ, List};

    ghost Value = { List ℕ };

    ghost view = { λ f. f.bytes.items };
}

impl LastFrame {
    /// No frame went yet.
    pub fn new(alloc: Global) -> LastFrame
        ensures { result ≡ [] }
    {
        LastFrame {
            bytes: Vec::new(alloc),
        }
    }

    /// The next frame, packed: six bytes more than it has, at most. Where there is no memory for it nothing has changed.
    pub fn pack(&mut self, alloc: Global, frame: &[u8]) -> Result<Vec<u8>, AllocError>
        requires { length frame.now ≤ MAX_FRAMES_BYTES }
        ensures packed { IfOk result (λ packed. Unpacks self.old packed.items frame.now self.new) }
        ensures last { OnOk result (self.new ≡ frame.now) }
        ensures short { IfOk result (λ packed. length packed.items ≤ length frame.now + 6) }
        ensures unchanged { OnErr result (self.new ≡ self.old) }
    {
        let packed = packed_frame(alloc, &self.bytes, frame)?;
        self.bytes = frame.to_vec(alloc)?;
        Ok(packed)
    }

    /// The frames that these bytes are, all of them, one behind another.
    ///
    /// `TooLong` as soon as more than [`MAX_FRAMES_BYTES`] come out of the bytes in front, whatever follows them: no more memory is taken
    /// than for as many and for those of one token. `BadToken` where no more come out, and then there is no token that stands for
    /// anything, or the bytes end within a frame. After a fault nothing has changed.
    pub fn unpack(&mut self, alloc: Global, bytes: &[u8]) -> Result<Vec<u8>, PackedFault>
        ensures unpacked { IfOk result (λ frames. Unpacks self.old bytes.now frames.items self.new) }
        ensures most { IfOk result (λ frames. length frames.items ≤ MAX_FRAMES_BYTES) }
        ensures whole { (frames after : List ℕ) → Unpacks self.old bytes.now frames after → length frames ≤ MAX_FRAMES_BYTES
            → MatchResult result (λ found. (found.items ≡ frames) × (self.new ≡ after)) (λ fault. fault ≡ OutOfMemory) }
        ensures fault { IfErr result (λ fault. IsBlamed fault bytes.now (begun self.old [])) }
        ensures unchanged { OnErr result (self.new ≡ self.old) }
    {
        let mut unpacking = Unpacking::new(alloc, &self.bytes)?;
        unpacking.take_all(bytes)?;
        let (frames, last) = unpacking.into_frames()?;
        self.bytes = last;
        Ok(frames)
    }
}
