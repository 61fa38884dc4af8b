//! The reader of a stream of frames.
ghost use Rattle.std.specs.Prelude.{◌≡◌, ◌↔◌, IsTrue, IfOk, IfSome, IfNone, Some, Err, []};
ghost use Rattle.mr_wire.specs.Decoding.{decoded};
ghost use Rattle.mr_wire.specs.declared.fault.WireFault.TheVariants.{Truncated};
ghost use Rattle.mr_frames.specs.Stream.{IsPart};
ghost use Rattle.mr_frames.specs.inner.Stream.{Takes};

use crate::fault::FrameFault;
use byteorder::{BigEndian, ByteOrder};
use bytes::BytesMut;
use mr_wire::{Frame, MAX_REST_BYTES, WireFault, decode};
use std::alloc::{AllocError, Global};
use std::marker::Model;

/// The bytes of a frame's length.
const LENGTH_BYTES: usize = 4;

/// The fewest bytes behind the length of a frame.
const MIN_REST_BYTES: u32 = 2;

/// Gives the frames that the bytes fed to it spell.
///
/// It has what was fed behind the frames that it gave: at most a part of one frame where `next_frame` has
/// answered `None` and nothing was fed since. Fed bytes are copied once, and giving a frame moves none of
/// those behind it. Where the room runs out, the bytes that are left move to its front or to a larger
/// room, each at most once on average. No room is made for bytes that a length only promises.
#[derive(Drop)]
pub struct FrameReader {
    /// What was fed and not yet given; nothing once the stream has had a fault.
    rest: Option<BytesMut>,
}

impl Model for FrameReader {
    ghost use Rattle.std.specs.Prelude.{ℕ, List, Option};
    ghost use Rattle.std.specs.Prelude.{option_map};

    ghost Value = { Option (List ℕ) };

    ghost view = { λ r. option_map (λ b. b.items) r.rest };
}

impl FrameReader {
    ghost use Rattle.mr_frames.specs.Reader.{Feeds, Nexts, ending};

    /// A reader that was fed nothing. It takes no memory.
    pub fn new(alloc: Global) -> FrameReader
        ensures { result ≡ Some [] }
    {
        FrameReader {
            rest: Some(BytesMut::new(alloc)),
        }
    }

    /// Takes the next piece of the stream, of whatever length.
    ///
    /// `Failed` where the stream has had a fault. Where there is no memory the piece is not taken, and may
    /// be fed again. It costs a copy of the piece.
    pub fn feed(&mut self, piece: &[u8]) -> Result<(), FrameFault>
        ensures { Feeds self.old piece.now result self.new }
    {
        let Some(rest) = &mut self.rest else {
            return Err(FrameFault::Failed);
        };
        rest.extend_from_slice(piece)?;
        Ok(())
    }

    /// The next frame of the stream, or `None` where more bytes have to be fed first.
    ///
    /// `TooLong`, `BadFormat`, `BadKind` and `BadBody` are those of [`decode`] for the bytes that are not
    /// given yet; from then on every call answers `Failed`. Where there is no memory for the frame nothing
    /// has changed, and the call may be made again. A `None` costs a look at the length; a frame costs
    /// what `decode` does. After a `None` the reader has less than a frame of the longest kind.
    pub fn next_frame(&mut self) -> Result<Option<Frame>, FrameFault>
        ensures exact { Nexts self.old result self.new }
        ensures part { IfOk result (λ found. IfNone found (IfSome self.new IsPart)) }
    {
        let Some(rest) = &mut self.rest else {
            return Err(FrameFault::Failed);
        };
        match take_frame(rest) {
            Ok(frame) => Ok(frame),
            Err(WireFault::OutOfMemory) => Err(FrameFault::Wire(WireFault::OutOfMemory)),
            Err(fault) => {
                self.rest = None;
                Err(FrameFault::Wire(fault))
            }
        }
    }

    /// An equal reader, which gives the same frames where it is fed the same. It costs a copy of what was fed and
    /// not yet given.
    pub fn copy(&self) -> Result<FrameReader, AllocError>
        ensures { IfOk result (λ reader. reader ≡ self.now) }
    {
        let rest = match &self.rest {
            Some(rest) => Some(copied(rest)?),
            None => None,
        };
        Ok(FrameReader { rest })
    }

    /// Ends the stream: there are no more bytes to be fed.
    ///
    /// `Truncated` where bytes are left behind the frames that were given, `Failed` where the stream has
    /// had a fault.
    pub fn finish(self) -> Result<(), FrameFault>
        ensures { result ≡ ending self }
    {
        match &self.rest {
            None => Err(FrameFault::Failed),
            Some(rest) if rest.is_empty() => Ok(()),
            Some(_) => Err(FrameFault::Wire(WireFault::Truncated)),
        }
    }
}

/// The same bytes, in a buffer of their own.
fn copied(bytes: &BytesMut) -> Result<BytesMut, AllocError>
    ensures { IfOk result (λ copy. copy.items ≡ bytes.now.items) }
{
    let mut copy = BytesMut::with_capacity(*bytes.allocator(), bytes.len())?;
    copy.extend_from_slice(bytes.as_slice())?;
    Ok(copy)
}

/// Whether the first frame lacks its end, as far as its length tells.
fn is_cut(rest: &[u8]) -> bool
    ensures exact { IsTrue result ↔ (decoded rest.now ≡ Err Truncated) }
    ensures part { IsTrue result → IsPart rest.now }
{
    if rest.len() < LENGTH_BYTES {
        return true;
    }
    let len = BigEndian::read_u32(rest);
    if len < MIN_REST_BYTES || len > MAX_REST_BYTES {
        return false;
    }
    rest.len() - LENGTH_BYTES < len as usize
}

/// Takes the first frame from the rest, or nothing where it lacks its end.
fn take_frame(rest: &mut BytesMut) -> Result<Option<Frame>, WireFault>
    ensures exact { Takes rest.old.items result rest.new.items }
    ensures part { IfOk result (λ found. IfNone found (IsPart rest.new.items)) }
{
    if is_cut(rest.as_slice()) {
        return Ok(None);
    }
    let (frame, used) = decode(*rest.allocator(), rest.as_slice())?;
    rest.advance(used);
    Ok(Some(frame))
}
