//! The way of bytes from one device to the other.
use crate::fault::Fault;
use mr_frames::FrameReader;
use mr_wire::Frame;
use std::alloc::Global;

/// How many bytes the network hands over at a time. Frames are longer, so that none comes in one piece.
const PIECE_BYTES: usize = 16;

/// One direction of a connection: here a buffer, in your program a pipe or a socket.
///
/// Bytes come in pieces that know nothing of frames. The reader keeps the pieces and gives each frame once
/// its last byte is there. A new connection needs a new reader, since the old one may have half a frame.
#[derive(Drop)]
pub struct Wire {
    /// The bytes that were sent and haven't come yet.
    sent: Vec<u8>,
    reader: FrameReader,
}

impl Wire {
    /// A new connection.
    pub fn new(alloc: Global) -> Wire {
        Wire {
            sent: Vec::new(alloc),
            reader: FrameReader::new(alloc),
        }
    }

    /// Where the bytes of frames are written.
    pub fn way(&mut self) -> &mut Vec<u8> {
        &mut self.sent
    }

    /// Lets all that was sent come, piece by piece.
    ///
    /// `Frame` where the reader has failed before, or can't keep a piece for want of memory. Some pieces may
    /// have come then, so that the connection is of no more use.
    pub fn deliver(&mut self) -> Result<(), Fault> {
        for piece in self.sent.chunks(PIECE_BYTES) {
            self.reader.feed(piece)?;
        }
        self.sent.clear();
        Ok(())
    }

    /// Lets so many bytes come, and loses the rest, as where a connection breaks. Faults are those of `deliver`.
    pub fn lose_all_after(&mut self, bytes: usize) -> Result<(), Fault> {
        self.sent.truncate(bytes);
        self.deliver()
    }

    /// The next frame of what has come, if its last byte has.
    ///
    /// `Frame` where the bytes spell none or there is no memory for it.
    pub fn next(&mut self) -> Result<Option<Frame>, Fault> {
        Ok(self.reader.next_frame()?)
    }

    /// The next frame of what has come. `NoFrame` where its last byte is still to come; else faults are those of `next`.
    pub fn next_frame(&mut self) -> Result<Frame, Fault> {
        self.next()?.ok_or(Fault::NoFrame)
    }
}
