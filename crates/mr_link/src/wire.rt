//! Frames over a link.
ghost use Rattle.std.specs.Prelude.{◌≡◌, ◌≢◌, ◌<◌, ◌+◌, ◌^◌, ◌↔◌, ℕ, [], Some, None, IsSome, Err, length};
ghost use Rattle.mr_wire.specs.declared.decoding.TheConstants.{MAX_REST_BYTES};
ghost use Rattle.mr_wire.specs.FrameSpelling.{rest_bytes};
ghost use Rattle.mr_wire.specs.Grammar.{Spells};
ghost use Rattle.mr_wire.specs.declared.frame.Frame.{Frame};
ghost use Rattle.mr_wire.specs.declared.frame.Frame.TheVariants as frame;
ghost use Rattle.mr_link.specs.Wire.{wire_of, ReadsFrame, WritesFrame};
ghost use Rattle.mr_link.specs.inner.Wire.{ReadsPiece, Hands, HandsNothing};

use crate::link::Link;
use crate::snag::{Snag, snag_of_encoding, snag_of_link, snag_of_reader};
use mr_frames::FrameReader;
use mr_wire::{Ask, Frame, Receipt, Record, encode_ask, encode_receipt, encode_record};
use std::alloc::Global;
use std::sync::Wait;

/// A link, and the reader of its stream.
///
/// Its calls need a wire that has not come upon bytes that are no frame: a new one, or one of which no read was answered
/// `BadFrame`. None of them hangs the link up.
#[derive(Drop)]
pub struct Wire<L> {
    pub link: L,
    pub reader: FrameReader,
    /// A piece that was received and that the reader had no memory for.
    pub held: Option<Vec<u8>>,
}

impl<L: Link> Wire<L> {
    /// A wire over a link of which nothing was read. It takes no memory.
    pub fn new(alloc: Global, link: L) -> Wire<L>
        ensures link { result.link ≡ link }
        ensures reader { result.reader ≡ Some [] }
        ensures held { result.held ≡ None }
    {
        Wire {
            link,
            reader: FrameReader::new(alloc),
            held: None,
        }
    }

    /// Reads the next frame, and waits until it has come.
    ///
    /// `LinkDown` where the link was down before it had come whole: no whole frame is left unread then. `BadFrame` where what
    /// came is no frame; after that the wire gives none. `OutOfMemory` where memory ran out: nothing is lost then. It costs a copy of what
    /// came, and of the frame.
    pub fn read_frame<R: Wait>(&mut self, rt: &R, alloc: Global) -> Result<Frame, Snag>
        requires count { (L.tells self.old.link).downs + 1 < 2 ^ 64 }
        requires unread { IsSome (wire_of L.tells self.old).unread }
        ensures { ReadsFrame (wire_of L.tells self.old) result (wire_of L.tells self.new) }
    {
        for _ in rt.forever() {
            match self.reader.next_frame() {
                Ok(found) => match found {
                    Some(frame) => return Ok(frame),
                    None => match self.receive(alloc) {
                        Ok(()) => {}
                        Err(snag) => return Err(snag),
                    },
                },
                Err(fault) => return Err(snag_of_reader(fault)),
            }
        }
        unreachable!()
    }

    /// Hands more bytes to the reader: what is held, or else a piece that is received.
    fn receive(&mut self, alloc: Global) -> Result<(), Snag>
        requires count { (L.tells self.old.link).downs + 1 < 2 ^ 64 }
        requires unread { IsSome (wire_of L.tells self.old).unread }
        ensures reads { ReadsPiece (wire_of L.tells self.old) result (wire_of L.tells self.new) }
        ensures down { result ≡ Err Snag.LinkDown → HandsNothing self.old self.new }
    {
        match self.held.take() {
            Some(piece) => self.feed(piece),
            None => match self.link.receive(alloc) {
                Ok(piece) => self.feed(piece),
                Err(fault) => Err(snag_of_link(fault)),
            },
        }
    }

    /// Hands a piece to the reader, or holds it where there is no memory for it.
    fn feed(&mut self, piece: Vec<u8>) -> Result<(), Snag>
        requires reader { IsSome self.old.reader }
        requires held { self.old.held ≡ None }
        ensures { Hands self.old piece result self.new }
    {
        match self.reader.feed(&piece) {
            Ok(()) => Ok(()),
            Err(_) => {
                self.held = Some(piece);
                Err(Snag::OutOfMemory)
            }
        }
    }

    /// Sends a request. `LinkDown` where the link was down; `TooLong` where more than 8,388,608 bytes would follow its
    /// length; `OutOfMemory` otherwise. It costs a copy of its bytes.
    pub fn send_ask(&mut self, alloc: Global, ask: &Ask) -> Result<(), Snag>
        requires count { (L.tells self.old.link).downs + 1 < 2 ^ 64 }
        requires unread { IsSome (wire_of L.tells self.old).unread }
        ensures written { WritesFrame (wire_of L.tells self.old) (frame.Ask ask.now) result (wire_of L.tells self.new) }
        ensures too_long { (result ≡ Err Snag.TooLong) ↔ (MAX_REST_BYTES < length (rest_bytes 2 (frame.Ask ask.now))) }
    {
        match encode_ask(alloc, ask) {
            Ok(bytes) => self.send_bytes(alloc, &bytes),
            Err(fault) => Err(snag_of_encoding(fault)),
        }
    }

    /// Sends a record. `LinkDown` where the link was down, `OutOfMemory` where memory ran out.
    pub fn send_record(&mut self, alloc: Global, sent: &Record) -> Result<(), Snag>
        requires count { (L.tells self.old.link).downs + 1 < 2 ^ 64 }
        requires unread { IsSome (wire_of L.tells self.old).unread }
        ensures written { WritesFrame (wire_of L.tells self.old) (frame.Record sent.now) result (wire_of L.tells self.new) }
        ensures short { result ≢ Err Snag.TooLong }
    {
        match encode_record(alloc, sent) {
            Ok(bytes) => self.send_bytes(alloc, &bytes),
            Err(fault) => Err(snag_of_encoding(fault)),
        }
    }

    /// Sends a receipt. `LinkDown` where the link was down, `OutOfMemory` where memory ran out.
    pub fn send_receipt(&mut self, alloc: Global, receipt: &Receipt) -> Result<(), Snag>
        requires count { (L.tells self.old.link).downs + 1 < 2 ^ 64 }
        requires unread { IsSome (wire_of L.tells self.old).unread }
        ensures written { WritesFrame (wire_of L.tells self.old) (frame.Receipt receipt.now) result (wire_of L.tells self.new) }
        ensures short { result ≢ Err Snag.TooLong }
    {
        match encode_receipt(alloc, receipt) {
            Ok(bytes) => self.send_bytes(alloc, &bytes),
            Err(fault) => Err(snag_of_encoding(fault)),
        }
    }

    /// Sends the bytes of a frame.
    fn send_bytes(&mut self, alloc: Global, bytes: &[u8]) -> Result<(), Snag>
        requires count { (L.tells self.old.link).downs + 1 < 2 ^ 64 }
        requires unread { IsSome (wire_of L.tells self.old).unread }
        ensures written { (format : ℕ) (f : Frame) → Spells format f bytes.now
            → WritesFrame (wire_of L.tells self.old) f result (wire_of L.tells self.new) }
        ensures short { result ≢ Err Snag.TooLong }
    {
        match self.link.send(alloc, bytes) {
            Ok(()) => Ok(()),
            Err(fault) => Err(snag_of_link(fault)),
        }
    }
}
