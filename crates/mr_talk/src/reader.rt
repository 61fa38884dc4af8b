//! The reader of a stream of messages.
ghost use Rattle.std.specs.Prelude.{◌≡◌, IfOk, IfSome, IfNone, Some, None, [], MatchBool};
ghost use Rattle.mr_talk.specs.Stream.{IsPart};
ghost use Rattle.mr_talk.specs.inner.Stream.{Takes};

use crate::fault::MessageFault;
use crate::message::{Message, decode};
use bytes::BytesMut;
use std::alloc::Global;
use std::marker::Model;

/// Gives the messages that the bytes fed to it spell, however these were cut.
///
/// It has what was fed behind the messages that it gave: at most a part of one message where `next_message` has answered
/// `None` and nothing was fed since. No room is made for bytes that a length only promises. Fed bytes are copied once, and
/// those of a message once more.
#[derive(Drop)]
pub struct MessageReader {
    /// What was fed and not yet given; nothing once the stream has had a fault.
    rest: Option<BytesMut>,
}

impl Model for MessageReader {
    ghost use Rattle.std.specs.Prelude.{ℕ, List, Option};
    ghost use Rattle.std.specs.Prelude.{option_map};

    ghost Value = { Option (List ℕ) };

    ghost view = { λ r. option_map (λ b. b.items) r.rest };
}

impl MessageReader {
    ghost use Rattle.mr_talk.specs.Reader.{Feeds, Nexts, ending};

    /// A reader that was fed nothing. It takes no memory.
    pub fn new(alloc: Global) -> MessageReader
        ensures { result ≡ Some [] }
    {
        MessageReader {
            rest: Some(BytesMut::new(alloc)),
        }
    }

    /// Takes the next piece of the stream, of whatever length.
    ///
    /// `Failed` where the stream has had a fault. Where there is no memory the piece is not taken, and may be fed again.
    pub fn feed(&mut self, piece: &[u8]) -> Result<(), MessageFault>
        ensures { Feeds self.old piece.now result self.new }
    {
        let Some(rest) = &mut self.rest else {
            return Err(MessageFault::Failed);
        };
        rest.extend_from_slice(piece)?;
        Ok(())
    }

    /// The next message of the stream, or `None` where more bytes have to be fed first.
    ///
    /// `BadKind` and `TooLong` are those of [`decode`] for the bytes that are not given yet, told as soon as the kind and
    /// the length are there; from then on every call answers `Failed`. Where there is no memory for the message nothing
    /// has changed, and the call may be made again.
    pub fn next_message(&mut self) -> Result<Option<Message>, MessageFault>
        ensures exact { Nexts self.old result self.new }
        ensures part { IfOk result (λ found. IfNone found (IfSome self.new IsPart)) }
    {
        let Some(rest) = &mut self.rest else {
            return Err(MessageFault::Failed);
        };
        match take_message(rest) {
            Ok(message) => Ok(message),
            Err(MessageFault::OutOfMemory) => Err(MessageFault::OutOfMemory),
            Err(fault) => {
                self.rest = None;
                Err(fault)
            }
        }
    }

    /// Whether nothing is left behind the messages that were given, and the stream had no fault.
    pub fn is_between(&self) -> bool
        ensures { MatchBool result (self.now ≡ Some []) (self.now ≡ Some [] → ⊥) }
    {
        match &self.rest {
            Some(rest) => rest.is_empty(),
            None => false,
        }
    }

    /// Gives the stream up, where bytes of it are lost: every later call answers `Failed`.
    pub fn fail(&mut self)
        ensures { self.new ≡ None }
    {
        self.rest = None;
    }

    /// Ends the stream: there are no more bytes to be fed.
    ///
    /// `Truncated` where bytes are left behind the messages that were given, `Failed` where the stream has had a fault.
    pub fn finish(self) -> Result<(), MessageFault>
        ensures { result ≡ ending self }
    {
        match &self.rest {
            None => Err(MessageFault::Failed),
            Some(rest) if rest.is_empty() => Ok(()),
            Some(_) => Err(MessageFault::Truncated),
        }
    }
}

/// Takes the first message from the rest, or nothing where it lacks its end.
fn take_message(rest: &mut BytesMut) -> Result<Option<Message>, MessageFault>
    ensures exact { Takes rest.old.items result rest.new.items }
    ensures part { IfOk result (λ found. IfNone found (IsPart rest.new.items)) }
{
    match decode(*rest.allocator(), rest.as_slice()) {
        Ok((message, used)) => {
            rest.advance(used);
            Ok(Some(message))
        }
        Err(MessageFault::Truncated) => Ok(None),
        Err(fault) => Err(fault),
    }
}
