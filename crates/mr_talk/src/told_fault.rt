//! How a host's fault is told to the other side.
ghost use Rattle.std.specs.Prelude.{◌≡◌, drop, IfErr, IfOk, IsUtf8, MatchOption};
ghost use Rattle.mr_talk.specs.declared.fault.MessageFault.TheVariants.{OutOfMemory};
ghost use Rattle.mr_talk.specs.declared.kind.Kind.TheVariants.{Fault};
ghost use Rattle.mr_talk.specs.Fault.{told_number};

use crate::fault::MessageFault;
use crate::kind::{Kind, MAX_FAULT_BYTES};
use crate::message::Message;
use crate::side::HostFault;
use std::alloc::Global;
use std::error::Error;
use std::marker::Model;
use std::{fmt, str};

/// The most bytes of a fault's text, behind the two of its number.
const MAX_TEXT_BYTES: usize = MAX_FAULT_BYTES as usize - 2;

/// What the other side said of its host's fault: the number in two bytes, the higher one first, and a text.
#[derive(Debug, Drop)]
pub struct ToldFault {
    bytes: Vec<u8>,
}

impl Model for ToldFault {
    ghost use Rattle.std.specs.Prelude.{ℕ, List};

    ghost Value = { List ℕ };

    ghost view = { λ f. f.bytes.items };
}

impl ToldFault {
    /// A fault that was told in these bytes.
    pub(crate) fn new(bytes: Vec<u8>) -> ToldFault
        ensures { result ≡ bytes.items }
    {
        ToldFault { bytes }
    }

    /// The number that the other side's host has for it, or `None` where fewer than two bytes were told.
    pub fn number(&self) -> Option<u16>
        ensures { result ≡ told_number self.now }
    {
        let (number, _) = self.bytes.split_first_chunk::<2>()?;
        Some(u16::from_be_bytes(*number))
    }

    /// What a person reads, or `None` where it is no text in UTF-8. It was written elsewhere, and may be of any kind.
    pub fn text(&self) -> Option<&str>
        ensures { MatchOption result (IsUtf8 (drop 2 self.now) → ⊥) (λ text. text.now ≡ drop 2 self.now) }
    {
        let text = self.bytes.get(2..).unwrap_or_default();
        str::from_utf8(text).ok()
    }
}

impl fmt::Display for ToldFault {
    fn fmt<W: fmt::Write>(&self, f: &mut fmt::Formatter<W>) -> fmt::Result {
        match self.text() {
            Some(text) => write!(f, "told: the other side ended the talk: {text}"),
            None => write!(f, "told: the other side ended the talk"),
        }
    }
}

impl Error for ToldFault {}

/// The message that tells a host's fault: its number, and as many whole characters of its text as a message has room for.
pub(crate) fn fault_message(alloc: Global, fault: &HostFault) -> Result<Message, MessageFault>
    ensures kind { IfOk result (λ m. m.kind ≡ Fault) }
    ensures fault { IfErr result (λ fault. fault ≡ OutOfMemory) }
{
    let text = fault.text.as_str();
    let end = text.floor_char_boundary(MAX_TEXT_BYTES);
    let mut bytes = Vec::new(alloc);
    bytes.extend_from_slice(&fault.number.to_be_bytes())?;
    bytes.extend_from_slice(text[..end].as_bytes())?;
    Message::new(Kind::Fault, bytes)
}
