//! What the program above writes beside the events.
ghost use Rattle.std.specs.Prelude.{◌≡◌};

use std::marker::Model;

/// Bytes of the program above, with a kind byte of its own. They mean nothing here.
#[derive(Debug, Drop)]
pub struct Note {
    kind: u8,
    bytes: Vec<u8>,
}

impl Model for Note {
    ghost use Rattle.std.specs.Prelude.{◌<◌};
    ghost use Rattle.mr_entry.specs.Note.{NoteParts};

    ghost Value = { NoteParts };

    ghost view = { λ n. record { kind = n.kind; bytes = n.bytes.items } };

    ghost invariant = { λ n. n.kind < 256 };
}

impl Note {
    /// The note of this kind with these bytes, which are moved.
    pub fn new(kind: u8, bytes: Vec<u8>) -> Note
        ensures { result ≡ record { kind = kind; bytes = bytes.items } }
    {
        Note { kind, bytes }
    }

    /// The kind byte.
    pub fn kind(&self) -> u8
        ensures { result ≡ self.now.kind }
    {
        self.kind
    }

    /// The bytes behind it.
    pub fn bytes(&self) -> &[u8]
        ensures { result.now ≡ self.now.bytes }
    {
        &self.bytes
    }
}
