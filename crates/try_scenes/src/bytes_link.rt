//! A link that gives bytes one by one, and keeps what is sent.
ghost use Rattle.std.specs.Prelude.{◌≡◌, ◌<◌, None, IfOk, length};

use crate::strange::{Strange, What};
use mr_link::{Link, LinkFault};
use std::alloc::Global;

/// A link that receives these bytes one by one, and keeps what is sent.
#[derive(Drop)]
pub struct BytesLink {
    pub bytes: Vec<u8>,
    pub given: usize,
    pub sent: Vec<u8>,
    pub calls: u64,
    pub strange: Strange,
    pub downs: u64,
    pub hung_up: bool,
}

impl BytesLink {
    /// A link that receives these bytes.
    pub fn new(alloc: Global, bytes: Vec<u8>, strange: Strange) -> BytesLink
        ensures { result.downs ≡ 0 }
    {
        BytesLink {
            bytes,
            given: 0,
            sent: Vec::new(alloc),
            calls: 0,
            strange,
            downs: 0,
            hung_up: false,
        }
    }

    /// What the next call does.
    fn next_call(&mut self) -> What
        ensures downs { self.new.downs ≡ self.old.downs }
        ensures hung_up { self.new.hung_up ≡ self.old.hung_up }
    {
        let call = self.calls;
        self.calls = call.saturating_add(1);
        self.strange.at_call(call)
    }

    /// The next byte, as a piece. There is none at the end.
    fn next_piece(&mut self, alloc: Global) -> Result<Vec<u8>, LinkFault>
        ensures some { IfOk result (λ piece. 0 < length piece.items) }
        ensures downs { self.new.downs ≡ self.old.downs }
        ensures hung_up { self.new.hung_up ≡ self.old.hung_up }
    {
        let Some(byte) = self.bytes.get(self.given) else {
            return Err(LinkFault::LinkDown);
        };
        let Ok(piece) = Vec::from_slice(alloc, &[*byte]) else {
            return Err(LinkFault::OutOfMemory);
        };
        self.given = self.given.saturating_add(1);
        Ok(piece)
    }
}

impl Link for BytesLink {
    ghost tells = { λ s. record { received = None; sent = None; downs = s.downs; hung_up = s.hung_up } };

    fn send(&mut self, _alloc: Global, bytes: &[u8]) -> Result<(), LinkFault> {
        match self.next_call() {
            What::Starves => Err(LinkFault::OutOfMemory),
            What::Fails => {
                self.downs += 1;
                Err(LinkFault::LinkDown)
            }
            _ => match self.sent.extend_from_slice(bytes) {
                Ok(()) => Ok(()),
                Err(_) => Err(LinkFault::OutOfMemory),
            },
        }
    }

    fn receive(&mut self, alloc: Global) -> Result<Vec<u8>, LinkFault> {
        let came = match self.next_call() {
            What::Starves => Err(LinkFault::OutOfMemory),
            What::Fails => Err(LinkFault::LinkDown),
            _ => self.next_piece(alloc),
        };
        if let Err(LinkFault::LinkDown) = &came {
            self.downs += 1;
        }
        came
    }

    fn hang_up(&mut self) {
        self.hung_up = true;
    }
}
