//! What a node's link has to do.
ghost use Rattle.std.specs.Prelude.{◌≡◌, ◌<◌, ◌+◌, ◌^◌, IfOk, length};
ghost use Rattle.mr_link.specs.Link.{LinkView, Sends, Receives, with_hang_up};
ghost use Rattle.mr_link.specs.Fault.{link_number};

use std::alloc::Global;
use thiserror::Error;

/// Why a link sent or received nothing.
#[derive(Clone, Copy, Debug, PartialEq, Eq, Drop, Error)]
pub enum LinkFault {
    /// Memory ran out. Nothing was sent or received, and the call may be made again.
    #[error("out of memory")]
    OutOfMemory,
    /// The link is down.
    #[error("the link is down")]
    LinkDown,
}

impl LinkFault {
    /// The fault's number: 0 where memory ran out, 1 where the link is down.
    pub fn number(self) -> u8
        ensures { result ≡ link_number self }
    {
        match self {
            LinkFault::OutOfMemory => 0,
            LinkFault::LinkDown => 1,
        }
    }
}

/// One end of a stream of bytes in each direction.
///
/// It counts how often a call found it down, and may tell what it sent and received: where it tells that, it tells all
/// of it, in order.
pub trait Link: Drop {
    /// What it tells.
    ghost tells: { Self → LinkView };

    /// It told this when it was hung up at this end. Nothing but `hang_up` says so, and no other call keeps it: whoever owes it for
    /// what the link tells in the end has hung up behind all of that.
    ghost hung_up_at: { Self → LinkView → Type 0 } = { λ _ _. Unit {0} };

    /// Sends all the bytes, or none. Of no bytes it sends nothing.
    fn send(&mut self, alloc: Global, bytes: &[u8]) -> Result<(), LinkFault>
        requires count { (tells self.old).downs + 1 < 2 ^ 64 }
        ensures sends { Sends (tells self.old) bytes.now result (tells self.new) };

    /// Some bytes of the stream, as many as it likes, and at least one: so who reads until something has come gets on with each call, or
    /// is told that the link is down.
    fn receive(&mut self, alloc: Global) -> Result<Vec<u8>, LinkFault>
        requires count { (tells self.old).downs + 1 < 2 ^ 64 }
        ensures receives { Receives (tells self.old) result (tells self.new) }
        ensures some { IfOk result (λ piece. 0 < length piece.items) };

    /// Ends the link, so that nobody waits at its other end. What it sent and received stays the same.
    fn hang_up(&mut self)
        ensures hung_up { tells self.new ≡ with_hang_up (tells self.old) }
        ensures told { hung_up_at self.new (tells self.old) }
        ensures kept { (l : LinkView) → hung_up_at self.old l → hung_up_at self.new l };
}
