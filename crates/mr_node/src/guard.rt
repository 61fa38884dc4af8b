//! The gate before a link's records.
ghost use Rattle.std.specs.Prelude.{◌≡◌, ◌+◌, IfOk, OnOk, IsFalse, IsTrue};
ghost use Rattle.mr_node.specs.Saying.{one_if_receive};

use mr_lane::Sender;
use mr_link::Gate;
use mr_replica::Event;
use mr_threads::Halt;

/// A gate, the link before whose records it stands, and how many of them were posted.
#[derive(Drop)]
pub(crate) struct Guard<'g, G> {
    pub gate: &'g G,
    pub link: Sender,
    pub posted: u64,
}

impl<'g, G: Gate> Guard<'g, G> {
    /// Whether the next record may pass. More records than a `u64` counts don't come.
    pub(crate) fn lets_pass(&self) -> Result<bool, Halt>
        ensures may_close { IfOk result (λ may. IsFalse may → IsTrue (G.closes self.now.gate.now self.now.link (self.now.posted + 1))) }
        ensures has_let { IfOk result (λ may. IsTrue may → G.has_let self.now.gate.now self.now.link (self.now.posted + 1)) }
    {
        match self.posted.checked_add(1) {
            Some(record) => Ok(self.gate.pass(self.link, record)),
            None => Err(Halt::OutOfMemory),
        }
    }

    /// Counts so many Receives.
    pub(crate) fn count(&mut self, receives: u64) -> Result<(), Halt>
        ensures posted { OnOk result (self.new.posted ≡ self.old.posted + receives) }
        ensures gate { self.new.gate ≡ self.old.gate }
        ensures link { self.new.link ≡ self.old.link }
    {
        match self.posted.checked_add(receives) {
            Some(posted) => {
                self.posted = posted;
                Ok(())
            }
            None => Err(Halt::OutOfMemory),
        }
    }
}

/// 1 for a Receive, and 0 for any other letter.
pub(crate) fn one_if_receive(letter: &Event) -> u64
    ensures { result ≡ one_if_receive letter.now }
{
    match letter {
        Event::Receive(_) => 1,
        _ => 0,
    }
}
