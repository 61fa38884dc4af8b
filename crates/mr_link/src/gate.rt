//! Gates before a link's records.
ghost use Rattle.std.specs.Prelude.{◌≡◌, ℕ, Bool, false, IsFalse, IsTrue};
ghost use Rattle.mr_lane.specs.declared.note.Sender.{Sender};

use mr_lane::Sender;

/// Lets the records of a node's links pass, one by one, in threads of their own. A link's received records count from 1.
pub trait Gate {
    /// Before which record of which link it may close. It is a function of the gate alone, so it never changes.
    ghost closes: { Self → Sender → ℕ → Bool };

    /// It has let this record of this link pass. Nothing but a `pass` that answers true says so: whoever owes it for a record has
    /// asked the gate about that one.
    ghost has_let: { Self → Sender → ℕ → Type 0 };

    /// Waits at this record as long as it likes, and answers whether it may pass. Where it may not, the gate is one
    /// that may close here.
    fn pass(&self, link: Sender, number: u64) -> bool
        ensures pass { IsFalse result → IsTrue (closes self.now link number) }
        ensures has_let { IsTrue result → has_let self.now link number };

    /// Whether the gate may close before this record.
    fn may_close(&self, link: Sender, number: u64) -> bool
        ensures may { result ≡ closes self.now link number };
}

/// A gate that lets everything pass.
#[derive(Clone, Copy, Debug)]
pub struct OpenGate;

impl Gate for OpenGate {
    ghost closes = { λ _ _ _. false };

    ghost has_let = { λ _ _ _. Unit {0} };

    fn pass(&self, _link: Sender, _number: u64) -> bool {
        true
    }

    fn may_close(&self, _link: Sender, _number: u64) -> bool {
        false
    }
}
