//! Gates that hold records back.
ghost use Rattle.std.specs.Prelude.{true};

use mr_lane::Sender;
use mr_link::Gate;
use std::sync::atomic::{AtomicU64, Ordering};
use std::thread;

/// What the gate of a node does.
#[derive(Clone, Copy)]
pub enum GateKind {
    /// It lets all pass: an [`mr_link::OpenGate`].
    Open,
    /// It closes before the record of this number of each link.
    ShutsAt(u64),
    /// It lets the records of two links cross: the first link's second waits until the second link has come with its
    /// second, and the second link's third until the first has come with its third. Where that takes too long, it closes.
    Crosses,
}

/// A gate that may close, and how far both links have come.
#[derive(Drop)]
pub struct SceneGate {
    kind: GateKind,
    first: AtomicU64,
    second: AtomicU64,
}

impl SceneGate {
    /// A gate of this kind.
    pub fn new(kind: GateKind) -> SceneGate {
        SceneGate {
            kind,
            first: AtomicU64::new(0),
            second: AtomicU64::new(0),
        }
    }

    /// Whether the record may pass where records cross.
    fn crosses(&self, link: Sender, number: u64) -> bool {
        match link {
            Sender::FirstLink => {
                self.first.store(number, Ordering::SeqCst);
                number != 2 || have_come(&self.second, 2)
            }
            Sender::SecondLink => {
                self.second.store(number, Ordering::SeqCst);
                number != 3 || have_come(&self.first, 3)
            }
            Sender::User => true,
        }
    }
}

/// How often a gate looks, with a yield behind each look, before it gives up.
const LOOKS: u32 = 10_000_000;

/// Waits until that many records have come, and says whether they have.
fn have_come(count: &AtomicU64, wanted: u64) -> bool {
    for _ in 0..LOOKS {
        if count.load(Ordering::SeqCst) >= wanted {
            return true;
        }
        thread::yield_now();
    }
    false
}

impl Gate for SceneGate {
    ghost closes = { λ _ _ _. true };

    ghost has_let = { λ _ _ _. Unit {0} };

    fn pass(&self, link: Sender, number: u64) -> bool {
        match self.kind {
            GateKind::Open => true,
            GateKind::ShutsAt(shut) => number != shut,
            GateKind::Crosses => self.crosses(link, number),
        }
    }

    fn may_close(&self, _link: Sender, _number: u64) -> bool {
        true
    }
}
