//! The start of nodes that wait for one another, so that none runs unless all have a thread.
use std::sync::atomic::{AtomicU64, Ordering};
use std::thread;

const UNDECIDED: u64 = 0;

const RUN: u64 = 1;

const GIVE_UP: u64 = 2;

/// How often one looks, with a yield behind each look, before all give up.
const LOOKS: u32 = 10_000_000;

/// How many are to start, how many have come, and what was decided.
#[derive(Drop)]
pub struct Start {
    all: u64,
    come: AtomicU64,
    decision: AtomicU64,
}

impl Start {
    /// A start of so many.
    pub fn new(all: u64) -> Start {
        Start {
            all,
            come: AtomicU64::new(0),
            decision: AtomicU64::new(UNDECIDED),
        }
    }

    /// Waits until all have come, and says whether they have. All who wait get one answer.
    pub fn wait(&self) -> bool {
        let before = self.come.fetch_add(1, Ordering::SeqCst);
        if before.saturating_add(1) >= self.all {
            self.decide(RUN);
        }
        self.look();
        self.decide(GIVE_UP);
        self.decision.load(Ordering::SeqCst) == RUN
    }

    /// Looks until there is a decision, or long enough.
    fn look(&self) {
        for _ in 0..LOOKS {
            if self.decision.load(Ordering::SeqCst) != UNDECIDED {
                return;
            }
            thread::yield_now();
        }
    }

    /// Decides, where nobody has.
    fn decide(&self, decision: u64) {
        let _ = self
            .decision
            .compare_exchange(UNDECIDED, decision, Ordering::SeqCst, Ordering::SeqCst);
    }
}
