//! What one subscriber of a replica is told: its port, and how far the feed was offered to it.
ghost use Rattle.std.specs.Prelude.{◌≡◌, IfOk, OnErr};
ghost use Rattle.mr_world.specs.Ports.{Offers, Takes, Closes};
ghost use Rattle.mr_world.specs.inner.TakenAnswer.{answer_taken};

use crate::answer::Answer;
use mr_feed::{Entry, PlainPort, PortIn, PortOut, Taken};
use std::alloc::AllocError;
use std::marker::Model;

/// A port to a subscriber, to which the first entries of a feed were offered.
#[derive(Drop)]
pub struct Outlet {
    port: PlainPort,
    offered: usize,
}

impl Model for Outlet {
    ghost use Rattle.mr_world.specs.Ports.{Port};

    ghost Value = { Port };

    ghost view = { λ o. record { view = o.port; offered = o.offered } };
}

impl Outlet {
    /// An outlet to which nothing was offered.
    pub fn new(port: PlainPort) -> Outlet
        ensures { result ≡ record { view = port; offered = 0 } }
    {
        Outlet { port, offered: 0 }
    }

    /// Puts the feed's next entry behind those that wait; or answers that the port is closed, that the
    /// whole feed was offered, or that the port is full, in this order. It costs two copies of the entry.
    pub fn offer(&mut self, feed: &[Entry]) -> Result<Answer, AllocError>
        ensures ok { IfOk result (λ answer. Offers feed.now self.old answer self.new) }
        ensures err { OnErr result (self.new ≡ self.old) }
    {
        if self.port.is_closed() {
            return Ok(Answer::Closed);
        }
        let Some(entry) = feed.get(self.offered) else {
            return Ok(Answer::NothingNew);
        };
        if self.port.len() >= self.port.capacity() {
            return Ok(Answer::Full);
        }
        let told = entry.copy()?;
        match self.port.offer(entry.copy()?) {
            Ok(()) => {
                self.offered += 1;
                Ok(Answer::Offered(told))
            }
            Err(_) => unreachable!(),
        }
    }

    /// Takes the first entry that waits.
    pub fn take(&mut self) -> Answer
        ensures { Takes self.old result self.new }
    {
        let taken = self.port.take();
        answer_of(taken)
    }

    /// Closes the port. What waits may still be taken.
    pub fn close(&mut self) -> Answer
        ensures { Closes self.old result self.new }
    {
        // whether it was open makes no difference
        let _ = self.port.close();
        Answer::Done
    }
}

// What a take answers.
fn answer_of(taken: Taken) -> Answer
    ensures { result ≡ answer_taken taken }
{
    match taken {
        Taken::Entry(entry) => Answer::TookEntry(entry),
        Taken::Empty => Answer::Empty,
        Taken::Closed => Answer::Closed,
    }
}
