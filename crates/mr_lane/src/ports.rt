//! The ends of a tap of entries as the halves of a port.
ghost use Rattle.std.specs.Prelude.{⊤};
ghost use Rattle.mr_lane.specs.Tap.{WasFull};
ghost use Rattle.mr_lane.specs.TapPort.{Passed, is_closed, passed_none, passed_more};

use crate::fault::{FinishFault, SendFault};
use crate::tap_ends::{Drawn, Spout, Tap};
use mr_feed::{CloseFault, Entry, OfferFault, PortIn, PortOut, Taken};
use std::sync::Wait;

impl<R: Wait> PortIn for Spout<Entry, R> {
    ghost gave = { Passed };

    ghost is_ended = { is_closed };

    ghost was_full = { WasFull };

    ghost gave_none = { passed_none };

    ghost gave_more = { passed_more };

    fn offer(&mut self, entry: Entry) -> Result<(), OfferFault> {
        match Spout::offer(self, entry) {
            Ok(()) => return Ok(()),
            Err(SendFault::Full(entry)) => return Err(OfferFault::Full(entry)),
            Err(SendFault::Ended(entry)) => return Err(OfferFault::Ended(entry)),
        }
    }

    fn close(&mut self) -> Result<(), CloseFault> {
        match Spout::close(self) {
            Ok(()) => return Ok(()),
            Err(FinishFault::Full) => return Err(CloseFault::Full),
        }
    }
}

impl<R: Wait> PortOut for Tap<Entry, R> {
    ghost took = { Passed };

    ghost is_done = { is_closed };

    // that the tap was empty says nothing of what this end knows
    ghost was_empty = { λ _. ⊤ };

    ghost took_none = { passed_none };

    ghost took_more = { passed_more };

    fn take(&mut self) -> Taken {
        match Tap::take(self) {
            Drawn::Item(entry) => return Taken::Entry(entry),
            Drawn::Empty => return Taken::Empty,
            Drawn::Closed => return Taken::Closed,
        }
    }
}
