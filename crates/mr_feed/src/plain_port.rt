//! A port of one owner.
ghost use Rattle.std.specs.Prelude.{◌≡◌, ◌+◌, ◌++◌, ◌∷◌, [], ◌≤◌, ◌<◌, ◌⊎◌, ◌↔◌, length, false, true, IsTrue, IsFalse, IsOk, IfOk, OnOk, OnErr, Err};
ghost use Rattle.std.specs.VecDeque.{deque_len, deque_capacity};
ghost use Rattle.mr_feed.specs.Port.{Offers, Closes, Takes, taken_entries};
ghost use Rattle.mr_feed.specs.PlainPort.{PortView, plain_gave, plain_took, plain_ended, plain_full, plain_done, plain_empty};
ghost use Rattle.mr_feed.specs.PlainPort.{plain_gave_none, plain_gave_more, plain_took_none, plain_took_more};

use crate::entry::Entry;
use crate::port::{MAX_CAPACITY, Port, PortIn, PortOut, Taken};
use crate::port_fault::{CloseFault, OfferFault, PortFault};
use std::alloc::{AllocError, Global};
use std::collections::VecDeque;
use std::marker::Model;

/// A port whose places are reserved as it is made, so that no call of it needs memory. Its close mark
/// takes no place.
#[derive(Debug, Drop)]
pub struct PlainPort {
    waiting: VecDeque<Entry>,
    capacity: usize,
    closed: bool,
}

impl Model for PlainPort {
    ghost use Rattle.std.specs.Prelude.{◌≡◌, ◌≤◌};
    ghost use Rattle.std.specs.VecDeque.{deque_len, deque_capacity};
    ghost use Rattle.mr_feed.specs.PlainPort.{PortView};
    ghost use Rattle.mr_feed.specs.declared.port.TheConstants.{MAX_CAPACITY};

    ghost Value = { PortView };

    ghost view = { λ p. record { waiting = p.waiting.items; capacity = p.capacity; closed = p.closed } };

    ghost invariant = { λ p. (deque_len p.waiting ≤ p.capacity) × (deque_capacity p.waiting ≡ p.capacity) × (1 ≤ p.capacity) × (p.capacity ≤ MAX_CAPACITY) };
}

impl PlainPort {
    /// A port with this many places, 1 to 4,096; `NoCapacity` for other numbers.
    pub fn try_new(alloc: Global, capacity: usize) -> Result<PlainPort, PortFault>
        ensures ok { IfOk result (λ port. port ≡ record { waiting = []; capacity = capacity; closed = false }) }
        ensures no_capacity { (result ≡ Err PortFault.NoCapacity) ↔ ((capacity ≡ 0) ⊎ (MAX_CAPACITY < capacity)) }
    {
        if capacity == 0 || capacity > MAX_CAPACITY {
            return Err(PortFault::NoCapacity);
        }
        Ok(PlainPort {
            waiting: VecDeque::with_capacity(alloc, capacity)?,
            capacity,
            closed: false,
        })
    }

    /// How many places there are, 1 to 4,096.
    pub fn capacity(&self) -> usize
        ensures value { result ≡ self.now.capacity }
        ensures in_range { (1 ≤ self.now.capacity) × (self.now.capacity ≤ MAX_CAPACITY) }
    {
        self.capacity
    }

    /// Whether it was closed.
    pub fn is_closed(&self) -> bool
        ensures { result ≡ self.now.closed }
    {
        self.closed
    }

    /// How many entries wait, no more than there are places.
    pub fn len(&self) -> usize
        ensures value { result ≡ length self.now.waiting }
        ensures fits { length self.now.waiting ≤ self.now.capacity }
    {
        self.waiting.len()
    }

    /// Whether no entry waits.
    pub fn is_empty(&self) -> bool
        ensures { IsTrue result ↔ (self.now.waiting ≡ []) }
    {
        self.waiting.is_empty()
    }

    /// An equal port.
    pub fn copy(&self) -> Result<PlainPort, AllocError>
        ensures { IfOk result (λ port. port ≡ self.now) }
    {
        let alloc = *self.waiting.allocator();
        let mut waiting = VecDeque::with_capacity(alloc, self.capacity)?;
        let (first, rest) = self.waiting.as_slices();
        append_copies(&mut waiting, first)?;
        append_copies(&mut waiting, rest)?;
        Ok(PlainPort {
            waiting,
            capacity: self.capacity,
            closed: self.closed,
        })
    }
}

/// Puts equal entries behind those that wait, where there is room for them.
fn append_copies(waiting: &mut VecDeque<Entry>, entries: &[Entry]) -> Result<(), AllocError>
    requires { deque_len waiting.old + length entries.now ≤ deque_capacity waiting.old }
    ensures ok { OnOk result (waiting.new.items ≡ waiting.old.items ++ entries.now) }
    ensures capacity { deque_capacity waiting.new ≡ deque_capacity waiting.old }
{
    for entry in entries {
        waiting.push_back_reserved(entry.copy()?);
    }
    Ok(())
}

impl PortIn for PlainPort {
    ghost gave = { plain_gave };

    ghost is_ended = { plain_ended };

    ghost was_full = { plain_full };

    ghost gave_none = { plain_gave_none };

    ghost gave_more = { plain_gave_more };

    fn offer(&mut self, entry: Entry) -> Result<(), OfferFault>
        ensures offers { Offers plain_gave plain_ended plain_full self.old entry result self.new }
        ensures ok { OnOk result (self.new ≡ record self.old { waiting = self.old.waiting ++ entry ∷ [] }) }
        ensures ended { (result ≡ Err (OfferFault.Ended entry)) ↔ IsTrue self.old.closed }
        ensures full { (result ≡ Err (OfferFault.Full entry)) ↔ (IsFalse self.old.closed × (length self.old.waiting ≡ self.old.capacity)) }
        ensures err { OnErr result (self.new ≡ self.old) }
    {
        if self.closed {
            return Err(OfferFault::Ended(entry));
        }
        if self.waiting.len() >= self.capacity {
            return Err(OfferFault::Full(entry));
        }
        self.waiting.push_back_reserved(entry);
        Ok(())
    }

    fn close(&mut self) -> Result<(), CloseFault>
        ensures closes { Closes plain_gave plain_ended plain_full self.old result self.new }
        ensures ok { IsOk result }
        ensures closed { self.new ≡ record self.old { closed = true } }
    {
        self.closed = true;
        Ok(())
    }
}

impl PortOut for PlainPort {
    ghost took = { plain_took };

    ghost is_done = { plain_done };

    ghost was_empty = { plain_empty };

    ghost took_none = { plain_took_none };

    ghost took_more = { plain_took_more };

    fn take(&mut self) -> Taken
        ensures takes { Takes plain_took plain_done plain_empty self.old result self.new }
        ensures first { self.old.waiting ≡ taken_entries result ++ self.new.waiting }
        ensures empty { (result ≡ Taken.Empty) ↔ ((self.old.waiting ≡ []) × IsFalse self.old.closed) }
        ensures closed { (result ≡ Taken.Closed) ↔ ((self.old.waiting ≡ []) × IsTrue self.old.closed) }
        ensures others { self.new ≡ record self.old { waiting = self.new.waiting } }
    {
        match self.waiting.pop_front() {
            Some(entry) => Taken::Entry(entry),
            None if self.closed => Taken::Closed,
            None => Taken::Empty,
        }
    }
}

impl Port for PlainPort {
    ghost waiting = { λ port. port.waiting };

    ghost offers_last = { λ s xs t h. h.0 };

    ghost takes_first = { λ s xs t h. h.0 };
}
