//! The two halves of a port: one is offered entries, the other gives them.
//!
//! A half says what it keeps by itself, as a relation between two of its states: `gave` and `took`
//! name the entries that passed between them. A port is both halves in one value, and ties them: what
//! is offered stands behind what waits, and what is taken is the first of it.
ghost use Rattle.std.specs.Prelude.{◌≡◌, List, [], ◌++◌, Bool, IfOk};
ghost use Rattle.mr_feed.specs.declared.entry.Entry.{Entry};
ghost use Rattle.mr_feed.specs.Port.{Offers, Closes, Takes, Move, all_offered, all_taken, Leads};

use crate::entry::Entry;
use crate::port_fault::{CloseFault, OfferFault};
use std::alloc::AllocError;

/// The most entries that a port or a lane has places for.
pub const MAX_CAPACITY: usize = 4096;

/// What a take gives.
#[derive(Debug, Drop)]
pub enum Taken {
    /// The first entry that waited.
    Entry(Entry),
    /// Nothing waits, and the port is not closed.
    Empty,
    /// The port is closed, and nothing waits.
    Closed,
}

impl Taken {
    /// An equal answer.
    pub fn copy(&self) -> Result<Taken, AllocError>
        ensures { IfOk result (λ taken. taken ≡ self.now) }
    {
        match self {
            Taken::Entry(entry) => Ok(Taken::Entry(entry.copy()?)),
            Taken::Empty => Ok(Taken::Empty),
            Taken::Closed => Ok(Taken::Closed),
        }
    }
}

/// The half of a port that is offered entries.
pub trait PortIn {
    /// Between the two states just these entries were offered.
    ghost gave: { Self → List Entry → Self → Type 0 };

    /// Whether it was closed.
    ghost is_ended: { Self → Bool };

    /// A call that found this state may have found the port full.
    ghost was_full: { Self → Type 0 };

    /// Puts an entry behind what waits.
    ///
    /// A closed port hands it back as `Ended`, a full one as `Full`; then nothing has changed.
    fn offer(&mut self, entry: Entry) -> Result<(), OfferFault>
        ensures offers { Offers gave is_ended was_full self.old entry result self.new };

    /// Ends the offers. A closed port stays closed.
    ///
    /// `Full` where the port has no place for the mark of its end, and then nothing has changed; never of a port
    /// whose mark takes no place.
    fn close(&mut self) -> Result<(), CloseFault>
        ensures closes { Closes gave is_ended was_full self.old result self.new };

    ghost gave_none: { (s : Self) → gave s [] s };

    ghost gave_more: { (s : Self) (xs : List Entry) (t : Self) (ys : List Entry) (u : Self) → gave s xs t → gave t ys u → gave s (xs ++ ys) u };
}

/// The half of a port that gives entries.
pub trait PortOut {
    /// Between the two states just these entries were taken.
    ghost took: { Self → List Entry → Self → Type 0 };

    /// Whether the close was seen, so that nothing comes any more.
    ghost is_done: { Self → Bool };

    /// A call that found this state may have found that nothing waits.
    ghost was_empty: { Self → Type 0 };

    /// Takes the first entry that waits.
    fn take(&mut self) -> Taken
        ensures takes { Takes took is_done was_empty self.old result self.new };

    ghost took_none: { (s : Self) → took s [] s };

    ghost took_more: { (s : Self) (xs : List Entry) (t : Self) (ys : List Entry) (u : Self) → took s xs t → took t ys u → took s (xs ++ ys) u };
}

/// Both halves in one value.
pub trait Port: PortIn + PortOut {
    /// The entries that were offered and not taken, the first one first.
    ghost waiting: { Self → List Entry };

    ghost offers_last: { (s : Self) (xs : List Entry) (t : Self) → Self.gave s xs t → waiting t ≡ waiting s ++ xs };

    ghost takes_first: { (s : Self) (xs : List Entry) (t : Self) → Self.took s xs t → waiting s ≡ xs ++ waiting t };
}

/// Over any calls of a port: what was taken, and then what waits, is what waited at first, and then
/// what was offered.
pub fn first_in_first_out<P: Port>()
    ensures { (s t : P) (moves : List Move) → Leads P.gave P.took s moves t →
        all_taken moves ++ P.waiting t ≡ P.waiting s ++ all_offered moves }
{}
