//! The two ends of a tap.
ghost use Rattle.std.specs.Prelude.{◌≡◌, [], ◌∷◌, ◌++◌, true, false, MatchOption, OnOk, IfErr};
ghost use Rattle.crossbeam_queue.specs.Passes.{IsPassOf, ruled_capacity};
ghost use Rattle.mr_lane.specs.Tap.{tap_sight_of, with_item, with_end, WasFull, HandsBack, Draws};
ghost use Rattle.mr_lane.specs.inner.Tap.{EndsWithWaiting};

use crate::fault::{FinishFault, SendFault};
use crate::piece::Piece;
use crate::tap_rule::{Offers, Takes, TapQueue, TapSight};
use crossbeam_queue::Pass;
use std::alloc::Global;
use std::marker::Model;
use std::sync::{Arc, Wait};

/// What a take of a tap gives.
#[derive(Debug, PartialEq, Eq, Drop)]
pub enum Drawn<T> {
    /// The first item that waited.
    Item(T),
    /// Nothing waited, and the tap is not known to be closed.
    Empty,
    /// The tap is closed, and each item was taken.
    Closed,
}

/// The end of a tap that offers. It keeps the right to wait that the tap was made with.
#[derive(Drop)]
pub struct Spout<T, R> {
    pub(crate) rt: R,
    pub(crate) queue: Arc<TapQueue<T>, Global>,
    pub(crate) pass: Pass<Piece<T>, TapSight<T>>,
    pub(crate) closed: bool,
}

impl<T, R> Model for Spout<T, R> {
    ghost use Rattle.std.specs.Arc.{arc_value};
    ghost use Rattle.crossbeam_queue.specs.Passes.{IsPassOf, ruled_capacity};
    ghost use Rattle.mr_lane.specs.Piece.{items_of};
    ghost use Rattle.mr_lane.specs.Tap.{TapEnd, IsOfferer, tap_sight_of};

    ghost Value = { TapEnd T };

    ghost view = { λ s. record {
      id = s.pass.table_id;
      capacity = ruled_capacity (arc_value s.queue);
      passed = items_of (tap_sight_of s.pass).offered;
      closed = s.closed;
    } };

    ghost invariant = { λ s.
        IsPassOf (arc_value s.queue) s.pass × IsOfferer (tap_sight_of s.pass) s.closed };
}

/// The end of a tap that takes. It keeps the right to wait that the tap was made with.
#[derive(Drop)]
pub struct Tap<T, R> {
    pub(crate) rt: R,
    pub(crate) queue: Arc<TapQueue<T>, Global>,
    pub(crate) pass: Pass<Piece<T>, TapSight<T>>,
    pub(crate) closed: bool,
}

impl<T, R> Model for Tap<T, R> {
    ghost use Rattle.std.specs.Arc.{arc_value};
    ghost use Rattle.crossbeam_queue.specs.Passes.{IsPassOf, ruled_capacity};
    ghost use Rattle.mr_lane.specs.Piece.{items_of};
    ghost use Rattle.mr_lane.specs.Tap.{TapEnd, IsTaker, tap_sight_of};

    ghost Value = { TapEnd T };

    ghost view = { λ t. record {
      id = t.pass.table_id;
      capacity = ruled_capacity (arc_value t.queue);
      passed = items_of (tap_sight_of t.pass).taken;
      closed = t.closed;
    } };

    ghost invariant = { λ t.
        IsPassOf (arc_value t.queue) t.pass × IsTaker (tap_sight_of t.pass) t.closed };
}

impl<T: Drop, R: Wait> Spout<T, R> {
    /// Puts an item behind what waits.
    ///
    /// A closed spout hands it back as `Ended`. Where the tap is full at one moment of the call,
    /// the item comes back as `Full`. In both cases nothing has changed.
    pub fn offer(&mut self, item: T) -> Result<(), SendFault<T>>
        ensures ok { OnOk result (
            (self.old.closed ≡ false) × (self.new ≡ with_item self.old item)) }
        ensures err { IfErr result (λ fault.
            (self.new ≡ self.old) × HandsBack self.old item fault) }
        ensures id { self.new.id ≡ self.old.id }
    {
        if self.closed {
            return Err(SendFault::Ended(item));
        }
        match put(&self.rt, &self.queue, &mut self.pass, Piece::Item(item)) {
            Ok(()) => return Ok(()),
            Err(Piece::Item(item)) => return Err(SendFault::Full(item)),
            Err(Piece::End) => unreachable!(),
        }
    }

    /// Puts the end mark behind what waits; it takes a place. A closed spout stays closed.
    ///
    /// Where the tap is full at one moment of the call, `Full` is answered and nothing has
    /// changed.
    pub fn close(&mut self) -> Result<(), FinishFault>
        ensures ok { OnOk result (self.new ≡ with_end self.old) }
        ensures err { IfErr result (λ _.
            (self.new ≡ self.old) × (self.old.closed ≡ false) × WasFull self.old) }
        ensures id { self.new.id ≡ self.old.id }
    {
        if self.closed {
            return Ok(());
        }
        match put(&self.rt, &self.queue, &mut self.pass, Piece::End) {
            Ok(()) => {
                self.closed = true;
                return Ok(());
            }
            Err(_) => return Err(FinishFault::Full),
        }
    }
}

impl<T: Drop, R: Wait> Tap<T, R> {
    /// Takes the first item that waits. `Empty` is answered only where nothing waited at one
    /// moment of the call, and `Closed` once the end mark was taken, then and at every later call.
    pub fn take(&mut self) -> Drawn<T>
        ensures drawn { Draws self.old result self.new }
        ensures id { self.new.id ≡ self.old.id }
    {
        if self.closed {
            return Drawn::Closed;
        }
        match get(&self.rt, &self.queue, &mut self.pass) {
            None => return Drawn::Empty,
            Some(Piece::Item(item)) => return Drawn::Item(item),
            Some(Piece::End) => {
                self.closed = true;
                return Drawn::Closed;
            }
        }
    }
}

/// Puts a piece at the back. It comes back only where the queue was full.
fn put<T: Drop, R: Wait>(
    rt: &R,
    queue: &TapQueue<T>,
    pass: &mut Pass<Piece<T>, TapSight<T>>,
    piece: Piece<T>,
) -> Result<(), Piece<T>>
    requires pass { IsPassOf queue.now pass.old }
    requires may { (tap_sight_of pass.old).offers ≡ true }
    ensures pass { IsPassOf queue.now pass.new × (pass.new.table_id ≡ pass.old.table_id) }
    ensures may { (tap_sight_of pass.new).offers ≡ true }
    ensures ok { OnOk result (
        (tap_sight_of pass.new).offered ≡ (tap_sight_of pass.old).offered ++ piece ∷ []) }
    ensures err { IfErr result (λ p.
        (p ≡ piece)
        × ((tap_sight_of pass.new).offered ≡ (tap_sight_of pass.old).offered)
        × EndsWithWaiting (tap_sight_of pass.old).offered (ruled_capacity queue.now)) }
{
    queue.push_as::<Offers, R>(rt, pass, piece)
}

/// Takes the piece at the front. There is none only where the queue was empty.
fn get<T: Drop, R: Wait>(
    rt: &R,
    queue: &TapQueue<T>,
    pass: &mut Pass<Piece<T>, TapSight<T>>,
) -> Option<Piece<T>>
    requires pass { IsPassOf queue.now pass.old }
    requires may { (tap_sight_of pass.old).takes ≡ true }
    ensures pass { IsPassOf queue.now pass.new × (pass.new.table_id ≡ pass.old.table_id) }
    ensures may { (tap_sight_of pass.new).takes ≡ true }
    ensures got { MatchOption result
        ((tap_sight_of pass.new).taken ≡ (tap_sight_of pass.old).taken)
        (λ p. (tap_sight_of pass.new).taken ≡ (tap_sight_of pass.old).taken ++ p ∷ []) }
{
    queue.pop_as::<Takes, R>(rt, pass)
}
