//! What a turn does next.
ghost use Rattle.std.specs.Prelude.{◌≡◌, ◌≢◌, ◌<◌, ◌+◌, ◌^◌, Bool, List, IsSome, IfOk};
ghost use Rattle.mr_link.specs.Wire.{wire_of};
ghost use Rattle.mr_node.specs.Saying.{Saying};
ghost use Rattle.mr_node.specs.inner.Turn.{progress_of};
ghost use Rattle.mr_node.specs.inner.Step.{Fetches, LetsMove, Moves, ReadsLetter, unread};
ghost use Rattle.mr_node.specs.declared.turn.Turn.TheVariants as turn;

use crate::guard::Guard;
use crate::progress::{Opened, Progress};
use crate::turn::{Stop, Turn};
use mr_link::{Gate, Link, Snag, Wire};
use mr_replica::Event;
use mr_threads::Halt;
use mr_wire::Frame;
use std::alloc::Global;
use std::sync::Wait;

/// What a turn does next.
#[derive(Drop)]
pub(crate) enum Move {
    /// It says this letter.
    Say(Event),
    /// It has no more to say.
    Done,
    /// It stops.
    Stop(Stop),
}

/// The next letter of a turn that has come so far. A letter that is made of a frame waits until that has come.
pub(crate) fn next_move<L: Link, G: Gate, R: Wait>(
    rt: &R,
    alloc: Global,
    wire: &mut Wire<L>,
    guard: &Guard<'_, G>,
    turn: &Turn,
    progress: Progress,
) -> Result<Move, Halt>
    requires count { (L.tells wire.old.link).downs + 1 < 2 ^ 64 }
    requires unread { IsSome (wire_of L.tells wire.old).unread }
    ensures moves { (xs : List Saying) → progress ≡ progress_of xs → IfOk result (λ m. Moves (G.closes guard.now.gate.now guard.now.link (guard.now.posted + 1)) turn.now xs (wire_of L.tells wire.old) m (wire_of L.tells wire.new)) }
    ensures reads { IfOk result (λ m. ReadsLetter (wire_of L.tells wire.old) m (wire_of L.tells wire.new)) }
    ensures let_pass { IfOk result (λ m. LetsMove (G.has_let guard.now.gate.now guard.now.link (guard.now.posted + 1)) m) }
{
    match turn {
        Turn::Pull => {
            if progress.over {
                Ok(Move::Done)
            } else if progress.said == 0 {
                Ok(Move::Say(Event::Pull))
            } else {
                fetch_record(rt, alloc, wire, guard)
            }
        }
        Turn::Serve => {
            if progress.over {
                Ok(Move::Done)
            } else if progress.said == 0 {
                fetch_request(rt, alloc, wire)
            } else {
                match progress.opened {
                    Opened::Stream(stream) => Ok(Move::Say(Event::Next(stream))),
                    _ => Err(Halt::Strange),
                }
            }
        }
        Turn::Grant(versions) => {
            if progress.said == versions.len() {
                return Ok(Move::Done);
            }
            match versions.get(progress.said) {
                Some(version) => Ok(Move::Say(Event::Vouch(*version))),
                None => Err(Halt::Strange),
            }
        }
        Turn::Redeem(count) => {
            if progress.said as u64 == *count {
                Ok(Move::Done)
            } else {
                fetch_receipt(rt, alloc, wire, *count)
            }
        }
    }
}

/// Reads a record, and lets it pass the gate.
fn fetch_record<L: Link, G: Gate, R: Wait>(
    rt: &R,
    alloc: Global,
    wire: &mut Wire<L>,
    guard: &Guard<'_, G>,
) -> Result<Move, Halt>
    requires count { (L.tells wire.old.link).downs + 1 < 2 ^ 64 }
    requires unread { IsSome (wire_of L.tells wire.old).unread }
    ensures fetches { IfOk result (λ m. Fetches (G.closes guard.now.gate.now guard.now.link (guard.now.posted + 1)) turn.Pull (wire_of L.tells wire.old) m (wire_of L.tells wire.new)) }
    ensures let_pass { IfOk result (λ m. LetsMove (G.has_let guard.now.gate.now guard.now.link (guard.now.posted + 1)) m) }
{
    match wire.read_frame(rt, alloc) {
        Ok(frame) => {
            if guard.lets_pass()? {
                Ok(Move::Say(Event::Receive(frame)))
            } else {
                Ok(Move::Stop(Stop::Shut))
            }
        }
        Err(snag) => unread(snag),
    }
}

/// Reads a request.
fn fetch_request<L: Link, R: Wait>(rt: &R, alloc: Global, wire: &mut Wire<L>) -> Result<Move, Halt>
    requires count { (L.tells wire.old.link).downs + 1 < 2 ^ 64 }
    requires unread { IsSome (wire_of L.tells wire.old).unread }
    ensures { (may_close : Bool) → IfOk result (λ m. Fetches may_close turn.Serve (wire_of L.tells wire.old) m (wire_of L.tells wire.new)) }
{
    match wire.read_frame(rt, alloc) {
        Ok(frame) => match frame {
            Frame::Ask(ask) => Ok(Move::Say(Event::Answer(ask))),
            Frame::Record(_) => Ok(Move::Stop(Stop::BadFrame)),
            Frame::Receipt(_) => Ok(Move::Stop(Stop::BadFrame)),
        },
        Err(snag) => unread(snag),
    }
}

/// Reads a receipt.
fn fetch_receipt<L: Link, R: Wait>(
    rt: &R,
    alloc: Global,
    wire: &mut Wire<L>,
    count: u64,
) -> Result<Move, Halt>
    requires count { (L.tells wire.old.link).downs + 1 < 2 ^ 64 }
    requires unread { IsSome (wire_of L.tells wire.old).unread }
    ensures { (may_close : Bool) → IfOk result (λ m. Fetches may_close (turn.Redeem count) (wire_of L.tells wire.old) m (wire_of L.tells wire.new)) }
{
    match wire.read_frame(rt, alloc) {
        Ok(frame) => match frame {
            Frame::Receipt(receipt) => Ok(Move::Say(Event::Release(receipt))),
            Frame::Record(_) => Ok(Move::Stop(Stop::BadFrame)),
            Frame::Ask(_) => Ok(Move::Stop(Stop::BadFrame)),
        },
        Err(snag) => unread(snag),
    }
}

/// What it means that no frame came. A frame that is too long is only sent.
fn unread(snag: Snag) -> Result<Move, Halt>
    requires { snag ≢ Snag.TooLong }
    ensures { result ≡ unread snag }
{
    match snag {
        Snag::OutOfMemory => Err(Halt::OutOfMemory),
        Snag::LinkDown => Ok(Move::Stop(Stop::NotReceived)),
        Snag::BadFrame => Ok(Move::Stop(Stop::BadFrame)),
        Snag::TooLong => unreachable!(),
    }
}
