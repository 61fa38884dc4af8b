//! Links over lanes that do something strange.
ghost use Rattle.std.specs.Prelude.{◌≡◌, ◌<◌, ◌+◌, None, IfOk, length};

use crate::strange::{Strange, What};
use mr_link::{LaneLink, Link, LinkFault};
use std::alloc::Global;
use std::sync::Wait;

/// An end of a link over lanes that does such a thing; or, without lanes, one that is always down.
#[derive(Drop)]
pub struct StrangeLink<R> {
    pub lane: Option<LaneLink<R>>,
    pub strange: Strange,
    pub calls: u64,
    pub kept: Option<Vec<u8>>,
    pub downs: u64,
    pub hung_up: bool,
}

impl<R> StrangeLink<R> {
    /// An end over this lane.
    pub fn new(lane: Option<LaneLink<R>>, strange: Strange) -> StrangeLink<R>
        ensures { result.downs ≡ 0 }
    {
        StrangeLink {
            lane,
            strange,
            calls: 0,
            kept: None,
            downs: 0,
            hung_up: false,
        }
    }

    /// The number of a call that begins.
    fn next_call(&mut self) -> u64
        ensures downs { self.new.downs ≡ self.old.downs }
        ensures hung_up { self.new.hung_up ≡ self.old.hung_up }
    {
        let call = self.calls;
        self.calls = call.saturating_add(1);
        call
    }
}

/// How often a call over a lane finds it down before no further one is made: a link's count needs room for one more.
const MOST_DOWNS: u64 = 9;

/// Sends over the lane.
pub fn send_over<R: Wait + Copy>(
    lane: &mut Option<LaneLink<R>>,
    alloc: Global,
    bytes: &[u8],
) -> Result<(), LinkFault> {
    match lane {
        Some(lane) if lane.downs() < MOST_DOWNS => lane.send(alloc, bytes),
        _ => Err(LinkFault::LinkDown),
    }
}

/// Receives a piece over the lane.
pub fn receive_over<R: Wait + Copy>(
    lane: &mut Option<LaneLink<R>>,
    alloc: Global,
) -> Result<Vec<u8>, LinkFault>
    ensures { IfOk result (λ piece. 0 < length piece.items) }
{
    match lane {
        Some(lane) if lane.downs() < MOST_DOWNS => lane.receive(alloc),
        _ => Err(LinkFault::LinkDown),
    }
}

/// The piece, with each `H` made a `J`.
fn spoilt(mut piece: Vec<u8>) -> Vec<u8>
    ensures { length result.items ≡ length piece.items }
{
    for byte in piece.as_mut_slice() {
        if *byte == b'H' {
            *byte = b'J';
        }
    }
    piece
}

impl<R: Wait + Copy> StrangeLink<R> {
    /// The piece that this call receives.
    fn piece(&mut self, alloc: Global) -> Result<Vec<u8>, LinkFault>
        ensures some { IfOk result (λ piece. 0 < length piece.items) }
        ensures downs { self.new.downs ≡ self.old.downs }
        ensures hung_up { self.new.hung_up ≡ self.old.hung_up }
    {
        let call = self.next_call();
        if let Some(kept) = self.kept.take()
            && !kept.is_empty()
        {
            return Ok(kept);
        }
        match self.strange.at_call(call) {
            What::Fails => return Err(LinkFault::LinkDown),
            What::Starves => return Err(LinkFault::OutOfMemory),
            _ => {}
        }
        let piece = receive_over(&mut self.lane, alloc)?;
        match self.strange.at_piece(call, &piece) {
            What::Repeats => {
                self.kept = Vec::from_slice(alloc, &piece).ok();
                Ok(piece)
            }
            What::Swaps => {
                self.kept = Some(piece);
                receive_over(&mut self.lane, alloc)
            }
            What::Spoils => Ok(spoilt(piece)),
            _ => Ok(piece),
        }
    }
}

impl<R: Wait + Copy> Link for StrangeLink<R> {
    ghost tells = { λ s. record { received = None; sent = None; downs = s.downs; hung_up = s.hung_up } };

    fn send(&mut self, alloc: Global, bytes: &[u8]) -> Result<(), LinkFault> {
        let call = self.next_call();
        let sent = match self.strange.at_call(call) {
            What::Fails => Err(LinkFault::LinkDown),
            What::Starves => Err(LinkFault::OutOfMemory),
            _ => send_over(&mut self.lane, alloc, bytes),
        };
        if sent == Err(LinkFault::LinkDown) {
            self.downs += 1;
        }
        sent
    }

    fn receive(&mut self, alloc: Global) -> Result<Vec<u8>, LinkFault> {
        match self.piece(alloc) {
            Ok(piece) => Ok(piece),
            Err(LinkFault::OutOfMemory) => Err(LinkFault::OutOfMemory),
            Err(LinkFault::LinkDown) => {
                self.downs += 1;
                Err(LinkFault::LinkDown)
            }
        }
    }

    fn hang_up(&mut self) {
        self.hung_up = true;
        if let Some(lane) = &mut self.lane {
            lane.hang_up();
        }
    }
}
