//! Two links of one process, joined by two lanes.
ghost use Rattle.std.specs.Prelude.{◌≡◌, ◌<◌, ◌+◌, ◌^◌, ◌⊎◌, ◌↔◌, [], IfOk, IsErr, Err, length, true};
ghost use Rattle.mr_feed.specs.declared.port.TheConstants.{MAX_CAPACITY};
ghost use Rattle.mr_link.specs.Link.{Sends, Receives, with_hang_up};
ghost use Rattle.mr_link.specs.LaneLink.{AreEnds, AreJoined, AreSettled, SameEnd, lane_tells};
ghost use Rattle.mr_link.specs.inner.LaneLink.{IsEndOf, is_down};

use crate::chunk::{Chunk, chunk_of};
use crate::link::{Link, LinkFault};
use crossbeam_utils::CachePadded;
use mr_lane::{Drawn, LaneFault, SendFault, Spout, Tap, tap, tap_settle};
use std::alloc::Global;
use std::marker::Model;
use std::sync::atomic::{AtomicBool, Ordering};
use std::sync::{Arc, Wait};
use std::thread;

/// Set once an end has hung up. Both ends share it.
type HungUp = Arc<CachePadded<AtomicBool>, Global>;

/// One end of a link between two parts of one process. It keeps the right to wait that it was made with, and tells all
/// that it sent and received.
///
/// A send waits until its bytes have a place, and a receive until there are any. After a `hang_up` of either end each
/// send is `LinkDown`, and so is a receive once nothing waits: what was sent before is received after it. Of no bytes a send sends
/// nothing, and takes no place.
#[derive(Drop)]
pub struct LaneLink<R> {
    rt: R,
    spout: Spout<Chunk, R>,
    tap: Tap<Chunk, R>,
    hung_up: HungUp,
    downs: u64,
    has_hung_up: bool,
}

impl<R> Model for LaneLink<R> {
    ghost use Rattle.mr_link.specs.LaneLink.{LaneEnd, bytes_in};
    ghost use Rattle.std.specs.Prelude.{Some};

    ghost Value = { LaneEnd };

    ghost view = { λ l. record {
      sends_to = l.spout.id;
      receives_from = l.tap.id;
      capacity = l.spout.capacity;
      tells = record {
        received = Some (bytes_in l.tap.passed);
        sent = Some (bytes_in l.spout.passed);
        downs = l.downs;
        hung_up = l.has_hung_up;
      };
    } };
}

impl<R> LaneLink<R> {
    /// How often a call found the link down.
    pub fn downs(&self) -> u64
        ensures { result ≡ self.now.tells.downs }
    {
        self.downs
    }
}

impl<R: Wait> LaneLink<R> {
    /// Whether an end has hung up: this one, or the other.
    fn is_hung_up(&self) -> bool
        ensures { (lane_tells self.now).hung_up ≡ true → result ≡ true }
    {
        if self.has_hung_up {
            return true;
        }
        let flag: &AtomicBool = &self.hung_up;
        flag.load(Ordering::SeqCst)
    }

    /// Sends no byte, which needs no place.
    fn send_nothing(&mut self) -> Result<(), LinkFault>
        requires count { (lane_tells self.old).downs + 1 < 2 ^ 64 }
        ensures sends { Sends (lane_tells self.old) [] result (lane_tells self.new) }
        ensures ended { (lane_tells self.old).hung_up ≡ true → IsErr result }
        ensures same { SameEnd self.old self.new }
    {
        if self.is_hung_up() {
            return Err(self.found_down());
        }
        Ok(())
    }

    /// Counts that the link was found down.
    fn found_down(&mut self) -> LinkFault
        requires { self.old.tells.downs + 1 < 2 ^ 64 }
        ensures down { self.new ≡ is_down self.old }
        ensures fault { result ≡ LinkFault.LinkDown }
    {
        self.downs += 1;
        LinkFault::LinkDown
    }
}

impl<R: Wait + Copy> Link for LaneLink<R> {
    ghost tells = { lane_tells };

    fn send(&mut self, alloc: Global, bytes: &[u8]) -> Result<(), LinkFault>
        requires count { (lane_tells self.old).downs + 1 < 2 ^ 64 }
        ensures sends { Sends (lane_tells self.old) bytes.now result (lane_tells self.new) }
        ensures ended { (lane_tells self.old).hung_up ≡ true → IsErr result }
        ensures same { SameEnd self.old self.new }
    {
        if bytes.is_empty() {
            return self.send_nothing();
        }
        let Ok(mut piece) = Vec::from_slice(alloc, bytes) else {
            return Err(LinkFault::OutOfMemory);
        };
        let rt = self.rt;
        for _ in rt.forever() {
            if self.is_hung_up() {
                return Err(self.found_down());
            }
            match self.spout.offer(chunk_of(piece)) {
                Ok(()) => return Ok(()),
                Err(SendFault::Full(back)) => {
                    piece = back.bytes;
                    thread::yield_now();
                }
                Err(SendFault::Ended(_)) => return Err(self.found_down()),
            }
        }
        unreachable!()
    }

    fn receive(&mut self, _alloc: Global) -> Result<Vec<u8>, LinkFault>
        requires count { (lane_tells self.old).downs + 1 < 2 ^ 64 }
        ensures receives { Receives (lane_tells self.old) result (lane_tells self.new) }
        ensures some { IfOk result (λ piece. 0 < length piece.items) }
        ensures same { SameEnd self.old self.new }
    {
        let rt = self.rt;
        for _ in rt.forever() {
            let hung_up = self.is_hung_up();
            match self.tap.take() {
                Drawn::Item(piece) => return Ok(piece.bytes),
                Drawn::Closed => return Err(self.found_down()),
                Drawn::Empty => {}
            }
            if hung_up {
                return Err(self.found_down());
            }
            thread::yield_now();
        }
        unreachable!()
    }

    fn hang_up(&mut self)
        ensures hung_up { lane_tells self.new ≡ with_hang_up (lane_tells self.old) }
        ensures same { SameEnd self.old self.new }
    {
        self.has_hung_up = true;
        let flag: &AtomicBool = &self.hung_up;
        flag.store(true, Ordering::SeqCst);
    }
}

/// Two ends of a link, each with this many places for pieces that wait, 1 to 4,096; `NoCapacity` for other numbers.
/// What either sends the other receives.
pub fn lane_link<R: Wait + Copy>(
    rt: R,
    alloc: Global,
    capacity: usize,
) -> Result<(LaneLink<R>, LaneLink<R>), LaneFault>
    ensures ok { IfOk result (λ two. AreJoined capacity two.0 two.1) }
    ensures no_capacity { (result ≡ Err LaneFault.NoCapacity) ↔ ((capacity ≡ 0) ⊎ (MAX_CAPACITY < capacity)) }
{
    let (here_spout, there_tap) = tap(rt, alloc, capacity)?;
    let (there_spout, here_tap) = tap(rt, alloc, capacity)?;
    let flag = Arc::new(alloc, CachePadded::new(AtomicBool::new(false)))?;
    let shared = Arc::try_clone(&flag)?;
    let here = new_end(rt, here_spout, here_tap, flag);
    let there = new_end(rt, there_spout, there_tap, shared);
    Ok((here, there))
}

/// Puts both ends of a link together, which uses them up: what either received is a beginning of what the other sent.
pub fn link_settle<R: Wait + Copy>(here: LaneLink<R>, there: LaneLink<R>)
    requires { AreEnds here there }
    ensures { AreSettled here there }
{
    let LaneLink {
        spout: here_spout,
        tap: here_tap,
        ..
    } = here;
    let LaneLink {
        spout: there_spout,
        tap: there_tap,
        ..
    } = there;
    tap_settle(here_spout, there_tap);
    tap_settle(there_spout, here_tap);
}

/// An end over these lanes, over which nothing has passed.
fn new_end<R>(rt: R, spout: Spout<Chunk, R>, tap: Tap<Chunk, R>, hung_up: HungUp) -> LaneLink<R>
    requires sent { spout.passed ≡ [] }
    requires received { tap.passed ≡ [] }
    ensures { IsEndOf spout tap result }
{
    LaneLink {
        rt,
        spout,
        tap,
        hung_up,
        downs: 0,
        has_hung_up: false,
    }
}
