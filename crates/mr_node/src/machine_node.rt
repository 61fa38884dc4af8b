//! A node of any machine that takes the letters of a replica.
ghost use Rattle.std.specs.Prelude.{◌≡◌, ◌<◌, ◌+◌, ◌^◌, ◌⊎◌, ◌↔◌, true, IfOk, IfErr, Err};
ghost use Rattle.mr_feed.specs.declared.port.TheConstants.{MAX_CAPACITY};
ghost use Rattle.mr_node.specs.Node.{NodeRan};
ghost use Rattle.mr_node.specs.Thread.{IsHungUpLast};

use crate::node::{NodeEnd, NodeFault, NodeParts, run_parts};
use crate::replica_machine::Answer;
use mr_feed::MAX_CAPACITY;
use mr_link::{Gate, Link};
use mr_replica::Event;
use mr_threads::Machine;
use std::alloc::Global;
use std::sync::Wait;
use std::thread::Threads;

/// Runs a node whose core is this machine, in place of the replica alone that [`run_node`](crate::run_node) runs: it takes the
/// same letters, and its answers are a replica's. All else is as there, the costs and the faults too.
///
/// What an answer stands for is the machine's own: that nothing leaves the core before the machine has it on a disk, say.
/// A letter is answered as soon as `take` gives the answer, and then what is new in `feed` is told.
pub fn run_machine_node<
    C: Machine<Event, Answer> + Drop + Send,
    L: Link + Send,
    M: Link + Send,
    G: Gate + Sync,
    R: Threads + Wait + Sync + Send + Copy,
>(
    rt: &R,
    alloc: Global,
    parts: NodeParts<C, L, M>,
    gate: &G,
    capacity: usize,
) -> Result<(NodeEnd<C>, L, M), NodeFault<C, L, M>>
    requires first_count { (L.tells parts.first_link.link).downs + 1 < 2 ^ 64 }
    requires second_count { (M.tells parts.second_link.link).downs + 1 < 2 ^ 64 }
    ensures ran { IfOk result (λ r. NodeRan C.steps C.feed_of L.tells M.tells (G.closes gate.now) (G.has_let gate.now) parts r.0 r.1 r.2) }
    ensures hung_up { IfOk result (λ r. ((L.tells r.1).hung_up ≡ true) × ((M.tells r.2).hung_up ≡ true)) }
    ensures hung_up_last { IfOk result (λ r. IsHungUpLast L.tells L.hung_up_at parts.first_link.link r.1 × IsHungUpLast M.tells M.hung_up_at parts.second_link.link r.2) }
    ensures capacity { IfOk result (λ r. r.0.capacity ≡ capacity) }
    ensures no_capacity { (result ≡ Err (NodeFault.NoCapacity parts)) ↔ ((capacity ≡ 0) ⊎ (MAX_CAPACITY < capacity)) }
    ensures fault { IfErr result (λ fault. (fault ≡ NodeFault.OutOfMemory) ⊎ (fault ≡ NodeFault.NoCapacity parts)) }
{
    if capacity == 0 || capacity > MAX_CAPACITY {
        return Err(NodeFault::NoCapacity(parts));
    }
    match run_parts(rt, alloc, parts, gate, capacity) {
        Some(ran) => Ok(ran),
        None => Err(NodeFault::OutOfMemory),
    }
}
