//! A running node over a kept replica.
ghost use Rattle.std.specs.Prelude.{◌≡◌, ◌<◌, ◌+◌, ◌^◌, ◌⊎◌, ◌↔◌, true, IfOk, IfErr, Err};
ghost use Rattle.mr_feed.specs.declared.port.TheConstants.{MAX_CAPACITY};
ghost use Rattle.mr_replica.specs.Replay.{IsItsLog};
ghost use Rattle.mr_kept.specs.Kept.{nothing_waits, replica_of};
ghost use Rattle.mr_node.specs.Thread.{IsHungUpLast};
ghost use Rattle.mr_kept_node.specs.Node.{KeptNodeRan, in_machine};

use crate::machine::KeptMachine;
use mr_feed::MAX_CAPACITY;
use mr_forms::Knowledge;
use mr_journal::Device;
use mr_kept::Journaled;
use mr_link::{Gate, Link};
use mr_node::{NodeEnd, NodeFault, NodeParts, run_machine_node};
use std::alloc::Global;
use std::sync::Wait;
use std::thread::Threads;

/// Runs a node over a kept replica, as `run_node` runs one over a replica alone: until its user has said all, its links have
/// taken their turns or stopped, and the replica has answered everything.
///
/// Each letter is an event and a commit, and its answer is given once it is kept, as are the frame that a link makes of it and
/// what is new in the feed. So the journal has at each moment the events that were answered, and a crash leaves them. The commit
/// is of one letter, two syncs, since the core answers a letter before it takes the next.
///
/// Nothing may wait for a commit as it begins (`is_kept`). Where a commit is refused, `fault` at the end says why: the core has
/// told nothing of that letter and answers it, and each behind it, by `OutOfMemory`. What waits then is the letter's event; the
/// replica comes back with it, and but for `Failed` its `commit` may be tried again. An event that is too large to be kept
/// is answered so too, and nothing has changed.
///
/// `NoCapacity` comes before anything else, and hands all parts back. `OutOfMemory` comes where a growth was refused outside a
/// step, or a thread could not be made, once all threads have ended and both links have hung up; what was answered is kept then too,
/// and the journal is opened again. That the call returns is not promised: a link may wait for ever, and a gate too.
pub fn run_kept_node<
    K: Knowledge<Vector: Send> + Send,
    D: Device + Drop + Send,
    L: Link + Send,
    M: Link + Send,
    G: Gate + Sync,
    R: Threads + Wait + Sync + Send + Copy,
>(
    rt: &R,
    alloc: Global,
    parts: NodeParts<Journaled<K, D>, L, M>,
    gate: &G,
    capacity: usize,
) -> Result<(NodeEnd<KeptMachine<K, D>>, L, M), NodeFault<Journaled<K, D>, L, M>>
    requires first_count { (L.tells parts.first_link.link).downs + 1 < 2 ^ 64 }
    requires second_count { (M.tells parts.second_link.link).downs + 1 < 2 ^ 64 }
    requires all_kept { nothing_waits parts.replica ≡ true }
    ensures ran { IfOk result (λ r. KeptNodeRan K.form D.Device L.tells M.tells (G.closes gate.now) (G.has_let gate.now) parts r.0 r.1 r.2) }
    ensures hung_up { IfOk result (λ r. ((L.tells r.1).hung_up ≡ true) × ((M.tells r.2).hung_up ≡ true)) }
    ensures hung_up_last { IfOk result (λ r. IsHungUpLast L.tells L.hung_up_at parts.first_link.link r.1 × IsHungUpLast M.tells M.hung_up_at parts.second_link.link r.2) }
    ensures capacity { IfOk result (λ r. r.0.capacity ≡ capacity) }
    ensures no_capacity { (result ≡ Err (NodeFault.NoCapacity parts)) ↔ ((capacity ≡ 0) ⊎ (MAX_CAPACITY < capacity)) }
    ensures fault { IfErr result (λ fault. (fault ≡ NodeFault.OutOfMemory) ⊎ (fault ≡ NodeFault.NoCapacity parts)) }
{
    if capacity == 0 || capacity > MAX_CAPACITY {
        return Err(NodeFault::NoCapacity(parts));
    }
    match run_machine_node(rt, alloc, in_machine(parts), gate, capacity) {
        Ok(ran) => Ok(ran),
        Err(_) => Err(NodeFault::OutOfMemory),
    }
}

/// The same parts, with the replica in its machine.
fn in_machine<K: Knowledge, D: Device + Drop, L, M>(
    parts: NodeParts<Journaled<K, D>, L, M>,
) -> NodeParts<KeptMachine<K, D>, L, M>
    ensures is { result ≡ in_machine parts }
    ensures is_its_log { IsItsLog K.form (replica_of parts.replica) }
{
    let NodeParts {
        replica,
        events,
        first_link,
        second_link,
    } = parts;
    NodeParts {
        replica: KeptMachine::new(replica),
        events,
        first_link,
        second_link,
    }
}
