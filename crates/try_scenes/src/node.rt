//! Replicas that run as nodes, at once.
ghost use Rattle.std.specs.Prelude.{◌≡◌};

use crate::device::Device;
use crate::gate::{GateKind, SceneGate};
use crate::last_run::{Counts, LastRun, Refused};
use crate::start::Start;
use crate::strange::Strange;
use crate::strange_link::StrangeLink;
use crate::work::{Plan, Waiting, Work, hang_up_all};
use anyhow::Result;
use mr_forms::Knowledge;
use mr_link::{Gate, LaneLink, OpenGate};
use mr_node::{LinkTurns, NodeEnd, NodeFault, NodeParts, run_node};
use mr_replica::Replica;
use mr_version::Author;
use std::alloc::{AllocError, Global};
use std::sync::Wait;
use std::thread::Threads;
use std::{mem, thread};

/// What a run of a node gave: its end and its links, or why it came to nothing.
type Ran<C, R> = Result<
    (NodeEnd<C>, StrangeLink<R>, StrangeLink<R>),
    NodeFault<C, StrangeLink<R>, StrangeLink<R>>,
>;

/// `run`: runs all that are alone, each in a thread of its own, and tells which did not run to an end. An end of a link whose
/// other end no replica has is hung up before.
pub fn run_all<K: Knowledge<Vector: Send> + Send, R: Threads + Wait + Sync + Send + Copy>(
    rt: &R,
    alloc: Global,
    waiting: &mut Vec<Waiting<LaneLink<R>>>,
    devices: &mut [Device<Replica<K>, LaneLink<R>>],
) -> Result<String> {
    hang_up_all(waiting);
    run_at_once(rt, alloc, devices);
    tell_ran(alloc, devices)
}

/// Runs all of them, each in a thread of its own.
fn run_at_once<K: Knowledge<Vector: Send> + Send, R: Threads + Wait + Sync + Send + Copy>(
    rt: &R,
    alloc: Global,
    devices: &mut [Device<Replica<K>, LaneLink<R>>],
) {
    let threads = devices.len();
    let start = Start::new(threads as u64);
    let start = &start;
    if threads > 0 {
        thread::for_each_mut(
            rt,
            devices,
            threads,
            &|_, device| { run_device(rt, alloc, start, device) },
        );
    }
}

/// Runs one, where all have a thread.
fn run_device<K: Knowledge<Vector: Send> + Send, R: Threads + Wait + Sync + Send + Copy>(
    rt: &R,
    alloc: Global,
    start: &Start,
    device: &mut Device<Replica<K>, LaneLink<R>>,
) {
    let work = mem::replace(&mut device.work, Work::new(alloc));
    if start.wait() {
        device.last = run(rt, alloc, &mut device.replica, work);
    } else {
        device.last = Some(LastRun::NoThread);
    }
}

/// Runs a replica as a node, behind its gate, where there is one.
fn run<K: Knowledge<Vector: Send> + Send, R: Threads + Wait + Sync + Send + Copy>(
    rt: &R,
    alloc: Global,
    place: &mut Option<Replica<K>>,
    mut work: Work<LaneLink<R>>,
) -> Option<LastRun> {
    let Some(replica) = place.take() else {
        work.hang_up();
        return None;
    };
    match work.gate {
        GateKind::Open => Some(run_behind(rt, alloc, place, replica, work, &OpenGate)),
        kind => Some(run_behind(rt, alloc, place, replica, work, &SceneGate::new(kind))),
    }
}

/// Runs a replica as a node, behind this gate, and puts it back.
fn run_behind<
    K: Knowledge<Vector: Send> + Send,
    G: Gate + Sync,
    R: Threads + Wait + Sync + Send + Copy,
>(
    rt: &R,
    alloc: Global,
    place: &mut Option<Replica<K>>,
    replica: Replica<K>,
    work: Work<LaneLink<R>>,
    gate: &G,
) -> LastRun {
    let places = work.places;
    let ran = run_node(rt, alloc, parts_of(alloc, replica, work), gate, places);
    end(place, ran)
}

/// Puts the replica of a node that ran back, where there still is one: what came of the run.
fn end<C: Drop, R: Wait + Copy>(place: &mut Option<C>, ran: Ran<C, R>) -> LastRun {
    let last = last_of(&ran);
    *place = replica_of(ran);
    last
}

/// The parts of a node.
fn parts_of<C, R: Copy>(
    alloc: Global,
    replica: C,
    work: Work<LaneLink<R>>,
) -> NodeParts<C, StrangeLink<R>, StrangeLink<R>>
    ensures first { result.first_link.link.downs ≡ 0 }
    ensures second { result.second_link.link.downs ≡ 0 }
{
    let Work {
        events,
        mut links,
        ..
    } = work;
    let second = if links.len() > 1 { links.pop() } else { None };
    let first = links.pop();
    NodeParts {
        replica,
        events,
        first_link: link_turns(alloc, first),
        second_link: link_turns(alloc, second),
    }
}

/// A new link with its turns: where none is planned, one that is down and has none.
fn link_turns<R>(alloc: Global, plan: Option<Plan<LaneLink<R>>>) -> LinkTurns<StrangeLink<R>>
    ensures { result.link.downs ≡ 0 }
{
    match plan {
        Some(plan) => LinkTurns {
            link: StrangeLink::new(plan.lane, plan.strange),
            turns: plan.turns,
        },
        None => LinkTurns {
            link: StrangeLink::new(None, Strange::NEVER),
            turns: Vec::new(alloc),
        },
    }
}

/// What came of the run.
fn last_of<C, R>(ran: &Ran<C, R>) -> LastRun {
    match ran {
        Ok((end, first, second)) => {
            LastRun::Ended(Counts::new(&end.replies, first.calls, second.calls))
        }
        Err(fault) => LastRun::Refused(Refused::new(fault)),
    }
}

/// The replica, where there still is one. It is of any kind here, since to take a big value apart is dear to prove.
fn replica_of<C: Drop, L: Drop>(ran: Result<(NodeEnd<C>, L, L), NodeFault<C, L, L>>) -> Option<C> {
    match ran {
        Ok((end, _, _)) => Some(end.replica),
        Err(NodeFault::NoCapacity(parts)) => Some(parts.replica),
        Err(NodeFault::OutOfMemory) => None,
    }
}

/// Each that did not run to an end.
fn tell_ran<C, L>(alloc: Global, devices: &[Device<C, L>]) -> Result<String> {
    let mut text = String::new(alloc);
    for device in devices {
        push_last(&mut text, device.id, device.last)?;
    }
    Ok(text)
}

/// Why one did not run to an end, where it didn't.
fn push_last(text: &mut String, id: Author, last: Option<LastRun>) -> Result<(), AllocError> {
    match last {
        Some(LastRun::NoThread) => write!(text, "{id}: no thread\n"),
        Some(LastRun::Refused(refused)) => push_refused(text, id, refused),
        _ => Ok(()),
    }
}

/// The fault by which one came to nothing, and what was handed back.
fn push_refused(text: &mut String, id: Author, refused: Refused) -> Result<(), AllocError> {
    let (number, events) = (refused.number, refused.events);
    let (first, second) = (refused.first_turns, refused.second_turns);
    write!(
        text,
        "{id}: fault {number}, events {events}, turns {first} {second}\n"
    )
}
