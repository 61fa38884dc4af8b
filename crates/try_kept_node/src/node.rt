//! Two nodes at once.
ghost use Rattle.std.specs.Prelude.{◌≡◌, true};
ghost use Rattle.mr_kept.specs.Kept.{nothing_waits};

use crate::disk::StoppingDisk;
use anyhow::Result;
use mr_itemset::ItemKnowledge;
use mr_kept::Journaled;
use mr_kept_node::{KeptMachine, run_kept_node};
use mr_lane::LaneFault;
use mr_link::{LaneLink, OpenGate, lane_link};
use mr_node::{LinkTurns, NodeEnd, NodeFault, NodeParts, NodeReplies, Turn};
use mr_replica::Event;
use std::alloc::{AllocError, Global};
use std::sync::Wait;
use std::thread::Threads;
use std::{mem, thread};

/// How many places a lane has.
const PLACES: usize = 4;

/// A replica on a disk.
pub type Kept = Journaled<ItemKnowledge, StoppingDisk>;

/// What the core of a node over it runs.
type Machine = KeptMachine<ItemKnowledge, StoppingDisk>;

/// A link to the other node, and what this one does over it.
pub type Turns<R> = LinkTurns<LaneLink<R>>;

/// A side whose replica is on a disk.
pub type KeptSide<R> = Side<Kept, Turns<R>>;

/// A replica that is to run, or has. Of what kind it and its links are isn't said here, since to move a big value is dear to prove.
#[derive(Drop)]
pub struct Side<K, L> {
    /// The replica, unless its node came to nothing.
    pub kept: Option<K>,
    /// What its user asks.
    events: Vec<Event>,
    /// How much of that was answered with no refusal.
    pub answered: usize,
    /// How many entries of its feed were told.
    pub told: usize,
    /// A link over which it pulls, and one over which it serves.
    links: Option<(L, L)>,
}

impl<K, L> Side<K, L> {
    /// One of this replica, whose user asks this, and which has no links.
    pub fn new(kept: K, events: Vec<Event>) -> Side<K, L> {
        Side {
            kept: Some(kept),
            events,
            answered: 0,
            told: 0,
            links: None,
        }
    }
}

/// Has the first and the last pull from each other over a link, and serve each other over another.
pub fn link<K: Drop, R: Wait + Copy>(
    rt: &R,
    alloc: Global,
    sides: &mut [Side<K, Turns<R>>],
) -> Result<()> {
    let first = with_turns(alloc, lane_link(*rt, alloc, PLACES));
    let second = with_turns(alloc, lane_link(*rt, alloc, PLACES));
    give_both(sides, first, second)
}

/// Gives the first and the last their ends of two links.
fn give_both<K: Drop, L: Drop>(
    sides: &mut [Side<K, L>],
    first: Result<(L, L)>,
    second: Result<(L, L)>,
) -> Result<()> {
    let (pulls, serves) = first?;
    let (takes, gives) = second?;
    give(sides.first_mut(), (pulls, gives));
    give(sides.last_mut(), (takes, serves));
    Ok(())
}

/// Gives one its links.
fn give<K: Drop, L: Drop>(side: Option<&mut Side<K, L>>, links: (L, L)) {
    if let Some(side) = side {
        side.links = Some(links);
    }
}

/// The two ends of a link that was made, of which the first pulls, and the second serves.
fn with_turns<L: Drop>(
    alloc: Global,
    made: Result<(L, L), LaneFault>,
) -> Result<(LinkTurns<L>, LinkTurns<L>)> {
    let pulls = only(alloc, Turn::Pull)?;
    let serves = only(alloc, Turn::Serve)?;
    let (first, second) = made?;
    Ok((
        LinkTurns {
            link: first,
            turns: pulls,
        },
        LinkTurns {
            link: second,
            turns: serves,
        },
    ))
}

/// This turn alone.
fn only(alloc: Global, turn: Turn) -> Result<Vec<Turn>, AllocError> {
    let mut turns = Vec::new(alloc);
    turns.push(turn)?;
    Ok(turns)
}

/// Runs all of them as nodes, each in a thread of its own.
pub fn run_all<R: Threads + Wait + Sync + Send + Copy>(
    rt: &R,
    alloc: Global,
    sides: &mut [KeptSide<R>],
) {
    let threads = sides.len();
    if threads > 0 {
        thread::for_each_mut(rt, sides, threads, &|_, side| { run_one(rt, alloc, side) });
    }
}

/// Runs one as a node.
fn run_one<R: Threads + Wait + Sync + Send + Copy>(rt: &R, alloc: Global, side: &mut KeptSide<R>) {
    if let Some(parts) = parts_of(alloc, side) {
        end(side, run(rt, alloc, parts));
    }
}

/// The parts of a node, which one that has links gives away.
fn parts_of<K: Drop, L: Drop>(
    alloc: Global,
    side: &mut Side<K, LinkTurns<L>>,
) -> Option<NodeParts<K, L, L>> {
    let events = mem::replace(&mut side.events, Vec::new(alloc));
    let links = side.links.take();
    let replica = side.kept.take()?;
    let (first_link, second_link) = links?;
    Some(NodeParts {
        replica,
        events,
        first_link,
        second_link,
    })
}

/// Runs a node over a replica of which all is kept, and new links.
fn run<R: Threads + Wait + Sync + Send + Copy>(
    rt: &R,
    alloc: Global,
    parts: NodeParts<Kept, LaneLink<R>, LaneLink<R>>,
) -> Option<NodeEnd<Machine>> {
    if is_ready(&parts) {
        end_of(run_kept_node(rt, alloc, parts, &OpenGate, PLACES))
    } else {
        drop(parts);
        None
    }
}

/// Whether all of the replica is kept, and no call found a link down.
fn is_ready<R>(parts: &NodeParts<Kept, LaneLink<R>, LaneLink<R>>) -> bool
    ensures kept { result ≡ true → nothing_waits parts.now.replica ≡ true }
    ensures first { result ≡ true → parts.now.first_link.link.tells.downs ≡ 0 }
    ensures second { result ≡ true → parts.now.second_link.link.tells.downs ≡ 0 }
{
    parts.replica.is_kept()
        && parts.first_link.link.downs() == 0
        && parts.second_link.link.downs() == 0
}

/// What a node came to, whatever its core runs.
fn end_of<C: Drop, P: Drop, L: Drop>(
    ran: Result<(NodeEnd<C>, L, L), NodeFault<P, L, L>>,
) -> Option<NodeEnd<C>> {
    match ran {
        Ok((end, _, _)) => Some(end),
        Err(_) => None,
    }
}

/// Says what a node answered and told, and gives its side back its replica.
fn end<K: Drop, L: Drop, C: Core<K> + Drop>(side: &mut Side<K, L>, end: Option<NodeEnd<C>>) {
    if let Some(end) = &end {
        side.answered = answered(&end.replies);
        side.told = end.taken.indexer.len();
    }
    put(&mut side.kept, replica_of(end));
}

/// Puts a value where another one was.
fn put<T: Drop>(place: &mut T, value: T) {
    *place = value;
}

/// The replica of a node that ran.
fn replica_of<K: Drop, C: Core<K> + Drop>(end: Option<NodeEnd<C>>) -> Option<K> {
    Some(core_of(end?).into_replica())
}

/// What the core of a node that has run ran.
fn core_of<C: Drop>(end: NodeEnd<C>) -> C {
    end.replica
}

/// What the core of a node runs, over a replica.
trait Core<K> {
    /// The replica.
    fn into_replica(self) -> K;
}

impl Core<Kept> for Machine {
    fn into_replica(self) -> Kept {
        self.journaled
    }
}

/// How many letters of its user a node answered with no refusal.
fn answered(replies: &NodeReplies) -> usize {
    replies.user.iter().filter(|it| it.is_ok()).count()
}
