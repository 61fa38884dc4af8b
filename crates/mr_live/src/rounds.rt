//! Two nodes in two rounds.
ghost use Rattle.std.specs.Prelude.{◌≡◌, ◌∷◌, [], IfOk, IfSome};
ghost use Rattle.std.specs.List.{list_all};
ghost use Rattle.std.specs.Thread.{IsSend, IsSync};
ghost use Rattle.mr_live.specs.Plan.{ArePlaces, CanRun};
ghost use Rattle.mr_live.specs.inner.Plan.{CanBothRun};
ghost use Rattle.mr_live.specs.Rounds.{AreIdle, Cross, RanAlone, RanBoth, RanFrom, TwoRounds, had_memory, has_memory};
ghost use Rattle.mr_live.specs.inner.Rounds.{AreNew, PullAndServe};

use crate::plan::NodePlan;
use mr_forms::Knowledge;
use mr_lane::LaneFault;
use mr_link::{LaneLink, OpenGate, lane_link};
use mr_node::{Answer, LinkTurns, NodeFault, NodeParts, NodeReplies, Turn, run_node};
use mr_replica::{Event, Replica};
use std::alloc::{AllocError, Global};
use std::snapshot::Snapshot;
use std::sync::Wait;
use std::thread;
use std::thread::{Promise, PromisedHandle, Scope, Threads};

/// How many pieces may wait in each direction of a link.
const LINK_PIECES: usize = 16;

/// The first and the second link of a node, each with its turns.
type Links<R> = (LinkTurns<LaneLink<R>>, LinkTurns<LaneLink<R>>);

/// Runs both nodes in two rounds, each with links of its own: each alone with what its user asks, and then both at once,
/// where each pulls over its first link what the other serves over its second. Their replicas in the order of the nodes.
/// `None` where memory was wanting, to an event of a replica too, or a thread.
pub(crate) fn run_rounds<K: Knowledge<Vector: Send> + Send, R: Threads + Wait + Sync + Send + Copy>(
    rt: &R,
    alloc: Global,
    first: NodePlan,
    second: NodePlan,
) -> Option<(Replica<K>, Replica<K>)>
    requires { CanBothRun (first, second) }
    ensures { IfSome result (λ ended. TwoRounds K.form (first, second) ended) }
{
    let (first_places, second_places) = (first.spec.port_capacity, second.spec.port_capacity);
    let first = run_alone(rt, alloc, first)?;
    let second = run_alone(rt, alloc, second)?;
    run_both(rt, alloc, (first, first_places), (second, second_places))
}

/// Runs a new replica as a node with what its user asks. Its links have no turn.
fn run_alone<K: Knowledge<Vector: Send> + Send, R: Threads + Wait + Sync + Send + Copy>(
    rt: &R,
    alloc: Global,
    plan: NodePlan,
) -> Option<Replica<K>>
    requires { CanRun plan.spec }
    ensures { IfSome result (λ new. RanAlone K.form plan new) }
{
    let links = idle_links(rt, alloc)?;
    let NodePlan { spec, events } = plan;
    match Replica::try_new(alloc, spec.id, spec.filter, spec.event_limit) {
        Ok(replica) => run(rt, alloc, replica, events, links, spec.port_capacity),
        Err(_) => unreachable!(),
    }
}

/// Runs both nodes at once, joined by two links. Each replica comes with the places of its node's lanes.
fn run_both<K: Knowledge<Vector: Send> + Send, R: Threads + Wait + Sync + Send + Copy>(
    rt: &R,
    alloc: Global,
    first: (Replica<K>, usize),
    second: (Replica<K>, usize),
) -> Option<(Replica<K>, Replica<K>)>
    requires { ArePlaces first.1 × ArePlaces second.1 }
    ensures { IfSome result (λ ended. RanBoth K.form (first.1, second.1) (first.0, second.0) ended) }
{
    let Ok((first_links, second_links)) = crossing_links(rt, alloc) else {
        return None;
    };
    let first = ready_node(first, first_links);
    let second = ready_node(second, second_links);
    thread::scope(
        thread::scope_env(),
        rt,
        |scope| -> Option<(Replica<K>, Replica<K>)>
            requires threads { IsSend K.row × IsSend R.row × IsSync R.row }
            requires links { Cross first.links second.links }
            requires places { ArePlaces first.places × ArePlaces second.places }
            ensures { IfSome result (λ ended. RanBoth K.form (first.places, second.places) (first.replica, second.replica) ended) }
        { run_in_scope(rt, scope, alloc, first, second) },
    )
}

/// A node that is ready for the second round: its replica, its links, and the places of its lanes.
#[derive(Drop)]
struct ReadyNode<K: Knowledge, R> {
    replica: Replica<K>,
    links: Links<R>,
    places: usize,
}

/// A replica and the places of its node's lanes, with its links.
fn ready_node<K: Knowledge, R>(node: (Replica<K>, usize), links: Links<R>) -> ReadyNode<K, R>
    ensures { (result.replica ≡ node.0) × ((result.places ≡ node.1) × (result.links ≡ links)) }
{
    let (replica, places) = node;
    ReadyNode {
        replica,
        links,
        places,
    }
}

/// What the thread of a node owes.
#[derive(Drop)]
struct OwesReplica<K: Knowledge, R> {
    node: Snapshot<ReadyNode<K, R>>,
}

impl<K: Knowledge, R> Promise<Option<Replica<K>>> for OwesReplica<K, R> {
    ghost kept_by = { λ p r. IfSome r (λ new. RanFrom K.form p.node.value.replica [] p.node.value.links p.node.value.places new) };
}

/// The thread of a node.
type NodeThread<K, R> = PromisedHandle<Option<Replica<K>>, OwesReplica<K, R>>;

/// Runs the first node in a thread of this scope, and the second in the caller's. `None` also where the thread can't be
/// made: then neither runs, since each would wait for the other.
fn run_in_scope<
    's,
    Z,
    K: Knowledge<Vector: Send> + Send + 's,
    R: Threads + Wait + Sync + Send + Copy + 's,
>(
    rt: &'s R,
    scope: &Scope<'s, Z>,
    alloc: Global,
    first: ReadyNode<K, R>,
    second: ReadyNode<K, R>,
) -> Option<(Replica<K>, Replica<K>)>
    requires links { Cross first.links second.links }
    requires places { ArePlaces first.places × ArePlaces second.places }
    ensures { IfSome result (λ ended. RanBoth K.form (first.places, second.places) (first.replica, second.replica) ended) }
{
    let first = start_node(rt, scope, alloc, first)?;
    let second = run_ready(rt, alloc, second);
    both(first.join(rt), second)
}

/// Starts the thread of a node. `None` where it can't be made, and then the node doesn't run.
fn start_node<
    's,
    Z,
    K: Knowledge<Vector: Send> + Send + 's,
    R: Threads + Wait + Sync + Send + Copy + 's,
>(rt: &'s R, scope: &Scope<'s, Z>, alloc: Global, node: ReadyNode<K, R>) -> Option<NodeThread<K, R>>
    requires links { AreNew node.links }
    requires places { ArePlaces node.places }
    ensures { IfSome result (λ handle. handle.promise.node.value ≡ node) }
{
    let owes = OwesReplica {
        node: Snapshot::of(&node),
    };
    scope
        .spawn_with(
            owes,
            move || -> Option<Replica<K>>
                requires threads { IsSend K.row × IsSend R.row × IsSync R.row }
                requires links { AreNew node.links }
                requires places { ArePlaces node.places }
                ensures { IfSome result (λ new. RanFrom K.form node.replica [] node.links node.places new) }
            { run_ready(rt, alloc, node) },
        )
        .ok()
}

/// Runs a node whose user asks nothing more.
fn run_ready<K: Knowledge<Vector: Send> + Send, R: Threads + Wait + Sync + Send + Copy>(
    rt: &R,
    alloc: Global,
    node: ReadyNode<K, R>,
) -> Option<Replica<K>>
    requires links { AreNew node.links }
    requires places { ArePlaces node.places }
    ensures { IfSome result (λ new. RanFrom K.form node.replica [] node.links node.places new) }
{
    let ReadyNode {
        replica,
        links,
        places,
    } = node;
    run(rt, alloc, replica, Vec::new(alloc), links, places)
}

/// Both, where both are there.
fn both<T: Drop>(first: Option<T>, second: Option<T>) -> Option<(T, T)>
    ensures { IfSome result (λ two. (first ≡ Some two.0) × (second ≡ Some two.1)) }
{
    match (first, second) {
        (Some(first), Some(second)) => Some((first, second)),
        _ => None,
    }
}

/// The links of a node without turns: the two ends of one.
fn idle_links<R: Wait + Copy>(rt: &R, alloc: Global) -> Option<Links<R>>
    ensures { IfSome result AreIdle }
{
    let (here, there) = lane_link(*rt, alloc, LINK_PIECES).ok()?;
    Some((without_turns(alloc, here), without_turns(alloc, there)))
}

/// The links of two nodes, each of which pulls over its first link what the other serves over its second.
fn crossing_links<R: Wait + Copy>(rt: &R, alloc: Global) -> Result<(Links<R>, Links<R>), LaneFault>
    ensures { IfOk result (λ two. Cross two.0 two.1) }
{
    let (first_pulls, second_serves) = lane_link(*rt, alloc, LINK_PIECES)?;
    let (second_pulls, first_serves) = lane_link(*rt, alloc, LINK_PIECES)?;
    let first = pull_and_serve(alloc, first_pulls, first_serves)?;
    let second = pull_and_serve(alloc, second_pulls, second_serves)?;
    Ok((first, second))
}

/// The links of a node that pulls over the one and serves over the other.
fn pull_and_serve<R: Wait + Copy>(
    alloc: Global,
    pulls: LaneLink<R>,
    serves: LaneLink<R>,
) -> Result<Links<R>, AllocError>
    ensures { IfOk result (λ links. PullAndServe pulls serves links) }
{
    let first = with_turn(alloc, pulls, Turn::Pull)?;
    let second = with_turn(alloc, serves, Turn::Serve)?;
    Ok((first, second))
}

/// A link with one turn.
fn with_turn<L: Drop>(alloc: Global, link: L, turn: Turn) -> Result<LinkTurns<L>, AllocError>
    ensures { IfOk result (λ l. (l.link ≡ link) × (l.turns.items ≡ turn ∷ [])) }
{
    let turns = vec![in alloc; turn]?;
    Ok(LinkTurns { link, turns })
}

/// A link with no turn.
fn without_turns<L>(alloc: Global, link: L) -> LinkTurns<L>
    ensures { (result.link ≡ link) × (result.turns.items ≡ []) }
{
    LinkTurns {
        link,
        turns: Vec::new(alloc),
    }
}

/// Whether no letter of a node was answered out of memory.
fn had_memory(replies: &NodeReplies) -> bool
    ensures { result ≡ had_memory replies.now }
{
    all_have_memory(&replies.user)
        && all_have_memory(&replies.first_link)
        && all_have_memory(&replies.second_link)
}

/// Whether none of the answers is out of memory.
fn all_have_memory(answers: &[Answer]) -> bool
    ensures { result ≡ list_all has_memory answers.now }
{
    answers.iter().all(|answer| has_memory(answer))
}

/// Whether the answer is not out of memory.
fn has_memory(answer: &Answer) -> bool
    ensures { result ≡ has_memory answer.now }
{
    match answer {
        Ok(_) => true,
        Err(refusal) => refusal.number() != 0,
    }
}

/// Runs a node before which no gate stands, with so many places in each of its lanes: its replica, where it came to an end and answered no letter out of memory.
fn run<K: Knowledge<Vector: Send> + Send, R: Threads + Wait + Sync + Send + Copy>(
    rt: &R,
    alloc: Global,
    replica: Replica<K>,
    events: Vec<Event>,
    links: Links<R>,
    capacity: usize,
) -> Option<Replica<K>>
    requires links { AreNew links }
    requires places { ArePlaces capacity }
    ensures { IfSome result (λ new. RanFrom K.form replica events.items links capacity new) }
{
    let (first_link, second_link) = links;
    let parts = NodeParts {
        replica,
        events,
        first_link,
        second_link,
    };
    match run_node(rt, alloc, parts, &OpenGate, capacity) {
        Ok((end, _, _)) => {
            let is_whole = had_memory(&end.replies);
            is_whole.then_some(end.replica)
        }
        Err(NodeFault::OutOfMemory) => None,
        Err(NodeFault::NoCapacity(_)) => unreachable!(),
    }
}
