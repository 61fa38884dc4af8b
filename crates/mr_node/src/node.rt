//! A running node.
ghost use Rattle.std.specs.Prelude.{◌≡◌, ◌<◌, ◌+◌, ◌^◌, ◌⊎◌, ◌↔◌, true, IfOk, IfErr, IfSome, Err};
ghost use Rattle.std.specs.Thread.{IsSend, IsSync};
ghost use Rattle.mr_feed.specs.declared.port.TheConstants.{MAX_CAPACITY};
ghost use Rattle.mr_subs.specs.Index.{HasCards};
ghost use Rattle.mr_subs.specs.Unseen.{ListsUnseen};
ghost use Rattle.mr_threads.specs.Letters.{SaysLetters};
ghost use Rattle.mr_threads.specs.Roles.{RolesRan};
ghost use Rattle.mr_threads.specs.Running.{HaveHungUp};
ghost use Rattle.mr_node.specs.Node.{NodeRan, ReplicaNodeRan, node_number};
ghost use Rattle.mr_node.specs.Thread.{IsHungUpLast};
ghost use Rattle.mr_node.specs.inner.Joining.{AreReady, AreRolesOf, IsEndOf};
ghost use Rattle.mr_node.specs.inner.Voice.{HasHungUp, Runs};

use crate::link_voice::LinkVoice;
use crate::replica_machine::{Answer, ReplicaMachine};
use crate::turn::Turn;
use mr_feed::{Entry, MAX_CAPACITY};
use mr_forms::Knowledge;
use mr_lane::Sender;
use mr_link::{Gate, Link};
use mr_replica::{Event, Replica};
use mr_subs::{Index, Indexer, Notifier, UnseenVersions};
use mr_threads::{Letters, Machine, Roles, RolesEnd, run_roles};
use std::alloc::Global;
use std::sync::Wait;
use std::sync::atomic::AtomicBool;
use std::thread;
use std::thread::Threads;

/// A link, and what it does in its turns.
#[derive(Drop)]
pub struct LinkTurns<L> {
    pub link: L,
    pub turns: Vec<Turn>,
}

/// The parts of a node: its replica, what its user asks of it, and its two links.
#[derive(Drop)]
pub struct NodeParts<C, L, M> {
    pub replica: C,
    pub events: Vec<Event>,
    pub first_link: LinkTurns<L>,
    pub second_link: LinkTurns<M>,
}

/// The answers to what the user and the links of a node said, to each one per letter, in order.
#[derive(Drop)]
pub struct NodeReplies {
    pub user: Vec<Answer>,
    pub first_link: Vec<Answer>,
    pub second_link: Vec<Answer>,
}

/// The entries that the subscribers of a node took, each once and in order.
#[derive(Drop)]
pub struct NodeTaken {
    pub indexer: Vec<Entry>,
    pub notifier: Vec<Entry>,
}

/// What a node came to: its replica, the replies to all who sent letters, and its subscribers with the entries that they
/// took.
#[derive(Drop)]
pub struct NodeEnd<C> {
    pub replica: C,
    pub replies: NodeReplies,
    pub taken: NodeTaken,
    pub indexer: Indexer,
    pub notifier: Notifier,
    /// How many places each of its lanes had.
    pub capacity: usize,
}

/// Why a node came to nothing.
#[derive(Drop)]
pub enum NodeFault<C, L, M> {
    /// A growth was refused outside a step of the replica, or a thread could not be made. The links have hung up, and
    /// nothing is handed back.
    OutOfMemory,
    /// No lane has so many places. Nothing was begun, and all parts are handed back.
    NoCapacity(NodeParts<C, L, M>),
}

impl<C, L, M> NodeFault<C, L, M> {
    /// The fault's number: 0 for no memory, 1 for a capacity that no lane has.
    pub fn number(&self) -> u8
        ensures { result ≡ node_number self.now }
    {
        match self {
            NodeFault::OutOfMemory => 0,
            NodeFault::NoCapacity(_) => 1,
        }
    }
}

/// What a node's threads run.
type NodeRoles<'g, C, L, M, G> = Roles<C, Letters<Event>, LinkVoice<'g, L, G>, LinkVoice<'g, M, G>>;

/// What they come to.
type NodeRolesEnd<'g, C, L, M, G> = RolesEnd<
    C,
    Answer,
    Letters<Event>,
    LinkVoice<'g, L, G>,
    LinkVoice<'g, M, G>,
    Index,
    UnseenVersions,
>;

/// Runs a node until its user has said all, its links have taken their turns or stopped, and the replica has answered
/// everything. It gives what the node came to, and the two links.
///
/// The replica has a thread to itself. Both links, an indexer and a notifier have theirs, and the user runs in the
/// caller's; they meet over lanes of so many places, 1 to 4,096, and no lock is used. Each letter is answered by one step
/// of the replica, and before its sender's next. Each new entry of the feed goes to the indexer and to the notifier.
///
/// `NoCapacity` comes before anything else, and hands all parts back. `OutOfMemory` comes where a growth was refused
/// outside a step, or a thread could not be made, once all threads have ended and both links have hung up. A step that
/// finds no memory is answered with a refusal, and changes nothing. That the call returns is not promised: a link may
/// wait for ever, and a gate too.
///
/// A link's count of downs is to have room for one more; at a new `lane_link` it is 0. A refusal ends the turns of the
/// link that it answers, and its node goes on; the user says all its events, whatever is refused. The call costs five
/// threads, six lanes of so many places, a step for each letter and four copies of each new entry of the feed. Replies
/// and entries are kept until the end.
pub fn run_node<
    K: Knowledge<Vector: Send> + Send,
    L: Link + Send,
    M: Link + Send,
    G: Gate + Sync,
    R: Threads + Wait + Sync + Send + Copy,
>(
    rt: &R,
    alloc: Global,
    parts: NodeParts<Replica<K>, L, M>,
    gate: &G,
    capacity: usize,
) -> Result<(NodeEnd<Replica<K>>, L, M), NodeFault<Replica<K>, L, M>>
    requires first_count { (L.tells parts.first_link.link).downs + 1 < 2 ^ 64 }
    requires second_count { (M.tells parts.second_link.link).downs + 1 < 2 ^ 64 }
    ensures ran { IfOk result (λ r. ReplicaNodeRan K.form L.tells M.tells (G.closes gate.now) (G.has_let gate.now) parts r.0 r.1 r.2) }
    ensures hung_up { IfOk result (λ r. ((L.tells r.1).hung_up ≡ true) × ((M.tells r.2).hung_up ≡ true)) }
    ensures hung_up_last { IfOk result (λ r. IsHungUpLast L.tells L.hung_up_at parts.first_link.link r.1 × IsHungUpLast M.tells M.hung_up_at parts.second_link.link r.2) }
    ensures capacity { IfOk result (λ r. r.0.capacity ≡ capacity) }
    ensures no_capacity { (result ≡ Err (NodeFault.NoCapacity parts)) ↔ ((capacity ≡ 0) ⊎ (MAX_CAPACITY < capacity)) }
    ensures fault { IfErr result (λ fault. (fault ≡ NodeFault.OutOfMemory) ⊎ (fault ≡ NodeFault.NoCapacity parts)) }
{
    if capacity == 0 || capacity > MAX_CAPACITY {
        return Err(NodeFault::NoCapacity(parts));
    }
    let NodeParts {
        replica,
        events,
        first_link,
        second_link,
    } = parts;
    let machine = ReplicaMachine::new(replica);
    let parts = NodeParts {
        replica: machine,
        events,
        first_link,
        second_link,
    };
    match run_parts(rt, alloc, parts, gate, capacity) {
        Some(ran) => {
            let (end, first, second) = ran;
            Ok((with_replica(end), first, second))
        }
        None => Err(NodeFault::OutOfMemory),
    }
}

/// The same end, with the replica out of its machine.
fn with_replica<K: Knowledge>(end: NodeEnd<ReplicaMachine<K>>) -> NodeEnd<Replica<K>>
    ensures { result ≡ end }
{
    let NodeEnd {
        replica,
        replies,
        taken,
        indexer,
        notifier,
        capacity,
    } = end;
    NodeEnd {
        replica: replica.into_replica(),
        replies,
        taken,
        indexer,
        notifier,
        capacity,
    }
}

/// Runs a node of any machine of a replica's letters and answers. `None` where no memory was found.
pub(crate) fn run_parts<
    C: Machine<Event, Answer> + Drop + Send,
    L: Link + Send,
    M: Link + Send,
    G: Gate + Sync,
    R: Threads + Wait + Sync + Send + Copy,
>(
    rt: &R,
    alloc: Global,
    parts: NodeParts<C, L, M>,
    gate: &G,
    capacity: usize,
) -> Option<(NodeEnd<C>, L, M)>
    requires first_count { (L.tells parts.first_link.link).downs + 1 < 2 ^ 64 }
    requires second_count { (M.tells parts.second_link.link).downs + 1 < 2 ^ 64 }
    ensures hung_up { IfSome result (λ r. ((L.tells r.1).hung_up ≡ true) × ((M.tells r.2).hung_up ≡ true)) }
    ensures hung_up_last { IfSome result (λ r. IsHungUpLast L.tells L.hung_up_at parts.first_link.link r.1 × IsHungUpLast M.tells M.hung_up_at parts.second_link.link r.2) }
    ensures capacity { IfSome result (λ r. r.0.capacity ≡ capacity) }
    ensures ran { IfSome result (λ r. NodeRan C.steps C.feed_of L.tells M.tells (G.closes gate.now) (G.has_let gate.now) parts r.0 r.1 r.2) }
{
    let roles = roles_of(alloc, parts, gate);
    match run_in_scope(rt, alloc, roles, capacity) {
        Some(end) => Some(node_end(end)),
        None => None,
    }
}

/// Puts the parts in their roles.
fn roles_of<'g, C: Machine<Event, Answer>, L: Link, M: Link, G: Gate>(
    alloc: Global,
    parts: NodeParts<C, L, M>,
    gate: &'g G,
) -> NodeRoles<'g, C, L, M, G>
    ensures { AreRolesOf gate.now parts result }
{
    let NodeParts {
        replica,
        events,
        first_link,
        second_link,
    } = parts;
    Roles {
        machine: replica,
        user: Letters::new(alloc, events),
        first_link: LinkVoice::new(
            alloc,
            first_link.link,
            first_link.turns,
            gate,
            Sender::FirstLink,
        ),
        second_link: LinkVoice::new(
            alloc,
            second_link.link,
            second_link.turns,
            gate,
            Sender::SecondLink,
        ),
    }
}

/// Runs the roles in threads of a scope.
fn run_in_scope<
    'g,
    C: Machine<Event, Answer> + Drop + Send,
    L: Link + Send,
    M: Link + Send,
    G: Gate + Sync,
    R: Threads + Wait + Sync + Send + Copy,
>(
    rt: &R,
    alloc: Global,
    roles: NodeRoles<'g, C, L, M, G>,
    capacity: usize,
) -> Option<NodeRolesEnd<'g, C, L, M, G>>
    requires { AreReady L.tells M.tells roles }
    ensures ran { IfSome result (λ end. RolesRan C.steps C.feed_of SaysLetters (Runs L.tells L.hung_up_at G.closes G.has_let) (Runs M.tells M.hung_up_at G.closes G.has_let) HasCards ListsUnseen roles.entry end) }
    ensures hung_up { IfSome result (λ end. HaveHungUp (λ _. Unit {0}) (HasHungUp L.tells) (HasHungUp M.tells) end.user.speaker end.first_link.speaker end.second_link.speaker) }
    ensures capacity { IfSome result (λ end. end.capacity ≡ capacity) }
{
    let given_up = AtomicBool::new(false);
    let flag = &given_up;
    thread::scope(
        thread::scope_env(),
        rt,
        |scope| -> Option<NodeRolesEnd<'_, C, L, M, G>>
            requires threads { IsSend C.row × IsSend L.row × IsSend M.row × IsSend R.row × IsSync G.row × IsSync R.row }
            requires ready { AreReady L.tells M.tells roles }
            ensures ran { IfSome result (λ end. RolesRan C.steps C.feed_of SaysLetters (Runs L.tells L.hung_up_at G.closes G.has_let) (Runs M.tells M.hung_up_at G.closes G.has_let) HasCards ListsUnseen roles.entry end) }
            ensures hung_up { IfSome result (λ end. HaveHungUp (λ _. Unit {0}) (HasHungUp L.tells) (HasHungUp M.tells) end.user.speaker end.first_link.speaker end.second_link.speaker) }
            ensures capacity { IfSome result (λ end. end.capacity ≡ capacity) }
        {
            match run_roles(rt, scope, flag, alloc, roles, capacity) {
                Ok(end) => Some(end),
                Err(_) => None,
            }
        },
    )
}

/// The parts of a node that has run, and its links.
fn node_end<C: Machine<Event, Answer>, L: Link, M: Link, G: Gate>(
    end: NodeRolesEnd<'_, C, L, M, G>,
) -> (NodeEnd<C>, L, M)
    ensures { IsEndOf end.entry result.0 result.1 result.2 }
{
    let RolesEnd {
        machine,
        user,
        first_link,
        second_link,
        indexer,
        notifier,
        capacity,
    } = end;
    let node = NodeEnd {
        replica: machine,
        replies: NodeReplies {
            user: user.replies,
            first_link: first_link.replies,
            second_link: second_link.replies,
        },
        taken: NodeTaken {
            indexer: indexer.taken,
            notifier: notifier.taken,
        },
        indexer: indexer.subscriber,
        notifier: notifier.subscriber,
        capacity,
    };
    (
        node,
        first_link.speaker.into_link(),
        second_link.speaker.into_link(),
    )
}
