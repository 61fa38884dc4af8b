//! One call that runs a machine, three speakers and two subscribers over lanes of their own.
ghost use Rattle.std.specs.Prelude.{◌≡◌, ◌<◌, ◌⊎◌, ◌↔◌, IfSome, IfOk, IfErr, Err};
ghost use Rattle.mr_feed.specs.declared.port.TheConstants.{MAX_CAPACITY};
ghost use Rattle.mr_threads.specs.Roles.{RolesRan, roles_number};
ghost use Rattle.mr_threads.specs.inner.Outfit.{AreJoined, IsOutfit};
ghost use Rattle.mr_threads.specs.Running.{HaveHungUp};
ghost use Rattle.mr_threads.specs.inner.Running.{AreNewParts};

use crate::machine::Machine;
use crate::outfit::{new_lanes, outfit};
use crate::running::{Parts, run_all};
use crate::settling_ends::settle_ends;
use crate::speaker::Speaker;
use crate::starting::hang_up;
use mr_feed::Entry;
use mr_lane::LaneFault;
use mr_subs::{Fold, Subscriber};
use std::alloc::Global;
use std::sync::Wait;
use std::sync::atomic::AtomicBool;
use std::thread::{Scope, Threads};

/// A machine, and three speakers that are to send it letters.
#[derive(Drop)]
pub struct Roles<M, S, P, Q> {
    pub machine: M,
    pub user: S,
    pub first_link: P,
    pub second_link: Q,
}

/// A speaker that has spoken, and the answers to its letters, in order.
#[derive(Drop)]
pub struct Spoken<S, A> {
    pub speaker: S,
    pub replies: Vec<A>,
}

/// A subscriber, and the entries that it took, in order.
#[derive(Drop)]
pub struct Heard<F> {
    pub subscriber: Subscriber<F>,
    pub taken: Vec<Entry>,
}

/// What the threads of a node came to.
#[derive(Drop)]
pub struct RolesEnd<M, A, S, P, Q, F, G> {
    pub machine: M,
    pub user: Spoken<S, A>,
    pub first_link: Spoken<P, A>,
    pub second_link: Spoken<Q, A>,
    pub indexer: Heard<F>,
    pub notifier: Heard<G>,
    /// How many places each of its lanes had.
    pub capacity: usize,
}

/// Why a node's threads came to nothing.
#[derive(Drop)]
pub enum RolesFault<M, S, P, Q> {
    /// A growth was refused, or a thread could not be made. All speakers have hung up, and nothing is handed
    /// back.
    OutOfMemory,
    /// No lane has so many places. Nothing was begun, and all parts are handed back.
    NoCapacity(Roles<M, S, P, Q>),
}

impl<M, S, P, Q> RolesFault<M, S, P, Q> {
    /// The fault's number: 0 for no memory, 1 for a capacity that no lane has.
    pub fn number(&self) -> u8
        ensures { result ≡ roles_number self.now }
    {
        match self {
            RolesFault::OutOfMemory => 0,
            RolesFault::NoCapacity(_) => 1,
        }
    }
}

/// Runs the machine in a thread of this scope, beside the links and two subscribers in theirs and the user in
/// the caller's. They meet over lanes of so many places, 1 to 4,096.
///
/// What happened is an interleaving of what each speaker said: the machine took each letter once, in its
/// sender's order, and answered it before that sender's next; both subscribers took each new entry of the
/// feed, once and in order. Threads are started in the order core, indexer, notifier, links. Where one can't be
/// made, `given_up` is set, which is false before, who has not begun to speak only finishes and hangs up, and the
/// threads that were started run to their end.
///
/// `NoCapacity` comes before anything else, and hands all parts back. `OutOfMemory` comes where memory ran out
/// or a thread could not be made, after all speakers have hung up.
pub fn run_roles<
    's,
    Z,
    E: Drop + Send + 's,
    A: Drop + Send + 's,
    M: Machine<E, A> + Drop + Send + 's,
    S: Speaker<E, A>,
    P: Speaker<E, A> + Send + 's,
    Q: Speaker<E, A> + Send + 's,
    F: Fold + Send + 's,
    G: Fold + Send + 's,
    R: Threads + Wait + Sync + Send + Copy + 's,
>(
    rt: &'s R,
    scope: &Scope<'s, Z>,
    given_up: &'s AtomicBool,
    alloc: Global,
    roles: Roles<M, S, P, Q>,
    capacity: usize,
) -> Result<RolesEnd<M, A, S, P, Q, F, G>, RolesFault<M, S, P, Q>>
    requires user { S.is_ready roles.user }
    requires first_link { P.is_ready roles.first_link }
    requires second_link { Q.is_ready roles.second_link }
    ensures ran { IfOk result (λ end. RolesRan M.steps M.feed_of S.speaks P.speaks Q.speaks F.shows G.shows roles end) }
    ensures hung_up { IfOk result (λ end. HaveHungUp S.has_hung_up P.has_hung_up Q.has_hung_up end.user.speaker end.first_link.speaker end.second_link.speaker) }
    ensures capacity { IfOk result (λ end. end.capacity ≡ capacity) }
    ensures no_capacity { (result ≡ Err (RolesFault.NoCapacity roles)) ↔ ((capacity ≡ 0) ⊎ (MAX_CAPACITY < capacity)) }
    ensures fault { IfErr result (λ fault. (fault ≡ RolesFault.OutOfMemory) ⊎ (fault ≡ RolesFault.NoCapacity roles)) }
{
    match new_lanes::<E, A, R>(*rt, alloc, capacity) {
        Ok(lanes) => match run_parts(rt, scope, given_up, outfit(alloc, roles, lanes)) {
            Some(end) => Ok(end),
            None => Err(RolesFault::OutOfMemory),
        },
        Err(LaneFault::NoCapacity) => Err(RolesFault::NoCapacity(roles)),
        Err(LaneFault::OutOfMemory) => {
            hang_up(roles.user);
            hang_up(roles.first_link);
            hang_up(roles.second_link);
            Err(RolesFault::OutOfMemory)
        }
    }
}

/// Runs all parts and puts them together again. `None` where one of them has not run whole.
fn run_parts<
    's,
    Z,
    E: Drop + Send + 's,
    A: Drop + Send + 's,
    M: Machine<E, A> + Drop + Send + 's,
    S: Speaker<E, A>,
    P: Speaker<E, A> + Send + 's,
    Q: Speaker<E, A> + Send + 's,
    F: Fold + Send + 's,
    G: Fold + Send + 's,
    R: Threads + Wait + Sync + Send + Copy + 's,
>(
    rt: &'s R,
    scope: &Scope<'s, Z>,
    given_up: &'s AtomicBool,
    parts: Parts<M, E, A, S, P, Q, F, G, R>,
) -> Option<RolesEnd<M, A, S, P, Q, F, G>>
    requires new { AreNewParts S.is_ready P.is_ready Q.is_ready F.shows G.shows parts }
    requires joined { AreJoined parts.core parts.user.talk parts.first_link.talk parts.second_link.talk parts.indexer parts.notifier }
    ensures ran { (roles : Roles M S P Q) → IsOutfit roles parts
        → IfSome result (λ end. RolesRan M.steps M.feed_of S.speaks P.speaks Q.speaks F.shows G.shows roles end) }
    ensures hung_up { IfSome result (λ end. HaveHungUp S.has_hung_up P.has_hung_up Q.has_hung_up end.user.speaker end.first_link.speaker end.second_link.speaker) }
    ensures capacity { IfSome result (λ end. end.capacity ≡ parts.core.desk.capacity) }
{
    let capacity = parts.core.desk.capacity();
    let ends = run_all(rt, scope, given_up, parts)?;
    settle_ends(ends, capacity)
}
