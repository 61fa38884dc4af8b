//! The threads of a node: what is started, in which order, and what is done where a thread can't be made.
ghost use Rattle.std.specs.Prelude.{IfSome};
ghost use Rattle.mr_threads.specs.Running.{HaveHungUp};
ghost use Rattle.mr_threads.specs.inner.Running.{AreNewParts, AllRan};

use crate::core_parts::{Core, CoreEnd};
use crate::listener::{Listener, ListenerEnd};
use crate::machine::Machine;
use crate::speaker::Speaker;
use crate::starting::{hang_up, start_core, start_listeners, start_voice};
use crate::voice::{Voice, VoiceEnd, give_up, run_voice};
use mr_subs::Fold;
use std::sync::Wait;
use std::sync::atomic::AtomicBool;
use std::thread::{Scope, Threads};

/// The parts of a node, before they run: a core, three voices, and two subscribers.
#[derive(Drop)]
pub(crate) struct Parts<M, E, A, S, P, Q, F, G, R> {
    pub core: Core<M, E, A, R>,
    pub user: Voice<S, E, A, R>,
    pub first_link: Voice<P, E, A, R>,
    pub second_link: Voice<Q, E, A, R>,
    pub indexer: Listener<F, R>,
    pub notifier: Listener<G, R>,
}

/// The parts of a node that have run.
#[derive(Drop)]
pub(crate) struct Ends<M, E, A, S, P, Q, F, G, R> {
    pub core: CoreEnd<M, E, A, R>,
    pub user: VoiceEnd<S, E, A, R>,
    pub first_link: VoiceEnd<P, E, A, R>,
    pub second_link: VoiceEnd<Q, E, A, R>,
    pub indexer: ListenerEnd<F, R>,
    pub notifier: ListenerEnd<G, R>,
}

/// Runs all parts, each but the user's in a thread of this scope, and waits for all that were started.
///
/// The core is started first, then the subscribers, then the links; the user's part runs in the caller's
/// thread. `None` where a thread could not be made. Then nobody speaks who has not begun to: each such voice
/// finishes its post and hangs up, a link whose own thread could not be made from here; and the threads that
/// were started run to their end.
pub(crate) fn run_all<
    's,
    Z,
    E: Drop + Send + 's,
    A: Drop + Send + 's,
    M: Machine<E, A> + Drop + Send + 's,
    S: Speaker<E, A>,
    P: Speaker<E, A> + Send + 's,
    Q: Speaker<E, A> + Send + 's,
    F: Fold + Send + 's,
    G: Fold + Send + 's,
    R: Threads + Wait + Sync + Send + Copy + 's,
>(
    rt: &'s R,
    scope: &Scope<'s, Z>,
    given_up: &'s AtomicBool,
    parts: Parts<M, E, A, S, P, Q, F, G, R>,
) -> Option<Ends<M, E, A, S, P, Q, F, G, R>>
    requires { AreNewParts S.is_ready P.is_ready Q.is_ready F.shows G.shows parts }
    ensures ran { IfSome result (λ ends. AllRan M.steps M.feed_of S.speaks P.speaks Q.speaks F.shows G.shows parts ends) }
    ensures hung_up { IfSome result (λ ends. HaveHungUp S.has_hung_up P.has_hung_up Q.has_hung_up ends.user.voice.speaker ends.first_link.voice.speaker ends.second_link.voice.speaker) }
{
    let Parts {
        core,
        user,
        first_link,
        second_link,
        indexer,
        notifier,
    } = parts;
    let Some(core) = start_core(rt, scope, core) else {
        hang_up(user.speaker);
        hang_up(first_link.speaker);
        hang_up(second_link.speaker);
        return None;
    };
    let Some((indexer, notifier)) = start_listeners(rt, scope, indexer, notifier) else {
        give_up(rt, user);
        give_up(rt, first_link);
        give_up(rt, second_link);
        return None;
    };
    let first_link = start_voice(rt, scope, given_up, first_link);
    let second_link = start_voice(rt, scope, given_up, second_link);
    let (Some(first_link), Some(second_link)) = (first_link, second_link) else {
        give_up(rt, user);
        return None;
    };
    let user = run_voice(rt, user);
    Some(Ends {
        core: core.join(rt),
        user,
        first_link: first_link.join(rt),
        second_link: second_link.join(rt),
        indexer: indexer.join(rt),
        notifier: notifier.join(rt),
    })
}
