//! How each part of a node is started in a thread.
ghost use Rattle.std.specs.Prelude.{◌≡◌, [], IfSome};
ghost use Rattle.mr_threads.specs.Core.{AreRepliesOpen, AreFeedsOpen, IsNewCore};
ghost use Rattle.mr_threads.specs.Ends.{VoiceRan, ListenerRan};
ghost use Rattle.mr_threads.specs.inner.Ends.{CoreRan};
ghost use Rattle.mr_threads.specs.Listening.{HasHeard};
ghost use Rattle.mr_threads.specs.Talk.{IsNew};

use crate::core_loop::run_machine;
use crate::core_parts::{Core, CoreEnd};
use crate::listener::{Listener, ListenerEnd, run_listener};
use crate::machine::Machine;
use crate::speaker::Speaker;
use crate::voice::{Voice, VoiceEnd, give_up, run_voice};
use mr_subs::Fold;
use std::snapshot::Snapshot;
use std::sync::Wait;
use std::sync::atomic::{AtomicBool, Ordering};
use std::thread::{Promise, PromisedHandle, Scope};

/// What a core's thread owes.
#[derive(Drop)]
pub(crate) struct OwesCore<M, E, A, R> {
    core: Snapshot<Core<M, E, A, R>>,
}

impl<E: Drop, A: Drop, M: Machine<E, A> + Drop, R> Promise<CoreEnd<M, E, A, R>>
    for OwesCore<M, E, A, R> {
    ghost kept_by = { λ p r. CoreRan M.steps M.feed_of p.core.value r };
}

/// What a sender's thread owes.
#[derive(Drop)]
pub(crate) struct OwesVoice<S, E, A, R> {
    voice: Snapshot<Voice<S, E, A, R>>,
}

impl<E: Drop, A: Drop, S: Speaker<E, A>, R> Promise<VoiceEnd<S, E, A, R>>
    for OwesVoice<S, E, A, R> {
    ghost kept_by = { λ p r. VoiceRan S.speaks p.voice.value r × S.has_hung_up r.voice.speaker };
}

/// What a subscriber's thread owes.
#[derive(Drop)]
pub(crate) struct OwesListener<F, R> {
    listener: Snapshot<Listener<F, R>>,
}

impl<F: Fold, R> Promise<ListenerEnd<F, R>> for OwesListener<F, R> {
    ghost kept_by = { λ p r. ListenerRan F.shows p.listener.value r };
}

/// A core's thread.
pub(crate) type CoreThread<M, E, A, R> = PromisedHandle<CoreEnd<M, E, A, R>, OwesCore<M, E, A, R>>;

/// A sender's thread.
pub(crate) type VoiceThread<S, E, A, R> = PromisedHandle<
    VoiceEnd<S, E, A, R>,
    OwesVoice<S, E, A, R>,
>;

/// A subscriber's thread.
pub(crate) type ListenerThread<F, R> = PromisedHandle<ListenerEnd<F, R>, OwesListener<F, R>>;

/// Starts a core's thread. `None` where it can't be made.
pub(crate) fn start_core<
    's,
    Z,
    E: Drop + Send + 's,
    A: Drop + Send + 's,
    M: Machine<E, A> + Drop + Send + 's,
    R: Wait + Sync + Send + Copy + 's,
>(rt: &'s R, scope: &Scope<'s, Z>, core: Core<M, E, A, R>) -> Option<CoreThread<M, E, A, R>>
    requires core { IsNewCore core }
    requires replies { AreRepliesOpen core.replies }
    requires feeds { AreFeedsOpen core.feeds }
    ensures { IfSome result (λ handle. handle.promise.core.value ≡ core) }
{
    let owes = OwesCore {
        core: Snapshot::of(&core),
    };
    scope
        .spawn_with(
            owes,
            move || -> CoreEnd<M, E, A, R>
                requires core { IsNewCore core }
                requires replies { AreRepliesOpen core.replies }
                requires feeds { AreFeedsOpen core.feeds }
                ensures { CoreRan M.steps M.feed_of core result }
            { run_machine(rt, core) },
        )
        .ok()
}

/// Starts a subscriber's thread. `None` where it can't be made.
fn start_listener<'s, Z, F: Fold + Send + 's, R: Wait + Sync + Send + Copy + 's>(
    rt: &'s R,
    scope: &Scope<'s, Z>,
    listener: Listener<F, R>,
) -> Option<ListenerThread<F, R>>
    requires { HasHeard F.shows [] listener }
    ensures { IfSome result (λ handle. handle.promise.listener.value ≡ listener) }
{
    let owes = OwesListener {
        listener: Snapshot::of(&listener),
    };
    scope
        .spawn_with(
            owes,
            move || -> ListenerEnd<F, R>
                requires { HasHeard F.shows [] listener }
                ensures { ListenerRan F.shows listener result }
            { run_listener(rt, listener) },
        )
        .ok()
}

/// Starts both subscribers' threads. `None` where one can't be made.
pub(crate) fn start_listeners<
    's,
    Z,
    F: Fold + Send + 's,
    G: Fold + Send + 's,
    R: Wait + Sync + Send + Copy + 's,
>(
    rt: &'s R,
    scope: &Scope<'s, Z>,
    indexer: Listener<F, R>,
    notifier: Listener<G, R>,
) -> Option<(ListenerThread<F, R>, ListenerThread<G, R>)>
    requires indexer { HasHeard F.shows [] indexer }
    requires notifier { HasHeard G.shows [] notifier }
    ensures indexer { IfSome result (λ two. two.0.promise.listener.value ≡ indexer) }
    ensures notifier { IfSome result (λ two. two.1.promise.listener.value ≡ notifier) }
{
    let indexer = start_listener(rt, scope, indexer)?;
    let notifier = start_listener(rt, scope, notifier)?;
    Some((indexer, notifier))
}

/// Starts a sender's thread. Where it can't be made, the flag is set, and the sender gives up here.
pub(crate) fn start_voice<
    's,
    Z,
    E: Drop + Send + 's,
    A: Drop + Send + 's,
    S: Speaker<E, A> + Send + 's,
    R: Wait + Sync + Send + Copy + 's,
>(
    rt: &'s R,
    scope: &Scope<'s, Z>,
    given_up: &'s AtomicBool,
    voice: Voice<S, E, A, R>,
) -> Option<VoiceThread<S, E, A, R>>
    requires ready { S.is_ready voice.speaker }
    requires new { IsNew voice.talk }
    ensures { IfSome result (λ handle. handle.promise.voice.value ≡ voice) }
{
    let owes = OwesVoice {
        voice: Snapshot::of(&voice),
    };
    let started = scope.spawn_with(
        owes,
        move || -> VoiceEnd<S, E, A, R>
            requires ready { S.is_ready voice.speaker }
            requires new { IsNew voice.talk }
            ensures { VoiceRan S.speaks voice result × S.has_hung_up result.voice.speaker }
        { run_unless(rt, given_up, voice) },
    );
    match started {
        Ok(handle) => Some(handle),
        Err(refused) => {
            given_up.store(true, Ordering::SeqCst);
            (refused.value)();
            None
        }
    }
}

/// Runs a voice, or gives up where the flag is set.
fn run_unless<E: Drop, A: Drop, S: Speaker<E, A>, R: Wait>(
    rt: &R,
    given_up: &AtomicBool,
    voice: Voice<S, E, A, R>,
) -> VoiceEnd<S, E, A, R>
    requires ready { S.is_ready voice.speaker }
    requires new { IsNew voice.talk }
    ensures ran { VoiceRan S.speaks voice result }
    ensures hung_up { S.has_hung_up result.voice.speaker }
{
    if given_up.load(Ordering::SeqCst) {
        give_up(rt, voice)
    } else {
        run_voice(rt, voice)
    }
}

/// Lets a speaker go that has not begun.
pub(crate) fn hang_up<E, A, S: Speaker<E, A>>(mut speaker: S) {
    speaker.hang_up();
}
