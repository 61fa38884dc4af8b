//! Parts that have run are put together again.
ghost use Rattle.std.specs.Prelude.{◌≡◌, ◌&&◌, IfSome};
ghost use Rattle.mr_threads.specs.inner.Outfit.{AreJoined, IsOutfit};
ghost use Rattle.mr_threads.specs.Roles.{RolesRan};
ghost use Rattle.mr_threads.specs.inner.Roles.{spoken_of, heard_of};
ghost use Rattle.mr_threads.specs.inner.Running.{AreNewParts, AllRan, are_all_whole};
ghost use Rattle.mr_threads.specs.declared.roles.Roles.{Roles};
ghost use Rattle.mr_threads.specs.declared.running.Parts.{Parts};

use crate::listener::{Listener, ListenerEnd};
use crate::machine::Machine;
use crate::roles::{Heard, RolesEnd, Spoken};
use crate::running::Ends;
use crate::settling::{FeedTaps, Taps, settle};
use crate::speaker::Speaker;
use crate::talk::Talk;
use crate::voice::{Voice, VoiceEnd};
use mr_feed::Entry;
use mr_lane::{Post, Posts, Tap};
use mr_subs::Fold;

/// Whether each part has run whole.
fn are_all_whole<M, E, A, S, P, Q, F, G, R>(ends: &Ends<M, E, A, S, P, Q, F, G, R>) -> bool
    ensures { result ≡ are_all_whole ends.now }
{
    ends.core.whole
        && ends.user.whole
        && ends.first_link.whole
        && ends.second_link.whole
        && ends.indexer.whole
        && ends.notifier.whole
}

/// What the parts came to, over lanes of so many places. `None` where one of them has not run whole.
pub(crate) fn settle_ends<
    E: Drop,
    A: Drop,
    M: Machine<E, A> + Drop,
    S: Speaker<E, A>,
    P: Speaker<E, A>,
    Q: Speaker<E, A>,
    F: Fold,
    G: Fold,
    R: Drop,
>(ends: Ends<M, E, A, S, P, Q, F, G, R>, capacity: usize) -> Option<RolesEnd<M, A, S, P, Q, F, G>>
    requires { AreJoined ends.core.core ends.user.voice.talk ends.first_link.voice.talk ends.second_link.voice.talk ends.indexer.listener ends.notifier.listener }
    ensures ran { (roles : Roles M S P Q) (parts : Parts M E A S P Q F G R) → IsOutfit roles parts
        → AreNewParts S.is_ready P.is_ready Q.is_ready F.shows G.shows parts
        → AllRan M.steps M.feed_of S.speaks P.speaks Q.speaks F.shows G.shows parts ends
        → IfSome result (λ end. RolesRan M.steps M.feed_of S.speaks P.speaks Q.speaks F.shows G.shows roles end) }
    ensures speakers { IfSome result (λ end. (end.user.speaker ≡ ends.user.voice.speaker) × (end.first_link.speaker ≡ ends.first_link.voice.speaker) × (end.second_link.speaker ≡ ends.second_link.voice.speaker)) }
    ensures capacity { IfSome result (λ end. end.capacity ≡ capacity) }
{
    if !are_all_whole(&ends) {
        return None;
    }
    let Ends {
        core,
        user,
        first_link,
        second_link,
        indexer,
        notifier,
    } = ends;
    let (user, user_post, user_tap) = apart(user);
    let (first_link, first_post, first_tap) = apart(first_link);
    let (second_link, second_post, second_tap) = apart(second_link);
    let (indexer, indexer_tap) = heard(indexer);
    let (notifier, notifier_tap) = heard(notifier);
    let posts = Posts {
        user: user_post,
        first_link: first_post,
        second_link: second_post,
    };
    let taps = Taps {
        user: user_tap,
        first_link: first_tap,
        second_link: second_tap,
    };
    let feed_taps = FeedTaps {
        indexer: indexer_tap,
        notifier: notifier_tap,
    };
    let machine = settle(core.core, posts, taps, feed_taps)?;
    Some(RolesEnd {
        machine,
        user,
        first_link,
        second_link,
        indexer,
        notifier,
        capacity,
    })
}

/// What a voice said, and its ends of the lanes.
fn apart<S: Drop, E: Drop, A: Drop, R: Drop>(
    end: VoiceEnd<S, E, A, R>,
) -> (Spoken<S, A>, Post<E>, Tap<A, R>)
    ensures spoken { result.0 ≡ spoken_of end }
    ensures post { result.1 ≡ end.voice.talk.post }
    ensures tap { result.2 ≡ end.voice.talk.tap }
{
    let Voice { speaker, talk } = end.voice;
    let Talk { post, tap, replies } = talk;
    (Spoken { speaker, replies }, post, tap)
}

/// What a subscriber heard, and its end of the feed's tap.
fn heard<F: Drop, R: Drop>(end: ListenerEnd<F, R>) -> (Heard<F>, Tap<Entry, R>)
    ensures heard { result.0 ≡ heard_of end }
    ensures tap { result.1 ≡ end.listener.tap }
{
    let Listener {
        tap,
        subscriber,
        taken,
    } = end.listener;
    (Heard { subscriber, taken }, tap)
}
