//! The lanes of a node, and what is put at their ends.
ghost use Rattle.std.specs.Prelude.{◌≡◌, ◌<◌, ◌⊎◌, ◌↔◌, [], IfOk, Err};
ghost use Rattle.mr_feed.specs.declared.port.TheConstants.{MAX_CAPACITY};
ghost use Rattle.mr_threads.specs.inner.Outfit.{IsNewTap, AreNewReplies, AreNewFeeds, AreNewLanes, AreJoined, IsOutfit};
ghost use Rattle.mr_threads.specs.Listening.{HasHeard};
ghost use Rattle.mr_threads.specs.inner.Running.{AreNewParts};

use crate::core_parts::{Core, Feeds, Replies};
use crate::listener::Listener;
use crate::machine::Machine;
use crate::roles::Roles;
use crate::running::Parts;
use crate::settling::{FeedTaps, Taps};
use crate::speaker::Speaker;
use crate::talk::Talk;
use crate::voice::Voice;
use mr_feed::Entry;
use mr_lane::{Desk, LaneFault, Post, Posts, Spout, Tap, inbox, tap};
use mr_subs::{Fold, Subscriber};
use std::alloc::Global;

/// The lanes of a node: an inbox, a reply tap for each sender, and a feed tap for each subscriber.
#[derive(Drop)]
pub(crate) struct Lanes<E, A, R> {
    pub posts: Posts<E>,
    pub desk: Desk<E>,
    pub replies: Replies<A, R>,
    pub taps: Taps<A, R>,
    pub feeds: Feeds<R>,
    pub feed_taps: FeedTaps<R>,
}

/// New lanes, each with so many places.
pub(crate) fn new_lanes<E: Drop, A: Drop, R: Copy>(
    rt: R,
    alloc: Global,
    capacity: usize,
) -> Result<Lanes<E, A, R>, LaneFault>
    ensures ok { IfOk result AreNewLanes }
    ensures capacity { IfOk result (λ lanes. lanes.desk.capacity ≡ capacity) }
    ensures no_capacity { (result ≡ Err LaneFault.NoCapacity) ↔ ((capacity ≡ 0) ⊎ (MAX_CAPACITY < capacity)) }
{
    let (posts, desk) = inbox(alloc, capacity)?;
    let (replies, taps) = new_replies(rt, alloc, capacity)?;
    let (feeds, feed_taps) = new_feeds(rt, alloc, capacity)?;
    Ok(Lanes {
        posts,
        desk,
        replies,
        taps,
        feeds,
        feed_taps,
    })
}

/// A new reply tap for each sender.
fn new_replies<A: Drop, R: Copy>(
    rt: R,
    alloc: Global,
    capacity: usize,
) -> Result<(Replies<A, R>, Taps<A, R>), LaneFault>
    ensures ok { IfOk result (λ two. AreNewReplies capacity two.0 two.1) }
    ensures no_capacity { (result ≡ Err LaneFault.NoCapacity) ↔ ((capacity ≡ 0) ⊎ (MAX_CAPACITY < capacity)) }
{
    let (user_spout, user) = new_tap(rt, alloc, capacity)?;
    let (first_spout, first_link) = new_tap(rt, alloc, capacity)?;
    let (second_spout, second_link) = new_tap(rt, alloc, capacity)?;
    let replies = Replies {
        user: user_spout,
        first_link: first_spout,
        second_link: second_spout,
    };
    let taps = Taps {
        user,
        first_link,
        second_link,
    };
    Ok((replies, taps))
}

/// A new feed tap for each subscriber.
fn new_feeds<R: Copy>(
    rt: R,
    alloc: Global,
    capacity: usize,
) -> Result<(Feeds<R>, FeedTaps<R>), LaneFault>
    ensures ok { IfOk result (λ two. AreNewFeeds capacity two.0 two.1) }
    ensures no_capacity { (result ≡ Err LaneFault.NoCapacity) ↔ ((capacity ≡ 0) ⊎ (MAX_CAPACITY < capacity)) }
{
    let (indexer_spout, indexer) = new_tap(rt, alloc, capacity)?;
    let (notifier_spout, notifier) = new_tap(rt, alloc, capacity)?;
    let feeds = Feeds {
        indexer: indexer_spout,
        notifier: notifier_spout,
    };
    Ok((feeds, FeedTaps { indexer, notifier }))
}

/// A new tap.
fn new_tap<T: Drop, R: Copy>(
    rt: R,
    alloc: Global,
    capacity: usize,
) -> Result<(Spout<T, R>, Tap<T, R>), LaneFault>
    ensures ok { IfOk result (λ ends. IsNewTap capacity ends.0 ends.1) }
    ensures no_capacity { (result ≡ Err LaneFault.NoCapacity) ↔ ((capacity ≡ 0) ⊎ (MAX_CAPACITY < capacity)) }
{
    tap(rt, alloc, capacity)
}

/// Puts the machine, the speakers and two new subscribers at the ends of these lanes.
pub(crate) fn outfit<
    E: Drop,
    A: Drop,
    M: Machine<E, A>,
    S: Speaker<E, A>,
    P: Speaker<E, A>,
    Q: Speaker<E, A>,
    F: Fold,
    G: Fold,
    R,
>(
    alloc: Global,
    roles: Roles<M, S, P, Q>,
    lanes: Lanes<E, A, R>,
) -> Parts<M, E, A, S, P, Q, F, G, R>
    requires lanes { AreNewLanes lanes }
    requires user { S.is_ready roles.user }
    requires first_link { P.is_ready roles.first_link }
    requires second_link { Q.is_ready roles.second_link }
    ensures new { AreNewParts S.is_ready P.is_ready Q.is_ready F.shows G.shows result }
    ensures joined { AreJoined result.core result.user.talk result.first_link.talk result.second_link.talk result.indexer result.notifier }
    ensures roles { IsOutfit roles result }
    ensures desk { result.core.desk ≡ lanes.desk }
{
    let Lanes {
        posts,
        desk,
        replies,
        taps,
        feeds,
        feed_taps,
    } = lanes;
    Parts {
        core: Core {
            machine: roles.machine,
            desk,
            replies,
            feeds,
        },
        user: voice(alloc, roles.user, posts.user, taps.user),
        first_link: voice(alloc, roles.first_link, posts.first_link, taps.first_link),
        second_link: voice(
            alloc,
            roles.second_link,
            posts.second_link,
            taps.second_link,
        ),
        indexer: listener(alloc, feed_taps.indexer),
        notifier: listener(alloc, feed_taps.notifier),
    }
}

/// A voice that has heard nothing.
fn voice<S, E, A, R>(alloc: Global, speaker: S, post: Post<E>, tap: Tap<A, R>) -> Voice<S, E, A, R>
    ensures speaker { result.speaker ≡ speaker }
    ensures post { result.talk.post ≡ post }
    ensures tap { result.talk.tap ≡ tap }
    ensures replies { result.talk.replies.items ≡ [] }
{
    Voice {
        speaker,
        talk: Talk {
            post,
            tap,
            replies: Vec::new(alloc),
        },
    }
}

/// A listener that has heard nothing.
fn listener<F: Fold, R>(alloc: Global, tap: Tap<Entry, R>) -> Listener<F, R>
    requires { tap.passed ≡ [] }
    ensures tap { result.tap ≡ tap }
    ensures new { HasHeard F.shows [] result }
{
    Listener {
        tap,
        subscriber: Subscriber::new(alloc),
        taken: Vec::new(alloc),
    }
}
