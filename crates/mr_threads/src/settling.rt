//! The ends of all lanes are put together again.
ghost use Rattle.std.specs.Prelude.{◌≡◌, ◌↔◌, ◌&&◌, IsTrue, IsSome, IfSome};
ghost use Rattle.mr_lane.specs.Desk.{have_all_finished};
ghost use Rattle.mr_lane.specs.Inbox.{ArePostsOf, IsSettled};
ghost use Rattle.mr_threads.specs.Core.{IsNewCore, Ran};
ghost use Rattle.mr_threads.specs.Settled.{AreTapsOf, AreFeedTapsOf, IsInterleaving, are_taps_closed, are_feed_taps_closed, have_all_ended};
ghost use Rattle.mr_threads.specs.inner.Settled.{TookAll, TookAllEntries};

use crate::core_parts::{Core, Feeds, Replies};
use crate::machine::Machine;
use mr_feed::Entry;
use mr_lane::{Desk, Posts, Tap, tap_settle};

/// The ends of the reply taps at which their senders took.
#[derive(Drop)]
pub struct Taps<A, R> {
    pub user: Tap<A, R>,
    pub first_link: Tap<A, R>,
    pub second_link: Tap<A, R>,
}

/// The ends of the feed taps at which the subscribers took.
#[derive(Drop)]
pub struct FeedTaps<R> {
    pub indexer: Tap<Entry, R>,
    pub notifier: Tap<Entry, R>,
}

/// Whether all that was offered was taken.
fn settle_replies<A: Drop, R: Drop>(replies: Replies<A, R>, taps: Taps<A, R>) -> bool
    requires { AreTapsOf replies taps }
    ensures closed { result ≡ are_taps_closed taps }
    ensures took_all { IsTrue result → TookAll replies taps }
{
    let user = tap_settle(replies.user, taps.user);
    let first = tap_settle(replies.first_link, taps.first_link);
    let second = tap_settle(replies.second_link, taps.second_link);
    user && first && second
}

/// Whether all entries that were offered were taken.
fn settle_feeds<R: Drop>(feeds: Feeds<R>, taps: FeedTaps<R>) -> bool
    requires { AreFeedTapsOf feeds taps }
    ensures closed { result ≡ are_feed_taps_closed taps }
    ensures took_all { IsTrue result → TookAllEntries feeds taps }
{
    let indexer = tap_settle(feeds.indexer, taps.indexer);
    let notifier = tap_settle(feeds.notifier, taps.notifier);
    indexer && notifier
}

/// Whether what the desk took is what the posts sent.
fn settle_inbox<E: Drop>(desk: Desk<E>, posts: Posts<E>) -> bool
    requires { ArePostsOf desk posts }
    ensures finished { IsTrue result ↔ IsTrue (have_all_finished desk.taken) }
    ensures settled { IsTrue result → IsSettled desk posts }
{
    desk.settle(posts).is_ok()
}

/// Puts the ends of all lanes together, which uses them up, and gives the machine back.
///
/// `None` says that an end mark was not taken: of a core, three voices and two listeners that have run whole,
/// each was. No memory is needed, and the cost is the same however much went through the lanes.
pub fn settle<E: Drop, A: Drop, M: Machine<E, A> + Drop, R: Drop>(
    core: Core<M, E, A, R>,
    posts: Posts<E>,
    taps: Taps<A, R>,
    feed_taps: FeedTaps<R>,
) -> Option<M>
    requires posts { ArePostsOf core.desk posts }
    requires taps { AreTapsOf core.replies taps }
    requires feed_taps { AreFeedTapsOf core.feeds feed_taps }
    ensures ended { IsSome result ↔ IsTrue (have_all_ended core taps feed_taps) }
    ensures same { IfSome result (λ machine. machine ≡ core.machine) }
    ensures interleaved { (old : Core M E A R) → IsNewCore old → Ran M.steps M.feed_of old core → IfSome result (λ machine.
        IsInterleaving M.steps M.feed_of old.machine posts.user.sent posts.first_link.sent posts.second_link.sent
        machine taps.user.passed taps.first_link.passed taps.second_link.passed feed_taps.indexer.passed feed_taps.notifier.passed) }
{
    let Core {
        machine,
        desk,
        replies,
        feeds,
    } = core;
    let inbox = settle_inbox(desk, posts);
    let replies = settle_replies(replies, taps);
    let feeds = settle_feeds(feeds, feed_taps);
    if inbox && replies && feeds {
        return Some(machine);
    }
    None
}
