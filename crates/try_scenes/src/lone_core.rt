//! A core's thread by itself: its letters wait already, and so do the places for all that it answers and tells.
ghost use Rattle.std.specs.Prelude.{◌≡◌, [], IfOk};
ghost use Rattle.mr_threads.specs.Core.{AreFeedsOpen, AreRepliesOpen};

use crate::device::{Device, device_of};
use crate::replica::SceneReplica;
use crate::words::read_id;
use anyhow::{Context, Result, bail};
use mr_feed::Entry;
use mr_lane::{Desk, Drawn, Post, Posts, Tap, inbox, tap};
use mr_node::Answer;
use mr_replica::Event;
use mr_threads::{FeedTaps, Feeds, Replies, Taps};
use std::alloc::{AllocError, Global};
use std::mem;
use std::sync::Wait;

/// How many places each lane has.
const PLACES: usize = 16;

/// `core R`: what the core of this replica answers to its user, who asks what it was told to ask, and to a pull of its first
/// link; what it tells both subscribers; and whether it could tell them all.
pub fn core<C: SceneReplica, L, R: Wait + Copy>(
    rt: &R,
    alloc: Global,
    devices: &mut [Device<C, L>],
    line: &str,
) -> Result<String> {
    let device = device_of(devices, read_id(line)?)?;
    let events = mem::replace(&mut device.work.events, Vec::new(alloc));
    let desk = desk_of(rt, alloc, events)?;
    run(rt, alloc, &mut device.replica, desk)
}

/// The desk of an inbox in which these letters of the user wait, a pull of the first link, and all end marks.
fn desk_of<R: Wait>(rt: &R, alloc: Global, events: Vec<Event>) -> Result<Desk<Event>>
    ensures { IfOk result (λ desk. desk.taken ≡ []) }
{
    let (mut posts, desk) = inbox(alloc, PLACES)?;
    send_all(rt, &mut posts.user, events)?;
    finish_all(rt, &mut posts)?;
    Ok(desk)
}

/// Sends these letters.
fn send_all<E: Drop, R: Wait>(rt: &R, post: &mut Post<E>, letters: Vec<E>) -> Result<()> {
    for letter in letters {
        if post.send(rt, letter).is_err() {
            bail!("the lane is full");
        }
    }
    Ok(())
}

/// Sends a pull of the first link, and finishes all posts.
fn finish_all<R: Wait>(rt: &R, posts: &mut Posts<Event>) -> Result<()> {
    if posts.first_link.send(rt, Event::Pull).is_err() {
        bail!("the lane is full");
    }
    posts.user.finish(rt)?;
    posts.first_link.finish(rt)?;
    posts.second_link.finish(rt)?;
    Ok(())
}

/// A reply spout for each sender, and the taps behind them.
fn new_replies<A: Drop, R: Copy>(rt: R, alloc: Global) -> Result<(Replies<A, R>, Taps<A, R>)>
    ensures { IfOk result (λ two. AreRepliesOpen two.0) }
{
    let (user, user_tap) = tap(rt, alloc, PLACES)?;
    let (first_link, first_tap) = tap(rt, alloc, PLACES)?;
    let (second_link, second_tap) = tap(rt, alloc, PLACES)?;
    let replies = Replies {
        user,
        first_link,
        second_link,
    };
    let taps = Taps {
        user: user_tap,
        first_link: first_tap,
        second_link: second_tap,
    };
    Ok((replies, taps))
}

/// A feed spout for each subscriber, and the taps behind them.
fn new_feeds<R: Copy>(rt: R, alloc: Global) -> Result<(Feeds<R>, FeedTaps<R>)>
    ensures { IfOk result (λ two. AreFeedsOpen two.0) }
{
    let (indexer, indexer_tap) = tap(rt, alloc, PLACES)?;
    let (notifier, notifier_tap) = tap(rt, alloc, PLACES)?;
    let taps = FeedTaps {
        indexer: indexer_tap,
        notifier: notifier_tap,
    };
    Ok((Feeds { indexer, notifier }, taps))
}

/// Runs the core of the replica that is there, and puts it back: what it answered and told, and whether it was whole.
fn run<C: SceneReplica, R: Wait + Copy>(
    rt: &R,
    alloc: Global,
    place: &mut Option<C>,
    desk: Desk<Event>,
) -> Result<String>
    requires { desk.taken ≡ [] }
{
    let (replies, mut taps) = new_replies(*rt, alloc)?;
    let (feeds, mut feed_taps) = new_feeds(*rt, alloc)?;
    let is_whole = run_over(rt, place, desk, replies, feeds)?;
    Ok(told(alloc, &mut taps, &mut feed_taps, is_whole)?)
}

/// Runs the core of the replica that is there over these lanes, and puts it back: whether the core was whole.
fn run_over<C: SceneReplica, R: Wait + Copy>(
    rt: &R,
    place: &mut Option<C>,
    desk: Desk<Event>,
    replies: Replies<Answer, R>,
    feeds: Feeds<R>,
) -> Result<bool>
    requires desk { desk.taken ≡ [] }
    requires replies { AreRepliesOpen replies }
    requires feeds { AreFeedsOpen feeds }
{
    let replica = place.take().context("a replica is gone")?;
    let (replica, is_whole) = replica.run_core(rt, desk, replies, feeds);
    *place = Some(replica);
    Ok(is_whole)
}

/// What came over these taps.
fn told<R: Wait>(
    alloc: Global,
    taps: &mut Taps<Answer, R>,
    feed_taps: &mut FeedTaps<R>,
    is_whole: bool,
) -> Result<String, AllocError> {
    let mut text = String::new(alloc);
    push_answers(&mut text, "user", &mut taps.user)?;
    push_answers(&mut text, "first", &mut taps.first_link)?;
    push_answers(&mut text, "second", &mut taps.second_link)?;
    push_entries(&mut text, "indexer", &mut feed_taps.indexer)?;
    push_entries(&mut text, "notifier", &mut feed_taps.notifier)?;
    text.push_str(if is_whole { "whole\n" } else { "not whole\n" })?;
    Ok(text)
}

/// A sign for each answer, and a point where the tap is closed behind them.
fn push_answers<R: Wait>(
    text: &mut String,
    whose: &str,
    tap: &mut Tap<Answer, R>,
) -> Result<(), AllocError> {
    write!(text, "{whose}: ")?;
    for _ in 0..=PLACES {
        let sign = sign_of(&tap.take());
        match sign {
            Some(sign) => text.push(sign)?,
            None => break,
        }
        if sign == Some('.') {
            break;
        }
    }
    text.push('\n')
}

/// A plus for an answer, a minus for a refusal, and a point where the tap is closed.
fn sign_of(drawn: &Drawn<Answer>) -> Option<char> {
    match drawn {
        Drawn::Item(Ok(_)) => Some('+'),
        Drawn::Item(Err(_)) => Some('-'),
        Drawn::Closed => Some('.'),
        Drawn::Empty => None,
    }
}

/// The version of each entry, and a point where the tap is closed behind them.
fn push_entries<R: Wait>(
    text: &mut String,
    whose: &str,
    tap: &mut Tap<Entry, R>,
) -> Result<(), AllocError> {
    write!(text, "{whose}: ")?;
    for _ in 0..=PLACES {
        if !push_entry(text, &tap.take())? {
            break;
        }
    }
    text.push('\n')
}

/// The version of an entry, or a point where the tap is closed. Gives whether it was an entry.
fn push_entry(text: &mut String, drawn: &Drawn<Entry>) -> Result<bool, AllocError> {
    match drawn {
        Drawn::Item(entry) => {
            write!(text, "{} ", entry.version())?;
            Ok(true)
        }
        Drawn::Closed => {
            text.push('.')?;
            Ok(false)
        }
        Drawn::Empty => Ok(false),
    }
}
