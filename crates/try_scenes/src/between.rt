//! An inbox and a tap whose ends are in threads of their own.
ghost use Rattle.std.specs.Prelude.{◌≡◌};
ghost use Rattle.std.specs.Thread.{IsSync};
ghost use Rattle.mr_lane.specs.Inbox.{ArePostsOf};

use crate::words::{next_count, next_number, words};
use anyhow::Result;
use mr_lane::{
    Arrival, Desk, Drawn, FinishFault, Post, Posts, SendFault, Sender, Spout, Tap, inbox, tap,
    tap_settle,
};
use std::alloc::Global;
use std::sync::Wait;
use std::thread;
use std::thread::Threads;

/// The letter that is to come next of each of two senders, counted from 0, and whether each came in its turn.
#[derive(Clone, Copy, Drop)]
struct Turns {
    user: u64,
    first_link: u64,
    in_turn: bool,
}

impl Turns {
    /// No letter has come.
    const NONE: Turns = Turns {
        user: 0,
        first_link: 0,
        in_turn: true,
    };

    /// Behind this letter.
    fn behind(self, sender: Sender, letter: u64) -> Turns {
        let next = letter.saturating_add(1);
        match sender {
            Sender::User => Turns {
                user: next,
                in_turn: self.in_turn && self.user == letter,
                ..self
            },
            Sender::FirstLink => Turns {
                first_link: next,
                in_turn: self.in_turn && self.first_link == letter,
                ..self
            },
            Sender::SecondLink => Turns {
                in_turn: false,
                ..self
            },
        }
    }
}

/// `letters PLACES N`: two posts of an inbox send N letters each in threads of their own, while its desk takes them.
pub fn letters<R: Threads + Wait + Sync>(rt: &R, alloc: Global, line: &str) -> Result<String> {
    let mut words = words(line);
    let places = next_count(&mut words)?;
    let count = next_number(&mut words)?;
    let (mut posts, desk) = inbox(alloc, places)?;
    posts.second_link.finish(rt)?;
    let (posts, desk, turns) = exchange(rt, posts, desk, count);
    let is_settled = desk.settle(posts).is_ok();
    letters_text(alloc, turns, is_settled)
}

/// How many letters came of each, whether in their order, and whether the desk heard all out.
fn letters_text(alloc: Global, turns: Turns, is_settled: bool) -> Result<String> {
    let (user, first) = (turns.user, turns.first_link);
    let order = if turns.in_turn { "in order" } else { "mixed" };
    let settled = if is_settled { "settled" } else { "not settled" };
    Ok(format!(in alloc; "{user} and {first} came, {order}, {settled}\n")?)
}

/// Sends a letter once there is room.
fn send_one<R: Wait>(rt: &R, post: &mut Post<u64>, letter: u64)
    ensures id { post.new.id ≡ post.old.id }
    ensures sender { post.new.sender ≡ post.old.sender }
{
    for _ in rt.forever() {
        match post.send(rt, letter) {
            Err(SendFault::Full(_)) => thread::yield_now(),
            _ => return,
        }
    }
}

/// Finishes once there is room.
fn finish_one<R: Wait>(rt: &R, post: &mut Post<u64>)
    ensures id { post.new.id ≡ post.old.id }
    ensures sender { post.new.sender ≡ post.old.sender }
{
    for _ in rt.forever() {
        match post.finish(rt) {
            Err(FinishFault::Full) => thread::yield_now(),
            Ok(()) => return,
        }
    }
}

/// Sends so many letters, from 0 on, in order, and finishes.
fn send_all<R: Wait>(rt: &R, mut post: Post<u64>, count: u64) -> Post<u64>
    ensures id { result.id ≡ post.id }
    ensures sender { result.sender ≡ post.sender }
{
    for letter in 0..count {
        send_one(rt, &mut post, letter);
    }
    finish_one(rt, &mut post);
    post
}

/// Takes until all have finished.
fn take_all<R: Wait>(rt: &R, mut desk: Desk<u64>) -> (Desk<u64>, Turns)
    ensures { result.0.id ≡ desk.id }
{
    let mut turns = Turns::NONE;
    for _ in rt.forever() {
        match desk.take(rt) {
            Arrival::Letter(sender, letter) => turns = turns.behind(sender, letter),
            Arrival::End(_) => {}
            Arrival::Empty => thread::yield_now(),
        }
        if desk.have_all_finished() {
            break;
        }
    }
    (desk, turns)
}

/// Two posts send in threads of their own, while the desk takes.
fn exchange<R: Threads + Wait + Sync>(
    rt: &R,
    posts: Posts<u64>,
    desk: Desk<u64>,
    count: u64,
) -> (Posts<u64>, Desk<u64>, Turns)
    requires { ArePostsOf desk posts }
    ensures { ArePostsOf result.1 result.0 }
{
    let Posts {
        user,
        first_link,
        second_link,
    } = posts;
    let (user, (first_link, (desk, turns))) = thread::join(
        rt,
        move || -> Post<u64>
            requires { IsSync R.row }
            ensures { (result.id ≡ user.id) × (result.sender ≡ user.sender) }
        { send_all(rt, user, count) },
        move || -> (Post<u64>, (Desk<u64>, Turns))
            requires { IsSync R.row }
            ensures { (result.0.id ≡ first_link.id)
                × (result.0.sender ≡ first_link.sender)
                × (result.1.0.id ≡ desk.id) }
        { send_and_take(rt, first_link, desk, count) },
    );
    let posts = Posts {
        user,
        first_link,
        second_link,
    };
    (posts, desk, turns)
}

/// One post sends in a thread of its own, while the desk takes.
fn send_and_take<R: Threads + Wait + Sync>(
    rt: &R,
    post: Post<u64>,
    desk: Desk<u64>,
    count: u64,
) -> (Post<u64>, (Desk<u64>, Turns))
    ensures { (result.0.id ≡ post.id)
        × (result.0.sender ≡ post.sender)
        × (result.1.0.id ≡ desk.id) }
{
    thread::join(
        rt,
        move || -> Post<u64>
            requires { IsSync R.row }
            ensures { (result.id ≡ post.id) × (result.sender ≡ post.sender) }
        { send_all(rt, post, count) },
        move || -> (Desk<u64>, Turns)
            requires { IsSync R.row }
            ensures { result.0.id ≡ desk.id }
        { take_all(rt, desk) },
    )
}

/// `items PLACES N`: the spout of a tap offers N items in a thread of its own, while the tap takes them.
pub fn items<R: Threads + Wait + Sync + Send + Copy>(
    rt: &R,
    alloc: Global,
    line: &str,
) -> Result<String> {
    let mut words = words(line);
    let places = next_count(&mut words)?;
    let count = next_number(&mut words)?;
    let (spout, tap) = tap(*rt, alloc, places)?;
    let (spout, (tap, turn)) = flow(rt, spout, tap, count);
    let is_settled = tap_settle(spout, tap);
    let settled = if is_settled { "settled" } else { "not settled" };
    Ok(format!(in alloc; "{turn} came in order, {settled}\n")?)
}

/// Offers an item once there is room.
fn offer_one<R: Wait>(rt: &R, spout: &mut Spout<u64, R>, item: u64)
    ensures { spout.new.id ≡ spout.old.id }
{
    for _ in rt.forever() {
        match spout.offer(item) {
            Err(SendFault::Full(_)) => thread::yield_now(),
            _ => return,
        }
    }
}

/// Offers so many items, from 0 on, in order, and closes once there is room.
fn offer_all<R: Wait>(rt: &R, mut spout: Spout<u64, R>, count: u64) -> Spout<u64, R>
    ensures { result.id ≡ spout.id }
{
    for item in 0..count {
        offer_one(rt, &mut spout, item);
    }
    close_one(rt, &mut spout);
    spout
}

/// Closes once there is room.
fn close_one<R: Wait>(rt: &R, spout: &mut Spout<u64, R>)
    ensures { spout.new.id ≡ spout.old.id }
{
    for _ in rt.forever() {
        match spout.close() {
            Err(FinishFault::Full) => thread::yield_now(),
            Ok(()) => return,
        }
    }
}

/// Takes until the tap is closed, and counts the items that come in their order.
fn draw_all<R: Wait>(rt: &R, mut tap: Tap<u64, R>) -> (Tap<u64, R>, u64)
    ensures { result.0.id ≡ tap.id }
{
    let mut turn = 0;
    for _ in rt.forever() {
        match tap.take() {
            Drawn::Item(item) if item == turn => turn = item.saturating_add(1),
            Drawn::Item(_) => {}
            Drawn::Empty => thread::yield_now(),
            Drawn::Closed => break,
        }
    }
    (tap, turn)
}

/// The spout offers in a thread of its own, while the tap takes.
fn flow<R: Threads + Wait + Sync + Send + Drop>(
    rt: &R,
    spout: Spout<u64, R>,
    tap: Tap<u64, R>,
    count: u64,
) -> (Spout<u64, R>, (Tap<u64, R>, u64))
    requires { spout.id ≡ tap.id }
    ensures { result.0.id ≡ result.1.0.id }
{
    thread::join(
        rt,
        move || -> Spout<u64, R>
            requires { IsSync R.row }
            ensures { result.id ≡ spout.id }
        { offer_all(rt, spout, count) },
        move || -> (Tap<u64, R>, u64)
            requires { IsSync R.row }
            ensures { result.0.id ≡ tap.id }
        { draw_all(rt, tap) },
    )
}
